// Lists that evidence shows: of rows, of places, and of sets of places.

ghost use Rattle.std.specs.Prelude.{IfOk, map, ◌≡◌};

use pm_vector::{Ints, copies};
use std::alloc::{AllocError, Global};
use std::marker::Model;

/// A list of whole rows.
#[derive(Debug, Drop)]
pub struct RowList {
    rows: Vec<Ints>,
}

impl Model for RowList {
    ghost use Rattle.pm_vector.specs.Rows.{Row};
    ghost use Rattle.std.specs.Prelude.{List};

    ghost Value = { List Row };

    ghost view = { λ list. list.rows.items };
}

impl RowList {
    /// The list of these rows. Takes no memory.
    pub fn from_vec(rows: Vec<Ints>) -> RowList
        ensures { result ≡ rows.items }
    {
        RowList { rows }
    }

    /// The rows.
    pub fn as_slice(&self) -> &[Ints]
        ensures { result.now ≡ self.now }
    {
        &self.rows
    }

    /// The same list.
    pub fn copy(&self, alloc: Global) -> Result<RowList, AllocError>
        ensures { IfOk result (λ list. list ≡ self.now) }
    {
        Ok(RowList {
            rows: copies(alloc, &self.rows)?,
        })
    }
}

/// A list of places in other lists: of rows, of indices, of variables.
#[derive(Debug, Drop)]
pub struct Places {
    places: Vec<u32>,
}

impl Model for Places {
    ghost use Rattle.std.specs.Prelude.{List, ℕ};

    ghost Value = { List ℕ };

    ghost view = { λ list. list.places.items };
}

impl Places {
    /// The list of these places. Takes no memory.
    pub fn from_vec(places: Vec<u32>) -> Places
        ensures { result ≡ places.items }
    {
        Places { places }
    }

    /// The places.
    pub fn as_slice(&self) -> &[u32]
        ensures { result.now ≡ self.now }
    {
        &self.places
    }

    /// The same list.
    pub fn copy(&self, alloc: Global) -> Result<Places, AllocError>
        ensures { IfOk result (λ list. list ≡ self.now) }
    {
        Ok(Places {
            places: Vec::from_slice(alloc, &self.places)?,
        })
    }
}

/// A list of sets of places.
#[derive(Debug, Drop)]
pub struct PlaceSets {
    sets: Vec<Vec<u32>>,
}

impl Model for PlaceSets {
    ghost use Rattle.std.specs.Prelude.{List, map, ℕ};

    ghost Value = { List (List ℕ) };

    ghost view = { λ list. map (λ set. set.items) list.sets.items };
}

impl PlaceSets {
    /// The list of these sets. Takes no memory.
    pub fn from_vec(sets: Vec<Vec<u32>>) -> PlaceSets
        ensures { result ≡ map (λ set. set.items) sets.items }
    {
        PlaceSets { sets }
    }

    /// The sets.
    pub fn as_slice(&self) -> &[Vec<u32>]
        ensures { map (λ set. set.items) result.now ≡ self.now }
    {
        &self.sets
    }

    /// The same list.
    pub fn copy(&self, alloc: Global) -> Result<PlaceSets, AllocError>
        ensures { IfOk result (λ list. list ≡ self.now) }
    {
        Ok(PlaceSets {
            sets: copy_sets(alloc, &self.sets)?,
        })
    }
}

/// Copies of sets of places.
pub fn copy_sets(alloc: Global, sets: &[Vec<u32>]) -> Result<Vec<Vec<u32>>, AllocError>
    ensures { IfOk result (λ v. map (λ set. set.items) v.items ≡ map (λ set. set.items) sets.now) }
{
    let mut made = Vec::new(alloc);
    for set in sets {
        made.push(Vec::from_slice(alloc, set)?)?;
    }
    Ok(made)
}
