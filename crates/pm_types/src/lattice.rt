// Faces by rank.

ghost use Rattle.pm_types.specs.Lists.{lists_of};
ghost use Rattle.std.specs.Prelude.{IfOk, map, ◌≡◌};

use pm_geom::copy_sets;
use std::alloc::{AllocError, Global};
use std::marker::Model;

/// For each rank the faces of that rank, as sets of indices.
#[derive(Debug, Drop)]
pub struct Lattice {
    ranks: Vec<Vec<Vec<u32>>>,
}

impl Model for Lattice {
    ghost use Rattle.pm_types.specs.Lists.{lists_of};
    ghost use Rattle.std.specs.Prelude.{ℕ, List, map};

    ghost Value = { List (List (List ℕ)) };

    ghost view = { λ l. map lists_of l.ranks.items };
}

impl Lattice {
    /// The faces of a list, whose place k has those of rank k. Takes no memory.
    pub fn from_vec(ranks: Vec<Vec<Vec<u32>>>) -> Lattice
        ensures { result ≡ map lists_of ranks.items }
    {
        Lattice { ranks }
    }

    /// The faces of each rank, from rank 0 on.
    pub fn ranks(&self) -> &[Vec<Vec<u32>>]
        ensures { map lists_of result.now ≡ self.now }
    {
        &self.ranks
    }

    /// The same faces.
    pub fn copy(&self, alloc: Global) -> Result<Lattice, AllocError>
        ensures { IfOk result (λ r. r ≡ self.now) }
    {
        let mut ranks = Vec::new(alloc);
        for faces in &self.ranks {
            ranks.push(copy_sets(alloc, faces)?)?;
        }
        Ok(Lattice { ranks })
    }
}
