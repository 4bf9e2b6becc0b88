// Values of properties.

ghost use Rattle.pm_types.specs.Values.{IndexSets};
ghost use Rattle.pm_types.specs.Views.{view_of};
ghost use Rattle.std.specs.Prelude.{IfOk, List, OnErr, OnOk, [], length, map, ℕ, ◌++◌, ◌∷◌, ◌≡◌};

use crate::lattice::Lattice;
use crate::number::Number;
use pm_fraction::Matrix;
use pm_geom::copy_sets;
use std::alloc::{AllocError, Global};
use std::marker::Model;

/// Ascending rows of indices below a column count.
#[derive(Debug, Drop)]
pub struct Sets {
    rows: Vec<Vec<u32>>,
    cols: u32,
}

impl Model for Sets {
    ghost use Rattle.pm_types.specs.Values.{IndexSets};
    ghost use Rattle.std.specs.Prelude.{map};

    ghost Value = { IndexSets };

    ghost view = { λ s. record { rows = map (λ r. r.items) s.rows.items; cols = s.cols } };
}

impl Sets {
    /// The sets of a list, of this column count. Takes no memory.
    pub fn from_vec(rows: Vec<Vec<u32>>, cols: u32) -> Sets
        ensures { result ≡ record { rows = map (λ r. r.items) rows.items; cols = cols } }
    {
        Sets { rows, cols }
    }

    /// The column count.
    pub fn cols(&self) -> u32
        ensures { result ≡ self.now.cols }
    {
        self.cols
    }

    /// The sets.
    pub fn rows(&self) -> &[Vec<u32>]
        ensures { map (λ r. r.items) result.now ≡ self.now.rows }
    {
        &self.rows
    }

    /// The same sets.
    pub fn copy(&self, alloc: Global) -> Result<Sets, AllocError>
        ensures { IfOk result (λ r. r ≡ self.now) }
    {
        Ok(Sets {
            rows: copy_sets(alloc, &self.rows)?,
            cols: self.cols,
        })
    }
}

/// A list of whole numbers of 64 bits.
#[derive(Debug, Drop)]
pub struct Counts {
    numbers: Vec<i64>,
}

impl Model for Counts {
    ghost use Rattle.std.specs.Prelude.{List};
    ghost use lib.IntN.{ℤ};

    ghost Value = { List ℤ };

    ghost view = { λ c. c.numbers.items };
}

impl Counts {
    /// The list of these numbers. Takes no memory.
    pub fn from_vec(numbers: Vec<i64>) -> Counts
        ensures { result ≡ numbers.items }
    {
        Counts { numbers }
    }

    /// The numbers.
    pub fn as_slice(&self) -> &[i64]
        ensures { result.now ≡ self.now }
    {
        &self.numbers
    }

    /// The same list.
    pub fn copy(&self, alloc: Global) -> Result<Counts, AllocError>
        ensures { IfOk result (λ c. c ≡ self.now) }
    {
        Ok(Counts {
            numbers: Vec::from_slice(alloc, &self.numbers)?,
        })
    }
}

/// A value of a property.
#[derive(Debug, Drop)]
pub enum Value {
    /// Rows of fractions.
    Mat(Matrix),
    /// Sets of indices.
    Sets(Sets),
    /// A whole number.
    Int(i64),
    /// True or false.
    Bool(bool),
    /// Whole numbers, one for each place of a list.
    Counts(Counts),
    /// For each node of a graph its neighbours. The column count is the number of nodes.
    Edges(Sets),
    /// For each rank the faces of that rank.
    Lattice(Lattice),
    /// A fraction, or one of both infinities.
    Number(Number),
}

impl Value {
    /// The same value.
    pub fn copy(&self, alloc: Global) -> Result<Value, AllocError>
        ensures { IfOk result (λ v. view_of v ≡ view_of self.now) }
    {
        match self {
            Value::Mat(matrix) => Ok(Value::Mat(matrix.copy(alloc)?)),
            Value::Sets(sets) => Ok(Value::Sets(sets.copy(alloc)?)),
            Value::Int(k) => Ok(Value::Int(*k)),
            Value::Bool(b) => Ok(Value::Bool(*b)),
            Value::Counts(counts) => Ok(Value::Counts(counts.copy(alloc)?)),
            Value::Edges(rows) => Ok(Value::Edges(rows.copy(alloc)?)),
            Value::Lattice(lattice) => Ok(Value::Lattice(lattice.copy(alloc)?)),
            Value::Number(number) => Ok(Value::Number(*number)),
        }
    }
}
