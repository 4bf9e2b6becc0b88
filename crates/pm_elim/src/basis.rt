// Echelon bases.

use pm_vector::Ints;
use std::marker::Model;

/// An echelon basis, as each value of this type is: its rows, and the column of each one's first entry that is not 0.
#[derive(Drop)]
pub struct Echelon {
    pub rows: Vec<Ints>,
    pub pivots: Vec<usize>,
}

impl Model for Echelon {
    ghost use Rattle.pm_elim.specs.Bases.{BasisRows, IsSomeEchelonBasis};

    ghost Value = { BasisRows };

    ghost view = { λ b. record { rows = b.rows.items; pivots = b.pivots.items } };

    ghost invariant = { λ b. IsSomeEchelonBasis b.rows.items b.pivots.items };
}

/// A basis while rows are taken into it.
#[derive(Drop)]
pub(crate) struct Growing {
    pub rows: Vec<Ints>,
    pub pivots: Vec<usize>,
}
