// Echelon bases by wide numbers on the way, ranks, and which rows enlarge the span of those before them.

ghost use Rattle.pm_vector.specs.Rows.{HasCols};
ghost use Rattle.pm_vector.specs.Bases.{IsRank};
ghost use Rattle.pm_vector.specs.Enlarging.{MarkEnlarging};
ghost use Rattle.pm_vector.specs.Evidence.{IsBasisOf};
ghost use Rattle.pm_elim.specs.Lost.{IfLost, IsLost};
ghost use Rattle.std.specs.Prelude.{IfErr, IfOk};

use crate::basis::{Echelon, Growing};
use crate::wide_rounds::{WideFail, taken_in};
use pm_vector::Ints;
use std::alloc::Global;

/// The echelon basis of the rows.
pub(crate) fn wide_basis(alloc: Global, rows: &[Ints], cols: usize) -> Result<Growing, WideFail>
    requires { HasCols cols rows.now }
    ensures basis { IfOk result (λ b. IsBasisOf cols rows.now b.rows.items b.pivots.items) }
    ensures lost { IfErr result (λ f. IfLost f (IsLost cols rows.now)) }
{
    let mut basis = Growing {
        rows: Vec::new(alloc),
        pivots: Vec::new(alloc),
    };
    for i in 0..rows.len() {
        basis = taken_in(alloc, basis, &rows[i])?;
    }
    Ok(basis)
}

/// The echelon basis of rows with `cols` entries each.
pub fn wide_echelon(alloc: Global, rows: &[Ints], cols: usize) -> Result<Echelon, WideFail>
    requires { HasCols cols rows.now }
    ensures basis { IfOk result (λ b. IsBasisOf cols rows.now b.rows b.pivots) }
    ensures lost { IfErr result (λ f. IfLost f (IsLost cols rows.now)) }
{
    let basis = wide_basis(alloc, rows, cols)?;
    Ok(Echelon {
        rows: basis.rows,
        pivots: basis.pivots,
    })
}

/// The rank of rows with `cols` entries each.
pub fn wide_rank(alloc: Global, rows: &[Ints], cols: usize) -> Result<usize, WideFail>
    requires { HasCols cols rows.now }
    ensures rank { IfOk result (λ k. IsRank rows.now k) }
    ensures lost { IfErr result (λ f. IfLost f (IsLost cols rows.now)) }
{
    let basis = wide_basis(alloc, rows, cols)?;
    Ok(basis.rows.len())
}

/// Marks the rows that enlarge the span of those before them.
pub fn wide_enlarging(alloc: Global, rows: &[Ints], cols: usize) -> Result<Vec<bool>, WideFail>
    requires { HasCols cols rows.now }
    ensures marks { IfOk result (λ m. MarkEnlarging rows.now m.items) }
    ensures lost { IfErr result (λ f. IfLost f (IsLost cols rows.now)) }
{
    let mut basis = Growing {
        rows: Vec::new(alloc),
        pivots: Vec::new(alloc),
    };
    let mut marks = Vec::new(alloc);
    for i in 0..rows.len() {
        let before = basis.rows.len();
        basis = taken_in(alloc, basis, &rows[i])?;
        marks.push(basis.rows.len() > before)?;
    }
    Ok(marks)
}
