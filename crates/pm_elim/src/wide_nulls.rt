// Null spaces and dual rows by wide numbers on the way. A null space is found in the extended list of the rows
// themselves: on that of their echelon basis the rows on the way are wider.

ghost use Rattle.pm_vector.specs.Cones.{IsIndependent};
ghost use Rattle.pm_vector.specs.Rows.{HasCols};
ghost use Rattle.pm_elim.specs.Duals.{IsDualBasis, IsDualRow};
ghost use Rattle.pm_elim.specs.Lost.{HasNoWideDuals, IfLost, IsLostOnExtended, IsLostWithoutOne};
ghost use Rattle.pm_vector.specs.NullSpaces.{IsNullBasis};
ghost use Rattle.std.specs.Prelude.{IfErr, IfOk, List, length, ◌+◌, ◌<◌, ◌^◌, ◌≤◌, ◌⊎◌, ℕ};

use crate::basis::Growing;
use crate::duals::{copies_without, new_place, oriented};
use crate::extended::extended;
use crate::nulls::tails_of;
use crate::wide_bases::wide_basis;
use crate::wide_duals::duals_at_once;
use crate::wide_rounds::WideFail;
use pm_vector::Ints;
use std::alloc::Global;

/// The echelon basis of the null space of rows with `cols` entries each. It is found in the extended list of the rows
/// themselves.
fn wide_null(alloc: Global, rows: &[Ints], cols: usize) -> Result<Growing, WideFail>
    requires columns { HasCols cols rows.now }
    requires few_rows { length rows.now < 2 ^ 32 }
    requires few_columns { cols < 2 ^ 31 }
    ensures null { IfOk result (λ v. IsNullBasis cols rows.now v.rows.items v.pivots.items) }
    ensures count { IfOk result (λ v. cols ≤ length v.rows.items + length rows.now) }
    ensures lost { IfErr result (λ f. IfLost f (IsLostOnExtended cols rows.now)) }
{
    let listed = extended(alloc, rows, cols)?;
    let whole = wide_basis(alloc, &listed, rows.len() + cols)?;
    let null = tails_of(alloc, &whole, rows.len())?;
    Ok(null)
}

/// The rows of that basis.
pub fn wide_null_space(alloc: Global, rows: &[Ints], cols: usize) -> Result<Vec<Ints>, WideFail>
    requires columns { HasCols cols rows.now }
    requires few_rows { length rows.now < 2 ^ 32 }
    requires few_columns { cols < 2 ^ 31 }
    ensures null { IfOk result (λ v. (P : List ℕ) × IsNullBasis cols rows.now v.items P) }
    ensures lost { IfErr result (λ f. IfLost f (IsLostOnExtended cols rows.now)) }
{
    let null = wide_null(alloc, rows, cols)?;
    Ok(null.rows)
}

/// The dual row for a place.
fn wide_dual_row(
    alloc: Global,
    rows: &[Ints],
    cols: usize,
    j: usize,
    null: &Growing,
) -> Result<Ints, WideFail>
    requires columns { HasCols cols rows.now }
    requires few_rows { length rows.now < 2 ^ 32 }
    requires few_columns { cols < 2 ^ 31 }
    requires within { j < length rows.now }
    requires is_null { IsNullBasis cols rows.now null.now.rows.items null.now.pivots.items }
    ensures dual { IfOk result (λ x. IsDualRow cols rows.now null.now.pivots.items j x) }
    ensures lost { IfErr result (λ f.
        IfLost f (¬ (IsIndependent rows.now) ⊎ IsLostWithoutOne cols rows.now)) }
{
    let other_rows = copies_without(alloc, rows, j)?;
    let mut others = wide_null(alloc, &other_rows, cols)?;
    let Some(place) = new_place(&others.pivots, &null.pivots) else {
        return Err(WideFail::Lost);
    };
    let found = others.rows.remove(place);
    Ok(oriented(found, &rows[j]))
}

/// The dual basis of the rows, by an elimination for each of them.
fn duals_one_by_one(alloc: Global, rows: &[Ints], cols: usize) -> Result<Vec<Ints>, WideFail>
    requires columns { HasCols cols rows.now }
    requires few_rows { length rows.now < 2 ^ 32 }
    requires few_columns { cols < 2 ^ 31 }
    ensures dual { IfOk result (λ v. IsDualBasis cols rows.now v.items) }
    ensures lost { IfErr result (λ f. IfLost f (HasNoWideDuals cols rows.now)) }
{
    let null = wide_null(alloc, rows, cols)?;
    let mut duals = Vec::new(alloc);
    for j in 0..rows.len() {
        let dual = wide_dual_row(alloc, rows, cols, j, &null)?;
        duals.push(dual)?;
    }
    Ok(duals)
}

/// The dual basis of the rows. It is found by one elimination, or by one for each row where the one leaves the range.
pub fn wide_dual_basis(alloc: Global, rows: &[Ints], cols: usize) -> Result<Vec<Ints>, WideFail>
    requires columns { HasCols cols rows.now }
    requires few_rows { length rows.now < 2 ^ 32 }
    requires few_columns { cols < 2 ^ 31 }
    ensures dual { IfOk result (λ v. IsDualBasis cols rows.now v.items) }
    ensures lost { IfErr result (λ f. IfLost f (HasNoWideDuals cols rows.now)) }
{
    match duals_at_once(alloc, rows, cols) {
        Ok(duals) => Ok(duals),
        Err(WideFail::Lost) => duals_one_by_one(alloc, rows, cols),
        Err(WideFail::Memory) => Err(WideFail::Memory),
    }
}
