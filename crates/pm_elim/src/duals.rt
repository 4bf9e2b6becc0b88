// Dual rows.

ghost use Rattle.pm_vector.specs.Cones.{IsIndependent};
ghost use Rattle.pm_vector.specs.Rows.{HasCols, dot, opposite};
ghost use Rattle.pm_vector.specs.Bases.{column};
ghost use Rattle.pm_elim.specs.Duals.{DualBasisIsUnique, IfDependent, IfDualWide, IsDualBasis, IsDualRow};
ghost use Rattle.pm_elim.specs.Refusals.{IfWide};
ghost use Rattle.pm_vector.specs.Evidence.{IsEvidence};
ghost use Rattle.pm_vector.specs.NullSpaces.{IsNullBasis};
ghost use Rattle.std.specs.Prelude.{Contains, IfErr, IfNone, IfOk, IfSome, OnOk, length, pos, remove, ◌+◌, ◌<ℤ◌, ◌<◌, ◌^◌, ◌≡◌, ◌≤◌, ◌⊎◌, ℕ};

use crate::basis::Growing;
use crate::elimination::{basis_of, basis_of_rows};
use crate::evidence::{DualFail, ElimFail};
use crate::nulls::null_of;
use crate::sign::is_negative_product;
use crate::wide_duals::duals_at_once;
use crate::wide_rounds::WideFail;
use pm_vector::{ElimList, Ints, copies, negate};
use std::alloc::{AllocError, Global};

/// Copies of all rows but the one at a place.
pub(crate) fn copies_without(
    alloc: Global,
    rows: &[Ints],
    j: usize,
) -> Result<Vec<Ints>, AllocError>
    requires { j < length rows.now }
    ensures { IfOk result (λ v. v.items ≡ remove rows.now j) }
{
    let mut made = copies(alloc, rows)?;
    let _ = made.remove(j);
    Ok(made)
}

/// The first place of a column that is not among the old ones.
pub(crate) fn new_place(columns: &[usize], old: &[usize]) -> Option<usize>
    ensures within { IfSome result (λ i. i < length columns.now) }
    ensures new { IfSome result (λ i. ¬ (Contains old.now (column columns.now i))) }
    ensures none { IfNone result ((i : ℕ) → i < length columns.now
        → Contains old.now (column columns.now i)) }
{
    for i in 0..columns.len() {
        if !old.contains(&columns[i]) {
            return Some(i);
        }
    }
    None
}

/// The echelon basis of the null space of all rows but the one at a place.
fn null_without(alloc: Global, rows: &[Ints], cols: usize, j: usize) -> Result<Growing, ElimFail>
    requires columns { HasCols cols rows.now }
    requires few_rows { length rows.now < 2 ^ 32 }
    requires few_columns { cols < 2 ^ 31 }
    requires within { j < length rows.now }
    ensures null { IfOk result (λ v. IsNullBasis cols (remove rows.now j) v.rows.items v.pivots.items) }
    ensures count { IfOk result (λ v. cols < length v.rows.items + length rows.now) }
    ensures wide { IfErr result (λ f. IfWide f (λ e. IsEvidence cols rows.now e)) }
{
    let others = copies_without(alloc, rows, j)?;
    let basis = basis_of(alloc, &others, cols, ElimList::Without(j as u32))?;
    null_of(alloc, &basis, cols, ElimList::ExtendedWithout(j as u32))
}

/// A row or its opposite, whichever has no negative product with another row.
pub(crate) fn oriented(x: Ints, row: &Ints) -> Ints
    requires { length row.now ≡ length x }
    ensures { ((result ≡ x) × ¬ (dot row.now x <ℤ pos 0))
        ⊎ ((result ≡ opposite x) × (dot row.now x <ℤ pos 0)) }
{
    let mut made = x;
    if is_negative_product(row.as_slice(), made.as_slice()) {
        negate(&mut made);
    }
    made
}

/// The dual row for a place.
fn dual_row(
    alloc: Global,
    rows: &[Ints],
    cols: usize,
    j: usize,
    null: &Growing,
) -> Result<Ints, DualFail>
    requires columns { HasCols cols rows.now }
    requires few_rows { length rows.now < 2 ^ 32 }
    requires few_columns { cols < 2 ^ 31 }
    requires within { j < length rows.now }
    requires is_null { IsNullBasis cols rows.now null.now.rows.items null.now.pivots.items }
    requires count { length null.now.rows.items + length rows.now ≤ cols }
    ensures dual { IfOk result (λ x. IsDualRow cols rows.now null.now.pivots.items j x) }
    ensures dependent { IfErr result (λ f. IfDependent f ⊥) }
    ensures wide { IfErr result (λ f. IfDualWide f (λ e. IsEvidence cols rows.now e)) }
{
    let mut others = null_without(alloc, rows, cols, j)?;
    let Some(place) = new_place(&others.pivots, &null.pivots) else {
        unreachable!()
    };
    let found = others.rows.remove(place);
    Ok(oriented(found, &rows[j]))
}

/// The sum of the sizes of the entries, at most 2^128 - 1.
fn size_of(row: &Ints) -> u128 {
    let mut size: u128 = 0;
    for i in 0..row.len() {
        size = size.saturating_add(row.get(i).unsigned_abs());
    }
    size
}

/// Whether the product of the sizes has at most 60 bits. No minor of the rows exceeds it, so that no step of an
/// elimination of theirs leaves the range.
fn are_small(rows: &[Ints]) -> bool {
    let mut product: u128 = 1;
    for row in rows {
        product = product.saturating_mul(size_of(row).max(1));
    }
    product < 1 << 60
}

/// The dual basis of the rows, from one elimination for all. None where the rows are not small, or it finds none.
fn small_duals(alloc: Global, rows: &[Ints], cols: usize) -> Result<Option<Vec<Ints>>, AllocError>
    requires columns { HasCols cols rows.now }
    requires few_rows { length rows.now < 2 ^ 32 }
    requires few_columns { cols < 2 ^ 31 }
    ensures { IfOk result (λ o. IfSome o (λ v. IsDualBasis cols rows.now v.items)) }
{
    if !are_small(rows) {
        return Ok(None);
    }
    match duals_at_once(alloc, rows, cols) {
        Ok(duals) => Ok(Some(duals)),
        Err(WideFail::Lost) => Ok(None),
        Err(WideFail::Memory) => Err(AllocError),
    }
}

/// The dual basis of independent rows with `cols` entries each: for each of them the primitive row that has product 0
/// with the others, a positive product with it, and 0 in the pivot columns of the echelon basis of the null space of
/// all rows.
/// Where the rows are small, all are found by one elimination; else each in the null space of the rows without the one
/// that it is for.
/// `Dependent` only where the rows are dependent. `Wide` only with evidence on the rows.
pub fn dual_basis(alloc: Global, rows: &[Ints], cols: usize) -> Result<Vec<Ints>, DualFail>
    requires columns { HasCols cols rows.now }
    requires few_rows { length rows.now < 2 ^ 32 }
    requires few_columns { cols < 2 ^ 31 }
    ensures dual { IfOk result (λ v. IsDualBasis cols rows.now v.items) }
    ensures independent { OnOk result (IsIndependent rows.now) }
    ensures dependent { IfErr result (λ f. IfDependent f (¬ (IsIndependent rows.now))) }
    ensures wide { IfErr result (λ f. IfDualWide f (λ e. IsEvidence cols rows.now e)) }
{
    let basis = basis_of_rows(alloc, rows, cols)?;
    if basis.rows.len() < rows.len() {
        return Err(DualFail::Dependent);
    }
    if let Some(duals) = small_duals(alloc, rows, cols)? {
        return Ok(duals);
    }
    let null = null_of(alloc, &basis, cols, ElimList::Extended)?;
    let mut duals = Vec::new(alloc);
    for j in 0..rows.len() {
        let dual = dual_row(alloc, rows, cols, j, &null)?;
        duals.push(dual)?;
    }
    Ok(duals)
}

/// Rows have at most one dual basis.
pub fn law_dual_basis_is_unique()
    ensures { DualBasisIsUnique }
{}
