// Eliminations in either way: by numbers of the range, and with `wide` by wide numbers where those do not suffice. A
// refusal is always one of the range alone, with its evidence.

ghost use Rattle.pm_vector.specs.Cones.{IsIndependent};
ghost use Rattle.pm_vector.specs.Rows.{HasCols, entry};
ghost use Rattle.pm_vector.specs.Bases.{IsRank, column};
ghost use Rattle.pm_elim.specs.Duals.{IfDependent, IfDualWide, IsDualBasis};
ghost use Rattle.pm_vector.specs.Enlarging.{MarkEnlarging};
ghost use Rattle.pm_elim.specs.Refusals.{IfWide};
ghost use Rattle.pm_vector.specs.Evidence.{IsBasisOf, IsEvidence, NoEvidence};
ghost use Rattle.pm_elim.specs.Lost.{HasNoWideDuals, IsLost, IsLostOnExtended, IsLostOnNext};
ghost use Rattle.pm_vector.specs.NullSpaces.{IsNullBasis};
ghost use Rattle.pm_vector.specs.Steps.{ReducedBy, SameDirectionModulo};
ghost use Rattle.std.specs.Prelude.{IfErr, IfOk, List, OnOk, [], false, length, pos, ◌++◌, ◌<◌, ◌^◌, ◌∷◌, ◌≡◌, ◌⊎◌, true, ℕ};

use crate::basis::Echelon;
use crate::duals::dual_basis;
use crate::elimination::{echelon, rank};
use crate::evidence::{DualFail, ElimFail};
use crate::marks::enlarging;
use crate::modulo::reduce;
use crate::nulls::null_space;
use crate::wide_bases::{wide_echelon, wide_enlarging, wide_rank};
use crate::wide_modulo::wide_reduced;
use crate::wide_nulls::{wide_dual_basis, wide_null_space};
use crate::wide_rounds::WideFail;
use pm_vector::{ElimList, Ints};
use std::alloc::Global;

/// The echelon basis of rows with `cols` entries each.
pub fn echelon_by(
    alloc: Global,
    rows: &[Ints],
    cols: usize,
    wide: bool,
) -> Result<Echelon, ElimFail>
    requires columns { HasCols cols rows.now }
    requires few_rows { length rows.now < 2 ^ 32 }
    requires few_columns { cols < 2 ^ 31 }
    ensures basis { IfOk result (λ b. IsBasisOf cols rows.now b.rows b.pivots) }
    ensures wide { IfErr result (λ f. IfWide f (λ e. IsEvidence cols rows.now e)) }
    ensures lost { wide ≡ true → IfErr result (λ f. IfWide f (λ _. IsLost cols rows.now)) }
{
    let fail = match echelon(alloc, rows, cols) {
        Ok(basis) => return Ok(basis),
        Err(fail) => fail,
    };
    if !wide {
        return Err(fail);
    }
    match wide_echelon(alloc, rows, cols) {
        Ok(basis) => Ok(basis),
        Err(WideFail::Lost) => Err(fail),
        Err(WideFail::Memory) => Err(ElimFail::Memory),
    }
}

/// The rank of rows with `cols` entries each.
pub fn rank_by(alloc: Global, rows: &[Ints], cols: usize, wide: bool) -> Result<usize, ElimFail>
    requires columns { HasCols cols rows.now }
    requires few_rows { length rows.now < 2 ^ 32 }
    requires few_columns { cols < 2 ^ 31 }
    ensures rank { IfOk result (λ k. IsRank rows.now k) }
    ensures never_wide { wide ≡ false → OnOk result (NoEvidence cols rows.now ElimList.Rows) }
    ensures wide { IfErr result (λ f. IfWide f (λ e. IsEvidence cols rows.now e)) }
    ensures list { IfErr result (λ f. IfWide f (λ e. e.list ≡ ElimList.Rows)) }
    ensures lost { wide ≡ true → IfErr result (λ f. IfWide f (λ _. IsLost cols rows.now)) }
{
    let fail = match rank(alloc, rows, cols) {
        Ok(k) => return Ok(k),
        Err(fail) => fail,
    };
    if !wide {
        return Err(fail);
    }
    match wide_rank(alloc, rows, cols) {
        Ok(k) => Ok(k),
        Err(WideFail::Lost) => Err(fail),
        Err(WideFail::Memory) => Err(ElimFail::Memory),
    }
}

/// Marks the rows that enlarge the span of those before them.
pub fn enlarging_by(
    alloc: Global,
    rows: &[Ints],
    cols: usize,
    wide: bool,
) -> Result<Vec<bool>, ElimFail>
    requires columns { HasCols cols rows.now }
    requires few_rows { length rows.now < 2 ^ 32 }
    requires few_columns { cols < 2 ^ 31 }
    ensures marks { IfOk result (λ m. MarkEnlarging rows.now m.items) }
    ensures wide { IfErr result (λ f. IfWide f (λ e. IsEvidence cols rows.now e)) }
    ensures list { IfErr result (λ f. IfWide f (λ e. e.list ≡ ElimList.Rows)) }
    ensures lost { wide ≡ true → IfErr result (λ f. IfWide f (λ _. IsLost cols rows.now)) }
{
    let fail = match enlarging(alloc, rows, cols) {
        Ok(marks) => return Ok(marks),
        Err(fail) => fail,
    };
    if !wide {
        return Err(fail);
    }
    match wide_enlarging(alloc, rows, cols) {
        Ok(marks) => Ok(marks),
        Err(WideFail::Lost) => Err(fail),
        Err(WideFail::Memory) => Err(ElimFail::Memory),
    }
}

/// The echelon basis of the null space of the rows.
pub fn null_space_by(
    alloc: Global,
    rows: &[Ints],
    cols: usize,
    wide: bool,
) -> Result<Vec<Ints>, ElimFail>
    requires columns { HasCols cols rows.now }
    requires few_rows { length rows.now < 2 ^ 32 }
    requires few_columns { cols < 2 ^ 31 }
    ensures null { IfOk result (λ v. (P : List ℕ) × IsNullBasis cols rows.now v.items P) }
    ensures never_wide { wide ≡ false → OnOk result (NoEvidence cols rows.now ElimList.Rows) }
    ensures never_wide_extended { wide ≡ false → OnOk result (NoEvidence cols rows.now ElimList.Extended) }
    ensures wide { IfErr result (λ f. IfWide f (λ e. IsEvidence cols rows.now e)) }
    ensures list { IfErr result (λ f.
        IfWide f (λ e. (e.list ≡ ElimList.Rows) ⊎ (e.list ≡ ElimList.Extended))) }
    ensures lost { wide ≡ true → IfErr result (λ f. IfWide f (λ _. IsLostOnExtended cols rows.now)) }
{
    let fail = match null_space(alloc, rows, cols) {
        Ok(null) => return Ok(null),
        Err(fail) => fail,
    };
    if !wide {
        return Err(fail);
    }
    match wide_null_space(alloc, rows, cols) {
        Ok(null) => Ok(null),
        Err(WideFail::Lost) => Err(fail),
        Err(WideFail::Memory) => Err(ElimFail::Memory),
    }
}

/// The dual basis of the rows.
pub fn dual_basis_by(
    alloc: Global,
    rows: &[Ints],
    cols: usize,
    wide: bool,
) -> Result<Vec<Ints>, DualFail>
    requires columns { HasCols cols rows.now }
    requires few_rows { length rows.now < 2 ^ 32 }
    requires few_columns { cols < 2 ^ 31 }
    ensures dual { IfOk result (λ v. IsDualBasis cols rows.now v.items) }
    ensures dependent { IfErr result (λ f. IfDependent f (¬ (IsIndependent rows.now))) }
    ensures wide { IfErr result (λ f. IfDualWide f (λ e. IsEvidence cols rows.now e)) }
    ensures lost { wide ≡ true → IfErr result (λ f. IfDualWide f (λ _. HasNoWideDuals cols rows.now)) }
{
    let fail = match dual_basis(alloc, rows, cols) {
        Ok(duals) => return Ok(duals),
        Err(fail) => fail,
    };
    if !wide {
        return Err(fail);
    }
    match wide_dual_basis(alloc, rows, cols) {
        Ok(duals) => Ok(duals),
        Err(WideFail::Lost) => Err(fail),
        Err(WideFail::Memory) => Err(DualFail::Memory),
    }
}

/// A row reduced by all rows of an echelon basis: it is 0 in the pivot columns, and keeps its direction modulo their
/// span.
pub fn reduced_by(alloc: Global, basis: &Echelon, row: &Ints, wide: bool) -> Result<Ints, ElimFail>
    requires cols { HasCols (length row.now) basis.now.rows }
    requires few_columns { length row.now < 2 ^ 32 }
    ensures reduced { IfOk result (λ r. ReducedBy basis.now.rows basis.now.pivots row.now r) }
    ensures zero { IfOk result (λ r. (i : ℕ) → i < length basis.now.rows
        → entry r (column basis.now.pivots i) ≡ pos 0) }
    ensures direction { IfOk result (λ r. SameDirectionModulo basis.now.rows row.now r) }
    ensures wide { IfErr result (λ f.
        IfWide f (λ e. IsEvidence (length row.now) (basis.now.rows ++ row.now ∷ []) e)) }
    ensures lost { wide ≡ true → IfErr result (λ f.
        IfWide f (λ _. IsLostOnNext basis.now.rows basis.now.pivots row.now)) }
{
    let mut rest = row.copy(alloc)?;
    let fail = match reduce(alloc, basis, &mut rest) {
        Ok(()) => return Ok(rest),
        Err(fail) => fail,
    };
    if !wide {
        return Err(fail);
    }
    match wide_reduced(alloc, basis, row) {
        Ok(rest) => Ok(rest),
        Err(WideFail::Lost) => Err(fail),
        Err(WideFail::Memory) => Err(ElimFail::Memory),
    }
}
