// Null spaces.

ghost use Rattle.pm_vector.specs.Rows.{HasCols, Row};
ghost use Rattle.pm_vector.specs.Bases.{IsEchelonBasis, IsRank};
ghost use Rattle.pm_elim.specs.Refusals.{IfWide};
ghost use Rattle.pm_vector.specs.Evidence.{IsEvidence, IsExtended, IsWideStep, NoEvidence};
ghost use Rattle.pm_vector.specs.NullSpaces.{IsNullBasis};
ghost use Rattle.pm_elim.specs.ExtendedLists.{AreTails, IsExtendedBasis, IsWideOnExtended};
ghost use Rattle.pm_vector.specs.EliminationSteps.{EliminationStep};
ghost use Rattle.std.specs.Prelude.{All, IfErr, IfOk, List, OnOk, drop, length, map, ◌+◌, ◌-◌, ◌<◌, ◌^◌, ◌≡◌, ◌≤◌, ◌⊎◌, ℕ};

use crate::basis::Growing;
use crate::elimination::{basis_of, basis_of_rows};
use crate::evidence::ElimFail;
use crate::extended::{extended, tail_of};
use crate::round::place_of;
use pm_vector::{ElimList, Ints};
use std::alloc::{AllocError, Global};

/// The entries of each row from a column on.
fn tail_rows(alloc: Global, rows: &[Ints], from: usize) -> Result<Vec<Ints>, AllocError>
    requires { All (λ r. from ≤ length r) rows.now }
    ensures { IfOk result (λ v. v.items ≡ map (drop from) rows.now) }
{
    let mut made = Vec::new(alloc);
    for row in rows {
        made.push(tail_of(alloc, row, from)?)?;
    }
    Ok(made)
}

/// Columns, counted from a column on.
fn columns_from(alloc: Global, columns: &[usize], from: usize) -> Result<Vec<usize>, AllocError>
    ensures { IfOk result (λ v. v.items ≡ map (λ q. q - from) columns.now) }
{
    columns
        .iter()
        .map(|q| q.saturating_sub(from))
        .collect(alloc)
}

/// The rows of a basis with pivots from a column on, and these pivots, without the columns before it.
pub(crate) fn tails_of(alloc: Global, whole: &Growing, from: usize) -> Result<Growing, AllocError>
    requires as_many { length whole.now.pivots.items ≡ length whole.now.rows.items }
    requires columns { All (λ r. from ≤ length r) whole.now.rows.items }
    ensures { IfOk result (λ v.
        AreTails from whole.now.rows.items whole.now.pivots.items v.rows.items v.pivots.items) }
{
    let first = place_of(&whole.pivots, from);
    let rows = tail_rows(alloc, &whole.rows[first..], from)?;
    let pivots = columns_from(alloc, &whole.pivots[first..], from)?;
    Ok(Growing { rows, pivots })
}

/// The echelon basis of the extended list of a basis, a list that `list` names.
fn extended_basis(
    alloc: Global,
    basis: &Growing,
    cols: usize,
    list: ElimList,
) -> Result<Growing, ElimFail>
    requires is_basis { IsEchelonBasis cols basis.now.rows.items basis.now.pivots.items }
    requires few_columns { cols < 2 ^ 31 }
    ensures basis { IfOk result (λ v.
        IsExtendedBasis cols basis.now.rows.items v.rows.items v.pivots.items) }
    ensures never_wide { OnOk result ((e : EliminationStep) → IsWideOnExtended cols basis.now.rows.items e
        → ⊥) }
    ensures wide { IfErr result (λ f. IfWide f (λ e. IsWideOnExtended cols basis.now.rows.items e)) }
    ensures list { IfErr result (λ f. IfWide f (λ e. e.list ≡ list)) }
{
    let listed = extended(alloc, &basis.rows, cols)?;
    basis_of(alloc, &listed, basis.rows.len() + cols, list)
}

/// The echelon basis of the null space of a basis. Evidence is on the extended list of the basis, which `list` names.
pub(crate) fn null_of(
    alloc: Global,
    basis: &Growing,
    cols: usize,
    list: ElimList,
) -> Result<Growing, ElimFail>
    requires is_basis { IsEchelonBasis cols basis.now.rows.items basis.now.pivots.items }
    requires few_columns { cols < 2 ^ 31 }
    ensures null { IfOk result (λ v. IsNullBasis cols basis.now.rows.items v.rows.items v.pivots.items) }
    ensures count { IfOk result (λ v. length v.rows.items + length basis.now.rows.items ≡ cols) }
    ensures never_wide { OnOk result ((e : EliminationStep) → IsWideOnExtended cols basis.now.rows.items e
        → ⊥) }
    ensures wide { IfErr result (λ f. IfWide f (λ e. IsWideOnExtended cols basis.now.rows.items e)) }
    ensures list { IfErr result (λ f. IfWide f (λ e. e.list ≡ list)) }
{
    let whole = extended_basis(alloc, basis, cols, list)?;
    let null = tails_of(alloc, &whole, basis.rows.len())?;
    Ok(null)
}

/// The echelon basis of the null space of rows with `cols` entries each: of all x with as many entries that have
/// product 0 with each of the rows.
/// It is found in the echelon basis of the extended list of the rows: for each column the entries of their echelon
/// basis there, and then a unit row. The basis rows that are 0 in the columns of those entries, without these
/// columns, are the answer.
/// `Wide` exactly where a step of one of these two eliminations leaves the range; the evidence is on the list `Rows`
/// or `Extended`.
pub fn null_space(alloc: Global, rows: &[Ints], cols: usize) -> Result<Vec<Ints>, ElimFail>
    requires columns { HasCols cols rows.now }
    requires few_rows { length rows.now < 2 ^ 32 }
    requires few_columns { cols < 2 ^ 31 }
    ensures null { IfOk result (λ v. (P : List ℕ) × IsNullBasis cols rows.now v.items P) }
    ensures nullity { IfOk result (λ v. (k : ℕ) → IsRank rows.now k → length v.items + k ≡ cols) }
    ensures never_wide { OnOk result (NoEvidence cols rows.now ElimList.Rows) }
    ensures never_wide_extended { OnOk result (NoEvidence cols rows.now ElimList.Extended) }
    ensures wide { IfErr result (λ f. IfWide f (λ e. IsEvidence cols rows.now e)) }
    ensures list { IfErr result (λ f.
        IfWide f (λ e. (e.list ≡ ElimList.Rows) ⊎ (e.list ≡ ElimList.Extended))) }
{
    let basis = basis_of_rows(alloc, rows, cols)?;
    let null = null_of(alloc, &basis, cols, ElimList::Extended)?;
    Ok(null.rows)
}
