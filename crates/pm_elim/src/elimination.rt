// The echelon basis of a list of rows, row by row, and their rank.

ghost use Rattle.pm_vector.specs.Rows.{HasCols};
ghost use Rattle.pm_vector.specs.Bases.{IsRank};
ghost use Rattle.pm_elim.specs.Refusals.{IfWide, IfWideStep, IsFailOf};
ghost use Rattle.pm_vector.specs.Evidence.{IsBasisOf, IsEvidence, IsWideStep, NoEvidence};
ghost use Rattle.pm_vector.specs.EliminationSteps.{EliminationStep};
ghost use Rattle.std.specs.Prelude.{IfErr, IfOk, OnOk, length, vec_len, ◌<◌, ◌^◌, ◌≡◌, ◌≤◌};

use crate::basis::{Echelon, Growing};
use crate::evidence::ElimFail;
use crate::refusal::Refusal;
use crate::round::take_in;
use pm_vector::{ElimEvidence, ElimList, Ints};
use std::alloc::Global;

/// The refusal of an elimination whose round was refused.
pub(crate) fn fail_of(refusal: Refusal, list: ElimList, front: usize, basis: Vec<Ints>) -> ElimFail
    requires small_front { front < 2 ^ 32 }
    requires small_step { IfWideStep refusal (λ s. (s.by < 2 ^ 32) × (s.column < 2 ^ 32)) }
    ensures { IsFailOf refusal list front basis.items result }
{
    match refusal {
        Refusal::Wide(step) => ElimFail::Wide(ElimEvidence {
            list,
            front: front as u32,
            basis,
            part: step.part,
            by: step.by as u32,
            column: step.column as u32,
        }),
        Refusal::Memory => ElimFail::Memory,
    }
}

/// The echelon basis of the rows, which are the list that `list` names.
pub(crate) fn basis_of(
    alloc: Global,
    rows: &[Ints],
    cols: usize,
    list: ElimList,
) -> Result<Growing, ElimFail>
    requires columns { HasCols cols rows.now }
    requires few_rows { length rows.now < 2 ^ 32 }
    requires few_columns { cols < 2 ^ 32 }
    ensures basis { IfOk result (λ b. IsBasisOf cols rows.now b.rows.items b.pivots.items) }
    ensures count { IfOk result (λ b. vec_len b.rows ≤ length rows.now) }
    ensures never_wide { OnOk result ((e : EliminationStep) → IsWideStep cols rows.now e → ⊥) }
    ensures wide { IfErr result (λ f. IfWide f (λ e. IsWideStep cols rows.now e)) }
    ensures list { IfErr result (λ f. IfWide f (λ e. e.list ≡ list)) }
{
    let mut basis = Growing {
        rows: Vec::new(alloc),
        pivots: Vec::new(alloc),
    };
    for i in 0..rows.len() {
        if let Err(refusal) = take_in(alloc, &mut basis, &rows[i]) {
            return Err(fail_of(refusal, list, i, basis.rows));
        }
    }
    Ok(basis)
}

/// The echelon basis of the rows handed in.
pub(crate) fn basis_of_rows(alloc: Global, rows: &[Ints], cols: usize) -> Result<Growing, ElimFail>
    requires columns { HasCols cols rows.now }
    requires few_rows { length rows.now < 2 ^ 32 }
    requires few_columns { cols < 2 ^ 31 }
    ensures basis { IfOk result (λ b. IsBasisOf cols rows.now b.rows.items b.pivots.items) }
    ensures never_wide { OnOk result (NoEvidence cols rows.now ElimList.Rows) }
    ensures wide { IfErr result (λ f. IfWide f (λ e. IsEvidence cols rows.now e)) }
    ensures list { IfErr result (λ f. IfWide f (λ e. e.list ≡ ElimList.Rows)) }
{
    basis_of(alloc, rows, cols, ElimList::Rows)
}

/// The echelon basis of rows with `cols` entries each: it has the span of the rows, and is the only one (Hoffman and
/// Kunze, Linear Algebra, section 1.4).
/// The rows are taken in order. Each is reduced by the basis rows, and if something is left it is made primitive with
/// a positive pivot, and the older basis rows are reduced by it.
/// `Wide` exactly where one of these steps leaves the range; the evidence is on the list `Rows`.
pub fn echelon(alloc: Global, rows: &[Ints], cols: usize) -> Result<Echelon, ElimFail>
    requires columns { HasCols cols rows.now }
    requires few_rows { length rows.now < 2 ^ 32 }
    requires few_columns { cols < 2 ^ 31 }
    ensures basis { IfOk result (λ b. IsBasisOf cols rows.now b.rows b.pivots) }
    ensures never_wide { OnOk result (NoEvidence cols rows.now ElimList.Rows) }
    ensures wide { IfErr result (λ f. IfWide f (λ e. IsEvidence cols rows.now e)) }
    ensures list { IfErr result (λ f. IfWide f (λ e. e.list ≡ ElimList.Rows)) }
{
    let basis = basis_of_rows(alloc, rows, cols)?;
    Ok(Echelon {
        rows: basis.rows,
        pivots: basis.pivots,
    })
}

/// The rank of rows with `cols` entries each: how many independent rows have their span.
/// `Wide` exactly where a step of their elimination leaves the range; the evidence is on the list `Rows`.
pub fn rank(alloc: Global, rows: &[Ints], cols: usize) -> Result<usize, ElimFail>
    requires columns { HasCols cols rows.now }
    requires few_rows { length rows.now < 2 ^ 32 }
    requires few_columns { cols < 2 ^ 31 }
    ensures rank { IfOk result (λ k. IsRank rows.now k) }
    ensures never_wide { OnOk result (NoEvidence cols rows.now ElimList.Rows) }
    ensures wide { IfErr result (λ f. IfWide f (λ e. IsEvidence cols rows.now e)) }
    ensures list { IfErr result (λ f. IfWide f (λ e. e.list ≡ ElimList.Rows)) }
{
    let basis = basis_of_rows(alloc, rows, cols)?;
    Ok(basis.rows.len())
}
