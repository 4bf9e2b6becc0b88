// One round of an elimination: a further row is taken into the basis.

ghost use Rattle.pm_vector.specs.Cones.{InSpan};
ghost use Rattle.pm_vector.specs.Rows.{HasCols, Row, entry};
ghost use Rattle.pm_vector.specs.Bases.{IsEchelonBasis, SameSpan, column};
ghost use Rattle.pm_vector.specs.Evidence.{IsWideOnNext, IsWideRound};
ghost use Rattle.pm_elim.specs.Refusals.{IfWideStep};
ghost use Rattle.pm_vector.specs.Rounds.{AllStay, IsNewRow, IsWideOnSome};
ghost use Rattle.pm_vector.specs.Steps.{ReducedBy, ReductionStays};
ghost use Rattle.std.specs.Prelude.{IfErr, IfOk, OnOk, [], length, pos, vec_len, ◌+◌, ◌++◌, ◌<ℤ◌, ◌<◌, ◌∷◌, ◌≡◌, ◌≤◌, ℕ};

use crate::basis::Growing;
use crate::older::{reduce_older, wide_older};
use crate::pivot::{pivot_of, pivot_row};
use crate::reduction::reduced_copy;
use crate::refusal::{Refusal, WideStep};
use pm_vector::Ints;
use std::alloc::{AllocError, Global};

/// How many of the ascending pivot columns lie before a column.
pub(crate) fn place_of(pivots: &[usize], pivot: usize) -> usize
    ensures within { result ≤ length pivots.now }
    ensures lower { (i : ℕ) → i < result → column pivots.now i < pivot }
    ensures upper { result < length pivots.now → pivot ≤ column pivots.now result }
{
    for i in 0..pivots.len() {
        if pivots[i] >= pivot {
            return i;
        }
    }
    pivots.len()
}

/// Reduces the basis rows by a new row, and puts it among them.
fn join(basis: &mut Growing, new: Ints, pivot: usize) -> Result<(), AllocError>
    requires is_basis { IsEchelonBasis (length new) basis.old.rows.items basis.old.pivots.items }
    requires is_new { IsNewRow (length new) basis.old.rows.items basis.old.pivots.items new pivot }
    requires within { pivot < length new }
    requires stays { AllStay basis.old.rows.items new pivot }
    ensures is_basis { OnOk result
        (IsEchelonBasis (length new) basis.new.rows.items basis.new.pivots.items) }
    ensures span { OnOk result (SameSpan basis.new.rows.items (basis.old.rows.items ++ new ∷ [])) }
    ensures count { OnOk result (vec_len basis.new.rows ≡ vec_len basis.old.rows + 1) }
{
    reduce_older(&mut basis.rows, &new, pivot);
    let place = place_of(&basis.pivots, pivot);
    basis.rows.insert(place, new)?;
    basis.pivots.insert(place, pivot)?;
    Ok(())
}

/// A row, reduced by all basis rows.
fn rest_of(alloc: Global, basis: &Growing, row: &Ints) -> Result<Ints, Refusal>
    requires { IsEchelonBasis (length row.now) basis.now.rows.items basis.now.pivots.items }
    ensures reduced { IfOk result (λ r. ReducedBy basis.now.rows.items basis.now.pivots.items row.now r) }
    ensures stays { OnOk result (ReductionStays basis.now.rows.items basis.now.pivots.items row.now) }
    ensures wide { IfErr result (λ f.
        IfWideStep f (λ s.
        IsWideOnNext basis.now.rows.items basis.now.pivots.items row.now s.part s.by s.column)) }
    ensures within { IfErr result (λ f. IfWideStep f (λ s. s.column < length row.now)) }
{
    reduced_copy(alloc, &basis.rows, &basis.pivots, row)
}

/// The first basis row whose step by a new row leaves the range is copied into a refusal.
fn refuse_wide_older(
    alloc: Global,
    basis: &Growing,
    new: &Ints,
    pivot: usize,
) -> Result<(), Refusal>
    requires cols { HasCols (length new.now) basis.now.rows.items }
    requires within { pivot < length new.now }
    requires positive { pos 0 <ℤ entry new.now pivot }
    ensures stays { OnOk result (AllStay basis.now.rows.items new.now pivot) }
    ensures wide { IfErr result (λ f.
        IfWideStep f (λ s. IsWideOnSome basis.now.rows.items new.now pivot s.part s.by s.column)) }
    ensures within { IfErr result (λ f. IfWideStep f (λ s. s.column < length new.now)) }
{
    let Some(at) = wide_older(&basis.rows, new, pivot) else {
        return Ok(());
    };
    let part = basis.rows[at.place].copy(alloc)?;
    Err(Refusal::Wide(WideStep {
        part,
        by: basis.rows.len(),
        column: at.column,
    }))
}

/// Takes a further row into a basis, which stays as it was where a step leaves the range.
pub(crate) fn take_in(alloc: Global, basis: &mut Growing, row: &Ints) -> Result<(), Refusal>
    requires { IsEchelonBasis (length row.now) basis.old.rows.items basis.old.pivots.items }
    ensures is_basis { OnOk result
        (IsEchelonBasis (length row.now) basis.new.rows.items basis.new.pivots.items) }
    ensures span { OnOk result (SameSpan basis.new.rows.items (basis.old.rows.items ++ row.now ∷ [])) }
    ensures count { OnOk result (vec_len basis.new.rows ≤ vec_len basis.old.rows + 1) }
    ensures spanned { OnOk result (vec_len basis.new.rows ≤ vec_len basis.old.rows
        → InSpan basis.old.rows.items row.now) }
    ensures never_wide { OnOk result ((part : Row) (by i : ℕ)
        → IsWideRound basis.old.rows.items basis.old.pivots.items row.now part by i → ⊥) }
    ensures wide { IfErr result (λ f.
        IfWideStep f (λ s.
        IsWideRound basis.old.rows.items basis.old.pivots.items row.now s.part s.by s.column)) }
    ensures within { IfErr result (λ f. IfWideStep f (λ s. s.column < length row.now)) }
    ensures rows_unchanged { IfErr result (λ f.
        IfWideStep f (λ _. basis.new.rows.items ≡ basis.old.rows.items)) }
    ensures pivots_unchanged { IfErr result (λ f.
        IfWideStep f (λ _. basis.new.pivots.items ≡ basis.old.pivots.items)) }
{
    let rest = rest_of(alloc, basis, row)?;
    let Some(pivot) = pivot_of(&rest) else {
        return Ok(());
    };
    let new = pivot_row(rest, pivot);
    refuse_wide_older(alloc, basis, &new, pivot)?;
    join(basis, new, pivot)?;
    Ok(())
}
