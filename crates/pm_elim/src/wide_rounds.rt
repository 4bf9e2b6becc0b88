// One round of an elimination by wide numbers on the way: no evidence where even these do not suffice.

ghost use Rattle.pm_vector.specs.Cones.{InSpan};
ghost use Rattle.pm_vector.specs.Divisors.{IsPrimitiveOf};
ghost use Rattle.pm_vector.specs.Rows.{HasCols, difference, entry};
ghost use Rattle.pm_vector.specs.Bases.{IsEchelonBasis, SameSpan};
ghost use Rattle.pm_elim.specs.Lost.{IfLost, IsLostOnNext, IsLostOnSome, IsLostRound, PrimitiveIsLost, StepIsLost};
ghost use Rattle.pm_vector.specs.Rounds.{AllReducedOnce, IsNewRow};
ghost use Rattle.pm_vector.specs.Steps.{IsReducedOnce, ReducedBy};
ghost use Rattle.pm_elim.specs.declared.wide_rounds.WideFail.TheVariants.{Memory};
ghost use Rattle.std.specs.Prelude.{IfErr, IfOk, [], length, pos, vec_len, ◌+◌, ◌++◌, ◌<ℤ◌, ◌<◌, ◌∷◌, ◌≡◌, ◌≤◌};

use crate::basis::Growing;
use crate::pivot::{pivot_of, pivot_row};
use crate::round::place_of;
use crate::step::{factors_at, is_zero_at};
use pm_vector::{Ints, Wide, WideInt, combine, primitive, primitive_combination};
use std::alloc::{AllocError, AllocFailed, Global};
use thiserror::Error;

/// Why an elimination by wide numbers was given up.
#[derive(Debug, Drop, Error)]
pub enum WideFail {
    /// A row of it leaves the range.
    #[error("a row leaves the range")]
    Lost,
    #[error("out of memory")]
    Memory,
}

impl From<AllocError> for WideFail {
    ghost from_gives = { λ _ e. e ≡ Memory };

    fn from(_e: AllocError) -> WideFail {
        WideFail::Memory
    }
}

impl<T: Drop> From<AllocFailed<T>> for WideFail {
    ghost from_gives = { λ _ e. e ≡ Memory };

    fn from(_e: AllocFailed<T>) -> WideFail {
        WideFail::Memory
    }
}

/// The primitive row in the direction of p row - q by, by wide numbers.
fn wide_difference(alloc: Global, p: i128, row: &Ints, q: i128, by: &Ints) -> Result<Ints, WideFail>
    requires { length row.now ≡ length by.now }
    ensures primitive { IfOk result (λ w. IsPrimitiveOf (difference p row.now q by.now) w) }
    ensures lost { IfErr result (λ f. IfLost f (PrimitiveIsLost (difference p row.now q by.now))) }
{
    match primitive_combination(alloc, WideInt::of(p), row, WideInt::of(q), by)? {
        Some(made) => Ok(made),
        None => Err(WideFail::Lost),
    }
}

/// The primitive row in the direction of p row - q by; by wide numbers where those of the range do not suffice.
fn primitive_difference(
    alloc: Global,
    p: i128,
    row: &Ints,
    q: i128,
    by: &Ints,
) -> Result<Ints, WideFail>
    requires { length row.now ≡ length by.now }
    ensures primitive { IfOk result (λ w. IsPrimitiveOf (difference p row.now q by.now) w) }
    ensures lost { IfErr result (λ f. IfLost f (PrimitiveIsLost (difference p row.now q by.now))) }
{
    let mut made = row.copy(alloc)?;
    match combine(p, &mut made, q, by) {
        Ok(()) => {
            primitive(&mut made);
            Ok(made)
        }
        Err(Wide) => wide_difference(alloc, p, row, q, by),
    }
}

/// A row, reduced by a basis row in its pivot column.
fn reduced_once(alloc: Global, row: &Ints, by: &Ints, pivot: usize) -> Result<Ints, WideFail>
    requires same_length { length row.now ≡ length by.now }
    requires within { pivot < length row.now }
    requires positive { pos 0 <ℤ entry by.now pivot }
    ensures reduced { IfOk result (λ m. IsReducedOnce row.now by.now pivot m) }
    ensures lost { IfErr result (λ f. IfLost f (StepIsLost row.now by.now pivot)) }
{
    if is_zero_at(row, pivot) {
        return Ok(row.copy(alloc)?);
    }
    let factors = factors_at(row, by, pivot);
    primitive_difference(alloc, factors.first, row, factors.second, by)
}

/// A row, reduced by the rows of an echelon basis, in turn.
pub(crate) fn reduced_in_turn(
    alloc: Global,
    rows: &[Ints],
    pivots: &[usize],
    row: &Ints,
) -> Result<Ints, WideFail>
    requires { IsEchelonBasis (length row.now) rows.now pivots.now }
    ensures reduced { IfOk result (λ m. ReducedBy rows.now pivots.now row.now m) }
    ensures lost { IfErr result (λ f. IfLost f (IsLostOnNext rows.now pivots.now row.now)) }
{
    let mut rest = row.copy(alloc)?;
    for i in 0..rows.len() {
        rest = reduced_once(alloc, &rest, &rows[i], pivots[i])?;
    }
    Ok(rest)
}

/// The rows, each reduced by a new row.
fn reduced_older(
    alloc: Global,
    rows: &[Ints],
    new: &Ints,
    pivot: usize,
) -> Result<Vec<Ints>, WideFail>
    requires cols { HasCols (length new.now) rows.now }
    requires within { pivot < length new.now }
    requires positive { pos 0 <ℤ entry new.now pivot }
    ensures reduced { IfOk result (λ v. AllReducedOnce rows.now new.now pivot v.items) }
    ensures lost { IfErr result (λ f. IfLost f (IsLostOnSome rows.now new.now pivot)) }
{
    let mut made = Vec::new(alloc);
    for i in 0..rows.len() {
        let row = reduced_once(alloc, &rows[i], new, pivot)?;
        made.push(row)?;
    }
    Ok(made)
}

/// A basis, reduced by a new row, which is put into it.
fn joined(alloc: Global, basis: Growing, new: Ints, pivot: usize) -> Result<Growing, WideFail>
    requires is_basis { IsEchelonBasis (length new) basis.rows.items basis.pivots.items }
    requires is_new { IsNewRow (length new) basis.rows.items basis.pivots.items new pivot }
    requires within { pivot < length new }
    ensures is_basis { IfOk result (λ b. IsEchelonBasis (length new) b.rows.items b.pivots.items) }
    ensures span { IfOk result (λ b. SameSpan b.rows.items (basis.rows.items ++ new ∷ [])) }
    ensures count { IfOk result (λ b. vec_len b.rows ≡ vec_len basis.rows + 1) }
    ensures lost { IfErr result (λ f. IfLost f (IsLostOnSome basis.rows.items new pivot)) }
{
    let mut rows = reduced_older(alloc, &basis.rows, &new, pivot)?;
    let mut pivots = basis.pivots;
    let place = place_of(&pivots, pivot);
    rows.insert(place, new)?;
    pivots.insert(place, pivot)?;
    Ok(Growing { rows, pivots })
}

/// A basis with a further row.
pub(crate) fn taken_in(alloc: Global, basis: Growing, row: &Ints) -> Result<Growing, WideFail>
    requires { IsEchelonBasis (length row.now) basis.rows.items basis.pivots.items }
    ensures is_basis { IfOk result (λ b. IsEchelonBasis (length row.now) b.rows.items b.pivots.items) }
    ensures span { IfOk result (λ b. SameSpan b.rows.items (basis.rows.items ++ row.now ∷ [])) }
    ensures count { IfOk result (λ b. vec_len b.rows ≤ vec_len basis.rows + 1) }
    ensures spanned { IfOk result (λ b. vec_len b.rows ≤ vec_len basis.rows
        → InSpan basis.rows.items row.now) }
    ensures lost { IfErr result (λ f. IfLost f (IsLostRound basis.rows.items basis.pivots.items row.now)) }
{
    let rest = reduced_in_turn(alloc, &basis.rows, &basis.pivots, row)?;
    let Some(pivot) = pivot_of(&rest) else {
        return Ok(basis);
    };
    let new = pivot_row(rest, pivot);
    let made = joined(alloc, basis, new, pivot)?;
    Ok(made)
}
