// The greatest value of an objective at rays: a search proposes it, and exact slacks show it.

ghost use Rattle.pm_vector.specs.Rows.{HasCols};
ghost use Rattle.pm_wide_programs.specs.Slacks.{IsGreatestAt, StandsAt, slack_of};
ghost use Rattle.std.specs.List.{AllByRecursion};
ghost use Rattle.std.specs.Prelude.{IfSome, IsTrue, length, pos, ◌<◌, ◌≡◌, ◌≤ℤ◌};

use crate::fractions::quotient;
use crate::objective::WholeObjective;
use crate::slack::slack;
use crate::wide_row::is_less;
use pm_fraction::Fraction;
use pm_vector::{Ints, WideInt, wide_dot};

/// Whether a row has a positive first entry, and a greater quotient of its product by it than another.
fn is_better(row: &Ints, x: &Ints, y: &Ints) -> Option<bool>
    requires some { 0 < length row.now }
    requires cols { length x.now ≡ length row.now }
    requires other_cols { length y.now ≡ length row.now }
{
    if x.get(0) <= 0 {
        return Some(false);
    }
    let here = wide_dot(row.as_slice(), x.as_slice()).times(WideInt::of(y.get(0)))?;
    let there = wide_dot(row.as_slice(), y.as_slice()).times(WideInt::of(x.get(0)))?;
    is_less(there, here)
}

/// The place of a ray at which the objective may be greatest: none that comes later than the start is better.
fn best_place(row: &Ints, rays: &[Ints], start: usize) -> Option<usize>
    requires some { 0 < length row.now }
    requires cols { HasCols (length row.now) rays.now }
    requires within { start < length rays.now }
    ensures { IfSome result (λ i. i < length rays.now) }
{
    let mut best = start;
    for j in 0..rays.len() {
        if is_better(row, &rays[j], &rays[best])? {
            best = j;
        }
    }
    Some(best)
}

/// The value at a row, where that is a point and the value has 128 bits.
fn value_at(objective: &WholeObjective, x: &Ints) -> Option<Fraction>
    requires some { 0 < length x.now }
    requires cols { length x.now ≡ length objective.now.row }
    ensures { IfSome result (StandsAt objective.now.times objective.now.row x.now) }
{
    if x.get(0) <= 0 {
        return None;
    }
    let product = wide_dot(objective.row.as_slice(), x.as_slice());
    quotient(product, WideInt::product(x.get(0), objective.times))
}

/// Whether no slack of the value at a ray is negative.
fn none_exceeds(objective: &WholeObjective, value: Fraction, rays: &[Ints]) -> bool
    requires some { 0 < length objective.now.row }
    requires cols { HasCols (length objective.now.row) rays.now }
    ensures { IsTrue result → AllByRecursion
        (λ x. pos 0 ≤ℤ slack_of objective.now.times objective.now.row value x) rays.now }
{
    for i in 0..rays.len() {
        if slack(objective, value, &rays[i]).is_negative() {
            return false;
        }
    }
    true
}

/// The greatest value at rays, of which that at the place `start` is a point, where exact slacks show it.
pub(crate) fn greatest_at(
    objective: &WholeObjective,
    rays: &[Ints],
    start: usize,
) -> Option<Fraction>
    requires some { 0 < length objective.now.row }
    requires cols { HasCols (length objective.now.row) rays.now }
    requires within { start < length rays.now }
    ensures { IfSome result (IsGreatestAt objective.now.times objective.now.row rays.now) }
{
    let place = best_place(&objective.row, rays, start)?;
    let value = value_at(objective, &rays[place])?;
    if none_exceeds(objective, value, rays) {
        Some(value)
    } else {
        None
    }
}
