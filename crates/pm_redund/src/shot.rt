// Rows that are to be kept, by shooting (Clarkson, More output-sensitive geometric algorithms, 1994): on the way from a
// functional that no row is below to one that some row is below, the row that is met first.

ghost use Rattle.pm_vector.specs.Rows.{HasCols};
ghost use Rattle.pm_redund.specs.Keeping.{IsAlone, IsMetAfter, IsNeeded, IsSupport};
ghost use Rattle.std.specs.Prelude.{IfOk, IfSome, IsTrue, length, ◌*ℤ◌, ◌<◌, ◌<ℤ◌, ◌≡◌};

use crate::levels::{direction_of, products_of, vanishes_on};
use crate::support::Support;
use pm_fraction::Fraction;
use pm_vector::{Ints, WideInt, times};
use std::alloc::{AllocError, Global};

/// The place of a row, and whether no others generate this row for sure.
#[derive(Clone, Copy)]
pub(crate) struct Met {
    pub place: usize,
    pub sure: bool,
}

/// Whether a b < c d, where that is told.
fn is_less(a: i128, b: i128, c: i128, d: i128) -> bool
    ensures { IsTrue result → (a *ℤ b) <ℤ (c *ℤ d) }
{
    if let (Ok(left), Ok(right)) = (times(a, b), times(c, d)) {
        return left < right;
    }
    match WideInt::product(a, b).minus(WideInt::product(c, d)) {
        Some(difference) => difference.is_negative(),
        None => false,
    }
}

/// A place at which a level is least, taken by its height, which is positive. Nothing is claimed of it but that it is a
/// place: `is_alone` tells what it is worth.
fn least(levels: &[i128], heights: &[i128]) -> Option<usize>
    requires { length levels.now ≡ length heights.now }
    ensures { IfSome result (λ k. k < length levels.now) }
{
    let mut best = None;
    for i in 0..levels.len() {
        if heights[i] > 0 {
            match best {
                None => best = Some(i),
                Some(k) => {
                    if is_less(levels[i], heights[k], levels[k], heights[i]) {
                        best = Some(i);
                    }
                }
            }
        }
    }
    best
}

/// Whether the place j is another one, and its row is met after that of k, or never.
fn is_passed(levels: &[i128], heights: &[i128], k: usize, j: usize) -> bool
    requires same { length levels.now ≡ length heights.now }
    requires k { k < length levels.now }
    requires j { j < length levels.now }
    ensures { IsTrue result → IsMetAfter levels.now heights.now k j }
{
    (levels[j] == 0 && heights[j] == 0) || is_less(levels[k], heights[j], levels[j], heights[k])
}

/// Whether the row at k is met before any other.
fn is_alone(levels: &[i128], heights: &[i128], k: usize) -> bool
    requires same { length levels.now ≡ length heights.now }
    requires place { k < length levels.now }
    ensures { IsTrue result → IsAlone levels.now heights.now k }
{
    if heights[k] <= 0 {
        return false;
    }
    for j in 0..levels.len() {
        if j != k && !is_passed(levels, heights, k, j) {
            return false;
        }
    }
    true
}

/// The row that is met first from a functional to a row, if that is told.
fn met_first(
    alloc: Global,
    cols: usize,
    rows: &[Ints],
    lines: &[Ints],
    support: &Support,
    direction: &Ints,
) -> Result<Option<Met>, AllocError>
    requires row_cols { HasCols cols rows.now }
    requires line_cols { HasCols cols lines.now }
    requires cols { length direction.now ≡ cols }
    requires support { IsSupport cols rows.now lines.now support.now }
    ensures place { IfOk result (λ o. IfSome o (λ a. a.place < length rows.now)) }
    ensures sure { IfOk result (λ o. IfSome o (λ a. IsTrue a.sure → IsNeeded rows.now lines.now a.place)) }
{
    let Some(levels) = products_of(alloc, direction, rows)? else {
        return Ok(None);
    };
    let Some(place) = least(&levels, &support.heights) else {
        return Ok(None);
    };
    if levels[place] >= 0 {
        return Ok(None);
    }
    let sure = is_alone(&levels, &support.heights, place) && vanishes_on(direction, lines);
    Ok(Some(Met { place, sure }))
}

/// A row to be kept where the one at i is not generated, as a point of its program shows: the row at i itself, if no
/// other is told.
pub(crate) fn row_for(
    alloc: Global,
    cols: usize,
    rows: &[Ints],
    lines: &[Ints],
    support: &Option<Support>,
    point: &[Fraction],
    i: usize,
) -> Result<Met, AllocError>
    requires row_cols { HasCols cols rows.now }
    requires line_cols { HasCols cols lines.now }
    requires place { i < length rows.now }
    requires support { IfSome support.now (IsSupport cols rows.now lines.now) }
    ensures place { IfOk result (λ a. a.place < length rows.now) }
    ensures sure { IfOk result (λ a. IsTrue a.sure → IsNeeded rows.now lines.now a.place) }
{
    let itself = Met {
        place: i,
        sure: false,
    };
    let Some(support) = support else {
        return Ok(itself);
    };
    let Some(direction) = direction_of(alloc, cols, point)? else {
        return Ok(itself);
    };
    let met = met_first(alloc, cols, rows, lines, support, &direction)?;
    Ok(met.unwrap_or(itself))
}
