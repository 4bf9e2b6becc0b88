// The optimum of an objective at the points of a cone that rays and lines generate, by wide numbers.

ghost use Rattle.pm_geom.specs.Programs.{IsTimes};
ghost use Rattle.pm_simplex.specs.Senses.{IsOptimum};
ghost use Rattle.pm_types.specs.Programs.{IsGreatest};
ghost use Rattle.pm_types.specs.Views.{extended_of};
ghost use Rattle.pm_vector.specs.Bases.{row_at};
ghost use Rattle.pm_vector.specs.Cones.{InCone};
ghost use Rattle.pm_vector.specs.Numbers.{Ratio};
ghost use Rattle.pm_vector.specs.Rows.{HasCols, dot as dot_of, entry};
ghost use Rattle.pm_wide_programs.specs.Slacks.{IsAhead, Rises, Turns};
ghost use Rattle.std.specs.Prelude.{All, IfNone, IfOk, IfSome, List, length, pos, ◌<◌, ◌≡◌, ◌≤ℤ◌, ℕ};

use crate::best::greatest_at;
use crate::objective::{WholeObjective, whole_objective};
use pm_fraction::Fraction;
use pm_simplex::Sense;
use pm_types::Number;
use pm_vector::{Ints, wide_dot};
use std::alloc::{AllocError, Global};

/// The place of a ray that is a point.
fn ahead(rays: &[Ints]) -> Option<usize>
    requires { All (λ x. 0 < length x) rays.now }
    ensures some { IfSome result (IsAhead rays.now) }
    ensures none { IfNone result ((j : ℕ) → ¬ (IsAhead rays.now j)) }
{
    for j in 0..rays.len() {
        if rays[j].get(0) > 0 {
            return Some(j);
        }
    }
    None
}

/// The place of a ray along which the objective grows.
fn rising(row: &Ints, rays: &[Ints]) -> Option<usize>
    requires some { 0 < length row.now }
    requires cols { HasCols (length row.now) rays.now }
    ensures { IfSome result (Rises row.now rays.now) }
{
    for j in 0..rays.len() {
        let product = wide_dot(row.as_slice(), rays[j].as_slice());
        if rays[j].get(0) == 0 && product.is_positive() {
            return Some(j);
        }
    }
    None
}

/// The place of a line along which the objective changes.
fn turning(row: &Ints, lines: &[Ints]) -> Option<usize>
    requires { HasCols (length row.now) lines.now }
    ensures some { IfSome result (Turns row.now lines.now) }
    ensures none { IfNone result ((j : ℕ) → j < length lines.now → dot_of row.now (row_at lines.now j) ≡ pos 0) }
{
    for j in 0..lines.len() {
        if !wide_dot(row.as_slice(), lines[j].as_slice()).is_zero() {
            return Some(j);
        }
    }
    None
}

/// The greatest value of an objective at the points of the cone, where exact products show it.
fn greatest_in_cone(objective: &WholeObjective, rays: &[Ints], lines: &[Ints]) -> Option<Number>
    requires some { 0 < length objective.now.row }
    requires ray_cols { HasCols (length objective.now.row) rays.now }
    requires line_cols { HasCols (length objective.now.row) lines.now }
    requires ahead { All (λ x. pos 0 ≤ℤ entry x 0) rays.now }
    requires level { All (λ x. entry x 0 ≡ pos 0) lines.now }
    ensures { IfSome result (λ x. (c : List Ratio) → IsTimes objective.now.times c objective.now.row
        → IsGreatest (InCone rays.now lines.now) c (extended_of x)) }
{
    let Some(start) = ahead(rays) else {
        return Some(Number::Minus);
    };
    if let Some(_ray) = rising(&objective.row, rays) {
        return Some(Number::Plus);
    }
    if let Some(_line) = turning(&objective.row, lines) {
        return Some(Number::Plus);
    }
    let value = greatest_at(objective, rays, start)?;
    Some(Number::Finite(value))
}

/// The optimum of an objective at the points of a polytope whose cone these rays and lines generate, all rows of as
/// many entries as the objective has: the greatest value or the least, an infinity where the objective goes on
/// without end, and the other infinity where no ray has a positive first entry. None where the whole row of the
/// objective or the optimum leaves the range of 128 bits, or a number on the way that of 512: that says nothing of
/// the optimum.
pub fn wide_value_at_rays(
    alloc: Global,
    sense: Sense,
    objective: &[Fraction],
    rays: &[Ints],
    lines: &[Ints],
) -> Result<Option<Number>, AllocError>
    requires some { 0 < length objective.now }
    requires ray_cols { HasCols (length objective.now) rays.now }
    requires line_cols { HasCols (length objective.now) lines.now }
    requires ahead { All (λ x. pos 0 ≤ℤ entry x 0) rays.now }
    requires level { All (λ x. entry x 0 ≡ pos 0) lines.now }
    ensures { IfOk result (λ o. IfSome o (λ x.
        IsOptimum sense (InCone rays.now lines.now) objective.now (extended_of x))) }
{
    let turned = sense.objective(alloc, objective)?;
    let Some(whole) = whole_objective(alloc, &turned)? else {
        return Ok(None);
    };
    match greatest_in_cone(&whole, rays, lines) {
        Some(value) => Ok(Some(sense.number(value))),
        None => Ok(None),
    }
}
