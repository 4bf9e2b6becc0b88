// The optimum of an objective at the points of a cone that rays and lines generate.

ghost use Rattle.pm_vector.specs.Cones.{InCone};
ghost use Rattle.pm_vector.specs.Rows.{HasCols, entry};
ghost use Rattle.pm_simplex.specs.OptimumEvidence.{ShowsValue};
ghost use Rattle.pm_simplex.specs.Senses.{IsOptimum};
ghost use Rattle.pm_simplex.specs.Fails.{IfWide};
ghost use Rattle.pm_types.specs.Forms.{HasPrimitiveRow};
ghost use Rattle.pm_types.specs.Views.{extended_of};
ghost use Rattle.std.specs.Prelude.{All, IfErr, IfOk, length, pos, ◌<◌, ◌≡◌, ◌≤ℤ◌};

use crate::objective::{primitive_objective, scale};
use crate::products::{products, wide_pair};
use crate::quotients::{greatest_quotient, grows};
use pm_fraction::Fraction;
use pm_simplex::{LpFail, Sense};
use pm_types::Number;
use pm_vector::Ints;
use std::alloc::Global;

/// The optimum of an objective at the points of a polytope whose cone these rays and lines generate, all rows of as
/// many entries as the objective has: the greatest value or the least, an infinity where the objective goes on
/// without end, and the other infinity where no ray has a positive first entry.
/// `Wide` only where the product of the objective's primitive row with a ray or line leaves the range, or the optimum
/// does, which the evidence (E4) shows.
pub fn value_at_rays(
    alloc: Global,
    sense: Sense,
    objective: &[Fraction],
    rays: &[Ints],
    lines: &[Ints],
) -> Result<Number, LpFail>
    requires stays { HasPrimitiveRow objective.now }
    requires some { 0 < length objective.now }
    requires ray_cols { HasCols (length objective.now) rays.now }
    requires line_cols { HasCols (length objective.now) lines.now }
    requires ahead { All (λ x. pos 0 ≤ℤ entry x 0) rays.now }
    requires level { All (λ x. entry x 0 ≡ pos 0) lines.now }
    ensures value { IfOk result (λ x. IsOptimum sense (InCone rays.now lines.now) objective.now
        (extended_of x)) }
    ensures wide { IfErr result (λ f. IfWide f (ShowsValue sense objective.now rays.now lines.now)) }
{
    let row = primitive_objective(alloc, objective)?;
    let mut at_rays = products(alloc, &row, rays)?;
    let mut at_lines = products(alloc, &row, lines)?;
    sense.turn(&mut at_rays);
    sense.turn(&mut at_lines);
    let Some(best) = greatest_quotient(&at_rays, rays) else {
        return Ok(sense.number(Number::Minus));
    };
    if grows(&at_rays, rays, &at_lines) {
        return Ok(sense.number(Number::Plus));
    }
    match best.quotient.mul(scale(objective, &row)) {
        Ok(value) => Ok(sense.number(Number::Finite(value))),
        Err(_) => Err(wide_pair(alloc, &row, &rays[best.place])?),
    }
}
