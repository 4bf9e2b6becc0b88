// Optima at rays, and the rays where they stand, where they are asked by wide numbers too.

ghost use Rattle.pm_limits.specs.Limits.{most_rows};
ghost use Rattle.pm_simplex.specs.Fails.{IfWide};
ghost use Rattle.pm_simplex.specs.declared.fails.LpFail.TheVariants as fail;
ghost use Rattle.pm_simplex.specs.OptimumEvidence.{ShowsFace, ShowsValue};
ghost use Rattle.pm_simplex.specs.Senses.{IsOptimum, objective_in, ratio_in, value_in};
ghost use Rattle.pm_types.specs.Forms.{HasPrimitiveRow, is_counts_form};
ghost use Rattle.pm_types.specs.Programs.{ArePlacesOfValue};
ghost use Rattle.pm_types.specs.Values.{finite};
ghost use Rattle.pm_types.specs.Views.{extended_of};
ghost use Rattle.pm_vector.specs.Cones.{InCone};
ghost use Rattle.pm_vector.specs.Rows.{HasCols, entry};
ghost use Rattle.std.specs.Prelude.{All, IfErr, IfOk, IsTrue, length, pos, true, ◌<◌, ◌≡◌, ◌≤ℤ◌, ◌≤◌};

use pm_fraction::Fraction;
use pm_optima::{places_of_value, value_at_rays};
use pm_simplex::{LpFail, Sense};
use pm_types::Number;
use pm_vector::Ints;
use pm_wide_programs::{wide_places_of_value, wide_value_at_rays};
use std::alloc::Global;

/// As `value_at_rays` of `pm_optima`, and where a product or the optimum leaves the range and it is asked by wide
/// numbers, the optimum by these if they show one; else the refusal of the first.
pub(crate) fn value_at_rays_by(
    alloc: Global,
    sense: Sense,
    objective: &[Fraction],
    rays: &[Ints],
    lines: &[Ints],
    wide: bool,
) -> Result<Number, LpFail>
    requires stays { HasPrimitiveRow objective.now }
    requires some { 0 < length objective.now }
    requires ray_cols { HasCols (length objective.now) rays.now }
    requires line_cols { HasCols (length objective.now) lines.now }
    requires ahead { All (λ x. pos 0 ≤ℤ entry x 0) rays.now }
    requires level { All (λ x. entry x 0 ≡ pos 0) lines.now }
    ensures value { IfOk result (λ x. IsOptimum sense (InCone rays.now lines.now) objective.now
        (extended_of x)) }
    ensures wide { IfErr result (λ f. IfWide f (ShowsValue sense objective.now rays.now lines.now)) }
{
    match value_at_rays(alloc, sense, objective, rays, lines) {
        Err(LpFail::Wide(evidence)) if wide => {
            match wide_value_at_rays(alloc, sense, objective, rays, lines) {
                Ok(Some(value)) => {
                    drop(evidence);
                    Ok(value)
                }
                Ok(None) => Err(LpFail::Wide(evidence)),
                Err(e) => {
                    drop(evidence);
                    Err(LpFail::from(e))
                }
            }
        }
        other => other,
    }
}

/// As `places_of_value` of `pm_optima`, and where the row that vanishes at the value leaves the range or a product
/// does and it is asked by wide numbers, the places by these, which always show them.
pub(crate) fn places_of_value_by(
    alloc: Global,
    sense: Sense,
    objective: &[Fraction],
    value: Fraction,
    rays: &[Ints],
    wide: bool,
) -> Result<Vec<i64>, LpFail>
    requires stays { HasPrimitiveRow objective.now }
    requires some { 0 < length objective.now }
    requires cols { HasCols (length objective.now) rays.now }
    requires few { length rays.now ≤ most_rows }
    ensures places { IfOk result (λ v.
        ArePlacesOfValue (objective_in sense objective.now) (value_in sense
        (finite value)) rays.now v.items) }
    ensures form { IfOk result (λ v. IsTrue (is_counts_form v.items)) }
    ensures wide { IfErr result (λ f.
        IfWide f (ShowsFace sense objective.now (ratio_in sense value) rays.now)) }
    ensures total { wide ≡ true → IfErr result (λ f. f ≡ fail.Memory) }
{
    match places_of_value(alloc, sense, objective, value, rays) {
        Err(LpFail::Wide(evidence)) => {
            if wide {
                drop(evidence);
                let Some(places) = wide_places_of_value(alloc, sense, objective, value, rays)?
                else {
                    unreachable!()
                };
                return Ok(places);
            }
            Err(LpFail::Wide(evidence))
        }
        Err(LpFail::Memory) => Err(LpFail::Memory),
        Ok(places) => Ok(places),
    }
}
