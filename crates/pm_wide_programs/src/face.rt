// The rays at which an objective has a value, by wide numbers.

ghost use Rattle.pm_limits.specs.Limits.{most_rows};
ghost use Rattle.pm_simplex.specs.Senses.{objective_in, value_in};
ghost use Rattle.pm_types.specs.Forms.{HasPrimitiveRow, is_counts_form};
ghost use Rattle.pm_types.specs.Programs.{ArePlacesOfValue};
ghost use Rattle.pm_types.specs.Values.{finite};
ghost use Rattle.pm_vector.specs.Rows.{HasCols};
ghost use Rattle.pm_wide_programs.specs.Slacks.{AreLevelPlaces};
ghost use Rattle.std.specs.Prelude.{IfNone, IfOk, IfSome, IsTrue, length, ◌<◌, ◌≤◌};

use crate::objective::{WholeObjective, whole_objective};
use crate::slack::slack;
use pm_fraction::Fraction;
use pm_simplex::Sense;
use pm_vector::Ints;
use std::alloc::{AllocError, Global};

/// The places of the rays at which the slack of the value is 0, ascending.
fn level_places(
    alloc: Global,
    objective: &WholeObjective,
    value: Fraction,
    rays: &[Ints],
) -> Result<Vec<i64>, AllocError>
    requires some { 0 < length objective.now.row }
    requires cols { HasCols (length objective.now.row) rays.now }
    requires few { length rays.now ≤ most_rows }
    ensures places { IfOk result (λ v.
        AreLevelPlaces objective.now.times objective.now.row value rays.now (length rays.now) v.items) }
    ensures form { IfOk result (λ v. IsTrue (is_counts_form v.items)) }
{
    let mut places = Vec::new(alloc);
    for i in 0..rays.len() {
        let made = slack(objective, value, &rays[i]);
        if made.is_zero() {
            places.push(i as i64)?;
        }
    }
    Ok(places)
}

/// The places, ascending, of the rays at which an objective has its greatest or least value, which is handed in. All
/// rows have as many entries as the objective. None only where the primitive row of the objective is not made within
/// the range of 128 bits.
pub fn wide_places_of_value(
    alloc: Global,
    sense: Sense,
    objective: &[Fraction],
    value: Fraction,
    rays: &[Ints],
) -> Result<Option<Vec<i64>>, AllocError>
    requires some { 0 < length objective.now }
    requires cols { HasCols (length objective.now) rays.now }
    requires few { length rays.now ≤ most_rows }
    ensures places { IfOk result (λ o. IfSome o (λ v.
        ArePlacesOfValue (objective_in sense objective.now) (value_in sense (finite value)) rays.now v.items)) }
    ensures form { IfOk result (λ o. IfSome o (λ v. IsTrue (is_counts_form v.items))) }
    ensures none { IfOk result (λ o. IfNone o (¬ (HasPrimitiveRow objective.now))) }
{
    let turned = sense.objective(alloc, objective)?;
    let Some(whole) = whole_objective(alloc, &turned)? else {
        return Ok(None);
    };
    Ok(Some(level_places(alloc, &whole, sense.value(value), rays)?))
}
