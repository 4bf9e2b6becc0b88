// The three answers, checked by exact products of wide numbers.

ghost use Rattle.pm_vector.specs.Numbers.{Ratio};
ghost use Rattle.pm_vector.specs.Rows.{HasCols};
ghost use Rattle.pm_vector.specs.WideInts.{value_of};
ghost use Rattle.pm_dual.specs.Answers.{IsAnswer, IsAnswerOfTimes};
ghost use Rattle.pm_wide_programs.specs.CommonValues.{IsCommonValue};
ghost use Rattle.pm_wide_programs.specs.Shown.{IsShownInfeasible, IsShownUnbounded, IsShownValue};
ghost use Rattle.pm_wide_programs.specs.Values.{values};
ghost use Rattle.std.specs.Prelude.{IfOk, IfSome, IsTrue, List, length, ◌+◌, ◌<◌, ◌≡◌};

use crate::fractions::{quotient, quotients};
use crate::objective::WholeObjective;
use crate::products::{product, solves};
use crate::sums::{constant_of, first_not_negative};
use pm_dual::LpAnswer;
use pm_fraction::Fraction;
use pm_vector::{Ints, WideInt};
use std::alloc::{AllocError, Global};

/// The value of the objective at the point over its first entry, if it is also that of the constant which the
/// objective and the rows are together, taken the scale and these numbers of times.
fn common_value(
    inequalities: &[Ints],
    equations: &[Ints],
    objective: &WholeObjective,
    point: &[WideInt],
    scale: WideInt,
    multipliers: &[WideInt],
) -> Option<Fraction>
    requires some { 0 < length point.now }
    requires cols { length point.now ≡ length objective.now.row }
    requires as_many { length multipliers.now ≡ length inequalities.now + length equations.now }
    requires inequality_cols { HasCols (length point.now) inequalities.now }
    requires equation_cols { HasCols (length point.now) equations.now }
    ensures { IfSome result
        (IsCommonValue inequalities.now equations.now objective.now.times objective.now.row
        (values point.now) (value_of scale) (values multipliers.now)) }
{
    let times = WideInt::of(objective.times);
    let constant = constant_of(scale, &objective.row, multipliers, inequalities, equations)?;
    let denominator = scale.times(times)?;
    let bound = quotient(constant, denominator)?;
    let top = product(objective.row.as_slice(), point)?;
    let first = point[0].times(times)?;
    let value = quotient(top, first)?;
    if value == bound { Some(value) } else { None }
}

/// The value at the point over its first entry, with the multipliers over the scale as its dual, where exact products
/// show that it is the greatest.
pub(crate) fn shown_value(
    inequalities: &[Ints],
    equations: &[Ints],
    objective: &WholeObjective,
    point: &[WideInt],
    scale: WideInt,
    multipliers: &[WideInt],
) -> Option<Fraction>
    requires some { 0 < length point.now }
    requires cols { length point.now ≡ length objective.now.row }
    requires as_many { length multipliers.now ≡ length inequalities.now + length equations.now }
    requires inequality_cols { HasCols (length point.now) inequalities.now }
    requires equation_cols { HasCols (length point.now) equations.now }
    ensures { IfSome result
        (IsShownValue inequalities.now equations.now objective.now.times objective.now.row
        (values point.now) (value_of scale) (values multipliers.now)) }
{
    if !first_not_negative(multipliers, inequalities.len())
        || !solves(inequalities, equations, point)
    {
        return None;
    }
    common_value(
        inequalities,
        equations,
        objective,
        point,
        scale,
        multipliers,
    )
}

/// Whether exact products show that the objective grows without bound from the point over its first entry in the
/// direction.
pub(crate) fn grows(
    inequalities: &[Ints],
    equations: &[Ints],
    objective: &WholeObjective,
    point: &[WideInt],
    direction: &[WideInt],
) -> bool
    requires some { 0 < length point.now }
    requires cols { length point.now ≡ length objective.now.row }
    requires direction_cols { length direction.now ≡ length objective.now.row }
    requires inequality_cols { HasCols (length point.now) inequalities.now }
    requires equation_cols { HasCols (length point.now) equations.now }
    ensures { IsTrue result → IsShownUnbounded inequalities.now equations.now objective.now.row
        (values point.now) (values direction.now) }
{
    if !point[0].is_positive() || !solves(inequalities, equations, point) {
        return false;
    }
    if !direction[0].is_zero() || !solves(inequalities, equations, direction) {
        return false;
    }
    match product(objective.row.as_slice(), direction) {
        Some(rate) => rate.is_positive(),
        None => false,
    }
}

/// Whether exact products show that the rows, taken these numbers of times, sum to a negative constant.
pub(crate) fn excludes_points(
    inequalities: &[Ints],
    equations: &[Ints],
    objective: &WholeObjective,
    multipliers: &[WideInt],
) -> bool
    requires some { 0 < length objective.now.row }
    requires as_many { length multipliers.now ≡ length inequalities.now + length equations.now }
    requires inequality_cols { HasCols (length objective.now.row) inequalities.now }
    requires equation_cols { HasCols (length objective.now.row) equations.now }
    ensures { IsTrue result
        → IsShownInfeasible inequalities.now equations.now (values multipliers.now) }
{
    if !first_not_negative(multipliers, inequalities.len()) {
        return false;
    }
    let none = WideInt::of(0);
    match constant_of(none, &objective.row, multipliers, inequalities, equations) {
        Some(constant) => constant.is_negative(),
        None => false,
    }
}

/// The optimum at the point over its first entry, with the multipliers over the scale as its dual, where exact
/// products show it.
pub(crate) fn optimum(
    alloc: Global,
    inequalities: &[Ints],
    equations: &[Ints],
    objective: &WholeObjective,
    point: &[WideInt],
    scale: WideInt,
    multipliers: &[WideInt],
) -> Result<Option<LpAnswer>, AllocError>
    requires some { 0 < length point.now }
    requires cols { length point.now ≡ length objective.now.row }
    requires as_many { length multipliers.now ≡ length inequalities.now + length equations.now }
    requires inequality_cols { HasCols (length point.now) inequalities.now }
    requires equation_cols { HasCols (length point.now) equations.now }
    ensures { IfOk result (λ o.
        IfSome o (IsAnswerOfTimes inequalities.now equations.now objective.now.times objective.now.row)) }
{
    let Some(value) = shown_value(
        inequalities,
        equations,
        objective,
        point,
        scale,
        multipliers,
    ) else {
        return Ok(None);
    };
    let Some(denominator) = scale.times(WideInt::of(objective.times)) else {
        return Ok(None);
    };
    let Some(point) = quotients(alloc, point, point[0])? else {
        return Ok(None);
    };
    let Some(dual) = quotients(alloc, multipliers, denominator)? else {
        return Ok(None);
    };
    Ok(Some(LpAnswer::Optimal { value, point, dual }))
}

/// The objective grows without bound from the point over its first entry in the direction, where exact products show
/// it.
pub(crate) fn unbounded(
    alloc: Global,
    inequalities: &[Ints],
    equations: &[Ints],
    objective: &WholeObjective,
    point: &[WideInt],
    direction: &[WideInt],
) -> Result<Option<LpAnswer>, AllocError>
    requires some { 0 < length point.now }
    requires cols { length point.now ≡ length objective.now.row }
    requires direction_cols { length direction.now ≡ length objective.now.row }
    requires inequality_cols { HasCols (length point.now) inequalities.now }
    requires equation_cols { HasCols (length point.now) equations.now }
    ensures { IfOk result (λ o.
        IfSome o (IsAnswerOfTimes inequalities.now equations.now objective.now.times objective.now.row)) }
{
    if !grows(inequalities, equations, objective, point, direction) {
        return Ok(None);
    }
    let Some(point) = quotients(alloc, point, point[0])? else {
        return Ok(None);
    };
    let Some(direction) = quotients(alloc, direction, WideInt::of(1))? else {
        return Ok(None);
    };
    Ok(Some(LpAnswer::Unbounded { point, direction }))
}

/// There is no point, where exact products show that the rows, taken these numbers of times, sum to a negative
/// constant.
pub(crate) fn infeasible(
    alloc: Global,
    inequalities: &[Ints],
    equations: &[Ints],
    objective: &WholeObjective,
    multipliers: &[WideInt],
) -> Result<Option<LpAnswer>, AllocError>
    requires some { 0 < length objective.now.row }
    requires as_many { length multipliers.now ≡ length inequalities.now + length equations.now }
    requires inequality_cols { HasCols (length objective.now.row) inequalities.now }
    requires equation_cols { HasCols (length objective.now.row) equations.now }
    ensures { IfOk result (λ o. IfSome o (λ answer. (c : List Ratio)
        → IsAnswer inequalities.now equations.now c answer)) }
{
    if !excludes_points(inequalities, equations, objective, multipliers) {
        return Ok(None);
    }
    let Some(multipliers) = quotients(alloc, multipliers, WideInt::of(1))? else {
        return Ok(None);
    };
    Ok(Some(LpAnswer::Infeasible { multipliers }))
}
