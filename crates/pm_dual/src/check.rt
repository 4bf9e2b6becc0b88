// The three answers, checked by exact products.

ghost use Rattle.pm_vector.specs.Cones.{combination};
ghost use Rattle.pm_vector.specs.Numbers.{Ratio};
ghost use Rattle.pm_vector.specs.Rows.{HasCols, Same, entry, plus, times as times_of};
ghost use Rattle.pm_dual.specs.Answers.{IsAnswer, IsAnswerOfTimes};
ghost use Rattle.std.specs.Prelude.{IfOk, IfSome, IsTrue, List, [], length, pos, ◌+◌, ◌++◌, ◌<◌, ◌<ℤ◌, ◌∷◌, ◌≡◌, ◌≤ℤ◌, ℕ};

use crate::answer::LpAnswer;
use crate::search_objectives::is_constant;
use crate::sums::{add_rows, solves};
use crate::whole::{WholeObjective, quotients};
use pm_fraction::Fraction;
use pm_vector::{Ints, combine, dot, times};
use std::alloc::{AllocError, Global};

/// Whether no number is negative.
fn is_not_negative(numbers: &[i128]) -> bool
    ensures { IsTrue result → (i : ℕ) → i < length numbers.now → pos 0 ≤ℤ entry numbers.now i }
{
    for i in 0..numbers.len() {
        if numbers[i] < 0 {
            return false;
        }
    }
    true
}

/// Adds each inequality and each equation its number of times, where that is exact.
fn add_all(sum: &mut Ints, multipliers: &[i128], inequalities: &[Ints], equations: &[Ints]) -> bool
    requires as_many { length multipliers.now ≡ length inequalities.now + length equations.now }
    requires inequality_cols { HasCols (length sum.old) inequalities.now }
    requires equation_cols { HasCols (length sum.old) equations.now }
    ensures cols { length sum.new ≡ length sum.old }
    ensures sum { IsTrue result
        → Same sum.new (plus sum.old (combination multipliers.now (inequalities.now ++ equations.now))) }
{
    let (first, second) = multipliers.split_at(inequalities.len());
    if !add_rows(sum, first, inequalities) {
        return false;
    }
    add_rows(sum, second, equations)
}

/// A row of as many zeros.
fn zeros(alloc: Global, cols: usize) -> Result<Ints, AllocError>
    ensures cols { IfOk result (λ z. length z ≡ cols) }
    ensures zero { IfOk result (λ z. (i : ℕ) → entry z i ≡ pos 0) }
{
    let mut row = Ints::new(alloc);
    for _i in 0..cols {
        row.push(0)?;
    }
    Ok(row)
}

/// Whether the first multipliers are not negative, and the sum of the rows, each taken its number of times, and of
/// `start` is the constant.
fn sums_to(
    start: &mut Ints,
    multipliers: &[i128],
    inequalities: &[Ints],
    equations: &[Ints],
    constant: i128,
) -> bool
    requires some { 0 < length start.old }
    requires as_many { length multipliers.now ≡ length inequalities.now + length equations.now }
    requires inequality_cols { HasCols (length start.old) inequalities.now }
    requires equation_cols { HasCols (length start.old) equations.now }
    ensures up { IsTrue result → (i : ℕ) → i < length inequalities.now → pos 0 ≤ℤ entry multipliers.now i }
    ensures sum { IsTrue result
        → Same (constant
        ∷ []) (plus start.old (combination multipliers.now (inequalities.now ++ equations.now))) }
{
    let (first, _second) = multipliers.split_at(inequalities.len());
    if !is_not_negative(first) {
        return false;
    }
    if !add_all(start, multipliers, inequalities, equations) {
        return false;
    }
    start.get(0) == constant && is_constant(start.as_slice())
}

/// A row, taken a number of times, where that is exact.
fn taken(alloc: Global, row: &Ints, number: i128) -> Result<Option<Ints>, AllocError>
    ensures cols { IfOk result (λ o. IfSome o (λ r. length r ≡ length row.now)) }
    ensures times { IfOk result (λ o. IfSome o (λ r. Same r (times_of number row.now))) }
{
    let mut multiple = row.copy(alloc)?;
    match combine(number, &mut multiple, 0, row) {
        Ok(()) => Ok(Some(multiple)),
        Err(_) => Ok(None),
    }
}

/// The optimum at the point over its first entry, with the multipliers as its dual, where exact products show it.
pub(crate) fn optimum(
    alloc: Global,
    inequalities: &[Ints],
    equations: &[Ints],
    objective: &WholeObjective,
    point: &[i128],
    multipliers: &[i128],
) -> Result<Option<LpAnswer>, AllocError>
    requires some { 0 < length point.now }
    requires cols { length point.now ≡ length objective.now.row }
    requires positive { pos 0 <ℤ objective.now.times }
    requires as_many { length multipliers.now ≡ length inequalities.now + length equations.now }
    requires inequality_cols { HasCols (length point.now) inequalities.now }
    requires equation_cols { HasCols (length point.now) equations.now }
    ensures { IfOk result (λ o.
        IfSome o (IsAnswerOfTimes inequalities.now equations.now objective.now.times objective.now.row)) }
{
    let scale = point[0];
    if scale <= 0 || !solves(inequalities, equations, point) {
        return Ok(None);
    }
    let Ok(value) = dot(objective.row.as_slice(), point) else {
        return Ok(None);
    };
    let Ok(denominator) = times(scale, objective.times) else {
        return Ok(None);
    };
    let Some(mut start) = taken(alloc, &objective.row, scale)? else {
        return Ok(None);
    };
    if !sums_to(&mut start, multipliers, inequalities, equations, value) {
        return Ok(None);
    }
    let Ok(value) = Fraction::new(value, denominator) else {
        return Ok(None);
    };
    let Some(point) = quotients(alloc, point, scale)? else {
        return Ok(None);
    };
    let Some(dual) = quotients(alloc, multipliers, denominator)? else {
        return Ok(None);
    };
    Ok(Some(LpAnswer::Optimal { value, point, dual }))
}

/// The objective grows without bound from the point over its first entry in the direction, where exact products show
/// it.
pub(crate) fn unbounded(
    alloc: Global,
    inequalities: &[Ints],
    equations: &[Ints],
    objective: &WholeObjective,
    point: &[i128],
    direction: &[i128],
) -> Result<Option<LpAnswer>, AllocError>
    requires some { 0 < length point.now }
    requires cols { length point.now ≡ length objective.now.row }
    requires direction_cols { length direction.now ≡ length objective.now.row }
    requires inequality_cols { HasCols (length point.now) inequalities.now }
    requires equation_cols { HasCols (length point.now) equations.now }
    ensures { IfOk result (λ o.
        IfSome o (IsAnswerOfTimes inequalities.now equations.now objective.now.times objective.now.row)) }
{
    let scale = point[0];
    if scale <= 0 || !solves(inequalities, equations, point) {
        return Ok(None);
    }
    if direction[0] != 0 || !solves(inequalities, equations, direction) {
        return Ok(None);
    }
    let Ok(rate) = dot(objective.row.as_slice(), direction) else {
        return Ok(None);
    };
    if rate <= 0 {
        return Ok(None);
    }
    let Some(point) = quotients(alloc, point, scale)? else {
        return Ok(None);
    };
    let Some(direction) = quotients(alloc, direction, 1)? else {
        return Ok(None);
    };
    Ok(Some(LpAnswer::Unbounded { point, direction }))
}

/// There is no point, where exact products show that the rows, taken these numbers of times, sum to a negative
/// constant.
pub(crate) fn infeasible(
    alloc: Global,
    cols: usize,
    inequalities: &[Ints],
    equations: &[Ints],
    constant: i128,
    multipliers: &[i128],
) -> Result<Option<LpAnswer>, AllocError>
    requires some { 0 < cols }
    requires as_many { length multipliers.now ≡ length inequalities.now + length equations.now }
    requires inequality_cols { HasCols cols inequalities.now }
    requires equation_cols { HasCols cols equations.now }
    ensures { IfOk result (λ o. IfSome o (λ answer. (c : List Ratio)
        → IsAnswer inequalities.now equations.now c answer)) }
{
    let mut start = zeros(alloc, cols)?;
    if constant >= 0 || !sums_to(&mut start, multipliers, inequalities, equations, constant) {
        return Ok(None);
    }
    let Some(multipliers) = quotients(alloc, multipliers, 1)? else {
        return Ok(None);
    };
    Ok(Some(LpAnswer::Infeasible { multipliers }))
}
