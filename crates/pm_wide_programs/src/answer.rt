// The answer that a search in wide numbers finds, where exact products show it.

ghost use Rattle.pm_vector.specs.Rows.{HasCols};
ghost use Rattle.pm_dual.specs.Answers.{IsAnswer};
ghost use Rattle.pm_geom.specs.Programs.{IsTimes, Solves};
ghost use Rattle.pm_types.specs.Programs.{IsGreatest};
ghost use Rattle.pm_types.specs.Views.{extended_of};
ghost use Rattle.pm_wide_programs.specs.Shown.{IsGreatestOfTimes};
ghost use Rattle.std.specs.Prelude.{IfOk, IfSome, length, ◌<◌};

use crate::check::{excludes_points, grows, infeasible, optimum, shown_value, unbounded};
use crate::objective::{WholeObjective, whole_objective};
use crate::rows::Rows;
use crate::search::{Guess, search};
use pm_dual::LpAnswer;
use pm_fraction::Fraction;
use pm_types::Number;
use pm_vector::Ints;
use std::alloc::{AllocError, Global};

/// The answer that a guess is, where exact products show it. None where they do not, or its numbers do not fit.
fn shown_answer(
    alloc: Global,
    inequalities: &[Ints],
    equations: &[Ints],
    objective: &[Fraction],
    whole: &WholeObjective,
    guess: &Guess,
) -> Result<Option<LpAnswer>, AllocError>
    requires some { 0 < length objective.now }
    requires inequality_cols { HasCols (length objective.now) inequalities.now }
    requires equation_cols { HasCols (length objective.now) equations.now }
    requires whole { IsTimes whole.now.times objective.now whole.now.row }
    ensures { IfOk result (λ o. IfSome o (IsAnswer inequalities.now equations.now objective.now)) }
{
    let cols = objective.len();
    let count = inequalities.len() + equations.len();
    match guess {
        Guess::Optimal { point, multipliers } => {
            let numbers = &multipliers.numbers;
            if point.len() != cols || numbers.len() != count {
                return Ok(None);
            }
            let scale = multipliers.scale;
            optimum(alloc, inequalities, equations, whole, point, scale, numbers)
        }
        Guess::Unbounded { point, direction } => {
            if point.len() != cols || direction.len() != cols {
                return Ok(None);
            }
            unbounded(alloc, inequalities, equations, whole, point, direction)
        }
        Guess::Infeasible { multipliers } => {
            let numbers = &multipliers.numbers;
            if numbers.len() != count {
                return Ok(None);
            }
            infeasible(alloc, inequalities, equations, whole, numbers)
        }
    }
}

/// The greatest value that a guess tells, where exact products show it, whatever room its point and multipliers take.
/// None where they do not, or the value does not fit.
fn shown_greatest(
    inequalities: &[Ints],
    equations: &[Ints],
    whole: &WholeObjective,
    guess: &Guess,
) -> Option<Number>
    requires some { 0 < length whole.now.row }
    requires inequality_cols { HasCols (length whole.now.row) inequalities.now }
    requires equation_cols { HasCols (length whole.now.row) equations.now }
    ensures { IfSome result (λ x.
        IsGreatestOfTimes inequalities.now equations.now whole.now.times whole.now.row (extended_of x)) }
{
    let cols = whole.row.len();
    let count = inequalities.len() + equations.len();
    match guess {
        Guess::Optimal { point, multipliers } => {
            let numbers = &multipliers.numbers;
            if point.len() == cols && numbers.len() == count {
                let scale = multipliers.scale;
                let value = shown_value(inequalities, equations, whole, point, scale, numbers)?;
                Some(Number::Finite(value))
            } else {
                None
            }
        }
        Guess::Unbounded { point, direction } => {
            if point.len() != cols || direction.len() != cols {
                return None;
            }
            if grows(inequalities, equations, whole, point, direction) {
                Some(Number::Plus)
            } else {
                None
            }
        }
        Guess::Infeasible { multipliers } => {
            let numbers = &multipliers.numbers;
            if numbers.len() == count && excludes_points(inequalities, equations, whole, numbers) {
                Some(Number::Minus)
            } else {
                None
            }
        }
    }
}

/// The greatest value of a program, found by a free search in wider numbers and shown by exact products, whatever room
/// a point of this value and a dual take. None where the search finds none, or the value does not fit: that says
/// nothing of the program.
pub fn wide_greatest(
    alloc: Global,
    inequalities: &[Ints],
    equations: &[Ints],
    objective: &[Fraction],
) -> Result<Option<Number>, AllocError>
    requires some { 0 < length objective.now }
    requires inequality_cols { HasCols (length objective.now) inequalities.now }
    requires equation_cols { HasCols (length objective.now) equations.now }
    ensures { IfOk result (λ o. IfSome o (λ x.
        IsGreatest (Solves inequalities.now equations.now) objective.now (extended_of x))) }
{
    let Some(whole) = whole_objective(alloc, objective)? else {
        return Ok(None);
    };
    let rows = Rows {
        inequalities,
        equations,
    };
    let count = inequalities.len() + equations.len();
    let Some(guess) = search(alloc, rows, count, whole.row.as_slice())? else {
        return Ok(None);
    };
    let greatest = shown_greatest(inequalities, equations, &whole, &guess);
    drop(guess);
    Ok(greatest)
}

/// An answer of the program, found by a free search in wider numbers and shown by exact products. None where the search
/// finds none, or its numbers do not fit: that says nothing of the program.
pub fn wide_answer(
    alloc: Global,
    inequalities: &[Ints],
    equations: &[Ints],
    objective: &[Fraction],
) -> Result<Option<LpAnswer>, AllocError>
    requires some { 0 < length objective.now }
    requires inequality_cols { HasCols (length objective.now) inequalities.now }
    requires equation_cols { HasCols (length objective.now) equations.now }
    ensures { IfOk result (λ o. IfSome o (IsAnswer inequalities.now equations.now objective.now)) }
{
    let Some(whole) = whole_objective(alloc, objective)? else {
        return Ok(None);
    };
    let rows = Rows {
        inequalities,
        equations,
    };
    let count = inequalities.len() + equations.len();
    let Some(guess) = search(alloc, rows, count, whole.row.as_slice())? else {
        return Ok(None);
    };
    let answer = shown_answer(alloc, inequalities, equations, objective, &whole, &guess);
    drop(guess);
    answer
}
