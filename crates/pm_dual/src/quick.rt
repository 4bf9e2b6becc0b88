// The answer that a search finds, where exact products show it.

ghost use Rattle.pm_vector.specs.Rows.{HasCols};
ghost use Rattle.pm_dual.specs.Answers.{IsAnswer};
ghost use Rattle.pm_geom.specs.Programs.{IsTimes};
ghost use Rattle.std.specs.Prelude.{IfOk, IfSome, length, ◌<◌};

use crate::answer::LpAnswer;
use crate::check::{infeasible, optimum, unbounded};
use crate::rows::{Rows, short_rows};
use crate::search::{Guess, search};
use crate::whole::{WholeObjective, whole_objective};
use pm_fraction::Fraction;
use pm_vector::Ints;
use std::alloc::{AllocError, Global};

/// The answer that a guess is, where exact products show it. None where they do not.
fn shown_answer(
    alloc: Global,
    inequalities: &[Ints],
    equations: &[Ints],
    objective: &[Fraction],
    whole: &WholeObjective,
    guess: &Guess,
) -> Result<Option<LpAnswer>, AllocError>
    requires some { 0 < length objective.now }
    requires inequality_cols { HasCols (length objective.now) inequalities.now }
    requires equation_cols { HasCols (length objective.now) equations.now }
    requires whole { IsTimes whole.now.times objective.now whole.now.row }
    ensures { IfOk result (λ o. IfSome o (IsAnswer inequalities.now equations.now objective.now)) }
{
    let cols = objective.len();
    let count = inequalities.len() + equations.len();
    match guess {
        Guess::Optimal { point, multipliers } => {
            if point.len() != cols || multipliers.len() != count {
                return Ok(None);
            }
            optimum(alloc, inequalities, equations, whole, point, multipliers)
        }
        Guess::Unbounded { point, direction } => {
            if point.len() != cols || direction.len() != cols {
                return Ok(None);
            }
            unbounded(alloc, inequalities, equations, whole, point, direction)
        }
        Guess::Infeasible {
            constant,
            multipliers,
        } => {
            if multipliers.len() != count {
                return Ok(None);
            }
            infeasible(alloc, cols, inequalities, equations, *constant, multipliers)
        }
    }
}

/// An answer of the program, which exact products show. None where a search finds none: that says nothing of the
/// program.
pub fn quick_answer(
    alloc: Global,
    inequalities: &[Ints],
    equations: &[Ints],
    objective: &[Fraction],
) -> Result<Option<LpAnswer>, AllocError>
    requires some { 0 < length objective.now }
    requires inequality_cols { HasCols (length objective.now) inequalities.now }
    requires equation_cols { HasCols (length objective.now) equations.now }
    ensures { IfOk result (λ o. IfSome o (IsAnswer inequalities.now equations.now objective.now)) }
{
    let Some(whole) = whole_objective(alloc, objective)? else {
        return Ok(None);
    };
    let short = short_rows(alloc, inequalities)?;
    let rows = Rows {
        inequalities,
        equations,
        short: &short,
    };
    let Some(guess) = search(alloc, rows, whole.row.as_slice())? else {
        return Ok(None);
    };
    let answer = shown_answer(alloc, inequalities, equations, objective, &whole, &guess);
    drop(guess);
    answer
}
