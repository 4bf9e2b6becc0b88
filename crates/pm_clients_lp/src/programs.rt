// Optima over half-spaces, with a dual or without.

ghost use Rattle.pm_vector.specs.Rows.{HasCols};
ghost use Rattle.pm_clients_lp.specs.Programs.{HasMultipliers, IsDualMatrixOf, IsFoundWithDual, ShowsOptimum, ShowsWeightOf};
ghost use Rattle.pm_dual.specs.Answers.{IsAnswer};
ghost use Rattle.pm_geom.specs.Programs.{Solves};
ghost use Rattle.pm_simplex.specs.Answers.{ShowsProgram};
ghost use Rattle.pm_simplex.specs.Fails.{IfWide};
ghost use Rattle.pm_simplex.specs.Senses.{IsOptimum, objective_in, value_in};
ghost use Rattle.pm_types.specs.Views.{extended_of};
ghost use Rattle.std.specs.Prelude.{IfErr, IfOk, length, ◌+◌, ◌<◌, ◌^◌, ◌≡◌};

use crate::duals::dual_rows;
use pm_fraction::{Fraction, Matrix};
use pm_simplex::{LpAnswer, LpFail, Sense, maximise_by_dictionaries};
use pm_types::Number;
use pm_vector::Ints;
use pm_wide_programs::{greatest_by, greatest_told, maximise_rows_by};
use std::alloc::Global;

/// An optimum, and the rows of a dual that shows it.
#[derive(Drop)]
pub struct OptimumWithDual {
    /// The optimum.
    pub value: Number,
    /// Of a finite optimum the half-spaces with a positive multiplier, times it, in the lexicographic order of the
    /// half-spaces; else no rows.
    pub dual: Matrix,
}

/// The answer of the program whose greatest value is asked.
fn answer_in(
    alloc: Global,
    sense: Sense,
    inequalities: &[Ints],
    equations: &[Ints],
    objective: &[Fraction],
    wide: bool,
) -> Result<LpAnswer, LpFail>
    requires some { 0 < length objective.now }
    requires few { length inequalities.now + length equations.now + length objective.now
        < 2 ^ 31 }
    requires inequality_cols { HasCols (length objective.now) inequalities.now }
    requires equation_cols { HasCols (length objective.now) equations.now }
    ensures answer { IfOk result (IsAnswer inequalities.now equations.now
        (objective_in sense objective.now)) }
    ensures wide { IfErr result (λ f. IfWide f (ShowsProgram inequalities.now
        equations.now (objective_in sense objective.now))) }
{
    let turned = sense.objective(alloc, objective)?;
    let answer = maximise_rows_by(alloc, inequalities, equations, &turned, wide)?;
    Ok(answer)
}

/// The optimum in a sense, by the greatest value that is asked for it.
fn optimum_by(sense: Sense, greatest: Number) -> Number
    ensures { value_in sense (extended_of result) ≡ extended_of greatest }
{
    sense.number(greatest)
}

/// The optimum of an objective over the points with first coordinate 1 that half-spaces and equations have, all rows
/// of as many entries as the objective has:
/// the greatest value or the least, an infinity where the objective goes on without end, and the other infinity where
/// there is no point. Where it is asked by wide numbers, these go on where a pivot leaves the range, whatever room a
/// point of the optimum and a dual take.
/// `Wide` only where a pivot of their program leaves the range, which the evidence (E3) shows.
pub fn optimum_over(
    alloc: Global,
    sense: Sense,
    inequalities: &[Ints],
    equations: &[Ints],
    objective: &[Fraction],
    wide: bool,
) -> Result<Number, LpFail>
    requires some { 0 < length objective.now }
    requires few { length inequalities.now + length equations.now + length objective.now
        < 2 ^ 31 }
    requires inequality_cols { HasCols (length objective.now) inequalities.now }
    requires equation_cols { HasCols (length objective.now) equations.now }
    ensures value { IfOk result (λ x. IsOptimum sense (Solves inequalities.now
        equations.now) objective.now (extended_of x)) }
    ensures wide { IfErr result (λ f. IfWide f (ShowsProgram inequalities.now
        equations.now (objective_in sense objective.now))) }
{
    let turned = sense.objective(alloc, objective)?;
    let greatest = greatest_by(alloc, inequalities, equations, &turned, wide)?;
    Ok(optimum_by(sense, greatest))
}

/// The rows of the dual of an optimum; none without one.
fn dual_of(
    alloc: Global,
    cols: usize,
    inequalities: &[Ints],
    answer: &LpAnswer,
) -> Result<Matrix, LpFail>
    requires multipliers { HasMultipliers inequalities.now answer.now }
    requires cols { HasCols cols inequalities.now }
    ensures rows { IfOk result (IsDualMatrixOf cols inequalities.now answer.now) }
    ensures wide { IfErr result (λ f. IfWide f (ShowsWeightOf inequalities.now answer.now)) }
{
    match answer {
        LpAnswer::Optimal { dual, .. } => dual_rows(alloc, cols, inequalities, dual),
        LpAnswer::Unbounded { .. } => Ok(Matrix::new(alloc, 0)),
        LpAnswer::Infeasible { .. } => Ok(Matrix::new(alloc, 0)),
    }
}

/// The same by the dictionaries of the simplex method alone: a row that leaves the range is then one of the dual of
/// an optimal dictionary.
fn optimum_by_dictionaries(
    alloc: Global,
    sense: Sense,
    inequalities: &[Ints],
    equations: &[Ints],
    objective: &[Fraction],
) -> Result<OptimumWithDual, LpFail>
    requires some { 0 < length objective.now }
    requires few { length inequalities.now + length equations.now + length objective.now
        < 2 ^ 31 }
    requires inequality_cols { HasCols (length objective.now) inequalities.now }
    requires equation_cols { HasCols (length objective.now) equations.now }
    ensures found { IfOk result (λ f. IsFoundWithDual sense inequalities.now equations.now
        objective.now (extended_of f.value) f.dual) }
    ensures wide { IfErr result (λ f. IfWide f (ShowsOptimum inequalities.now
        equations.now (objective_in sense objective.now))) }
{
    let turned = sense.objective(alloc, objective)?;
    let answer = maximise_by_dictionaries(alloc, inequalities, equations, &turned)?;
    match dual_of(alloc, objective.len(), inequalities, &answer) {
        Ok(dual) => {
            let value = optimum_by(sense, greatest_told(&answer));
            drop(answer);
            Ok(OptimumWithDual { value, dual })
        }
        Err(fail) => {
            drop(answer);
            Err(fail)
        }
    }
}

/// The same optimum, and the rows of a dual that shows it, of whichever answer was found.
/// `Wide` only where a pivot of the program leaves the range (E3), or a row of the dual of an optimal dictionary
/// does, or its primitive row (E4).
pub fn optimum_with_dual(
    alloc: Global,
    sense: Sense,
    inequalities: &[Ints],
    equations: &[Ints],
    objective: &[Fraction],
    wide: bool,
) -> Result<OptimumWithDual, LpFail>
    requires some { 0 < length objective.now }
    requires few { length inequalities.now + length equations.now + length objective.now
        < 2 ^ 31 }
    requires inequality_cols { HasCols (length objective.now) inequalities.now }
    requires equation_cols { HasCols (length objective.now) equations.now }
    ensures found { IfOk result (λ f. IsFoundWithDual sense inequalities.now equations.now
        objective.now (extended_of f.value) f.dual) }
    ensures wide { IfErr result (λ f. IfWide f (ShowsOptimum inequalities.now
        equations.now (objective_in sense objective.now))) }
{
    let answer = answer_in(alloc, sense, inequalities, equations, objective, wide)?;
    match dual_of(alloc, objective.len(), inequalities, &answer) {
        Ok(dual) => {
            let value = optimum_by(sense, greatest_told(&answer));
            drop(answer);
            Ok(OptimumWithDual { value, dual })
        }
        Err(LpFail::Memory) => {
            drop(answer);
            Err(LpFail::Memory)
        }
        Err(LpFail::Wide(refused)) => {
            drop(refused);
            drop(answer);
            optimum_by_dictionaries(alloc, sense, inequalities, equations, objective)
        }
    }
}
