// Greatest values, where it is asked by the search in wide numbers too.

ghost use Rattle.pm_vector.specs.Rows.{HasCols};
ghost use Rattle.pm_dual.specs.Answers.{IsAnswer};
ghost use Rattle.pm_geom.specs.Programs.{Solves};
ghost use Rattle.pm_simplex.specs.Answers.{ShowsProgram};
ghost use Rattle.pm_simplex.specs.Fails.{IfWide};
ghost use Rattle.pm_types.specs.Programs.{IsGreatest};
ghost use Rattle.pm_types.specs.Views.{extended_of};
ghost use Rattle.pm_wide_programs.specs.Greatest.{greatest_in};
ghost use Rattle.std.specs.Prelude.{IfErr, IfOk, length, ◌*◌, ◌+◌, ◌<◌, ◌^◌, ◌≡◌, ◌≤◌};

use crate::answer::{wide_answer, wide_greatest};
use pm_dual::LpAnswer;
use pm_fraction::Fraction;
use pm_simplex::{LpFail, maximise_rows};
use pm_types::Number;
use pm_vector::Ints;
use std::alloc::Global;

/// As `maximise_rows` of `pm_simplex`, and where a pivot leaves the range and it is asked by wide numbers, the answer
/// of the search in these if it finds one; else the refusal of the first.
pub fn maximise_rows_by(
    alloc: Global,
    inequalities: &[Ints],
    equations: &[Ints],
    objective: &[Fraction],
    wide: bool,
) -> Result<LpAnswer, LpFail>
    requires some { 0 < length objective.now }
    requires few { length inequalities.now + length equations.now + length objective.now ≤ 3 * 2 ^ 30 }
    requires inequality_cols { HasCols (length objective.now) inequalities.now }
    requires equation_cols { HasCols (length objective.now) equations.now }
    ensures answer { IfOk result (IsAnswer inequalities.now equations.now objective.now) }
    ensures wide { IfErr result (λ f. IfWide f (ShowsProgram inequalities.now equations.now objective.now)) }
{
    match maximise_rows(alloc, inequalities, equations, objective) {
        Err(LpFail::Wide(evidence)) if wide => {
            match wide_answer(alloc, inequalities, equations, objective) {
                Ok(Some(answer)) => {
                    drop(evidence);
                    Ok(answer)
                }
                Ok(None) => Err(LpFail::Wide(evidence)),
                Err(e) => {
                    drop(evidence);
                    Err(LpFail::from(e))
                }
            }
        }
        other => other,
    }
}

/// The greatest value that an answer tells: an infinity where there is none.
pub fn greatest_told(answer: &LpAnswer) -> Number
    ensures { extended_of result ≡ greatest_in answer.now }
{
    match answer {
        LpAnswer::Optimal { value, .. } => Number::Finite(*value),
        LpAnswer::Unbounded { .. } => Number::Plus,
        LpAnswer::Infeasible { .. } => Number::Minus,
    }
}

/// The greatest value of an objective over the points with first coordinate 1 that the rows have: an infinity where it
/// grows without bound, and the other one where there is no point. As `maximise_rows` of `pm_simplex` finds it; and
/// where a pivot leaves the range and it is asked by wide numbers, as the search in these finds it, if it does, whatever
/// room a point of this value and a dual take; else the refusal of the first.
pub fn greatest_by(
    alloc: Global,
    inequalities: &[Ints],
    equations: &[Ints],
    objective: &[Fraction],
    wide: bool,
) -> Result<Number, LpFail>
    requires some { 0 < length objective.now }
    requires few { length inequalities.now + length equations.now + length objective.now ≤ 3 * 2 ^ 30 }
    requires inequality_cols { HasCols (length objective.now) inequalities.now }
    requires equation_cols { HasCols (length objective.now) equations.now }
    ensures value { IfOk result (λ x.
        IsGreatest (Solves inequalities.now equations.now) objective.now (extended_of x)) }
    ensures wide { IfErr result (λ f. IfWide f (ShowsProgram inequalities.now equations.now objective.now)) }
{
    match maximise_rows(alloc, inequalities, equations, objective) {
        Ok(answer) => {
            let greatest = greatest_told(&answer);
            drop(answer);
            Ok(greatest)
        }
        Err(LpFail::Wide(evidence)) if wide => {
            match wide_greatest(alloc, inequalities, equations, objective) {
                Ok(Some(greatest)) => {
                    drop(evidence);
                    Ok(greatest)
                }
                Ok(None) => Err(LpFail::Wide(evidence)),
                Err(e) => {
                    drop(evidence);
                    Err(LpFail::from(e))
                }
            }
        }
        Err(fail) => Err(fail),
    }
}
