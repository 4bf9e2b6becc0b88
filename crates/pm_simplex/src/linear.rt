// The greatest value of an objective.

ghost use Rattle.pm_vector.specs.Rows.{HasCols};
ghost use Rattle.pm_fraction.specs.FractionRows.{ArePrimitiveRowsOf};
ghost use Rattle.pm_dual.specs.Answers.{IsAnswer};
ghost use Rattle.pm_simplex.specs.Answers.{IsAnswerOf, ShowsProgram, ShowsProgramOf};
ghost use Rattle.pm_simplex.specs.OptimalDuals.{HasDictionaryDual};
ghost use Rattle.pm_simplex.specs.Fails.{IfWide};
ghost use Rattle.pm_simplex.specs.declared.fails.LpFail.TheVariants.{Memory};
ghost use Rattle.pm_types.specs.Forms.{HasPrimitiveRow};
ghost use Rattle.std.specs.Prelude.{All, IfErr, IfOk, length, ◌*◌, ◌+◌, ◌<◌, ◌^◌, ◌≡◌, ◌≤◌};

use crate::fails::LpFail;
use crate::layout::Layout;
use crate::program::by_dictionaries;
use pm_dual::{LpAnswer, quick_answer};
use pm_fraction::{Fraction, Matrix, RowsFail};
use pm_vector::Ints;
use std::alloc::Global;

/// The objective of a linear program: a number for each column.
#[derive(Drop)]
pub struct Objective {
    /// Its numbers, that of the constant first.
    pub row: Vec<Fraction>,
}

/// The primitive whole rows of a matrix. Want of memory alone ends it.
fn primitive_rows(alloc: Global, matrix: &Matrix) -> Result<Vec<Ints>, LpFail>
    requires few { length matrix.now.rows < 2 ^ 30 }
    requires stay { All HasPrimitiveRow matrix.now.rows }
    ensures rows { IfOk result (λ v. ArePrimitiveRowsOf matrix.now.rows v.items) }
    ensures cols { IfOk result (λ v. HasCols matrix.now.cols v.items) }
    ensures failed { IfErr result (λ f. f ≡ Memory) }
{
    match matrix.to_primitive_rows(alloc) {
        Ok(rows) => {
            let _ = matrix.cols();
            Ok(rows)
        }
        Err(RowsFail::Memory) => Err(LpFail::Memory),
        Err(RowsFail::Wide { .. }) => unreachable!(),
    }
}

/// The same answer by the dictionaries of the simplex method alone: the dual of an optimum is that of an optimal
/// dictionary.
pub fn maximise_by_dictionaries(
    alloc: Global,
    inequalities: &[Ints],
    equations: &[Ints],
    objective: &[Fraction],
) -> Result<LpAnswer, LpFail>
    requires some { 0 < length objective.now }
    requires few { length inequalities.now + length equations.now + length objective.now ≤ 3 * 2 ^ 30 }
    requires inequality_cols { HasCols (length objective.now) inequalities.now }
    requires equation_cols { HasCols (length objective.now) equations.now }
    ensures answer { IfOk result (IsAnswer inequalities.now equations.now objective.now) }
    ensures dual { IfOk result (HasDictionaryDual inequalities.now equations.now objective.now) }
    ensures wide { IfErr result (λ f. IfWide f (ShowsProgram inequalities.now equations.now objective.now)) }
{
    let y = Layout {
        cols: objective.len(),
        slacks: inequalities.len(),
        residuals: equations.len(),
    };
    by_dictionaries(alloc, y, inequalities, equations, objective)
}

/// The greatest value of the objective over the x with first coordinate 1, a.x >= 0 for the inequalities a and b.x =
/// 0 for the equations b, all whole rows of as many entries as the objective has. `Wide` only where a pivot of a
/// dictionary of the program leaves the range, which the evidence (E3) shows.
/// The answer is an optimum exactly where there is a greatest value, which is its own, `Unbounded` exactly where
/// there is no bound, and `Infeasible` exactly where there is no point (`law_answers_are_exact` of `pm_dual`).
pub fn maximise_rows(
    alloc: Global,
    inequalities: &[Ints],
    equations: &[Ints],
    objective: &[Fraction],
) -> Result<LpAnswer, LpFail>
    requires some { 0 < length objective.now }
    requires few { length inequalities.now + length equations.now + length objective.now ≤ 3 * 2 ^ 30 }
    requires inequality_cols { HasCols (length objective.now) inequalities.now }
    requires equation_cols { HasCols (length objective.now) equations.now }
    ensures answer { IfOk result (IsAnswer inequalities.now equations.now objective.now) }
    ensures wide { IfErr result (λ f. IfWide f (ShowsProgram inequalities.now equations.now objective.now)) }
{
    if let Some(answer) = quick_answer(alloc, inequalities, equations, objective)? {
        return Ok(answer);
    }
    maximise_by_dictionaries(alloc, inequalities, equations, objective)
}

/// The same for matrices, whose primitive whole rows are taken, and have to be made within the range.
pub fn maximise(
    alloc: Global,
    inequalities: &Matrix,
    equations: &Matrix,
    objective: &Objective,
) -> Result<LpAnswer, LpFail>
    requires some { 0 < length objective.now.row.items }
    requires cols { length objective.now.row.items < 2 ^ 30 }
    requires few_inequalities { length inequalities.now.rows < 2 ^ 30 }
    requires few_equations { length equations.now.rows < 2 ^ 30 }
    requires inequality_cols { inequalities.now.cols ≡ length objective.now.row.items }
    requires equation_cols { equations.now.cols ≡ length objective.now.row.items }
    requires inequalities_stay { All HasPrimitiveRow inequalities.now.rows }
    requires equations_stay { All HasPrimitiveRow equations.now.rows }
    ensures answer { IfOk result
        (IsAnswerOf inequalities.now.rows equations.now.rows objective.now.row.items) }
    ensures wide { IfErr result (λ f.
        IfWide f (ShowsProgramOf inequalities.now.rows equations.now.rows objective.now.row.items)) }
{
    let a = primitive_rows(alloc, inequalities)?;
    let b = primitive_rows(alloc, equations)?;
    maximise_rows(alloc, &a, &b, &objective.row)
}
