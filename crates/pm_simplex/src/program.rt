// Linear programs by the dictionaries of the simplex method.

ghost use Rattle.pm_vector.specs.Numbers.{Ratio};
ghost use Rattle.pm_vector.specs.Rows.{HasCols, Row};
ghost use Rattle.pm_dual.specs.Answers.{IsAnswer};
ghost use Rattle.pm_simplex.specs.Answers.{IsProgram, IsReady, IsStuck, Program, program_of};
ghost use Rattle.pm_simplex.specs.Evidence.{IsShownBy};
ghost use Rattle.pm_simplex.specs.Fails.{IfWide};
ghost use Rattle.pm_simplex.specs.OptimalDuals.{IsDictionaryAnswer};
ghost use Rattle.pm_simplex.specs.Phases.{IsPhaseSystem};
ghost use Rattle.pm_simplex.specs.Running.{IsAbsorbing};
ghost use Rattle.std.specs.Prelude.{IfErr, IfOk, List, MatchOption, length, ◌+◌, ◌<◌, ◌≡◌, ◌^◌};

use crate::absorb::absorb;
use crate::begin::begin;
use crate::dictionary::Dictionary;
use crate::fails::LpFail;
use crate::layout::Layout;
use crate::simplex::{End, improve};
use pm_dual::LpAnswer;
use pm_fraction::Fraction;
use pm_vector::Ints;
use std::alloc::Global;

/// Makes the dictionary feasible. Where it cannot be, the answer is the row of the auxiliary variable, which is least
/// there.
fn first_phase(alloc: Global, d: &mut Dictionary, y: Layout) -> Result<Option<usize>, LpFail>
    ghost system: { List Row }
    requires absorbing { IsAbsorbing y system d.old (y.slacks + y.residuals) }
    requires phase { IsPhaseSystem y system }
    ensures end { IfOk result (λ o. MatchOption o (IsReady y system d.new) (IsStuck y system d.new)) }
    ensures wide { IfErr result (λ f. IfWide f (IsShownBy y system)) }
{
    if !begin(alloc, d, y)? {
        return Ok(None);
    }
    match improve(alloc, d, y, y.slacks + y.residuals + 1)? {
        End::Optimal => Ok(d.row_with(y.cols + y.slacks + y.residuals)),
        End::Unbounded(_) => unreachable!(),
    }
}

/// The answer from a feasible dictionary.
fn second_phase(alloc: Global, d: &mut Dictionary, y: Layout) -> Result<LpAnswer, LpFail>
    ghost program: { Program }
    requires program { IsProgram y program }
    requires ready { IsReady y program.system d.old }
    ensures answer { IfOk result (IsAnswer program.inequalities program.equations program.objective) }
    ensures dual { IfOk result (IsDictionaryAnswer y program.system) }
    ensures wide { IfErr result (λ f. IfWide f (IsShownBy y program.system)) }
{
    let objective = y.slacks + y.residuals;
    match improve(alloc, d, y, objective)? {
        End::Optimal => Ok(LpAnswer::Optimal {
            value: d.entry(objective, 0),
            point: d.values(alloc, y.cols, 0, true)?,
            dual: d.multipliers(alloc, y, objective, true)?,
        }),
        End::Unbounded(enters) => Ok(LpAnswer::Unbounded {
            point: d.values(alloc, y.cols, 0, true)?,
            direction: d.values(alloc, y.cols, enters.place, enters.up)?,
        }),
    }
}

/// The answer where each equation is solved for a coordinate, or depends on others.
fn after_equations(alloc: Global, d: &mut Dictionary, y: Layout) -> Result<LpAnswer, LpFail>
    ghost program: { Program }
    requires program { IsProgram y program }
    requires absorbing { IsAbsorbing y program.system d.old (y.slacks + y.residuals) }
    ensures answer { IfOk result (IsAnswer program.inequalities program.equations program.objective) }
    ensures dual { IfOk result (IsDictionaryAnswer y program.system) }
    ensures wide { IfErr result (λ f. IfWide f (IsShownBy y program.system)) }
{
    match first_phase(alloc, d, y)? {
        None => second_phase(alloc, d, y),
        Some(row) => Ok(LpAnswer::Infeasible {
            multipliers: d.multipliers(alloc, y, row, false)?,
        }),
    }
}

/// The answer from the start.
fn from_start(alloc: Global, d: &mut Dictionary, y: Layout) -> Result<LpAnswer, LpFail>
    ghost program: { Program }
    requires program { IsProgram y program }
    requires absorbing { IsAbsorbing y program.system d.old y.slacks }
    ensures answer { IfOk result (IsAnswer program.inequalities program.equations program.objective) }
    ensures dual { IfOk result (IsDictionaryAnswer y program.system) }
    ensures wide { IfErr result (λ f. IfWide f (IsShownBy y program.system)) }
{
    match absorb(alloc, d, y)? {
        None => after_equations(alloc, d, y),
        Some(row) => {
            let up = d.entry(row, 0).is_negative();
            Ok(LpAnswer::Infeasible {
                multipliers: d.multipliers(alloc, y, row, up)?,
            })
        }
    }
}

/// The answer by dictionaries.
pub(crate) fn by_dictionaries(
    alloc: Global,
    y: Layout,
    a: &[Ints],
    b: &[Ints],
    c: &[Fraction],
) -> Result<LpAnswer, LpFail>
    ghost program: { Program }
    requires program { program ≡ program_of y a.now b.now c.now }
    requires slacks { length a.now ≡ y.slacks }
    requires residuals { length b.now ≡ y.residuals }
    requires a_cols { HasCols y.cols a.now }
    requires b_cols { HasCols y.cols b.now }
    requires cols { length c.now ≡ y.cols }
    ensures answer { IfOk result (IsAnswer a.now b.now c.now) }
    ensures dual { IfOk result (IsDictionaryAnswer y program.system) }
    ensures wide { IfErr result (λ f. IfWide f (IsShownBy y program.system)) }
{
    let mut d = Dictionary::start(alloc, y, a, b, c)?;
    from_start(alloc, &mut d, y)
}
