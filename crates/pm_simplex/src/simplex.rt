// The simplex method from a feasible dictionary.

ghost use Rattle.pm_vector.specs.Numbers.{Ratio};
ghost use Rattle.pm_vector.specs.Rows.{Row};
ghost use Rattle.pm_vector.specs.Bases.{column};
ghost use Rattle.pm_simplex.specs.Comparisons.{IsRectangular, direction, rows_of};
ghost use Rattle.pm_programs.specs.Dictionaries.{IsWidePlace, at, row_of};
ghost use Rattle.pm_simplex.specs.Ends.{IfStep, IfEnd};
ghost use Rattle.pm_simplex.specs.Evidence.{IsShownBy};
ghost use Rattle.pm_simplex.specs.Fails.{IfWide};
ghost use Rattle.pm_programs.specs.Lex.{IsLexBelow};
ghost use Rattle.pm_simplex.specs.Running.{IsArranged, IsEntering, IsFreeColumn, IsOptimalAt, IsSlackColumn, IsState, IsUnboundedAt, IsWithoutHelp, objective_vector};
ghost use Rattle.std.specs.Prelude.{IfErr, IfNone, IfOk, IfSome, List, OnErr, OnOk, length, pos, ◌<◌, ◌<ℤ◌, ◌≤ℤ◌, ◌≡◌, ◌≢◌, ℕ};

use crate::dictionary::Dictionary;
use crate::entering::Entering;
use crate::fails::LpFail;
use crate::layout::Layout;
use crate::ratio_test::leaving;
use std::alloc::Global;

/// What one step of the simplex method finds.
#[derive(Clone, Copy)]
pub(crate) enum Step {
    Better,
    Optimal,
    Unbounded(Entering),
}

/// How the simplex method ends.
#[derive(Clone, Copy)]
pub(crate) enum End {
    Optimal,
    Unbounded(Entering),
}

/// Whether the variable at k improves the objective in the row z, and in which direction.
fn improving(d: &Dictionary, y: Layout, z: usize, k: usize) -> Option<bool>
    requires rectangular { IsRectangular d.now }
    requires row { z < length d.now.basis.items }
    requires place { k < length d.now.others.items }
    requires not_constant { 0 < k }
    ensures some { IfSome result (λ up. IsEntering y d.now z (record { place = k; up = up })) }
    ensures free { IfNone result (IsFreeColumn y (column d.now.others.items k)
        → (at (rows_of d.now) z k).num ≡ pos 0) }
    ensures slack { IfNone result (IsSlackColumn y (column d.now.others.items k)
        → (at (rows_of d.now) z k).num ≤ℤ pos 0) }
{
    let c = d.others[k];
    if c == 0 || c >= y.cols + y.slacks {
        return None;
    }
    let f = d.entry(z, k);
    if f.is_negative() {
        return if c < y.cols { Some(false) } else { None };
    }
    if f.is_zero() { None } else { Some(true) }
}

/// The first variable that improves the objective in the row z.
fn entering(d: &Dictionary, y: Layout, z: usize) -> Option<Entering>
    requires rectangular { IsRectangular d.now }
    requires row { z < length d.now.basis.items }
    ensures some { IfSome result (IsEntering y d.now z) }
    ensures none { IfNone result (IsOptimalAt y d.now z) }
{
    for k in 1..d.others.len() {
        if let Some(up) = improving(d, y, z, k) {
            return Some(Entering { place: k, up });
        }
    }
    None
}

/// One step: a pivot at a variable that improves the objective in the row z, by the lexicographic rule.
fn make_step(alloc: Global, d: &mut Dictionary, y: Layout, z: usize) -> Result<Step, LpFail>
    ghost system: { List Row }
    requires state { IsState y system d.old z }
    requires arranged { IsArranged y d.old }
    ensures state { IsState y system d.new z }
    ensures arranged { IsArranged y d.new }
    ensures without { IsWithoutHelp y d.old → IsWithoutHelp y d.new }
    ensures better { IfOk result (λ s.
        IfStep s (IsLexBelow (objective_vector y d.old z) (objective_vector y d.new z))
        (IsOptimalAt y d.new z) (IsUnboundedAt y d.new z)) }
    ensures wide { IfErr result (λ f. IfWide f (IsShownBy y system)) }
{
    let Some(enters) = entering(d, y, z) else {
        return Ok(Step::Optimal);
    };
    let Some(leaves) = leaving(d, y, enters.place, enters.up) else {
        return Ok(Step::Unbounded(enters));
    };
    d.pivot_or_evidence(alloc, leaves, enters.place)?;
    Ok(Step::Better)
}

/// Steps until no variable improves the objective in the row z, or one does without a bound.
pub(crate) fn improve(alloc: Global, d: &mut Dictionary, y: Layout, z: usize) -> Result<End, LpFail>
    ghost system: { List Row }
    requires state { IsState y system d.old z }
    requires arranged { IsArranged y d.old }
    ensures state { IsState y system d.new z }
    ensures arranged { IsArranged y d.new }
    ensures without { IsWithoutHelp y d.old → IsWithoutHelp y d.new }
    ensures end { IfOk result (λ e. IfEnd e (IsOptimalAt y d.new z) (IsUnboundedAt y d.new z)) }
    ensures wide { IfErr result (λ f. IfWide f (IsShownBy y system)) }
{
    'steps: loop {
        match make_step(alloc, d, y, z)? {
            Step::Better => {}
            Step::Optimal => return Ok(End::Optimal),
            Step::Unbounded(enters) => return Ok(End::Unbounded(enters)),
        }
    }
}
