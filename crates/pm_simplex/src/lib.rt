//! Linear programs: exact optima by the simplex method, with duals, directions and multipliers that prove them. It
//! knows nothing of objects, rules and clients.
#![tactic(auto)]

mod absorb;
mod answer;
mod begin;
mod columns;
mod dictionary;
mod entering;
mod fails;
mod layout;
mod linear;
mod moves;
mod pivot;
mod program;
mod ratio_test;
mod sense;
mod simplex;
mod sizes;
mod start;

ghost use Rattle.pm_simplex.specs.StartLaws.{StartIsAbsorbing};
ghost use Rattle.pm_simplex.specs.StateExample.{StateIsThere};
ghost use Rattle.pm_simplex.specs.Phases.{PhaseIsBounded, PhaseIsLeast};
ghost use Rattle.pm_simplex.specs.Evidence.{PivotsHavePlaces, StepIsLawful};
ghost use Rattle.pm_simplex.specs.Solutions.{ColumnSolves, FeasibleGivesPoint, UnboundedGivesDirection};
ghost use Rattle.pm_simplex.specs.ProgramLaws.{ContradictionExcludes, LeastAuxiliaryExcludes, OptimalGivesDual};

pub use fails::LpFail;
pub use linear::{Objective, maximise, maximise_by_dictionaries, maximise_rows};
pub use pm_dual::LpAnswer;
pub use sense::Sense;

/// An optimal dictionary has a dual of its value.
pub fn law_optimal_gives_dual()
    ensures { OptimalGivesDual }
{}

/// A column of a dictionary solves the equations.
pub fn law_column_solves()
    ensures { ColumnSolves }
{}

/// A feasible dictionary gives a point of its value.
pub fn law_feasible_gives_point()
    ensures { FeasibleGivesPoint }
{}

/// A least auxiliary variable that is basic is positive, and its row gives multipliers of infeasibility.
pub fn law_least_auxiliary_excludes()
    ensures { LeastAuxiliaryExcludes }
{}

/// A pivot by the lexicographic rule is lawful.
pub fn law_step_is_lawful()
    ensures { StepIsLawful }
{}

/// A variable that is hindered by no row gives a direction that improves the objective.
pub fn law_unbounded_gives_direction()
    ensures { UnboundedGivesDirection }
{}

/// Where the first phase ends with the auxiliary variable in the basis, no variable lowers it.
pub fn law_phase_is_least()
    ensures { PhaseIsLeast }
{}

/// The first phase is never without a bound.
pub fn law_phase_is_bounded()
    ensures { PhaseIsBounded }
{}

/// A small dictionary is a state of the simplex method.
pub fn example_state()
    ensures { StateIsThere }
{}

/// The start is a dictionary of the program's equations.
pub fn law_start_is_absorbing()
    ensures { StartIsAbsorbing }
{}

/// A residual that is a constant other than 0 gives multipliers of infeasibility.
pub fn law_contradiction_excludes()
    ensures { ContradictionExcludes }
{}

/// A pivot is at a place: no constant enters, and no objective leaves.
pub fn example_pivots()
    ensures { PivotsHavePlaces }
{}
