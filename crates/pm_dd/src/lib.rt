//! Double description: the extreme rays of the cone that rows cut out (Ziegler, Lectures on Polytopes, section 1.3;
//! Motzkin and others, The double description method). By it generators from half-spaces, and facets from generators.
//! It knows nothing of properties, values and objects.
#![tactic(auto)]

ghost use Rattle.pm_dd.specs.Description.{DualIsOrder, ExtremeIsMaximal, NextIsOrder, StepIsComplete};
ghost use Rattle.pm_dd.specs.Examples.{QuadrantIsRead};
ghost use Rattle.pm_dd.specs.Fronts.{DdStep, DualWithEquations, NextWithEquations, SignsCutOut, StepWithEquations};
ghost use Rattle.pm_dd.specs.LostExamples.{LossesAreRead};
ghost use Rattle.pm_dd.specs.Stated.{AdjacentInAll, StatedOrderSpans, StepFailShows};
ghost use Rattle.pm_dd.specs.Filters.{AdjacentNeedRank, FewHaveThird};
ghost use Rattle.pm_dd.specs.Tables.{CountFilter, NearFilter, ScanIsRight, ZeroSetOfPair, ZeroSetsGrow};
ghost use Rattle.pm_vector.specs.Rows.{Row};
ghost use Rattle.std.specs.Prelude.{List, ℕ};

mod combination;
mod extreme;
mod fails;
pub mod first;
mod hull;
mod leading;
mod many;
mod mixed;
mod near;
mod order;
mod pairs;
mod parts;
pub mod rays;
pub mod run;
pub mod step;

pub use extreme::{extreme_rays, wide_extreme_rays};
pub use fails::{DdFail, StepFail};
pub use hull::{facets_of, generators_of, to_facets, to_generators};
pub use parts::{add_copies, both_ways};
pub use pm_geom::descriptions::{Facets, Generators};

/// One step of double description: the extreme rays of the next cone are the kept ones and the combinations of
/// adjacent pairs, and no two are alike.
pub fn law_step_is_complete()
    ensures { StepIsComplete }
{}

/// A list with one row for each source is an order of the next cone.
pub fn law_next_is_order()
    ensures { NextIsOrder }
{}

/// The dual rows of rows are an order of the cone that these cut out.
pub fn law_dual_is_order()
    ensures { DualIsOrder }
{}

/// Of rows that generate, those outside of the lineality are extreme exactly where no other vanishes on more rows.
pub fn law_extreme_is_maximal()
    ensures { ExtremeIsMaximal }
{}

/// The rows on which the two rays of an adjacent pair vanish have at least the rank of all rows less 2.
pub fn law_adjacent_need_rank()
    ensures { AdjacentNeedRank }
{}

/// Where they are in the span of fewer rows, some third extreme ray vanishes on all of them.
pub fn law_few_have_third()
    ensures { FewHaveThird }
{}

/// One step of double description, for a list that begins with as many independent rows as its rank says, and a front
/// at least that long.
pub fn dd_step()
    ensures { DdStep }
{}

/// Equations and inequalities are cut out by the equations with both signs, and the inequalities.
pub fn law_signs_cut_out()
    ensures { SignsCutOut }
{}

/// Where equations lead, they need no place in a zero set.
pub fn law_step_with_equations()
    ensures { StepWithEquations }
{}

/// A list with one row for each source is an order of the next cone.
pub fn law_next_with_equations()
    ensures { NextWithEquations }
{}

/// Of the dual rows of equations and inequalities, those of the inequalities are an order of the cone.
pub fn law_dual_with_equations()
    ensures { DualWithEquations }
{}

/// A pair of rays is adjacent exactly where no other zero set has all that both have.
pub fn law_scan_is_right()
    ensures { ScanIsRight }
{}

/// A pair whose zero sets have too few rows in common is not adjacent.
pub fn law_count_filter()
    ensures { CountFilter }
{}

/// Nor is a pair where the zero set of the first has too few rows in common with a set that has those of the second.
pub fn law_near_filter()
    ensures { NearFilter }
{}

/// How the zero set of a ray grows with the front.
pub fn law_zero_sets_grow()
    ensures { (J : List Row) (f : ℕ) → ZeroSetsGrow J f }
{}

/// The zero set of a combination is what both have.
pub fn law_zero_set_of_pair()
    ensures { ZeroSetOfPair }
{}

/// The stated order begins with as many independent rows as the rank says, and has the span of the list.
pub fn law_stated_order_spans()
    ensures { StatedOrderSpans }
{}

/// A pair that is adjacent in an order of the extreme rays has no third extreme ray at all.
pub fn law_adjacent_in_all()
    ensures { AdjacentInAll }
{}

/// The refusal of a step at a front of the stated order, whose rays are canonical, is evidence on the list.
pub fn law_step_fail_shows()
    ensures { StepFailShows }
{}

/// The definitions read on the quadrant, on a list with a row that does not enlarge the span, on a list in two orders,
/// and on numbers in the range and outside.
pub fn example_quadrant()
    ensures { QuadrantIsRead }
{}

/// What is lost, read on combinations of rows with three entries, and on cones of the plane and of the line.
pub fn example_losses()
    ensures { LossesAreRead }
{}
