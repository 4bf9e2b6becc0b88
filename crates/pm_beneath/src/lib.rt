//! Beneath-beyond: the facets and the placing triangulation of a cone (De Loera, Rambau and Santos, Triangulations,
//! section 4.3). It knows nothing of properties, values and objects.
#![tactic(auto)]

ghost use Rattle.pm_beneath.specs.CellLists.{ListedCellsAreNext};
ghost use Rattle.pm_beneath.specs.DoubleLists.{DoubleListTriangulates};
ghost use Rattle.pm_beneath.specs.LostExamples.{PlaceLossesAreRead};
ghost use Rattle.pm_beneath.specs.Names.{NamesKeepSteps, RunIsPlacing};
ghost use Rattle.pm_beneath.specs.Placed.{PlacedCellsTriangulate};

mod cells;
mod engine;
mod fails;
mod fronts;
mod names;
mod placed;
mod run;
mod sorted;
mod taken;
mod whole;

pub use engine::{Placing, place};
pub use fails::PlaceFail;
pub use pm_geom::descriptions::Facets;

/// The cells that the code lists are those of the next front.
pub fn law_listed_cells_are_next()
    ensures { ListedCellsAreNext }
{}

/// A step of the cells stays one under other names.
pub fn law_names_keep_steps()
    ensures { NamesKeepSteps }
{}

/// The cells of all fronts, as double description takes the rows, are those of the placing.
pub fn law_run_is_placing()
    ensures { RunIsPlacing }
{}

/// The cells of all rows of the double description list are a triangulation.
pub fn law_double_list_triangulates()
    ensures { DoubleListTriangulates }
{}

/// What `place` answers is a triangulation.
pub fn law_placed_cells_triangulate()
    ensures { PlacedCellsTriangulate }
{}

/// What is given up for a number out of the range, read on cones of the plane and of the line.
pub fn example_losses()
    ensures { PlaceLossesAreRead }
{}
