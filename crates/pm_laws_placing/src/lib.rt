//! Triangulations of cones and the placing triangulation: definitions and laws (De Loera, Rambau and Santos,
//! Triangulations, sections 2.1 and 4.3). It knows nothing of properties, values and objects.
#![tactic(auto)]

ghost use Rattle.pm_laws_placing.specs.Examples.{SquareIsPlaced, SquareIsTriangulated};
ghost use Rattle.pm_laws_placing.specs.LeastSums.{LeastCellsTriangulate, PlacingStep};
ghost use Rattle.pm_laws_placing.specs.Placing.{NewCellsAreOnce, PlacingTriangulates};

/// Cells on which least sums are positive, and of which one holds each least sum, are independent, cover the cone and
/// meet in common cells.
pub fn law_least_cells_triangulate()
    ensures { LeastCellsTriangulate }
{}

/// Placing one more row: the old cells, and those that the walls which it is beyond give, carry the least sums of the
/// larger cone.
pub fn law_placing_step()
    ensures { PlacingStep }
{}

/// The cells of all rows of the stated order are a triangulation of the cone.
pub fn law_placing_triangulates()
    ensures { PlacingTriangulates }
{}

/// At each step no cell is made twice.
pub fn law_new_cells_are_once()
    ensures { NewCellsAreOnce }
{}

/// Triangulations read on the unit square.
pub fn example_square()
    ensures { SquareIsTriangulated }
{}

/// The placing triangulation of the square's vertices, taken in order.
pub fn example_placing()
    ensures { SquareIsPlaced }
{}
