//! Regular subdivisions and Delaunay cells: the cells of sites with heights, by the facets of the cone of their
//! lifted rows (Ziegler, Lectures on Polytopes, section 5.1; De Loera, Rambau and Santos, Triangulations, section
//! 2.2). It knows nothing of properties, values and objects.
#![tactic(auto)]

ghost use Rattle.pm_lift.specs.Examples.{CellsAreRead, DelaunayIsRead, LowerFacesAreRead, PlacesAreRead, RefusalsAreRead, RowsAreRead, SitesAreRead};
ghost use Rattle.pm_lift.specs.LostExamples.{LostCellsAreRead, LostRowsAreRead};
ghost use Rattle.pm_lift.specs.Laws.{CellsAreFacets, CellsHaveSpheres, CellsOfSameSites, RaisedAreLifted, RowsAreLifted, SquaresOfSameSites};

mod cells;
mod fails;
mod products;
mod rows;
mod sets;
mod wide_rows;

pub use cells::{delaunay_cells, regular_cells};
pub use fails::LiftFail;

/// The cells are exactly the sets of sites on the facet rows with a positive last entry of the cone of the lifted rows
/// and the row upwards.
pub fn law_cells_are_facets()
    ensures { CellsAreFacets }
{}

/// The rows that are made of sites and heights are positive multiples of the lifted rows.
pub fn law_rows_are_lifted()
    ensures { RowsAreLifted }
{}

/// So are the rows that are raised to the paraboloid, with the squares of the distances from the origin as heights.
pub fn law_raised_are_lifted()
    ensures { RaisedAreLifted }
{}

/// A Delaunay cell has an affine function as Delaunay's condition asks, and an empty sphere.
pub fn law_cells_have_spheres()
    ensures { CellsHaveSpheres }
{}

/// Cells depend on the directions of the sites and on the numbers that are the heights alone.
pub fn law_cells_of_same_sites()
    ensures { CellsOfSameSites }
{}

/// The square of the distance from the origin is that of each row of the same direction.
pub fn law_squares_of_same_sites()
    ensures { SquaresOfSameSites }
{}

/// Sites, affine functions below heights, lower faces and cells of three points on a line.
pub fn example_cells()
    ensures sites { SitesAreRead }
    ensures lower_faces { LowerFacesAreRead }
    ensures cells { CellsAreRead }
{}

/// Delaunay cells, and empty spheres, of three points on a line and of the corners of a square.
pub fn example_delaunay()
    ensures { DelaunayIsRead }
{}

/// Lifted rows of a point, places at which rows vanish, and what refusals show.
pub fn example_rows()
    ensures rows { RowsAreRead }
    ensures places { PlacesAreRead }
    ensures refusals { RefusalsAreRead }
{}

/// Which lifted rows are lost by wide numbers, and the cells of which sites.
pub fn example_lost()
    ensures rows { LostRowsAreRead }
    ensures cells { LostCellsAreRead }
{}
