//! Linear programs by wide numbers: a search whose answer counts only where exact products show it. It knows nothing
//! of properties, values and objects.
#![tactic(auto)]

ghost use Rattle.pm_wide_programs.specs.Examples.{CommonValuesAreRead, DirectionsAreRead, ShownAreRead, SlacksAreRead};

mod answer;
mod best;
mod check;
mod face;
mod fractions;
mod maximise;
mod multipliers;
mod objective;
mod point;
mod products;
mod rays;
mod rows;
mod search;
mod slack;
mod sums;
mod vertex;
mod wide_row;

pub use answer::{wide_answer, wide_greatest};
pub use face::wide_places_of_value;
pub use maximise::{greatest_by, greatest_told, maximise_rows_by};
pub use rays::wide_value_at_rays;

/// The one value of a point and of multipliers.
pub fn example_common_values()
    ensures { CommonValuesAreRead }
{}

/// What shows an optimum, an objective without bound, and that there is no point; and what does not.
pub fn example_shown()
    ensures { ShownAreRead }
{}

/// The slacks of a value at vertices, and where it stands.
pub fn example_slacks()
    ensures { SlacksAreRead }
{}

/// Rays that are points, and rays and lines along which an objective goes on.
pub fn example_directions()
    ensures { DirectionsAreRead }
{}
