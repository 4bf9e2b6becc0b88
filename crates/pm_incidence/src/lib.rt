//! Which rays lie on which facets (Ziegler, Lectures on Polytopes, lecture 2). It knows nothing of objects, rules and
//! clients.
#![tactic(auto)]

ghost use Rattle.pm_incidence.specs.Examples.{IncidenceIsRead, ShortRowsAreRead};
ghost use Rattle.pm_incidence.specs.LostExamples.{LostSetsAreRead, LostThinningIsRead};
ghost use Rattle.pm_incidence.specs.ThinExamples.{FacetPlacesAreRead, KeptAreRead, RowsFromSetsAreRead, ThinningIsRead};

mod by_incidence;
mod facets;
mod fails;
mod from_sets;
mod sets;
mod short;
mod thin;
mod zeros;

pub use by_incidence::{half_spaces, unit_rows, vertices_by_incidence, with_first};
pub use facets::facets_by_incidence;
pub use fails::{IncFail, ThinFail};
pub use from_sets::{facets_from_sets, vertices_from_sets};
pub use pm_geom::Evidence;
pub use sets::incidence;
pub use thin::{Kept, thinned_rows, with_marked};

/// Incidence read on three facets and three vertices.
pub fn example_incidence()
    ensures { IncidenceIsRead }
{}

/// Which rows are short.
pub fn example_short_rows()
    ensures { ShortRowsAreRead }
{}

/// The definitions of thinning, of rows of two entries.
pub fn example_thinning()
    ensures { ThinningIsRead }
{}

/// Which of five sets of three places are kept.
pub fn example_kept_sets()
    ensures { KeptAreRead }
{}

/// Which places name facets of the half line, of a line and of a point.
pub fn example_facet_places()
    ensures { FacetPlacesAreRead }
{}

/// The definitions of rows from sets, of the quadrant and of a half plane.
pub fn example_rows_from_sets()
    ensures { RowsFromSetsAreRead }
{}

/// Which thinnings by wide numbers are given up, of rows of three entries, and which rows from sets, of rows of two.
pub fn example_lost()
    ensures thinning { LostThinningIsRead }
    ensures sets { LostSetsAreRead }
{}
