//! The clients that lift sites: the cells of the regular subdivision that heights induce, and Delaunay cells. They
//! know nothing of rounds, commands and sessions.
#![tactic(auto)]

ghost use Rattle.pm_clients_lift.specs.Laws.{DelaunaySpheresAreEmpty};
ghost use Rattle.pm_clients_lift.specs.LostExamples.{LostSitesAreRead};

mod lifts;

pub use lifts::{LiftClient, LiftFamily, LiftWork};

/// The sites of each cell of right DELAUNAY_CELLS lie on a sphere, and all other sites outside of it.
pub fn law_delaunay_spheres_are_empty()
    ensures { DelaunaySpheresAreEmpty }
{}

/// Views whose sites are lost by wide numbers, and views whose are not; how the wide clients fail.
pub fn example_lost_sites()
    ensures { LostSitesAreRead }
{}
