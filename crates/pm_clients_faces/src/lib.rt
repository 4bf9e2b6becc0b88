//! Clients that find the faces of a polytope or cone, and count them. They know nothing of rounds, commands and
//! sessions.
#![tactic(auto)]

ghost use Rattle.pm_clients_faces.specs.Examples.{FewFacesAreRead, NumbersAreRead};
ghost use Rattle.pm_clients_faces.specs.Laws.{F2VectorIsFound, FVectorIsFound, HVectorIsFound, HasseDiagramIsFound, RanksAreFew};

mod client;
mod numbers;

pub use client::{FaceClient, FacesFamily, FacesWork};

/// The intersections of the sets of right VERTICES_IN_FACETS, by rank, are right for HASSE_DIAGRAM.
pub fn law_hasse_diagram_is_found()
    ensures { HasseDiagramIsFound }
{}

/// A right HASSE_DIAGRAM has at most one rank more than the thing has columns.
pub fn law_ranks_are_few()
    ensures { RanksAreFew }
{}

/// The numbers of faces of a right HASSE_DIAGRAM are right for F_VECTOR.
pub fn law_f_vector_is_found()
    ensures { FVectorIsFound }
{}

/// The numbers of pairs of faces of a right HASSE_DIAGRAM are right for F2_VECTOR.
pub fn law_f2_vector_is_found()
    ensures { F2VectorIsFound }
{}

/// The h-vector of a right F_VECTOR is right for H_VECTOR.
pub fn law_h_vector_is_found()
    ensures { HVectorIsFound }
{}

/// The numbers of faces of a segment, and of a list of 35 ranks.
pub fn example_numbers()
    ensures { NumbersAreRead }
{}

/// Views with few faces, and how their clients fail.
pub fn example_few_faces()
    ensures { FewFacesAreRead }
{}
