//! Graphs of the vertices and of the facets of a polytope, their diameters, and the numbers of its faces. It knows
//! nothing of objects, rules and clients.
//!
//! All is combinatorics of index sets; the laws at the end say what it means for the sets of a cone.
#![tactic(auto)]

ghost use Rattle.pm_graph.specs.Examples.{EdgesAreRead};
ghost use Rattle.pm_graph.specs.Laws.{DualGreatestDistanceIsDiameter, FaceEdgesAreEdges, GreatestDistanceIsDiameter, IndexEdgesAreEdges, RightSourcesGiveGraphs, SetEdgesAreRidges};

mod bits;
mod counts;
mod distances;
mod face_graph;
mod graphs;
mod h_numbers;
mod inclusions;

pub use counts::f_vector;
pub use distances::diameter;
pub use face_graph::graph_of_faces;
pub use graphs::{dual_graph, graph_of_sets};
pub use h_numbers::h_vector;
pub use inclusions::f2_vector;

/// Where each set holds the rays in its facet, the edges of the indices are the edges of the rays.
pub fn law_index_edges_are_edges()
    ensures { IndexEdgesAreEdges }
{}

/// Where each set holds the rays in its facet, the edges of the sets are the ridges of the facets.
pub fn law_set_edges_are_ridges()
    ensures { SetEdgesAreRidges }
{}

/// The greatest distance in the graph of the rays is its diameter.
pub fn law_greatest_distance_is_diameter()
    ensures { GreatestDistanceIsDiameter }
{}

/// The greatest distance in the graph of the facets is its diameter.
pub fn law_dual_greatest_distance_is_diameter()
    ensures { DualGreatestDistanceIsDiameter }
{}

/// Where the lists are all faces by rank, the edges of the whole set are the edges of the rays.
pub fn law_face_edges_are_edges()
    ensures { FaceEdgesAreEdges }
{}

/// Of right sets, or of all faces, the graph that is found is the graph of the rays, or of the facets.
pub fn law_right_sources_give_graphs()
    ensures { RightSourcesGiveGraphs }
{}

/// Which indices, sets, places and rows of bits are joined, and which are not.
pub fn example_edges()
    ensures { EdgesAreRead }
{}
