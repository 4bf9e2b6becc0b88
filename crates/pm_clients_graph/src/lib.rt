//! Clients that find graphs, and what these show: degrees, diameters, numbers of edges. They know nothing of rounds,
//! commands and sessions.
#![tactic(auto)]

ghost use Rattle.pm_clients_graph.specs.Examples.{CountsAreRead};
ghost use Rattle.pm_clients_graph.specs.Laws.{DiameterIsFound, DualDiameterIsFound, DualGraphIsFound, EdgesAreCounted, GraphIsFoundByFaces, GraphIsFoundBySets, NeighboursAreCounted, RidgesAreCounted};

mod client;
mod counts;

pub use client::{GraphClient, GraphFamily, GraphWork};

/// Degrees and edges of two graphs.
pub fn example_counts()
    ensures { CountsAreRead }
{}

/// The graph of the indices of right VERTICES_IN_FACETS is right for GRAPH.
pub fn law_graph_is_found_by_sets()
    ensures { GraphIsFoundBySets }
{}

/// The graph of a right HASSE_DIAGRAM is right for GRAPH.
pub fn law_graph_is_found_by_faces()
    ensures { GraphIsFoundByFaces }
{}

/// The graph of the sets of right VERTICES_IN_FACETS is right for DUAL_GRAPH.
pub fn law_dual_graph_is_found()
    ensures { DualGraphIsFound }
{}

/// How many neighbours each node of a right GRAPH has is right for VERTEX_DEGREES.
pub fn law_neighbours_are_counted()
    ensures { NeighboursAreCounted }
{}

/// The greatest distance in a right GRAPH is right for DIAMETER.
pub fn law_diameter_is_found()
    ensures { DiameterIsFound }
{}

/// The greatest distance in a right DUAL_GRAPH is right for DUAL_DIAMETER.
pub fn law_dual_diameter_is_found()
    ensures { DualDiameterIsFound }
{}

/// How many edges a right GRAPH has is right for N_EDGES.
pub fn law_edges_are_counted()
    ensures { EdgesAreCounted }
{}

/// How many edges a right DUAL_GRAPH has is right for N_RIDGES.
pub fn law_ridges_are_counted()
    ensures { RidgesAreCounted }
{}
