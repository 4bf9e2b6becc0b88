//! The ranks of the faces of a cone, the graph of its extreme rays and that of its facets: laws, for any order of the
//! rays and of the facets. It knows nothing of properties, values and objects.
//!
//! A law is a function without code, whose contract is a theorem.
#![tactic(auto)]

ghost use Rattle.pm_ranks.specs.Examples.{LineHasRanks, SquareHasGraphs, SquareHasRanks};
ghost use Rattle.pm_ranks.specs.Laws.{DiagramsEndAtWhole, DualGraphHasDiameter, DualGraphIsConnected, EachHasRank, EdgesByFacets, FacetsAreHighest, FacetsDiffer, FVectorsHaveDimension, FirstRank, GraphHasDiameter, GraphIsConnected, RanksAreDimensions, RanksDescend, RanksRise, RidgesByFacets, SecondRank, WholeHasRank};

/// The rank of a face is the dimension of its span less that of the lineality (Ziegler, theorem 2.7).
pub fn law_ranks_are_dimensions()
    ensures { RanksAreDimensions }
{}

/// The rank of the whole is the dimension of the cone less that of its lineality.
pub fn law_whole_has_rank()
    ensures { WholeHasRank }
{}

/// Each face has a rank.
pub fn law_each_has_rank()
    ensures { EachHasRank }
{}

/// Each face of rank k + 1 has strictly in it a face of rank k.
pub fn law_ranks_descend()
    ensures { RanksDescend }
{}

/// A face strictly in another has a smaller rank.
pub fn law_ranks_rise()
    ensures { RanksRise }
{}

/// The faces of rank 1 are the single rays.
pub fn law_first_rank()
    ensures { FirstRank }
{}

/// The faces of rank 2 are the faces of two rays.
pub fn law_second_rank()
    ensures { SecondRank }
{}

/// The faces of rank 1 less than the whole are the facets.
pub fn law_facets_are_highest()
    ensures { FacetsAreHighest }
{}

/// No facet has all rays of another.
pub fn law_facets_differ()
    ensures { FacetsDiffer }
{}

/// Two different rays are an edge exactly where no third ray lies in each facet in which both lie.
pub fn law_edges_by_facets()
    ensures { EdgesByFacets }
{}

/// Two different facets meet in a ridge exactly where no third facet holds all rays that they share.
pub fn law_ridges_by_facets()
    ensures { RidgesByFacets }
{}

/// Edges join any two extreme rays (Ziegler, section 3.2).
pub fn law_graph_is_connected()
    ensures { GraphIsConnected }
{}

/// Ridges join any two facets.
pub fn law_dual_graph_is_connected()
    ensures { DualGraphIsConnected }
{}

/// The graph of the rays has a diameter.
pub fn law_graph_has_diameter()
    ensures { GraphHasDiameter }
{}

/// The graph of the facets has a diameter.
pub fn law_dual_graph_has_diameter()
    ensures { DualGraphHasDiameter }
{}

/// A list of all faces by rank ends at the rank of the whole.
pub fn law_diagrams_end_at_whole()
    ensures { DiagramsEndAtWhole }
{}

/// The f-vector of a polytope has as many entries as the polytope has dimensions.
pub fn law_f_vectors_have_dimension()
    ensures { FVectorsHaveDimension }
{}

/// Ranks of faces of the unit square, and the rows at chosen places.
pub fn example_square()
    ensures { SquareHasRanks }
{}

/// Edges and ridges of the unit square: two sides that meet, and two that do not.
pub fn example_square_graphs()
    ensures { SquareHasGraphs }
{}

/// A line in the plane: the dimension of the lineality is taken off.
pub fn example_line()
    ensures { LineHasRanks }
{}
