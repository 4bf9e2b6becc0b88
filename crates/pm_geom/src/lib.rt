//! Cones, polytopes and fans: what extreme rays, facet rows, orders and faces are, and the laws that the crates above
//! rest on. It knows nothing of properties, values and objects.
#![tactic(auto)]

ghost use Rattle.pm_geom.specs.Duality.{DirectionIsWithoutBound, InfeasibleExcludes, InfeasibleHasNoPoint, OptimumIsMaximum, WeakDuality};
ghost use Rattle.pm_geom.specs.Examples.{EmptyIsRead, HalfLineIsRead, IsRefused, LineIsRead, SquareIsRead};
ghost use Rattle.pm_geom.specs.FaceExamples.{InclusionsAreRead, OrderIsRead, RanksAreRead};
ghost use Rattle.pm_geom.specs.GraphExamples.{CountsAreRead, DiagramsAreRead, HVectorsAreRead, IndexListsAreRead, SmallGraphsAreRead, SquareGraphIsRead};
ghost use Rattle.pm_geom.specs.Laws.{Bipolar, CutIsGenerated, ExtremesGenerate, FaceOfFacets, FacetOrderCutsOut, FacetRowsCutOut, Farkas, GeneratedIsCut, GeneratorsSpan, LinealityIsNull, MembershipDecided, NotZeroByRank, OrderGenerates, OrderSpans, RankExists, RankIsLeft, SpanIsDifferences, VanishingIsNull};
ghost use Rattle.pm_geom.specs.ProgramExamples.{ProgramsAreRead};
ghost use Rattle.pm_geom.specs.ThingExamples.{FanOrdersAreRead, FansAreRead};
ghost use Rattle.std.specs.Prelude.{ℕ};

pub mod descriptions;
mod evidence;
mod lists;
mod units;

pub use evidence::Evidence;
pub use lists::{PlaceSets, Places, RowList, copy_sets};
pub use units::unit_row;

/// Every generated cone is cut out by finitely many rows (Ziegler, theorem 1.3).
pub fn law_generated_is_cut()
    ensures { GeneratedIsCut }
{}

/// Every cone that finitely many rows cut out is generated (Ziegler, theorem 1.3).
pub fn law_cut_is_generated()
    ensures { CutIsGenerated }
{}

/// Whether a row is in a cone is decided.
pub fn law_membership_decided()
    ensures { MembershipDecided }
{}

/// A row outside of a cone has a negative product with a row that is valid on it (Farkas; Ziegler, section 1.4).
pub fn law_farkas()
    ensures { Farkas }
{}

/// The rows that are valid on a cone cut it out.
pub fn law_bipolar()
    ensures { Bipolar }
{}

/// A face is an intersection of facets, and such intersections are faces (Ziegler, section 2.2).
pub fn law_face_of_facets()
    ensures { FaceOfFacets }
{}

/// There is an order of the extreme rays, and with the lineality it generates the cone.
pub fn law_extremes_generate()
    ensures { ExtremesGenerate }
{}

/// With any order of its extreme rays, and any rows that span its lineality, a cone is generated.
pub fn law_order_generates()
    ensures { OrderGenerates }
{}

/// There is an order of the facet rows, and with the rows that vanish it cuts out the cone.
pub fn law_facet_rows_cut_out()
    ensures { FacetRowsCutOut }
{}

/// The span of a cone is the rows that are differences of two of its rows.
pub fn law_span_is_differences()
    ensures { SpanIsDifferences }
{}

/// Rows that generate a cone have its span.
pub fn law_generators_span()
    ensures { GeneratorsSpan }
{}

/// Any order of the extreme rays, with any rows that span the lineality, has the span of the cone.
pub fn law_order_spans()
    ensures { OrderSpans }
{}

/// A row vanishes on a cone exactly where it has product 0 with rows that span the cone's span.
pub fn law_vanishing_is_null()
    ensures { VanishingIsNull }
{}

/// Any order of the facet rows, with any rows that span those that vanish, generates the valid rows and cuts out the
/// cone.
pub fn law_facet_order_cuts_out()
    ensures { FacetOrderCutsOut }
{}

/// A row is in the lineality exactly where it has product 0 with the facet rows and with the rows that vanish.
pub fn law_lineality_is_null()
    ensures { LinealityIsNull }
{}

/// Rows of one length have a rank (Hoffman and Kunze, section 2.3).
pub fn law_rank_exists()
    ensures { RankExists }
{}

/// The dimensions of a cone's span and of the rows that vanish on it add up to the number of columns (Hoffman and
/// Kunze, section 3.1).
pub fn law_rank_is_left()
    ensures { RankIsLeft }
{}

/// A cone is not {0} exactly where the dimension of its span is not 0.
pub fn law_not_zero_by_rank()
    ensures { NotZeroByRank }
{}

/// The definitions read on the unit square: its vertices and edges, a midpoint, a sum of two edges' rows, and a list
/// that lacks a vertex.
pub fn example_square()
    ensures { SquareIsRead }
{}

/// The definitions read on the half line from 0, with its one ray and the far face.
pub fn example_half_line()
    ensures { HalfLineIsRead }
{}

/// The definitions read on the empty polytope, with any number of columns.
pub fn example_empty()
    ensures { (n : ℕ) → EmptyIsRead n }
{}

/// The definitions read on a line in the plane, which has a lineality and rows that vanish.
pub fn example_line()
    ensures { LineIsRead }
{}

/// What the definitions refuse: lists that are no order, a row that is not extreme, cones that are over no polytope.
pub fn example_refusals()
    ensures { IsRefused }
{}

/// Sets of indices as lists: members, lists that do not rise, and lexicographic order.
pub fn example_index_lists()
    ensures { IndexListsAreRead }
{}

/// The graph of the unit square: sides and diagonals, walks, distances, and the diameter 2.
pub fn example_square_graph()
    ensures { SquareGraphIsRead }
{}

/// Graphs of no node, of one, and of two that nothing joins.
pub fn example_small_graphs()
    ensures { SmallGraphsAreRead }
{}

/// The f-vectors and f2-vectors of the cone {0}, a ray, a segment, the square and the octahedron.
pub fn example_counts()
    ensures { CountsAreRead }
{}

/// The h-vectors of the octahedron, the square, a segment and a point, and one with a negative number.
pub fn example_h_vectors()
    ensures { HVectorsAreRead }
{}

/// All faces of the cone {0} and of a ray, and lists that lack the least face or the whole.
pub fn example_diagrams()
    ensures { DiagramsAreRead }
{}

/// No point of a linear program exceeds the value of a dual (Chvatal, Linear Programming, chapter 5).
pub fn law_weak_duality()
    ensures { WeakDuality }
{}

/// Multipliers of infeasibility exclude a point.
pub fn law_infeasible_excludes()
    ensures { InfeasibleExcludes }
{}

/// The value of an optimum with its dual is the greatest value at the solutions.
pub fn law_optimum_is_maximum()
    ensures { OptimumIsMaximum }
{}

/// A point and an improving direction show that the objective has no bound.
pub fn law_direction_is_without_bound()
    ensures { DirectionIsWithoutBound }
{}

/// Multipliers of infeasibility leave no solution with a positive first entry.
pub fn law_infeasible_has_no_point()
    ensures { InfeasibleHasNoPoint }
{}

/// The definitions of linear programs read on small programs.
pub fn example_programs()
    ensures { ProgramsAreRead }
{}

/// Strict inclusion of sets of places: no set is strictly in itself.
pub fn example_inclusions()
    ensures { InclusionsAreRead }
{}

/// The ranks of the faces of a segment, each with what is less or more.
pub fn example_ranks()
    ensures { RanksAreRead }
{}

/// Lexicographic order of rows, both ways.
pub fn example_lexicographic_order()
    ensures { OrderIsRead }
{}

/// The two rays of the line are a fan; cones that are none.
pub fn example_fans()
    ensures { FansAreRead }
{}

/// Orders of that fan, and lists that are none.
pub fn example_fan_orders()
    ensures { FanOrdersAreRead }
{}
