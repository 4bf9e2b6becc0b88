// Worked examples of the definitions of values: which are right for small polytopes, cones and fans, which are
// canonical, and which are not. It has no code. It knows nothing of objects, rules and clients.

ghost use Rattle.pm_examples_values.specs.BipyramidExamples.{BipyramidCountsAreRead};
ghost use Rattle.pm_examples_values.specs.CanonicalExamples.{CanonicalLinesAreRead, CanonicalOrdersAreRead, CanonicalRowsAreRead, KindsAreFresh};
ghost use Rattle.pm_examples_values.specs.ConeExamples.{ConeRowsAreRead, FanLinesAreRead, FarRaysAreRead};
ghost use Rattle.pm_examples_values.specs.Examples.{EmptyDimensionsAreRead, SquareDimensionsAreRead, SquareSetsAreRead};
ghost use Rattle.pm_examples_values.specs.FaceExamples.{EmptyFacesAreRead, HVectorsAreShort, LineFacesAreRead, SegmentCountsAreRead, SegmentFacesAreRead, SquareFacesAreRead};
ghost use Rattle.pm_examples_values.specs.GraphExamples.{BipyramidGraphsAreRead, EmptyGraphsAreRead, LineGraphsAreRead, SegmentGraphsAreRead, SegmentNumbersAreRead, SquareGraphsAreRead};
ghost use Rattle.pm_examples_values.specs.OrderExamples.{OrdersAreShown};
ghost use Rattle.pm_examples_values.specs.PlacingExamples.{TriangulationsAreRead};
ghost use Rattle.pm_examples_values.specs.SiteExamples.{SitesAreRight};
ghost use Rattle.pm_examples_values.specs.PrismExamples.{PrismCountsAreRead};
ghost use Rattle.pm_examples_values.specs.RayExamples.{EmptyValuesAreRead, HalfLineValuesAreRead, LineDimensionsAreRead, LineIsUnbounded, SegmentsAreRead, SquareIsBounded};
ghost use Rattle.pm_examples_values.specs.RowExamples.{BasesAreRight, FacetRowsAreRead, GeneratorsAreRead, HalfSpacesAreRead, PairsAreRead, RayRowsAreRead, RowsAreRead};
ghost use Rattle.pm_examples_values.specs.FanExamples.{ConeDimsAreRead, MaximalConesAreRead, SimplicialFansAreRead};
ghost use Rattle.pm_examples_values.specs.ThingExamples.{ColumnsAreRead, ConeOrdersAreRead, FanOrdersAreRead, FanValuesAreRead, FansAreRead, ThingsAreRead};

/// What is right for VERTICES_IN_FACETS of the unit square, and what is not.
pub fn example_square_sets()
    ensures { SquareSetsAreRead }
{}

/// What is right for the four dimensions of the unit square, and what is not.
pub fn example_square_dimensions()
    ensures { SquareDimensionsAreRead }
{}

/// What is right for the dimensions of the empty polytope.
pub fn example_empty_dimensions()
    ensures { EmptyDimensionsAreRead }
{}

/// What is right for the half line from 0, and what is not.
pub fn example_half_line_values()
    ensures { HalfLineValuesAreRead }
{}

/// The square is bounded, and has no far vertex.
pub fn example_square_bounded()
    ensures { SquareIsBounded }
{}

/// What is right for the empty polytope, and what is not.
pub fn example_empty_values()
    ensures { EmptyValuesAreRead }
{}

/// What is right for the dimensions of a line in the plane, and what is not.
pub fn example_line_dimensions()
    ensures { LineDimensionsAreRead }
{}

/// What is right for the line's bounds, its far face and its center, and what is not.
pub fn example_line_unbounded()
    ensures { LineIsUnbounded }
{}

/// Which of three segments are centered.
pub fn example_segments()
    ensures { SegmentsAreRead }
{}

/// The prism over a triangle is simple and not simplicial, and what is refused of it.
pub fn example_prism_counts()
    ensures { PrismCountsAreRead }
{}

/// How many rays and facets a cone over a bipyramid has, and how many lie on one another.
pub fn example_bipyramid_counts()
    ensures { BipyramidCountsAreRead }
{}

/// Which rows are right for POINTS, INPUT_LINEALITY, INEQUALITIES and EQUATIONS of the half line and of a line.
pub fn example_rows()
    ensures { RowsAreRead }
{}

/// Which points and lines generate the half line, and which a line.
pub fn example_generators()
    ensures { GeneratorsAreRead }
{}

/// Which inequalities and equations cut out the half line, the cone over it, a line and the empty polytope.
pub fn example_half_spaces()
    ensures { HalfSpacesAreRead }
{}

/// Facts that are right together, and facts that are right alone.
pub fn example_pairs()
    ensures { PairsAreRead }
{}

/// Which orders a property reads: those that its tags name, and no other.
pub fn example_orders_shown()
    ensures { OrdersAreShown }
{}

/// Which rows are right for VERTICES: in the order of the rays, up to positive scale and lineality.
pub fn example_ray_rows()
    ensures { RayRowsAreRead }
{}

/// Which rows are right for FACETS: in the order of the facet rows, up to positive scale and rows that vanish.
pub fn example_facet_rows()
    ensures { FacetRowsAreRead }
{}

/// Which rows are right for LINEALITY_SPACE and AFFINE_HULL of a line.
pub fn example_right_bases()
    ensures { BasesAreRight }
{}

/// Which kinds choose the order of the rays, and which that of the facets.
pub fn example_fresh_kinds()
    ensures { KindsAreFresh }
{}

/// An order that a kind chooses is lexicographic; another stays as it is.
pub fn example_canonical_orders()
    ensures { CanonicalOrdersAreRead }
{}

/// Which rows of VERTICES and FACETS are canonical.
pub fn example_canonical_rows()
    ensures { CanonicalRowsAreRead }
{}

/// Rows that are reduced, and echelon bases as matrices.
pub fn example_canonical_lines()
    ensures { CanonicalLinesAreRead }
{}

/// A thing has from 1 to 33 columns.
pub fn example_columns()
    ensures { ColumnsAreRead }
{}

/// Cones and polytopes that are things, and what is none.
pub fn example_things()
    ensures { ThingsAreRead }
{}

/// Fans that are things, and what is none.
pub fn example_fans()
    ensures { FansAreRead }
{}

/// Orders of the rays and of the cones of a fan, and what is none.
pub fn example_fan_orders()
    ensures { FanOrdersAreRead }
{}

/// Orders of a cone list no cones.
pub fn example_cone_orders()
    ensures { ConeOrdersAreRead }
{}

/// What is right for a fan of two rays and for a line as a fan, and what is not.
pub fn example_fan_values()
    ensures { FanValuesAreRead }
{}

/// The faces of the empty polytope and their numbers: what is right, and what is not.
pub fn example_empty_faces()
    ensures { EmptyFacesAreRead }
{}

/// The faces of a line in the plane and their numbers: neither of the two is counted.
pub fn example_line_faces()
    ensures { LineFacesAreRead }
{}

/// The faces of a segment by rank, and lists that are not all of them.
pub fn example_segment_faces()
    ensures { SegmentFacesAreRead }
{}

/// The f-vector, f2-vector and h-vector of a segment, and other numbers.
pub fn example_segment_counts()
    ensures { SegmentCountsAreRead }
{}

/// The faces of the unit square and their numbers, and a diagonal.
pub fn example_square_faces()
    ensures { SquareFacesAreRead }
{}

/// Which h-vectors are left out, since a number has more than 64 bits.
pub fn example_short_h_vectors()
    ensures { HVectorsAreShort }
{}

/// The graphs of the empty polytope have no node.
pub fn example_empty_graphs()
    ensures { EmptyGraphsAreRead }
{}

/// The graphs of a line have one node and no edge.
pub fn example_line_graphs()
    ensures { LineGraphsAreRead }
{}

/// The graphs of a segment and the degrees in them, and lists that are not these.
pub fn example_segment_graphs()
    ensures { SegmentGraphsAreRead }
{}

/// Diameters and numbers of edges of a segment: one, in whatever order.
pub fn example_segment_numbers()
    ensures { SegmentNumbersAreRead }
{}

/// The graphs of the unit square: sides, and no diagonals.
pub fn example_square_graphs()
    ensures { SquareGraphsAreRead }
{}

/// The graphs of a bipyramid, of rays and of facets, and the degrees in their order.
pub fn example_bipyramid_graphs()
    ensures { BipyramidGraphsAreRead }
{}

/// Which rays the maximal cones of a fan have, how many cones there are, and what is not right.
pub fn example_maximal_cones()
    ensures { MaximalConesAreRead }
{}

/// The dimensions of the maximal cones of small fans, the greatest of them, and whether they are one.
pub fn example_cone_dims()
    ensures { ConeDimsAreRead }
{}

/// Fans that are simplicial, and one that is not.
pub fn example_simplicial_fans()
    ensures { SimplicialFansAreRead }
{}

/// What is right for PLACING_TRIANGULATION of the unit square, and what is not.
pub fn example_triangulations()
    ensures { TriangulationsAreRead }
{}

/// What is right for the rays, facet rows, lineality and span of the half line and of a line as cones, and what is
/// not.
pub fn example_cone_rows()
    ensures { ConeRowsAreRead }
{}

/// What is right for the lineality and the number of rays of a fan of two rays and of a line as a fan, and what is
/// not.
pub fn example_fan_lines()
    ensures { FanLinesAreRead }
{}

/// The far rays of a quadrant, by their rising places.
pub fn example_far_rays()
    ensures { FarRaysAreRead }
{}

/// Which sites and heights are right for a polytope that has three sites, and which cells.
pub fn example_sites()
    ensures { SitesAreRight }
{}
