//! Normal fans, face fans, sums of polytopes and common refinements of fans. It has no code. It knows nothing of
//! properties, values and objects.
#![tactic(auto)]

ghost use Rattle.pm_laws_normal_fans.specs.Examples.{FaceFansAreRead, IntersectionsAreRead, KeptAreRead, NormalFansAreRead, RefinementsAreRead, ShadowsAreRead, SumsAreRead, VerticesAreRead};
ghost use Rattle.pm_laws_normal_fans.specs.Laws.{FaceFanOfVertices, NormalFanOfFacets, NormalOfSum, OneFaceFan, OneNormalFan, SumIsGenerated, SumRowsGenerate};
ghost use Rattle.pm_laws_normal_fans.specs.Refinements.{CutsFromFacets, InclusionByProducts, KeptAreRefinement, KeptWith, KeptWithout, OneLineality, RefinedRaysAreOrders, RefinementOfSame};

/// A bounded polytope that is not empty has exactly one normal fan.
pub fn law_one_normal_fan()
    ensures { OneNormalFan }
{}

/// A polytope with 0 in its interior has exactly one face fan.
pub fn law_one_face_fan()
    ensures { OneFaceFan }
{}

/// The facet rows at the vertices, without their first entries, are the normal fan of a bounded polytope.
pub fn law_normal_fan_of_facets()
    ensures { NormalFanOfFacets }
{}

/// The vertices on the facets, without their first entries, are the face fan of a polytope with 0 in its interior.
pub fn law_face_fan_of_vertices()
    ensures { FaceFanOfVertices }
{}

/// A fan is the normal fan of a sum exactly where it is the common refinement of the normal fans.
pub fn law_normal_of_sum()
    ensures { NormalOfSum }
{}

/// The point sums of generators, with those that are no points and the lines, generate the sum.
pub fn law_sum_is_generated()
    ensures { SumIsGenerated }
{}

/// The sums of vertices, with the other rows and the lines, generate the sum of two polytopes.
pub fn law_sum_rows_generate()
    ensures { SumRowsGenerate }
{}

/// The intersections that are kept are the common refinement of two fans, and no other fan is.
pub fn law_kept_are_refinement()
    ensures { KeptAreRefinement }
{}

/// Their rays, each once, are orders of that fan.
pub fn law_refined_rays_are_orders()
    ensures { RefinedRaysAreOrders }
{}

/// The common refinement depends on the cones of the two fans alone.
pub fn law_refinement_of_same()
    ensures { RefinementOfSame }
{}

/// The facet rows of a cone, and the rows that vanish on it, cut it out.
pub fn law_cuts_from_facets()
    ensures { CutsFromFacets }
{}

/// Products tell whether an intersection is included in another.
pub fn law_inclusion_by_products()
    ensures { InclusionByProducts }
{}

/// All intersections of the cones of two fans have one lineality.
pub fn law_one_lineality()
    ensures { OneLineality }
{}

/// An intersection that is included in a kept one is left out.
pub fn law_kept_without()
    ensures { KeptWithout }
{}

/// Every other one is kept, and those that are included in it are let go.
pub fn law_kept_with()
    ensures { KeptWith }
{}

/// Vertices of the square, and objectives that are least there; what is none.
pub fn example_vertices()
    ensures { VerticesAreRead }
{}

/// The square as the sum of two of its edges, and rows of sums.
pub fn example_sums()
    ensures { SumsAreRead }
{}

/// Common refinements of fans of the line, and what is none.
pub fn example_refinements()
    ensures { RefinementsAreRead }
{}

/// The normal fans of the square and of a point.
pub fn example_normal_fans()
    ensures { NormalFansAreRead }
{}

/// The face fan of a square with 0 inside.
pub fn example_face_fans()
    ensures { FaceFansAreRead }
{}

/// The rows of the normal fan of the square.
pub fn example_shadows()
    ensures { ShadowsAreRead }
{}

/// Intersections of the rays of the line: which are listed, and which are kept.
pub fn example_intersections()
    ensures { IntersectionsAreRead }
{}

/// The kept ones are the common refinement, with its rays.
pub fn example_kept()
    ensures { KeptAreRead }
{}
