//! How the right values of an object's properties are related: the theorems by which clients find one from others. It
//! has no code. It knows nothing of objects, rules and clients.
#![tactic(auto)]

ghost use Rattle.pm_relations.specs.FirstEntries.{BoundedIsFound, CenteredIsFound, FarFaceIsFound};
ghost use Rattle.pm_relations.specs.Laws.{CombinatorialDimIsFound, ConeDimIsFound, ConeDimIsLeft, DimensionsAreDetermined, DimensionsExist, EchelonIsRight, FacetsCutOut, FeasibleIsFound, FullDimIsFound, HullIsFound, LinealityDimIsFound, LinealityIsFound, OrdersAreAsLong, PairSpans, PlacingIsFound, PointedIsFound, VerticesGenerate, VerticesSpan};

/// There are right values of CONE_DIM and of LINEALITY_DIM.
pub fn law_dimensions_exist()
    ensures { DimensionsExist }
{}

/// Two right values of one dimension are equal.
pub fn law_dimensions_are_determined()
    ensures { DimensionsAreDetermined }
{}

/// Right VERTICES and LINEALITY_SPACE of a cone or polytope have its span.
pub fn law_vertices_span()
    ensures { VerticesSpan }
{}

/// POINTS and INPUT_LINEALITY that are right together have the span of the thing.
pub fn law_pair_spans()
    ensures { PairSpans }
{}

/// The rank of rows with the span of the thing is right for CONE_DIM.
pub fn law_cone_dim_is_found()
    ensures { ConeDimIsFound }
{}

/// The number of columns less the number of rows of a right AFFINE_HULL is right for CONE_DIM.
pub fn law_cone_dim_is_left()
    ensures { ConeDimIsLeft }
{}

/// The number of rows of a right LINEALITY_SPACE is right for LINEALITY_DIM.
pub fn law_lineality_dim_is_found()
    ensures { LinealityDimIsFound }
{}

/// CONE_DIM less LINEALITY_DIM, less 1, is right for COMBINATORIAL_DIM.
pub fn law_combinatorial_dim_is_found()
    ensures { CombinatorialDimIsFound }
{}

/// FEASIBLE says whether CONE_DIM is not 0.
pub fn law_feasible_is_found()
    ensures { FeasibleIsFound }
{}

/// POINTED says whether LINEALITY_DIM is 0.
pub fn law_pointed_is_found()
    ensures { PointedIsFound }
{}

/// FULL_DIM says whether CONE_DIM is the number of columns.
pub fn law_full_dim_is_found()
    ensures { FullDimIsFound }
{}

/// The echelon basis of the null space of rows with the span of the thing is that of the rows that vanish.
pub fn law_hull_is_found()
    ensures { HullIsFound }
{}

/// An echelon basis of the rows that vanish, or of the lineality, is right and canonical as a value.
pub fn law_echelon_is_right()
    ensures { EchelonIsRight }
{}

/// The echelon basis of the null space of right FACETS and AFFINE_HULL is that of the lineality.
pub fn law_lineality_is_found()
    ensures { LinealityIsFound }
{}

/// Right VERTICES and LINEALITY_SPACE of a cone or polytope are right as POINTS and INPUT_LINEALITY.
pub fn law_vertices_generate()
    ensures { VerticesGenerate }
{}

/// Right FACETS and AFFINE_HULL of a cone or polytope are right as INEQUALITIES and EQUATIONS.
pub fn law_facets_cut_out()
    ensures { FacetsCutOut }
{}

/// Any two orders of a thing have as many rays, and as many facets.
pub fn law_orders_are_as_long()
    ensures { OrdersAreAsLong }
{}

/// BOUNDED says whether there is no line and each ray has a positive first entry.
pub fn law_bounded_is_found()
    ensures { BoundedIsFound }
{}

/// FAR_FACE has the places of the rays whose first entry is 0.
pub fn law_far_face_is_found()
    ensures { FarFaceIsFound }
{}

/// CENTERED says whether the first entry is 0 in each row that vanishes and positive in each facet row.
pub fn law_centered_is_found()
    ensures { CenteredIsFound }
{}

/// A triangulation over right VERTICES, with LINEALITY_SPACE as lines, is right for PLACING_TRIANGULATION.
pub fn law_placing_is_found()
    ensures { PlacingIsFound }
{}
