// The standard rules and their clients.

ghost use Rattle.pm_standard.specs.Table.{standard_clients, standard_kind, standard_kinds_list, standard_row, table_row, wide_clients};
ghost use Rattle.std.specs.Prelude.{IfOk, length, map, nat_lt, true, ◌≡◌, ◌≤◌};
ghost use Rattle.std.specs.List.{list_all};

use pm_props::{Kind, PropId, PropSet};
use std::alloc::{AllocError, Global};

/// The clients of the rules that are shipped, named by what they find and from what: the standard ones, and after them
/// those that answer by wide numbers where the numbers on the way leave the range.
#[derive(Clone, Copy, PartialEq, Eq)]
pub enum StandardClient {
    /// VERTICES and LINEALITY_SPACE from INEQUALITIES, EQUATIONS.
    DdVertices,
    /// FACETS and AFFINE_HULL from POINTS, INPUT_LINEALITY.
    DdFacets,
    /// FACETS and AFFINE_HULL from VERTICES, LINEALITY_SPACE.
    DdFacetsV,
    /// VERTICES and LINEALITY_SPACE from FACETS, AFFINE_HULL.
    DdVerticesF,
    /// VERTICES and LINEALITY_SPACE from POINTS, INPUT_LINEALITY.
    ThinPointsLp,
    /// FACETS and AFFINE_HULL from INEQUALITIES, EQUATIONS.
    ThinInequalitiesLp,
    /// VERTICES and LINEALITY_SPACE from POINTS, INPUT_LINEALITY, FACETS, AFFINE_HULL.
    ThinPointsF,
    /// FACETS and AFFINE_HULL from INEQUALITIES, EQUATIONS, VERTICES, LINEALITY_SPACE.
    ThinInequalitiesV,
    /// VERTICES from FACETS, AFFINE_HULL, VERTICES_IN_FACETS.
    VerticesFromSets,
    /// FACETS from VERTICES, LINEALITY_SPACE, VERTICES_IN_FACETS.
    FacetsFromSets,
    /// POINTS and INPUT_LINEALITY from VERTICES, LINEALITY_SPACE.
    PointsFromVertices,
    /// INEQUALITIES and EQUATIONS from FACETS, AFFINE_HULL.
    InequalitiesFromFacets,
    /// LINEALITY_SPACE from FACETS, AFFINE_HULL.
    LinealityFromFacets,
    /// AFFINE_HULL from VERTICES, LINEALITY_SPACE.
    HullFromVertices,
    /// CONE_DIM from VERTICES, LINEALITY_SPACE.
    ConeDimV,
    /// CONE_DIM from AFFINE_HULL.
    ConeDimSpan,
    /// CONE_DIM from POINTS, INPUT_LINEALITY.
    ConeDimPoints,
    /// LINEALITY_DIM from LINEALITY_SPACE.
    LinealityDim,
    /// COMBINATORIAL_DIM from CONE_DIM, LINEALITY_DIM.
    CombinatorialDim,
    /// N_VERTICES from VERTICES.
    NVertices,
    /// N_VERTICES from VERTICES_IN_FACETS.
    NVerticesSets,
    /// N_FACETS from FACETS.
    NFacets,
    /// N_FACETS from VERTICES_IN_FACETS.
    NFacetsSets,
    /// FEASIBLE from CONE_DIM.
    Feasible,
    /// FEASIBLE from INEQUALITIES, EQUATIONS.
    FeasibleLp,
    /// BOUNDED from VERTICES, LINEALITY_SPACE.
    Bounded,
    /// FAR_FACE from VERTICES.
    FarFace,
    /// POINTED from LINEALITY_DIM.
    Pointed,
    /// FULL_DIM from CONE_DIM.
    FullDim,
    /// CENTERED from FACETS, AFFINE_HULL.
    Centered,
    /// VERTICES_IN_FACETS from VERTICES, FACETS.
    Incidence,
    /// VERTEX_SIZES from VERTICES_IN_FACETS.
    VertexSizes,
    /// FACET_SIZES from VERTICES_IN_FACETS.
    FacetSizes,
    /// SIMPLE from VERTEX_SIZES, COMBINATORIAL_DIM.
    Simple,
    /// SIMPLICIAL from FACET_SIZES, COMBINATORIAL_DIM.
    Simplicial,
    /// HASSE_DIAGRAM from VERTICES_IN_FACETS.
    Faces,
    /// F_VECTOR from HASSE_DIAGRAM.
    FVector,
    /// F2_VECTOR from HASSE_DIAGRAM.
    F2Vector,
    /// H_VECTOR from F_VECTOR, COMBINATORIAL_DIM.
    HVector,
    /// GRAPH from VERTICES_IN_FACETS.
    GraphOfSets,
    /// GRAPH from HASSE_DIAGRAM.
    GraphOfFaces,
    /// DUAL_GRAPH from VERTICES_IN_FACETS.
    DualGraph,
    /// VERTEX_DEGREES from GRAPH.
    VertexDegrees,
    /// DIAMETER from GRAPH.
    Diameter,
    /// DUAL_DIAMETER from DUAL_GRAPH.
    DualDiameter,
    /// N_EDGES from GRAPH.
    NEdges,
    /// N_RIDGES from DUAL_GRAPH.
    NRidges,
    /// LP.MAXIMAL_VALUE and LP.MAXIMAL_DUAL from FACETS, AFFINE_HULL, LP.LINEAR_OBJECTIVE.
    LpMax,
    /// LP.MINIMAL_VALUE and LP.MINIMAL_DUAL from FACETS, AFFINE_HULL, LP.LINEAR_OBJECTIVE.
    LpMin,
    /// LP.MAXIMAL_VALUE from INEQUALITIES, EQUATIONS, LP.LINEAR_OBJECTIVE.
    LpMaxRows,
    /// LP.MINIMAL_VALUE from INEQUALITIES, EQUATIONS, LP.LINEAR_OBJECTIVE.
    LpMinRows,
    /// LP.MAXIMAL_VALUE from VERTICES, LINEALITY_SPACE, LP.LINEAR_OBJECTIVE.
    LpMaxV,
    /// LP.MINIMAL_VALUE from VERTICES, LINEALITY_SPACE, LP.LINEAR_OBJECTIVE.
    LpMinV,
    /// LP.MAXIMAL_FACE from VERTICES, LP.MAXIMAL_VALUE, LP.LINEAR_OBJECTIVE.
    LpMaxFace,
    /// LP.MINIMAL_FACE from VERTICES, LP.MINIMAL_VALUE, LP.LINEAR_OBJECTIVE.
    LpMinFace,
    /// MAXIMAL_CONES_DIMS from VERTICES, LINEALITY_SPACE, MAXIMAL_CONES.
    FanDims,
    /// FAN_DIM from MAXIMAL_CONES_DIMS.
    FanDim,
    /// PURE from MAXIMAL_CONES_DIMS.
    FanPure,
    /// SIMPLICIAL from MAXIMAL_CONES_DIMS, MAXIMAL_CONES, LINEALITY_DIM.
    FanSimplicial,
    /// N_MAXIMAL_CONES from MAXIMAL_CONES.
    FanSize,
    /// FACETS and AFFINE_HULL from POINTS, INPUT_LINEALITY, by beneath-beyond.
    BbFacets,
    /// FACETS, AFFINE_HULL and PLACING_TRIANGULATION from VERTICES, LINEALITY_SPACE.
    BbFacetsV,
    /// PLACING_TRIANGULATION from VERTICES, LINEALITY_SPACE.
    Placing,
    /// REGULAR_CELLS from SITES, SITE_HEIGHTS.
    RegularCells,
    /// DELAUNAY_CELLS from SITES.
    Delaunay,
    /// VERTICES and LINEALITY_SPACE from INEQUALITIES, EQUATIONS, by wide numbers.
    DdVerticesWide,
    /// FACETS and AFFINE_HULL from POINTS, INPUT_LINEALITY, by wide numbers.
    DdFacetsWide,
    /// FACETS and AFFINE_HULL from VERTICES, LINEALITY_SPACE, by wide numbers.
    DdFacetsVWide,
    /// VERTICES and LINEALITY_SPACE from FACETS, AFFINE_HULL, by wide numbers.
    DdVerticesFWide,
    /// VERTICES and LINEALITY_SPACE from POINTS, INPUT_LINEALITY, by linear programs and wide numbers.
    ThinPointsLpWide,
    /// FACETS and AFFINE_HULL from INEQUALITIES, EQUATIONS, by linear programs and wide numbers.
    ThinInequalitiesLpWide,
    /// VERTICES and LINEALITY_SPACE from POINTS, INPUT_LINEALITY, FACETS, AFFINE_HULL, by wide numbers.
    ThinPointsFWide,
    /// FACETS and AFFINE_HULL from INEQUALITIES, EQUATIONS, VERTICES, LINEALITY_SPACE, by wide numbers.
    ThinInequalitiesVWide,
    /// VERTICES from FACETS, AFFINE_HULL, VERTICES_IN_FACETS, by wide numbers.
    VerticesFromSetsWide,
    /// FACETS from VERTICES, LINEALITY_SPACE, VERTICES_IN_FACETS, by wide numbers.
    FacetsFromSetsWide,
    /// LINEALITY_SPACE from FACETS, AFFINE_HULL, by wide numbers.
    LinealityFromFacetsWide,
    /// AFFINE_HULL from VERTICES, LINEALITY_SPACE, by wide numbers.
    HullFromVerticesWide,
    /// CONE_DIM from VERTICES, LINEALITY_SPACE, by wide numbers.
    ConeDimVWide,
    /// CONE_DIM from POINTS, INPUT_LINEALITY, by wide numbers.
    ConeDimPointsWide,
    /// FEASIBLE from INEQUALITIES, EQUATIONS, by wide numbers.
    FeasibleLpWide,
    /// VERTICES_IN_FACETS from VERTICES, FACETS, by wide numbers.
    IncidenceWide,
    /// MAXIMAL_VALUE and MAXIMAL_DUAL from FACETS, AFFINE_HULL, LINEAR_OBJECTIVE, by wide numbers.
    LpMaxWide,
    /// MINIMAL_VALUE and MINIMAL_DUAL from FACETS, AFFINE_HULL, LINEAR_OBJECTIVE, by wide numbers.
    LpMinWide,
    /// MAXIMAL_VALUE from INEQUALITIES, EQUATIONS, LINEAR_OBJECTIVE, by wide numbers.
    LpMaxRowsWide,
    /// MINIMAL_VALUE from INEQUALITIES, EQUATIONS, LINEAR_OBJECTIVE, by wide numbers.
    LpMinRowsWide,
    /// MAXIMAL_VALUE from VERTICES, LINEALITY_SPACE, LINEAR_OBJECTIVE, by wide numbers.
    LpMaxVWide,
    /// MINIMAL_VALUE from VERTICES, LINEALITY_SPACE, LINEAR_OBJECTIVE, by wide numbers.
    LpMinVWide,
    /// MAXIMAL_FACE from VERTICES, MAXIMAL_VALUE, LINEAR_OBJECTIVE, by wide numbers.
    LpMaxFaceWide,
    /// MINIMAL_FACE from VERTICES, MINIMAL_VALUE, LINEAR_OBJECTIVE, by wide numbers.
    LpMinFaceWide,
    /// MAXIMAL_CONES_DIMS from VERTICES, LINEALITY_SPACE, MAXIMAL_CONES, by wide numbers.
    FanDimsWide,
    /// FACETS and AFFINE_HULL from POINTS, INPUT_LINEALITY, by beneath-beyond and wide numbers.
    BbFacetsWide,
    /// FACETS, AFFINE_HULL and PLACING_TRIANGULATION from VERTICES, LINEALITY_SPACE, by wide numbers.
    BbFacetsVWide,
    /// PLACING_TRIANGULATION from VERTICES, LINEALITY_SPACE, by wide numbers.
    PlacingWide,
    /// REGULAR_CELLS from SITES, SITE_HEIGHTS, by wide numbers.
    RegularCellsWide,
    /// DELAUNAY_CELLS from SITES, by wide numbers.
    DelaunayWide,
}

/// A rule that is shipped: the kind of its client, whose name is the rule's label, and what it weighs, of class 0.
#[derive(Clone, Copy)]
pub struct StandardRule {
    /// The kind of its client.
    pub kind: Kind,
    /// What the rule weighs.
    pub weight: u32,
}

// A row of the table: a rule's label, what it finds, from what, what must be true, and what it weighs.
struct Entry {
    label: &'static str,
    targets: &'static [PropId],
    sources: &'static [PropId],
    must: &'static [PropId],
    weight: u32,
}

// A rule: its label, what it finds, from what, if these are true, and its weight.
macro_rules! rule {
    ($label:literal: $($target:ident),+ from $($source:ident),+ $(if $($must:ident),+)?; $weight:literal) => {
        Entry {
            label: $label,
            targets: &[$(PropId::$target),+],
            sources: &[$(PropId::$source),+],
            must: &[$($(PropId::$must),+)?],
            weight: $weight,
        }
    };
}

// The standard rules, in the order of the standard book, and after them the wide ones.
static RULES: [Entry; 95] = [
    rule!("dd_vertices": Vertices, LinealitySpace from Inequalities, Equations; 40),
    rule!("dd_facets": Facets, AffineHull from Points, InputLineality; 40),
    rule!("dd_facets_v": Facets, AffineHull from Vertices, LinealitySpace; 30),
    rule!("dd_vertices_f": Vertices, LinealitySpace from Facets, AffineHull; 30),
    rule!("thin_points_lp": Vertices, LinealitySpace from Points, InputLineality; 60),
    rule!("thin_inequalities_lp": Facets, AffineHull from Inequalities, Equations; 60),
    rule!("thin_points_f": Vertices, LinealitySpace from Points, InputLineality, Facets, AffineHull; 10),
    rule!("thin_inequalities_v": Facets, AffineHull from Inequalities, Equations, Vertices, LinealitySpace; 10),
    rule!("vertices_from_sets": Vertices from Facets, AffineHull, VerticesInFacets; 20),
    rule!("facets_from_sets": Facets from Vertices, LinealitySpace, VerticesInFacets; 20),
    rule!("points_from_vertices": Points, InputLineality from Vertices, LinealitySpace; 5),
    rule!("inequalities_from_facets": Inequalities, Equations from Facets, AffineHull; 5),
    rule!("lineality_from_facets": LinealitySpace from Facets, AffineHull; 5),
    rule!("hull_from_vertices": AffineHull from Vertices, LinealitySpace; 5),
    rule!("cone_dim_v": ConeDim from Vertices, LinealitySpace; 4),
    rule!("cone_dim_span": ConeDim from AffineHull; 1),
    rule!("cone_dim_points": ConeDim from Points, InputLineality; 8),
    rule!("lineality_dim": LinealityDim from LinealitySpace; 1),
    rule!("combinatorial_dim": CombinatorialDim from ConeDim, LinealityDim; 1),
    rule!("n_vertices": NVertices from Vertices; 1),
    rule!("n_vertices_sets": NVertices from VerticesInFacets; 1),
    rule!("n_facets": NFacets from Facets; 1),
    rule!("n_facets_sets": NFacets from VerticesInFacets; 1),
    rule!("feasible": Feasible from ConeDim; 1),
    rule!("feasible_lp": Feasible from Inequalities, Equations; 15),
    rule!("bounded": Bounded from Vertices, LinealitySpace; 1),
    rule!("far_face": FarFace from Vertices; 1),
    rule!("pointed": Pointed from LinealityDim; 1),
    rule!("full_dim": FullDim from ConeDim; 1),
    rule!("centered": Centered from Facets, AffineHull; 1),
    rule!("incidence": VerticesInFacets from Vertices, Facets; 5),
    rule!("vertex_sizes": VertexSizes from VerticesInFacets; 2),
    rule!("facet_sizes": FacetSizes from VerticesInFacets; 2),
    rule!("simple": Simple from VertexSizes, CombinatorialDim; 1),
    rule!("simplicial": Simplicial from FacetSizes, CombinatorialDim; 1),
    rule!("faces": HasseDiagram from VerticesInFacets; 50),
    rule!("f_vector": FVector from HasseDiagram; 2),
    rule!("f2_vector": F2Vector from HasseDiagram; 3),
    rule!("h_vector": HVector from FVector, CombinatorialDim if Bounded, Simplicial; 2),
    rule!("graph_of_sets": Graph from VerticesInFacets; 15),
    rule!("graph_of_faces": Graph from HasseDiagram; 3),
    rule!("dual_graph": DualGraph from VerticesInFacets; 15),
    rule!("vertex_degrees": VertexDegrees from Graph; 1),
    rule!("diameter": Diameter from Graph; 4),
    rule!("dual_diameter": DualDiameter from DualGraph; 4),
    rule!("n_edges": NEdges from Graph; 1),
    rule!("n_ridges": NRidges from DualGraph; 1),
    rule!("lp_max": MaximalValue, MaximalDual from Facets, AffineHull, LinearObjective; 20),
    rule!("lp_min": MinimalValue, MinimalDual from Facets, AffineHull, LinearObjective; 20),
    rule!("lp_max_rows": MaximalValue from Inequalities, Equations, LinearObjective; 25),
    rule!("lp_min_rows": MinimalValue from Inequalities, Equations, LinearObjective; 25),
    rule!("lp_max_v": MaximalValue from Vertices, LinealitySpace, LinearObjective; 6),
    rule!("lp_min_v": MinimalValue from Vertices, LinealitySpace, LinearObjective; 6),
    rule!("lp_max_face": MaximalFace from Vertices, MaximalValue, LinearObjective; 3),
    rule!("lp_min_face": MinimalFace from Vertices, MinimalValue, LinearObjective; 3),
    rule!("fan_dims": MaximalConesDims from Vertices, LinealitySpace, MaximalCones; 4),
    rule!("fan_dim": FanDim from MaximalConesDims; 1),
    rule!("fan_pure": Pure from MaximalConesDims; 1),
    rule!("fan_simplicial": Simplicial from MaximalConesDims, MaximalCones, LinealityDim; 1),
    rule!("fan_size": NMaximalCones from MaximalCones; 1),
    rule!("bb_facets": Facets, AffineHull from Points, InputLineality; 45),
    rule!("bb_facets_v": Facets, AffineHull, PlacingTriangulation from Vertices, LinealitySpace; 35),
    rule!("placing": PlacingTriangulation from Vertices, LinealitySpace; 25),
    rule!("regular_cells": RegularCells from Sites, SiteHeights; 40),
    rule!("delaunay": DelaunayCells from Sites; 45),
    rule!("dd_vertices_wide": Vertices, LinealitySpace from Inequalities, Equations; 41),
    rule!("dd_facets_wide": Facets, AffineHull from Points, InputLineality; 41),
    rule!("dd_facets_v_wide": Facets, AffineHull from Vertices, LinealitySpace; 31),
    rule!("dd_vertices_f_wide": Vertices, LinealitySpace from Facets, AffineHull; 31),
    rule!("thin_points_lp_wide": Vertices, LinealitySpace from Points, InputLineality; 61),
    rule!("thin_inequalities_lp_wide": Facets, AffineHull from Inequalities, Equations; 61),
    rule!("thin_points_f_wide": Vertices, LinealitySpace from Points, InputLineality, Facets, AffineHull; 11),
    rule!("thin_inequalities_v_wide": Facets, AffineHull from Inequalities, Equations, Vertices, LinealitySpace; 11),
    rule!("vertices_from_sets_wide": Vertices from Facets, AffineHull, VerticesInFacets; 21),
    rule!("facets_from_sets_wide": Facets from Vertices, LinealitySpace, VerticesInFacets; 21),
    rule!("lineality_from_facets_wide": LinealitySpace from Facets, AffineHull; 6),
    rule!("hull_from_vertices_wide": AffineHull from Vertices, LinealitySpace; 6),
    rule!("cone_dim_v_wide": ConeDim from Vertices, LinealitySpace; 5),
    rule!("cone_dim_points_wide": ConeDim from Points, InputLineality; 9),
    rule!("feasible_lp_wide": Feasible from Inequalities, Equations; 16),
    rule!("incidence_wide": VerticesInFacets from Vertices, Facets; 6),
    rule!("lp_max_wide": MaximalValue, MaximalDual from Facets, AffineHull, LinearObjective; 21),
    rule!("lp_min_wide": MinimalValue, MinimalDual from Facets, AffineHull, LinearObjective; 21),
    rule!("lp_max_rows_wide": MaximalValue from Inequalities, Equations, LinearObjective; 26),
    rule!("lp_min_rows_wide": MinimalValue from Inequalities, Equations, LinearObjective; 26),
    rule!("lp_max_v_wide": MaximalValue from Vertices, LinealitySpace, LinearObjective; 7),
    rule!("lp_min_v_wide": MinimalValue from Vertices, LinealitySpace, LinearObjective; 7),
    rule!("lp_max_face_wide": MaximalFace from Vertices, MaximalValue, LinearObjective; 4),
    rule!("lp_min_face_wide": MinimalFace from Vertices, MinimalValue, LinearObjective; 4),
    rule!("fan_dims_wide": MaximalConesDims from Vertices, LinealitySpace, MaximalCones; 5),
    rule!("bb_facets_wide": Facets, AffineHull from Points, InputLineality; 46),
    rule!("bb_facets_v_wide": Facets, AffineHull, PlacingTriangulation from Vertices, LinealitySpace; 36),
    rule!("placing_wide": PlacingTriangulation from Vertices, LinealitySpace; 26),
    rule!("regular_cells_wide": RegularCells from Sites, SiteHeights; 41),
    rule!("delaunay_wide": DelaunayCells from Sites; 46),
];

impl StandardClient {
    /// The standard clients, in the order of the standard book.
    pub fn every() -> [StandardClient; 65]
        ensures { result ≡ standard_clients }
    {
        [
            Self::DdVertices,
            Self::DdFacets,
            Self::DdFacetsV,
            Self::DdVerticesF,
            Self::ThinPointsLp,
            Self::ThinInequalitiesLp,
            Self::ThinPointsF,
            Self::ThinInequalitiesV,
            Self::VerticesFromSets,
            Self::FacetsFromSets,
            Self::PointsFromVertices,
            Self::InequalitiesFromFacets,
            Self::LinealityFromFacets,
            Self::HullFromVertices,
            Self::ConeDimV,
            Self::ConeDimSpan,
            Self::ConeDimPoints,
            Self::LinealityDim,
            Self::CombinatorialDim,
            Self::NVertices,
            Self::NVerticesSets,
            Self::NFacets,
            Self::NFacetsSets,
            Self::Feasible,
            Self::FeasibleLp,
            Self::Bounded,
            Self::FarFace,
            Self::Pointed,
            Self::FullDim,
            Self::Centered,
            Self::Incidence,
            Self::VertexSizes,
            Self::FacetSizes,
            Self::Simple,
            Self::Simplicial,
            Self::Faces,
            Self::FVector,
            Self::F2Vector,
            Self::HVector,
            Self::GraphOfSets,
            Self::GraphOfFaces,
            Self::DualGraph,
            Self::VertexDegrees,
            Self::Diameter,
            Self::DualDiameter,
            Self::NEdges,
            Self::NRidges,
            Self::LpMax,
            Self::LpMin,
            Self::LpMaxRows,
            Self::LpMinRows,
            Self::LpMaxV,
            Self::LpMinV,
            Self::LpMaxFace,
            Self::LpMinFace,
            Self::FanDims,
            Self::FanDim,
            Self::FanPure,
            Self::FanSimplicial,
            Self::FanSize,
            Self::BbFacets,
            Self::BbFacetsV,
            Self::Placing,
            Self::RegularCells,
            Self::Delaunay,
        ]
    }

    /// The clients that answer by wide numbers, in the order of their rules.
    pub fn wide() -> [StandardClient; 30]
        ensures { result ≡ wide_clients }
    {
        [
            Self::DdVerticesWide,
            Self::DdFacetsWide,
            Self::DdFacetsVWide,
            Self::DdVerticesFWide,
            Self::ThinPointsLpWide,
            Self::ThinInequalitiesLpWide,
            Self::ThinPointsFWide,
            Self::ThinInequalitiesVWide,
            Self::VerticesFromSetsWide,
            Self::FacetsFromSetsWide,
            Self::LinealityFromFacetsWide,
            Self::HullFromVerticesWide,
            Self::ConeDimVWide,
            Self::ConeDimPointsWide,
            Self::FeasibleLpWide,
            Self::IncidenceWide,
            Self::LpMaxWide,
            Self::LpMinWide,
            Self::LpMaxRowsWide,
            Self::LpMinRowsWide,
            Self::LpMaxVWide,
            Self::LpMinVWide,
            Self::LpMaxFaceWide,
            Self::LpMinFaceWide,
            Self::FanDimsWide,
            Self::BbFacetsWide,
            Self::BbFacetsVWide,
            Self::PlacingWide,
            Self::RegularCellsWide,
            Self::DelaunayWide,
        ]
    }

    /// The client's rule.
    pub fn row(self) -> StandardRule
        ensures { result ≡ standard_row self }
    {
        let entry = self.entry();
        StandardRule {
            kind: Kind {
                must: PropSet::of_list(entry.must),
                ..Kind::finding(entry.label, entry.targets, entry.sources)
            },
            weight: entry.weight,
        }
    }

    // The row of the table.
    fn entry(self) -> &'static Entry
        ensures label { result.now.label.now ≡ (table_row self).label }
        ensures targets { result.now.targets.now ≡ (table_row self).targets }
        ensures sources { result.now.sources.now ≡ (table_row self).sources }
        ensures must { result.now.must.now ≡ (table_row self).must }
        ensures weight { result.now.weight ≡ (table_row self).weight }
        ensures short { length result.now.label.now ≤ 32 }
        ensures ascii { list_all (λ b. nat_lt b 128) result.now.label.now ≡ true }
    {
        &RULES[self as usize]
    }

    /// The client's kind.
    pub fn kind(self) -> Kind
        ensures { result ≡ standard_kind self }
    {
        self.row().kind
    }
}

// The kinds of clients.
fn kinds_of(alloc: Global, clients: &[StandardClient]) -> Result<Vec<Kind>, AllocError>
    ensures { IfOk result (λ v. v.items ≡ map standard_kind clients.now) }
{
    clients.iter().map(|client| client.kind()).collect(alloc)
}

/// The kinds of these clients: those of the standard ones, in the order of the standard book, and behind them those of
/// the wide ones.
pub fn standard_kinds(alloc: Global) -> Result<Vec<Kind>, AllocError>
    ensures { IfOk result (λ v. v.items ≡ standard_kinds_list) }
{
    let mut kinds = kinds_of(alloc, &StandardClient::every())?;
    let mut wide = kinds_of(alloc, &StandardClient::wide())?;
    kinds.append(&mut wide)?;
    Ok(kinds)
}
