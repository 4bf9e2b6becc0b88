// The properties of objects: their rows in the table, and the order of their numbers.

ghost use Rattle.pm_props.specs.Places.{place_of};
ghost use Rattle.pm_props.specs.Properties.{count, every_property, generators_tag, half_spaces_tag, has, has_program, is_in_use, number, plain, property_at, row};
ghost use Rattle.std.specs.Prelude.{slice_get, ◌<◌, ◌≡◌};

use pm_object_type::ObjectType;
use std::marker::Model;

/// A property, by its number from 0 to 52.
#[derive(Clone, Copy, Debug, PartialEq, Eq, Hash)]
pub enum PropId {
    /// 0: CONE_AMBIENT_DIM, the number of columns.
    ConeAmbientDim,
    /// 1: POINTS, rows that generate, with INPUT_LINEALITY.
    Points,
    /// 2: INPUT_LINEALITY, lines that generate, with POINTS.
    InputLineality,
    /// 3: INEQUALITIES, rows that cut out, with EQUATIONS.
    Inequalities,
    /// 4: EQUATIONS, rows that vanish and cut out, with INEQUALITIES.
    Equations,
    /// 5: VERTICES, the extreme rays in order.
    Vertices,
    /// 6: LINEALITY_SPACE, a basis of the lineality.
    LinealitySpace,
    /// 7: FACETS, the facet rows in order.
    Facets,
    /// 8: AFFINE_HULL, a basis of the rows that vanish.
    AffineHull,
    /// 9: VERTICES_IN_FACETS, for each facet the rays on it.
    VerticesInFacets,
    /// 10: CONE_DIM, the dimension of the cone's span.
    ConeDim,
    /// 11: LINEALITY_DIM, the dimension of the lineality.
    LinealityDim,
    /// 12: COMBINATORIAL_DIM, CONE_DIM - LINEALITY_DIM - 1.
    CombinatorialDim,
    /// 13: N_VERTICES, the number of extreme rays.
    NVertices,
    /// 14: N_FACETS, the number of facets.
    NFacets,
    /// 15: FEASIBLE, whether the polytope is not empty.
    Feasible,
    /// 16: BOUNDED, whether no ray is far.
    Bounded,
    /// 17: POINTED, whether the lineality is {0}.
    Pointed,
    /// 18: FULL_DIM, whether CONE_DIM is the number of columns.
    FullDim,
    /// 19: CENTERED, whether (1,0,..,0) lies inside.
    Centered,
    /// 20: SIMPLE, whether each ray lies in as few facets as can be.
    Simple,
    /// 21: SIMPLICIAL, whether each facet (maximal cone) has as few rays as can be.
    Simplicial,
    /// 22: VERTEX_SIZES, for each ray the number of facets that hold it.
    VertexSizes,
    /// 23: FACET_SIZES, for each facet the number of rays on it.
    FacetSizes,
    /// 24: HASSE_DIAGRAM, all faces, by rank.
    HasseDiagram,
    /// 25: F_VECTOR, the numbers of faces, by rank.
    FVector,
    /// 26: F2_VECTOR, the numbers of pairs of faces, one in the other, by ranks.
    F2Vector,
    /// 27: H_VECTOR, the h-vector of a simplicial polytope.
    HVector,
    /// 28: GRAPH, pairs of rays that are a face.
    Graph,
    /// 29: DUAL_GRAPH, pairs of facets that meet in a ridge.
    DualGraph,
    /// 30: DIAMETER, the diameter of GRAPH.
    Diameter,
    /// 31: DUAL_DIAMETER, the diameter of DUAL_GRAPH.
    DualDiameter,
    /// 32: N_EDGES, the number of pairs in GRAPH.
    NEdges,
    /// 33: N_RIDGES, the number of pairs in DUAL_GRAPH.
    NRidges,
    /// 34: VERTEX_DEGREES, the sizes of GRAPH's rows.
    VertexDegrees,
    /// 35: FAR_FACE, the rays whose first coordinate is 0.
    FarFace,
    /// 36: MAXIMAL_CONES, for each maximal cone of a fan its rays.
    MaximalCones,
    /// 37: N_MAXIMAL_CONES, the number of maximal cones.
    NMaximalCones,
    /// 38: MAXIMAL_CONES_DIMS, the dimension of each maximal cone.
    MaximalConesDims,
    /// 39: FAN_DIM, the greatest dimension of a cone of the fan.
    FanDim,
    /// 40: PURE, whether all maximal cones have one dimension.
    Pure,
    /// 41: LP.LINEAR_OBJECTIVE, a program's objective.
    LinearObjective,
    /// 42: LP.MAXIMAL_VALUE, the greatest value of the objective.
    MaximalValue,
    /// 43: LP.MINIMAL_VALUE, the least value of the objective.
    MinimalValue,
    /// 44: LP.MAXIMAL_FACE, the rays at which the greatest value is attained.
    MaximalFace,
    /// 45: LP.MINIMAL_FACE, the rays at which the least value is attained.
    MinimalFace,
    /// 46: LP.MAXIMAL_DUAL, facet rows that prove that no value is greater.
    MaximalDual,
    /// 47: LP.MINIMAL_DUAL, facet rows that prove that no value is less.
    MinimalDual,
    /// 48: PLACING_TRIANGULATION, for each cell the places of its rays.
    PlacingTriangulation,
    /// 49: SITES, rows that stand for points.
    Sites,
    /// 50: SITE_HEIGHTS, a height for each site.
    SiteHeights,
    /// 51: REGULAR_CELLS, the cells of the subdivision that the heights induce.
    RegularCells,
    /// 52: DELAUNAY_CELLS, the cells whose spheres are empty of sites.
    DelaunayCells,
}

/// The form that a property's values have.
#[derive(Clone, Copy, PartialEq, Eq)]
pub enum ValueKind {
    /// Rows of fractions.
    Mat,
    /// Ascending rows of indices.
    Sets,
    /// A whole number within 64 bits.
    Int,
    /// True or false.
    Bool,
    /// A fraction, or one of both infinities.
    Number,
    /// The neighbours of each node of a graph.
    Edges,
    /// The faces by rank, as sets of indices.
    Lattice,
    /// Whole numbers within 64 bits.
    Counts,
}

/// The tables that have a property.
#[derive(Clone, Copy, PartialEq, Eq)]
pub enum Tables {
    /// Those of polytopes, of cones and of fans.
    All,
    /// Those of polytopes and of cones.
    PolytopesAndCones,
    /// That of polytopes alone.
    Polytopes,
    /// That of fans alone.
    Fans,
    /// That of linear programs alone.
    Programs,
}

/// What the rows of a property do to the cone.
#[derive(Clone, Copy, PartialEq, Eq)]
pub enum Describes {
    /// Nothing.
    Nothing,
    /// They lie in it.
    Generators,
    /// They are valid on it.
    HalfSpaces,
}

/// How the values of a property are tied to the thing's number n of columns.
#[derive(Clone, Copy, Debug, PartialEq, Eq)]
pub enum Columns {
    /// Not at all.
    Free,
    /// They are matrices with n columns.
    Rows,
    /// They are n.
    Value,
}

/// The test that each given row of a property has to pass.
#[derive(Clone, Copy, PartialEq, Eq)]
pub enum RowTest {
    /// None.
    Any,
    /// Of a polytope its first coordinate is not negative.
    Point,
    /// Of a polytope its first coordinate is 0.
    Line,
    /// It is not zero, and of a polytope its first coordinate is not negative.
    Ray,
    /// It is not zero.
    NotZero,
    /// Its first coordinate is positive.
    Site,
}

/// What the table says of a property. A new property, and whatever is asked of it, is a row.
#[derive(Drop)]
pub struct PropertyRow {
    /// Its number.
    pub number: u8,
    /// Its first name: that of polytopes, or of fans or linear programs where only these have it.
    pub first_name: &'static str,
    /// Its name in the table of cones.
    pub cone_name: &'static str,
    /// Its name in the table of fans.
    pub fan_name: &'static str,
    /// The form of its values.
    pub kind: ValueKind,
    /// The tables that have it.
    pub tables: Tables,
    /// Whether it speaks of the order of the extreme rays.
    pub speaks_of_rays: bool,
    /// Whether it speaks of the order of the facets, or of the maximal cones.
    pub speaks_of_facets: bool,
    /// What its rows do to the cone.
    pub describes: Describes,
    /// Whether it is half of a pair: POINTS with INPUT_LINEALITY, or INEQUALITIES with EQUATIONS.
    pub is_half: bool,
    /// How its values are tied to the number of columns.
    pub columns: Columns,
    /// What each given row has to pass.
    pub test: RowTest,
}

impl Model for PropertyRow {
    ghost use Rattle.pm_props.specs.Rows.{RowSeen};

    ghost Value = { RowSeen };

    ghost view = { λ r. record {
      number = r.number;
      first_name = r.first_name.now;
      cone_name = r.cone_name.now;
      fan_name = r.fan_name.now;
      kind = r.kind;
      tables = r.tables;
      speaks_of_rays = r.speaks_of_rays;
      speaks_of_facets = r.speaks_of_facets;
      describes = r.describes;
      is_half = r.is_half;
      columns = r.columns;
      test = r.test;
    } };
}

// A row as the table holds it.
#[derive(Clone, Copy)]
struct Entry {
    number: u8,
    first_name: &'static str,
    cone_name: &'static str,
    fan_name: &'static str,
    kind: ValueKind,
    tables: Tables,
    speaks_of_rays: bool,
    speaks_of_facets: bool,
    describes: Describes,
    is_half: bool,
    columns: Columns,
    test: RowTest,
}

// What a row says of a property that speaks of no order, describes nothing and is asked nothing.
const PLAIN: Entry = Entry {
    number: 0,
    first_name: "",
    cone_name: "",
    fan_name: "",
    kind: ValueKind::Int,
    tables: Tables::All,
    speaks_of_rays: false,
    speaks_of_facets: false,
    describes: Describes::Nothing,
    is_half: false,
    columns: Columns::Free,
    test: RowTest::Any,
};

/// How many properties there are.
pub const COUNT: usize = 53;

// A row: the number, the first name (and those of cones and fans, where they differ), the kind of value, the tables,
// and what differs from a plain property.
macro_rules! property {
    ($number:literal $name:literal $kind:ident $tables:ident $(| $($field:ident: $value:expr),+)?) => {
        property!($number $name, $name, $name; $kind $tables $(| $($field: $value),+)?)
    };
    ($number:literal $first:literal, $cone:literal, $fan:literal; $kind:ident $tables:ident $(| $($field:ident: $value:expr),+)?) => {
        Entry {
            number: $number,
            first_name: $first,
            cone_name: $cone,
            fan_name: $fan,
            kind: ValueKind::$kind,
            tables: Tables::$tables,
            $($($field: $value,)+)?
            ..PLAIN
        }
    };
}

// The table, in the order of the numbers.
static TABLE: [Entry; COUNT] = [
    property!(0 "CONE_AMBIENT_DIM", "CONE_AMBIENT_DIM", "FAN_AMBIENT_DIM"; Int All | columns: Columns::Value),
    property!(1 "POINTS", "INPUT_RAYS", "POINTS"; Mat PolytopesAndCones | describes: Describes::Generators, is_half: true, columns: Columns::Rows, test: RowTest::Point),
    property!(2 "INPUT_LINEALITY" Mat PolytopesAndCones | describes: Describes::Generators, is_half: true, columns: Columns::Rows, test: RowTest::Line),
    property!(3 "INEQUALITIES" Mat PolytopesAndCones | describes: Describes::HalfSpaces, is_half: true, columns: Columns::Rows),
    property!(4 "EQUATIONS" Mat PolytopesAndCones | describes: Describes::HalfSpaces, is_half: true, columns: Columns::Rows),
    property!(5 "VERTICES", "RAYS", "RAYS"; Mat All | speaks_of_rays: true, describes: Describes::Generators, columns: Columns::Rows, test: RowTest::Ray),
    property!(6 "LINEALITY_SPACE" Mat All | describes: Describes::Generators, columns: Columns::Rows, test: RowTest::Line),
    property!(7 "FACETS" Mat PolytopesAndCones | speaks_of_facets: true, describes: Describes::HalfSpaces, columns: Columns::Rows, test: RowTest::NotZero),
    property!(8 "AFFINE_HULL", "LINEAR_SPAN", "AFFINE_HULL"; Mat PolytopesAndCones | describes: Describes::HalfSpaces, columns: Columns::Rows),
    property!(9 "VERTICES_IN_FACETS", "RAYS_IN_FACETS", "VERTICES_IN_FACETS"; Sets PolytopesAndCones | speaks_of_rays: true, speaks_of_facets: true),
    property!(10 "CONE_DIM" Int PolytopesAndCones),
    property!(11 "LINEALITY_DIM" Int All),
    property!(12 "COMBINATORIAL_DIM" Int PolytopesAndCones),
    property!(13 "N_VERTICES", "N_RAYS", "N_RAYS"; Int All),
    property!(14 "N_FACETS" Int PolytopesAndCones),
    property!(15 "FEASIBLE" Bool Polytopes),
    property!(16 "BOUNDED" Bool Polytopes),
    property!(17 "POINTED" Bool All),
    property!(18 "FULL_DIM" Bool PolytopesAndCones),
    property!(19 "CENTERED" Bool Polytopes),
    property!(20 "SIMPLE" Bool PolytopesAndCones),
    property!(21 "SIMPLICIAL" Bool All),
    property!(22 "VERTEX_SIZES", "RAY_SIZES", "VERTEX_SIZES"; Counts PolytopesAndCones | speaks_of_rays: true),
    property!(23 "FACET_SIZES" Counts PolytopesAndCones | speaks_of_facets: true),
    property!(24 "HASSE_DIAGRAM" Lattice PolytopesAndCones | speaks_of_rays: true),
    property!(25 "F_VECTOR" Counts PolytopesAndCones),
    property!(26 "F2_VECTOR" Mat PolytopesAndCones),
    property!(27 "H_VECTOR" Counts Polytopes),
    property!(28 "GRAPH" Edges PolytopesAndCones | speaks_of_rays: true),
    property!(29 "DUAL_GRAPH" Edges PolytopesAndCones | speaks_of_facets: true),
    property!(30 "DIAMETER" Int PolytopesAndCones),
    property!(31 "DUAL_DIAMETER" Int PolytopesAndCones),
    property!(32 "N_EDGES" Int PolytopesAndCones),
    property!(33 "N_RIDGES" Int PolytopesAndCones),
    property!(34 "VERTEX_DEGREES", "RAY_DEGREES", "VERTEX_DEGREES"; Counts PolytopesAndCones | speaks_of_rays: true),
    property!(35 "FAR_FACE" Counts Polytopes | speaks_of_rays: true),
    property!(36 "MAXIMAL_CONES" Sets Fans | speaks_of_rays: true, speaks_of_facets: true),
    property!(37 "N_MAXIMAL_CONES" Int Fans),
    property!(38 "MAXIMAL_CONES_DIMS" Counts Fans | speaks_of_facets: true),
    property!(39 "FAN_DIM" Int Fans),
    property!(40 "PURE" Bool Fans),
    property!(41 "LP.LINEAR_OBJECTIVE" Mat Programs | columns: Columns::Rows),
    property!(42 "LP.MAXIMAL_VALUE" Number Programs),
    property!(43 "LP.MINIMAL_VALUE" Number Programs),
    property!(44 "LP.MAXIMAL_FACE" Counts Programs | speaks_of_rays: true),
    property!(45 "LP.MINIMAL_FACE" Counts Programs | speaks_of_rays: true),
    property!(46 "LP.MAXIMAL_DUAL" Mat Programs | columns: Columns::Rows),
    property!(47 "LP.MINIMAL_DUAL" Mat Programs | columns: Columns::Rows),
    property!(48 "PLACING_TRIANGULATION" Sets PolytopesAndCones | speaks_of_rays: true),
    property!(49 "SITES" Mat Polytopes | columns: Columns::Rows, test: RowTest::Site),
    property!(50 "SITE_HEIGHTS" Mat Polytopes),
    property!(51 "REGULAR_CELLS" Sets Polytopes),
    property!(52 "DELAUNAY_CELLS" Sets Polytopes),
];

impl PropId {
    /// The property's row in the table.
    pub fn row(self) -> PropertyRow
        ensures { result ≡ row self }
    {
        let entry = TABLE[self as usize];
        PropertyRow {
            number: entry.number,
            first_name: entry.first_name,
            cone_name: entry.cone_name,
            fan_name: entry.fan_name,
            kind: entry.kind,
            tables: entry.tables,
            speaks_of_rays: entry.speaks_of_rays,
            speaks_of_facets: entry.speaks_of_facets,
            describes: entry.describes,
            is_half: entry.is_half,
            columns: entry.columns,
            test: entry.test,
        }
    }

    /// Every property, in the order of the numbers.
    pub fn every() -> [PropId; COUNT]
        ensures { result ≡ every_property }
    {
        [
            Self::ConeAmbientDim,
            Self::Points,
            Self::InputLineality,
            Self::Inequalities,
            Self::Equations,
            Self::Vertices,
            Self::LinealitySpace,
            Self::Facets,
            Self::AffineHull,
            Self::VerticesInFacets,
            Self::ConeDim,
            Self::LinealityDim,
            Self::CombinatorialDim,
            Self::NVertices,
            Self::NFacets,
            Self::Feasible,
            Self::Bounded,
            Self::Pointed,
            Self::FullDim,
            Self::Centered,
            Self::Simple,
            Self::Simplicial,
            Self::VertexSizes,
            Self::FacetSizes,
            Self::HasseDiagram,
            Self::FVector,
            Self::F2Vector,
            Self::HVector,
            Self::Graph,
            Self::DualGraph,
            Self::Diameter,
            Self::DualDiameter,
            Self::NEdges,
            Self::NRidges,
            Self::VertexDegrees,
            Self::FarFace,
            Self::MaximalCones,
            Self::NMaximalCones,
            Self::MaximalConesDims,
            Self::FanDim,
            Self::Pure,
            Self::LinearObjective,
            Self::MaximalValue,
            Self::MinimalValue,
            Self::MaximalFace,
            Self::MinimalFace,
            Self::MaximalDual,
            Self::MinimalDual,
            Self::PlacingTriangulation,
            Self::Sites,
            Self::SiteHeights,
            Self::RegularCells,
            Self::DelaunayCells,
        ]
    }

    /// The property of a number, if there are so many.
    pub fn at(number: u8) -> Option<PropId>
        ensures { result ≡ property_at number }
    {
        at_place(&PropId::every(), number as usize)
    }

    /// The property's number.
    pub fn number(self) -> u8
        ensures number { result ≡ number self }
        ensures below { result < count }
    {
        self.row().number
    }

    /// Whether the table of linear programs has the property.
    pub fn is_of_programs(self) -> bool
        ensures { result ≡ has_program self }
    {
        self.row().tables == Tables::Programs
    }

    /// Whether the table of a type has the property.
    pub fn is_in(self, of: ObjectType) -> bool
        ensures { result ≡ has of self }
    {
        match (self.row().tables, of) {
            (Tables::All, _) => true,
            (Tables::PolytopesAndCones, of) => of != ObjectType::Fan,
            (Tables::Polytopes, of) => of == ObjectType::Polytope,
            (Tables::Fans, of) => of == ObjectType::Fan,
            (Tables::Programs, _) => false,
        }
    }

    /// Whether the property is in use for an object of the type, of which this program is asked if one is: then the
    /// table of programs counts too.
    pub fn is_in_use(self, sub: Option<u8>, of: ObjectType) -> bool
        ensures { result ≡ is_in_use sub of self }
    {
        self.is_in(of) || (sub.is_some() && self.is_of_programs())
    }

    /// Where a value of the property stands, for who asks this program if any: at the program where the table of
    /// programs has the property, else in the object itself.
    pub fn place(self, sub: Option<u8>) -> Option<u8>
        ensures { result ≡ place_of sub self }
    {
        if self.is_of_programs() { sub } else { None }
    }

    /// Whether the property is half of the pair POINTS with INPUT_LINEALITY.
    pub fn is_of_generators(self) -> bool
        ensures { result ≡ generators_tag self }
    {
        let row = self.row();
        row.is_half && row.describes == Describes::Generators
    }

    /// Whether the property is half of the pair INEQUALITIES with EQUATIONS.
    pub fn is_of_half_spaces(self) -> bool
        ensures { result ≡ half_spaces_tag self }
    {
        let row = self.row();
        row.is_half && row.describes == Describes::HalfSpaces
    }
}

// The property at a place of a list.
fn at_place(properties: &[PropId], place: usize) -> Option<PropId>
    ensures { result ≡ slice_get properties.now place }
{
    properties.get(place).copied()
}
