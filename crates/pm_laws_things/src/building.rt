// Which polytopes new objects are: what their values are right for. It has no code. It knows nothing of rules,
// clients and sessions.

ghost use Rattle.pm_laws_things.specs.Existence.{PolarsExist, ProductsExist, PyramidsExist, ShapesExist, SumsExist};
ghost use Rattle.pm_laws_things.specs.ExistenceExamples.{ExistenceIsRead};
ghost use Rattle.pm_laws_things.specs.BuildingExamples.{MinkowskiSumsAreRead, OthersAreRead, ShapesAreRead};
ghost use Rattle.pm_laws_things.specs.BuildingLaws.{CrossIsDescribed, CubeIsDescribed, CyclicIsDescribed, PolarIsDescribed, ProductIsDescribed, PyramidIsDescribed, SimplexIsDescribed, SumIsDescribed};

/// The values of a cube are right for the polytope of all points with coordinates from -1 to 1.
/// There is one: `law_shapes_exist`.
pub fn law_cube_is_described()
    ensures { CubeIsDescribed }
{}

/// The values of a simplex are right for the convex hull of 0 and the unit vectors.
/// There is one: `law_shapes_exist`.
pub fn law_simplex_is_described()
    ensures { SimplexIsDescribed }
{}

/// The values of a cross-polytope are right for the convex hull of the unit vectors and their opposites.
/// There is one: `law_shapes_exist`.
pub fn law_cross_is_described()
    ensures { CrossIsDescribed }
{}

/// The values of a cyclic polytope are right for the convex hull of its points of the moment curve.
/// There is one: `law_shapes_exist`.
pub fn law_cyclic_is_described()
    ensures { CyclicIsDescribed }
{}

/// The values of a polar are right for the polar of each polytope for which the values read are right.
/// Each has one: `law_polars_exist`.
pub fn law_polar_is_described()
    ensures { PolarIsDescribed }
{}

/// The values of a product are right for the product of each two polytopes for which the values read are right.
/// Each two have one: `law_products_exist`.
pub fn law_product_is_described()
    ensures { ProductIsDescribed }
{}

/// The values of a pyramid are right for the pyramid over each polytope for which the values read are right.
/// Each has one: `law_pyramids_exist`.
pub fn law_pyramid_is_described()
    ensures { PyramidIsDescribed }
{}

/// There are cubes, simplices, cross-polytopes and cyclic polytopes in up to 32 dimensions.
pub fn law_shapes_exist()
    ensures { ShapesExist }
{}

/// Each polytope has a polar.
pub fn law_polars_exist()
    ensures { PolarsExist }
{}

/// Each two polytopes of at most 34 columns together have a product.
pub fn law_products_exist()
    ensures { ProductsExist }
{}

/// Each polytope of at most 32 columns has a pyramid.
pub fn law_pyramids_exist()
    ensures { PyramidsExist }
{}

/// Each two polytopes of as many columns have a Minkowski sum.
pub fn law_sums_exist()
    ensures { SumsExist }
{}

/// The values of a Minkowski sum are right for the sum of each two polytopes for which the values read are right,
/// bounded or not. Each two have one: `law_sums_exist`.
pub fn law_sum_is_described()
    ensures { SumIsDescribed }
{}

/// Segments that are cubes, simplices, cross-polytopes and cyclic polytopes, and segments that are none.
pub fn example_shapes()
    ensures { ShapesAreRead }
{}

/// A product, a polar and a pyramid of segments, and what is none.
pub fn example_others()
    ensures { OthersAreRead }
{}

/// Which built polytopes there are, and which there are not.
pub fn example_existence()
    ensures { ExistenceIsRead }
{}

/// The square is the sum of two of its edges, and what is no sum.
pub fn example_sums()
    ensures { MinkowskiSumsAreRead }
{}
