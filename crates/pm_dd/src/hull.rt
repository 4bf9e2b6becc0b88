// Generators from half-spaces, and facets from generators, the second by polarity (Ziegler, Lectures on Polytopes,
// section 2.3).

ghost use Rattle.pm_vector.specs.Rows.{HasCols, entry};
ghost use Rattle.pm_dd.specs.Fronts.{HalfSpaces};
ghost use Rattle.pm_geom.specs.Generators.{AreGenerators};
ghost use Rattle.pm_dd.specs.HullRefusals.{IsShownOnParts};
ghost use Rattle.pm_dd.specs.Hulls.{AreFacets, InConeOf, InPolytopeCone, half_spaces_of};
ghost use Rattle.pm_dd.specs.Lost.{IfWide, PartsAreLost};
ghost use Rattle.pm_vector.specs.Evidence.{unit};
ghost use Rattle.std.specs.Prelude.{Any, IfErr, IfOk, IsTrue, [], length, pos, true, ◌++◌, ◌<ℤ◌, ◌<◌, ◌^◌, ◌∷◌, ◌≡◌, ◌≢◌, ◌≤◌, ◌↔◌};
ghost use Rattle.pm_limits.specs.Limits.{most_rows};

use crate::extreme::{few_rays, rays_of};
use crate::fails::DdFail;
use crate::parts::double_list;
use pm_geom::descriptions::{Facets, Generators};
use pm_object_type::ObjectType;
use pm_vector::{Ints, copies};
use std::alloc::{AllocError, Global};

/// The generators of the cone that half-spaces and equations cut out; with `sorts`, first by the lexicographic order.
fn cone_generators(
    alloc: Global,
    cols: usize,
    rows: &[Ints],
    equations: &[Ints],
    wide: bool,
    sorts: bool,
) -> Result<Generators, DdFail>
    requires row_cols { HasCols cols rows.now }
    requires equation_cols { HasCols cols equations.now }
    requires few_rows { length rows.now ≤ 2 ^ 30 }
    requires few_equations { length equations.now < 2 ^ 31 }
    requires few_columns { cols ≤ 2 ^ 30 }
    ensures generators { IfOk result (λ g.
        AreGenerators cols (HalfSpaces equations.now rows.now) g.rays.items g.lineality.items) }
    ensures few { IfOk result (λ g. length g.rays.items ≤ most_rows) }
    ensures shown { IfErr result (IsShownOnParts cols equations.now rows.now) }
    ensures lost { wide ≡ true → IfErr result (λ f. IfWide f (PartsAreLost cols equations.now rows.now)) }
{
    let list = double_list(alloc, cols, equations, rows, wide)?;
    if sorts {
        if let Some(found) = few_rays(alloc, &list, cols, wide) {
            return Ok(found);
        }
    }
    rays_of(alloc, &list, cols, wide)
}

/// All facet rows of the cone that `rays` and `lineality` generate, and the echelon basis of the rows that vanish on
/// it.
/// The facet rows are primitive, with zeros in the pivot columns of that basis, each once and in lexicographic order;
/// there are at most `MOST_ROWS` of them.
/// By polarity these are the generators of the cone that the rays, with the lineality as equations, cut out.
/// A refusal has evidence on the lineality, or on its echelon basis both ways and then the rays.
/// With `wide`, a step that leaves the range is worked by wide numbers; a refusal is still that of a step by numbers
/// of the range alone, and `Wide` comes only where double description by wide numbers is lost too.
pub fn facets_of(
    alloc: Global,
    cols: usize,
    rays: &[Ints],
    lineality: &[Ints],
    wide: bool,
) -> Result<Facets, DdFail>
    requires ray_cols { HasCols cols rays.now }
    requires line_cols { HasCols cols lineality.now }
    requires few_rays { length rays.now ≤ 2 ^ 30 }
    requires few_lines { length lineality.now < 2 ^ 31 }
    requires few_columns { cols ≤ 2 ^ 30 }
    ensures facets { IfOk result (λ f. AreFacets cols rays.now lineality.now f.facets.items f.hull.items) }
    ensures few { IfOk result (λ f. length f.facets.items ≤ most_rows) }
    ensures shown { IfErr result (IsShownOnParts cols lineality.now rays.now) }
    ensures lost { wide ≡ true → IfErr result (λ f. IfWide f (PartsAreLost cols lineality.now rays.now)) }
{
    let dual = cone_generators(alloc, cols, rays, lineality, wide, false)?;
    Ok(Facets {
        facets: dual.rays,
        hull: dual.lineality,
    })
}

/// The same by numbers of the range alone.
pub fn to_facets(
    alloc: Global,
    cols: usize,
    rays: &[Ints],
    lineality: &[Ints],
) -> Result<Facets, DdFail>
    requires ray_cols { HasCols cols rays.now }
    requires line_cols { HasCols cols lineality.now }
    requires few_rays { length rays.now ≤ 2 ^ 30 }
    requires few_lines { length lineality.now < 2 ^ 31 }
    requires few_columns { cols ≤ 2 ^ 30 }
    ensures facets { IfOk result (λ f. AreFacets cols rays.now lineality.now f.facets.items f.hull.items) }
    ensures few { IfOk result (λ f. length f.facets.items ≤ most_rows) }
    ensures shown { IfErr result (IsShownOnParts cols lineality.now rays.now) }
{
    facets_of(alloc, cols, rays, lineality, false)
}

/// The row (1, 0, .., 0).
fn first_unit(alloc: Global, cols: usize) -> Result<Ints, AllocError>
    ensures { IfOk result (λ r. r ≡ unit cols 0) }
{
    let mut entries = vec![in alloc; 0i128; cols]?;
    if cols > 0 {
        entries[0] = 1;
    }
    Ok(Ints::from_vec(entries))
}

/// The inequalities of a polytope, and last the one that the first entry is not negative.
fn with_far_face(alloc: Global, cols: usize, rows: &[Ints]) -> Result<Vec<Ints>, AllocError>
    ensures { IfOk result (λ v. v.items ≡ rows.now ++ unit cols 0 ∷ []) }
{
    let mut made = copies(alloc, rows)?;
    made.push(first_unit(alloc, cols)?)?;
    Ok(made)
}

/// Whether some ray has a positive first entry.
fn has_point(rays: &[Ints]) -> bool
    ensures { IsTrue result ↔ Any (λ v. pos 0 <ℤ entry v 0) rays.now }
{
    rays.iter().any(|ray| !ray.is_empty() && ray.get(0) > 0)
}

/// The generators of the cone over a polytope, which has none where no solution has a positive first entry.
fn polytope_generators(
    alloc: Global,
    cols: usize,
    rows: &[Ints],
    equations: &[Ints],
    wide: bool,
) -> Result<Generators, DdFail>
    requires row_cols { HasCols cols rows.now }
    requires equation_cols { HasCols cols equations.now }
    requires few_rows { length rows.now < 2 ^ 30 }
    requires few_equations { length equations.now < 2 ^ 31 }
    requires few_columns { cols ≤ 2 ^ 30 }
    ensures generators { IfOk result (λ g.
        AreGenerators cols (InPolytopeCone cols rows.now equations.now) g.rays.items g.lineality.items) }
    ensures few { IfOk result (λ g. length g.rays.items ≤ most_rows) }
    ensures shown { IfErr result (IsShownOnParts cols equations.now (rows.now ++ unit cols 0 ∷ [])) }
    ensures lost { wide ≡ true → IfErr result (λ f.
        IfWide f (PartsAreLost cols equations.now (rows.now ++ unit cols 0 ∷ []))) }
{
    let all = with_far_face(alloc, cols, rows)?;
    let found = cone_generators(alloc, cols, &all, equations, wide, true)?;
    if has_point(&found.rays) {
        return Ok(found);
    }
    Ok(Generators {
        rays: Vec::new(alloc),
        lineality: Vec::new(alloc),
    })
}

/// All extreme rays of the cone that `rows` and `equations` describe, and the echelon basis of its lineality.
/// Of a cone these are its half-spaces. Of a polytope they are its inequalities: the row (1, 0, .., 0) is added last,
/// and the cone is {0} where no solution has a positive first entry.
/// The rays are primitive, with zeros in the pivot columns of that basis, each once and in lexicographic order; there
/// are at most `MOST_ROWS` of them.
/// A refusal has evidence on the equations, or on their echelon basis both ways and then the half-spaces.
/// With `wide`, a step that leaves the range is worked by wide numbers; a refusal is still that of a step by numbers
/// of the range alone, and `Wide` comes only where double description by wide numbers is lost too.
pub fn generators_of(
    alloc: Global,
    of: ObjectType,
    cols: usize,
    rows: &[Ints],
    equations: &[Ints],
    wide: bool,
) -> Result<Generators, DdFail>
    requires no_fan { of ≢ ObjectType.Fan }
    requires row_cols { HasCols cols rows.now }
    requires equation_cols { HasCols cols equations.now }
    requires few_rows { length rows.now < 2 ^ 30 }
    requires few_equations { length equations.now < 2 ^ 31 }
    requires few_columns { cols ≤ 2 ^ 30 }
    ensures generators { IfOk result (λ g.
        AreGenerators cols (InConeOf of cols rows.now equations.now) g.rays.items g.lineality.items) }
    ensures few { IfOk result (λ g. length g.rays.items ≤ most_rows) }
    ensures shown { IfErr result (IsShownOnParts cols equations.now (half_spaces_of of cols rows.now)) }
    ensures lost { wide ≡ true → IfErr result (λ f.
        IfWide f (PartsAreLost cols equations.now (half_spaces_of of cols rows.now))) }
{
    match of {
        ObjectType::Polytope => polytope_generators(alloc, cols, rows, equations, wide),
        ObjectType::Cone => cone_generators(alloc, cols, rows, equations, wide, false),
        ObjectType::Fan => unreachable!(),
    }
}

/// The same by numbers of the range alone.
pub fn to_generators(
    alloc: Global,
    of: ObjectType,
    cols: usize,
    rows: &[Ints],
    equations: &[Ints],
) -> Result<Generators, DdFail>
    requires no_fan { of ≢ ObjectType.Fan }
    requires row_cols { HasCols cols rows.now }
    requires equation_cols { HasCols cols equations.now }
    requires few_rows { length rows.now < 2 ^ 30 }
    requires few_equations { length equations.now < 2 ^ 31 }
    requires few_columns { cols ≤ 2 ^ 30 }
    ensures generators { IfOk result (λ g.
        AreGenerators cols (InConeOf of cols rows.now equations.now) g.rays.items g.lineality.items) }
    ensures few { IfOk result (λ g. length g.rays.items ≤ most_rows) }
    ensures shown { IfErr result (IsShownOnParts cols equations.now (half_spaces_of of cols rows.now)) }
{
    generators_of(alloc, of, cols, rows, equations, false)
}
