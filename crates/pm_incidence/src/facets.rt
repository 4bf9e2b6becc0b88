// The facet rows among half-spaces, by the rays that generate.

ghost use Rattle.pm_vector.specs.Cones.{InCone};
ghost use Rattle.pm_vector.specs.Rows.{HasCols};
ghost use Rattle.pm_vector.specs.Bases.{IsEchelonBasis};
ghost use Rattle.pm_dd.specs.Fronts.{HalfSpaces};
ghost use Rattle.pm_vector.specs.NullSpaces.{IsNull};
ghost use Rattle.pm_geom.specs.Cones.{CutOut, IsValid};
ghost use Rattle.pm_geom.specs.Generators.{AreGenerators};
ghost use Rattle.pm_incidence.specs.Lost.{IfThinWide, ThinningIsLost};
ghost use Rattle.pm_incidence.specs.SetRows.{IsWideWith};
ghost use Rattle.pm_incidence.specs.Thinning.{AreThinPlaces, HasPointAmong, IsBehind, IsFacetsFail, IsInsideFail, half_spaces};
ghost use Rattle.pm_types.specs.Right.{CutsOutOf};
ghost use Rattle.std.specs.List.{All};
ghost use Rattle.std.specs.Prelude.{IfErr, IfOk, IsTrue, List, [], length, true, ◌++◌, ◌+◌, ◌<◌, ◌^◌, ◌∷◌, ◌≡◌, ◌≤◌, ◌↔◌, ◌≢◌, ℕ};

use crate::by_incidence::{half_spaces, has_point, unit_rows};
use crate::fails::ThinFail;
use crate::from_sets::{exchanged, product};
use crate::thin::{Kept, kept_of, thinned_rows};
use pm_geom::descriptions::{Facets, Generators};
use pm_geom::{Evidence, Places};
use pm_limits::MOST_ROWS;
use pm_props::ObjectType;
use pm_vector::Ints;
use std::alloc::{AllocError, Global};

/// Whether no inequality is negative on a ray.
fn is_cut_out(alloc: Global, rows: &[Ints], ray: &Ints, wide: bool) -> Result<bool, ThinFail>
    requires cols { HasCols (length ray.now) rows.now }
    ensures inside { IfOk result (λ b. IsTrue b ↔ CutOut rows.now ray.now) }
    ensures failed { IfErr result (IsWideWith ray.now rows.now) }
    ensures total { wide ≡ true → IfErr result (λ f. f ≡ ThinFail.Memory) }
{
    for row in rows {
        let value = product(alloc, ray, row, wide)?;
        if value.is_negative() {
            return Ok(false);
        }
    }
    Ok(true)
}

/// Whether each equation vanishes on a ray.
fn is_null(alloc: Global, equations: &[Ints], ray: &Ints, wide: bool) -> Result<bool, ThinFail>
    requires cols { HasCols (length ray.now) equations.now }
    ensures inside { IfOk result (λ b. IsTrue b ↔ IsNull equations.now ray.now) }
    ensures failed { IfErr result (IsWideWith ray.now equations.now) }
    ensures total { wide ≡ true → IfErr result (λ f. f ≡ ThinFail.Memory) }
{
    for row in equations {
        let value = product(alloc, ray, row, wide)?;
        if !value.is_zero() {
            return Ok(false);
        }
    }
    Ok(true)
}

/// Whether a row lies behind the points of a polytope.
fn is_behind(of: ObjectType, ray: &Ints) -> bool
    requires { 0 < length ray.now }
    ensures { IsTrue result ↔ IsBehind of ray.now }
{
    of == ObjectType::Polytope && ray.get(0) < 0
}

/// Whether a ray is in the cone that half-spaces describe.
fn is_inside(
    alloc: Global,
    of: ObjectType,
    rows: &[Ints],
    equations: &[Ints],
    ray: &Ints,
    wide: bool,
) -> Result<bool, ThinFail>
    requires row_cols { HasCols (length ray.now) rows.now }
    requires equation_cols { HasCols (length ray.now) equations.now }
    requires some { 0 < length ray.now }
    ensures inside { IfOk result (λ b. IsTrue b
        ↔ HalfSpaces equations.now (half_spaces of (length ray.now) rows.now) ray.now) }
    ensures failed { IfErr result (IsWideWith ray.now (rows.now ++ equations.now)) }
    ensures total { wide ≡ true → IfErr result (λ f. f ≡ ThinFail.Memory) }
{
    if is_behind(of, ray) {
        return Ok(false);
    }
    let cut_out = is_cut_out(alloc, rows, ray, wide)?;
    if !cut_out {
        return Ok(false);
    }
    is_null(alloc, equations, ray, wide)
}

/// Whether all rays are in the cone that half-spaces describe. With `wide` it tells also where a product leaves the
/// range, and fails for want of memory alone.
fn are_inside(
    alloc: Global,
    of: ObjectType,
    cols: usize,
    rows: &[Ints],
    equations: &[Ints],
    rays: &[Ints],
    wide: bool,
) -> Result<bool, ThinFail>
    requires row_cols { HasCols cols rows.now }
    requires equation_cols { HasCols cols equations.now }
    requires ray_cols { HasCols cols rays.now }
    requires some { 0 < cols }
    ensures inside { IfOk result (λ b. IsTrue b
        ↔ All (HalfSpaces equations.now (half_spaces of cols rows.now)) rays.now) }
    ensures failed { IfErr result (IsInsideFail rows.now equations.now rays.now) }
    ensures total { wide ≡ true → IfErr result (λ f. f ≡ ThinFail.Memory) }
{
    for ray in rays {
        let inside = is_inside(alloc, of, rows, equations, ray, wide)?;
        if !inside {
            return Ok(false);
        }
    }
    Ok(true)
}

/// What is kept of the half-spaces, by the rays.
fn kept_halves(
    alloc: Global,
    of: ObjectType,
    cols: usize,
    rows: &[Ints],
    equations: &[Ints],
    halves: &[Ints],
    rays: &[Ints],
    wide: bool,
) -> Result<Kept, ThinFail>
    requires row_cols { HasCols cols rows.now }
    requires equation_cols { HasCols cols equations.now }
    requires ray_cols { HasCols cols rays.now }
    requires few_rows { length rows.now < 2 ^ 30 }
    requires few_equations { length equations.now < 2 ^ 30 }
    requires some_columns { 0 < cols }
    requires few_columns { cols < 2 ^ 30 }
    requires halves { halves.now ≡ half_spaces of cols rows.now }
    ensures kept { IfOk result (λ k.
        AreThinPlaces cols halves.now equations.now rays.now k.basis.rows k.basis.pivots k.places.items) }
    ensures failed { IfErr result (IsFacetsFail of cols rows.now equations.now rays.now) }
    ensures lost { wide ≡ true → IfErr result (λ f.
        IfThinWide f (ThinningIsLost cols halves.now equations.now rays.now)) }
{
    match kept_of(alloc, cols, halves, equations, rays, wide) {
        Ok(kept) => Ok(kept),
        Err(fail) => Err(exchanged(fail)),
    }
}

/// The places as evidence names them.
fn as_evidence(alloc: Global, places: &[usize]) -> Result<Vec<u32>, AllocError>
    requires { All (λ k. k < 2 ^ 32) places.now }
    ensures { IfOk result (λ v. v.items ≡ places.now) }
{
    let mut made = Vec::new(alloc);
    for place in places {
        made.push(*place as u32)?;
    }
    Ok(made)
}

/// How many of the kept places are taken: all of them, unless they are too many. Then they are facets, or no thing
/// has these half-spaces and rays. With `wide` it is never `Wide`.
fn taken(
    alloc: Global,
    of: ObjectType,
    cols: usize,
    rows: &[Ints],
    equations: &[Ints],
    rays: &[Ints],
    kept: &Kept,
    wide: bool,
) -> Result<usize, ThinFail>
    requires row_cols { HasCols cols rows.now }
    requires equation_cols { HasCols cols equations.now }
    requires ray_cols { HasCols cols rays.now }
    requires few_rows { length rows.now < 2 ^ 30 }
    requires some_columns { 0 < cols }
    requires point { HasPointAmong of rays.now }
    requires kept { AreThinPlaces cols (half_spaces of cols rows.now) equations.now rays.now
        kept.now.basis.rows kept.now.basis.pivots kept.now.places.items }
    ensures few { IfOk result (λ k. k ≤ MOST_ROWS) }
    ensures within { IfOk result (λ k. k ≤ length kept.now.places.items) }
    ensures all { IfOk result (λ k. All (HalfSpaces equations.now (half_spaces of cols rows.now)) rays.now
        → k ≡ length kept.now.places.items) }
    ensures failed { IfErr result (IsFacetsFail of cols rows.now equations.now rays.now) }
    ensures never_wide { wide ≡ true → IfErr result (λ f. IfThinWide f ⊥) }
{
    if kept.places.len() <= MOST_ROWS {
        return Ok(kept.places.len());
    }
    let inside = are_inside(alloc, of, cols, rows, equations, rays, wide)?;
    if inside {
        let places = as_evidence(alloc, &kept.places)?;
        return Err(ThinFail::Many(Evidence::E5Rows {
            rows: Places::from_vec(places),
        }));
    }
    Ok(MOST_ROWS)
}

/// All facet rows of a thing among half-spaces that describe it, by the rays and lineality that generate it, and the
/// echelon basis of the rows that vanish on it.
/// The facet rows are primitive, with zeros in the pivot columns of that basis, each once and in lexicographic order;
/// there are at most `MOST_ROWS` of them.
/// `Wide` only with evidence: E1 on the rows that vanish and then the reduced row, E4 on a ray and a half-space or
/// equation. `Many` only with more than `MOST_ROWS` facet rows among the half-spaces (E5): of more than `MOST_ROWS`
/// half-spaces, where the rays generate the thing.
/// With `wide` it goes on by wide numbers where a number leaves the range. Then it is `Wide` only where the elimination
/// of the rows that vanish, or the reduction of a half-space by their basis, is lost by these too: no row in the range
/// is what a step of it makes. The evidence is still that of the range.
pub fn facets_by_incidence(
    alloc: Global,
    of: ObjectType,
    cols: usize,
    rows: &[Ints],
    equations: &[Ints],
    g: &Generators,
    wide: bool,
) -> Result<Facets, ThinFail>
    requires no_fan { of ≢ ObjectType.Fan }
    requires row_cols { HasCols cols rows.now }
    requires equation_cols { HasCols cols equations.now }
    requires ray_cols { HasCols cols g.now.rays.items }
    requires few_rows { length rows.now < 2 ^ 30 }
    requires few_equations { length equations.now < 2 ^ 30 }
    requires some_columns { 0 < cols }
    requires few_columns { cols < 2 ^ 30 }
    ensures facets { IfOk result (λ f. HasCols cols g.now.lineality.items
        → CutsOutOf of cols (InCone g.now.rays.items g.now.lineality.items) rows.now equations.now
        → AreGenerators cols
        (IsValid cols g.now.rays.items g.now.lineality.items) f.facets.items f.hull.items) }
    ensures cols { IfOk result (λ f. HasCols cols f.facets.items) }
    ensures few { IfOk result (λ f. length f.facets.items ≤ MOST_ROWS) }
    ensures echelon { IfOk result (λ f. (P : List ℕ) × IsEchelonBasis cols f.hull.items P) }
    ensures failed { IfErr result (IsFacetsFail of cols rows.now equations.now g.now.rays.items) }
    ensures lost { wide ≡ true → IfErr result (λ f. IfThinWide f
        (ThinningIsLost cols (half_spaces of cols rows.now) equations.now g.now.rays.items)) }
{
    if !has_point(of, &g.rays) {
        return Ok(Facets {
            facets: Vec::new(alloc),
            hull: unit_rows(alloc, cols)?,
        });
    }
    let halves = half_spaces(alloc, of, cols, rows)?;
    let kept = kept_halves(alloc, of, cols, rows, equations, &halves, &g.rays, wide)?;
    let count = taken(alloc, of, cols, rows, equations, &g.rays, &kept, wide)?;
    let facets = thinned_rows(
        alloc,
        cols,
        &halves,
        &kept.basis,
        &kept.places[..count],
        wide,
    )?;
    Ok(Facets {
        facets,
        hull: kept.basis.rows,
    })
}
