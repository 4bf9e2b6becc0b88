// Whether an intersection is included in another, by the products of its rays with the rows that cut out the other.

ghost use Rattle.pm_vector.specs.Rows.{HasCols, dot as dot_of};
ghost use Rattle.pm_vector.specs.NullSpaces.{IsNull};
ghost use Rattle.pm_geom.specs.Cones.{CutOut};
ghost use Rattle.pm_geom.specs.Evidence.{IsWideProduct};
ghost use Rattle.pm_laws_normal_fans.specs.Refinements.{InHalfSpaces};
ghost use Rattle.pm_refine.specs.CutRows.{IsRowOf, IsSmall, cut_rows, intersection_of, are_within};
ghost use Rattle.pm_refine.specs.Fails.{IsTestOf, IsTestOfRay, IsWideOf};
ghost use Rattle.std.specs.List.{Contains};
ghost use Rattle.std.specs.Prelude.{All, IfErr, IfOk, IsTrue, [], length, ◌∷◌, ◌⊎◌, ◌≡◌, ◌↔◌};

use crate::fails::RefineFail;
use crate::refinement::Intersection;
use pm_dd::Facets;
use pm_geom::Evidence;
use pm_vector::{Ints, Wide, dot};
use std::alloc::{AllocError, Global};

/// The refusal of a ray of an intersection and a row whose product leaves the range.
fn wide_rows(
    alloc: Global,
    of: &Intersection,
    ray: &Ints,
    row: &Ints,
) -> Result<RefineFail, AllocError>
    requires { IsWideProduct ray.now row.now }
    ensures { IfOk result (IsWideOf (IsTestOfRay of.now.first of.now.second ray.now (λ r. r ≡ row.now))) }
{
    Ok(RefineFail::NotMade {
        first: of.first,
        second: of.second,
        evidence: Evidence::E4 {
            first: ray.copy(alloc)?,
            second: row.copy(alloc)?,
        },
    })
}

/// The product of a ray of an intersection and a row.
fn product(alloc: Global, of: &Intersection, ray: &Ints, row: &Ints) -> Result<i128, RefineFail>
    requires { length ray.now ≡ length row.now }
    ensures value { IfOk result (λ k. k ≡ dot_of ray.now row.now) }
    ensures failed { IfErr result
        (IsWideOf (IsTestOfRay of.now.first of.now.second ray.now (λ r. r ≡ row.now))) }
{
    match dot(ray.as_slice(), row.as_slice()) {
        Ok(product) => Ok(product),
        Err(Wide) => Err(wide_rows(alloc, of, ray, row)?),
    }
}

/// Whether no half-space is negative on a ray of an intersection.
fn is_cut_out(
    alloc: Global,
    of: &Intersection,
    rows: &[Ints],
    ray: &Ints,
) -> Result<bool, RefineFail>
    requires { HasCols (length ray.now) rows.now }
    ensures inside { IfOk result (λ b. IsTrue b ↔ CutOut rows.now ray.now) }
    ensures failed { IfErr result
        (IsWideOf (IsTestOfRay of.now.first of.now.second ray.now (Contains rows.now))) }
{
    for row in rows {
        let value = product(alloc, of, ray, row)?;
        if value < 0 {
            return Ok(false);
        }
    }
    Ok(true)
}

/// Whether each equation vanishes on a ray of an intersection.
fn is_null(
    alloc: Global,
    of: &Intersection,
    equations: &[Ints],
    ray: &Ints,
) -> Result<bool, RefineFail>
    requires { HasCols (length ray.now) equations.now }
    ensures inside { IfOk result (λ b. IsTrue b ↔ IsNull equations.now ray.now) }
    ensures failed { IfErr result
        (IsWideOf (IsTestOfRay of.now.first of.now.second ray.now (Contains equations.now))) }
{
    for row in equations {
        let value = product(alloc, of, ray, row)?;
        if value != 0 {
            return Ok(false);
        }
    }
    Ok(true)
}

/// Whether a ray of an intersection is in the cone that facet rows cut out.
fn is_inside(
    alloc: Global,
    of: &Intersection,
    cone: &Facets,
    ray: &Ints,
) -> Result<bool, RefineFail>
    requires { IsSmall (length ray.now) (cut_rows cone.now) }
    ensures inside { IfOk result (λ b. IsTrue b
        ↔ InHalfSpaces cone.now.facets.items cone.now.hull.items ray.now) }
    ensures failed { IfErr result
        (IsWideOf (IsTestOfRay of.now.first of.now.second ray.now (IsRowOf (cut_rows cone.now)))) }
{
    let cut_out = is_cut_out(alloc, of, &cone.facets, ray)?;
    if !cut_out {
        return Ok(false);
    }
    is_null(alloc, of, &cone.hull, ray)
}

/// Whether all rays of an intersection are in the cone that facet rows cut out.
fn are_inside(
    alloc: Global,
    cols: usize,
    of: &Intersection,
    cone: &Facets,
) -> Result<bool, RefineFail>
    requires rays { HasCols cols of.now.rays.items }
    requires cone { IsSmall cols (cut_rows cone.now) }
    ensures inside { IfOk result (λ b. IsTrue b
        ↔ All (InHalfSpaces cone.now.facets.items cone.now.hull.items) of.now.rays.items) }
    ensures failed { IfErr result
        (IsWideOf (IsTestOf (intersection_of of.now ∷ []) (IsRowOf (cut_rows cone.now)))) }
{
    for ray in &of.rays {
        let inside = is_inside(alloc, of, cone, ray)?;
        if !inside {
            return Ok(false);
        }
    }
    Ok(true)
}

/// Whether an intersection is included in that of two cones, which are given by their facet rows.
pub(crate) fn is_within(
    alloc: Global,
    cols: usize,
    of: &Intersection,
    first: &Facets,
    second: &Facets,
) -> Result<bool, RefineFail>
    requires rays { HasCols cols of.now.rays.items }
    requires first { IsSmall cols (cut_rows first.now) }
    requires second { IsSmall cols (cut_rows second.now) }
    ensures within { IfOk result (λ b.
        b ≡ are_within (cut_rows first.now) (cut_rows second.now) of.now.rays.items) }
    ensures failed { IfErr result
        (IsWideOf (IsTestOf (intersection_of of.now ∷ []) (λ r. IsRowOf (cut_rows first.now) r
        ⊎ IsRowOf (cut_rows second.now) r))) }
{
    let inside = are_inside(alloc, cols, of, first)?;
    if !inside {
        return Ok(false);
    }
    are_inside(alloc, cols, of, second)
}
