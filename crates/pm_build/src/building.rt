// The calls that build objects.

ghost use Rattle.pm_build.specs.Conditions.{cyclic_refusal, polar_reads, polar_refusal, product_reads, product_refusal, pyramid_reads, pyramid_refusal, shape_refusal, sum_reads, sum_refusal};
ghost use Rattle.pm_object.specs.Known.{IsReadable};
ghost use Rattle.pm_types.specs.Parts.{matrix_of};
ghost use Rattle.pm_build.specs.Objects.{cross_of, cube_of, cyclic_of, polar_of, polytope_with, product_of, pyramid_of, simplex_of};
ghost use Rattle.pm_build.specs.Sums.{IsSumFile, IsSumRefused};
ghost use Rattle.pm_files.specs.Views.{file_of};
ghost use Rattle.pm_object.specs.State.{IsRefused};
ghost use Rattle.pm_types.specs.Views.{view_of};
ghost use Rattle.std.specs.Prelude.{IfErr, IfOk, None, OnOk, [], map, ◌∷◌, ◌≡◌};

use crate::combined::{both_rows, pyramid_lines, pyramid_points, same_rows};
use crate::conditions::{
    cyclic_refusal, polar_refusal, product_refusal, pyramid_refusal, shape_refusal, sum_refusal,
};
use crate::fails::SumFail;
use crate::shapes::{curve_rows, opposite_rows, simplex_rows};
use crate::summands::{sum_lines, sum_points};
use pm_files::FileObject;
use pm_fraction::Matrix;
use pm_object::{BuildFail, Object, matrix_at};
use pm_types::{ObjectType, PropId, PropSet, Value};
use std::alloc::{AllocError, Global};

// A polytope with these values.
fn polytope_with(alloc: Global, values: Vec<(PropId, Value)>) -> FileObject
    ensures { file_of result ≡ polytope_with (map (λ v. (v.0, view_of v.1)) values.items) }
{
    FileObject {
        of: ObjectType::Polytope,
        values,
        stored: PropSet::empty(),
        failed: Vec::new(alloc),
        programs: Vec::new(alloc),
        ignored: Vec::new(alloc),
    }
}

fn with_rows(alloc: Global, p: PropId, rows: Matrix) -> Result<FileObject, AllocError>
    ensures { IfOk result (λ f. file_of f ≡ polytope_with ((p, matrix_of rows) ∷ [])) }
{
    let values = vec![in alloc; (p, Value::Mat(rows))]?;
    Ok(polytope_with(alloc, values))
}

fn with_both(
    alloc: Global,
    p: PropId,
    rows: Matrix,
    q: PropId,
    others: Matrix,
) -> Result<FileObject, AllocError>
    ensures { IfOk result (λ f.
        file_of f ≡ polytope_with ((p, matrix_of rows) ∷ (q, matrix_of others) ∷ [])) }
{
    let values = vec![in alloc; (p, Value::Mat(rows)), (q, Value::Mat(others))]?;
    Ok(polytope_with(alloc, values))
}

/// The cube of all points with coordinates from -1 to 1 in d dimensions, by its inequalities. In no dimension there
/// are none. `NotFit(Size)` exactly where d is above 32.
pub fn cube(alloc: Global, d: u32) -> Result<FileObject, BuildFail>
    ensures built { IfOk result (λ f. file_of f ≡ cube_of d) }
    ensures fits { OnOk result (shape_refusal d ≡ None) }
    ensures refused { IfErr result (IsRefused (shape_refusal d)) }
{
    if let Some(condition) = shape_refusal(d) {
        return Err(BuildFail::NotFit(condition));
    }
    let rows = opposite_rows(alloc, d as usize)?;
    Ok(with_rows(alloc, PropId::Inequalities, rows)?)
}

/// The simplex of 0 and the unit vectors in d dimensions, by these points. `NotFit(Size)` exactly where d is above 32.
pub fn simplex(alloc: Global, d: u32) -> Result<FileObject, BuildFail>
    ensures built { IfOk result (λ f. file_of f ≡ simplex_of d) }
    ensures fits { OnOk result (shape_refusal d ≡ None) }
    ensures refused { IfErr result (IsRefused (shape_refusal d)) }
{
    if let Some(condition) = shape_refusal(d) {
        return Err(BuildFail::NotFit(condition));
    }
    let rows = simplex_rows(alloc, d as usize)?;
    Ok(with_rows(alloc, PropId::Points, rows)?)
}

/// The cross-polytope of the unit vectors and their opposites in d dimensions, by these points; in no dimension there
/// are none. `NotFit(Size)` exactly where d is above 32.
pub fn cross(alloc: Global, d: u32) -> Result<FileObject, BuildFail>
    ensures built { IfOk result (λ f. file_of f ≡ cross_of d) }
    ensures fits { OnOk result (shape_refusal d ≡ None) }
    ensures refused { IfErr result (IsRefused (shape_refusal d)) }
{
    if let Some(condition) = shape_refusal(d) {
        return Err(BuildFail::NotFit(condition));
    }
    let rows = opposite_rows(alloc, d as usize)?;
    Ok(with_rows(alloc, PropId::Points, rows)?)
}

/// The cyclic polytope of the points at 1, .., n of the moment curve in d dimensions, by these points. `NotFit(Size)`
/// exactly where d is above 32, n is not from d + 1 to `MOST_ROWS`, or n^d is out of the range.
pub fn cyclic(alloc: Global, d: u32, n: u32) -> Result<FileObject, BuildFail>
    ensures built { IfOk result (λ f. file_of f ≡ cyclic_of d n) }
    ensures fits { OnOk result (cyclic_refusal d n ≡ None) }
    ensures refused { IfErr result (IsRefused (cyclic_refusal d n)) }
{
    if let Some(condition) = cyclic_refusal(d, n) {
        return Err(BuildFail::NotFit(condition));
    }
    let rows = curve_rows(alloc, d as usize, n as usize)?;
    Ok(with_rows(alloc, PropId::Points, rows)?)
}

/// The polar of a polytope that has 0 in its interior, by its facet rows as points. `NotFit` names the first condition
/// that fails: the object is a polytope, BOUNDED, FULL_DIM and CENTERED are true, no facet row has a negative first
/// entry.
pub fn polar(alloc: Global, o: &Object) -> Result<FileObject, BuildFail>
    requires { IsReadable polar_reads o.now.state }
    ensures built { IfOk result (λ f. file_of f ≡ polar_of o.now.state) }
    ensures fits { OnOk result (polar_refusal o.now.state ≡ None) }
    ensures refused { IfErr result (IsRefused (polar_refusal o.now.state)) }
{
    if let Some(condition) = polar_refusal(o) {
        return Err(BuildFail::NotFit(condition));
    }
    let points = same_rows(alloc, matrix_at(o, PropId::Facets))?;
    Ok(with_rows(alloc, PropId::Points, points)?)
}

/// The product of two polytopes, by the rows of both. `NotFit` names the first condition that fails: both objects are
/// polytopes, the product has at most 33 columns, it has at most `MOST_ROWS` facets and at most `MOST_ROWS` rows of
/// the affine hull.
pub fn product(alloc: Global, a: &Object, b: &Object) -> Result<FileObject, BuildFail>
    requires first { IsReadable product_reads a.now.state }
    requires second { IsReadable product_reads b.now.state }
    ensures built { IfOk result (λ f. file_of f ≡ product_of a.now.state b.now.state) }
    ensures fits { OnOk result (product_refusal a.now.state b.now.state ≡ None) }
    ensures refused { IfErr result (IsRefused (product_refusal a.now.state b.now.state)) }
{
    if let Some(condition) = product_refusal(a, b) {
        return Err(BuildFail::NotFit(condition));
    }
    let facets = both_rows(alloc, a, b, PropId::Facets)?;
    let hull = both_rows(alloc, a, b, PropId::AffineHull)?;
    Ok(with_both(alloc, PropId::Inequalities, facets, PropId::Equations, hull)?)
}

/// The pyramid over a polytope, by its vertices in one column more and the apex. `NotFit` names the first condition
/// that fails: the object is a polytope, it has at most 32 columns, it has at most 2,047 vertices.
pub fn pyramid(alloc: Global, o: &Object) -> Result<FileObject, BuildFail>
    requires { IsReadable pyramid_reads o.now.state }
    ensures built { IfOk result (λ f. file_of f ≡ pyramid_of o.now.state) }
    ensures fits { OnOk result (pyramid_refusal o.now.state ≡ None) }
    ensures refused { IfErr result (IsRefused (pyramid_refusal o.now.state)) }
{
    if let Some(condition) = pyramid_refusal(o) {
        return Err(BuildFail::NotFit(condition));
    }
    let points = pyramid_points(alloc, o)?;
    let lines = pyramid_lines(alloc, o)?;
    Ok(with_both(alloc, PropId::Points, points, PropId::InputLineality, lines)?)
}

/// The Minkowski sum of two polytopes: as its points the sums of the points of each vertex of the first and each of
/// the second, in order, then the far rows of the first, then those of the second; and the lines of both.
/// These values are right for the sum of all points of each two polytopes for which the values read are right,
/// bounded or not (`pm_laws_things`, `law_sum_is_described`).
/// `NotFit` names the first condition that fails: both objects are polytopes, FEASIBLE is true of both, they have as
/// many columns, the sum has at most `MOST_ROWS` points and at most `MOST_ROWS` lines.
/// `Wide` exactly where a number on the way to the sum of two points leaves the range, with the primitive rows of the
/// first such pair and its first such column. For primitive rows v and w these numbers are v_0 p, and p v_k, q w_k
/// and their sum, where p = w_0/g and q = v_0/g for the greatest common divisor g of v_0 and w_0.
pub fn minkowski(alloc: Global, a: &Object, b: &Object) -> Result<FileObject, SumFail>
    requires first { IsReadable sum_reads a.now.state }
    requires second { IsReadable sum_reads b.now.state }
    ensures built { IfOk result (λ f. IsSumFile a.now.state b.now.state (file_of f)) }
    ensures fits { OnOk result (sum_refusal a.now.state b.now.state ≡ None) }
    ensures refused { IfErr result (IsSumRefused a.now.state b.now.state) }
{
    if let Some(condition) = sum_refusal(a, b) {
        return Err(SumFail::NotFit(condition));
    }
    let points = sum_points(alloc, a, b)?;
    let lines = sum_lines(alloc, a, b)?;
    Ok(with_both(alloc, PropId::Points, points, PropId::InputLineality, lines)?)
}
