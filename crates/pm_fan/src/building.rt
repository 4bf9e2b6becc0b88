// The calls that build fans.

ghost use Rattle.pm_fan.specs.Conditions.{are_of_facets, face_reads, face_refusal, normal_reads, normal_refusal, rows_refusal};
ghost use Rattle.pm_fan.specs.Fans.{face_cones, face_fan_of, face_rays, fan_cols, fan_with, normal_cones, normal_fan_of, normal_rays};
ghost use Rattle.pm_files.specs.Views.{file_of};
ghost use Rattle.pm_object.specs.Known.{IsKnown, IsReadable, cols_at};
ghost use Rattle.pm_types.specs.Parts.{cols_over};
ghost use Rattle.pm_object.specs.State.{IsRefused};
ghost use Rattle.pm_types.specs.Views.{view_of};
ghost use Rattle.std.specs.Prelude.{IfErr, IfOk, None, OnOk, length, map, true, ◌≡◌, ◌≤◌};

use crate::conditions::{face_needs, normal_needs, rows_pass};
use crate::cones::all_holders;
use crate::rows::{cut_rows, cut_rows_with_members};
use pm_files::FileObject;
use pm_fraction::Matrix;
use pm_object::{BuildFail, Condition, Object, cols_at, matrix_at, sets_at};
use pm_types::{ObjectType, PropId, PropSet, Sets, Value};
use std::alloc::{AllocError, Global};

// A fan with these values.
fn fan_with(alloc: Global, values: Vec<(PropId, Value)>) -> FileObject
    ensures { file_of result ≡ fan_with (map (λ v. (v.0, view_of v.1)) values.items) }
{
    FileObject {
        of: ObjectType::Fan,
        values,
        stored: PropSet::empty(),
        failed: Vec::new(alloc),
        programs: Vec::new(alloc),
        ignored: Vec::new(alloc),
    }
}

// The fan where its rows pass their tests, and else the condition that fails.
fn where_rows_pass(fan: FileObject) -> Result<FileObject, BuildFail>
    ensures same { IfOk result (λ f. f ≡ fan) }
    ensures fits { OnOk result (rows_refusal (file_of fan) ≡ None) }
    ensures refused { IfErr result (IsRefused (rows_refusal (file_of fan))) }
{
    if rows_pass(&fan) {
        Ok(fan)
    } else {
        Err(BuildFail::NotFit(Condition::Rows))
    }
}

// The cones of the normal fan, over as many rays.
fn normal_cones(alloc: Global, o: &Object, rays: usize) -> Result<Sets, AllocError>
    requires known { IsKnown normal_reads o.now.state }
    requires as_many { rays ≡ length (normal_rays o.now.state) }
    ensures { IfOk result (λ s. s ≡ normal_cones o.now.state) }
{
    let sets = sets_at(o, PropId::VerticesInFacets);
    let n = matrix_at(o, PropId::Vertices).rows();
    let cones = all_holders(alloc, sets.rows(), n as u32)?;
    Ok(Sets::from_vec(cones, rays as u32))
}

// The values of the normal fan.
fn normal_values(alloc: Global, o: &Object) -> Result<FileObject, AllocError>
    requires known { IsKnown normal_reads o.now.state }
    requires columns { 2 ≤ cols_at o.now.state }
    requires facets { are_of_facets o.now.state ≡ true }
    ensures { IfOk result (λ f. file_of f ≡ normal_fan_of o.now.state) }
{
    let n = cols_at(o) - 1;
    let sets = sets_at(o, PropId::VerticesInFacets);
    let rays = cut_rows_with_members(alloc, sets.rows(), matrix_at(o, PropId::Facets), n)?;
    let lines = cut_rows(alloc, matrix_at(o, PropId::AffineHull), n)?;
    let cones = normal_cones(alloc, o, rays.rows())?;
    let values = vec![in alloc;
        (PropId::ConeAmbientDim, Value::Int(n as i64)),
        (PropId::Vertices, Value::Mat(rays)),
        (PropId::LinealitySpace, Value::Mat(lines)),
        (PropId::MaximalCones, Value::Sets(cones)),
    ]?;
    Ok(fan_with(alloc, values))
}

// The rays of the face fan.
fn face_rays(alloc: Global, o: &Object) -> Result<Matrix, AllocError>
    requires known { IsKnown face_reads o.now.state }
    requires columns { 2 ≤ cols_at o.now.state }
    ensures rows { IfOk result (λ m. m.rows ≡ face_rays o.now.state) }
    ensures cols { IfOk result (λ m. m.cols ≡ cols_over (fan_cols o.now.state) (face_rays o.now.state)) }
{
    let vertices = matrix_at(o, PropId::Vertices);
    if vertices.rows() == 1 {
        return Ok(Matrix::new(alloc, 0));
    }
    cut_rows(alloc, vertices, cols_at(o) - 1)
}

// The cones of the face fan.
fn face_cones(alloc: Global, o: &Object) -> Result<Sets, AllocError>
    requires { IsKnown face_reads o.now.state }
    ensures { IfOk result (λ s. s ≡ face_cones o.now.state) }
{
    if matrix_at(o, PropId::Vertices).rows() == 1 {
        let apex = vec![in alloc; Vec::new(alloc)]?;
        return Ok(Sets::from_vec(apex, 0));
    }
    sets_at(o, PropId::VerticesInFacets).copy(alloc)
}

// The values of the face fan.
fn face_values(alloc: Global, o: &Object) -> Result<FileObject, AllocError>
    requires known { IsKnown face_reads o.now.state }
    requires columns { 2 ≤ cols_at o.now.state }
    ensures { IfOk result (λ f. file_of f ≡ face_fan_of o.now.state) }
{
    let n = cols_at(o) - 1;
    let rays = face_rays(alloc, o)?;
    let cones = face_cones(alloc, o)?;
    let values = vec![in alloc;
        (PropId::ConeAmbientDim, Value::Int(n as i64)),
        (PropId::Vertices, Value::Mat(rays)),
        (PropId::MaximalCones, Value::Sets(cones)),
    ]?;
    Ok(fan_with(alloc, values))
}

/// The normal fan of a bounded polytope: its rays are the normals of the facets, its lineality are the rows of the
/// affine hull, and its cones, one for each vertex, are spanned by the normals of the facets that hold the vertex;
/// normals without their first coordinate, with their scale. Of a point it is the lineality alone.
/// These values are right, in some order of the fan's rays and cones, for the normal fan of each polytope for which
/// the values read are right: the fan with one cone for each vertex, of the objectives that are least there, and no
/// other (`pm_laws_things`, `law_normal_fan_is_described`).
/// `NotFit` names the first condition that fails: the object is a polytope, BOUNDED and FEASIBLE are true, it has two
/// columns at least, the sets of VERTICES_IN_FACETS are those of its facets and vertices and no normal is 0.
pub fn normal_fan(alloc: Global, o: &Object) -> Result<FileObject, BuildFail>
    requires { IsReadable normal_reads o.now.state }
    ensures built { IfOk result (λ f. file_of f ≡ normal_fan_of o.now.state) }
    ensures fits { OnOk result (normal_refusal o.now.state ≡ None) }
    ensures refused { IfErr result (IsRefused (normal_refusal o.now.state)) }
{
    if let Some(condition) = normal_needs(o) {
        return Err(BuildFail::NotFit(condition));
    }
    where_rows_pass(normal_values(alloc, o)?)
}

/// The face fan of a bounded polytope that has 0 in its interior: its rays are the vertices, without their first
/// coordinate and with their scale, and its cones, one for each facet, are spanned by the vertices on the facet. Of a
/// point it is the cone {0}.
/// These values are right, in some order of the fan's rays and cones, for the face fan of each polytope for which the
/// values read are right: the fan with one cone for each facet, the one over it, and no other (`pm_laws_things`,
/// `law_face_fan_is_described`).
/// `NotFit` names the first condition that fails: the object is a polytope, BOUNDED and CENTERED are true, it has two
/// columns at least, the sets of VERTICES_IN_FACETS are of its vertices and no vertex of several is 0.
pub fn face_fan(alloc: Global, o: &Object) -> Result<FileObject, BuildFail>
    requires { IsReadable face_reads o.now.state }
    ensures built { IfOk result (λ f. file_of f ≡ face_fan_of o.now.state) }
    ensures fits { OnOk result (face_refusal o.now.state ≡ None) }
    ensures refused { IfErr result (IsRefused (face_refusal o.now.state)) }
{
    if let Some(condition) = face_needs(o) {
        return Err(BuildFail::NotFit(condition));
    }
    where_rows_pass(face_values(alloc, o)?)
}
