// The conditions, in the order in which they are tried.

ghost use Rattle.pm_fan.specs.Conditions.{are_of_facets, are_of_vertices, face_reads, face_refusal, normal_reads, normal_refusal, rows_pass, rows_refusal};
ghost use Rattle.pm_fan.specs.Fans.{face_fan_of, normal_fan_of};
ghost use Rattle.pm_files.specs.Views.{file_of};
ghost use Rattle.pm_object.specs.Known.{IsKnown, IsReadable, cols_at};
ghost use Rattle.pm_object_type.specs.declared.object_type.ObjectType.TheVariants.{Polytope};
ghost use Rattle.pm_props.specs.declared.property.PropId.TheVariants.{Facets, Vertices, VerticesInFacets};
ghost use Rattle.std.specs.Prelude.{IfNone, IfSome, Some, [], true, ◌∷◌, ◌≡◌, ◌≤◌};

use pm_files::FileObject;
use pm_object::{Condition, Object, cols_at, is_polytope, is_true, matrix_at, sets_at};
use pm_types::{PropId, are_rows};

// Whether there is a set for each facet.
fn are_of_facets(o: &Object) -> bool
    requires { IsKnown (VerticesInFacets ∷ Facets ∷ []) o.now.state }
    ensures { result ≡ are_of_facets o.now.state }
{
    sets_at(o, PropId::VerticesInFacets).rows().len() == matrix_at(o, PropId::Facets).rows()
}

// Whether the sets have places of vertices.
fn are_of_vertices(o: &Object) -> bool
    requires { IsKnown (VerticesInFacets ∷ Vertices ∷ []) o.now.state }
    ensures { result ≡ are_of_vertices o.now.state }
{
    sets_at(o, PropId::VerticesInFacets).cols() as usize == matrix_at(o, PropId::Vertices).rows()
}

/// The first condition that fails, but that of the rows of the new object.
pub(crate) fn normal_needs(o: &Object) -> Option<Condition>
    requires { IsReadable normal_reads o.now.state }
    ensures refused { IfSome result (λ c. normal_refusal o.now.state ≡ Some c) }
    ensures left { IfNone result (normal_refusal o.now.state ≡ rows_refusal (normal_fan_of o.now.state)) }
    ensures polytope { IfNone result (o.now.state.of ≡ Polytope) }
    ensures columns { IfNone result (2 ≤ cols_at o.now.state) }
    ensures facets { IfNone result (are_of_facets o.now.state ≡ true) }
{
    if !is_polytope(o) {
        return Some(Condition::OfType);
    }
    if !is_true(o, PropId::Bounded) {
        return Some(Condition::Bounded);
    }
    if !is_true(o, PropId::Feasible) {
        return Some(Condition::Feasible);
    }
    if cols_at(o) < 2 {
        return Some(Condition::Columns);
    }
    if !(are_of_facets(o) && are_of_vertices(o)) {
        return Some(Condition::Rows);
    }
    None
}

/// The first condition that fails, but that of the rows of the new object.
pub(crate) fn face_needs(o: &Object) -> Option<Condition>
    requires { IsReadable face_reads o.now.state }
    ensures refused { IfSome result (λ c. face_refusal o.now.state ≡ Some c) }
    ensures left { IfNone result (face_refusal o.now.state ≡ rows_refusal (face_fan_of o.now.state)) }
    ensures polytope { IfNone result (o.now.state.of ≡ Polytope) }
    ensures columns { IfNone result (2 ≤ cols_at o.now.state) }
{
    if !is_polytope(o) {
        return Some(Condition::OfType);
    }
    if !is_true(o, PropId::Bounded) {
        return Some(Condition::Bounded);
    }
    if !is_true(o, PropId::Centered) {
        return Some(Condition::Centered);
    }
    if cols_at(o) < 2 {
        return Some(Condition::Columns);
    }
    if !are_of_vertices(o) {
        return Some(Condition::Rows);
    }
    None
}

/// Whether each row passes the test of its property.
pub(crate) fn rows_pass(f: &FileObject) -> bool
    ensures { result ≡ rows_pass (file_of f.now) }
{
    for value in &f.values {
        if !are_rows(f.of, value.0, &value.1) {
            return false;
        }
    }
    true
}
