// What is read of an object that holds it.

ghost use Rattle.pm_object.specs.Known.{IsOfRows, IsOfSets, cols_at, is_true};
ghost use Rattle.pm_types.specs.Parts.{matrix_of, value_of_sets};
ghost use Rattle.pm_object.specs.State.{cols_of, is_held, read_at, value_of, is_polytope};
ghost use Rattle.pm_types.specs.Forms.{FormsIn};
ghost use Rattle.std.specs.Option.{is_some};
ghost use Rattle.std.specs.Prelude.{IsTrue, None, Some, ◌≡◌, ◌≤◌};
ghost use Rattle.pm_limits.specs.Limits.{most_columns};

use crate::object::Object;
use pm_fraction::Matrix;
use pm_types::{ObjectType, PropId, Sets};

/// Whether the object is a polytope.
pub fn is_polytope(o: &Object) -> bool
    ensures { result ≡ is_polytope o.now.state.of }
{
    match o.of() {
        ObjectType::Polytope => true,
        ObjectType::Cone => false,
        ObjectType::Fan => false,
    }
}

/// Whether a truth value is held and true.
pub fn is_true(o: &Object, p: PropId) -> bool
    ensures { result ≡ is_true p o.now.state }
{
    match o.lookup(None, p) {
        Some(value) => value.is_true(),
        None => false,
    }
}

/// The rows that are held as the value of a property, in the form of the property.
pub fn matrix_at(o: &Object, p: PropId) -> &Matrix
    requires rows { IsOfRows p }
    requires held { IsTrue (is_held p (read_at None o.now.state.held)) }
    requires known { IsTrue (is_some (cols_of o.now.state.held)) }
    ensures value { value_of p (read_at None o.now.state.held) ≡ Some (matrix_of result.now) }
    ensures forms { FormsIn o.now.state.of (cols_at o.now.state) p (matrix_of result.now) }
{
    let Some(value) = o.lookup(None, p) else {
        unreachable!()
    };
    let Some(matrix) = value.as_matrix() else {
        unreachable!()
    };
    matrix
}

/// The column count n, from 1 to 33, where it is known.
pub fn cols_at(o: &Object) -> usize
    requires { IsTrue (is_some (cols_of o.now.state.held)) }
    ensures value { result ≡ cols_at o.now.state }
    ensures some { 1 ≤ result }
    ensures few { result ≤ most_columns }
{
    let Some(n) = o.cols() else { unreachable!() };
    n
}

/// The sets that are held as the value of a property, in the form of the property.
pub fn sets_at(o: &Object, p: PropId) -> &Sets
    requires of_sets { IsOfSets p }
    requires held { IsTrue (is_held p (read_at None o.now.state.held)) }
    requires known { IsTrue (is_some (cols_of o.now.state.held)) }
    ensures value { value_of p (read_at None o.now.state.held) ≡ Some (value_of_sets result.now) }
    ensures forms { FormsIn o.now.state.of (cols_at o.now.state) p (value_of_sets result.now) }
{
    let Some(value) = o.lookup(None, p) else {
        unreachable!()
    };
    let Some(sets) = value.as_sets() else {
        unreachable!()
    };
    sets
}
