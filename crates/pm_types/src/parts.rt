// What a value is, where one form of it is meant.

ghost use Rattle.pm_types.specs.Parts.{matrix_in, matrix_of, sets_in, truth_in};
ghost use Rattle.pm_types.specs.Views.{view_of};
ghost use Rattle.std.specs.Option.{option_map};
ghost use Rattle.std.specs.Prelude.{Some, ◌≡◌};

use crate::value::{Sets, Value};
use pm_fraction::Matrix;

impl Value {
    /// The matrix, where the value is one.
    pub fn as_matrix(&self) -> Option<&Matrix>
        ensures { option_map (λ m. matrix_of m.now) result ≡ matrix_in (view_of self.now) }
    {
        match self {
            Value::Mat(matrix) => Some(matrix),
            Value::Bool(_) => None,
            Value::Sets(_) => None,
            Value::Int(_) => None,
            Value::Counts(_) => None,
            Value::Edges(_) => None,
            Value::Lattice(_) => None,
            Value::Number(_) => None,
        }
    }

    /// The sets, where the value is some.
    pub fn as_sets(&self) -> Option<&Sets>
        ensures { option_map (λ s. s.now) result ≡ sets_in (view_of self.now) }
    {
        match self {
            Value::Sets(sets) => Some(sets),
            Value::Mat(_) => None,
            Value::Bool(_) => None,
            Value::Int(_) => None,
            Value::Counts(_) => None,
            Value::Edges(_) => None,
            Value::Lattice(_) => None,
            Value::Number(_) => None,
        }
    }

    /// Whether the value is a truth value, and true.
    pub fn is_true(&self) -> bool
        ensures { result ≡ truth_in (Some (view_of self.now)) }
    {
        match self {
            Value::Bool(b) => *b,
            Value::Mat(_) => false,
            Value::Sets(_) => false,
            Value::Int(_) => false,
            Value::Counts(_) => false,
            Value::Edges(_) => false,
            Value::Lattice(_) => false,
            Value::Number(_) => false,
        }
    }
}
