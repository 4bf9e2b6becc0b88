//! Values of properties: their forms, when one is right for a cone, a polytope or a fan, when it is canonical, and
//! what a client of a kind may answer. It knows nothing of objects, rules and files.
#![tactic(auto)]

ghost use Rattle.pm_types.specs.Runs.{RightAnswerIsKept};

mod columns;
mod fractions;
mod lattice;
mod number;
mod parts;
mod tests_of_rows;
mod value;

pub use columns::{agrees_with, column_count, row_count, stated_cols};
pub use fractions::{matrix_over_one, over_first, over_one, quotient};
pub use lattice::Lattice;
pub use number::Number;
pub use pm_geom::Evidence;
pub use pm_props::{ClientName, Kind, ObjectType, PropId, PropSet, RuleId, ValueKind};
pub use tests_of_rows::{are_rows, first_is_below, reads_entries};
pub use value::{Counts, Sets, Value};

/// Where the facts that an object holds are right, so are they with what a client may answer, in orders that the
/// client may choose only where its kind is fresh in them.
pub fn law_right_answer_is_kept()
    ensures { RightAnswerIsKept }
{}
