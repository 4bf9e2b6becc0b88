//! Objects: the values that they hold, the rules that were excluded, the rounds that were started. A held value never
//! changes. It knows nothing of files, books of rules, clients and sessions.
#![tactic(auto)]

mod copies;
mod draft;
mod held;
mod known;
mod laws;
mod object;
mod settled;
mod tests_of_values;
mod view;

pub use copies::{copy_excluded, copy_exclusion, copy_rounds};
pub use draft::{Draft, take_put};
pub use held::{
    BuildFail, Condition, Excluded, Held, Origin, ProgramFail, Round, RoundEnd, TakeFail, Why,
};
pub use known::{cols_at, is_polytope, is_true, matrix_at, sets_at};
pub use laws::{
    law_based_is_kept, law_commit_is_honest, law_empty_is_kept, law_honesty_is_of_values,
    law_objective_is_kept, law_settled_is_kept,
};
pub use object::{Object, are_same};
pub use tests_of_values::{agrees, have_as_many_sites, require_primitive_rows};
pub use view::View;
