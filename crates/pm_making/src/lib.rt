//! New objects: the table of the commands that make objects, the values that each makes, and the object of such
//! values. It knows nothing of names, rounds or clients.
#![tactic(auto)]

mod making;
mod unbuilt;

pub use making::{Row, build_one, build_shape, build_two, object_of, row_of};
pub use unbuilt::{Unbuilt, of_built};
