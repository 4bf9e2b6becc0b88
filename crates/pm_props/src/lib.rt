//! The properties of objects and their table, sets of properties, and kinds of clients. It knows nothing of values,
//! and nothing of geometry.
#![tactic(auto)]

mod client_name;
mod kind;
mod names;
mod property;
mod set;

pub use client_name::ClientName;
pub use kind::{Kind, RuleId};
pub use pm_object_type::ObjectType;
pub use property::{COUNT, Columns, Describes, PropId, PropertyRow, RowTest, Tables, ValueKind};
pub use set::PropSet;
