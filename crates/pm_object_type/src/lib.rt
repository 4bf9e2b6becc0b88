//! What an object may describe. It is below the geometry and below the table of properties, which both speak of it.
#![tactic(auto)]

mod object_type;

pub use object_type::ObjectType;
