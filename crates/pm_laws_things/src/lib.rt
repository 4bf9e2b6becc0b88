//! Laws of the things that values are right for, a module each: for which polytopes the values of new objects are right,
//! that the values of new fans are right for normal fans, face fans and refinements, that each thing has orders, and which
//! values are right in all of them. It has no code, and nothing stands on it.
#![tactic(auto)]

pub mod building;
pub mod fans;
pub mod orders;
