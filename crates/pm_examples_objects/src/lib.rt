//! Worked examples of what objects and programs hold, a module each: objects with linear programs and their data files,
//! values of linear programs, and the faults of values as JSON. It has no code.
#![tactic(auto)]

pub mod objects;
pub mod programs;
