//! Worked examples of values, a module each: right and canonical values of things, faces and graphs, and what a client may
//! read and answer, sound runs and honest objects. It has no code.
#![tactic(auto)]

pub mod runs;
pub mod values;
