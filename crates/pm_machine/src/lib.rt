//! The machine: a session of named objects, and its steps. It knows nothing of the standard rules and clients, and of
//! where a script comes from.
#![tactic(auto)]

mod asking;
mod building;
mod files;
mod laws;
mod naming;
mod session;
mod taking;

pub use laws::{
    Meant, example_answers, example_building, example_files, example_objects, example_operands,
    example_programs, example_refusals, example_shapes, example_wanted, law_runs_widen,
    law_steps_in_part_keep, law_steps_in_part_keep_evidence, law_steps_keep,
    law_steps_keep_evidence,
};
pub use session::Session;
