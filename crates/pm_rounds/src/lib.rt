//! Rounds on one object: a least chain of rules that leads to what is asked, its rules in their turns, and what a
//! failed rule leaves. It knows nothing of names, commands or files.
#![tactic(auto)]

mod chain;
mod laws;
mod moving;
mod round;
mod why;

pub use chain::{are_same, barred_rules, table};
pub use laws::{
    example_conditions, example_events, example_exclusions, example_meanings, example_reasons,
    example_standing, law_barred_have_reasons, law_events_keep, law_events_keep_evidence,
};
pub use round::{Ending, ensure};
pub use why::reasons;
