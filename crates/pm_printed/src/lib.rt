//! What `explain` prints, read back: whether a printed plan proves itself least, or a refusal that there is no chain.
//! It
//! knows nothing of the planner.
#![tactic(auto)]

mod chain;
mod cut;
mod judge;
mod label;
mod laws;
mod line;
mod number;
mod print;
mod question;
mod read;

pub use judge::{Verdict, check};
pub use label::rule_labelled;
pub use laws::{
    law_printed_plans_are_accepted, law_printed_refusals_are_accepted, law_proved_plans_are_least,
    law_proved_refusals_exclude,
};
pub use question::Question;
