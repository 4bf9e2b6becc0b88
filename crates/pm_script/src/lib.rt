//! Replies: what is replied to commands, and its text. It knows nothing of clients, rounds and sessions.
#![tactic(auto)]

mod chains;
mod examples;
mod names;
mod refusal;
mod reply;
mod shown;

pub use examples::example_replies;
pub use names::{Bar, Names};
pub use pm_object::Condition;
pub use refusal::{FileWhy, NotMadeWhy, Refusal, ValueWhy};
pub use reply::{Reply, reply_bytes};
pub use shown::ProgramHeld;
