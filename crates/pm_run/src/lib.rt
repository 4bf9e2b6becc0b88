//! A run of the program: words, a book, and a script from bytes to bytes, each line answered by a step of the machine.
//! Whoever calls it gives the source, the sink and the store, and his own clients or those of the program. It knows
//! nothing of how an answer is found.
#![tactic(auto)]

mod book;
mod demo;
mod examples;
mod lines;
mod run;
mod shipped;
mod status;

pub use run::polymake;
pub use shipped::polymake_with_shipped;
pub use status::Status;
