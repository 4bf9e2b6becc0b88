//! Commands: the lines of a script, and what each speaks. It knows nothing of values, objects and sessions.
#![tactic(auto)]

mod building;
mod command;
mod examples;
mod lines;
mod words;

pub use building::{Binary, Builder, Building, Unary};
pub use command::{Command, LineFail, Ref, Shape, read_line};
pub use examples::example_commands;
pub use lines::{Line, first_break, is_silent, split_line};
