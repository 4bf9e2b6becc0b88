//! An example of a program of one's own round `polymake`: a client that the program does not have, and a function that
//! answers a script with it over memory. Beside it stand tests of single calls of `polymake`, which no script reaches.
//! It knows nothing of how the machine answers, and nothing stands on it.
#![tactic(auto)]

mod answering;
mod no_rows;

pub use answering::answer_script;
pub use no_rows::NoRows;

#[cfg(test)]
mod devices;
#[cfg(test)]
mod faults;
#[cfg(test)]
mod long;
#[cfg(test)]
mod own;
#[cfg(test)]
mod statuses;
#[cfg(test)]
mod wanting;
