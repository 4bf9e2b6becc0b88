//! Clients that find optima of linear programs over polytopes, from half-spaces or rays, with duals; and the rays at
//! an optimum. They know nothing of rounds, commands and sessions.
#![tactic(auto)]

ghost use Rattle.pm_clients_lp.specs.Examples.{DualsAreRead, FailsAreRead};

mod duals;
mod faces;
mod family;
mod halves;
mod optima;
mod programs;
mod properties;
mod rays;
mod reading;

pub use duals::dual_rows;
pub use family::{LpClient, LpFamily, LpWork};
pub use programs::{OptimumWithDual, optimum_over, optimum_with_dual};

/// How the clients of the family fail.
pub fn example_fails()
    ensures { FailsAreRead }
{}

/// Rows of duals of a segment, and what is none.
pub fn example_duals()
    ensures { DualsAreRead }
{}
