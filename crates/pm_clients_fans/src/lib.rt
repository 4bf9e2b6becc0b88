//! Clients of fans: the dimensions of maximal cones, and what these show. They know nothing of rounds, commands and
//! sessions.
#![tactic(auto)]

ghost use Rattle.pm_clients_fans.specs.Examples.{LostMaximalConesAreRead, NumbersAreRead};

mod client;
mod dims;

pub use client::{FanClient, FanFamily, FanWork};

/// What some numbers and sets show.
pub fn example_numbers()
    ensures { NumbersAreRead }
{}

/// Views of which a maximal cone is lost by wide numbers, and views of which none is; how the wide client fails.
pub fn example_lost_maximal_cones()
    ensures { LostMaximalConesAreRead }
{}
