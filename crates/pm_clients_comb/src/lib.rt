//! Clients that compare, count and intersect sets of rays and facets. They know nothing of rounds, commands and
//! sessions.
#![tactic(auto)]

ghost use Rattle.pm_clients_comb.specs.Examples.{IncidenceIsRead, SizesAreRead};

mod client;
mod sizes;

pub use client::{SetsClient, SetsFamily, SetsWork};

/// Sizes of three sets.
pub fn example_sizes()
    ensures { SizesAreRead }
{}

/// The clients that find incidence, and how the wide one fails.
pub fn example_incidence_clients()
    ensures { IncidenceIsRead }
{}
