//! Clients that count rays and facets, list the far rays, and find truth values by dimensions and by first entries.
//! They know nothing of rounds, commands and sessions.
#![tactic(auto)]

ghost use Rattle.pm_clients_counts.specs.Examples.{PlacesAreRead};

mod firsts;
mod sizes;
mod truths;

pub use sizes::{SizeClient, SizeFamily, SizeWork};
pub use truths::{TestClient, TestFamily, TestWork};

/// The places of the far rays, read on two rays.
pub fn example_places()
    ensures { PlacesAreRead }
{}
