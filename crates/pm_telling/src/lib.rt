//! What is told of an object: the names that its rounds need, what it holds, its history, and evidence. It knows
//! nothing of clients, plans or sessions.
#![tactic(auto)]

ghost use Rattle.pm_telling.specs.Examples.{EvidenceIsTold, HeldIsTold};

mod evidence;
mod held;
mod names;
mod origins;

pub use evidence::tell_evidence;
pub use held::show_object;
pub use names::{names_told, rule_names, tell_history};
pub use origins::origin_of;

/// What is told of what is held, and what is not.
pub fn example_held()
    ensures { HeldIsTold }
{}

/// Which exclusions are told, and which are not.
pub fn example_evidence()
    ensures { EvidenceIsTold }
{}
