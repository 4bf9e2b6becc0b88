//! The planner: a least chain of rules, with the table that proves it. It knows nothing of geometry.
#![tactic(auto)]

mod answer;
mod moves;
mod planner;
mod search;
mod tags;
mod track;

pub use answer::{Plan, PlanEnd};
pub use planner::{plan, plan_by_rules};
