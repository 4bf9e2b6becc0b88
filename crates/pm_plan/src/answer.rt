// What a planner answers.

ghost use Rattle.std.specs.Prelude.{◌≡◌};
ghost use Rattle.pm_plan.specs.declared.answer.PlanEnd.TheVariants.{Memory};

use pm_rules::{Cost, RuleId, Table};
use std::alloc::AllocError;

/// A least chain.
#[derive(Debug, Drop)]
pub struct Plan {
    /// The chain.
    pub chain: Vec<RuleId>,
    /// What it weighs.
    pub weight: Cost,
    /// The table.
    pub table: Table,
}

/// Why there is no plan.
#[derive(Debug, Drop)]
pub enum PlanEnd {
    /// No chain leads to the asked names.
    NoChain(Table),
    /// The table would have too many rows.
    Crowded(Table),
    /// Memory ran out.
    Memory,
}

impl From<AllocError> for PlanEnd {
    ghost from_gives = { λ _ e. e ≡ Memory };

    fn from(_e: AllocError) -> PlanEnd {
        PlanEnd::Memory
    }
}
