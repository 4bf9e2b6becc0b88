// The planner.

ghost use Rattle.std.specs.Prelude.{◌≤◌, IfOk, IfErr, All, length};
ghost use Rattle.pm_weights.specs.Weights.{IsWeight};
ghost use Rattle.pm_plan.specs.Plans.{IsPlan, SaysWhy};
ghost use Rattle.pm_limits.specs.Limits.{most_rules};

use crate::answer::{Plan, PlanEnd};
use crate::moves::moves;
use crate::search::{Search, explore};
use crate::track::chain_to;
use pm_rules::{Book, PropSet, Rule, RuleId, Table};
use std::alloc::Global;

/// A least chain from the held names to the asked ones that has no barred rule, with the table of its search.
pub fn plan(
    alloc: Global,
    b: &Book,
    names: PropSet,
    held: PropSet,
    barred: &[RuleId],
    asked: PropSet,
) -> Result<Plan, PlanEnd>
    ensures plan { IfOk result (λ p.
        IsPlan b.now names barred.now held asked p.chain.items p.weight p.table.rows.items) }
    ensures why { IfErr result (SaysWhy b.now names barred.now held asked) }
{
    plan_by_rules(alloc, b.rules(), names, held, barred, asked)
}

/// The same by rules that need not be those of a book: their labels play no part in chains.
pub fn plan_by_rules(
    alloc: Global,
    rules: &[Rule],
    names: PropSet,
    held: PropSet,
    barred: &[RuleId],
    asked: PropSet,
) -> Result<Plan, PlanEnd>
    requires few { length rules.now ≤ most_rules }
    requires weights { All (λ rule. IsWeight rule.weight) rules.now }
    ensures plan { IfOk result (λ p.
        IsPlan rules.now names barred.now held asked p.chain.items p.weight p.table.rows.items) }
    ensures why { IfErr result (SaysWhy rules.now names barred.now held asked) }
{
    let moves = moves(alloc, rules, names, barred, asked)?;
    let (search, whole) = explore(alloc, moves.as_slice(), held, asked)?;
    let Search {
        rows,
        links,
        goal,
        waiting: _,
        known: _,
    } = search;
    let table = Table { rows };
    if !whole {
        return Err(PlanEnd::Crowded(table));
    }
    match goal {
        None => Err(PlanEnd::NoChain(table)),
        Some(goal) => Ok(Plan {
            chain: chain_to(alloc, links.as_slice(), goal.link)?,
            weight: goal.row.cost,
            table,
        }),
    }
}
