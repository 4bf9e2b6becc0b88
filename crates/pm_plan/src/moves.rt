// The rules that a search looks at.

ghost use Rattle.std.specs.Prelude.{◌≡◌, ◌+◌, ◌^◌, ◌<◌, ◌≤◌, IfOk, length};
ghost use Rattle.pm_plan.specs.Moves.{AreMoves, after};
ghost use Rattle.pm_limits.specs.Limits.{most_rules};

use crate::tags::TagSets;
use pm_rules::{PropSet, Rule, RuleId, Step, TableRow, Weight, needed};
use std::alloc::{AllocError, Global};

/// A useful rule: its number, what it asks of the names held, and its weight.
#[derive(Clone, Copy)]
pub struct Move {
    /// Its number in the book.
    pub id: RuleId,
    /// What it asks of the names held.
    pub step: Step,
    /// What it adds to the cost.
    pub weight: Weight,
}

/// The useful rules of a book, in order.
pub fn moves(
    alloc: Global,
    rules: &[Rule],
    names: PropSet,
    barred: &[RuleId],
    asked: PropSet,
) -> Result<Vec<Move>, AllocError>
    requires { length rules.now ≤ most_rules }
    ensures { IfOk result (λ v. AreMoves rules.now names barred.now asked v.items) }
{
    let needed = needed(rules, names, barred, asked);
    let tags = TagSets::new();
    let mut moves = Vec::new(alloc);
    for (i, rule) in rules.iter().enumerate() {
        let id = RuleId(i as u16);
        if rule.finds_one(names, barred, needed, id) {
            moves.push(Move {
                id,
                step: tags.step(rule),
                weight: rule.weight,
            })?;
        }
    }
    Ok(moves)
}

impl Move {
    /// The row that the rule leads to from a row.
    pub fn after(&self, row: &TableRow) -> TableRow
        requires class { row.now.cost.class + self.now.weight.class < 2 ^ 64 }
        requires minor { row.now.cost.minor + self.now.weight.minor < 2 ^ 64 }
        ensures { result ≡ after row.now self.now }
    {
        TableRow {
            set: row.set.union(self.step.targets),
            cost: row.cost.plus(self.weight),
        }
    }
}
