//! The checker of plans: whether a table proves what it claims. It takes no memory and knows nothing of the planner.
#![tactic(auto)]

mod halving;

ghost use Rattle.std.specs.Prelude.{◌≡◌, ◌≤◌, ◌<◌, ◌↔◌, ℕ, IsTrue, Some, length, All, AllPairs, Contains, slice_get};
ghost use Rattle.pm_props.specs.Sets.{IsSubset};
ghost use Rattle.pm_weights.specs.Weights.{no_cost, plus, IsAtMost};
ghost use Rattle.pm_rules.specs.Rules.{rule_at};
ghost use Rattle.pm_rules.specs.Steps.{IsOpen, step_of};
ghost use Rattle.pm_rules.specs.Useful.{FindsOne};
ghost use Rattle.pm_rules.specs.Certificates.{Within, EndsClaim, HasRow, IsTableRowBefore, IsCertificate};
ghost use Rattle.pm_rules.specs.declared.table.TableRow.{TableRow};
ghost use Rattle.pm_cert.specs.Claims.{IsTrueClaim, GoesOn, StandsIn, UpTo};
ghost use Rattle.pm_limits.specs.Limits.{most_rules};

use crate::halving::{are_in_order, has_row_in_order, is_at_most_sum};
use pm_rules::{Book, Claim, Cost, PropSet, Rule, RuleId, Step, Table, TableRow, Weight, needed};

/// Whether the table is a certificate for the claim. If so, the claim holds of all chains, also of those with rules
/// that are not useful.
pub fn verify(
    b: &Book,
    names: PropSet,
    held: PropSet,
    barred: &[RuleId],
    asked: PropSet,
    t: &Table,
    c: Claim,
) -> bool
    ensures exact { IsTrue result ↔ IsCertificate b.now names barred.now held asked c t.now.rows.items }
    ensures claim { IsTrue result → IsTrueClaim b.now names barred.now held asked c }
{
    verify_by_rules(b.rules(), names, held, barred, asked, t.rows.as_slice(), c)
}

/// The same of the rows of a table and of rules that need not be those of a book: their labels play no part in chains.
pub fn verify_by_rules(
    rules: &[Rule],
    names: PropSet,
    held: PropSet,
    barred: &[RuleId],
    asked: PropSet,
    rows: &[TableRow],
    c: Claim,
) -> bool
    requires { length rules.now ≤ most_rules }
    ensures exact { IsTrue result ↔ IsCertificate rules.now names barred.now held asked c rows.now }
    ensures claim { IsTrue result → IsTrueClaim rules.now names barred.now held asked c }
{
    let needed = needed(rules, names, barred, asked);
    let in_order = are_in_order(rows);
    begins_and_ends(rows, held, asked, c)
        && is_closed(rules, names, barred, needed, rows, in_order, c)
}

/// How many rows stand before the first that does not.
pub fn standing_rows(
    rules: &[Rule],
    names: PropSet,
    barred: &[RuleId],
    asked: PropSet,
    rows: &[TableRow],
    c: Claim,
) -> usize
    requires { length rules.now ≤ most_rules }
    ensures within { result ≤ length rows.now }
    ensures stand { UpTo result (StandsIn rules.now names barred.now asked rows.now c) rows.now }
    ensures first { (row : TableRow) → slice_get rows.now result ≡ Some row
        → StandsIn rules.now names barred.now asked rows.now c row → ⊥ }
{
    let needed = needed(rules, names, barred, asked);
    let in_order = are_in_order(rows);
    let mut standing = ending_nowhere(rows, asked, c);
    for (k, rule) in rules.iter().enumerate() {
        if rule.finds_one(names, barred, needed, RuleId(k as u16)) {
            standing = going_on(rows, standing, in_order, c, &rule.step(), rule.weight);
        }
    }
    standing
}

// How many rows come before the first within the claim that holds all asked names.
fn ending_nowhere(rows: &[TableRow], asked: PropSet, c: Claim) -> usize
    ensures within { result ≤ length rows.now }
    ensures each { UpTo result (λ row. Within c row.cost → IsSubset asked row.set → ⊥) rows.now }
    ensures first { (row : TableRow) → slice_get rows.now result ≡ Some row
        → Within c row.cost × IsSubset asked row.set }
{
    for i in 0..rows.len() {
        if is_within(c, rows[i].cost) && asked.is_subset(rows[i].set) {
            return i;
        }
    }
    rows.len()
}

// How many of the first so many rows come before the first from which a step of this weight leads nowhere.
fn going_on(
    rows: &[TableRow],
    most: usize,
    in_order: bool,
    c: Claim,
    step: &Step,
    weight: Weight,
) -> usize
    requires some { most ≤ length rows.now }
    requires order { IsTrue in_order → AllPairs IsTableRowBefore rows.now }
    ensures within { result ≤ most }
    ensures each { UpTo result (GoesOn rows.now c step.now weight) rows.now }
    ensures first { (row : TableRow) → result < most → slice_get rows.now result ≡ Some row
        → GoesOn rows.now c step.now weight row → ⊥ }
{
    for i in 0..most {
        if !goes_on(rows, in_order, c, step, weight, rows[i]) {
            return i;
        }
    }
    most
}

// Whether a row with this cost has to be looked at.
fn is_within(c: Claim, cost: Cost) -> bool
    ensures { IsTrue result ↔ Within c cost }
{
    match c {
        Claim::Least(least) => cost.is_below(least),
        Claim::NoChain => true,
    }
}

// Whether the table has its start, and no row within the claim that holds all asked names.
fn begins_and_ends(rows: &[TableRow], held: PropSet, asked: PropSet, c: Claim) -> bool
    ensures { IsTrue result ↔ ((Within c no_cost → Contains rows.now (record { set = held; cost = no_cost }))
        × All (λ row. Within c row.cost → IsSubset asked row.set → ⊥) rows.now) }
{
    has_start(rows, held, c) && ends_nowhere(rows, asked, c)
}

/// Whether the table has a row for the names held at the start, if it needs one.
pub fn has_start(rows: &[TableRow], held: PropSet, c: Claim) -> bool
    ensures { IsTrue result
        ↔ (Within c no_cost → Contains rows.now (record { set = held; cost = no_cost })) }
{
    let start = TableRow {
        set: held,
        cost: Cost::none(),
    };
    !is_within(c, start.cost) || rows.contains(&start)
}

// Whether no row within the claim holds all asked names.
fn ends_nowhere(rows: &[TableRow], asked: PropSet, c: Claim) -> bool
    ensures { IsTrue result ↔ All (λ row. Within c row.cost → IsSubset asked row.set → ⊥) rows.now }
{
    rows.iter().all(|row| !(is_within(c, row.cost) && asked.is_subset(row.set)))
}

// Whether the rules that find a needed name lead from each row within the claim on to a row, or out of the claim.
fn is_closed(
    rules: &[Rule],
    names: PropSet,
    barred: &[RuleId],
    needed: PropSet,
    rows: &[TableRow],
    in_order: bool,
    c: Claim,
) -> bool
    requires few { length rules.now ≤ most_rules }
    requires order { IsTrue in_order → AllPairs IsTableRowBefore rows.now }
    ensures { IsTrue result ↔ ((id : RuleId) (rule : Rule) → rule_at rules.now id ≡ Some rule
        → FindsOne names barred.now needed id rule
        → All (GoesOn rows.now c (step_of rule) rule.weight) rows.now) }
{
    for (i, rule) in rules.iter().enumerate() {
        if rule.finds_one(names, barred, needed, RuleId(i as u16))
            && !all_go_on(rows, in_order, c, &rule.step(), rule.weight)
        {
            return false;
        }
    }
    true
}

// Whether a step of this weight leads from each row on, where it can be made.
fn all_go_on(rows: &[TableRow], in_order: bool, c: Claim, step: &Step, weight: Weight) -> bool
    requires { IsTrue in_order → AllPairs IsTableRowBefore rows.now }
    ensures { IsTrue result ↔ All (GoesOn rows.now c step.now weight) rows.now }
{
    for row in rows {
        if !goes_on(rows, in_order, c, step, weight, *row) {
            return false;
        }
    }
    true
}

// The same, from one row.
fn goes_on(
    rows: &[TableRow],
    in_order: bool,
    c: Claim,
    step: &Step,
    weight: Weight,
    row: TableRow,
) -> bool
    requires { IsTrue in_order → AllPairs IsTableRowBefore rows.now }
    ensures { IsTrue result ↔ GoesOn rows.now c step.now weight row }
{
    let TableRow { set, cost } = row;
    let next = set.union(step.targets);
    if leads_on(c, step, row) {
        ends_claim(c, cost, weight) || has_row(rows, in_order, next, cost, weight)
    } else {
        true
    }
}

// Whether the row is within the claim and the step can be made from it.
fn leads_on(c: Claim, step: &Step, row: TableRow) -> bool
    ensures { IsTrue result ↔ (Within c row.cost × IsOpen step.now row.set) }
{
    is_within(c, row.cost) && step.is_open(row.set)
}

// Whether the cost with the weight is not within the claim.
fn ends_claim(c: Claim, cost: Cost, weight: Weight) -> bool
    ensures { IsTrue result ↔ EndsClaim c (plus cost weight) }
{
    match c {
        Claim::Least(least) => is_at_most_sum(least, cost, weight),
        Claim::NoChain => false,
    }
}

// Whether a row with this set costs at most the cost with the weight.
fn has_row(rows: &[TableRow], in_order: bool, set: PropSet, cost: Cost, weight: Weight) -> bool
    requires { IsTrue in_order → AllPairs IsTableRowBefore rows.now }
    ensures { IsTrue result ↔ HasRow rows.now set (plus cost weight) }
{
    if in_order {
        has_row_in_order(rows, set, cost, weight)
    } else {
        has_row_in_any_order(rows, set, cost, weight)
    }
}

// The same, row by row.
fn has_row_in_any_order(rows: &[TableRow], set: PropSet, cost: Cost, weight: Weight) -> bool
    ensures { IsTrue result ↔ HasRow rows.now set (plus cost weight) }
{
    rows.iter().any(|row| row.set == set && is_at_most_sum(row.cost, cost, weight))
}
