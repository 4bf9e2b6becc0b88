// The verdict on a printed text.

ghost use Rattle.std.specs.Prelude.{◌≡◌, ◌≤◌, ◌↔◌, IfOk, IsTrue, length, map};
ghost use Rattle.pm_limits.specs.Limits.{most_rules};
ghost use Rattle.pm_printed.specs.Judging.{HeadStands, Judges, JudgesPlan, JudgesRefusal, all_barred};
ghost use Rattle.pm_printed.specs.Readings.{seen};

use crate::chain::{followed, has_weight, reached};
use crate::print::Told;
use crate::question::Question;
use crate::read::{Reading, read};
use pm_cert::{has_start, standing_rows};
use pm_rules::{Book, Claim, Cost, Rule, RuleId, TableRow};
use std::alloc::{AllocError, Global};

/// What a printed text proves.
#[derive(Clone, Copy, PartialEq, Eq)]
pub enum Verdict {
    /// The printed chain is least, and weighs so much.
    Least(Cost),
    /// There is no chain.
    NoChain,
    /// Nothing: this line is the first that does not stand, counted from 1.
    Fault(usize),
    /// Nothing: this line is not read, counted from 1.
    Unread(usize),
}

// Whether the weight is that of the chain, the chain ends where it is to, and the table has its start.
fn head_stands(
    rules: &[Rule],
    q: &Question,
    weight: Cost,
    chain: &[RuleId],
    rows: &[TableRow],
) -> bool
    ensures { IsTrue result ↔ HeadStands rules.now q.now weight chain.now rows.now }
{
    has_weight(rules, chain, weight)
        && q.asked.is_subset(reached(rules, q.held, chain))
        && has_start(rows, q.held, Claim::Least(weight))
}

// What a plan proves.
fn judge_plan(
    rules: &[Rule],
    q: &Question,
    weight: Cost,
    chain: &[RuleId],
    rows: &[TableRow],
) -> Verdict
    requires { length rules.now ≤ most_rules }
    ensures { JudgesPlan rules.now q.now weight chain.now rows.now result }
{
    if !head_stands(rules, q, weight, chain, rows) {
        return Verdict::Fault(1);
    }
    let enabled = followed(rules, q.names, &q.barred, q.held, chain);
    if enabled < chain.len() {
        return Verdict::Fault(2 + enabled);
    }
    let standing = standing_rows(
        rules,
        q.names,
        &q.barred,
        q.asked,
        rows,
        Claim::Least(weight),
    );
    if standing < rows.len() {
        return Verdict::Fault(2 + chain.len() + standing);
    }
    Verdict::Least(weight)
}

// The rules that are barred, by the question and by the text.
fn all_barred(alloc: Global, q: &Question, told: &[Told]) -> Result<Vec<RuleId>, AllocError>
    ensures { IfOk result (λ v. v.items ≡ all_barred q.now (map seen told.now)) }
{
    let mut barred = Vec::new(alloc);
    barred.extend_from_slice(&q.barred)?;
    for one in told {
        barred.push(one.rule)?;
    }
    Ok(barred)
}

// What a refusal proves.
fn judge_refusal(
    alloc: Global,
    rules: &[Rule],
    q: &Question,
    told: &[Told],
    rows: &[TableRow],
) -> Result<Verdict, AllocError>
    requires { length rules.now ≤ most_rules }
    ensures { IfOk result (JudgesRefusal rules.now q.now (map seen told.now) rows.now) }
{
    if !has_start(rows, q.held, Claim::NoChain) {
        return Ok(Verdict::Fault(1));
    }
    let barred = all_barred(alloc, q, told)?;
    let standing = standing_rows(rules, q.names, &barred, q.asked, rows, Claim::NoChain);
    if standing < rows.len() {
        return Ok(Verdict::Fault(2 + told.len() + standing));
    }
    Ok(Verdict::NoChain)
}

/// What the text proves by the rules of the book.
pub fn check(alloc: Global, book: &Book, q: &Question, text: &[u8]) -> Result<Verdict, AllocError>
    ensures { IfOk result (Judges book.now q.now text.now) }
{
    let rules = book.rules();
    match read(alloc, rules, text)? {
        Reading::Plan {
            weight,
            chain,
            rows,
        } => Ok(judge_plan(rules, q, weight, &chain, &rows)),
        Reading::NoChain { told, rows } => judge_refusal(alloc, rules, q, &told, &rows),
        Reading::Unread(line) => Ok(Verdict::Unread(line)),
    }
}
