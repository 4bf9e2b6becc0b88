// What a line is printed of.

ghost use Rattle.std.specs.Prelude.{◌≡◌, ◌≤◌, ◌<◌, ◌++◌, ◌∷◌, ◌^◌, List, ℕ, IfOk, IfNone, IfSome, Some, IsTrue, MatchOption, length};
ghost use Rattle.std.specs.Option.{option_map};
ghost use Rattle.pm_rules.specs.Books.{IsBook};
ghost use Rattle.pm_rules.specs.Rules.{rule_at};
ghost use Rattle.pm_rules.specs.declared.rule.Rule.{Rule};
ghost use Rattle.pm_rules.specs.declared.table.TableRow.{TableRow};
ghost use Rattle.pm_weights.specs.declared.Cost.{Cost};
ghost use Rattle.pm_props.specs.Properties.{count};
ghost use Rattle.pm_props.specs.declared.kind.RuleId.{RuleId};
ghost use Rattle.pm_limits.specs.Limits.{most_rules};
ghost use Rattle.pm_printed.specs.Cuts.{Lacks};
ghost use Rattle.pm_printed.specs.Printed.{IsBarred, IsCost, IsOfBook, IsRow, is_plain};
ghost use Rattle.pm_printed.specs.Readings.{seen};
ghost use Rattle.pm_printed.specs.Texts.{barred_line, head_line, label_in, row_line, rule_line};

use crate::cut::{cut_word, cut_words};
use crate::label::rule_labelled;
use crate::number::{cost_of, set_of};
use crate::print::{Told, push_barred_line, push_head_line, push_row_line, push_rule_line};
use pm_props::PropSet;
use pm_rules::{Cost, Rule, RuleId, TableRow};
use std::alloc::{AllocError, Global};
use std::str;

// The weight that a line spells behind its first word.
fn spelled_weight(line: &str) -> Option<Cost>
    ensures back { (c : Cost) → IsCost c → line.now ≡ head_line c → result ≡ Some c }
    ensures fits { IfSome result IsCost }
{
    match cut_word(line) {
        Some((_, rest)) => cost_of(rest),
        None => None,
    }
}

// The row of this set at this cost.
fn row_from(cost: Option<Cost>, set: Option<PropSet>) -> Option<TableRow>
    requires cost { IfSome cost IsCost }
    requires set { IfSome set (λ s. s < 2 ^ count) }
    ensures back { (row : TableRow) → cost ≡ Some row.cost → set ≡ Some row.set → result ≡ Some row }
    ensures fits { IfSome result IsRow }
{
    match (cost, set) {
        (Some(cost), Some(set)) => Some(TableRow { set, cost }),
        _ => None,
    }
}

// The row that a line spells behind its first word.
fn spelled_row(line: &str) -> Option<TableRow>
    ensures back { (row : TableRow) → IsRow row → line.now ≡ row_line row → result ≡ Some row }
    ensures fits { IfSome result IsRow }
{
    match cut_words(line) {
        Some((cost, set)) => row_from(cost_of(cost), set_of(set)),
        None => None,
    }
}

// The rule whose label a line has as its second word, and what is behind it.
fn spelled_rule<'a>(rules: &[Rule], line: &'a str) -> Option<(RuleId, &'a str)>
    requires { IsBook rules.now }
    ensures back { (word rest : List ℕ) (id : RuleId) → Lacks 32 word → IsOfBook rules.now id
        → line.now ≡ word ++ 32 ∷ (label_in (rule_at rules.now id) ++ 32 ∷ rest) → MatchOption result ⊥ (λ x.
        (x.0 ≡ id) × (x.1.now ≡ rest)) }
    ensures fits { IfSome result (λ x. IsOfBook rules.now x.0) }
{
    match cut_words(line) {
        Some((label, behind)) => match rule_labelled(rules, label) {
            Some(id) => Some((id, behind)),
            None => None,
        },
        None => None,
    }
}

// The rule that a line spells behind its first word.
fn spelled_of_rule(rules: &[Rule], line: &str) -> Option<RuleId>
    requires { IsBook rules.now }
    ensures back { (id : RuleId) → IsOfBook rules.now id → line.now ≡ rule_line rules.now id
        → result ≡ Some id }
    ensures fits { IfSome result (IsOfBook rules.now) }
{
    match spelled_rule(rules, line) {
        Some((id, _)) => Some(id),
        None => None,
    }
}

// Whether the text has letters, digits, signs and spaces of ASCII alone.
fn is_plain(text: &str) -> bool
    ensures { result ≡ is_plain text.now }
{
    text.as_bytes().iter().all(|b| 32 <= *b && *b <= 126)
}

// The barred rule and the reason that a line spells behind its first word.
fn spelled_barred(alloc: Global, rules: &[Rule], line: &str) -> Result<Option<Told>, AllocError>
    requires { IsBook rules.now }
    ensures back { IfOk result (λ r. (x : RuleId × List ℕ) → IsBarred rules.now x
        → line.now ≡ barred_line rules.now x → option_map seen r ≡ Some x) }
    ensures fits { IfOk result (λ r. IfSome r (λ t. IsBarred rules.now (seen t))) }
{
    let Some((rule, why)) = spelled_rule(rules, line) else {
        return Ok(None);
    };
    if is_plain(why) {
        let why = String::from_str(alloc, why)?;
        Ok(Some(Told { rule, why }))
    } else {
        Ok(None)
    }
}

/// The weight whose head the line is.
pub(crate) fn head_of(alloc: Global, line: &[u8]) -> Result<Option<Cost>, AllocError>
    ensures some { IfOk result (λ r. IfSome r (λ c. IsCost c × (line.now ≡ head_line c))) }
    ensures none { IfOk result (λ r. IfNone r ((c : Cost) → IsCost c → line.now ≡ head_line c → ⊥)) }
{
    let Ok(text) = str::from_utf8(line) else {
        return Ok(None);
    };
    let Some(weight) = spelled_weight(text) else {
        return Ok(None);
    };
    let mut again = String::new(alloc);
    push_head_line(&mut again, weight)?;
    if again.as_str() == text {
        Ok(Some(weight))
    } else {
        Ok(None)
    }
}

/// The row whose line it is.
pub(crate) fn row_of(alloc: Global, line: &[u8]) -> Result<Option<TableRow>, AllocError>
    ensures some { IfOk result (λ r. IfSome r (λ row. IsRow row × (line.now ≡ row_line row))) }
    ensures none { IfOk result (λ r. IfNone r ((row : TableRow) → IsRow row → line.now ≡ row_line row → ⊥)) }
{
    let Ok(text) = str::from_utf8(line) else {
        return Ok(None);
    };
    let Some(row) = spelled_row(text) else {
        return Ok(None);
    };
    let mut again = String::new(alloc);
    push_row_line(&mut again, &row)?;
    if again.as_str() == text {
        Ok(Some(row))
    } else {
        Ok(None)
    }
}

/// The rule whose line it is.
pub(crate) fn rule_of(
    alloc: Global,
    rules: &[Rule],
    line: &[u8],
) -> Result<Option<RuleId>, AllocError>
    requires { IsBook rules.now }
    ensures some { IfOk result (λ r.
        IfSome r (λ id. IsOfBook rules.now id × (line.now ≡ rule_line rules.now id))) }
    ensures none { IfOk result (λ r. IfNone r ((id : RuleId) → IsOfBook rules.now id
        → line.now ≡ rule_line rules.now id → ⊥)) }
{
    let Ok(text) = str::from_utf8(line) else {
        return Ok(None);
    };
    let Some(id) = spelled_of_rule(rules, text) else {
        return Ok(None);
    };
    let mut again = String::new(alloc);
    push_rule_line(&mut again, rules, id)?;
    if again.as_str() == text {
        Ok(Some(id))
    } else {
        Ok(None)
    }
}

/// The barred rule and its reason whose line it is.
pub(crate) fn barred_of(
    alloc: Global,
    rules: &[Rule],
    line: &[u8],
) -> Result<Option<Told>, AllocError>
    requires { IsBook rules.now }
    ensures some { IfOk result (λ r.
        IfSome r (λ x. IsBarred rules.now (seen x) × (line.now ≡ barred_line rules.now (seen x)))) }
    ensures none { IfOk result (λ r. IfNone r ((x : RuleId × List ℕ) → IsBarred rules.now x
        → line.now ≡ barred_line rules.now x → ⊥)) }
{
    let Ok(text) = str::from_utf8(line) else {
        return Ok(None);
    };
    let Some(told) = spelled_barred(alloc, rules, text)? else {
        return Ok(None);
    };
    let mut again = String::new(alloc);
    push_barred_line(&mut again, rules, &told)?;
    if again.as_str() == text {
        Ok(Some(told))
    } else {
        Ok(None)
    }
}
