// The lines of plans and refusals, as they are printed.

ghost use Rattle.std.specs.Prelude.{◌≡◌, ◌++◌, OnOk, string_bytes};
ghost use Rattle.pm_weights.specs.Weights.{cost_text};
ghost use Rattle.pm_rules.specs.Rules.{rule_at};
ghost use Rattle.pm_printed.specs.Texts.{barred_line, half_text, head_line, label_in, row_line, rule_line, set_text, weight_in};
ghost use Rattle.pm_printed.specs.Readings.{seen};

use pm_props::PropSet;
use pm_rules::{Cost, Rule, RuleId, TableRow};
use std::alloc::AllocError;
use std::fmt::Write;

/// A barred rule, and why it is barred as it is told.
#[derive(Drop)]
pub(crate) struct Told {
    pub rule: RuleId,
    pub why: String,
}

// Writes a number as 16 hexadecimal digits.
fn push_half(text: &mut String, half: u64) -> Result<(), AllocError>
    ensures { OnOk result (string_bytes text.new ≡ string_bytes text.old ++ half_text half) }
{
    write!(text, "{half:016x}")
}

// Writes a set of properties as 32 hexadecimal digits.
fn push_set(text: &mut String, set: PropSet) -> Result<(), AllocError>
    ensures { OnOk result (string_bytes text.new ≡ string_bytes text.old ++ set_text set) }
{
    let bits = set.bits();
    push_half(text, (bits >> 64) as u64)?;
    push_half(text, bits as u64)
}

/// Writes the line of a row.
pub(crate) fn push_row_line(text: &mut String, row: &TableRow) -> Result<(), AllocError>
    ensures { OnOk result (string_bytes text.new ≡ string_bytes text.old ++ row_line row.now) }
{
    let cost = row.cost;
    write!(text, "row {cost} ")?;
    push_set(text, row.set)
}

// Writes the label of a rule.
fn push_label(text: &mut String, rules: &[Rule], id: RuleId) -> Result<(), AllocError>
    ensures { OnOk result (string_bytes text.new
        ≡ string_bytes text.old ++ label_in (rule_at rules.now id)) }
{
    match rules.get(usize::from(id.0)) {
        Some(rule) => text.push_str(rule.label.as_str()),
        None => Ok(()),
    }
}

// Writes the weight of a rule.
fn push_weight(text: &mut String, rules: &[Rule], id: RuleId) -> Result<(), AllocError>
    ensures { OnOk result (string_bytes text.new
        ≡ string_bytes text.old ++ weight_in (rule_at rules.now id)) }
{
    match rules.get(usize::from(id.0)) {
        Some(rule) => {
            let weight = rule.weight;
            write!(text, "{weight}")
        }
        None => Ok(()),
    }
}

/// Writes the line of a rule of a chain.
pub(crate) fn push_rule_line(
    text: &mut String,
    rules: &[Rule],
    id: RuleId,
) -> Result<(), AllocError>
    ensures { OnOk result (string_bytes text.new ≡ string_bytes text.old ++ rule_line rules.now id) }
{
    text.push_str("rule ")?;
    push_label(text, rules, id)?;
    text.push_str(" ")?;
    push_weight(text, rules, id)
}

/// Writes the line of a barred rule.
pub(crate) fn push_barred_line(
    text: &mut String,
    rules: &[Rule],
    told: &Told,
) -> Result<(), AllocError>
    ensures { OnOk result (string_bytes text.new
        ≡ string_bytes text.old ++ barred_line rules.now (seen told.now)) }
{
    text.push_str("barred ")?;
    push_label(text, rules, told.rule)?;
    text.push_str(" ")?;
    text.push_str(told.why.as_str())
}

/// Writes the head of a plan.
pub(crate) fn push_head_line(text: &mut String, weight: Cost) -> Result<(), AllocError>
    ensures { OnOk result (string_bytes text.new ≡ string_bytes text.old ++ head_line weight) }
{
    write!(text, "plan {weight}")
}
