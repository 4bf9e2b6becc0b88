// The lines of replies that tell of rounds, exclusions, plans and barred rules.

ghost use Rattle.pm_object.specs.Views.{round_seen};
ghost use Rattle.pm_props.specs.Properties.{first_name};
ghost use Rattle.pm_weights.specs.Weights.{cost_text};
ghost use Rattle.pm_script.specs.Replies.{bar_text, barred_text, end_text, excluded_text, exclusion_text, failed_text, false_text, half_text, label_text, names_seen, place_text, property_set_text, round_text, rule_text, spaced_label, table_row_text, weight_text_of};
ghost use Rattle.std.specs.Prelude.{OnOk, codes, drop, flat_map, map, string_bytes, ◌++◌, ◌<◌, ◌^◌, ◌≡◌};

use crate::names::{Bar, Names};
use pm_object::{Excluded, Round, RoundEnd, Why};
use pm_rules::TableRow;
use pm_types::{PropId, PropSet, RuleId};
use std::alloc::AllocError;
use std::fmt::Write;

// Writes the label of a rule.
pub fn push_label(text: &mut String, names: &Names, id: RuleId) -> Result<(), AllocError>
    ensures { OnOk result (string_bytes text.new
        ≡ string_bytes text.old ++ label_text (names_seen names.now) id) }
{
    match names.rules.get(usize::from(id.0)) {
        Some((label, _)) => text.push_str(label.as_str()),
        None => Ok(()),
    }
}

// Writes the weight of a rule.
fn push_weight(text: &mut String, names: &Names, id: RuleId) -> Result<(), AllocError>
    ensures { OnOk result (string_bytes text.new
        ≡ string_bytes text.old ++ weight_text_of (names_seen names.now) id) }
{
    match names.rules.get(usize::from(id.0)) {
        Some((_, weight)) => write!(text, "{weight}"),
        None => Ok(()),
    }
}

// Writes the labels of a chain, each after a space.
fn push_labels(text: &mut String, names: &Names, chain: &[RuleId]) -> Result<(), AllocError>
    ensures { OnOk result (string_bytes text.new
        ≡ string_bytes text.old ++ flat_map (spaced_label (names_seen names.now)) chain.now) }
{
    for id in chain {
        text.push_str(" ")?;
        push_label(text, names, *id)?;
    }
    Ok(())
}

// Writes the name of the program that is meant, if one is.
pub fn push_place(text: &mut String, names: &Names, place: Option<u8>) -> Result<(), AllocError>
    ensures { OnOk result (string_bytes text.new
        ≡ string_bytes text.old ++ place_text (names_seen names.now) place) }
{
    let Some(k) = place else {
        return Ok(());
    };
    text.push_str(" @")?;
    match names.subs.get(usize::from(k)) {
        Some(name) => text.push_str(name.as_str()),
        None => Ok(()),
    }
}

// Writes that a client failed, with the number of its evidence.
fn push_failed(text: &mut String, number: u8) -> Result<(), AllocError>
    ensures { OnOk result (string_bytes text.new ≡ string_bytes text.old ++ failed_text number) }
{
    write!(text, "failed E{number}")
}

// Writes that a precondition is held with the wrong value.
pub fn push_false(text: &mut String, p: PropId) -> Result<(), AllocError>
    ensures { OnOk result (string_bytes text.new ≡ string_bytes text.old ++ false_text p) }
{
    text.push_str("false ")?;
    text.push_str(p.row().first_name)
}

// Writes how a round ended.
fn push_end(text: &mut String, names: &Names, end: RoundEnd) -> Result<(), AllocError>
    ensures { OnOk result (string_bytes text.new
        ≡ string_bytes text.old ++ end_text (names_seen names.now) end) }
{
    match end {
        RoundEnd::Done => text.push_str("done"),
        RoundEnd::Failed(id, number) => {
            text.push_str("failed ")?;
            push_label(text, names, id)?;
            write!(text, " E{number}")
        }
        RoundEnd::False(id, p) => {
            text.push_str("false ")?;
            push_label(text, names, id)?;
            text.push_str(" ")?;
            text.push_str(p.row().first_name)
        }
    }
}

// Writes the line of a round.
fn push_round(text: &mut String, names: &Names, round: &Round) -> Result<(), AllocError>
    ensures { OnOk result (string_bytes text.new
        ≡ string_bytes text.old ++ round_text (names_seen names.now) (round_seen round.now)) }
{
    let weight = round.weight;
    write!(text, "round {weight}")?;
    push_place(text, names, round.sub)?;
    text.push_str(":")?;
    push_labels(text, names, &round.chain)?;
    text.push_str(" -> ")?;
    push_end(text, names, round.end)?;
    text.push_str("\n")
}

/// Writes the lines of rounds.
pub fn push_rounds(text: &mut String, names: &Names, rounds: &[Round]) -> Result<(), AllocError>
    ensures { OnOk result (string_bytes text.new ≡ string_bytes text.old
        ++ flat_map (round_text (names_seen names.now)) (map round_seen rounds.now)) }
{
    for round in rounds {
        push_round(text, names, round)?;
    }
    Ok(())
}

// Writes why a rule was excluded.
fn push_why(text: &mut String, why: &Why) -> Result<(), AllocError>
    ensures { OnOk result (string_bytes text.new ≡ string_bytes text.old ++ exclusion_text why.now) }
{
    match why {
        Why::Failed(evidence) => push_failed(text, evidence.number()),
        Why::False(p) => push_false(text, *p),
        Why::Stored(k) => push_failed(text, *k),
    }
}

// Writes the line of an exclusion.
fn push_excluded(text: &mut String, names: &Names, e: &Excluded) -> Result<(), AllocError>
    ensures { OnOk result (string_bytes text.new
        ≡ string_bytes text.old ++ excluded_text (names_seen names.now) e.now) }
{
    text.push_str("excluded ")?;
    push_label(text, names, e.rule)?;
    text.push_str(" ")?;
    push_why(text, &e.why)?;
    push_place(text, names, e.sub)?;
    text.push_str("\n")
}

/// Writes the lines of exclusions.
pub fn push_exclusions(
    text: &mut String,
    names: &Names,
    excluded: &[Excluded],
) -> Result<(), AllocError>
    ensures { OnOk result (string_bytes text.new ≡ string_bytes text.old
        ++ flat_map (excluded_text (names_seen names.now)) excluded.now) }
{
    for e in excluded {
        push_excluded(text, names, e)?;
    }
    Ok(())
}

// Writes why a rule is barred.
fn push_bar(text: &mut String, bar: Bar) -> Result<(), AllocError>
    ensures { OnOk result (string_bytes text.new ≡ string_bytes text.old ++ bar_text bar) }
{
    match bar {
        Bar::Failed(number) => push_failed(text, number),
        Bar::False(p) => push_false(text, p),
        Bar::Disabled => text.push_str("disabled"),
        Bar::NoClient => text.push_str("no-client"),
    }
}

// Writes the line of a barred rule.
fn push_barred_rule(
    text: &mut String,
    names: &Names,
    id: RuleId,
    bar: Bar,
) -> Result<(), AllocError>
    ensures { OnOk result (string_bytes text.new
        ≡ string_bytes text.old ++ barred_text (names_seen names.now) (id, bar)) }
{
    text.push_str("barred ")?;
    push_label(text, names, id)?;
    text.push_str(" ")?;
    push_bar(text, bar)?;
    text.push_str("\n")
}

/// Writes the lines of barred rules.
pub fn push_barred(
    text: &mut String,
    names: &Names,
    barred: &[(RuleId, Bar)],
) -> Result<(), AllocError>
    ensures { OnOk result (string_bytes text.new ≡ string_bytes text.old
        ++ flat_map (barred_text (names_seen names.now)) barred.now) }
{
    for (id, bar) in barred {
        push_barred_rule(text, names, *id, *bar)?;
    }
    Ok(())
}

// Writes a number as 16 hexadecimal digits.
fn push_half(text: &mut String, half: u64) -> Result<(), AllocError>
    ensures { OnOk result (string_bytes text.new ≡ string_bytes text.old ++ half_text half) }
{
    write!(text, "{half:016x}")
}

// Writes a set of properties as 32 hexadecimal digits.
fn push_set(text: &mut String, set: PropSet) -> Result<(), AllocError>
    ensures { OnOk result (string_bytes text.new
        ≡ string_bytes text.old ++ property_set_text set) }
{
    let bits = set.bits();
    push_half(text, (bits >> 64) as u64)?;
    push_half(text, bits as u64)
}

// Writes the line of a row of a table.
fn push_row(text: &mut String, row: &TableRow) -> Result<(), AllocError>
    ensures { OnOk result (string_bytes text.new ≡ string_bytes text.old ++ table_row_text row.now) }
{
    let cost = row.cost;
    write!(text, "row {cost} ")?;
    push_set(text, row.set)?;
    text.push_str("\n")
}

/// Writes the lines of a table.
pub fn push_rows(text: &mut String, rows: &[TableRow]) -> Result<(), AllocError>
    ensures { OnOk result (string_bytes text.new
        ≡ string_bytes text.old ++ flat_map table_row_text rows.now) }
{
    for row in rows {
        push_row(text, row)?;
    }
    Ok(())
}

// Writes the line of a rule of a chain.
fn push_rule(text: &mut String, names: &Names, id: RuleId) -> Result<(), AllocError>
    ensures { OnOk result (string_bytes text.new
        ≡ string_bytes text.old ++ rule_text (names_seen names.now) id) }
{
    text.push_str("rule ")?;
    push_label(text, names, id)?;
    text.push_str(" ")?;
    push_weight(text, names, id)?;
    text.push_str("\n")
}

/// Writes the lines of the rules of a chain.
pub fn push_rules_of(text: &mut String, names: &Names, chain: &[RuleId]) -> Result<(), AllocError>
    ensures { OnOk result (string_bytes text.new
        ≡ string_bytes text.old ++ flat_map (rule_text (names_seen names.now)) chain.now) }
{
    for id in chain {
        push_rule(text, names, *id)?;
    }
    Ok(())
}
