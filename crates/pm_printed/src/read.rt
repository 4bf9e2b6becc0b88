// Printed texts, read back line by line. What a line may say is printed again, and read only where that is the line.

ghost use Rattle.std.specs.Prelude.{◌≡◌, ◌≤◌, ◌<◌, ◌∷◌, ◌++◌, ◌^◌, IfOk, IfNone, IfSome, MatchOption, length, map};
ghost use Rattle.pm_rules.specs.Books.{IsBook};
ghost use Rattle.pm_printed.specs.Printed.{BeginsNone, BeginsNoRefusal, IsBarred, IsCost, IsOfBook, IsPlan, IsRefusal, IsRow, IsUnread};
ghost use Rattle.pm_printed.specs.Readings.{ReadAs, ReadsAll, seen};
ghost use Rattle.pm_printed.specs.Texts.{barred_text, head_text, refused_text, row_text, rule_text};

use crate::cut::{cut_line, is_refused_line};
use crate::line::{barred_of, head_of, row_of, rule_of};
use crate::print::Told;
use pm_rules::{Cost, Rule, RuleId, TableRow};
use std::alloc::{AllocError, Global};

/// What a text is printed of, or the number of its first line that is not read.
#[derive(Drop)]
pub(crate) enum Reading {
    /// A chain with its weight and its table.
    Plan {
        weight: Cost,
        chain: Vec<RuleId>,
        rows: Vec<TableRow>,
    },
    /// The barred rules and the table.
    NoChain {
        told: Vec<Told>,
        rows: Vec<TableRow>,
    },
    /// The number of the line.
    Unread(usize),
}

// The row that the text begins with, and what is behind its line.
fn next_row<'a>(alloc: Global, text: &'a [u8]) -> Result<Option<(TableRow, &'a [u8])>, AllocError>
    ensures some { IfOk result (λ r. IfSome r (λ x. IsRow x.0 × (text.now ≡ row_text x.0 ++ x.1.now))) }
    ensures none { IfOk result (λ r. IfNone r (BeginsNone IsRow row_text text.now)) }
    ensures shorter { IfOk result (λ r. IfSome r (λ x. length x.1.now < length text.now)) }
{
    let Some((line, behind)) = cut_line(text) else {
        return Ok(None);
    };
    let Some(row) = row_of(alloc, line)? else {
        return Ok(None);
    };
    Ok(Some((row, behind)))
}

// The rows that the text begins with, and what is behind their lines.
fn rows_of<'a>(alloc: Global, text: &'a [u8]) -> Result<(Vec<TableRow>, &'a [u8]), AllocError>
    ensures { IfOk result (λ r. ReadsAll IsRow row_text text.now r.0.items r.1.now) }
{
    let mut rows = Vec::new(alloc);
    let mut rest = text;
    loop {
        match next_row(alloc, rest) {
            Ok(Some((row, behind))) => {
                rows.push(row)?;
                rest = behind;
            }
            Ok(None) => return Ok((rows, rest)),
            Err(e) => return Err(e),
        }
    }
}

// The rule that the text begins with, and what is behind its line.
fn next_rule<'a>(
    alloc: Global,
    rules: &[Rule],
    text: &'a [u8],
) -> Result<Option<(RuleId, &'a [u8])>, AllocError>
    requires { IsBook rules.now }
    ensures some { IfOk result (λ r.
        IfSome r (λ x. IsOfBook rules.now x.0 × (text.now ≡ rule_text rules.now x.0 ++ x.1.now))) }
    ensures none { IfOk result (λ r.
        IfNone r (BeginsNone (IsOfBook rules.now) (rule_text rules.now) text.now)) }
    ensures shorter { IfOk result (λ r. IfSome r (λ x. length x.1.now < length text.now)) }
{
    let Some((line, behind)) = cut_line(text) else {
        return Ok(None);
    };
    let Some(id) = rule_of(alloc, rules, line)? else {
        return Ok(None);
    };
    Ok(Some((id, behind)))
}

// The rules that the text begins with, and what is behind their lines.
fn rules_of<'a>(
    alloc: Global,
    rules: &[Rule],
    text: &'a [u8],
) -> Result<(Vec<RuleId>, &'a [u8]), AllocError>
    requires { IsBook rules.now }
    ensures { IfOk result (λ r.
        ReadsAll (IsOfBook rules.now) (rule_text rules.now) text.now r.0.items r.1.now) }
{
    let mut chain = Vec::new(alloc);
    let mut rest = text;
    loop {
        match next_rule(alloc, rules, rest) {
            Ok(Some((id, behind))) => {
                chain.push(id)?;
                rest = behind;
            }
            Ok(None) => return Ok((chain, rest)),
            Err(e) => return Err(e),
        }
    }
}

// The barred rule that the text begins with, and what is behind its line.
fn next_barred<'a>(
    alloc: Global,
    rules: &[Rule],
    text: &'a [u8],
) -> Result<Option<(Told, &'a [u8])>, AllocError>
    requires { IsBook rules.now }
    ensures some { IfOk result (λ r. IfSome r (λ x. IsBarred rules.now (seen x.0)
        × (text.now ≡ barred_text rules.now (seen x.0) ++ x.1.now))) }
    ensures none { IfOk result (λ r.
        IfNone r (BeginsNone (IsBarred rules.now) (barred_text rules.now) text.now)) }
    ensures shorter { IfOk result (λ r. IfSome r (λ x. length x.1.now < length text.now)) }
{
    let Some((line, behind)) = cut_line(text) else {
        return Ok(None);
    };
    let Some(told) = barred_of(alloc, rules, line)? else {
        return Ok(None);
    };
    Ok(Some((told, behind)))
}

// The barred rules that the text begins with, and what is behind their lines.
fn all_barred_of<'a>(
    alloc: Global,
    rules: &[Rule],
    text: &'a [u8],
) -> Result<(Vec<Told>, &'a [u8]), AllocError>
    requires { IsBook rules.now }
    ensures { IfOk result (λ r. ReadsAll (IsBarred rules.now) (barred_text rules.now) text.now
        (map seen r.0.items) r.1.now) }
{
    let mut told = Vec::new(alloc);
    let mut rest = text;
    loop {
        match next_barred(alloc, rules, rest) {
            Ok(Some((one, behind))) => {
                told.push(one)?;
                rest = behind;
            }
            Ok(None) => return Ok((told, rest)),
            Err(e) => return Err(e),
        }
    }
}

// A plan of this weight whose other lines the text has.
fn plan_of(alloc: Global, rules: &[Rule], weight: Cost, text: &[u8]) -> Result<Reading, AllocError>
    requires book { IsBook rules.now }
    requires cost { IsCost weight }
    ensures { IfOk result (ReadAs rules.now (head_text weight ++ text.now)) }
{
    let (chain, behind) = match rules_of(alloc, rules, text) {
        Ok(found) => found,
        Err(e) => return Err(e),
    };
    let (rows, rest) = match rows_of(alloc, behind) {
        Ok(found) => found,
        Err(e) => return Err(e),
    };
    if rest.is_empty() {
        Ok(Reading::Plan {
            weight,
            chain,
            rows,
        })
    } else {
        Ok(Reading::Unread(2 + chain.len() + rows.len()))
    }
}

// A refusal whose other lines the text has.
fn refusal_of(alloc: Global, rules: &[Rule], text: &[u8]) -> Result<Reading, AllocError>
    requires { IsBook rules.now }
    ensures { IfOk result (ReadAs rules.now (refused_text ++ text.now)) }
{
    let (told, behind) = match all_barred_of(alloc, rules, text) {
        Ok(found) => found,
        Err(e) => return Err(e),
    };
    let (rows, rest) = match rows_of(alloc, behind) {
        Ok(found) => found,
        Err(e) => return Err(e),
    };
    if rest.is_empty() {
        Ok(Reading::NoChain { told, rows })
    } else {
        Ok(Reading::Unread(2 + told.len() + rows.len()))
    }
}

/// What the text is printed of, or the first line that is not read.
pub(crate) fn read(alloc: Global, rules: &[Rule], text: &[u8]) -> Result<Reading, AllocError>
    requires { IsBook rules.now }
    ensures { IfOk result (ReadAs rules.now text.now) }
{
    let Some((line, behind)) = cut_line(text) else {
        return Ok(Reading::Unread(1));
    };
    if is_refused_line(line) {
        return refusal_of(alloc, rules, behind);
    }
    match head_of(alloc, line)? {
        Some(weight) => plan_of(alloc, rules, weight, behind),
        None => Ok(Reading::Unread(1)),
    }
}
