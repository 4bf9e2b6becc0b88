// Books read from texts.

ghost use Rattle.std.specs.Prelude.{◌≡◌, ◌-◌, true, IfOk, Ok, List, map, length, find, IsTrue, ◌+◌};
ghost use Rattle.std.specs.List.{list_any};
ghost use Rattle.std.specs.Str.{bytes_eq};
ghost use Rattle.pm_rules.specs.Words.{is_label};
ghost use Rattle.pm_rules.specs.Books.{IsBook};
ghost use Rattle.pm_books.specs.Seen.{seen, seen_rest, conditions_seen};
ghost use Rattle.pm_books.specs.SeenParts.{head_seen, body_seen, tail_seen};
ghost use Rattle.pm_books.specs.Grammar.{IsBookText};
ghost use Rattle.pm_books.specs.Gives.{IsReadingOf, GivesAs};
ghost use Rattle.pm_rules.specs.declared.rule.Rule.{Rule};
ghost use Rattle.pm_books.specs.Reading.{◌>>=◌ as read_on, after, names_from, label_from, kind_from, weight_from, close_from, head_from, body_from, preconditions_from, tail_from, begins_with, agrees, mismatch, rule_from, rules_from, book_of};
ghost use Rattle.pm_limits.specs.Limits.{most_rules};

use crate::fail::BookFail;
use crate::lex::tokens;
use crate::parts::{Conditions, after, all_conditions, names};
use crate::token::Token;
use crate::word::{is_number, weight};
use pm_limits::MOST_RULES;
use pm_props::{ClientName, Kind, PropSet};
use pm_rules::{Book, Rule, is_label, is_word};
use pm_weights::Weight;
use std::alloc::Global;

// A label that no rule had, where there is room for one more.
#[tactic(auto, unfolding(crate::specs::Reading::token_where, crate::specs::Reading::label_from))]
fn label_from<'t, 'a>(
    had: &[Rule],
    end: usize,
    tokens: &'t [Token<'a>],
) -> Result<(ClientName, &'t [Token<'a>]), BookFail>
    ensures { IsReadingOf (λ x. (x.0, seen_rest x.1)) result (label_from had.now end (map seen tokens.now)) }
{
    let Some((first, rest)) = tokens.split_first() else {
        return Err(BookFail::Syntax(end));
    };
    if !is_label(first.text) {
        return Err(BookFail::Syntax(first.place));
    }
    if has_label(had, first.text) {
        return Err(BookFail::SameLabel(first.place));
    }
    if had.len() >= MOST_RULES {
        return Err(BookFail::TooManyRules(first.place));
    }
    Ok((label_name(first.text), rest))
}

// Whether one of the rules has the label.
fn has_label(had: &[Rule], label: &[u8]) -> bool
    ensures { result ≡ list_any (λ rule. bytes_eq rule.label label.now) had.now }
{
    had.iter().any(|rule| rule.label.as_bytes() == label)
}

// A label as a name.
fn label_name(text: &[u8]) -> ClientName
    requires { IsTrue (is_label text.now) }
    ensures { result ≡ text.now }
{
    ClientName::of_bytes(text).unwrap()
}

// The first kind of the client's name.
#[tactic(auto, unfolding(crate::specs::Reading::token_where, crate::specs::Reading::kind_from))]
fn kind_from<'t, 'a>(
    kinds: &[Kind],
    end: usize,
    tokens: &'t [Token<'a>],
) -> Result<(Kind, &'t [Token<'a>]), BookFail>
    ensures { IsReadingOf (λ x. (x.0, seen_rest x.1)) result (kind_from kinds.now end (map seen tokens.now)) }
{
    let Some((first, rest)) = tokens.split_first() else {
        return Err(BookFail::Syntax(end));
    };
    if !is_word(first.text) {
        return Err(BookFail::Syntax(first.place));
    }
    match kind_named(kinds, first.text) {
        None => Err(BookFail::UnknownClient(first.place)),
        Some(kind) => Ok((kind, rest)),
    }
}

// The first kind with this name.
fn kind_named(kinds: &[Kind], name: &[u8]) -> Option<Kind>
    ensures { result ≡ find (λ kind. bytes_eq kind.name name.now) kinds.now }
{
    kinds
        .iter()
        .copied()
        .find(|kind| kind.name.as_bytes() == name)
}

// A weight that a rule may have.
#[tactic(auto, unfolding(crate::specs::Reading::token_where, crate::specs::Reading::weight_from))]
fn weight_from<'t, 'a>(
    end: usize,
    tokens: &'t [Token<'a>],
) -> Result<(Weight, &'t [Token<'a>]), BookFail>
    ensures { IsReadingOf (λ x. (x.0, seen_rest x.1)) result (weight_from end (map seen tokens.now)) }
{
    let Some((first, rest)) = tokens.split_first() else {
        return Err(BookFail::Syntax(end));
    };
    if !is_number(first.text) {
        return Err(BookFail::Syntax(first.place));
    }
    match weight(first.text) {
        None => Err(BookFail::WeightRange(first.place)),
        Some(weight) => Ok((weight, rest)),
    }
}

// `;`, and the place behind it.
#[tactic(auto, unfolding(crate::specs::Reading::token_where, crate::specs::Reading::close_from))]
fn close_from<'t, 'a>(
    end: usize,
    tokens: &'t [Token<'a>],
) -> Result<(usize, &'t [Token<'a>]), BookFail>
    ensures { IsReadingOf (λ x. (x.0, seen_rest x.1)) result (close_from end (map seen tokens.now)) }
{
    let Some((first, rest)) = tokens.split_first() else {
        return Err(BookFail::Syntax(end));
    };
    if first.text == ";".as_bytes() {
        Ok((first.place + 1, rest))
    } else {
        Err(BookFail::Syntax(first.place))
    }
}

// `LABEL : rule names : names`, and what comes behind it.
#[derive(Clone, Copy)]
pub struct Head<'t, 'a> {
    pub label: ClientName,
    pub targets: PropSet,
    pub sources: PropSet,
    pub rest: &'t [Token<'a>],
}

// `{ CLIENT } weight WEIGHT`, and what comes behind it.
#[derive(Clone, Copy)]
pub struct Body<'t, 'a> {
    pub kind: Kind,
    pub weight: Weight,
    pub rest: &'t [Token<'a>],
}

// The rest of a rule: its preconditions, the place behind its last `;`, and what comes there.
#[derive(Clone, Copy)]
pub struct Tail<'t, 'a> {
    pub conditions: Conditions,
    pub past: usize,
    pub rest: &'t [Token<'a>],
}

// What comes behind two tokens with these texts.
fn after_both<'t, 'a>(
    first: &[u8],
    second: &[u8],
    end: usize,
    tokens: &'t [Token<'a>],
) -> Result<&'t [Token<'a>], BookFail>
    ensures { IsReadingOf seen_rest result
        (read_on (after first.now end (map seen tokens.now)) (after second.now end)) }
{
    let behind = after(first, end, tokens)?;
    after(second, end, behind)
}

// Names, behind a token with this text.
fn names_behind<'t, 'a>(
    text: &[u8],
    end: usize,
    tokens: &'t [Token<'a>],
) -> Result<(PropSet, &'t [Token<'a>]), BookFail>
    ensures { IsReadingOf (λ x. (x.0, seen_rest x.1)) result
        (read_on (after text.now end (map seen tokens.now)) (names_from true 0 end)) }
{
    let behind = after(text, end, tokens)?;
    names(end, behind)
}

#[tactic(auto, unfolding(crate::specs::Reading::head_from))]
fn head_from<'t, 'a>(
    had: &[Rule],
    end: usize,
    tokens: &'t [Token<'a>],
) -> Result<Head<'t, 'a>, BookFail>
    ensures { IsReadingOf head_seen result (head_from had.now end (map seen tokens.now)) }
{
    let (label, behind) = match label_from(had, end, tokens) {
        Ok(found) => found,
        Err(fail) => return Err(fail),
    };
    let begun = after(b":", end, behind)?;
    let (targets, behind) = match names_behind(b"rule", end, begun) {
        Ok(found) => found,
        Err(fail) => return Err(fail),
    };
    let (sources, rest) = match names_behind(b":", end, behind) {
        Ok(found) => found,
        Err(fail) => return Err(fail),
    };
    Ok(Head {
        label,
        targets,
        sources,
        rest,
    })
}

#[tactic(auto, unfolding(crate::specs::Reading::body_from))]
fn body_from<'t, 'a>(
    kinds: &[Kind],
    end: usize,
    tokens: &'t [Token<'a>],
) -> Result<Body<'t, 'a>, BookFail>
    ensures { IsReadingOf body_seen result (body_from kinds.now end (map seen tokens.now)) }
{
    let opened = after(b"{", end, tokens)?;
    let (kind, behind) = match kind_from(kinds, end, opened) {
        Ok(found) => found,
        Err(fail) => return Err(fail),
    };
    let weighed = after_both(b"}", b"weight", end, behind)?;
    let (weight, rest) = match weight_from(end, weighed) {
        Ok(found) => found,
        Err(fail) => return Err(fail),
    };
    Ok(Body { kind, weight, rest })
}

// Whether the next token has this text.
fn begins_with(text: &[u8], tokens: &[Token]) -> bool
    ensures { result ≡ begins_with text.now (map seen tokens.now) }
{
    match tokens.split_first() {
        None => false,
        Some((first, _)) => first.text == text,
    }
}

#[tactic(auto, unfolding(crate::specs::Reading::preconditions_from))]
fn preconditions_from<'t, 'a>(end: usize, tokens: &'t [Token<'a>]) -> Result<Tail<'t, 'a>, BookFail>
    ensures { IsReadingOf tail_seen result (preconditions_from end (map seen tokens.now)) }
{
    let listed = after_both(b"precondition", b":", end, tokens)?;
    let (conditions, behind) = match all_conditions(end, listed) {
        Ok(found) => found,
        Err(fail) => return Err(fail),
    };
    let (past, rest) = match close_from(end, behind) {
        Ok(found) => found,
        Err(fail) => return Err(fail),
    };
    Ok(Tail {
        conditions,
        past,
        rest,
    })
}

#[tactic(auto, unfolding(crate::specs::Reading::tail_from))]
fn tail_from<'t, 'a>(end: usize, tokens: &'t [Token<'a>]) -> Result<Tail<'t, 'a>, BookFail>
    ensures { IsReadingOf tail_seen result (tail_from end (map seen tokens.now)) }
{
    let (past, rest) = match close_from(end, tokens) {
        Ok(found) => found,
        Err(fail) => return Err(fail),
    };
    if begins_with(b"precondition", rest) {
        preconditions_from(end, rest)
    } else {
        Ok(Tail {
            conditions: Conditions {
                must: PropSet::empty(),
                must_not: PropSet::empty(),
            },
            past,
            rest,
        })
    }
}

// Whether targets and sources are those of the kind, and its preconditions are there.
fn agrees(kind: &Kind, head: &Head, conditions: &Conditions) -> bool
    ensures { result ≡ agrees kind.now (head_seen head.now) (conditions_seen conditions.now) }
{
    head.targets == kind.targets
        && head.sources == kind.sources
        && kind.must.is_subset(conditions.must)
        && kind.must_not.is_subset(conditions.must_not)
}

// The fault behind a rule that does not agree with its kind.
fn mismatch(tail: &Tail) -> BookFail
    ensures { result ≡ mismatch tail.now.past (map seen tail.now.rest.now) }
{
    match tail.rest.split_first() {
        None => BookFail::SignatureMismatch(tail.past),
        Some((first, _)) => {
            if first.place == tail.past && !is_label(first.text) {
                BookFail::Syntax(tail.past)
            } else {
                BookFail::SignatureMismatch(tail.past)
            }
        }
    }
}

#[tactic(auto, unfolding(crate::specs::Reading::rule_from))]
fn rule_from<'t, 'a>(
    kinds: &[Kind],
    had: &[Rule],
    end: usize,
    tokens: &'t [Token<'a>],
) -> Result<(Rule, &'t [Token<'a>]), BookFail>
    ensures { IsReadingOf (λ x. (x.0, seen_rest x.1)) result
        (rule_from kinds.now had.now end (map seen tokens.now)) }
{
    let head = match head_from(had, end, tokens) {
        Ok(found) => found,
        Err(fail) => return Err(fail),
    };
    let body = match body_from(kinds, end, head.rest) {
        Ok(found) => found,
        Err(fail) => return Err(fail),
    };
    let tail = match tail_from(end, body.rest) {
        Ok(found) => found,
        Err(fail) => return Err(fail),
    };
    if !agrees(&body.kind, &head, &tail.conditions) {
        return Err(mismatch(&tail));
    }
    let rule = Rule {
        label: head.label,
        kind: body.kind,
        weight: body.weight,
        must: tail.conditions.must,
        must_not: tail.conditions.must_not,
    };
    Ok((rule, tail.rest))
}

/// The book that a text spells, with the first kind of each client's name; or the text's first fault.
pub fn read_book(alloc: Global, text: &str, kinds: &[Kind]) -> Result<Book, BookFail>
    // What is read is spelled by the grammar, and what the grammar spells is read, unless memory runs out.
    ensures found { IfOk result (λ b. IsBookText kinds.now text.now b) }
    ensures only { (rules : List Rule) → IsBookText kinds.now text.now rules
        → GivesAs (λ b. b) result (Ok rules) }
    // Which fault it is.
    ensures exact { GivesAs (λ b. b) result (book_of kinds.now text.now) }
{
    read_all(alloc, text, kinds)
}

fn read_all(alloc: Global, text: &str, kinds: &[Kind]) -> Result<Book, BookFail>
    ensures { GivesAs (λ b. b) result (book_of kinds.now text.now) }
{
    let bytes = text.as_bytes();
    let list = tokens(alloc, bytes)?;
    let rules = more_rules(Vec::new(alloc), kinds, bytes.len(), list.as_slice())?;
    Ok(Book::of_rules(rules))
}

// The rules had, and those that are left. At most 256 rules are read, so there are at most as many calls and one more.
fn more_rules(
    rules: Vec<Rule>,
    kinds: &[Kind],
    end: usize,
    tokens: &[Token],
) -> Result<Vec<Rule>, BookFail>
    requires { IsBook rules.items }
    ensures value { GivesAs (λ v. v.items) result
        (rules_from ((most_rules + 1) - length rules.items) kinds.now rules.items end
        (map seen tokens.now)) }
    ensures book { IfOk result (λ v. IsBook v.items) }
{
    if tokens.is_empty() {
        return Ok(rules);
    }
    let (rule, behind) = match rule_from(kinds, rules.as_slice(), end, tokens) {
        Ok(found) => found,
        Err(fail) => return Err(fail),
    };
    let mut longer = rules;
    longer.push(rule)?;
    more_rules(longer, kinds, end, behind)
}
