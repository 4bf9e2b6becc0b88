// Books printed as texts.

ghost use Rattle.std.specs.Prelude.{◌≡◌, ◌++◌, ◌∷◌, [], List, IfOk, OnOk, string_bytes, map};
ghost use Rattle.std.specs.List.{flat_map};
ghost use Rattle.pm_props.specs.Properties.{first_name};
ghost use Rattle.pm_props.specs.Sets.{members};
ghost use Rattle.pm_props.specs.declared.kind.Kind.{Kind};
ghost use Rattle.pm_rules.specs.Books.{FirstKinds};
ghost use Rattle.pm_rules.specs.Rules.{conditions};
ghost use Rattle.pm_books.specs.Grammar.{IsBookText, behind_comma, separated, name_item, condition_item, precondition_words};
ghost use Rattle.pm_books.specs.Writing.{is_tight, spaced_word, spaced, condition_of_rule, line_of, text_of};

use pm_props::{PropId, PropSet};
use pm_rules::{Book, Rule};
use std::alloc::{AllocError, Global};

/// The book as a text: one rule a line, names by the order of their numbers, one space between tokens and none before
/// `,` and `;`.
pub fn book_text(alloc: Global, book: &Book) -> Result<String, AllocError>
    ensures text { IfOk result (λ s. string_bytes s ≡ text_of book.now) }
    // It spells this very book, with any kinds of which that of each rule is the first of its name.
    ensures back { (kinds : List Kind) → FirstKinds kinds book.now
        → IfOk result (λ s. IsBookText kinds (string_bytes s) book.now) }
{
    printed(alloc, book.rules())
}

// The rules as a text.
fn printed(alloc: Global, rules: &[Rule]) -> Result<String, AllocError>
    ensures { IfOk result (λ s. string_bytes s ≡ text_of rules.now) }
{
    let mut text = String::new(alloc);
    for rule in rules {
        push_line(alloc, &mut text, rule)?;
    }
    Ok(text)
}

// One rule's line.
fn push_line(alloc: Global, text: &mut String, rule: &Rule) -> Result<(), AllocError>
    ensures { OnOk result (string_bytes text.new ≡ string_bytes text.old ++ line_of rule.now) }
{
    text.push_str(rule.label.as_str())?;
    push_words(text, &[":", "rule"])?;
    push_names(alloc, text, rule.kind.targets)?;
    push_words(text, &[":"])?;
    push_names(alloc, text, rule.kind.sources)?;
    let weight = rule.weight.to_string(alloc)?;
    push_words(
        text,
        &[
            "{",
            rule.kind.name.as_str(),
            "}",
            "weight",
            weight.as_str(),
            ";",
        ],
    )?;
    push_conditions(alloc, text, rule)?;
    text.push_str("\n")?;
    Ok(())
}

// A word, behind a space unless it is a comma or a semicolon.
#[tactic(auto, unfolding(crate::specs::Writing::spaced_word))]
fn push_word(text: &mut String, word: &str) -> Result<(), AllocError>
    ensures { OnOk result (string_bytes text.new ≡ string_bytes text.old ++ spaced_word word.now) }
{
    if !is_tight(word) {
        text.push_str(" ")?;
    }
    text.push_str(word)
}

// Whether no space stands before the word.
fn is_tight(word: &str) -> bool
    ensures { result ≡ is_tight word.now }
{
    word == "," || word == ";"
}

// Words, one after the other.
fn push_words(text: &mut String, words: &[&str]) -> Result<(), AllocError>
    ensures { OnOk result (string_bytes text.new
        ≡ string_bytes text.old ++ spaced (map (λ w. w.now) words.now)) }
{
    for word in words {
        push_word(text, word)?;
    }
    Ok(())
}

// The first names of the properties of a set, with commas between them.
fn push_names(alloc: Global, text: &mut String, set: PropSet) -> Result<(), AllocError>
    ensures { OnOk result (string_bytes text.new
        ≡ string_bytes text.old ++ spaced (separated (map name_item (map first_name (members set))))) }
{
    let list = set.to_list(alloc)?;
    if let Some((first, others)) = list.as_slice().split_first() {
        push_word(text, first.row().first_name)?;
        push_more_names(text, others)?;
    }
    Ok(())
}

// Names, each behind a comma.
fn push_more_names(text: &mut String, names: &[PropId]) -> Result<(), AllocError>
    ensures { OnOk result (string_bytes text.new
        ≡ string_bytes text.old ++ spaced (flat_map behind_comma
        (map name_item (map first_name names.now)))) }
{
    for p in names {
        push_words(text, &[",", p.row().first_name])?;
    }
    Ok(())
}

// The preconditions of a rule, if there are any.
fn push_conditions(alloc: Global, text: &mut String, rule: &Rule) -> Result<(), AllocError>
    ensures { OnOk result (string_bytes text.new ≡ string_bytes text.old
        ++ spaced (precondition_words (map (condition_of_rule rule.now) (members (conditions rule.now))))) }
{
    let list = rule.conditions().to_list(alloc)?;
    push_condition_list(text, rule, list.as_slice())
}

// Preconditions on these properties, if there are any.
fn push_condition_list(text: &mut String, rule: &Rule, list: &[PropId]) -> Result<(), AllocError>
    ensures { OnOk result (string_bytes text.new ≡ string_bytes text.old
        ++ spaced (precondition_words (map (condition_of_rule rule.now) list.now))) }
{
    let Some((first, others)) = list.split_first() else {
        return Ok(());
    };
    push_words(text, &["precondition", ":"])?;
    push_condition(text, rule, *first)?;
    push_more_conditions(text, rule, others)?;
    push_words(text, &[";"])
}

// One precondition.
fn push_condition(text: &mut String, rule: &Rule, p: PropId) -> Result<(), AllocError>
    ensures { OnOk result (string_bytes text.new
        ≡ string_bytes text.old ++ spaced (condition_item (condition_of_rule rule.now p))) }
{
    if rule.must_not.contains(p) {
        push_words(text, &["!", p.row().first_name])
    } else {
        push_words(text, &[p.row().first_name])
    }
}

// Preconditions, each behind a comma.
fn push_more_conditions(text: &mut String, rule: &Rule, list: &[PropId]) -> Result<(), AllocError>
    ensures { OnOk result (string_bytes text.new ≡ string_bytes text.old
        ++ spaced (flat_map behind_comma (map condition_item (map (condition_of_rule rule.now) list.now)))) }
{
    for p in list {
        push_words(text, &[","])?;
        push_condition(text, rule, *p)?;
    }
    Ok(())
}
