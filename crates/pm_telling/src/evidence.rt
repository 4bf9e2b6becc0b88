// Evidence by which rules are barred.

ghost use Rattle.pm_script.specs.Replies.{seen, tells_evidence};
ghost use Rattle.pm_telling.specs.Telling.{by_evidence, evidence_of, has_that_label, names_told};
ghost use Rattle.std.specs.Prelude.{IfOk, ◌≡◌};

use crate::names::names_told;
use pm_object::{Excluded, Object, Why, copy_exclusion};
use pm_rules::{Book, Rule};
use pm_script::Reply;
use pm_types::RuleId;
use std::alloc::{AllocError, Global};

// Whether a rule was excluded by evidence.
fn is_by_evidence(why: &Why) -> bool
    ensures { result ≡ by_evidence why.now }
{
    !matches!(why, Why::False(_))
}

// Whether the rule of the number has the label.
fn has_that_label(rules: &[Rule], label: &str, id: RuleId) -> bool
    ensures { result ≡ has_that_label rules.now label.now id }
{
    match rules.get(usize::from(id.0)) {
        Some(rule) => rule.label.as_bytes() == label.as_bytes(),
        None => false,
    }
}

// The exclusions by evidence of rules of the label.
fn evidence_of(
    alloc: Global,
    rules: &[Rule],
    excluded: &[Excluded],
    label: &str,
) -> Result<Vec<Excluded>, AllocError>
    ensures { IfOk result (λ v. v.items ≡ evidence_of rules.now label.now excluded.now) }
{
    let mut shown = Vec::new(alloc);
    for e in excluded {
        if is_by_evidence(&e.why) && has_that_label(rules, label, e.rule) {
            shown.push(copy_exclusion(alloc, e)?)?;
        }
    }
    Ok(shown)
}

/// The exclusions by evidence of rules of the label, at the object and at its programs.
pub fn tell_evidence(
    alloc: Global,
    object: &Object,
    book: &Book,
    label: &str,
) -> Result<Reply, AllocError>
    ensures { IfOk result (λ r. seen r
        ≡ tells_evidence (evidence_of book.now label.now object.now.state.excluded)
        (names_told book.now object.now.state)) }
{
    Ok(Reply::Evidence {
        excluded: evidence_of(alloc, book.rules(), object.excluded(), label)?,
        names: names_told(alloc, book.rules(), object)?,
    })
}
