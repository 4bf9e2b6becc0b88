// The verdict on a printed text, for what words ask of it.

ghost use Rattle.std.specs.Prelude.{◌≡◌, ◌≤◌, ◌⊎◌, List, IfOk, IfSome, None, Some, IsErrOf, length, filter, map, string_bytes};
ghost use Rattle.std.specs.Option.{option_map};
ghost use Rattle.pm_limits.specs.Limits.{most_printed_bytes, most_rules};
ghost use Rattle.pm_props.specs.Properties.{every_property, is_in_use};
ghost use Rattle.pm_props.specs.Sets.{set_of};
ghost use Rattle.pm_rules.specs.declared.rule.Rule.{Rule};
ghost use Rattle.pm_store.specs.Outside.{Rose};
ghost use Rattle.pm_check.specs.Books.{IsBookNamed};
ghost use Rattle.pm_check.specs.Ends.{AnswersPlan, IsRefusedBook, IsSourceFault};
ghost use Rattle.pm_check.specs.Questions.{all_labelled, is_yes, names_in_use, question_of, seen_question, verdict_text, Tells};
ghost use Rattle.pm_check.specs.Seen.{seen_plan};

use crate::book::chosen_book;
use crate::status::NoAnswer;
use crate::words::{PlanWords, set_named};
use pm_limits::MOST_PRINTED_BYTES;
use pm_object_type::ObjectType;
use pm_printed::{Question, Verdict, check, rule_labelled};
use pm_props::{PropId, PropSet};
use pm_rules::{Book, Rule, RuleId};
use pm_store::{ReadFail, Source, Store, read_up_to};
use std::alloc::{AllocError, Global};
use std::fmt::Write;

// Those of the properties that are in use.
fn among(sub: Option<u8>, of: ObjectType, list: &[PropId]) -> PropSet
    ensures { result ≡ set_of (filter (is_in_use sub of) list.now) }
{
    let mut names = PropSet::empty();
    for p in list {
        if p.is_in_use(sub, of) {
            names = names.with(*p);
        }
    }
    names
}

// The names in use for an object of a type, or for a linear program of one.
fn names_in_use(of: ObjectType, program: bool) -> PropSet
    ensures { result ≡ names_in_use of program }
{
    if program {
        among(Some(0), of, &PropId::every())
    } else {
        among(None, of, &PropId::every())
    }
}

// The rules of these labels; none where the book lacks one.
fn rules_labelled(
    alloc: Global,
    rules: &[Rule],
    labels: &[String],
) -> Result<Option<Vec<RuleId>>, AllocError>
    requires { length rules.now ≤ most_rules }
    ensures { IfOk result (λ r. option_map (λ v. v.items) r
        ≡ all_labelled rules.now (map string_bytes labels.now)) }
{
    let mut found = Vec::new(alloc);
    for label in labels {
        let Some(id) = rule_labelled(rules, label.as_str()) else {
            return Ok(None);
        };
        found.push(id)?;
    }
    Ok(Some(found))
}

// The question that the words ask; none where a word names no property or no rule.
fn question(
    alloc: Global,
    rules: &[Rule],
    words: &PlanWords,
) -> Result<Option<Question>, AllocError>
    requires { length rules.now ≤ most_rules }
    ensures { IfOk result (λ r. option_map seen_question r ≡ question_of rules.now (seen_plan words.now)) }
{
    let Some(held) = set_named(words.held) else {
        return Ok(None);
    };
    let Some(asked) = set_named(words.asked) else {
        return Ok(None);
    };
    let Some(barred) = rules_labelled(alloc, rules, words.barred)? else {
        return Ok(None);
    };
    Ok(Some(Question {
        names: names_in_use(words.of, words.program),
        held,
        asked,
        barred,
    }))
}

// The line that tells the verdict.
fn verdict_line(alloc: Global, verdict: Verdict) -> Result<String, AllocError>
    ensures { IfOk result (λ line. string_bytes line ≡ verdict_text verdict) }
{
    let mut text = String::new(alloc);
    match verdict {
        Verdict::Least(weight) => write!(text, "least {weight}\n")?,
        Verdict::NoChain => text.push_str("no chain\n")?,
        Verdict::Fault(line) => write!(text, "no {line}\n")?,
        Verdict::Unread(line) => write!(text, "no {line}\n")?,
    }
    Ok(text)
}

// Whether the verdict proves something.
fn is_yes(verdict: Verdict) -> bool
    ensures { result ≡ is_yes verdict }
{
    match verdict {
        Verdict::Least(_) | Verdict::NoChain => true,
        Verdict::Fault(_) | Verdict::Unread(_) => false,
    }
}

// The line that tells the verdict on the bytes for this question, and whether it is a yes.
fn judged(
    alloc: Global,
    book: &Book,
    q: &Question,
    bytes: &[u8],
) -> Result<(String, bool), AllocError>
    ensures { IfOk result (λ a. Tells book.now q.now bytes.now (string_bytes a.0) a.1) }
{
    let verdict = check(alloc, book, q, bytes)?;
    Ok((verdict_line(alloc, verdict)?, is_yes(verdict)))
}

// The bytes of the source, if they are not too many.
fn read_text<S: Source>(alloc: Global, source: &mut S) -> Result<Vec<u8>, NoAnswer>
    ensures all { IfOk result (λ v. IfSome (S.left source.old) (λ all. v.items ≡ all)) }
    ensures short { IfOk result (λ v. length v.items ≤ most_printed_bytes) }
    ensures no_words { IsErrOf result NoAnswer.BadWords → ⊥ }
    ensures no_book { IsErrOf result NoAnswer.BadBook → ⊥ }
    ensures source_fault { IsErrOf result NoAnswer.SourceFault
        → IsSourceFault (S.faults source.old) (S.faults source.new) (S.left source.old) }
{
    match read_up_to(alloc, source, MOST_PRINTED_BYTES) {
        Ok(bytes) => Ok(bytes),
        Err(ReadFail::Fault) => Err(NoAnswer::SourceFault),
        Err(ReadFail::TooLong) => Err(NoAnswer::SourceFault),
        Err(ReadFail::Memory) => Err(NoAnswer::Memory),
    }
}

/// The answer to `check-plan`: its line, and whether it is a yes. The book is read first, and nothing of the source
/// where there is no book or no question.
pub(crate) fn plan_answer<S: Source, F: Store>(
    alloc: Global,
    words: &PlanWords,
    source: &mut S,
    store: &mut F,
) -> Result<(String, bool), NoAnswer>
    ensures found { IfOk result (λ a.
        AnswersPlan (seen_plan words.now) (S.left source.old) (F.files store.old) (string_bytes a.0) a.1) }
    ensures bad_words { IsErrOf result NoAnswer.BadWords → (rules : List Rule)
        × IsBookNamed (seen_plan words.now).book (F.files store.old) rules
        × (question_of rules (seen_plan words.now) ≡ None) }
    ensures bad_book { IsErrOf result NoAnswer.BadBook
        → Rose (F.faults store.old) (F.faults store.new)
        ⊎ IfSome (F.files store.old) (IsRefusedBook (seen_plan words.now).book) }
    ensures source_fault { IsErrOf result NoAnswer.SourceFault
        → IsSourceFault (S.faults source.old) (S.faults source.new) (S.left source.old) }
{
    let book = match chosen_book(alloc, words.book, store) {
        Ok(book) => book,
        Err(why) => return Err(why),
    };
    let Some(q) = question(alloc, book.rules(), words)? else {
        return Err(NoAnswer::BadWords);
    };
    let bytes = match read_text(alloc, source) {
        Ok(bytes) => bytes,
        Err(why) => return Err(why),
    };
    Ok(judged(alloc, &book, &q, &bytes)?)
}
