// The words of a call.

ghost use Rattle.std.specs.Prelude.{◌≡◌, ◌<◌, ◌≤◌, IfSome, Option, None, Some, List, [], codes, length, map, position, string_bytes, ℕ};
ghost use Rattle.std.specs.Option.{option_map};
ghost use Rattle.std.specs.Str.{bytes_eq};
ghost use Rattle.pm_check.specs.Words.{asked_and_barred, asked_by, book_words, cut, named, named_plan, plan_words, type_named, typed_plan, with_asked, with_book, with_type};
ghost use Rattle.pm_check.specs.Words.Asked.{of_book, of_plan};
ghost use Rattle.pm_check.specs.Seen.{seen_asking, seen_plan};

use pm_object_type::ObjectType;
use pm_props::{PropId, PropSet};

/// The words of `check-plan`, behind that word.
#[derive(Clone, Copy)]
pub(crate) struct PlanWords<'a> {
    /// Whether the reply is of a linear program.
    pub program: bool,
    /// The name of the book, if it is not the standard one.
    pub book: Option<&'a str>,
    /// What the object is.
    pub of: ObjectType,
    /// The names of the properties that are held.
    pub held: &'a [String],
    /// The names of the asked properties.
    pub asked: &'a [String],
    /// The labels of the barred rules.
    pub barred: &'a [String],
}

/// What words ask.
#[derive(Clone, Copy)]
pub(crate) enum Asking<'a> {
    /// A verdict on a printed plan.
    Plan(PlanWords<'a>),
    /// What is wrong with the book of this name.
    Book(&'a str),
}

// The place of the first word that is this mark.
fn place_of(words: &[String], mark: &str) -> Option<usize>
    ensures place { result ≡ position (λ word. bytes_eq (string_bytes word) mark.now) words.now }
    ensures within { IfSome result (λ i. i < length words.now) }
{
    words.iter().position(|word| word.as_str() == mark)
}

// The words before the first that is this mark, and those behind it.
fn cut<'a>(words: &'a [String], mark: &str) -> Option<(&'a [String], &'a [String])>
    ensures { option_map (λ both. (map string_bytes both.0.now, map string_bytes both.1.now)) result
        ≡ cut mark.now (map string_bytes words.now) }
{
    match place_of(words, mark) {
        Some(place) => Some((&words[..place], &words[place + 1..])),
        None => None,
    }
}

// The asked names and the barred labels.
fn asked_and_barred<'a>(words: &'a [String]) -> (&'a [String], &'a [String])
    ensures { (map string_bytes result.0.now, map string_bytes result.1.now)
        ≡ asked_and_barred (map string_bytes words.now) }
{
    match cut(words, "!") {
        Some(both) => both,
        None => words.split_at(words.len()),
    }
}

// The type that a word names.
fn type_named(word: &str) -> Option<ObjectType>
    ensures { result ≡ type_named word.now }
{
    if word == "Polytope" {
        Some(ObjectType::Polytope)
    } else if word == "Cone" {
        Some(ObjectType::Cone)
    } else if word == "Fan" {
        Some(ObjectType::Fan)
    } else {
        None
    }
}

// What is said behind the colon, of which one name at least is asked.
fn with_asked<'a>(
    program: bool,
    book: Option<&'a str>,
    of: ObjectType,
    held: &'a [String],
    rest: &'a [String],
) -> Option<PlanWords<'a>>
    ensures { option_map seen_plan result ≡ with_asked program (option_map (λ name. name.now) book.entry) of
        (map string_bytes held.now)
        (asked_and_barred (map string_bytes rest.now)) }
{
    let (asked, barred) = asked_and_barred(rest);
    if asked.is_empty() {
        return None;
    }
    Some(PlanWords {
        program,
        book,
        of,
        held,
        asked,
        barred,
    })
}

// What is said behind the type.
fn with_type<'a>(
    program: bool,
    book: Option<&'a str>,
    of: ObjectType,
    words: &'a [String],
) -> Option<PlanWords<'a>>
    ensures { option_map seen_plan result ≡ with_type program (option_map (λ name. name.now) book.entry) of
        (map string_bytes words.now) }
{
    match cut(words, ":") {
        Some((held, rest)) => with_asked(program, book, of, held, rest),
        None => None,
    }
}

// What the words say behind the name of a book.
fn typed_plan<'a>(
    program: bool,
    book: Option<&'a str>,
    words: &'a [String],
) -> Option<PlanWords<'a>>
    ensures { option_map seen_plan result ≡ typed_plan program (option_map (λ name. name.now) book.entry)
        (map string_bytes words.now) }
{
    let (first, rest) = words.split_first()?;
    let of = type_named(first.as_str())?;
    with_type(program, book, of, rest)
}

// The same behind the name of a book.
fn with_book<'a>(program: bool, words: &'a [String]) -> Option<PlanWords<'a>>
    ensures { option_map seen_plan result ≡ with_book program (map string_bytes words.now) }
{
    let (name, rest) = words.split_first()?;
    typed_plan(program, Some(name.as_str()), rest)
}

// The same behind `--program`.
fn named_plan<'a>(program: bool, words: &'a [String]) -> Option<PlanWords<'a>>
    ensures { option_map seen_plan result ≡ named_plan program (map string_bytes words.now) }
{
    let (first, rest) = words.split_first()?;
    if first.as_str() == "--rules" {
        with_book(program, rest)
    } else {
        typed_plan(program, None, words)
    }
}

// What the words of `check-plan` say; none where they are wrong.
fn plan_words<'a>(words: &'a [String]) -> Option<PlanWords<'a>>
    ensures { option_map seen_plan result ≡ plan_words (map string_bytes words.now) }
{
    let (first, rest) = words.split_first()?;
    if first.as_str() == "--program" {
        named_plan(true, rest)
    } else {
        named_plan(false, words)
    }
}

// The name of a book, where there is no other word.
fn book_words<'a>(words: &'a [String]) -> Option<&'a str>
    ensures { option_map (λ name. name.now) result ≡ book_words (map string_bytes words.now) }
{
    let (name, rest) = words.split_first()?;
    if rest.is_empty() {
        Some(name.as_str())
    } else {
        None
    }
}

// `check-plan` and its words.
fn of_plan<'a>(words: &'a [String]) -> Option<Asking<'a>>
    ensures { option_map seen_asking result ≡ option_map of_plan (plan_words (map string_bytes words.now)) }
{
    match plan_words(words) {
        Some(said) => Some(Asking::Plan(said)),
        None => None,
    }
}

// `check-book` and its word.
fn of_book<'a>(words: &'a [String]) -> Option<Asking<'a>>
    ensures { option_map seen_asking result ≡ option_map of_book (book_words (map string_bytes words.now)) }
{
    match book_words(words) {
        Some(name) => Some(Asking::Book(name)),
        None => None,
    }
}

/// What the words ask; none where they are none of the program.
pub(crate) fn read_words<'a>(words: &'a [String]) -> Option<Asking<'a>>
    ensures { option_map seen_asking result ≡ asked_by (map string_bytes words.now) }
{
    let (first, rest) = words.split_first()?;
    if first.as_str() == "check-plan" {
        of_plan(rest)
    } else if first.as_str() == "check-book" {
        of_book(rest)
    } else {
        None
    }
}

/// The set of the properties that the words name; none where one names no property.
pub(crate) fn set_named(words: &[String]) -> Option<PropSet>
    ensures { result ≡ named (map string_bytes words.now) }
{
    let mut set = PropSet::empty();
    for word in words {
        set = set.with(PropId::named(word.as_str())?);
    }
    Some(set)
}
