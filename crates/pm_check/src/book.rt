// Books: the one that is named, and what is wrong with one.

ghost use Rattle.std.specs.Prelude.{◌≡◌, ◌≢◌, ◌==◌, ◌↔◌, IsTrue, ◌++◌, ◌≤◌, ◌⊎◌, count_by, IfOk, IfSome, IsErrOf, OnOk, List, Some, length, string_bytes, take};
ghost use Rattle.std.specs.Option.{option_map};
ghost use Rattle.std.specs.Str.{IsUtf8};
ghost use Rattle.pm_books.specs.declared.fail.BookFail.TheVariants.{Memory as BookMemory};
ghost use Rattle.pm_limits.specs.Limits.{most_file_bytes};
ghost use Rattle.pm_store.specs.Files.{file_of};
ghost use Rattle.pm_store.specs.Outside.{Rose};
ghost use Rattle.pm_check.specs.Books.{IsBookAnswer, IsBookNamed, IsFaultAnswer, IsNoFile, IsRefusedText, IsTextOf, at_text, column_at, column_from, count_text, fault_text, line_at};
ghost use Rattle.pm_check.specs.Ends.{AnswersBook, IsRefusedBook};

use crate::status::NoAnswer;
use pm_books::{BookFail, read_book};
use pm_limits::MOST_FILE_BYTES;
use pm_rules::Book;
use pm_standard::{standard_book, standard_kinds};
use pm_store::{Store, StoreFail};
use std::alloc::{AllocError, Global};
use std::fmt::Write;
use std::str;

// The bytes of the file of this name, at most so many as a book may have.
fn book_bytes<F: Store>(alloc: Global, name: &str, store: &mut F) -> Result<Vec<u8>, NoAnswer>
    ensures found { IfOk result (λ v.
        IfSome (F.files store.old) (λ all. file_of all name.now ≡ Some v.items)) }
    ensures short { IfOk result (λ v. length v.items ≤ most_file_bytes) }
    ensures no_words { IsErrOf result NoAnswer.BadWords → ⊥ }
    ensures no_source { IsErrOf result NoAnswer.SourceFault → ⊥ }
    ensures refused { IsErrOf result NoAnswer.BadBook
        → Rose (F.faults store.old) (F.faults store.new) ⊎ IfSome (F.files store.old) (λ all.
        IsNoFile (file_of all name.now)) }
{
    match store.get(alloc, name) {
        Ok(Some(bytes)) => {
            if bytes.len() <= MOST_FILE_BYTES {
                Ok(bytes)
            } else {
                Err(NoAnswer::BadBook)
            }
        }
        Ok(None) => Err(NoAnswer::BadBook),
        Err(StoreFail::Failed) => Err(NoAnswer::BadBook),
        Err(StoreFail::Memory) => Err(NoAnswer::Memory),
    }
}

// What it is for a run that no book was read for this reason.
fn no_answer(why: BookFail) -> NoAnswer
    ensures bad { result ≡ NoAnswer.BadBook → why ≢ BookMemory }
    ensures no_words { result ≢ NoAnswer.BadWords }
    ensures no_source { result ≢ NoAnswer.SourceFault }
{
    match why {
        BookFail::Memory => NoAnswer::Memory,
        _ => NoAnswer::BadBook,
    }
}

// The book that these bytes spell.
fn book_of_bytes(alloc: Global, bytes: &[u8]) -> Result<Book, NoAnswer>
    requires { length bytes.now ≤ most_file_bytes }
    ensures found { IfOk result (IsTextOf bytes.now) }
    ensures no_words { IsErrOf result NoAnswer.BadWords → ⊥ }
    ensures no_source { IsErrOf result NoAnswer.SourceFault → ⊥ }
    ensures refused { IsErrOf result NoAnswer.BadBook → IsRefusedText bytes.now }
{
    let Ok(text) = str::from_utf8(bytes) else {
        return Err(NoAnswer::BadBook);
    };
    let kinds = standard_kinds(alloc)?;
    match read_book(alloc, text, &kinds) {
        Ok(book) => Ok(book),
        Err(why) => Err(no_answer(why)),
    }
}

// The book that the file of this name spells.
fn named_book<F: Store>(alloc: Global, name: &str, store: &mut F) -> Result<Book, NoAnswer>
    ensures found { IfOk result (IsBookNamed (Some name.now) (F.files store.old)) }
    ensures no_words { IsErrOf result NoAnswer.BadWords → ⊥ }
    ensures no_source { IsErrOf result NoAnswer.SourceFault → ⊥ }
    ensures refused { IsErrOf result NoAnswer.BadBook
        → Rose (F.faults store.old) (F.faults store.new)
        ⊎ IfSome (F.files store.old) (IsRefusedBook (Some name.now)) }
{
    match book_bytes(alloc, name, store) {
        Ok(bytes) => book_of_bytes(alloc, &bytes),
        Err(why) => Err(why),
    }
}

/// The book of this name, or the standard one where none is named.
pub(crate) fn chosen_book<F: Store>(
    alloc: Global,
    name: Option<&str>,
    store: &mut F,
) -> Result<Book, NoAnswer>
    ensures found { IfOk result (IsBookNamed (option_map (λ n. n.now) name.entry) (F.files store.old)) }
    ensures no_words { IsErrOf result NoAnswer.BadWords → ⊥ }
    ensures no_source { IsErrOf result NoAnswer.SourceFault → ⊥ }
    ensures refused { IsErrOf result NoAnswer.BadBook
        → Rose (F.faults store.old) (F.faults store.new)
        ⊎ IfSome (F.files store.old) (IsRefusedBook (option_map (λ n. n.now) name.entry)) }
{
    match name {
        Some(name) => named_book(alloc, name, store),
        None => Ok(standard_book(alloc)?),
    }
}

// The bytes before a place.
fn front(place: usize, text: &[u8]) -> &[u8]
    ensures { result.now ≡ take place text.now }
{
    if place < text.len() {
        &text[..place]
    } else {
        text
    }
}

// How many LF the bytes have.
fn ends(front: &[u8]) -> usize
    ensures value { result ≡ count_by (λ b. b == 10) front.now }
    ensures within { result ≤ length front.now }
{
    front.iter().filter(|b| **b == b'\n').count()
}

// The line of a place, counted from 1.
fn line_at(place: usize, text: &[u8]) -> usize
    ensures { result ≡ line_at place text.now }
{
    1 + ends(front(place, text))
}

// The column behind the bytes.
fn column_of(front: &[u8]) -> usize
    ensures { result ≡ column_from 1 front.now }
{
    let mut column = 1;
    for b in front {
        if *b == b'\n' {
            column = 1;
        } else {
            column += 1;
        }
    }
    column
}

// The column of a place, counted from 1.
fn column_at(place: usize, text: &[u8]) -> usize
    ensures { result ≡ column_at place text.now }
{
    column_of(front(place, text))
}

// Writes the name and the place of a fault.
fn push_fault(line: &mut String, name: &str, place: usize, text: &[u8]) -> Result<(), AllocError>
    ensures { OnOk result (string_bytes line.new
        ≡ string_bytes line.old ++ at_text name.now place text.now) }
{
    let row = line_at(place, text);
    let column = column_at(place, text);
    write!(line, "{name} at line {row}, column {column}\n")
}

// The line that tells a fault.
fn fault_line(alloc: Global, why: BookFail, text: &[u8]) -> Result<String, AllocError>
    ensures { IfOk result (λ line. string_bytes line ≡ fault_text why text.now) }
{
    let mut line = String::new(alloc);
    match why {
        BookFail::Syntax(place) => push_fault(&mut line, "Syntax", place, text)?,
        BookFail::UnknownProperty(place) => push_fault(&mut line, "UnknownProperty", place, text)?,
        BookFail::UnknownClient(place) => push_fault(&mut line, "UnknownClient", place, text)?,
        BookFail::SignatureMismatch(place) => {
            push_fault(&mut line, "SignatureMismatch", place, text)?
        }
        BookFail::SameLabel(place) => push_fault(&mut line, "SameLabel", place, text)?,
        BookFail::WeightRange(place) => push_fault(&mut line, "WeightRange", place, text)?,
        BookFail::TooManyRules(place) => push_fault(&mut line, "TooManyRules", place, text)?,
        BookFail::Memory => {}
    }
    Ok(line)
}

// The line that tells how many rules a book has.
fn count_line(alloc: Global, count: usize) -> Result<String, AllocError>
    ensures { IfOk result (λ line. string_bytes line ≡ count_text count) }
{
    format!(in alloc; "ok {count}\n")
}

// Whether memory ran out.
fn is_memory(why: BookFail) -> bool
    ensures { IsTrue result ↔ (why ≡ BookMemory) }
{
    matches!(why, BookFail::Memory)
}

// The answer on a text of this fault.
fn fault_answer(alloc: Global, why: BookFail, text: &[u8]) -> Result<(String, bool), NoAnswer>
    ensures found { IfOk result (λ a. IsFaultAnswer why text.now (string_bytes a.0) a.1) }
    ensures only { (e : NoAnswer) → IsErrOf result e → e ≡ NoAnswer.Memory }
{
    if is_memory(why) {
        return Err(NoAnswer::Memory);
    }
    Ok((fault_line(alloc, why, text)?, false))
}

// The answer on a text.
fn text_answer(alloc: Global, text: &str) -> Result<(String, bool), NoAnswer>
    ensures found { IsUtf8 text.now → IfOk result (λ a. IsBookAnswer text.now (string_bytes a.0) a.1) }
    ensures only { (why : NoAnswer) → IsErrOf result why → why ≡ NoAnswer.Memory }
{
    let kinds = standard_kinds(alloc)?;
    match read_book(alloc, text, &kinds) {
        Ok(book) => Ok((count_line(alloc, book.len())?, true)),
        Err(why) => fault_answer(alloc, why, text.as_bytes()),
    }
}

// The answer on the bytes of a file.
fn bytes_answer(alloc: Global, bytes: &[u8]) -> Result<(String, bool), NoAnswer>
    ensures found { IfOk result (λ a. IsBookAnswer bytes.now (string_bytes a.0) a.1) }
    ensures only { (why : NoAnswer) → IsErrOf result why → why ≡ NoAnswer.Memory }
{
    match str::from_utf8(bytes) {
        Ok(text) => text_answer(alloc, text),
        Err(_) => Ok((String::from_str(alloc, "no text\n")?, false)),
    }
}

/// The answer to `check-book`: its line, and whether the file is a book.
pub(crate) fn book_answer<F: Store>(
    alloc: Global,
    name: &str,
    store: &mut F,
) -> Result<(String, bool), NoAnswer>
    ensures found { IfOk result (λ a. AnswersBook name.now (F.files store.old) (string_bytes a.0) a.1) }
    ensures no_words { IsErrOf result NoAnswer.BadWords → ⊥ }
    ensures no_source { IsErrOf result NoAnswer.SourceFault → ⊥ }
    ensures refused { IsErrOf result NoAnswer.BadBook
        → Rose (F.faults store.old) (F.faults store.new) ⊎ IfSome (F.files store.old) (λ all.
        IsNoFile (file_of all name.now)) }
{
    match book_bytes(alloc, name, store) {
        Ok(bytes) => bytes_answer(alloc, &bytes),
        Err(why) => Err(why),
    }
}
