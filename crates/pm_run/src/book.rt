// The book of a run.

ghost use Rattle.pm_books.specs.declared.fail.BookFail.TheVariants.{Memory as BookMemory};
ghost use Rattle.pm_standard.specs.Table.{standard_kinds_list};
ghost use Rattle.pm_run.specs.Chosen.{IsBook, IsRefusedBook, IsRefusedText, IsTextOf, kinds_of, without_standard_names};
ghost use Rattle.pm_run.specs.declared.book.NoBook.TheVariants.{Memory, Refused};
ghost use Rattle.pm_store.specs.Files.{FilesStay};
ghost use Rattle.pm_store.specs.Outside.{Rose};
ghost use Rattle.pm_store.specs.declared.store.StoreFail.TheVariants.{Failed as StoreFailed};
ghost use Rattle.pm_words.specs.Spoken.{seen_words};
ghost use Rattle.std.specs.List.{list_any};
ghost use Rattle.std.specs.Prelude.{IfOk, IfSome, IsErrOf, List, OnOk, Some, [], map, ℕ, ◌++◌, ◌∷◌, ◌≡◌, ◌≢◌, ◌≤◌, ◌⊎◌};
ghost use Rattle.std.specs.Str.{bytes_eq};

use pm_books::{BookFail, read_book};
use pm_client::Client;
use pm_limits::MOST_FILE_BYTES;
use pm_props::Kind;
use pm_rules::Book;
use pm_standard::{standard_book, standard_kinds};
use pm_store::{Store, StoreFail};
use pm_words::Words;
use std::alloc::{AllocError, Global};
use std::str;

/// Why there is no book.
#[derive(Clone, Copy)]
pub(crate) enum NoBook {
    Refused,
    Memory,
}

impl From<AllocError> for NoBook {
    ghost from_gives = { λ _ e. e ≡ Memory };

    fn from(_e: AllocError) -> NoBook {
        NoBook::Memory
    }
}

impl From<StoreFail> for NoBook {
    ghost from_gives = { λ why e. e ≡ Refused → why ≡ StoreFailed };

    fn from(why: StoreFail) -> NoBook {
        match why {
            StoreFail::Failed => NoBook::Refused,
            StoreFail::Memory => NoBook::Memory,
        }
    }
}

impl From<BookFail> for NoBook {
    ghost from_gives = { λ why e. e ≡ Refused → why ≢ BookMemory };

    fn from(why: BookFail) -> NoBook {
        match why {
            BookFail::Memory => NoBook::Memory,
            _ => NoBook::Refused,
        }
    }
}

/// Whether one of these kinds has the name of this one.
fn has_name(kinds: &[Kind], kind: &Kind) -> bool
    ensures { result ≡ list_any (λ other. bytes_eq other.name kind.now.name) kinds.now }
{
    kinds
        .iter()
        .any(|other| other.name.as_bytes() == kind.name.as_bytes())
}

/// The kind of a boxed client.
fn kind_of(client: &Box<dyn Client>) -> Kind
    ensures { result ≡ (tally client.now).0 }
{
    client.kind()
}

/// Adds a kind, unless a standard one has its name.
fn add_kind(kinds: &mut Vec<Kind>, standard: &[Kind], kind: Kind) -> Result<(), AllocError>
    requires { standard.now ≡ standard_kinds_list }
    ensures { OnOk result (kinds.new.items ≡ kinds.old.items ++ without_standard_names (kind ∷ [])) }
{
    if !has_name(standard, &kind) {
        kinds.push(kind)?;
    }
    Ok(())
}

/// The kinds that a book may name.
fn book_kinds(alloc: Global, clients: &[Box<dyn Client>]) -> Result<Vec<Kind>, AllocError>
    ensures { IfOk result (λ kinds. kinds.items ≡ kinds_of (map tally clients.now)) }
{
    let standard = standard_kinds(alloc)?;
    let mut kinds = standard_kinds(alloc)?;
    for client in clients {
        add_kind(&mut kinds, &standard, kind_of(client))?;
    }
    Ok(kinds)
}

/// The book that these bytes spell.
fn book_of_bytes(alloc: Global, bytes: &[u8], clients: &[Box<dyn Client>]) -> Result<Book, NoBook>
    ensures found { IfOk result (λ b. IsTextOf (map tally clients.now) bytes.now b) }
    ensures refused { IsErrOf result NoBook.Refused → IsRefusedText (map tally clients.now) bytes.now }
{
    if bytes.len() > MOST_FILE_BYTES {
        return Err(NoBook::Refused);
    }
    let Ok(text) = str::from_utf8(bytes) else {
        return Err(NoBook::Refused);
    };
    let kinds = book_kinds(alloc, clients)?;
    let book = read_book(alloc, text, &kinds)?;
    Ok(book)
}

/// The book that the file of this name spells.
fn named_book<F: Store>(
    alloc: Global,
    name: &str,
    clients: &[Box<dyn Client>],
    store: &mut F,
) -> Result<Book, NoBook>
    ensures found { IfOk result (λ b.
        IsBook (Some name.now) (map tally clients.now) (F.files store.old) b) }
    ensures refused { IsErrOf result NoBook.Refused →
        Rose (F.faults store.old) (F.faults store.new)
        ⊎ IfSome (F.files store.old) (IsRefusedBook name.now (map tally clients.now)) }
    ensures stay { FilesStay (F.files store.old) (F.files store.new) }
    ensures never_falls { F.faults store.old ≤ F.faults store.new }
{
    let found = store.get(alloc, name)?;
    match found {
        Some(bytes) => book_of_bytes(alloc, &bytes, clients),
        None => Err(NoBook::Refused),
    }
}

/// The book that the words name, or the standard one where they name none.
pub(crate) fn chosen_book<F: Store>(
    alloc: Global,
    said: &Words,
    clients: &[Box<dyn Client>],
    store: &mut F,
) -> Result<Book, NoBook>
    ensures found { IfOk result (λ b.
        IsBook (seen_words said.now).rules (map tally clients.now) (F.files store.old) b) }
    ensures refused { IsErrOf result NoBook.Refused → (name : List ℕ)
        × ((seen_words said.now).rules ≡ Some name)
        × (Rose (F.faults store.old) (F.faults store.new)
        ⊎ IfSome (F.files store.old) (IsRefusedBook name (map tally clients.now))) }
    ensures stay { FilesStay (F.files store.old) (F.files store.new) }
    ensures never_falls { F.faults store.old ≤ F.faults store.new }
{
    match &said.rules {
        None => Ok(standard_book(alloc)?),
        Some(name) => named_book(alloc, name.as_str(), clients, store),
    }
}
