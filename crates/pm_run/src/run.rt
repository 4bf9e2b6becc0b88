// A run of the program: words, a book, and a script from bytes to bytes.

ghost use Rattle.pm_client.specs.Meanings.{meanings};
ghost use Rattle.pm_run.specs.Ends.{Ended, EndedBy, IsBadBook, IsUnrun, Ran};
ghost use Rattle.pm_store.specs.Outside.{Rose};
ghost use Rattle.pm_words.specs.Spoken.{seen_words};
ghost use Rattle.pm_words.specs.Words.{words_of};
ghost use Rattle.std.specs.Prelude.{IfOk, IsErrOf, List, None, Option, Some, map, string_bytes, ℕ, ◌≡◌, ◌≢◌, ◌≤◌, ◌⊎◌};

use crate::book::{NoBook, chosen_book};
use crate::demo::{TextSource, demo_script};
use crate::lines::answer_lines;
use crate::status::{RunFail, Status, ended};
use pm_client::Client;
use pm_machine::Session;
use pm_rules::Book;
use pm_store::{Sink, Source, Store};
use pm_words::{Words, WordsFail, read_words};
use std::alloc::Global;
use std::mem::forget;

/// Answers the lines of a script by the rules of a book, from no object on.
fn run_script<S: Source, K: Sink, F: Store>(
    alloc: Global,
    book: Book,
    clients: &mut Vec<Box<dyn Client>>,
    source: &mut S,
    trace: bool,
    sink: &mut K,
    store: &mut F,
) -> Result<bool, RunFail>
    ensures run { Ran (meanings tally MayPut MayFail clients.old.items)
        book trace (record {
          script = S.left source.old;
          left = S.left source.new;
          had = K.taken sink.old;
          has = K.taken sink.new;
          files = F.files store.old;
          kept = F.files store.new;
          counted = F.faults store.old;
          counts = F.faults store.new;
          before = map tally clients.old.items;
          after = map tally clients.new.items;
        }) result }
    ensures source_fault { IsErrOf result RunFail.SourceFault →
        Rose (S.faults source.old) (S.faults source.new) }
    ensures sink_fault { IsErrOf result RunFail.SinkFault →
        Rose (K.faults sink.old) (K.faults sink.new) }
    ensures source_count { S.faults source.old ≤ S.faults source.new }
    ensures sink_count { K.faults sink.old ≤ K.faults sink.new }
    ensures store_count { F.faults store.old ≤ F.faults store.new }
{
    let mut session = Session::new(alloc, book);
    let answered = answer_lines(alloc, &mut session, clients, source, trace, sink, store);
    // What it holds is given back when the process ends, and not piece by piece.
    forget(session);
    answered
}

/// Answers the lines of a text.
fn run_text<K: Sink, F: Store>(
    alloc: Global,
    book: Book,
    clients: &mut Vec<Box<dyn Client>>,
    text: String,
    trace: bool,
    sink: &mut K,
    store: &mut F,
) -> Result<bool, RunFail>
    ensures run { (left : Option (List ℕ)) × Ran (meanings tally MayPut MayFail clients.old.items)
        book trace (record {
          script = Some (string_bytes text);
          left = left;
          had = K.taken sink.old;
          has = K.taken sink.new;
          files = F.files store.old;
          kept = F.files store.new;
          counted = F.faults store.old;
          counts = F.faults store.new;
          before = map tally clients.old.items;
          after = map tally clients.new.items;
        }) result }
    ensures no_source_fault { ¬ (IsErrOf result RunFail.SourceFault) }
    ensures sink_fault { IsErrOf result RunFail.SinkFault →
        Rose (K.faults sink.old) (K.faults sink.new) }
    ensures sink_count { K.faults sink.old ≤ K.faults sink.new }
    ensures store_count { F.faults store.old ≤ F.faults store.new }
{
    let mut source = TextSource::new(text);
    run_script(alloc, book, clients, &mut source, trace, sink, store)
}

/// Answers the lines of a script as the words say.
fn run_words<S: Source, K: Sink, F: Store>(
    alloc: Global,
    said: &Words,
    clients: &mut Vec<Box<dyn Client>>,
    source: &mut S,
    sink: &mut K,
    store: &mut F,
) -> Status
    ensures words { result ≢ Status.BadWords }
    ensures run { Ended (meanings tally MayPut MayFail clients.old.items)
        (seen_words said.now) result (record {
          script = S.left source.old;
          left = S.left source.new;
          had = K.taken sink.old;
          has = K.taken sink.new;
          files = F.files store.old;
          kept = F.files store.new;
          counted = F.faults store.old;
          counts = F.faults store.new;
          before = map tally clients.old.items;
          after = map tally clients.new.items;
        }) }
    ensures bad_book { result ≡ Status.BadBook → IsBadBook (Some (seen_words said.now))
        (map tally clients.old.items) (F.files store.old)
        (F.faults store.old) (F.faults store.new) }
    ensures untouched { IsUnrun result →
        (source.new ≡ source.old) × (sink.new ≡ sink.old) × (clients.new ≡ clients.old) }
    ensures source_fault { result ≡ Status.SourceFault →
        Rose (S.faults source.old) (S.faults source.new) }
    ensures sink_fault { result ≡ Status.SinkFault →
        Rose (K.faults sink.old) (K.faults sink.new) }
    ensures source_count { S.faults source.old ≤ S.faults source.new }
    ensures sink_count { K.faults sink.old ≤ K.faults sink.new }
    ensures store_count { F.faults store.old ≤ F.faults store.new }
{
    let book = match chosen_book(alloc, said, clients, store) {
        Ok(book) => book,
        Err(NoBook::Refused) => return Status::BadBook,
        Err(NoBook::Memory) => return Status::OutOfMemory,
    };
    match said.demo {
        None => ended(run_script(alloc, book, clients, source, said.trace, sink, store)),
        Some(n) => {
            let Ok(script) = demo_script(alloc, n) else {
                return Status::OutOfMemory;
            };
            ended(run_text(alloc, book, clients, script, said.trace, sink, store))
        }
    }
}

/// What the words say. Where there are none, they are not read.
fn said_by(alloc: Global, words: &[String]) -> Result<Words, WordsFail>
    ensures said { IfOk result (λ w. words_of (map string_bytes words.now) ≡ Some (seen_words w)) }
    ensures bad { IsErrOf result WordsFail.BadWords → words_of (map string_bytes words.now) ≡ None }
{
    if words.is_empty() {
        return Ok(Words {
            rules: None,
            trace: false,
            demo: None,
        });
    }
    read_words(alloc, words)
}

/// Answers the lines of a script by steps of the machine, each line as soon as it was read, and its reply is written
/// before the next one is read. Memory: the line at hand and what one read gave.
///
/// The words are those after the program's name: `--trace` traces rounds, `--rules NAME` takes the rules of the
/// store's file of this name in place of the standard book, and `--demo N` the script of the demo in place of the
/// source, which is not read. Else the script is what the source has left, where it tells that, and the text is what
/// the sink takes, where it tells that.
///
/// `BadWords` comes exactly where the words are not those of the program, if memory does not run out before, and
/// `BadBook` where the named book cannot be had or is refused: then nothing is read of the source, written or started.
/// `SourceFault` and `TooLong` come after the whole lines that were given, or that the most bytes have, are answered.
pub fn polymake<S: Source, K: Sink, F: Store>(
    alloc: Global,
    words: &[String],
    clients: &mut Vec<Box<dyn Client>>,
    source: &mut S,
    sink: &mut K,
    store: &mut F,
) -> Status
    ensures words { result ≡ Status.BadWords → words_of (map string_bytes words.now) ≡ None }
    ensures bad_words { words_of (map string_bytes words.now) ≡ None →
        (result ≡ Status.BadWords) ⊎ (result ≡ Status.OutOfMemory) }
    ensures run { EndedBy (meanings tally MayPut MayFail clients.old.items)
        (words_of (map string_bytes words.now)) result (record {
          script = S.left source.old;
          left = S.left source.new;
          had = K.taken sink.old;
          has = K.taken sink.new;
          files = F.files store.old;
          kept = F.files store.new;
          counted = F.faults store.old;
          counts = F.faults store.new;
          before = map tally clients.old.items;
          after = map tally clients.new.items;
        }) }
    ensures bad_book { result ≡ Status.BadBook →
        IsBadBook (words_of (map string_bytes words.now)) (map tally clients.old.items)
        (F.files store.old) (F.faults store.old) (F.faults store.new) }
    ensures unread { IsUnrun result → source.new ≡ source.old }
    ensures untouched { IsUnrun result →
        (sink.new ≡ sink.old) × (clients.new ≡ clients.old) }
    ensures unasked { result ≡ Status.BadWords → store.new ≡ store.old }
    ensures source_fault { result ≡ Status.SourceFault →
        Rose (S.faults source.old) (S.faults source.new) }
    ensures sink_fault { result ≡ Status.SinkFault →
        Rose (K.faults sink.old) (K.faults sink.new) }
    ensures source_count { S.faults source.old ≤ S.faults source.new }
    ensures sink_count { K.faults sink.old ≤ K.faults sink.new }
    ensures store_count { F.faults store.old ≤ F.faults store.new }
{
    match said_by(alloc, words) {
        Ok(said) => run_words(alloc, &said, clients, source, sink, store),
        Err(WordsFail::BadWords) => Status::BadWords,
        Err(WordsFail::Memory) => Status::OutOfMemory,
    }
}
