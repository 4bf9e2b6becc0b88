// A script answered over memory, with a client of one's own.

ghost use Rattle.pm_client.specs.Starts.{Clients};
ghost use Rattle.pm_embedded.specs.NoRows.{no_rows, own};
ghost use Rattle.pm_run.specs.Ends.{EndedBy, IsBadBook, IsUnrun};
ghost use Rattle.pm_store.specs.Outside.{Rose};
ghost use Rattle.pm_words.specs.Words.{words_of};
ghost use Rattle.std.specs.Prelude.{IfOk, List, None, OnOk, Option, Some, [], map, string_bytes, ℕ, ◌++◌, ◌∷◌, ◌≡◌, ◌⊎◌};

use crate::no_rows::NoRows;
use pm_client::Client;
use pm_run::{Status, polymake};
use pm_store::{MemSink, MemSource, MemStore};
use std::alloc::{AllocError, Global};

/// The most bytes that a source of a text gives a call.
const PIECE: usize = 4096;

/// A source of this text, of which no call fails.
fn source_of(alloc: Global, text: &str) -> Result<MemSource, AllocError>
    ensures { IfOk result (λ s. s.left ≡ text.now) }
{
    let bytes = text.as_bytes().to_vec(alloc)?;
    Ok(MemSource::new(bytes, PIECE, Vec::new(alloc)))
}

/// Puts a client of no rows, which was never started, behind the others.
fn push_client(
    clients: &mut Vec<Box<dyn Client>>,
    client: Box<dyn Client>,
) -> Result<(), AllocError>
    requires fresh { tally client ≡ (no_rows, 0) }
    ensures pushed { OnOk result (map tally clients.new.items
        ≡ map tally clients.old.items ++ (no_rows, 0) ∷ []) }
{
    clients.push(client)?;
    Ok(())
}

/// Answers the lines of a script with `NoRows` as the one client, which was never started.
///
/// The words choose the book, as those of the program do: `--rules NAME` takes the store's file of this name. The text
/// of the replies is what the sink takes. Where memory runs out before the client is there, nothing was done.
pub fn answer_script(
    alloc: Global,
    words: &[String],
    script: &str,
    sink: &mut MemSink,
    store: &mut MemStore,
) -> Status
    ensures words { result ≡ Status.BadWords → words_of (map string_bytes words.now) ≡ None }
    ensures bad_words { words_of (map string_bytes words.now) ≡ None →
        (result ≡ Status.BadWords) ⊎ (result ≡ Status.OutOfMemory) }
    ensures run { (left : Option (List ℕ)) × (after : Clients)
        × EndedBy own (words_of (map string_bytes words.now)) result (record {
          script = Some script.now;
          left = left;
          had = Some sink.old.taken;
          has = Some sink.new.taken;
          files = Some store.old.files;
          kept = Some store.new.files;
          counted = store.old.faults;
          counts = store.new.faults;
          before = (no_rows, 0) ∷ [];
          after = after;
        }) }
    ensures bad_book { result ≡ Status.BadBook →
        IsBadBook (words_of (map string_bytes words.now)) ((no_rows, 0) ∷ [])
        (Some store.old.files) store.old.faults store.new.faults }
    ensures untouched { IsUnrun result → sink.new ≡ sink.old }
    ensures sink_fault { result ≡ Status.SinkFault → Rose sink.old.faults sink.new.faults }
{
    let Ok(mut source) = source_of(alloc, script) else {
        return Status::OutOfMemory;
    };
    let mut clients: Vec<Box<dyn Client>> = Vec::new(alloc);
    let Ok(client) = Box::new(alloc, NoRows::new()) else {
        return Status::OutOfMemory;
    };
    let Ok(()) = push_client(&mut clients, client) else {
        return Status::OutOfMemory;
    };
    polymake(alloc, words, &mut clients, &mut source, sink, store)
}
