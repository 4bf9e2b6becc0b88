// A run of the program: from words, a source and files to a line in the sink.

ghost use Rattle.std.specs.Prelude.{◌≡◌, ◌≤◌, ◌⊎◌, IfOk, IsErrOf, List, Option, map, string_bytes, ℕ};
ghost use Rattle.std.specs.Option.{option_map};
ghost use Rattle.pm_store.specs.Outside.{Rose};
ghost use Rattle.pm_check.specs.Ends.{Answers, Ended, IsBadAsked, IsBookFault, IsSourceFault, Told};
ghost use Rattle.pm_check.specs.Proved.{Proved};
ghost use Rattle.pm_check.specs.Seen.{seen_asking};
ghost use Rattle.pm_check.specs.Words.{asked_by};

use crate::book::book_answer;
use crate::plan::plan_answer;
use crate::status::{NoAnswer, Status};
use crate::words::{Asking, read_words};
use pm_store::{Sink, Source, Store, write_all};
use std::alloc::Global;

// The answer to what is asked, and whether it is a yes.
fn answered<S: Source, F: Store>(
    alloc: Global,
    asked: Option<Asking>,
    source: &mut S,
    store: &mut F,
) -> Result<(String, bool), NoAnswer>
    ensures found { IfOk result (λ a. Answers (option_map seen_asking asked.entry) (S.left source.old)
        (F.files store.old) (string_bytes a.0) a.1) }
    ensures bad_words { IsErrOf result NoAnswer.BadWords
        → IsBadAsked (option_map seen_asking asked.entry) (F.files store.old) }
    ensures bad_book { IsErrOf result NoAnswer.BadBook
        → IsBookFault (F.faults store.old) (F.faults store.new) (option_map seen_asking asked.entry)
        (F.files store.old) }
    ensures source_fault { IsErrOf result NoAnswer.SourceFault
        → IsSourceFault (S.faults source.old) (S.faults source.new) (S.left source.old) }
{
    match asked {
        Some(Asking::Plan(words)) => plan_answer(alloc, &words, source, store),
        Some(Asking::Book(name)) => book_answer(alloc, name, store),
        None => Err(NoAnswer::BadWords),
    }
}

// Writes the line; how the run ends.
fn written<K: Sink>(sink: &mut K, line: &str, right: bool) -> Status
    ensures told { Told (K.taken sink.old) (K.taken sink.new) line.now right result }
    ensures sink_fault { result ≡ Status.SinkFault → Rose (K.faults sink.old) (K.faults sink.new) }
{
    match write_all(sink, line.as_bytes()) {
        Ok(()) => { if right { Status::Right } else { Status::Wrong } }
        Err(_) => Status::SinkFault,
    }
}

/// Answers what the words ask of the text that the source has, or of a file, in one line to the sink.
///
/// `BadWords` comes only where the words are none of the program or ask no question by the book that they name, and
/// `BadBook` only where that book, or the file that is to be checked, cannot be had or is refused.
pub(crate) fn checker<S: Source, K: Sink, F: Store>(
    alloc: Global,
    words: &[String],
    source: &mut S,
    sink: &mut K,
    store: &mut F,
) -> Status
    ensures run { Ended (asked_by (map string_bytes words.now)) result (record {
      given = S.left source.old;
      had = K.taken sink.old;
      has = K.taken sink.new;
      files = F.files store.old;
    }) }
    ensures proved { result ≡ Status.Right → Proved (asked_by (map string_bytes words.now)) (record {
      given = S.left source.old;
      had = K.taken sink.old;
      has = K.taken sink.new;
      files = F.files store.old;
    }) }
    ensures bad_book { result ≡ Status.BadBook
        → IsBookFault (F.faults store.old) (F.faults store.new) (asked_by (map string_bytes words.now))
        (F.files store.old) }
    ensures source_fault { result ≡ Status.SourceFault
        → IsSourceFault (S.faults source.old) (S.faults source.new) (S.left source.old) }
    ensures sink_fault { result ≡ Status.SinkFault → Rose (K.faults sink.old) (K.faults sink.new) }
{
    match answered(alloc, read_words(words), source, store) {
        Ok((line, right)) => written(sink, line.as_str(), right),
        Err(why) => why.status(),
    }
}
