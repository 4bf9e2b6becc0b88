// Lines answered as they come.

ghost use Rattle.pm_client.specs.Meanings.{Narrows, meanings};
ghost use Rattle.pm_machine.specs.Sessions.{MakesNamed, book_of, machine_at};
ghost use Rattle.pm_machine.specs.Laws.{AllStand};
ghost use Rattle.pm_machine.specs.Machines.{Stays};
ghost use Rattle.pm_machine.specs.Steps.{AllKept};
ghost use Rattle.pm_command.specs.Commands.{spoken};
ghost use Rattle.pm_command.specs.Lines.{Line};
ghost use Rattle.pm_script.specs.Replies.{ReplySeen, is_refusal, nothing, refused, seen};
ghost use Rattle.pm_run.specs.Ends.{AnswersOne, HasOutcome, InHand, IsRead};
ghost use Rattle.pm_machine.specs.Run.{Answers, command_at, refusal_of, text_of_reply};
ghost use Rattle.pm_store.specs.Outside.{GainsTold, GainsPart, Rose};
ghost use Rattle.std.specs.Option.{option_map};
ghost use Rattle.std.specs.Prelude.{IfErr, IfOk, IfSome, IsErrOf, List, OnErr, Some, map, ◌≡◌, ◌≤◌, ◌⊎◌};

use crate::status::RunFail;
use pm_client::Client;
use pm_command::{Command, Line, LineFail, read_line};
use pm_lines::LineReader;
use pm_machine::Session;
use pm_script::{Refusal, Reply, reply_bytes};
use pm_store::{Sink, Source, Store, write_all};
use std::alloc::{AllocError, Global};

/// The command that a line speaks, if it speaks one; a line that is too long speaks none.
fn command_at(alloc: Global, line: &Line<'_>) -> Result<Option<Command>, AllocError>
    ensures command { IfOk result (λ c. command_at line.now ≡ option_map spoken c) }
    ensures named { IfOk result (λ c. IfSome c (λ d. MakesNamed (spoken d))) }
{
    if line.is_too_long() {
        return Ok(None);
    }
    match read_line(alloc, line.text()) {
        Ok(command) => Ok(Some(command)),
        Err(LineFail::BadCommand) => Ok(None),
        Err(LineFail::Memory) => Err(AllocError),
    }
}

/// The reply to a line, if it has one.
fn answer_line<F: Store>(
    alloc: Global,
    session: &mut Session,
    clients: &mut Vec<Box<dyn Client>>,
    line: &Line<'_>,
    store: &mut F,
) -> Result<Option<Reply>, AllocError>
    ensures answers { IfOk result (λ r. Answers
        (meanings tally MayPut MayFail clients.old.items) (book_of session.old)
        (machine_at session.old (map tally clients.old.items) (F.files store.old) (F.faults store.old)) line.now (option_map seen r)
        (machine_at session.new (map tally clients.new.items) (F.files store.new) (F.faults store.new))) }
    ensures part { OnErr result (
        Stays (machine_at session.old (map tally clients.old.items) (F.files store.old) (F.faults store.old))
        (machine_at session.new (map tally clients.new.items) (F.files store.new) (F.faults store.new))
        ⊎ InHand
        (meanings tally MayPut MayFail clients.old.items) (book_of session.old)
        (machine_at session.old (map tally clients.old.items) (F.files store.old) (F.faults store.old)) line.now
        (machine_at session.new (map tally clients.new.items) (F.files store.new) (F.faults store.new))) }
    ensures book { book_of session.new ≡ book_of session.old }
    ensures store_count { F.faults store.old ≤ F.faults store.new }
    ensures narrows { Narrows (meanings tally MayPut MayFail clients.old.items)
        (meanings tally MayPut MayFail clients.new.items) }
{
    match command_at(alloc, line)? {
        None => Ok(Some(refused_line(alloc, line))),
        Some(Command::Blank) => Ok(None),
        Some(command) => Ok(Some(session.step(alloc, command, clients, store)?)),
    }
}

/// Why a line that speaks no command is refused.
fn refusal_of(line: &Line<'_>) -> Refusal
    ensures { result ≡ refusal_of line.now }
{
    if line.is_too_long() {
        Refusal::LineTooLong
    } else {
        Refusal::BadCommand
    }
}

/// The reply to a line that speaks no command.
fn refused_line(alloc: Global, line: &Line<'_>) -> Reply
    ensures { seen result ≡ refused (refusal_of line.now) nothing }
{
    Reply::refused(alloc, refusal_of(line))
}

/// Answers a line, and writes the reply. Whether it is a refusal.
fn answer_next<K: Sink, F: Store>(
    alloc: Global,
    session: &mut Session,
    clients: &mut Vec<Box<dyn Client>>,
    line: &Line<'_>,
    trace: bool,
    sink: &mut K,
    store: &mut F,
) -> Result<bool, RunFail>
    ensures told { IfOk result (λ r. AnswersOne
        (meanings tally MayPut MayFail clients.old.items) (book_of session.old) trace
        (K.taken sink.old) (K.taken sink.new)
        (machine_at session.old (map tally clients.old.items) (F.files store.old) (F.faults store.old)) line.now r
        (machine_at session.new (map tally clients.new.items) (F.files store.new) (F.faults store.new))) }
    ensures part { IsErrOf result RunFail.SinkFault → (reply : ReplySeen)
        × Answers
        (meanings tally MayPut MayFail clients.old.items) (book_of session.old)
        (machine_at session.old (map tally clients.old.items) (F.files store.old) (F.faults store.old)) line.now (Some reply)
        (machine_at session.new (map tally clients.new.items) (F.files store.new) (F.faults store.new))
        × GainsPart (K.taken sink.old) (K.taken sink.new) (text_of_reply trace reply) }
    ensures fault { IsErrOf result RunFail.SinkFault →
        Rose (K.faults sink.old) (K.faults sink.new) }
    ensures which { IfErr result (λ e. (e ≡ RunFail.SinkFault) ⊎ (e ≡ RunFail.Memory)) }
    ensures memory { IsErrOf result RunFail.Memory → sink.new ≡ sink.old }
    ensures hand { IsErrOf result RunFail.Memory →
        Stays (machine_at session.old (map tally clients.old.items) (F.files store.old) (F.faults store.old))
        (machine_at session.new (map tally clients.new.items) (F.files store.new) (F.faults store.new))
        ⊎ InHand
        (meanings tally MayPut MayFail clients.old.items) (book_of session.old)
        (machine_at session.old (map tally clients.old.items) (F.files store.old) (F.faults store.old)) line.now
        (machine_at session.new (map tally clients.new.items) (F.files store.new) (F.faults store.new)) }
    ensures book { book_of session.new ≡ book_of session.old }
    ensures never_falls { K.faults sink.old ≤ K.faults sink.new }
    ensures store_count { F.faults store.old ≤ F.faults store.new }
    ensures narrows { Narrows (meanings tally MayPut MayFail clients.old.items)
        (meanings tally MayPut MayFail clients.new.items) }
{
    match answer_line(alloc, session, clients, line, store)? {
        None => Ok(false),
        Some(reply) => {
            let written = write_reply(alloc, &reply, trace, sink);
            drop(reply);
            written
        }
    }
}

/// Writes a reply. Whether it is a refusal.
fn write_reply<K: Sink>(
    alloc: Global,
    reply: &Reply,
    trace: bool,
    sink: &mut K,
) -> Result<bool, RunFail>
    ensures told { IfOk result (λ r.
        GainsTold (K.taken sink.old) (K.taken sink.new) (text_of_reply trace (seen reply.now))
        × (r ≡ is_refusal (seen reply.now))) }
    ensures part { IsErrOf result RunFail.SinkFault →
        GainsPart (K.taken sink.old) (K.taken sink.new) (text_of_reply trace (seen reply.now)) }
    ensures fault { IsErrOf result RunFail.SinkFault →
        Rose (K.faults sink.old) (K.faults sink.new) }
    ensures which { IfErr result (λ e. (e ≡ RunFail.SinkFault) ⊎ (e ≡ RunFail.Memory)) }
    ensures memory { IsErrOf result RunFail.Memory → sink.new ≡ sink.old }
    ensures never_falls { K.faults sink.old ≤ K.faults sink.new }
{
    let text = reply_bytes(alloc, reply, trace)?;
    write_all(sink, &text)?;
    Ok(reply.is_refusal())
}

/// Answers each line as it comes, and writes its reply before the next one is read. True: some reply is a refusal.
pub(crate) fn answer_lines<S: Source, K: Sink, F: Store>(
    alloc: Global,
    session: &mut Session,
    clients: &mut Vec<Box<dyn Client>>,
    source: &mut S,
    trace: bool,
    sink: &mut K,
    store: &mut F,
) -> Result<bool, RunFail>
    requires kept { AllKept (machine_at session.old (map tally clients.old.items) (F.files store.old)
        (F.faults store.old)) }
    requires stand { AllStand (book_of session.old)
        (machine_at session.old (map tally clients.old.items) (F.files store.old) (F.faults store.old)) }
    ensures outcome { (lines : List Line)
        × IsRead (S.left source.old) (S.left source.new) result lines
        × HasOutcome
        (meanings tally MayPut MayFail clients.old.items) (book_of session.old) trace (K.taken sink.old) (K.taken sink.new)
        (machine_at session.old (map tally clients.old.items) (F.files store.old) (F.faults store.old)) lines result
        (machine_at session.new (map tally clients.new.items) (F.files store.new) (F.faults store.new)) }
    ensures source_fault { IsErrOf result RunFail.SourceFault →
        Rose (S.faults source.old) (S.faults source.new) }
    ensures sink_fault { IsErrOf result RunFail.SinkFault →
        Rose (K.faults sink.old) (K.faults sink.new) }
    ensures source_count { S.faults source.old ≤ S.faults source.new }
    ensures sink_count { K.faults sink.old ≤ K.faults sink.new }
    ensures store_count { F.faults store.old ≤ F.faults store.new }
{
    let mut reader = LineReader::new(alloc);
    let mut some_refused = false;
    loop {
        let there = reader.advance(source)?;
        if !there {
            return Ok(some_refused);
        }
        let refused = answer_next(alloc, session, clients, &reader.line(), trace, sink, store)?;
        some_refused |= refused;
    }
}
