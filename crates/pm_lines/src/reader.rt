// Lines as they come from a source.

ghost use Rattle.std.specs.Prelude.{◌≡◌, ◌≢◌, ℕ, ◌+◌, ◌-◌, ◌<◌, ◌≤◌, ◌++◌, List, [], Err, Ok, Some, true, false, not, IfOk, IfSome, OnOk, OnErr, IsErrOf, length, drop};
ghost use Rattle.pm_lines.specs.Coming.{Answers, BreaksOff, Ended, Exceeds, IsOver, LetsGo, ReaderSeen, Refilled, most_ahead, no_line};
ghost use Rattle.pm_lines.specs.Whole.{HasNoBreak, whole_lines};
ghost use Rattle.pm_lines.specs.declared.reader.LinesFail.TheVariants.{Fault, Memory};
ghost use Rattle.pm_store.specs.Outside.{IsAtEnd, LosesTold, Rose, StaysTold};
ghost use Rattle.pm_limits.specs.Limits.{most_script_bytes};

use crate::chunk::Chunk;
use pm_command::{Line, first_break};
use pm_limits::MOST_SCRIPT_BYTES;
use pm_store::{Failed, Source};
use std::alloc::{AllocError, Global};
use std::marker::Model;
use thiserror::Error;

/// Why the next line did not come.
#[derive(Clone, Copy, Debug, PartialEq, Eq, Error)]
pub enum LinesFail {
    /// The source failed.
    #[error("the source failed")]
    Fault,
    /// The script has more than `MOST_SCRIPT_BYTES` bytes.
    #[error("the script is too long")]
    TooLong,
    /// Memory ran out.
    #[error("out of memory")]
    Memory,
}

impl From<Failed> for LinesFail {
    ghost from_gives = { λ _ e. e ≡ Fault };

    fn from(_e: Failed) -> LinesFail {
        LinesFail::Fault
    }
}

impl From<AllocError> for LinesFail {
    ghost from_gives = { λ _ e. e ≡ Memory };

    fn from(_e: AllocError) -> LinesFail {
        LinesFail::Memory
    }
}

/// Reads a script line by line, each as soon as its LF was given.
/// It keeps the line at hand and the bytes of the last read, and looks at each byte once.
#[derive(Drop)]
pub struct LineReader {
    chunk: Chunk,
    line: Vec<u8>,
    ended: bool,
    read: usize,
    at_end: bool,
}

impl Model for LineReader {
    ghost Value = { ReaderSeen };

    ghost view = { λ r. record {
      line = record { bytes = r.line.items; ended = r.ended };
      given = r.chunk;
      read = r.read;
      at_end = r.at_end;
    } };

    ghost invariant = { λ r. (r.read ≤ most_script_bytes) × (length r.chunk ≤ most_ahead) };
}

impl LineReader {
    /// A reader at the beginning of a script.
    pub fn new(alloc: Global) -> LineReader
        ensures { result ≡ record { line = no_line; given = []; read = 0; at_end = false } }
    {
        LineReader {
            chunk: Chunk::new(),
            line: Vec::new(alloc),
            ended: false,
            read: 0,
            at_end: false,
        }
    }

    /// The line at hand: of the last call of `advance`, where that answered `true`.
    pub fn line(&self) -> Line<'_>
        ensures { result ≡ self.now.line }
    {
        Line::new(&self.line, self.ended)
    }

    /// Lets the line at hand go.
    fn begin(&mut self)
        ensures state { self.new ≡ record self.old { line = no_line } }
        ensures bound { self.new.read ≤ most_script_bytes }
    {
        self.line.clear();
        self.ended = false;
    }

    /// Moves what was given to the line at hand, up to the first LF. Whether there was one.
    fn take_line(&mut self) -> Result<bool, AllocError>
        requires { self.old.line.ended ≡ false }
        ensures ended { IfOk result (λ there. there ≡ true
            → (part : List ℕ) × Ended self.old self.new part) }
        ensures unended { IfOk result (λ there. there ≡ false
            → HasNoBreak self.old.given × (self.new ≡ record self.old {
              line = record { bytes = self.old.line.bytes ++ self.old.given; ended = false };
              given = [];
            })) }
        ensures read { self.new.read ≡ self.old.read }
        ensures at_end { self.new.at_end ≡ self.old.at_end }
        ensures few { length self.new.given ≤ most_ahead }
        ensures kept { OnErr result (self.new.given ≡ self.old.given) }
    {
        let bytes = self.chunk.bytes();
        let end = first_break(bytes);
        self.line.extend_from_slice(&bytes[..end])?;
        if end == bytes.len() {
            self.chunk.skip(end);
            return Ok(false);
        }
        self.chunk.skip(end + 1);
        self.ended = true;
        Ok(true)
    }

    /// Reads more bytes. Whether there were any.
    fn refill<S: Source>(&mut self, source: &mut S) -> Result<bool, LinesFail>
        requires { self.old.given ≡ [] }
        ensures more { IfOk result (λ there. there ≡ true →
            IfSome (S.left source.old) (λ all. Refilled all (S.left source.new) self.old self.new)) }
        ensures reads { IfOk result (λ there. there ≡ true → self.old.read < self.new.read) }
        ensures state { self.new ≡ record self.old {
          given = self.new.given;
          read = self.old.read + length self.new.given;
        } }
        ensures bound { self.new.read ≤ most_script_bytes }
        ensures end { IfOk result (λ there. there ≡ false
            → (self.new.given ≡ []) × IsAtEnd (S.left source.old)
            × StaysTold (S.left source.old) (S.left source.new)) }
        ensures none { OnErr result (self.new.given ≡ []) }
        ensures err { IsErrOf result LinesFail.Fault → StaysTold (S.left source.old) (S.left source.new) }
        ensures fault { IsErrOf result LinesFail.Fault → Rose (S.faults source.old) (S.faults source.new) }
        ensures too_long { IsErrOf result LinesFail.TooLong → self.old.read ≡ most_script_bytes }
        ensures over { IsErrOf result LinesFail.TooLong →
            IfSome (S.left source.old) (λ all. (0 < length all) × (S.left source.new ≡ Some (drop 1 all))) }
        ensures needs_none { result ≢ Err LinesFail.Memory }
        ensures loses { LosesTold (S.left source.old) (S.left source.new) }
        ensures never_falls { S.faults source.old ≤ S.faults source.new }
    {
        if self.read == MOST_SCRIPT_BYTES {
            find_end(source)?;
            return Ok(false);
        }
        self.chunk.fill(source, MOST_SCRIPT_BYTES - self.read)?;
        let count = self.chunk.bytes().len();
        self.read += count;
        Ok(count > 0)
    }

    /// Notes that nothing is left. Whether there is a line that no LF ended.
    fn finish(&mut self) -> bool
        ensures state { self.new ≡ record self.old { at_end = true } }
        ensures line { result ≡ true → 0 < length self.old.line.bytes }
        ensures none { result ≡ false → self.old.line.bytes ≡ [] }
    {
        self.at_end = true;
        !self.line.is_empty()
    }

    /// Brings the next line to hand. Whether there is one: `false` says that the source said that nothing is left,
    /// and then no call reads of it any more.
    ///
    /// A line that stands in what was given already is answered without a read.
    /// A line that an LF ended takes bytes of what was given, so its calls come to an end.
    /// `Fault` comes where the source failed. After any error a line that is not whole is gone: after `Fault` and
    /// `TooLong` all that was given, and where memory ran out what was given before the bytes that the next call goes
    /// on with.
    /// `TooLong` comes exactly where the source gave a byte after the first `MOST_SCRIPT_BYTES`, and no line of these
    /// is left that an LF ended.
    pub fn advance<S: Source>(&mut self, source: &mut S) -> Result<bool, LinesFail>
        ensures line { IfOk result (λ there. there ≡ true →
            IfSome (S.left source.old) (λ all. Answers all (S.left source.new) self.old self.new)) }
        ensures last { IfOk result (λ there. there ≡ true → self.new.at_end ≡ not self.new.line.ended) }
        ensures shrinks { IfOk result (λ there. there ≡ true → self.new.at_end ≡ false →
            length self.new.given + self.old.read < length self.old.given + self.new.read) }
        ensures over { IfOk result (λ there. there ≡ false → self.old.at_end ≡ false →
            IfSome (S.left source.old) (λ all. IsOver all (S.left source.new) self.old)) }
        ensures end { IfOk result (λ there. there ≡ false → self.new.at_end ≡ true) }
        ensures stays { self.old.at_end ≡ true → (result ≡ Ok false) × (source.new ≡ source.old) }
        ensures ready { whole_lines self.old.given ≢ [] → source.new ≡ source.old }
        ensures fault { IsErrOf result LinesFail.Fault →
            IfSome (S.left source.old) (λ all. BreaksOff all (S.left source.new) self.old self.new) }
        ensures rose { IsErrOf result LinesFail.Fault → Rose (S.faults source.old) (S.faults source.new) }
        ensures too_long { IsErrOf result LinesFail.TooLong →
            IfSome (S.left source.old) (λ all. Exceeds all (S.left source.new) self.old) }
        ensures full { IsErrOf result LinesFail.TooLong → self.new.read ≡ most_script_bytes }
        ensures memory { IsErrOf result LinesFail.Memory →
            IfSome (S.left source.old) (λ all. LetsGo all (S.left source.new) self.old self.new) }
        ensures gone { OnErr result (result ≢ Err LinesFail.Memory → self.new.given ≡ []) }
        ensures goes_on { OnErr result (self.new.at_end ≡ false) }
        ensures loses { LosesTold (S.left source.old) (S.left source.new) }
        ensures bound { self.new.read ≤ most_script_bytes }
        ensures few { length self.new.given ≤ most_ahead }
        ensures grows { self.old.read ≤ self.new.read }
        ensures never_falls { S.faults source.old ≤ S.faults source.new }
    {
        self.begin();
        if self.at_end {
            return Ok(false);
        }
        loop {
            let there = self.take_line()?;
            if there {
                return Ok(true);
            }
            let more = self.refill(source)?;
            if !more {
                return Ok(self.finish());
            }
        }
    }
}

/// Says that nothing is left, or fails.
fn find_end<S: Source>(source: &mut S) -> Result<(), LinesFail>
    ensures end { OnOk result (IsAtEnd (S.left source.old) × StaysTold (S.left source.old) (S.left source.new)) }
    ensures err { IsErrOf result LinesFail.Fault → StaysTold (S.left source.old) (S.left source.new) }
    ensures fault { IsErrOf result LinesFail.Fault → Rose (S.faults source.old) (S.faults source.new) }
    ensures over { IsErrOf result LinesFail.TooLong →
        IfSome (S.left source.old) (λ all. (0 < length all) × (S.left source.new ≡ Some (drop 1 all))) }
    ensures needs_none { result ≢ Err LinesFail.Memory }
    ensures loses { LosesTold (S.left source.old) (S.left source.new) }
    ensures never_falls { S.faults source.old ≤ S.faults source.new }
{
    let count = source.read(&mut [0u8; 1])?;
    if count > 0 {
        return Err(LinesFail::TooLong);
    }
    Ok(())
}
