// Bytes that a source gave.

ghost use Rattle.std.specs.Prelude.{◌≡◌, ◌-◌, ◌<◌, ◌≤◌, ◌^◌, List, ℕ, [], IfOk, OnErr, drop, take, length};
ghost use Rattle.pm_lines.specs.Coming.{most_ahead};
ghost use Rattle.pm_store.specs.Outside.{IsAtEnd, Moves, Rose, StaysTold};

use pm_store::{Failed, Source};
use std::marker::Model;

const ROOM: usize = 4096;

/// Bytes that a source gave and that were not taken yet.
#[derive(Drop)]
pub(crate) struct Chunk {
    bytes: [u8; ROOM],
    at: usize,
    end: usize,
}

impl Model for Chunk {
    ghost Value = { List ℕ };

    ghost view = { λ c. take (c.end - c.at) (drop c.at c.bytes) };

    ghost invariant = { λ c. (c.at ≤ c.end) × (c.end ≤ length c.bytes) };
}

impl Chunk {
    /// No bytes.
    pub(crate) fn new() -> Chunk
        ensures { result ≡ [] }
    {
        Chunk {
            bytes: [0; ROOM],
            at: 0,
            end: 0,
        }
    }

    /// The bytes.
    pub(crate) fn bytes(&self) -> &[u8]
        ensures { result.now ≡ self.now }
    {
        &self.bytes[self.at..self.end]
    }

    /// Takes so many of the bytes away.
    pub(crate) fn skip(&mut self, count: usize)
        requires { count ≤ length self.old }
        ensures { self.new ≡ drop count self.old }
    {
        self.at += count;
    }

    /// Reads some bytes, at most `most`, in the place of those that are there. None says that nothing is left.
    pub(crate) fn fill<S: Source>(&mut self, source: &mut S, most: usize) -> Result<(), Failed>
        requires { 0 < most }
        ensures moves { IfOk result (λ _.
            Moves (S.left source.old) (S.left source.new) (length self.new) self.new) }
        ensures within { IfOk result (λ _. length self.new ≤ most) }
        ensures few { length self.new ≤ most_ahead }
        ensures end { IfOk result (λ _. self.new ≡ [] → IsAtEnd (S.left source.old)) }
        ensures none { OnErr result (self.new ≡ []) }
        ensures err { OnErr result (StaysTold (S.left source.old) (S.left source.new)) }
        ensures fault { OnErr result (Rose (S.faults source.old) (S.faults source.new)) }
        ensures never_falls { S.faults source.old ≤ S.faults source.new }
    {
        let room = ROOM.min(most);
        self.at = 0;
        self.end = 0;
        self.end = source.read(&mut self.bytes[..room])?;
        Ok(())
    }
}
