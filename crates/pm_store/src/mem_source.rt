// A source in memory, for tests and for proofs about whole runs.

ghost use Rattle.std.specs.Prelude.{◌≡◌, ◌↔◌, ◌+◌, ◌++◌, ◌<◌, ◌≤◌, ◌^◌, Some, IfOk, OnErr, IsErr, MatchResult, Contains, length, drop, vec_len};
ghost use Rattle.pm_store.specs.Outside.{Rose, StaysTold, Moves, IsAtEnd};
ghost use Rattle.pm_store.specs.MemSource.{SourceState, given, after_giving, after_fault};

use crate::{Failed, Source};
use std::marker::Model;

/// Gives bytes that it holds, at most a fixed number of them a call.
/// Its calls are numbered from 0, and those whose numbers are listed fail.
/// The number of a call stays at `u64::MAX` once it stands there.
#[derive(Drop)]
pub struct MemSource {
    bytes: Vec<u8>,
    at: usize,
    piece: usize,
    fail: Vec<u64>,
    calls: u64,
    faults: u64,
}

impl Model for MemSource {
    ghost Value = { SourceState };

    ghost view = { λ s. record {
      left = drop s.at s.bytes.items;
      piece = s.piece;
      failing = s.fail.items;
      calls = s.calls;
      faults = s.faults;
    } };

    ghost invariant = { λ s. (s.at ≤ vec_len s.bytes) × (0 < s.piece) };
}

impl MemSource {
    /// A source of these bytes that gives at most `piece` of them a call and fails at the calls in `fail`.
    pub fn new(bytes: Vec<u8>, piece: usize, fail: Vec<u64>) -> MemSource
        requires { 0 < piece }
        ensures left { ⟦<MemSource as Source>⟧.left result ≡ Some bytes.items }
        ensures faults { ⟦<MemSource as Source>⟧.faults result ≡ 0 }
        ensures state { result ≡ record {
          left = bytes.items;
          piece = piece;
          failing = fail.items;
          calls = 0;
          faults = 0;
        } }
    {
        MemSource {
            bytes,
            at: 0,
            piece,
            fail,
            calls: 0,
            faults: 0,
        }
    }
}

impl Source for MemSource {
    ghost left = { λ s. Some s.left };

    ghost faults = { λ s. s.faults };

    fn read(&mut self, buf: &mut [u8]) -> Result<usize, Failed>
        // As at every source.
        ensures within { IfOk result (λ k. k ≤ length buf.new) }
        ensures same_length { length buf.new ≡ length buf.old }
        ensures moves { IfOk result (λ k. Moves (Some self.old.left) (Some self.new.left) k buf.new) }
        ensures end { IfOk result (λ k. k ≡ 0 → 0 < length buf.new → IsAtEnd (Some self.old.left)) }
        ensures err { OnErr result (StaysTold (Some self.old.left) (Some self.new.left)) }
        ensures fault { OnErr result (Rose self.old.faults self.new.faults) }
        ensures never_falls { self.old.faults ≤ self.new.faults }
        ensures count_fits { self.new.faults < 2 ^ 64 }

        // It fails at the listed calls alone, and else gives as many bytes as it may.
        ensures fails { IsErr result ↔ Contains self.old.failing self.old.calls }
        ensures gives { IfOk result (λ k. k ≡ given self.old (length buf.old)) }
        ensures after { MatchResult result (λ k. self.new ≡ after_giving self.old k) (λ _.
            self.new ≡ after_fault self.old) }
        ensures others { MatchResult result (λ k. drop k buf.new ≡ drop k buf.old) (λ _. buf.new ≡ buf.old) }
    {
        let number = self.calls;
        self.calls = self.calls.saturating_add(1);
        if self.fail.contains(&number) {
            self.faults = self.faults.saturating_add(1);
            return Err(Failed);
        }
        let left = self.bytes.len() - self.at;
        let count = left.min(self.piece).min(buf.len());
        let end = self.at + count;
        put_front(buf, &self.bytes[self.at..end]);
        self.at = end;
        Ok(count)
    }
}

// Copies the bytes to the front of the buffer.
fn put_front(buf: &mut [u8], bytes: &[u8])
    requires { length bytes.now ≤ length buf.old }
    ensures { buf.new ≡ bytes.now ++ drop (length bytes.now) buf.old }
{
    let count = bytes.len();
    buf[..count].copy_from_slice(&bytes[..count]);
}
