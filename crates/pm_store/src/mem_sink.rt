// A sink in memory, for tests and for proofs about whole runs.

ghost use Rattle.std.specs.Prelude.{◌≡◌, ◌↔◌, ◌+◌, ◌<◌, ◌≤◌, ◌^◌, [], Some, IfOk, OnErr, IsErr, MatchResult, length, take, vec_len, vec_capacity};
ghost use Rattle.pm_store.specs.Outside.{Rose, StaysTold, GainsTold};
ghost use Rattle.pm_store.specs.MemSink.{SinkState, RefusesBytes, accepted, after_taking, after_fault};

use crate::{Failed, Sink};
use std::alloc::{AllocError, Global};
use std::marker::Model;

/// Takes bytes into memory that it holds from the start, up to a fixed number of them in all.
/// Its calls are numbered from 0. Those whose numbers are listed fail, and so does one that finds no room.
/// The number of a call stays at `u64::MAX` once it stands there.
#[derive(Drop)]
pub struct MemSink {
    bytes: Vec<u8>,
    room: usize,
    fail: Vec<u64>,
    calls: u64,
    faults: u64,
}

impl Model for MemSink {
    ghost Value = { SinkState };

    ghost view = { λ s. record {
      taken = s.bytes.items;
      room = s.room;
      failing = s.fail.items;
      calls = s.calls;
      faults = s.faults;
    } };

    ghost invariant = { λ s. (vec_len s.bytes ≤ s.room) × (s.room ≤ vec_capacity s.bytes) };
}

impl MemSink {
    /// A sink that takes the memory for `room` bytes here, and none later, and fails at the calls in `fail`.
    pub fn new(alloc: Global, room: usize, fail: Vec<u64>) -> Result<MemSink, AllocError>
        ensures taken { IfOk result (λ s. ⟦<MemSink as Sink>⟧.taken s ≡ Some []) }
        ensures faults { IfOk result (λ s. ⟦<MemSink as Sink>⟧.faults s ≡ 0) }
        ensures state { IfOk result (λ s. s ≡ record {
          taken = [];
          room = room;
          failing = fail.items;
          calls = 0;
          faults = 0;
        }) }
    {
        let bytes = Vec::with_capacity(alloc, room)?;
        Ok(MemSink {
            bytes,
            room,
            fail,
            calls: 0,
            faults: 0,
        })
    }

    /// The bytes that were taken.
    pub fn bytes(&self) -> &[u8]
        ensures taken { ⟦<MemSink as Sink>⟧.taken self.now ≡ Some result.now }
        ensures within { length result.now ≤ self.now.room }
    {
        &self.bytes
    }
}

impl Sink for MemSink {
    ghost taken = { λ s. Some s.taken };

    ghost faults = { λ s. s.faults };

    fn write(&mut self, piece: &[u8]) -> Result<usize, Failed>
        // As at every sink.
        ensures within { IfOk result (λ k. k ≤ length piece.now) }
        ensures takes { IfOk result (λ k.
            GainsTold (Some self.old.taken) (Some self.new.taken) (take k piece.now)) }
        ensures some { 0 < length piece.now → IfOk result (λ k. 0 < k) }
        ensures err { OnErr result (StaysTold (Some self.old.taken) (Some self.new.taken)) }
        ensures fault { OnErr result (Rose self.old.faults self.new.faults) }
        ensures never_falls { self.old.faults ≤ self.new.faults }
        ensures count_fits { self.new.faults < 2 ^ 64 }

        // It fails at the listed calls and where it is full alone, and else takes as many bytes as it may.
        ensures fails { IsErr result ↔ RefusesBytes self.old piece.now }
        ensures accepts { IfOk result (λ k. k ≡ accepted self.old (length piece.now)) }
        ensures after { MatchResult result (λ k. self.new ≡ after_taking self.old (take k piece.now)) (λ _.
            self.new ≡ after_fault self.old) }
    {
        let number = self.calls;
        self.calls = self.calls.saturating_add(1);
        let left = self.room - self.bytes.len();
        if self.fail.contains(&number) || (left == 0 && !piece.is_empty()) {
            self.faults = self.faults.saturating_add(1);
            return Err(Failed);
        }
        let count = left.min(piece.len());
        let Ok(()) = self.bytes.extend_from_slice(&piece[..count]) else {
            unreachable!()
        };
        Ok(count)
    }
}
