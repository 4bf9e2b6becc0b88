//! The outside: where a script comes from, where its replies go, and where files are kept. It knows nothing of
//! commands, and of what files hold.
#![tactic(auto)]

ghost use Rattle.std.specs.Prelude.{◌≡◌, ℕ, ◌+◌, ◌<◌, ◌≤◌, ◌^◌, List, Option, None, IfOk, OnErr, length, take};
ghost use Rattle.pm_store.specs.Outside.{Rose, StaysTold, Moves, IsAtEnd, GainsTold};
ghost use Rattle.pm_store.specs.Examples.{FilesAreFound, FilesArePut, WordsNameFiles};

use thiserror::Error;

/// A read or a write failed.
#[derive(Clone, Copy, Debug, PartialEq, Eq, Error)]
#[error("a read or a write failed")]
pub struct Failed;

/// Where bytes come from.
pub trait Source {
    // The bytes that are left, where the source tells them.
    ghost left: { Self → Option (List ℕ) } = { λ _. None };

    // How many calls failed: a u64 that stays at its greatest value once it stands there.
    ghost faults: { Self → ℕ };

    /// Moves the first of the bytes that are left to the front of `buf`, and answers how many.
    /// 0, where `buf` has room, says that nothing is left. At `Failed` none was moved.
    /// `buf` keeps its length, and past the moved bytes it may hold anything afterwards.
    fn read(&mut self, buf: &mut [u8]) -> Result<usize, Failed>
        ensures within { IfOk result (λ k. k ≤ length buf.new) }
        ensures same_length { length buf.new ≡ length buf.old }
        ensures moves { IfOk result (λ k. Moves (left self.old) (left self.new) k buf.new) }
        ensures end { IfOk result (λ k. k ≡ 0 → 0 < length buf.new → IsAtEnd (left self.old)) }
        ensures err { OnErr result (StaysTold (left self.old) (left self.new)) }
        ensures fault { OnErr result (Rose (faults self.old) (faults self.new)) }
        ensures never_falls { faults self.old ≤ faults self.new }
        ensures count_fits { faults self.new < 2 ^ 64 };
}

/// Where bytes go.
pub trait Sink {
    // The bytes that were taken, where the sink tells them.
    ghost taken: { Self → Option (List ℕ) } = { λ _. None };

    // How many calls failed: a u64 that stays at its greatest value once it stands there.
    ghost faults: { Self → ℕ };

    /// Takes the first bytes of `piece`, and answers how many: of a piece that is not empty at least one.
    /// At `Failed` none was taken.
    fn write(&mut self, piece: &[u8]) -> Result<usize, Failed>
        ensures within { IfOk result (λ k. k ≤ length piece.now) }
        ensures takes { IfOk result (λ k. GainsTold (taken self.old) (taken self.new) (take k piece.now)) }
        ensures some { 0 < length piece.now → IfOk result (λ k. 0 < k) }
        ensures err { OnErr result (StaysTold (taken self.old) (taken self.new)) }
        ensures fault { OnErr result (Rose (faults self.old) (faults self.new)) }
        ensures never_falls { faults self.old ≤ faults self.new }
        ensures count_fits { faults self.new < 2 ^ 64 };
}

mod dir_store;
mod file_word;
mod mem_sink;
mod mem_source;
mod mem_store;
mod std_sink;
mod std_source;
mod store;
mod whole;

pub use dir_store::DirStore;
pub use file_word::is_file_word;
pub use mem_sink::MemSink;
pub use mem_source::MemSource;
pub use mem_store::MemStore;
pub use std_sink::StdSink;
pub use std_source::StdSource;
pub use store::{Store, StoreFail};
pub use whole::{ReadFail, read_up_to, write_all};

/// Files and their words, worked by hand: which file a name finds, what a put may leave, which words name files.
pub fn example_files()
    ensures found { FilesAreFound }
    ensures put { FilesArePut }
    ensures words { WordsNameFiles }
{}
