// Named files.

ghost use Rattle.std.specs.Prelude.{◌≡◌, ℕ, ◌<◌, ◌≤◌, ◌^◌, List, Option, None, IfOk, IfSome, OnOk, OnErr, IsErrOf, vec_len, option_map};
ghost use Rattle.pm_store.specs.Outside.{Rose};
ghost use Rattle.pm_store.specs.Files.{AreTold, FilesStay, HasNamesOnce, IsPut, IsPutInPart, file_of, most_read, read_part};
ghost use Rattle.pm_store.specs.declared.store.StoreFail.TheVariants.{Failed as FailedStore, Memory};

use crate::Failed;
use pm_limits::MOST_FILE_BYTES;
use std::alloc::{AllocError, Global};
use thiserror::Error;

/// The most bytes of a file that are read: one more than a file may have.
pub(crate) const MOST_READ: usize = MOST_FILE_BYTES + 1;

/// Why a store did not do what it was asked.
#[derive(Clone, Copy, Debug, PartialEq, Eq, Error)]
pub enum StoreFail {
    /// Memory ran out.
    #[error("out of memory")]
    Memory,
    /// The store failed.
    #[error("the store failed")]
    Failed,
}

impl From<Failed> for StoreFail {
    ghost from_gives = { λ _ e. e ≡ FailedStore };

    fn from(_e: Failed) -> StoreFail {
        StoreFail::Failed
    }
}

impl From<AllocError> for StoreFail {
    ghost from_gives = { λ _ e. e ≡ Memory };

    fn from(_e: AllocError) -> StoreFail {
        StoreFail::Memory
    }
}

/// Named files.
pub trait Store {
    // The files, each with its name once, where the store tells them.
    ghost files: { Self → Option (List (List ℕ × List ℕ)) } = { λ _. None };

    // How many calls failed: a u64 that stays at its greatest value once it stands there.
    ghost faults: { Self → ℕ };

    /// The file of this name, or `None` where there is none.
    /// Of a file of more than 8,388,609 bytes it gives the first 8,388,609. It changes no file.
    fn get(&mut self, alloc: Global, name: &str) -> Result<Option<Vec<u8>>, StoreFail>
        ensures finds { IfOk result (λ found.
            IfSome (files self.old) (λ all. option_map (λ v. v.items) found
            ≡ read_part (file_of all name.now))) }
        ensures bound { IfOk result (λ found. IfSome found (λ v. vec_len v ≤ most_read)) }
        ensures stay { FilesStay (files self.old) (files self.new) }
        ensures fault { IsErrOf result StoreFail.Failed → Rose (faults self.old) (faults self.new) }
        ensures never_falls { faults self.old ≤ faults self.new }
        ensures count_fits { faults self.new < 2 ^ 64 };

    /// Gives the file of this name these bytes, whether there was one or not.
    /// After an error the file is as before, absent, or has some first bytes of these.
    /// Files of other names are as before.
    fn put(&mut self, alloc: Global, name: &str, bytes: &[u8]) -> Result<(), StoreFail>
        ensures puts { OnOk result (AreTold (IsPut name.now bytes.now) (files self.old) (files self.new)) }
        ensures err { OnErr result (AreTold (IsPutInPart name.now bytes.now) (files self.old)
            (files self.new)) }
        ensures once { IfSome (files self.new) HasNamesOnce }
        ensures fault { IsErrOf result StoreFail.Failed → Rose (faults self.old) (faults self.new) }
        ensures never_falls { faults self.old ≤ faults self.new }
        ensures count_fits { faults self.new < 2 ^ 64 };
}
