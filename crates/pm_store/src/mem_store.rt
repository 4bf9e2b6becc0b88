// A store in memory, for tests and for proofs about whole runs.

ghost use Rattle.std.specs.Prelude.{◌≡◌, ◌↔◌, ◌+◌, ◌<◌, ◌≤◌, ◌^◌, [], Some, IfOk, IfSome, IfErr, OnOk, OnErr, IsErr, IsErrOf, MatchResult, map, vec_len, option_map, position, bytes_eq, string_bytes};
ghost use Rattle.pm_store.specs.Outside.{Rose};
ghost use Rattle.pm_store.specs.Files.{AreTold, FilesStay, HasNamesOnce, IsPut, IsPutInPart, file_of, most_read, read_part};
ghost use Rattle.pm_store.specs.MemStore.{StoreFails, StoreState, after_call, after_fault, after_put, after_refusal, put_file, seen_file};

use crate::Failed;
use crate::store::{MOST_READ, Store, StoreFail};
use std::alloc::{AllocError, Global};
use std::marker::Model;

#[derive(Drop)]
struct StoredFile {
    name: String,
    bytes: Vec<u8>,
}

/// Keeps files in memory, in the order in which their names came.
/// Its calls are numbered from 0, and those whose numbers are listed fail.
/// The number of a call stays at `u64::MAX` once it stands there.
/// A call that fails, or for which memory runs out, changes no file.
#[derive(Drop)]
pub struct MemStore {
    files: Vec<StoredFile>,
    fail: Vec<u64>,
    calls: u64,
    faults: u64,
}

impl Model for MemStore {
    ghost Value = { StoreState };

    ghost view = { λ s. record {
      files = map seen_file s.files.items;
      failing = s.fail.items;
      calls = s.calls;
      faults = s.faults;
    } };

    ghost invariant = { λ s. HasNamesOnce (map seen_file s.files.items) };
}

/// The place of the file of this name.
fn place_of(files: &[StoredFile], name: &str) -> Option<usize>
    ensures { result ≡ position (λ file. bytes_eq (string_bytes file.name) name.now) files.now }
{
    files.iter().position(|file| file.name.as_str() == name)
}

/// Puts the bytes in the place of the file of this name, or last where there is none.
fn put_file(
    alloc: Global,
    files: &mut Vec<StoredFile>,
    name: &str,
    bytes: &[u8],
) -> Result<(), AllocError>
    ensures ok { OnOk result (map seen_file files.new.items
        ≡ put_file (map seen_file files.old.items) name.now bytes.now) }
    ensures err { OnErr result (files.new.items ≡ files.old.items) }
{
    let content = bytes.to_vec(alloc)?;
    match place_of(files, name) {
        Some(place) => files[place].bytes = content,
        None => {
            let name = String::from_str(alloc, name)?;
            files.push(StoredFile {
                name,
                bytes: content,
            })?;
        }
    }
    Ok(())
}

impl MemStore {
    /// A store with no files that fails at the calls in `fail`.
    pub fn new(alloc: Global, fail: Vec<u64>) -> MemStore
        ensures files { ⟦<MemStore as Store>⟧.files result ≡ Some [] }
        ensures faults { ⟦<MemStore as Store>⟧.faults result ≡ 0 }
        ensures state { result ≡ record {
          files = [];
          failing = fail.items;
          calls = 0;
          faults = 0;
        } }
    {
        MemStore {
            files: Vec::new(alloc),
            fail,
            calls: 0,
            faults: 0,
        }
    }

    /// Counts a call, and fails where its number is listed.
    fn begin(&mut self) -> Result<(), Failed>
        ensures fails { IsErr result ↔ StoreFails self.old }
        ensures after { MatchResult result (λ _. self.new ≡ after_call self.old) (λ _.
            self.new ≡ after_fault self.old) }
        ensures once { HasNamesOnce self.new.files }
        ensures never_falls { self.old.faults ≤ self.new.faults }
    {
        let number = self.calls;
        self.calls = self.calls.saturating_add(1);
        if self.fail.contains(&number) {
            self.faults = self.faults.saturating_add(1);
            return Err(Failed);
        }
        Ok(())
    }
}

impl Store for MemStore {
    ghost files = { λ s. Some s.files };

    ghost faults = { λ s. s.faults };

    fn get(&mut self, alloc: Global, name: &str) -> Result<Option<Vec<u8>>, StoreFail>
        // As at every store.
        ensures finds { IfOk result (λ found.
            IfSome (Some self.old.files) (λ all. option_map (λ v. v.items) found
            ≡ read_part (file_of all name.now))) }
        ensures bound { IfOk result (λ found. IfSome found (λ v. vec_len v ≤ most_read)) }
        ensures stay { FilesStay (Some self.old.files) (Some self.new.files) }
        ensures fault { IsErrOf result StoreFail.Failed → Rose self.old.faults self.new.faults }
        ensures never_falls { self.old.faults ≤ self.new.faults }
        ensures count_fits { self.new.faults < 2 ^ 64 }

        // It fails at the listed calls alone.
        ensures fails { IsErrOf result StoreFail.Failed ↔ StoreFails self.old }
        ensures after { MatchResult result (λ _. self.new ≡ after_call self.old) (λ e.
            self.new ≡ after_refusal self.old e) }
    {
        self.begin()?;
        let Some(place) = place_of(&self.files, name) else {
            return Ok(None);
        };
        let bytes = &self.files[place].bytes;
        let count = bytes.len().min(MOST_READ);
        let part = bytes[..count].to_vec(alloc)?;
        Ok(Some(part))
    }

    fn put(&mut self, alloc: Global, name: &str, bytes: &[u8]) -> Result<(), StoreFail>
        // As at every store.
        ensures puts { OnOk result (AreTold (IsPut name.now bytes.now) (Some self.old.files)
            (Some self.new.files)) }
        ensures err { OnErr result (AreTold (IsPutInPart name.now bytes.now) (Some self.old.files)
            (Some self.new.files)) }
        ensures once { IfSome (Some self.new.files) HasNamesOnce }
        ensures fault { IsErrOf result StoreFail.Failed → Rose self.old.faults self.new.faults }
        ensures never_falls { self.old.faults ≤ self.new.faults }
        ensures count_fits { self.new.faults < 2 ^ 64 }

        // It fails at the listed calls alone, and changes no other file and no order of files.
        ensures fails { IsErrOf result StoreFail.Failed ↔ StoreFails self.old }
        ensures after { MatchResult result (λ _. self.new ≡ after_put self.old name.now bytes.now) (λ e.
            self.new ≡ after_refusal self.old e) }
    {
        self.begin()?;
        put_file(alloc, &mut self.files, name, bytes)?;
        Ok(())
    }
}
