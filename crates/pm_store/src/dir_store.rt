// A store over the files of a folder.

ghost use Rattle.std.specs.Prelude.{◌≡◌, ◌≢◌, ◌<◌, ◌≤◌, ◌^◌, Err, IfOk, IfSome, None, Ok, vec_len};
ghost use Rattle.pm_store.specs.Files.{most_read};

use crate::store::{MOST_READ, Store, StoreFail};
use crate::whole::read_first;
use crate::{StdSource, is_file_word};
use std::alloc::Global;
use std::fs::{File, OpenFile};
use std::io::{ErrorKind, Write};
use std::rt::Files;
use std::{fs, io};

/// Keeps each file as one of the current folder, under its own name, and tells nothing of them.
/// A name that is no file word is refused, so no name leads out of the folder.
///
/// `put` writes a new file beside, under the name `.NAME.new`, and gives it the name where it is written whole.
/// So a reader finds the old file or the new one, and where `put` fails the old one stays.
/// The folder itself is not synchronized: after a loss of power it may have either.
/// Links are followed as the system does it: `get` reads what a link leads to, and `put` replaces the link.
///
/// Each error of the system is a fault, an interrupted call too, and so is a name that is no file word.
#[derive(Drop)]
pub struct DirStore<R> {
    folder: R,
    faults: u64,
    ghost in_range: { faults < 2 ^ 64 },
}

impl<R: Files + Drop> DirStore<R> {
    /// A store over the current folder of this runtime.
    pub fn new(folder: R) -> DirStore<R>
        ensures faults { ⟦<DirStore<R> as Store>⟧.faults result ≡ 0 }
    {
        DirStore { folder, faults: 0 }
    }
}

impl<R: Files + Drop> Store for DirStore<R> {
    ghost faults = { λ s. s.faults };

    fn get(&mut self, alloc: Global, name: &str) -> Result<Option<Vec<u8>>, StoreFail> {
        let found = read_named(&self.folder, alloc, name);
        if matches!(found, Err(StoreFail::Failed)) {
            self.faults = self.faults.saturating_add(1);
        }
        found
    }

    fn put(&mut self, alloc: Global, name: &str, bytes: &[u8]) -> Result<(), StoreFail> {
        let done = write_named(&self.folder, alloc, name, bytes);
        if matches!(done, Err(StoreFail::Failed)) {
            self.faults = self.faults.saturating_add(1);
        }
        done
    }
}

/// The first bytes of the file of this name, or `None` where there is none.
fn read_named<R: Files>(folder: &R, alloc: Global, name: &str) -> Result<Option<Vec<u8>>, StoreFail>
    ensures { IfOk result (λ found. IfSome found (λ v. vec_len v ≤ most_read)) }
{
    if !is_file_word(name) {
        return Err(StoreFail::Failed);
    }
    match File::open(folder, name) {
        Ok(file) => {
            let bytes = read_first(alloc, &mut StdSource::new(file), MOST_READ)?;
            Ok(Some(bytes))
        }
        Err(e) => unopened(e.kind()),
    }
}

/// What it is that a file could not be opened: that there is none of the name, or else a fault.
fn unopened(kind: ErrorKind) -> Result<Option<Vec<u8>>, StoreFail>
    ensures absent { kind ≡ ErrorKind.NotFound → result ≡ Ok None }
    ensures fault { kind ≢ ErrorKind.NotFound → result ≡ Err StoreFail.Failed }
{
    if kind == ErrorKind::NotFound {
        Ok(None)
    } else {
        Err(StoreFail::Failed)
    }
}

/// Writes the bytes beside the file of this name, and then puts them in its place.
fn write_named<R: Files>(
    folder: &R,
    alloc: Global,
    name: &str,
    bytes: &[u8],
) -> Result<(), StoreFail> {
    if !is_file_word(name) {
        return Err(StoreFail::Failed);
    }
    let beside = format!(in alloc; ".{name}.new")?;
    let _ = fs::remove_file(folder, beside.as_str());
    if write_beside(folder, beside.as_str(), name, bytes).is_err() {
        let _ = fs::remove_file(folder, beside.as_str());
        return Err(StoreFail::Failed);
    }
    Ok(())
}

/// Writes a new file, and renames it where it is written whole.
fn write_beside<R: Files>(folder: &R, beside: &str, name: &str, bytes: &[u8]) -> io::Result<()> {
    let mut file = File::create_new(folder, beside)?;
    file.write_all(bytes)?;
    file.sync_all()?;
    fs::rename(folder, beside, name)
}
