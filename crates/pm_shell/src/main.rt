//! The program: a script from standard input, answered on standard output. It knows nothing of how an answer is
//! found.
#![tactic(auto)]

ghost use Rattle.std.specs.Prelude.{IfErr, IfOk, drop, ◌≡◌, ◌⊎◌};
ghost use Rattle.std.specs.Vec.Iter.{into_iter_items};

use pm_run::{Status, polymake_with_shipped};
use pm_store::{DirStore, StdSink, StdSource};
use std::alloc::{AllocError, Global};
use std::env;
use std::env::{Args, FillError};
use std::io::ErrorKind;
use std::process::ExitCode;
use std::rt::Env;

/// Whether there is a word after the program's name.
fn has_word(rt: &impl Env) -> bool {
    !matches!(rt.arg(1, &mut [0u8; 1]), Err(FillError::NotPresent))
}

/// All words but the first.
fn after_first(alloc: Global, args: Args) -> Result<Vec<String>, AllocError>
    ensures { IfOk result (λ words. words.items ≡ drop 1 (into_iter_items args)) }
{
    let mut rest = args;
    rest.next();
    let mut words = Vec::new(alloc);
    for word in rest {
        words.push(word)?;
    }
    Ok(words)
}

/// The words after the program's name, or the status where they cannot be had.
/// A word that is no UTF-8 is a bad word as any other; the program's name may be no UTF-8.
fn words_after_name<R: Env + AllocGlobal>(rt: &R) -> Result<Vec<String>, Status>
    ensures { IfErr result (λ s. (s ≡ Status.BadWords) ⊎ (s ≡ Status.OutOfMemory)) }
{
    let alloc = rt.alloc();
    match env::args(rt) {
        Ok(args) => after_first(alloc, args).map_err(|_: AllocError| Status::OutOfMemory),
        Err(e) if e.kind() == ErrorKind::OutOfMemory => Err(Status::OutOfMemory),
        Err(_) if has_word(rt) => Err(Status::BadWords),
        Err(_) => Ok(Vec::new(alloc)),
    }
}

fn main(rt: HostRuntime) -> ExitCode {
    let alloc = rt.alloc();
    let mut source = StdSource::new(rt.stdin());
    let mut sink = StdSink::new(rt.stdout());
    let mut store = DirStore::new(&rt);
    let status = match words_after_name(&rt) {
        Ok(words) => polymake_with_shipped(alloc, &words, &mut source, &mut sink, &mut store),
        Err(status) => status,
    };
    ExitCode::from(status.number())
}
