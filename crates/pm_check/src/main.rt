//! A checker of printed plans and of books of rules. It knows nothing of the planner that prints plans.
//!
//! `check-plan [--program] [--rules BOOK] TYPE [HELD ..] : ASKED .. [! BARRED ..]` reads from standard input what
//! `explain` printed, and writes `least W` where it is a plan that proves itself least, `no chain` where it is a
//! refusal that proves that there is none, and else `no N` with the number of the first line at fault. `check-book
//! FILE` writes `ok N` where the file of this folder is a book of N rules, and else its first fault with its line and
//! column.
//! Statuses: 0 where it is right, 1 where it is not, 2 wrong words, 3 standard input failed or is too long, 4 standard
//! output failed, 5 no memory, 7 no such book.
#![tactic(auto)]

mod book;
mod examples;
mod laws;
mod plan;
mod run;
mod status;
mod words;

use pm_store::{DirStore, StdSink, StdSource};
use run::checker;
use status::NoAnswer;
use std::alloc::AllocGlobal;
use std::env;
use std::io::ErrorKind;
use std::process::ExitCode;
use std::rt::Env;

// The words after the program's name, or why they cannot be had.
fn words_after_name<R: Env + AllocGlobal>(rt: &R) -> Result<Vec<String>, NoAnswer> {
    let alloc = rt.alloc();
    match env::args(rt) {
        Ok(args) => Ok(args.skip(1).collect(alloc)?),
        Err(e) if e.kind() == ErrorKind::OutOfMemory => Err(NoAnswer::Memory),
        Err(_) => Err(NoAnswer::BadWords),
    }
}

fn main(rt: HostRuntime) -> ExitCode {
    let alloc = rt.alloc();
    let mut source = StdSource::new(rt.stdin());
    let mut sink = StdSink::new(rt.stdout());
    let mut store = DirStore::new(&rt);
    let status = match words_after_name(&rt) {
        Ok(words) => checker(alloc, &words, &mut source, &mut sink, &mut store),
        Err(why) => why.status(),
    };
    ExitCode::from(status.number())
}
