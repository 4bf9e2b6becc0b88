//! One linear program: from standard input its inequalities, its equations and its objective, each a line with a
//! matrix as JSON; on standard output the greatest value of the objective. It knows nothing of objects, rules and
//! sessions.
//!
//! A row (a0, a1, ..) of the inequalities says a0 + a1 x1 + .. >= 0, and of the equations that this is 0; the
//! objective is a matrix of one row. What is written is `optimal` and the value, `unbounded`, `infeasible`, or
//! `wide`, where numbers leave
//! 128 bits.
#![tactic(auto)]

mod problem;

use pm_limits::MOST_FILE_BYTES;
use pm_store::{Sink, StdSink, StdSource, read_up_to, write_all};
use problem::{Fault, answer_line};
use std::process::ExitCode;
use std::str;

fn main(rt: HostRuntime) -> ExitCode {
    let alloc = rt.alloc();
    let mut source = StdSource::new(rt.stdin());
    let mut sink = StdSink::new(rt.stdout());
    let Ok(bytes) = read_up_to(alloc, &mut source, MOST_FILE_BYTES) else {
        return ExitCode::from(3);
    };
    let Ok(text) = str::from_utf8(&bytes) else {
        return ExitCode::from(1);
    };
    match answer_line(alloc, text) {
        Ok(line) => match write_all(&mut sink, line.as_bytes()) {
            Ok(()) => ExitCode::from(0),
            Err(_) => ExitCode::from(4),
        },
        Err(Fault::Refused) => ExitCode::from(1),
        Err(Fault::Memory) => ExitCode::from(5),
    }
}
