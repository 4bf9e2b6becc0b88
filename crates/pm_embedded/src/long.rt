// Scripts and files at their limits.

use crate::devices::{Case, PLAIN, check_end};
use pm_limits::{MOST_FILE_BYTES, MOST_SCRIPT_BYTES};
use std::alloc::Global;
use std::process::Abort;

// The last line of a script, and its reply.
const LAST: &[u8] = b"\nnew s Polytope\n";

// One byte, so many times.
fn repeated(rt: &impl Abort, alloc: Global, byte: u8, count: usize) -> Vec<u8> {
    let mut bytes = Vec::new(alloc);
    bytes.resize(count, byte).expect(rt, "room for the bytes");
    bytes
}

// Long lines of `#`, and then the last one: so many bytes in all.
fn script_of(rt: &impl Abort, alloc: Global, count: usize) -> Vec<u8> {
    let mut line = repeated(rt, alloc, b'#', 65_535);
    line.push(b'\n').expect(rt, "room for an end of line");
    let mut script = Vec::with_capacity(alloc, count).expect(rt, "room for a script");
    for _ in 0..255 {
        script
            .extend_from_slice(&line)
            .expect(rt, "room for a line");
    }
    let rest = count
        .saturating_sub(script.len())
        .saturating_sub(LAST.len());
    script
        .extend_from_slice(&repeated(rt, alloc, b'#', rest))
        .expect(rt, "room for a line");
    script
        .extend_from_slice(LAST)
        .expect(rt, "room for the last line");
    script
}

// As many bytes as a script may have, and one more: then the last LF is not read, and its line is not answered.
#[test]
fn a_script_has_at_most_so_many_bytes(rt: HostRuntime) {
    let alloc = rt.alloc();
    for (count, status, text) in [
        (MOST_SCRIPT_BYTES, 0u8, "ok\n"),
        (MOST_SCRIPT_BYTES + 1, 6, ""),
    ] {
        let script = script_of(&rt, alloc, count);
        assert_eq!(rt; script.len(), count);
        let case = Case {
            script: &script,
            ..PLAIN
        };
        check_end(&rt, alloc, &case, status, text);
    }
}

// Opening brackets, and as many that close them.
fn brackets(rt: &impl Abort, alloc: Global, count: usize) -> Vec<u8> {
    let mut bytes = repeated(rt, alloc, b'[', count);
    bytes
        .extend_from_slice(&repeated(rt, alloc, b']', count))
        .expect(rt, "room for brackets");
    bytes
}

// A line that loads a file of these bytes is refused so.
fn check_loaded(rt: &impl Abort, alloc: Global, file: Vec<u8>, reply: &str) {
    let case = Case {
        files: &[("f", file.as_slice())],
        script: b"load p f\n",
        ..PLAIN
    };
    check_end(rt, alloc, &case, 1, reply);
}

// Brackets within 127 brackets are JSON, and no object; one more is no JSON that is read.
#[test]
fn brackets_stand_within_at_most_so_many(rt: HostRuntime) {
    let alloc = rt.alloc();
    for (count, wanted) in [
        (127, "no 13 BadFile NoType\n"),
        (128, "no 13 BadFile NotJson\n"),
        (4096, "no 13 BadFile NotJson\n"),
    ] {
        check_loaded(&rt, alloc, brackets(&rt, alloc, count), wanted);
    }
}

// A file of spaces, which is no JSON, and one more space than a file may have.
#[test]
fn a_file_has_at_most_so_many_bytes(rt: HostRuntime) {
    let alloc = rt.alloc();
    for (count, wanted) in [
        (MOST_FILE_BYTES, "no 13 BadFile NotJson\n"),
        (MOST_FILE_BYTES + 1, "no 13 BadFile Limit\n"),
    ] {
        let file = repeated(&rt, alloc, b' ', count);
        check_loaded(&rt, alloc, file, wanted);
    }
}
