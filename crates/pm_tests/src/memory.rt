// Sources, sinks and stores in memory that fail at stated calls, and what errors tell.

use pm_build::{BuildFail, Condition};
use pm_elim::{DualFail, ElimFail};
use pm_fraction::RowsFail;
use pm_json::ValueFail;
use pm_lines::{LineReader, LinesFail};
use pm_store::{MemSink, MemSource, MemStore, ReadFail, Store, read_up_to, write_all};
use std::alloc::Global;
use std::process::Abort;

// A source of a text that gives three bytes a call, and fails at this call.
fn source_of(rt: &impl Abort, alloc: Global, call: u64) -> MemSource {
    let text = b"one\ntwo\nthree\n".to_vec(alloc).expect(rt, "the text");
    MemSource::new(text, 3, [call].to_vec(alloc).expect(rt, "the calls"))
}

// 14 bytes in threes are five calls, and the sixth finds the end: at the fourth call two lines were given.
#[test]
fn what_came_before_a_fault_is_given(rt: HostRuntime) {
    let alloc = rt.alloc();
    let mut lines = LineReader::new(alloc);
    let mut source = source_of(&rt, alloc, 3);
    assert!(rt; lines.advance(&mut source) == Ok(true) && lines.line().text() == b"one".as_slice());
    assert!(rt; lines.advance(&mut source) == Ok(true) && lines.line().text() == b"two".as_slice());
    assert!(rt; lines.advance(&mut source) == Err(LinesFail::Fault));
    assert!(rt; read_up_to(alloc, &mut source_of(&rt, alloc, 6), 14).is_ok());
    let fault = read_up_to(alloc, &mut source_of(&rt, alloc, 5), 14).err();
    assert!(rt; fault == Some(ReadFail::Fault));
    let long = read_up_to(alloc, &mut source_of(&rt, alloc, 6), 13).err();
    assert!(rt; long == Some(ReadFail::TooLong));
}

// A sink fails at its second call and has room for five bytes; a store fails at its second call.
#[test]
fn what_there_is_room_for_is_kept(rt: HostRuntime) {
    let alloc = rt.alloc();
    let calls = [1u64].to_vec(alloc).expect(&rt, "the calls");
    let mut sink = MemSink::new(alloc, 5, calls).expect(&rt, "a sink");
    assert!(rt; write_all(&mut sink, b"abc").is_ok() && write_all(&mut sink, b"x").is_err());
    assert!(rt; write_all(&mut sink, b"def").is_err() && sink.bytes() == b"abcde".as_slice());
    let calls = [1u64].to_vec(alloc).expect(&rt, "the calls");
    let mut store = MemStore::new(alloc, calls);
    assert!(rt; store.put(alloc, "a", b"one").is_ok() && store.put(alloc, "a", b"two").is_err());
    let found = store
        .get(alloc, "a")
        .expect(&rt, "an answer")
        .expect(&rt, "a file");
    assert!(rt; found.as_slice() == b"one".as_slice());
    assert!(rt; store.get(alloc, "b").expect(&rt, "an answer").is_none());
}

#[test]
fn errors_have_texts(rt: HostRuntime) {
    let wide = RowsFail::Wide {
        row: 1,
        first: 1 << 126,
        second: 3,
    };
    let (lost, long) = (ReadFail::Fault, ReadFail::TooLong);
    let (memory, dependent) = (ElimFail::Memory, DualFail::Dependent);
    let (size, shape) = (BuildFail::NotFit(Condition::Size), ValueFail::Shape);
    let shown = format!(in rt.alloc();
        "{wide}; {lost}, {long}; {memory}, {dependent}; {size}, {shape}"
    );
    assert_eq!(rt;
        shown.expect(&rt, "room for a text").as_str(),
        "85070591730234615865843651857942052864 and 3 make a number that is too wide, in row 1; the source failed, the source is too long; out of memory, the rows are dependent; a condition does not hold, shape"
    );
}
