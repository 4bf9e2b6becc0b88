// A run over a source, a sink and a store in memory.

use pm_run::polymake_with_shipped;
use pm_store::{MemSink, MemSource, MemStore, Store};
use std::alloc::Global;
use std::process::Abort;

/// What a run is over: words, one behind another, files with their names, a script, how many bytes of it the source
/// gives a call, how many bytes the sink takes in all, and the call of each of the three that fails.
#[derive(Clone, Copy)]
pub(crate) struct Case<'a> {
    pub(crate) words: &'a str,
    pub(crate) files: &'a [(&'a str, &'a [u8])],
    pub(crate) script: &'a [u8],
    pub(crate) piece: usize,
    pub(crate) room: usize,
    pub(crate) source_fails: Option<u64>,
    pub(crate) sink_fails: Option<u64>,
    pub(crate) store_fails: Option<u64>,
}

/// No words and no files, an empty script in large pieces, a large sink, and no call that fails.
pub(crate) const PLAIN: Case<'static> = Case {
    words: "",
    files: &[],
    script: b"",
    piece: 65_536,
    room: 4096,
    source_fails: None,
    sink_fails: None,
    store_fails: None,
};

/// How a run ended: its exit status, what the sink took, and the file `f`, empty where there is none.
#[derive(Drop)]
pub(crate) struct End {
    pub(crate) status: u8,
    pub(crate) text: Vec<u8>,
    pub(crate) file: Vec<u8>,
}

// The list of one number, or of none.
fn listed(rt: &impl Abort, alloc: Global, call: Option<u64>) -> Vec<u64> {
    let mut calls = Vec::new(alloc);
    if let Some(number) = call {
        calls.push(number).expect(rt, "room for a number");
    }
    calls
}

/// The words, each a text of its own.
pub(crate) fn words_of(rt: &impl Abort, alloc: Global, words: &str) -> Vec<String> {
    let mut texts = Vec::new(alloc);
    for word in words.split_ascii_whitespace() {
        let text = String::from_str(alloc, word).expect(rt, "room for a word");
        texts.push(text).expect(rt, "room for a word");
    }
    texts
}

/// The source of a case.
pub(crate) fn source_of(rt: &impl Abort, alloc: Global, case: &Case<'_>) -> MemSource {
    assert!(rt; case.piece > 0);
    let bytes = case.script.to_vec(alloc).expect(rt, "room for a script");
    MemSource::new(bytes, case.piece, listed(rt, alloc, case.source_fails))
}

/// The sink of a case.
pub(crate) fn sink_of(rt: &impl Abort, alloc: Global, case: &Case<'_>) -> MemSink {
    MemSink::new(alloc, case.room, listed(rt, alloc, case.sink_fails)).expect(rt, "room for a text")
}

/// The store of a case. The calls that put its files are the first ones that are counted.
pub(crate) fn store_of(rt: &impl Abort, alloc: Global, case: &Case<'_>) -> MemStore {
    let mut store = MemStore::new(alloc, listed(rt, alloc, case.store_fails));
    for (name, bytes) in case.files {
        let put = store.put(alloc, name, bytes);
        assert!(rt; put.is_ok());
    }
    store
}

// The file `f` of the store, or nothing where there is none.
fn file_in(rt: &impl Abort, alloc: Global, store: &mut MemStore) -> Vec<u8> {
    match store.get(alloc, "f").expect(rt, "an answer of the store") {
        Some(bytes) => bytes,
        None => Vec::new(alloc),
    }
}

/// A run over a case, with the clients of the program. The last call of the store is the test's own.
pub(crate) fn end_of(rt: &impl Abort, alloc: Global, case: &Case<'_>) -> End {
    let words = words_of(rt, alloc, case.words);
    let mut source = source_of(rt, alloc, case);
    let mut sink = sink_of(rt, alloc, case);
    let mut store = store_of(rt, alloc, case);
    let ended = polymake_with_shipped(alloc, &words, &mut source, &mut sink, &mut store);
    let text = sink.bytes().to_vec(alloc).expect(rt, "room for a text");
    let file = file_in(rt, alloc, &mut store);
    End {
        status: ended.number(),
        text,
        file,
    }
}

/// A run over a case ends with this status, and the sink took this text.
pub(crate) fn check_end(rt: &impl Abort, alloc: Global, case: &Case<'_>, status: u8, text: &str) {
    let end = end_of(rt, alloc, case);
    assert_eq!(rt; end.status, status, "{}", case.words);
    assert!(rt; end.text.as_slice() == text.as_bytes(), "{text}");
}
