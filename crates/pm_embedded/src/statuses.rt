// The statuses of a run, each by runs that come to it.

use crate::devices::{Case, PLAIN, check_end, sink_of, source_of, store_of, words_of};
use crate::wanting::Wanting;
use pm_client::Client;
use pm_run::{polymake, polymake_with_shipped};
use pm_store::Source;

// A book of one rule, whose client no one has but who hands it in.
const OF_WANTING: &[u8] = b"w : rule CONE_DIM : VERTICES { wanting } weight 1;\n";

// Two lines of which the second is refused, in pieces of which the second ends it.
const TWICE: Case<'static> = Case {
    script: b"new s Polytope\nnew s Cone\n",
    piece: 20,
    ..PLAIN
};

const ONCE: &str = "ok\n";

const BOTH: &str = "ok\nno 3 NameTaken\n";

// A case over the clients of the program, the exit status, and the replies that are written.
const ANSWERED: [(Case<'static>, u8, &str); 7] = [
    (PLAIN, 0, ""),
    (
        Case {
            script: b"# a line without a reply\n\n",
            ..PLAIN
        },
        0,
        "",
    ),
    (
        Case {
            script: b"new s Polytope",
            ..PLAIN
        },
        0,
        ONCE,
    ),
    (TWICE, 1, BOTH),
    // A file that cannot be had is refused, and the next line is answered.
    (
        Case {
            script: b"load s f\nnew s Polytope\n",
            store_fails: Some(0),
            ..PLAIN
        },
        1,
        "no 12 StoreFault\nok\n",
    ),
    (
        Case {
            script: b"new s Polytope\nsave s f\nsave s f\nload t f\n",
            store_fails: Some(0),
            ..PLAIN
        },
        1,
        "ok\nno 12 StoreFault\nok\nok\n",
    ),
    (
        Case {
            words: "--rules book",
            files: &[("book", b"")],
            script: b"rules\n",
            ..PLAIN
        },
        0,
        "rules 0\n",
    ),
];

#[test]
fn what_is_answered_has_the_statuses_0_and_1(rt: HostRuntime) {
    let alloc = rt.alloc();
    for (case, status, text) in ANSWERED {
        check_end(&rt, alloc, &case, status, text);
    }
}

// The same, where not all is answered.
const ENDED: [(Case<'static>, u8, &str); 9] = [
    // The words are wrong, and nothing else is looked at: no book, and no source that fails.
    (
        Case {
            words: "--trace now",
            source_fails: Some(0),
            ..TWICE
        },
        2,
        "",
    ),
    (
        Case {
            words: "--rules none --demo 9",
            source_fails: Some(0),
            ..TWICE
        },
        2,
        "",
    ),
    // The source fails in the second line; or at once, and the sink has no call.
    (
        Case {
            source_fails: Some(1),
            ..TWICE
        },
        3,
        ONCE,
    ),
    (
        Case {
            source_fails: Some(0),
            sink_fails: Some(0),
            ..TWICE
        },
        3,
        "",
    ),
    // The sink fails in the second reply; or in the first one, before the source does.
    (
        Case {
            sink_fails: Some(1),
            ..TWICE
        },
        4,
        ONCE,
    ),
    (
        Case {
            source_fails: Some(1),
            sink_fails: Some(0),
            ..TWICE
        },
        4,
        "",
    ),
    // There is no such book, and no source that fails is read.
    (
        Case {
            words: "--rules none",
            source_fails: Some(0),
            ..TWICE
        },
        7,
        "",
    ),
    // The book is put by call 0 of the store, and cannot be had by call 1.
    (
        Case {
            words: "--rules=book",
            files: &[("book", b"")],
            store_fails: Some(1),
            ..TWICE
        },
        7,
        "",
    ),
    // The book names a client that the program does not have.
    (
        Case {
            words: "--rules=book",
            files: &[("book", OF_WANTING)],
            ..TWICE
        },
        7,
        "",
    ),
];

#[test]
fn what_ends_a_run_has_a_status_of_its_own(rt: HostRuntime) {
    let alloc = rt.alloc();
    for (case, status, text) in ENDED {
        check_end(&rt, alloc, &case, status, text);
    }
}

// With a client that never has memory, the line that starts it is the last.
#[test]
fn want_of_memory_has_the_status_5(rt: HostRuntime) {
    let alloc = rt.alloc();
    let mut clients: Vec<Box<dyn Client>> = Vec::new(alloc);
    let client = Box::new(alloc, Wanting { starts: 0 }).expect(&rt, "a client");
    clients.push(client).expect(&rt, "a place for a client");
    let case = Case {
        files: &[("book", OF_WANTING)],
        script: b"new s Polytope\ntake s VERTICES [[1,0]]\ngive s CONE_DIM\nlookup s CONE_DIM\n",
        ..PLAIN
    };
    let words = words_of(&rt, alloc, "--rules book");
    let mut source = source_of(&rt, alloc, &case);
    let mut sink = sink_of(&rt, alloc, &case);
    let mut store = store_of(&rt, alloc, &case);
    let ended = polymake(
        alloc,
        &words,
        &mut clients,
        &mut source,
        &mut sink,
        &mut store,
    );
    assert_eq!(rt; ended.number(), 5);
    assert!(rt; sink.bytes() == b"ok\nok\n".as_slice());
    assert_eq!(rt; clients.len(), 1);
    assert_eq!(rt; clients[0].starts(), 1);
}

// A demo stands in the place of the source: of that no call is made, and so the one that fails is still to come.
#[test]
fn a_demo_reads_no_source(rt: HostRuntime) {
    let alloc = rt.alloc();
    let case = Case {
        script: b"frob\n",
        source_fails: Some(0),
        ..PLAIN
    };
    let words = words_of(&rt, alloc, "--demo 1");
    let mut source = source_of(&rt, alloc, &case);
    let mut sink = sink_of(&rt, alloc, &case);
    let mut store = store_of(&rt, alloc, &case);
    let ended = polymake_with_shipped(alloc, &words, &mut source, &mut sink, &mut store);
    assert_eq!(rt; ended.number(), 0);
    assert!(rt; !sink.bytes().is_empty());
    assert!(rt; source.read(&mut [0u8; 1]).is_err());
}
