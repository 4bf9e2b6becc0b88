// A script that makes an object, asks it and saves it, over devices of which each call fails in turn, and in pieces.

use crate::devices::{Case, PLAIN, end_of};
use std::alloc::Global;
use std::process::Abort;

// What a call that fails is one of.
#[derive(Clone, Copy, PartialEq, Eq)]
enum Device {
    Source,
    Sink,
    Store,
}

// A segment by its ends and its facets, which ends lie in which facets, and its file. The lines end at the bytes 15,
// 45, 74, 100 and 109.
const SCRIPT: &[u8] = b"new s Polytope\n\
take s VERTICES [[1,0],[1,1]]\n\
take s FACETS [[0,1],[1,-1]]\n\
give s VERTICES_IN_FACETS\n\
save s f\n";

const REPLIES: [&str; 5] = [
    "ok\n",
    "ok\n",
    "ok\n",
    "s VERTICES_IN_FACETS [[0],[1],{\"cols\":2}]\n",
    "ok\n",
];

const FILE: &str = "{\"CONE_AMBIENT_DIM\":2,\"FACETS\":[[\"0\",\"1\"],[\"1\",\"-1\"]],\
\"LINEALITY_SPACE\":[],\"VERTICES\":[[\"1\",\"0\"],[\"1\",\"1\"]],\
\"VERTICES_IN_FACETS\":[[0],[1],{\"cols\":2}],\"_computed\":[\"VERTICES_IN_FACETS\"],\
\"_excluded\":[],\"_profile\":2,\"_type\":\"polytope::Polytope<Rational>\"}\n";

// The call that fails, the exit status, how many of the replies are written, what is written in place of the next one,
// and whether the file is there. The source gives 32 bytes a call, and with call 4 it finds the end; a reply is one
// call of the sink; call 0 of the store puts the file, and call 1 is the test's own. A call that does not come fails
// nothing.
const ROWS: [(Device, u64, u8, usize, &str, bool); 14] = [
    (Device::Source, 0, 3, 0, "", false),
    (Device::Source, 1, 3, 1, "", false),
    (Device::Source, 2, 3, 2, "", false),
    (Device::Source, 3, 3, 3, "", false),
    (Device::Source, 4, 3, 5, "", true),
    (Device::Source, 5, 0, 5, "", true),
    (Device::Sink, 0, 4, 0, "", false),
    (Device::Sink, 1, 4, 1, "", false),
    (Device::Sink, 2, 4, 2, "", false),
    (Device::Sink, 3, 4, 3, "", false),
    (Device::Sink, 4, 4, 4, "", true),
    (Device::Sink, 5, 0, 5, "", true),
    (Device::Store, 0, 1, 4, "no 12 StoreFault\n", false),
    (Device::Store, 2, 0, 5, "", true),
];

// The first replies, and a text behind them.
fn replies(rt: &impl Abort, alloc: Global, count: usize, last: &str) -> String {
    let mut text = String::new(alloc);
    for reply in REPLIES.iter().take(count) {
        text.push_str(reply).expect(rt, "room for a reply");
    }
    text.push_str(last).expect(rt, "room for a reply");
    text
}

// The number, where the call is one of the device.
fn call_of(device: Device, failing: Device, call: u64) -> Option<u64> {
    if device == failing { Some(call) } else { None }
}

#[test]
fn each_call_fails_in_turn(rt: HostRuntime) {
    let alloc = rt.alloc();
    for (failing, call, status, count, last, saved) in ROWS {
        let case = Case {
            script: SCRIPT,
            piece: 32,
            source_fails: call_of(Device::Source, failing, call),
            sink_fails: call_of(Device::Sink, failing, call),
            store_fails: call_of(Device::Store, failing, call),
            ..PLAIN
        };
        let end = end_of(&rt, alloc, &case);
        let wanted = replies(&rt, alloc, count, last);
        let kept = if saved { FILE } else { "" };
        assert_eq!(rt; end.status, status, "call {call}");
        assert!(rt; end.text.as_slice() == wanted.as_bytes());
        assert!(rt; end.file.as_slice() == kept.as_bytes());
    }
}

// One byte a call, three, and all at once.
#[test]
fn pieces_of_a_script_are_one_script(rt: HostRuntime) {
    let alloc = rt.alloc();
    let wanted = replies(&rt, alloc, 5, "");
    for piece in [1, 3, 109] {
        let case = Case {
            script: SCRIPT,
            piece,
            ..PLAIN
        };
        let end = end_of(&rt, alloc, &case);
        assert_eq!(rt; end.status, 0);
        assert!(rt; end.text.as_slice() == wanted.as_bytes());
        assert!(rt; end.file.as_slice() == FILE.as_bytes());
    }
}

// A sink with room for a part of what is written to it: it has first bytes of the replies, and no more.
#[test]
fn a_full_sink_has_first_bytes_of_the_replies(rt: HostRuntime) {
    let alloc = rt.alloc();
    let wanted = replies(&rt, alloc, 5, "");
    for room in [0, 1, 3, 8, 20, 53] {
        let case = Case {
            script: SCRIPT,
            room,
            ..PLAIN
        };
        let end = end_of(&rt, alloc, &case);
        let first = wanted.as_bytes().get(..room).expect(&rt, "more bytes");
        assert_eq!(rt; end.status, 4, "room for {room}");
        assert!(rt; end.text.as_slice() == first);
    }
}
