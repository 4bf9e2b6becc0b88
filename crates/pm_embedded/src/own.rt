// Scripts that are answered with a client of one's own.

use crate::answering::answer_script;
use crate::devices::{Case, PLAIN, sink_of, source_of, store_of, words_of};
use crate::no_rows::NoRows;
use pm_client::Client;
use pm_run::polymake;

// A book whose rule names the client, and one that has besides a rule of the program, whose client is not handed in.
const OF_NO_ROWS: &str = "e : rule INEQUALITIES : FACETS { no_rows } weight 1;\n";

const OF_BOTH: &str = "e : rule INEQUALITIES : FACETS { no_rows } weight 9;\n\
i : rule INEQUALITIES, EQUATIONS : FACETS, AFFINE_HULL { inequalities_from_facets } weight 1;\n";

// A segment by its facets.
const SEGMENT: &str = "new p Polytope\ntake p FACETS [[0,1],[1,-1]]\n";

// Words, the book that the store has, what is asked of the segment, the replies to that, and the exit status.
const ROWS: [(&str, &str, &str, &str, u8); 6] = [
    (
        "--rules two",
        OF_NO_ROWS,
        "give p INEQUALITIES\nhistory p\n",
        "p INEQUALITIES []\nrounds 1\nround 1: e -> done\n",
        0,
    ),
    (
        "--rules two --trace",
        OF_NO_ROWS,
        "give p INEQUALITIES\nlookup p EQUATIONS\n",
        "p INEQUALITIES []\nround 1: e -> done\nundef\n",
        0,
    ),
    // Of two rules the one runs whose client was handed in, though it is the dearer one.
    (
        "--rules two",
        OF_BOTH,
        "give p INEQUALITIES\nhistory p\n",
        "p INEQUALITIES []\nrounds 1\nround 9: e -> done\n",
        0,
    ),
    (
        "--rules two",
        OF_NO_ROWS,
        "unload no_rows\ngive p INEQUALITIES\n",
        "ok\nno 10 NoChain\n",
        1,
    ),
    // The standard book names no client that was handed in.
    ("", "", "give p INEQUALITIES\n", "no 10 NoChain\n", 1),
    // Where EQUATIONS is held, no rule may find the other half alone.
    (
        "--rules two",
        OF_NO_ROWS,
        "take p EQUATIONS []\ngive p INEQUALITIES\n",
        "ok\nno 10 NoChain\n",
        1,
    ),
];

#[test]
fn the_client_that_was_handed_in_answers(rt: HostRuntime) {
    let alloc = rt.alloc();
    for (words, book, asked, replies, status) in ROWS {
        let words = words_of(&rt, alloc, words);
        let script = format!(in alloc; "{SEGMENT}{asked}").expect(&rt, "room for a script");
        let wanted = format!(in alloc; "ok\nok\n{replies}").expect(&rt, "room for the replies");
        let case = Case {
            files: &[("two", book.as_bytes())],
            ..PLAIN
        };
        let mut sink = sink_of(&rt, alloc, &case);
        let mut store = store_of(&rt, alloc, &case);
        let ended = answer_script(alloc, &words, script.as_str(), &mut sink, &mut store);
        assert_eq!(rt; ended.number(), status, "{asked}");
        assert!(rt; sink.bytes() == wanted.as_bytes());
    }
}

// A client is started once for each round in which it answers, and what is known is not asked again.
#[test]
fn a_client_counts_its_starts(rt: HostRuntime) {
    let alloc = rt.alloc();
    let mut clients: Vec<Box<dyn Client>> = Vec::new(alloc);
    let client = Box::new(alloc, NoRows::new()).expect(&rt, "a client");
    clients.push(client).expect(&rt, "a place for a client");
    for (words, asked, starts) in [
        ("--rules none", "give p INEQUALITIES\n", 0),
        ("--rules two", "give p INEQUALITIES\n", 1),
        (
            "--rules two",
            "give p INEQUALITIES\ngive p INEQUALITIES\n",
            2,
        ),
    ] {
        let words = words_of(&rt, alloc, words);
        let script = format!(in alloc; "{SEGMENT}{asked}").expect(&rt, "room for a script");
        let case = Case {
            files: &[("two", OF_NO_ROWS.as_bytes())],
            script: script.as_bytes(),
            ..PLAIN
        };
        let mut source = source_of(&rt, alloc, &case);
        let mut sink = sink_of(&rt, alloc, &case);
        let mut store = store_of(&rt, alloc, &case);
        let _ended = polymake(
            alloc,
            &words,
            &mut clients,
            &mut source,
            &mut sink,
            &mut store,
        );
        assert_eq!(rt; clients.len(), 1);
        assert_eq!(rt; clients[0].starts(), starts);
    }
}
