// Values, data files and books as texts, both ways, and where a text is no book.

use pm_books::{BookFail, book_text, read_book};
use pm_files::{object_bytes, value_text};
use pm_filing::{FileFail, read_object};
use pm_fraction::{Fraction, NumError};
use pm_json::read_text;
use pm_standard::standard_kinds;
use pm_types::PropId;
use std::alloc::Global;
use std::process::Abort;

#[test]
fn fractions_are_reduced(rt: HostRuntime) {
    let alloc = rt.alloc();
    for (n, d, wanted) in [(2, -4, "-1/2"), (-6, -3, "2"), (0, -7, "0")] {
        let number = Fraction::new(n, d).expect(&rt, "a fraction");
        let text = number.text(alloc).expect(&rt, "room for a text");
        assert_eq!(rt; text.as_str(), wanted);
        assert!(rt; Fraction::read(wanted) == Ok(number));
    }
    assert!(rt; Fraction::new(1, 0) == Err(NumError::ZeroDenominator));
}

// A value as it is given and as it is printed, for each form of values.
const VALUES: [(PropId, &str, &str); 9] = [
    (
        PropId::Points,
        "[[1,\"2/4\"],[0,-3]]",
        "[[\"1\",\"1/2\"],[\"0\",\"-3\"]]",
    ),
    (
        PropId::VerticesInFacets,
        "[[2,0],[],[1],{\"cols\":4}]",
        "[[0,2],[],[1],{\"cols\":4}]",
    ),
    (PropId::Graph, "[[1],[0]]", "[[1],[0]]"),
    (PropId::ConeDim, "3", "3"),
    (PropId::Bounded, "true", "true"),
    (
        PropId::HasseDiagram,
        "[[[]],[[0],[1]],[[0,1]]]",
        "[[[]],[[0],[1]],[[0,1]]]",
    ),
    (PropId::FVector, "[4,4]", "[4,4]"),
    (PropId::MaximalValue, "\"-6/4\"", "\"-3/2\""),
    (PropId::MinimalValue, "\"-inf\"", "\"-inf\""),
];

#[test]
fn values_are_read_and_printed(rt: HostRuntime) {
    let alloc = rt.alloc();
    for (p, given, wanted) in VALUES {
        let value = read_text(alloc, p, given).expect(&rt, "a value");
        let text = value_text(alloc, p, &value).expect(&rt, "room for a text");
        assert_eq!(rt; text.as_str(), wanted);
    }
}

// A polytope with lines, and a cone.
const FILES: [&str; 2] = [
    "{\"CONE_AMBIENT_DIM\":3,\"LINEALITY_SPACE\":[[\"0\",\"1\",\"0\"]],\"VERTICES\":[[\"1\",\"0\",\"1/2\"],[\"0\",\"0\",\"1\"]],\"_computed\":[],\"_excluded\":[],\"_profile\":2,\"_type\":\"polytope::Polytope<Rational>\"}\n",
    "{\"CONE_AMBIENT_DIM\":2,\"INPUT_RAYS\":[],\"_computed\":[],\"_excluded\":[[\"dd_facets\",\"E1\"]],\"_profile\":2,\"_type\":\"polytope::Cone<Rational>\"}\n",
];

#[test]
fn files_are_read_and_written(rt: HostRuntime) {
    let alloc = rt.alloc();
    for text in FILES {
        let file = read_object(alloc, text.as_bytes()).expect(&rt, "a file");
        let bytes = object_bytes(alloc, &file).expect(&rt, "room for a file");
        assert!(rt; bytes.as_slice() == text.as_bytes());
        drop(file);
    }
    let broken = read_object(
        alloc,
        b"{\"_type\":\"polytope::Polytope<Rational>\",\"INEQUALITIES\":[[\"1\",\"0",
    );
    assert!(rt; matches!(&broken.err(), Some(FileFail::NotJson)));
}

// The fault of a text that is no book.
fn fault_of(rt: &impl Abort, alloc: Global, text: &str) -> Option<BookFail> {
    let kinds = standard_kinds(alloc).expect(rt, "room for kinds");
    read_book(alloc, text, &kinds).err()
}

const RULE: &str = "a : rule CONE_DIM : VERTICES, LINEALITY_SPACE { cone_dim_v } weight 1;\n";

const FAULTS: [(&str, BookFail); 8] = [
    (
        "a : rule CONE_DIM : VERTICES { nosuch } weight 1;",
        BookFail::UnknownClient(31),
    ),
    (
        "a : rule CONE_DIM : VERTICES { cone_dim_v } weight 1;",
        BookFail::SignatureMismatch(53),
    ),
    (
        "a : rule CONE_DIM : VERTICES { cone_dim_v } weight 0;",
        BookFail::WeightRange(51),
    ),
    (
        "a : rule CONE_DIM : VERTICES { cone_dim_v } weight 0.0;",
        BookFail::WeightRange(51),
    ),
    ("a : rule CONE_DIM : ", BookFail::Syntax(20)),
    (
        "a : rule CONE_DIM : VERTEX { cone_dim_v } weight 1;",
        BookFail::UnknownProperty(20),
    ),
    (
        "a : rule CONE_DIM : VERTICES { cone_dim_v } weight 1.1000001;",
        BookFail::WeightRange(51),
    ),
    (
        "a : rule FULL_DIM : CONE_DIM { full_dim } weight 1; a : rule",
        BookFail::SameLabel(52),
    ),
];

#[test]
fn first_faults_of_books_have_places(rt: HostRuntime) {
    let alloc = rt.alloc();
    for (text, fault) in FAULTS {
        assert!(rt; fault_of(&rt, alloc, text) == Some(fault), "of {text}");
    }
}

#[test]
fn books_are_read_and_printed(rt: HostRuntime) {
    let alloc = rt.alloc();
    let kinds = standard_kinds(alloc).expect(&rt, "room for kinds");
    let book = read_book(alloc, RULE, &kinds).expect(&rt, "a book");
    let text = book_text(alloc, &book).expect(&rt, "room for a text");
    assert_eq!(rt; text.as_str(), RULE);
}
