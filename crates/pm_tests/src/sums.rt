// Minkowski sums and common refinements of small objects, as files.

ghost use Rattle.pm_build.specs.Conditions.{sum_reads};
ghost use Rattle.pm_object.specs.Known.{IsKnown};
ghost use Rattle.pm_refine.specs.ObjectFans.{refine_reads};

use pm_build::{SumFail, minkowski};
use pm_files::{FileObject, object_bytes};
use pm_filing::load_object;
use pm_object::{Condition, Object};
use pm_refine::{RefinementFail, refine};
use pm_rules::Book;
use pm_types::PropId;
use std::alloc::Global;
use std::process::Abort;

// The object of a file.
fn loaded(rt: &impl Abort, alloc: Global, text: &str) -> Object {
    let book = Book::of_rules(Vec::new(alloc));
    let (object, _names) = load_object(alloc, &book, text.as_bytes()).expect(rt, "a file");
    object
}

// A polytope of which all is held that a sum reads.
fn polytope(rt: &impl Abort, alloc: Global, text: &str) -> Object
    ensures { IsKnown sum_reads result.state }
{
    let o = loaded(rt, alloc, text);
    assert!(rt; o.cols().is_some());
    assert!(rt; o.holds(None, PropId::Feasible));
    assert!(rt; o.holds(None, PropId::Vertices));
    assert!(rt; o.holds(None, PropId::LinealitySpace));
    o
}

// A fan of which all is held that a refinement reads.
fn fan(rt: &impl Abort, alloc: Global, text: &str) -> Object
    ensures { IsKnown refine_reads result.state }
{
    let o = loaded(rt, alloc, text);
    assert!(rt; o.cols().is_some());
    assert!(rt; o.holds(None, PropId::Vertices));
    assert!(rt; o.holds(None, PropId::LinealitySpace));
    assert!(rt; o.holds(None, PropId::MaximalCones));
    o
}

// Whether this is the text of the object.
fn is_text(rt: &impl Abort, alloc: Global, o: FileObject, text: &str) -> bool {
    let bytes = object_bytes(alloc, &o).expect(rt, "the text");
    drop(o);
    bytes.as_slice() == text.as_bytes()
}

// The sum of two polytopes, by their files.
fn sum_of(
    rt: &impl Abort,
    alloc: Global,
    first: &str,
    second: &str,
) -> Result<FileObject, SumFail> {
    let first = polytope(rt, alloc, first);
    let second = polytope(rt, alloc, second);
    let sum = minkowski(alloc, &first, &second);
    drop(first);
    drop(second);
    sum
}

// The common refinement of two fans, by their files.
fn refined_of(
    rt: &impl Abort,
    alloc: Global,
    first: &str,
    second: &str,
) -> Result<FileObject, RefinementFail> {
    let first = fan(rt, alloc, first);
    let second = fan(rt, alloc, second);
    let refined = refine(alloc, &first, &second);
    drop(first);
    drop(second);
    refined
}

// The square and its diagonal make a hexagon.
#[test]
fn points_are_added(rt: HostRuntime) {
    let alloc = rt.alloc();
    let square =
        r#"{"FEASIBLE":true,"LINEALITY_SPACE":[],"VERTICES":[["1","0","0"],["1","0","1"],["1","1","0"],["1","1","1"]],"_type":"polytope::Polytope<Rational>"}"#;
    let diagonal =
        r#"{"FEASIBLE":true,"LINEALITY_SPACE":[],"VERTICES":[["1","0","0"],["1","1","1"]],"_type":"polytope::Polytope<Rational>"}"#;
    let sum = sum_of(&rt, alloc, square, diagonal).expect(&rt, "a sum");
    let text =
        r#"{"INPUT_LINEALITY":[],"POINTS":[["1","0","0"],["1","1","1"],["1","0","1"],["1","1","2"],["1","1","0"],["1","2","1"],["1","1","1"],["1","2","2"]],"_computed":[],"_excluded":[],"_profile":2,"_type":"polytope::Polytope<Rational>"}
"#;
    assert!(rt; is_text(&rt, alloc, sum, text));
}

// A half-line from 1/2 and the point 1/4, beside a plane of lines; two points whose denominators have no common
// divisor.
#[test]
fn far_rows_stay_and_wide_sums_are_refused(rt: HostRuntime) {
    let alloc = rt.alloc();
    let half_line =
        r#"{"FEASIBLE":true,"LINEALITY_SPACE":[],"VERTICES":[["0","1"],["1","1/2"]],"_type":"polytope::Polytope<Rational>"}"#;
    let quarter =
        r#"{"FEASIBLE":true,"LINEALITY_SPACE":[["0","1"]],"VERTICES":[["1","1/4"]],"_type":"polytope::Polytope<Rational>"}"#;
    let sum = sum_of(&rt, alloc, half_line, quarter).expect(&rt, "a sum");
    let text =
        r#"{"INPUT_LINEALITY":[["0","1"]],"POINTS":[["1","3/4"],["0","1"]],"_computed":[],"_excluded":[],"_profile":2,"_type":"polytope::Polytope<Rational>"}
"#;
    assert!(rt; is_text(&rt, alloc, sum, text));
    let thin =
        r#"{"FEASIBLE":true,"LINEALITY_SPACE":[],"VERTICES":[["1","1/18446744073709551616"]],"_type":"polytope::Polytope<Rational>"}"#;
    let thinner =
        r#"{"FEASIBLE":true,"LINEALITY_SPACE":[],"VERTICES":[["1","1/18446744073709551615"]],"_type":"polytope::Polytope<Rational>"}"#;
    let wide = sum_of(&rt, alloc, thin, thinner).err();
    assert!(rt; matches!(&wide, Some(SumFail::Wide { column: 0, .. })));
    let empty =
        r#"{"FEASIBLE":false,"LINEALITY_SPACE":[],"VERTICES":[],"_type":"polytope::Polytope<Rational>"}"#;
    let refused = sum_of(&rt, alloc, thin, empty).err();
    assert!(rt; matches!(&refused, Some(SumFail::NotFit(Condition::Feasible))));
}

// The quadrants and the two sides of a line: the two quadrants that the line passes through are cut.
#[test]
fn cones_are_cut(rt: HostRuntime) {
    let alloc = rt.alloc();
    let quadrants =
        r#"{"FAN_AMBIENT_DIM":2,"LINEALITY_SPACE":[],"MAXIMAL_CONES":[[0,1],[1,2],[2,3],[0,3]],"RAYS":[["1","0"],["0","1"],["-1","0"],["0","-1"]],"_type":"fan::PolyhedralFan<Rational>"}"#;
    let sides =
        r#"{"FAN_AMBIENT_DIM":2,"LINEALITY_SPACE":[["1","-1"]],"MAXIMAL_CONES":[[0],[1]],"RAYS":[["1","1"],["-1","-1"]],"_type":"fan::PolyhedralFan<Rational>"}"#;
    let refined = refined_of(&rt, alloc, quadrants, sides).expect(&rt, "a refinement");
    let text =
        r#"{"FAN_AMBIENT_DIM":2,"LINEALITY_SPACE":[],"MAXIMAL_CONES":[[3,5],[1,3],[0,1],[0,2],[4,5],[2,4],{"cols":6}],"RAYS":[["-1","0"],["-1","1"],["0","-1"],["0","1"],["1","-1"],["1","0"]],"_computed":[],"_excluded":[],"_profile":2,"_type":"fan::PolyhedralFan<Rational>"}
"#;
    assert!(rt; is_text(&rt, alloc, refined, text));
    let line =
        r#"{"FAN_AMBIENT_DIM":1,"LINEALITY_SPACE":[],"MAXIMAL_CONES":[[0]],"RAYS":[["1"]],"_type":"fan::PolyhedralFan<Rational>"}"#;
    let refused = refined_of(&rt, alloc, quadrants, line).err();
    assert!(rt; matches!(&refused, Some(RefinementFail::NotFit(Condition::Columns))));
}
