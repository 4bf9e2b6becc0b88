// The placing triangulation of a square, by its corners in order.

use crate::rows::sites;
use pm_beneath::place;
use pm_vector::Ints;

// A triangle first; the last corner is beyond one of its edges.
#[test]
fn square_is_placed_as_two_triangles(rt: HostRuntime) {
    let alloc = rt.alloc();
    let square = sites(&rt, alloc, [1, 0, 0, 1, 1, 0, 1, 0, 1, 1, 1, 1].as_slice());
    assert!(rt; square.len() == 4);
    let no_lines: Vec<Ints> = Vec::new(alloc);
    let placing = place(alloc, 3, &square, &no_lines, false).expect(&rt, "a triangulation");
    let cells = format!(in alloc; "{:?}", &placing.simplices).expect(&rt, "room for a text");
    assert!(rt; cells.as_str() == "[[0, 1, 2], [1, 2, 3]]");
    assert!(rt; placing.facets.facets.len() == 4);
}
