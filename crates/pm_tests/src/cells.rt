// The cells of small lists of sites, which another program found by all affine functions through enough sites; and
// the evidence where a number leaves the range.

use crate::rows::{sites, wholes};
use pm_lift::{LiftFail, delaunay_cells, regular_cells};
use std::alloc::Global;
use std::process::Abort;

// The answer as a text.
fn shown(rt: &impl Abort, alloc: Global, answer: Result<Vec<Vec<u32>>, LiftFail>) -> String {
    let text = format!(in alloc; "{answer:?}").expect(rt, "room for a text");
    drop(answer);
    text
}

const MOST: i128 = 170_141_183_460_469_231_731_687_303_715_884_105_727;

// The cells of a list of sites with these heights.
fn cells_of(rt: &impl Abort, alloc: Global, table: &[i128], heights: &[i128]) -> String {
    let sites = sites(rt, alloc, table);
    let heights = wholes(rt, alloc, heights);
    assert!(rt; heights.len() == sites.len() && sites.len() < 9);
    shown(rt, alloc, regular_cells(alloc, 3, &sites, &heights, false))
}

// The Delaunay cells of a list of sites.
fn delaunay_of(rt: &impl Abort, alloc: Global, table: &[i128]) -> String {
    let sites = sites(rt, alloc, table);
    assert!(rt; sites.len() < 9);
    shown(rt, alloc, delaunay_cells(alloc, 3, &sites, false))
}

// The corners of a square, one above the others; a corner that is lifted lies under no cell; and a site that stands
// twice.
#[test]
fn maximal_lower_faces_are_the_cells(rt: HostRuntime) {
    let alloc = rt.alloc();
    let square = [1, 0, 0, 1, 1, 0, 1, 0, 1, 1, 1, 1];
    let lifted = cells_of(&rt, alloc, square.as_slice(), [0, 0, 0, 1].as_slice());
    assert!(rt; lifted.as_str() == "Ok([[0, 1, 2], [1, 2, 3]])");
    let twice = [1, 1, 1, 2, 2, 2, 1, 1, 1];
    let cells = cells_of(&rt, alloc, twice.as_slice(), [0, 0, 1].as_slice());
    assert!(rt; cells.as_str() == "Ok([[0, 1]])");
}

// The corners of a square lie on one circle; and of three corners of a triangle and a point within each edge has a
// cell.
#[test]
fn empty_circles_are_those_of_delaunay_cells(rt: HostRuntime) {
    let alloc = rt.alloc();
    let square = [2, 0, 0, 2, 2, 0, 2, 0, 2, 3, 3, 3];
    let cells = delaunay_of(&rt, alloc, square.as_slice());
    assert!(rt; cells.as_str() == "Ok([[0, 1, 2, 3]])");
    let triangle = [1, 0, 0, 1, 4, 0, 1, 0, 4, 1, 1, 1];
    let cells = delaunay_of(&rt, alloc, triangle.as_slice());
    assert!(rt; cells.as_str() == "Ok([[0, 1, 3], [0, 2, 3], [1, 2, 3]])");
    let refused = delaunay_of(&rt, alloc, [1, 0, 0, 1, MOST, 0].as_slice());
    assert!(rt; refused.as_str().starts_with("Err(Wide("));
}
