// What the engines answer to small rows that a hand answers: elimination, double description,
// thinning and linear programs, each by the call that has no second way by wide numbers.

ghost use Rattle.pm_types.specs.Forms.{HasPrimitiveRow};
ghost use Rattle.std.specs.Prelude.{All, ◌<◌};

use crate::rows::{row, rows, wholes};
use pm_dd::{extreme_rays, to_facets, to_generators};
use pm_elim::{echelon, null_space, rank, reduce};
use pm_fraction::{Fraction, Matrix};
use pm_json::read_text;
use pm_object::require_primitive_rows;
use pm_props::ObjectType;
use pm_redund::{thin_rays, thin_rows};
use pm_simplex::{LpAnswer, LpFail, Objective, maximise};
use pm_types::{PropId, Value};
use pm_vector::{Ints, lex_cmp};
use std::alloc::Global;
use std::cmp::Ordering;
use std::process::Abort;

// Whether these are the rows of a table.
fn are_rows(found: &[Ints], cols: usize, table: &[i128]) -> bool
    requires { 0 < cols }
{
    let mut wanted = table.chunks(cols);
    for row in found {
        let Some(entries) = wanted.next() else {
            return false;
        };
        if row.as_slice() != entries {
            return false;
        }
    }
    wanted.next().is_none()
}

#[test]
fn rows_have_an_order(rt: HostRuntime) {
    let alloc = rt.alloc();
    let first = row(&rt, alloc, [1, -2, 7].as_slice());
    let second = row(&rt, alloc, [1, 0, -9].as_slice());
    assert!(rt; lex_cmp(&first, &second) == Ordering::Less);
    assert!(rt; lex_cmp(&second, &first) == Ordering::Greater);
    assert!(rt; lex_cmp(&first, &first) == Ordering::Equal);
    assert!(rt; second.into_vec().as_slice() == [1, 0, -9].as_slice());
}

#[test]
fn rows_are_eliminated(rt: HostRuntime) {
    let alloc = rt.alloc();
    let plane = rows(&rt, alloc, 2, [2, 4, 1, 3].as_slice());
    assert!(rt; plane.len() == 2);
    let basis = echelon(alloc, &plane, 2).expect(&rt, "a basis");
    assert!(rt; are_rows(&basis.rows, 2, [1, 0, 0, 1].as_slice()));
    assert!(rt; basis.pivots.as_slice() == [0, 1].as_slice());
    assert!(rt; rank(alloc, &plane, 2).expect(&rt, "a rank") == 2);
    let ones = rows(&rt, alloc, 3, [1, 1, 1].as_slice());
    assert!(rt; ones.len() == 1);
    let nulls = null_space(alloc, &ones, 3).expect(&rt, "a basis");
    assert!(rt; are_rows(&nulls, 3, [1, 0, -1, 0, 1, -1].as_slice()));
}

#[test]
fn rows_are_reduced(rt: HostRuntime) {
    let alloc = rt.alloc();
    let line = rows(&rt, alloc, 2, [1, 0].as_slice());
    assert!(rt; line.len() == 1);
    let basis = echelon(alloc, &line, 2).expect(&rt, "a basis");
    let mut reduced = row(&rt, alloc, [3, 1].as_slice());
    reduce(alloc, &basis, &mut reduced).expect(&rt, "a row");
    assert!(rt; reduced.as_slice() == [0, 1].as_slice());
}

// The quadrant by its half-spaces; a half line of points, by half-spaces and by points.
#[test]
fn cones_are_described(rt: HostRuntime) {
    let alloc = rt.alloc();
    let quadrant = rows(&rt, alloc, 2, [0, 1, 1, 0].as_slice());
    let none: Vec<Ints> = Vec::new(alloc);
    assert!(rt; quadrant.len() == 2 && none.is_empty());
    let g = extreme_rays(alloc, &quadrant, 2).expect(&rt, "rays");
    assert!(rt; are_rows(&g.rays, 2, [0, 1, 1, 0].as_slice()) && g.lineality.is_empty());
    let half = rows(&rt, alloc, 2, [0, 1].as_slice());
    assert!(rt; half.len() == 1);
    let g = to_generators(alloc, ObjectType::Polytope, 2, &half, &none).expect(&rt, "rays");
    assert!(rt; are_rows(&g.rays, 2, [0, 1, 1, 0].as_slice()) && g.lineality.is_empty());
    let point = rows(&rt, alloc, 2, [2, 1].as_slice());
    assert!(rt; point.len() == 1);
    let f = to_facets(alloc, 2, &point, &none).expect(&rt, "facets");
    assert!(rt; are_rows(&f.facets, 2, [0, 1].as_slice()));
    assert!(rt; are_rows(&f.hull, 2, [1, -2].as_slice()));
}

// Of three points of a line two are its ends; of three half-spaces of a line one cuts nothing off.
#[test]
fn rows_are_thinned(rt: HostRuntime) {
    let alloc = rt.alloc();
    let points = rows(&rt, alloc, 2, [1, 0, 1, 1, 1, 2].as_slice());
    let halves = rows(&rt, alloc, 2, [0, 1, 1, -1, 2, -1].as_slice());
    let none: Vec<Ints> = Vec::new(alloc);
    assert!(rt; points.len() == 3 && halves.len() == 3 && none.is_empty());
    let of = ObjectType::Polytope;
    let g = thin_rays(alloc, of, 2, &points, &none, false).expect(&rt, "rays");
    assert!(rt; are_rows(&g.rays, 2, [1, 0, 1, 2].as_slice()) && g.lineality.is_empty());
    let f = thin_rows(alloc, of, 2, &halves, &none, false).expect(&rt, "facets");
    assert!(rt; are_rows(&f.facets, 2, [0, 1, 1, -1].as_slice()) && f.hull.is_empty());
}

// Fractions as a text.
fn numbers(rt: &impl Abort, alloc: Global, numbers: &[Fraction]) -> String {
    let mut shown = String::new(alloc);
    for (place, number) in numbers.iter().enumerate() {
        let text = number.text(alloc).expect(rt, "room for a text");
        let before = if place == 0 { "(" } else { " " };
        shown.push_str(before).expect(rt, "room for a text");
        shown.push_str(&text).expect(rt, "room for a text");
    }
    shown.push(')').expect(rt, "room for a text");
    shown
}

// The greatest value of x + y on a polygon, with a point and the multipliers that show it; else the direction in which
// there is no bound, or the multipliers of rows that no point meets.
fn shown(rt: &impl Abort, alloc: Global, answer: &Result<LpAnswer, LpFail>) -> String {
    match answer {
        Ok(LpAnswer::Optimal { value, point, dual }) => {
            let mut text = numbers(rt, alloc, &[*value]);
            let (point, dual) = (numbers(rt, alloc, point), numbers(rt, alloc, dual));
            text.push_str(&point).expect(rt, "room for a text");
            text.push_str(&dual).expect(rt, "room for a text");
            text
        }
        Ok(LpAnswer::Unbounded { direction, .. }) => numbers(rt, alloc, direction),
        Ok(LpAnswer::Infeasible { multipliers }) => numbers(rt, alloc, multipliers),
        Err(_) => String::new(alloc),
    }
}

// What is answered of x + y on a polygon whose rows can be made primitive.
fn greatest(rt: &impl Abort, alloc: Global, polygon: &Matrix) -> String
    requires { All HasPrimitiveRow polygon.now.rows }
{
    let none = Matrix::new(alloc, 3);
    let row = wholes(rt, alloc, [0, 1, 1].as_slice());
    let objective = Objective { row };
    assert!(rt; polygon.cols() == 3 && polygon.rows() < 9 && objective.row.len() == 3);
    let answer = maximise(alloc, polygon, &none, &objective);
    let text = shown(rt, alloc, &answer);
    drop(answer);
    text
}

// What is answered on the polygon of a text.
fn greatest_on(rt: &impl Abort, alloc: Global, text: &str) -> String {
    let value = read_text(alloc, PropId::Points, text).expect(rt, "a value");
    assert!(rt; require_primitive_rows(alloc, PropId::Points, &value).is_ok());
    let shown = match &value {
        Value::Mat(polygon) => greatest(rt, alloc, polygon),
        _ => String::new(alloc),
    };
    drop(value);
    shown
}

// The unit square, a strip, and half-spaces without a common point. A multiple of the direction or of the last
// multipliers would be as right.
#[test]
fn programs_are_answered(rt: HostRuntime) {
    let alloc = rt.alloc();
    for (polygon, wanted) in [
        ("[[0,1,0],[0,0,1],[1,-1,0],[1,0,-1]]", "(2)(1 1 1)(0 0 1 1)"),
        ("[[0,1,0],[0,0,1],[1,0,-1]]", "(0 1 0)"),
        ("[[-1,1,0],[0,-1,0]]", "(1 1)"),
    ] {
        assert_eq!(rt;
            greatest_on(&rt, alloc, polygon).as_str(),
            wanted,
            "of {polygon}"
        );
    }
}
