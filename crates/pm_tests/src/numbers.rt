// Numbers of up to 512 bits, values as keys and in order, and copies.

ghost use Rattle.pm_vector.specs.WideInts.{IsFactor, value_of};

use crate::rows::{row, rows};
use pm_bits::BitRow;
use pm_dd::{DdFail, extreme_rays, wide_extreme_rays};
use pm_elim::dual_basis;
use pm_fraction::{Fraction, Matrix};
use pm_vector::{WideInt, primitive_combination};
use std::alloc::Global;
use std::collections::{BTreeMap, HashSet};
use std::process::Abort;

const MOST: i128 = 170_141_183_460_469_231_731_687_303_715_884_105_727;

const HALF: i128 = 85_070_591_730_234_615_865_843_651_857_942_052_864;

// The primitive row of p (MOST, 2, 0) - q (1, 1, 0), as a text.
fn combined(rt: &impl Abort, alloc: Global, p: WideInt, q: WideInt) -> String
    requires p_factor { IsFactor (value_of p) }
    requires q_factor { IsFactor (value_of q) }
{
    let first = row(rt, alloc, [MOST, 2, 0].as_slice());
    let second = row(rt, alloc, [1, 1, 0].as_slice());
    let found = primitive_combination(alloc, p, &first, q, &second);
    format!(in alloc; "{found:?}").expect(rt, "room for a text")
}

// The dual basis of rows of three entries, as a text.
fn duals_of(rt: &impl Abort, alloc: Global, table: &[i128]) -> String {
    let rows = rows(rt, alloc, 3, table);
    assert!(rt; rows.len() < 9);
    let found = dual_basis(alloc, &rows, 3);
    format!(in alloc; "{found:?}").expect(rt, "room for a text")
}

// Products of the greatest numbers, whose difference is in the range; and a combination whose entries leave it before
// they are divided.
#[test]
fn wide_numbers_come_back_into_the_range(rt: HostRuntime) {
    let square = WideInt::product(MOST, MOST);
    assert!(rt; square.narrow().is_none() && square.is_positive());
    let difference = square.minus(WideInt::product(MOST, MOST - 1));
    assert!(rt; difference.expect(&rt, "a difference").narrow() == Some(MOST));
    let alloc = rt.alloc();
    let most = WideInt::of(MOST);
    let shown = "Ok(Some(Ints { entries: [170141183460469231731687303715884105726, 1, 0] }))";
    assert_eq!(rt; combined(&rt, alloc, most, most).as_str(), shown);
    assert_eq!(rt;
        combined(&rt, alloc, most, WideInt::of(1)).as_str(),
        "Ok(None)"
    );
    assert_eq!(rt; combined(&rt, alloc, square, square).as_str(), shown);
}

// The rows that a list is dual to; rows that are dependent; and a step that leaves the range where the first row is
// left out.
#[test]
fn dual_rows_are_found(rt: HostRuntime) {
    let alloc = rt.alloc();
    assert_eq!(rt;
        duals_of(&rt, alloc, [1, 0, 0, 1, 1, 0, 1, 1, 1].as_slice()).as_str(),
        "Ok([Ints { entries: [1, -1, 0] }, Ints { entries: [0, 1, -1] }, Ints { entries: [0, 0, 1] }])"
    );
    assert_eq!(rt;
        duals_of(&rt, alloc, [1, 2, 3, 2, 4, 6].as_slice()).as_str(),
        "Err(Dependent)"
    );
    assert_eq!(rt;
        duals_of(&rt, alloc, [1, 0, 0, 3, HALF, 0, 5, 1, 1].as_slice()).as_str(),
        "Err(Wide(ElimEvidence { list: Without(0), front: 1, basis: [Ints { entries: [3, 85070591730234615865843651857942052864, 0] }], part: Ints { entries: [5, 1, 1] }, by: 0, column: 1 }))"
    );
}

// Five points of the plane.
const POINTS: [i128; 15] = [
    20_922_524_074,
    -43_025_173_705,
    -43_497_677_440,
    27_012_360_029,
    -25_935_254_542,
    -37_775_184_341,
    24_441_121_047,
    76_853_035_314,
    -127_565_730_320,
    31_616_070_026,
    4_920_752_228,
    43_229_445_888,
    18_631_125_177,
    57_165_834_023,
    33_580_279_450,
];

// Their facet rows: numbers on the way to them leave the range, and they do not.
#[test]
fn wide_rays_are_found(rt: HostRuntime) {
    let alloc = rt.alloc();
    let points = rows(&rt, alloc, 3, POINTS.as_slice());
    assert!(rt; points.len() == 5);
    let narrow = extreme_rays(alloc, &points, 3);
    assert!(rt; matches!(&narrow, Err(DdFail::Wide(_))));
    drop(narrow);
    let found = wide_extreme_rays(alloc, &points, 3).expect(&rt, "rays");
    let shown = format!(in alloc; "{:?}", found.rays).expect(&rt, "room for a text");
    assert_eq!(rt;
        shown.as_str(),
        "[Ints { entries: [822956562663196319360, 1139847369104380360576, -731620730845306501601] }, Ints { entries: [1153003546809608866412, 128131624456086421762, -857839930420495825121] }, Ints { entries: [8831466246196486351760, 1605865064063190644000, 2659542960109243618371] }, Ints { entries: [9873147768920737174660, -3197432764716880850790, -34661452058681518497] }]"
    );
    assert!(rt; found.lineality.is_empty());
    drop(found);
}

// The same number is one key; the row that has the first difference comes first; a matrix that is copied and turned.
#[test]
fn values_are_keys_and_have_an_order(rt: HostRuntime) {
    let half = Fraction::new(1, 2).expect(&rt, "a number");
    let same = Fraction::read("2/4").expect(&rt, "a number");
    let mut seen = HashSet::new(rt.alloc());
    seen.insert(half).expect(&rt, "room for a number");
    seen.insert(same).expect(&rt, "room for a number");
    assert!(rt; seen.len() == 1);
    let numbers = [half, Fraction::zero(), half.neg()].to_vec(rt.alloc());
    let mut numbers = numbers.expect(&rt, "room for numbers");
    numbers.sort().expect(&rt, "room to sort");
    assert!(rt; numbers.as_slice() == [half.neg(), Fraction::zero(), half].as_slice());
    let mut rows = BTreeMap::new(rt.alloc());
    for name in ["a", "b"] {
        let mut row = BitRow::with_len(rt.alloc(), 70).expect(&rt, "room for a row");
        assert!(rt; row.len() == 70);
        row.set(3);
        let inserted: Result<_, _> = rows.insert(row, name);
        inserted.expect(&rt, "room for a name");
    }
    assert!(rt; rows.len() == 1 && rows.values().next() == Some(&"b"));
    let mut matrix = Matrix::new(rt.alloc(), 2);
    matrix
        .push_row([half, same].as_slice())
        .expect(&rt, "room for a row");
    let copy = matrix.copy(rt.alloc()).expect(&rt, "a copy");
    let turned = copy.transpose(rt.alloc()).expect(&rt, "the columns");
    assert!(rt; turned.rows() == 2 && turned.cols() == 1);
}
