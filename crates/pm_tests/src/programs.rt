// A linear program whose dictionaries leave 128 bits though its answer does not, as the simplex method in exact fractions
// answers it in another language.

use crate::rows::{rows, wholes};
use pm_simplex::{LpAnswer, LpFail, maximise_rows};
use pm_vector::Ints;
use pm_wide_programs::maximise_rows_by;

// Twelve half-spaces in seven dimensions, with coefficients of three decimals, a row of eight entries each.
const HALF_SPACES: [i128; 96] = [
    17612, 49214, -83456, -33135, -69088, 29876, 99482, 17832, 61899, 70812, -486, -44961, -75395,
    27889, -92568, 2187, 56724, 59237, 99828, -99447, 82409, 16756, -30183, 89148, 29985, 54968,
    -73201, -16787, -91981, -94148, -93329, 70275, 70965, -97586, -69, 79958, -43219, 10656, 90278,
    -92387, 69158, -41884, 14790, 29975, 44929, -38898, -9376, -39479, 88716, -42647, 99478, 20483,
    -24035, -94366, 9100, 45872, 84187, -73785, -51265, 64982, 89698, -22303, -68309, 94812, 43608,
    89133, 86435, 31282, 10653, 33096, 75717, -50232, 39764, -25509, 54031, 30905, 32458, 3116,
    54404, -90949, 62945, -36367, 94965, 5982, 8610, 74259, -54647, -3760, 71933, 84298, 76813,
    93519, -1773, -77333, 15072, 74001,
];

// Whether the answer is an optimum of this value.
fn is_optimum(answer: Result<LpAnswer, LpFail>, num: i128, den: i128) -> bool {
    let is_so = match &answer {
        Ok(LpAnswer::Optimal { value, .. }) => value.num() == num && value.den() == den,
        _ => false,
    };
    drop(answer);
    is_so
}

// Whether a number left the range.
fn is_wide(answer: Result<LpAnswer, LpFail>) -> bool {
    let is_so = matches!(&answer, Err(LpFail::Wide(_)));
    drop(answer);
    is_so
}

// The first way is refused, and stays so where it is not asked by wide numbers.
#[test]
fn programs_of_three_decimals_are_answered(rt: HostRuntime) {
    let alloc = rt.alloc();
    let rows = rows(&rt, alloc, 8, HALF_SPACES.as_slice());
    let objective = wholes(&rt, alloc, [0, 9, 2, 3, 9, 7, 6, 8].as_slice());
    assert!(rt; rows.len() == 12 && objective.len() == 8);
    let none: Vec<Ints> = Vec::new(alloc);
    let first = maximise_rows(alloc, &rows, &none, &objective);
    assert!(rt; is_wide(first));
    let same = maximise_rows_by(alloc, &rows, &none, &objective, false);
    assert!(rt; is_wide(same));
    let wide = maximise_rows_by(alloc, &rows, &none, &objective, true);
    assert!(rt;
        is_optimum(
            wide,
            1688822807632951084386536628127480943,
            10272321603682782968652071364433908,
        )
    );
}
