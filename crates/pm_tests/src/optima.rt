// Optima at rays whose products with the objective leave 128 bits though the optima do not, as exact fractions give
// them in another language.

ghost use Rattle.pm_vector.specs.Rows.{entry};
ghost use Rattle.std.specs.Prelude.{All, IsTrue, length, pos, ◌<◌, ◌≡◌, ◌≤ℤ◌};

use crate::rows::{rows, wholes};
use pm_fraction::Fraction;
use pm_simplex::Sense;
use pm_types::Number;
use pm_vector::Ints;
use pm_wide_programs::{wide_places_of_value, wide_value_at_rays};
use std::alloc::{AllocError, Global};
use std::process::Abort;

/// Whether no row has a negative first entry.
fn none_behind(rows: &[Ints]) -> bool
    requires { All (λ x. 0 < length x) rows.now }
    ensures { IsTrue result → All (λ x. pos 0 ≤ℤ entry x 0) rows.now }
{
    for i in 0..rows.len() {
        if rows[i].get(0) < 0 {
            return false;
        }
    }
    true
}

// Whether the answer is this fraction.
fn is_value(answer: &Result<Option<Number>, AllocError>, num: i128, den: i128) -> bool {
    match answer {
        Ok(Some(Number::Finite(value))) => value.num() == num && value.den() == den,
        _ => false,
    }
}

// Whether the answer is this place alone.
fn is_alone(answer: &Result<Option<Vec<i64>>, AllocError>, place: i64) -> bool {
    match answer {
        Ok(Some(places)) => places.len() == 1 && places[0] == place,
        _ => false,
    }
}

// The optimum of 2^64 x + (2^64 + 1) y at rays of three entries.
fn optimum(
    rt: &impl Abort,
    alloc: Global,
    sense: Sense,
    table: &[i128],
) -> Result<Option<Number>, AllocError> {
    let rays = rows(rt, alloc, 3, table);
    let objective = wholes(rt, alloc, [0, FACTOR, FACTOR + 1].as_slice());
    let none: Vec<Ints> = Vec::new(alloc);
    assert!(rt; objective.len() == 3 && none_behind(&rays));
    wide_value_at_rays(alloc, sense, &objective, &rays, &none)
}

const FAR: i128 = 1 << 70;

const FACTOR: i128 = 1 << 64;

// The points (1 + 2^-70, 0) and (0, 2^-70).
const NEAR_POINTS: [i128; 6] = [FAR, FAR + 1, 0, FAR, 0, 1];

#[test]
fn optima_at_rays_are_answered(rt: HostRuntime) {
    let alloc = rt.alloc();
    let greatest = optimum(&rt, alloc, Sense::Maximal, NEAR_POINTS.as_slice());
    assert!(rt; is_value(&greatest, 1180591620717411303425, 64));
    let least = optimum(&rt, alloc, Sense::Minimal, NEAR_POINTS.as_slice());
    assert!(rt; is_value(&least, 18446744073709551617, 1180591620717411303424));
    let rays = rows(&rt, alloc, 3, NEAR_POINTS.as_slice());
    let objective = wholes(&rt, alloc, [0, FACTOR, FACTOR + 1].as_slice());
    assert!(rt; rays.len() == 2 && objective.len() == 3 && none_behind(&rays));
    let value = Fraction::new(1180591620717411303425, 64).expect(&rt, "a fraction");
    let places = wide_places_of_value(alloc, Sense::Maximal, &objective, value, &rays);
    assert!(rt; is_alone(&places, 0));
}

// The same objective grows along (2^70, 1), and there is no point where that alone is there.
#[test]
fn optima_without_end_are_answered(rt: HostRuntime) {
    let alloc = rt.alloc();
    let endless = optimum(&rt, alloc, Sense::Maximal, [1, 0, 0, 0, FAR, 1].as_slice());
    assert!(rt; matches!(&endless, Ok(Some(Number::Plus))));
    let empty = optimum(&rt, alloc, Sense::Minimal, [0, FAR, 1].as_slice());
    assert!(rt; matches!(&empty, Ok(Some(Number::Plus))));
}
