// What double description shows where it gives up.

ghost use Rattle.pm_vector.specs.Rows.{HasCols};

use crate::rows::rows;
use pm_dd::{DdFail, Generators, extreme_rays};
use pm_geom::Evidence;
use pm_vector::Ints;
use std::alloc::Global;
use std::process::Abort;

const FAR: i128 = 1 << 120;

// Whether a ray of this front is shown, with no column.
fn shows(answer: &Result<Generators, DdFail>, wanted: u32, ray: &[i128]) -> bool {
    match answer {
        Err(
            DdFail::Wide(
                Evidence::E2 {
                    front,
                    first,
                    second,
                    column: None,
                },
            ),
        ) => *front == wanted && (first.as_slice() == ray || second.as_slice() == ray),
        _ => false,
    }
}

// Of four half-spaces of the plane three have the ray (FAR + 1, FAR), and its product with the fourth leaves the range.
#[test]
fn a_ray_with_a_wide_product_is_shown(rt: HostRuntime) {
    let alloc = rt.alloc();
    let table = [1, 0, 0, 1, FAR, -FAR - 1, FAR, -1];
    let halves = rows(&rt, alloc, 2, table.as_slice());
    assert!(rt; halves.len() == 4);
    let answer = extreme_rays(alloc, &halves, 2);
    assert!(rt; shows(&answer, 3, [FAR + 1, FAR].as_slice()));
    drop(answer);
}

// The facet rows of the cube of twelve dimensions.
fn cube(rt: &impl Abort, alloc: Global) -> Vec<Ints>
    ensures { HasCols 13 result.items }
{
    let mut entries = Vec::new(alloc);
    for axis in 1..13u32 {
        for sign in [1i128, -1] {
            for column in 0..13u32 {
                let entry = if column == 0 {
                    1
                } else if column == axis {
                    sign
                } else {
                    0
                };
                entries.push(entry).expect(rt, "room for a number");
            }
        }
    }
    rows(rt, alloc, 13, &entries)
}

// It has 4,096 vertices, and more than 2,048 before its last row.
#[test]
fn too_many_rays_are_shown(rt: HostRuntime) {
    let alloc = rt.alloc();
    let cube = cube(&rt, alloc);
    assert!(rt; cube.len() == 24);
    let answer = extreme_rays(alloc, &cube, 13);
    assert!(rt; matches!(&answer, Err(DdFail::Many(Evidence::E5Rays { .. }))));
    drop(answer);
}
