// The rows of standard polytopes.

ghost use Rattle.pm_build.specs.Conditions.{is_cyclic_size};
ghost use Rattle.pm_types.specs.Parts.{cols_over};
ghost use Rattle.pm_build.specs.Rows.{curve, curve_points, headed, headed_rows, opposite_units, simplex_corners};
ghost use Rattle.pm_types.specs.Views.{over_one, ratios};
ghost use Rattle.std.specs.Prelude.{IfOk, length, nat_lt, pos, suc, ◌+◌, ◌<◌, ◌^◌, ◌≡◌, ◌≤◌};
ghost use Rattle.pm_limits.specs.Limits.{most_dimensions, most_rows};

use crate::rows::{origin_row, put_row, unit_row};
use pm_fraction::{Fraction, Matrix};
use pm_limits::{MOST_DIMENSIONS, MOST_ROWS};
use std::alloc::{AllocError, Global};

/// The first number above the range.
const RANGE_END: u128 = 1 << 127;

/// The rows (1, e_i) and (1, -e_i) of d + 1 entries, for each i. Without rows it states no column count.
pub(crate) fn opposite_rows(alloc: Global, d: usize) -> Result<Matrix, AllocError>
    requires { d < 2 ^ 30 }
    ensures rows { IfOk result (λ m. m.rows ≡ headed_rows (opposite_units d d)) }
    ensures cols { IfOk result (λ m. m.cols ≡ cols_over (suc d) (headed_rows (opposite_units d d))) }
{
    let mut rows = Matrix::new(alloc, if d == 0 { 0 } else { d + 1 });
    for i in 0..d {
        put_row(&mut rows, &unit_row(alloc, d, i, Fraction::one())?)?;
        put_row(&mut rows, &unit_row(alloc, d, i, Fraction::one().neg())?)?;
    }
    Ok(rows)
}

/// The row (1, 0, .., 0) of d + 1 entries, and the rows (1, e_i) for each i.
pub(crate) fn simplex_rows(alloc: Global, d: usize) -> Result<Matrix, AllocError>
    requires { d < 2 ^ 30 }
    ensures rows { IfOk result (λ m. m.rows ≡ headed_rows (simplex_corners d)) }
    ensures cols { IfOk result (λ m. m.cols ≡ suc d) }
{
    let mut rows = Matrix::new(alloc, d + 1);
    put_row(&mut rows, &origin_row(alloc, d)?)?;
    for i in 0..d {
        put_row(&mut rows, &unit_row(alloc, d, i, Fraction::one())?)?;
    }
    Ok(rows)
}

/// Whether there is a cyclic polytope of n points in d dimensions: d is at most 32, n is from d + 1 to `MOST_ROWS`,
/// and n^d is in the range.
pub(crate) fn is_cyclic_size(d: u32, n: u32) -> bool
    ensures { result ≡ is_cyclic_size d n }
{
    d as usize <= MOST_DIMENSIONS && d < n && n as usize <= MOST_ROWS && has_small_power(n, d)
}

/// Whether n^d is in the range.
fn has_small_power(n: u32, d: u32) -> bool
    requires { 0 < n }
    ensures { result ≡ nat_lt (n ^ d) (2 ^ 127) }
{
    let mut power = 1u128;
    for _ in 0..d {
        match power.checked_mul(n as u128) {
            Some(next) if next < RANGE_END => power = next,
            _ => return false,
        }
    }
    true
}

/// The row (1, t, t^2, .., t^d) of the point at t of the moment curve.
fn curve_row(alloc: Global, d: usize, t: usize) -> Result<Vec<Fraction>, AllocError>
    requires some { 0 < t }
    requires small { t ^ d < 2 ^ 127 }
    requires few { d ≤ most_dimensions }
    ensures { IfOk result (λ v. v.items ≡ ratios (headed (curve t d))) }
{
    let mut row = vec![in alloc; Fraction::one()]?;
    let mut power = 1u128;
    for _ in 0..d {
        power *= t as u128;
        row.push(small_fraction(power))?;
    }
    Ok(row)
}

/// A number of the range as a fraction over 1.
fn small_fraction(k: u128) -> Fraction
    requires { k < 2 ^ 127 }
    ensures { result ≡ over_one (pos k) }
{
    let Ok(fraction) = Fraction::from_whole(k as i128) else {
        unreachable!()
    };
    fraction
}

/// The rows of the points of the moment curve at 1, .., n.
pub(crate) fn curve_rows(alloc: Global, d: usize, n: usize) -> Result<Matrix, AllocError>
    requires some { 0 < n }
    requires few { n ≤ most_rows }
    requires dimension { d ≤ most_dimensions }
    requires small { n ^ d < 2 ^ 127 }
    ensures rows { IfOk result (λ m. m.rows ≡ headed_rows (curve_points d n)) }
    ensures cols { IfOk result (λ m. m.cols ≡ suc d) }
{
    let mut rows = Matrix::new(alloc, d + 1);
    for i in 0..n {
        put_row(&mut rows, &curve_row(alloc, d, i + 1)?)?;
    }
    Ok(rows)
}
