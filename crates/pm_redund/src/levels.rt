// Products of rows with a row, which is taken for a functional.

ghost use Rattle.pm_vector.specs.Rows.{HasCols, dot as dot_of};
ghost use Rattle.pm_redund.specs.Keeping.{products};
ghost use Rattle.std.specs.List.{All};
ghost use Rattle.std.specs.Prelude.{IfOk, IfSome, IsTrue, length, pos, ◌≡◌, ◌≤ℤ◌};

use pm_fraction::Fraction;
use pm_vector::{Ints, dot, gcd};
use std::alloc::{AllocError, Global};

/// The products of the rows with a row. None where one leaves the range.
pub(crate) fn products_of(
    alloc: Global,
    row: &Ints,
    rows: &[Ints],
) -> Result<Option<Vec<i128>>, AllocError>
    requires { HasCols (length row.now) rows.now }
    ensures { IfOk result (λ o. IfSome o (λ v. v.items ≡ products row.now rows.now)) }
{
    let mut made = Vec::new(alloc);
    for other in rows {
        match dot(row.as_slice(), other.as_slice()) {
            Ok(product) => made.push(product)?,
            Err(_) => return Ok(None),
        }
    }
    Ok(Some(made))
}

/// Whether each product of a line with a row is exact and 0.
pub(crate) fn vanishes_on(row: &Ints, lines: &[Ints]) -> bool
    requires { HasCols (length row.now) lines.now }
    ensures { IsTrue result → All (λ l. dot_of row.now l ≡ pos 0) lines.now }
{
    for line in lines {
        match dot(row.as_slice(), line.as_slice()) {
            Ok(0) => {}
            _ => return false,
        }
    }
    true
}

/// Whether no number is negative.
pub(crate) fn none_negative(levels: &[i128]) -> bool
    ensures { IsTrue result → All (λ n. pos 0 ≤ℤ n) levels.now }
{
    levels.iter().all(|n| *n >= 0)
}

/// A common multiple of the denominators, where it is small.
fn common_denominator(point: &[Fraction]) -> u128 {
    let mut multiple = 1u128;
    for i in 0..point.len() {
        let den = point[i].den().unsigned_abs();
        let divisor = gcd(multiple, den);
        if divisor != 0 {
            multiple = multiple.saturating_mul(den / divisor);
        }
    }
    multiple
}

/// The entries of a point after the first, taken a number of times to be whole. None where that leaves the range.
/// Nothing more is claimed of them: their products tell what they are worth.
pub(crate) fn direction_of(
    alloc: Global,
    cols: usize,
    point: &[Fraction],
) -> Result<Option<Ints>, AllocError>
    ensures { IfOk result (λ o. IfSome o (λ v. length v ≡ cols)) }
{
    let Ok(times) = i128::try_from(common_denominator(point)) else {
        return Ok(None);
    };
    let Ok(factor) = Fraction::from_whole(times) else {
        return Ok(None);
    };
    if point.len() <= cols {
        return Ok(None);
    }
    let mut made = Ints::new(alloc);
    for i in 0..cols {
        match point[i + 1].mul(factor) {
            Ok(entry) => made.push(entry.num())?,
            Err(_) => return Ok(None),
        }
    }
    Ok(Some(made))
}
