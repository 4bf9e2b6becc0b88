// Rows of fractions as whole rows, and back.

ghost use Rattle.pm_vector.specs.Numbers.{InRange};
ghost use Rattle.pm_vector.specs.Rows.{entry, ratio_at};
ghost use Rattle.pm_dual.specs.Quotients.{AreQuotients};
ghost use Rattle.pm_geom.specs.Programs.{IsTimes};
ghost use Rattle.std.specs.Prelude.{All, IfOk, IfSome, length, pos, ◌*ℤ◌, ◌<ℤ◌, ◌≡◌};

use pm_fraction::Fraction;
use pm_vector::{Ints, gcd};
use std::alloc::{AllocError, Global};

/// An objective, taken a positive number of times, so that it is whole.
#[derive(Drop)]
pub(crate) struct WholeObjective {
    pub times: i128,
    pub row: Ints,
}

/// A common multiple of the denominators, where it is small.
fn common_denominator(row: &[Fraction]) -> i128 {
    let mut multiple = 1u128;
    for i in 0..row.len() {
        let den = row[i].den().unsigned_abs();
        let divisor = gcd(multiple, den);
        if divisor != 0 {
            multiple = multiple.saturating_mul(den / divisor);
        }
    }
    i128::try_from(multiple).unwrap_or(1)
}

/// A fraction, taken a number of times, where it is whole then.
fn taken(f: Fraction, times: Fraction) -> Option<i128>
    requires { times.den ≡ pos 1 }
    ensures whole { IfSome result (λ n. n *ℤ f.den ≡ times.num *ℤ f.num) }
    ensures positive { IfSome result (λ _. pos 0 <ℤ f.den) }
    ensures in_range { IfSome result InRange }
{
    let _ = f.den();
    let product = f.mul(times).ok()?;
    if product.den() == 1 {
        Some(product.num())
    } else {
        None
    }
}

/// The objective as a whole row. None where a number on the way leaves the range.
pub(crate) fn whole_objective(
    alloc: Global,
    objective: &[Fraction],
) -> Result<Option<WholeObjective>, AllocError>
    ensures { IfOk result (λ o. IfSome o (λ w. IsTimes w.times objective.now w.row)) }
{
    let times = common_denominator(objective);
    if times <= 0 {
        return Ok(None);
    }
    let Ok(factor) = Fraction::from_whole(times) else {
        return Ok(None);
    };
    let mut row = Ints::new(alloc);
    for i in 0..objective.len() {
        match taken(objective[i], factor) {
            Some(entry) => row.push(entry)?,
            None => return Ok(None),
        }
    }
    Ok(Some(WholeObjective { times, row }))
}

/// The entries of x over d. None where a quotient in lowest terms leaves the range.
pub(crate) fn quotients(
    alloc: Global,
    x: &[i128],
    d: i128,
) -> Result<Option<Vec<Fraction>>, AllocError>
    ensures { IfOk result (λ o. IfSome o (λ v. AreQuotients x.now d v.items)) }
{
    let mut row = Vec::new(alloc);
    for i in 0..x.len() {
        match Fraction::new(x[i], d) {
            Ok(f) => row.push(f)?,
            Err(_) => return Ok(None),
        }
    }
    Ok(Some(row))
}
