// Exact work on whole numbers of the range.

ghost use Rattle.pm_vector.specs.Numbers.{InRange};
ghost use Rattle.pm_vector.specs.Differences.{IsSmall};
ghost use Rattle.std.specs.Prelude.{All, IfOk, IsTrue, OnErr, ◌*ℤ◌, ◌+ℤ◌, ◌-ℤ◌, ◌≡◌, ◌↔◌};

/// A number left the range from -(2^127 - 1) to 2^127 - 1.
#[derive(Clone, Copy, Debug, PartialEq, Eq)]
pub struct Wide;

/// Whether a number is in the range: `i128::MIN` alone is not.
pub fn is_in_range(a: i128) -> bool
    ensures { IsTrue result ↔ InRange a }
{
    a != i128::MIN
}

/// Whether each entry is in the range.
pub fn all_in_range(entries: &[i128]) -> bool
    ensures { IsTrue result ↔ All InRange entries.now }
{
    entries.iter().all(|x| is_in_range(*x))
}

/// Numbers below this in absolute value have products, and differences of two products, within the range.
const LIMIT: i128 = 1 << 63;

/// Whether a number is that small.
pub(crate) fn is_small(x: i128) -> bool
    ensures { IsTrue result ↔ IsSmall x }
{
    -LIMIT < x && x < LIMIT
}

/// The product. `Wide` exactly where it is outside of the range.
pub fn times(a: i128, b: i128) -> Result<i128, Wide>
    ensures value { IfOk result (λ r. r ≡ a *ℤ b) }
    ensures in_range { IfOk result InRange }
    ensures wide { OnErr result (InRange (a *ℤ b) → ⊥) }
{
    if is_small(a) && is_small(b) {
        return Ok(i128::from(a as i64) * i128::from(b as i64));
    }
    a.checked_mul(b).filter(|r| is_in_range(*r)).ok_or(Wide)
}

/// The sum. `Wide` exactly where it is outside of the range.
pub fn plus(a: i128, b: i128) -> Result<i128, Wide>
    ensures value { IfOk result (λ r. r ≡ a +ℤ b) }
    ensures in_range { IfOk result InRange }
    ensures wide { OnErr result (InRange (a +ℤ b) → ⊥) }
{
    a.checked_add(b).filter(|r| is_in_range(*r)).ok_or(Wide)
}

/// The difference a - b. `Wide` exactly where it is outside of the range.
pub fn minus(a: i128, b: i128) -> Result<i128, Wide>
    ensures value { IfOk result (λ r. r ≡ a -ℤ b) }
    ensures in_range { IfOk result InRange }
    ensures wide { OnErr result (InRange (a -ℤ b) → ⊥) }
{
    a.checked_sub(b).filter(|r| is_in_range(*r)).ok_or(Wide)
}
