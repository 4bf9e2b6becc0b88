// Quotients of numbers by the first entries of rows.

ghost use Rattle.pm_optima.specs.Quotients.{Grows, IsBestOf, Rises, Turns};
ghost use Rattle.std.specs.Prelude.{All, IfNone, IfSome, IsTrue, length, ℕ, ◌*ℤ◌, ◌+◌, ◌<ℤ◌, ◌<◌, ◌≡◌, ◌↔◌};

use pm_fraction::Fraction;
use pm_types::quotient;
use pm_vector::Ints;
use std::cmp::Ordering;

/// The place of a row, and the quotient of its number by its first entry.
#[derive(Clone, Copy)]
pub(crate) struct Best {
    pub(crate) place: usize,
    pub(crate) quotient: Fraction,
}

/// Whether the fraction p is above the fraction q.
fn exceeds(p: Fraction, q: Fraction) -> bool
    ensures { IsTrue result ↔ ((q.num *ℤ p.den) <ℤ (p.num *ℤ q.den)) }
{
    match p.cmp(&q) {
        Ordering::Greater => true,
        _ => false,
    }
}

/// The best of the rows up to a place, where those before it have this best.
fn with_row(best: Option<Best>, numbers: &Ints, rows: &[Ints], i: usize) -> Option<Best>
    requires as_many { length numbers.now ≡ length rows.now }
    requires cols { All (λ x. 0 < length x) rows.now }
    requires within { i < length rows.now }
    requires best { IsBestOf numbers.now rows.now i best }
    ensures { IsBestOf numbers.now rows.now (i + 1) result }
{
    let first = rows[i].get(0);
    if first <= 0 {
        return best;
    }
    let quotient = quotient(numbers.get(i), first);
    match best {
        None => Some(Best { place: i, quotient }),
        Some(b) => {
            if exceeds(quotient, b.quotient) {
                Some(Best { place: i, quotient })
            } else {
                Some(b)
            }
        }
    }
}

/// Of the rows with a positive first entry, one whose number has the greatest quotient by it.
pub(crate) fn greatest_quotient(numbers: &Ints, rows: &[Ints]) -> Option<Best>
    requires as_many { length numbers.now ≡ length rows.now }
    requires cols { All (λ x. 0 < length x) rows.now }
    ensures { IsBestOf numbers.now rows.now (length rows.now) result }
{
    let mut best: Option<Best> = None;
    for i in 0..rows.len() {
        best = with_row(best, numbers, rows, i);
    }
    best
}

/// A row with the first entry 0 and a positive number.
fn rising(numbers: &Ints, rows: &[Ints]) -> Option<usize>
    requires as_many { length numbers.now ≡ length rows.now }
    requires cols { All (λ x. 0 < length x) rows.now }
    ensures some { IfSome result (Rises numbers.now rows.now) }
    ensures none { IfNone result ((j : ℕ) → ¬ (Rises numbers.now rows.now j)) }
{
    for j in 0..rows.len() {
        if rows[j].get(0) == 0 && numbers.get(j) > 0 {
            return Some(j);
        }
    }
    None
}

/// A number that is not 0.
fn turning(numbers: &Ints) -> Option<usize>
    ensures some { IfSome result (Turns numbers.now) }
    ensures none { IfNone result ((j : ℕ) → ¬ (Turns numbers.now j)) }
{
    for j in 0..numbers.len() {
        if numbers.get(j) != 0 {
            return Some(j);
        }
    }
    None
}

/// Whether the numbers of rays, or those of lines, tell of a direction without bound.
pub(crate) fn grows(at_rays: &Ints, rays: &[Ints], at_lines: &Ints) -> bool
    requires as_many { length at_rays.now ≡ length rays.now }
    requires cols { All (λ x. 0 < length x) rays.now }
    ensures { IsTrue result ↔ Grows at_rays.now rays.now at_lines.now }
{
    rising(at_rays, rays).is_some() || turning(at_lines).is_some()
}
