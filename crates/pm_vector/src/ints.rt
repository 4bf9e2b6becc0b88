// Rows of whole numbers of the range.

ghost use Rattle.pm_vector.specs.Divisors.{IsPrimitiveOf};
ghost use Rattle.pm_vector.specs.Numbers.{InRange};
ghost use Rattle.pm_vector.specs.Rows.{Row, difference, entry, opposite};
ghost use Rattle.pm_vector.specs.Differences.{DifferenceStays};
ghost use Rattle.pm_vector.specs.Quotients.{IsQuotientByGcd};
ghost use Rattle.std.proofs.Common.{refl};
ghost use Rattle.std.specs.Cmp.{int_cmp_total, int_eq_equiv, partial_equiv_from_equiv, partial_order_from_agreeing_total};
ghost use Rattle.std.specs.Cmp.Lexicographic.{lists_equiv, lists_per, lists_ties, lists_total, pointwise, slice_cmp};
ghost use Rattle.std.specs.Ordering.{int_cmp, int_eq};
ghost use Rattle.std.specs.Prelude.{All, IfOk, IsTrue, OnErr, OnOk, Some, [], length, ◌++◌, ◌<◌, ◌∷◌, ◌≡◌, ◌↔◌};

use crate::Wide;
use crate::combination::{difference_stays, write_differences, write_opposite};
use crate::divisors::divide_by_gcd;
use std::alloc::{AllocError, Global};
use std::cmp::Ordering;
use std::marker::Model;

/// A row of whole numbers of the range, compared in lexicographic order.
#[derive(Debug, Drop)]
pub struct Ints {
    entries: Vec<i128>,
}

impl Model for Ints {
    ghost Value = { Row };

    ghost view = { λ r. r.entries.items };

    ghost invariant = { λ r. All InRange r.entries.items };
}

impl Ints {
    /// The row with no entry.
    pub fn new(alloc: Global) -> Ints
        ensures { result ≡ [] }
    {
        Ints {
            entries: Vec::new(alloc),
        }
    }

    /// The row of these entries. Takes no memory.
    pub fn from_vec(entries: Vec<i128>) -> Ints
        requires { All InRange entries.items }
        ensures { result ≡ entries.items }
    {
        Ints { entries }
    }

    /// The entries. Takes no memory.
    pub fn into_vec(self) -> Vec<i128>
        ensures value { result.items ≡ self }
        ensures in_range { All InRange self }
    {
        self.entries
    }

    /// Puts an entry behind the others.
    pub fn push(&mut self, x: i128) -> Result<(), AllocError>
        requires { InRange x }
        ensures ok { OnOk result (self.new ≡ self.old ++ x ∷ []) }
        ensures err { OnErr result (self.new ≡ self.old) }
    {
        self.entries.push(x)?;
        Ok(())
    }

    /// How many entries the row has.
    pub fn len(&self) -> usize
        ensures { result ≡ length self.now }
    {
        self.entries.len()
    }

    /// Whether the row has no entry.
    pub fn is_empty(&self) -> bool
        ensures { IsTrue result ↔ (self.now ≡ []) }
    {
        self.entries.is_empty()
    }

    /// The entry at a place.
    pub fn get(&self, i: usize) -> i128
        requires { i < length self.now }
        ensures value { result ≡ entry self.now i }
        ensures in_range { InRange result }
    {
        self.entries[i]
    }

    /// The entries as a slice.
    pub fn as_slice(&self) -> &[i128]
        ensures value { result.now ≡ self.now }
        ensures in_range { All InRange self.now }
    {
        &self.entries
    }

    /// A row of the same entries.
    pub fn copy(&self, alloc: Global) -> Result<Ints, AllocError>
        ensures { IfOk result (λ r. r ≡ self.now) }
    {
        let entries = Vec::from_slice(alloc, &self.entries)?;
        Ok(Ints { entries })
    }
}

impl PartialEq for Ints {
    ghost eq = { pointwise int_eq };

    ghost laws = { lists_per (partial_equiv_from_equiv int_eq_equiv) };

    fn eq(&self, other: &Ints) -> bool {
        self.as_slice() == other.as_slice()
    }
}

impl Eq for Ints {
    ghost laws = { lists_equiv int_eq_equiv };
}

impl PartialOrd for Ints {
    ghost partial_cmp = { λ a b. Some (slice_cmp int_cmp a b) };

    ghost laws = { partial_order_from_agreeing_total (slice_cmp int_cmp) (lists_total int_cmp_total) (λ _ _. refl) (lists_ties int_cmp (λ _ _. refl)) };

    fn partial_cmp(&self, other: &Ints) -> Option<Ordering> {
        Some(self.cmp(other))
    }
}

impl Ord for Ints {
    ghost cmp = { slice_cmp int_cmp };

    ghost total = { lists_total int_cmp_total };

    ghost matches_partial_cmp = { λ _ _. refl };

    ghost matches_eq = { lists_ties int_cmp (λ _ _. refl) };

    fn cmp(&self, other: &Ints) -> Ordering {
        self.as_slice().cmp(other.as_slice())
    }
}

/// The lexicographic order of two rows.
pub fn lex_cmp(a: &Ints, b: &Ints) -> Ordering
    ensures { result ≡ slice_cmp int_cmp a.now b.now }
{
    a.cmp(b)
}

/// v becomes p v - q w, entry by entry. Takes no memory.
/// `Wide` exactly where a product or a difference is outside of the range; v is then unchanged.
pub fn combine(p: i128, v: &mut Ints, q: i128, w: &Ints) -> Result<(), Wide>
    requires { length v.old ≡ length w.now }
    ensures value { OnOk result (v.new ≡ difference p v.old q w.now) }
    ensures stays { OnOk result (DifferenceStays p v.old q w.now) }
    ensures wide { OnErr result (DifferenceStays p v.old q w.now → ⊥) }
    ensures unchanged { OnErr result (v.new ≡ v.old) }
{
    if !difference_stays(p, &v.entries, q, &w.entries) {
        return Err(Wide);
    }
    write_differences(p, &mut v.entries, q, &w.entries);
    Ok(())
}

/// v becomes -v. Takes no memory.
pub fn negate(v: &mut Ints)
    ensures { v.new ≡ opposite v.old }
{
    write_opposite(&mut v.entries);
}

/// Divides a row by the greatest common divisor of its entries; the zero row stays. Takes no memory.
pub fn primitive(v: &mut Ints)
    ensures primitive { IsPrimitiveOf v.old v.new }
    ensures quotient { IsQuotientByGcd v.old v.new }
{
    divide_by_gcd(&mut v.entries);
}
