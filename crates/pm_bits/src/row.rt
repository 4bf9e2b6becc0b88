// A set of numbers below a length.
ghost use Rattle.std.specs.Prelude.{◌≡◌, ◌≢◌, ℕ, ◌^◌, ◌<◌, ◌↔◌, IsTrue, IfOk, true, length};
ghost use Rattle.pm_bits.specs.Folds.{IsFold};
ghost use Rattle.pm_bits.specs.Sets.{has, IsEmpty, IsSubset, IsIntersection, IsUnion, SameMembers, common_count, member_count, members, HasFirstDifference};

use crate::words;
use std::alloc::{AllocError, Global};
use std::cmp::Ordering;
use std::marker::Model;

/// A set of numbers below a length that stays. Its bits stand in words of 64; the bit of i is bit i % 64 of
/// word i / 64.
#[derive(Debug, Drop)]
pub struct BitRow {
    len: usize,
    words: Vec<u64>,
}

impl Model for BitRow {
    ghost use Rattle.std.specs.Prelude.{List, Bool};
    ghost use Rattle.pm_bits.specs.Words.{bits_below, Holds};

    ghost Value = { List Bool };

    ghost view = { λ r. bits_below r.words.items r.len };

    ghost invariant = { λ r. Holds r.words.items r.len };
}

impl BitRow {
    /// The empty set of numbers below `len`.
    pub fn with_len(alloc: Global, len: usize) -> Result<BitRow, AllocError>
        ensures len { IfOk result (λ row. length row ≡ len) }
        ensures empty { IfOk result (λ row. IsEmpty row) }
    {
        let words = words::zeros(alloc, len.div_ceil(64))?;
        Ok(BitRow { len, words })
    }

    /// A row of the same members.
    pub fn copy(&self, alloc: Global) -> Result<BitRow, AllocError>
        ensures { IfOk result (λ row. row ≡ self.now) }
    {
        let words = Vec::from_slice(alloc, &self.words)?;
        Ok(BitRow {
            len: self.len,
            words,
        })
    }

    /// How many numbers may be members: those below this.
    pub fn len(&self) -> usize
        ensures { result ≡ length self.now }
    {
        self.len
    }

    /// Whether `i` is a member.
    pub fn get(&self, i: usize) -> bool
        requires { i < length self.now }
        ensures { result ≡ has self.now i }
    {
        words::get(&self.words, i)
    }

    /// Makes `i` a member.
    pub fn set(&mut self, i: usize)
        requires { i < length self.old }
        ensures len { length self.new ≡ length self.old }
        ensures member { IsTrue (has self.new i) }
        ensures others { (k : ℕ) → k ≢ i → has self.new k ≡ has self.old k }
    {
        words::set(&mut self.words, i);
    }

    /// Whether each member of `o` is one of this row: four words at a time in lanes, and the words that are left one
    /// by one.
    pub fn contains(&self, o: &BitRow) -> bool
        requires { length self.now ≡ length o.now }
        ensures { IsTrue result ↔ IsSubset o.now self.now }
    {
        words::contain(&self.words, &o.words)
    }

    /// Makes `out` the intersection of this row and `o`: four words at a time in lanes, and the words that are left
    /// one by one.
    pub fn meet_into(&self, o: &BitRow, out: &mut BitRow)
        requires same_len { length self.now ≡ length o.now }
        requires out_len { length self.now ≡ length out.old }
        ensures len { length out.new ≡ length out.old }
        ensures members { IsIntersection out.new self.now o.now }
    {
        words::meet(&self.words, &o.words, &mut out.words);
    }

    /// Makes `out` the union of this row and `o`: four words at a time in lanes, and the words that are left one by
    /// one.
    pub fn join_into(&self, o: &BitRow, out: &mut BitRow)
        requires same_len { length self.now ≡ length o.now }
        requires out_len { length self.now ≡ length out.old }
        ensures len { length out.new ≡ length out.old }
        ensures members { IsUnion out.new self.now o.now }
    {
        words::join(&self.words, &o.words, &mut out.words);
    }

    /// The members, ascending, found word by word.
    pub fn members(&self, alloc: Global) -> Result<Vec<u32>, AllocError>
        requires { length self.now < 2 ^ 32 }
        ensures { IfOk result (λ list. list.items ≡ members self.now) }
    {
        words::members(alloc, &self.words)
    }

    /// How many members there are, counted word by word.
    pub fn count(&self) -> usize
        ensures { result ≡ member_count self.now }
    {
        words::count(&self.words)
    }

    /// How many members this row and `o` have in common, counted word by word.
    pub fn common_count(&self, o: &BitRow) -> usize
        requires { length self.now ≡ length o.now }
        ensures { result ≡ common_count self.now o.now }
    {
        words::common_count(&self.words, &o.words)
    }

    /// The row's fold: its bit b says whether some member is b modulo 64.
    pub(crate) fn fold(&self) -> u64
        ensures { IsFold self.now result }
    {
        words::fold(&self.words)
    }

    /// Whether this row and `o` have the same members: four words at a time in lanes, and the words that are left one
    /// by one.
    pub fn eq_lanes(&self, o: &BitRow) -> bool
        requires { length self.now ≡ length o.now }
        ensures { IsTrue result ↔ SameMembers self.now o.now }
    {
        words::are_equal(&self.words, &o.words)
    }

    /// How this row and `o` compare by the least number that is a member of only one of them: the row that
    /// has it is the lesser. Compared word by word.
    pub fn cmp_lanes(&self, o: &BitRow) -> Ordering
        requires { length self.now ≡ length o.now }
        ensures equal { (result ≡ Ordering.Equal) ↔ SameMembers self.now o.now }
        ensures less { (result ≡ Ordering.Less) ↔ HasFirstDifference self.now o.now }
        ensures greater { (result ≡ Ordering.Greater) ↔ HasFirstDifference o.now self.now }
    {
        words::compare(&self.words, &o.words)
    }
}
