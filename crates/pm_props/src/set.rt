// Sets of properties.

ghost use Rattle.std.specs.Prelude.{◌≡◌, ◌^◌, ◌<◌, ◌≤◌, ◌↔◌, ◌&&◌, ◌||◌, not, false, IsTrue, IfNone, IfOk, IfSome, nat_eq};
ghost use Rattle.pm_props.specs.Properties.{count, number};
ghost use Rattle.pm_props.specs.Sets.{has, only, union, intersection, difference, set_of, IsSubset, members};

use crate::property::PropId;
use std::alloc::{AllocError, Global};
use std::marker::Model;

/// A set of properties: bit k is set exactly where the property of number k is in the set.
#[derive(Clone, Copy, Debug, PartialEq, Eq, PartialOrd, Ord, Hash)]
pub struct PropSet {
    bits: u128,
}

impl Model for PropSet {
    ghost use Rattle.pm_props.specs.Properties.{count};
    ghost use Rattle.std.specs.Prelude.{ℕ, ◌^◌, ◌<◌};

    ghost Value = { ℕ };

    ghost view = { λ s. s.bits };

    ghost invariant = { λ s. s.bits < 2 ^ count };

    ghost inverse = { λ n. record { bits = n } };
}

impl PropSet {
    /// The set without properties.
    pub fn empty() -> PropSet
        ensures value { result ≡ 0 }
        ensures none { (p : PropId) → has result p ≡ false }
    {
        PropSet { bits: 0 }
    }

    /// The set of one property alone.
    pub fn of(p: PropId) -> PropSet
        ensures value { result ≡ only p }
        ensures only { (q : PropId) → has result q ≡ nat_eq (number p) (number q) }
    {
        PropSet {
            bits: 1 << p.number(),
        }
    }

    /// The set of the properties of a list.
    pub fn of_list(list: &[PropId]) -> PropSet
        ensures { result ≡ set_of list.now }
    {
        list.iter().fold(PropSet::empty(), |set, p| set.with(*p))
    }

    /// Whether the property is in the set.
    pub fn contains(self, p: PropId) -> bool
        ensures { result ≡ has self p }
    {
        (self.bits >> p.number()) & 1 == 1
    }

    /// The set with one property more.
    pub fn with(self, p: PropId) -> PropSet
        ensures value { result ≡ union self (only p) }
        ensures members { (q : PropId) → has result q ≡ (has self q || nat_eq (number p) (number q)) }
    {
        self.union(PropSet::of(p))
    }

    /// What is in one of the two sets.
    pub fn union(self, other: PropSet) -> PropSet
        ensures value { result ≡ union self other }
        ensures members { (p : PropId) → has result p ≡ (has self p || has other p) }
    {
        PropSet {
            bits: self.bits | other.bits,
        }
    }

    /// What is in both sets.
    pub fn intersection(self, other: PropSet) -> PropSet
        ensures value { result ≡ intersection self other }
        ensures members { (p : PropId) → has result p ≡ (has self p && has other p) }
    {
        PropSet {
            bits: self.bits & other.bits,
        }
    }

    /// What is in this set and not in the other.
    pub fn difference(self, other: PropSet) -> PropSet
        ensures value { result ≡ difference self other }
        ensures most { result ≤ self }
        ensures members { (p : PropId) → has result p ≡ (has self p && not (has other p)) }
    {
        PropSet {
            bits: self.bits ^ (self.bits & other.bits),
        }
    }

    /// Whether all properties of this set are in the other.
    pub fn is_subset(self, other: PropSet) -> bool
        ensures subset { IsTrue result ↔ IsSubset self other }
        ensures value { result ≡ nat_eq (intersection self other) self }
    {
        self.bits & other.bits == self.bits
    }

    /// Whether the set has no property.
    pub fn is_empty(self) -> bool
        ensures value { result ≡ nat_eq self 0 }
        ensures none { IsTrue result ↔ ((p : PropId) → has self p ≡ false) }
    {
        self.bits == 0
    }

    /// The property of the least number in the set, if it has one.
    pub fn first(self) -> Option<PropId>
        ensures some { IfSome result (λ p. IsTrue (has self p)) }
        ensures least { IfSome result (λ p. (q : PropId) → number q < number p → has self q ≡ false) }
        ensures none { IfNone result ((p : PropId) → has self p ≡ false) }
    {
        if self.bits == 0 {
            return None;
        }
        PropId::at(self.bits.trailing_zeros() as u8)
    }

    /// The set without this property.
    pub fn without(self, p: PropId) -> PropSet
        ensures members { (q : PropId) → has result q
            ≡ (has self q && not (nat_eq (number p) (number q))) }
        ensures less { IsTrue (has self p) → result < self }
    {
        self.difference(PropSet::of(p))
    }

    /// The set as a number.
    pub fn bits(self) -> u128
        ensures value { result ≡ self }
        ensures below { result < 2 ^ count }
    {
        self.bits
    }

    /// The properties of the set, in the order of their numbers.
    #[tactic(auto, unfolding(crate::specs::Sets::members))]
    pub fn to_list(self, alloc: Global) -> Result<Vec<PropId>, AllocError>
        ensures { IfOk result (λ v. v.items ≡ members self) }
    {
        PropId::every()
            .iter()
            .copied()
            .filter(|p| self.contains(*p))
            .collect(alloc)
    }
}
