//! Weights of rules and costs of chains: pairs of a class and a minor, and their order. It knows nothing of rules and
//! of properties.
#![tactic(auto)]

ghost use Rattle.std.specs.Prelude.{◌≡◌, ◌+◌, ◌^◌, ◌<◌, ◌↔◌, IsTrue, Some};
ghost use Rattle.pm_weights.specs.Weights.{IsWeight, plus, no_cost, IsBelow, IsAtMost, weight_text, cost_text};

use pm_limits::MOST_WEIGHT;
use std::fmt;

/// The weight of a rule: a class and a minor. Of a rule each is from 0 to `MOST_WEIGHT`, and not both are 0.
#[derive(Clone, Copy, Debug, PartialEq, Eq, Hash)]
pub struct Weight {
    /// It counts first.
    pub class: u32,
    /// It counts among equal classes.
    pub minor: u32,
}

/// The cost of a chain: the sum of its rules' classes and the sum of their minors. Costs are compared by class and
/// then by minor.
#[derive(Clone, Copy, Debug, PartialEq, Eq, PartialOrd, Ord, Hash)]
pub struct Cost {
    /// The sum of the classes.
    pub class: u64,
    /// The sum of the minors.
    pub minor: u64,
}

impl Weight {
    /// Whether a rule may have this weight.
    pub fn is_weight(self) -> bool
        ensures { IsTrue result ↔ IsWeight self }
    {
        self.class <= MOST_WEIGHT && self.minor <= MOST_WEIGHT && (self.class > 0 || self.minor > 0)
    }
}

impl Cost {
    /// The cost of a chain without rules.
    pub fn none() -> Cost
        ensures { result ≡ no_cost }
    {
        Cost { class: 0, minor: 0 }
    }

    /// The cost of a chain with one rule more.
    pub fn plus(self, weight: Weight) -> Cost
        requires class { self.class + weight.class < 2 ^ 64 }
        requires minor { self.minor + weight.minor < 2 ^ 64 }
        ensures { result ≡ plus self weight }
    {
        Cost {
            class: self.class + u64::from(weight.class),
            minor: self.minor + u64::from(weight.minor),
        }
    }

    /// Whether this cost is less than the other.
    pub fn is_below(self, other: Cost) -> bool
        ensures { IsTrue result ↔ IsBelow self other }
    {
        self < other
    }

    /// Whether this cost is less than the other or equal to it.
    pub fn is_at_most(self, other: Cost) -> bool
        ensures { IsTrue result ↔ IsAtMost self other }
    {
        self <= other
    }
}

impl fmt::Display for Weight {
    ghost output = { λ w. Some (weight_text w) };

    fn fmt<W: fmt::Write>(&self, f: &mut fmt::Formatter<W>) -> fmt::Result {
        let class = self.class;
        let minor = self.minor;
        if class == 0 {
            write!(f, "{minor}")
        } else {
            write!(f, "{class}.{minor}")
        }
    }
}

impl fmt::Display for Cost {
    ghost output = { λ c. Some (cost_text c) };

    fn fmt<W: fmt::Write>(&self, f: &mut fmt::Formatter<W>) -> fmt::Result {
        let class = self.class;
        let minor = self.minor;
        if class == 0 {
            write!(f, "{minor}")
        } else {
            write!(f, "{class}.{minor}")
        }
    }
}
