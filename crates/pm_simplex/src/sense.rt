// Which optimum of an objective is asked.

ghost use Rattle.pm_simplex.specs.Senses.{objective_in, ratio_in, row_in, value_in};
ghost use Rattle.pm_types.specs.Views.{extended_of};
ghost use Rattle.std.specs.Prelude.{IfOk, ◌≡◌};

use pm_fraction::Fraction;
use pm_types::Number;
use pm_vector::{Ints, negate};
use std::alloc::{AllocError, Global};

/// Which optimum of an objective is asked: the greatest value, or the least.
#[derive(Clone, Copy, PartialEq, Eq)]
pub enum Sense {
    /// The greatest value.
    Maximal,
    /// The least value.
    Minimal,
}

/// The opposite number.
fn opposite_number(x: Number) -> Number
    ensures { extended_of result ≡ value_in Sense.Minimal (extended_of x) }
{
    match x {
        Number::Finite(value) => Number::Finite(value.neg()),
        Number::Plus => Number::Minus,
        Number::Minus => Number::Plus,
    }
}

impl Sense {
    /// The optimum of an objective, where x is the greatest value of it or of its opposite; and the other way.
    pub fn number(self, x: Number) -> Number
        ensures { extended_of result ≡ value_in self (extended_of x) }
    {
        match self {
            Sense::Maximal => x,
            Sense::Minimal => opposite_number(x),
        }
    }

    /// The row, or its opposite.
    pub fn turn(self, row: &mut Ints)
        ensures { row.new ≡ row_in self row.old }
    {
        match self {
            Sense::Maximal => {}
            Sense::Minimal => negate(row),
        }
    }

    /// The value, or its opposite.
    pub fn value(self, value: Fraction) -> Fraction
        ensures { result ≡ ratio_in self value }
    {
        match self {
            Sense::Maximal => value,
            Sense::Minimal => value.neg(),
        }
    }

    /// The objective whose greatest value is asked.
    pub fn objective(
        self,
        alloc: Global,
        objective: &[Fraction],
    ) -> Result<Vec<Fraction>, AllocError>
        ensures { IfOk result (λ c. c.items ≡ objective_in self objective.now) }
    {
        let mut turned = Vec::new(alloc);
        for entry in objective {
            turned.push(self.value(*entry))?;
        }
        Ok(turned)
    }
}
