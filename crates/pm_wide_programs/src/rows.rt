// The rows of a program as the search takes them, with wide numbers.

use crate::products::product;
use pm_vector::{Ints, WideInt};

/// A row of the program: its place among the inequalities and then the equations, and whether the opposite of the
/// row is meant, as is possible for an equation.
#[derive(Clone, Copy)]
pub(crate) struct Side {
    pub place: usize,
    pub is_opposite: bool,
}

/// The number, or its opposite.
pub(crate) fn turned(n: WideInt, is_opposite: bool) -> WideInt {
    if is_opposite { n.opposite() } else { n }
}

/// The product of a whole row with x, where both are as long and it has 512 bits.
pub(crate) fn product_of(a: &[i128], x: &[WideInt]) -> Option<WideInt> {
    if a.len() != x.len() {
        return None;
    }
    product(a, x)
}

/// The rows of a program.
#[derive(Clone, Copy)]
pub(crate) struct Rows<'a> {
    pub inequalities: &'a [Ints],
    pub equations: &'a [Ints],
}

impl Rows<'_> {
    /// Whether the row is an equation.
    pub(crate) fn is_equation(self, place: usize) -> bool {
        place >= self.inequalities.len()
    }

    /// The product of the row with x, where it is made.
    pub(crate) fn product(self, place: usize, x: &[WideInt]) -> Option<WideInt> {
        if place < self.inequalities.len() {
            return product_of(self.inequalities[place].as_slice(), x);
        }
        let i = place.checked_sub(self.inequalities.len())?;
        if i < self.equations.len() {
            product_of(self.equations[i].as_slice(), x)
        } else {
            None
        }
    }

    /// The product of the side with x, where it is made.
    pub(crate) fn side_product(self, side: Side, x: &[WideInt]) -> Option<WideInt> {
        let product = self.product(side.place, x)?;
        Some(turned(product, side.is_opposite))
    }
}
