// The rows of a program as the search takes them: each equation is two inequalities.

use pm_vector::Ints;
use std::alloc::{AllocError, Global};

/// A row of the program: an inequality, or an equation with one of its signs.
#[derive(Clone, Copy)]
pub(crate) enum Row {
    Inequality(usize),
    Equation(usize),
    Opposite(usize),
}

/// The sum of the products of the entries, where it is small.
pub(crate) fn sum_of_products(a: &[i128], x: &[i128]) -> Option<i128> {
    let mut sum = 0i128;
    for i in 0..a.len() {
        if i < x.len() && a[i] != 0 && x[i] != 0 {
            sum = sum.checked_add(a[i].checked_mul(x[i])?)?;
        }
    }
    Some(sum)
}

/// Short numbers are below this in absolute value: up to 128 products of two of them have a sum of 128 bits.
const SHORT: i128 = 1 << 60;

/// Puts the numbers behind others, where all are short.
fn push_short(entries: &mut Vec<i64>, numbers: &[i128]) -> Result<bool, AllocError> {
    for x in numbers {
        if *x <= -SHORT || SHORT <= *x {
            return Ok(false);
        }
        entries.push(*x as i64)?;
    }
    Ok(true)
}

/// The numbers, where all are short; else none of them.
pub(crate) fn short_numbers(alloc: Global, numbers: &[i128]) -> Result<Vec<i64>, AllocError> {
    let mut entries = Vec::new(alloc);
    if push_short(&mut entries, numbers)? {
        return Ok(entries);
    }
    Ok(Vec::new(alloc))
}

/// The entries of all rows, one behind another, where all are short; else none of them.
pub(crate) fn short_rows(alloc: Global, rows: &[Ints]) -> Result<Vec<i64>, AllocError> {
    let mut entries = Vec::new(alloc);
    for row in rows {
        if !push_short(&mut entries, row.as_slice())? {
            return Ok(Vec::new(alloc));
        }
    }
    Ok(entries)
}

/// The sum of the products of short numbers.
#[inline(never)]
fn short_sum(a: &[i64], x: &[i64]) -> i128 {
    let mut sum = 0i128;
    for i in 0..a.len().min(x.len()) {
        sum = sum.wrapping_add(i128::from(a[i]).wrapping_mul(i128::from(x[i])));
    }
    sum
}

/// The rows of a program, and the entries of the inequalities where these are short.
#[derive(Clone, Copy)]
pub(crate) struct Rows<'a> {
    pub inequalities: &'a [Ints],
    pub equations: &'a [Ints],
    pub short: &'a [i64],
}

impl Rows<'_> {
    /// The product of a row with x, by short numbers where there are some.
    pub(crate) fn quick_product(self, row: Row, x: &[i128], short: &[i64]) -> Option<i128> {
        match self.short_product(row, short) {
            Some(sum) => Some(sum),
            None => self.product(row, x),
        }
    }

    /// The product of an inequality with short numbers, where it is short too.
    fn short_product(self, row: Row, x: &[i64]) -> Option<i128> {
        let Row::Inequality(i) = row else {
            return None;
        };
        let from = i.checked_mul(x.len())?;
        let to = from.checked_add(x.len())?;
        if x.is_empty() || to > self.short.len() {
            return None;
        }
        Some(short_sum(&self.short[from..to], x))
    }

    /// The product of a row with x, where it is small.
    pub(crate) fn product(self, row: Row, x: &[i128]) -> Option<i128> {
        match row {
            Row::Inequality(i) if i < self.inequalities.len() => {
                sum_of_products(self.inequalities[i].as_slice(), x)
            }
            Row::Equation(i) if i < self.equations.len() => {
                sum_of_products(self.equations[i].as_slice(), x)
            }
            Row::Opposite(i) if i < self.equations.len() => {
                sum_of_products(self.equations[i].as_slice(), x)?.checked_neg()
            }
            _ => None,
        }
    }

    /// Adds a number to the multiplier of a row.
    pub(crate) fn add_multiplier(
        self,
        multipliers: &mut [i128],
        row: Row,
        number: i128,
    ) -> Option<()> {
        let (place, number) = match row {
            Row::Inequality(i) => (i, number),
            Row::Equation(i) => (self.inequalities.len().checked_add(i)?, number),
            Row::Opposite(i) => (
                self.inequalities.len().checked_add(i)?,
                number.checked_neg()?,
            ),
        };
        if place >= multipliers.len() {
            return None;
        }
        multipliers[place] = multipliers[place].checked_add(number)?;
        Some(())
    }
}
