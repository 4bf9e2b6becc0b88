// What a dictionary tells: values of columns, and numbers by which slacks and residuals stand in a row.

ghost use Rattle.pm_vector.specs.Rows.{ratio_at};
ghost use Rattle.pm_vector.specs.Bases.{column};
ghost use Rattle.pm_programs.specs.Dictionaries.{at, row_of};
ghost use Rattle.pm_simplex.specs.Comparisons.{IsRectangular, key_of, rows_of};
ghost use Rattle.pm_simplex.specs.ProgramLaws.{AreMultipliersOf, dual_of, signed_by};
ghost use Rattle.pm_simplex.specs.Solutions.{Lists, solution, solution_at};
ghost use Rattle.pm_simplex.specs.States.{key_found};
ghost use Rattle.std.specs.Prelude.{IfNone, IfOk, IfSome, length, map, ◌+◌, ◌<◌, ◌≡◌, ◌≢◌, ℕ};

use crate::dictionary::Dictionary;
use crate::layout::Layout;
use pm_fraction::Fraction;
use std::alloc::{AllocError, Global};

/// The fraction, or its opposite.
fn signed(f: Fraction, up: bool) -> Fraction
    ensures { result ≡ signed_by up f }
{
    if up { f } else { f.neg() }
}

impl Dictionary {
    /// The row that writes the variable of a column.
    pub(crate) fn row_with(&self, c: usize) -> Option<usize>
        ensures within { IfSome result (λ i. i < length self.now.basis.items) }
        ensures own { IfSome result (λ i. column self.now.basis.items i ≡ c) }
        ensures before { IfSome result (λ i. (k : ℕ) → k < i → column self.now.basis.items k ≢ c) }
        ensures none { IfNone result ((i : ℕ) → i < length self.now.basis.items
            → column self.now.basis.items i ≢ c) }
    {
        for i in 0..self.basis.len() {
            if self.basis[i] == c {
                return Some(i);
            }
        }
        None
    }

    /// The value of the column c in the solution for the place k.
    fn value(&self, k: usize, c: usize) -> Fraction
        requires rectangular { IsRectangular self.now }
        requires place { k < length self.now.others.items }
        ensures { result ≡ solution_at (column self.now.others.items k) k self.now.basis.items
            (rows_of self.now) c }
    {
        if c == self.others[k] {
            return Fraction::one();
        }
        match self.row_with(c) {
            Some(i) => self.entry(i, k),
            None => Fraction::zero(),
        }
    }

    /// The values of the columns below `cols` in the solution for the place k, or their opposites.
    pub(crate) fn values(
        &self,
        alloc: Global,
        cols: usize,
        k: usize,
        up: bool,
    ) -> Result<Vec<Fraction>, AllocError>
        requires rectangular { IsRectangular self.now }
        requires place { k < length self.now.others.items }
        ensures { IfOk result (λ v.
            Lists (λ c. signed_by up (solution_at (column self.now.others.items k) k self.now.basis.items
            (rows_of self.now) c)) 0 cols v.items) }
    {
        let mut values = Vec::new(alloc);
        for c in 0..cols {
            values.push(signed(self.value(k, c), up))?;
        }
        Ok(values)
    }

    /// The numbers by which slacks and residuals stand in the row r, or their opposites.
    pub(crate) fn multipliers(
        &self,
        alloc: Global,
        y: Layout,
        r: usize,
        up: bool,
    ) -> Result<Vec<Fraction>, AllocError>
        requires rectangular { IsRectangular self.now }
        requires row { r < length self.now.basis.items }
        ensures { IfOk result (λ v. Lists (λ c. signed_by up (key_of self.now r c)) y.cols
            (y.slacks + y.residuals) v.items) }
    {
        let mut multipliers = Vec::new(alloc);
        for j in 0..y.slacks + y.residuals {
            multipliers.push(signed(self.key(r, y.cols + j), up))?;
        }
        Ok(multipliers)
    }
}
