// A dictionary changes by a pivot.

ghost use Rattle.pm_vector.specs.Numbers.{InRangeRatio, Ratio};
ghost use Rattle.pm_vector.specs.Bases.{column};
ghost use Rattle.pm_simplex.specs.Comparisons.{IsRectangular, rows_of};
ghost use Rattle.pm_programs.specs.Dictionaries.{IsWidePlace, at, row_of};
ghost use Rattle.pm_simplex.specs.Evidence.{IsWidePivot};
ghost use Rattle.pm_simplex.specs.Fails.{IfWide, IfWidePlace};
ghost use Rattle.pm_simplex.specs.Running.{IsPivotOf, IsSmall};
ghost use Rattle.std.specs.Prelude.{IfErr, IfOk, OnErr, OnOk, length, pos, slice_set, ◌<◌, ◌≡◌, ◌≢◌};

use crate::dictionary::Dictionary;
use crate::fails::LpFail;
use crate::pivot::{PlaceFail, pivoted_rows};
use pm_geom::{Evidence, Places};
use std::alloc::{AllocError, Global};

/// Two variables change places.
fn exchange(basis: &mut [usize], l: usize, others: &mut [usize], j: usize)
    requires row { l < length basis.old }
    requires place { j < length others.old }
    ensures basis { basis.new ≡ slice_set basis.old l (column others.old j) }
    ensures others { others.new ≡ slice_set others.old j (column basis.old l) }
{
    let enters = others[j];
    others[j] = basis[l];
    basis[l] = enters;
}

impl Dictionary {
    /// The pivot at row l and place j. The dictionary stays as it is where an operation leaves the range.
    pub(crate) fn pivot(&mut self, alloc: Global, l: usize, j: usize) -> Result<(), PlaceFail>
        requires rectangular { IsRectangular self.old }
        requires row { l < length self.old.basis.items }
        requires place { j < length self.old.others.items }
        requires pivot { (at (rows_of self.old) l j).num ≢ pos 0 }
        ensures pivoted { OnOk result (IsPivotOf self.old l j self.new) }
        ensures unchanged { OnErr result (self.new ≡ self.old) }
        ensures wide { IfErr result (λ f.
            IfWidePlace f (λ i k. (i < length self.old.basis.items) × (k < length self.old.others.items)
            × IsWidePlace (rows_of self.old) l j i k)) }
    {
        self.rows = pivoted_rows(alloc, &self.rows, self.others.len(), l, j)?;
        exchange(&mut self.basis, l, &mut self.others, j);
        Ok(())
    }

    /// The columns of the basis.
    fn basis_columns(&self, alloc: Global) -> Result<Places, AllocError>
        requires { IsSmall self.now }
        ensures { IfOk result (λ p. p ≡ self.now.basis.items) }
    {
        let mut columns = Vec::new(alloc);
        for i in 0..self.basis.len() {
            columns.push(self.basis[i] as u32)?;
        }
        Ok(Places::from_vec(columns))
    }

    /// Evidence that the pivot at row l and place j leaves the range for the fraction in row i at place k.
    fn evidence(
        &self,
        alloc: Global,
        l: usize,
        j: usize,
        i: usize,
        k: usize,
    ) -> Result<Evidence, AllocError>
        requires small { IsSmall self.now }
        requires row { l < length self.now.basis.items }
        requires place { j < length self.now.others.items }
        requires wide_row { i < length self.now.basis.items }
        requires wide_place { k < length self.now.others.items }
        requires wide { IsWidePlace (rows_of self.now) l j i k }
        ensures { IfOk result (IsWidePivot self.now l j) }
    {
        let enter = self.others[j];
        let leave = self.basis[l];
        let row = if i == l { enter } else { self.basis[i] };
        let column = if k == j { leave } else { self.others[k] };
        Ok(Evidence::E3 {
            basis: self.basis_columns(alloc)?,
            enter: enter as u32,
            leave: leave as u32,
            row: row as u32,
            column: column as u32,
        })
    }

    /// The pivot at row l and place j, or evidence that it leaves the range. The dictionary stays as it is where it
    /// fails.
    pub(crate) fn pivot_or_evidence(
        &mut self,
        alloc: Global,
        l: usize,
        j: usize,
    ) -> Result<(), LpFail>
        requires rectangular { IsRectangular self.old }
        requires small { IsSmall self.old }
        requires row { l < length self.old.basis.items }
        requires place { j < length self.old.others.items }
        requires pivot { (at (rows_of self.old) l j).num ≢ pos 0 }
        ensures pivoted { OnOk result (IsPivotOf self.old l j self.new) }
        ensures unchanged { OnErr result (self.new ≡ self.old) }
        ensures wide { IfErr result (λ f. IfWide f (IsWidePivot self.old l j)) }
    {
        match self.pivot(alloc, l, j) {
            Ok(()) => Ok(()),
            Err(PlaceFail::Memory) => Err(LpFail::Memory),
            Err(PlaceFail::Wide { row, place }) => {
                Err(LpFail::Wide(self.evidence(alloc, l, j, row, place)?))
            }
        }
    }
}
