// Matrices of fractions.

ghost use Rattle.pm_vector.specs.Numbers.{Ratio};
ghost use Rattle.pm_fraction.specs.FractionRows.{ArePrimitiveRowsOf};
ghost use Rattle.pm_vector.specs.Rows.{ratio_at};
ghost use Rattle.pm_fraction.specs.Matrices.{FractionMatrix, IsFraction, IsMatrix, IsTransposeOf};
ghost use Rattle.pm_fraction.specs.Wideness.{IsWideRow, RowsStay};
ghost use Rattle.std.specs.Prelude.{All, IfErr, IfOk, IsErrOf, OnErr, OnOk, [], length, map, slice_index_or, ◌++◌, ◌^◌, ◌<◌, ◌∷◌, ◌≡◌, ◌≢◌, ◌↔◌};

use crate::fraction::Fraction;
use crate::primitive::primitive_row_at;
use crate::{MatrixFail, RowsFail};
use pm_vector::Ints;
use std::alloc::{AllocError, Global};
use std::marker::Model;

/// A matrix of fractions, which knows how many columns it has also where it has no row.
#[derive(Debug, Drop)]
pub struct Matrix {
    cols: usize,
    rows: Vec<Vec<Fraction>>,
}

impl Model for Matrix {
    ghost use Rattle.pm_fraction.specs.Matrices.{FractionMatrix, IsMatrix};
    ghost use Rattle.std.specs.Prelude.{map};

    ghost Value = { FractionMatrix };

    ghost view = { λ m. record { cols = m.cols; rows = map (λ r. r.items) m.rows.items } };

    ghost invariant = { λ m. IsMatrix (record { cols = m.cols; rows = map (λ r. r.items) m.rows.items }) };
}

impl Matrix {
    /// The matrix with these columns and no row.
    pub fn new(alloc: Global, cols: usize) -> Matrix
        ensures { result ≡ record { cols = cols; rows = [] } }
    {
        Matrix {
            cols,
            rows: Vec::new(alloc),
        }
    }

    /// How many rows the matrix has.
    pub fn rows(&self) -> usize
        ensures value { result ≡ length self.now.rows }
        ensures matrix { IsMatrix self.now }
    {
        self.rows.len()
    }

    /// How many columns the matrix has.
    pub fn cols(&self) -> usize
        ensures value { result ≡ self.now.cols }
        ensures matrix { IsMatrix self.now }
    {
        self.cols
    }

    /// The row at a place.
    pub fn row(&self, i: usize) -> &[Fraction]
        requires { i < length self.now.rows }
        ensures value { result.now ≡ slice_index_or self.now.rows i [] }
        ensures len { length result.now ≡ self.now.cols }
    {
        &self.rows[i]
    }

    /// Puts a row below the others.
    pub fn push_row(&mut self, row: &[Fraction]) -> Result<(), MatrixFail>
        ensures ok { OnOk result (self.new ≡ record {
          cols = self.old.cols;
          rows = self.old.rows ++ row.now ∷ [];
        }) }
        ensures ragged { IsErrOf result MatrixFail.Ragged ↔ (length row.now ≢ self.old.cols) }
        ensures unchanged { OnErr result (self.new ≡ self.old) }
    {
        if row.len() != self.cols {
            return Err(MatrixFail::Ragged);
        }
        let copy = copy_of(self.rows.allocator(), row)?;
        self.rows.push(copy)?;
        Ok(())
    }

    /// A matrix with the same rows.
    pub fn copy(&self, alloc: Global) -> Result<Matrix, AllocError>
        ensures { IfOk result (λ a. a ≡ self.now) }
    {
        let mut rows = Vec::with_capacity(alloc, self.rows())?;
        for i in 0..self.rows() {
            rows.push(copy_of(&alloc, self.row(i))?)?;
        }
        Ok(Matrix {
            cols: self.cols(),
            rows,
        })
    }

    /// The matrix whose rows are the columns of this one.
    pub fn transpose(&self, alloc: Global) -> Result<Matrix, AllocError>
        ensures { IfOk result (IsTransposeOf self.now) }
    {
        let mut transposed = Vec::new(alloc);
        for j in 0..self.cols() {
            transposed.push(self.column(alloc, j)?)?;
        }
        Ok(Matrix {
            cols: self.rows(),
            rows: transposed,
        })
    }

    /// The primitive whole row of each row. `Wide` exactly where a number on the way to one is out of the range, with
    /// the first such row and the two numbers that make the first such number in it.
    pub fn to_primitive_rows(&self, alloc: Global) -> Result<Vec<Ints>, RowsFail>
        requires { length self.now.rows < 2 ^ 30 }
        ensures rows { IfOk result (λ v. ArePrimitiveRowsOf self.now.rows v.items) }
        ensures stays { OnOk result (RowsStay self.now.rows (length self.now.rows)) }
        ensures wide { IfErr result (IsWideRow self.now.rows) }
    {
        let mut rows = Vec::new(alloc);
        for i in 0..self.rows() {
            rows.push(primitive_row_at(alloc, self.row(i), i as u32)?)?;
        }
        Ok(rows)
    }

    /// The entries of a column.
    fn column(&self, alloc: Global, j: usize) -> Result<Vec<Fraction>, AllocError>
        requires { j < self.now.cols }
        ensures value { IfOk result (λ v. v.items ≡ map (λ r. ratio_at r j) self.now.rows) }
        ensures entries { IfOk result (λ v. All IsFraction v.items) }
    {
        let mut column = Vec::new(alloc);
        for i in 0..self.rows() {
            column.push(known(self.row(i)[j]))?;
        }
        Ok(column)
    }
}

/// The same fraction, with what is so of each fraction.
fn known(f: Fraction) -> Fraction
    ensures value { result ≡ f }
    ensures is_fraction { IsFraction f }
{
    let _ = (f.num(), f.den());
    f
}

/// A copy of a row.
fn copy_of(alloc: &Global, row: &[Fraction]) -> Result<Vec<Fraction>, AllocError>
    ensures value { IfOk result (λ v. v.items ≡ row.now) }
    ensures entries { IfOk result (λ v. All IsFraction v.items) }
{
    let mut copy = Vec::with_capacity(*alloc, row.len())?;
    for i in 0..row.len() {
        copy.push(known(row[i]))?;
    }
    Ok(copy)
}
