// The dictionary from which the simplex method starts.

ghost use Rattle.pm_vector.specs.Numbers.{InRange};
ghost use Rattle.pm_vector.specs.Rows.{HasCols, entry, ratio_at};
ghost use Rattle.pm_vector.specs.Bases.{column, row_at};
ghost use Rattle.pm_fraction.specs.Fractions.{ratio_of};
ghost use Rattle.pm_fraction.specs.Matrices.{IsFraction};
ghost use Rattle.pm_simplex.specs.Starts.{IsStart, IsStartRow, body_at, help_of, own_column, start_at};
ghost use Rattle.pm_simplex.specs.States.{auxiliary};
ghost use Rattle.pm_programs.specs.Dictionaries.{row_of};
ghost use Rattle.std.specs.Prelude.{IfOk, length, map, pos, ◌+◌, ◌<◌, ◌≡◌, ℕ};

use crate::dictionary::Dictionary;
use crate::layout::Layout;
use pm_fraction::Fraction;
use pm_vector::Ints;
use std::alloc::{AllocError, Global};

/// A whole number as a fraction.
fn whole(n: i128) -> Fraction
    requires { InRange n }
    ensures value { result ≡ ratio_of n (pos 1) }
    ensures fraction { IsFraction result }
{
    match Fraction::from_whole(n) {
        Ok(f) => {
            let _ = f.den();
            f
        }
        Err(_) => unreachable!(),
    }
}

/// The number by which the auxiliary variable stands in row i.
fn help(y: Layout, i: usize) -> Fraction
    ensures value { result ≡ ratio_of (help_of y i) (pos 1) }
    ensures fraction { IsFraction result }
{
    if i < y.slacks {
        return whole(1);
    }
    if i == y.slacks + y.residuals + 1 {
        whole(-1)
    } else {
        whole(0)
    }
}

/// The fraction of a row at a place.
fn copied(row: &[Fraction], k: usize) -> Fraction
    requires { k < length row.now }
    ensures value { result ≡ ratio_at row.now k }
    ensures fraction { IsFraction result }
{
    let f = row[k];
    let _ = (f.num(), f.den());
    f
}

/// The entry of a row at a place as a fraction.
fn entry_of(rows: &[Ints], cols: usize, i: usize, k: usize) -> Fraction
    requires row { i < length rows.now }
    requires cols { HasCols cols rows.now }
    requires place { k < cols }
    ensures value { result ≡ ratio_of (entry (row_at rows.now i) k) (pos 1) }
    ensures fraction { IsFraction result }
{
    whole(rows[i].get(k))
}

/// The fraction in row i at a place before the last.
fn body(y: Layout, a: &[Ints], b: &[Ints], c: &[Fraction], i: usize, k: usize) -> Fraction
    requires slacks { length a.now ≡ y.slacks }
    requires residuals { length b.now ≡ y.residuals }
    requires a_cols { HasCols y.cols a.now }
    requires b_cols { HasCols y.cols b.now }
    requires cols { length c.now ≡ y.cols }
    requires place { k < y.cols }
    ensures value { result ≡ body_at y a.now b.now c.now i k }
    ensures fraction { IsFraction result }
{
    if i < y.slacks {
        return entry_of(a, y.cols, i, k);
    }
    if i < y.slacks + y.residuals {
        return entry_of(b, y.cols, i - y.slacks, k);
    }
    if i == y.slacks + y.residuals {
        copied(c, k)
    } else {
        whole(0)
    }
}

/// Row i of the start.
fn start_row(
    alloc: Global,
    y: Layout,
    a: &[Ints],
    b: &[Ints],
    c: &[Fraction],
    i: usize,
) -> Result<Vec<Fraction>, AllocError>
    requires slacks { length a.now ≡ y.slacks }
    requires residuals { length b.now ≡ y.residuals }
    requires a_cols { HasCols y.cols a.now }
    requires b_cols { HasCols y.cols b.now }
    requires cols { length c.now ≡ y.cols }
    ensures { IfOk result (λ r. IsStartRow y a.now b.now c.now i r.items) }
{
    let mut row = Vec::new(alloc);
    for k in 0..y.cols {
        row.push(body(y, a, b, c, i, k))?;
    }
    row.push(help(y, i))?;
    Ok(row)
}

/// The rows of the start.
fn start_rows(
    alloc: Global,
    y: Layout,
    a: &[Ints],
    b: &[Ints],
    c: &[Fraction],
) -> Result<Vec<Vec<Fraction>>, AllocError>
    requires slacks { length a.now ≡ y.slacks }
    requires residuals { length b.now ≡ y.residuals }
    requires a_cols { HasCols y.cols a.now }
    requires b_cols { HasCols y.cols b.now }
    requires cols { length c.now ≡ y.cols }
    ensures count { IfOk result (λ v. length v.items ≡ y.slacks + y.residuals + 2) }
    ensures rows { IfOk result (λ v. (i : ℕ) → i < y.slacks + y.residuals + 2
        → IsStartRow y a.now b.now c.now i (row_of (map (λ r. r.items) v.items) i)) }
{
    let mut rows = Vec::new(alloc);
    for i in 0..y.slacks + y.residuals + 2 {
        let row = start_row(alloc, y, a, b, c, i)?;
        rows.push(row)?;
    }
    Ok(rows)
}

/// The columns of the variables that the rows of the start write.
fn start_basis(alloc: Global, y: Layout) -> Result<Vec<usize>, AllocError>
    ensures count { IfOk result (λ v. length v.items ≡ y.slacks + y.residuals + 2) }
    ensures own { IfOk result (λ v. (i : ℕ) → i < y.slacks + y.residuals + 2
        → column v.items i ≡ own_column y i) }
{
    let mut basis = Vec::new(alloc);
    for i in 0..y.slacks + y.residuals + 2 {
        basis.push(if i < y.slacks + y.residuals {
            y.cols + i
        } else {
            y.cols + i + 1
        })?;
    }
    Ok(basis)
}

/// The columns of the start: the constant, the coordinates and the auxiliary variable.
fn start_others(alloc: Global, y: Layout) -> Result<Vec<usize>, AllocError>
    ensures count { IfOk result (λ v. length v.items ≡ y.cols + 1) }
    ensures coordinates { IfOk result (λ v. (k : ℕ) → k < y.cols → column v.items k ≡ k) }
    ensures help { IfOk result (λ v. column v.items y.cols ≡ auxiliary y) }
{
    let mut others = Vec::new(alloc);
    for k in 0..y.cols {
        others.push(k)?;
    }
    others.push(y.cols + y.slacks + y.residuals)?;
    Ok(others)
}

impl Dictionary {
    /// The start for the inequalities a, the equations b and the objective c.
    pub(crate) fn start(
        alloc: Global,
        y: Layout,
        a: &[Ints],
        b: &[Ints],
        c: &[Fraction],
    ) -> Result<Dictionary, AllocError>
        requires slacks { length a.now ≡ y.slacks }
        requires residuals { length b.now ≡ y.residuals }
        requires a_cols { HasCols y.cols a.now }
        requires b_cols { HasCols y.cols b.now }
        requires cols { length c.now ≡ y.cols }
        ensures { IfOk result (IsStart y a.now b.now c.now) }
    {
        let rows = start_rows(alloc, y, a, b, c)?;
        Ok(Dictionary {
            basis: start_basis(alloc, y)?,
            others: start_others(alloc, y)?,
            rows,
        })
    }
}
