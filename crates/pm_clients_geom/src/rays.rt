// Generators as values: the rays of a polytope divided by their first coordinate, where that is not 0.

ghost use Rattle.pm_types.specs.Parts.{as_put};
ghost use Rattle.pm_vector.specs.Rows.{HasCols, IsZero, entry};
ghost use Rattle.pm_client.specs.declared.ClientFail.TheVariants.{Memory};
ghost use Rattle.pm_clients_geom.specs.Matrices.{AreNotZero, AreRays, MayBeRays};
ghost use Rattle.pm_clients_geom.specs.Rays.{ArePutRays, IsPutRay};
ghost use Rattle.std.specs.Prelude.{All, IfErr, IfOk, IsTrue, length, pos, ◌<◌, ◌≡◌, ◌≤ℤ◌, ◌↔◌};

use pm_client::ClientFail;
use pm_fraction::{Fraction, Matrix, MatrixFail};
use pm_types::{ObjectType, over_first, over_one};
use pm_vector::Ints;
use std::alloc::Global;

// Whether all numbers are 0.
fn are_zero(numbers: &[i128]) -> bool
    ensures { IsTrue result ↔ All (λ k. k ≡ pos 0) numbers.now }
{
    numbers.iter().all(|k| *k == 0)
}

// Whether all entries are 0.
fn is_zero(row: &Ints) -> bool
    ensures { IsTrue result ↔ IsZero row.now }
{
    are_zero(row.as_slice())
}

/// Whether no row is zero.
pub(crate) fn are_not_zero(rows: &[Ints]) -> bool
    ensures { IsTrue result ↔ AreNotZero rows.now }
{
    rows.iter().all(|row| !is_zero(row))
}

// Whether none of the rows lies behind, of a polytope.
fn may_be_rays(of: ObjectType, rows: &[Ints]) -> bool
    requires { All (λ x. 0 < length x) rows.now }
    ensures { IsTrue result ↔ MayBeRays of rows.now }
{
    of != ObjectType::Polytope || rows.iter().all(|row| row.get(0) >= 0)
}

/// Whether rows may be rays of a thing of that type: none is zero, and of a polytope none lies behind.
pub(crate) fn are_rays(of: ObjectType, rows: &[Ints]) -> bool
    requires { All (λ x. 0 < length x) rows.now }
    ensures { IsTrue result ↔ AreRays of rows.now }
{
    may_be_rays(of, rows) && are_not_zero(rows)
}

// A ray as a row of fractions. Want of memory alone ends it.
fn ray_row(alloc: Global, of: ObjectType, row: &Ints) -> Result<Vec<Fraction>, ClientFail>
    requires some { 0 < length row.now }
    requires first { of ≡ ObjectType.Polytope → pos 0 ≤ℤ entry row.now 0 }
    ensures value { IfOk result (λ v. IsPutRay of v.items row.now) }
    ensures failed { IfErr result (λ e. e ≡ Memory) }
{
    // Its entries are in the range.
    let _entries = row.as_slice();
    if of == ObjectType::Polytope && row.get(0) != 0 {
        Ok(over_first(alloc, row)?)
    } else {
        Ok(over_one(alloc, row)?)
    }
}

/// Rays as a matrix of fractions; without rows it states no column count. Want of memory alone ends it.
pub(crate) fn matrix_of_rays(
    alloc: Global,
    of: ObjectType,
    rows: &[Ints],
    cols: usize,
) -> Result<Matrix, ClientFail>
    requires some { 0 < cols }
    requires cols { HasCols cols rows.now }
    requires rays { MayBeRays of rows.now }
    ensures stated { IfOk result (λ a. a ≡ as_put cols a.rows) }
    ensures rows { IfOk result (λ a. ArePutRays of a.rows rows.now) }
    ensures failed { IfErr result (λ e. e ≡ Memory) }
{
    let mut matrix = Matrix::new(alloc, if rows.is_empty() { 0 } else { cols });
    for row in rows {
        let fractions = ray_row(alloc, of, row)?;
        match matrix.push_row(&fractions) {
            Ok(()) => {}
            Err(MatrixFail::Ragged) => unreachable!(),
            Err(MatrixFail::Memory) => return Err(ClientFail::Memory),
        }
    }
    Ok(matrix)
}
