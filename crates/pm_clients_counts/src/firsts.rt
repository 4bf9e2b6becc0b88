// The first entries of the rows of a matrix of fractions: whether all are positive or 0, and which are 0.

ghost use Rattle.pm_vector.specs.Rows.{ratio_at};
ghost use Rattle.pm_clients_counts.specs.Places.{AreZeroPlaces};
ghost use Rattle.pm_relations.specs.FirstEntries.{HasPositiveFirst, HasZeroFirst};
ghost use Rattle.pm_types.specs.Forms.{is_counts_form};
ghost use Rattle.std.specs.Prelude.{All, IfOk, IsTrue, [], length, slice_index_or, ◌<◌, ◌≡◌, ◌≤◌, ◌↔◌};
ghost use Rattle.pm_limits.specs.Limits.{most_rows};

use pm_fraction::Matrix;
use std::alloc::{AllocError, Global};

// The numerator of the first entry of a row, 0 in a row without entries.
fn first_numerator(matrix: &Matrix, i: usize) -> i128
    requires { i < length matrix.now.rows }
    ensures { result ≡ (ratio_at (slice_index_or matrix.now.rows i []) 0).num }
{
    match matrix.row(i).first() {
        Some(first) => first.num(),
        None => 0,
    }
}

// Whether the first entry of a row is 0.
fn begins_with_zero(matrix: &Matrix, i: usize) -> bool
    requires { i < length matrix.now.rows }
    ensures { IsTrue result ↔ HasZeroFirst (slice_index_or matrix.now.rows i []) }
{
    first_numerator(matrix, i) == 0
}

/// Whether the first entry of each row is positive.
pub(crate) fn has_positive_firsts(matrix: &Matrix) -> bool
    ensures { IsTrue result ↔ All HasPositiveFirst matrix.now.rows }
{
    (0..matrix.rows()).all(|i| first_numerator(matrix, i) > 0)
}

/// Whether the first entry of each row is 0.
pub(crate) fn has_zero_firsts(matrix: &Matrix) -> bool
    ensures { IsTrue result ↔ All HasZeroFirst matrix.now.rows }
{
    (0..matrix.rows()).all(|i| begins_with_zero(matrix, i))
}

/// The places of the rows whose first entry is 0, ascending.
pub(crate) fn zero_places(alloc: Global, matrix: &Matrix) -> Result<Vec<i64>, AllocError>
    requires few { length matrix.now.rows ≤ most_rows }
    ensures places { IfOk result (λ v. AreZeroPlaces matrix.now.rows (length matrix.now.rows) v.items) }
    ensures form { IfOk result (λ v. IsTrue (is_counts_form v.items)) }
{
    let mut places = Vec::new(alloc);
    for i in 0..matrix.rows() {
        if begins_with_zero(matrix, i) {
            places.push(i as i64)?;
        }
    }
    Ok(places)
}
