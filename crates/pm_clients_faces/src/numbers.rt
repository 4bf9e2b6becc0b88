// Numbers of faces of a lattice with few ranks, and h-vectors. A lattice with more ranks is that of no thing, and has
// no numbers.

ghost use Rattle.pm_clients_faces.specs.Numbers.{f2_table, f_numbers, has_few_ranks};
ghost use Rattle.pm_graph.specs.HVectors.{AreHNumbers, HasNoHVector};
ghost use Rattle.std.specs.Prelude.{IfOk, [], ◌≡◌};

use pm_fraction::Matrix;
use pm_graph::{f_vector, f2_vector, h_vector};
use pm_limits::MOST_COLUMNS;
use pm_types::{Counts, Lattice};
use std::alloc::{AllocError, Global};

// The most ranks that the lattice of a thing has: one more than the most columns.
const MAX_RANKS: usize = MOST_COLUMNS + 1;

// Whether the lattice has at most so many.
fn has_few_ranks(lattice: &Lattice) -> bool
    ensures { result ≡ has_few_ranks lattice.now }
{
    lattice.ranks().len() <= MAX_RANKS
}

// How many faces each rank has but the first and the last, where there are few ranks.
pub(crate) fn f_numbers(alloc: Global, lattice: &Lattice) -> Result<Vec<i64>, AllocError>
    ensures { IfOk result (λ f. f.items ≡ f_numbers lattice.now) }
{
    if has_few_ranks(lattice) {
        f_vector(alloc, lattice)
    } else {
        Ok(Vec::new(alloc))
    }
}

// How many pairs of faces of any two of these ranks are included in one another, where there are few ranks.
pub(crate) fn f2_table(alloc: Global, lattice: &Lattice) -> Result<Matrix, AllocError>
    ensures { IfOk result (λ table. table ≡ f2_table lattice.now) }
{
    if has_few_ranks(lattice) {
        f2_vector(alloc, lattice)
    } else {
        Ok(Matrix::new(alloc, 0))
    }
}

// The h-vector of an f-vector of that dimension. It has no entries where there is none of 64 bits.
pub(crate) fn h_numbers(alloc: Global, counts: &Counts, dim: i64) -> Result<Counts, AllocError>
    ensures numbers { IfOk result (AreHNumbers counts.now dim) }
    ensures none { IfOk result (λ h. HasNoHVector counts.now dim → h ≡ []) }
{
    let numbers = h_vector(alloc, counts.as_slice(), dim)?;
    Ok(Counts::from_vec(numbers))
}
