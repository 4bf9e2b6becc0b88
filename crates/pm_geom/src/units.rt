// Unit rows.

ghost use Rattle.pm_vector.specs.Evidence.{unit};
ghost use Rattle.std.specs.Prelude.{IfOk, ◌<◌, ◌≡◌};

use pm_vector::Ints;
use std::alloc::{AllocError, Global};

/// The row that is 1 in a column and 0 elsewhere.
pub fn unit_row(alloc: Global, cols: usize, column: usize) -> Result<Ints, AllocError>
    requires { column < cols }
    ensures { IfOk result (λ r. r ≡ unit cols column) }
{
    let mut entries = vec![in alloc; 0i128; cols]?;
    entries[column] = 1;
    Ok(Ints::from_vec(entries))
}
