// Copies of rows.

ghost use Rattle.std.specs.Prelude.{IfOk, ◌≡◌};

use crate::Ints;
use std::alloc::{AllocError, Global};

/// Copies of the rows.
pub fn copies(alloc: Global, rows: &[Ints]) -> Result<Vec<Ints>, AllocError>
    ensures { IfOk result (λ v. v.items ≡ rows.now) }
{
    let mut made = Vec::new(alloc);
    for row in rows {
        made.push(row.copy(alloc)?)?;
    }
    Ok(made)
}
