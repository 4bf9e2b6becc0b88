// The row list that a client reads, as primitive whole rows.

ghost use Rattle.pm_vector.specs.Rows.{HasCols};
ghost use Rattle.pm_client.specs.Sound.{IsListOf, added_rows, are_parts};
ghost use Rattle.pm_client.specs.declared.ClientFail.TheVariants.{Memory};
ghost use Rattle.pm_props.specs.Sets.{has};
ghost use Rattle.std.specs.Prelude.{IfErr, IfOk, IsTrue, [], length, ◌≡◌, ◌≤◌};

use pm_client::{ClientFail, matrix_of, primitive_rows};
use pm_object::View;
use pm_types::PropId;
use pm_vector::Ints;
use std::alloc::Global;

/// The primitive whole rows of a list of two parts, to which nothing is added. Want of memory alone ends it.
pub(crate) fn row_list(
    alloc: Global,
    view: &View,
    first: PropId,
    second: PropId,
) -> Result<Vec<Ints>, ClientFail>
    requires first { IsTrue (has view.now.kind.sources first) }
    requires second { IsTrue (has view.now.kind.sources second) }
    requires parts { IsTrue (are_parts first second) }
    requires nothing_added { added_rows view.now.of view.now.cols second ≡ [] }
    ensures listed { IfOk result (λ v. IsListOf view.now first second v.items) }
    ensures cols { IfOk result (λ v. HasCols view.now.cols v.items) }
    ensures few { IfOk result (λ v. length v.items ≤ 4096) }
    ensures failed { IfErr result (λ e. e ≡ Memory) }
{
    let mut rows = primitive_rows(alloc, matrix_of(view, first))?;
    let mut more = primitive_rows(alloc, matrix_of(view, second))?;
    rows.append(&mut more)?;
    Ok(rows)
}
