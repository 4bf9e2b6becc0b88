// The rays that may be adjacent to one of the other sign: those with enough rows in common with the union of the zero
// sets there.

ghost use Rattle.pm_vector.specs.Rows.{entry};
ghost use Rattle.pm_bits.specs.Sets.{IsSubset};
ghost use Rattle.pm_dd.specs.Building.{AreNegativesLeft, IsPassed};
ghost use Rattle.pm_dd.specs.Tables.{zero_set};
ghost use Rattle.std.specs.Prelude.{IfOk, length, pos, ℕ, ◌<ℤ◌, ◌<◌, ◌≡◌};

use pm_bits::{BitRow, BitTable};
use std::alloc::{AllocError, Global};
use std::mem;

/// The union of the zero sets of the rays ahead, and that of the rays behind.
#[derive(Drop)]
pub(crate) struct Unions {
    pub ahead: BitRow,
    pub behind: BitRow,
}

/// Adds the members of a row to a union.
fn add_members(row: &BitRow, union: &mut BitRow, spare: &mut BitRow)
    requires row_len { length row.now ≡ length union.old }
    requires spare_len { length spare.old ≡ length union.old }
    ensures len { length union.new ≡ length union.old }
    ensures spare_len { length spare.new ≡ length union.old }
    ensures row { IsSubset row.now union.new }
    ensures rest { IsSubset union.old union.new }
{
    row.join_into(union, spare);
    mem::swap(union, spare);
}

/// The unions of the zero sets of the rays with positive and with negative values.
pub(crate) fn unions_of(
    alloc: Global,
    zeros: &BitTable,
    values: &[i128],
) -> Result<Unions, AllocError>
    requires { length values.now ≡ length zeros.now.rows }
    ensures ahead_len { IfOk result (λ u. length u.ahead ≡ zeros.now.row_len) }
    ensures behind_len { IfOk result (λ u. length u.behind ≡ zeros.now.row_len) }
    ensures ahead { IfOk result (λ u. (k : ℕ) → k < length values.now → pos 0 <ℤ entry values.now k
        → IsSubset (zero_set zeros.now.rows k) u.ahead) }
    ensures behind { IfOk result (λ u. (k : ℕ) → k < length values.now → entry values.now k <ℤ pos 0
        → IsSubset (zero_set zeros.now.rows k) u.behind) }
{
    let mut ahead = BitRow::with_len(alloc, zeros.row_len())?;
    let mut behind = BitRow::with_len(alloc, zeros.row_len())?;
    let mut spare = BitRow::with_len(alloc, zeros.row_len())?;
    for k in 0..values.len() {
        if values[k] > 0 {
            add_members(zeros.row(k), &mut ahead, &mut spare);
        } else if values[k] < 0 {
            add_members(zeros.row(k), &mut behind, &mut spare);
        }
    }
    Ok(Unions { ahead, behind })
}

/// The places of the negative values whose rays have as many rows in common with the union as are needed, in order.
pub(crate) fn near_negatives(
    alloc: Global,
    zeros: &BitTable,
    values: &[i128],
    ahead: &BitRow,
    need: usize,
) -> Result<Vec<usize>, AllocError>
    requires as_many { length values.now ≡ length zeros.now.rows }
    requires len { length ahead.now ≡ zeros.now.row_len }
    ensures { IfOk result (λ v. AreNegativesLeft (IsPassed zeros.now values.now ahead.now need) values.now 0
        (length values.now) v.items) }
{
    let mut made = Vec::new(alloc);
    for j in 0..values.len() {
        if values[j] < 0 && zeros.common_count_with(j, ahead) >= need {
            made.push(j)?;
        }
    }
    Ok(made)
}
