// The refusal of a step that makes too many rays.

ghost use Rattle.pm_vector.specs.Cones.{InSpan};
ghost use Rattle.pm_vector.specs.Rows.{HasCols};
ghost use Rattle.pm_vector.specs.Bases.{row_at};
ghost use Rattle.pm_dd.specs.Building.{IsListed, SeenKept, SeenPairs, StandFor, kept_count};
ghost use Rattle.pm_dd.specs.Lost.{IfStepLost};
ghost use Rattle.pm_dd.specs.StepFails.{IsStepFail};
ghost use Rattle.pm_dd.specs.Tables.{IsRayTable};
ghost use Rattle.std.specs.Prelude.{IfOk, length, take, ℕ, ◌++◌, ◌+◌, ◌<◌, ◌≡◌};

use crate::fails::StepFail;
use crate::rays::Rays;
use pm_limits::MOST_ROWS;
use pm_vector::Ints;
use std::alloc::{AllocError, Global};

/// How many values are not negative.
pub(crate) fn count_kept(values: &[i128]) -> usize
    ensures { result ≡ kept_count values.now }
{
    values.iter().filter(|value| **value >= 0).count()
}

/// Copies of the kept rays of a table.
fn kept_copies(
    alloc: Global,
    cols: usize,
    equations: &[Ints],
    rows: &[Ints],
    front: usize,
    rays: &Rays,
    values: &[i128],
) -> Result<Vec<Ints>, AllocError>
    requires within { front < length rows.now }
    requires table { IsRayTable cols equations.now rows.now front rays.now.rows.items rays.now.zeros.rows }
    requires stand { StandFor (row_at rows.now front) rays.now.rows.items values.now }
    ensures count { IfOk result (λ v. length v.items ≡ kept_count values.now) }
    ensures listed { IfOk result (λ v. IsListed cols equations.now rows.now front rays.now.rows.items
        (SeenKept (length rays.now.rows.items)) v.items) }
{
    let mut made = Vec::new(alloc);
    for i in 0..values.len() {
        if values[i] < 0 {
            continue;
        }
        let copy = rays.rows[i].copy(alloc)?;
        made.push(copy)?;
    }
    Ok(made)
}

/// The refusal of a step that makes too many rays: the kept ones, and after them the combinations so far.
pub(crate) fn too_many(
    alloc: Global,
    cols: usize,
    equations: &[Ints],
    rows: &[Ints],
    front: usize,
    rays: &Rays,
    values: &[i128],
    made: Vec<Ints>,
) -> Result<StepFail, AllocError>
    requires equation_cols { HasCols cols equations.now }
    requires row_cols { HasCols cols rows.now }
    requires within { front < length rows.now }
    requires spanned { InSpan (equations.now ++ take front rows.now) (row_at rows.now front) }
    requires table { IsRayTable cols equations.now rows.now front rays.now.rows.items rays.now.zeros.rows }
    requires stand { StandFor (row_at rows.now front) rays.now.rows.items values.now }
    requires listed { (i : ℕ) × (j : ℕ) × IsListed cols equations.now rows.now front rays.now.rows.items
        (SeenPairs i j) made.items }
    requires many { MOST_ROWS < kept_count values.now + length made.items }
    ensures shown { IfOk result (λ f. IsStepFail cols equations.now rows.now front rays.now.rows.items f) }
    ensures not_lost { IfOk result (λ f. IfStepLost f ⊥) }
{
    let mut all = kept_copies(alloc, cols, equations, rows, front, rays, values)?;
    let mut more = made;
    all.append(&mut more)?;
    Ok(StepFail::Many(all))
}
