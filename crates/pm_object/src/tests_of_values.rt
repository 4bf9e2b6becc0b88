// What is asked of a value before it is taken: its columns and its rows.

ghost use Rattle.pm_object.specs.State.{agrees, agree_in_sites, first_cols, have_as_many_sites, is_given, sites_agree};
ghost use Rattle.pm_fraction.specs.Matrices.{IsFraction};
ghost use Rattle.pm_types.specs.Forms.{AreFractions, HasPrimitiveRow, HavePrimitiveRows, agrees_with, is_formed, stated_cols};
ghost use Rattle.pm_object.specs.Views.{held_seen};
ghost use Rattle.pm_types.specs.Values.{matrix};
ghost use Rattle.pm_types.specs.Views.{view_of};
ghost use Rattle.std.specs.Prelude.{All, IfErr, IsTrue, OnOk, if◌then◌else◌, length, map, true, ◌≡◌, ◌≢◌, ◌≤◌};
ghost use Rattle.pm_limits.specs.Limits.{most_rows};

use crate::held::{Held, Origin, TakeFail};
use pm_fraction::{Matrix, RowsFail};
use pm_types::{PropId, Value, agrees_with, column_count, reads_entries, row_count, stated_cols};
use std::alloc::Global;

/// The first column count that a held value states.
pub fn first_cols(held: &[Held]) -> Option<usize>
    ensures { result ≡ first_cols (map held_seen held.now) }
{
    for h in held {
        let n = stated_cols(h.id, &h.value);
        if n != 0 {
            return Some(n);
        }
    }
    None
}

/// Whether a value's columns, or its ambient dimension, do not differ from n.
pub fn agrees(n: Option<usize>, p: PropId, v: &Value) -> bool
    ensures { result ≡ agrees n p (view_of v.now) }
{
    match n {
        None => true,
        Some(n) => agrees_with(n, p, v),
    }
}

/// Whether there are as many rows as heights, where the first value is of SITES and the second of SITE_HEIGHTS.
pub fn have_as_many_sites(p: PropId, v: &Value, q: PropId, w: &Value) -> bool
    ensures { result ≡ have_as_many_sites p (view_of v.now) q (view_of w.now) }
{
    if p == PropId::Sites && q == PropId::SiteHeights {
        row_count(v) == column_count(w)
    } else {
        true
    }
}

/// Whether a value agrees with one that is held in the number of sites, either way; with one that was not given it
/// does.
fn agrees_in_sites(p: PropId, v: &Value, h: &Held) -> bool
    ensures { result
        ≡ (if is_given h.now.origin then agree_in_sites p (view_of v.now) h.now.id (view_of h.now.value)
        else true) }
{
    h.origin != Origin::Given
        || (have_as_many_sites(p, v, h.id, &h.value) && have_as_many_sites(h.id, &h.value, p, v))
}

/// Whether a value of SITES has as many rows as a given one of SITE_HEIGHTS has entries, and the other way round.
pub fn sites_agree(held: &[Held], p: PropId, v: &Value) -> bool
    ensures { result ≡ sites_agree (map held_seen held.now) p (view_of v.now) }
{
    for h in held {
        if !agrees_in_sites(p, v, h) {
            return false;
        }
    }
    true
}

/// Whether the primitive row of each row of a matrix is made within the range: `NotAThing` where one is not.
/// Heights are no row of coordinates, and have none.
pub fn require_primitive_rows(alloc: Global, p: PropId, v: &Value) -> Result<(), TakeFail>
    requires { IsTrue (is_formed p (view_of v.now)) }
    ensures ok { OnOk result (HavePrimitiveRows p (view_of v.now)) }
    ensures entries { OnOk result (AreFractions (view_of v.now)) }
    ensures refused { IfErr result (λ e. e ≢ TakeFail.Memory
        → (e ≡ TakeFail.NotAThing) × ¬ (HavePrimitiveRows p (view_of v.now))) }
{
    match v {
        Value::Mat(matrix) => require_primitive_rows_of(alloc, p, matrix),
        Value::Sets(_) => Ok(()),
        Value::Int(_) => Ok(()),
        Value::Bool(_) => Ok(()),
        Value::Counts(_) => Ok(()),
        Value::Edges(_) => Ok(()),
        Value::Lattice(_) => Ok(()),
        Value::Number(_) => {
            reads_entries(v);
            Ok(())
        }
    }
}

fn require_primitive_rows_of(alloc: Global, p: PropId, rows: &Matrix) -> Result<(), TakeFail>
    requires { length rows.now.rows ≤ most_rows }
    ensures ok { OnOk result (HavePrimitiveRows p (matrix rows.now.cols rows.now.rows)) }
    ensures entries { All (All IsFraction) rows.now.rows }
    ensures refused { IfErr result (λ e. e ≢ TakeFail.Memory
        → (e ≡ TakeFail.NotAThing) × ¬ (HavePrimitiveRows p (matrix rows.now.cols rows.now.rows))) }
{
    if p == PropId::SiteHeights {
        let _ = rows.rows();
        return Ok(());
    }
    require_primitive_matrix(alloc, rows)
}

fn require_primitive_matrix(alloc: Global, matrix: &Matrix) -> Result<(), TakeFail>
    requires { length matrix.now.rows ≤ most_rows }
    ensures ok { OnOk result (All HasPrimitiveRow matrix.now.rows) }
    ensures entries { All (All IsFraction) matrix.now.rows }
    ensures refused { IfErr result (λ e. e ≢ TakeFail.Memory
        → (e ≡ TakeFail.NotAThing) × ¬ (All HasPrimitiveRow matrix.now.rows)) }
{
    let _ = matrix.rows();
    match matrix.to_primitive_rows(alloc) {
        Ok(_) => Ok(()),
        Err(RowsFail::Wide { .. }) => Err(TakeFail::NotAThing),
        Err(RowsFail::Memory) => Err(TakeFail::Memory),
    }
}
