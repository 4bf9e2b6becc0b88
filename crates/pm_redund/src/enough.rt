// Rows that are enough, found among few.

ghost use Rattle.pm_vector.specs.Cones.{InCone};
ghost use Rattle.pm_vector.specs.Rows.{HasCols};
ghost use Rattle.pm_vector.specs.Bases.{row_at};
ghost use Rattle.pm_geom.specs.StatedOrder.{rows_marked};
ghost use Rattle.pm_redund.specs.Keeping.{AreNeeded, IsChosen, IsMore, IsPartly, IsSupport};
ghost use Rattle.pm_redund.specs.Redundancy.{IsEnough, IsProgramFail};
ghost use Rattle.std.specs.Prelude.{IfErr, IfOk, IfSome, IsTrue, OnOk, false, length, replicate, true, ◌<◌, ◌^◌, ◌≡◌, ◌≤◌};

use crate::chosen::{Chosen, choose, chosen_of};
use crate::generated::point_of;
use crate::shot::row_for;
use crate::support::{Lineality, Support};
use pm_incidence::ThinFail;
use pm_vector::Ints;
use std::alloc::{AllocError, Global};

/// Chosen rows, and marks of rows that no others generate.
#[derive(Drop)]
pub(crate) struct Enough {
    pub chosen: Chosen,
    pub sure: Vec<bool>,
}

/// Whether the chosen rows generate the row at a place; where they do not, one that is needed for it is chosen too.
fn settle_once(
    alloc: Global,
    cols: usize,
    rows: &[Ints],
    lines: &[Ints],
    support: &Option<Support>,
    enough: &mut Enough,
    i: usize,
    wide: bool,
) -> Result<bool, ThinFail>
    requires row_cols { HasCols cols rows.now }
    requires line_cols { HasCols cols lines.now }
    requires few_rows { length rows.now ≤ 2 ^ 30 }
    requires few_lines { length lines.now < 2 ^ 30 }
    requires few_columns { cols < 2 ^ 30 }
    requires place { i < length rows.now }
    requires support { IfSome support.now (IsSupport cols rows.now lines.now) }
    requires partly { IsPartly rows.now lines.now enough.old }
    ensures partly { OnOk result (IsPartly rows.now lines.now enough.new) }
    ensures more { OnOk result (IsMore enough.old.chosen.marks.items enough.new.chosen.marks.items) }
    ensures settled { IfOk result (λ b. IsTrue b
        → InCone (rows_marked true enough.new.chosen.marks.items rows.now) lines.now (row_at rows.now i)) }
    ensures failed { IfErr result (IsProgramFail cols rows.now lines.now) }
{
    if enough.chosen.marks[i] {
        return Ok(true);
    }
    let Some(point) = point_of(alloc, cols, rows, lines, &enough.chosen, i, false, wide)? else {
        return Ok(true);
    };
    let met = row_for(alloc, cols, rows, lines, support, &point, i)?;
    choose(alloc, rows, &mut enough.chosen, met.place)?;
    enough.sure[met.place] = met.sure;
    Ok(false)
}

/// Chooses rows until they generate the row at a place.
fn settle(
    alloc: Global,
    cols: usize,
    rows: &[Ints],
    lines: &[Ints],
    support: &Option<Support>,
    enough: &mut Enough,
    i: usize,
    wide: bool,
) -> Result<(), ThinFail>
    requires row_cols { HasCols cols rows.now }
    requires line_cols { HasCols cols lines.now }
    requires few_rows { length rows.now ≤ 2 ^ 30 }
    requires few_lines { length lines.now < 2 ^ 30 }
    requires few_columns { cols < 2 ^ 30 }
    requires place { i < length rows.now }
    requires support { IfSome support.now (IsSupport cols rows.now lines.now) }
    requires partly { IsPartly rows.now lines.now enough.old }
    ensures partly { OnOk result (IsPartly rows.now lines.now enough.new) }
    ensures more { OnOk result (IsMore enough.old.chosen.marks.items enough.new.chosen.marks.items) }
    ensures settled { OnOk result
        (InCone (rows_marked true enough.new.chosen.marks.items rows.now) lines.now (row_at rows.now i)) }
    ensures failed { IfErr result (IsProgramFail cols rows.now lines.now) }
{
    for _step in 0..rows.len() {
        if settle_once(alloc, cols, rows, lines, support, enough, i, wide)? {
            return Ok(());
        }
    }
    choose(alloc, rows, &mut enough.chosen, i)?;
    Ok(())
}

/// The rows of the lineality.
fn lines_chosen(alloc: Global, rows: &[Ints], marks: &[bool]) -> Result<Enough, AllocError>
    requires { length marks.now ≡ length rows.now }
    ensures chosen { IfOk result (λ e. IsChosen rows.now e.chosen) }
    ensures none { IfOk result (λ e. e.sure.items ≡ replicate (length rows.now) false) }
{
    let chosen = chosen_of(alloc, rows, Vec::from_slice(alloc, marks)?)?;
    let sure = vec![in alloc; false; rows.len()]?;
    Ok(Enough { chosen, sure })
}

/// Rows that generate all, and of these the ones that no others generate for sure. Those of the lineality are taken
/// first.
pub(crate) fn enough_rows(
    alloc: Global,
    cols: usize,
    rows: &[Ints],
    lines: &[Ints],
    lineality: &Lineality,
    wide: bool,
) -> Result<Enough, ThinFail>
    requires row_cols { HasCols cols rows.now }
    requires line_cols { HasCols cols lines.now }
    requires few_rows { length rows.now ≤ 2 ^ 30 }
    requires few_lines { length lines.now < 2 ^ 30 }
    requires few_columns { cols < 2 ^ 30 }
    requires marks { length lineality.now.marks.items ≡ length rows.now }
    requires support { IfSome lineality.now.support (IsSupport cols rows.now lines.now) }
    ensures enough { IfOk result (λ e. IsEnough rows.now lines.now e.chosen.marks.items) }
    ensures needed { IfOk result (λ e. AreNeeded rows.now lines.now e.sure.items) }
    ensures failed { IfErr result (IsProgramFail cols rows.now lines.now) }
{
    let mut enough = lines_chosen(alloc, rows, &lineality.marks)?;
    for i in 0..rows.len() {
        settle(
            alloc,
            cols,
            rows,
            lines,
            &lineality.support,
            &mut enough,
            i,
            wide,
        )?;
    }
    Ok(enough)
}
