// One front more: the rays of pm_dd's step, which are the facet rows, and the cells.

ghost use Rattle.pm_vector.specs.Rows.{HasCols};
ghost use Rattle.pm_vector.specs.Bases.{IsRank, SameSpan, row_at};
ghost use Rattle.pm_beneath.specs.CellLists.{AreNextCells};
ghost use Rattle.pm_dd.specs.Building.{StandFor};
ghost use Rattle.pm_dd.specs.Form.{AreReduced};
ghost use Rattle.pm_dd.specs.Lost.{HasWideRayOnRows, IfWide};
ghost use Rattle.pm_dd.specs.Refusals.{IsShownOnRows};
ghost use Rattle.pm_dd.specs.Tables.{IsRayTable};
ghost use Rattle.pm_geom.specs.Graphs.{IsAscending};
ghost use Rattle.std.specs.Prelude.{All, IfErr, IfOk, length, map, take, true, ◌++◌, ◌+◌, ◌<◌, ◌^◌, ◌≡◌, ◌≤◌};

use crate::cells::next_cells;
use pm_dd::DdFail;
use pm_dd::rays::Rays;
use pm_dd::run::{rays_after, refusal_of};
use pm_dd::step::products;
use pm_limits::MOST_ROWS;
use pm_vector::Ints;
use std::alloc::Global;

/// A front's rays and cells.
#[derive(Drop)]
pub(crate) struct Front {
    /// The facet rows, with the rows on each.
    pub rays: Rays,
    /// The cells, as places of rows.
    pub cells: Vec<Vec<u32>>,
}

/// The products of the next row with the rays of a front, or what stands for them, or a refusal with its evidence.
fn front_products(
    alloc: Global,
    cols: usize,
    equations: &[Ints],
    rows: &[Ints],
    start: usize,
    front: usize,
    rays: &Rays,
    wide: bool,
) -> Result<Vec<i128>, DdFail>
    requires row_cols { HasCols cols rows.now }
    requires few_rows { length rows.now < 2 ^ 30 }
    requires few_equations { length equations.now < 2 ^ 30 }
    requires few_columns { cols < 2 ^ 30 }
    requires from { start ≤ front }
    requires within { front < length rows.now }
    requires table { IsRayTable cols equations.now rows.now front rays.now.rows.items rays.now.zeros.rows }
    requires reduced { AreReduced cols (equations.now ++ take start rows.now) rays.now.rows.items }
    ensures stand { IfOk result (λ v. StandFor (row_at rows.now front) rays.now.rows.items v.items) }
    ensures shown { IfErr result (IsShownOnRows cols equations.now rows.now start) }
    ensures lost { wide ≡ true → IfErr result (λ f.
        IfWide f (HasWideRayOnRows cols equations.now rows.now start)) }
{
    match products(alloc, &rows[front], &rays.rows, wide) {
        Ok(values) => Ok(values),
        Err(fail) => Err(refusal_of(alloc, cols, equations, rows, start, front, &rays.rows, fail)),
    }
}

/// The rays and the cells of a front with one row more.
pub(crate) fn next_front(
    alloc: Global,
    cols: usize,
    equations: &[Ints],
    rows: &[Ints],
    start: usize,
    front: usize,
    rays: Rays,
    cells: &[Vec<u32>],
    wide: bool,
) -> Result<Front, DdFail>
    requires equation_cols { HasCols cols equations.now }
    requires row_cols { HasCols cols rows.now }
    requires few_rows { length rows.now < 2 ^ 30 }
    requires few_equations { length equations.now < 2 ^ 30 }
    requires few_columns { cols < 2 ^ 30 }
    requires from { start ≤ front }
    requires within { front < length rows.now }
    requires spans { SameSpan (equations.now ++ take start rows.now) (equations.now ++ rows.now) }
    requires rank { IsRank (equations.now ++ rows.now) (length equations.now + start) }
    requires table { IsRayTable cols equations.now rows.now front rays.rows.items rays.zeros.rows }
    requires row_len { rays.zeros.row_len ≡ length rows.now }
    requires few { length rays.rows.items ≤ MOST_ROWS }
    requires reduced { AreReduced cols (equations.now ++ take start rows.now) rays.rows.items }
    requires cells { All (IsAscending front) (map (λ s. s.items) cells.now) }
    ensures table { IfOk result (λ r.
        IsRayTable cols equations.now rows.now (front + 1) r.rays.rows.items r.rays.zeros.rows) }
    ensures row_len { IfOk result (λ r. r.rays.zeros.row_len ≡ length rows.now) }
    ensures few { IfOk result (λ r. length r.rays.rows.items ≤ MOST_ROWS) }
    ensures reduced { IfOk result (λ r.
        AreReduced cols (equations.now ++ take start rows.now) r.rays.rows.items) }
    ensures cells { IfOk result (λ r.
        AreNextCells rows.now rays.rows.items front (map (λ s. s.items) cells.now) (map (λ s.
        s.items) r.cells.items)) }
    ensures shown { IfErr result (IsShownOnRows cols equations.now rows.now start) }
    ensures lost { wide ≡ true → IfErr result (λ f.
        IfWide f (HasWideRayOnRows cols equations.now rows.now start)) }
{
    let values = front_products(alloc, cols, equations, rows, start, front, &rays, wide)?;
    let made = next_cells(alloc, cells, &values, &rays.zeros, front as u32)?;
    let next = rays_after(alloc, cols, equations, rows, start, front, rays, wide)?;
    Ok(Front {
        rays: next,
        cells: made,
    })
}
