// The cells of a front with one row more.

ghost use Rattle.pm_beneath.specs.CellLists.{cells_below, joined_cells, set_places};
ghost use Rattle.std.specs.Prelude.{All, IfOk, length, map, pos, ◌++◌, ◌<◌, ◌≡◌, ◌≤◌};
ghost use lib.Signed.{lt_z};

use pm_bits::{BitRow, BitTable};
use pm_geom::copy_sets;
use std::alloc::{AllocError, Global};

/// The places of a cell that are members of a row of bits.
fn members_of(alloc: Global, cell: &[u32], zeros: &BitRow) -> Result<Vec<u32>, AllocError>
    requires { All (λ k. k < length zeros.now) cell.now }
    ensures { IfOk result (λ v. v.items ≡ set_places zeros.now cell.now) }
{
    let mut made = Vec::new(alloc);
    for k in cell {
        if zeros.get(*k as usize) {
            made.push(*k)?;
        }
    }
    Ok(made)
}

/// How many places of a cell are members of a row of bits.
fn count_members(cell: &[u32], zeros: &BitRow) -> usize
    requires { All (λ k. k < length zeros.now) cell.now }
    ensures count { result ≡ length (set_places zeros.now cell.now) }
    ensures few { result ≤ length cell.now }
{
    let mut count = 0;
    for k in cell {
        if zeros.get(*k as usize) {
            count += 1;
        }
    }
    count
}

/// The cells that one facet row gives, put behind others: for each cell of which all rays but one are on it, these
/// and the new one.
fn add_joined(
    alloc: Global,
    cells: &[Vec<u32>],
    zeros: &BitRow,
    new: u32,
    others: Vec<Vec<u32>>,
) -> Result<Vec<Vec<u32>>, AllocError>
    requires { All (λ s. All (λ k. k < length zeros.now) s.items) cells.now }
    ensures { IfOk result (λ v. map (λ s. s.items) v.items ≡ map (λ s. s.items) others.items
        ++ joined_cells zeros.now new (map (λ s. s.items) cells.now)) }
{
    let mut made = others;
    for cell in cells {
        if count_members(cell, zeros) + 1 == cell.len() {
            let mut kept = members_of(alloc, cell, zeros)?;
            kept.push(new)?;
            made.push(kept)?;
        }
    }
    Ok(made)
}

/// Whether a facet is visible from the new ray, by the product of its row with that.
fn is_visible(value: i128) -> bool
    ensures { result ≡ lt_z value (pos 0) }
{
    value < 0
}

/// The cells with one row more: the old ones, and for each facet row that the new ray is below, and each cell of
/// which exactly one ray is not on it, the cell with the new ray in that one's place.
/// `values` are the products of the new ray with the facet rows, and `zeros` has for each of these the rays on it.
pub(crate) fn next_cells(
    alloc: Global,
    cells: &[Vec<u32>],
    values: &[i128],
    zeros: &BitTable,
    new: u32,
) -> Result<Vec<Vec<u32>>, AllocError>
    requires many { length values.now ≡ length zeros.now.rows }
    requires within { All (λ s. All (λ k. k < zeros.now.row_len) s.items) cells.now }
    ensures { IfOk result (λ v. map (λ s. s.items) v.items ≡ map (λ s. s.items) cells.now
        ++ cells_below values.now zeros.now.rows new (map (λ s. s.items) cells.now)) }
{
    let mut made = copy_sets(alloc, cells)?;
    for i in 0..values.len() {
        let visible = is_visible(values[i]);
        if visible {
            made = add_joined(alloc, cells, zeros.row(i), new, made)?;
        }
    }
    Ok(made)
}
