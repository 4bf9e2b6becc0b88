// Cells by the places of the rays as they were handed in.

ghost use Rattle.pm_beneath.specs.Names.{named, named_by};
ghost use Rattle.pm_laws_placing.specs.PlacedCells.{HaveSameSets};
ghost use Rattle.pm_geom.specs.FaceCounts.{IsLexBefore};
ghost use Rattle.std.specs.Prelude.{All, AllPairs, IfOk, length, map, ◌<◌, ◌^◌, ◌≡◌, ◌≤◌};

use crate::sorted::in_order;
use std::alloc::{AllocError, Global};

/// Whether some place of the cell has the name.
fn is_named(cell: &[u32], places: &[u32], name: u32) -> bool
    requires { All (λ k. k < length places.now) cell.now }
    ensures { result ≡ named_by places.now cell.now name }
{
    for k in cell {
        if places[*k as usize] == name {
            return true;
        }
    }
    false
}

/// The names of a cell's places, in order.
fn named_cell(
    alloc: Global,
    cell: &[u32],
    places: &[u32],
    many: usize,
) -> Result<Vec<u32>, AllocError>
    requires within { All (λ k. k < length places.now) cell.now }
    requires few { many < 2 ^ 30 }
    ensures { IfOk result (λ v. v.items ≡ named many places.now cell.now) }
{
    let mut made = Vec::new(alloc);
    for name in 0..many {
        if is_named(cell, places, name as u32) {
            made.push(name as u32)?;
        }
    }
    Ok(made)
}

/// Each cell by the names of its places.
fn named_cells(
    alloc: Global,
    cells: &[Vec<u32>],
    places: &[u32],
    many: usize,
) -> Result<Vec<Vec<u32>>, AllocError>
    requires within { All (λ s. All (λ k. k < length places.now) s.items) cells.now }
    requires few { many < 2 ^ 30 }
    ensures { IfOk result (λ v. map (λ s. s.items) v.items
        ≡ map (λ s. named many places.now s.items) cells.now) }
{
    let mut made = Vec::new(alloc);
    for cell in cells {
        made.push(named_cell(alloc, cell, places, many)?)?;
    }
    Ok(made)
}

/// These in lexicographic order, each once. Where they differ, there are as many.
pub(crate) fn ordered_cells(
    alloc: Global,
    cells: &[Vec<u32>],
    places: &[u32],
    many: usize,
) -> Result<Vec<Vec<u32>>, AllocError>
    requires within { All (λ s. All (λ k. k < length places.now) s.items) cells.now }
    requires few { many < 2 ^ 30 }
    ensures same { IfOk result (λ v.
        HaveSameSets (map (λ s. s.items) v.items) (map (λ s. named many places.now s.items) cells.now)) }
    ensures ordered { IfOk result (λ v. AllPairs IsLexBefore (map (λ s. s.items) v.items)) }
    ensures few { IfOk result (λ v. length v.items ≤ length cells.now) }
    ensures as_many { AllPairs (λ s t. ¬ (s ≡ t)) (map (λ s. named many places.now s.items) cells.now)
        → IfOk result (λ v. length v.items ≡ length cells.now) }
{
    let made = named_cells(alloc, cells, places, many)?;
    in_order(made)
}
