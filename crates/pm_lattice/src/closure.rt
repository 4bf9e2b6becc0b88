// All intersections of rows of bits.
ghost use Rattle.pm_bits.specs.Sets.{has};
ghost use Rattle.pm_lattice.specs.Closures.{IsClosureOf};
ghost use Rattle.pm_lattice.specs.Parts.{AreOpen, HasOpened, IsOpening, OpensFrom, OpensParts};
ghost use Rattle.std.specs.BTreeMap.{keys};
ghost use Rattle.std.specs.List.{All};
ghost use Rattle.std.specs.List.Sorted.{IsPermutation};
ghost use Rattle.std.specs.Prelude.{ℕ, ◌<◌, ◌≡◌, IfOk, IsTrue, OnOk, length};

use pm_bits::{BitRow, BitTable};
use pm_limits::MOST_FACES;
use std::alloc::{AllocError, Global};
use std::collections::BTreeMap;
use std::mem;

/// All intersections of rows with the set of all places, each once and in the order of rows of bits;
/// or more of them than a lattice may have.
#[derive(Drop)]
pub(crate) enum Closure {
    All(Vec<BitRow>),
    Many(Vec<BitRow>),
}

// The set of all numbers below `len`.
pub(crate) fn full_row(alloc: Global, len: usize) -> Result<BitRow, AllocError>
    ensures len { IfOk result (λ row. length row ≡ len) }
    ensures full { IfOk result (λ row. (j : ℕ) → j < len → IsTrue (has row j)) }
{
    let mut row = BitRow::with_len(alloc, len)?;
    for j in 0..len {
        row.set(j);
    }
    Ok(row)
}

// Whether the row at a place opens a part of a face, which `part` becomes: what they share, where the row does not
// contain the face, and no earlier row that does not contain the face has what they share. No row up to this place
// opens a part of the part; so each face is opened from one face alone, by one row (Kuznetsov, 1993: Close-by-One).
fn opens(rows: &BitTable, face: &BitRow, place: usize, part: &mut BitRow) -> bool
    requires place { place < length rows.now.rows }
    requires face_len { length face.now ≡ rows.now.row_len }
    requires part_len { length part.old ≡ rows.now.row_len }
    ensures part_len { length part.new ≡ rows.now.row_len }
    ensures opened { IsTrue result → HasOpened rows.now face.now place part.new }
    ensures passed { IsOpening rows.now.row_len rows.now.rows face.now place → IsTrue result }
{
    let row = rows.row(place);
    if row.contains(face) {
        return false;
    }
    row.meet_into(face, part);
    rows.implies(part, face, place)
}

// Opens the parts of a face, of which no row before `from` opens one. `part` is a row to work in.
fn open_parts(
    alloc: Global,
    rows: &BitTable,
    face: &BitRow,
    from: usize,
    part: &mut BitRow,
    pending: &mut BTreeMap<BitRow, usize>,
) -> Result<(), AllocError>
    requires face_len { length face.now ≡ rows.now.row_len }
    requires part_len { length part.old ≡ rows.now.row_len }
    requires from { OpensFrom rows.now face.now from }
    requires open { AreOpen rows.now pending.old.entries }
    ensures part_len { length part.new ≡ rows.now.row_len }
    ensures open { OnOk result (AreOpen rows.now pending.new.entries) }
    ensures opens { OnOk result (OpensParts rows.now face.now (keys pending.old) (keys pending.new)) }
{
    for place in from..rows.len() {
        if opens(rows, face, place, part) {
            let next = BitRow::with_len(alloc, face.len())?;
            pending.insert(mem::replace(part, next), place + 1)?;
        }
    }
    Ok(())
}

// Closes the rows of a table under intersection: from the set of all places on, the first open face is settled and its
// parts are opened. Beside an open face stands the place of the first row that is tried on it.
fn close_rows(alloc: Global, rows: &BitTable) -> Result<Closure, AllocError>
    ensures { IfOk result (IsClosureOf rows.now) }
{
    let mut pending = BTreeMap::new(alloc);
    pending.insert(full_row(alloc, rows.row_len())?, 0)?;
    let mut part = BitRow::with_len(alloc, rows.row_len())?;
    let mut faces = Vec::new(alloc);
    for _turn in 0..MOST_FACES + 1 {
        let Some((face, from)) = pending.pop_first() else {
            return Ok(Closure::All(faces));
        };
        open_parts(alloc, rows, &face, from, &mut part, &mut pending)?;
        faces.push(face)?;
    }
    Ok(Closure::Many(faces))
}

// The rows of a table, copied.
fn copies_of(alloc: Global, rows: &BitTable) -> Result<Vec<BitRow>, AllocError>
    ensures lengths { IfOk result (λ list. All (λ row. length row ≡ rows.now.row_len) list.items) }
    ensures rows { IfOk result (λ list. list.items ≡ rows.now.rows) }
{
    let mut list = Vec::with_capacity(alloc, rows.len())?;
    for place in 0..rows.len() {
        list.push(rows.row(place).copy(alloc)?)?;
    }
    Ok(list)
}

// The rows of a table, the greatest first.
fn greatest_first(alloc: Global, rows: &BitTable) -> Result<BitTable, AllocError>
    ensures row_len { IfOk result (λ table. table.row_len ≡ rows.now.row_len) }
    ensures rows { IfOk result (λ table. IsPermutation rows.now.rows table.rows) }
{
    let mut list = copies_of(alloc, rows)?;
    list.sort_unstable();
    list.reverse();
    BitTable::from_rows(alloc, list, rows.row_len())
}

/// Closes the rows of a table under intersection. The greatest rows are tried first: so what a row opens is mostly the
/// first of the open faces, and few are open at once.
pub(crate) fn close(alloc: Global, rows: &BitTable) -> Result<Closure, AllocError>
    ensures { IfOk result (IsClosureOf rows.now) }
{
    let ordered = greatest_first(alloc, rows)?;
    close_rows(alloc, &ordered)
}
