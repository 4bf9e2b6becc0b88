// The ranks of faces.
ghost use Rattle.pm_lattice.specs.Closures.{IsRowBefore, IsClosed};
ghost use Rattle.pm_bits.specs.Sets.{member_count};
ghost use Rattle.pm_lattice.specs.Ranks.{Allows, AreAllowedFrom, AreHeights, AreRanks, AreRanksFrom};
ghost use Rattle.pm_lattice.specs.Ranks.{AreSeen, HasRankIn, Rise, StandsAfter, face_at};
ghost use Rattle.std.specs.List.{All, AllPairs, Contains};
ghost use Rattle.std.specs.Prelude.{ℕ, ◌^◌, ◌+◌, ◌<◌, ◌≡◌, IfOk, length};

use pm_bits::{BitRow, BitTable};
use std::alloc::{AllocError, Global};
use std::cmp::Ordering;

// What is known of the ranks of all faces of a size.
#[derive(Clone, Copy)]
enum SizeRank {
    // No face of the size is known.
    Unseen,
    // All that are known have this rank.
    All(usize),
    // They have different ranks.
    Mixed,
}

// What is known of a size with one more face, of this rank.
fn with_rank(known: SizeRank, rank: usize) -> SizeRank
    ensures new { Allows result rank }
    ensures old { (k : ℕ) → Allows known k → Allows result k }
{
    match known {
        SizeRank::Unseen => SizeRank::All(rank),
        SizeRank::All(all) => { if all == rank { known } else { SizeRank::Mixed } }
        SizeRank::Mixed => SizeRank::Mixed,
    }
}

// Where a face stands in the order.
fn place_of(faces: &[BitRow], face: &BitRow) -> usize
    requires ordered { AllPairs IsRowBefore faces.now }
    requires lengths { All (λ f. length f ≡ length face.now) faces.now }
    requires known { Contains faces.now face.now }
    ensures within { result < length faces.now }
    ensures place { face_at faces.now result ≡ face.now }
{
    let mut low = 0;
    let mut high = faces.len();
    while low < high {
        let middle = low + (high - low) / 2;
        match faces[middle].cmp_lanes(face) {
            Ordering::Less => low = middle + 1,
            Ordering::Equal => return middle,
            Ordering::Greater => high = middle,
        }
    }
    unreachable!()
}

// The rank of a face that stands after a place, where those after it have theirs: by its size, where all
// faces of the size have one rank.
fn known_rank(
    rows: &BitTable,
    faces: &[BitRow],
    sizes: &[SizeRank],
    ranks: &[usize],
    place: usize,
    face: &BitRow,
    size: usize,
) -> usize
    requires few { rows.now.row_len < 2 ^ 32 }
    requires closed { IsClosed rows.now.row_len rows.now.rows faces.now }
    requires as_many { length ranks.now ≡ length faces.now }
    requires each_size { length sizes.now ≡ rows.now.row_len + 1 }
    requires known { AreRanksFrom rows.now.row_len rows.now.rows faces.now ranks.now (place + 1) }
    requires allowed { AreAllowedFrom faces.now ranks.now sizes.now (place + 1) }
    requires after { StandsAfter faces.now place face.now }
    requires size { size ≡ member_count face.now }
    ensures { HasRankIn rows.now face.now result }
{
    if let SizeRank::All(rank) = sizes[size] {
        return rank;
    }
    ranks[place_of(faces, face)]
}

// The rank of the face at a place, where those after it have theirs. A rank that reaches the height of
// the face's size is the greatest, and a part whose height is too small cannot raise it.
fn rank_of(
    rows: &BitTable,
    faces: &[BitRow],
    heights: &[usize],
    sizes: &[SizeRank],
    ranks: &[usize],
    place: usize,
    part: &mut BitRow,
) -> usize
    requires few { rows.now.row_len < 2 ^ 32 }
    requires closed { IsClosed rows.now.row_len rows.now.rows faces.now }
    requires high { AreHeights rows.now.row_len faces.now heights.now }
    requires within { place < length faces.now }
    requires as_many { length ranks.now ≡ length faces.now }
    requires each_size { length sizes.now ≡ rows.now.row_len + 1 }
    requires known { AreRanksFrom rows.now.row_len rows.now.rows faces.now ranks.now (place + 1) }
    requires allowed { AreAllowedFrom faces.now ranks.now sizes.now (place + 1) }
    requires part_len { length part.old ≡ rows.now.row_len }
    ensures part_len { length part.new ≡ rows.now.row_len }
    ensures rank { HasRankIn rows.now (face_at faces.now place) result }
{
    let face = &faces[place];
    let height = heights[face.count()];
    let mut rank = 0;
    for i in 0..rows.len() {
        if rank == height {
            return rank;
        }
        let row = rows.row(i);
        if row.contains(face) {
            continue;
        }
        row.meet_into(face, part);
        let size = part.count();
        if heights[size] < rank {
            continue;
        }
        let below = known_rank(rows, faces, sizes, ranks, place, part, size);
        if below < rank {
            continue;
        }
        rank = below + 1;
    }
    rank
}

// Which sizes some face has.
fn sizes_of(alloc: Global, faces: &[BitRow], len: usize) -> Result<Vec<bool>, AllocError>
    requires few { len < 2 ^ 32 }
    requires lengths { All (λ f. length f ≡ len) faces.now }
    ensures len { IfOk result (λ seen. length seen.items ≡ len + 1) }
    ensures seen { IfOk result (λ seen. AreSeen faces.now seen.items) }
{
    let mut seen = vec![in alloc; false; len + 1]?;
    for face in faces {
        seen[face.count()] = true;
    }
    Ok(seen)
}

// For each size, how many sizes below it are seen.
fn heights_of(alloc: Global, seen: &[bool]) -> Result<Vec<usize>, AllocError>
    requires { length seen.now < 2 ^ 33 }
    ensures { IfOk result (λ heights. Rise seen.now heights.items) }
{
    let mut heights = Vec::new(alloc);
    let mut height = 0;
    for size in seen {
        heights.push(height)?;
        if *size {
            height += 1;
        }
    }
    Ok(heights)
}

/// The ranks of faces that are closed under intersection, from the last one to the first.
pub(crate) fn ranks_of(
    alloc: Global,
    rows: &BitTable,
    faces: &[BitRow],
) -> Result<Vec<usize>, AllocError>
    requires few { rows.now.row_len < 2 ^ 32 }
    requires closed { IsClosed rows.now.row_len rows.now.rows faces.now }
    ensures len { IfOk result (λ ranks. length ranks.items ≡ length faces.now) }
    ensures ranks { IfOk result (λ ranks. AreRanks rows.now faces.now ranks.items) }
{
    let seen = sizes_of(alloc, faces, rows.row_len())?;
    let heights = heights_of(alloc, &seen)?;
    let mut part = BitRow::with_len(alloc, rows.row_len())?;
    let mut sizes = vec![in alloc; SizeRank::Unseen; seen.len()]?;
    let mut ranks = vec![in alloc; 0; faces.len()]?;
    let mut place = faces.len();
    while place > 0 {
        place -= 1;
        let rank = rank_of(rows, faces, &heights, &sizes, &ranks, place, &mut part);
        ranks[place] = rank;
        let size = faces[place].count();
        sizes[size] = with_rank(sizes[size], rank);
    }
    Ok(ranks)
}
