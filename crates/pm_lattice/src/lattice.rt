// The face lattice of sets of indices.
ghost use Rattle.pm_geom.specs.Meets.{AreMeetsByRank, IsSmallLattice};
ghost use Rattle.pm_lattice.specs.Closures.{AreFew, AreMany, AreMeets, IsClosed, bit_sets};
ghost use Rattle.pm_lattice.specs.Closures.{place_count};
ghost use Rattle.pm_lattice.specs.Lattices.{IsFaceLattice, IsShown, ShowsTooMany};
ghost use Rattle.std.specs.List.{All};
ghost use Rattle.std.specs.Prelude.{◌^◌, ◌<◌, ◌≤◌, ◌≡◌, length, IfOk, IfErr, map};
ghost use Rattle.pm_limits.specs.Limits.{most_faces};

use crate::closure::Closure;
use crate::lists::{by_rank, member_lists, table_of};
use crate::ranks::ranks_of;
use crate::turned::close_either;
use pm_bits::{BitRow, BitTable};
use pm_geom::PlaceSets;
use pm_limits::MOST_PLACES;
use pm_types::{Evidence, Lattice, Sets};
use std::alloc::{AllocError, Global};

/// Why there is no lattice.
#[derive(Drop)]
pub enum LatticeFail {
    /// There are more than `MOST_FACES` faces, or they have more than `MOST_PLACES` indices together: E5 shows
    /// so many of them.
    Many(Evidence),
    /// Memory is lacking.
    Memory,
}

impl From<AllocError> for LatticeFail {
    ghost use Rattle.pm_lattice.specs.declared.lattice.LatticeFail.TheVariants.{Memory};

    ghost from_gives = { λ _ e. e ≡ Memory };

    fn from(_error: AllocError) -> LatticeFail {
        LatticeFail::Memory
    }
}

// All faces, rank by rank.
fn lattice_of(alloc: Global, rows: &BitTable, faces: &[BitRow]) -> Result<Lattice, AllocError>
    requires few { rows.now.row_len < 2 ^ 32 }
    requires closed { IsClosed rows.now.row_len rows.now.rows faces.now }
    requires limits { AreFew faces.now }
    ensures small { IfOk result IsSmallLattice }
    ensures lattice { IfOk result (AreMeetsByRank rows.now.row_len (bit_sets rows.now.rows)) }
{
    let ranks = ranks_of(alloc, rows, faces)?;
    Ok(Lattice::from_vec(by_rank(alloc, faces, &ranks, ranks[0])?))
}

// How many places all faces have together.
fn place_count(faces: &[BitRow], len: usize) -> usize
    requires few { length faces.now ≤ most_faces }
    requires short { len < 2 ^ 32 }
    requires lengths { All (λ f. length f ≡ len) faces.now }
    ensures { result ≡ place_count faces.now }
{
    let mut places = 0;
    for face in faces {
        places += face.count();
    }
    places
}

// The faces as evidence.
fn evidence_of(alloc: Global, rows: &BitTable, faces: &[BitRow]) -> Result<Evidence, AllocError>
    requires few { rows.now.row_len < 2 ^ 32 }
    requires meets { AreMeets rows.now.row_len rows.now.rows faces.now }
    requires many { AreMany faces.now }
    ensures { IfOk result (ShowsTooMany rows.now.row_len (bit_sets rows.now.rows)) }
{
    Ok(Evidence::E5Faces {
        faces: PlaceSets::from_vec(member_lists(alloc, faces)?),
    })
}

/// All intersections of the sets and the set of all indices, each once, by rank: the rank of a face is
/// the greatest number of strict inclusions of faces below it. Faces of one rank are in lexicographic
/// order.
///
/// Where the sets hold the vertices of the facets of a polytope, these are exactly its faces, each under
/// its rank (`law_lattice_is_hasse_diagram`, `law_meets_are_faces`). `Many` comes only with evidence of too
/// many faces, and `Memory` only where memory is lacking.
pub fn faces(alloc: Global, s: &Sets) -> Result<Lattice, LatticeFail>
    requires { All (λ row. All (λ j. j < s.now.cols) row) s.now.rows }
    ensures lattice { IfOk result (IsFaceLattice s.now) }
    ensures small { IfOk result IsSmallLattice }
    ensures fail { IfErr result (IsShown s.now) }
{
    let rows = table_of(alloc, s)?;
    match close_either(alloc, &rows)? {
        Closure::All(faces) => {
            if place_count(&faces, rows.row_len()) > MOST_PLACES {
                return Err(LatticeFail::Many(evidence_of(alloc, &rows, &faces)?));
            }
            Ok(lattice_of(alloc, &rows, &faces)?)
        }
        Closure::Many(faces) => Err(LatticeFail::Many(evidence_of(alloc, &rows, &faces)?)),
    }
}
