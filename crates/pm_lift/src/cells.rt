// The cells of sites with heights, and the Delaunay cells of sites.

ghost use Rattle.pm_vector.specs.Rows.{HasCols, entry};
ghost use Rattle.pm_geom.specs.Cells.{AreCells, squares};
ghost use Rattle.pm_lift.specs.Lost.{IfWideLift, LiftingIsLost, RaisingIsLost};
ghost use Rattle.pm_lift.specs.Refusals.{IsLiftFail, IsRaiseFail};
ghost use Rattle.pm_lift.specs.Spheres.{HasAffineFunction, HasEmptySphere};
ghost use Rattle.pm_geom.specs.Graphs.{holds};
ghost use Rattle.std.specs.Prelude.{All, IfErr, IfOk, length, map, pos, true, ◌<ℤ◌, ◌<◌, ◌^◌, ◌≡◌, ◌≤◌};
ghost use Rattle.pm_limits.specs.Limits.{most_rows};

use crate::fails::LiftFail;
use crate::rows::{lifted_rows, raised_rows};
use crate::sets::lower_cells;
use pm_fraction::Fraction;
use pm_vector::Ints;
use std::alloc::Global;

/// The cells of the regular subdivision that the heights of sites induce: the maximal lower faces, each once, as
/// rising lists of places, in lexicographic order.
/// A site is a row of `cols` entries with a positive first entry, and stands for the point of the others divided by
/// it;
/// of no sites the one cell is empty.
/// `Wide` only with evidence: E4 on a site and its height, or on a lifted row and a facet row of the cone of the
/// lifted rows and the row upwards; E1 or E2 on these rows. `Many` only with E5 on these rows.
/// With `wide` a product, or a step of double description, that leaves the range is worked by wide numbers; a refusal
/// is still that by numbers of the range alone, and `Wide` comes only where besides no row in the range is the lifted
/// row of some site, or double description of these rows is lost by wide numbers too.
pub fn regular_cells(
    alloc: Global,
    cols: usize,
    sites: &[Ints],
    heights: &[Fraction],
    wide: bool,
) -> Result<Vec<Vec<u32>>, LiftFail>
    requires cols { HasCols cols sites.now }
    requires positive { All (λ q. pos 0 <ℤ entry q 0) sites.now }
    requires as_many { length heights.now ≡ length sites.now }
    requires few_sites { length sites.now < 2 ^ 30 }
    requires few_columns { cols < 2 ^ 30 }
    ensures cells { IfOk result (λ v. AreCells cols sites.now heights.now (map (λ s. s.items) v.items)) }
    ensures few { IfOk result (λ v. length v.items ≤ most_rows) }
    ensures failed { IfErr result (IsLiftFail cols sites.now heights.now) }
    ensures lost { wide ≡ true → IfErr result (λ f.
        IfWideLift f (LiftingIsLost cols sites.now heights.now)) }
{
    let rows = lifted_rows(alloc, sites, heights, wide)?;
    lower_cells(alloc, cols, &rows, wide)
}

/// The Delaunay cells of sites: the cells with the squares of the distances from the origin as heights.
/// For each of them some affine function h makes |p|^2 - h(p) zero exactly at its sites and positive at all others:
/// its
/// sites lie on a sphere, and all other sites lie outside of it. `wide` as of `regular_cells`.
pub fn delaunay_cells(
    alloc: Global,
    cols: usize,
    sites: &[Ints],
    wide: bool,
) -> Result<Vec<Vec<u32>>, LiftFail>
    requires cols { HasCols cols sites.now }
    requires positive { All (λ q. pos 0 <ℤ entry q 0) sites.now }
    requires few_sites { length sites.now < 2 ^ 30 }
    requires some_columns { 0 < cols }
    requires few_columns { cols < 2 ^ 30 }
    ensures cells { IfOk result (λ v.
        AreCells cols sites.now (squares sites.now) (map (λ s. s.items) v.items)) }
    ensures functions { IfOk result (λ v.
        All (λ s. HasAffineFunction cols sites.now (holds s)) (map (λ s. s.items) v.items)) }
    ensures spheres { IfOk result (λ v.
        All (λ s. HasEmptySphere cols sites.now (holds s)) (map (λ s. s.items) v.items)) }
    ensures few { IfOk result (λ v. length v.items ≤ most_rows) }
    ensures failed { IfErr result (IsRaiseFail cols sites.now) }
    ensures lost { wide ≡ true → IfErr result (λ f. IfWideLift f (RaisingIsLost cols sites.now)) }
{
    let rows = raised_rows(alloc, sites, wide)?;
    lower_cells(alloc, cols, &rows, wide)
}
