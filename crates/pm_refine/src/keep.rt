// The maximal ones among the intersections so far.

ghost use Rattle.pm_vector.specs.Rows.{HasCols};
ghost use Rattle.pm_refine.specs.CutRows.{AreSmall, IsRowOf, IsSmall, IsSomeRow, cut_rows, intersection_of};
ghost use Rattle.pm_refine.specs.Fails.{IsTestOf, IsWideOf};
ghost use Rattle.pm_refine.specs.Steps.{ArePlaced, IsPlaced, includes_any_of, keep_one, not_included_in};
ghost use Rattle.std.specs.Prelude.{All, IfErr, IfOk, [], map, ◌++◌, ◌∷◌, ◌≡◌, ◌⊎◌};

use crate::fails::RefineFail;
use crate::products::is_within;
use crate::refinement::Intersection;
use pm_dd::Facets;
use std::alloc::Global;

/// Whether an intersection is included in a kept one.
fn includes_any(
    alloc: Global,
    cols: usize,
    new: &Intersection,
    kept: &[Intersection],
    firsts: &[Facets],
    seconds: &[Facets],
) -> Result<bool, RefineFail>
    requires new { IsPlaced cols (map cut_rows firsts.now) (map cut_rows seconds.now)
        (intersection_of new.now) }
    requires kept { ArePlaced cols (map cut_rows firsts.now) (map cut_rows seconds.now)
        (map intersection_of kept.now) }
    requires firsts { AreSmall cols (map cut_rows firsts.now) }
    requires seconds { AreSmall cols (map cut_rows seconds.now) }
    ensures any { IfOk result (λ b. b ≡ includes_any_of (map cut_rows firsts.now) (map cut_rows seconds.now)
        (map intersection_of kept.now) (intersection_of new.now)) }
    ensures failed { IfErr result
        (IsWideOf (IsTestOf (intersection_of new.now ∷ [])
        (IsSomeRow (map cut_rows firsts.now) (map cut_rows seconds.now)))) }
{
    for k in kept {
        let within = is_within(
            alloc,
            cols,
            new,
            &firsts[k.first as usize],
            &seconds[k.second as usize],
        )?;
        if within {
            return Ok(true);
        }
    }
    Ok(false)
}

/// The kept intersections that are not included in the new one, which is that of two cones given by their facet rows.
fn without_included(
    alloc: Global,
    cols: usize,
    kept: Vec<Intersection>,
    first: &Facets,
    second: &Facets,
) -> Result<Vec<Intersection>, RefineFail>
    requires kept { All (λ a. HasCols cols a.rays.items) kept.items }
    requires first { IsSmall cols (cut_rows first.now) }
    requires second { IsSmall cols (cut_rows second.now) }
    ensures left { IfOk result (λ v. map intersection_of v.items
        ≡ not_included_in (cut_rows first.now) (cut_rows second.now) (map intersection_of kept.items)) }
    ensures failed { IfErr result
        (IsWideOf (IsTestOf (map intersection_of kept.items) (λ r. IsRowOf (cut_rows first.now) r
        ⊎ IsRowOf (cut_rows second.now) r))) }
{
    let mut left = Vec::new(alloc);
    for k in kept {
        let within = is_within(alloc, cols, &k, first, second)?;
        if !within {
            left.push(k)?;
        }
    }
    Ok(left)
}

/// The kept intersections after a new one: the same where it is included in one of them; else it is kept too, and
/// those that are included in it are let go.
pub(crate) fn keep(
    alloc: Global,
    cols: usize,
    kept: Vec<Intersection>,
    new: Intersection,
    firsts: &[Facets],
    seconds: &[Facets],
) -> Result<Vec<Intersection>, RefineFail>
    requires listed { ArePlaced cols (map cut_rows firsts.now) (map cut_rows seconds.now)
        (map intersection_of kept.items ++ intersection_of new ∷ []) }
    requires firsts { AreSmall cols (map cut_rows firsts.now) }
    requires seconds { AreSmall cols (map cut_rows seconds.now) }
    ensures kept { IfOk result (λ v. map intersection_of v.items
        ≡ keep_one (map cut_rows firsts.now) (map cut_rows seconds.now) (map intersection_of kept.items)
        (intersection_of new)) }
    ensures failed { IfErr result
        (IsWideOf (IsTestOf (map intersection_of kept.items ++ intersection_of new ∷ [])
        (IsSomeRow (map cut_rows firsts.now) (map cut_rows seconds.now)))) }
{
    let included = includes_any(alloc, cols, &new, &kept, firsts, seconds)?;
    if included {
        return Ok(kept);
    }
    let mut left = without_included(
        alloc,
        cols,
        kept,
        &firsts[new.first as usize],
        &seconds[new.second as usize],
    )?;
    left.push(new)?;
    Ok(left)
}
