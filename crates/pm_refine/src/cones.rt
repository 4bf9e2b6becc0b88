// The facet rows of the cones of a fan.

ghost use Rattle.pm_refine.specs.CutRows.{AreFacetsOf, AreSmall, IsSmallFan, cut_rows, fan_from};
ghost use Rattle.pm_refine.specs.Fails.{IsConeFail};
ghost use Rattle.std.specs.Prelude.{IfErr, IfOk, map, ◌<◌, ◌^◌};

use crate::fails::{RefineFail, not_made};
use pm_dd::{Facets, to_facets};
use pm_vector::Ints;
use std::alloc::Global;

/// The facet rows of each cone of a fan, and the rows that vanish on it.
/// A refusal names the place of a cone, and 0.
pub(crate) fn facets_of_cones(
    alloc: Global,
    cols: usize,
    cones: &[Vec<Ints>],
    lines: &[Ints],
) -> Result<Vec<Facets>, RefineFail>
    requires fan { IsSmallFan cols (fan_from (map (λ c. c.items) cones.now) lines.now) }
    requires few_columns { cols < 2 ^ 30 }
    ensures facets { IfOk result (λ v. AreFacetsOf cols (fan_from (map (λ c. c.items) cones.now) lines.now)
        (map cut_rows v.items)) }
    ensures small { IfOk result (λ v. AreSmall cols (map cut_rows v.items)) }
    ensures failed { IfErr result (IsConeFail cols (fan_from (map (λ c. c.items) cones.now) lines.now)) }
{
    let mut made = Vec::new(alloc);
    for i in 0..cones.len() {
        match to_facets(alloc, cols, &cones[i], lines) {
            Ok(facets) => made.push(facets)?,
            Err(fail) => return Err(not_made(i as u32, 0, fail)),
        }
    }
    Ok(made)
}
