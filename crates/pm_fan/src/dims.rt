// The dimensions of the cones of a fan.

ghost use Rattle.pm_vector.specs.Rows.{HasCols};
ghost use Rattle.pm_elim.specs.Refusals.{IfWide};
ghost use Rattle.pm_vector.specs.declared.evidence.ElimList.TheVariants as list;
ghost use Rattle.pm_fan.specs.Dimensions.{AreDimensions, ArePlaces, IsConeEvidence, IsLostCone, NoConeEvidence, cone_rows};
ghost use Rattle.std.specs.List.{All};
ghost use Rattle.std.specs.Prelude.{IfErr, IfOk, OnOk, false, length, ◌<◌, ◌^◌, ◌≡◌, true};

use pm_elim::{ElimFail, rank_by};
use pm_types::Sets;
use pm_vector::{Ints, copies};
use std::alloc::{AllocError, Global};

/// The rows that span a cone: the lines, and then its rays.
fn cone_rows(
    alloc: Global,
    rays: &[Ints],
    lineality: &[Ints],
    set: &[u32],
) -> Result<Vec<Ints>, AllocError>
    requires { All (λ j. j < length rays.now) set.now }
    ensures { IfOk result (λ v. v.items ≡ cone_rows rays.now lineality.now set.now) }
{
    let mut rows = copies(alloc, lineality)?;
    for place in set {
        rows.push(rays[*place as usize].copy(alloc)?)?;
    }
    Ok(rows)
}

/// The dimensions of cones that are given by their rays, as sets of places, over one lineality: for each set the rank
/// of the lineality with these rays. The rows have `cols` entries.
/// `Wide` exactly where, for some set, a step of the elimination of these rows leaves the range; the evidence is on
/// them. With `wide` such an elimination is worked by wide numbers, and `Wide` comes only where besides, for some set,
/// that elimination is lost by wide numbers too: no row in the range is what a step of it makes.
pub fn cone_dims(
    alloc: Global,
    rays: &[Ints],
    lineality: &[Ints],
    cones: &Sets,
    cols: usize,
    wide: bool,
) -> Result<Vec<i64>, ElimFail>
    requires rays { HasCols cols rays.now }
    requires lineality { HasCols cols lineality.now }
    requires places { ArePlaces rays.now lineality.now cones.now.rows }
    requires few_columns { cols < 2 ^ 30 }
    ensures dims { IfOk result (λ d. AreDimensions rays.now lineality.now cones.now.rows d.items) }
    ensures never_wide { OnOk result (wide ≡ false → NoConeEvidence cols rays.now lineality.now cones.now.rows) }
    ensures wide { IfErr result (λ f. IfWide f (IsConeEvidence cols rays.now lineality.now cones.now.rows)) }
    ensures list { IfErr result (λ f. IfWide f (λ e. e.list ≡ list.Rows)) }
    ensures lost { wide ≡ true → IfErr result (λ f.
        IfWide f (λ _. IsLostCone cols rays.now lineality.now cones.now.rows)) }
{
    let mut dims = Vec::new(alloc);
    for set in cones.rows() {
        let rows = cone_rows(alloc, rays, lineality, set)?;
        dims.push(rank_by(alloc, &rows, cols, wide)? as i64)?;
    }
    Ok(dims)
}
