// The clients that find an optimum at rays.

ghost use Rattle.pm_client.specs.Sound.{FailsRightly, IsSound, IsWideAtRays};
ghost use Rattle.pm_clients_lp.specs.Clients.{FailsBy, at_rays};
ghost use Rattle.pm_standard.specs.Table.{standard_kind};
ghost use Rattle.std.specs.Prelude.{IfErr, OnOk, [], ◌≡◌};

use crate::optima::value_at_rays_by;
use crate::properties::value_in;
use crate::reading::{objective_of, put_number, rows_of};
use pm_client::ClientFail;
use pm_object::{Draft, View};
use pm_simplex::Sense;
use pm_types::{ObjectType, PropId};
use std::alloc::Global;

/// The optimum: that at VERTICES and LINEALITY_SPACE; by wide numbers too, where these are asked for.
pub(crate) fn value_from_rays(
    sense: Sense,
    alloc: Global,
    view: &View,
    draft: &mut Draft,
    wide: bool,
) -> Result<(), ClientFail>
    requires kind { view.now.kind ≡ standard_kind (at_rays sense wide) }
    requires empty { draft.old ≡ record { kind = view.now.kind; values = [] } }
    ensures draft { draft.new.kind ≡ draft.old.kind }
    ensures sound { OnOk result (IsSound view.now draft.new) }
    ensures failed { IfErr result (FailsRightly view.now) }
    ensures fails { IfErr result (FailsBy (IsWideAtRays view.now)) }
{
    prove!(view.of() == ObjectType::Polytope);
    let lines = rows_of(alloc, view, PropId::LinealitySpace)?;
    let rays = rows_of(alloc, view, PropId::Vertices)?;
    let value = value_at_rays_by(alloc, sense, objective_of(view), &rays, &lines, wide)?;
    drop(rays);
    drop(lines);
    put_number(draft, value_in(sense), value)?;
    Ok(())
}
