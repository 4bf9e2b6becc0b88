// The clients that thin a description by linear programs, and the one that asks whether there is a point.

ghost use Rattle.pm_client.specs.Sound.{FailsRightly, IsSound};
ghost use Rattle.pm_clients_geom.specs.Redundancy.{AsksForPoint, FailsForProgram, ThinsByPrograms, ThinsHalvesByPrograms};
ghost use Rattle.std.specs.Prelude.{IfErr, OnOk, [], ◌≡◌};

use crate::hulls::{put_generators, read_parts};
use crate::points::has_point;
use crate::thinning::put_facets;
use pm_client::{ClientFail, put_value};
use pm_family::{Family, FamilyClient};
use pm_object::{Draft, View};
use pm_redund::{thin_rays, thin_rows};
use pm_standard::StandardClient;
use pm_types::{ObjectType, PropId, Value};
use std::alloc::Global;

/// The works of the clients of linear programs over half-spaces or generators.
#[derive(Clone, Copy, PartialEq, Eq)]
pub enum RedundancyWork {
    ThinPointsLp,
    ThinInequalitiesLp,
    FeasibleLp,
    ThinPointsLpWide,
    ThinInequalitiesLpWide,
    FeasibleLpWide,
}

/// The clients of linear programs over half-spaces or generators.
#[derive(Drop)]
pub struct RedundancyFamily;

/// A client of linear programs. It fails for want of memory, and where a pivot of one of its programs leaves the
/// range;
/// those that thin also where a step of an elimination does, and `thin_inequalities_lp` where there are more than
/// `MOST_ROWS` facets. A wide one searches by wide numbers where a pivot leaves the range, and where these do not
/// suffice it fails as the standard one.
pub type RedundancyClient = FamilyClient<RedundancyFamily>;

impl Family for RedundancyFamily {
    ghost use Rattle.pm_clients_geom.specs.Works.{redundancy_client};
    ghost use Rattle.pm_clients_geom.specs.Redundancy.{RedundancyFails};

    type Work = RedundancyWork;

    ghost client_of = { redundancy_client };

    ghost Stays = { λ _ _ _. Unit {0} };

    ghost Fails = { RedundancyFails };

    fn client(work: RedundancyWork) -> StandardClient {
        match work {
            RedundancyWork::ThinPointsLp => StandardClient::ThinPointsLp,
            RedundancyWork::ThinInequalitiesLp => StandardClient::ThinInequalitiesLp,
            RedundancyWork::FeasibleLp => StandardClient::FeasibleLp,
            RedundancyWork::ThinPointsLpWide => StandardClient::ThinPointsLpWide,
            RedundancyWork::ThinInequalitiesLpWide => StandardClient::ThinInequalitiesLpWide,
            RedundancyWork::FeasibleLpWide => StandardClient::FeasibleLpWide,
        }
    }

    fn answer(
        work: RedundancyWork,
        alloc: Global,
        view: &View,
        draft: &mut Draft,
    ) -> Result<(), ClientFail> {
        match work {
            RedundancyWork::ThinPointsLp => thin_points_lp(alloc, view, draft, false),
            RedundancyWork::ThinInequalitiesLp => thin_inequalities_lp(alloc, view, draft, false),
            RedundancyWork::FeasibleLp => feasible_lp(alloc, view, draft, false),
            RedundancyWork::ThinPointsLpWide => thin_points_lp(alloc, view, draft, true),
            RedundancyWork::ThinInequalitiesLpWide => {
                thin_inequalities_lp(alloc, view, draft, true)
            }
            RedundancyWork::FeasibleLpWide => feasible_lp(alloc, view, draft, true),
        }
    }
}

// VERTICES and LINEALITY_SPACE: the extreme rays among POINTS, and the lineality.
fn thin_points_lp(
    alloc: Global,
    view: &View,
    draft: &mut Draft,
    wide: bool,
) -> Result<(), ClientFail>
    requires kind { ThinsByPrograms view.now.kind }
    requires empty { draft.old ≡ record { kind = view.now.kind; values = [] } }
    ensures draft { draft.new.kind ≡ draft.old.kind }
    ensures sound { OnOk result (IsSound view.now draft.new) }
    ensures failed { IfErr result (FailsRightly view.now) }
{
    let points = read_parts(alloc, view, PropId::InputLineality, PropId::Points)?;
    let found = thin_rays(
        alloc,
        view.of(),
        view.cols(),
        &points.second,
        &points.first,
        wide,
    )?;
    put_generators(alloc, view, draft, found)?;
    Ok(())
}

// FACETS and AFFINE_HULL: the facet rows among INEQUALITIES, and the rows that vanish.
fn thin_inequalities_lp(
    alloc: Global,
    view: &View,
    draft: &mut Draft,
    wide: bool,
) -> Result<(), ClientFail>
    requires kind { ThinsHalvesByPrograms view.now.kind }
    requires empty { draft.old ≡ record { kind = view.now.kind; values = [] } }
    ensures draft { draft.new.kind ≡ draft.old.kind }
    ensures sound { OnOk result (IsSound view.now draft.new) }
    ensures failed { IfErr result (FailsRightly view.now) }
{
    let halves = read_parts(alloc, view, PropId::Equations, PropId::Inequalities)?;
    let found = thin_rows(
        alloc,
        view.of(),
        view.cols(),
        &halves.second,
        &halves.first,
        wide,
    )?;
    put_facets(alloc, view, draft, found)?;
    Ok(())
}

// FEASIBLE: INEQUALITIES and EQUATIONS have a point.
fn feasible_lp(alloc: Global, view: &View, draft: &mut Draft, wide: bool) -> Result<(), ClientFail>
    requires kind { AsksForPoint view.now.kind }
    requires empty { draft.old ≡ record { kind = view.now.kind; values = [] } }
    ensures draft { draft.new.kind ≡ draft.old.kind }
    ensures sound { OnOk result (IsSound view.now draft.new) }
    ensures failed { IfErr result (FailsRightly view.now) }
    ensures fails { IfErr result (FailsForProgram view.now) }
{
    prove!(view.of() == ObjectType::Polytope);
    let halves = read_parts(alloc, view, PropId::Equations, PropId::Inequalities)?;
    let is_feasible = has_point(alloc, view.cols(), halves.second, &halves.first, wide)?;
    put_value(draft, PropId::Feasible, Value::Bool(is_feasible))?;
    Ok(())
}
