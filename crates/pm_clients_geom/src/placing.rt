// The clients that place rays: facets and the placing triangulation, by beneath-beyond.

ghost use Rattle.pm_client.specs.Fails.{IfOutOfRange};
ghost use Rattle.pm_client.specs.Sound.{FailsRightly, IsSound};
ghost use Rattle.pm_clients_geom.specs.Hulls.{ReadsLostParts};
ghost use Rattle.pm_clients_geom.specs.PlacedRays.{ArePlaced, PlacesRays, fail_of_place};
ghost use Rattle.pm_object.specs.Reading.{IsView};
ghost use Rattle.pm_props.specs.Sets.{set_of};
ghost use Rattle.pm_props.specs.declared.property.PropId.TheVariants as property;
ghost use Rattle.std.specs.Prelude.{IfErr, IfOk, OnOk, [], true, ◌∷◌, ◌≡◌};

use crate::hulls::{Parts, put_hull, read_parts};
use pm_beneath::{Facets, PlaceFail, place};
use pm_client::{ClientFail, put_value};
use pm_family::{Family, FamilyClient};
use pm_object::{Draft, View};
use pm_standard::StandardClient;
use pm_types::{PropId, Sets, Value};
use std::alloc::Global;

/// The works of the clients that place rays.
#[derive(Clone, Copy, PartialEq, Eq)]
pub enum PlaceWork {
    BbFacets,
    BbFacetsV,
    Placing,
    BbFacetsWide,
    BbFacetsVWide,
    PlacingWide,
}

/// The clients that place rays.
#[derive(Drop)]
pub struct PlaceFamily;

/// A client that places rays (De Loera, Rambau and Santos, Triangulations, section 4.3). It fails for want of memory,
/// where a step leaves the range, and where a cone on the way has too many facets or cells. A wide one works a step
/// that leaves the range by wide numbers, and only where these do not suffice either, or for want of memory or too many
/// facets or cells, it fails as the standard one.
pub type PlaceClient = FamilyClient<PlaceFamily>;

impl Family for PlaceFamily {
    ghost use Rattle.pm_clients_geom.specs.PlacedRays.{PlaceFails};
    ghost use Rattle.pm_clients_geom.specs.Works.{place_client};

    type Work = PlaceWork;

    ghost client_of = { place_client };

    ghost Stays = { λ _ _ _. Unit {0} };

    ghost Fails = { PlaceFails };

    fn client(work: PlaceWork) -> StandardClient {
        match work {
            PlaceWork::BbFacets => StandardClient::BbFacets,
            PlaceWork::BbFacetsV => StandardClient::BbFacetsV,
            PlaceWork::Placing => StandardClient::Placing,
            PlaceWork::BbFacetsWide => StandardClient::BbFacetsWide,
            PlaceWork::BbFacetsVWide => StandardClient::BbFacetsVWide,
            PlaceWork::PlacingWide => StandardClient::PlacingWide,
        }
    }

    fn answer(
        work: PlaceWork,
        alloc: Global,
        view: &View,
        draft: &mut Draft,
    ) -> Result<(), ClientFail> {
        match work {
            PlaceWork::BbFacets => bb_facets(alloc, view, draft, false),
            PlaceWork::BbFacetsV => bb_facets_v(alloc, view, draft, false),
            PlaceWork::Placing => placing(alloc, view, draft, false),
            PlaceWork::BbFacetsWide => bb_facets(alloc, view, draft, true),
            PlaceWork::BbFacetsVWide => bb_facets_v(alloc, view, draft, true),
            PlaceWork::PlacingWide => placing(alloc, view, draft, true),
        }
    }
}

/// The rows that were read, and what was found by placing them.
#[derive(Drop)]
struct Placed {
    parts: Parts,
    facets: Facets,
    cells: Sets,
}

// The failure of a client whose placing was given up.
fn client_fail(fail: PlaceFail) -> ClientFail
    ensures { result ≡ fail_of_place fail }
{
    match fail {
        PlaceFail::Wide(evidence) => ClientFail::Failed(evidence),
        PlaceFail::Many(evidence) => ClientFail::Failed(evidence),
        PlaceFail::Memory => ClientFail::Memory,
    }
}

// Places the rows of the second property, with those of the first as lines.
fn place_rows(
    alloc: Global,
    view: &View,
    first: PropId,
    second: PropId,
    wide: bool,
) -> Result<Placed, ClientFail>
    requires kind { PlacesRays view.now.kind first second }
    ensures placed { IfOk result (λ p. ArePlaced view.now first second
        p.parts.first.items p.parts.second.items
        p.facets.facets.items p.facets.hull.items p.cells) }
    ensures view { IfOk result (λ _. IsView view.now) }
    ensures failed { IfErr result (FailsRightly view.now) }
    ensures lost { wide ≡ true → IfErr result (λ e. FailsRightly view.now e
        × IfOutOfRange e (ReadsLostParts view.now)) }
{
    let parts = read_parts(alloc, view, first, second)?;
    match place(alloc, view.cols(), &parts.second, &parts.first, wide) {
        Ok(found) => {
            let cells = Sets::from_vec(found.simplices, parts.second.len() as u32);
            Ok(Placed {
                parts,
                facets: found.facets,
                cells,
            })
        }
        Err(fail) => Err(client_fail(fail)),
    }
}

// FACETS and AFFINE_HULL of what POINTS generate with INPUT_LINEALITY as lines.
fn bb_facets(alloc: Global, view: &View, draft: &mut Draft, wide: bool) -> Result<(), ClientFail>
    requires kind { PlacesRays view.now.kind property.InputLineality property.Points }
    requires targets { view.now.kind.targets ≡ set_of (property.Facets ∷ property.AffineHull ∷ []) }
    requires empty { draft.old ≡ record { kind = view.now.kind; values = [] } }
    ensures draft { draft.new.kind ≡ draft.old.kind }
    ensures sound { OnOk result (IsSound view.now draft.new) }
    ensures failed { IfErr result (FailsRightly view.now) }
    ensures lost { wide ≡ true → IfErr result (λ e. FailsRightly view.now e
        × IfOutOfRange e (ReadsLostParts view.now)) }
{
    let placed = place_rows(alloc, view, PropId::InputLineality, PropId::Points, wide)?;
    let Ok(()) = put_hull(
        alloc,
        draft,
        view.cols(),
        &placed.facets.facets,
        &placed.facets.hull,
    ) else {
        drop(placed);
        return Err(ClientFail::Memory);
    };
    drop(placed);
    Ok(())
}

// FACETS, AFFINE_HULL and PLACING_TRIANGULATION of what VERTICES generate with LINEALITY_SPACE as lines.
fn bb_facets_v(alloc: Global, view: &View, draft: &mut Draft, wide: bool) -> Result<(), ClientFail>
    requires kind { PlacesRays view.now.kind property.LinealitySpace property.Vertices }
    requires targets { view.now.kind.targets
        ≡ set_of (property.Facets ∷ property.AffineHull ∷ property.PlacingTriangulation ∷ []) }
    requires empty { draft.old ≡ record { kind = view.now.kind; values = [] } }
    ensures draft { draft.new.kind ≡ draft.old.kind }
    ensures sound { OnOk result (IsSound view.now draft.new) }
    ensures failed { IfErr result (FailsRightly view.now) }
    ensures lost { wide ≡ true → IfErr result (λ e. FailsRightly view.now e
        × IfOutOfRange e (ReadsLostParts view.now)) }
{
    let placed = place_rows(alloc, view, PropId::LinealitySpace, PropId::Vertices, wide)?;
    let Ok(()) = put_hull(
        alloc,
        draft,
        view.cols(),
        &placed.facets.facets,
        &placed.facets.hull,
    ) else {
        drop(placed);
        return Err(ClientFail::Memory);
    };
    drop(placed.parts);
    drop(placed.facets);
    put_value(
        draft,
        PropId::PlacingTriangulation,
        Value::Sets(placed.cells),
    )?;
    Ok(())
}

// PLACING_TRIANGULATION of what VERTICES generate with LINEALITY_SPACE as lines.
fn placing(alloc: Global, view: &View, draft: &mut Draft, wide: bool) -> Result<(), ClientFail>
    requires kind { PlacesRays view.now.kind property.LinealitySpace property.Vertices }
    requires targets { view.now.kind.targets ≡ set_of (property.PlacingTriangulation ∷ []) }
    requires empty { draft.old ≡ record { kind = view.now.kind; values = [] } }
    ensures draft { draft.new.kind ≡ draft.old.kind }
    ensures sound { OnOk result (IsSound view.now draft.new) }
    ensures failed { IfErr result (FailsRightly view.now) }
    ensures lost { wide ≡ true → IfErr result (λ e. FailsRightly view.now e
        × IfOutOfRange e (ReadsLostParts view.now)) }
{
    let placed = place_rows(alloc, view, PropId::LinealitySpace, PropId::Vertices, wide)?;
    put_value(
        draft,
        PropId::PlacingTriangulation,
        Value::Sets(placed.cells),
    )?;
    Ok(())
}
