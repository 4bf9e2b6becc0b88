// The clients that thin one description of a thing by the other, and those that find one from sets of incidences.

ghost use Rattle.pm_client.specs.Fails.{IfFailed, IfOutOfRange};
ghost use Rattle.pm_client.specs.Sound.{FailsRightly, IsSound};
ghost use Rattle.pm_client.specs.declared.ClientFail.TheVariants.{Memory};
ghost use Rattle.pm_clients_geom.specs.Hulls.{AreFewRows};
ghost use Rattle.pm_clients_geom.specs.Thinned.{ArePossibleFacets, ArePossibleRays, ArePutFacets, FindsFacetsOfSets, FindsRaysOfSets, ReadsLostRows, ReadsLostSets, ThinsInequalities, ThinsPoints};
ghost use Rattle.pm_props.specs.Sets.{set_of};
ghost use Rattle.pm_props.specs.declared.property.PropId.TheVariants as property;
ghost use Rattle.std.specs.Prelude.{All, IfErr, OnOk, [], length, true, ◌<◌, ◌∷◌, ◌≡◌};

use crate::hulls::{put_generators, put_hull, read_parts};
use crate::rays::{are_not_zero, are_rays, matrix_of_rays};
use pm_client::{ClientFail, put_value, sets_of};
use pm_dd::{Facets, Generators};
use pm_family::{Family, FamilyClient};
use pm_incidence::{
    facets_by_incidence, facets_from_sets, vertices_by_incidence, vertices_from_sets,
};
use pm_object::{Draft, View};
use pm_standard::StandardClient;
use pm_types::{ObjectType, PropId, Value, matrix_over_one};
use pm_vector::Ints;
use std::alloc::Global;

/// The works of the clients that thin, and of those that find rows from sets.
#[derive(Clone, Copy, PartialEq, Eq)]
pub enum ThinWork {
    ThinPointsF,
    ThinInequalitiesV,
    VerticesFromSets,
    FacetsFromSets,
    ThinPointsFWide,
    ThinInequalitiesVWide,
    VerticesFromSetsWide,
    FacetsFromSetsWide,
}

/// The clients that thin, and those that find rows from sets.
#[derive(Drop)]
pub struct ThinFamily;

/// A client that thins or takes sets. It fails for want of memory, where a step of an elimination or a product leaves
/// the range, and `thin_inequalities_v` where there are more than `MOST_ROWS` facets. A wide one goes on by wide
/// numbers where a number leaves the range, and only where an elimination is lost by these too, or for want of memory
/// or too many facets, it fails as the standard one.
pub type ThinClient = FamilyClient<ThinFamily>;

impl Family for ThinFamily {
    ghost use Rattle.pm_clients_geom.specs.Thinned.{ThinFails};
    ghost use Rattle.pm_clients_geom.specs.Works.{thinning_client};

    type Work = ThinWork;

    ghost client_of = { thinning_client };

    ghost Stays = { λ _ _ _. Unit {0} };

    ghost Fails = { ThinFails };

    fn client(work: ThinWork) -> StandardClient {
        match work {
            ThinWork::ThinPointsF => StandardClient::ThinPointsF,
            ThinWork::ThinInequalitiesV => StandardClient::ThinInequalitiesV,
            ThinWork::VerticesFromSets => StandardClient::VerticesFromSets,
            ThinWork::FacetsFromSets => StandardClient::FacetsFromSets,
            ThinWork::ThinPointsFWide => StandardClient::ThinPointsFWide,
            ThinWork::ThinInequalitiesVWide => StandardClient::ThinInequalitiesVWide,
            ThinWork::VerticesFromSetsWide => StandardClient::VerticesFromSetsWide,
            ThinWork::FacetsFromSetsWide => StandardClient::FacetsFromSetsWide,
        }
    }

    fn answer(
        work: ThinWork,
        alloc: Global,
        view: &View,
        draft: &mut Draft,
    ) -> Result<(), ClientFail> {
        match work {
            ThinWork::ThinPointsF => thin_points_f(alloc, view, draft, false),
            ThinWork::ThinInequalitiesV => thin_inequalities_v(alloc, view, draft, false),
            ThinWork::VerticesFromSets => rays_of_sets(alloc, view, draft, false),
            ThinWork::FacetsFromSets => facets_of_sets(alloc, view, draft, false),
            ThinWork::ThinPointsFWide => thin_points_f(alloc, view, draft, true),
            ThinWork::ThinInequalitiesVWide => thin_inequalities_v(alloc, view, draft, true),
            ThinWork::VerticesFromSetsWide => rays_of_sets(alloc, view, draft, true),
            ThinWork::FacetsFromSetsWide => facets_of_sets(alloc, view, draft, true),
        }
    }
}

// VERTICES and LINEALITY_SPACE: the extreme rays among POINTS, by FACETS, and the lineality.
fn thin_points_f(
    alloc: Global,
    view: &View,
    draft: &mut Draft,
    wide: bool,
) -> Result<(), ClientFail>
    requires kind { ThinsPoints view.now.kind }
    requires empty { draft.old ≡ record { kind = view.now.kind; values = [] } }
    ensures draft { draft.new.kind ≡ draft.old.kind }
    ensures sound { OnOk result (IsSound view.now draft.new) }
    ensures failed { IfErr result (FailsRightly view.now) }
    ensures lost { wide ≡ true → IfErr result (λ e.
        IfFailed e (ReadsLostRows view.now property.InputLineality property.Points property.Facets)) }
{
    let points = read_parts(alloc, view, PropId::InputLineality, PropId::Points)?;
    let halves = read_parts(alloc, view, PropId::AffineHull, PropId::Facets)?;
    let generators = Generators {
        rays: points.second,
        lineality: points.first,
    };
    let facets = Facets {
        facets: halves.second,
        hull: halves.first,
    };
    let found = vertices_by_incidence(
        alloc,
        ObjectType::Cone,
        view.cols(),
        &generators,
        &facets,
        wide,
    )?;
    drop(generators);
    drop(facets);
    put_generators(alloc, view, draft, found)?;
    Ok(())
}

// FACETS and AFFINE_HULL: the facet rows among INEQUALITIES, by VERTICES, and the rows that vanish.
fn thin_inequalities_v(
    alloc: Global,
    view: &View,
    draft: &mut Draft,
    wide: bool,
) -> Result<(), ClientFail>
    requires kind { ThinsInequalities view.now.kind }
    requires empty { draft.old ≡ record { kind = view.now.kind; values = [] } }
    ensures draft { draft.new.kind ≡ draft.old.kind }
    ensures sound { OnOk result (IsSound view.now draft.new) }
    ensures failed { IfErr result (FailsRightly view.now) }
    ensures lost { wide ≡ true → IfErr result (λ e.
        IfOutOfRange e (ReadsLostRows view.now property.Equations property.Inequalities property.Vertices)) }
{
    let halves = read_parts(alloc, view, PropId::Equations, PropId::Inequalities)?;
    let rays = read_parts(alloc, view, PropId::LinealitySpace, PropId::Vertices)?;
    let generators = Generators {
        rays: rays.second,
        lineality: rays.first,
    };
    let found = facets_by_incidence(
        alloc,
        view.of(),
        view.cols(),
        &halves.second,
        &halves.first,
        &generators,
        wide,
    )?;
    drop(halves);
    drop(generators);
    put_facets(alloc, view, draft, found)?;
    Ok(())
}

// VERTICES: for each column of VERTICES_IN_FACETS the extreme ray on those FACETS whose sets have it.
fn rays_of_sets(alloc: Global, view: &View, draft: &mut Draft, wide: bool) -> Result<(), ClientFail>
    requires kind { FindsRaysOfSets view.now.kind }
    requires empty { draft.old ≡ record { kind = view.now.kind; values = [] } }
    ensures draft { draft.new.kind ≡ draft.old.kind }
    ensures sound { OnOk result (IsSound view.now draft.new) }
    ensures failed { IfErr result (FailsRightly view.now) }
    ensures lost { wide ≡ true → IfErr result (λ e.
        IfFailed e (ReadsLostSets view.now property.AffineHull property.Facets)) }
{
    let halves = read_parts(alloc, view, PropId::AffineHull, PropId::Facets)?;
    let facets = Facets {
        facets: halves.second,
        hull: halves.first,
    };
    let sets = sets_of(view, PropId::VerticesInFacets);
    let found = vertices_from_sets(alloc, view.cols(), &facets, sets, wide)?;
    drop(facets);
    let rays = possible_rays(alloc, view.of(), found);
    let vertices = matrix_of_rays(alloc, view.of(), &rays, view.cols())?;
    put_value(draft, PropId::Vertices, Value::Mat(vertices))?;
    Ok(())
}

// FACETS: for each set of VERTICES_IN_FACETS the facet row on these VERTICES.
fn facets_of_sets(
    alloc: Global,
    view: &View,
    draft: &mut Draft,
    wide: bool,
) -> Result<(), ClientFail>
    requires kind { FindsFacetsOfSets view.now.kind }
    requires empty { draft.old ≡ record { kind = view.now.kind; values = [] } }
    ensures draft { draft.new.kind ≡ draft.old.kind }
    ensures sound { OnOk result (IsSound view.now draft.new) }
    ensures failed { IfErr result (FailsRightly view.now) }
    ensures lost { wide ≡ true → IfErr result (λ e.
        IfFailed e (ReadsLostSets view.now property.LinealitySpace property.Vertices)) }
{
    let rays = read_parts(alloc, view, PropId::LinealitySpace, PropId::Vertices)?;
    let generators = Generators {
        rays: rays.second,
        lineality: rays.first,
    };
    let sets = sets_of(view, PropId::VerticesInFacets);
    let found = facets_from_sets(alloc, view.cols(), &generators, sets, wide)?;
    drop(generators);
    let rows = possible_facets(alloc, found);
    let facets = matrix_over_one(alloc, &rows, view.cols())?;
    put_value(draft, PropId::Facets, Value::Mat(facets))?;
    Ok(())
}

/// Puts facet rows and rows that vanish as FACETS and AFFINE_HULL. Want of memory alone ends it.
pub(crate) fn put_facets(
    alloc: Global,
    view: &View,
    draft: &mut Draft,
    found: Facets,
) -> Result<(), ClientFail>
    requires facets { AreFewRows view.now.cols found.facets.items }
    requires hull { AreFewRows view.now.cols found.hull.items }
    requires targets { view.now.kind.targets
        ≡ set_of (property.Facets ∷ property.AffineHull ∷ []) }
    requires empty { draft.old ≡ record { kind = view.now.kind; values = [] } }
    ensures draft { draft.new.kind ≡ draft.old.kind }
    ensures put { OnOk result (ArePutFacets view.now found.facets.items
        found.hull.items draft.new) }
    ensures failed { IfErr result (λ e. e ≡ Memory) }
{
    let rows = possible_facets(alloc, found.facets);
    put_hull(alloc, draft, view.cols(), &rows, &found.hull)?;
    Ok(())
}

// These rays, or none where no thing of that type has them.
fn possible_rays(alloc: Global, of: ObjectType, found: Vec<Ints>) -> Vec<Ints>
    requires { All (λ x. 0 < length x) found.items }
    ensures { ArePossibleRays of found.items result.items }
{
    if are_rays(of, &found) {
        found
    } else {
        Vec::new(alloc)
    }
}

// These facet rows, or none where one is zero, as no thing has it.
fn possible_facets(alloc: Global, found: Vec<Ints>) -> Vec<Ints>
    ensures { ArePossibleFacets found.items result.items }
{
    if are_not_zero(&found) {
        found
    } else {
        Vec::new(alloc)
    }
}
