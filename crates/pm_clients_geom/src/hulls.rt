// The clients of double description: one description of a thing from the other.

ghost use Rattle.pm_client.specs.Fails.{IfOutOfRange};
ghost use Rattle.pm_client.specs.Sound.{FailsRightly, IsSound, are_parts};
ghost use Rattle.pm_client.specs.declared.ClientFail.TheVariants.{Memory};
ghost use Rattle.pm_clients_geom.specs.Hulls.{AreFewRows, ArePossible, ArePutGenerators, ArePutRows, FindsFacets, FindsRays, ReadsLostParts, cut_type};
ghost use Rattle.pm_clients_geom.specs.Lists.{ReadsParts};
ghost use Rattle.pm_props.specs.Sets.{has, set_of};
ghost use Rattle.pm_vector.specs.Rows.{HasCols};
ghost use Rattle.pm_props.specs.declared.property.PropId.TheVariants as property;
ghost use Rattle.std.specs.Prelude.{IfErr, IfOk, IsTrue, OnOk, [], true, ◌∷◌, ◌≡◌};

use crate::rays::{are_rays, matrix_of_rays};
use crate::rows::may_be_lines;
use pm_client::{ClientFail, matrix_of, primitive_rows, put_value};
use pm_dd::{Generators, facets_of, generators_of};
use pm_family::{Family, FamilyClient};
use pm_object::{Draft, View};
use pm_standard::StandardClient;
use pm_types::{ObjectType, PropId, Value, matrix_over_one};
use pm_vector::Ints;
use std::alloc::Global;

/// The works of the clients of double description.
#[derive(Clone, Copy, PartialEq, Eq)]
pub enum HullWork {
    DdVertices,
    DdFacets,
    DdFacetsV,
    DdVerticesF,
    DdVerticesWide,
    DdFacetsWide,
    DdFacetsVWide,
    DdVerticesFWide,
}

/// The clients of double description.
#[derive(Drop)]
pub struct HullFamily;

/// A client of double description. It fails for want of memory, where a step leaves the range, and where a cone on the
/// way has too many extreme rays. A wide one works a step that leaves the range by wide numbers, and only where these
/// do not suffice either, or for want of memory or too many rays, it fails as the standard one.
pub type HullClient = FamilyClient<HullFamily>;

impl Family for HullFamily {
    ghost use Rattle.pm_clients_geom.specs.Hulls.{HullFails};
    ghost use Rattle.pm_clients_geom.specs.Works.{hull_client};

    type Work = HullWork;

    ghost client_of = { hull_client };

    ghost Stays = { λ _ _ _. Unit {0} };

    ghost Fails = { HullFails };

    fn client(work: HullWork) -> StandardClient {
        match work {
            HullWork::DdVertices => StandardClient::DdVertices,
            HullWork::DdFacets => StandardClient::DdFacets,
            HullWork::DdFacetsV => StandardClient::DdFacetsV,
            HullWork::DdVerticesF => StandardClient::DdVerticesF,
            HullWork::DdVerticesWide => StandardClient::DdVerticesWide,
            HullWork::DdFacetsWide => StandardClient::DdFacetsWide,
            HullWork::DdFacetsVWide => StandardClient::DdFacetsVWide,
            HullWork::DdVerticesFWide => StandardClient::DdVerticesFWide,
        }
    }

    fn answer(
        work: HullWork,
        alloc: Global,
        view: &View,
        draft: &mut Draft,
    ) -> Result<(), ClientFail> {
        match work {
            HullWork::DdVertices => dd_vertices(
                alloc,
                view,
                draft,
                PropId::Equations,
                PropId::Inequalities,
                false,
            ),
            HullWork::DdVerticesWide => dd_vertices(
                alloc,
                view,
                draft,
                PropId::Equations,
                PropId::Inequalities,
                true,
            ),
            HullWork::DdFacets => dd_facets(
                alloc,
                view,
                draft,
                PropId::InputLineality,
                PropId::Points,
                false,
            ),
            HullWork::DdFacetsWide => dd_facets(
                alloc,
                view,
                draft,
                PropId::InputLineality,
                PropId::Points,
                true,
            ),
            HullWork::DdFacetsV => dd_facets(
                alloc,
                view,
                draft,
                PropId::LinealitySpace,
                PropId::Vertices,
                false,
            ),
            HullWork::DdFacetsVWide => dd_facets(
                alloc,
                view,
                draft,
                PropId::LinealitySpace,
                PropId::Vertices,
                true,
            ),
            HullWork::DdVerticesF => dd_vertices(
                alloc,
                view,
                draft,
                PropId::AffineHull,
                PropId::Facets,
                false,
            ),
            HullWork::DdVerticesFWide => dd_vertices(
                alloc,
                view,
                draft,
                PropId::AffineHull,
                PropId::Facets,
                true,
            ),
        }
    }
}

/// The two parts of a row list, as primitive whole rows.
#[derive(Drop)]
pub(crate) struct Parts {
    /// The lines, or the equations.
    pub(crate) first: Vec<Ints>,
    /// The points or rays, or the inequalities or facets.
    pub(crate) second: Vec<Ints>,
}

/// Two parts of a row list that a client reads. Want of memory alone ends it.
pub(crate) fn read_parts(
    alloc: Global,
    view: &View,
    first: PropId,
    second: PropId,
) -> Result<Parts, ClientFail>
    requires first { IsTrue (has view.now.kind.sources first) }
    requires second { IsTrue (has view.now.kind.sources second) }
    requires parts { IsTrue (are_parts first second) }
    ensures read { IfOk result (λ p. ReadsParts view.now first second
        p.first.items p.second.items) }
    ensures first_few { IfOk result (λ p. AreFewRows view.now.cols p.first.items) }
    ensures second_few { IfOk result (λ p. AreFewRows view.now.cols p.second.items) }
    ensures failed { IfErr result (λ e. e ≡ Memory) }
{
    let lines = primitive_rows(alloc, matrix_of(view, first))?;
    let others = primitive_rows(alloc, matrix_of(view, second))?;
    Ok(Parts {
        first: lines,
        second: others,
    })
}

// FACETS and AFFINE_HULL: all facet rows of what the rows of the second property generate with those of the first as
// lines, and the rows that vanish there.
fn dd_facets(
    alloc: Global,
    view: &View,
    draft: &mut Draft,
    first: PropId,
    second: PropId,
    wide: bool,
) -> Result<(), ClientFail>
    requires kind { FindsFacets view.now.kind first second }
    requires empty { draft.old ≡ record { kind = view.now.kind; values = [] } }
    ensures draft { draft.new.kind ≡ draft.old.kind }
    ensures sound { OnOk result (IsSound view.now draft.new) }
    ensures failed { IfErr result (FailsRightly view.now) }
    ensures lost { wide ≡ true → IfErr result (λ e. IfOutOfRange e (ReadsLostParts view.now)) }
{
    let parts = read_parts(alloc, view, first, second)?;
    let found = facets_of(alloc, view.cols(), &parts.second, &parts.first, wide)?;
    drop(parts);
    let Ok(()) = put_hull(alloc, draft, view.cols(), &found.facets, &found.hull) else {
        drop(found);
        return Err(ClientFail::Memory);
    };
    drop(found);
    Ok(())
}

/// Puts facet rows and rows that vanish as FACETS and AFFINE_HULL. Want of memory alone ends it.
pub(crate) fn put_hull(
    alloc: Global,
    draft: &mut Draft,
    cols: usize,
    facets: &[Ints],
    hull: &[Ints],
) -> Result<(), ClientFail>
    requires facet_cols { HasCols cols facets.now }
    requires hull_cols { HasCols cols hull.now }
    requires target { IsTrue (has draft.old.kind.targets property.Facets) }
    requires hull_target { IsTrue (has draft.old.kind.targets property.AffineHull) }
    requires empty { draft.old.values ≡ [] }
    ensures kind { draft.new.kind ≡ draft.old.kind }
    ensures put { OnOk result (ArePutRows cols facets.now hull.now draft.old draft.new) }
    ensures failed { IfErr result (λ e. e ≡ Memory) }
{
    let rows = matrix_over_one(alloc, facets, cols)?;
    let vanishing = matrix_over_one(alloc, hull, cols)?;
    put_value(draft, PropId::Facets, Value::Mat(rows))?;
    put_value(draft, PropId::AffineHull, Value::Mat(vanishing))?;
    Ok(())
}

/// As half-spaces of what rows of the property are taken.
fn cut_type(second: PropId, of: ObjectType) -> ObjectType
    ensures { result ≡ cut_type second of }
{
    match second {
        PropId::Facets => ObjectType::Cone,
        _ => of,
    }
}

// VERTICES and LINEALITY_SPACE: all extreme rays of what the rows of the second property cut out with those of the
// first as equations, and its lineality.
fn dd_vertices(
    alloc: Global,
    view: &View,
    draft: &mut Draft,
    first: PropId,
    second: PropId,
    wide: bool,
) -> Result<(), ClientFail>
    requires kind { FindsRays view.now.kind first second }
    requires empty { draft.old ≡ record { kind = view.now.kind; values = [] } }
    ensures draft { draft.new.kind ≡ draft.old.kind }
    ensures sound { OnOk result (IsSound view.now draft.new) }
    ensures failed { IfErr result (FailsRightly view.now) }
    ensures lost { wide ≡ true → IfErr result (λ e. IfOutOfRange e (ReadsLostParts view.now)) }
{
    let parts = read_parts(alloc, view, first, second)?;
    let of = cut_type(second, view.of());
    let found = generators_of(alloc, of, view.cols(), &parts.second, &parts.first, wide)?;
    drop(parts);
    put_generators(alloc, view, draft, found)?;
    Ok(())
}

// These generators, or none where no thing of the view's type has them.
fn those_that_may_be(alloc: Global, view: &View, found: Generators) -> Generators
    requires rays { AreFewRows view.now.cols found.rays.items }
    requires lines { AreFewRows view.now.cols found.lineality.items }
    ensures { ArePossible view.now found.rays.items found.lineality.items
        result.rays.items result.lineality.items }
{
    if are_rays(view.of(), &found.rays) && may_be_lines(view.of(), &found.lineality) {
        found
    } else {
        Generators {
            rays: Vec::new(alloc),
            lineality: Vec::new(alloc),
        }
    }
}

/// Puts rays and lines as VERTICES and LINEALITY_SPACE. Want of memory alone ends it.
pub(crate) fn put_generators(
    alloc: Global,
    view: &View,
    draft: &mut Draft,
    found: Generators,
) -> Result<(), ClientFail>
    requires rays { AreFewRows view.now.cols found.rays.items }
    requires lines { AreFewRows view.now.cols found.lineality.items }
    requires targets { view.now.kind.targets
        ≡ set_of (property.Vertices ∷ property.LinealitySpace ∷ []) }
    requires empty { draft.old ≡ record { kind = view.now.kind; values = [] } }
    ensures draft { draft.new.kind ≡ draft.old.kind }
    ensures put { OnOk result (ArePutGenerators view.now found.rays.items
        found.lineality.items draft.new) }
    ensures failed { IfErr result (λ e. e ≡ Memory) }
{
    let put = those_that_may_be(alloc, view, found);
    let vertices = matrix_of_rays(alloc, view.of(), &put.rays, view.cols())?;
    let lineality = matrix_over_one(alloc, &put.lineality, view.cols())?;
    drop(put);
    put_value(draft, PropId::Vertices, Value::Mat(vertices))?;
    put_value(draft, PropId::LinealitySpace, Value::Mat(lineality))?;
    Ok(())
}
