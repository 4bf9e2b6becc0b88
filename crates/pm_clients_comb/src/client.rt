// The clients that find sets, their sizes, and what these show.

ghost use Rattle.pm_client.specs.Sound.{FailsRightly, IsSound, has_way, products};
ghost use Rattle.pm_client.specs.declared.ClientFail.TheVariants.{Memory};
ghost use Rattle.pm_clients_comb.specs.Incidence.{FindsIncidence, StaysInRange};
ghost use Rattle.pm_standard.specs.Table.{standard_kind};
ghost use Rattle.pm_standard.specs.declared.standard.StandardClient.TheVariants as client;
ghost use Rattle.std.specs.Prelude.{false, IfErr, IsTrue, OnOk, [], true, ◌≡◌};

use crate::sizes::{all_are, place_sizes, set_sizes};
use pm_client::{ClientFail, counts_of, matrix_of, primitive_rows, put_value, sets_of, whole_of};
use pm_family::{Family, FamilyClient};
use pm_incidence::incidence;
use pm_object::{Draft, View};
use pm_standard::StandardClient;
use pm_types::{Counts, ObjectType, PropId, Value};
use std::alloc::Global;

/// The works of the clients that find sets, their sizes, and what these show.
#[derive(Clone, Copy, PartialEq, Eq)]
pub enum SetsWork {
    Incidence,
    VertexSizes,
    FacetSizes,
    Simple,
    Simplicial,
    IncidenceWide,
}

/// The clients that find sets, their sizes, and what these show.
#[derive(Drop)]
pub struct SetsFamily;

/// A client that finds sets or sizes of sets. `incidence` fails exactly where a product of the primitive whole rows
/// that it reads leaves the range, the others, `incidence_wide` among them, for want of memory alone.
pub type SetsClient = FamilyClient<SetsFamily>;

impl Family for SetsFamily {
    ghost use Rattle.pm_client.specs.Sound.{FailsRightly};
    ghost use Rattle.pm_clients_comb.specs.Works.{SetsFail, SetsStay, sets_client};

    type Work = SetsWork;

    ghost client_of = { sets_client };

    ghost Stays = { λ w v _. SetsStay w v };

    ghost Fails = { SetsFail };

    fn client(work: SetsWork) -> StandardClient {
        match work {
            SetsWork::Incidence => StandardClient::Incidence,
            SetsWork::VertexSizes => StandardClient::VertexSizes,
            SetsWork::FacetSizes => StandardClient::FacetSizes,
            SetsWork::Simple => StandardClient::Simple,
            SetsWork::Simplicial => StandardClient::Simplicial,
            SetsWork::IncidenceWide => StandardClient::IncidenceWide,
        }
    }

    fn answer(
        work: SetsWork,
        alloc: Global,
        view: &View,
        draft: &mut Draft,
    ) -> Result<(), ClientFail> {
        match work {
            SetsWork::Incidence => vertices_in_facets(alloc, view, draft, false),
            SetsWork::IncidenceWide => vertices_in_facets(alloc, view, draft, true),
            SetsWork::VertexSizes => vertex_sizes(alloc, view, draft),
            SetsWork::FacetSizes => facet_sizes(alloc, view, draft),
            SetsWork::Simple => simple(view, draft),
            SetsWork::Simplicial => simplicial(view, draft),
        }
    }
}

// VERTICES_IN_FACETS: which rows of VERTICES have product 0 with each row of FACETS; with the word, however wide the
// products are.
fn vertices_in_facets(
    alloc: Global,
    view: &View,
    draft: &mut Draft,
    wide: bool,
) -> Result<(), ClientFail>
    requires kind { FindsIncidence view.now.kind }
    requires multiplies { wide ≡ false → IsTrue (has_way view.now.kind products) }
    requires empty { draft.old ≡ record { kind = view.now.kind; values = [] } }
    ensures draft { draft.new.kind ≡ draft.old.kind }
    ensures sound { OnOk result (IsSound view.now draft.new) }
    ensures failed { IfErr result (FailsRightly view.now) }
    ensures stays { wide ≡ false → OnOk result (StaysInRange view.now) }
    ensures total { wide ≡ true → IfErr result (λ e. e ≡ Memory) }
{
    let facets = primitive_rows(alloc, matrix_of(view, PropId::Facets))?;
    let vertices = primitive_rows(alloc, matrix_of(view, PropId::Vertices))?;
    let sets = incidence(alloc, &facets, &vertices, wide)?;
    put_value(draft, PropId::VerticesInFacets, Value::Sets(sets))?;
    Ok(())
}

// VERTEX_SIZES: how many sets of VERTICES_IN_FACETS have each place.
fn vertex_sizes(alloc: Global, view: &View, draft: &mut Draft) -> Result<(), ClientFail>
    requires kind { view.now.kind ≡ standard_kind client.VertexSizes }
    requires empty { draft.old ≡ record { kind = view.now.kind; values = [] } }
    ensures draft { draft.new.kind ≡ draft.old.kind }
    ensures sound { OnOk result (IsSound view.now draft.new) }
    ensures failed { IfErr result (λ e. e ≡ Memory) }
{
    prove!(view.of() != ObjectType::Fan);
    let sizes = place_sizes(alloc, sets_of(view, PropId::VerticesInFacets))?;
    put_value(
        draft,
        PropId::VertexSizes,
        Value::Counts(Counts::from_vec(sizes)),
    )?;
    Ok(())
}

// FACET_SIZES: how many places each set of VERTICES_IN_FACETS has.
fn facet_sizes(alloc: Global, view: &View, draft: &mut Draft) -> Result<(), ClientFail>
    requires kind { view.now.kind ≡ standard_kind client.FacetSizes }
    requires empty { draft.old ≡ record { kind = view.now.kind; values = [] } }
    ensures draft { draft.new.kind ≡ draft.old.kind }
    ensures sound { OnOk result (IsSound view.now draft.new) }
    ensures failed { IfErr result (λ e. e ≡ Memory) }
{
    prove!(view.of() != ObjectType::Fan);
    let sizes = set_sizes(alloc, sets_of(view, PropId::VerticesInFacets))?;
    put_value(
        draft,
        PropId::FacetSizes,
        Value::Counts(Counts::from_vec(sizes)),
    )?;
    Ok(())
}

// SIMPLE: each of VERTEX_SIZES is COMBINATORIAL_DIM.
fn simple(view: &View, draft: &mut Draft) -> Result<(), ClientFail>
    requires kind { view.now.kind ≡ standard_kind client.Simple }
    requires empty { draft.old ≡ record { kind = view.now.kind; values = [] } }
    ensures draft { draft.new.kind ≡ draft.old.kind }
    ensures sound { OnOk result (IsSound view.now draft.new) }
    ensures failed { IfErr result (λ e. e ≡ Memory) }
{
    prove!(view.of() != ObjectType::Fan);
    let sizes = counts_of(view, PropId::VertexSizes);
    let is_simple = all_are(sizes.as_slice(), whole_of(view, PropId::CombinatorialDim));
    put_value(draft, PropId::Simple, Value::Bool(is_simple))?;
    Ok(())
}

// SIMPLICIAL: each of FACET_SIZES is COMBINATORIAL_DIM.
fn simplicial(view: &View, draft: &mut Draft) -> Result<(), ClientFail>
    requires kind { view.now.kind ≡ standard_kind client.Simplicial }
    requires empty { draft.old ≡ record { kind = view.now.kind; values = [] } }
    ensures draft { draft.new.kind ≡ draft.old.kind }
    ensures sound { OnOk result (IsSound view.now draft.new) }
    ensures failed { IfErr result (λ e. e ≡ Memory) }
{
    prove!(view.of() != ObjectType::Fan);
    let sizes = counts_of(view, PropId::FacetSizes);
    let is_simplicial = all_are(sizes.as_slice(), whole_of(view, PropId::CombinatorialDim));
    put_value(draft, PropId::Simplicial, Value::Bool(is_simplicial))?;
    Ok(())
}
