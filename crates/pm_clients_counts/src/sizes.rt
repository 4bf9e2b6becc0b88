// The clients that count rays and facets, and the one that lists the far rays.
// They never fail but for want of memory.

ghost use Rattle.pm_client.specs.Sound.{IsSound};
ghost use Rattle.pm_client.specs.declared.ClientFail.TheVariants.{Memory};
ghost use Rattle.pm_standard.specs.Table.{standard_kind};
ghost use Rattle.pm_standard.specs.declared.standard.StandardClient.TheVariants as client;
ghost use Rattle.std.specs.Prelude.{IfErr, OnOk, [], ◌≡◌};

use crate::firsts::zero_places;
use pm_client::{ClientFail, matrix_of, put_value, sets_of};
use pm_family::{Family, FamilyClient};
use pm_object::{Draft, View};
use pm_standard::StandardClient;
use pm_types::{Counts, ObjectType, PropId, Value};
use std::alloc::Global;

/// The works of the clients that count rays and facets, or list rays.
#[derive(Clone, Copy, PartialEq, Eq)]
pub enum SizeWork {
    NVertices,
    NVerticesSets,
    NFacets,
    NFacetsSets,
    FarFace,
}

/// The standard clients that count rays and facets or list rays.
#[derive(Drop)]
pub struct SizeFamily;

/// A client that counts rays or facets or lists rays. It fails for want of memory alone.
pub type SizeClient = FamilyClient<SizeFamily>;

impl Family for SizeFamily {
    ghost use Rattle.pm_client.specs.declared.ClientFail.TheVariants.{Memory};
    ghost use Rattle.pm_clients_counts.specs.Works.{size_client};
    ghost use Rattle.std.specs.Prelude.{◌≡◌};

    type Work = SizeWork;

    ghost client_of = { size_client };

    ghost Stays = { λ _ _ _. Unit {0} };

    ghost Fails = { λ _ _ e. e ≡ Memory };

    fn client(work: SizeWork) -> StandardClient {
        match work {
            SizeWork::NVertices => StandardClient::NVertices,
            SizeWork::NVerticesSets => StandardClient::NVerticesSets,
            SizeWork::NFacets => StandardClient::NFacets,
            SizeWork::NFacetsSets => StandardClient::NFacetsSets,
            SizeWork::FarFace => StandardClient::FarFace,
        }
    }

    fn answer(
        work: SizeWork,
        alloc: Global,
        view: &View,
        draft: &mut Draft,
    ) -> Result<(), ClientFail> {
        match work {
            SizeWork::NVertices => n_vertices(view, draft),
            SizeWork::NVerticesSets => n_vertices_sets(view, draft),
            SizeWork::NFacets => n_facets(view, draft),
            SizeWork::NFacetsSets => n_facets_sets(view, draft),
            SizeWork::FarFace => far_face(alloc, view, draft),
        }
    }
}

// N_VERTICES: the number of rows of VERTICES.
fn n_vertices(view: &View, draft: &mut Draft) -> Result<(), ClientFail>
    requires kind { view.now.kind ≡ standard_kind client.NVertices }
    requires empty { draft.old ≡ record { kind = view.now.kind; values = [] } }
    ensures draft { draft.new.kind ≡ draft.old.kind }
    ensures sound { OnOk result (IsSound view.now draft.new) }
    ensures failed { IfErr result (λ e. e ≡ Memory) }
{
    let count = matrix_of(view, PropId::Vertices).rows() as i64;
    put_value(draft, PropId::NVertices, Value::Int(count))?;
    Ok(())
}

// N_FACETS: the number of rows of FACETS.
fn n_facets(view: &View, draft: &mut Draft) -> Result<(), ClientFail>
    requires kind { view.now.kind ≡ standard_kind client.NFacets }
    requires empty { draft.old ≡ record { kind = view.now.kind; values = [] } }
    ensures draft { draft.new.kind ≡ draft.old.kind }
    ensures sound { OnOk result (IsSound view.now draft.new) }
    ensures failed { IfErr result (λ e. e ≡ Memory) }
{
    let count = matrix_of(view, PropId::Facets).rows() as i64;
    put_value(draft, PropId::NFacets, Value::Int(count))?;
    Ok(())
}

// N_VERTICES: the column count of VERTICES_IN_FACETS.
fn n_vertices_sets(view: &View, draft: &mut Draft) -> Result<(), ClientFail>
    requires kind { view.now.kind ≡ standard_kind client.NVerticesSets }
    requires empty { draft.old ≡ record { kind = view.now.kind; values = [] } }
    ensures draft { draft.new.kind ≡ draft.old.kind }
    ensures sound { OnOk result (IsSound view.now draft.new) }
    ensures failed { IfErr result (λ e. e ≡ Memory) }
{
    let count = sets_of(view, PropId::VerticesInFacets).cols() as i64;
    put_value(draft, PropId::NVertices, Value::Int(count))?;
    Ok(())
}

// N_FACETS: the number of sets of VERTICES_IN_FACETS.
fn n_facets_sets(view: &View, draft: &mut Draft) -> Result<(), ClientFail>
    requires kind { view.now.kind ≡ standard_kind client.NFacetsSets }
    requires empty { draft.old ≡ record { kind = view.now.kind; values = [] } }
    ensures draft { draft.new.kind ≡ draft.old.kind }
    ensures sound { OnOk result (IsSound view.now draft.new) }
    ensures failed { IfErr result (λ e. e ≡ Memory) }
{
    let count = sets_of(view, PropId::VerticesInFacets).rows().len() as i64;
    put_value(draft, PropId::NFacets, Value::Int(count))?;
    Ok(())
}

// FAR_FACE: the places of the rows of VERTICES whose first entry is 0.
fn far_face(alloc: Global, view: &View, draft: &mut Draft) -> Result<(), ClientFail>
    requires kind { view.now.kind ≡ standard_kind client.FarFace }
    requires empty { draft.old ≡ record { kind = view.now.kind; values = [] } }
    ensures draft { draft.new.kind ≡ draft.old.kind }
    ensures sound { OnOk result (IsSound view.now draft.new) }
    ensures failed { IfErr result (λ e. e ≡ Memory) }
{
    prove!(view.of() == ObjectType::Polytope);
    let places = zero_places(alloc, matrix_of(view, PropId::Vertices))?;
    put_value(
        draft,
        PropId::FarFace,
        Value::Counts(Counts::from_vec(places)),
    )?;
    Ok(())
}
