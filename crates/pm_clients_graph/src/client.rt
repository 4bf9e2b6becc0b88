// The clients that find graphs, and what these show.

ghost use Rattle.pm_client.specs.Sound.{IsSound};
ghost use Rattle.pm_client.specs.declared.ClientFail.TheVariants.{Memory};
ghost use Rattle.pm_standard.specs.Table.{standard_kind};
ghost use Rattle.pm_standard.specs.declared.standard.StandardClient.TheVariants as client;
ghost use Rattle.std.specs.Prelude.{IfErr, OnOk, [], ◌≡◌};

use crate::counts::{degrees, edge_count};
use pm_client::{ClientFail, edges_of, lattice_of, put_value, sets_of};
use pm_family::{Family, FamilyClient};
use pm_object::{Draft, View};
use pm_standard::StandardClient;
use pm_types::{Counts, ObjectType, PropId, Value};
use std::alloc::Global;

/// The works of the clients that find graphs, and what these show.
#[derive(Clone, Copy, PartialEq, Eq)]
pub enum GraphWork {
    GraphOfSets,
    GraphOfFaces,
    DualGraph,
    VertexDegrees,
    Diameter,
    DualDiameter,
    NEdges,
    NRidges,
}

/// The standard clients that find graphs, and what these show.
#[derive(Drop)]
pub struct GraphFamily;

/// A client that finds a graph, or what a graph shows. It fails for want of memory alone.
pub type GraphClient = FamilyClient<GraphFamily>;

impl Family for GraphFamily {
    ghost use Rattle.pm_client.specs.declared.ClientFail.TheVariants.{Memory};
    ghost use Rattle.pm_clients_graph.specs.Works.{graph_client};
    ghost use Rattle.std.specs.Prelude.{◌≡◌};

    type Work = GraphWork;

    ghost client_of = { graph_client };

    ghost Stays = { λ _ _ _. Unit {0} };

    ghost Fails = { λ _ _ e. e ≡ Memory };

    fn client(work: GraphWork) -> StandardClient {
        match work {
            GraphWork::GraphOfSets => StandardClient::GraphOfSets,
            GraphWork::GraphOfFaces => StandardClient::GraphOfFaces,
            GraphWork::DualGraph => StandardClient::DualGraph,
            GraphWork::VertexDegrees => StandardClient::VertexDegrees,
            GraphWork::Diameter => StandardClient::Diameter,
            GraphWork::DualDiameter => StandardClient::DualDiameter,
            GraphWork::NEdges => StandardClient::NEdges,
            GraphWork::NRidges => StandardClient::NRidges,
        }
    }

    fn answer(
        work: GraphWork,
        alloc: Global,
        view: &View,
        draft: &mut Draft,
    ) -> Result<(), ClientFail> {
        match work {
            GraphWork::GraphOfSets => graph_of_sets(alloc, view, draft),
            GraphWork::GraphOfFaces => graph_of_faces(alloc, view, draft),
            GraphWork::DualGraph => dual_graph(alloc, view, draft),
            GraphWork::VertexDegrees => vertex_degrees(alloc, view, draft),
            GraphWork::Diameter => diameter(alloc, view, draft),
            GraphWork::DualDiameter => dual_diameter(alloc, view, draft),
            GraphWork::NEdges => n_edges(view, draft),
            GraphWork::NRidges => n_ridges(view, draft),
        }
    }
}

// GRAPH: the graph of the indices of VERTICES_IN_FACETS.
fn graph_of_sets(alloc: Global, view: &View, draft: &mut Draft) -> Result<(), ClientFail>
    requires kind { view.now.kind ≡ standard_kind client.GraphOfSets }
    requires empty { draft.old ≡ record { kind = view.now.kind; values = [] } }
    ensures draft { draft.new.kind ≡ draft.old.kind }
    ensures sound { OnOk result (IsSound view.now draft.new) }
    ensures failed { IfErr result (λ e. e ≡ Memory) }
{
    prove!(view.of() != ObjectType::Fan);
    let sets = sets_of(view, PropId::VerticesInFacets);
    let graph = pm_graph::graph_of_sets(alloc, sets)?;
    put_value(draft, PropId::Graph, Value::Edges(graph))?;
    Ok(())
}

// GRAPH: the faces of two elements of HASSE_DIAGRAM.
fn graph_of_faces(alloc: Global, view: &View, draft: &mut Draft) -> Result<(), ClientFail>
    requires kind { view.now.kind ≡ standard_kind client.GraphOfFaces }
    requires empty { draft.old ≡ record { kind = view.now.kind; values = [] } }
    ensures draft { draft.new.kind ≡ draft.old.kind }
    ensures sound { OnOk result (IsSound view.now draft.new) }
    ensures failed { IfErr result (λ e. e ≡ Memory) }
{
    prove!(view.of() != ObjectType::Fan);
    let lattice = lattice_of(view, PropId::HasseDiagram);
    let graph = pm_graph::graph_of_faces(alloc, lattice)?;
    put_value(draft, PropId::Graph, Value::Edges(graph))?;
    Ok(())
}

// DUAL_GRAPH: the graph of the sets of VERTICES_IN_FACETS.
fn dual_graph(alloc: Global, view: &View, draft: &mut Draft) -> Result<(), ClientFail>
    requires kind { view.now.kind ≡ standard_kind client.DualGraph }
    requires empty { draft.old ≡ record { kind = view.now.kind; values = [] } }
    ensures draft { draft.new.kind ≡ draft.old.kind }
    ensures sound { OnOk result (IsSound view.now draft.new) }
    ensures failed { IfErr result (λ e. e ≡ Memory) }
{
    prove!(view.of() != ObjectType::Fan);
    let sets = sets_of(view, PropId::VerticesInFacets);
    let graph = pm_graph::dual_graph(alloc, sets)?;
    put_value(draft, PropId::DualGraph, Value::Edges(graph))?;
    Ok(())
}

// VERTEX_DEGREES: how many neighbours each node of GRAPH has.
fn vertex_degrees(alloc: Global, view: &View, draft: &mut Draft) -> Result<(), ClientFail>
    requires kind { view.now.kind ≡ standard_kind client.VertexDegrees }
    requires empty { draft.old ≡ record { kind = view.now.kind; values = [] } }
    ensures draft { draft.new.kind ≡ draft.old.kind }
    ensures sound { OnOk result (IsSound view.now draft.new) }
    ensures failed { IfErr result (λ e. e ≡ Memory) }
{
    let numbers = degrees(alloc, edges_of(view, PropId::Graph))?;
    put_value(
        draft,
        PropId::VertexDegrees,
        Value::Counts(Counts::from_vec(numbers)),
    )?;
    Ok(())
}

// DIAMETER: the greatest distance in GRAPH.
fn diameter(alloc: Global, view: &View, draft: &mut Draft) -> Result<(), ClientFail>
    requires kind { view.now.kind ≡ standard_kind client.Diameter }
    requires empty { draft.old ≡ record { kind = view.now.kind; values = [] } }
    ensures draft { draft.new.kind ≡ draft.old.kind }
    ensures sound { OnOk result (IsSound view.now draft.new) }
    ensures failed { IfErr result (λ e. e ≡ Memory) }
{
    prove!(view.of() != ObjectType::Fan);
    let greatest = pm_graph::diameter(alloc, edges_of(view, PropId::Graph))?;
    put_value(draft, PropId::Diameter, Value::Int(greatest))?;
    Ok(())
}

// DUAL_DIAMETER: the greatest distance in DUAL_GRAPH.
fn dual_diameter(alloc: Global, view: &View, draft: &mut Draft) -> Result<(), ClientFail>
    requires kind { view.now.kind ≡ standard_kind client.DualDiameter }
    requires empty { draft.old ≡ record { kind = view.now.kind; values = [] } }
    ensures draft { draft.new.kind ≡ draft.old.kind }
    ensures sound { OnOk result (IsSound view.now draft.new) }
    ensures failed { IfErr result (λ e. e ≡ Memory) }
{
    prove!(view.of() != ObjectType::Fan);
    let greatest = pm_graph::diameter(alloc, edges_of(view, PropId::DualGraph))?;
    put_value(draft, PropId::DualDiameter, Value::Int(greatest))?;
    Ok(())
}

// N_EDGES: how many edges GRAPH has.
fn n_edges(view: &View, draft: &mut Draft) -> Result<(), ClientFail>
    requires kind { view.now.kind ≡ standard_kind client.NEdges }
    requires empty { draft.old ≡ record { kind = view.now.kind; values = [] } }
    ensures draft { draft.new.kind ≡ draft.old.kind }
    ensures sound { OnOk result (IsSound view.now draft.new) }
    ensures failed { IfErr result (λ e. e ≡ Memory) }
{
    let edges = edge_count(edges_of(view, PropId::Graph));
    put_value(draft, PropId::NEdges, Value::Int(edges as i64))?;
    Ok(())
}

// N_RIDGES: how many edges DUAL_GRAPH has.
fn n_ridges(view: &View, draft: &mut Draft) -> Result<(), ClientFail>
    requires kind { view.now.kind ≡ standard_kind client.NRidges }
    requires empty { draft.old ≡ record { kind = view.now.kind; values = [] } }
    ensures draft { draft.new.kind ≡ draft.old.kind }
    ensures sound { OnOk result (IsSound view.now draft.new) }
    ensures failed { IfErr result (λ e. e ≡ Memory) }
{
    let ridges = edge_count(edges_of(view, PropId::DualGraph));
    put_value(draft, PropId::NRidges, Value::Int(ridges as i64))?;
    Ok(())
}
