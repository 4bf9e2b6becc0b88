// The clients of the program, in one family, and a script answered with them.

ghost use Rattle.pm_client.specs.Starts.{Clients};
ghost use Rattle.pm_run.specs.Ends.{EndedBy, IsBadBook, IsUnrun};
ghost use Rattle.pm_run.specs.Shipped.{ShippedFails, ShippedStays, shipped, shipped_client, shipped_clients, unstarted};
ghost use Rattle.pm_standard.specs.Table.{standard_clients, wide_clients};
ghost use Rattle.pm_store.specs.Outside.{Rose};
ghost use Rattle.pm_words.specs.Words.{words_of};
ghost use Rattle.std.specs.Prelude.{None, OnOk, [], map, string_bytes, ◌++◌, ◌∷◌, ◌≡◌, ◌≤◌, ◌⊎◌};

use crate::run::polymake;
use crate::status::Status;
use pm_client::{Client, ClientFail};
use pm_clients_comb::{SetsFamily, SetsWork};
use pm_clients_counts::{SizeFamily, SizeWork, TestFamily, TestWork};
use pm_clients_faces::{FacesFamily, FacesWork};
use pm_clients_fans::{FanFamily, FanWork};
use pm_clients_geom::{
    DimFamily, DimWork, HullFamily, HullWork, PlaceFamily, PlaceWork, RedundancyFamily,
    RedundancyWork, RowsFamily, RowsWork, ThinFamily, ThinWork,
};
use pm_clients_graph::{GraphFamily, GraphWork};
use pm_clients_lift::{LiftFamily, LiftWork};
use pm_clients_lp::{LpFamily, LpWork};
use pm_family::{Family, FamilyClient};
use pm_object::{Draft, View};
use pm_simplex::Sense;
use pm_standard::StandardClient;
use pm_store::{Sink, Source, Store};
use std::alloc::{AllocError, Global};
use std::mem::forget;

/// What a client of the program does, family by family.
#[derive(Clone, Copy)]
pub(crate) enum ShippedWork {
    /// Double description.
    Hull(HullWork),
    /// Redundant rows by linear programs, and whether there is a point.
    Redundancy(RedundancyWork),
    /// One description thinned by the other, or read from sets.
    Thin(ThinWork),
    /// A description copied from its twin, and null spaces.
    Rows(RowsWork),
    /// Dimensions.
    Dim(DimWork),
    /// Counts, and the far face.
    Size(SizeWork),
    /// Truth values.
    Test(TestWork),
    /// Incidences, their sizes, and what the sizes show.
    Sets(SetsWork),
    /// Faces by rank, and f-, f2- and h-vectors.
    Faces(FacesWork),
    /// Graphs, and what they show.
    Graph(GraphWork),
    /// Linear programs.
    Lp(LpWork),
    /// Fans.
    Fan(FanWork),
    /// Placing rays.
    Place(PlaceWork),
    /// Lifting sites.
    Lift(LiftWork),
}

impl ShippedWork {
    /// All of them, in the order of the tables of clients.
    fn every() -> [ShippedWork; 95]
        ensures { map shipped_client result ≡ standard_clients ++ wide_clients }
    {
        [
            Self::Hull(HullWork::DdVertices),
            Self::Hull(HullWork::DdFacets),
            Self::Hull(HullWork::DdFacetsV),
            Self::Hull(HullWork::DdVerticesF),
            Self::Redundancy(RedundancyWork::ThinPointsLp),
            Self::Redundancy(RedundancyWork::ThinInequalitiesLp),
            Self::Thin(ThinWork::ThinPointsF),
            Self::Thin(ThinWork::ThinInequalitiesV),
            Self::Thin(ThinWork::VerticesFromSets),
            Self::Thin(ThinWork::FacetsFromSets),
            Self::Rows(RowsWork::PointsFromVertices),
            Self::Rows(RowsWork::InequalitiesFromFacets),
            Self::Rows(RowsWork::LinealityFromFacets),
            Self::Rows(RowsWork::HullFromVertices),
            Self::Dim(DimWork::ConeDimV),
            Self::Dim(DimWork::ConeDimSpan),
            Self::Dim(DimWork::ConeDimPoints),
            Self::Dim(DimWork::LinealityDim),
            Self::Dim(DimWork::CombinatorialDim),
            Self::Size(SizeWork::NVertices),
            Self::Size(SizeWork::NVerticesSets),
            Self::Size(SizeWork::NFacets),
            Self::Size(SizeWork::NFacetsSets),
            Self::Test(TestWork::Feasible),
            Self::Redundancy(RedundancyWork::FeasibleLp),
            Self::Test(TestWork::Bounded),
            Self::Size(SizeWork::FarFace),
            Self::Test(TestWork::Pointed),
            Self::Test(TestWork::FullDim),
            Self::Test(TestWork::Centered),
            Self::Sets(SetsWork::Incidence),
            Self::Sets(SetsWork::VertexSizes),
            Self::Sets(SetsWork::FacetSizes),
            Self::Sets(SetsWork::Simple),
            Self::Sets(SetsWork::Simplicial),
            Self::Faces(FacesWork::Faces),
            Self::Faces(FacesWork::FVector),
            Self::Faces(FacesWork::F2Vector),
            Self::Faces(FacesWork::HVector),
            Self::Graph(GraphWork::GraphOfSets),
            Self::Graph(GraphWork::GraphOfFaces),
            Self::Graph(GraphWork::DualGraph),
            Self::Graph(GraphWork::VertexDegrees),
            Self::Graph(GraphWork::Diameter),
            Self::Graph(GraphWork::DualDiameter),
            Self::Graph(GraphWork::NEdges),
            Self::Graph(GraphWork::NRidges),
            Self::Lp(LpWork::OverFacets(Sense::Maximal)),
            Self::Lp(LpWork::OverFacets(Sense::Minimal)),
            Self::Lp(LpWork::OverRows(Sense::Maximal)),
            Self::Lp(LpWork::OverRows(Sense::Minimal)),
            Self::Lp(LpWork::AtRays(Sense::Maximal)),
            Self::Lp(LpWork::AtRays(Sense::Minimal)),
            Self::Lp(LpWork::AtFace(Sense::Maximal)),
            Self::Lp(LpWork::AtFace(Sense::Minimal)),
            Self::Fan(FanWork::FanDims),
            Self::Fan(FanWork::FanDim),
            Self::Fan(FanWork::FanPure),
            Self::Fan(FanWork::FanSimplicial),
            Self::Fan(FanWork::FanSize),
            Self::Place(PlaceWork::BbFacets),
            Self::Place(PlaceWork::BbFacetsV),
            Self::Place(PlaceWork::Placing),
            Self::Lift(LiftWork::RegularCells),
            Self::Lift(LiftWork::Delaunay),
            Self::Hull(HullWork::DdVerticesWide),
            Self::Hull(HullWork::DdFacetsWide),
            Self::Hull(HullWork::DdFacetsVWide),
            Self::Hull(HullWork::DdVerticesFWide),
            Self::Redundancy(RedundancyWork::ThinPointsLpWide),
            Self::Redundancy(RedundancyWork::ThinInequalitiesLpWide),
            Self::Thin(ThinWork::ThinPointsFWide),
            Self::Thin(ThinWork::ThinInequalitiesVWide),
            Self::Thin(ThinWork::VerticesFromSetsWide),
            Self::Thin(ThinWork::FacetsFromSetsWide),
            Self::Rows(RowsWork::LinealityFromFacetsWide),
            Self::Rows(RowsWork::HullFromVerticesWide),
            Self::Dim(DimWork::ConeDimVWide),
            Self::Dim(DimWork::ConeDimPointsWide),
            Self::Redundancy(RedundancyWork::FeasibleLpWide),
            Self::Sets(SetsWork::IncidenceWide),
            Self::Lp(LpWork::OverFacetsWide(Sense::Maximal)),
            Self::Lp(LpWork::OverFacetsWide(Sense::Minimal)),
            Self::Lp(LpWork::OverRowsWide(Sense::Maximal)),
            Self::Lp(LpWork::OverRowsWide(Sense::Minimal)),
            Self::Lp(LpWork::AtRaysWide(Sense::Maximal)),
            Self::Lp(LpWork::AtRaysWide(Sense::Minimal)),
            Self::Lp(LpWork::AtFaceWide(Sense::Maximal)),
            Self::Lp(LpWork::AtFaceWide(Sense::Minimal)),
            Self::Fan(FanWork::FanDimsWide),
            Self::Place(PlaceWork::BbFacetsWide),
            Self::Place(PlaceWork::BbFacetsVWide),
            Self::Place(PlaceWork::PlacingWide),
            Self::Lift(LiftWork::RegularCellsWide),
            Self::Lift(LiftWork::DelaunayWide),
        ]
    }
}

/// The clients of the program, as one family: each work is handed on to its own.
#[derive(Drop)]
pub(crate) struct ShippedFamily;

impl Family for ShippedFamily {
    type Work = ShippedWork;

    ghost client_of = { shipped_client };

    ghost Stays = { ShippedStays };

    ghost Fails = { ShippedFails };

    fn client(work: ShippedWork) -> StandardClient {
        match work {
            ShippedWork::Hull(w) => HullFamily::client(w),
            ShippedWork::Redundancy(w) => RedundancyFamily::client(w),
            ShippedWork::Thin(w) => ThinFamily::client(w),
            ShippedWork::Rows(w) => RowsFamily::client(w),
            ShippedWork::Dim(w) => DimFamily::client(w),
            ShippedWork::Size(w) => SizeFamily::client(w),
            ShippedWork::Test(w) => TestFamily::client(w),
            ShippedWork::Sets(w) => SetsFamily::client(w),
            ShippedWork::Faces(w) => FacesFamily::client(w),
            ShippedWork::Graph(w) => GraphFamily::client(w),
            ShippedWork::Lp(w) => LpFamily::client(w),
            ShippedWork::Fan(w) => FanFamily::client(w),
            ShippedWork::Place(w) => PlaceFamily::client(w),
            ShippedWork::Lift(w) => LiftFamily::client(w),
        }
    }

    fn answer(
        work: ShippedWork,
        alloc: Global,
        view: &View,
        draft: &mut Draft,
    ) -> Result<(), ClientFail> {
        match work {
            ShippedWork::Hull(w) => HullFamily::answer(w, alloc, view, draft),
            ShippedWork::Redundancy(w) => RedundancyFamily::answer(w, alloc, view, draft),
            ShippedWork::Thin(w) => ThinFamily::answer(w, alloc, view, draft),
            ShippedWork::Rows(w) => RowsFamily::answer(w, alloc, view, draft),
            ShippedWork::Dim(w) => DimFamily::answer(w, alloc, view, draft),
            ShippedWork::Size(w) => SizeFamily::answer(w, alloc, view, draft),
            ShippedWork::Test(w) => TestFamily::answer(w, alloc, view, draft),
            ShippedWork::Sets(w) => SetsFamily::answer(w, alloc, view, draft),
            ShippedWork::Faces(w) => FacesFamily::answer(w, alloc, view, draft),
            ShippedWork::Graph(w) => GraphFamily::answer(w, alloc, view, draft),
            ShippedWork::Lp(w) => LpFamily::answer(w, alloc, view, draft),
            ShippedWork::Fan(w) => FanFamily::answer(w, alloc, view, draft),
            ShippedWork::Place(w) => PlaceFamily::answer(w, alloc, view, draft),
            ShippedWork::Lift(w) => LiftFamily::answer(w, alloc, view, draft),
        }
    }
}

/// Puts the client of a work, which was never started, at the end of the list.
fn push_client(
    clients: &mut Vec<Box<dyn Client>>,
    client: Box<dyn Client>,
    work: ShippedWork,
) -> Result<(), AllocError>
    requires fresh { tally client ≡ unstarted (shipped_client work) }
    ensures pushed { OnOk result (map tally clients.new.items
        ≡ map tally clients.old.items ++ unstarted (shipped_client work) ∷ []) }
{
    clients.push(client)?;
    Ok(())
}

/// Answers the lines of a script with the clients of the program, none of which was started. Each status comes where it
/// does by `polymake`. Where memory runs out before the clients are there, nothing was done.
pub fn polymake_with_shipped<S: Source, K: Sink, F: Store>(
    alloc: Global,
    words: &[String],
    source: &mut S,
    sink: &mut K,
    store: &mut F,
) -> Status
    ensures words { result ≡ Status.BadWords → words_of (map string_bytes words.now) ≡ None }
    ensures bad_words { words_of (map string_bytes words.now) ≡ None →
        (result ≡ Status.BadWords) ⊎ (result ≡ Status.OutOfMemory) }
    ensures run { (after : Clients) × EndedBy shipped (words_of (map string_bytes words.now)) result (record {
      script = S.left source.old;
      left = S.left source.new;
      had = K.taken sink.old;
      has = K.taken sink.new;
      files = F.files store.old;
      kept = F.files store.new;
      counted = F.faults store.old;
      counts = F.faults store.new;
      before = shipped_clients;
      after = after;
    }) }
    ensures bad_book { result ≡ Status.BadBook →
        IsBadBook (words_of (map string_bytes words.now)) shipped_clients
        (F.files store.old) (F.faults store.old) (F.faults store.new) }
    ensures unread { IsUnrun result → source.new ≡ source.old }
    ensures untouched { IsUnrun result → sink.new ≡ sink.old }
    ensures unasked { result ≡ Status.BadWords → store.new ≡ store.old }
    ensures source_fault { result ≡ Status.SourceFault →
        Rose (S.faults source.old) (S.faults source.new) }
    ensures sink_fault { result ≡ Status.SinkFault →
        Rose (K.faults sink.old) (K.faults sink.new) }
    ensures source_count { S.faults source.old ≤ S.faults source.new }
    ensures sink_count { K.faults sink.old ≤ K.faults sink.new }
    ensures store_count { F.faults store.old ≤ F.faults store.new }
{
    let works = ShippedWork::every();
    let mut clients: Vec<Box<dyn Client>> = Vec::new(alloc);
    for work in &works {
        let Ok(client) = Box::new(alloc, FamilyClient::<ShippedFamily>::new(*work)) else {
            return Status::OutOfMemory;
        };
        let Ok(()) = push_client(&mut clients, client, *work) else {
            return Status::OutOfMemory;
        };
    }
    let status = polymake(alloc, words, &mut clients, source, sink, store);
    // They are given back when the process ends, and not one by one.
    forget(clients);
    status
}
