// The clients that find truth values, from dimensions or from first entries.
// They never fail but for want of memory.

ghost use Rattle.pm_client.specs.Sound.{IsSound};
ghost use Rattle.pm_client.specs.declared.ClientFail.TheVariants.{Memory};
ghost use Rattle.pm_standard.specs.Table.{standard_kind};
ghost use Rattle.pm_standard.specs.declared.standard.StandardClient.TheVariants as client;
ghost use Rattle.pm_relations.specs.FirstEntries.{HasPositiveFirst, HasZeroFirst};
ghost use Rattle.std.specs.Prelude.{All, IfErr, IsTrue, OnOk, [], ◌≡◌, ◌↔◌};

use crate::firsts::{has_positive_firsts, has_zero_firsts};
use pm_client::{ClientFail, matrix_of, put_value, whole_of};
use pm_family::{Family, FamilyClient};
use pm_fraction::Matrix;
use pm_object::{Draft, View};
use pm_standard::StandardClient;
use pm_types::{ObjectType, PropId, Value};
use std::alloc::Global;

/// The works of the clients that find a truth value.
#[derive(Clone, Copy, PartialEq, Eq)]
pub enum TestWork {
    Feasible,
    Bounded,
    Pointed,
    FullDim,
    Centered,
}

/// The standard clients that find truth values.
#[derive(Drop)]
pub struct TestFamily;

/// A client that finds a truth value. It fails for want of memory alone.
pub type TestClient = FamilyClient<TestFamily>;

impl Family for TestFamily {
    ghost use Rattle.pm_client.specs.declared.ClientFail.TheVariants.{Memory};
    ghost use Rattle.pm_clients_counts.specs.Works.{truth_client};
    ghost use Rattle.std.specs.Prelude.{◌≡◌};

    type Work = TestWork;

    ghost client_of = { truth_client };

    ghost Stays = { λ _ _ _. Unit {0} };

    ghost Fails = { λ _ _ e. e ≡ Memory };

    fn client(work: TestWork) -> StandardClient {
        match work {
            TestWork::Feasible => StandardClient::Feasible,
            TestWork::Bounded => StandardClient::Bounded,
            TestWork::Pointed => StandardClient::Pointed,
            TestWork::FullDim => StandardClient::FullDim,
            TestWork::Centered => StandardClient::Centered,
        }
    }

    fn answer(
        work: TestWork,
        _alloc: Global,
        view: &View,
        draft: &mut Draft,
    ) -> Result<(), ClientFail> {
        match work {
            TestWork::Feasible => feasible(view, draft),
            TestWork::Bounded => bounded(view, draft),
            TestWork::Pointed => pointed(view, draft),
            TestWork::FullDim => full_dim(view, draft),
            TestWork::Centered => centered(view, draft),
        }
    }
}

// FEASIBLE: CONE_DIM is not 0.
fn feasible(view: &View, draft: &mut Draft) -> Result<(), ClientFail>
    requires kind { view.now.kind ≡ standard_kind client.Feasible }
    requires empty { draft.old ≡ record { kind = view.now.kind; values = [] } }
    ensures draft { draft.new.kind ≡ draft.old.kind }
    ensures sound { OnOk result (IsSound view.now draft.new) }
    ensures failed { IfErr result (λ e. e ≡ Memory) }
{
    let is_feasible = whole_of(view, PropId::ConeDim) != 0;
    put_value(draft, PropId::Feasible, Value::Bool(is_feasible))?;
    Ok(())
}

// Whether there is no line, and each ray has a positive first entry.
fn is_bounded(vertices: &Matrix, lineality: &Matrix) -> bool
    ensures { IsTrue result
        ↔ ((lineality.now.rows ≡ []) × All HasPositiveFirst vertices.now.rows) }
{
    lineality.rows() == 0 && has_positive_firsts(vertices)
}

// BOUNDED: LINEALITY_SPACE has no row, and each row of VERTICES has a positive first entry.
fn bounded(view: &View, draft: &mut Draft) -> Result<(), ClientFail>
    requires kind { view.now.kind ≡ standard_kind client.Bounded }
    requires empty { draft.old ≡ record { kind = view.now.kind; values = [] } }
    ensures draft { draft.new.kind ≡ draft.old.kind }
    ensures sound { OnOk result (IsSound view.now draft.new) }
    ensures failed { IfErr result (λ e. e ≡ Memory) }
{
    prove!(view.of() == ObjectType::Polytope);
    let vertices = matrix_of(view, PropId::Vertices);
    let lineality = matrix_of(view, PropId::LinealitySpace);
    let is_bounded = is_bounded(vertices, lineality);
    put_value(draft, PropId::Bounded, Value::Bool(is_bounded))?;
    Ok(())
}

// POINTED: LINEALITY_DIM is 0.
fn pointed(view: &View, draft: &mut Draft) -> Result<(), ClientFail>
    requires kind { view.now.kind ≡ standard_kind client.Pointed }
    requires empty { draft.old ≡ record { kind = view.now.kind; values = [] } }
    ensures draft { draft.new.kind ≡ draft.old.kind }
    ensures sound { OnOk result (IsSound view.now draft.new) }
    ensures failed { IfErr result (λ e. e ≡ Memory) }
{
    let is_pointed = whole_of(view, PropId::LinealityDim) == 0;
    put_value(draft, PropId::Pointed, Value::Bool(is_pointed))?;
    Ok(())
}

// FULL_DIM: CONE_DIM is n.
fn full_dim(view: &View, draft: &mut Draft) -> Result<(), ClientFail>
    requires kind { view.now.kind ≡ standard_kind client.FullDim }
    requires empty { draft.old ≡ record { kind = view.now.kind; values = [] } }
    ensures draft { draft.new.kind ≡ draft.old.kind }
    ensures sound { OnOk result (IsSound view.now draft.new) }
    ensures failed { IfErr result (λ e. e ≡ Memory) }
{
    let is_full = whole_of(view, PropId::ConeDim) == view.cols() as i64;
    put_value(draft, PropId::FullDim, Value::Bool(is_full))?;
    Ok(())
}

// Whether the first entry is 0 in each row that vanishes, and positive in each facet row.
fn is_centered(facets: &Matrix, hull: &Matrix) -> bool
    ensures { IsTrue result
        ↔ (All HasZeroFirst hull.now.rows × All HasPositiveFirst facets.now.rows) }
{
    has_zero_firsts(hull) && has_positive_firsts(facets)
}

// CENTERED: each row of AFFINE_HULL has the first entry 0, and each row of FACETS a positive one.
fn centered(view: &View, draft: &mut Draft) -> Result<(), ClientFail>
    requires kind { view.now.kind ≡ standard_kind client.Centered }
    requires empty { draft.old ≡ record { kind = view.now.kind; values = [] } }
    ensures draft { draft.new.kind ≡ draft.old.kind }
    ensures sound { OnOk result (IsSound view.now draft.new) }
    ensures failed { IfErr result (λ e. e ≡ Memory) }
{
    prove!(view.of() == ObjectType::Polytope);
    let facets = matrix_of(view, PropId::Facets);
    let hull = matrix_of(view, PropId::AffineHull);
    let is_centered = is_centered(facets, hull);
    put_value(draft, PropId::Centered, Value::Bool(is_centered))?;
    Ok(())
}
