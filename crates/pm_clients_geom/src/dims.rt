// The clients that find dimensions.

ghost use Rattle.pm_client.specs.Fails.{IfFailed};
ghost use Rattle.pm_client.specs.Sound.{EliminatesRows, FailsRightly, IsSound, added_rows, are_parts, eliminated_by, row_list as whole_list};
ghost use Rattle.pm_client.specs.declared.ClientFail.TheVariants.{Memory};
ghost use Rattle.pm_clients_geom.specs.Lists.{IsLostList, StaysInRange};
ghost use Rattle.pm_clients_geom.specs.Ranks.{IsListRank};
ghost use Rattle.pm_vector.specs.declared.evidence.ElimList.TheVariants as list;
ghost use Rattle.pm_object.specs.Reading.{IsView};
ghost use Rattle.pm_standard.specs.Table.{standard_kind};
ghost use Rattle.pm_props.specs.Sets.{has};
ghost use Rattle.pm_props.specs.declared.property.PropId.TheVariants as property;
ghost use Rattle.pm_standard.specs.declared.standard.StandardClient.TheVariants as client;
ghost use Rattle.std.specs.Prelude.{Contains, IfErr, IfOk, IsTrue, OnOk, [], false, true, ◌<◌, ◌≡◌, ◌≤◌};

use crate::lists::row_list;
use pm_client::{ClientFail, matrix_of, put_value, whole_of};
use pm_elim::rank_by;
use pm_family::{Family, FamilyClient};
use pm_object::{Draft, View};
use pm_standard::StandardClient;
use pm_types::{PropId, Value};
use pm_vector::Ints;
use std::alloc::Global;

/// The works of the clients that find a dimension.
#[derive(Clone, Copy, PartialEq, Eq)]
pub enum DimWork {
    ConeDimV,
    ConeDimSpan,
    ConeDimPoints,
    LinealityDim,
    CombinatorialDim,
    ConeDimVWide,
    ConeDimPointsWide,
}

/// The clients that find a dimension.
#[derive(Drop)]
pub struct DimFamily;

/// A client that finds a dimension. `cone_dim_v` and `cone_dim_points` fail exactly where the rank of their row list
/// is Wide, and the wide ones of these only where besides its elimination is lost by wide numbers; the others never.
pub type DimClient = FamilyClient<DimFamily>;

impl Family for DimFamily {
    ghost use Rattle.pm_clients_geom.specs.Works.{dimension_client};
    ghost use Rattle.pm_clients_geom.specs.Stays.{DimFails, DimStays};

    type Work = DimWork;

    ghost client_of = { dimension_client };

    ghost Stays = { λ w v _. DimStays w v };

    ghost Fails = { DimFails };

    fn client(work: DimWork) -> StandardClient {
        match work {
            DimWork::ConeDimV => StandardClient::ConeDimV,
            DimWork::ConeDimSpan => StandardClient::ConeDimSpan,
            DimWork::ConeDimPoints => StandardClient::ConeDimPoints,
            DimWork::LinealityDim => StandardClient::LinealityDim,
            DimWork::CombinatorialDim => StandardClient::CombinatorialDim,
            DimWork::ConeDimVWide => StandardClient::ConeDimVWide,
            DimWork::ConeDimPointsWide => StandardClient::ConeDimPointsWide,
        }
    }

    fn answer(
        work: DimWork,
        alloc: Global,
        view: &View,
        draft: &mut Draft,
    ) -> Result<(), ClientFail> {
        match work {
            DimWork::ConeDimV => cone_dim_v(alloc, view, draft),
            DimWork::ConeDimSpan => cone_dim_span(view, draft),
            DimWork::ConeDimPoints => cone_dim_points(alloc, view, draft),
            DimWork::LinealityDim => lineality_dim(view, draft),
            DimWork::CombinatorialDim => combinatorial_dim(view, draft),
            DimWork::ConeDimVWide => cone_dim_v_wide(alloc, view, draft),
            DimWork::ConeDimPointsWide => cone_dim_points_wide(alloc, view, draft),
        }
    }
}

// The rank of the row list of two parts, to which nothing is added; with the word, by wide numbers where those of the
// range do not suffice. It fails for want of memory, or where the elimination of the list leaves the range.
fn rank_of_list(
    alloc: Global,
    view: &View,
    first: PropId,
    second: PropId,
    wide: bool,
) -> Result<usize, ClientFail>
    requires first { IsTrue (has view.now.kind.sources first) }
    requires second { IsTrue (has view.now.kind.sources second) }
    requires parts { IsTrue (are_parts first second) }
    requires nothing_added { added_rows view.now.of view.now.cols second ≡ [] }
    requires eliminates { Contains (eliminated_by view.now.kind) whole_list }
    ensures rank { IfOk result (λ k. IsListRank view.now first second k) }
    ensures few { IfOk result (λ k. k ≤ 4096) }
    ensures view { OnOk result (IsView view.now) }
    ensures stays { wide ≡ false → OnOk result (StaysInRange view.now first second list.Rows) }
    ensures failed { IfErr result (FailsRightly view.now) }
    ensures fails { IfErr result (λ e. FailsRightly view.now e × EliminatesRows e) }
    ensures lost { wide ≡ true → IfErr result (λ e. FailsRightly view.now e
        × IfFailed e (IsLostList view.now first second)) }
{
    let rows = row_list(alloc, view, first, second)?;
    let rank = rank_by(alloc, &rows, view.cols(), wide)?;
    Ok(rank)
}

// CONE_DIM: the rank of the rows of LINEALITY_SPACE and VERTICES.
fn cone_dim_v(alloc: Global, view: &View, draft: &mut Draft) -> Result<(), ClientFail>
    requires kind { view.now.kind ≡ standard_kind client.ConeDimV }
    requires empty { draft.old ≡ record { kind = view.now.kind; values = [] } }
    ensures draft { draft.new.kind ≡ draft.old.kind }
    ensures sound { OnOk result (IsSound view.now draft.new) }
    ensures stays { OnOk result (StaysInRange view.now property.LinealitySpace
        property.Vertices list.Rows) }
    ensures failed { IfErr result (FailsRightly view.now) }
    ensures fails { IfErr result (λ e. FailsRightly view.now e × EliminatesRows e) }
{
    let dim = rank_of_list(alloc, view, PropId::LinealitySpace, PropId::Vertices, false)?;
    put_value(draft, PropId::ConeDim, Value::Int(dim as i64))?;
    Ok(())
}

// CONE_DIM: n less the number of rows of AFFINE_HULL.
fn cone_dim_span(view: &View, draft: &mut Draft) -> Result<(), ClientFail>
    requires kind { view.now.kind ≡ standard_kind client.ConeDimSpan }
    requires empty { draft.old ≡ record { kind = view.now.kind; values = [] } }
    ensures draft { draft.new.kind ≡ draft.old.kind }
    ensures sound { OnOk result (IsSound view.now draft.new) }
    ensures failed { IfErr result (λ e. e ≡ Memory) }
{
    let hull = matrix_of(view, PropId::AffineHull);
    let dim = view.cols() as i64 - hull.rows() as i64;
    put_value(draft, PropId::ConeDim, Value::Int(dim))?;
    Ok(())
}

// CONE_DIM: the rank of the rows of INPUT_LINEALITY and POINTS.
fn cone_dim_points(alloc: Global, view: &View, draft: &mut Draft) -> Result<(), ClientFail>
    requires kind { view.now.kind ≡ standard_kind client.ConeDimPoints }
    requires empty { draft.old ≡ record { kind = view.now.kind; values = [] } }
    ensures draft { draft.new.kind ≡ draft.old.kind }
    ensures sound { OnOk result (IsSound view.now draft.new) }
    ensures stays { OnOk result (StaysInRange view.now property.InputLineality
        property.Points list.Rows) }
    ensures failed { IfErr result (FailsRightly view.now) }
    ensures fails { IfErr result (λ e. FailsRightly view.now e × EliminatesRows e) }
{
    let dim = rank_of_list(alloc, view, PropId::InputLineality, PropId::Points, false)?;
    put_value(draft, PropId::ConeDim, Value::Int(dim as i64))?;
    Ok(())
}

// CONE_DIM: the rank of the rows of LINEALITY_SPACE and VERTICES, by wide numbers where those of the range do not
// suffice.
fn cone_dim_v_wide(alloc: Global, view: &View, draft: &mut Draft) -> Result<(), ClientFail>
    requires kind { view.now.kind ≡ standard_kind client.ConeDimVWide }
    requires empty { draft.old ≡ record { kind = view.now.kind; values = [] } }
    ensures draft { draft.new.kind ≡ draft.old.kind }
    ensures sound { OnOk result (IsSound view.now draft.new) }
    ensures failed { IfErr result (FailsRightly view.now) }
    ensures lost { IfErr result (λ e. FailsRightly view.now e
        × IfFailed e (IsLostList view.now property.LinealitySpace property.Vertices)) }
{
    let dim = rank_of_list(alloc, view, PropId::LinealitySpace, PropId::Vertices, true)?;
    put_value(draft, PropId::ConeDim, Value::Int(dim as i64))?;
    Ok(())
}

// CONE_DIM: the rank of the rows of INPUT_LINEALITY and POINTS, by wide numbers where those of the range do not
// suffice.
fn cone_dim_points_wide(alloc: Global, view: &View, draft: &mut Draft) -> Result<(), ClientFail>
    requires kind { view.now.kind ≡ standard_kind client.ConeDimPointsWide }
    requires empty { draft.old ≡ record { kind = view.now.kind; values = [] } }
    ensures draft { draft.new.kind ≡ draft.old.kind }
    ensures sound { OnOk result (IsSound view.now draft.new) }
    ensures failed { IfErr result (FailsRightly view.now) }
    ensures lost { IfErr result (λ e. FailsRightly view.now e
        × IfFailed e (IsLostList view.now property.InputLineality property.Points)) }
{
    let dim = rank_of_list(alloc, view, PropId::InputLineality, PropId::Points, true)?;
    put_value(draft, PropId::ConeDim, Value::Int(dim as i64))?;
    Ok(())
}

// LINEALITY_DIM: the number of rows of LINEALITY_SPACE.
fn lineality_dim(view: &View, draft: &mut Draft) -> Result<(), ClientFail>
    requires kind { view.now.kind ≡ standard_kind client.LinealityDim }
    requires empty { draft.old ≡ record { kind = view.now.kind; values = [] } }
    ensures draft { draft.new.kind ≡ draft.old.kind }
    ensures sound { OnOk result (IsSound view.now draft.new) }
    ensures failed { IfErr result (λ e. e ≡ Memory) }
{
    let lineality = matrix_of(view, PropId::LinealitySpace);
    let dim = lineality.rows() as i64;
    put_value(draft, PropId::LinealityDim, Value::Int(dim))?;
    Ok(())
}

// COMBINATORIAL_DIM: CONE_DIM less LINEALITY_DIM, less 1. Two dimensions are never so far apart that this leaves 64
// bits.
fn combinatorial_dim(view: &View, draft: &mut Draft) -> Result<(), ClientFail>
    requires kind { view.now.kind ≡ standard_kind client.CombinatorialDim }
    requires empty { draft.old ≡ record { kind = view.now.kind; values = [] } }
    ensures draft { draft.new.kind ≡ draft.old.kind }
    ensures sound { OnOk result (IsSound view.now draft.new) }
    ensures failed { IfErr result (λ e. e ≡ Memory) }
{
    let cone = whole_of(view, PropId::ConeDim);
    let lineality = whole_of(view, PropId::LinealityDim);
    let dim = cone.saturating_sub(lineality).saturating_sub(1);
    put_value(draft, PropId::CombinatorialDim, Value::Int(dim))?;
    Ok(())
}
