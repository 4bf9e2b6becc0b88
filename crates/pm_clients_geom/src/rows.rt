// The clients that find rows: null spaces, and one description of a thing from its twin.

ghost use Rattle.pm_client.specs.Fails.{IfFailed};
ghost use Rattle.pm_types.specs.Parts.{as_put};
ghost use Rattle.pm_client.specs.Sound.{EliminatesExtended, FailsRightly, IsSound};
ghost use Rattle.pm_client.specs.declared.ClientFail.TheVariants.{Memory};
ghost use Rattle.pm_clients_geom.specs.Lists.{IsLostExtendedList, StaysInRange};
ghost use Rattle.pm_clients_geom.specs.Matrices.{MayBeLines};
ghost use Rattle.pm_clients_geom.specs.Pairs.{LacksPair};
ghost use Rattle.pm_clients_geom.specs.Ranks.{FindsNullSpace};
ghost use Rattle.pm_clients_geom.specs.Stays.{RowsStay};
ghost use Rattle.pm_clients_geom.specs.declared.rows.RowsWork.TheVariants as work;
ghost use Rattle.pm_vector.specs.declared.evidence.ElimList.TheVariants as list;
ghost use Rattle.pm_standard.specs.Table.{standard_kind};
ghost use Rattle.pm_props.specs.declared.property.PropId.TheVariants as property;
ghost use Rattle.pm_standard.specs.declared.standard.StandardClient.TheVariants as client;
ghost use Rattle.pm_props.specs.Properties.{has_program, of_fans, row};
ghost use Rattle.pm_props.specs.Sets.{has};
ghost use Rattle.std.specs.Prelude.{All, false, IfErr, IfOk, IsTrue, OnOk, [], length, true, ◌<◌, ◌≡◌, ◌↔◌};

use crate::lists::row_list;
use pm_client::{ClientFail, matrix_of, put_value};
use pm_elim::null_space_by;
use pm_family::{Family, FamilyClient};
use pm_fraction::Matrix;
use pm_object::{Draft, View};
use pm_standard::StandardClient;
use pm_types::{ObjectType, PropId, Value, matrix_over_one};
use pm_vector::Ints;
use std::alloc::Global;

/// The works of the clients that find rows.
#[derive(Clone, Copy, PartialEq, Eq)]
pub enum RowsWork {
    PointsFromVertices,
    InequalitiesFromFacets,
    LinealityFromFacets,
    HullFromVertices,
    LinealityFromFacetsWide,
    HullFromVerticesWide,
}

/// The clients that find rows.
#[derive(Drop)]
pub struct RowsFamily;

/// A client that finds rows. `lineality_from_facets` and `hull_from_vertices` fail exactly where the null space of
/// their row list is Wide, and the wide ones of these only where besides the elimination of its extended list is lost
/// by wide numbers; the others never.
pub type RowsClient = FamilyClient<RowsFamily>;

impl Family for RowsFamily {
    ghost use Rattle.pm_clients_geom.specs.Works.{rows_client};
    ghost use Rattle.pm_clients_geom.specs.Stays.{RowsFail};

    type Work = RowsWork;

    ghost client_of = { rows_client };

    ghost Stays = { RowsStay };

    ghost Fails = { RowsFail };

    fn client(work: RowsWork) -> StandardClient {
        match work {
            RowsWork::PointsFromVertices => StandardClient::PointsFromVertices,
            RowsWork::InequalitiesFromFacets => StandardClient::InequalitiesFromFacets,
            RowsWork::LinealityFromFacets => StandardClient::LinealityFromFacets,
            RowsWork::HullFromVertices => StandardClient::HullFromVertices,
            RowsWork::LinealityFromFacetsWide => StandardClient::LinealityFromFacetsWide,
            RowsWork::HullFromVerticesWide => StandardClient::HullFromVerticesWide,
        }
    }

    fn answer(
        work: RowsWork,
        alloc: Global,
        view: &View,
        draft: &mut Draft,
    ) -> Result<(), ClientFail> {
        match work {
            RowsWork::PointsFromVertices => points_from_vertices(alloc, view, draft),
            RowsWork::InequalitiesFromFacets => inequalities_from_facets(alloc, view, draft),
            RowsWork::LinealityFromFacets => lineality_from_facets(alloc, view, draft, false),
            RowsWork::HullFromVertices => hull_from_vertices(alloc, view, draft, false),
            RowsWork::LinealityFromFacetsWide => lineality_from_facets(alloc, view, draft, true),
            RowsWork::HullFromVerticesWide => hull_from_vertices(alloc, view, draft, true),
        }
    }
}

// POINTS and INPUT_LINEALITY: the rows of VERTICES and LINEALITY_SPACE.
fn points_from_vertices(alloc: Global, view: &View, draft: &mut Draft) -> Result<(), ClientFail>
    requires kind { view.now.kind ≡ standard_kind client.PointsFromVertices }
    requires empty { draft.old ≡ record { kind = view.now.kind; values = [] } }
    ensures draft { draft.new.kind ≡ draft.old.kind }
    ensures sound { OnOk result (IsSound view.now draft.new) }
    ensures stays { OnOk result (RowsStay work.PointsFromVertices view.now draft.new) }
    ensures failed { IfErr result (λ e. e ≡ Memory) }
{
    reads_no_half(view, PropId::Points, PropId::InputLineality);
    let points = same_rows(alloc, matrix_of(view, PropId::Vertices))?;
    let lines = same_rows(alloc, matrix_of(view, PropId::LinealitySpace))?;
    put_value(draft, PropId::Points, Value::Mat(points))?;
    put_value(draft, PropId::InputLineality, Value::Mat(lines))?;
    Ok(())
}

// INEQUALITIES and EQUATIONS: the rows of FACETS and AFFINE_HULL.
fn inequalities_from_facets(alloc: Global, view: &View, draft: &mut Draft) -> Result<(), ClientFail>
    requires kind { view.now.kind ≡ standard_kind client.InequalitiesFromFacets }
    requires empty { draft.old ≡ record { kind = view.now.kind; values = [] } }
    ensures draft { draft.new.kind ≡ draft.old.kind }
    ensures sound { OnOk result (IsSound view.now draft.new) }
    ensures stays { OnOk result (RowsStay work.InequalitiesFromFacets view.now draft.new) }
    ensures failed { IfErr result (λ e. e ≡ Memory) }
{
    reads_no_half(view, PropId::Inequalities, PropId::Equations);
    let inequalities = same_rows(alloc, matrix_of(view, PropId::Facets))?;
    let equations = same_rows(alloc, matrix_of(view, PropId::AffineHull))?;
    put_value(draft, PropId::Inequalities, Value::Mat(inequalities))?;
    put_value(draft, PropId::Equations, Value::Mat(equations))?;
    Ok(())
}

// LINEALITY_SPACE: the null space of the rows of AFFINE_HULL and FACETS; with the word, by wide numbers where those of
// the range do not suffice.
fn lineality_from_facets(
    alloc: Global,
    view: &View,
    draft: &mut Draft,
    wide: bool,
) -> Result<(), ClientFail>
    requires kind { FindsNullSpace view.now.kind property.AffineHull property.Facets
        property.LinealitySpace }
    requires empty { draft.old ≡ record { kind = view.now.kind; values = [] } }
    ensures draft { draft.new.kind ≡ draft.old.kind }
    ensures sound { OnOk result (IsSound view.now draft.new) }
    ensures stays { wide ≡ false → OnOk result (StaysInRange view.now property.AffineHull
        property.Facets list.Rows) }
    ensures stays_extended { wide ≡ false → OnOk result (StaysInRange view.now property.AffineHull
        property.Facets list.Extended) }
    ensures failed { IfErr result (FailsRightly view.now) }
    ensures fails { IfErr result (λ e. FailsRightly view.now e × EliminatesExtended e) }
    ensures lost { wide ≡ true → IfErr result (λ e. FailsRightly view.now e × EliminatesExtended e
        × IfFailed e (IsLostExtendedList view.now property.AffineHull property.Facets)) }
{
    let rows = row_list(alloc, view, PropId::AffineHull, PropId::Facets)?;
    let null = null_space_by(alloc, &rows, view.cols(), wide)?;
    drop(rows);
    let lines = if may_be_lines(view.of(), &null) {
        null
    } else {
        Vec::new(alloc)
    };
    let lineality = matrix_over_one(alloc, &lines, view.cols())?;
    put_value(draft, PropId::LinealitySpace, Value::Mat(lineality))?;
    Ok(())
}

// AFFINE_HULL: the null space of the rows of LINEALITY_SPACE and VERTICES; with the word, by wide numbers where those of
// the range do not suffice.
fn hull_from_vertices(
    alloc: Global,
    view: &View,
    draft: &mut Draft,
    wide: bool,
) -> Result<(), ClientFail>
    requires kind { FindsNullSpace view.now.kind property.LinealitySpace property.Vertices
        property.AffineHull }
    requires empty { draft.old ≡ record { kind = view.now.kind; values = [] } }
    ensures draft { draft.new.kind ≡ draft.old.kind }
    ensures sound { OnOk result (IsSound view.now draft.new) }
    ensures stays { wide ≡ false → OnOk result (StaysInRange view.now property.LinealitySpace
        property.Vertices list.Rows) }
    ensures stays_extended { wide ≡ false → OnOk result (StaysInRange view.now property.LinealitySpace
        property.Vertices list.Extended) }
    ensures failed { IfErr result (FailsRightly view.now) }
    ensures fails { IfErr result (λ e. FailsRightly view.now e × EliminatesExtended e) }
    ensures lost { wide ≡ true → IfErr result (λ e. FailsRightly view.now e × EliminatesExtended e
        × IfFailed e (IsLostExtendedList view.now property.LinealitySpace property.Vertices)) }
{
    let rows = row_list(alloc, view, PropId::LinealitySpace, PropId::Vertices)?;
    let null = null_space_by(alloc, &rows, view.cols(), wide)?;
    drop(rows);
    let hull = matrix_over_one(alloc, &null, view.cols())?;
    put_value(draft, PropId::AffineHull, Value::Mat(hull))?;
    Ok(())
}

// A client that finds both halves of a pair is run on no fan, and reads neither.
fn reads_no_half(view: &View, first: PropId, second: PropId)
    requires target { IsTrue (has view.now.kind.targets first) }
    requires no_fan { of_fans (row first).tables ≡ false }
    requires no_program { has_program first ≡ false }
    requires no_first { has view.now.kind.sources first ≡ false }
    requires no_second { has view.now.kind.sources second ≡ false }
    ensures { LacksPair view.now first second }
{
    prove!(view.of() != ObjectType::Fan);
    prove!(view.value(first).is_none());
    prove!(view.value(second).is_none());
}

// The same rows; without rows it states no column count. Want of memory alone ends it.
fn same_rows(alloc: Global, matrix: &Matrix) -> Result<Matrix, ClientFail>
    ensures rows { IfOk result (λ a. a ≡ as_put matrix.now.cols matrix.now.rows) }
    ensures failed { IfErr result (λ e. e ≡ Memory) }
{
    if matrix.rows() == 0 {
        Ok(Matrix::new(alloc, 0))
    } else {
        Ok(matrix.copy(alloc)?)
    }
}

/// Whether rows may span the lineality of a thing of that type.
pub(crate) fn may_be_lines(of: ObjectType, rows: &[Ints]) -> bool
    requires { All (λ x. 0 < length x) rows.now }
    ensures { IsTrue result ↔ MayBeLines of rows.now }
{
    of != ObjectType::Polytope || rows.iter().all(|row| row.get(0) == 0)
}
