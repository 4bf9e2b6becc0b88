// The clients of fans.

ghost use Rattle.pm_client.specs.Sound.{FailsRightly, IsSound};
ghost use Rattle.pm_client.specs.declared.ClientFail.TheVariants.{Memory};
ghost use Rattle.pm_clients_fans.specs.Cones.{ConesStayBy};
ghost use Rattle.pm_clients_fans.specs.Works.{FanFails, FindsDims};
ghost use Rattle.pm_clients_fans.specs.declared.client.FanWork.TheVariants as work;
ghost use Rattle.pm_standard.specs.Table.{standard_kind};
ghost use Rattle.pm_standard.specs.declared.standard.StandardClient.TheVariants as client;
ghost use Rattle.std.specs.Prelude.{IfErr, OnOk, [], ◌≡◌, true};

use crate::dims::{are_one, are_simplices, dims_of, greatest};
use pm_client::{ClientFail, counts_of, matrix_of, primitive_rows, put_value, sets_of, whole_of};
use pm_family::{Family, FamilyClient};
use pm_object::{Draft, View};
use pm_standard::StandardClient;
use pm_types::{Counts, ObjectType, PropId, Value};
use std::alloc::Global;

/// The works of the clients of fans.
#[derive(Clone, Copy, PartialEq, Eq)]
pub enum FanWork {
    FanDims,
    FanDim,
    FanPure,
    FanSimplicial,
    FanSize,
    FanDimsWide,
}

/// The clients of fans.
#[derive(Drop)]
pub struct FanFamily;

/// A client of fans. `fan_dims` fails exactly where a step of the elimination of the rows of a maximal cone leaves the
/// range, and the wide one only where besides the elimination of the rows of a maximal cone is lost by wide numbers;
/// the others for want of memory alone.
pub type FanClient = FamilyClient<FanFamily>;

impl Family for FanFamily {
    ghost use Rattle.pm_clients_fans.specs.Works.{FanFails, FanStays, fan_client};

    type Work = FanWork;

    ghost client_of = { fan_client };

    ghost Stays = { λ w v _. FanStays w v };

    ghost Fails = { FanFails };

    fn client(work: FanWork) -> StandardClient {
        match work {
            FanWork::FanDims => StandardClient::FanDims,
            FanWork::FanDim => StandardClient::FanDim,
            FanWork::FanPure => StandardClient::FanPure,
            FanWork::FanSimplicial => StandardClient::FanSimplicial,
            FanWork::FanSize => StandardClient::FanSize,
            FanWork::FanDimsWide => StandardClient::FanDimsWide,
        }
    }

    fn answer(
        work: FanWork,
        alloc: Global,
        view: &View,
        draft: &mut Draft,
    ) -> Result<(), ClientFail> {
        match work {
            FanWork::FanDims => fan_dims(alloc, view, draft, false),
            FanWork::FanDim => fan_dim(view, draft),
            FanWork::FanPure => fan_pure(view, draft),
            FanWork::FanSimplicial => fan_simplicial(view, draft),
            FanWork::FanSize => fan_size(view, draft),
            FanWork::FanDimsWide => fan_dims(alloc, view, draft, true),
        }
    }
}

// MAXIMAL_CONES_DIMS: the rank of LINEALITY_SPACE with the rays of each of MAXIMAL_CONES; with the word, by wide numbers
// where those of the range do not suffice.
fn fan_dims(alloc: Global, view: &View, draft: &mut Draft, wide: bool) -> Result<(), ClientFail>
    requires kind { FindsDims view.now.kind }
    requires empty { draft.old ≡ record { kind = view.now.kind; values = [] } }
    ensures draft { draft.new.kind ≡ draft.old.kind }
    ensures sound { OnOk result (IsSound view.now draft.new) }
    ensures failed { IfErr result (FailsRightly view.now) }
    ensures fails { IfErr result (FanFails work.FanDims view.now) }
    ensures lost { wide ≡ true → IfErr result (FanFails work.FanDimsWide view.now) }
    ensures stays { OnOk result (ConesStayBy wide view.now) }
{
    prove!(view.of() == ObjectType::Fan);
    let rays = primitive_rows(alloc, matrix_of(view, PropId::Vertices))?;
    let lines = primitive_rows(alloc, matrix_of(view, PropId::LinealitySpace))?;
    let cones = sets_of(view, PropId::MaximalCones);
    let dims = dims_of(alloc, &rays, &lines, cones, view.cols(), wide)?;
    put_value(
        draft,
        PropId::MaximalConesDims,
        Value::Counts(Counts::from_vec(dims)),
    )?;
    Ok(())
}

// FAN_DIM: the greatest of MAXIMAL_CONES_DIMS, -1 where there is no cone.
fn fan_dim(view: &View, draft: &mut Draft) -> Result<(), ClientFail>
    requires kind { view.now.kind ≡ standard_kind client.FanDim }
    requires empty { draft.old ≡ record { kind = view.now.kind; values = [] } }
    ensures draft { draft.new.kind ≡ draft.old.kind }
    ensures sound { OnOk result (IsSound view.now draft.new) }
    ensures failed { IfErr result (λ e. e ≡ Memory) }
{
    prove!(view.of() == ObjectType::Fan);
    let dims = counts_of(view, PropId::MaximalConesDims);
    let dim = greatest(dims.as_slice()).copied().unwrap_or(-1);
    put_value(draft, PropId::FanDim, Value::Int(dim))?;
    Ok(())
}

// PURE: MAXIMAL_CONES_DIMS are all one.
fn fan_pure(view: &View, draft: &mut Draft) -> Result<(), ClientFail>
    requires kind { view.now.kind ≡ standard_kind client.FanPure }
    requires empty { draft.old ≡ record { kind = view.now.kind; values = [] } }
    ensures draft { draft.new.kind ≡ draft.old.kind }
    ensures sound { OnOk result (IsSound view.now draft.new) }
    ensures failed { IfErr result (λ e. e ≡ Memory) }
{
    prove!(view.of() == ObjectType::Fan);
    let dims = counts_of(view, PropId::MaximalConesDims);
    let is_pure = are_one(dims.as_slice());
    put_value(draft, PropId::Pure, Value::Bool(is_pure))?;
    Ok(())
}

// SIMPLICIAL: each of MAXIMAL_CONES_DIMS is LINEALITY_DIM more than the number of rays of its cone.
fn fan_simplicial(view: &View, draft: &mut Draft) -> Result<(), ClientFail>
    requires kind { view.now.kind ≡ standard_kind client.FanSimplicial }
    requires empty { draft.old ≡ record { kind = view.now.kind; values = [] } }
    ensures draft { draft.new.kind ≡ draft.old.kind }
    ensures sound { OnOk result (IsSound view.now draft.new) }
    ensures failed { IfErr result (λ e. e ≡ Memory) }
{
    prove!(view.of() == ObjectType::Fan);
    let cones = sets_of(view, PropId::MaximalCones);
    let dims = counts_of(view, PropId::MaximalConesDims);
    let lineality = whole_of(view, PropId::LinealityDim);
    let is_simplicial = are_simplices(cones.rows(), dims.as_slice(), lineality);
    put_value(draft, PropId::Simplicial, Value::Bool(is_simplicial))?;
    Ok(())
}

// N_MAXIMAL_CONES: the number of sets of MAXIMAL_CONES.
fn fan_size(view: &View, draft: &mut Draft) -> Result<(), ClientFail>
    requires kind { view.now.kind ≡ standard_kind client.FanSize }
    requires empty { draft.old ≡ record { kind = view.now.kind; values = [] } }
    ensures draft { draft.new.kind ≡ draft.old.kind }
    ensures sound { OnOk result (IsSound view.now draft.new) }
    ensures failed { IfErr result (λ e. e ≡ Memory) }
{
    prove!(view.of() == ObjectType::Fan);
    let count = sets_of(view, PropId::MaximalCones).rows().len() as i64;
    put_value(draft, PropId::NMaximalCones, Value::Int(count))?;
    Ok(())
}
