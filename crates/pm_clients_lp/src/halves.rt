// The clients that find an optimum over half-spaces, with a dual or without.

ghost use Rattle.pm_client.specs.Sound.{FailsRightly, IsSound, IsWideOptimum};
ghost use Rattle.pm_clients_lp.specs.Clients.{FailsBy, IsWideWithDual, over_facets, over_rows};
ghost use Rattle.pm_standard.specs.Table.{standard_kind};
ghost use Rattle.pm_object_type.specs.declared.object_type.ObjectType.TheVariants.{Polytope};
ghost use Rattle.std.specs.Prelude.{IfErr, OnOk, [], ◌<◌, ◌≡◌};

use crate::programs::{optimum_over, optimum_with_dual};
use crate::properties::{dual_in, value_in};
use crate::reading::{objective_of, put_number, rows_of};
use pm_client::{ClientFail, put_value};
use pm_incidence::with_first;
use pm_object::{Draft, View};
use pm_simplex::Sense;
use pm_types::{ObjectType, PropId, Value};
use std::alloc::Global;

/// The optimum: that over INEQUALITIES with x0 >= 0, and EQUATIONS; by wide numbers too, where these are asked for.
pub(crate) fn value_from_rows(
    sense: Sense,
    alloc: Global,
    view: &View,
    draft: &mut Draft,
    wide: bool,
) -> Result<(), ClientFail>
    requires kind { view.now.kind ≡ standard_kind (over_rows sense wide) }
    requires empty { draft.old ≡ record { kind = view.now.kind; values = [] } }
    ensures draft { draft.new.kind ≡ draft.old.kind }
    ensures sound { OnOk result (IsSound view.now draft.new) }
    ensures failed { IfErr result (FailsRightly view.now) }
    ensures fails { IfErr result (FailsBy (IsWideOptimum view.now)) }
{
    prove!(view.of() == ObjectType::Polytope);
    let equations = rows_of(alloc, view, PropId::Equations)?;
    let inequalities = rows_of(alloc, view, PropId::Inequalities)?;
    let rows = with_first(alloc, view.cols(), inequalities)?;
    let value = optimum_over(alloc, sense, &rows, &equations, objective_of(view), wide)?;
    drop(rows);
    drop(equations);
    put_number(draft, value_in(sense), value)?;
    Ok(())
}

/// The optimum over FACETS and AFFINE_HULL, and a dual that shows it; by wide numbers too, where these are asked for.
pub(crate) fn value_with_dual(
    sense: Sense,
    alloc: Global,
    view: &View,
    draft: &mut Draft,
    wide: bool,
) -> Result<(), ClientFail>
    requires kind { view.now.kind ≡ standard_kind (over_facets sense wide) }
    requires empty { draft.old ≡ record { kind = view.now.kind; values = [] } }
    ensures draft { draft.new.kind ≡ draft.old.kind }
    ensures sound { OnOk result (IsSound view.now draft.new) }
    ensures failed { IfErr result (FailsRightly view.now) }
    ensures fails { IfErr result (FailsBy (IsWideWithDual view.now)) }
{
    prove!(view.of() == ObjectType::Polytope);
    let equations = rows_of(alloc, view, PropId::AffineHull)?;
    let facets = rows_of(alloc, view, PropId::Facets)?;
    let found = optimum_with_dual(alloc, sense, &facets, &equations, objective_of(view), wide)?;
    drop(facets);
    drop(equations);
    let _ = found.dual.cols();
    put_number(draft, value_in(sense), found.value)?;
    put_value(draft, dual_in(sense), Value::Mat(found.dual))?;
    Ok(())
}
