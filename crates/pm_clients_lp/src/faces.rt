// The clients that find the rays at an optimum.

ghost use Rattle.pm_client.specs.Sound.{FailsRightly, IsSound, IsWideFace, optimum};
ghost use Rattle.pm_client.specs.declared.ClientFail.TheVariants.{Memory};
ghost use Rattle.pm_clients_lp.specs.Clients.{FailsBy, at_face};
ghost use Rattle.pm_clients_lp.specs.Reading.{ArePlacesAt};
ghost use Rattle.pm_object.specs.Reading.{fact_of};
ghost use Rattle.pm_standard.specs.Table.{standard_kind};
ghost use Rattle.pm_types.specs.Forms.{is_counts_form};
ghost use Rattle.pm_types.specs.Values.{extended};
ghost use Rattle.pm_types.specs.Views.{extended_of};
ghost use Rattle.std.specs.Prelude.{IfErr, IfOk, IsTrue, OnOk, Some, [], true, ◌≡◌};

use crate::optima::places_of_value_by;
use crate::properties::{face_in, value_in};
use crate::reading::{objective_of, rows_of};
use pm_client::{ClientFail, number_of, put_value};
use pm_object::{Draft, View};
use pm_simplex::Sense;
use pm_types::{Counts, Number, ObjectType, PropId, Value};
use std::alloc::Global;

/// The places of the rows of VERTICES at which the objective has its optimum, which is handed in; none where that is
/// an infinity. By wide numbers too, where these are asked for.
fn places_at(
    sense: Sense,
    alloc: Global,
    view: &View,
    number: Number,
    wide: bool,
) -> Result<Vec<i64>, ClientFail>
    requires kind { view.now.kind ≡ standard_kind (at_face sense wide) }
    requires value { fact_of (optimum sense) view.now.facts
        ≡ Some (extended (extended_of number)) }
    ensures places { IfOk result (λ ks. ArePlacesAt view.now sense
        (extended_of number) ks.items) }
    ensures form { IfOk result (λ ks. IsTrue (is_counts_form ks.items)) }
    ensures fails { IfErr result (FailsBy (IsWideFace view.now)) }
    ensures total { wide ≡ true → IfErr result (λ e. e ≡ Memory) }
{
    prove!(view.of() == ObjectType::Polytope);
    let rays = rows_of(alloc, view, PropId::Vertices)?;
    let objective = objective_of(view);
    match number {
        Number::Finite(value) => {
            let places = places_of_value_by(alloc, sense, objective, value, &rays, wide)?;
            Ok(places)
        }
        _ => Ok(Vec::new(alloc)),
    }
}

/// The rays at the optimum, which was found; by wide numbers too, where these are asked for.
pub(crate) fn face_at_value(
    sense: Sense,
    alloc: Global,
    view: &View,
    draft: &mut Draft,
    wide: bool,
) -> Result<(), ClientFail>
    requires kind { view.now.kind ≡ standard_kind (at_face sense wide) }
    requires empty { draft.old ≡ record { kind = view.now.kind; values = [] } }
    ensures draft { draft.new.kind ≡ draft.old.kind }
    ensures sound { OnOk result (IsSound view.now draft.new) }
    ensures failed { IfErr result (FailsRightly view.now) }
    ensures fails { IfErr result (FailsBy (IsWideFace view.now)) }
    ensures total { wide ≡ true → IfErr result (λ e. e ≡ Memory) }
{
    prove!(view.of() == ObjectType::Polytope);
    let number = number_of(view, value_in(sense));
    let places = places_at(sense, alloc, view, number, wide)?;
    put_value(
        draft,
        face_in(sense),
        Value::Counts(Counts::from_vec(places)),
    )?;
    Ok(())
}
