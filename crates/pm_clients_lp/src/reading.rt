// What the clients of linear programs read, and the numbers that they put.

ghost use Rattle.pm_client.specs.Sound.{AreRowsOf, ReadsObjective};
ghost use Rattle.pm_client.specs.declared.ClientFail.TheVariants.{Memory};
ghost use Rattle.pm_clients_lp.specs.Reading.{is_of_rows};
ghost use Rattle.pm_fraction.specs.Matrices.{IsFraction};
ghost use Rattle.pm_object.specs.Reading.{drafted};
ghost use Rattle.pm_props.specs.Sets.{has};
ghost use Rattle.pm_props.specs.declared.property.PropId.TheVariants as property;
ghost use Rattle.pm_types.specs.Forms.{AreFractions};
ghost use Rattle.pm_types.specs.Values.{extended};
ghost use Rattle.pm_types.specs.Views.{extended_of};
ghost use Rattle.std.specs.Prelude.{IfErr, IfOk, IsTrue, None, OnErr, OnOk, [], ◌++◌, ◌∷◌, ◌≡◌};

use pm_client::{ClientFail, matrix_of, primitive_rows, put_value};
use pm_fraction::Fraction;
use pm_object::{Draft, View};
use pm_types::{Number, PropId, Value};
use pm_vector::Ints;
use std::alloc::Global;

/// The primitive whole rows of a source of rays, lines or half-spaces. Want of memory alone ends it.
pub(crate) fn rows_of(alloc: Global, view: &View, p: PropId) -> Result<Vec<Ints>, ClientFail>
    requires source { IsTrue (has view.now.kind.sources p) }
    requires rows { IsTrue (is_of_rows p) }
    ensures read { IfOk result (λ v. AreRowsOf view.now p v.items) }
    ensures failed { IfErr result (λ e. e ≡ Memory) }
{
    let rows = primitive_rows(alloc, matrix_of(view, p))?;
    Ok(rows)
}

/// The objective of the program that is asked.
pub(crate) fn objective_of<'b>(view: &'b View<'_>) -> &'b [Fraction]
    requires { IsTrue (has view.now.kind.sources property.LinearObjective) }
    ensures { ReadsObjective view.now result.now }
{
    matrix_of(view, PropId::LinearObjective).row(0)
}

/// The parts of a fraction, which is in lowest terms and in the range.
fn parts_of(value: Fraction) -> (i128, i128)
    ensures { IsFraction value }
{
    (value.num(), value.den())
}

/// Puts a number, whose fraction is in lowest terms and in the range. It fails only for want of memory; then nothing
/// changes.
pub(crate) fn put_number(draft: &mut Draft, p: PropId, x: Number) -> Result<(), ClientFail>
    requires target { IsTrue (has draft.old.kind.targets p) }
    requires missing { drafted p draft.old.values ≡ None }
    ensures ok { OnOk result (draft.new ≡ record draft.old {
      values = draft.old.values ++ record { property = p; value = extended (extended_of x) } ∷ [];
    }) }
    ensures fraction { AreFractions (extended (extended_of x)) }
    ensures memory { IfErr result (λ e. e ≡ Memory) }
    ensures err { OnErr result (draft.new ≡ draft.old) }
{
    if let Number::Finite(value) = x {
        let _ = parts_of(value);
    }
    put_value(draft, p, Value::Number(x))
}
