// The properties of linear programs in each sense.

ghost use Rattle.pm_client.specs.Sound.{optimum};
ghost use Rattle.pm_clients_lp.specs.Clients.{dual, face};
ghost use Rattle.std.specs.Prelude.{◌≡◌};

use pm_simplex::Sense;
use pm_types::PropId;

/// The optimum.
pub(crate) fn value_in(sense: Sense) -> PropId
    ensures { result ≡ optimum sense }
{
    match sense {
        Sense::Maximal => PropId::MaximalValue,
        Sense::Minimal => PropId::MinimalValue,
    }
}

/// The rays at the optimum.
pub(crate) fn face_in(sense: Sense) -> PropId
    ensures { result ≡ face sense }
{
    match sense {
        Sense::Maximal => PropId::MaximalFace,
        Sense::Minimal => PropId::MinimalFace,
    }
}

/// The dual.
pub(crate) fn dual_in(sense: Sense) -> PropId
    ensures { result ≡ dual sense }
{
    match sense {
        Sense::Maximal => PropId::MaximalDual,
        Sense::Minimal => PropId::MinimalDual,
    }
}
