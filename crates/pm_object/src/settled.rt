// What goes without saying of an object.

ghost use Rattle.pm_object.specs.State.{only_if, settled, settled_value};
ghost use Rattle.pm_object.specs.Views.{held_seen};
ghost use Rattle.pm_types.specs.Views.{view_of};
ghost use Rattle.std.specs.Prelude.{IfOk, OnOk, map, ◌++◌, ◌<◌, ◌^◌, ◌≡◌};

use crate::held::{Held, Origin};
use pm_fraction::Matrix;
use pm_types::{PropId, Value};
use std::alloc::{AllocError, Global};

/// Puts a property behind the others, where the condition holds.
pub fn push_if(names: &mut Vec<PropId>, condition: bool, p: PropId) -> Result<(), AllocError>
    ensures { OnOk result (names.new.items ≡ names.old.items ++ only_if condition p) }
{
    if condition {
        names.push(p)?;
    }
    Ok(())
}

/// The values of these properties that go without saying, in n columns.
pub fn settled_values(alloc: Global, n: usize, names: &[PropId]) -> Result<Vec<Held>, AllocError>
    requires { n < 2 ^ 63 }
    ensures { IfOk result (λ v. map held_seen v.items ≡ map (settled n) names.now) }
{
    let mut values = Vec::new(alloc);
    for name in names {
        values.push(settled_at(alloc, n, *name))?;
    }
    Ok(values)
}

fn settled_at(alloc: Global, n: usize, p: PropId) -> Held
    requires { n < 2 ^ 63 }
    ensures { held_seen result ≡ settled n p }
{
    Held {
        place: None,
        id: p,
        value: settled_value(alloc, n, p),
        origin: Origin::Given,
    }
}

fn settled_value(alloc: Global, n: usize, p: PropId) -> Value
    requires { n < 2 ^ 63 }
    ensures { view_of result ≡ settled_value n p }
{
    match p {
        PropId::ConeAmbientDim => Value::Int(n as i64),
        _ => Value::Mat(Matrix::new(alloc, 0)),
    }
}
