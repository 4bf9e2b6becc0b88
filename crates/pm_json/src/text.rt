// Values of properties from JSON texts.

ghost use Rattle.pm_json.specs.Texts.{given_by, given_failing, value};
ghost use Rattle.pm_json.specs.declared.fail.ValueFail.TheVariants.{Memory};
ghost use Rattle.pm_types.specs.Forms.{is_formed};
ghost use Rattle.pm_types.specs.Views.{view_of};
ghost use Rattle.std.specs.Prelude.{IfErr, IfOk, IsTrue, ◌≡◌, ◌≢◌};

use crate::fail::ValueFail;
use crate::value::read_value;
use pm_props::PropId;
use pm_types::Value as PropertyValue;
use serde_json::Value;
use std::alloc::Global;
use thiserror::Error;

/// Why a JSON text gives no value of a property.
#[derive(Clone, Copy, Debug, PartialEq, Eq, Error)]
pub enum TextFail {
    /// It is no JSON.
    #[error("json")]
    NotJson,
    /// Its JSON value is no value of the property, or there is not enough memory.
    #[error("{0}")]
    Fault(ValueFail),
}

/// The value of a property that a JSON text gives; where it gives none, why.
pub fn read_text(alloc: Global, p: PropId, text: &str) -> Result<PropertyValue, TextFail>
    ensures ok { IfOk result (λ v. given_by p text.now ≡ value (view_of v)) }
    ensures formed { IfOk result (λ v. IsTrue (is_formed p (view_of v))) }
    ensures failed { IfErr result (λ e. e ≢ TextFail.Fault Memory → given_by p text.now ≡ given_failing e) }
{
    let data = match Value::from_str(alloc, text) {
        Ok(data) => data,
        Err(e) => {
            if e.is_memory() {
                return Err(TextFail::Fault(ValueFail::Memory));
            }
            return Err(TextFail::NotJson);
        }
    };
    match read_value(alloc, p, &data) {
        Ok(v) => Ok(v),
        Err(fail) => Err(TextFail::Fault(fail)),
    }
}
