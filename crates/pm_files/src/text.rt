// Values of properties as texts: a matrix is written entry by entry, and no JSON is made of it.

ghost use Rattle.pm_fraction.specs.Text.{text_of};
ghost use Rattle.pm_files.specs.ValueJson.{fraction_json, json_of, matrix_json, row_json, value_text};
ghost use Rattle.pm_types.specs.Views.{view_of};
ghost use Rattle.serde_json.specs.Read.{read};
ghost use Rattle.serde_json.specs.Written.{comma_if, compact_text};
ghost use Rattle.std.specs.Fmt.{signed_decimal};
ghost use Rattle.std.specs.Prelude.{IfOk, OnOk, Some, string_bytes, ◌++◌, ◌≡◌, ◌≢◌, []};

use crate::value::{is_one_row, value_json};
use itoa::Buffer;
use pm_fraction::{Fraction, Matrix};
use pm_props::PropId;
use pm_types::Value;
use std::alloc::{AllocError, Global};

/// Puts a whole number behind a text.
fn push_whole(text: &mut String, n: i128) -> Result<(), AllocError>
    ensures { OnOk result (string_bytes text.new ≡ string_bytes text.old ++ signed_decimal n) }
{
    let mut buffer = Buffer::new();
    text.push_str(buffer.format(n))
}

/// Puts a fraction behind a text.
fn push_ratio(text: &mut String, q: Fraction) -> Result<(), AllocError>
    ensures { OnOk result (string_bytes text.new ≡ string_bytes text.old ++ text_of q) }
{
    push_whole(text, q.num())?;
    if q.den() == 1 {
        return Ok(());
    }
    text.push_str("/")?;
    push_whole(text, q.den())
}

/// Puts an entry behind a text: a fraction in quotes.
fn push_entry(text: &mut String, q: Fraction) -> Result<(), AllocError>
    ensures { OnOk result (string_bytes text.new ≡ string_bytes text.old ++ compact_text (fraction_json q)) }
{
    text.push_str("\"")?;
    push_ratio(text, q)?;
    text.push_str("\"")
}

/// Puts a comma behind a text, where an element stands before.
fn push_comma(text: &mut String, later: bool) -> Result<(), AllocError>
    ensures { OnOk result (string_bytes text.new ≡ string_bytes text.old ++ comma_if later) }
{
    if later {
        return text.push_str(",");
    }
    Ok(())
}

/// Puts a row of a matrix behind a text.
fn push_row(text: &mut String, row: &[Fraction]) -> Result<(), AllocError>
    ensures { OnOk result (string_bytes text.new ≡ string_bytes text.old ++ compact_text (row_json row.now)) }
{
    text.push_str("[")?;
    for (j, q) in row.iter().enumerate() {
        push_comma(text, j != 0)?;
        push_entry(text, *q)?;
    }
    text.push_str("]")
}

/// Puts the rows of a matrix behind a text, of which there is one at least.
fn push_matrix(text: &mut String, m: &Matrix) -> Result<(), AllocError>
    requires { m.now.rows ≢ [] }
    ensures { OnOk result (string_bytes text.new ≡ string_bytes text.old
        ++ compact_text (matrix_json m.now.cols m.now.rows)) }
{
    text.push_str("[")?;
    for i in 0..m.rows() {
        push_comma(text, i != 0)?;
        push_row(text, m.row(i))?;
    }
    text.push_str("]")
}

/// The text of a matrix that has a row.
fn matrix_text(alloc: Global, m: &Matrix) -> Result<String, AllocError>
    requires { m.now.rows ≢ [] }
    ensures text { IfOk result (λ t. string_bytes t ≡ compact_text (matrix_json m.now.cols m.now.rows)) }
    ensures reads_back { IfOk result (λ t. read (string_bytes t) ≡ Some (matrix_json m.now.cols m.now.rows)) }
{
    let mut text = String::new(alloc);
    push_matrix(&mut text, m)?;
    Ok(text)
}

/// The text of the JSON of a value.
fn json_text(alloc: Global, p: PropId, v: &Value) -> Result<String, AllocError>
    ensures text { IfOk result (λ t. string_bytes t ≡ value_text p (view_of v.now)) }
    ensures reads_back { IfOk result (λ t. read (string_bytes t) ≡ Some (json_of p (view_of v.now))) }
{
    let json = value_json(alloc, p, v)?;
    let text = json.to_string(alloc)?;
    Ok(text)
}

/// The text of a value of a property: its JSON without spaces, which is read as that JSON.
pub fn value_text(alloc: Global, p: PropId, v: &Value) -> Result<String, AllocError>
    ensures text { IfOk result (λ t. string_bytes t ≡ value_text p (view_of v.now)) }
    ensures reads_back { IfOk result (λ t. read (string_bytes t) ≡ Some (json_of p (view_of v.now))) }
{
    match v {
        Value::Mat(m) if m.rows() != 0 && !is_one_row(p) => matrix_text(alloc, m),
        _ => json_text(alloc, p, v),
    }
}
