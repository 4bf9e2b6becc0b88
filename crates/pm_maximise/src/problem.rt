// A linear program as three lines of JSON, and its answer as a line.

ghost use Rattle.pm_vector.specs.Rows.{HasCols};
ghost use Rattle.std.specs.Prelude.{IfOk, IsTrue, length, ◌≡◌, ◌<◌, ◌≤◌, ◌^◌};
ghost use Rattle.pm_limits.specs.Limits.{most_rows};

use pm_fraction::{Fraction, Matrix, RowsFail};
use pm_json::{ValueFail, read_value};
use pm_limits::{MOST_COLUMNS, MOST_ROWS};
use pm_simplex::{LpAnswer, LpFail, maximise_rows};
use pm_types::{PropId, Value};
use pm_vector::Ints;
use std::alloc::{AllocError, Global};

/// Why there is no answer.
#[derive(Drop)]
pub(crate) enum Fault {
    /// The text is no linear program.
    Refused,
    /// Memory ran out.
    Memory,
}

impl From<AllocError> for Fault {
    fn from(_e: AllocError) -> Fault {
        Fault::Memory
    }
}

// The matrix of a line.
fn matrix_of(alloc: Global, line: &str) -> Result<Matrix, Fault> {
    let json = match serde_json::Value::from_str(alloc, line) {
        Ok(json) => json,
        Err(e) if e.is_memory() => return Err(Fault::Memory),
        Err(_) => return Err(Fault::Refused),
    };
    match read_value(alloc, PropId::Points, &json) {
        Ok(Value::Mat(matrix)) => Ok(matrix),
        Err(ValueFail::Memory) => Err(Fault::Memory),
        _ => Err(Fault::Refused),
    }
}

// Whether each row has so many entries.
fn have_cols(rows: &[Ints], cols: usize) -> bool
    ensures { IsTrue result → HasCols cols rows.now }
{
    for row in rows {
        if row.as_slice().len() != cols {
            return false;
        }
    }
    true
}

// The primitive whole rows of a line's matrix, each with so many entries; at most `MOST_ROWS`.
fn rows_of(alloc: Global, line: &str, cols: usize) -> Result<Vec<Ints>, Fault>
    ensures cols { IfOk result (λ rows. HasCols cols rows.items) }
    ensures few { IfOk result (λ rows. length rows.items ≤ most_rows) }
{
    let matrix = matrix_of(alloc, line)?;
    if matrix.rows() > MOST_ROWS {
        return Err(Fault::Refused);
    }
    let rows = match matrix.to_primitive_rows(alloc) {
        Ok(rows) => rows,
        Err(RowsFail::Memory) => return Err(Fault::Memory),
        Err(RowsFail::Wide { .. }) => return Err(Fault::Refused),
    };
    if rows.len() > MOST_ROWS || !have_cols(&rows, cols) {
        return Err(Fault::Refused);
    }
    Ok(rows)
}

// What is written of a greatest value.
fn optimal_line(alloc: Global, value: Fraction) -> Result<String, Fault> {
    let mut line = String::from_str(alloc, "optimal ")?;
    line.push_str(&value.text(alloc)?)?;
    line.push('\n')?;
    Ok(line)
}

// The answer as a line.
fn line_of(alloc: Global, answer: &LpAnswer) -> Result<String, Fault> {
    match answer {
        LpAnswer::Optimal { value, .. } => optimal_line(alloc, *value),
        LpAnswer::Unbounded { .. } => Ok(String::from_str(alloc, "unbounded\n")?),
        LpAnswer::Infeasible { .. } => Ok(String::from_str(alloc, "infeasible\n")?),
    }
}

// The answer of the program with this objective.
fn solved(
    alloc: Global,
    inequalities: &str,
    equations: &str,
    objective: &[Fraction],
) -> Result<String, Fault>
    requires some { 0 < length objective.now }
    requires few { length objective.now ≤ 33 }
{
    let a = rows_of(alloc, inequalities, objective.len())?;
    let b = rows_of(alloc, equations, objective.len())?;
    match maximise_rows(alloc, &a, &b, objective) {
        Ok(answer) => line_of(alloc, &answer),
        Err(LpFail::Wide(_)) => Ok(String::from_str(alloc, "wide\n")?),
        Err(LpFail::Memory) => Err(Fault::Memory),
    }
}

/// The answer of the program of a text, as a line.
pub(crate) fn answer_line(alloc: Global, text: &str) -> Result<String, Fault> {
    let mut lines = text.lines();
    let (Some(inequalities), Some(equations), Some(objective), None) = (
        lines.next(),
        lines.next(),
        lines.next(),
        lines.next(),
    ) else {
        return Err(Fault::Refused);
    };
    let matrix = matrix_of(alloc, objective)?;
    if matrix.rows() != 1 || matrix.cols() == 0 || matrix.cols() > MOST_COLUMNS {
        return Err(Fault::Refused);
    }
    solved(alloc, inequalities, equations, matrix.row(0))
}
