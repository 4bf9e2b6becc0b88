// A search for the answer by the dual simplex method from the best vertex of a box without end. Nothing is claimed of
// what it finds.

use crate::fails::SearchFail;
use crate::rows::{Row, Rows};
use crate::search_objectives::{is_constant, search_objective};
use crate::vertex::{Vertex, Violated};
use std::alloc::{AllocError, Global};

/// How many steps are made at most.
const STEPS: usize = 20_000;

/// What the search takes for the answer. Multipliers go over the inequalities and then the equations.
#[derive(Drop)]
pub(crate) enum Guess {
    Optimal {
        point: Vec<i128>,
        multipliers: Vec<i128>,
    },
    Unbounded {
        point: Vec<i128>,
        direction: Vec<i128>,
    },
    Infeasible {
        constant: i128,
        multipliers: Vec<i128>,
    },
}

/// No multiplier for any row.
fn no_multipliers(alloc: Global, rows: Rows) -> Result<Vec<i128>, AllocError> {
    let mut multipliers = Vec::new(alloc);
    for _i in 0..rows.inequalities.len() {
        multipliers.push(0)?;
    }
    for _i in 0..rows.equations.len() {
        multipliers.push(0)?;
    }
    Ok(multipliers)
}

/// The multipliers that the gains of the edges are: none where a side of the box has one.
fn gain_multipliers(
    alloc: Global,
    rows: Rows,
    vertex: &Vertex,
) -> Result<Option<Vec<i128>>, AllocError> {
    let mut multipliers = no_multipliers(alloc, rows)?;
    for i in 0..vertex.edges.len() {
        let gain = vertex.edges[i].gain;
        if gain == 0 {
            continue;
        }
        let added = match (vertex.edges[i].row, gain.checked_neg()) {
            (Some(row), Some(number)) => rows.add_multiplier(&mut multipliers, row, number),
            _ => None,
        };
        if added.is_none() {
            return Ok(None);
        }
    }
    Ok(Some(multipliers))
}

/// The multipliers that the slopes of the edges and the row that no edge meets are.
fn slope_multipliers(
    alloc: Global,
    rows: Rows,
    vertex: &Vertex,
    row: Row,
) -> Result<Option<Vec<i128>>, AllocError> {
    let mut multipliers = no_multipliers(alloc, rows)?;
    if rows
        .add_multiplier(&mut multipliers, row, vertex.scale)
        .is_none()
    {
        return Ok(None);
    }
    for i in 0..vertex.edges.len() {
        let slope = vertex.edges[i].slope;
        if slope == 0 {
            continue;
        }
        let added = match (vertex.edges[i].row, slope.checked_neg()) {
            (Some(tight), Some(number)) => rows.add_multiplier(&mut multipliers, tight, number),
            _ => None,
        };
        if added.is_none() {
            return Ok(None);
        }
    }
    Ok(Some(multipliers))
}

/// The guess where no row is missed.
fn at_end(
    alloc: Global,
    rows: Rows,
    objective: &[i128],
    vertex: Vertex,
) -> Result<Option<Guess>, AllocError> {
    let Some(point) = vertex.point(alloc, rows)? else {
        return Ok(None);
    };
    if vertex.far_value(objective) != Some(0) {
        return Ok(Some(Guess::Unbounded {
            point,
            direction: vertex.far,
        }));
    }
    if is_constant(objective) {
        let multipliers = no_multipliers(alloc, rows)?;
        return Ok(Some(Guess::Optimal { point, multipliers }));
    }
    let Some(multipliers) = gain_multipliers(alloc, rows, &vertex)? else {
        return Ok(None);
    };
    Ok(Some(Guess::Optimal { point, multipliers }))
}

/// What one step finds.
#[derive(Drop)]
enum Step {
    Moved,
    End,
    Infeasible(Violated),
}

/// One step: the row that is missed most is met.
fn make_step(alloc: Global, rows: Rows, vertex: &mut Vertex) -> Result<Step, SearchFail> {
    let Some(violated) = vertex.worst(alloc, rows)? else {
        return Ok(Step::End);
    };
    let Some(place) = vertex.leaving(rows, violated.row)? else {
        return Ok(Step::Infeasible(violated));
    };
    vertex.step(place, violated)?;
    Ok(Step::Moved)
}

/// A guess of the answer. None where the numbers are not small, or the steps are too many.
pub(crate) fn search(
    alloc: Global,
    rows: Rows,
    objective: &[i128],
) -> Result<Option<Guess>, AllocError> {
    let guide = search_objective(alloc, objective)?;
    let mut vertex = Vertex::start(alloc, &guide)?;
    for _i in 0..STEPS {
        match make_step(alloc, rows, &mut vertex) {
            Ok(Step::Moved) => {}
            Ok(Step::End) => return at_end(alloc, rows, objective, vertex),
            Ok(Step::Infeasible(violated)) => {
                let Some(multipliers) = slope_multipliers(alloc, rows, &vertex, violated.row)?
                else {
                    return Ok(None);
                };
                return Ok(Some(Guess::Infeasible {
                    constant: violated.near,
                    multipliers,
                }));
            }
            Err(SearchFail::Lost) => return Ok(None),
            Err(SearchFail::Memory) => return Err(AllocError),
        }
    }
    Ok(None)
}
