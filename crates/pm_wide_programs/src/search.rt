// A search for the answer by the dual simplex method from the best vertex of a box without end, in wide numbers.
// Nothing is claimed of what it finds.

use crate::multipliers::{Measure, Scaled, multipliers};
use crate::point::move_out;
use crate::rows::{Rows, product_of};
use crate::vertex::{Vertex, Violated};
use pm_dual::search_objective;
use pm_vector::WideInt;
use std::alloc::{AllocError, Global};

/// How many steps are made at most.
const STEPS: usize = 2_000;

/// What the search takes for the answer. Multipliers go over the inequalities and then the equations.
#[derive(Drop)]
pub(crate) enum Guess {
    Optimal {
        point: Vec<WideInt>,
        multipliers: Scaled,
    },
    Unbounded {
        point: Vec<WideInt>,
        direction: Vec<WideInt>,
    },
    Infeasible {
        multipliers: Scaled,
    },
}

/// What one step finds.
#[derive(Drop)]
enum Step {
    Moved,
    Lost,
    End,
    Infeasible(Violated),
}

/// One step: the side that is missed most is met.
fn make_step(
    rows: Rows,
    count: usize,
    objective: &[i128],
    vertex: &mut Vertex,
) -> Result<Step, AllocError> {
    let Some(worst) = vertex.worst(rows, count) else {
        return Ok(Step::Lost);
    };
    let Some(violated) = worst else {
        return Ok(Step::End);
    };
    match vertex.leaving(rows, objective, violated.side) {
        None => Ok(Step::Lost),
        Some(None) => Ok(Step::Infeasible(violated)),
        Some(Some(place)) => {
            if vertex.step(rows, place, violated)? {
                Ok(Step::Moved)
            } else {
                Ok(Step::Lost)
            }
        }
    }
}

/// The guess where no side is missed.
fn at_end(
    alloc: Global,
    rows: Rows,
    count: usize,
    objective: &[i128],
    vertex: Vertex,
) -> Result<Option<Guess>, AllocError> {
    let mut vertex = vertex;
    let Some(rate) = product_of(objective, &vertex.far) else {
        return Ok(None);
    };
    let Some(()) = move_out(rows, count, &mut vertex) else {
        return Ok(None);
    };
    let point = vertex.near;
    if !rate.is_zero() {
        return Ok(Some(Guess::Unbounded {
            point,
            direction: vertex.far,
        }));
    }
    let measure = Measure::Objective(objective);
    let Some(multipliers) = multipliers(alloc, rows, count, &vertex.edges, measure)? else {
        return Ok(None);
    };
    Ok(Some(Guess::Optimal { point, multipliers }))
}

/// The guess where a side that is missed gains along no edge.
fn without_point(
    alloc: Global,
    rows: Rows,
    count: usize,
    vertex: &Vertex,
    violated: Violated,
) -> Result<Option<Guess>, AllocError> {
    let measure = Measure::Missed(violated.side);
    let Some(multipliers) = multipliers(alloc, rows, count, &vertex.edges, measure)? else {
        return Ok(None);
    };
    Ok(Some(Guess::Infeasible { multipliers }))
}

/// A guess of the answer. None where a number on the way has more than 512 bits, or the steps are too many.
pub(crate) fn search(
    alloc: Global,
    rows: Rows,
    count: usize,
    objective: &[i128],
) -> Result<Option<Guess>, AllocError> {
    let guide = search_objective(alloc, objective)?;
    let mut vertex = Vertex::start(alloc, &guide)?;
    for _i in 0..STEPS {
        match make_step(rows, count, &guide, &mut vertex)? {
            Step::Moved => {}
            Step::Lost => return Ok(None),
            Step::End => return at_end(alloc, rows, count, objective, vertex),
            Step::Infeasible(violated) => {
                return without_point(alloc, rows, count, &vertex, violated);
            }
        }
    }
    Ok(None)
}
