// A vertex of a program that is bounded by a box without end, by wide rows in lowest terms.

use crate::rows::{Rows, Side, product_of, turned};
use crate::wide_row::{is_less, lowest_terms, move_along};
use pm_vector::WideInt;
use std::alloc::{AllocError, Global};

/// A row that is tight at the vertex, or a side of the box, and a ray that leaves it alone.
#[derive(Drop)]
pub(crate) struct Edge {
    pub tight: Option<Side>,
    pub ray: Vec<WideInt>,
}

/// The vertex is `near` plus a number without end times `far`, each taken a positive number of times.
#[derive(Drop)]
pub(crate) struct Vertex {
    pub near: Vec<WideInt>,
    pub far: Vec<WideInt>,
    pub edges: Vec<Edge>,
}

/// A side that the vertex does not meet: its products with `far` and `near`.
#[derive(Clone, Copy)]
pub(crate) struct Violated {
    pub side: Side,
    pub far: WideInt,
    pub near: WideInt,
}

/// An edge that may leave: what the objective loses for what the side that enters gains, in lowest terms.
#[derive(Clone, Copy)]
struct Leaving {
    place: usize,
    loss: WideInt,
    gain: WideInt,
    is_tight: bool,
}

/// A row of zeros but for one place.
fn unit(
    alloc: Global,
    cols: usize,
    place: usize,
    number: i128,
) -> Result<Vec<WideInt>, AllocError> {
    let mut row = Vec::new(alloc);
    for i in 0..cols {
        row.push(WideInt::of(if i == place { number } else { 0 }))?;
    }
    Ok(row)
}

impl Violated {
    /// Whether this side is missed more than another.
    fn is_worse(self, other: Violated) -> Option<bool> {
        if is_less(self.far, other.far)? {
            return Some(true);
        }
        if is_less(other.far, self.far)? {
            return Some(false);
        }
        is_less(self.near, other.near)
    }
}

impl Leaving {
    /// Whether this edge is to leave before another: the less is lost, and a side of the box first.
    fn is_before(self, other: Leaving) -> Option<bool> {
        let here = self.loss.times(other.gain)?;
        let there = other.loss.times(self.gain)?;
        if is_less(here, there)? {
            return Some(true);
        }
        Some(!is_less(there, here)? && !self.is_tight && other.is_tight)
    }
}

/// The side that is missed more.
fn worse(worst: Option<Violated>, next: Option<Violated>) -> Option<Option<Violated>> {
    match (worst, next) {
        (Some(a), Some(b)) => Some(if b.is_worse(a)? { next } else { worst }),
        (None, _) => Some(next),
        (_, None) => Some(worst),
    }
}

impl Edge {
    /// What becomes of the edge when the side that enters is met along the pivot's ray.
    fn turn(&mut self, rows: Rows, pivot: &Edge, side: Side, gain: WideInt) -> Option<()> {
        let other = rows.side_product(side, &self.ray)?;
        move_along(&mut self.ray, gain, other, &pivot.ray)
    }

    /// How the edge may leave when the side enters: not where the side does not gain along it, or the edge is that of
    /// an equation.
    fn leaving(
        &self,
        rows: Rows,
        objective: &[i128],
        side: Side,
        place: usize,
    ) -> Option<Option<Leaving>> {
        let is_free = match self.tight {
            Some(tight) => !rows.is_equation(tight.place),
            None => true,
        };
        let gain = rows.side_product(side, &self.ray)?;
        if !is_free || !gain.is_positive() {
            return Some(None);
        }
        let loss = product_of(objective, &self.ray)?.opposite();
        let (loss, gain) = lowest_terms(loss, gain)?;
        Some(Some(Leaving {
            place,
            loss,
            gain,
            is_tight: self.tight.is_some(),
        }))
    }
}

impl Vertex {
    /// The best vertex of the box.
    pub(crate) fn start(alloc: Global, objective: &[i128]) -> Result<Vertex, AllocError> {
        let cols = objective.len();
        let mut far = Vec::new(alloc);
        let mut edges = Vec::new(alloc);
        for i in 0..cols {
            let side: i128 = if objective[i] >= 0 { 1 } else { -1 };
            far.push(WideInt::of(if i == 0 { 0 } else { side }))?;
            if i > 0 {
                edges.push(Edge {
                    tight: None,
                    ray: unit(alloc, cols, i, -side)?,
                })?;
            }
        }
        Ok(Vertex {
            near: unit(alloc, cols, 0, 1)?,
            far,
            edges,
        })
    }

    /// The products of a row, where the vertex does not meet it.
    fn violated(&self, rows: Rows, place: usize) -> Option<Option<Violated>> {
        let far = rows.product(place, &self.far)?;
        let near = rows.product(place, &self.near)?;
        let is_above = far.is_positive() || (far.is_zero() && near.is_positive());
        let is_opposite = is_above && rows.is_equation(place);
        if (is_above && !is_opposite) || (far.is_zero() && near.is_zero()) {
            return Some(None);
        }
        Some(Some(Violated {
            side: Side { place, is_opposite },
            far: turned(far, is_opposite),
            near: turned(near, is_opposite),
        }))
    }

    /// The side that is missed most.
    pub(crate) fn worst(&self, rows: Rows, count: usize) -> Option<Option<Violated>> {
        let mut worst = None;
        for place in 0..count {
            worst = worse(worst, self.violated(rows, place)?)?;
        }
        Some(worst)
    }

    /// The edge that leaves for a side.
    pub(crate) fn leaving(
        &self,
        rows: Rows,
        objective: &[i128],
        side: Side,
    ) -> Option<Option<usize>> {
        let mut best: Option<Leaving> = None;
        for i in 0..self.edges.len() {
            let Some(next) = self.edges[i].leaving(rows, objective, side, i)? else {
                continue;
            };
            best = match best {
                Some(other) if !next.is_before(other)? => Some(other),
                _ => Some(next),
            };
        }
        Some(best.map(|edge| edge.place))
    }

    /// Moves along the ray of the pivot until the side is met.
    fn turn(&mut self, rows: Rows, pivot: &Edge, violated: Violated) -> Option<()> {
        let gain = rows.side_product(violated.side, &pivot.ray)?;
        move_along(&mut self.near, gain, violated.near, &pivot.ray)?;
        move_along(&mut self.far, gain, violated.far, &pivot.ray)?;
        for i in 0..self.edges.len() {
            self.edges[i].turn(rows, pivot, violated.side, gain)?;
        }
        Some(())
    }

    /// The side enters in the place of an edge. The answer is whether all numbers have 512 bits.
    pub(crate) fn step(
        &mut self,
        rows: Rows,
        place: usize,
        violated: Violated,
    ) -> Result<bool, AllocError> {
        if place >= self.edges.len() {
            return Ok(false);
        }
        let mut pivot = self.edges.swap_remove(place);
        let is_made = self.turn(rows, &pivot, violated).is_some();
        pivot.tight = Some(violated.side);
        self.edges.push(pivot)?;
        Ok(is_made)
    }
}
