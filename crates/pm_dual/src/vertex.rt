// A vertex of a program that is bounded by a box without end, by whole numbers over one scale.

use crate::fails::SearchFail;
use crate::rows::{Row, Rows, short_numbers, sum_of_products};
use crate::wide::{Divisor, is_ratio_less, make_divisor};
use std::alloc::{AllocError, Global};

/// A row that is tight at the vertex, or a side of the box, and the ray that leaves it alone.
#[derive(Drop)]
pub(crate) struct Edge {
    pub row: Option<Row>,
    pub ray: Vec<i128>,
    /// The product of the objective with the ray.
    pub gain: i128,
    /// The product of the row that enters with the ray.
    pub slope: i128,
}

/// The vertex is `near` plus a number without end times `far`, both over the scale.
#[derive(Drop)]
pub(crate) struct Vertex {
    pub scale: i128,
    pub near: Vec<i128>,
    pub far: Vec<i128>,
    pub edges: Vec<Edge>,
}

/// A row that the vertex does not meet: its products with `far` and `near`.
#[derive(Clone, Copy)]
pub(crate) struct Violated {
    pub row: Row,
    pub far: i128,
    pub near: i128,
}

/// The parts of a vertex where their numbers are short, and whether the far one is 0.
#[derive(Clone, Copy)]
struct Short<'a> {
    near: &'a [i64],
    far: &'a [i64],
    is_near: bool,
}

/// A row of zeros but for one place.
fn unit(alloc: Global, cols: usize, place: usize, number: i128) -> Result<Vec<i128>, AllocError> {
    let mut row = Vec::new(alloc);
    for i in 0..cols {
        row.push(if i == place { number } else { 0 })?;
    }
    Ok(row)
}

/// x becomes (p x - f ray) / d, where that is small.
fn move_along(
    x: &mut [i128],
    p: i128,
    f: i128,
    ray: &[i128],
    d: Divisor,
) -> Result<(), SearchFail> {
    for i in 0..x.len() {
        let r = if i < ray.len() { ray[i] } else { 0 };
        if x[i] == 0 && (f == 0 || r == 0) {
            continue;
        }
        x[i] = d.reduced_product(x[i], p, f, r).ok_or(SearchFail::Lost)?;
    }
    Ok(())
}

impl Edge {
    /// What becomes of the edge when the row that enters is met along the pivot's ray.
    fn turn(&mut self, pivot: &Edge, d: Divisor) -> Result<(), SearchFail> {
        move_along(&mut self.ray, pivot.slope, self.slope, &pivot.ray, d)?;
        self.gain = d
            .reduced_product(self.gain, pivot.slope, self.slope, pivot.gain)
            .ok_or(SearchFail::Lost)?;
        Ok(())
    }

    /// Whether this edge is to leave before another, by what it loses for each step.
    fn is_before(&self, other: &Edge) -> bool {
        let (Some(loss), Some(other_loss)) = (self.gain.checked_neg(), other.gain.checked_neg())
        else {
            return false;
        };
        if is_ratio_less(loss, self.slope, other_loss, other.slope) {
            return true;
        }
        !is_ratio_less(other_loss, other.slope, loss, self.slope)
            && self.row.is_none()
            && other.row.is_some()
    }
}

impl Vertex {
    /// The best vertex of the box.
    pub(crate) fn start(alloc: Global, objective: &[i128]) -> Result<Vertex, AllocError> {
        let cols = objective.len();
        let mut far = Vec::new(alloc);
        let mut edges = Vec::new(alloc);
        for i in 0..cols {
            let side: i128 = if objective[i] >= 0 { 1 } else { -1 };
            far.push(if i == 0 { 0 } else { side })?;
            if i > 0 {
                let size = objective[i].checked_abs().unwrap_or(0);
                edges.push(Edge {
                    row: None,
                    ray: unit(alloc, cols, i, -side)?,
                    gain: size.checked_neg().unwrap_or(0),
                    slope: 0,
                })?;
            }
        }
        Ok(Vertex {
            scale: 1,
            near: unit(alloc, cols, 0, 1)?,
            far,
            edges,
        })
    }

    /// The products of a row, where the vertex does not meet it.
    fn violated(&self, rows: Rows, row: Row, short: Short) -> Result<Option<Violated>, SearchFail> {
        let far = if short.is_near {
            0
        } else {
            rows.quick_product(row, &self.far, short.far)
                .ok_or(SearchFail::Lost)?
        };
        if far > 0 {
            return Ok(None);
        }
        let near = rows
            .quick_product(row, &self.near, short.near)
            .ok_or(SearchFail::Lost)?;
        if far == 0 && near >= 0 {
            return Ok(None);
        }
        Ok(Some(Violated { row, far, near }))
    }

    /// The row that is missed most, by short numbers where there are some.
    pub(crate) fn worst(&self, alloc: Global, rows: Rows) -> Result<Option<Violated>, SearchFail> {
        let short_near = short_numbers(alloc, &self.near)?;
        let short_far = short_numbers(alloc, &self.far)?;
        let short = Short {
            near: &short_near,
            far: &short_far,
            is_near: self.far.iter().all(|x| *x == 0),
        };
        self.worst_by(rows, short)
    }

    /// The row that is missed most.
    fn worst_by(&self, rows: Rows, short: Short) -> Result<Option<Violated>, SearchFail> {
        let mut worst = None;
        for i in 0..rows.inequalities.len() {
            worst = worse(worst, self.violated(rows, Row::Inequality(i), short)?);
        }
        for i in 0..rows.equations.len() {
            worst = worse(worst, self.violated(rows, Row::Equation(i), short)?);
            worst = worse(worst, self.violated(rows, Row::Opposite(i), short)?);
        }
        Ok(worst)
    }

    /// Takes the products of the edges with the row that enters. The answer is the edge that leaves.
    pub(crate) fn leaving(&mut self, rows: Rows, row: Row) -> Result<Option<usize>, SearchFail> {
        let mut best: Option<usize> = None;
        for i in 0..self.edges.len() {
            self.edges[i].slope = rows
                .product(row, &self.edges[i].ray)
                .ok_or(SearchFail::Lost)?;
            if self.edges[i].slope > 0 {
                best = match best {
                    Some(k) if k < i && !self.edges[i].is_before(&self.edges[k]) => Some(k),
                    _ => Some(i),
                };
            }
        }
        Ok(best)
    }

    /// Moves along the ray of an edge until the row is met.
    pub(crate) fn step(&mut self, place: usize, violated: Violated) -> Result<(), SearchFail> {
        if place >= self.edges.len() || self.scale <= 0 {
            return Err(SearchFail::Lost);
        }
        let d = make_divisor(self.scale.unsigned_abs());
        let mut pivot = self.edges.swap_remove(place);
        move_along(&mut self.near, pivot.slope, violated.near, &pivot.ray, d)?;
        move_along(&mut self.far, pivot.slope, violated.far, &pivot.ray, d)?;
        for i in 0..self.edges.len() {
            self.edges[i].turn(&pivot, d)?;
        }
        self.scale = pivot.slope;
        pivot.row = Some(violated.row);
        self.edges.push(pivot)?;
        Ok(())
    }

    /// The vertex at a distance at which it meets all rows.
    pub(crate) fn point(&self, alloc: Global, rows: Rows) -> Result<Option<Vec<i128>>, AllocError> {
        let Some(distance) = self.distance(rows) else {
            return Ok(None);
        };
        let mut point = Vec::new(alloc);
        for i in 0..self.near.len() {
            let far = if i < self.far.len() { self.far[i] } else { 0 };
            let Some(entry) = distance
                .checked_mul(far)
                .and_then(|e| e.checked_add(self.near[i]))
            else {
                return Ok(None);
            };
            point.push(entry)?;
        }
        Ok(Some(point))
    }

    /// A number without end that is large enough for all rows.
    fn distance(&self, rows: Rows) -> Option<i128> {
        let mut distance = 0;
        for i in 0..rows.inequalities.len() {
            distance = self.farther(rows, Row::Inequality(i), distance)?;
        }
        for i in 0..rows.equations.len() {
            distance = self.farther(rows, Row::Equation(i), distance)?;
            distance = self.farther(rows, Row::Opposite(i), distance)?;
        }
        Some(distance)
    }

    /// The distance, or a greater one that the row asks for.
    fn farther(&self, rows: Rows, row: Row, distance: i128) -> Option<i128> {
        let near = rows.product(row, &self.near)?;
        if near >= 0 {
            return Some(distance);
        }
        let far = rows.product(row, &self.far)?;
        if far <= 0 {
            return None;
        }
        let needed = near.checked_neg()?.checked_div(far)?.checked_add(1)?;
        Some(distance.max(needed))
    }

    /// The product of a row with the far part.
    pub(crate) fn far_value(&self, objective: &[i128]) -> Option<i128> {
        sum_of_products(objective, &self.far)
    }
}

/// The row that is missed more.
fn worse(a: Option<Violated>, b: Option<Violated>) -> Option<Violated> {
    match (a, b) {
        (Some(x), Some(y)) => {
            if y.far < x.far || (y.far == x.far && y.near < x.near) {
                Some(y)
            } else {
                Some(x)
            }
        }
        (None, y) => y,
        (x, None) => x,
    }
}
