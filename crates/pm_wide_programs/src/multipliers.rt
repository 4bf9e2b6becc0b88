// The multipliers at which the search comes.

use crate::rows::{Rows, Side, product_of, turned};
use crate::vertex::Edge;
use crate::wide_row::{lowest_terms, reduced, size_of};
use pm_vector::WideInt;
use std::alloc::{AllocError, Global};

/// What is measured along the edges: the objective, or a side that is missed.
#[derive(Clone, Copy)]
pub(crate) enum Measure<'a> {
    Objective(&'a [i128]),
    Missed(Side),
}

/// How many times a row is taken: `number` over `scale`.
#[derive(Clone, Copy)]
struct Share {
    place: usize,
    number: WideInt,
    scale: WideInt,
}

/// Multipliers of the rows over one scale.
#[derive(Drop)]
pub(crate) struct Scaled {
    pub scale: WideInt,
    pub numbers: Vec<WideInt>,
}

impl Measure<'_> {
    /// What the measure gains along a ray.
    fn along(self, rows: Rows, ray: &[WideInt]) -> Option<WideInt> {
        match self {
            Measure::Objective(objective) => product_of(objective, ray),
            Measure::Missed(side) => rows.side_product(side, ray),
        }
    }

    /// How many times the side of an edge is taken, so that the measure gains nothing along its ray. None where that is
    /// a side of the box.
    fn share(self, rows: Rows, edge: &Edge) -> Option<Option<Share>> {
        let gain = self.along(rows, &edge.ray)?;
        if gain.is_zero() {
            return Some(None);
        }
        let side = edge.tight?;
        let own = rows.side_product(side, &edge.ray)?;
        let (number, scale) = lowest_terms(gain.opposite(), own)?;
        Some(Some(Share {
            place: side.place,
            number: turned(number, side.is_opposite),
            scale,
        }))
    }
}

/// The shares of the sides of the edges.
fn shares(
    alloc: Global,
    rows: Rows,
    edges: &[Edge],
    measure: Measure,
) -> Result<Option<Vec<Share>>, AllocError> {
    let mut shares = Vec::new(alloc);
    for i in 0..edges.len() {
        match measure.share(rows, &edges[i]) {
            None => return Ok(None),
            Some(None) => {}
            Some(Some(share)) => shares.push(share)?,
        }
    }
    Ok(Some(shares))
}

/// A common multiple of the scales.
fn common_scale(shares: &[Share]) -> Option<WideInt> {
    let mut scale = WideInt::of(1);
    for i in 0..shares.len() {
        let more = reduced(shares[i].scale, size_of(scale))?;
        scale = scale.times(more)?;
    }
    Some(scale)
}

/// Adds a number to that at a place.
fn add_at(numbers: &mut [WideInt], place: usize, number: WideInt) -> Option<()> {
    if place >= numbers.len() {
        return None;
    }
    numbers[place] = numbers[place].plus(number)?;
    Some(())
}

/// Adds each share, over the scale, at its place.
fn add_shares(numbers: &mut [WideInt], shares: &[Share], scale: WideInt) -> Option<()> {
    for i in 0..shares.len() {
        let times = reduced(scale, size_of(shares[i].scale))?;
        let number = shares[i].number.times(times)?;
        add_at(numbers, shares[i].place, number)?;
    }
    Some(())
}

/// The numbers over the scale of the shares, and of the side that is missed.
fn add_all(numbers: &mut [WideInt], shares: &[Share], measure: Measure) -> Option<WideInt> {
    let scale = common_scale(shares)?;
    add_shares(numbers, shares, scale)?;
    if let Measure::Missed(side) = measure {
        add_at(numbers, side.place, turned(scale, side.is_opposite))?;
    }
    Some(scale)
}

/// So many zeros.
fn zeros(alloc: Global, count: usize) -> Result<Vec<WideInt>, AllocError> {
    let mut row = Vec::new(alloc);
    for _i in 0..count {
        row.push(WideInt::of(0))?;
    }
    Ok(row)
}

/// The multipliers with which the measure gains nothing along any edge, over one scale.
pub(crate) fn multipliers(
    alloc: Global,
    rows: Rows,
    count: usize,
    edges: &[Edge],
    measure: Measure,
) -> Result<Option<Scaled>, AllocError> {
    let Some(shares) = shares(alloc, rows, edges, measure)? else {
        return Ok(None);
    };
    let mut numbers = zeros(alloc, count)?;
    match add_all(&mut numbers, &shares, measure) {
        Some(scale) => Ok(Some(Scaled { scale, numbers })),
        None => Ok(None),
    }
}
