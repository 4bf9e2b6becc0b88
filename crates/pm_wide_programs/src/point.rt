// The point to which the search comes.

use crate::rows::Rows;
use crate::vertex::Vertex;
use crate::wide_row::reduce;
use pm_vector::WideInt;

/// The distance, or a greater one at which the product with a row is not negative.
fn farther(near: WideInt, far: WideInt, distance: WideInt) -> Option<WideInt> {
    let mut distance = distance;
    for _i in 0..512 {
        let product = near.plus(far.times(distance)?)?;
        if !product.is_negative() {
            return Some(distance);
        }
        distance = distance.plus(distance)?.plus(WideInt::of(1))?;
    }
    None
}

/// A number without end that is large enough for all rows.
fn distance(rows: Rows, count: usize, vertex: &Vertex) -> Option<WideInt> {
    let mut distance = WideInt::of(0);
    for place in 0..count {
        let near = rows.product(place, &vertex.near)?;
        let far = rows.product(place, &vertex.far)?;
        distance = farther(near, far, distance)?;
    }
    Some(distance)
}

/// x becomes x + t y.
fn add_times(x: &mut [WideInt], t: WideInt, y: &[WideInt]) -> Option<()> {
    for i in 0..x.len() {
        let entry = if i < y.len() { y[i] } else { WideInt::of(0) };
        x[i] = x[i].plus(t.times(entry)?)?;
    }
    Some(())
}

/// The near part becomes a point at which all rows are met, in lowest terms.
pub(crate) fn move_out(rows: Rows, count: usize, vertex: &mut Vertex) -> Option<()> {
    let distance = distance(rows, count, vertex)?;
    add_times(&mut vertex.near, distance, &vertex.far)?;
    reduce(&mut vertex.near)
}
