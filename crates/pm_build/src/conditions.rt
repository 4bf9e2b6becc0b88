// The conditions, in the order in which they are tried.

ghost use Rattle.pm_build.specs.Conditions.{are_few, cyclic_refusal, polar_reads, polar_refusal, product_reads, product_refusal, pyramid_reads, pyramid_refusal, shape_refusal, sum_count, sum_reads, sum_refusal};
ghost use Rattle.pm_object.specs.Known.{IsKnown, IsOfRows, IsReadable};
ghost use Rattle.pm_props.specs.declared.property.PropId.TheVariants.{Vertices};
ghost use Rattle.std.specs.Prelude.{[], ◌∷◌, ◌≡◌};

use crate::reading::are_points;
use crate::shapes::is_cyclic_size;
use crate::summands::count_points;
use pm_limits::{MOST_COLUMNS, MOST_DIMENSIONS, MOST_ROWS};
use pm_object::{Condition, Object, cols_at, is_polytope, is_true, matrix_at};
use pm_types::PropId;

pub(crate) fn shape_refusal(d: u32) -> Option<Condition>
    ensures { result ≡ shape_refusal d }
{
    if d as usize <= MOST_DIMENSIONS {
        None
    } else {
        Some(Condition::Size)
    }
}

pub(crate) fn cyclic_refusal(d: u32, n: u32) -> Option<Condition>
    ensures { result ≡ cyclic_refusal d n }
{
    if is_cyclic_size(d, n) {
        None
    } else {
        Some(Condition::Size)
    }
}

pub(crate) fn polar_refusal(o: &Object) -> Option<Condition>
    requires { IsReadable polar_reads o.now.state }
    ensures { result ≡ polar_refusal o.now.state }
{
    if !is_polytope(o) {
        return Some(Condition::OfType);
    }
    if !is_true(o, PropId::Bounded) {
        return Some(Condition::Bounded);
    }
    if !is_true(o, PropId::FullDim) {
        return Some(Condition::FullDim);
    }
    if !is_true(o, PropId::Centered) {
        return Some(Condition::Centered);
    }
    if !are_points(matrix_at(o, PropId::Facets)) {
        return Some(Condition::Rows);
    }
    None
}

// Whether both objects together have at most `MOST_ROWS` rows of the property.
fn are_few(p: PropId, a: &Object, b: &Object) -> bool
    requires rows { IsOfRows p }
    requires first { IsKnown (p ∷ []) a.now.state }
    requires second { IsKnown (p ∷ []) b.now.state }
    ensures { result ≡ are_few p a.now.state b.now.state }
{
    matrix_at(a, p).rows() + matrix_at(b, p).rows() <= MOST_ROWS
}

pub(crate) fn product_refusal(a: &Object, b: &Object) -> Option<Condition>
    requires first { IsReadable product_reads a.now.state }
    requires second { IsReadable product_reads b.now.state }
    ensures { result ≡ product_refusal a.now.state b.now.state }
{
    if !(is_polytope(a) && is_polytope(b)) {
        return Some(Condition::OfType);
    }
    if cols_at(a) + cols_at(b) > MOST_COLUMNS + 1 {
        return Some(Condition::Columns);
    }
    if !(are_few(PropId::Facets, a, b) && are_few(PropId::AffineHull, a, b)) {
        return Some(Condition::Rows);
    }
    None
}

pub(crate) fn pyramid_refusal(o: &Object) -> Option<Condition>
    requires { IsReadable pyramid_reads o.now.state }
    ensures { result ≡ pyramid_refusal o.now.state }
{
    if !is_polytope(o) {
        return Some(Condition::OfType);
    }
    if cols_at(o) > MOST_DIMENSIONS {
        return Some(Condition::Columns);
    }
    if matrix_at(o, PropId::Vertices).rows() >= MOST_ROWS {
        return Some(Condition::Rows);
    }
    None
}

// How many points the sum has.
fn sum_count(a: &Object, b: &Object) -> usize
    requires first { IsKnown (Vertices ∷ []) a.now.state }
    requires second { IsKnown (Vertices ∷ []) b.now.state }
    ensures { result ≡ sum_count a.now.state b.now.state }
{
    let first = matrix_at(a, PropId::Vertices);
    let second = matrix_at(b, PropId::Vertices);
    let points = count_points(first);
    let others = count_points(second);
    points * others + (first.rows() - points + (second.rows() - others))
}

pub(crate) fn sum_refusal(a: &Object, b: &Object) -> Option<Condition>
    requires first { IsReadable sum_reads a.now.state }
    requires second { IsReadable sum_reads b.now.state }
    ensures { result ≡ sum_refusal a.now.state b.now.state }
{
    if !(is_polytope(a) && is_polytope(b)) {
        return Some(Condition::OfType);
    }
    if !(is_true(a, PropId::Feasible) && is_true(b, PropId::Feasible)) {
        return Some(Condition::Feasible);
    }
    if cols_at(a) != cols_at(b) {
        return Some(Condition::Columns);
    }
    if !(sum_count(a, b) <= MOST_ROWS && are_few(PropId::LinealitySpace, a, b)) {
        return Some(Condition::Rows);
    }
    None
}
