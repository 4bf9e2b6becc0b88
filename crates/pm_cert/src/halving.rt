// Rows of a table in the planner's order, and how one is found among them.

ghost use Rattle.std.specs.Prelude.{◌≡◌, ◌<◌, ◌↔◌, IsTrue, length, AllPairs};
ghost use Rattle.pm_weights.specs.Weights.{plus, IsAtMost};
ghost use Rattle.pm_rules.specs.Certificates.{HasRow, IsTableRowBefore};
ghost use Rattle.pm_cert.specs.Outside.{IsOutside};

use pm_rules::{Cost, PropSet, TableRow, Weight};

/// Whether the rows stand in order of cost and then of the set as a number, none twice.
pub fn are_in_order(rows: &[TableRow]) -> bool
    ensures { IsTrue result ↔ AllPairs IsTableRowBefore rows.now }
{
    for i in 1..rows.len() {
        if !is_before(rows[i - 1], rows[i]) {
            return false;
        }
    }
    true
}

// Whether a row costs less than the other, or as much, and its set is the lesser number.
fn is_before(a: TableRow, b: TableRow) -> bool
    ensures { IsTrue result ↔ IsTableRowBefore a b }
{
    a.cost.is_below(b.cost) || (a.cost == b.cost && a.set.bits() < b.set.bits())
}

/// Whether one of the rows, which are in order, has this set and costs at most the cost with the weight. Halves that
/// cannot have it are left out, so that of rows of one cost few are looked at. The dearer half comes first, since a
/// step mostly leads to a set at its cost with the weight.
pub fn has_row_in_order(rows: &[TableRow], set: PropSet, cost: Cost, weight: Weight) -> bool
    requires { AllPairs IsTableRowBefore rows.now }
    ensures { IsTrue result ↔ HasRow rows.now set (plus cost weight) }
{
    if rows.is_empty() {
        return false;
    }
    if is_outside(rows[0], rows[rows.len() - 1], set, cost, weight) {
        return false;
    }
    if rows.len() == 1 {
        return true;
    }
    let (front, back) = rows.split_at(rows.len() / 2);
    has_row_in_order(back, set, cost, weight) || has_row_in_order(front, set, cost, weight)
}

// Whether of rows from the first to the last none can have this set and cost at most the cost with the weight.
fn is_outside(first: TableRow, last: TableRow, set: PropSet, cost: Cost, weight: Weight) -> bool
    ensures { IsTrue result ↔ IsOutside first last set (plus cost weight) }
{
    !is_at_most_sum(first.cost, cost, weight)
        || (first.cost == last.cost
            && (set.bits() < first.set.bits() || last.set.bits() < set.bits()))
}

/// Whether a cost is at most another with a weight. The sums may not fit a cost.
pub fn is_at_most_sum(a: Cost, cost: Cost, weight: Weight) -> bool
    ensures { IsTrue result ↔ IsAtMost a (plus cost weight) }
{
    let class = u128::from(cost.class) + u128::from(weight.class);
    let minor = u128::from(cost.minor) + u128::from(weight.minor);
    let own = u128::from(a.class);
    own < class || (own == class && u128::from(a.minor) <= minor)
}
