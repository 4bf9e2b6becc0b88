// Tables of plans.

use pm_props::PropSet;
use pm_weights::Cost;

/// A set of properties and the cost at which a chain reaches it.
#[derive(Clone, Copy, Debug, PartialEq, Eq)]
pub struct TableRow {
    /// The set.
    pub set: PropSet,
    /// The cost.
    pub cost: Cost,
}

/// The sets that a planner met.
#[derive(Debug, Drop)]
pub struct Table {
    /// The rows, in order of cost and then of the set as a number.
    pub rows: Vec<TableRow>,
}

/// What a table is to show.
#[derive(Clone, Copy, PartialEq, Eq)]
pub enum Claim {
    /// No chain costs less.
    Least(Cost),
    /// There is no chain.
    NoChain,
}
