// The search for a least chain: sets of names in order of cost and then of the set as a number.

ghost use Rattle.std.specs.Prelude.{◌≡◌, ◌+◌, ◌^◌, ◌<◌, ◌↔◌, [], None, IsTrue, false, IsSome, IfSome, IfNone, IfOk, OnOk, All, length};
ghost use Rattle.pm_weights.specs.Weights.{IsWeight, no_cost};
ghost use Rattle.pm_plan.specs.Searches.{HasGoal, IsKnownAt, IsNext, Settles, Waits, Renews, Offers, Expands, IsExplored, IsDone, IsFull, IsEmpty, link_waiting};
ghost use Rattle.pm_limits.specs.Limits.{most_weight};

use crate::moves::Move;
use crate::track::Link;
use pm_limits::MOST_TABLE_ROWS;
use pm_rules::{Cost, PropSet, TableRow};
use std::alloc::{AllocError, Global};
use std::collections::BTreeMap;

/// A set in the order in which sets are settled.
#[derive(Clone, Copy, PartialEq, Eq, PartialOrd, Ord)]
pub struct Place {
    /// The cost counts first.
    pub cost: Cost,
    /// Among equal costs the set counts, as a number.
    pub set: PropSet,
}

/// The cheapest set met so far that has all asked names, and the end of its chain.
#[derive(Clone, Copy)]
pub struct Goal {
    /// The set and its cost.
    pub row: TableRow,
    /// The end of its chain.
    pub link: Option<Link>,
}

/// Sets that are settled, sets that wait for it, and the cheapest that has all asked names.
#[derive(Drop)]
pub struct Search {
    /// The sets that are settled, in order.
    pub rows: Vec<TableRow>,
    /// The end of the chain to each of them.
    pub links: Vec<Option<Link>>,
    /// The sets that wait, each with the end of its chain.
    pub waiting: BTreeMap<Place, Option<Link>>,
    /// The costs of all these sets.
    pub known: BTreeMap<PropSet, Cost>,
    /// The cheapest set met so far that has all asked names. It is in none of the others.
    pub goal: Option<Goal>,
}

impl Search {
    /// A search that has met no set.
    pub fn new(alloc: Global) -> Search
        ensures { IsEmpty result }
    {
        Search {
            rows: Vec::new(alloc),
            links: Vec::new(alloc),
            waiting: BTreeMap::new(alloc),
            known: BTreeMap::new(alloc),
            goal: None,
        }
    }

    // The first set that waits and the end of its chain, if the set costs less than the goal.
    fn next(&self) -> Option<(TableRow, Option<Link>)>
        ensures next { IfSome result (λ n. IsNext self.now n.0 n.1) }
        ensures below { IfSome result (λ n. HasGoal self.now n.0.cost → ⊥) }
        ensures none { IfNone result ((row : TableRow) → IsSome (link_waiting self.now row)
            → HasGoal self.now row.cost) }
    {
        let (place, link) = self.waiting.first_key_value()?;
        let Place { cost, set } = *place;
        if self.has_goal(cost) {
            None
        } else {
            Some((TableRow { set, cost }, *link))
        }
    }

    // Whether the goal costs at most so much.
    fn has_goal(&self, cost: Cost) -> bool
        ensures { IsTrue result ↔ HasGoal self.now cost }
    {
        match self.goal {
            Some(goal) => goal.row.cost.is_at_most(cost),
            None => false,
        }
    }

    // Whether the set is known at no more than the cost.
    fn is_known(&self, row: &TableRow) -> bool
        ensures { IsTrue result ↔ IsKnownAt self.now row.now }
    {
        match self.known.get(&row.set) {
            Some(cost) => cost.is_at_most(row.cost),
            None => false,
        }
    }

    // Settles a set that waits.
    fn settle(&mut self, row: &TableRow, link: Option<Link>) -> Result<(), AllocError>
        ensures { OnOk result (Settles self.old self.new row.now link) }
    {
        self.waiting.remove(&Place {
            cost: row.cost,
            set: row.set,
        });
        self.rows.push(*row)?;
        self.links.push(link)?;
        Ok(())
    }

    // Takes note of what the moves lead to from a row.
    fn expand(
        &mut self,
        moves: &[Move],
        asked: PropSet,
        row: &TableRow,
        from: usize,
    ) -> Result<(), AllocError>
        requires weights { All (λ m. IsWeight m.weight) moves.now }
        requires class { row.now.cost.class + most_weight < 2 ^ 64 }
        requires minor { row.now.cost.minor + most_weight < 2 ^ 64 }
        ensures { OnOk result (Expands moves.now (length moves.now) asked self.old self.new row.now from) }
    {
        for m in moves {
            if m.step.is_open(row.set) {
                self.offer(asked, &m.after(row), Some(Link { from, id: m.id }))?;
            }
        }
        Ok(())
    }

    /// Takes note of a set that is reached at a cost, unless it is known at no more.
    pub fn offer(
        &mut self,
        asked: PropSet,
        row: &TableRow,
        link: Option<Link>,
    ) -> Result<(), AllocError>
        ensures { OnOk result (Offers asked self.old self.new row.now link) }
    {
        if asked.is_subset(row.set) {
            if !self.has_goal(row.cost) {
                self.goal = Some(Goal { row: *row, link });
            }
            return Ok(());
        }
        if self.is_known(row) {
            return Ok(());
        }
        self.renew(row, link)
    }

    // Makes a set wait in place of a dearer one.
    fn renew(&mut self, row: &TableRow, link: Option<Link>) -> Result<(), AllocError>
        ensures { OnOk result (Renews self.old self.new row.now link) }
    {
        let had = self.known.get(&row.set).copied();
        wait(&mut self.waiting, had, row, link)?;
        self.known.insert(row.set, row.cost)?;
        Ok(())
    }
}

/// Settles sets in order, until none waits that costs less than the goal, or the rows are full. Answers the search,
/// and whether none waits.
pub fn explore(
    alloc: Global,
    moves: &[Move],
    held: PropSet,
    asked: PropSet,
) -> Result<(Search, bool), AllocError>
    requires { All (λ m. IsWeight m.weight) moves.now }
    ensures explored { IfOk result (λ r.
        IsExplored moves.now (record { set = held; cost = no_cost }) asked r.0) }
    ensures done { IfOk result (λ r. IsTrue r.1 → IsDone r.0) }
    ensures full { IfOk result (λ r. r.1 ≡ false → IsFull r.0) }
{
    let mut search = Search::new(alloc);
    let start = start_of(held);
    search.offer(asked, &start, None)?;
    'settle: while let Some((row, link)) = search.next() {
        let from = search.rows.len();
        if from >= MOST_TABLE_ROWS {
            return Ok((search, false));
        }
        search.settle(&row, link)?;
        search.expand(moves, asked, &row, from)?;
    }
    Ok((search, true))
}

// The row of the names held at the start.
fn start_of(held: PropSet) -> TableRow
    ensures { result ≡ record { set = held; cost = no_cost } }
{
    TableRow {
        set: held,
        cost: Cost::none(),
    }
}

// Makes a set wait, and no longer at the cost that it had.
fn wait(
    waiting: &mut BTreeMap<Place, Option<Link>>,
    had: Option<Cost>,
    row: &TableRow,
    link: Option<Link>,
) -> Result<(), AllocError>
    ensures { OnOk result (Waits waiting.old waiting.new had row.now link) }
{
    if let Some(had) = had {
        waiting.remove(&Place {
            cost: had,
            set: row.set,
        });
    }
    waiting.insert(
        Place {
            cost: row.cost,
            set: row.set,
        },
        link,
    )?;
    Ok(())
}
