// Rows of whole numbers and of fractions, from tables.

ghost use Rattle.pm_vector.specs.Rows.{HasCols, entry};
ghost use Rattle.std.specs.Prelude.{All, IsTrue, length, pos, ◌<ℤ◌, ◌<◌, ◌≡◌};

use pm_fraction::Fraction;
use pm_vector::{Ints, all_in_range};
use std::alloc::Global;
use std::process::Abort;

/// A row of these entries.
pub(crate) fn row(rt: &impl Abort, alloc: Global, entries: &[i128]) -> Ints
    ensures { length result ≡ length entries.now }
{
    assert!(rt; all_in_range(entries));
    Ints::from_vec(Vec::from_slice(alloc, entries).expect(rt, "room for a row"))
}

// Whether each row has a first entry above 0.
fn start_above(rows: &[Ints]) -> bool
    requires { All (λ x. 0 < length x) rows.now }
    ensures { IsTrue result → All (λ x. pos 0 <ℤ entry x 0) rows.now }
{
    for i in 0..rows.len() {
        if rows[i].get(0) <= 0 {
            return false;
        }
    }
    true
}

/// The rows of a table, with `cols` entries each.
pub(crate) fn rows(rt: &impl Abort, alloc: Global, cols: usize, table: &[i128]) -> Vec<Ints>
    requires { 0 < cols }
    ensures { HasCols cols result.items }
{
    let mut rows = Vec::new(alloc);
    for entries in table.chunks(cols) {
        assert!(rt; entries.len() == cols);
        rows.push(row(rt, alloc, entries))
            .expect(rt, "room for a row");
    }
    rows
}

/// The sites of a table: rows of three entries, the first above 0.
pub(crate) fn sites(rt: &impl Abort, alloc: Global, table: &[i128]) -> Vec<Ints>
    ensures cols { HasCols 3 result.items }
    ensures positive { All (λ q. pos 0 <ℤ entry q 0) result.items }
{
    let sites = rows(rt, alloc, 3, table);
    assert!(rt; start_above(&sites));
    sites
}

/// Whole numbers, as fractions.
pub(crate) fn wholes(rt: &impl Abort, alloc: Global, numbers: &[i128]) -> Vec<Fraction> {
    let mut made = Vec::new(alloc);
    for n in numbers {
        let whole = Fraction::from_whole(*n).expect(rt, "a number of the range");
        made.push(whole).expect(rt, "room for a number");
    }
    made
}
