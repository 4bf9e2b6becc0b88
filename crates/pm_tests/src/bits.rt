// Bit rows of every length from 0 to 200, which end within a lane, with a lane, or behind one.

ghost use Rattle.std.specs.Prelude.{length, ◌≡◌};

use pm_bits::{BitRow, BitTable};
use std::alloc::Global;
use std::cmp::Ordering;
use std::process::Abort;

// The row of a length with the numbers below an end.
fn below(rt: &impl Abort, alloc: Global, len: usize, end: usize) -> BitRow
    ensures { length result ≡ len }
{
    let mut row = BitRow::with_len(alloc, len).expect(rt, "room for a row");
    for k in 0..end {
        assert!(rt; k < row.len());
        row.set(k);
    }
    assert!(rt; row.len() == len);
    row
}

// The last number of a row is seen at each length.
#[test]
fn last_numbers_are_seen(rt: HostRuntime) {
    let alloc = rt.alloc();
    for len in 0..201usize {
        let full = below(&rt, alloc, len, len);
        assert_eq!(rt; full.count(), len, "of {len}");
        assert!(rt; full.eq_lanes(&full) && full.cmp_lanes(&full) == Ordering::Equal);
        if len > 0 {
            let less = below(&rt, alloc, len, len - 1);
            assert!(rt; full.contains(&less) && !less.contains(&full), "of {len}");
            assert!(rt; !full.eq_lanes(&less) && !less.eq_lanes(&full), "of {len}");
            assert!(rt; full.cmp_lanes(&less) == Ordering::Less, "of {len}");
            assert!(rt; less.cmp_lanes(&full) == Ordering::Greater, "of {len}");
            let mut met = below(&rt, alloc, len, 0);
            full.meet_into(&less, &mut met);
            assert!(rt; met.count() == len - 1 && met.eq_lanes(&less), "of {len}");
        }
    }
}

// A table of rows of 70 numbers: two numbers are in one row, and in no other.
#[test]
fn tables_have_rows(rt: HostRuntime) {
    let alloc = rt.alloc();
    let mut row = below(&rt, alloc, 70, 0);
    row.set(3);
    row.set(69);
    assert!(rt; row.count() == 2 && row.get(3) && row.get(69) && !row.get(68));
    let mut table = BitTable::new(alloc, 70);
    assert!(rt; table.push(below(&rt, alloc, 70, 69)).is_ok());
    assert!(rt; table.row_len() == row.len() && !table.other_contains(&row, 1, 2));
    assert!(rt; table.push(below(&rt, alloc, 70, 70)).is_ok());
    assert!(rt; table.row_len() == row.len() && table.other_contains(&row, 0, 2));
    assert!(rt; !table.other_contains(&row, 0, 1));
}
