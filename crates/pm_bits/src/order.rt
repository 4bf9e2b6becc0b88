// Rows are ordered by length, and rows of one length by their first difference, so that they may be keys of a map.
ghost use Rattle.std.specs.Prelude.{◌≡◌, ◌↔◌, IsTrue, refl};
ghost use Rattle.std.specs.Bool.{beq};
ghost use Rattle.std.specs.Cmp.{partial_equiv_from_equiv, partial_order_from_agreeing_total};
ghost use Rattle.std.specs.Cmp.Lexicographic.{pointwise};
ghost use Rattle.std.specs.Ordering.{as_partial_cmp};
ghost use Rattle.pm_bits.specs.Sets.{row_cmp};
ghost use Rattle.pm_bits.specs.Laws.{row_cmp_total, rows_equal_equiv, rows_tie};

use crate::BitRow;
use std::cmp::Ordering;

impl PartialEq for BitRow {
    ghost eq = { pointwise beq };

    ghost laws = { partial_equiv_from_equiv rows_equal_equiv };

    fn eq(&self, other: &BitRow) -> bool
        ensures value { result ≡ pointwise beq self.now other.now }
        ensures same { IsTrue result ↔ (self.now ≡ other.now) }
    {
        self.len() == other.len() && self.eq_lanes(other)
    }
}

impl Eq for BitRow {
    ghost laws = { rows_equal_equiv };
}

impl PartialOrd for BitRow {
    ghost partial_cmp = { as_partial_cmp row_cmp };

    ghost laws = { partial_order_from_agreeing_total row_cmp row_cmp_total (λ x y. refl) rows_tie };

    fn partial_cmp(&self, other: &BitRow) -> Option<Ordering> {
        Some(self.cmp(other))
    }
}

impl Ord for BitRow {
    ghost cmp = { row_cmp };

    ghost total = { row_cmp_total };

    ghost matches_partial_cmp = { λ x y. refl };

    ghost matches_eq = { rows_tie };

    fn cmp(&self, other: &BitRow) -> Ordering {
        if self.len() == other.len() {
            self.cmp_lanes(other)
        } else {
            self.len().cmp(&other.len())
        }
    }
}
