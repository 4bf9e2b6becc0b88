// Rows that are chosen, and beside their marks the rows of their programs.

ghost use Rattle.pm_redund.specs.Keeping.{IsChosen};
ghost use Rattle.std.specs.List.{count_by};
ghost use Rattle.std.specs.Prelude.{IfOk, OnOk, length, slice_set, take, true, ◌<◌, ◌≡◌, ◌≤◌};

use crate::generated::{headed, lifted_rows};
use pm_vector::Ints;
use std::alloc::{AllocError, Global};

/// Marks of rows, and the marked ones as rows of a program, in list order.
#[derive(Drop)]
pub(crate) struct Chosen {
    pub marks: Vec<bool>,
    pub lifted: Vec<Ints>,
}

/// The rows that are marked.
pub(crate) fn chosen_of(
    alloc: Global,
    rows: &[Ints],
    marks: Vec<bool>,
) -> Result<Chosen, AllocError>
    requires { length marks.items ≡ length rows.now }
    ensures marks { IfOk result (λ c. c.marks.items ≡ marks.items) }
    ensures chosen { IfOk result (IsChosen rows.now) }
{
    let lifted = lifted_rows(alloc, rows, &marks)?;
    Ok(Chosen { marks, lifted })
}

/// How many of the marks before a place are set.
fn marked_before(marks: &[bool], i: usize) -> usize
    requires { i ≤ length marks.now }
    ensures { result ≡ count_by (λ b. b) (take i marks.now) }
{
    let mut count = 0;
    for j in 0..i {
        if marks[j] {
            count += 1;
        }
    }
    count
}

/// Chooses the row at a place too.
pub(crate) fn choose(
    alloc: Global,
    rows: &[Ints],
    chosen: &mut Chosen,
    i: usize,
) -> Result<(), AllocError>
    requires place { i < length rows.now }
    requires chosen { IsChosen rows.now chosen.old }
    ensures marks { OnOk result (chosen.new.marks.items ≡ slice_set chosen.old.marks.items i true) }
    ensures chosen { OnOk result (IsChosen rows.now chosen.new) }
{
    if chosen.marks[i] {
        return Ok(());
    }
    let place = marked_before(&chosen.marks, i);
    chosen.lifted.insert(place, headed(alloc, 0, &rows[i])?)?;
    chosen.marks[i] = true;
    Ok(())
}
