// Dimensions of maximal cones, and what these show.

ghost use Rattle.pm_vector.specs.Rows.{HasCols};
ghost use Rattle.pm_clients_fans.specs.Numbers.{IsMost};
ghost use Rattle.pm_elim.specs.Refusals.{IfWide};
ghost use Rattle.pm_vector.specs.declared.evidence.ElimList.TheVariants as list;
ghost use Rattle.pm_fan.specs.Dimensions.{AreDimensions, IsConeEvidence, IsLostCone, NoConeEvidence};
ghost use Rattle.pm_relations.specs.Fans.{AreOne, AreSimplices};
ghost use Rattle.pm_types.specs.Forms.{is_counts_form, is_sets_form};
ghost use Rattle.std.specs.List.{All};
ghost use Rattle.std.specs.Option.{option_copied, unwrap_or};
ghost use Rattle.std.specs.Prelude.{IfErr, IfOk, IsTrue, OnOk, false, length, map, ◌+◌, ◌<◌, ◌^◌, ◌≡◌, ◌≤◌, ◌↔◌, pos, true};
ghost use lib.IntN.{negsuc, ◌+ℤ◌};
ghost use Rattle.pm_limits.specs.Limits.{most_columns, most_rows};

use pm_elim::ElimFail;
use pm_fan::cone_dims;
use pm_types::Sets;
use pm_vector::Ints;
use std::alloc::Global;

/// The dimensions of the cones whose rays the sets name, over the lines; none where the sets are not of so many rays.
/// With `wide` by wide numbers where those of the range do not suffice.
pub(crate) fn dims_of(
    alloc: Global,
    rays: &[Ints],
    lines: &[Ints],
    cones: &Sets,
    cols: usize,
    wide: bool,
) -> Result<Vec<i64>, ElimFail>
    requires rays { HasCols cols rays.now }
    requires lines { HasCols cols lines.now }
    requires few_lines { length lines.now ≤ most_rows }
    requires form { IsTrue (is_sets_form cones.now.rows cones.now.cols) }
    requires few_columns { cols ≤ most_columns }
    ensures dims { IfOk result (λ d. cones.now.cols ≡ length rays.now
        → AreDimensions rays.now lines.now cones.now.rows d.items) }
    ensures form { IfOk result (λ d. IsTrue (is_counts_form d.items)) }
    ensures stay { OnOk result (wide ≡ false → cones.now.cols ≡ length rays.now
        → NoConeEvidence cols rays.now lines.now cones.now.rows) }
    ensures wide { IfErr result (λ f. IfWide f (IsConeEvidence cols rays.now lines.now cones.now.rows)) }
    ensures list { IfErr result (λ f. IfWide f (λ e. e.list ≡ list.Rows)) }
    ensures lost { wide ≡ true → IfErr result (λ f.
        IfWide f (λ _. IsLostCone cols rays.now lines.now cones.now.rows)) }
{
    if cones.cols() as usize != rays.len() {
        return Ok(Vec::new(alloc));
    }
    cone_dims(alloc, rays, lines, cones, cols, wide)
}

/// The greatest of the numbers.
pub(crate) fn greatest(numbers: &[i64]) -> Option<&i64>
    requires form { IsTrue (is_counts_form numbers.now) }
    ensures { IsMost numbers.now (unwrap_or (option_copied result) (negsuc 0)) }
{
    let mut most = numbers.first()?;
    for number in numbers {
        if *number > *most {
            most = number;
        }
    }
    Some(most)
}

// Whether each number is k.
fn all_are(numbers: &[i64], k: &i64) -> bool
    ensures { IsTrue result ↔ All (λ z. z ≡ k.now) numbers.now }
{
    numbers.iter().all(|z| *z == *k)
}

/// Whether all numbers are one.
pub(crate) fn are_one(numbers: &[i64]) -> bool
    ensures { IsTrue result ↔ AreOne numbers.now }
{
    match numbers.first() {
        None => true,
        Some(first) => all_are(numbers, first),
    }
}

// Whether k is l more than the number of places of the set.
fn is_simplex(set: &[u32], k: i64, l: i64) -> bool
    ensures { IsTrue result ↔ (k ≡ pos (length set.now) +ℤ l) }
{
    i128::from(k) == set.len() as i128 + i128::from(l)
}

/// Whether there are as many numbers as sets, and each is l more than the number of places of its set.
pub(crate) fn are_simplices(sets: &[Vec<u32>], numbers: &[i64], l: i64) -> bool
    ensures { IsTrue result ↔ AreSimplices l (map (λ s. s.items) sets.now) numbers.now }
{
    if sets.len() != numbers.len() {
        return false;
    }
    for (i, set) in sets.iter().enumerate() {
        if !is_simplex(set, numbers[i], l) {
            return false;
        }
    }
    true
}
