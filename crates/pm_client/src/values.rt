// Reading the values of sources, and putting those of targets.

ghost use Rattle.pm_client.specs.declared.ClientFail.TheVariants.{Memory};
ghost use Rattle.pm_fraction.specs.FractionRows.{ArePrimitiveRowsOf};
ghost use Rattle.pm_object.specs.Reading.{drafted, fact_of};
ghost use Rattle.pm_types.specs.Forms.{FormsIn, HasPrimitiveRow, is_of_numbers};
ghost use Rattle.pm_props.specs.Properties.{is_of_counts, is_of_edges, is_of_lattices, is_of_matrices, is_of_sets, is_of_whole_numbers, value_kind};
ghost use Rattle.pm_props.specs.Sets.{has};
ghost use Rattle.pm_types.specs.Values.{counts, edges, extended, lattice, matrix, sets, whole};
ghost use Rattle.pm_types.specs.Views.{extended_of, view_of};
ghost use Rattle.std.specs.Prelude.{All, IfErr, IfOk, IsTrue, None, OnErr, OnOk, Some, [], length, ◌++◌, ◌∷◌, ◌≡◌, ◌≤◌};
ghost use Rattle.pm_limits.specs.Limits.{most_rows};

use crate::ClientFail;
use pm_fraction::{Matrix, RowsFail};
use pm_object::{Draft, View};
use pm_types::{Counts, Lattice, Number, PropId, Sets, Value};
use pm_vector::Ints;
use std::alloc::Global;

/// The rows of a source whose values are matrices.
pub fn matrix_of<'b>(view: &'b View<'_>, p: PropId) -> &'b Matrix
    requires source { IsTrue (has view.now.kind.sources p) }
    requires matrix { IsTrue (is_of_matrices (value_kind p)) }
    ensures value { fact_of p view.now.facts ≡ Some (matrix result.now.cols result.now.rows) }
    ensures forms { FormsIn view.now.of view.now.cols p (matrix result.now.cols result.now.rows) }
{
    let Some(Value::Mat(matrix)) = view.value(p) else {
        unreachable!()
    };
    matrix
}

/// The whole number of a source whose values are whole numbers.
pub fn whole_of(view: &View, p: PropId) -> i64
    requires source { IsTrue (has view.now.kind.sources p) }
    requires whole { IsTrue (is_of_whole_numbers (value_kind p)) }
    ensures value { fact_of p view.now.facts ≡ Some (whole result) }
    ensures forms { FormsIn view.now.of view.now.cols p (whole result) }
{
    let Some(Value::Int(k)) = view.value(p) else {
        unreachable!()
    };
    *k
}

/// The sets of a source whose values are sets.
pub fn sets_of<'b>(view: &'b View<'_>, p: PropId) -> &'b Sets
    requires source { IsTrue (has view.now.kind.sources p) }
    requires sets { IsTrue (is_of_sets (value_kind p)) }
    ensures value { fact_of p view.now.facts ≡ Some (sets result.now.rows result.now.cols) }
    ensures forms { FormsIn view.now.of view.now.cols p (sets result.now.rows result.now.cols) }
{
    let Some(Value::Sets(found)) = view.value(p) else {
        unreachable!()
    };
    found
}

/// The numbers of a source whose values are lists of counts.
pub fn counts_of<'b>(view: &'b View<'_>, p: PropId) -> &'b Counts
    requires source { IsTrue (has view.now.kind.sources p) }
    requires counts { IsTrue (is_of_counts (value_kind p)) }
    ensures value { fact_of p view.now.facts ≡ Some (counts result.now) }
    ensures forms { FormsIn view.now.of view.now.cols p (counts result.now) }
{
    let Some(Value::Counts(found)) = view.value(p) else {
        unreachable!()
    };
    found
}

/// The neighbours of each node of a source whose values are edges, and the number of nodes.
pub fn edges_of<'b>(view: &'b View<'_>, p: PropId) -> &'b Sets
    requires source { IsTrue (has view.now.kind.sources p) }
    requires edges { IsTrue (is_of_edges (value_kind p)) }
    ensures value { fact_of p view.now.facts ≡ Some (edges result.now.rows result.now.cols) }
    ensures forms { FormsIn view.now.of view.now.cols p (edges result.now.rows result.now.cols) }
{
    let Some(Value::Edges(found)) = view.value(p) else {
        unreachable!()
    };
    found
}

/// The faces by rank of a source whose values are lattices.
pub fn lattice_of<'b>(view: &'b View<'_>, p: PropId) -> &'b Lattice
    requires source { IsTrue (has view.now.kind.sources p) }
    requires lattices { IsTrue (is_of_lattices (value_kind p)) }
    ensures value { fact_of p view.now.facts ≡ Some (lattice result.now) }
    ensures forms { FormsIn view.now.of view.now.cols p (lattice result.now) }
{
    let Some(Value::Lattice(found)) = view.value(p) else {
        unreachable!()
    };
    found
}

/// The number of a source whose values are fractions or infinities.
pub fn number_of(view: &View, p: PropId) -> Number
    requires source { IsTrue (has view.now.kind.sources p) }
    requires numbers { IsTrue (is_of_numbers (value_kind p)) }
    ensures value { fact_of p view.now.facts ≡ Some (extended (extended_of result)) }
    ensures forms { FormsIn view.now.of view.now.cols p (extended (extended_of result)) }
{
    let Some(Value::Number(x)) = view.value(p) else {
        unreachable!()
    };
    *x
}

/// The primitive whole rows of a matrix, of which each is made within the range. Want of memory alone ends it.
pub fn primitive_rows(alloc: Global, matrix: &Matrix) -> Result<Vec<Ints>, ClientFail>
    requires few { length matrix.now.rows ≤ most_rows }
    requires stay { All HasPrimitiveRow matrix.now.rows }
    ensures rows { IfOk result (λ v. ArePrimitiveRowsOf matrix.now.rows v.items) }
    ensures failed { IfErr result (λ e. e ≡ Memory) }
{
    match matrix.to_primitive_rows(alloc) {
        Ok(rows) => Ok(rows),
        Err(RowsFail::Memory) => Err(ClientFail::Memory),
        Err(RowsFail::Wide { .. }) => unreachable!(),
    }
}

/// Puts the value of a target that was not put yet. It fails only for want of memory; then nothing changes.
pub fn put_value(draft: &mut Draft, p: PropId, v: Value) -> Result<(), ClientFail>
    requires target { IsTrue (has draft.old.kind.targets p) }
    requires missing { drafted p draft.old.values ≡ None }
    ensures ok { OnOk result (draft.new ≡ record draft.old {
      values = draft.old.values ++ record { property = p; value = view_of v } ∷ [];
    }) }
    ensures memory { IfErr result (λ e. e ≡ Memory) }
    ensures err { OnErr result (draft.new ≡ draft.old) }
{
    match draft.put(p, v) {
        Ok(()) => Ok(()),
        Err(_value) => Err(ClientFail::Memory),
    }
}
