// Thinning: of rows that generate a cone the extreme ones, by the inequalities that cut it out.

ghost use Rattle.pm_vector.specs.Rows.{HasCols, Row};
ghost use Rattle.pm_vector.specs.Bases.{IsEchelonBasis};
ghost use Rattle.pm_dd.specs.Fronts.{HalfSpaces};
ghost use Rattle.pm_elim.specs.Refusals.{IfWide};
ghost use Rattle.pm_vector.specs.Evidence.{IsEvidence};
ghost use Rattle.pm_elim.specs.Lost.{IsLostOnNext};
ghost use Rattle.pm_geom.specs.Generators.{AreGenerators};
ghost use Rattle.pm_geom.specs.StatedOrder.{rows_marked};
ghost use Rattle.pm_incidence.specs.Lost.{IfThinWide, IsLostOnRowOf, ThinningIsLost};
ghost use Rattle.pm_incidence.specs.Thinning.{Agree, AreSortedThinned, AreThinPlaces, IsRanged, IsReductionFail, IsThinFail, IsThinned};
ghost use Rattle.std.specs.Prelude.{IfErr, IfOk, List, [], length, true, ℕ, ◌++◌, ◌<◌, ◌^◌, ◌∷◌, ◌≡◌, ◌≤◌};
ghost use Rattle.std.specs.List.{All};

use crate::fails::ThinFail;
use crate::zeros::{full_marks, kept_places, zero_rows};
use pm_elim::{Echelon, ElimFail, echelon_by, reduced_by};
use pm_geom::descriptions::Generators;
use pm_vector::{Ints, copies, primitive};
use std::alloc::{AllocError, Global};

/// The lines, and then the rows that are marked.
pub fn with_marked(
    alloc: Global,
    lines: &[Ints],
    rows: &[Ints],
    marks: &[bool],
) -> Result<Vec<Ints>, AllocError>
    requires { length marks.now ≡ length rows.now }
    ensures { IfOk result (λ v. v.items ≡ lines.now ++ rows_marked true marks.now rows.now) }
{
    let mut made = copies(alloc, lines)?;
    for (i, row) in rows.iter().enumerate() {
        if marks[i] {
            made.push(row.copy(alloc)?)?;
        }
    }
    Ok(made)
}

/// A row reduced by an echelon basis, and made primitive.
fn thinned(alloc: Global, basis: &Echelon, row: &Ints, wide: bool) -> Result<Ints, ElimFail>
    requires is_basis { IsEchelonBasis (length row.now) basis.now.rows basis.now.pivots }
    requires few_columns { length row.now < 2 ^ 30 }
    ensures thinned { IfOk result (IsThinned basis.now.rows basis.now.pivots row.now) }
    ensures wide { IfErr result (λ f.
        IfWide f (λ e. IsEvidence (length row.now) (basis.now.rows ++ row.now ∷ []) e)) }
    ensures lost { wide ≡ true → IfErr result (λ f.
        IfWide f (λ _. IsLostOnNext basis.now.rows basis.now.pivots row.now)) }
{
    let mut made = reduced_by(alloc, basis, row, wide)?;
    primitive(&mut made);
    Ok(made)
}

/// What is kept of rows that generate: the echelon basis of the lineality, and the places of the rows that are
/// extreme.
#[derive(Drop)]
pub struct Kept {
    /// The basis.
    pub basis: Echelon,
    /// The places.
    pub places: Vec<usize>,
}

/// What is kept of rows that, with the lines, generate the cone that inequalities (`cuts`) cut out. With `wide` it is
/// `Wide` only where the elimination of the rows that span the lineality is lost by wide numbers too.
pub(crate) fn kept_of(
    alloc: Global,
    cols: usize,
    rows: &[Ints],
    lines: &[Ints],
    cuts: &[Ints],
    wide: bool,
) -> Result<Kept, ThinFail>
    requires row_cols { HasCols cols rows.now }
    requires line_cols { HasCols cols lines.now }
    requires cut_cols { HasCols cols cuts.now }
    requires few_rows { length rows.now ≤ 2 ^ 30 }
    requires few_lines { length lines.now < 2 ^ 30 }
    requires few_columns { cols < 2 ^ 30 }
    ensures kept { IfOk result (λ k.
        AreThinPlaces cols rows.now lines.now cuts.now k.basis.rows k.basis.pivots k.places.items) }
    ensures few { IfOk result (λ k. length k.places.items ≤ length rows.now) }
    ensures failed { IfErr result (IsThinFail cols rows.now lines.now cuts.now) }
    ensures ranged { IfErr result IsRanged }
    ensures lost { wide ≡ true → IfErr result (λ f.
        IfThinWide f (ThinningIsLost cols rows.now lines.now cuts.now)) }
{
    let zeros = zero_rows(alloc, cols, rows, cuts, wide)?;
    let marks = full_marks(alloc, &zeros)?;
    let group = with_marked(alloc, lines, rows, &marks)?;
    let basis = echelon_by(alloc, &group, cols, wide)?;
    let places = kept_places(alloc, &zeros, &marks)?;
    Ok(Kept { basis, places })
}

/// The rows at the places, reduced by the basis and made primitive, in lexicographic order. With `wide` they are
/// reduced by wide numbers where those of the range do not suffice, and it is `Wide` only where some row's reduction is
/// lost by these too.
pub fn thinned_rows(
    alloc: Global,
    cols: usize,
    rows: &[Ints],
    basis: &Echelon,
    places: &[usize],
    wide: bool,
) -> Result<Vec<Ints>, ThinFail>
    requires row_cols { HasCols cols rows.now }
    requires is_basis { IsEchelonBasis cols basis.now.rows basis.now.pivots }
    requires few_columns { cols < 2 ^ 30 }
    requires within { All (λ k. k < length rows.now) places.now }
    ensures thinned { IfOk result (λ r.
        AreSortedThinned basis.now.rows basis.now.pivots rows.now places.now r.items) }
    ensures failed { IfErr result (IsReductionFail cols basis.now.rows rows.now) }
    ensures lost { wide ≡ true → IfErr result (λ f.
        IfThinWide f (IsLostOnRowOf basis.now.rows basis.now.pivots rows.now)) }
{
    let mut thin = Vec::new(alloc);
    for place in places {
        thin.push(thinned(alloc, basis, &rows[*place], wide)?)?;
    }
    thin.sort()?;
    Ok(thin)
}

/// Of rows that, with the lines, generate the cone that inequalities (`cuts`) cut out, the extreme ones in canonical
/// form.
pub(crate) fn thin(
    alloc: Global,
    cols: usize,
    rows: &[Ints],
    lines: &[Ints],
    cuts: &[Ints],
    wide: bool,
) -> Result<Generators, ThinFail>
    requires row_cols { HasCols cols rows.now }
    requires line_cols { HasCols cols lines.now }
    requires cut_cols { HasCols cols cuts.now }
    requires few_rows { length rows.now < 2 ^ 30 }
    requires few_lines { length lines.now < 2 ^ 30 }
    requires few_columns { cols < 2 ^ 30 }
    ensures generators { IfOk result (λ g. (E : List Row) → Agree cols rows.now lines.now cuts.now E
        → AreGenerators cols (HalfSpaces E cuts.now) g.rays.items g.lineality.items) }
    ensures cols { IfOk result (λ g. HasCols cols g.rays.items) }
    ensures few { IfOk result (λ g. length g.rays.items ≤ length rows.now) }
    ensures echelon { IfOk result (λ g. (P : List ℕ) × IsEchelonBasis cols g.lineality.items P) }
    ensures failed { IfErr result (IsThinFail cols rows.now lines.now cuts.now) }
    ensures lost { wide ≡ true → IfErr result (λ f.
        IfThinWide f (ThinningIsLost cols rows.now lines.now cuts.now)) }
{
    let kept = kept_of(alloc, cols, rows, lines, cuts, wide)?;
    let rays = thinned_rows(alloc, cols, rows, &kept.basis, &kept.places, wide)?;
    Ok(Generators {
        rays,
        lineality: kept.basis.rows,
    })
}
