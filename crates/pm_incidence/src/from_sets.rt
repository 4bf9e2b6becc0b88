// Rows from sets: the extreme rays from facets and the sets of facets on which they lie, and the facet rows from rays
// and the sets of these.

ghost use Rattle.pm_vector.specs.Rows.{HasCols, Row, dot as dot_of, entry};
ghost use Rattle.pm_vector.specs.Bases.{IsEchelonBasis};
ghost use Rattle.pm_vector.specs.WideInts.{value_of};
ghost use Rattle.pm_dd.specs.Fronts.{HalfSpaces};
ghost use Rattle.pm_vector.specs.Evidence.{unit};
ghost use Rattle.pm_elim.specs.Lost.{IsLostOnExtended};
ghost use Rattle.pm_vector.specs.NullSpaces.{IsNullBasis};
ghost use Rattle.pm_geom.specs.Cones.{IsOrder, IsValid};
ghost use Rattle.pm_geom.specs.Evidence.{IsWideProduct};
ghost use Rattle.pm_incidence.specs.Fails.{exchanged};
ghost use Rattle.pm_incidence.specs.FromSets.{AreCanonicalFor, AreDetermined, IsSetsFail, IsTurnedSetsFail, determining, holders_from, rows_at, turned};
ghost use Rattle.pm_incidence.specs.Lost.{IfThinWide, SetsAreLost};
ghost use Rattle.pm_incidence.specs.SetRows.{IsFound, IsTurned, IsWideWith, first_product};
ghost use Rattle.pm_types.specs.Right.{IsIncidence};
ghost use Rattle.std.specs.Prelude.{All, IfErr, IfOk, IsTrue, List, MatchOption, [], length, map, pos, replicate, true, ◌++◌, ◌<ℤ◌, ◌<◌, ◌^◌, ◌∷◌, ◌≡◌, ◌≤◌, ◌↔◌, ℕ};

use crate::fails::ThinFail;
use pm_elim::null_space_by;
use pm_geom::descriptions::{Facets, Generators};
use pm_geom::{Evidence, unit_row};
use pm_types::Sets;
use pm_vector::{Ints, WideInt, copies, dot, negate, wide_dot};
use std::alloc::{AllocError, Global};

/// The first column in which a row is not 0, and its length for a row of zeros.
fn leading_column(row: &Ints) -> usize
    ensures within { result ≤ length row.now }
    ensures before { (c : ℕ) → c < result → entry row.now c ≡ pos 0 }
    ensures leads { result < length row.now → ¬ (entry row.now result ≡ pos 0) }
{
    for i in 0..row.len() {
        if row.get(i) != 0 {
            return i;
        }
    }
    row.len()
}

/// The pivot columns of an echelon basis.
fn pivot_columns(alloc: Global, rows: &[Ints]) -> Result<Vec<usize>, AllocError>
    ensures { IfOk result (λ v. (n : ℕ) (P : List ℕ) → IsEchelonBasis n rows.now P → v.items ≡ P) }
{
    let mut columns = Vec::new(alloc);
    for row in rows {
        columns.push(leading_column(row))?;
    }
    Ok(columns)
}

/// The row of zeros.
fn zero_row(alloc: Global, cols: usize) -> Result<Ints, AllocError>
    ensures { IfOk result (λ r. r ≡ replicate cols (pos 0)) }
{
    Ok(Ints::from_vec(vec![in alloc; 0i128; cols]?))
}

/// Copies of the rows at the places of a set that lie below their number, put behind others.
fn add_rows_at(
    alloc: Global,
    rows: &[Ints],
    set: &[u32],
    others: Vec<Ints>,
) -> Result<Vec<Ints>, AllocError>
    ensures { IfOk result (λ v. v.items ≡ others.items ++ rows_at rows.now set.now) }
{
    let mut made = others;
    for place in set {
        if let Some(row) = rows.get(*place as usize) {
            made.push(row.copy(alloc)?)?;
        }
    }
    Ok(made)
}

/// The unit rows of columns, put behind others.
fn add_units(
    alloc: Global,
    cols: usize,
    columns: &[usize],
    others: Vec<Ints>,
) -> Result<Vec<Ints>, AllocError>
    requires { All (λ c. c < cols) columns.now }
    ensures { IfOk result (λ v. v.items ≡ others.items ++ map (unit cols) columns.now) }
{
    let mut made = others;
    for column in columns {
        made.push(unit_row(alloc, cols, *column)?)?;
    }
    Ok(made)
}

/// The equations, the cuts of a set, and the unit rows of the pivot columns.
fn determining_rows(
    alloc: Global,
    cols: usize,
    cuts: &[Ints],
    equations: &[Ints],
    set: &[u32],
    pivots: &[usize],
) -> Result<Vec<Ints>, AllocError>
    requires { All (λ c. c < cols) pivots.now }
    ensures { IfOk result (λ v. v.items ≡ determining cols equations.now cuts.now set.now pivots.now) }
{
    let first = copies(alloc, equations)?;
    let more = add_rows_at(alloc, cuts, set, first)?;
    add_units(alloc, cols, pivots, more)
}

/// The product of a row with a cut; with `wide`, however wide it is.
pub(crate) fn product(
    alloc: Global,
    row: &Ints,
    cut: &Ints,
    wide: bool,
) -> Result<WideInt, ThinFail>
    requires { length row.now ≡ length cut.now }
    ensures value { IfOk result (λ k. value_of k ≡ dot_of row.now cut.now) }
    ensures failed { IfErr result (IsWideWith row.now (cut.now ∷ [])) }
    ensures total { wide ≡ true → IfErr result (λ f. f ≡ ThinFail.Memory) }
{
    if let Ok(product) = dot(row.as_slice(), cut.as_slice()) {
        return Ok(WideInt::of(product));
    }
    if wide {
        return Ok(wide_dot(row.as_slice(), cut.as_slice()));
    }
    Err(wide_rows(alloc, row, cut)?)
}

/// The evidence of two rows whose product leaves the range.
fn wide_rows(alloc: Global, row: &Ints, cut: &Ints) -> Result<ThinFail, AllocError>
    requires { IsWideProduct row.now cut.now }
    ensures { IfOk result (IsWideWith row.now (cut.now ∷ [])) }
{
    Ok(ThinFail::Wide(Evidence::E4 {
        first: row.copy(alloc)?,
        second: cut.copy(alloc)?,
    }))
}

/// Whether the first product of a row with the cuts that is not 0 is negative.
fn is_negative(alloc: Global, cuts: &[Ints], row: &Ints, wide: bool) -> Result<bool, ThinFail>
    requires { HasCols (length row.now) cuts.now }
    ensures sign { IfOk result (λ b. IsTrue b ↔ (first_product row.now cuts.now <ℤ pos 0)) }
    ensures failed { IfErr result (IsWideWith row.now cuts.now) }
    ensures total { wide ≡ true → IfErr result (λ f. f ≡ ThinFail.Memory) }
{
    for cut in cuts {
        let product = product(alloc, row, cut, wide)?;
        if !product.is_zero() {
            return Ok(product.is_negative());
        }
    }
    Ok(false)
}

/// The row or its opposite: the first product with the cuts that is not 0 is positive.
fn turned_up(alloc: Global, cuts: &[Ints], row: Ints, wide: bool) -> Result<Ints, ThinFail>
    requires { HasCols (length row) cuts.now }
    ensures turned { IfOk result (λ r. IsTurned cuts.now row r) }
    ensures failed { IfErr result (IsWideWith row cuts.now) }
    ensures total { wide ≡ true → IfErr result (λ f. f ≡ ThinFail.Memory) }
{
    let mut row = row;
    if is_negative(alloc, cuts, &row, wide)? {
        negate(&mut row);
    }
    Ok(row)
}

/// The only row of a list of one.
fn only(rows: Vec<Ints>) -> Option<Ints>
    ensures { MatchOption result (¬ (length rows.items ≡ 1)) (λ r. rows.items ≡ r ∷ []) }
{
    let mut rows = rows;
    if rows.len() == 1 { rows.pop() } else { None }
}

/// The row of one set.
fn ray_of_set(
    alloc: Global,
    cols: usize,
    cuts: &[Ints],
    equations: &[Ints],
    set: &[u32],
    pivots: &[usize],
    wide: bool,
) -> Result<Ints, ThinFail>
    requires cut_cols { HasCols cols cuts.now }
    requires equation_cols { HasCols cols equations.now }
    requires few_equations { length equations.now < 2 ^ 30 }
    requires few_columns { cols < 2 ^ 30 }
    requires few_places { length set.now < 2 ^ 30 }
    requires few_pivots { length pivots.now < 2 ^ 30 }
    requires pivots { All (λ c. c < cols) pivots.now }
    ensures cols { IfOk result (λ r. length r ≡ cols) }
    ensures row { IfOk result (λ r. IsFound cols equations.now cuts.now pivots.now set.now r) }
    ensures failed { IfErr result (λ f. (lines : List Row)
        → IsNullBasis cols (equations.now ++ cuts.now) lines pivots.now
        → IsSetsFail cols equations.now cuts.now (set.now ∷ []) f) }
    ensures lost { wide ≡ true → IfErr result (λ f. IfThinWide f
        (IsLostOnExtended cols (determining cols equations.now cuts.now set.now pivots.now))) }
{
    let rows = determining_rows(alloc, cols, cuts, equations, set, pivots)?;
    match only(null_space_by(alloc, &rows, cols, wide)?) {
        Some(row) => turned_up(alloc, cuts, row, wide),
        None => Ok(zero_row(alloc, cols)?),
    }
}

/// The pivot columns of the echelon basis of the lineality.
fn lineality_pivots(
    alloc: Global,
    cols: usize,
    cuts: &[Ints],
    equations: &[Ints],
    wide: bool,
) -> Result<Vec<usize>, ThinFail>
    requires cut_cols { HasCols cols cuts.now }
    requires equation_cols { HasCols cols equations.now }
    requires few_cuts { length cuts.now < 2 ^ 30 }
    requires few_equations { length equations.now < 2 ^ 30 }
    requires few_columns { cols < 2 ^ 30 }
    ensures pivots { IfOk result (λ v. (lines : List Row)
        × IsNullBasis cols (equations.now ++ cuts.now) lines v.items) }
    ensures failed { IfErr result (λ f. (sets : List (List ℕ))
        → IsSetsFail cols equations.now cuts.now sets f) }
    ensures lost { wide ≡ true → IfErr result (λ f.
        IfThinWide f (IsLostOnExtended cols (equations.now ++ cuts.now))) }
{
    let mut rows = copies(alloc, equations)?;
    for cut in cuts {
        rows.push(cut.copy(alloc)?)?;
    }
    let lines = null_space_by(alloc, &rows, cols, wide)?;
    Ok(pivot_columns(alloc, &lines)?)
}

/// For each set the extreme row of the cone that equations and inequalities (`cuts`) cut out, on which exactly the
/// inequalities of the set vanish:
/// primitive, with zeros in the pivot columns of the echelon basis of the lineality. A set that determines no row up
/// to scale and lineality gets a row of zeros.
fn rays_of_sets(
    alloc: Global,
    cols: usize,
    cuts: &[Ints],
    equations: &[Ints],
    sets: &[Vec<u32>],
    wide: bool,
) -> Result<Vec<Ints>, ThinFail>
    requires cut_cols { HasCols cols cuts.now }
    requires equation_cols { HasCols cols equations.now }
    requires few_cuts { length cuts.now < 2 ^ 30 }
    requires few_equations { length equations.now < 2 ^ 30 }
    requires few_columns { cols < 2 ^ 30 }
    requires few_places { All (λ set. length set.items < 2 ^ 30) sets.now }
    ensures cols { IfOk result (λ r. HasCols cols r.items) }
    ensures as_many { IfOk result (λ r. length r.items ≡ length sets.now) }
    ensures rays { IfOk result (λ r. (V : List Row) → IsOrder cols (HalfSpaces equations.now cuts.now) V
        → IsIncidence V cuts.now (map (λ r. r.items) sets.now)
        → AreCanonicalFor cols (HalfSpaces equations.now cuts.now) V r.items) }
    ensures null { IfOk result (λ r. (lines : List Row) × (P : List ℕ)
        × IsNullBasis cols (equations.now ++ cuts.now) lines P) }
    ensures determined { IfOk result (λ r.
        AreDetermined cols equations.now cuts.now (map (λ s. s.items) sets.now) r.items) }
    ensures failed { IfErr result (IsSetsFail cols equations.now cuts.now (map (λ r. r.items) sets.now)) }
    ensures lost { wide ≡ true → IfErr result (λ f. IfThinWide f
        (SetsAreLost cols equations.now cuts.now (map (λ r. r.items) sets.now))) }
{
    let pivots = lineality_pivots(alloc, cols, cuts, equations, wide)?;
    let mut rows = Vec::new(alloc);
    for set in sets {
        rows.push(ray_of_set(alloc, cols, cuts, equations, set, &pivots, wide)?)?;
    }
    Ok(rows)
}

/// The places of the sets that have an index.
fn holders(alloc: Global, sets: &[Vec<u32>], index: u32) -> Result<Vec<u32>, AllocError>
    requires { length sets.now < 2 ^ 30 }
    ensures { IfOk result (λ v. v.items ≡ holders_from 0 (map (λ r. r.items) sets.now) index) }
{
    let mut places = Vec::new(alloc);
    for (i, set) in sets.iter().enumerate() {
        if set.contains(&index) {
            places.push(i as u32)?;
        }
    }
    Ok(places)
}

/// For each column the places of the sets that have it.
fn turned_sets(alloc: Global, s: &Sets) -> Result<Sets, AllocError>
    requires { length s.now.rows < 2 ^ 30 }
    ensures { IfOk result (λ t. t.rows ≡ turned s.now) }
{
    let sets = s.rows();
    let mut columns = Vec::new(alloc);
    for column in 0..s.cols() {
        columns.push(holders(alloc, sets, column)?)?;
    }
    Ok(Sets::from_vec(columns, sets.len() as u32))
}

/// The extreme rays from the facet rows and the sets of rays that lie on them, in the order of the columns of the
/// sets: primitive, and with zeros in the pivot columns of the echelon basis of the lineality.
/// A column that determines no ray gets a row of zeros. `Wide` only with evidence: E1 on AFFINE_HULL and FACETS, or
/// on rows that determine the ray of a column; E4 on such a ray and a facet row.
/// With `wide` it goes on by wide numbers where a number leaves the range. Then it is `Wide` only where one of these
/// null spaces is lost by these too, that of AFFINE_HULL and FACETS or that of rows that determine the ray of a column:
/// no row in the range is what a step of its elimination makes. The evidence is still that of the range.
pub fn vertices_from_sets(
    alloc: Global,
    cols: usize,
    f: &Facets,
    s: &Sets,
    wide: bool,
) -> Result<Vec<Ints>, ThinFail>
    requires facet_cols { HasCols cols f.now.facets.items }
    requires hull_cols { HasCols cols f.now.hull.items }
    requires few_facets { length f.now.facets.items < 2 ^ 30 }
    requires few_equations { length f.now.hull.items < 2 ^ 30 }
    requires few_columns { cols < 2 ^ 30 }
    requires few_sets { length s.now.rows < 2 ^ 30 }
    ensures cols { IfOk result (λ r. HasCols cols r.items) }
    ensures as_many { IfOk result (λ r. length r.items ≡ s.now.cols) }
    ensures rays { IfOk result (λ r. (V : List Row)
        → IsOrder cols (HalfSpaces f.now.hull.items f.now.facets.items) V
        → s.now.cols ≡ length V → IsIncidence f.now.facets.items V s.now.rows
        → AreCanonicalFor cols (HalfSpaces f.now.hull.items f.now.facets.items) V r.items) }
    ensures null { IfOk result (λ r. (lines : List Row) × (P : List ℕ)
        × IsNullBasis cols (f.now.hull.items ++ f.now.facets.items) lines P) }
    ensures determined { IfOk result (λ r. AreDetermined cols f.now.hull.items f.now.facets.items
        (turned s.now) r.items) }
    ensures failed { IfErr result (IsSetsFail cols f.now.hull.items f.now.facets.items (turned s.now)) }
    ensures lost { wide ≡ true → IfErr result (λ e. IfThinWide e
        (SetsAreLost cols f.now.hull.items f.now.facets.items (turned s.now))) }
{
    let sets = turned_sets(alloc, s)?;
    rays_of_sets(alloc, cols, &f.facets, &f.hull, sets.rows(), wide)
}

/// The same refusal, with the two rows of evidence E4 exchanged.
pub(crate) fn exchanged(fail: ThinFail) -> ThinFail
    ensures sets { (n : ℕ) (E A : List Row) (sets : List (List ℕ)) → IsSetsFail n E A sets fail
        → IsTurnedSetsFail n E A sets result }
    ensures exchanged { result ≡ exchanged fail }
{
    match fail {
        ThinFail::Wide(Evidence::E4 { first, second }) => ThinFail::Wide(Evidence::E4 {
            first: second,
            second: first,
        }),
        other => other,
    }
}

/// The facet rows from the extreme rays and the sets of those that lie on them, in the order of the sets: primitive,
/// and with zeros in the pivot columns of the echelon basis of the rows that vanish.
/// A set that determines no facet row gets a row of zeros. `Wide` only with evidence: E1 on LINEALITY_SPACE and
/// VERTICES, or on rows that determine the row of a set; E4 on a ray and such a row.
/// With `wide` it goes on by wide numbers where a number leaves the range. Then it is `Wide` only where one of these
/// null spaces is lost by these too, that of LINEALITY_SPACE and VERTICES or that of rows that determine the row of a
/// set: no row in the range is what a step of its elimination makes. The evidence is still that of the range.
pub fn facets_from_sets(
    alloc: Global,
    cols: usize,
    g: &Generators,
    s: &Sets,
    wide: bool,
) -> Result<Vec<Ints>, ThinFail>
    requires ray_cols { HasCols cols g.now.rays.items }
    requires line_cols { HasCols cols g.now.lineality.items }
    requires few_rays { length g.now.rays.items < 2 ^ 30 }
    requires few_lines { length g.now.lineality.items < 2 ^ 30 }
    requires few_columns { cols < 2 ^ 30 }
    requires few_places { All (λ set. length set < 2 ^ 30) s.now.rows }
    ensures cols { IfOk result (λ r. HasCols cols r.items) }
    ensures as_many { IfOk result (λ r. length r.items ≡ length s.now.rows) }
    ensures facets { IfOk result (λ r. (F : List Row)
        → IsOrder cols (IsValid cols g.now.rays.items g.now.lineality.items) F
        → IsIncidence F g.now.rays.items s.now.rows
        → AreCanonicalFor cols (IsValid cols g.now.rays.items g.now.lineality.items) F r.items) }
    ensures null { IfOk result (λ r. (lines : List Row) × (P : List ℕ)
        × IsNullBasis cols (g.now.lineality.items ++ g.now.rays.items) lines P) }
    ensures determined { IfOk result (λ r.
        AreDetermined cols g.now.lineality.items g.now.rays.items s.now.rows r.items) }
    ensures failed { IfErr result (IsTurnedSetsFail cols g.now.lineality.items g.now.rays.items s.now.rows) }
    ensures lost { wide ≡ true → IfErr result (λ f. IfThinWide f
        (SetsAreLost cols g.now.lineality.items g.now.rays.items s.now.rows)) }
{
    match rays_of_sets(alloc, cols, &g.rays, &g.lineality, s.rows(), wide) {
        Ok(rows) => Ok(rows),
        Err(fail) => Err(exchanged(fail)),
    }
}
