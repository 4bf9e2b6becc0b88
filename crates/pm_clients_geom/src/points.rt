// Whether inequalities and equations have a point: where they have none, and only there, the program of the objective
// 0 is infeasible.

ghost use Rattle.pm_vector.specs.Rows.{HasCols};
ghost use Rattle.pm_clients_geom.specs.Points.{HasSolution};
ghost use Rattle.pm_incidence.specs.Thinning.{half_spaces};
ghost use Rattle.pm_object_type.specs.declared.object_type.ObjectType.TheVariants.{Polytope};
ghost use Rattle.pm_simplex.specs.Generated.{no_objective};
ghost use Rattle.pm_simplex.specs.Answers.{ShowsProgram};
ghost use Rattle.pm_simplex.specs.Fails.{IfWide};
ghost use Rattle.std.specs.Prelude.{IfErr, IfOk, IsTrue, length, ◌<◌, ◌^◌, ◌≡◌, ◌≤◌, ◌↔◌};

use pm_fraction::Fraction;
use pm_incidence::with_first;
use pm_simplex::LpFail;
use pm_types::Number;
use pm_vector::Ints;
use pm_wide_programs::greatest_by;
use std::alloc::{AllocError, Global};

/// The objective 0.
fn no_objective(alloc: Global, cols: usize) -> Result<Vec<Fraction>, AllocError>
    ensures { IfOk result (λ v. v.items ≡ no_objective cols) }
{
    vec![in alloc; Fraction::zero(); cols]
}

/// Whether rows have a point, by their program as it stands.
fn is_feasible(
    alloc: Global,
    cols: usize,
    inequalities: &[Ints],
    equations: &[Ints],
    wide: bool,
) -> Result<bool, LpFail>
    requires inequality_cols { HasCols cols inequalities.now }
    requires equation_cols { HasCols cols equations.now }
    requires few_inequalities { length inequalities.now ≤ 2 ^ 30 }
    requires few_equations { length equations.now < 2 ^ 30 }
    requires some_columns { 0 < cols }
    requires few_columns { cols < 2 ^ 30 }
    ensures found { IfOk result (λ b. IsTrue b ↔ HasSolution cols inequalities.now equations.now) }
    ensures wide { IfErr result (λ f. IfWide f
        (ShowsProgram inequalities.now equations.now (no_objective cols))) }
{
    let objective = no_objective(alloc, cols)?;
    match greatest_by(alloc, inequalities, equations, &objective, wide)? {
        Number::Finite(_) => Ok(true),
        Number::Plus => Ok(true),
        Number::Minus => Ok(false),
    }
}

/// Whether the inequalities and equations of a polytope have a point; where it is asked by wide numbers, these go on
/// where a pivot leaves the range. `Wide` only where a pivot of their program leaves it, which the evidence (E3) shows;
/// the half-spaces of that program end with the row (1, 0, .., 0).
pub fn has_point(
    alloc: Global,
    cols: usize,
    inequalities: Vec<Ints>,
    equations: &[Ints],
    wide: bool,
) -> Result<bool, LpFail>
    requires inequality_cols { HasCols cols inequalities.items }
    requires equation_cols { HasCols cols equations.now }
    requires few_inequalities { length inequalities.items < 2 ^ 30 }
    requires few_equations { length equations.now < 2 ^ 30 }
    requires some_columns { 0 < cols }
    requires few_columns { cols < 2 ^ 30 }
    ensures found { IfOk result (λ b.
        IsTrue b ↔ HasSolution cols inequalities.items equations.now) }
    ensures wide { IfErr result (λ f. IfWide f
        (ShowsProgram (half_spaces Polytope cols inequalities.items)
        equations.now (no_objective cols))) }
{
    let rows = with_first(alloc, cols, inequalities)?;
    let found = is_feasible(alloc, cols, &rows, equations, wide)?;
    Ok(found)
}
