// What a linear program has.

use pm_fraction::Fraction;

/// What a linear program has: the greatest value of its objective, at a point, with a dual that shows that no point
/// exceeds it;
/// a point and a direction in which the objective grows without bound; or multipliers that show that there is no
/// point.
/// Which of the three it is, is determined by the program (`law_answers_are_exact`).
/// Points and directions have a fraction for each column, duals and multipliers one for each inequality, not
/// negative, and then one for each equation.
#[derive(Drop)]
pub enum LpAnswer {
    Optimal {
        value: Fraction,
        point: Vec<Fraction>,
        dual: Vec<Fraction>,
    },
    Unbounded {
        point: Vec<Fraction>,
        direction: Vec<Fraction>,
    },
    Infeasible {
        multipliers: Vec<Fraction>,
    },
}
