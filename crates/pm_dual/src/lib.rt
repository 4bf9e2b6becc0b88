//! Linear programs, quickly: a search by the dual simplex method in whole numbers, whose answer counts only where
//! exact products show it. It knows nothing of properties, values and objects.
#![tactic(auto)]

ghost use Rattle.pm_dual.specs.Exact.{AnswersAreExact};
ghost use Rattle.pm_dual.specs.Examples.{MaximaAreRead, SearchObjectivesAreRead};

mod answer;
mod check;
mod fails;
mod quick;
mod rows;
mod search;
mod search_objectives;
mod sums;
mod vertex;
mod whole;
mod wide;

pub use answer::LpAnswer;
pub use quick::quick_answer;
pub use search_objectives::search_objective;

/// An answer that is right is an optimum exactly where there is a greatest value, which is its own, `Unbounded`
/// exactly where there is no bound, and `Infeasible` exactly where there is no point.
pub fn law_answers_are_exact()
    ensures { AnswersAreExact }
{}

/// Small programs with a greatest value, and without.
pub fn example_maxima()
    ensures { MaximaAreRead }
{}

/// What a search goes by where the objective is 2 x, and where it is a constant.
pub fn example_search_objectives()
    ensures { SearchObjectivesAreRead }
{}
