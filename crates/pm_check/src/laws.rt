// What is answered on the printed texts of plans and refusals that prove themselves.

ghost use Rattle.pm_check.specs.Proved.{LeastPlansAreTold, RefusalsAreTold};

/// On the printed text of a plan that proves itself least, the answer is its weight, and a yes.
pub(crate) fn law_least_plans_are_told()
    ensures { LeastPlansAreTold }
{}

/// On that of a refusal that proves that there is no chain, the answer says so, and is a yes.
pub(crate) fn law_refusals_are_told()
    ensures { RefusalsAreTold }
{}
