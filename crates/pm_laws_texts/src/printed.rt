// What `explain` prints is read by the checker of printed plans, which knows nothing of the machine that prints it:
// the
// text is that of a printed plan or refusal, and it is found to prove itself. It has no code.

ghost use Rattle.pm_laws_texts.specs.Explained.{PlansArePrinted, PlansAreFoundLeast, RefusalsArePrinted, RefusalsAreFound};

/// Where `explain` tells a chain, the reply is the printed text of a plan with its weight, its rules and its table.
pub fn law_plans_are_printed()
    ensures { PlansArePrinted }
{}

/// And the checker finds it least: for the names, the held and the asked properties of the object, and its barred
/// rules.
pub fn law_plans_are_found_least()
    ensures { PlansAreFoundLeast }
{}

/// Where it tells that there is none, the reply is the printed text of a refusal, with the barred rules and the table.
pub fn law_refusals_are_printed()
    ensures { RefusalsArePrinted }
{}

/// And the checker finds that there is none, for the names, the held and the asked properties of the object.
pub fn law_refusals_are_found()
    ensures { RefusalsAreFound }
{}
