// What the verdicts mean for all chains.

ghost use Rattle.pm_printed.specs.Judging.{PrintedPlansAreAccepted, PrintedRefusalsAreAccepted, ProvedPlansAreLeast, ProvedRefusalsExclude};

/// A plan that proves itself least is least, among all chains.
pub fn law_proved_plans_are_least()
    ensures { ProvedPlansAreLeast }
{}

/// Where a refusal proves it, no chain leads to the asked names that avoids the barred rules.
pub fn law_proved_refusals_exclude()
    ensures { ProvedRefusalsExclude }
{}

/// What is printed of a plan that proves itself least is found least.
pub fn law_printed_plans_are_accepted()
    ensures { PrintedPlansAreAccepted }
{}

/// What is printed of a refusal that proves that there is no chain is found to prove it.
pub fn law_printed_refusals_are_accepted()
    ensures { PrintedRefusalsAreAccepted }
{}
