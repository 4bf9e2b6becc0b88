// Laws of honesty.

ghost use Rattle.pm_object.specs.Laws.{BasedIsKept, CommitIsHonest, EmptyIsKept, HonestyIsOfValues, ObjectiveIsKept, SettledIsKept};

/// An object that holds nothing is honest.
pub fn law_empty_is_kept()
    ensures { EmptyIsKept }
{}

/// An object without rounds stays honest with more given and stored values.
pub fn law_based_is_kept()
    ensures { BasedIsKept }
{}

/// An object stays honest with an objective that is given to a program of it, also once rounds were started for it.
pub fn law_objective_is_kept()
    ensures { ObjectiveIsKept }
{}

/// Settling leaves an object honest.
pub fn law_settled_is_kept()
    ensures { SettledIsKept }
{}

/// An honest object stays honest with what a client may answer on it.
pub fn law_commit_is_honest()
    ensures { CommitIsHonest }
{}

/// Rounds, exclusions and disabled labels do not touch honesty.
pub fn law_honesty_is_of_values()
    ensures { HonestyIsOfValues }
{}
