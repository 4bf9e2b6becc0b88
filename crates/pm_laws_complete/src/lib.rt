//! What the standard book finds, and each book that begins with it: of a polytope or cone that holds one of the four
//! descriptions, each property of its type; and what a command finds by any book: all that is asked, where a chain
//! leads to it and no client fails. It has no code. It knows nothing of how an answer is found.
#![tactic(auto)]

ghost use Rattle.pm_laws_complete.specs.Comes.{GiveComes, StandardChainLeadsNow, ValueComes};
ghost use Rattle.pm_laws_complete.specs.Completeness.{StandardBookIsComplete};
ghost use Rattle.pm_laws_complete.specs.Examples.{DescriptionsAreRead, ObjectsAreRead};
ghost use Rattle.pm_laws_complete.specs.Given.{FormedAreOwn, GivenLeadsNow, RefusedExcludesMore, SettledHoldsAlone, UntouchedBarsNothing};
ghost use Rattle.pm_laws_complete.specs.GivenExamples.{GivenIsRead, LongerBooksAreRead};
ghost use Rattle.pm_laws_complete.specs.LongerBooks.{ChainsStay, LongerBooksAreComplete, LongerBooksLeadNow, WideBookIsComplete, WideChainLeadsNow};
ghost use Rattle.pm_laws_complete.specs.Objects.{SomeChainLeads};
ghost use Rattle.pm_laws_complete.specs.Spared.{KeptRulesStayFree, SparedGiveComes, SparedIsFound};
ghost use Rattle.pm_laws_complete.specs.SparedExamples.{SparedIsRead};

/// From each of the four descriptions the standard book has a chain to each property of polytopes, and of cones.
pub fn law_standard_book_is_complete()
    ensures { StandardBookIsComplete }
{}

/// Where an object holds one description alone, and no rule is barred for it, no property of its table is refused for
/// want of a chain.
pub fn law_some_chain_leads()
    ensures { SomeChainLeads }
{}

/// Where a chain of rules that are not barred leads from the settled object to what is asked, the planner is not
/// crowded and no started rule fails or finds a false precondition, all that is asked is found.
pub fn law_value_comes()
    ensures { ValueComes }
{}

/// So `give` is not refused for want of a chain, where one led there as the object was settled and no rule that it
/// started failed or found a false precondition.
pub fn law_give_comes()
    ensures { GiveComes }
{}

/// By the standard book one leads there, where the settled object is a polytope or cone that holds one description
/// alone, and nothing is barred for it: then the value comes, or the planner is crowded, or a rule failed.
pub fn law_standard_chain_leads_now()
    ensures { StandardChainLeadsNow }
{}

/// Which names are held where a description is, and no other name that has a tag.
pub fn example_descriptions()
    ensures { DescriptionsAreRead }
{}

/// When no rule is barred for an object.
pub fn example_objects()
    ensures { ObjectsAreRead }
{}

/// Rules that no event excludes stay free.
pub fn law_kept_rules_stay_free()
    ensures { KeptRulesStayFree }
{}

/// Ensuring does not end for want of a chain where rules of which chains lead on are not excluded, whatever others are.
pub fn law_spared_is_found()
    ensures { SparedIsFound }
{}

/// Nor is `give` refused for want of one.
pub fn law_spared_give_comes()
    ensures { SparedGiveComes }
{}

/// Which events spare rules.
pub fn example_spared()
    ensures { SparedIsRead }
{}

/// What a chain of a book leads to, it leads to by each book that begins with it, where none of its rules is barred.
pub fn law_chains_stay()
    ensures { ChainsStay }
{}

/// Each book that begins with the standard rules has a chain from each of the four descriptions to each property.
pub fn law_longer_books_are_complete()
    ensures { LongerBooksAreComplete }
{}

/// So has the wide book, by which a data file is asked.
pub fn law_wide_book_is_complete()
    ensures { WideBookIsComplete }
{}

/// By each such book a chain leads to a property now, where the object holds one description alone and no standard rule
/// is barred for it.
pub fn law_longer_books_lead_now()
    ensures { LongerBooksLeadNow }
{}

/// So one does by the wide book.
pub fn law_wide_chain_leads_now()
    ensures { WideChainLeadsNow }
{}

/// The values of every object stand so: those that are not of linear programs in the object itself.
pub fn law_formed_are_own()
    ensures { FormedAreOwn }
{}

/// An object that is given by one description or the first half of one holds the description alone once it is settled,
/// if no round was started for it.
pub fn law_settled_holds_alone()
    ensures { SettledHoldsAlone }
{}

/// No standard rule is barred for an object for which no rule was excluded and no label disabled, where its clients are
/// there and no precondition is false.
pub fn law_untouched_bars_nothing()
    ensures { UntouchedBarsNothing }
{}

/// From an object that is given so, as it is settled, a chain of each such book leads to each property.
pub fn law_given_leads_now()
    ensures { GivenLeadsNow }
{}

/// So where `give` is refused for want of a chain to a property of such an object, it has excluded a rule, and one of
/// its rounds tells which.
pub fn law_refused_excludes_more()
    ensures { RefusedExcludesMore }
{}

/// Which rules the wide book has, and what is not found by a book without rules.
pub fn example_longer_books()
    ensures { LongerBooksAreRead }
{}

/// What it is to be given by one description, and what tells that a rule was excluded.
pub fn example_given()
    ensures { GivenIsRead }
{}
