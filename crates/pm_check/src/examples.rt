// What the program answers, worked by hand.

ghost use Rattle.pm_check.specs.Examples.{PlacesAreTold, RunsEnd, VerdictsOfBooks, WordsAsk, WordsAskNothing};

/// What words ask of the program, which words are none of it, and which ask no question.
pub(crate) fn example_words()
    ensures asked { WordsAsk }
    ensures nothing { WordsAskNothing }
{}

/// Faults of books with their lines and columns, and the line of a book without one.
pub(crate) fn example_places()
    ensures { PlacesAreTold }
{}

/// The verdict on the text `plan 0`, and what no verdict on it is.
pub(crate) fn example_verdicts()
    ensures { VerdictsOfBooks }
{}

/// How runs end, and how none ends.
pub(crate) fn example_runs()
    ensures { RunsEnd }
{}
