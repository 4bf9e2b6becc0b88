// What becomes of data files: which are saved as the same bytes again after they were loaded. It has no code. It
// knows nothing of clients and sessions.

ghost use Rattle.pm_laws_texts.specs.LabelExamples.{LabelsAreRead};
ghost use Rattle.pm_laws_texts.specs.SavedAgain.{SavedAgain};

/// What was saved and is loaded is saved as the same bytes again, where settling adds nothing to it and the book has
/// the label of each mark.
pub fn law_saved_again()
    ensures { SavedAgain }
{}

/// Files that are saved again as they were, and files that are not: the book has no rule of some label, or values go
/// without saying.
pub fn example_labels()
    ensures { LabelsAreRead }
{}
