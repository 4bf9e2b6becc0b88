//! Replies can be told apart by their bytes: the script and what was written tell which values were shown. It has no
//! code.
#![tactic(auto)]

ghost use Rattle.pm_laws_replies.specs.Examples.{RepliesAreTold};
ghost use Rattle.pm_laws_replies.specs.Runs.{RunsAreToldApart};
ghost use Rattle.pm_laws_replies.specs.Scripts.{AnswersAreReplies, AnswersAreToldApart, BookLabelsAreOneLine, BookTextLabelsAreOneLine, LinesAreSpoken};
ghost use Rattle.pm_laws_replies.specs.Told.{LoadedIsOneLine, LoadedNamesAreTold, ProgramLinesShowNoValue, RepliesAreToldApart, RepliesToOneLineShowTheSame, ShownTextsTellValues};

/// Two replies to one line show the same value, or none, where their texts do not differ.
pub fn law_replies_to_one_line_show_the_same()
    ensures { RepliesToOneLineShowTheSame }
{}

/// Two lists of replies to the same lines with one text have the same texts line by line, and show the same values.
pub fn law_replies_are_told_apart()
    ensures { RepliesAreToldApart }
{}

/// The name of a property that is shown tells it, and the text of a value tells that, where it is read back.
pub fn law_shown_texts_tell_values()
    ensures { ShownTextsTellValues }
{}

/// Whatever names a file has, the reply to `load` is one line.
pub fn law_loaded_is_one_line()
    ensures { LoadedIsOneLine }
{}

/// And it tells the names that were read over.
pub fn law_loaded_names_are_told()
    ensures { LoadedNamesAreTold }
{}

/// The line by which `show` tells a linear program is no line of a value.
pub fn law_program_lines_show_no_value()
    ensures { ProgramLinesShowNoValue }
{}

/// Which replies a line may have, and which texts cannot be told apart by their lines alone.
pub fn example_replies_told()
    ensures { RepliesAreTold }
{}

/// The replies of a run are such as their commands may have.
pub fn law_answers_are_replies()
    ensures { AnswersAreReplies }
{}

/// Of two runs over the same lines with one text the replies have the same texts and show the same values.
pub fn law_answers_are_told_apart()
    ensures { AnswersAreToldApart }
{}

/// No label of a book has an LF.
pub fn law_book_labels_are_one_line()
    ensures { BookLabelsAreOneLine }
{}

/// Nor has a label of rules that a text spells.
pub fn law_book_text_labels_are_one_line()
    ensures { BookTextLabelsAreOneLine }
{}

/// What a line is read as, it speaks.
pub fn law_lines_are_spoken()
    ensures { LinesAreSpoken }
{}

/// The script and the bytes that a run wrote tell which values it showed: two runs over the same lines by one book, the
/// standard one or one that was read, that wrote the same text show the same values, line by line.
pub fn law_runs_are_told_apart()
    ensures { RunsAreToldApart }
{}
