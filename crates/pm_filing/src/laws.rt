// The law of honesty, and the laws of values and files that are read back and read in one way.

ghost use Rattle.pm_filing.specs.Laws.{FilesAreReadBack, LoadedIsKept, SavedIsWhole, ValuesAreReadBack};
ghost use Rattle.pm_filing.specs.ReadingLaws.{ReadingsAreUnique};

/// A value in the form of its property is read back from its JSON.
pub fn law_values_are_read_back()
    ensures { ValuesAreReadBack }
{}

/// Whatever a file holds, the object that is made of it is honest.
pub fn law_loaded_is_kept()
    ensures { LoadedIsKept }
{}

/// The file of an object is whole.
pub fn law_saved_is_whole()
    ensures { SavedIsWhole }
{}

/// A whole file is read back from what is written of it, and is written as the same bytes again.
pub fn law_files_are_read_back()
    ensures { FilesAreReadBack }
{}

/// Bytes are read as one file at most, or refused for one fault at most, and not both.
pub fn law_readings_are_unique()
    ensures { ReadingsAreUnique }
{}
