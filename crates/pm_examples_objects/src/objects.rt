// Worked examples of objects with linear programs, and of their data files: what is held, taken, read, loaded and
// saved, and what is not. It has no code, and knows nothing of commands, rules that run, and sessions.

ghost use Rattle.pm_examples_objects.specs.Filing.{FilesAreLoaded, ObjectsAreSaved};
ghost use Rattle.pm_examples_objects.specs.LoadedAgain.{LoadedIsAgain};
ghost use Rattle.pm_examples_objects.specs.Programs.{NamesArePrograms, NamesHavePlaces, ObjectivesAreGiven, ObjectivesAreTaken, ProgramsAreRefused, ProgramsAreSealed, ValuesArePlaced};
ghost use Rattle.pm_examples_objects.specs.Reading.{KeysAreRead, PartsAreRead, ProfilesAreRead, RowsAreTested, TypesAreRead};
ghost use Rattle.pm_examples_objects.specs.Whole.{FilesAreWhole, ObjectsAreAgain};

/// The places of names.
pub fn example_places()
    ensures { NamesHavePlaces }
{}

/// Which programs are not added.
pub fn example_refused_programs()
    ensures { ProgramsAreRefused }
{}

/// Which names are those of programs, and which are not.
pub fn example_programs()
    ensures { NamesArePrograms }
{}

/// Where values stand, and where not.
pub fn example_placed()
    ensures { ValuesArePlaced }
{}

/// What is given to an object and to a program, and what is not.
pub fn example_given()
    ensures { ObjectivesAreGiven }
{}

/// What seals a program, and what leaves it open.
pub fn example_sealed()
    ensures { ProgramsAreSealed }
{}

/// Which objectives are taken, and why others are not.
pub fn example_taken()
    ensures { ObjectivesAreTaken }
{}

/// How types are read, and how not.
pub fn example_types_read()
    ensures { TypesAreRead }
{}

/// How keys are read, and how not.
pub fn example_keys_read()
    ensures { KeysAreRead }
{}

/// How values are read, and how not.
pub fn example_parts_read()
    ensures { PartsAreRead }
{}

/// How profiles are read, and how not.
pub fn example_profiles_read()
    ensures { ProfilesAreRead }
{}

/// How columns and rows are tested, and how not.
pub fn example_rows_read()
    ensures { RowsAreTested }
{}

/// What an object has of a file: origins and marks.
pub fn example_loaded()
    ensures { FilesAreLoaded }
{}

/// What a file has of an object: stored values and marks.
pub fn example_saved()
    ensures { ObjectsAreSaved }
{}

/// Which files are whole, and which are the same.
pub fn example_whole()
    ensures { FilesAreWhole }
{}

/// What is loaded again of held values and failures.
pub fn example_again()
    ensures { ObjectsAreAgain }
{}

/// Which files of a small cone are loaded again, and which are not.
pub fn example_loaded_again()
    ensures { LoadedIsAgain }
{}
