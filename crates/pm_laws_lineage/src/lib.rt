//! What the objects of a run stand for: polars, products, sums, fans of what other objects stand for, and so on. It
//! has no code.
#![tactic(auto)]

ghost use Rattle.pm_laws_lineage.specs.Examples.{FilesAreRead, GivenValuesAreRead, ProgramOfPolarIsShown, ProvenancesAreRead, PolarOfCubeIsShown, PolarsOfCubesAreCrosses};
ghost use Rattle.pm_laws_lineage.specs.Laws.{RunsKeepLineage, ShownIsRight, ShownOfProgramIsRight, StepsInPartKeepLineage};
ghost use Rattle.pm_laws_lineage.specs.Runs.{RunKeepsLineage};
ghost use Rattle.pm_laws_lineage.specs.Saved.{EnsuredIsSaid, LoadedAgainIsRight, LoadedAgainStands, LoadedUnaskedStands, MadeAreSavable, ObjectsAreSavable, StandardBooksKeepHalves, StandardKindsKeepHalves};

/// Along every run that begins without objects, the values of each object are right, in some orders, for each thing
/// that its lineage denotes: whatever the clients answer.
pub fn law_runs_keep_lineage()
    ensures { RunsKeepLineage }
{}

/// So along each run of a script: after each line the values of each object are right, in some orders, for each thing
/// that its lineage denotes, for the polars of what c stood for where it was made by `polar c d`; and so they are where
/// memory runs out in the next command.
pub fn law_run_keeps_lineage()
    ensures { RunKeepsLineage }
{}

/// Where memory runs out in the command that comes after such a run, each object stands for what it stood for.
pub fn law_steps_in_part_keep_lineage()
    ensures { StepsInPartKeepLineage }
{}

/// A value that an object holds is right, in some orders, for each thing that the object stands for.
pub fn law_shown_is_right()
    ensures { ShownIsRight }
{}

/// A value of a linear program of an object is right, in some orders, for each thing that the object stands for, by the
/// objective that the program holds: of what was built, or loaded, as of what was given.
pub fn law_shown_of_program_is_right()
    ensures { ShownOfProgramIsRight }
{}

/// Whatever an object stands for, what is loaded of its file stands for it too, where nothing went without saying.
pub fn law_loaded_again_stands()
    ensures { LoadedAgainStands }
{}

/// So it does where something did, of a savable object: what is loaded stands for whatever the object stands for once
/// that is filled in.
pub fn law_loaded_unasked_stands()
    ensures { LoadedUnaskedStands }
{}

/// What commands make is savable before anything is asked of it.
pub fn law_made_are_savable()
    ensures { MadeAreSavable }
{}

/// Along every run that begins without objects each object is savable for which no round was started; and by rules that
/// keep halves together each one is.
pub fn law_objects_are_savable()
    ensures { ObjectsAreSavable }
{}

/// What is loaded of the file of an honest object holds right values, for every thing for which those that were given
/// or stored are right.
pub fn law_loaded_again_is_right()
    ensures { LoadedAgainIsRight }
{}

/// Nothing goes without saying of an object that was ensured something by rules that keep halves together.
pub fn law_ensured_is_said()
    ensures { EnsuredIsSaid }
{}

/// The kinds of all standard and wide clients keep halves together.
pub fn law_standard_kinds_keep_halves()
    ensures { StandardKindsKeepHalves }
{}

/// So do all books of rules of such kinds, and the standard book.
pub fn law_standard_books_keep_halves()
    ensures { StandardBooksKeepHalves }
{}

/// The polars of the cube are the cross-polytopes.
pub fn example_polars_of_cubes()
    ensures { PolarsOfCubesAreCrosses }
{}

/// After `make c cube n` and `polar c d` the VERTICES of d are right for each cross-polytope.
pub fn example_polar_of_cube()
    ensures { PolarOfCubeIsShown }
{}

/// An optimum of a linear program of the polar of a cube is the cross-polytope's, of the objective that was given.
pub fn example_program_of_polar()
    ensures { ProgramOfPolarIsShown }
{}

/// What a value that is given to a cube itself says of it, and of which properties a lineage knows.
pub fn example_given_values()
    ensures { GivenValuesAreRead }
{}

/// How objects came in a short run.
pub fn example_provenances()
    ensures { ProvenancesAreRead }
{}

/// What is loaded of bytes that were saved, and which kinds of clients leave nothing unsaid.
pub fn example_files()
    ensures { FilesAreRead }
{}
