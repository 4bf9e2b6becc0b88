// The laws of honesty and of evidence, and examples.

ghost use Rattle.pm_machine.specs.BuildingExamples.{ObjectsAreBuilt, OperandsAreRead, ShapesAreMade, WantedIsEnsured};
ghost use Rattle.pm_machine.specs.Examples.{AnswersAreRead, FilesAreKept, ObjectsAreRead, ProgramsAreRead};
ghost use Rattle.pm_machine.specs.RefusalExamples.{RefusalsAreRead};
ghost use Rattle.pm_machine.specs.Widening.{Widens};
ghost use Rattle.pm_machine.specs.Laws.{StepsInPartKeep, StepsInPartKeepEvidence, StepsKeep, StepsKeepEvidence};

/// Whatever a step answers, each object stays honest.
pub fn law_steps_keep()
    ensures { StepsKeep }
{}

/// Whatever part of a step happened, each object is honest.
pub fn law_steps_in_part_keep()
    ensures { StepsInPartKeep }
{}

/// Whatever a step answers, each excluded rule keeps evidence that holds of the object.
pub fn law_steps_keep_evidence()
    ensures { StepsKeepEvidence }
{}

/// Whatever part of a step happened, each excluded rule keeps evidence that holds of the object.
pub fn law_steps_in_part_keep_evidence()
    ensures { StepsInPartKeepEvidence }
{}

/// What some clients say of themselves, for a law that holds whatever it is.
pub trait Meant {
    ghost use Rattle.pm_client.specs.Meanings.{Meanings};

    // What they say.
    ghost meant: { Meanings };
}

/// A run of clients that say something of themselves is one of clients that say nothing: the laws over runs hold of
/// it.
pub fn law_runs_widen<M: Meant>()
    ensures { Widens M.meant }
{}

/// Which reason a command is refused for before it changes anything, and which it is not.
pub fn example_refusals()
    ensures { RefusalsAreRead }
{}

/// What a copy and a drop change, and when they are not done; which origin is told.
pub fn example_objects()
    ensures { ObjectsAreRead }
{}

/// What is asked by names, and what of rounds and labels is told.
pub fn example_answers()
    ensures { AnswersAreRead }
{}

/// What a REF with a part names, when a linear program is made, what it takes and what is told of it.
pub fn example_programs()
    ensures { ProgramsAreRead }
{}

/// What `load` and `save` change, and when they are not done.
pub fn example_files()
    ensures { FilesAreKept }
{}

/// Which standard polytopes `make` makes, when, and what it changes.
pub fn example_shapes()
    ensures { ShapesAreMade }
{}

/// What the commands that build objects ensure of others, and in which order.
pub fn example_wanted()
    ensures { WantedIsEnsured }
{}

/// What is built of other objects and when, and what is told.
pub fn example_building()
    ensures { ObjectsAreBuilt }
{}

/// Which objects a command that builds of others names, of which type they are, and in which order.
pub fn example_operands()
    ensures { OperandsAreRead }
{}
