// Worked examples of what clients and objects are judged by: what a client may read and answer, when its run is
// sound, and when an object is honest. It has no code.

ghost use Rattle.pm_examples_values.specs.ObjectExamples.{ObjectsAreJudged};
ghost use Rattle.pm_examples_values.specs.RunExamples.{AnswersAreJudged, ConditionsAreMet, OrdersAreKept, RunsAreJudged, RunsMayBegin};

/// When a client may run.
pub fn example_runs_begin()
    ensures { RunsMayBegin }
{}

/// Of which things the conditions of a client hold.
pub fn example_conditions()
    ensures { ConditionsAreMet }
{}

/// Which orders a client may choose.
pub fn example_orders_kept()
    ensures { OrdersAreKept }
{}

/// What a client may answer, and what it may not.
pub fn example_answers()
    ensures { AnswersAreJudged }
{}

/// Which runs of a client are sound.
pub fn example_sound_runs()
    ensures { RunsAreJudged }
{}

/// Which objects are honest, and which are kept so.
pub fn example_honest_objects()
    ensures { ObjectsAreJudged }
{}
