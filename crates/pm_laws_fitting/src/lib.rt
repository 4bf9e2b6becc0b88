//! What fits by its size is answered: a bound of the entries and the columns of what a client reads, by which a client
//! by wide numbers fails for want of memory or for a count alone. It has no code. It knows nothing of how an answer is
//! found.
#![tactic(auto)]

ghost use Rattle.pm_laws_fitting.specs.Answers.{PartsAreNeverLostByCount, WhatFitsIsAnswered};
ghost use Rattle.pm_laws_fitting.specs.Examples.{SizesAreRead};
ghost use Rattle.pm_laws_fitting.specs.Objects.{EventsKeepFitting, OneBoundDoes};

/// With few lines double description is never lost.
pub fn law_parts_are_never_lost_by_count()
    ensures { PartsAreNeverLostByCount }
{}

/// Each wide client that fails only where something is lost fails for want of memory or for a count, where what it
/// reads fits by its size.
pub fn law_what_fits_is_answered()
    ensures { WhatFitsIsAnswered }
{}

/// One bound does: of what an object holds the given description alone is to fit.
pub fn law_one_bound_does()
    ensures { OneBoundDoes }
{}

/// A description that fits stays so after each event.
pub fn law_events_keep_fitting()
    ensures { EventsKeepFitting }
{}

/// Which views fit by their size.
pub fn example_sizes()
    ensures { SizesAreRead }
{}
