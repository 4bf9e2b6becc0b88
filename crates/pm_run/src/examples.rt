// The definitions of a run, worked by hand.

ghost use Rattle.pm_run.specs.DemoExamples.{DemoIsRead};
ghost use Rattle.pm_run.specs.Examples.{BooksAreChosen, LinesAreRead, LinesAreRefused};
ghost use Rattle.pm_run.specs.ShippedExamples.{AnswersAreShipped, ClientsAreShipped, FailuresAreShipped, KindsAreShipped};

/// Which lines a run read, how a line is refused, and which book a run goes by: what holds, and what does not.
pub(crate) fn example_runs()
    ensures lines { LinesAreRead }
    ensures refusals { LinesAreRefused }
    ensures books { BooksAreChosen }
{}

/// The script of the demo: its lines, and that each of them is a command.
pub(crate) fn example_demo()
    ensures { DemoIsRead }
{}

/// What the clients of the program say of themselves: which there are, which of them answer where nothing is read, and
/// with what they may fail there.
pub(crate) fn example_shipped()
    ensures clients { ClientsAreShipped }
    ensures answers { AnswersAreShipped }
    ensures failures { FailuresAreShipped }
    ensures kinds { KindsAreShipped }
{}
