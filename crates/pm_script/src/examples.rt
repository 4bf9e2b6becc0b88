// Examples of the texts of replies.

ghost use Rattle.pm_script.specs.Examples.{RepliesAreRead};

/// The lines of rounds, exclusions, barred rules and plans, and when rounds are told.
pub fn example_replies()
    ensures { RepliesAreRead }
{}
