// Examples of commands.

ghost use Rattle.pm_command.specs.Examples.{CommandsAreRead, NoCommandsAreRead};

/// Which words ask for properties, which lines make objects, and which lines are no commands.
pub fn example_commands()
    ensures read { CommandsAreRead }
    ensures none { NoCommandsAreRead }
{}
