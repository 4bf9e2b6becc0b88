// The words as clap reads them.

ghost use Rattle.std.specs.Prelude.{◌≡◌, ◌≢◌, true, false, IfOk, IfErr, map, string_bytes};
ghost use Rattle.clap.specs.Words.{app_of, kind_of};
ghost use Rattle.pm_words.specs.Command.{are_taken, words_app};

use clap::error::ErrorKind;
use clap::{Arg, ArgAction, ArgMatches, Command, Error};
use std::alloc::{AllocError, Global};

/// The program's command: three options, and neither help nor version.
fn words_command<'a>(alloc: Global) -> Result<Command<'a>, AllocError>
    ensures { IfOk result (λ c. app_of c ≡ words_app) }
{
    let bare = Command::new(alloc, "polymake")
        .no_binary_name(true)
        .disable_help_flag(true)
        .disable_version_flag(true);
    let rules = Arg::new(alloc, "rules")
        .long("rules")
        .action(ArgAction::Set);
    let with_rules = bare.arg(rules)?;
    let trace = Arg::new(alloc, "trace")
        .long("trace")
        .action(ArgAction::SetTrue);
    let with_trace = with_rules.arg(trace)?;
    let demo = Arg::new(alloc, "demo").long("demo").action(ArgAction::Set);
    let whole = with_trace.arg(demo)?;
    Ok(whole)
}

/// The matches of the words.
fn matches_of<'a>(alloc: Global, words: &'a [String]) -> Result<ArgMatches<'a>, Error>
    ensures { IfErr result (λ e. are_taken (map string_bytes words.entry.now) ≡ true
        → kind_of e ≡ ErrorKind.OutOfMemory) }
{
    let command = words_command(alloc)?;
    command.try_get_matches_from(words)
}

/// Whether the command takes the words.
pub(crate) fn is_taken(alloc: Global, words: &[String]) -> Result<bool, AllocError>
    ensures { IfOk result (λ taken. taken ≡ false → are_taken (map string_bytes words.now) ≢ true) }
{
    match matches_of(alloc, words) {
        Ok(_matches) => Ok(true),
        Err(e) => match e.kind() {
            ErrorKind::OutOfMemory => Err(AllocError),
            _ => Ok(false),
        },
    }
}
