ghost use Rattle.std.specs.Prelude.{◌≡◌, true, map, string_bytes, option_map, IfOk};
ghost use Rattle.clap.specs.Words.{app_of, with_rule, is_simple_and_free, first_of, rows_of, found_of};
ghost use Rattle.job_words.specs.Commands.{plain_app, with_positional, with_option, with_settings, flag_rule, solve_app, check_app, gen_app, race_app, rows_of_words, FindsRows};

use crate::job::WordFault;
use clap::error::ErrorKind;
use clap::{Arg, ArgAction, ArgMatches, Command};
use lit_base::NoMemory;
use std::alloc::Global;

/// The command `solve`.
pub(crate) fn solve_command<'a>(alloc: Global) -> Result<Command<'a>, NoMemory>
    ensures { IfOk result (λ command. app_of command ≡ solve_app) }
{
    let command = with_positional(alloc, plain_command(alloc, "solve"), "file")?;
    let command = with_settings(alloc, command)?;
    let command = with_option(alloc, command, "workers")?;
    let command = with_option(alloc, command, "log")?;
    with_flag(alloc, command, "trace")
}

/// The command `check`.
pub(crate) fn check_command<'a>(alloc: Global) -> Result<Command<'a>, NoMemory>
    ensures { IfOk result (λ command. app_of command ≡ check_app) }
{
    let command = with_positional(alloc, plain_command(alloc, "check"), "file")?;
    with_positional(alloc, command, "proof")
}

/// The command `gen`.
pub(crate) fn gen_command<'a>(alloc: Global) -> Result<Command<'a>, NoMemory>
    ensures { IfOk result (λ command. app_of command ≡ gen_app) }
{
    let command = with_positional(alloc, plain_command(alloc, "gen"), "kind")?;
    let command = with_positional(alloc, command, "n")?;
    with_option(alloc, command, "seed")
}

/// The command `race`.
pub(crate) fn race_command<'a>(alloc: Global) -> Result<Command<'a>, NoMemory>
    ensures { IfOk result (λ command. app_of command ≡ race_app) }
{
    let command = with_positional(alloc, plain_command(alloc, "race"), "kind")?;
    let command = with_positional(alloc, command, "n")?;
    with_settings(alloc, command)
}

/// A command without arguments, which knows no word for help or for the version.
fn plain_command<'a>(alloc: Global, name: &'a str) -> Command<'a>
    ensures { app_of result ≡ plain_app name.entry.now }
{
    Command::new(alloc, name)
        .disable_help_flag(true)
        .disable_version_flag(true)
}

/// A command with one more positional argument, which is required.
fn with_positional<'a>(
    alloc: Global,
    command: Command<'a>,
    name: &'a str,
) -> Result<Command<'a>, NoMemory>
    ensures { IfOk result (λ more. app_of more ≡ with_positional (app_of command.entry) name.entry.now) }
{
    let positional = Arg::new(alloc, name).required(true).action(ArgAction::Set);
    Ok(command.arg(positional)?)
}

/// A command with one more option, which has a value.
fn with_option<'a>(
    alloc: Global,
    command: Command<'a>,
    name: &'a str,
) -> Result<Command<'a>, NoMemory>
    ensures { IfOk result (λ more. app_of more ≡ with_option (app_of command.entry) name.entry.now) }
{
    let option = Arg::new(alloc, name).long(name).action(ArgAction::Set);
    Ok(command.arg(option)?)
}

/// A command with one more option, which has no value.
fn with_flag<'a>(
    alloc: Global,
    command: Command<'a>,
    name: &'a str,
) -> Result<Command<'a>, NoMemory>
    ensures { IfOk result (λ more. app_of more ≡ with_rule (app_of command.entry) (flag_rule name.entry.now)) }
{
    let flag = Arg::new(alloc, name).long(name).action(ArgAction::SetTrue);
    Ok(command.arg(flag)?)
}

/// A command with the options of the settings.
fn with_settings<'a>(alloc: Global, command: Command<'a>) -> Result<Command<'a>, NoMemory>
    ensures { IfOk result (λ more. app_of more ≡ with_settings (app_of command.entry)) }
{
    let command = with_option(alloc, command, "cores")?;
    let command = with_option(alloc, command, "period")?;
    let command = with_option(alloc, command, "share")?;
    let command = with_option(alloc, command, "limit")?;
    with_option(alloc, command, "seed")
}

/// What a command finds in words, of which the first is its own.
#[tactic(auto, unfolding(crate::specs::Commands::rows_of_words))]
pub(crate) fn found_in<'a>(
    command: Command<'a>,
    words: &'a [String],
) -> Result<ArgMatches<'a>, WordFault>
    requires { is_simple_and_free (app_of command) ≡ true }
    ensures { FindsRows (rows_of_words (app_of command.entry) (map string_bytes words.now)) result }
{
    match command.try_get_matches_from(words) {
        Ok(matches) => Ok(matches),
        Err(error) => match error.kind() {
            ErrorKind::OutOfMemory => Err(WordFault::NoMemory),
            _ => Err(WordFault::Usage),
        },
    }
}

/// The value under a name, where there is one.
pub(crate) fn value_at<'a>(matches: &ArgMatches<'a>, name: &str) -> Option<&'a str>
    ensures { option_map (λ text. text.now) result ≡ first_of name.now (rows_of (found_of matches.now)) }
{
    matches.get_str(name)
}
