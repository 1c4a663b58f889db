//! The words as clap matches them, by the table of the program's options.
ghost use Rattle.std.specs.Prelude.{◌≡◌, false, OnOk, IfOk, IsErrOf, map, option_map};
ghost use Rattle.std.specs.String.{string_bytes};
ghost use Rattle.clap.specs.Words.{app_of, first_of, found_of, matches_of, rows_of, rule_of, with_rule};
ghost use Rattle.sf_app_options.specs.Command.{HasMatches, bare, flag, sf_command, valued};

use crate::options::OptionsFault;
use clap::error::ErrorKind;
use clap::{Arg, ArgAction, ArgMatches, Command};
use std::alloc::{AllocError, Global};

/// An option with a value.
fn valued<'a>(alloc: Global, name: &'a str) -> Arg<'a>
    ensures rule { rule_of result ≡ valued name.entry.now }
    ensures local { result.global ≡ false }
{
    Arg::new(alloc, name).long(name).action(ArgAction::Set)
}

/// An option that is there or not.
fn flag<'a>(alloc: Global, name: &'a str) -> Arg<'a>
    ensures rule { rule_of result ≡ flag name.entry.now }
    ensures local { result.global ≡ false }
{
    Arg::new(alloc, name).long(name).action(ArgAction::SetTrue)
}

fn with<'a>(command: Command<'a>, arg: Arg<'a>) -> Result<Command<'a>, AllocError>
    requires { arg.global ≡ false }
    ensures { IfOk result (λ c. app_of c ≡ with_rule (app_of command.entry) (rule_of arg.entry)) }
{
    let next = command.arg(arg)?;
    Ok(next)
}

/// A command without options, for words that begin behind the program's name.
fn bare<'a>(alloc: Global) -> Command<'a>
    ensures { app_of result ≡ bare }
{
    Command::new(alloc, "sf_main").no_binary_name(true)
}

/// The command with its five options.
fn command<'a>(alloc: Global) -> Result<Command<'a>, AllocError>
    ensures { IfOk result (λ c. app_of c ≡ sf_command) }
{
    let command = with(bare(alloc), valued(alloc, "run"))?;
    let command = with(command, valued(alloc, "workers"))?;
    let command = with(command, valued(alloc, "number"))?;
    let command = with(command, flag(alloc, "summary"))?;
    let command = with(command, valued(alloc, "intake"))?;
    Ok(command)
}

/// The matches of the words.
pub(crate) fn matched<'a>(
    alloc: Global,
    words: &'a [String],
) -> Result<ArgMatches<'a>, OptionsFault>
    ensures right { OnOk result (HasMatches (map string_bytes words.entry.now)) }
    ensures wrong { IsErrOf result OptionsFault.WrongWords → ¬ HasMatches (map string_bytes words.entry.now) }
    ensures given { IfOk result (λ m. rows_of (found_of m) ≡ matches_of sf_command (map string_bytes words.entry.now)) }
{
    let command = match command(alloc) {
        Ok(command) => command,
        Err(_) => return Err(OptionsFault::NoMemory),
    };
    match command.try_get_matches_from(words) {
        Ok(matches) => Ok(matches),
        Err(error) => match error.kind() {
            ErrorKind::OutOfMemory => Err(OptionsFault::NoMemory),
            _ => Err(OptionsFault::WrongWords),
        },
    }
}

/// The text that the matches have first for an option, if it is given or has one by itself.
pub(crate) fn text_of<'a>(matches: &ArgMatches<'a>, id: &str) -> Option<&'a str>
    ensures { option_map (λ text. text.now) result ≡ first_of id.now (rows_of (found_of matches.now)) }
{
    matches.get_str(id)
}
