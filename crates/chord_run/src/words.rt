//! The command of the command line, and what was given on it.
#![tactic(auto)]

ghost use Rattle.std.specs.Prelude.{◌≡◌, IfErr, IfOk, false};
ghost use Rattle.clap.specs.Words.{app_of, found_of, matches_of, rows_of, rule_of};
ghost use Rattle.chord_run.specs.Command as words;
ghost use Rattle.chord_run.specs.Command.{AreTaken, argument_bytes, bare_command, the_command};

use clap::builder::{Arg, ArgAction, Command};
use clap::error::ErrorKind;
use clap::parser::ArgMatches;
use std::alloc::{AllocError, Global};

/// Why nothing is known of the words.
#[derive(Clone, Copy, Debug, PartialEq, Eq)]
pub enum WordsFault {
    /// The call ran out of memory.
    Memory,
    /// They are not accepted: the command does not take them, or what they say is no request.
    Refused,
}

/// What was given on the command line.
pub fn matches_among<'a>(
    alloc: Global,
    arguments: &'a [String],
) -> Result<ArgMatches<'a>, WordsFault>
    ensures taken { IfOk result (λ matches. AreTaken (argument_bytes arguments.now)) }
    ensures rows { IfOk result (λ matches. rows_of (found_of matches) ≡ matches_of the_command (argument_bytes arguments.now)) }
    ensures refused { IfErr result (λ fault. fault ≡ WordsFault.Refused → AreTaken (argument_bytes arguments.now) → ⊥) }
{
    let Ok(command) = command(alloc) else {
        return Err(WordsFault::Memory);
    };
    match command.try_get_matches_from(arguments) {
        Ok(matches) => Ok(matches),
        Err(error) => Err(fault_of(error.kind())),
    }
}

/// Whether memory ran out, or the words are refused.
fn fault_of(kind: ErrorKind) -> WordsFault
    ensures refused { result ≡ WordsFault.Refused → kind ≡ ErrorKind.OutOfMemory → ⊥ }
    ensures memory { result ≡ WordsFault.Memory → kind ≡ ErrorKind.OutOfMemory }
{
    match kind {
        ErrorKind::OutOfMemory => WordsFault::Memory,
        _ => WordsFault::Refused,
    }
}

/// The one command.
fn command<'a>(alloc: Global) -> Result<Command<'a>, AllocError>
    ensures { IfOk result (λ command. app_of command ≡ the_command) }
{
    let command = bare(alloc)
        .arg(positional(alloc, "MODE").required(true))?
        .arg(positional(alloc, "K"))?
        .arg(option(alloc, "workers"))?
        .arg(option(alloc, "events"))?
        .arg(option(alloc, "turns"))?
        .arg(flag(alloc, "one"))?
        .arg(flag(alloc, "journal"))?;
    Ok(command)
}

/// The command without its arguments.
fn bare<'a>(alloc: Global) -> Command<'a>
    ensures { app_of result ≡ bare_command }
{
    Command::new(alloc, "chord")
        .no_binary_name(true)
        .disable_help_flag(true)
        .disable_version_flag(true)
}

/// A word that stands alone.
fn positional<'a>(alloc: Global, name: &'a str) -> Arg<'a>
    ensures rule { rule_of result ≡ words.positional name.entry.now }
    ensures local { result.global ≡ false }
{
    Arg::new(alloc, name).action(ArgAction::Set)
}

/// `--name VALUE` or `--name=VALUE`.
fn option<'a>(alloc: Global, name: &'a str) -> Arg<'a>
    ensures rule { rule_of result ≡ words.option name.entry.now }
    ensures local { result.global ≡ false }
{
    Arg::new(alloc, name).long(name).action(ArgAction::Set)
}

/// `--name` alone.
fn flag<'a>(alloc: Global, name: &'a str) -> Arg<'a>
    ensures rule { rule_of result ≡ words.flag name.entry.now }
    ensures local { result.global ≡ false }
{
    Arg::new(alloc, name).long(name).action(ArgAction::SetTrue)
}
