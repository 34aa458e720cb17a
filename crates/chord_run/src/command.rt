//! What the arguments of the command line request.
#![tactic(auto)]

ghost use Rattle.std.specs.Prelude.{◌≡◌, IfErr, IfNone, IfOk, IfSome, option_map};
ghost use Rattle.std.specs.Str.{all_ascii_digits};
ghost use Rattle.clap.specs.Words.{found_of, rows_of};
ghost use Rattle.chord_run.specs.declared.command.Request as asked;
ghost use Rattle.chord_run.specs.Command as words;
ghost use Rattle.chord_run.specs.Command.{AreAccepted, IsBounded, Requests, Says, argument_bytes};

use crate::words::{WordsFault, matches_among};
use chord_base::event::Limits;
use clap::ArgMatches;
use std::alloc::Global;

/// The events that a run may have at least and at most; the most where the arguments name no number.
const LEAST_EVENTS: u32 = 16;

const MOST_EVENTS: u32 = 65_536;

/// The turns that a body may have at most; as many where the arguments name no number.
const MOST_TURNS: u32 = 1_000_000;

/// The depth of a body.
const DEPTH: u32 = 256;

/// The workers of a run at most, and where the arguments name no number.
const MOST_WORKERS: u32 = 64;

const DEFAULT_WORKERS: u32 = 4;

/// The largest number from which a source is made.
const MOST_LOAD: u32 = 60;

/// The digits of a number at most.
const MOST_DIGITS: usize = 7;

/// What is done with a source.
#[derive(Clone, Copy, Debug, PartialEq, Eq)]
pub enum Mode {
    /// It is run, and the lines of its journal are written.
    Run,
    /// It is looked at, and `ok` is written where it is accepted.
    Rules,
    /// The listing of its code is written.
    Code,
    /// The source made from this number, 1 to 60, is run; the lines of its journal are written, and then its line of counts.
    Load(u32),
}

/// What the arguments request.
#[derive(Clone, Copy)]
pub struct Request {
    pub mode: Mode,
    /// The limits of the run, where the mode makes one: 16 to 65,536 events.
    pub limits: Limits,
    /// How many workers make the run: 1 to 64.
    pub workers: u32,
    /// The run is made on one thread, by no workers.
    pub one: bool,
    /// The text of the journal is written behind what else is due for it.
    pub journal: bool,
}

/// The number from which a mode makes its source, if it makes one.
pub fn made_from(mode: Mode) -> Option<u32>
    ensures { result ≡ words.made_from mode }
{
    match mode {
        Mode::Load(k) => Some(k),
        Mode::Run => None,
        Mode::Rules => None,
        Mode::Code => None,
    }
}

/// What the arguments request.
///
/// # Errors
///
/// `Refused` where they are not accepted, and `Memory` where the call ran out of memory.
pub fn request_of(alloc: Global, arguments: &[String]) -> Result<Request, WordsFault>
    ensures requested { IfOk result (λ request. Requests (argument_bytes arguments.now) request) }
    ensures bounded { IfOk result (λ request. IsBounded request) }
    ensures refused { IfErr result (λ fault. fault ≡ WordsFault.Refused → AreAccepted (argument_bytes arguments.now) → ⊥) }
{
    let matches = matches_among(alloc, arguments)?;
    match request_by(&matches) {
        Some(request) => Ok(request),
        None => Err(WordsFault::Refused),
    }
}

/// What is said by what was given.
fn request_by(matches: &ArgMatches<'_>) -> Option<Request>
    ensures some { IfSome result (λ request. Says (rows_of (found_of matches.now)) request) }
    ensures bounded { IfSome result (λ request. IsBounded request) }
    ensures none { IfNone result ((request : asked.Request) → Says (rows_of (found_of matches.now)) request → ⊥) }
{
    let mode = mode_of(given(matches, "K"), given(matches, "MODE")?)?;
    let limits = limits_of(given(matches, "events"), given(matches, "turns"))?;
    let workers = value_within(DEFAULT_WORKERS, 1, MOST_WORKERS, given(matches, "workers"))?;
    Some(Request {
        mode,
        limits,
        workers,
        one: is_on(given(matches, "one")),
        journal: is_on(given(matches, "journal")),
    })
}

/// What was given under a name.
fn given<'a>(matches: &ArgMatches<'a>, name: &str) -> Option<&'a str>
    ensures { option_map (λ s. s.now) result ≡ words.given (rows_of (found_of matches.now)) name.now }
{
    matches.get_str(name)
}

/// Whether a flag was given.
fn is_on(text: Option<&str>) -> bool
    ensures { result ≡ words.is_on (option_map (λ s. s.now) text.entry) }
{
    match text {
        Some(text) => text == "true",
        None => false,
    }
}

/// The mode of a name and K.
fn mode_of(k: Option<&str>, name: &str) -> Option<Mode>
    ensures { result ≡ words.mode_of (option_map (λ s. s.now) k.entry) name.now }
{
    if name == "run" {
        without_k(Mode::Run, k)
    } else if name == "rules" {
        without_k(Mode::Rules, k)
    } else if name == "code" {
        without_k(Mode::Code, k)
    } else if name == "load" {
        load_of(k)
    } else {
        None
    }
}

/// A mode that takes no K.
fn without_k(mode: Mode, k: Option<&str>) -> Option<Mode>
    ensures { result ≡ words.without_k mode (option_map (λ s. s.now) k.entry) }
{
    match k {
        None => Some(mode),
        Some(_) => None,
    }
}

/// The mode `load`, which takes K.
fn load_of(k: Option<&str>) -> Option<Mode>
    ensures { result ≡ words.load_of (option_map (λ s. s.now) k.entry) }
{
    Some(Mode::Load(number_within(1, MOST_LOAD, k?)?))
}

/// The limits of a run.
fn limits_of(events: Option<&str>, turns: Option<&str>) -> Option<Limits>
    ensures { result ≡ words.limits_of (option_map (λ s. s.now) events.entry) (option_map (λ s. s.now) turns.entry) }
{
    Some(Limits {
        events: value_within(MOST_EVENTS, LEAST_EVENTS, MOST_EVENTS, events)?,
        turns: value_within(MOST_TURNS, 1, MOST_TURNS, turns)?,
        depth: DEPTH,
    })
}

/// The value of an option within its bounds; where it is not given, `otherwise`.
fn value_within(otherwise: u32, low: u32, high: u32, text: Option<&str>) -> Option<u32>
    ensures { result ≡ words.value_within otherwise low high (option_map (λ s. s.now) text.entry) }
{
    match text {
        None => Some(otherwise),
        Some(text) => number_within(low, high, text),
    }
}

/// The number that a text says, where it is within these bounds.
fn number_within(low: u32, high: u32, text: &str) -> Option<u32>
    ensures { result ≡ words.number_within low high text.now }
{
    let number = number_said(text)?;
    if low <= number && number <= high {
        Some(number)
    } else {
        None
    }
}

/// The number that a text of one to seven decimal digits says.
fn number_said(text: &str) -> Option<u32>
    ensures { result ≡ words.number_said text.now }
{
    if !is_number(text.as_bytes()) {
        return None;
    }
    text.parse::<u32>().ok()
}

/// Whether a text is one to seven decimal digits.
fn is_number(text: &[u8]) -> bool
    ensures { result ≡ words.is_number text.now }
{
    !text.is_empty() && text.len() <= MOST_DIGITS && are_digits(text)
}

/// Whether each byte is a decimal digit.
fn are_digits(text: &[u8]) -> bool
    ensures { result ≡ all_ascii_digits text.now }
{
    for byte in text {
        if !byte.is_ascii_digit() {
            return false;
        }
    }
    true
}
