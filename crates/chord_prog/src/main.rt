//! The program: the words of the command line without the program's name, standard input and standard output go to the top call
//! as they are.
//! Stands on: chord_run, chord_io. Used by: nobody.
//! Promise: where the words cannot be had the number that it ends with is 7 if there is no memory for them, and else 2, since words
//! which are not text are no words of the command line (`without_words`); else it is the status of a report of which the headline of
//! `chord` holds, for these words (`answer`). That `main` calls these, and with the words of the command line, no clause says.
//! Not here: any other decision.
#![tactic(auto)]

ghost use Rattle.std.specs.Prelude.{◌≡◌, ◌⊎◌};
ghost use Rattle.std.specs.Process.{exit_status};
ghost use Rattle.chord_run.specs.Answers.{Answers, IsSilence, IsSilent};
ghost use Rattle.chord_run.specs.Command.{AreAccepted, Requests, argument_bytes};
ghost use Rattle.chord_run.specs.Due.{source_contents};
ghost use Rattle.chord_run.specs.Rows.{NoneFailed, RefusesOthers, RunsAccepted};
ghost use Rattle.chord_run.specs.declared.command.Request as asked;
ghost use Rattle.chord_run.specs.declared.report.Report as reported;

use chord_io::{Sink, Source, StdSink, StdSource};
use chord_run::{Gate, Report, chord};
use std::alloc::Global;
use std::io::ErrorKind;
use std::process::ExitCode;
use std::rt::Env;
use std::sync::Wait;
use std::thread::Threads;
use std::{env, io, mem};

/// The gate that does nothing.
struct Open;

impl Gate for Open {
    fn started(&self, _body: u32) {}
}

/// The words of the command line, without the program's name.
fn words<R: Env + Alloc<A = Global>>(rt: &R) -> io::Result<Vec<String>> {
    Ok(env::args(rt)?.skip(1).collect(rt.alloc())?)
}

/// The end where the words cannot be had: out of memory, or other words than those of the command line.
fn without_words(kind: ErrorKind) -> ExitCode
    ensures memory { kind ≡ ErrorKind.OutOfMemory → exit_status result ≡ 7 }
    ensures other { (kind ≡ ErrorKind.OutOfMemory → ⊥) → exit_status result ≡ 2 }
{
    match kind {
        ErrorKind::OutOfMemory => ExitCode::from(7),
        _ => ExitCode::from(2),
    }
}

/// The end after a report.
fn after(report: Report) -> ExitCode
    ensures { exit_status result ≡ report.status }
{
    let status = report.status;
    // The process ends here and its memory goes back as a whole, so the journal and the table are not dropped entry by entry.
    mem::forget(report);
    ExitCode::from(status)
}

/// What these words ask for, as `chord` answers them; the process ends with the status of its report.
fn answer<R: Threads + Wait + Sync, S: Source, K: Sink>(
    rt: &R,
    alloc: Global,
    words: &[String],
    source: &mut S,
    sink: &mut K,
) -> ExitCode
    // The headline of `chord`, for these words.
    ensures headline { (report : reported.Report) × (exit_status result ≡ report.status)
        × (IsSilence report (K.taken sink.old) (K.taken sink.new) ⊎ Answers (argument_bytes words.now) (S.left source.old) report (K.taken sink.old) (K.taken sink.new))
        × (IsSilent report.status → IsSilence report (K.taken sink.old) (K.taken sink.new)) }
    // Words are told to be wrong exactly where they are, unless memory runs out.
    ensures words { exit_status result ≡ 2 → AreAccepted (argument_bytes words.now) → ⊥ }
    ensures words_exactly { (exit_status result ≡ 2) ⊎ (exit_status result ≡ 7) ⊎ AreAccepted (argument_bytes words.now) }
    // Where the contents of the source are specified and no I/O call failed, a source has its answer, unless memory runs out.
    ensures accepted { (request : asked.Request) → Requests (argument_bytes words.now) request
        → NoneFailed (S.faults source.old) (S.faults source.new) (K.faults sink.old) (K.faults sink.new)
        → RunsAccepted request.mode (source_contents request (S.left source.old)) (exit_status result) }
    ensures not_accepted { (request : asked.Request) → Requests (argument_bytes words.now) request
        → NoneFailed (S.faults source.old) (S.faults source.new) (K.faults sink.old) (K.faults sink.new)
        → RefusesOthers (source_contents request (S.left source.old)) (exit_status result) }
{
    after(chord(rt, alloc, words, source, sink, &Open))
}

fn main(rt: HostRuntime) -> ExitCode {
    let words = match words(&rt) {
        Ok(words) => words,
        Err(error) => return without_words(error.kind()),
    };
    let mut source = StdSource::new(rt.stdin());
    let mut sink = StdSink::new(rt.stdout());
    answer(&rt, rt.alloc(), &words, &mut source, &mut sink)
}
