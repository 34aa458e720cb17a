//! The top call: reads a source, runs it, and writes its lines.
#![tactic(auto)]

ghost use Rattle.std.specs.Prelude.{◌≡◌, ℕ, ◌<◌, ◌≤◌, ◌⊎◌, IfOk, IsOk, None, Some, codes, length};
ghost use Rattle.chord_base.specs.Machine.{IsComplete, IsRun};
ghost use Rattle.chord_io.specs.Faults.{Rose};
ghost use Rattle.chord_code.specs.Meaning.{code_program};
ghost use Rattle.chord_code.specs.Sound.{IsSoundCode};
ghost use Rattle.chord_gen.specs.Listing.{listing_text};
ghost use Rattle.chord_run.specs.Answers.{Answers, AnswersContents, AnswersSource, IsSilence, IsSilent};
ghost use Rattle.chord_run.specs.Command as words;
ghost use Rattle.chord_run.specs.Command.{AreAccepted, IsBounded, Requested, Requests, argument_bytes};
ghost use Rattle.chord_run.specs.Due.{HasStatus, MakesRun, source_contents};
ghost use Rattle.chord_run.specs.Load.{load_text};
ghost use Rattle.chord_run.specs.Refusals.{PointsAt};
ghost use Rattle.chord_run.specs.Reports.{ReportsCode, ReportsNoMemory, ReportsPlayed, ReportsRefusal, ReportsRun, ReportsText, due_status};
ghost use Rattle.chord_run.specs.Rows.{AreSpecified, CutsShort, Fills, Finishes, IsExact, NoneFailed, Refuses, RefusesOthers, RunsAccepted, Succeeds};
ghost use Rattle.chord_run.specs.Sources.{IsShort};
ghost use Rattle.chord_run.specs.Tables.{HasTable};
ghost use Rattle.chord_run.specs.Written.{GaveAtMost};
ghost use Rattle.chord_run.specs.declared.command.Request as asked;

use crate::command::{Mode, Request, made_from, request_of};
use crate::engine::{Played, play_code};
use crate::front::{FrontFault, code_of};
use crate::load::load_source;
use crate::output::write_due;
use crate::refusal::{Refusal, put_line};
use crate::report::{DONE, NO_MEMORY, OTHER_ARGUMENTS, READ_FAULT, REFUSED, Report, WRITE_FAULT};
use crate::status::status_of_run;
use crate::words::WordsFault;
use chord_base::agreement::same_runs;
use chord_base::event::Limits;
use chord_base::journal::Journal;
use chord_code::code::Code;
use chord_gen::listing::listing;
use chord_io::{Failed, Pen, ReadFault, Sink, Source, read_all, write_all};
use chord_lists::code_run::may_go_on;
use chord_pool::Gate;
use std::alloc::{AllocError, Global};
use std::sync::Wait;
use std::thread::Threads;

/// Reads a source, does with it what the arguments request, and writes what is due: of a run the lines of its journal, of a
/// refusal its line.
pub fn chord<R: Threads + Wait + Sync, S: Source, K: Sink, G: Gate + Sync>(
    rt: &R,
    alloc: Global,
    arguments: &[String],
    source: &mut S,
    sink: &mut K,
    gate: &G,
) -> Report
    // The headline: either nothing is written, or the arguments requested something, and for its source what is due is
    // written: the text of the journal in the report, which is a complete run of the source's join machine or a run of as many
    // entries as are allowed, or the line of the refusal.
    ensures headline { IsSilence result (K.taken sink.old) (K.taken sink.new)
        ⊎ Answers (argument_bytes arguments.now) (S.left source.old) result (K.taken sink.old) (K.taken sink.new) }

    // Each status but 7 has its cause. A read that failed has 3, before more was read than a source may have, and a write that
    // failed has 5: one call failed then, and with every other status none.
    ensures status_0 { result.status ≡ 0 → Requested (argument_bytes arguments.now) (λ request.
        Succeeds request (S.left source.old) result (K.taken sink.old) (K.taken sink.new)) }
    ensures status_1 { result.status ≡ 1 → Requested (argument_bytes arguments.now) (λ request.
        Refuses request (S.left source.old) result (K.taken sink.old) (K.taken sink.new)) }
    ensures status_2 { result.status ≡ 2 → AreAccepted (argument_bytes arguments.now) → ⊥ }
    ensures status_2_exactly { (result.status ≡ 2) ⊎ (result.status ≡ 7) ⊎ AreAccepted (argument_bytes arguments.now) }
    ensures status_3 { result.status ≡ 3 → Rose (S.faults source.old) (S.faults source.new) }
    ensures status_3_within { result.status ≡ 3 → GaveAtMost 1048576 (S.left source.old) (S.left source.new) }
    ensures status_3_exactly { (result.status ≡ 3) ⊎ (S.faults source.new ≡ S.faults source.old) }
    ensures status_4 { result.status ≡ 4 → Requested (argument_bytes arguments.now) (λ request.
        Finishes request (S.left source.old) result (K.taken sink.old) (K.taken sink.new) 4) }
    ensures status_5 { result.status ≡ 5 → Rose (K.faults sink.old) (K.faults sink.new) }
    ensures status_5_exactly { (result.status ≡ 5) ⊎ (K.faults sink.new ≡ K.faults sink.old) }
    ensures status_5_prefix { result.status ≡ 5 → Requested (argument_bytes arguments.now) (λ request.
        CutsShort request (S.left source.old) result (K.taken sink.old) (K.taken sink.new)) }
    ensures status_6 { result.status ≡ 6 → Requested (argument_bytes arguments.now) (λ request.
        Fills request (S.left source.old) result (K.taken sink.old) (K.taken sink.new)) }
    ensures status_8 { result.status ≡ 8 → Requested (argument_bytes arguments.now) (λ request.
        Finishes request (S.left source.old) result (K.taken sink.old) (K.taken sink.new) 8) }

    // Whatever the status, at most one byte more is read than the source of a program may have, and nothing where the arguments
    // are not accepted. A source that is too long wants no memory: where it ran out no more was read than a source may have.
    ensures taken { GaveAtMost 1048577 (S.left source.old) (S.left source.new) }
    ensures status_7_within { result.status ≡ 7 → GaveAtMost 1048576 (S.left source.old) (S.left source.new) }
    ensures unaccepted_unread { (AreAccepted (argument_bytes arguments.now) → ⊥)
        → (S.left source.new ≡ S.left source.old) × (S.faults source.new ≡ S.faults source.old) }

    // For a source that is made from a number nothing is read.
    ensures made_unread { (request : asked.Request) (k : ℕ) → Requests (argument_bytes arguments.now) request → words.made_from request.mode ≡ Some k
        → (S.left source.new ≡ S.left source.old) × (S.faults source.new ≡ S.faults source.old) }

    // With 2, 3 and 7 nothing is written, and the report has no journal, no refusal and no table.
    ensures silent { IsSilent result.status → IsSilence result (K.taken sink.old) (K.taken sink.new) }

    // The report has the closed table of a run that workers made, and else none: the entries of the journal were drawn on it, in
    // this order, and no others, each entry that the desk which closed it kept stands in the journal, a desk was split from that
    // one for each other worker that was asked for, and no parcel is left. The gate knows of `Main`.
    ensures table { (request : asked.Request) → Requests (argument_bytes arguments.now) request → HasTable G.knows request.one request.workers result.journal result.table }

    // Each cause has its status, where the contents of source and sink are specified: what was due and was written whole is
    // never followed by 5.
    ensures exactly { (request : asked.Request) → Requests (argument_bytes arguments.now) request
        → AreSpecified request (S.left source.old) (K.taken sink.old)
        → IsExact request (S.left source.old) result (K.taken sink.old) (K.taken sink.new) }

    // Where the arguments are accepted, the contents of the source are specified and no I/O call failed, a source has its answer,
    // unless the call ran out of memory.
    ensures accepted { (request : asked.Request) → Requests (argument_bytes arguments.now) request
        → NoneFailed (S.faults source.old) (S.faults source.new) (K.faults sink.old) (K.faults sink.new)
        → RunsAccepted request.mode (source_contents request (S.left source.old)) result.status }
    ensures not_accepted { (request : asked.Request) → Requests (argument_bytes arguments.now) request
        → NoneFailed (S.faults source.old) (S.faults source.new) (K.faults sink.old) (K.faults sink.new)
        → RefusesOthers (source_contents request (S.left source.old)) result.status }
{
    answer(rt, alloc, arguments, source, sink, gate)
}

/// What `chord` does.
fn answer<R: Threads + Wait + Sync, S: Source, K: Sink, G: Gate + Sync>(
    rt: &R,
    alloc: Global,
    arguments: &[String],
    source: &mut S,
    sink: &mut K,
    gate: &G,
) -> Report
    ensures table { (request : asked.Request) → Requests (argument_bytes arguments.now) request → HasTable G.knows request.one request.workers result.journal result.table }
    ensures words_refused { result.status ≡ 2 → AreAccepted (argument_bytes arguments.now) → ⊥ }
    ensures words_accepted { (result.status ≡ 2) ⊎ (result.status ≡ 7) ⊎ AreAccepted (argument_bytes arguments.now) }
    ensures read_fault { result.status ≡ 3 → Rose (S.faults source.old) (S.faults source.new) }
    ensures read_within { result.status ≡ 3 → GaveAtMost 1048576 (S.left source.old) (S.left source.new) }
    ensures memory_within { result.status ≡ 7 → GaveAtMost 1048576 (S.left source.old) (S.left source.new) }
    ensures write_fault { result.status ≡ 5 → Rose (K.faults sink.old) (K.faults sink.new) }
    ensures read_told { (result.status ≡ 3) ⊎ (S.faults source.new ≡ S.faults source.old) }
    ensures write_told { (result.status ≡ 5) ⊎ (K.faults sink.new ≡ K.faults sink.old) }
    ensures taken { GaveAtMost 1048577 (S.left source.old) (S.left source.new) }
    ensures unaccepted_unread { (AreAccepted (argument_bytes arguments.now) → ⊥)
        → (S.left source.new ≡ S.left source.old) × (S.faults source.new ≡ S.faults source.old) }
    ensures made_unread { (request : asked.Request) (k : ℕ) → Requests (argument_bytes arguments.now) request → words.made_from request.mode ≡ Some k
        → (S.left source.new ≡ S.left source.old) × (S.faults source.new ≡ S.faults source.old) }
    ensures headline { IsSilence result (K.taken sink.old) (K.taken sink.new)
        ⊎ Answers (argument_bytes arguments.now) (S.left source.old) result (K.taken sink.old) (K.taken sink.new) }
{
    match request_of(alloc, arguments) {
        Err(WordsFault::Refused) => Report::silent(OTHER_ARGUMENTS),
        Err(WordsFault::Memory) => Report::silent(NO_MEMORY),
        Ok(request) => answer_request(rt, alloc, &request, source, sink, gate),
    }
}

/// Does what is requested, with the source that the request is about.
fn answer_request<R: Threads + Wait + Sync, S: Source, K: Sink, G: Gate + Sync>(
    rt: &R,
    alloc: Global,
    request: &Request,
    source: &mut S,
    sink: &mut K,
    gate: &G,
) -> Report
    requires { IsBounded request.now }
    ensures table { HasTable G.knows request.now.one request.now.workers result.journal result.table }
    ensures answered { IsSilence result (K.taken sink.old) (K.taken sink.new)
        ⊎ AnswersContents request.now (source_contents request.now (S.left source.old)) result (K.taken sink.old) (K.taken sink.new) }
    ensures no_words_refused { result.status ≡ 2 → ⊥ }
    ensures read_fault { result.status ≡ 3 → Rose (S.faults source.old) (S.faults source.new) }
    ensures read_within { result.status ≡ 3 → GaveAtMost 1048576 (S.left source.old) (S.left source.new) }
    ensures memory_within { result.status ≡ 7 → GaveAtMost 1048576 (S.left source.old) (S.left source.new) }
    ensures write_fault { result.status ≡ 5 → Rose (K.faults sink.old) (K.faults sink.new) }
    ensures read_told { (result.status ≡ 3) ⊎ (S.faults source.new ≡ S.faults source.old) }
    ensures write_told { (result.status ≡ 5) ⊎ (K.faults sink.new ≡ K.faults sink.old) }
    ensures taken { GaveAtMost 1048577 (S.left source.old) (S.left source.new) }
    ensures made_unread { (k : ℕ) → words.made_from request.now.mode ≡ Some k
        → (S.left source.new ≡ S.left source.old) × (S.faults source.new ≡ S.faults source.old) }
{
    match made_from(request.mode) {
        Some(k) => answer_made(rt, alloc, k, request, sink, gate),
        None => answer_read(rt, alloc, request, source, sink, gate),
    }
}

/// Makes the source from its number, and does what is requested with it.
fn answer_made<R: Threads + Wait + Sync, K: Sink, G: Gate + Sync>(
    rt: &R,
    alloc: Global,
    k: u32,
    request: &Request,
    sink: &mut K,
    gate: &G,
) -> Report
    requires bounded { IsBounded request.now }
    requires from_one { 1 ≤ k }
    requires to_sixty { k ≤ 60 }
    ensures table { HasTable G.knows request.now.one request.now.workers result.journal result.table }
    ensures answered { IsSilence result (K.taken sink.old) (K.taken sink.new)
        ⊎ AnswersContents request.now (Some (load_text k)) result (K.taken sink.old) (K.taken sink.new) }
    ensures no_words_refused { result.status ≡ 2 → ⊥ }
    ensures no_read_fault { result.status ≡ 3 → ⊥ }
    ensures fault { result.status ≡ 5 → Rose (K.faults sink.old) (K.faults sink.new) }
    ensures told { (result.status ≡ 5) ⊎ (K.faults sink.new ≡ K.faults sink.old) }
{
    match load_source(alloc, k) {
        Ok(made) => answer_source(rt, alloc, &made, request, sink, gate),
        Err(_) => Report::silent(NO_MEMORY),
    }
}

/// Reads the source, and does what is requested with it, or refuses one that is too long.
fn answer_read<R: Threads + Wait + Sync, S: Source, K: Sink, G: Gate + Sync>(
    rt: &R,
    alloc: Global,
    request: &Request,
    source: &mut S,
    sink: &mut K,
    gate: &G,
) -> Report
    requires bounded { IsBounded request.now }
    ensures table { HasTable G.knows request.now.one request.now.workers result.journal result.table }
    ensures answered { IsSilence result (K.taken sink.old) (K.taken sink.new)
        ⊎ AnswersContents request.now (S.left source.old) result (K.taken sink.old) (K.taken sink.new) }
    ensures no_words_refused { result.status ≡ 2 → ⊥ }
    ensures read_fault { result.status ≡ 3 → Rose (S.faults source.old) (S.faults source.new) }
    ensures read_within { result.status ≡ 3 → GaveAtMost 1048576 (S.left source.old) (S.left source.new) }
    ensures memory_within { result.status ≡ 7 → GaveAtMost 1048576 (S.left source.old) (S.left source.new) }
    ensures write_fault { result.status ≡ 5 → Rose (K.faults sink.old) (K.faults sink.new) }
    ensures read_told { (result.status ≡ 3) ⊎ (S.faults source.new ≡ S.faults source.old) }
    ensures write_told { (result.status ≡ 5) ⊎ (K.faults sink.new ≡ K.faults sink.old) }
    ensures taken { GaveAtMost 1048577 (S.left source.old) (S.left source.new) }
{
    match read_all(alloc, source) {
        Err(ReadFault::Failed) => Report::silent(READ_FAULT),
        Err(ReadFault::Memory) => Report::silent(NO_MEMORY),
        Err(ReadFault::TooLong) => refuse(b"", Refusal::Long, 0, sink),
        Ok(bytes) => answer_source(rt, alloc, &bytes, request, sink, gate),
    }
}

/// Does what is requested with a source of at most 1,048,576 bytes, or refuses it.
fn answer_source<R: Threads + Wait + Sync, K: Sink, G: Gate + Sync>(
    rt: &R,
    alloc: Global,
    source: &[u8],
    request: &Request,
    sink: &mut K,
    gate: &G,
) -> Report
    requires short { IsShort source.now }
    requires bounded { IsBounded request.now }
    ensures table { HasTable G.knows request.now.one request.now.workers result.journal result.table }
    ensures answered { ReportsNoMemory result (K.taken sink.old) (K.taken sink.new)
        ⊎ AnswersSource request.now source.now result (K.taken sink.old) (K.taken sink.new) }
    ensures no_words_refused { result.status ≡ 2 → ⊥ }
    ensures no_read_fault { result.status ≡ 3 → ⊥ }
    ensures fault { result.status ≡ 5 → Rose (K.faults sink.old) (K.faults sink.new) }
    ensures told { (result.status ≡ 5) ⊎ (K.faults sink.new ≡ K.faults sink.old) }
{
    // a run of the code is one of the source
    same_runs();
    match code_of(alloc, source) {
        Err(FrontFault::Memory) => Report::silent(NO_MEMORY),
        Err(FrontFault::Refused(refusal, byte)) => refuse(source, refusal, byte, sink),
        Ok(code) => answer_code(rt, alloc, &code, request, sink, gate),
    }
}

/// Does what is requested with the code of an accepted source.
fn answer_code<R: Threads + Wait + Sync, K: Sink, G: Gate + Sync>(
    rt: &R,
    alloc: Global,
    code: &Code,
    request: &Request,
    sink: &mut K,
    gate: &G,
) -> Report
    requires bounded { IsBounded request.now }
    requires sound { IsSoundCode code.now }
    ensures table { HasTable G.knows request.now.one request.now.workers result.journal result.table }
    ensures answered { ReportsNoMemory result (K.taken sink.old) (K.taken sink.new)
        ⊎ ReportsCode request.now code.now result (K.taken sink.old) (K.taken sink.new) }
    ensures no_words_refused { result.status ≡ 2 → ⊥ }
    ensures sure { result.status ≡ 7 → MakesRun request.now.mode }
    ensures fault { result.status ≡ 5 → Rose (K.faults sink.old) (K.faults sink.new) }
    ensures told { (result.status ≡ 5) ⊎ (K.faults sink.new ≡ K.faults sink.old) }
{
    match request.mode {
        Mode::Run => run(rt, alloc, code, request, sink, gate),
        Mode::Rules => accept(sink),
        Mode::Code => list(code, sink),
        Mode::Load(_) => run(rt, alloc, code, request, sink, gate),
    }
}

/// Says that the source is accepted.
fn accept<K: Sink>(sink: &mut K) -> Report
    ensures table { (result.journal ≡ None) × (result.table ≡ None) }
    ensures written { ReportsText (codes "ok\n") result (K.taken sink.old) (K.taken sink.new) }
    ensures sure { result.status ≡ 7 → ⊥ }
    ensures fault { result.status ≡ 5 → Rose (K.faults sink.old) (K.faults sink.new) }
    ensures told { (result.status ≡ 5) ⊎ (K.faults sink.new ≡ K.faults sink.old) }
{
    match write_all(sink, b"ok\n") {
        Ok(()) => Report::silent(DONE),
        Err(Failed) => Report::silent(WRITE_FAULT),
    }
}

/// Writes the listing of a code.
fn list<K: Sink>(code: &Code, sink: &mut K) -> Report
    ensures table { (result.journal ≡ None) × (result.table ≡ None) }
    ensures written { ReportsText (listing_text code.now) result (K.taken sink.old) (K.taken sink.new) }
    ensures sure { result.status ≡ 7 → ⊥ }
    ensures fault { result.status ≡ 5 → Rose (K.faults sink.old) (K.faults sink.new) }
    ensures told { (result.status ≡ 5) ⊎ (K.faults sink.new ≡ K.faults sink.old) }
{
    match listing(code, sink) {
        Ok(()) => Report::silent(DONE),
        Err(Failed) => Report::silent(WRITE_FAULT),
    }
}

/// Writes the line of a refusal that points at this byte. It takes no memory.
fn refuse<K: Sink>(source: &[u8], refusal: Refusal, byte: u32, sink: &mut K) -> Report
    requires { PointsAt source.now refusal byte }
    ensures table { (result.journal ≡ None) × (result.table ≡ None) }
    ensures answered { ReportsRefusal source.now refusal result (K.taken sink.old) (K.taken sink.new) }
    ensures sure { result.status ≡ 7 → ⊥ }
    ensures fault { result.status ≡ 5 → Rose (K.faults sink.old) (K.faults sink.new) }
    ensures told { (result.status ≡ 5) ⊎ (K.faults sink.new ≡ K.faults sink.old) }
{
    let mut pen = Pen::new();
    put_line(&mut pen, sink, source, refusal, byte);
    match pen.finish(sink) {
        Ok(()) => Report::refused(REFUSED, refusal),
        Err(Failed) => Report::refused(WRITE_FAULT, refusal),
    }
}

/// Plays the code of a source, and writes what is due for its journal.
fn run<R: Threads + Wait + Sync, K: Sink, G: Gate + Sync>(
    rt: &R,
    alloc: Global,
    code: &Code,
    request: &Request,
    sink: &mut K,
    gate: &G,
) -> Report
    requires bounded { IsBounded request.now }
    requires sound { IsSoundCode code.now }
    ensures table { HasTable G.knows request.now.one request.now.workers result.journal result.table }
    ensures answered { ReportsNoMemory result (K.taken sink.old) (K.taken sink.new)
        ⊎ ReportsRun request.now (code_program code.now request.now.limits) result (K.taken sink.old) (K.taken sink.new) }
    ensures no_words_refused { result.status ≡ 2 → ⊥ }
    ensures fault { result.status ≡ 5 → Rose (K.faults sink.old) (K.faults sink.new) }
    ensures told { (result.status ≡ 5) ⊎ (K.faults sink.new ≡ K.faults sink.old) }
{
    let Ok(played) = play_code(rt, alloc, code, request, gate) else {
        return Report::silent(NO_MEMORY);
    };
    // whether an entry may follow takes memory, so it is decided before the first write
    match is_full(alloc, code, &request.limits, &played.journal) {
        Err(_) => Report::silent(NO_MEMORY),
        Ok(full) => write_run(played, request, full, sink),
    }
}

/// Writes what is due for the journal of a run, and finds its status behind that.
fn write_run<K: Sink>(played: Played, request: &Request, full: bool, sink: &mut K) -> Report
    ensures played { ReportsPlayed request.now played.journal (due_status full played.journal) result (K.taken sink.old) (K.taken sink.new) }
    ensures table { result.table ≡ played.table }
    ensures fault { result.status ≡ 5 → Rose (K.faults sink.old) (K.faults sink.new) }
    ensures told { (result.status ≡ 5) ⊎ (K.faults sink.new ≡ K.faults sink.old) }
{
    let Played { journal, table } = played;
    match write_due(&journal, request, sink) {
        Ok(trapped) => {
            let status = status_of_run(&journal, full, trapped);
            Report::played(status, journal, table)
        }
        Err(Failed) => Report::played(WRITE_FAULT, journal, table),
    }
}

/// Whether a run of a code is full: it has as many entries as are allowed, and some entry may follow.
///
/// A run of fewer entries than are allowed is complete; one of as many is made again to see whether an entry may follow.
fn is_full(
    alloc: Global,
    code: &Code,
    limits: &Limits,
    journal: &Journal,
) -> Result<bool, AllocError>
    requires shallow { 1 ≤ limits.now.depth }
    requires deep { limits.now.depth ≤ 256 }
    requires sound { IsSoundCode code.now }
    requires run { IsRun (code_program code.now limits.now) journal.now }
    requires few { length journal.now ≤ limits.now.events }
    requires whole { length journal.now < limits.now.events → IsComplete (code_program code.now limits.now) journal.now }
    ensures sure { length journal.now < limits.now.events → IsOk result }
    ensures gives { IfOk result (λ full. HasStatus (code_program code.now limits.now) limits.now.events journal.now (due_status full journal.now)) }
{
    if journal.entries().len() < limits.events as usize {
        return Ok(false);
    }
    let follows = may_go_on(alloc, code, limits, journal)?;
    Ok(follows)
}
