//! Many threads play one run.
ghost use Rattle.std.specs.Prelude.{◌≡◌, ◌≢◌, ◌⊎◌, ◌+◌, ◌<◌, ◌≤◌, false, [], IfOk, length, reverse};
ghost use Rattle.chord_base.specs.declared.event.Entry.{Entry};
ghost use Rattle.chord_base.specs.Machine.{IsRun, IsComplete};
ghost use Rattle.chord_base.specs.Story.{IsIn};
ghost use Rattle.chord_code.specs.Meaning.{code_program};
ghost use Rattle.chord_code.specs.Sound.{IsSoundCode};
ghost use Rattle.chord_rule.specs.Kinds.{newcomer_first};
ghost use Rattle.chord_space.specs.Desks.{view, IsDeskOf};
ghost use Rattle.chord_space.specs.Ends.{parcels, closing_view};
ghost use Rattle.chord_worker.specs.Stepping.{PlaysMain};
ghost use Rattle.chord_worker.specs.declared.worker.Worker.{Worker as TheWorker};
ghost use Rattle.chord_pool.specs.declared.ending.Alone.{Alone as TheAlone};
ghost use Rattle.chord_pool.specs.Players.{IsOneRun, IsCrew, IsBack, any_failed, with_draws, HavePlayedTogether};
ghost use Rattle.chord_pool.specs.Ending.{HasLeftOffAlone, IsLast, IsRunOver};

use crate::closing::finish;
use crate::crew::{hire, take_all};
use crate::ending::play_alone;
use crate::player::Player;
use crate::run::Run;
use crate::threads::share;
use chord_base::event::Limits;
use chord_base::journal::Journal;
use chord_code::code::Code;
use chord_roll::Card;
use chord_space::{Closed, Desk, Space};
use chord_task::parcel::Parcel;
use chord_worker::{Gate, Worker};
use std::alloc::{AllocError, Global};
use std::sync::Wait;
use std::thread::Threads;

/// The first worker, which has taken in those that have come back.
///
/// # Errors
///
/// `AllocError` where one of them met want of memory, and where there is no memory for the lists of what they drew side by side.
fn taken_in(space: &Space<Parcel>, main: Player, others: Vec<Player>) -> Result<Worker, AllocError>
    requires back { main.failed ≡ false → IsBack space.now main.worker others.items }
    ensures last { IfOk result (λ last. IsLast space.now last) }
    ensures sane { IfOk result (λ _. main.failed ≡ false) }
    ensures splits { IfOk result (λ last. (view last.desk).splits ≡ (view main.worker.desk).splits) }
    ensures all_sane { IfOk result (λ _. any_failed others.items ≡ false) }
    ensures drew { IfOk result (λ last. (view last.desk).draws ≡ with_draws (view main.worker.desk).draws others.items) }
{
    if main.failed {
        return Err(AllocError);
    }
    let mut last = main.worker;
    take_all(space, &mut last, others)?;
    Ok(last)
}

/// The first worker and those that it hires play, each at a thread, and it takes them in.
fn play_together<'a, R: Threads + Wait + Sync, G: Gate + Sync>(
    rt: &R,
    alloc: Global,
    run: &Run<'a>,
    main: Worker,
    workers: u32,
    gate: &G,
) -> Result<Worker, AllocError>
    requires run { IsOneRun run.now.space.now run.now.code.now run.now.limits.now }
    requires main { IsCrew run.now.space.now main [] × ((view main.desk).splits ≡ 0) }
    requires workers { (1 ≤ workers) × (workers ≤ 64) }
    ensures last { IfOk result (λ last. IsLast run.now.space.now last) }
    ensures crew { IfOk result (λ last. (view last.desk).splits + 1 ≡ workers) }
    ensures told { IfOk result (λ _. G.knows 0) }
    ensures together { IfOk result (λ last. HavePlayedTogether G.knows run.now.space.now workers main last) }
{
    let mut main = Player::new(main, Card::first(alloc)?);
    let others = hire(alloc, run.space, &mut main, workers)?;
    // Before any of the others begins: where nobody is at work, they go.
    main.card.begin();
    let (main, others) = share(rt, alloc, run, main, others, gate);
    let last = taken_in(run.space, main, others)?;
    Ok(last)
}

/// All workers play, until the first one, alone at last, has played what is left.
fn play_all<'a, R: Threads + Wait + Sync, G: Gate + Sync>(
    rt: &R,
    alloc: Global,
    run: &Run<'a>,
    desk: Desk<Parcel>,
    workers: u32,
    gate: &G,
) -> Result<Worker, AllocError>
    requires run { IsOneRun run.now.space.now run.now.code.now run.now.limits.now }
    requires desk { IsDeskOf run.now.space.now desk × (view desk ≡ newcomer_first) }
    requires workers { (1 ≤ workers) × (workers ≤ 64) }
    ensures over { IfOk result (λ last. IsRunOver run.now.space.now last) }
    ensures crew { IfOk result (λ last. (view last.desk).splits + 1 ≡ workers) }
    ensures told { IfOk result (λ _. G.knows 0) }
    ensures alone { IfOk result (λ last. (begin : TheAlone) × (workers ≡ 1 → PlaysMain begin.worker) × (workers ≢ 1 → IsLast run.now.space.now begin.worker × (main : TheWorker) × PlaysMain main × HavePlayedTogether G.knows run.now.space.now workers main begin.worker) × (begin.place ≡ 0) × HasLeftOffAlone G.knows run.now.space.now begin last) }
{
    let main = Worker::main(alloc, run.space, run.code, run.limits, desk)?;
    // One that hires nobody is alone from the beginning: it needs no thread, and looks for nothing that others might have posted.
    let last = if workers == 1 {
        gate.started(0);
        main
    } else {
        play_together(rt, alloc, run, main, workers, gate)?
    };
    let last = play_alone(rt, alloc, run, last, gate)?;
    Ok(last)
}

/// Plays a sound code with this many workers, the first at the caller's thread and each other one at one of its own where it can be
/// made: the journal of a complete run, or of a run of exactly `limits.events` entries, and the closed table of that run.
///
/// `limits.events` is 1 to 65,536, `limits.depth` 1 to 256, `workers` 1 to 64. A journal of fewer entries is complete. The table
/// drew the entries of the journal, in its order, and each entry that the desk that closed it kept stands there; it has given its memory back, and no parcel is
/// left. That desk is the first one, and each other worker had a desk that was split from it. `gate.started` is called for each body by the worker that
/// begins to play it; that the gate knows of `Main` is a clause, that this gate knows of each other one is said by the private call
/// that plays all, of what the workers do together, before which no hired one has drawn an entry and the first one that of `Main`
/// alone (`HavePlayedTogether`), and of what the first one does alone (`HasLeftOffAlone`),
/// and that it is told once is tested. It is not promised that the call returns.
///
/// # Errors
///
/// `AllocError` where no memory is found.
pub fn play<R: Threads + Wait + Sync, G: Gate + Sync>(
    rt: &R,
    alloc: Global,
    code: &Code,
    limits: &Limits,
    workers: u32,
    gate: &G,
) -> Result<(Journal, Closed<Parcel>), AllocError>
    requires events { (1 ≤ limits.now.events) × (limits.now.events ≤ 65536) }
    requires depth { (1 ≤ limits.now.depth) × (limits.now.depth ≤ 256) }
    requires sound { IsSoundCode code.now }
    requires workers { (1 ≤ workers) × (workers ≤ 64) }
    ensures run { IfOk result (λ r. IsRun (code_program code.now limits.now) r.0) }
    ensures whole { IfOk result (λ r. IsComplete (code_program code.now limits.now) r.0 ⊎ (length r.0 ≡ limits.now.events)) }
    ensures few { IfOk result (λ r. length r.0 ≤ limits.now.events) }
    ensures short { IfOk result (λ r. length r.0 < limits.now.events → IsComplete (code_program code.now limits.now) r.0) }
    ensures closed { IfOk result (λ r. (r.1.drawn ≡ length r.0) × ((e : Entry) → IsIn e (closing_view r.1).kept → IsIn e r.0)) }
    ensures drew { IfOk result (λ r. (closing_view r.1).draws ≡ reverse r.0) }
    ensures released { IfOk result (λ r. parcels r.1 ≡ []) }
    ensures crew { IfOk result (λ r. (closing_view r.1).splits + 1 ≡ workers) }
    ensures told { IfOk result (λ _. G.knows 0) }
{
    let (space, desk) = Space::make(alloc, code, limits)?;
    let run = Run {
        space: &space,
        code,
        limits,
    };
    let last = play_all(rt, alloc, &run, desk, workers, gate)?;
    let (desk, entries) = last.into_parts(&space)?;
    let ended = finish(alloc, space, code, limits, desk, entries)?;
    Ok(ended)
}
