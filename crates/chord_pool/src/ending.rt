//! The first worker plays alone, until the run is over: what is left after all others have come back, or all where there are none.
ghost use Rattle.std.specs.Prelude.{◌≡◌, ℕ, ◌<◌, ◌≤◌, true, false, None, Some, min, IfNone, IfSome, IfOk, OnErr, OnOk};
ghost use Rattle.chord_rule.specs.Closing.{IsAsleep};
ghost use Rattle.chord_space.specs.Desks.{view};
ghost use Rattle.chord_word.specs.declared.cells.Word.{Word};
ghost use Rattle.chord_worker.specs.Resting.{IsSameRole, IsSeen};
ghost use Rattle.chord_worker.specs.Stepping.{PlaysBody};
ghost use Rattle.chord_worker.specs.declared.worker.Worker.{Worker as TheWorker};
ghost use Rattle.chord_pool.specs.declared.ending.Alone.{Alone as TheAlone};
ghost use Rattle.chord_pool.specs.Players.{IsOneRun, IsFit, IsUnready, LookedThrough};
ghost use Rattle.chord_pool.specs.Ending.{AreAwake, HasComeTo, IsStirred, HasLookedAlone, HadATurn, HadTurns, FoundRunOver, HasFailedAlone, HasLeftOffAlone, HasRunOut, IsAloneWorker, IsRunOver};

use crate::run::Run;
use chord_word::Cell;
use chord_worker::{Gate, Worker};
use std::alloc::{AllocError, Global};
use std::sync::Wait;

/// How many turns are played for one of the loop without end.
const TURNS: u32 = 1024;

/// Looks at the cell of number i. Whether nobody has to look after it; a firing that is ready is started.
fn is_awake<'a, G: Gate>(run: &Run<'a>, worker: &mut Worker, i: u32, gate: &G) -> bool
    requires run { IsOneRun run.now.space.now run.now.code.now run.now.limits.now }
    requires worker { IsFit run.now.space.now worker.old }
    requires idle { worker.old.task ≡ None }
    requires bounds { i < run.now.space.now.events }
    ensures worker { IsFit run.now.space.now worker.new }
    ensures role { IsSameRole (view worker.old.desk) (view worker.new.desk) }
    ensures idle { result ≡ true → worker.new.task ≡ None }
    ensures seen { result ≡ true → (x : Word) × IsSeen (view worker.old.desk) (view worker.new.desk) i x × (IsAsleep x.cell → ⊥) }
    ensures come { result ≡ false → HasComeTo i i (view worker.old.desk) (view worker.new.desk) }
    ensures stirred { result ≡ false → IsStirred G.knows i worker.old worker.new }
    ensures started { worker.new.task ≡ None → IsUnready i (view worker.new.desk).looked.seen }
{
    match worker.look(run.space, i) {
        Cell::Ready => {
            worker.start(run.space, run.code, run.limits, i, gate);
            false
        }
        // It does not come back to this cell for ever: no call wakes a caller yet.
        Cell::Woken(_) => false,
        _ => true,
    }
}

/// Looks at the cells of these numbers, and of no other ones, until it comes to one that somebody has to look after. Its number, whose
/// firing is started where it is ready.
fn find_asleep<'a, G: Gate>(
    run: &Run<'a>,
    worker: &mut Worker,
    from: u32,
    below: u32,
    gate: &G,
) -> Option<u32>
    requires run { IsOneRun run.now.space.now run.now.code.now run.now.limits.now }
    requires worker { IsFit run.now.space.now worker.old }
    requires idle { worker.old.task ≡ None }
    requires bounds { below ≤ run.now.space.now.events }
    ensures worker { IsFit run.now.space.now worker.new }
    ensures role { IsSameRole (view worker.old.desk) (view worker.new.desk) }
    ensures idle { IfNone result (worker.new.task ≡ None) }
    ensures count { IfNone result ((view worker.new.desk).looked.count ≡ (view worker.old.desk).looked.count) }
    ensures kept { IfNone result ((view worker.new.desk).kept ≡ (view worker.old.desk).kept) }
    ensures seen { IfNone result (AreAwake from below (view worker.new.desk).looked.seen) }
    ensures through { IfNone result (LookedThrough from below (view worker.old.desk) (view worker.new.desk)) }
    ensures come { IfSome result (λ i. HasComeTo from i (view worker.old.desk) (view worker.new.desk)) }
    ensures stirred { IfSome result (λ i. IsStirred G.knows i worker.old worker.new) }
    ensures among { IfSome result (λ i. (from ≤ i) × (i < below)) }
{
    for i in from..below {
        if !is_awake(run, worker, i, gate) {
            return Some(i);
        }
    }
    None
}

/// The first worker, where all others have come back, or it has hired none.
#[derive(Drop)]
pub(crate) struct Alone {
    pub worker: Worker,
    /// The number from which it goes on to look for a firing.
    pub place: u32,
}

impl Alone {
    /// Looks at the cells from its place on, below this count, until it comes to one that somebody has to look after, and stands there.
    /// Where none is, it goes back to the first number. Whether none is and it began there: nobody has to look after any cell.
    fn look<'a, G: Gate>(&mut self, run: &Run<'a>, count: u32, gate: &G) -> bool
        requires run { IsOneRun run.now.space.now run.now.code.now run.now.limits.now }
        requires worker { IsFit run.now.space.now self.old.worker }
        requires idle { self.old.worker.task ≡ None }
        requires counted { (c : ℕ) × ((view self.old.worker.desk).looked.count ≡ Some c) × (count ≡ min c run.now.space.now.events) }
        ensures worker { IsFit run.now.space.now self.new.worker }
        ensures role { IsSameRole (view self.old.worker.desk) (view self.new.worker.desk) }
        ensures idle { result ≡ true → self.new.worker.task ≡ None }
        ensures count { result ≡ true → (view self.new.worker.desk).looked.count ≡ (view self.old.worker.desk).looked.count }
        ensures kept { result ≡ true → (view self.new.worker.desk).kept ≡ (view self.old.worker.desk).kept }
        ensures seen { result ≡ true → AreAwake 0 count (view self.new.worker.desk).looked.seen }
        ensures through { result ≡ true → LookedThrough 0 count (view self.old.worker.desk) (view self.new.worker.desk) }
        ensures looked { result ≡ false → HasLookedAlone G.knows run.now.space.now self.old self.new }
    {
        let from = self.place;
        match find_asleep(run, &mut self.worker, from, count, gate) {
            Some(i) => {
                self.place = i;
                false
            }
            None => {
                self.place = 0;
                from == 0
            }
        }
    }

    /// One turn: a step of the task, or a look for a firing. Whether the run is over.
    fn turn<'a, R: Wait, G: Gate>(
        &mut self,
        rt: &R,
        alloc: Global,
        run: &Run<'a>,
        gate: &G,
    ) -> Result<bool, AllocError>
        requires run { IsOneRun run.now.space.now run.now.code.now run.now.limits.now }
        requires worker { IsAloneWorker run.now.space.now self.old.worker }
        ensures worker { OnOk result (IsAloneWorker run.now.space.now self.new.worker) }
        ensures role { OnOk result (IsSameRole (view self.old.worker.desk) (view self.new.worker.desk)) }
        ensures over { IfOk result (λ over. over ≡ true → IsRunOver run.now.space.now self.new.worker) }
        ensures went { IfOk result (λ over. over ≡ false → HadATurn G.knows run.now.space.now self.old self.new) }
        ensures off { IfOk result (λ over. over ≡ true → FoundRunOver run.now.space.now self.old.worker self.new.worker) }
        ensures short { OnErr result (HasRunOut run.now.space.now self.old.worker self.new.worker) }
    {
        if self.worker.is_spent() {
            return Ok(true);
        }
        if self.worker.has_task() {
            self.worker
                .step(rt, alloc, run.space, run.code, run.limits, gate)?;
            return Ok(false);
        }
        let count = self.worker.count(run.space);
        if count == run.limits.events {
            return Ok(true);
        }
        Ok(self.look(run, count, gate))
    }

    /// Many turns, since `forever` takes some dozen instructions for each of its own. Whether the run is over.
    fn turns<'a, R: Wait, G: Gate>(
        &mut self,
        rt: &R,
        alloc: Global,
        run: &Run<'a>,
        gate: &G,
    ) -> Result<bool, AllocError>
        requires run { IsOneRun run.now.space.now run.now.code.now run.now.limits.now }
        requires worker { IsAloneWorker run.now.space.now self.old.worker }
        ensures worker { OnOk result (IsAloneWorker run.now.space.now self.new.worker) }
        ensures role { OnOk result (IsSameRole (view self.old.worker.desk) (view self.new.worker.desk)) }
        ensures over { IfOk result (λ over. over ≡ true → IsRunOver run.now.space.now self.new.worker) }
        ensures went { IfOk result (λ over. over ≡ false → (before : TheAlone) × HadTurns G.knows run.now.space.now self.old before × HadATurn G.knows run.now.space.now before self.new) }
        ensures had { IfOk result (λ over. over ≡ false → HadTurns G.knows run.now.space.now self.old self.new) }
        ensures off { IfOk result (λ over. over ≡ true → HasLeftOffAlone G.knows run.now.space.now self.old self.new.worker) }
        ensures short { OnErr result (HasFailedAlone G.knows run.now.space.now self.old self.new.worker) }
    {
        for _turn in 0..TURNS {
            if self.turn(rt, alloc, run, gate)? {
                return Ok(true);
            }
        }
        Ok(false)
    }
}

/// The first worker plays alone, until the run is over.
///
/// # Errors
///
/// `AllocError` where a task met want of memory.
pub(crate) fn play_alone<'a, R: Wait, G: Gate>(
    rt: &R,
    alloc: Global,
    run: &Run<'a>,
    worker: Worker,
    gate: &G,
) -> Result<Worker, AllocError>
    requires run { IsOneRun run.now.space.now run.now.code.now run.now.limits.now }
    requires worker { IsAloneWorker run.now.space.now worker }
    requires told { PlaysBody 0 worker → G.knows 0 }
    ensures over { IfOk result (λ last. IsRunOver run.now.space.now last) }
    ensures off { IfOk result (λ last. (begin : TheAlone) × (begin.worker ≡ worker) × (begin.place ≡ 0) × HasLeftOffAlone G.knows run.now.space.now begin last) }
    ensures splits { IfOk result (λ last. (view last.desk).splits ≡ (view worker.desk).splits) }
    ensures short { OnErr result ((begin : TheAlone) × (begin.worker ≡ worker) × (begin.place ≡ 0) × (last : TheWorker) × HasFailedAlone G.knows run.now.space.now begin last) }
{
    let mut alone = Alone { worker, place: 0 };
    for _ in rt.forever() {
        if alone.turns(rt, alloc, run, gate)? {
            return Ok(alone.worker);
        }
    }
    unreachable!()
}
