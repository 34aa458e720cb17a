//! A worker at its thread: it plays what it has, and looks for more.
ghost use Rattle.std.specs.Prelude.{◌≡◌, ◌≢◌, ◌<◌, ◌≤◌, ◌+◌, ◌-◌, true, false, if◌then◌else◌, min, None, Some, is_some, IfNone, IfSome};
ghost use Rattle.chord_roll.specs.Cards.{counts, ended, last_read, reads, times_asked, stops, tells, HasAskedNothing, IsSameCard};
ghost use Rattle.chord_roll.specs.Roll.{counted_as};
ghost use Rattle.chord_pool.specs.declared.player.Player.{Player as ThePlayer};
ghost use Rattle.chord_space.specs.Desks.{view};
ghost use Rattle.chord_task.specs.declared.task.Task.{Task as TheTask};
ghost use Rattle.chord_worker.specs.Resting.{IsSameRole, IsOutOfMemory, LastSawReady};
ghost use Rattle.chord_worker.specs.Stepping.{DrewAStep, HasGoneOn, PlaysBody, PlaysNext, PlaysFiring, StillPlays};
ghost use Rattle.chord_pool.specs.Players.{IsOneRun, IsFit, AreUnready, FoundNoneBelow, FoundNone, SawUnready, LookedAmong, LookedOnce, LookedThrough, BeganForEach, BeganToTheEnd, KnowsCount, HasStarted, StandsStill, BeginsLook, HasLooked, HadARound, HadRounds, IsBetweenRounds, HasFailed, HasGone, HasLeftOff, MayPlay, HasPlayed, PlaysOn, IsOnTheWay, CountsIfItPlays, TellsIfItFails};

use crate::crowd::Crowd;
use crate::pause::Pause;
use crate::run::Run;
use chord_roll::Card;
use chord_word::Cell;
use chord_worker::{Gate, Worker};
use std::alloc::Global;
use std::sync::Wait;

/// A worker, and what has become of it.
#[derive(Drop)]
pub(crate) struct Player {
    pub worker: Worker,
    /// Whether it is at work, and how many are.
    pub card: Card,
    /// It met want of memory, or was told that another one did.
    pub failed: bool,
    /// The number from which it goes on to look for a firing.
    pub place: u32,
    /// How many numbers were given when it last looked.
    pub known: u32,
    /// How many of its last looks found none, those left out in which it counted among those at work.
    pub misses: u32,
}

/// How many of the newest numbers are looked at again after a look that found nothing: a firing becomes ready soon after its draw.
const NEAR: u32 = 256;
/// After so many looks that found nothing the next one begins at the first number.
const FAR_LOOK: u32 = 32;
/// How many rounds a worker plays in a spell, which is one turn of the loop without end.
const ROUNDS: u32 = 64;

/// Starts the firing of number i, which the worker last saw ready, where it is ready still, by a worker that counts among those at work:
/// so nobody finds neither the firing nor anybody at work. Whether it plays it now.
fn start_at_work<'a, G: Gate>(
    run: &Run<'a>,
    worker: &mut Worker,
    i: u32,
    gate: &G,
    card: &Card,
) -> bool
    requires run { IsOneRun run.now.space.now run.now.code.now run.now.limits.now }
    requires worker { IsFit run.now.space.now worker.old }
    requires idle { worker.old.task ≡ None }
    requires bounds { i < run.now.space.now.events }
    requires ready { LastSawReady (view worker.old.desk) i }
    requires counts { counts card.now ≡ true }
    ensures worker { IsFit run.now.space.now worker.new }
    ensures role { IsSameRole (view worker.old.desk) (view worker.new.desk) }
    ensures task { result ≡ is_some worker.new.task }
    ensures plays { result ≡ true → PlaysFiring G.knows (view worker.old.desk).kept worker.old.task worker.new i }
    ensures refused { result ≡ false → SawUnready (view worker.old.desk) (view worker.new.desk) i }
    ensures among { LookedAmong i (i + 1) (view worker.old.desk) (view worker.new.desk) }
    ensures once { LookedOnce i (view worker.old.desk) (view worker.new.desk) }
{
    // the card is here so that a condition can speak of it
    let _ = card.is_at_work();
    worker.start(run.space, run.code, run.limits, i, gate)
}

/// Looks at the cell of number i, and starts its firing where it is ready. Whether it plays it now.
fn try_start<'a, G: Gate>(
    run: &Run<'a>,
    worker: &mut Worker,
    i: u32,
    gate: &G,
    card: &mut Card,
) -> bool
    requires run { IsOneRun run.now.space.now run.now.code.now run.now.limits.now }
    requires worker { IsFit run.now.space.now worker.old }
    requires idle { worker.old.task ≡ None }
    requires bounds { i < run.now.space.now.events }
    ensures worker { IsFit run.now.space.now worker.new }
    ensures role { IsSameRole (view worker.old.desk) (view worker.new.desk) }
    ensures task { result ≡ is_some worker.new.task }
    ensures card { HasAskedNothing card.old card.new }
    ensures stops { stops card.new ≡ stops card.old }
    ensures counts { result ≡ true → counts card.new ≡ true }
    ensures as_before { result ≡ false → counts card.new ≡ counts card.old }
    ensures ended { counts card.old ≡ true → ended card.new ≡ ended card.old }
    ensures began { BeganForEach (view worker.old.desk) (view worker.new.desk) card.old card.new }
    ensures plays { result ≡ true → PlaysFiring G.knows (view worker.old.desk).kept worker.old.task worker.new i }
    ensures seen { result ≡ false → SawUnready (view worker.old.desk) (view worker.new.desk) i }
    ensures among { LookedAmong i (i + 1) (view worker.old.desk) (view worker.new.desk) }
    ensures through { LookedThrough i (i + 1) (view worker.old.desk) (view worker.new.desk) }
{
    match worker.look(run.space, i) {
        Cell::Ready => {
            let was_at_work = card.is_at_work();
            card.begin();
            let started = start_at_work(run, worker, i, gate, card);
            if !started && !was_at_work {
                card.end();
            }
            started
        }
        _ => false,
    }
}

/// Looks through the cells of these numbers, and of no other ones, for a firing that is ready, and starts the first. Its number.
fn sweep<'a, G: Gate>(
    run: &Run<'a>,
    worker: &mut Worker,
    from: u32,
    below: u32,
    gate: &G,
    card: &mut Card,
) -> Option<u32>
    requires run { IsOneRun run.now.space.now run.now.code.now run.now.limits.now }
    requires worker { IsFit run.now.space.now worker.old }
    requires idle { worker.old.task ≡ None }
    requires bounds { below ≤ run.now.space.now.events }
    ensures worker { IsFit run.now.space.now worker.new }
    ensures role { IsSameRole (view worker.old.desk) (view worker.new.desk) }
    ensures task { is_some result ≡ is_some worker.new.task }
    ensures card { HasAskedNothing card.old card.new }
    ensures stops { stops card.new ≡ stops card.old }
    ensures counts { is_some result ≡ true → counts card.new ≡ true }
    ensures as_before { IfNone result (counts card.new ≡ counts card.old) }
    ensures ended { counts card.old ≡ true → ended card.new ≡ ended card.old }
    ensures began { BeganForEach (view worker.old.desk) (view worker.new.desk) card.old card.new }
    ensures started { is_some result ≡ true → HasStarted G.knows worker.old worker.new }
    ensures kept { IfNone result ((view worker.new.desk).kept ≡ (view worker.old.desk).kept) }
    ensures count { IfNone result ((view worker.new.desk).looked.count ≡ (view worker.old.desk).looked.count) }
    ensures seen { IfNone result (AreUnready from below (view worker.new.desk).looked.seen) }
    ensures through { IfNone result (LookedThrough from below (view worker.old.desk) (view worker.new.desk)) }
    ensures found { IfSome result (λ i. LookedThrough from (i + 1) (view worker.old.desk) (view worker.new.desk)) }
    ensures plays { IfSome result (λ i. PlaysFiring G.knows (view worker.old.desk).kept worker.old.task worker.new i) }
    ensures among { IfSome result (λ i. (from ≤ i) × (i < below)) }
    ensures before { IfSome result (λ i. AreUnready from i (view worker.new.desk).looked.seen) }
{
    for i in from..below {
        if try_start(run, worker, i, gate, card) {
            return Some(i);
        }
    }
    None
}

/// Looks for a firing from this place on, below that number. Where the next look begins: at the firing that it plays now, if the worker
/// has one, and else a little below the end.
fn find_work<'a, G: Gate>(
    run: &Run<'a>,
    worker: &mut Worker,
    place: u32,
    below: u32,
    gate: &G,
    card: &mut Card,
) -> u32
    requires run { IsOneRun run.now.space.now run.now.code.now run.now.limits.now }
    requires worker { IsFit run.now.space.now worker.old }
    requires idle { worker.old.task ≡ None }
    requires bounds { below ≤ run.now.space.now.events }
    ensures worker { IsFit run.now.space.now worker.new }
    ensures role { IsSameRole (view worker.old.desk) (view worker.new.desk) }
    ensures card { HasAskedNothing card.old card.new }
    ensures stops { stops card.new ≡ stops card.old }
    ensures counts { worker.new.task ≢ None → counts card.new ≡ true }
    ensures as_before { worker.new.task ≡ None → counts card.new ≡ counts card.old }
    ensures ended { counts card.old ≡ true → ended card.new ≡ ended card.old }
    ensures began { BeganForEach (view worker.old.desk) (view worker.new.desk) card.old card.new }
    ensures started { worker.new.task ≢ None → HasStarted G.knows worker.old worker.new }
    ensures kept { worker.new.task ≡ None → (view worker.new.desk).kept ≡ (view worker.old.desk).kept }
    ensures count { worker.new.task ≡ None → (view worker.new.desk).looked.count ≡ (view worker.old.desk).looked.count }
    ensures seen { worker.new.task ≡ None → AreUnready place below (view worker.new.desk).looked.seen }
    ensures through { worker.new.task ≡ None → LookedThrough place below (view worker.old.desk) (view worker.new.desk) }
    ensures found { worker.new.task ≢ None → LookedThrough place (result + 1) (view worker.old.desk) (view worker.new.desk) }
    ensures next { worker.new.task ≡ None → result ≡ below - 256 }
    ensures plays { worker.new.task ≢ None → PlaysFiring G.knows (view worker.old.desk).kept worker.old.task worker.new result }
    ensures onward { worker.new.task ≢ None → place ≤ result }
    ensures below { worker.new.task ≢ None → result < below }
    ensures before { worker.new.task ≢ None → AreUnready place result (view worker.new.desk).looked.seen }
{
    match sweep(run, worker, place, below, gate, card) {
        Some(i) => i,
        None => below.saturating_sub(NEAR),
    }
}

impl Player {
    /// One that has not played yet.
    pub(crate) fn new(worker: Worker, card: Card) -> Player
        ensures { (result.worker ≡ worker) × (result.card ≡ card) × (result.failed ≡ false) × (result.place ≡ 0) × (result.known ≡ 0) × (result.misses ≡ 0) }
    {
        Player {
            worker,
            card,
            failed: false,
            place: 0,
            known: 0,
            misses: 0,
        }
    }

    /// One step of the task. Whether the worker goes on.
    fn advance<'a, R: Wait, G: Gate>(
        &mut self,
        rt: &R,
        alloc: Global,
        run: &Run<'a>,
        gate: &G,
    ) -> bool
        requires run { IsOneRun run.now.space.now run.now.code.now run.now.limits.now }
        requires worker { IsFit run.now.space.now self.old.worker }
        requires task { self.old.worker.task ≢ None }
        requires sane { self.old.failed ≡ false }
        ensures may { MayPlay run.now.space.now self.new }
        ensures on { PlaysOn self.old self.new }
        ensures card { counts self.new.card ≡ counts self.old.card }
        ensures ended { ended self.new.card ≡ ended self.old.card }
        ensures heard { result ≡ true → stops self.new.card ≡ stops self.old.card }
        ensures sane { result ≡ true → self.new.failed ≡ false }
        ensures failed { result ≡ false → self.new.failed ≡ true }
        ensures told { TellsIfItFails self.new }
        ensures tells { result ≡ false → tells self.new.card ≡ true }
        ensures short { result ≡ false → IsOutOfMemory run.now.space.now self.new.worker }
        ensures reads { reads self.new.card ≡ reads self.old.card }
        ensures asks { times_asked self.new.card ≡ times_asked self.old.card }
        ensures went { result ≡ true → (t : TheTask) → self.old.worker.task ≡ Some t → HasGoneOn (view self.old.worker.desk).kept t self.new.worker }
        ensures plays { result ≡ true → (t : TheTask) → self.old.worker.task ≡ Some t → PlaysNext G.knows (view self.old.worker.desk).kept t self.new.worker }
        ensures drew { (t : TheTask) → self.old.worker.task ≡ Some t → DrewAStep t (view self.old.worker.desk).draws (view self.new.worker.desk).draws }
        ensures stands { result ≡ true → StandsStill self.old self.new }
    {
        match self
            .worker
            .step(rt, alloc, run.space, run.code, run.limits, gate)
        {
            Ok(()) => true,
            Err(_) => {
                self.failed = true;
                self.card.stop();
                false
            }
        }
    }

    /// The worker has found a firing to play, and goes on.
    fn found(&mut self, pause: &Pause) -> bool
        ensures same { (self.new.worker ≡ self.old.worker) × (self.new.failed ≡ self.old.failed) × (self.new.place ≡ self.old.place) × (self.new.card ≡ self.old.card) }
        ensures misses { self.new.misses ≡ 0 }
        ensures on { result ≡ true }
    {
        self.misses = 0;
        pause.reset();
        true
    }

    /// Looks for a firing from its place on: among all numbers, or else among those that it knew of before. The next look goes on at the
    /// firing that it found, or a little below the end of these. One that does not count
    /// looks among all of them where it has read that nobody is at work, and only then: so none was at work before the look began.
    /// What one that counts finds among all of them says nothing of when it may go: it may count for the look's sake.
    fn look<'a, G: Gate>(&mut self, run: &Run<'a>, gate: &G, among_all: bool)
        requires run { IsOneRun run.now.space.now run.now.code.now run.now.limits.now }
        requires worker { IsFit run.now.space.now self.old.worker }
        requires idle { self.old.worker.task ≡ None }
        requires read { among_all ≡ true → counts self.old.card ≡ false → last_read self.old.card ≡ Some 0 }
        ensures worker { IsFit run.now.space.now self.new.worker }
        ensures role { IsSameRole (view self.old.worker.desk) (view self.new.worker.desk) }
        ensures same { (self.new.failed ≡ self.old.failed) × (self.new.misses ≡ self.old.misses) }
        ensures card { HasAskedNothing self.old.card self.new.card }
        ensures stops { stops self.new.card ≡ stops self.old.card }
        ensures counts { self.new.worker.task ≢ None → counts self.new.card ≡ true }
        ensures as_before { self.new.worker.task ≡ None → counts self.new.card ≡ counts self.old.card }
        ensures ended { counts self.old.card ≡ true → ended self.new.card ≡ ended self.old.card }
        ensures began { BeganForEach (view self.old.worker.desk) (view self.new.worker.desk) self.old.card self.new.card }
        ensures started { self.new.worker.task ≢ None → HasStarted G.knows self.old.worker self.new.worker }
        ensures kept { self.new.worker.task ≡ None → (view self.new.worker.desk).kept ≡ (view self.old.worker.desk).kept }
        ensures all { among_all ≡ true → last_read self.old.card ≡ Some 0 → self.new.worker.task ≡ None → FoundNone run.now.space.now self.old.place (view self.new.worker.desk) }
        ensures knew { self.new.worker.task ≡ None → FoundNoneBelow run.now.space.now self.old.place self.old.known (view self.new.worker.desk) }
        ensures knows { self.new.worker.task ≡ None → KnowsCount run.now.space.now self.new }
        ensures through { self.new.worker.task ≡ None → LookedThrough self.old.place (if among_all then self.new.known else min self.old.known self.new.known) (view self.old.worker.desk) (view self.new.worker.desk) }
        ensures found { self.new.worker.task ≢ None → LookedThrough self.old.place (self.new.place + 1) (view self.old.worker.desk) (view self.new.worker.desk) }
        ensures next { self.new.worker.task ≡ None → self.new.place ≡ (if among_all then self.new.known else min self.old.known self.new.known) - 256 }
        ensures plays { self.new.worker.task ≢ None → PlaysFiring G.knows (view self.old.worker.desk).kept self.old.worker.task self.new.worker self.new.place }
        ensures onward { self.new.worker.task ≢ None → self.old.place ≤ self.new.place }
        ensures before { self.new.worker.task ≢ None → AreUnready self.old.place self.new.place (view self.new.worker.desk).looked.seen }
        ensures fresh { self.new.worker.task ≢ None → among_all ≡ false → self.new.place < self.old.known }
    {
        let count = self.worker.count(run.space);
        let below = if among_all {
            count
        } else {
            self.known.min(count)
        };
        self.known = count;
        self.place = find_work(
            run,
            &mut self.worker,
            self.place,
            below,
            gate,
            &mut self.card,
        );
    }

    /// Looks for a firing among all numbers, unless the look before, which found none, began at the first.
    fn look_far<'a, G: Gate>(&mut self, run: &Run<'a>, gate: &G, from: u32)
        requires run { IsOneRun run.now.space.now run.now.code.now run.now.limits.now }
        requires worker { IsFit run.now.space.now self.old.worker }
        requires idle { self.old.worker.task ≡ None }
        requires seen { FoundNone run.now.space.now from (view self.old.worker.desk) }
        requires read { last_read self.old.card ≡ Some 0 }
        ensures worker { IsFit run.now.space.now self.new.worker }
        ensures role { IsSameRole (view self.old.worker.desk) (view self.new.worker.desk) }
        ensures same { self.new.failed ≡ self.old.failed }
        ensures card { HasAskedNothing self.old.card self.new.card }
        ensures stops { stops self.new.card ≡ stops self.old.card }
        ensures began { BeganForEach (view self.old.worker.desk) (view self.new.worker.desk) self.old.card self.new.card }
        ensures counts { self.new.worker.task ≢ None → counts self.new.card ≡ true }
        ensures started { self.new.worker.task ≢ None → HasStarted G.knows self.old.worker self.new.worker }
        ensures kept { self.new.worker.task ≡ None → (view self.new.worker.desk).kept ≡ (view self.old.worker.desk).kept }
        ensures none { self.new.worker.task ≡ None → FoundNone run.now.space.now 0 (view self.new.worker.desk) }
        ensures plays { self.new.worker.task ≢ None → PlaysFiring G.knows (view self.old.worker.desk).kept self.old.worker.task self.new.worker self.new.place }
        ensures before { self.new.worker.task ≢ None → AreUnready 0 self.new.place (view self.new.worker.desk).looked.seen }
        ensures found { self.new.worker.task ≢ None → LookedThrough 0 (self.new.place + 1) (view self.old.worker.desk) (view self.new.worker.desk) }
        ensures stays { from ≡ 0 → self.new.worker ≡ self.old.worker }
        ensures through { 0 < from → self.new.worker.task ≡ None → LookedThrough 0 self.new.known (view self.old.worker.desk) (view self.new.worker.desk) }
        ensures knows { 0 < from → self.new.worker.task ≡ None → KnowsCount run.now.space.now self.new }
    {
        if from > 0 {
            self.place = 0;
            self.look(run, gate, true);
        }
    }

    /// One of so many looks that found nothing is followed by one that begins at the first number.
    fn begin_look(&mut self)
        ensures same { (self.new.worker ≡ self.old.worker) × (self.new.card ≡ self.old.card) × (self.new.failed ≡ self.old.failed) × (self.new.known ≡ self.old.known) }
        ensures begins { BeginsLook self.old self.new.place self.new.misses }
        ensures back { self.new.place ≤ self.old.place }
    {
        if self.misses == FAR_LOOK {
            self.place = 0;
            self.misses = 0;
        }
    }

    /// Looks for a firing to play. Whether the worker goes on: it does while it finds one, or another is at work.
    ///
    /// A worker that does not count among those at work leaves a firing that was drawn since its last look, unless it read that nobody
    /// is at work: whoever posted it comes to it soon as a rule, and has in its processor's memory what it is about. Taken over at once,
    /// each costs more than it takes.
    fn idle<'a, R: Wait, G: Gate>(&mut self, rt: &R, run: &Run<'a>, gate: &G, pause: &Pause) -> bool
        requires run { IsOneRun run.now.space.now run.now.code.now run.now.limits.now }
        requires worker { IsFit run.now.space.now self.old.worker }
        requires idle { self.old.worker.task ≡ None }
        requires sane { self.old.failed ≡ false }
        ensures may { MayPlay run.now.space.now self.new }
        ensures on { PlaysOn self.old self.new }
        ensures sane { self.new.failed ≡ false }
        ensures stops { result ≡ false → HasPlayed run.now.space.now self.new }
        ensures looked { result ≡ true → HasLooked G.knows run.now.space.now self.old self.new }
        ensures off { result ≡ false → StillPlays (view self.old.worker.desk).kept self.old.worker.task self.new.worker }
        ensures counts { result ≡ true → counts self.new.card ≡ is_some self.new.worker.task }
        ensures heard { stops self.new.card ≡ stops self.old.card }
        ensures began { BeganForEach (view self.old.worker.desk) (view self.new.worker.desk) self.old.card self.new.card }
        ensures stays { counts self.old.card ≡ true → result ≡ true }
        ensures gone { result ≡ false → HasGone run.now.space.now self.old self.new }
        ensures read { reads self.new.card ≡ reads self.old.card + 1 }
        ensures asks { times_asked self.new.card ≡ times_asked self.old.card }
    {
        // Read before the look: what is posted later is posted by a worker that is at work now, or by one of those whose work
        // this look finds.
        let working = self.card.read();
        self.begin_look();
        let from = self.place;
        let counted = self.card.is_at_work();
        self.look(run, gate, counted || working == 0);
        if self.worker.has_task() {
            // It counts since before it started the firing.
            return self.found(pause);
        }
        if counted {
            self.card.end();
            return true;
        }
        // Where nobody is at work, what the near look did not find is looked for among all numbers, before the worker goes.
        if working == 0 {
            self.look_far(run, gate, from);
            if !self.worker.has_task() {
                return false;
            }
            return self.found(pause);
        }
        self.misses = self.misses.saturating_add(1);
        pause.rest(rt, &self.card, working);
        true
    }

    /// The worker goes for good, and is at work no more: those that sleep are to look once more, and go too.
    fn leave(&mut self)
        ensures same { (self.new.worker ≡ self.old.worker) × (self.new.failed ≡ self.old.failed) }
        ensures card { HasAskedNothing self.old.card self.new.card × (stops self.new.card ≡ stops self.old.card) }
        ensures counts { counts self.new.card ≡ false }
        ensures ended { ended self.new.card ≡ ended self.old.card + counted_as (counts self.old.card) }
        ensures tells { tells self.new.card ≡ tells self.old.card }
    {
        self.card.end();
        self.card.wake_all();
    }

    /// One round: a step of the task, or a look for another. Whether the worker goes on. It asks first whether all are to stop.
    fn round<'a, R: Wait, G: Gate>(
        &mut self,
        rt: &R,
        alloc: Global,
        run: &Run<'a>,
        gate: &G,
        pause: &Pause,
    ) -> bool
        requires run { IsOneRun run.now.space.now run.now.code.now run.now.limits.now }
        requires may { MayPlay run.now.space.now self.old }
        requires sane { self.old.failed ≡ false }
        requires counts { CountsIfItPlays self.old }
        ensures may { MayPlay run.now.space.now self.new }
        ensures on { PlaysOn self.old self.new }
        ensures sane { result ≡ true → self.new.failed ≡ false }
        ensures stops { result ≡ false → HasPlayed run.now.space.now self.new }
        ensures told { TellsIfItFails self.new }
        ensures counts { result ≡ true → CountsIfItPlays self.new }
        ensures went { result ≡ true → HadARound G.knows run.now.space.now self.old self.new }
        ensures off { result ≡ false → self.new.failed ≡ false → StillPlays (view self.old.worker.desk).kept self.old.worker.task self.new.worker }
        ensures last { result ≡ false → BeganToTheEnd self.old self.new }
        ensures short { result ≡ false → HasFailed run.now.space.now self.old self.new }
        ensures gone { result ≡ false → self.new.failed ≡ false → HasGone run.now.space.now self.old self.new }
        ensures asked { times_asked self.new.card ≡ times_asked self.old.card + 1 }
        ensures untold { result ≡ true → stops self.new.card ≡ false }
        ensures unstopped { result ≡ false → self.new.failed ≡ false → stops self.new.card ≡ false }
    {
        if self.card.has_stopped() {
            self.failed = true;
            return false;
        }
        if self.worker.has_task() {
            return self.advance(rt, alloc, run, gate);
        }
        if self.worker.is_spent() {
            return false;
        }
        self.idle(rt, run, gate, pause)
    }

    /// A spell of rounds. Whether the worker goes on.
    ///
    /// `forever` counts its turns, which takes some dozen instructions each time. Here it counts one for all of these.
    fn rounds<'a, R: Wait, G: Gate>(
        &mut self,
        rt: &R,
        alloc: Global,
        run: &Run<'a>,
        gate: &G,
        pause: &Pause,
    ) -> bool
        requires run { IsOneRun run.now.space.now run.now.code.now run.now.limits.now }
        requires may { MayPlay run.now.space.now self.old }
        requires sane { self.old.failed ≡ false }
        requires counts { CountsIfItPlays self.old }
        ensures may { MayPlay run.now.space.now self.new }
        ensures on { PlaysOn self.old self.new }
        ensures sane { result ≡ true → self.new.failed ≡ false }
        ensures stops { result ≡ false → HasPlayed run.now.space.now self.new }
        ensures told { TellsIfItFails self.new }
        ensures counts { result ≡ true → CountsIfItPlays self.new }
        ensures went { result ≡ true → (before : ThePlayer) × IsOnTheWay run.now.space.now self.old before × HadARound G.knows run.now.space.now before self.new }
        ensures had { result ≡ true → HadRounds G.knows run.now.space.now self.old self.new }
        ensures off { result ≡ false → HasLeftOff G.knows run.now.space.now self.old self.new }
        ensures untold { result ≡ true → stops self.new.card ≡ false }
    {
        for _round in 0..ROUNDS {
            if !self.round(rt, alloc, run, gate, pause) {
                return false;
            }
        }
        true
    }

    /// Between two spells a worker with a task may stand aside (`Crowd`). It reads the roll twice at the most.
    fn give_way<R: Wait>(&mut self, rt: &R, crowd: &mut Crowd)
        ensures between { IsBetweenRounds self.old self.new }
        ensures same { self.new.failed ≡ self.old.failed }
        ensures card { IsSameCard self.old.card self.new.card × (stops self.new.card ≡ stops self.old.card) }
        ensures reads { reads self.new.card ≤ reads self.old.card + 2 }
    {
        crowd.stand_aside(rt, &self.worker, &mut self.card);
    }
}

/// A worker plays until the run is full, or one of the workers met want of memory, or it finds no firing to start among all numbers,
/// and has read that nobody is at work.
pub(crate) fn work<'a, R: Wait, G: Gate>(
    rt: &R,
    alloc: Global,
    run: &Run<'a>,
    player: Player,
    gate: &G,
) -> Player
    requires run { IsOneRun run.now.space.now run.now.code.now run.now.limits.now }
    requires may { MayPlay run.now.space.now player }
    requires sane { player.failed ≡ false }
    requires counts { CountsIfItPlays player }
    requires told { PlaysBody 0 player.worker → G.knows 0 }
    ensures played { HasPlayed run.now.space.now result }
    ensures on { PlaysOn player result }
    ensures off { HasLeftOff G.knows run.now.space.now player result }
    ensures told { TellsIfItFails result }
    ensures left { counts result.card ≡ false }
{
    let mut player = player;
    let pause = Pause::new();
    let mut crowd = Crowd::new();
    for _ in rt.forever() {
        if !player.rounds(rt, alloc, run, gate, &pause) {
            player.leave();
            return player;
        }
        player.give_way(rt, &mut crowd);
    }
    unreachable!()
}
