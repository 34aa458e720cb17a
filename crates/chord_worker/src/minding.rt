//! A worker minds a message that it sent off: it looks for chords with the message, and fires one.
ghost use Rattle.std.specs.Prelude.{◌≡◌, ◌<◌, ℕ, true, false, None, IsOk, OnOk, OnErr, vec_len, vec_capacity};
ghost use Rattle.chord_base.specs.Room.{HasGrown};
ghost use Rattle.chord_base.specs.Story.{IsSound};
ghost use Rattle.chord_match.specs.Findings.{IsMatch};
ghost use Rattle.chord_match.specs.Fires.{IsLost};
ghost use Rattle.chord_rule.specs.Made.{key};
ghost use Rattle.chord_rule.specs.declared.view.View.{View};
ghost use Rattle.chord_space.specs.Desks.{view, heads, space_code, space_limits, program_of, IsDeskOf};
ghost use Rattle.chord_worker.specs.Hindered.{IsHindered};
ghost use Rattle.chord_worker.specs.Sending.{Minds};
ghost use Rattle.chord_worker.specs.Resting.{IsAtRest, IsSameRole, IsOutOfMemory};
ghost use Rattle.chord_worker.specs.Stepping.{DrewFiring, StillPlays, StillStocked, WasMinded};

use crate::fired::{Drawn, Unpacked, lay_off};
use crate::worker::{Gate, Worker};
use chord_base::event::{Entry, Limits};
use chord_base::members::Members;
use chord_base::room::reserve_one;
use chord_base::value::Object;
use chord_code::code::Code;
use chord_match::nexts::Nexts;
use chord_match::{Finding, Missed, find, fire_to};
use chord_space::Space;
use chord_task::parcel::Parcel;
use crossbeam_utils::Backoff;
use std::alloc::AllocError;
use std::sync::Wait;

/// A message that a worker minds.
#[derive(Clone, Copy, Drop)]
pub(crate) struct Minded {
    pub number: u32,
    pub object: Object,
    pub method: u8,
}

/// Reserves room in the list of draws for one entry more, ahead of the draw. Whether there was memory for it.
#[inline(always)]
fn reserve_draw(draws: &mut Vec<Entry>) -> bool
    ensures items { draws.new.items ≡ draws.old.items }
    ensures room { result ≡ true → vec_len draws.new < vec_capacity draws.new }
    ensures stays { vec_len draws.old < vec_capacity draws.old → (draws.new ≡ draws.old) × (result ≡ true) }
    ensures grown { result ≡ true → HasGrown (vec_len draws.old) (vec_capacity draws.old) (vec_capacity draws.new) }
{
    match reserve_one(draws) {
        Ok(()) => true,
        Err(_) => false,
    }
}

impl Worker {
    /// There is no memory: what the worker plays is not played on.
    #[inline(never)]
    fn drop_task(&mut self)
        ensures frame { self.new ≡ record self.old { task = self.new.task } }
        ensures none { self.new.task ≡ None }
    {
        match self.task.take() {
            None => {}
            Some(task) => lay_off(task),
        }
    }

    /// The limit on events is reached: what the worker plays is not played on.
    pub(crate) fn give_up(&mut self)
        ensures same { (self.new.desk ≡ self.old.desk) × (self.new.spare ≡ self.old.spare) × (self.new.spent ≡ true) }
        ensures lists { (self.new.draws ≡ self.old.draws) × (self.new.taken ≡ self.old.taken) }
        ensures none { self.new.task ≡ None }
    {
        match self.task.take() {
            None => self.spent = true,
            Some(task) => self.lay_down(task),
        }
    }

    /// Fires the chord with these members, unless one is gone. Whether there is nothing left to mind; where something is, the desk alone has
    /// changed. There is room for the firing's entry. A worker that draws the firing while it has no task has one then: it plays the
    /// body itself, since no other worker's processor has read any of it.
    fn try_to_fire<G: Gate>(
        &mut self,
        space: &Space<Parcel>,
        code: &Code,
        limits: &Limits,
        gate: &G,
        message: Minded,
        chord: u16,
        members: &Members,
        nexts: &Nexts,
    ) -> bool
        requires code { code.now ≡ space_code space.now }
        requires limits { limits.now ≡ space_limits space.now }
        requires sound { IsSound (program_of space.now) }
        requires bounds { (message.object.number < space.now.events) × (message.object.class < 1024) × (message.method < heads space.now) }
        requires place { vec_len self.old.draws < vec_capacity self.old.draws }
        requires minds { Minds space.now self.old message.number (key message.object message.method) }
        requires found { (v : View) × IsMatch (program_of space.now) space.now.events v (view self.old.desk) message.number message.object message.method chord members.now nexts.now }
        ensures desk { IsDeskOf space.now self.new.desk }
        ensures over { result ≡ true → IsAtRest space.now self.new × (self.new.spent ≡ true → self.new.task ≡ None) }
        ensures again { result ≡ false → Minds space.now self.new message.number (key message.object message.method) }
        ensures frame { result ≡ false → self.new ≡ record self.old { desk = self.new.desk } }
        ensures role { IsSameRole (view self.old.desk) (view self.new.desk) }
        ensures minded { result ≡ true → WasMinded G.knows (view self.old.desk).kept self.old.task self.new message.number }
        ensures same { result ≡ false → StillPlays (view self.old.desk).kept self.old.task self.new }
        ensures stock { StillStocked (program_of space.now) (view self.old.desk).draws self.old.spare self.new }
        ensures drew { DrewFiring (view self.old.desk).draws (view self.new.desk).draws }
        ensures undrawn { result ≡ false → (view self.new.desk).draws ≡ (view self.old.desk).draws }
        ensures lost { result ≡ false → (i : ℕ) × IsLost space.now.events (view self.old.desk) (view self.new.desk) members.now nexts.now i }
        ensures lists { self.new.taken ≡ self.old.taken }
        ensures played { self.old.task ≡ None → self.new.task ≡ None → (view self.new.desk).draws ≡ (view self.old.desk).draws }
    {
        let object = message.object;
        let mut unpacked = Unpacked::nothing();
        match fire_to(
            space,
            &mut self.desk,
            code,
            object,
            chord,
            members,
            nexts,
            &mut unpacked,
        ) {
            Ok(number) => {
                let drawn = Drawn {
                    number,
                    object,
                    chord,
                };
                self.begin_fired(space, code, limits, gate, drawn, members, &mut unpacked);
                unpacked.lay_aside();
                true
            }
            Err(Missed::Lost(_)) => {
                unpacked.lay_aside();
                false
            }
            Err(Missed::Spent) => {
                unpacked.lay_aside();
                self.give_up();
                true
            }
        }
    }

    /// Looks for a chord with the message, and fires it. Whether there is nothing left to mind; where something is, the desk alone has changed.
    fn attend<G: Gate>(
        &mut self,
        space: &Space<Parcel>,
        code: &Code,
        limits: &Limits,
        gate: &G,
        message: Minded,
    ) -> bool
        requires code { code.now ≡ space_code space.now }
        requires limits { limits.now ≡ space_limits space.now }
        requires sound { IsSound (program_of space.now) }
        requires bounds { (message.number < space.now.events) × (message.object.number < space.now.events) × (message.object.class < 1024) × (message.method < heads space.now) }
        requires place { vec_len self.old.draws < vec_capacity self.old.draws }
        requires minds { Minds space.now self.old message.number (key message.object message.method) }
        ensures desk { IsDeskOf space.now self.new.desk }
        ensures over { result ≡ true → IsAtRest space.now self.new × (self.new.spent ≡ true → self.new.task ≡ None) }
        ensures again { result ≡ false → Minds space.now self.new message.number (key message.object message.method) }
        ensures frame { result ≡ false → self.new ≡ record self.old { desk = self.new.desk } }
        ensures role { IsSameRole (view self.old.desk) (view self.new.desk) }
        ensures minded { result ≡ true → WasMinded G.knows (view self.old.desk).kept self.old.task self.new message.number }
        ensures same { result ≡ false → StillPlays (view self.old.desk).kept self.old.task self.new }
        ensures stock { StillStocked (program_of space.now) (view self.old.desk).draws self.old.spare self.new }
        ensures drew { DrewFiring (view self.old.desk).draws (view self.new.desk).draws }
        ensures undrawn { result ≡ false → (view self.new.desk).draws ≡ (view self.old.desk).draws }
        ensures hindered { result ≡ false → IsHindered (program_of space.now) space.now.events (view self.old.desk) (view self.new.desk) message.number message.object message.method }
        ensures lists { self.new.taken ≡ self.old.taken }
        ensures played { self.old.task ≡ None → self.new.task ≡ None → (view self.new.desk).draws ≡ (view self.old.desk).draws }
    {
        let mut members = Members::new();
        let mut nexts = Nexts::new();
        match find(
            space,
            &mut self.desk,
            code,
            message.number,
            message.object,
            message.method,
            &mut members,
            &mut nexts,
        ) {
            Finding::Match(chord) => {
                self.try_to_fire(space, code, limits, gate, message, chord, &members, &nexts)
            }
            Finding::Busy(_) => false,
            Finding::Left => true,
            Finding::Taken => true,
        }
    }

    /// Minds the message until nothing is left to mind: it was taken, or no chord with it is enabled, or one was fired. There is room for
    /// the entry of a firing before any is looked for; where the list has room already, there is no want of memory.
    pub(crate) fn mind<R: Wait, G: Gate>(
        &mut self,
        rt: &R,
        space: &Space<Parcel>,
        code: &Code,
        limits: &Limits,
        gate: &G,
        message: Minded,
    ) -> Result<(), AllocError>
        requires code { code.now ≡ space_code space.now }
        requires limits { limits.now ≡ space_limits space.now }
        requires sound { IsSound (program_of space.now) }
        requires bounds { (message.number < space.now.events) × (message.object.number < space.now.events) × (message.object.class < 1024) × (message.method < heads space.now) }
        requires minds { Minds space.now self.old message.number (key message.object message.method) }
        ensures desk { IsDeskOf space.now self.new.desk }
        ensures over { OnOk result (IsAtRest space.now self.new × (self.new.spent ≡ true → self.new.task ≡ None)) }
        ensures role { OnOk result (IsSameRole (view self.old.desk) (view self.new.desk)) }
        ensures minded { OnOk result (WasMinded G.knows (view self.old.desk).kept self.old.task self.new message.number) }
        ensures stock { OnOk result (StillStocked (program_of space.now) (view self.old.desk).draws self.old.spare self.new) }
        ensures drew { DrewFiring (view self.old.desk).draws (view self.new.desk).draws }
        ensures roomy { vec_len self.old.draws < vec_capacity self.old.draws → IsOk result }
        ensures short { OnErr result (IsOutOfMemory space.now self.new) }
        ensures lists { self.new.taken ≡ self.old.taken }
        ensures played { self.old.task ≡ None → self.new.task ≡ None → (view self.new.desk).draws ≡ (view self.old.desk).draws }
    {
        if !reserve_draw(&mut self.draws) {
            self.drop_task();
            return Err(AllocError);
        }
        if self.attend(space, code, limits, gate, message) {
            return Ok(());
        }
        self.mind_on(rt, space, code, limits, gate, message);
        Ok(())
    }

    /// Minds the message on, since a message was in the hand of another desk, or a member was lost.
    #[inline(never)]
    fn mind_on<R: Wait, G: Gate>(
        &mut self,
        rt: &R,
        space: &Space<Parcel>,
        code: &Code,
        limits: &Limits,
        gate: &G,
        message: Minded,
    )
        requires code { code.now ≡ space_code space.now }
        requires limits { limits.now ≡ space_limits space.now }
        requires sound { IsSound (program_of space.now) }
        requires bounds { (message.number < space.now.events) × (message.object.number < space.now.events) × (message.object.class < 1024) × (message.method < heads space.now) }
        requires place { vec_len self.old.draws < vec_capacity self.old.draws }
        requires minds { Minds space.now self.old message.number (key message.object message.method) }
        ensures desk { IsDeskOf space.now self.new.desk }
        ensures over { IsAtRest space.now self.new × (self.new.spent ≡ true → self.new.task ≡ None) }
        ensures role { IsSameRole (view self.old.desk) (view self.new.desk) }
        ensures minded { WasMinded G.knows (view self.old.desk).kept self.old.task self.new message.number }
        ensures stock { StillStocked (program_of space.now) (view self.old.desk).draws self.old.spare self.new }
        ensures drew { DrewFiring (view self.old.desk).draws (view self.new.desk).draws }
        ensures lists { self.new.taken ≡ self.old.taken }
        ensures played { self.old.task ≡ None → self.new.task ≡ None → (view self.new.desk).draws ≡ (view self.old.desk).draws }
    {
        let backoff = Backoff::new();
        for _ in rt.forever() {
            if self.attend(space, code, limits, gate, message) {
                return;
            }
            backoff.snooze();
        }
        unreachable!()
    }
}
