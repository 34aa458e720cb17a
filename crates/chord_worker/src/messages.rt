//! Messages are sent off with their parcels, and minded until they are taken, left or fired.
ghost use Rattle.std.specs.Prelude.{◌≡◌, ◌≢◌, ◌<◌, true, false, [], Some, None, OnOk, OnErr};
ghost use Rattle.chord_base.specs.Story.{IsSound};
ghost use Rattle.chord_base.specs.declared.event.What.TheVariants.{Sent, Called};
ghost use Rattle.chord_rule.specs.Made.{key};
ghost use Rattle.chord_space.specs.Desks.{view, heads, space_code, space_limits, program_of, IsDeskOf, IsSameDesk};
ghost use Rattle.chord_space.specs.Gives.{MayLink};
ghost use Rattle.chord_space.specs.Ruled.{IsOfCode};
ghost use Rattle.chord_task.specs.Parcels.{entries_of, arguments_of, IsParcelOf};
ghost use Rattle.chord_task.specs.declared.task.Task.{Task as TheTask};
ghost use Rattle.chord_task.specs.Standing.{view_of, IsTaskOf};
ghost use Rattle.chord_task.specs.Turning.{HasCome, OwnsNothing};
ghost use Rattle.chord_worker.specs.Resting.{IsAtRest, IsSameRole, IsOutOfMemory};
ghost use Rattle.chord_worker.specs.Sending.{IsSentOff};
ghost use Rattle.chord_worker.specs.Stepping.{DrewAStep, HasGoneOn, PlaysNext, SaysFirst, StillStocked};

use crate::minding::Minded;
use crate::playing::draw_own;
use crate::worker::{Gate, Worker};
use chord_base::event::Limits;
use chord_base::value::Object;
use chord_code::code::Code;
use chord_space::{Desk, Space};
use chord_task::apart::Apart;
use chord_task::enclosed::Enclosed;
use chord_task::parcel::{Parcel, letter, packed};
use chord_task::task::Task;
use chord_vm::ask::Ask;
use std::alloc::{AllocError, Global};
use std::sync::Wait;

/// A message that the desk drew is linked with its parcel, and armed.
pub(crate) fn send_off(
    space: &Space<Parcel>,
    desk: &mut Desk<Parcel>,
    m: u32,
    object: Object,
    method: u8,
    parcel: Parcel,
)
    requires desk { IsDeskOf space.now desk.old }
    requires bounds { (m < space.now.events) × (object.number < space.now.events) × (object.class < 1024) × (method < heads space.now) }
    requires link { MayLink (program_of space.now) (view desk.old) m object method (entries_of parcel) (arguments_of parcel) }
    requires task { IsParcelOf parcel (space_code space.now) (space_limits space.now) }
    ensures desk { IsSameDesk desk.old desk.new }
    ensures sent { IsSentOff (view desk.old) (view desk.new) m (key object method) (entries_of parcel) }
{
    space.link(desk, m, object, method, parcel);
    space.arm(desk, m);
}

/// What an asynchronous message goes with: its arguments, and no task.
fn send_letter(
    space: &Space<Parcel>,
    desk: &mut Desk<Parcel>,
    code: &Code,
    limits: &Limits,
    m: u32,
    object: Object,
    method: u8,
    held: Enclosed,
)
    requires desk { IsDeskOf space.now desk.old }
    requires code { code.now ≡ space_code space.now }
    requires limits { limits.now ≡ space_limits space.now }
    requires bounds { (m < space.now.events) × (object.number < m) }
    requires named { IsOfCode (space_code space.now) (Sent object method held.first) }
    requires twice { held.second ≡ held.first }
    requires link { MayLink (program_of space.now) (view desk.old) m object method [] held.first }
    ensures desk { IsSameDesk desk.old desk.new }
    ensures sent { IsSentOff (view desk.old) (view desk.new) m (key object method) [] }
    ensures bounds { (object.class < 1024) × (method < heads space.now) }
{
    let _parts = code.parts();
    let parcel = letter(code, limits, held);
    send_off(space, desk, m, object, method, parcel);
}

/// What a call goes with: its arguments, and the task that waits for it.
fn send_task(
    space: &Space<Parcel>,
    desk: &mut Desk<Parcel>,
    code: &Code,
    limits: &Limits,
    m: u32,
    object: Object,
    method: u8,
    held: Enclosed,
    task: Apart<Task>,
)
    requires desk { IsDeskOf space.now desk.old }
    requires code { code.now ≡ space_code space.now }
    requires limits { limits.now ≡ space_limits space.now }
    requires bounds { (m < space.now.events) × (object.number < m) }
    requires named { IsOfCode (space_code space.now) (Called object method held.first) }
    requires twice { held.second ≡ held.first }
    requires task { IsTaskOf (space_code space.now) (space_limits space.now) task }
    requires left { (view_of task).top ≢ None }
    requires link { MayLink (program_of space.now) (view desk.old) m object method (view_of task).past held.first }
    ensures desk { IsSameDesk desk.old desk.new }
    ensures sent { IsSentOff (view desk.old) (view desk.new) m (key object method) (view_of task).past }
    ensures bounds { (object.class < 1024) × (method < heads space.now) }
{
    let _parts = code.parts();
    let parcel = packed(code, limits, held, task);
    send_off(space, desk, m, object, method, parcel);
}

impl Worker {
    /// An asynchronous message becomes an entry, is sent off, and minded.
    pub(crate) fn play_sent<R: Wait, G: Gate>(
        &mut self,
        rt: &R,
        alloc: Global,
        space: &Space<Parcel>,
        code: &Code,
        limits: &Limits,
        gate: &G,
        task: Apart<Task>,
        asked: &mut Option<Ask>,
        object: Object,
        method: u8,
        held: Enclosed,
    ) -> Result<(), AllocError>
        requires none { self.old.task ≡ None }
        requires room { (view self.old.desk).spent ≡ false }
        requires stock { self.old.spare ≢ None }
        requires asked { asked.old ≡ Some (Ask.Send object method held.first) }
        requires came { (t : TheTask) × HasCome (space_code space.now) (space_limits space.now) t task (Sent object method held.first) × IsAtRest space.now (record self.old { task = Some t }) }
        requires twice { held.second ≡ held.first }
        requires code { code.now ≡ space_code space.now }
        requires limits { limits.now ≡ space_limits space.now }
        requires sound { IsSound (program_of space.now) }
        ensures desk { IsDeskOf space.now self.new.desk }
        ensures rest { OnOk result (IsAtRest space.now self.new) }
        ensures role { OnOk result (IsSameRole (view self.old.desk) (view self.new.desk)) }
        ensures over { OnOk result (self.new.spent ≡ true → self.new.task ≡ None) }
        ensures went { OnOk result (HasGoneOn (view self.old.desk).kept task self.new) }
        ensures plays { OnOk result (PlaysNext G.knows (view self.old.desk).kept task self.new) }
        ensures stock { OnOk result (StillStocked (program_of space.now) (view self.old.desk).draws self.old.spare self.new) }
        ensures bare { OnOk result (OwnsNothing asked.new) }
        ensures drew { DrewAStep task (view self.old.desk).draws (view self.new.desk).draws }
        ensures says { OnOk result (SaysFirst (Sent object method held.first) (view self.old.desk).draws (view self.new.desk).draws) }
        ensures short { OnErr result (IsOutOfMemory space.now self.new) }
        ensures lists { self.new.taken ≡ self.old.taken }
    {
        let mut task = task;
        match draw_own(
            alloc,
            space,
            code,
            &mut self.desk,
            &mut task,
            asked,
            &mut self.draws,
        )? {
            Some(number) => {
                send_letter(
                    space,
                    &mut self.desk,
                    code,
                    limits,
                    number,
                    object,
                    method,
                    held,
                );
                let message = Minded {
                    number,
                    object,
                    method,
                };
                if task.value.comes_to_end(code, limits) {
                    self.end_and_mind(rt, alloc, space, code, limits, gate, task, asked, message)?;
                    return Ok(());
                }
                self.settle(task);
                self.mind(rt, space, code, limits, gate, message)?;
                Ok(())
            }
            None => {
                self.lay_down(task);
                Ok(())
            }
        }
    }

    /// A call becomes an entry, is sent off with the task, and minded.
    pub(crate) fn play_called<R: Wait, G: Gate>(
        &mut self,
        rt: &R,
        alloc: Global,
        space: &Space<Parcel>,
        code: &Code,
        limits: &Limits,
        gate: &G,
        task: Apart<Task>,
        asked: &mut Option<Ask>,
        object: Object,
        method: u8,
        held: Enclosed,
    ) -> Result<(), AllocError>
        requires none { self.old.task ≡ None }
        requires room { (view self.old.desk).spent ≡ false }
        requires stock { self.old.spare ≢ None }
        requires asked { asked.old ≡ Some (Ask.Call object method held.first) }
        requires came { (t : TheTask) × HasCome (space_code space.now) (space_limits space.now) t task (Called object method held.first) × IsAtRest space.now (record self.old { task = Some t }) }
        requires twice { held.second ≡ held.first }
        requires code { code.now ≡ space_code space.now }
        requires limits { limits.now ≡ space_limits space.now }
        requires sound { IsSound (program_of space.now) }
        ensures desk { IsDeskOf space.now self.new.desk }
        ensures rest { OnOk result (IsAtRest space.now self.new) }
        ensures role { OnOk result (IsSameRole (view self.old.desk) (view self.new.desk)) }
        ensures over { OnOk result (self.new.spent ≡ true → self.new.task ≡ None) }
        ensures went { OnOk result (HasGoneOn (view self.old.desk).kept task self.new) }
        ensures plays { OnOk result (PlaysNext G.knows (view self.old.desk).kept task self.new) }
        ensures stock { OnOk result (StillStocked (program_of space.now) (view self.old.desk).draws self.old.spare self.new) }
        ensures bare { OnOk result (OwnsNothing asked.new) }
        ensures drew { DrewAStep task (view self.old.desk).draws (view self.new.desk).draws }
        ensures says { OnOk result (SaysFirst (Called object method held.first) (view self.old.desk).draws (view self.new.desk).draws) }
        ensures short { OnErr result (IsOutOfMemory space.now self.new) }
        ensures lists { self.new.taken ≡ self.old.taken }
    {
        let mut task = task;
        match draw_own(
            alloc,
            space,
            code,
            &mut self.desk,
            &mut task,
            asked,
            &mut self.draws,
        )? {
            Some(number) => {
                send_task(
                    space,
                    &mut self.desk,
                    code,
                    limits,
                    number,
                    object,
                    method,
                    held,
                    task,
                );
                let message = Minded {
                    number,
                    object,
                    method,
                };
                self.mind(rt, space, code, limits, gate, message)?;
                Ok(())
            }
            None => {
                self.lay_down(task);
                Ok(())
            }
        }
    }
}
