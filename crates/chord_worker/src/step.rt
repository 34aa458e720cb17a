//! A worker plays its task to the next ask, and does what follows from it.
ghost use Rattle.std.specs.Prelude.{◌≡◌, ◌≢◌, ◌⊎◌, Bool, true, false, List, Some, None, OnOk, OnErr, vec_len};
ghost use Rattle.chord_base.specs.declared.event.End.{End as AnEnd};
ghost use Rattle.chord_base.specs.declared.event.Entry.{Entry as AnEntry};
ghost use Rattle.chord_base.specs.declared.event.Limits.{Limits as TheLimits};
ghost use Rattle.chord_base.specs.Printed.{is_end};
ghost use Rattle.chord_base.specs.Story.{IsSound};
ghost use Rattle.chord_code.specs.declared.parts.Parts.{Parts};
ghost use Rattle.chord_space.specs.Desks.{view, space_code, space_limits, program_of, IsDeskOf};
ghost use Rattle.chord_task.specs.declared.task.Task.{Task as TheTask};
ghost use Rattle.chord_task.specs.Standing.{view_of, IsTaskOf};
ghost use Rattle.chord_task.specs.Turning.{HasCome, OwnsNothing};
ghost use Rattle.chord_vm.specs.Frames.{what_of_ask};
ghost use Rattle.chord_worker.specs.Playing.{IsNoMessage};
ghost use Rattle.chord_worker.specs.Resting.{IsInMemory, IsStock, MayContinue, IsAtRest, IsSameRole, IsOutOfMemory};
ghost use Rattle.chord_worker.specs.Stepping.{DrewAStep, HasGoneOn, HasStockAfter, PlaysNoOther, PlaysNext, SaysFirst};

use crate::fired::lay_off;
use crate::playing::{draw_own, see_to_stock};
use crate::worker::{Gate, Worker};
use chord_base::event::Limits;
use chord_code::code::Code;
use chord_space::Space;
use chord_task::apart::Apart;
use chord_task::enclosed::Enclosed;
use chord_task::parcel::Parcel;
use chord_task::task::Task;
use chord_task::turn::{drop_ask, forget_ask};
use chord_vm::ask::Ask;
use std::alloc::{AllocError, Global};
use std::mem;
use std::sync::Wait;

/// What is played next. There is nothing to drop in its place, which an assignment would not know.
#[inline(always)]
pub(crate) fn put_task(place: &mut Option<Apart<Task>>, task: Apart<Task>)
    requires none { place.old ≡ None }
    ensures { place.new ≡ Some task }
{
    match mem::replace(place, Some(task)) {
        None => {}
        Some(_) => unreachable!(),
    }
}

impl Worker {
    /// The task is played on if it may go on; else the worker has no more use for it. Nothing comes into the stock while a body is left in the task.
    #[inline(always)]
    pub(crate) fn settle(&mut self, task: Apart<Task>)
        requires none { self.old.task ≡ None }
        ensures same { (self.new.desk ≡ self.old.desk) × (self.new.spent ≡ self.old.spent) }
        ensures lists { (self.new.draws ≡ self.old.draws) × (self.new.taken ≡ self.old.taken) }
        ensures stays { self.old.spare ≢ None → self.new.spare ≡ self.old.spare }
        ensures stock { (code : Parts) (limits : TheLimits) → IsTaskOf code limits task → IsStock code limits self.old.spare → IsStock code limits self.new.spare }
        ensures serves { self.old.spare ≡ None → task.top ≡ None → self.new.spare ≢ None }
        ensures unmade { (view_of task).top ≢ None → self.new.spare ≡ self.old.spare }
        ensures task { (self.new.task ≡ None) ⊎ (self.new.task ≡ Some task) }
        ensures settled { (code : Parts) (limits : TheLimits) (kept : List AnEntry) (spent : Bool) → IsInMemory code limits kept spent (Some task) → IsInMemory code limits kept spent self.new.task × MayContinue self.new.task }
    {
        if task.value.is_ready() {
            put_task(&mut self.task, task);
            return;
        }
        self.retire(task);
    }

    /// A task that may not go on. Where no body is left in it and none is in stock, it goes there: its memory serves for the next body.
    #[inline(never)]
    pub(crate) fn retire(&mut self, task: Apart<Task>)
        ensures frame { self.new ≡ record self.old { spare = self.new.spare } }
        ensures same { (self.new.desk ≡ self.old.desk) × (self.new.task ≡ self.old.task) × (self.new.spent ≡ self.old.spent) }
        ensures lists { (self.new.draws ≡ self.old.draws) × (self.new.taken ≡ self.old.taken) }
        ensures stays { self.old.spare ≢ None → self.new.spare ≡ self.old.spare }
        ensures stock { (code : Parts) (limits : TheLimits) → IsTaskOf code limits task → IsStock code limits self.old.spare → IsStock code limits self.new.spare }
        ensures serves { self.old.spare ≡ None → (view_of task).top ≡ None → self.new.spare ≢ None }
        ensures unmade { (view_of task).top ≢ None → self.new.spare ≡ self.old.spare }
    {
        if self.spare.is_some() || !task.value.over() {
            return;
        }
        let mut task = task;
        task.value.renew();
        put_task(&mut self.spare, task);
    }

    /// The limit on events is reached: the task is not played on.
    pub(crate) fn lay_down(&mut self, task: Apart<Task>)
        ensures same { (self.new.desk ≡ self.old.desk) × (self.new.spare ≡ self.old.spare) × (self.new.task ≡ self.old.task) × (self.new.spent ≡ true) }
        ensures lists { (self.new.draws ≡ self.old.draws) × (self.new.taken ≡ self.old.taken) }
    {
        self.spent = true;
        lay_off(task);
    }

    /// An ask that is no message becomes an entry. What is in stock stays; something comes there with an end alone, and with that of the last body
    /// of the task something is there, unless the limit is reached.
    pub(crate) fn play_own(
        &mut self,
        alloc: Global,
        space: &Space<Parcel>,
        code: &Code,
        task: Apart<Task>,
        asked: &mut Option<Ask>,
    ) -> Result<(), AllocError>
        requires none { self.old.task ≡ None }
        requires room { (view self.old.desk).spent ≡ false }
        requires code { code.now ≡ space_code space.now }
        requires some { asked.old ≢ None }
        requires plain { (a : Ask) → asked.old ≡ Some a → IsNoMessage (what_of_ask a) }
        requires came { (a : Ask) → asked.old ≡ Some a → (t : TheTask) × HasCome (space_code space.now) (space_limits space.now) t task (what_of_ask a) × IsAtRest space.now (record self.old { task = Some t }) }
        requires sound { IsSound (program_of space.now) }
        ensures desk { IsDeskOf space.now self.new.desk }
        ensures rest { OnOk result (IsAtRest space.now self.new) }
        ensures role { OnOk result (IsSameRole (view self.old.desk) (view self.new.desk)) }
        ensures over { OnOk result (self.new.spent ≡ true → self.new.task ≡ None) }
        ensures went { OnOk result (HasGoneOn (view self.old.desk).kept task self.new) }
        ensures plays { OnOk result (PlaysNoOther task self.new.task) }
        ensures stays { OnOk result (self.old.spare ≢ None → self.new.spare ≡ self.old.spare) }
        ensures unmade { OnOk result ((a : Ask) → asked.old ≡ Some a → is_end (what_of_ask a) ≡ false → self.new.spare ≡ self.old.spare) }
        ensures stocked { OnOk result ((e : AnEnd) → asked.old ≡ Some (Ask.End e) → vec_len task.below ≡ 0 → (self.new.spare ≢ None) ⊎ (self.new.spent ≡ true)) }
        ensures bare { OnOk result (OwnsNothing asked.new) }
        ensures drew { DrewAStep task (view self.old.desk).draws (view self.new.desk).draws }
        ensures says { OnOk result ((a : Ask) → asked.old ≡ Some a → SaysFirst (what_of_ask a) (view self.old.desk).draws (view self.new.desk).draws) }
        ensures short { OnErr result (IsOutOfMemory space.now self.new) }
        ensures lists { self.new.taken ≡ self.old.taken }
    {
        let mut task = task;
        match draw_own(
            alloc,
            space,
            code,
            &mut self.desk,
            &mut task,
            asked,
            &mut self.draws,
        )? {
            Some(_) => {
                self.settle(task);
                Ok(())
            }
            None => {
                self.lay_down(task);
                Ok(())
            }
        }
    }
}

impl Worker {
    /// An ask becomes an entry, with what follows from it. What owns memory is taken out of it. The stock is seen to where a message is played, and
    /// nowhere else: so it may be empty when the body of an asynchronous firing ends, and then the memory of its task serves for the next one.
    fn play<R: Wait, G: Gate>(
        &mut self,
        rt: &R,
        alloc: Global,
        space: &Space<Parcel>,
        code: &Code,
        limits: &Limits,
        gate: &G,
        task: Apart<Task>,
        asked: &mut Option<Ask>,
    ) -> Result<(), AllocError>
        requires none { self.old.task ≡ None }
        requires room { (view self.old.desk).spent ≡ false }
        requires some { asked.old ≢ None }
        requires came { (a : Ask) → asked.old ≡ Some a → (t : TheTask) × HasCome (space_code space.now) (space_limits space.now) t task (what_of_ask a) × IsAtRest space.now (record self.old { task = Some t }) }
        requires code { code.now ≡ space_code space.now }
        requires limits { limits.now ≡ space_limits space.now }
        requires sound { IsSound (program_of space.now) }
        ensures rest { OnOk result (IsAtRest space.now self.new) }
        ensures role { OnOk result (IsSameRole (view self.old.desk) (view self.new.desk)) }
        ensures over { OnOk result (self.new.spent ≡ true → self.new.task ≡ None) }
        ensures went { OnOk result (HasGoneOn (view self.old.desk).kept task self.new) }
        ensures plays { OnOk result (PlaysNext G.knows (view self.old.desk).kept task self.new) }
        ensures stock { OnOk result (HasStockAfter (program_of space.now) (view self.old.desk).draws self.old.spare self.new) }
        ensures stocked { OnOk result ((e : AnEnd) → asked.old ≡ Some (Ask.End e) → vec_len task.below ≡ 0 → (self.new.spare ≢ None) ⊎ (self.new.spent ≡ true)) }
        ensures bare { OnOk result (OwnsNothing asked.new) }
        ensures drew { DrewAStep task (view self.old.desk).draws (view self.new.desk).draws }
        ensures short { OnErr result (IsOutOfMemory space.now self.new) }
        ensures lists { self.new.taken ≡ self.old.taken }
    {
        match asked {
            None => unreachable!(),
            Some(ask) => match ask {
                Ask::Send(object, method, arguments) => {
                    let (object, method) = (*object, *method);
                    see_to_stock(alloc, code, limits, &mut self.spare)?;
                    let held = Enclosed::twice(alloc, arguments)?;
                    self.play_sent(
                        rt, alloc, space, code, limits, gate, task, asked, object, method, held,
                    )?;
                    Ok(())
                }
                Ask::Call(object, method, arguments) => {
                    let (object, method) = (*object, *method);
                    see_to_stock(alloc, code, limits, &mut self.spare)?;
                    let held = Enclosed::twice(alloc, arguments)?;
                    self.play_called(
                        rt, alloc, space, code, limits, gate, task, asked, object, method, held,
                    )?;
                    Ok(())
                }
                Ask::Make(_) => {
                    self.play_own(alloc, space, code, task, asked)?;
                    Ok(())
                }
                Ask::Print(_) => {
                    self.play_own(alloc, space, code, task, asked)?;
                    Ok(())
                }
                Ask::End(_) => {
                    self.play_own(alloc, space, code, task, asked)?;
                    Ok(())
                }
            },
        }
    }

    /// Plays the task to its next ask, which becomes an entry of the run, and does what follows: a message is linked and armed, and
    /// minded until it is taken or no chord with it is enabled; a firing's body begins; the memory of a task that is over serves for
    /// another. Where the limit on events is reached the task is laid down. So afterwards the desk keeps a newer entry than all that it kept, or the
    /// task went away with its call, or the desk was told of the limit. The gate knows of each body that the worker begins to play, and
    /// no step goes on with such a body: beside at most one firing it draws entries of the body on top alone. What is in stock stays there, and
    /// after a message something is there, unless a firing that serves no call was drawn last; with an ask that is neither a message nor an
    /// end nothing comes there. Want of memory is an `Err`: the task is gone, and each entry that was drawn stands in the lists, since there is
    /// room for it before it is drawn. Nothing is moved to the lists of those that it took in.
    pub fn step<R: Wait, G: Gate>(
        &mut self,
        rt: &R,
        alloc: Global,
        space: &Space<Parcel>,
        code: &Code,
        limits: &Limits,
        gate: &G,
    ) -> Result<(), AllocError>
        requires code { (space_code space.now ≡ code.now) × (space_limits space.now ≡ limits.now) }
        requires sound { IsSound (program_of space.now) }
        requires rest { IsAtRest space.now self.old }
        requires task { self.old.task ≢ None }
        requires room { (view self.old.desk).spent ≡ false }
        ensures rest { OnOk result (IsAtRest space.now self.new × IsSameRole (view self.old.desk) (view self.new.desk)) }
        ensures over { OnOk result ((view self.new.desk).spent ≡ true → self.new.task ≡ None) }
        ensures went { OnOk result ((t : TheTask) → self.old.task ≡ Some t → HasGoneOn (view self.old.desk).kept t self.new) }
        ensures plays { OnOk result ((t : TheTask) → self.old.task ≡ Some t → PlaysNext G.knows (view self.old.desk).kept t self.new) }
        ensures stock { OnOk result (HasStockAfter (program_of space.now) (view self.old.desk).draws self.old.spare self.new) }
        ensures drew { (t : TheTask) → self.old.task ≡ Some t → DrewAStep t (view self.old.desk).draws (view self.new.desk).draws }
        ensures short { OnErr result (IsOutOfMemory space.now self.new) }
        ensures lists { self.new.taken ≡ self.old.taken }
    {
        match self.task.take() {
            None => unreachable!(),
            Some(task) => {
                let mut task = task;
                let mut asked = None;
                (*task.value).come(alloc, code, limits, &mut asked)?;
                let played = self.play(rt, alloc, space, code, limits, gate, task, &mut asked);
                if played.is_err() {
                    drop_ask(&mut asked);
                }
                forget_ask(asked);
                played
            }
        }
    }
}
