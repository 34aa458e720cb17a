//! A body that has sent its last message ends before the message is minded.
ghost use Rattle.std.specs.Prelude.{◌≡◌, ◌≢◌, ℕ, ◌<◌, true, None, Some, OnOk, OnErr, vec_len};
ghost use Rattle.chord_base.specs.Story.{IsSound};
ghost use Rattle.chord_base.specs.declared.event.End.TheVariants.{Gives};
ghost use Rattle.chord_base.specs.declared.event.What.TheVariants.{Ended};
ghost use Rattle.chord_base.specs.declared.value.Value.TheVariants as a_value;
ghost use Rattle.chord_rule.specs.Made.{key};
ghost use Rattle.chord_space.specs.Desks.{view, heads, space_code, space_limits, program_of, IsDeskOf};
ghost use Rattle.chord_task.specs.Standing.{view_of};
ghost use Rattle.chord_task.specs.Turning.{HasCome, OwnsNothing};
ghost use Rattle.chord_worker.specs.Sending.{Minds, WasMindedLast};
ghost use Rattle.chord_worker.specs.Resting.{IsAtRest, IsSameRole, IsOutOfMemory};
ghost use Rattle.chord_worker.specs.Stepping.{DrewEnd, StillStocked};

use crate::minding::Minded;
use crate::playing::draw_own;
use crate::worker::{Gate, Worker};
use chord_base::event::{End, Limits};
use chord_base::value::Value;
use chord_code::code::Code;
use chord_space::Space;
use chord_task::apart::Apart;
use chord_task::parcel::Parcel;
use chord_task::task::Task;
use chord_task::turn::forget_ask;
use chord_vm::ask::Ask;
use std::alloc::{AllocError, Global};
use std::mem;
use std::sync::Wait;

impl Worker {
    /// The last body of the task has sent a message, and comes to its end: it ends, and then the message is minded.
    ///
    /// So the worker has no task when it fires, and plays the firing's body itself. In a chain of bodies, each of which sends what
    /// the next one takes, no other worker has to find each of them, whose processor has read none of it. The end comes in the place
    /// of the ask that became the message. There is a task in stock then: the one that ended, unless the old one is there still.
    pub(crate) fn end_and_mind<R: Wait, G: Gate>(
        &mut self,
        rt: &R,
        alloc: Global,
        space: &Space<Parcel>,
        code: &Code,
        limits: &Limits,
        gate: &G,
        task: Apart<Task>,
        asked: &mut Option<Ask>,
        message: Minded,
    ) -> Result<(), AllocError>
        requires code { code.now ≡ space_code space.now }
        requires limits { limits.now ≡ space_limits space.now }
        requires sound { IsSound (program_of space.now) }
        requires bounds { (message.number < space.now.events) × (message.object.number < space.now.events) × (message.object.class < 1024) × (message.method < heads space.now) }
        requires none { self.old.task ≡ None }
        requires bare { OwnsNothing asked.old }
        requires alone { vec_len task.below ≡ 0 }
        requires came { HasCome (space_code space.now) (space_limits space.now) task task (Ended (Gives a_value.Unit)) }
        requires minds { Minds space.now (record self.old { task = Some task }) message.number (key message.object message.method) }
        ensures desk { IsDeskOf space.now self.new.desk }
        ensures over { OnOk result (IsAtRest space.now self.new × (self.new.spent ≡ true → self.new.task ≡ None)) }
        ensures role { OnOk result (IsSameRole (view self.old.desk) (view self.new.desk)) }
        ensures minded { OnOk result (WasMindedLast G.knows (view self.old.desk).kept self.new message.number) }
        ensures stocked { OnOk result (self.new.spare ≢ None) }
        ensures stock { OnOk result (StillStocked (program_of space.now) (view self.old.desk).draws self.old.spare self.new) }
        ensures bare { OnOk result (OwnsNothing asked.new) }
        ensures drew { (b : ℕ) → (view_of task).top ≡ Some b → DrewEnd b (view self.old.desk).draws (view self.new.desk).draws }
        ensures short { OnErr result (IsOutOfMemory space.now self.new) }
        ensures lists { self.new.taken ≡ self.old.taken }
    {
        let mut task = task;
        let end = Ask::End(End::Gives(Value::Unit));
        forget_ask(mem::replace(asked, Some(end)));
        match draw_own(
            alloc,
            space,
            code,
            &mut self.desk,
            &mut task,
            asked,
            &mut self.draws,
        )? {
            Some(_) => {
                self.mind(rt, space, code, limits, gate, message)?;
                self.retire(task);
                Ok(())
            }
            None => {
                self.lay_down(task);
                Ok(())
            }
        }
    }
}
