//! A task comes to its next ask, which is with its caller until it becomes an entry.
#![tactic(auto)]

ghost use Rattle.std.specs.Prelude.{◌≡◌, ◌≢◌, true, OnOk, Some, None, vec_len};
ghost use Rattle.chord_base.specs.declared.event.End.TheVariants.{Gives};
ghost use Rattle.chord_base.specs.declared.event.What.TheVariants.{Ended};
ghost use Rattle.chord_base.specs.declared.value.Value.TheVariants as a_value;
ghost use Rattle.chord_vm.specs.Frames.{what_of_ask};
ghost use Rattle.chord_task.specs.Standing.{IsTaskOf, KeepsStock, GivenBy, is_ready_of};
ghost use Rattle.chord_task.specs.Turning.{RunsOn, IsKept, HasCome};

use crate::body::Next;
use crate::task::Task;
use chord_base::event::{Limits, What};
use chord_code::code::Code;
use chord_vm::ask::Ask;
use chord_vm::step::{advance_to, ends_next};
use std::alloc::{AllocError, Global};
use std::mem;

/// Takes out the ask that a body keeps. The body then runs, as one whose ask is with its caller does.
fn take_kept(next: &mut Next, asked: &mut Option<Ask>)
    requires { IsKept next.old }
    ensures runs { next.new ≡ Next.Runs }
    ensures asked { (a : Ask) → asked.new ≡ Some a → GivenBy (what_of_ask a) next.old }
    ensures some { asked.new ≢ None }
{
    match mem::replace(next, Next::Runs) {
        Next::Gave(What::Made(class)) => *asked = Some(Ask::Make(class)),
        Next::Gave(What::Sent(object, method, arguments)) => {
            *asked = Some(Ask::Send(object, method, arguments));
        }
        Next::Gave(What::Called(object, method, arguments)) => {
            *asked = Some(Ask::Call(object, method, arguments));
        }
        Next::Gave(What::Printed(text)) => *asked = Some(Ask::Print(text)),
        Next::Ends(first, _) => *asked = Some(Ask::End(first)),
        _ => unreachable!(),
    }
}

impl Task {
    /// The body on top comes to its next ask, which is put where the caller wants it. The caller then draws its entry, and hands
    /// it to `settle`. Where no memory is found, the task can only be dropped.
    #[inline(always)]
    pub fn come(
        &mut self,
        alloc: Global,
        code: &Code,
        limits: &Limits,
        asked: &mut Option<Ask>,
    ) -> Result<(), AllocError>
        requires task { IsTaskOf code.now limits.now self.old }
        requires left { is_ready_of self.old ≡ true }
        ensures some { OnOk result (asked.new ≢ None) }
        ensures came { OnOk result ((a : Ask) → asked.new ≡ Some a → HasCome code.now limits.now self.old self.new (what_of_ask a)) }
        ensures stock { KeepsStock self.old self.new }
    {
        if self.runs() {
            return self.run_to_ask(alloc, code, limits, asked);
        }
        self.come_kept(alloc, code, limits, asked)
    }

    /// The frames of the body on top run on to its next ask.
    #[inline(always)]
    fn run_to_ask(
        &mut self,
        alloc: Global,
        code: &Code,
        limits: &Limits,
        asked: &mut Option<Ask>,
    ) -> Result<(), AllocError>
        requires task { IsTaskOf code.now limits.now self.old }
        requires runs { RunsOn self.old.top }
        ensures some { OnOk result (asked.new ≢ None) }
        ensures came { OnOk result ((a : Ask) → asked.new ≡ Some a → HasCome code.now limits.now self.old self.new (what_of_ask a)) }
        ensures stock { KeepsStock self.old self.new }
    {
        let _limits = limits;
        match &mut self.top {
            None => unreachable!(),
            Some(body) => advance_to(alloc, code, &mut *body.frames, asked),
        }
    }

    /// As `come`, where the body on top keeps its ask, or ends by a trap of the body that it called.
    #[inline(never)]
    fn come_kept(
        &mut self,
        alloc: Global,
        code: &Code,
        limits: &Limits,
        asked: &mut Option<Ask>,
    ) -> Result<(), AllocError>
        requires task { IsTaskOf code.now limits.now self.old }
        requires left { is_ready_of self.old ≡ true }
        ensures some { OnOk result (asked.new ≢ None) }
        ensures came { OnOk result ((a : Ask) → asked.new ≡ Some a → HasCome code.now limits.now self.old self.new (what_of_ask a)) }
        ensures stock { KeepsStock self.old self.new }
    {
        self.prepare(alloc, code, limits)?;
        match &mut self.top {
            None => unreachable!(),
            Some(body) => take_kept(&mut body.next, asked),
        }
        Ok(())
    }

    /// Whether the body on top is the only one, and the next that it does is to end without a value. If so, nothing is left to run: the task is
    /// as `come` would leave it, with this end as its ask, and the caller may draw the end's entry at once.
    pub fn comes_to_end(&self, code: &Code, limits: &Limits) -> bool
        requires task { IsTaskOf code.now limits.now self.now }
        ensures alone { result ≡ true → vec_len self.now.below ≡ 0 }
        ensures came { result ≡ true → HasCome code.now limits.now self.now self.now (Ended (Gives a_value.Unit)) }
    {
        let _limits = limits;
        if !self.runs() {
            return false;
        }
        if !self.below.is_empty() {
            return false;
        }
        match &self.top {
            None => false,
            Some(body) => ends_next(code, &*body.frames),
        }
    }
}
