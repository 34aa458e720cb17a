//! The body of a firing begins with the arguments that its parcels brought.
#![tactic(auto)]

ghost use Rattle.std.specs.Prelude.{◌≡◌, ◌<◌, ◌≤◌, Some, None, length, vec_len, vec_capacity};
ghost use Rattle.chord_vm.specs.Frames.{laid};
ghost use Rattle.chord_task.specs.Arguments.{for_entry, AreTwice};
ghost use Rattle.chord_task.specs.Gathering.{gathered_in};
ghost use Rattle.chord_task.specs.Past.{AddsOne};
ghost use Rattle.chord_task.specs.Stacks.{task_begun};
ghost use Rattle.chord_task.specs.Standing.{view_of, IsTaskOf, MayResume};

use crate::args::Args;
use crate::enclosed::{Contents, Enclosed};
use crate::gathered::{Gathered, all_args};
use crate::past::append;
use crate::task::{Task, depth_over, line_of, put_on_top};
use chord_base::event::{Entry, What};
use chord_base::members::Members;
use chord_base::value::{Object, Value, Values};
use chord_code::code::Code;
use chord_vm::frames::begin_moved;

impl Task {
    /// Puts the body of a firing on top, with the values for its entry and those for its slots. Takes no memory.
    #[inline(always)]
    fn resume_on(
        &mut self,
        code: &Code,
        number: u32,
        chord: u16,
        object: Object,
        members: &Members,
        arguments: Args,
        list: &mut Vec<Entry>,
    )
        requires place { vec_len list.old < vec_capacity list.old }
        requires task { IsTaskOf code.now self.old.limits self.old }
        requires may { MayResume code.now self.old.limits self.old number chord object members.now arguments.first }
        requires twice { arguments.second ≡ arguments.first }
        ensures task { IsTaskOf code.now self.old.limits self.new }
        ensures past { task_begun (view_of self.old) number chord object members.now arguments.first (view_of self.new) }
        ensures top { (view_of self.new).top ≡ Some number }
        ensures listed { AddsOne self.old.past self.new.past list.old.items list.new.items }
        ensures ended { self.new.ended ≡ self.old.ended }
        ensures values { self.new.values ≡ self.old.values }
        ensures callers { vec_capacity self.new.below ≡ vec_capacity self.old.below }
    {
        let depth = depth_over(self.limits.depth, &self.top);
        match self.spare.take() {
            None => unreachable!(),
            Some(frames) => {
                let Args { first, second } = arguments;
                let mut frames = frames;
                let block = line_of(code, object.class, chord).block;
                let this = Value::Ref(object);
                begin_moved(code, &mut *frames, block, this, second, depth);
                append(
                    &mut self.past,
                    list,
                    Entry {
                        number,
                        body: number,
                        what: What::Fired(chord, object, members.copied(), first),
                    },
                );
                put_on_top(&mut self.top, &mut self.below, number, frames);
            }
        }
    }

    /// As `resume_one`, whatever the arguments are.
    #[inline(never)]
    fn resume_any(
        &mut self,
        code: &Code,
        number: u32,
        chord: u16,
        object: Object,
        members: &Members,
        arguments: Enclosed,
        list: &mut Vec<Entry>,
    )
        requires place { vec_len list.old < vec_capacity list.old }
        requires task { IsTaskOf code.now self.old.limits self.old }
        requires may { MayResume code.now self.old.limits self.old number chord object members.now arguments.first }
        requires twice { arguments.second ≡ arguments.first }
        ensures task { IsTaskOf code.now self.old.limits self.new }
        ensures past { task_begun (view_of self.old) number chord object members.now arguments.first (view_of self.new) }
        ensures top { (view_of self.new).top ≡ Some number }
        ensures listed { AddsOne self.old.past self.new.past list.old.items list.new.items }
        ensures ended { self.new.ended ≡ self.old.ended }
        ensures values { self.new.values ≡ self.old.values }
        ensures callers { vec_capacity self.new.below ≡ vec_capacity self.old.below }
    {
        let arguments = arguments.into_args();
        self.resume_on(code, number, chord, object, members, arguments, list);
    }

    /// Puts the body of a firing on top, of whose messages one alone has values, or none. Takes no memory. A number alone is written
    /// where it comes to stand.
    #[inline(always)]
    pub fn resume_one(
        &mut self,
        code: &Code,
        number: u32,
        chord: u16,
        object: Object,
        members: &Members,
        arguments: Enclosed,
        list: &mut Vec<Entry>,
    )
        requires place { vec_len list.old < vec_capacity list.old }
        requires task { IsTaskOf code.now self.old.limits self.old }
        requires may { MayResume code.now self.old.limits self.old number chord object members.now arguments.first }
        requires twice { arguments.second ≡ arguments.first }
        ensures task { IsTaskOf code.now self.old.limits self.new }
        ensures past { task_begun (view_of self.old) number chord object members.now arguments.first (view_of self.new) }
        ensures top { (view_of self.new).top ≡ Some number }
        ensures listed { AddsOne self.old.past self.new.past list.old.items list.new.items }
        ensures ended { self.new.ended ≡ self.old.ended }
        ensures values { self.new.values ≡ self.old.values }
        ensures callers { vec_capacity self.new.below ≡ vec_capacity self.old.below }
    {
        match arguments.contents {
            Contents::Nothing => {
                let none = Args {
                    first: Values::none(),
                    second: Values::none(),
                };
                self.resume_on(code, number, chord, object, members, none, list);
            }
            Contents::Number(lone) => {
                let value = lone.number();
                let one = Args {
                    first: Values::one(Value::Int(value)),
                    second: Values::one(Value::Int(value)),
                };
                self.resume_on(code, number, chord, object, members, one, list);
            }
            contents => {
                let arguments = Enclosed { contents };
                self.resume_any(code, number, chord, object, members, arguments, list);
            }
        }
    }

    /// As `resume`, with what was gathered from the firing's parcels.
    pub fn resume_gathered(
        &mut self,
        code: &Code,
        number: u32,
        chord: u16,
        object: Object,
        members: &Members,
        arguments: Gathered,
        list: &mut Vec<Entry>,
    )
        requires place { vec_len list.old < vec_capacity list.old }
        requires task { IsTaskOf code.now self.old.limits self.old }
        requires may { MayResume code.now self.old.limits self.old number chord object members.now (laid (for_entry (gathered_in arguments.one arguments.more))) }
        requires few { length (laid (for_entry (gathered_in arguments.one arguments.more))) ≤ 64 }
        requires twice { AreTwice (gathered_in arguments.one arguments.more) }
        ensures task { IsTaskOf code.now self.old.limits self.new }
        ensures past { task_begun (view_of self.old) number chord object members.now (laid (for_entry (gathered_in arguments.one arguments.more))) (view_of self.new) }
        ensures top { (view_of self.new).top ≡ Some number }
        ensures listed { AddsOne self.old.past self.new.past list.old.items list.new.items }
        ensures ended { self.new.ended ≡ self.old.ended }
        ensures callers { vec_capacity self.new.below ≡ vec_capacity self.old.below }
    {
        let Gathered { one, more } = arguments;
        match more {
            None => self.resume_any(code, number, chord, object, members, one, list),
            Some(several) => {
                self.resume(
                    code,
                    number,
                    chord,
                    object,
                    members,
                    all_args(several),
                    list,
                )
            }
        }
    }
}
