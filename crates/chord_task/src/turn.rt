//! A turn of a task: its next ask becomes an entry.
#![tactic(auto)]

ghost use Rattle.std.specs.Prelude.{◌≡◌, ◌≢◌, ℕ, List, ◌<◌, ◌≤◌, ◌++◌, ◌∷◌, [], IfOk, OnOk, IsOk, IsSomeAnd, None, Some, true, length, vec_len, vec_capacity};
ghost use Rattle.chord_base.specs.declared.event.End.{End as AnEnd};
ghost use Rattle.chord_base.specs.Room.{HasGrown};
ghost use Rattle.chord_code.specs.Meaning.{code_program};
ghost use Rattle.chord_vm.specs.Frames.{what_of_ask};
ghost use Rattle.chord_task.specs.declared.body.Body.{Body as ABody};
ghost use Rattle.chord_task.specs.declared.task.Task.{Task as ATask};
ghost use Rattle.chord_task.specs.Standing.{view_of, IsTaskOf, is_ready_of, given_by, LastIsReady, HasReturned, HasRoomFor, HasMadeRoom, LosesNothing, SettlesFrames};
ghost use Rattle.chord_task.specs.Arguments.{MayBeList};
ghost use Rattle.chord_task.specs.Past.{AddsOne};
ghost use Rattle.chord_task.specs.Turning.{sent_to, sent_of, MayTurn, HasTurned, RunsOn, HasSettled, AwaitsNumber, text_of_end, text_of_ask, AreBare, IsBareEnd, OwnsNothing};

use crate::body::{Body, Next, put};
use crate::past::Past;
use crate::task::{Task, end_top};
use chord_base::event::{End, Entry, Limits, What};
use chord_base::text::Text;
use chord_base::value::{Object, Value, Values};
use chord_code::code::Code;
use chord_vm::ask::Ask;
use chord_vm::frames::answer;
use chord_vm::step::advance_to;
use std::alloc::{AllocError, Global};
use std::mem;

/// Adds an entry to a past and to a list in which there is room. It is written to the list at once, and read there for the past.
fn append(past: &mut Past, list: &mut Vec<Entry>, number: u32, body: u32, what: What)
    requires { vec_len list.old < vec_capacity list.old }
    ensures past { past.new ≡ past.old ++ record { number = number; body = body; what = what } ∷ [] }
    ensures items { list.new.items ≡ list.old.items ++ record { number = number; body = body; what = what } ∷ [] }
    ensures capacity { vec_capacity list.new ≡ vec_capacity list.old }
{
    list.push_reserved(Entry { number, body, what });
    past.add_last(list);
}

/// Adds the entry of an object. Entries are written by functions that take small things alone, since the place of a large one is cleared at each turn. What is
/// made or printed is added by functions of their own, what is sent or called in line, and an end in `end_turn`.
#[inline(never)]
fn append_made(past: &mut Past, list: &mut Vec<Entry>, number: u32, body: u32, class: u16)
    requires { vec_len list.old < vec_capacity list.old }
    ensures past { past.new ≡ past.old ++ record { number = number; body = body; what = What.Made class } ∷ [] }
    ensures items { list.new.items ≡ list.old.items ++ record { number = number; body = body; what = What.Made class } ∷ [] }
    ensures capacity { vec_capacity list.new ≡ vec_capacity list.old }
{
    append(past, list, number, body, What::Made(class));
}

/// Takes out the text that a body prints.
fn take_text(asked: &mut Option<Ask>) -> Text
    requires { (text : List ℕ) × (asked.old ≡ Some (Ask.Print text)) }
    ensures text { asked.old ≡ Some (Ask.Print result) }
    ensures none { asked.new ≡ None }
{
    match mem::replace(asked, None) {
        Some(Ask::Print(text)) => text,
        _ => unreachable!(),
    }
}

/// Adds the entry of a line.
#[inline(never)]
fn append_printed(past: &mut Past, list: &mut Vec<Entry>, number: u32, body: u32, text: Text)
    requires { vec_len list.old < vec_capacity list.old }
    ensures past { past.new ≡ past.old ++ record { number = number; body = body; what = What.Printed text } ∷ [] }
    ensures items { list.new.items ≡ list.old.items ++ record { number = number; body = body; what = What.Printed text } ∷ [] }
    ensures capacity { vec_capacity list.new ≡ vec_capacity list.old }
{
    append(past, list, number, body, What::Printed(text));
}

/// Adds the entry of an asynchronous message, whose arguments are taken. None and a lone number are written as they are read, in small pieces.
#[inline(always)]
fn append_sent(
    past: &mut Past,
    list: &mut Vec<Entry>,
    number: u32,
    body: u32,
    object: Object,
    method: u8,
    arguments: &mut Values,
)
    requires { vec_len list.old < vec_capacity list.old }
    ensures past { past.new ≡ past.old ++ record { number = number; body = body; what = What.Sent object method arguments.old } ∷ [] }
    ensures items { list.new.items ≡ list.old.items ++ record { number = number; body = body; what = What.Sent object method arguments.old } ∷ [] }
    ensures capacity { vec_capacity list.new ≡ vec_capacity list.old }
    ensures bare { AreBare arguments.new }
{
    match arguments.items() {
        [] => append(
            past,
            list,
            number,
            body,
            What::Sent(object, method, Values::none()),
        ),
        [Value::Int(lone)] => {
            let lone = Values::one(Value::Int(*lone));
            append(past, list, number, body, What::Sent(object, method, lone));
        }
        _ => {
            let taken = mem::replace(arguments, Values::none());
            append(past, list, number, body, What::Sent(object, method, taken));
        }
    }
}

/// Adds the entry of a call, whose arguments are taken as those of an asynchronous message are.
#[inline(always)]
fn append_called(
    past: &mut Past,
    list: &mut Vec<Entry>,
    number: u32,
    body: u32,
    object: Object,
    method: u8,
    arguments: &mut Values,
)
    requires { vec_len list.old < vec_capacity list.old }
    ensures past { past.new ≡ past.old ++ record { number = number; body = body; what = What.Called object method arguments.old } ∷ [] }
    ensures items { list.new.items ≡ list.old.items ++ record { number = number; body = body; what = What.Called object method arguments.old } ∷ [] }
    ensures capacity { vec_capacity list.new ≡ vec_capacity list.old }
    ensures bare { AreBare arguments.new }
{
    match arguments.items() {
        [] => append(
            past,
            list,
            number,
            body,
            What::Called(object, method, Values::none()),
        ),
        [Value::Int(lone)] => {
            let lone = Values::one(Value::Int(*lone));
            append(past, list, number, body, What::Called(object, method, lone));
        }
        _ => {
            let taken = mem::replace(arguments, Values::none());
            append(
                past,
                list,
                number,
                body,
                What::Called(object, method, taken),
            );
        }
    }
}

/// Adds the entry of an end by a number.
#[inline(always)]
fn append_number(past: &mut Past, list: &mut Vec<Entry>, number: u32, body: u32, lone: i32)
    requires { vec_len list.old < vec_capacity list.old }
    ensures past { past.new ≡ past.old ++ record { number = number; body = body; what = What.Ended (End.Gives (Value.Int lone)) } ∷ [] }
    ensures items { list.new.items ≡ list.old.items ++ record { number = number; body = body; what = What.Ended (End.Gives (Value.Int lone)) } ∷ [] }
    ensures capacity { vec_capacity list.new ≡ vec_capacity list.old }
{
    let end = End::Gives(Value::Int(lone));
    append(past, list, number, body, What::Ended(end));
}

/// Adds the entry of an end, which is taken.
#[inline(always)]
fn append_ended(past: &mut Past, list: &mut Vec<Entry>, number: u32, body: u32, end: &mut End)
    requires { vec_len list.old < vec_capacity list.old }
    ensures past { past.new ≡ past.old ++ record { number = number; body = body; what = What.Ended end.old } ∷ [] }
    ensures items { list.new.items ≡ list.old.items ++ record { number = number; body = body; what = What.Ended end.old } ∷ [] }
    ensures capacity { vec_capacity list.new ≡ vec_capacity list.old }
    ensures bare { IsBareEnd end.new }
{
    let taken = mem::replace(end, End::Gives(Value::Unit));
    append(past, list, number, body, What::Ended(taken));
}

/// Forgets a place for a text in which there is none, since a drop would look for memory.
#[inline(always)]
pub fn forget_text(place: Option<Text>)
    requires { place ≡ None }
{
    mem::forget(place);
}

/// Puts a text where there is none.
fn put_text(place: &mut Option<Text>, text: Text)
    requires { place.old ≡ None }
    ensures { place.new ≡ Some text }
{
    forget_text(mem::replace(place, Some(text)));
}

/// Copies the text that a body gives at its end, if this ask is such an end. It may fail for a text of more than 8 bytes alone: copies of other ends never fail,
/// so they wait until the number is drawn.
#[inline(always)]
fn copy_text(
    alloc: Global,
    asked: &Option<Ask>,
    second: &mut Option<Text>,
) -> Result<(), AllocError>
    requires { second.old ≡ None }
    ensures second { OnOk result (second.new ≡ text_of_ask asked.now) }
    ensures other { text_of_ask asked.now ≡ None → IsOk result }
    ensures short { (t : List ℕ) → text_of_ask asked.now ≡ Some t → length t ≤ 8 → IsOk result }
{
    match asked {
        Some(Ask::End(End::Gives(Value::Text(text)))) => put_text(second, text.copied(alloc)?),
        _ => {}
    }
    Ok(())
}

/// A copy of an end, for the body below. Of what an end gives only a text's copy may fail: that one was taken before, and is used up here.
#[inline(always)]
fn end_copy(end: &End, second: &mut Option<Text>) -> End
    requires { second.old ≡ text_of_end end.now }
    ensures end { result ≡ end.now }
    ensures none { second.new ≡ None }
{
    match end {
        End::Gives(Value::Int(lone)) => End::Gives(Value::Int(*lone)),
        End::Gives(Value::Unit) => End::Gives(Value::Unit),
        End::Gives(Value::Flag(flag)) => End::Gives(Value::Flag(*flag)),
        End::Gives(Value::Ref(object)) => End::Gives(Value::Ref(*object)),
        End::Gives(Value::Text(_)) => match mem::replace(second, None) {
            Some(text) => End::Gives(Value::Text(text)),
            None => unreachable!(),
        },
        End::Traps(trap) => End::Traps(*trap),
    }
}

/// Drops an ask that did not become an entry. It stands apart, since a drop looks at each kind.
#[inline(never)]
pub fn drop_ask(asked: &mut Option<Ask>)
    ensures { asked.new ≡ None }
{
    *asked = None;
}

/// Forgets what is left of an ask, since a drop would look for memory.
#[inline(always)]
pub fn forget_ask(asked: Option<Ask>)
    requires { OwnsNothing asked }
{
    mem::forget(asked);
}

/// The number of the body on top.
fn number_of(top: &Option<Body>) -> u32
    requires { RunsOn top.now }
    ensures { (b : ABody) → top.now ≡ Some b → result ≡ b.number }
{
    match top {
        None => unreachable!(),
        Some(body) => body.number,
    }
}

/// What the message is to that this says, if it says one.
fn sent_by(what: &What) -> Option<(Object, u8)>
    ensures { result ≡ sent_to what.now }
{
    match what {
        What::Sent(object, method, _) => Some((*object, *method)),
        What::Called(object, method, _) => Some((*object, *method)),
        _ => None,
    }
}

impl Task {
    /// The next ask of the body on top becomes the entry of this number. As `prepare`, `reserve` and `note`, but the ask is
    /// moved once. Gives what a message is to, where the entry is one. What is in stock stays, the frames of a body that ends are kept for another one, and
    /// where there is room for an entry or a caller no more is taken. Where no memory is found, the task can only be dropped.
    pub fn turn(
        &mut self,
        alloc: Global,
        code: &Code,
        limits: &Limits,
        number: u32,
        list: &mut Vec<Entry>,
    ) -> Result<Option<(Object, u8)>, AllocError>
        requires task { IsTaskOf code.now limits.now self.old }
        requires left { is_ready_of self.old ≡ true }
        requires may { MayTurn (code_program code.now limits.now) (view_of self.old) number }
        ensures turned { IfOk result (λ sent. HasTurned code.now limits.now self.old self.new number sent) }
        ensures listed { OnOk result (AddsOne self.old.past self.new.past list.old.items list.new.items) }
        ensures entries { OnOk result (HasGrown (vec_len list.old) (vec_capacity list.old) (vec_capacity list.new)) }
    {
        if self.runs() {
            return self.run_turn(alloc, code, limits, number, list);
        }
        self.kept_turn(alloc, code, limits, number, list)
    }

    /// Whether the frames of the body on top run.
    pub(crate) fn runs(&self) -> bool
        ensures { result ≡ true → RunsOn self.now.top }
    {
        match &self.top {
            None => false,
            Some(body) => match body.next {
                Next::Runs => true,
                _ => false,
            },
        }
    }

    /// What the message is to that the body on top gave, if it gave one.
    fn kept_message(&self) -> Option<(Object, u8)>
        ensures { result ≡ sent_of (given_by self.now.top) }
    {
        match &self.top {
            None => None,
            Some(body) => match &body.next {
                Next::Gave(what) => sent_by(what),
                Next::Ends(..) => None,
                Next::Runs => None,
                Next::Fails(_) => None,
                Next::Waits(_) => None,
            },
        }
    }

    /// A turn of a body that keeps its ask, or ends by a trap of the body that it called.
    #[inline(never)]
    fn kept_turn(
        &mut self,
        alloc: Global,
        code: &Code,
        limits: &Limits,
        number: u32,
        list: &mut Vec<Entry>,
    ) -> Result<Option<(Object, u8)>, AllocError>
        requires task { IsTaskOf code.now limits.now self.old }
        requires left { is_ready_of self.old ≡ true }
        requires may { MayTurn (code_program code.now limits.now) (view_of self.old) number }
        ensures turned { IfOk result (λ sent. HasTurned code.now limits.now self.old self.new number sent) }
        ensures listed { OnOk result (AddsOne self.old.past self.new.past list.old.items list.new.items) }
        ensures entries { OnOk result (HasGrown (vec_len list.old) (vec_capacity list.old) (vec_capacity list.new)) }
    {
        self.prepare(alloc, code, limits)?;
        self.reserve(alloc, code, list)?;
        let sent = self.kept_message();
        self.note(number, list);
        Ok(sent)
    }

    /// A turn of a body whose frames run.
    fn run_turn(
        &mut self,
        alloc: Global,
        code: &Code,
        limits: &Limits,
        number: u32,
        list: &mut Vec<Entry>,
    ) -> Result<Option<(Object, u8)>, AllocError>
        requires task { IsTaskOf code.now limits.now self.old }
        requires runs { RunsOn self.old.top }
        requires may { MayTurn (code_program code.now limits.now) (view_of self.old) number }
        ensures turned { IfOk result (λ sent. HasTurned code.now limits.now self.old self.new number sent) }
        ensures listed { OnOk result (AddsOne self.old.past self.new.past list.old.items list.new.items) }
        ensures entries { OnOk result (HasGrown (vec_len list.old) (vec_capacity list.old) (vec_capacity list.new)) }
    {
        match &mut self.top {
            None => unreachable!(),
            Some(body) => {
                let mut asked = None;
                advance_to(alloc, code, &mut *body.frames, &mut asked)?;
                let mut second = None;
                self.make_room(alloc, code, &asked, &mut second, list)?;
                let sent = self.settle(code, number, &mut asked, &mut second, list);
                forget_ask(asked);
                forget_text(second);
                Ok(sent)
            }
        }
    }

    /// Makes room for the entry of an ask that is with its caller, and for a firing after it, and takes a copy of the text that an end gives, for the body below.
    /// So whoever draws the entry's number after that can settle it, whatever memory there is then: copies of other ends never fail, so they wait until the
    /// number is drawn. Nothing else of the task changes, and nothing of the list.
    /// A list of values that is made has room for those of one entry.
    #[inline(always)]
    pub fn make_room(
        &mut self,
        alloc: Global,
        code: &Code,
        asked: &Option<Ask>,
        second: &mut Option<Text>,
        list: &mut Vec<Entry>,
    ) -> Result<(), AllocError>
        requires spare { HasRoomFor code.now self.old.limits self.old.spare }
        requires values { MayBeList self.old.values }
        requires none { second.old ≡ None }
        ensures room { OnOk result (HasMadeRoom code.now self.old self.new) }
        ensures place { OnOk result (vec_len list.new < vec_capacity list.new) }
        ensures second { OnOk result (second.new ≡ text_of_ask asked.now) }
        ensures listed { list.new.items ≡ list.old.items }
        ensures kept { LosesNothing code.now self.old self.new }
        ensures entries { vec_len list.old < vec_capacity list.old → list.new ≡ list.old }
        ensures grown { OnOk result (HasGrown (vec_len list.old) (vec_capacity list.old) (vec_capacity list.new)) }
        ensures lean { OnOk result (self.old.values ≡ None → IsSomeAnd self.new.values (λ list. vec_capacity list ≡ 64)) }
    {
        self.take_room(alloc, code, list)?;
        copy_text(alloc, asked, second)
    }

    /// The body on top ends: its end, which is taken, becomes the entry of this number, and its caller gets a copy. A number is looked for first, and goes its own way.
    #[inline(never)]
    fn end_turn(
        &mut self,
        number: u32,
        end: &mut End,
        second: &mut Option<Text>,
        list: &mut Vec<Entry>,
    )
        requires place { vec_len list.old < vec_capacity list.old }
        requires runs { RunsOn self.old.top }
        requires ready { LastIsReady self.old.below.items }
        requires second { second.old ≡ text_of_end end.old }
        ensures past { (b : ABody) → self.old.top ≡ Some b → self.new.past ≡ self.old.past ++ record { number = number; body = b.number; what = What.Ended end.old } ∷ [] }
        ensures items { (b : ABody) → self.old.top ≡ Some b → list.new.items ≡ list.old.items ++ record { number = number; body = b.number; what = What.Ended end.old } ∷ [] }
        ensures capacity { vec_capacity list.new ≡ vec_capacity list.old }
        ensures below { vec_capacity self.new.below ≡ vec_capacity self.old.below }
        ensures ended { HasReturned end.old self.old.below self.new.below self.new.top }
        ensures rest { self.new ≡ record { past = self.new.past; top = self.new.top; below = self.new.below; spare = self.old.spare; ended = self.new.ended; values = self.old.values; limits = self.old.limits; enclosed = self.old.enclosed } }
        ensures bare { IsBareEnd end.new }
        ensures none { second.new ≡ None }
        ensures frames { (b : ABody) → self.old.top ≡ Some b → self.new.ended ≡ Some b.frames }
    {
        let maker = number_of(&self.top);
        match end {
            End::Gives(Value::Int(lone)) => {
                let lone = *lone;
                append_number(&mut self.past, list, number, maker, lone);
                let given = End::Gives(Value::Int(lone));
                end_top(&mut self.top, &mut self.below, &mut self.ended, given);
            }
            _ => {
                let copy = end_copy(end, second);
                append_ended(&mut self.past, list, number, maker, end);
                end_top(&mut self.top, &mut self.below, &mut self.ended, copy);
            }
        }
    }

    /// The ask to which the body on top came becomes the entry of this number, once there is room for it: what owns memory is taken out of it, so that what is
    /// left may be forgotten. A new object is the body's answer, a message and a line need none, and after a call the body waits. An end answers the body
    /// below by a copy. Gives what a message is to, where the entry is one.
    #[inline(always)]
    pub fn settle(
        &mut self,
        code: &Code,
        number: u32,
        asked: &mut Option<Ask>,
        second: &mut Option<Text>,
        list: &mut Vec<Entry>,
    ) -> Option<(Object, u8)>
        requires some { asked.old ≢ None }
        requires awaits { (t : ATask) × AwaitsNumber code.now t self.old number asked.old }
        requires place { vec_len list.old < vec_capacity list.old }
        requires second { second.old ≡ text_of_ask asked.old }
        ensures settled { (t : ATask) → AwaitsNumber code.now t self.old number asked.old → (a : Ask) × (asked.old ≡ Some a) × HasSettled code.now t number (what_of_ask a) self.new × (result ≡ sent_to (what_of_ask a)) }
        ensures listed { AddsOne self.old.past self.new.past list.old.items list.new.items }
        ensures callers { vec_capacity self.new.below ≡ vec_capacity self.old.below }
        ensures capacity { vec_capacity list.new ≡ vec_capacity list.old }
        ensures bare { OwnsNothing asked.new }
        ensures none { second.new ≡ None }
        ensures over { (t : ATask) → HasMadeRoom code.now t self.old → (e : AnEnd) → asked.old ≡ Some (Ask.End e) → vec_len t.below ≡ 0 → self.new.top ≡ None }
        ensures frames { (t : ATask) → HasMadeRoom code.now t self.old → (a : Ask) → asked.old ≡ Some a → SettlesFrames code.now t (what_of_ask a) self.new }
    {
        match &mut self.top {
            None => unreachable!(),
            Some(body) => {
                let maker = body.number;
                let past = &mut self.past;
                match asked {
                    None => unreachable!(),
                    Some(ask) => match ask {
                        Ask::Make(class) => {
                            let class = *class;
                            answer(&mut *body.frames, Value::Ref(Object { number, class }));
                            append_made(past, list, number, maker, class);
                            None
                        }
                        // what was sent or printed is not answered: the body runs on
                        Ask::Send(object, method, arguments) => {
                            append_sent(past, list, number, maker, *object, *method, arguments);
                            Some((*object, *method))
                        }
                        Ask::Call(object, method, arguments) => {
                            put(&mut body.next, Next::Waits(number));
                            append_called(past, list, number, maker, *object, *method, arguments);
                            Some((*object, *method))
                        }
                        Ask::Print(_) => {
                            append_printed(past, list, number, maker, take_text(asked));
                            None
                        }
                        Ask::End(end) => {
                            self.end_turn(number, end, second, list);
                            None
                        }
                    },
                }
            }
        }
    }
}
