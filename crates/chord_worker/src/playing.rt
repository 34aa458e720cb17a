//! A task comes to its next ask, which becomes an entry of the run.
ghost use Rattle.std.specs.Prelude.{◌≡◌, ◌≢◌, ◌<◌, false, Some, None, IfOk, OnOk, OnErr, IsOk, MatchResult, IfSome, IfNone, vec_len, vec_capacity};
ghost use Rattle.chord_base.specs.declared.event.End.{End as AnEnd};
ghost use Rattle.chord_base.specs.Room.{HasGrown};
ghost use Rattle.chord_base.specs.Story.{IsSound};
ghost use Rattle.chord_space.specs.Desks.{view, space_code, space_limits, program_of, IsDeskOf, IsSameDesk, MayDraw};
ghost use Rattle.chord_task.specs.declared.task.Task.{Task as ATask};
ghost use Rattle.chord_task.specs.Standing.{view_of, SettlesFrames};
ghost use Rattle.chord_task.specs.Turning.{RunsOn, HasCome, OwnsNothing};
ghost use Rattle.chord_vm.specs.Frames.{what_of_ask};
ghost use Rattle.chord_worker.specs.Playing.{DrawsOne, IsDrawnAs, IsNotedFrom, HeardOfLimit};
ghost use Rattle.chord_worker.specs.Resting.{IsInMemory, IsStock, IsStockTask};

use chord_base::event::{Entry, Limits};
use chord_code::code::Code;
use chord_space::{AsEntry, Desk, Space, Spent};
use chord_task::apart::Apart;
use chord_task::parcel::Parcel;
use chord_task::task::Task;
use chord_task::turn::{drop_ask, forget_text};
use chord_vm::ask::Ask;
use std::alloc::{AllocError, Global};

/// An ask, as what is drawn.
#[derive(Clone, Copy, Drop)]
struct Asking<'a> {
    ask: &'a Ask,
}

impl<'a> AsEntry for Asking<'a> {
    ghost what = { λ asking. what_of_ask asking.ask.now };
}

/// A new task for the stock.
#[inline(never)]
fn new_stock(alloc: Global, code: &Code, limits: &Limits) -> Result<Apart<Task>, AllocError>
    ensures { IfOk result (λ t. IsStockTask code.now limits.now t) }
{
    let task = Task::spare(alloc, code, limits)?;
    let task = Apart::new(alloc, task)?;
    Ok(task)
}

/// Sees to a task in stock.
#[inline(always)]
pub(crate) fn see_to_stock(
    alloc: Global,
    code: &Code,
    limits: &Limits,
    stock: &mut Option<Apart<Task>>,
) -> Result<(), AllocError>
    requires { IsStock code.now limits.now stock.old }
    ensures stock { OnOk result (IsStock code.now limits.now stock.new) }
    ensures some { OnOk result (stock.new ≢ None) }
    ensures stays { stock.old ≢ None → (stock.new ≡ stock.old) × IsOk result }
{
    if stock.is_some() {
        return Ok(());
    }
    *stock = Some(new_stock(alloc, code, limits)?);
    Ok(())
}

/// The number of the body on top, whose ask is with the worker.
fn top_number(task: &Task) -> u32
    requires { RunsOn task.now.top }
    ensures { (view_of task.now).top ≡ Some result }
{
    match &task.top {
        None => unreachable!(),
        Some(body) => body.number,
    }
}

/// Draws the ask as an entry of this body.
#[inline(always)]
fn draw_ask(
    space: &Space<Parcel>,
    desk: &mut Desk<Parcel>,
    body: u32,
    asked: &Option<Ask>,
) -> Result<u32, Spent>
    requires desk { IsDeskOf space.now desk.old }
    requires room { (view desk.old).spent ≡ false }
    requires some { asked.now ≢ None }
    requires next { (a : Ask) → asked.now ≡ Some a → MayDraw space.now desk.old body (what_of_ask a) }
    ensures desk { IsSameDesk desk.old desk.new }
    ensures drawn { (a : Ask) → asked.now ≡ Some a → MatchResult result (λ n. IsDrawnAs space.now (view desk.old) (view desk.new) n body (what_of_ask a)) (λ _. HeardOfLimit (view desk.old) (view desk.new)) }
{
    match asked {
        None => unreachable!(),
        Some(ask) => space.draw(desk, body, &Asking { ask }),
    }
}

/// The ask of the task becomes an entry of the desk and of the task, and of the list of what the worker drew. Its number, or nothing
/// where the limit on events is reached. There is room for the entry before it is drawn: where memory is missing nothing was drawn.
/// It stands in line, since each ask of a worker enters it: called, it costs some forty instructions an ask more.
#[inline(always)]
pub(crate) fn draw_own(
    alloc: Global,
    space: &Space<Parcel>,
    code: &Code,
    desk: &mut Desk<Parcel>,
    task: &mut Apart<Task>,
    asked: &mut Option<Ask>,
    draws: &mut Vec<Entry>,
) -> Result<Option<u32>, AllocError>
    requires desk { IsDeskOf space.now desk.old }
    requires room { (view desk.old).spent ≡ false }
    requires code { code.now ≡ space_code space.now }
    requires some { asked.old ≢ None }
    requires came { (a : Ask) → asked.old ≡ Some a → (t : ATask) × HasCome (space_code space.now) (space_limits space.now) t task.old (what_of_ask a) × IsInMemory (space_code space.now) (space_limits space.now) (view desk.old).kept false (Some t) }
    requires sound { IsSound (program_of space.now) }
    ensures desk { IsSameDesk desk.old desk.new }
    ensures noted { IfOk result (λ x. IfSome x (λ n. IsNotedFrom space.now (view desk.old) (view desk.new) asked.old task.old task.new n)) }
    ensures within { IfOk result (λ x. IfSome x (λ n. n < space.now.events)) }
    ensures listed { IfOk result (λ x. IfSome x (λ _. DrawsOne (view desk.old).draws (view desk.new).draws draws.old.items draws.new.items)) }
    ensures over { IfOk result (λ x. IfSome x (λ _. (e : AnEnd) → asked.old ≡ Some (Ask.End e) → vec_len task.old.below ≡ 0 → task.new.top ≡ None)) }
    ensures frames { IfOk result (λ x. IfSome x (λ _. (a : Ask) → asked.old ≡ Some a → SettlesFrames code.now task.old (what_of_ask a) task.new)) }
    ensures told { IfOk result (λ x. IfNone x (HeardOfLimit (view desk.old) (view desk.new))) }
    ensures same { IfOk result (λ x. IfNone x (draws.new.items ≡ draws.old.items)) }
    ensures bare { OnOk result (OwnsNothing asked.new) }
    ensures undrawn { OnErr result ((view desk.new ≡ view desk.old) × (draws.new.items ≡ draws.old.items)) }
    ensures grown { OnOk result (HasGrown (vec_len draws.old) (vec_capacity draws.old) (vec_capacity draws.new)) }
{
    let body = top_number(&task.value);
    let mut second = None;
    task.value
        .make_room(alloc, code, asked, &mut second, draws)?;
    match draw_ask(space, desk, body, asked) {
        Ok(number) => {
            task.value.settle(code, number, asked, &mut second, draws);
            forget_text(second);
            Ok(Some(number))
        }
        Err(_) => {
            drop_ask(asked);
            Ok(None)
        }
    }
}
