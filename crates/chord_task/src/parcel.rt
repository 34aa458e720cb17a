//! Parcels: a message's arguments, and the task that waits for it, in two words.
#![tactic(auto)]

ghost use Rattle.std.specs.Prelude.{◌≡◌, ◌≢◌, [], Some, None};
ghost use Rattle.chord_task.specs.Freight.{without_arguments};
ghost use Rattle.chord_task.specs.Standing.{view_of, IsTaskOf};
ghost use Rattle.chord_task.specs.Parcels.{entries_of, arguments_of, IsParcelOf};

use crate::apart::Apart;
use crate::args::Args;
use crate::enclosed::{Contents, Enclosed};
use crate::lone::{LoneNumber, LoneObject};
use crate::task::Task;
use chord_base::event::Limits;
use chord_code::carry::Carry;
use chord_code::code::Code;
use std::marker::Model;
use std::mem;

/// What the shared table carries for a message, in two words, so that a slot of the table is small. Contracts see it opened.
#[derive(Drop)]
pub struct Parcel {
    pub(crate) freight: Freight,
}

/// What a parcel has in its place.
#[derive(Drop)]
pub(crate) enum Freight {
    /// A message without arguments.
    Nothing,
    /// A message whose only argument is this number.
    Number(LoneNumber),
    /// A message whose only argument is this object.
    Object(LoneObject),
    /// A message with these arguments.
    Apart(Apart<Args>),
    /// A call: the task that waits for it encloses its arguments.
    Task(Apart<Task>),
}

/// What a parcel brings.
#[derive(Drop)]
pub struct Opened {
    /// The message's arguments.
    pub arguments: Enclosed,
    /// The task whose body on top waits for the message, if it is a call. It encloses no arguments.
    pub task: Option<Apart<Task>>,
}

impl Model for Parcel {
    ghost use Rattle.chord_task.specs.declared.parcel.Opened as brought;

    ghost Value = { brought.Opened };

    ghost use Rattle.chord_task.specs.Freight.{opened};

    ghost view = { λ p. opened p.freight };
}

/// The arguments of a call come out of the task that waits for it.
#[inline(always)]
fn open_call(task: Apart<Task>) -> Opened
    ensures arguments { result.arguments ≡ task.enclosed }
    ensures task { result.task ≡ Some (without_arguments task) }
{
    let mut task = task;
    let arguments = mem::replace(&mut task.value.enclosed, Enclosed::nothing());
    Opened {
        arguments,
        task: Some(task),
    }
}

impl Parcel {
    /// What it brings.
    #[inline(always)]
    pub fn open(self) -> Opened
        ensures { result ≡ self }
    {
        let contents = match self.freight {
            Freight::Nothing => Contents::Nothing,
            Freight::Number(number) => Contents::Number(number),
            Freight::Object(object) => Contents::Object(object),
            Freight::Apart(args) => Contents::Apart(args),
            Freight::Task(task) => return open_call(task),
        };
        Opened {
            arguments: Enclosed { contents },
            task: None,
        }
    }
}

impl Carry for Parcel {
    ghost entries = { entries_of };

    ghost arguments = { arguments_of };

    ghost keeps_to = { IsParcelOf };
}

/// A parcel with a task that has a body left, and encloses the arguments on its way.
pub fn packed(code: &Code, limits: &Limits, arguments: Enclosed, task: Apart<Task>) -> Parcel
    requires task { IsTaskOf code.now limits.now task }
    requires left { (view_of task).top ≢ None }
    requires twice { arguments.second ≡ arguments.first }
    ensures keeps { IsParcelOf result code.now limits.now }
    ensures entries { entries_of result ≡ (view_of task).past }
    ensures arguments { arguments_of result ≡ arguments.first }
{
    let _parts = code.parts();
    let _events = limits.events;
    let mut task = task;
    task.value.enclosed = arguments;
    Parcel {
        freight: Freight::Task(task),
    }
}

/// A parcel without a task.
pub fn letter(code: &Code, limits: &Limits, arguments: Enclosed) -> Parcel
    requires { arguments.second ≡ arguments.first }
    ensures keeps { IsParcelOf result code.now limits.now }
    ensures entries { entries_of result ≡ [] }
    ensures arguments { arguments_of result ≡ arguments.first }
{
    let _parts = code.parts();
    let _events = limits.events;
    let freight = match arguments.contents {
        Contents::Nothing => Freight::Nothing,
        Contents::Number(number) => Freight::Number(number),
        Contents::Object(object) => Freight::Object(object),
        Contents::Apart(args) => Freight::Apart(args),
    };
    Parcel { freight }
}

/// Whoever carries a parcel gives it back as it was.
pub fn carried<P: Carry>(code: &Code, limits: &Limits, parcel: P) -> P
    requires { P.keeps_to parcel code.now limits.now }
    ensures keeps { P.keeps_to result code.now limits.now }
    ensures entries { P.entries result ≡ P.entries parcel }
    ensures arguments { P.arguments result ≡ P.arguments parcel }
{
    let _parts = code.parts();
    let _events = limits.events;
    parcel
}
