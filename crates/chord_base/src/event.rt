//! What happens in a run: the entries of its journal.
#![tactic(auto)]

ghost use Rattle.std.specs.Prelude.{◌≡◌, IfOk, IsOk};
ghost use Rattle.chord_base.specs.Copies.{IsAlwaysCopied};

use crate::members::Members;
use crate::text::Text;
use crate::value::{Object, Value, Values};
use std::alloc::{AllocError, Global};

/// What ends a body before its end.
#[derive(Clone, Copy)]
pub enum Trap {
    /// `/` or `%` had the right side 0.
    DivideByZero,
    /// A `while` condition came out true when the body had used its turns.
    OutOfTurns,
    /// `new` or a synchronous call was reached at the depth limit.
    TooDeep,
    /// A joined text would have had more than 1,024 bytes.
    TextTooLong,
}

/// How a body ends.
#[derive(Drop)]
pub enum End {
    /// By a value, the unit value where it has no result.
    Gives(Value),
    /// By a trap.
    Traps(Trap),
}

/// What an entry says.
#[derive(Drop)]
pub enum What {
    /// `Main` begins.
    Begun,
    /// An object of this class is made. Its number is the entry's.
    Made(u16),
    /// An asynchronous call of this method of the object, with its arguments.
    Sent(Object, u8, Values),
    /// A synchronous call, likewise. Its body waits.
    Called(Object, u8, Values),
    /// A line is printed.
    Printed(Text),
    /// A chord of the object takes these messages, one for each method in header order, and begins a body
    /// with their arguments concatenated.
    Fired(u16, Object, Members, Values),
    /// The body has ended.
    Ended(End),
}

/// One entry of a journal.
#[derive(Drop)]
pub struct Entry {
    /// Its place in the journal, from 0.
    pub number: u32,
    /// The body that made it: the number of the `Begun` or `Fired` entry that began the body.
    pub body: u32,
    /// What happened.
    pub what: What,
}

/// The limits of a run.
#[derive(Clone, Copy)]
pub struct Limits {
    /// The most entries of the journal.
    pub events: u32,
    /// How many `while` conditions of one body may come out true.
    pub turns: u32,
    /// The depth at which `new` and synchronous calls trap.
    pub depth: u32,
}

impl End {
    /// An equal end. It is always made where it is a trap, or where a copy of its value is.
    pub fn copied(&self, alloc: Global) -> Result<End, AllocError>
        ensures equal { IfOk result (λ e. e ≡ self.now) }
        ensures short { (v : Value) → self.now ≡ End.Gives v → IsAlwaysCopied v → IsOk result }
        ensures trap { (t : Trap) → self.now ≡ End.Traps t → IsOk result }
    {
        match self {
            End::Gives(value) => Ok(End::Gives(value.copied(alloc)?)),
            End::Traps(trap) => Ok(End::Traps(*trap)),
        }
    }
}

impl What {
    /// An equal one.
    pub fn copied(&self, alloc: Global) -> Result<What, AllocError>
        ensures { IfOk result (λ what. what ≡ self.now) }
    {
        match self {
            What::Begun => Ok(What::Begun),
            What::Made(class) => Ok(What::Made(*class)),
            What::Sent(object, method, values) => Ok(What::Sent(
                *object,
                *method,
                values.copied(alloc)?,
            )),
            What::Called(object, method, values) => Ok(What::Called(
                *object,
                *method,
                values.copied(alloc)?,
            )),
            What::Printed(text) => Ok(What::Printed(text.copied(alloc)?)),
            What::Fired(chord, object, members, values) => Ok(What::Fired(
                *chord,
                *object,
                members.copied(),
                values.copied(alloc)?,
            )),
            What::Ended(end) => Ok(What::Ended(end.copied(alloc)?)),
        }
    }
}

impl Entry {
    /// An equal entry.
    pub fn copied(&self, alloc: Global) -> Result<Entry, AllocError>
        ensures { IfOk result (λ entry. entry ≡ self.now) }
    {
        Ok(Entry {
            number: self.number,
            body: self.body,
            what: self.what.copied(alloc)?,
        })
    }
}
