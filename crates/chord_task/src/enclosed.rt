//! The arguments of a message on its way: in place, or in memory of their own.
#![tactic(auto)]

ghost use Rattle.std.specs.Prelude.{◌≡◌, ◌==◌, [], IfOk, IsOk, length};
ghost use Rattle.chord_task.specs.Arguments.{AreInPlace};

use crate::apart::Apart;
use crate::args::Args;
use crate::lone::{LoneNumber, LoneObject};
use chord_base::value::{Value, Values};
use std::alloc::{AllocError, Global};
use std::marker::Model;

/// The arguments of a message on its way, in two words. Those of a call lie in the task that waits for it, and others are a parcel
/// themselves. Contracts see the arguments.
#[derive(Drop)]
pub struct Enclosed {
    pub(crate) contents: Contents,
}

/// Where the arguments of a message on its way lie.
#[derive(Drop)]
pub(crate) enum Contents {
    /// There is none.
    Nothing,
    /// A number alone, in place.
    Number(LoneNumber),
    /// An object alone, in place.
    Object(LoneObject),
    /// Others, twice in memory.
    Apart(Apart<Args>),
}

impl Model for Enclosed {
    ghost use Rattle.chord_task.specs.declared.args.Args as pair;
    ghost use Rattle.chord_task.specs.Contents.{enclosed};

    ghost Value = { pair.Args };

    ghost view = { λ e. enclosed e.contents };
}

/// Copies of these values, twice in memory.
#[inline(never)]
fn apart(alloc: Global, values: &Values) -> Result<Apart<Args>, AllocError>
    ensures first { IfOk result (λ a. a.first ≡ values.now) }
    ensures second { IfOk result (λ a. a.second ≡ values.now) }
{
    let first = values.copied(alloc)?;
    let second = values.copied(alloc)?;
    Apart::new(alloc, Args { first, second })
}

impl Enclosed {
    /// No arguments. Takes no memory.
    #[inline(always)]
    pub fn nothing() -> Enclosed
        ensures first { result.first ≡ [] }
        ensures second { result.second ≡ [] }
    {
        Enclosed {
            contents: Contents::Nothing,
        }
    }

    /// Copies of these values, twice. A number or an object alone takes no memory.
    ///
    /// # Errors
    ///
    /// `AllocError` where no memory is found.
    #[inline(always)]
    pub fn twice(alloc: Global, values: &Values) -> Result<Enclosed, AllocError>
        ensures first { IfOk result (λ e. e.first ≡ values.now) }
        ensures second { IfOk result (λ e. e.second ≡ values.now) }
        ensures in_place { AreInPlace values.now → IsOk result }
    {
        let contents = match values.items() {
            [] => Contents::Nothing,
            [Value::Int(number)] => Contents::Number(LoneNumber::of(number)),
            [Value::Ref(object)] => Contents::Object(LoneObject::of(object)),
            _ => Contents::Apart(apart(alloc, values)?),
        };
        Ok(Enclosed { contents })
    }

    /// Whether the message has no values.
    #[inline(always)]
    pub fn has_none(&self) -> bool
        ensures { result ≡ (length self.now.first == 0) }
    {
        match &self.contents {
            Contents::Nothing => true,
            Contents::Number(_) => false,
            Contents::Object(_) => false,
            Contents::Apart(args) => args.value.first.items().is_empty(),
        }
    }

    /// The arguments, whose memory is given back.
    pub fn into_args(self) -> Args
        ensures { result ≡ self }
    {
        match self.contents {
            Contents::Nothing => Args {
                first: Values::none(),
                second: Values::none(),
            },
            Contents::Number(number) => {
                let number = number.number();
                Args {
                    first: Values::one(Value::Int(number)),
                    second: Values::one(Value::Int(number)),
                }
            }
            Contents::Object(object) => {
                let object = object.object();
                Args {
                    first: Values::one(Value::Ref(object)),
                    second: Values::one(Value::Ref(object)),
                }
            }
            Contents::Apart(args) => args.into_inner(),
        }
    }
}
