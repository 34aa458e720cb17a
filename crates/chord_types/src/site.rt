//! Where an expression stands: the class, the body, and what is in scope.
#![tactic(auto)]

use crate::operand::type_known;
use crate::scope::{Local, Scope};
use chord_base::static_type::StaticType;
use chord_classes::method::Found;
use chord_classes::numbers::after;
use chord_classes::table::Table;
use chord_tree::names::{Name, ValueType};
use std::alloc::AllocError;

/// How an expression stands.
#[derive(Clone, Copy, PartialEq, Eq)]
pub enum Role {
    /// Its value is used.
    Used,
    /// It is a statement.
    Alone,
    /// It is the receiver of a call.
    Receiver,
}

/// An argument: its first token, and its type if nothing in it is broken.
#[derive(Clone, Copy)]
pub struct Passed {
    pub first: u32,
    pub static_type: Option<StaticType>,
}

/// What a call names: a method, and the class of the receiver.
#[derive(Clone, Copy)]
pub struct Target<'a> {
    pub class: u32,
    pub found: Found<'a>,
}

/// Where an expression stands: the classes, the number of its class, whether its body is that of `Main`, what `return` is to give, the variables in scope, the next free slot, and the types of the variables that were declared so far, in scope or not.
#[derive(Drop)]
pub struct Site<'t, 'a> {
    pub table: &'t Table<'a>,
    pub own: u32,
    pub in_main: bool,
    pub due: Option<&'a ValueType>,
    pub scope: Scope<'a>,
    pub next: u32,
    pub types: Vec<StaticType>,
}

impl<'t, 'a> Site<'t, 'a> {
    ghost use Rattle.std.specs.Prelude.{◌≡◌, OnOk, IfOk, option_and_then, is_some};
    ghost use Rattle.chord_classes.specs.Types.{type_written};
    ghost use Rattle.chord_types.specs.Sites.{see_site, Declares};

    /// Declares a variable in the next free slot, which it gives.
    pub fn declare(&mut self, written: &ValueType, name: &'a Name) -> Result<u32, AllocError>
        ensures slot { IfOk result (λ slot. slot ≡ self.old.next) }
        ensures declared { OnOk result (Declares self.old self.new written.now name.now) }
    {
        let slot = self.next;
        let next = after(slot, 1)?;
        self.types.push(type_known(self.table, written))?;
        self.scope.push(Local {
            name: name.text.items(),
            slot,
            static_type: self.table.written(written),
        })?;
        self.next = next;
        Ok(slot)
    }

    /// The type of the value that `return` is to give.
    pub fn due_type(&self) -> Option<StaticType>
        ensures { result ≡ option_and_then (type_written (see_site self.now).table) (see_site self.now).due }
    {
        match self.due {
            Some(written) => self.table.written(written),
            None => None,
        }
    }

    /// Whether `return` is to give a value.
    pub fn gives(&self) -> bool
        ensures { result ≡ is_some (see_site self.now).due }
    {
        match self.due {
            Some(_) => true,
            None => false,
        }
    }
}
