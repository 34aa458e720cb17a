//! The variables in scope, by name.
#![tactic(auto)]

ghost use Rattle.std.specs.Prelude.{◌≡◌, ◌≤◌, ◌-◌, [], ◌∷◌, ◌++◌, length, take, OnOk, OnErr, option_map};
ghost use Rattle.chord_classes.specs.Site.{variable_named};
ghost use Rattle.chord_types.specs.Views.{see_local};

use chord_base::static_type::StaticType;
use std::alloc::{AllocError, Global};
use std::collections::BTreeMap;
use std::marker::Model;

/// A variable in scope. Its type is there if its class is declared.
#[derive(Clone, Copy)]
pub struct Local<'a> {
    pub name: &'a [u8],
    pub slot: u32,
    pub static_type: Option<StaticType>,
}

/// The variables in scope, the outermost first. Contracts see their list.
///
/// A name's place is that of its first variable, so a look-up takes the logarithm of their number.
#[derive(Drop)]
pub struct Scope<'a> {
    locals: Vec<Local<'a>>,
    places: BTreeMap<&'a [u8], usize>,
}

impl<'a> Model for Scope<'a> {
    ghost use Rattle.std.specs.Prelude.{List, map};
    ghost use Rattle.chord_classes.specs.Site.{Local};
    ghost use Rattle.chord_classes.specs.NamePlaces.{FindsNames};
    ghost use Rattle.chord_types.specs.Views.{see_local, local_names};

    ghost Value = { List Local };

    ghost view = { λ s. map see_local s.locals.items };

    ghost invariant = { λ s. FindsNames s.places (local_names s.locals.items) };
}

impl<'a> Scope<'a> {
    /// No variables.
    pub fn new(alloc: Global) -> Scope<'a>
        ensures { result ≡ [] }
    {
        Scope {
            locals: Vec::new(alloc),
            places: BTreeMap::new(alloc),
        }
    }

    /// How many there are.
    pub fn len(&self) -> usize
        ensures { result ≡ length self.now }
    {
        self.locals.len()
    }

    /// The first variable of that name.
    pub fn variable(&self, name: &[u8]) -> Option<Local<'a>>
        ensures { option_map see_local result ≡ variable_named self.now name.now }
    {
        match self.places.get(name) {
            Some(place) => self.locals.get(*place).copied(),
            None => None,
        }
    }

    /// One more variable.
    pub fn push(&mut self, local: Local<'a>) -> Result<(), AllocError>
        ensures pushed { OnOk result (self.new ≡ self.old ++ (see_local local.entry ∷ [])) }
        ensures kept { OnErr result (self.new ≡ self.old) }
    {
        let place = self.locals.len();
        self.locals.reserve(1)?;
        if self.places.get(local.name).is_none() {
            self.places.insert(local.name, place)?;
        }
        self.locals.push(local)?;
        Ok(())
    }

    /// Without the last variable.
    fn pop(&mut self)
        ensures { self.new ≡ take (length self.old - 1) self.old }
    {
        let Some(local) = self.locals.pop() else {
            return;
        };
        if self.places.get(local.name).copied() == Some(self.locals.len()) {
            self.places.remove(local.name);
        }
    }

    /// The first variables, as many as these.
    pub fn truncate(&mut self, count: usize)
        requires { count ≤ length self.old }
        ensures { self.new ≡ take count self.old }
    {
        while self.locals.len() > count {
            self.pop();
        }
    }
}
