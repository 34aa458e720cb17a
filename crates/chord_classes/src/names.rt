//! Names by their first places.
#![tactic(auto)]

ghost use Rattle.std.specs.Prelude.{◌≡◌, IfOk, [], ◌∷◌, ◌++◌, length};
ghost use Rattle.chord_classes.specs.NamePlaces.{name_place};

use crate::growth::add_one;
use std::alloc::{AllocError, Global};
use std::collections::BTreeMap;
use std::marker::Model;

/// Names in their order, and the first place of each.
#[derive(Drop)]
pub struct Names<'a> {
    all: Vec<&'a [u8]>,
    places: BTreeMap<&'a [u8], usize>,
}

impl<'a> Model for Names<'a> {
    ghost use Rattle.std.specs.Prelude.{ℕ, List};
    ghost use Rattle.chord_classes.specs.NamePlaces.{texts_in, FindsNames};

    ghost Value = { List (List ℕ) };

    ghost view = { λ n. texts_in n.all.items };

    ghost invariant = { λ n. FindsNames n.places (texts_in n.all.items) };
}

impl<'a> Names<'a> {
    /// No names.
    pub fn new(alloc: Global) -> Names<'a>
        ensures { result ≡ [] }
    {
        Names {
            all: Vec::new(alloc),
            places: BTreeMap::new(alloc),
        }
    }

    /// How many there are.
    pub fn len(&self) -> usize
        ensures { result ≡ length self.now }
    {
        self.all.len()
    }

    /// The first place of a name.
    pub fn place(&self, name: &[u8]) -> Option<usize>
        ensures { result ≡ name_place self.now name.now }
    {
        self.places.get(name).copied()
    }

    /// These names, and one after them.
    pub fn with(mut self, name: &'a [u8]) -> Result<Names<'a>, AllocError>
        ensures { IfOk result (λ names. names ≡ self.entry ++ (name.now ∷ [])) }
    {
        let number = self.len();
        if self.places.get(name).is_none() {
            self.places.insert(name, number)?;
        }
        add_one(&mut self.all, name)?;
        Ok(self)
    }
}
