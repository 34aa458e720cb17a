//! The methods that are new in a class, by their places and by their names.
#![tactic(auto)]

ghost use Rattle.std.specs.Prelude.{◌≡◌, IfOk, [], ◌∷◌, ◌++◌, map, option_map, slice_get, vec_len, vec_capacity};
ghost use Rattle.chord_base.specs.Room.{HasGrown};
ghost use Rattle.chord_classes.specs.Table.{method_named};
ghost use Rattle.chord_classes.specs.MethodViews.{see_method, see_own, names_of};

use crate::growth::add_one;
use crate::method::{Method, OwnMethod};
use crate::names::Names;
use std::alloc::{AllocError, Global};

/// Methods, and their first places by name.
#[derive(Drop)]
pub struct Methods<'a> {
    names: Names<'a>,
    /// The methods by their places.
    pub all: Vec<Method<'a>>,
    ghost named: { names ≡ names_of all.items },
}

impl<'a> Methods<'a> {
    /// No methods.
    pub fn new(alloc: Global) -> Methods<'a>
        ensures { result.all.items ≡ [] }
    {
        Methods {
            names: Names::new(alloc),
            all: Vec::new(alloc),
        }
    }

    /// The first method of a name, and its place.
    pub fn named(&self, name: &[u8]) -> Option<OwnMethod<'a>>
        ensures { option_map see_own result ≡ method_named (map see_method self.now.all.items) name.now }
    {
        match self.names.place(name) {
            Some(place) => match method_at(self.all.as_slice(), place) {
                Some(method) => Some(OwnMethod { place, method }),
                None => None,
            },
            None => None,
        }
    }

    /// These methods, and one after them.
    pub fn with(self, method: Method<'a>) -> Result<Methods<'a>, AllocError>
        ensures added { IfOk result (λ methods. methods.all.items ≡ self.entry.all.items ++ (method.entry ∷ [])) }
        ensures grown { IfOk result (λ methods. HasGrown (vec_len self.entry.all) (vec_capacity self.entry.all) (vec_capacity methods.all)) }
    {
        let Methods { names, mut all } = self;
        let names = names.with(method.header.name.text.items())?;
        add_one(&mut all, method)?;
        Ok(Methods { names, all })
    }
}

/// The method at a place.
fn method_at<'a>(methods: &[Method<'a>], place: usize) -> Option<Method<'a>>
    ensures { result ≡ slice_get methods.now place }
{
    methods.get(place).copied()
}
