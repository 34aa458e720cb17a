//! What the classes of a table, what they derive from and their methods are found by.
#![tactic(auto)]

ghost use Rattle.std.specs.Prelude.{◌≡◌, IfOk, [], ◌∷◌, ◌++◌, length, map, is_some};
ghost use Rattle.chord_classes.specs.Table.{method_named};
ghost use Rattle.chord_classes.specs.MethodViews.{see_method, names_of};
ghost use Rattle.chord_classes.specs.Forks.{IsVersion, IsNextVersion};
ghost use Rattle.chord_classes.specs.Owned.{IsOwned, IsOwning, AddsNames};

use crate::method::Method;
use crate::names::Names;
use crate::owners::{Owners, Owning, with_methods};
use crate::versions::Versions;
use std::alloc::{AllocError, Global};

/// The names of classes, versions of what each derives from, and in which class a method is new.
#[derive(Drop)]
pub struct Index<'a> {
    pub names: Names<'a>,
    /// What each class derives from, itself with it.
    pub lines: Versions,
    pub owners: Owners<'a>,
}

/// An index, and the versions of the class that it got last.
#[derive(Drop)]
pub struct Indexed<'a> {
    pub index: Index<'a>,
    pub line: u32,
    pub owned: Option<u32>,
}

impl<'a> Index<'a> {
    /// No classes.
    pub fn new(alloc: Global) -> Index<'a>
        ensures names { result.names ≡ [] }
        ensures lines { result.lines ≡ [] }
        ensures owners { result.owners.names ≡ [] }
        ensures versions { result.owners.versions ≡ [] }
    {
        Index {
            names: Names::new(alloc),
            lines: Versions::new(alloc),
            owners: Owners::new(alloc),
        }
    }

    /// This index with one more class of that name and number: it derives from itself and from what the version `line` has, and beside
    /// the methods of the version `owned` it has these new ones.
    pub fn with(
        self,
        name: &'a [u8],
        number: u32,
        line: Option<u32>,
        owned: Option<u32>,
        methods: &[Method<'a>],
    ) -> Result<Indexed<'a>, AllocError>
        requires line { IsVersion (length self.lines) line }
        requires owned { IsOwned self.owners owned }
        ensures names { IfOk result (λ it. it.index.names ≡ self.entry.names ++ (name.now ∷ [])) }
        ensures line { IfOk result (λ it. IsNextVersion self.entry.lines it.index.lines line number number it.line) }
        ensures added { IfOk result (λ it. AddsNames self.entry.owners it.index.owners (names_of methods.now)) }
        ensures owned { IfOk result (λ it. IsOwning self.entry.owners it.index.owners owned it.owned (λ x. is_some (method_named (map see_method methods.now) x)) number) }
    {
        let Index {
            names,
            mut lines,
            owners,
        } = self;
        let names = names.with(name)?;
        let line = lines.with(line, number as usize, number)?;
        let Owning { owners, version } = with_methods(owners, owned, methods, number)?;
        let index = Index {
            names,
            lines,
            owners,
        };
        Ok(Indexed {
            index,
            line,
            owned: version,
        })
    }
}
