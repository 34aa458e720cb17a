//! In which class a method is new, by a version of its class and by its name.
#![tactic(auto)]

ghost use Rattle.std.specs.Prelude.{◌≡◌, IfOk, [], ◌∷◌, map, is_some, bytes_eq};
ghost use Rattle.chord_classes.specs.Table.{method_named};
ghost use Rattle.chord_classes.specs.MethodViews.{see_method, names_of};
ghost use Rattle.chord_classes.specs.Owned.{IsOwned, IsOwning, AddsNames, owner_in};

use crate::method::Method;
use crate::names::Names;
use crate::versions::Versions;
use std::alloc::{AllocError, Global};

/// The names of methods, and the versions of a map from their places to the classes in which they are new: a class's version has
/// them for all its methods, the inherited ones too.
#[derive(Drop)]
pub struct Owners<'a> {
    names: Names<'a>,
    versions: Versions,
}

/// Owners, and the version of a class.
#[derive(Drop)]
pub struct Owning<'a> {
    pub owners: Owners<'a>,
    pub version: Option<u32>,
}

impl<'a> Owners<'a> {
    /// No names, and the version of a class without methods.
    pub fn new(alloc: Global) -> Owners<'a>
        ensures names { result.names ≡ [] }
        ensures versions { result.versions ≡ [] }
    {
        Owners {
            names: Names::new(alloc),
            versions: Versions::new(alloc),
        }
    }

    /// The class in which a class's method of that name is new.
    pub fn owner(&self, version: Option<u32>, name: &[u8]) -> Option<u32>
        ensures { result ≡ owner_in self.now version name.now }
    {
        match self.names.place(name) {
            Some(place) => self.versions.get(version, place),
            None => None,
        }
    }

    /// These owners, and a version with one more method, which is new in this class.
    fn with(
        self,
        version: Option<u32>,
        name: &'a [u8],
        owner: u32,
    ) -> Result<Owning<'a>, AllocError>
        requires { IsOwned self version }
        ensures names { IfOk result (λ owning. AddsNames self.entry owning.owners (name.now ∷ [])) }
        ensures owning { IfOk result (λ owning. IsOwning self.entry owning.owners version owning.version (bytes_eq name.now) owner) }
    {
        let Owners {
            names,
            mut versions,
        } = self;
        let names = names.with(name)?;
        let Some(place) = names.place(name) else {
            unreachable!();
        };
        let made = versions.with(version, place, owner)?;
        Ok(Owning {
            owners: Owners { names, versions },
            version: Some(made),
        })
    }
}

/// The owners, and a version with more methods, which are new in this class.
pub fn with_methods<'a>(
    owners: Owners<'a>,
    version: Option<u32>,
    methods: &[Method<'a>],
    owner: u32,
) -> Result<Owning<'a>, AllocError>
    requires { IsOwned owners version }
    ensures names { IfOk result (λ owning. AddsNames owners.entry owning.owners (names_of methods.now)) }
    ensures owning { IfOk result (λ owning. IsOwning owners.entry owning.owners version owning.version (λ x. is_some (method_named (map see_method methods.now) x)) owner) }
{
    let mut owning = Owning { owners, version };
    for method in methods {
        let Owning { owners, version } = owning;
        owning = owners.with(version, method.header.name.text.items(), owner)?;
    }
    Ok(owning)
}
