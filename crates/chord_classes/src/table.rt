//! The classes of a program by number and by name, with their methods by name.
//!
//! No list of methods and no parameter is copied: a class keeps the methods that are new in it, and versions of two maps that it shares
//! with its base. So a look-up takes time logarithmic in the program, however many classes stand above one.
#![tactic(auto)]

ghost use Rattle.std.specs.Prelude.{◌≡◌, ◌<◌, ◌≤◌, ◌+◌, ◌⊎◌, List, [], ◌∷◌, ◌++◌, length, map, IfOk, OnOk, OnErr, Option, Some, None, is_some, option_map};
ghost use Rattle.chord_tree.specs.View.{see_class, see_member};
ghost use Rattle.chord_tree.specs.Walk.{headers_of};
ghost use Rattle.chord_classes.specs.Table.{class_named, method_named, methods_at, derives, base_of, inherited, first_builder, shape_of};
ghost use Rattle.chord_classes.specs.Types.{type_written};
ghost use Rattle.chord_classes.specs.NameRules.{builder_at};
ghost use Rattle.chord_classes.specs.MethodViews.{see_found, see_builder};
ghost use Rattle.chord_classes.specs.Entries.{IsGrown};
ghost use Rattle.chord_classes.specs.Owned.{line_at, owned_at};

use crate::entry::Entry;
use crate::growth::add_one;
use crate::index::{Index, Indexed};
use crate::method::{Builder, Found};
use crate::methods::Methods;
use chord_base::static_type::StaticType;
use chord_tree::classes::Class;
use chord_tree::names::{BasicType, ValueType};
use std::alloc::{AllocError, Global};
use std::marker::Model;

/// The classes of a program, or the first of them. Contracts see their shapes.
#[derive(Drop)]
pub struct Table<'a> {
    entries: Vec<Entry<'a>>,
    index: Index<'a>,
}

impl<'a> Model for Table<'a> {
    ghost use Rattle.std.specs.Prelude.{List};
    ghost use Rattle.chord_classes.specs.Table.{Shape};
    ghost use Rattle.chord_classes.specs.Entries.{shapes_of};
    ghost use Rattle.chord_classes.specs.Owned.{IsShapeTable};

    ghost Value = { List Shape };

    ghost view = { λ t. shapes_of t.entries.items };

    ghost invariant = { λ t. IsShapeTable (shapes_of t.entries.items) t.entries.items t.index.names t.index.lines t.index.owners };
}

impl<'a> Table<'a> {
    /// No classes.
    pub fn new(alloc: Global) -> Table<'a>
        ensures { result ≡ [] }
    {
        Table {
            entries: Vec::new(alloc),
            index: Index::new(alloc),
        }
    }

    /// The number of the first class of that name.
    pub fn class_named(&self, name: &[u8]) -> Option<u32>
        ensures { result ≡ class_named self.now name.now }
    {
        match self.index.names.place(name) {
            Some(place) => Some(place as u32),
            None => None,
        }
    }

    /// The number of a class's base, if it is declared among these classes.
    pub fn base_of(&self, class: &Class) -> Option<u32>
        ensures { result ≡ base_of self.now (see_class class.now) }
    {
        match &class.base {
            Some(base) => self.class_named(base.text.items()),
            None => None,
        }
    }

    /// How many classes there are.
    pub fn class_count(&self) -> usize
        ensures { result ≡ length self.now }
    {
        self.entries.len()
    }

    /// How many methods are inherited from a base.
    pub fn inherited_count(&self, base: Option<u32>) -> usize
        ensures { result ≡ length (inherited self.now base) }
    {
        let Some(class) = base else {
            return 0;
        };
        match self.entries.get(class as usize) {
            Some(entry) => entry.first + entry.own.all.len(),
            None => 0,
        }
    }

    /// Whether a method of that name is inherited from a base.
    pub fn inherits(&self, base: Option<u32>, name: &[u8]) -> bool
        ensures { result ≡ is_some (method_named (inherited self.now base) name.now) }
    {
        match base {
            Some(class) => self.method_named(class, name).is_some(),
            None => false,
        }
    }

    /// The method of that name of a class.
    pub fn method_named(&self, class: u32, name: &[u8]) -> Option<Found<'a>>
        ensures { option_map see_found result ≡ method_named (methods_at self.now class) name.now }
    {
        let Some(entry) = self.entries.get(class as usize) else {
            return None;
        };
        let Some(owner) = self.index.owners.owner(entry.owned, name) else {
            return None;
        };
        let Some(owner) = self.entries.get(owner as usize) else {
            return None;
        };
        match owner.own.named(name) {
            Some(own) => Some(Found {
                number: (owner.first + own.place) as u32,
                method: own.method,
            }),
            None => None,
        }
    }

    /// Whether a class is another, or derives from it.
    pub fn derives(&self, class: u32, base: u32) -> bool
        ensures { result ≡ derives self.now class base }
    {
        match self.entries.get(class as usize) {
            Some(entry) => self.index.lines.get(entry.line, base as usize).is_some(),
            None => class == base,
        }
    }

    /// The constructor of a class.
    pub fn builder(&self, class: u32) -> Option<Builder<'a>>
        ensures { option_map see_builder result ≡ builder_at self.now class }
    {
        match self.entries.get(class as usize) {
            Some(entry) => entry.builder,
            None => None,
        }
    }

    /// These classes, and one after them: its base, its own methods and its constructor.
    pub fn with(
        self,
        class: &'a Class,
        base: Option<u32>,
        own: Methods<'a>,
        builder: Option<Builder<'a>>,
    ) -> Result<Table<'a>, AllocError>
        requires base { base ≡ base_of self (see_class class.now) }
        requires own { IsGrown (inherited self base) (length self) (headers_of (see_class class.now)) [] own.all.items }
        requires builder { option_map see_builder builder ≡ first_builder (map see_member class.now.members.items) }
        ensures { IfOk result (λ table. table ≡ self.entry ++ (shape_of self.entry (see_class class.now) ∷ [])) }
    {
        let first = self.inherited_count(base);
        let Table { mut entries, index } = self;
        check_room(entries.len(), first, own.all.len())?;
        let number = entries.len() as u32;
        let (line, owned) = (line_at(&entries, base), owned_at(&entries, base));
        let Indexed { index, line, owned } = index.with(
            class.name.text.items(),
            number,
            line,
            owned,
            &own.all,
        )?;
        let entry = Entry {
            class,
            base,
            first,
            own,
            builder,
            line: Some(line),
            owned,
        };
        add_one(&mut entries, entry)?;
        Ok(Table { entries, index })
    }

    /// The static type that is written, if its class is declared.
    pub fn written(&self, written: &ValueType) -> Option<StaticType>
        ensures { result ≡ type_written self.now written.now }
    {
        match written {
            ValueType::Basic { basic, at: _ } => Some(match basic {
                BasicType::Int => StaticType::Int,
                BasicType::Bool => StaticType::Bool,
                BasicType::String => StaticType::Text,
            }),
            ValueType::Class(name) => match self.class_named(name.text.items()) {
                Some(class) => Some(StaticType::Class(class)),
                None => None,
            },
        }
    }
}

/// Whether one more class and so many methods fit. More are of a program that no memory holds.
fn check_room(classes: usize, inherited: usize, own: usize) -> Result<(), AllocError>
    ensures fit { OnOk result ((classes < 4294967295) × (inherited + own ≤ 4294967295)) }
    ensures large { OnErr result ((4294967295 ≤ classes) ⊎ (4294967296 ≤ inherited + own)) }
{
    let room = u32::MAX as usize;
    if classes >= room || inherited > room || own > room - inherited {
        return Err(AllocError);
    }
    Ok(())
}

/// The version by which it is told what a base class derives from.
fn line_at(entries: &[Entry], base: Option<u32>) -> Option<u32>
    ensures { result ≡ line_at entries.now base }
{
    match entries.get(base? as usize) {
        Some(entry) => entry.line,
        None => None,
    }
}

/// The version by which the methods of a base class are found.
fn owned_at(entries: &[Entry], base: Option<u32>) -> Option<u32>
    ensures { result ≡ owned_at entries.now base }
{
    match entries.get(base? as usize) {
        Some(entry) => entry.owned,
        None => None,
    }
}
