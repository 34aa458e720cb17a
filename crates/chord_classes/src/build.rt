//! The table of a program, class by class in the order of the text.
#![tactic(auto)]

ghost use Rattle.std.specs.Prelude.{◌≡◌, [], ◌∷◌, ◌++◌, map, flat_map, IfOk, OnErr, option_map, is_some, ◌||◌, false};
ghost use Rattle.chord_tree.specs.View.{tree_of, see_class, see_header, see_member};
ghost use Rattle.chord_tree.specs.Walk.{headers_of, member_headers};
ghost use Rattle.chord_classes.specs.Table.{is_main, method_named, inherited, first_builder, shape_of, table_of};
ghost use Rattle.chord_classes.specs.MethodViews.{see_method, see_builder};
ghost use Rattle.chord_classes.specs.Entries.{IsGrown};

use crate::main_headers::is_main;
use crate::method::{Builder, access_of, method_of};
use crate::methods::Methods;
use crate::numbers::narrow;
use crate::table::Table;
use chord_tree::classes::{Class, Header, Member};
use chord_tree::program::Program;
use std::alloc::{AllocError, Global};

/// The classes of a program by number and by name.
pub fn table_of<'a>(alloc: Global, program: &'a Program) -> Result<Table<'a>, AllocError>
    ensures { IfOk result (λ table. table ≡ table_of (tree_of program.now)) }
{
    let mut table = Table::new(alloc);
    for class in program.classes() {
        table = with_class(alloc, table, class)?;
    }
    Ok(table)
}

/// The classes, and one after them.
pub fn with_class<'a>(
    alloc: Global,
    table: Table<'a>,
    class: &'a Class,
) -> Result<Table<'a>, AllocError>
    ensures { IfOk result (λ more. more ≡ table.entry ++ (shape_of table.entry (see_class class.now) ∷ [])) }
{
    let base = table.base_of(class);
    let number = narrow(table.class_count())?;
    let own = with_members(&table, base, number, Methods::new(alloc), &class.members)?;
    let builder = first_builder(&class.members);
    table.with(class, base, own, builder)
}

/// The methods, and those that the headers of members add.
fn with_members<'a>(
    table: &Table<'a>,
    base: Option<u32>,
    owner: u32,
    own: Methods<'a>,
    members: &'a [Member],
) -> Result<Methods<'a>, AllocError>
    ensures { IfOk result (λ more. IsGrown (inherited table.now base) owner (flat_map member_headers (map see_member members.now)) own.entry.all.items more.all.items) }
{
    let mut own = own;
    for member in members {
        own = with_headers(table, base, owner, own, headers_of(member))?;
    }
    Ok(own)
}

/// The methods, and those that headers add.
fn with_headers<'a>(
    table: &Table<'a>,
    base: Option<u32>,
    owner: u32,
    own: Methods<'a>,
    headers: &'a [Header],
) -> Result<Methods<'a>, AllocError>
    ensures { IfOk result (λ more. IsGrown (inherited table.now base) owner (map see_header headers.now) own.entry.all.items more.all.items) }
{
    let mut own = own;
    for header in headers {
        own = with_header(table, base, owner, own, header)?;
    }
    Ok(own)
}

/// The methods, and the one that a header adds, if none of them has its name. Without memory it was to add one.
fn with_header<'a>(
    table: &Table<'a>,
    base: Option<u32>,
    owner: u32,
    own: Methods<'a>,
    header: &'a Header,
) -> Result<Methods<'a>, AllocError>
    ensures added { IfOk result (λ more. IsGrown (inherited table.now base) owner (see_header header.now ∷ []) own.entry.all.items more.all.items) }
    ensures lacks { OnErr result ((is_main (see_header header.now) || is_some (method_named (inherited table.now base ++ map see_method own.entry.all.items) header.now.name.text)) ≡ false) }
{
    if adds_none(table, base, &own, header) {
        Ok(own)
    } else {
        let more = own.with(method_of(owner, header))?;
        Ok(more)
    }
}

/// Whether a header adds no method: it is that of `Main`, or its name is that of a method that is there.
pub fn adds_none(table: &Table, base: Option<u32>, own: &Methods, header: &Header) -> bool
    ensures { result ≡ (is_main (see_header header.now) || is_some (method_named (inherited table.now base ++ map see_method own.now.all.items) header.now.name.text)) }
{
    let name = header.name.text.items();
    if is_main(header) {
        return true;
    }
    if own.named(name).is_some() {
        return true;
    }
    table.inherits(base, name)
}

/// A member's headers.
pub fn headers_of<'a>(member: &'a Member) -> &'a [Header]
    ensures { map see_header result.now ≡ member_headers (see_member member.now) }
{
    match member {
        Member::Constructor { .. } => &[],
        Member::Chord { headers, .. } => headers.as_slice(),
    }
}

/// The first constructor among members.
pub fn first_builder<'a>(members: &'a [Member]) -> Option<Builder<'a>>
    ensures { option_map see_builder result ≡ first_builder (map see_member members.now) }
{
    for member in members {
        if let Member::Constructor {
            modifiers,
            formals,
            ..
        } = member
        {
            return Some(Builder {
                access: access_of(modifiers),
                formals: &formals.parameters,
            });
        }
    }
    None
}
