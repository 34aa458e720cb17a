//! The methods that are new in a class, and the limit on the methods of a class.
#![tactic(auto)]

ghost use Rattle.std.specs.Prelude.{◌≡◌, ◌-◌, [], ◌∷◌, ◌++◌, ◌||◌, false, length, map, flat_map, drop, is_some, IfOk, OnOk, OnErr};
ghost use Rattle.chord_tree.specs.View.{see_header, see_member};
ghost use Rattle.chord_tree.specs.Walk.{member_headers};
ghost use Rattle.chord_classes.specs.Table.{inherited, is_main, method_named};
ghost use Rattle.chord_classes.specs.MethodViews.{see_method};
ghost use Rattle.chord_classes.specs.ChordRules.{header_tokens, new_headers};
ghost use Rattle.chord_classes.specs.Entries.{IsGrown};
ghost use Rattle.chord_classes.specs.Least.{least, keys};
ghost use Rattle.chord_rules.specs.Growing.{IsCounted};

use crate::limits::take_room;
use chord_classes::build::{adds_none, headers_of};
use chord_classes::least::Least;
use chord_classes::method::method_of;
use chord_classes::methods::Methods;
use chord_classes::table::Table;
use chord_tree::classes::{Header, Member};
use std::alloc::{AllocError, Global};

/// How many methods a class has at most, inherited ones included.
const MAX_METHODS: usize = 16;

/// A class's own methods.
#[derive(Drop)]
pub struct Grown<'a> {
    pub own: Methods<'a>,
    /// For how many more there is room.
    pub room: usize,
}

/// The methods that are new in a class with these members. C04: notes the headers past the sixteenth method.
pub fn own_methods<'a>(
    alloc: Global,
    table: &Table<'a>,
    base: Option<u32>,
    owner: u32,
    members: &'a [Member],
    breaks: &mut Least,
) -> Result<Methods<'a>, AllocError>
    ensures own { IfOk result (λ own. IsGrown (inherited table.now base) owner (flat_map member_headers (map see_member members.now)) [] own.all.items) }
    ensures noted { OnOk result (breaks.new.found ≡ least breaks.old.found (keys 4 (drop (16 - length (inherited table.now base)) (header_tokens (new_headers owner (inherited table.now base) (flat_map member_headers (map see_member members.now))))))) }
{
    let grown = Grown {
        own: Methods::new(alloc),
        room: MAX_METHODS.saturating_sub(table.inherited_count(base)),
    };
    let grown = with_members(table, base, owner, grown, members, breaks)?;
    Ok(grown.own)
}

fn with_members<'a>(
    table: &Table<'a>,
    base: Option<u32>,
    owner: u32,
    grown: Grown<'a>,
    members: &'a [Member],
    breaks: &mut Least,
) -> Result<Grown<'a>, AllocError>
    ensures { IfOk result (λ more. IsCounted (inherited table.now base) owner (flat_map member_headers (map see_member members.now)) grown.entry more breaks.old.found breaks.new.found) }
{
    let mut grown = grown;
    for member in members {
        grown = with_headers(table, base, owner, grown, headers_of(member), breaks)?;
    }
    Ok(grown)
}

fn with_headers<'a>(
    table: &Table<'a>,
    base: Option<u32>,
    owner: u32,
    grown: Grown<'a>,
    headers: &'a [Header],
    breaks: &mut Least,
) -> Result<Grown<'a>, AllocError>
    ensures { IfOk result (λ more. IsCounted (inherited table.now base) owner (map see_header headers.now) grown.entry more breaks.old.found breaks.new.found) }
{
    let mut grown = grown;
    for header in headers {
        grown = with_header(table, base, owner, grown, header, breaks)?;
    }
    Ok(grown)
}

/// The methods, and the one that a header adds, if none of them has its name. Without memory it was to add one.
fn with_header<'a>(
    table: &Table<'a>,
    base: Option<u32>,
    owner: u32,
    grown: Grown<'a>,
    header: &'a Header,
    breaks: &mut Least,
) -> Result<Grown<'a>, AllocError>
    ensures counted { IfOk result (λ more. IsCounted (inherited table.now base) owner (see_header header.now ∷ []) grown.entry more breaks.old.found breaks.new.found) }
    ensures lacks { OnErr result ((is_main (see_header header.now) || is_some (method_named (inherited table.now base ++ map see_method grown.entry.own.all.items) header.now.name.text)) ≡ false) }
{
    if adds_none(table, base, &grown.own, header) {
        return Ok(grown);
    }
    let Grown { own, mut room } = grown;
    take_room(&mut room, header.name.at, breaks);
    let own = own.with(method_of(owner, header))?;
    Ok(Grown { own, room })
}
