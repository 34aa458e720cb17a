//! The rule on modifiers: none twice, none beside one that excludes it, and none where it may not stand.
#![tactic(auto)]

ghost use Rattle.std.specs.Prelude.{◌≡◌, [], map, length, flat_map, ◌&&◌};
ghost use Rattle.chord_tree.specs.View.{see_header};
ghost use Rattle.chord_classes.specs.Table.{has_word, is_main};
ghost use Rattle.chord_classes.specs.DeclarationRules.{bears_static, bears_virtual, is_open, barred_among, InHeader};
ghost use Rattle.chord_classes.specs.Least.{least, keys};
ghost use Rattle.chord_rules.specs.Bearers.{see_bearer, barred_by, seen_with, header_barred};

use chord_classes::least::Least;
use chord_classes::main_headers::is_main;
use chord_tree::classes::{Header, Modifier, ModifierKeyword};

/// Where a modifier stands: on a constructor, or in a header, which may be that of `Main` alone.
#[derive(Clone, Copy)]
pub enum Bearer {
    Constructor,
    Header { main_alone: bool },
}

/// The kinds of modifiers that stand before one.
#[derive(Clone, Copy)]
pub struct Seen {
    pub access: bool,
    pub of_static: bool,
    pub of_virtual: bool,
}

fn bears_static(bearer: Bearer) -> bool
    ensures { result ≡ bears_static (see_bearer bearer) }
{
    match bearer {
        Bearer::Constructor => false,
        Bearer::Header { main_alone } => main_alone,
    }
}

fn bears_virtual(bearer: Bearer) -> bool
    ensures { result ≡ bears_virtual (see_bearer bearer) }
{
    match bearer {
        Bearer::Constructor => false,
        Bearer::Header { .. } => true,
    }
}

/// Whether one of the modifiers is `public` or `protected`.
fn is_open(modifiers: &[Modifier]) -> bool
    ensures { result ≡ has_word is_open modifiers.now }
{
    for modifier in modifiers {
        match modifier.keyword {
            ModifierKeyword::Public => return true,
            ModifierKeyword::Protected => return true,
            _ => {}
        }
    }
    false
}

/// Whether a modifier is not allowed behind those that were seen, beside others of which one may be `public` or `protected`.
fn is_barred(bearer: Bearer, seen: Seen, open_access: bool, keyword: ModifierKeyword) -> bool
    ensures { result ≡ barred_by (see_bearer bearer) seen open_access keyword }
{
    match keyword {
        ModifierKeyword::Public => seen.access,
        ModifierKeyword::Protected => seen.access,
        ModifierKeyword::Private => seen.access,
        ModifierKeyword::Static => seen.of_static | (seen.of_virtual | !bears_static(bearer)),
        ModifierKeyword::Virtual => seen.of_virtual
            | (seen.of_static | (!bears_virtual(bearer) | !open_access)),
        ModifierKeyword::Override => seen.of_virtual
            | (seen.of_static | (!bears_virtual(bearer) | !open_access)),
    }
}

/// What was seen, and one modifier more.
fn seen_with(seen: Seen, keyword: ModifierKeyword) -> Seen
    ensures { result ≡ seen_with seen keyword }
{
    match keyword {
        ModifierKeyword::Public => Seen {
            access: true,
            ..seen
        },
        ModifierKeyword::Protected => Seen {
            access: true,
            ..seen
        },
        ModifierKeyword::Private => Seen {
            access: true,
            ..seen
        },
        ModifierKeyword::Static => Seen {
            of_static: true,
            ..seen
        },
        ModifierKeyword::Virtual => Seen {
            of_virtual: true,
            ..seen
        },
        ModifierKeyword::Override => Seen {
            of_virtual: true,
            ..seen
        },
    }
}

/// C21: notes the modifiers that are not allowed.
pub fn barred(bearer: Bearer, modifiers: &[Modifier], breaks: &mut Least)
    ensures { breaks.new.found ≡ least breaks.old.found (keys 21 (barred_among (see_bearer bearer) modifiers.now [] modifiers.now)) }
{
    let open_access = is_open(modifiers);
    let mut seen = Seen {
        access: false,
        of_static: false,
        of_virtual: false,
    };
    for modifier in modifiers {
        let wrong = is_barred(bearer, seen, open_access, modifier.keyword);
        breaks.note_if(21, wrong, modifier.at);
        seen = seen_with(seen, modifier.keyword);
    }
}

/// C21: notes the modifiers of a header that are not allowed, which may be alone in its chord.
fn header_barred(header: &Header, alone: bool, breaks: &mut Least)
    ensures { breaks.new.found ≡ least breaks.old.found (keys 21 (barred_among (InHeader (is_main (see_header header.now) && alone)) header.now.modifiers.items [] header.now.modifiers.items)) }
{
    let mut main_alone = false;
    if is_main(header) {
        main_alone = alone;
    }
    barred(Bearer::Header { main_alone }, &header.modifiers, breaks);
}

/// C21: notes the modifiers of a chord's headers that are not allowed.
pub fn headers_barred(headers: &[Header], breaks: &mut Least)
    ensures { breaks.new.found ≡ least breaks.old.found (keys 21 (flat_map (header_barred (length headers.now)) (map see_header headers.now))) }
{
    let alone = headers.len() == 1;
    for header in headers {
        header_barred(header, alone, breaks);
    }
}
