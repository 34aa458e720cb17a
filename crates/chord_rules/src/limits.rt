//! The limits on headers, parameters, methods and chords.
#![tactic(auto)]

ghost use Rattle.std.specs.Prelude.{◌≡◌, ◌-◌, [], ◌∷◌, map, flat_map, length, drop, nat_le, nat_lt, ◌≤◌, IfOk, OnOk, OnErr};
ghost use Rattle.chord_tree.specs.View.{see_header, see_member};
ghost use Rattle.chord_classes.specs.NameRules.{when};
ghost use Rattle.chord_classes.specs.ChordRules.{base_token, formal_tokens, header_tokens, chord_tokens};
ghost use Rattle.chord_classes.specs.Least.{least, keys};
ghost use Rattle.chord_rules.specs.Limits.{crowded_formals, base_depth};

use chord_classes::least::Least;
use chord_classes::main_headers::has_main;
use chord_classes::numbers::after;
use chord_classes::table::Table;
use chord_tree::classes::{Class, Formal, Header, Member};
use std::alloc::AllocError;

/// How many headers a chord has at most, and how many parameters a header or constructor.
const MAX_BESIDE: usize = 8;

/// C04: notes a name where no room is left, and takes room for it else.
pub fn take_room(room: &mut usize, at: u32, breaks: &mut Least)
    ensures room { room.new ≡ room.old - 1 }
    ensures noted { breaks.new.found ≡ least breaks.old.found (keys 4 (drop room.old (at ∷ []))) }
{
    if *room > 0 {
        *room -= 1;
    } else {
        breaks.note(4, at);
    }
}

/// C04: notes the parameters past the eighth.
pub fn formals_past(formals: &[Formal], breaks: &mut Least)
    ensures { breaks.new.found ≡ least breaks.old.found (keys 4 (drop 8 (formal_tokens formals.now))) }
{
    let mut room = MAX_BESIDE;
    for formal in formals {
        take_room(&mut room, formal.name.at, breaks);
    }
}

/// C04: notes the headers of a chord past the eighth.
pub fn headers_past(headers: &[Header], breaks: &mut Least)
    ensures { breaks.new.found ≡ least breaks.old.found (keys 4 (drop 8 (header_tokens (map see_header headers.now)))) }
{
    let mut room = MAX_BESIDE;
    for header in headers {
        take_room(&mut room, header.name.at, breaks);
    }
}

/// C04: notes the parameters of each header past its eighth.
pub fn header_formals_past(headers: &[Header], breaks: &mut Least)
    ensures { breaks.new.found ≡ least breaks.old.found (keys 4 (flat_map crowded_formals (map see_header headers.now))) }
{
    for header in headers {
        formals_past(&header.formals.parameters, breaks);
    }
}

/// C04: notes the class if it is past the last that is allowed.
pub fn class_past(table: &Table, class: &Class, breaks: &mut Least)
    ensures { breaks.new.found ≡ least breaks.old.found (keys 4 (when (nat_le 1024 (length table.now)) class.now.name.at)) }
{
    let past = table.class_count() >= 1024;
    breaks.note_if(4, past, class.name.at);
}

/// How many classes are above a class with this base.
pub fn base_depth(depths: &[u32], base: Option<u32>) -> Result<u32, AllocError>
    ensures depth { IfOk result (λ depth. depth ≡ base_depth depths.now base) }
    ensures large { OnErr result (4294967296 ≤ base_depth depths.now base) }
{
    let Some(class) = base else {
        return Ok(0);
    };
    match depths.get(class as usize) {
        Some(depth) => after(*depth, 1),
        None => Ok(1),
    }
}

/// C04: notes the base if the class has more than sixteen above it.
pub fn base_past(
    depths: &[u32],
    class: &Class,
    base: Option<u32>,
    breaks: &mut Least,
) -> Result<(), AllocError>
    ensures noted { OnOk result (breaks.new.found ≡ least breaks.old.found (keys 4 (base_token class.now.base (nat_lt 16 (base_depth depths.now base))))) }
    ensures large { OnErr result (4294967296 ≤ base_depth depths.now base) }
{
    let past = base_depth(depths, base)? > 16;
    if let Some(name) = &class.base {
        breaks.note_if(4, past, name.at);
    }
    Ok(())
}

/// C04: notes the first name of a chord where no room is left; that of `Main` counts for none.
fn chord_past(room: &mut usize, member: &Member, breaks: &mut Least)
    ensures room { room.new ≡ room.old - length (chord_tokens (see_member member.now ∷ [])) }
    ensures noted { breaks.new.found ≡ least breaks.old.found (keys 4 (drop room.old (chord_tokens (see_member member.now ∷ [])))) }
{
    match member {
        Member::Constructor { .. } => {}
        Member::Chord { headers, .. } => {
            if let [first, ..] = headers.as_slice() {
                if !has_main(headers) {
                    take_room(room, first.name.at, breaks);
                }
            }
        }
    }
}

/// C04: notes the first names of the chords past those for which there is room.
pub fn chords_past(room: usize, members: &[Member], breaks: &mut Least)
    ensures { breaks.new.found ≡ least breaks.old.found (keys 4 (drop room (chord_tokens (map see_member members.now)))) }
{
    let mut room = room;
    for member in members {
        chord_past(&mut room, member, breaks);
    }
}
