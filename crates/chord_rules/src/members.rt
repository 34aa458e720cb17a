//! What a member of a class breaks.
#![tactic(auto)]

ghost use Rattle.std.specs.Prelude.{◌≡◌, ◌++◌, OnOk, map, flat_map};
ghost use Rattle.chord_tree.specs.View.{see_header, see_member};
ghost use Rattle.chord_tree.specs.ViewStmts.{see_block};
ghost use Rattle.chord_classes.specs.Least.{least};
ghost use Rattle.chord_rules.specs.ClassKeys.{constructor_keys, chord_keys, chord_limits, keys_of_member};

use crate::chords::{repeated_methods, second_synchronous};
use crate::formals::{formals_again, headers_again};
use crate::limits::{formals_past, header_formals_past, headers_past};
use crate::locals::locals_past;
use crate::modifiers::{Bearer, barred, headers_barred};
use chord_classes::least::Least;
use chord_classes::names::Names;
use chord_tree::classes::{Formal, Header, Member, Modifier};
use chord_tree::stmts::Block;
use std::alloc::{AllocError, Global};

/// Notes what a constructor breaks.
fn constructor_breaks(
    alloc: Global,
    modifiers: &[Modifier],
    formals: &[Formal],
    body: &Block,
    breaks: &mut Least,
) -> Result<(), AllocError>
    ensures { OnOk result (breaks.new.found ≡ least breaks.old.found (constructor_keys modifiers.now formals.now (see_block body.now))) }
{
    barred(Bearer::Constructor, modifiers, breaks);
    formals_again(Names::new(alloc), formals, breaks)?;
    formals_past(formals, breaks);
    locals_past(body, breaks);
    Ok(())
}

/// Notes what a chord breaks as a whole.
fn chord_breaks(alloc: Global, headers: &[Header], breaks: &mut Least) -> Result<(), AllocError>
    ensures { OnOk result (breaks.new.found ≡ least breaks.old.found (chord_keys (map see_header headers.now))) }
{
    headers_barred(headers, breaks);
    repeated_methods(alloc, headers, breaks)?;
    second_synchronous(headers, breaks);
    headers_again(alloc, headers, breaks)?;
    Ok(())
}

/// C04: notes where a chord passes a limit.
fn chord_limits(headers: &[Header], body: &Block, breaks: &mut Least)
    ensures { breaks.new.found ≡ least breaks.old.found (chord_limits (map see_header headers.now) (see_block body.now)) }
{
    headers_past(headers, breaks);
    header_formals_past(headers, breaks);
    locals_past(body, breaks);
}

/// Notes what a chord breaks, and where it passes a limit.
fn whole_chord_breaks(
    alloc: Global,
    headers: &[Header],
    body: &Block,
    breaks: &mut Least,
) -> Result<(), AllocError>
    ensures { OnOk result (breaks.new.found ≡ least breaks.old.found (chord_keys (map see_header headers.now) ++ chord_limits (map see_header headers.now) (see_block body.now))) }
{
    chord_breaks(alloc, headers, breaks)?;
    chord_limits(headers, body, breaks);
    Ok(())
}

/// Notes what a member breaks.
fn member_breaks(alloc: Global, member: &Member, breaks: &mut Least) -> Result<(), AllocError>
    ensures { OnOk result (breaks.new.found ≡ least breaks.old.found (keys_of_member (see_member member.now))) }
{
    match member {
        Member::Constructor {
            modifiers,
            formals,
            body,
            ..
        } => constructor_breaks(alloc, modifiers, &formals.parameters, body, breaks)?,
        Member::Chord { headers, body } => whole_chord_breaks(alloc, headers, body, breaks)?,
    }
    Ok(())
}

/// Notes what the members of a class break.
pub fn members_break(
    alloc: Global,
    members: &[Member],
    breaks: &mut Least,
) -> Result<(), AllocError>
    ensures { OnOk result (breaks.new.found ≡ least breaks.old.found (flat_map keys_of_member (map see_member members.now))) }
{
    for member in members {
        member_breaks(alloc, member, breaks)?;
    }
    Ok(())
}
