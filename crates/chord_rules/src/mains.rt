//! The rule on `Main`, and the member that is it.
#![tactic(auto)]

ghost use Rattle.std.specs.Prelude.{◌≡◌, ◌≤◌, ◌+◌, ◌||◌, IfOk, OnErr, map, flat_map, length, unwrap_or};
ghost use Rattle.chord_tree.specs.View.{see_class, see_header, see_member};
ghost use Rattle.chord_classes.specs.ChordRules.{is_void, is_right_main, mains_among, member_mains, mains_of, wrong_mains};
ghost use Rattle.chord_classes.specs.Plan.{main_among, main_in};
ghost use Rattle.chord_classes.specs.Least.{least, keys};
ghost use Rattle.chord_rules.specs.Mains.{wrong_from, some_main, main_at, member_sum};

use crate::headers::{is_static, may_be_overridden};
use chord_classes::build::headers_of;
use chord_classes::least::Least;
use chord_classes::main_headers::{is_main, member_in_main};
use chord_classes::numbers::after;
use chord_tree::classes::{Class, Header, Member, ReturnType};
use std::alloc::AllocError;

fn is_void(result_type: &ReturnType) -> bool
    ensures { result ≡ is_void result_type.now }
{
    match result_type {
        ReturnType::Void { .. } => true,
        _ => false,
    }
}

/// Whether a header is `static void Main()`, with or without an access modifier, and alone among these.
fn is_right_main(headers: &[Header], header: &Header) -> bool
    ensures { result ≡ is_right_main (map see_header headers.now) (see_header header.now) }
{
    if !is_static(header) {
        return false;
    }
    if may_be_overridden(header) {
        return false;
    }
    if !is_void(&header.result_type) {
        return false;
    }
    if !header.formals.parameters.is_empty() {
        return false;
    }
    headers.len() == 1
}

/// C13: notes a header of a chord that is named `Main`, if it is not as it should be or not the first, and tells whether one was seen.
fn main_breaks(all: &[Header], seen: bool, header: &Header, breaks: &mut Least) -> bool
    ensures noted { breaks.new.found ≡ least breaks.old.found (keys 13 (wrong_from seen (main_at (map see_header all.now) (see_header header.now)))) }
    ensures seen { result ≡ (seen || some_main (main_at (map see_header all.now) (see_header header.now))) }
{
    if !is_main(header) {
        return seen;
    }
    let right = is_right_main(all, header);
    breaks.note_if(13, seen | !right, header.name.at);
    true
}

/// C13: notes the headers of a chord that are named `Main`, as far as they are wrong.
fn headers_mains(headers: &[Header], seen: bool, breaks: &mut Least) -> bool
    ensures noted { breaks.new.found ≡ least breaks.old.found (keys 13 (wrong_from seen (mains_among (map see_header headers.now) (map see_header headers.now)))) }
    ensures seen { result ≡ (seen || some_main (mains_among (map see_header headers.now) (map see_header headers.now))) }
{
    let mut seen = seen;
    for header in headers {
        seen = main_breaks(headers, seen, header, breaks);
    }
    seen
}

/// C13: notes the headers of members that are named `Main`, as far as they are wrong.
fn members_mains(members: &[Member], seen: bool, breaks: &mut Least) -> bool
    ensures noted { breaks.new.found ≡ least breaks.old.found (keys 13 (wrong_from seen (flat_map member_mains (map see_member members.now)))) }
    ensures seen { result ≡ (seen || some_main (flat_map member_mains (map see_member members.now))) }
{
    let mut seen = seen;
    for member in members {
        seen = headers_mains(headers_of(member), seen, breaks);
    }
    seen
}

/// C13: notes the headers of classes that are named `Main`, as far as they are wrong.
fn classes_mains(classes: &[Class], seen: bool, breaks: &mut Least) -> bool
    ensures noted { breaks.new.found ≡ least breaks.old.found (keys 13 (wrong_from seen (mains_of (map see_class classes.now)))) }
    ensures seen { result ≡ (seen || some_main (mains_of (map see_class classes.now))) }
{
    let mut seen = seen;
    for class in classes {
        seen = members_mains(&class.members, seen, breaks);
    }
    seen
}

/// C13: notes the headers that are named `Main`, as far as they are wrong, and where the text ends if there is none.
pub fn wrong_mains(classes: &[Class], end: u32, breaks: &mut Least)
    ensures { breaks.new.found ≡ least breaks.old.found (keys 13 (wrong_mains (mains_of (map see_class classes.now)) end)) }
{
    let seen = classes_mains(classes, false, breaks);
    breaks.note_if(13, !seen, end);
}

/// The first member that is `Main`, among members of which the first has this number.
fn main_among(first: u32, members: &[Member]) -> Result<Option<u32>, AllocError>
    ensures found { IfOk result (λ found. found ≡ main_among first (map see_member members.now)) }
    ensures large { OnErr result (4294967296 ≤ first + length members.now) }
{
    let mut number = first;
    for member in members {
        if member_in_main(member) {
            return Ok(Some(number));
        }
        number = after(number, 1)?;
    }
    Ok(None)
}

/// The member that is `Main`; where there is none, which is broken, any.
pub fn main_member(classes: &[Class]) -> Result<u32, AllocError>
    ensures main { IfOk result (λ main. main ≡ unwrap_or (main_in 0 (map see_class classes.now)) 0) }
    ensures large { OnErr result (4294967296 ≤ member_sum (map see_class classes.now)) }
{
    match main_in(classes)? {
        Some(number) => Ok(number),
        None => Ok(0),
    }
}

/// The first member that is `Main`.
fn main_in(classes: &[Class]) -> Result<Option<u32>, AllocError>
    ensures found { IfOk result (λ found. found ≡ main_in 0 (map see_class classes.now)) }
    ensures large { OnErr result (4294967296 ≤ member_sum (map see_class classes.now)) }
{
    let mut number = 0;
    for class in classes {
        if let Some(found) = main_among(number, &class.members)? {
            return Ok(Some(found));
        }
        number = after(number, class.members.len())?;
    }
    Ok(None)
}
