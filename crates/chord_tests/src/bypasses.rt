//! A bypass by hand, behind a firing by single calls: consumed messages leave their bags.
#![tactic(auto)]

ghost use Rattle.std.specs.Prelude.{◌≡◌, ◌≤◌, ◌<◌, true, false, Some, None, OnOk};
ghost use Rattle.chord_rule.specs.declared.view.Claim.{Claim};
ghost use Rattle.chord_rule.specs.Kinds.{newcomer_first, claimed, saw};
ghost use Rattle.chord_rule.specs.Looks.{HasSeen};
ghost use Rattle.chord_rule.specs.Tells.{a_word, IsNewClaim};
ghost use Rattle.chord_rule.specs.Ways.{WentPast};
ghost use Rattle.chord_word.specs.declared.cells.Cell.TheVariants.{Claimed};
ghost use Rattle.chord_space.specs.Desks.{view, heads, IsDeskOf, IsSameDesk};
ghost use Rattle.chord_tests.specs.Pairs.{IsPairTable, HasBothPending, HasClaimedBoth};

use crate::codes::{FIRST, Letter, coded, table};
use crate::hands::{arm_y, begun, find_no_y, link_y, put_x, see, send_x, send_y};
use chord_bag::Sought;
use chord_base::members::Members;
use chord_space::{Desk, Pointer, Space};
use chord_word::Cell;
use std::alloc::Global;
use std::test::Fail;

/// `Main` sends both messages, which are linked in their bags and armed, at one desk alone.
fn put_both(alloc: Global, space: &Space<Letter>, desk: &mut Desk<Letter>) -> Result<(), Fail>
    requires table { IsPairTable false space.now × (4 ≤ space.now.events) }
    requires desk { IsDeskOf space.now desk.old × (view desk.old ≡ newcomer_first) }
    ensures desk { IsSameDesk desk.old desk.new }
    ensures both { OnOk result (HasBothPending (view desk.new)) }
{
    begun(space, desk, false)?;
    send_x(alloc, space, desk)?;
    put_x(alloc, space, desk);
    send_y(alloc, space, desk)?;
    link_y(alloc, space, desk);
    arm_y(space, desk);
    Ok(())
}

/// A message is claimed, for the object and the method of the bag in which the desk knows it to be.
fn claim_known(space: &Space<Letter>, desk: &mut Desk<Letter>, i: u32) -> Result<(), Fail>
    requires desk { IsDeskOf space.now desk.old × (i < space.now.events) × HasSeen (view desk.old) i None }
    ensures desk { IsSameDesk desk.old desk.new }
    ensures claimed { OnOk result ((c : Claim) × IsNewClaim (view desk.old) i None c × (view desk.new ≡ saw (claimed (view desk.old) c) i (a_word Claimed None))) }
{
    match space.claim(desk, i, None) {
        Ok(()) => Ok(()),
        Err(_) => Err(Fail::from("a message is not claimed")),
    }
}

/// Both messages are read pending with no other behind them, and claimed.
fn claim_both(space: &Space<Letter>, desk: &mut Desk<Letter>) -> Result<(), Fail>
    requires table { 4 ≤ space.now.events }
    requires desk { IsDeskOf space.now desk.old × HasBothPending (view desk.old) }
    ensures desk { IsSameDesk desk.old desk.new }
    ensures claimed { OnOk result (HasClaimedBoth (view desk.new) None) }
{
    see(space, desk, 2)?;
    see(space, desk, 3)?;
    claim_known(space, desk, 2)?;
    claim_known(space, desk, 3)?;
    Ok(())
}

/// The firing of both messages is drawn, as entry 4.
fn draw_fourth(space: &Space<Letter>, desk: &mut Desk<Letter>) -> Result<(), Fail>
    requires table { IsPairTable false space.now }
    requires desk { IsDeskOf space.now desk.old × HasClaimedBoth (view desk.old) None }
    ensures desk { IsSameDesk desk.old desk.new }
    ensures drawn { OnOk result (HasClaimedBoth (view desk.new) (Some 4)) }
{
    let mut members = Members::new();
    members.push(2);
    members.push(3);
    let Ok(4) = space.draw_firing(desk, 0, FIRST, &members) else {
        return Err(Fail::from("the firing has another number"))
    };
    Ok(())
}

/// Both messages are consumed.
fn consume_both(space: &Space<Letter>, desk: &mut Desk<Letter>)
    requires table { 4 ≤ space.now.events }
    requires desk { IsDeskOf space.now desk.old × HasClaimedBoth (view desk.old) (Some 4) }
    ensures desk { IsSameDesk desk.old desk.new }
{
    space.consume(desk, 2);
    space.consume(desk, 3);
}

/// The head of x's bag leads to x, which is read consumed, with no other behind it.
fn see_consumed_x(space: &Space<Letter>, desk: &mut Desk<Letter>) -> Result<(), Fail>
    requires desk { IsDeskOf space.now desk.old × (4 ≤ space.now.events) × (heads space.now ≡ 2) }
    ensures desk { IsSameDesk desk.old desk.new }
    ensures past { OnOk result (WentPast (view desk.new) 2 None) }
{
    let Some(2) = space.look_head(desk, FIRST, 0) else {
        return Err(Fail::from("the head of the bag leads elsewhere"))
    };
    let word = space.look_cell(desk, 2);
    match word.cell {
        Cell::Consumed => {}
        _ => return Err(Fail::from("x is not consumed")),
    }
    match word.next {
        None => Ok(()),
        Some(_) => Err(Fail::from("x has another behind it")),
    }
}

/// The head of x's bag is moved past x, if it leads there.
fn bypass_x(space: &Space<Letter>, desk: &mut Desk<Letter>) -> bool
    requires desk { IsDeskOf space.now desk.old × (4 ≤ space.now.events) × (heads space.now ≡ 2) }
    requires past { WentPast (view desk.old) 2 None }
    ensures desk { IsSameDesk desk.old desk.new }
    ensures past { WentPast (view desk.new) 2 None }
{
    space.bypass(desk, Pointer::Head(FIRST, 0), Some(2), None)
}

/// The head of x's bag leads nowhere, and so does that of y's bag once it was walked.
fn find_no_heads(space: &Space<Letter>, desk: &mut Desk<Letter>) -> Result<(), Fail>
    requires desk { IsDeskOf space.now desk.old × (4 ≤ space.now.events) × (heads space.now ≡ 2) }
    ensures desk { IsSameDesk desk.old desk.new }
{
    if space.look_head(desk, FIRST, 0).is_some() {
        return Err(Fail::from("x is at the head of its bag"));
    }
    if space.look_head(desk, FIRST, 1) != Some(3) {
        return Err(Fail::from("y is not at the head of its bag"));
    }
    find_no_y(space, desk, Sought::Bare)?;
    if space.look_head(desk, FIRST, 1).is_some() {
        return Err(Fail::from("y is at the head of its bag"));
    }
    Ok(())
}

/// The chord is fired by single calls, and the head of x's bag is moved past x, twice: whether it led there each time.
fn bypass_twice(
    alloc: Global,
    space: &Space<Letter>,
    desk: &mut Desk<Letter>,
) -> Result<(bool, bool), Fail>
    requires table { IsPairTable false space.now × (4 ≤ space.now.events) × (heads space.now ≡ 2) }
    requires desk { IsDeskOf space.now desk.old × (view desk.old ≡ newcomer_first) }
    ensures desk { IsSameDesk desk.old desk.new }
{
    put_both(alloc, space, desk)?;
    claim_both(space, desk)?;
    draw_fourth(space, desk)?;
    consume_both(space, desk);
    see_consumed_x(space, desk)?;
    let first = bypass_x(space, desk);
    let second = bypass_x(space, desk);
    find_no_heads(space, desk)?;
    Ok((first, second))
}

#[test]
fn bypass_by_hand(rt: HostRuntime) -> Result<(), Fail> {
    let code = coded(rt.alloc(), false)?;
    let (space, mut desk) = table(rt.alloc(), &code, false, 16)?;
    let moved = bypass_twice(rt.alloc(), &space, &mut desk)?;
    assert_eq!(rt; moved, (true, false));
    Ok(())
}
