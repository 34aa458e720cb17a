//! Desks by hand: the steps of a firing one by one, of messages to one object and to two, with what each desk knows after them.
#![tactic(auto)]

ghost use Rattle.std.specs.Prelude.{◌≡◌, ℕ, ◌≤◌, ◌<◌, true, false, List, [], ◌∷◌, Option, Some, None, IfOk, IfErr, OnOk};
ghost use Rattle.chord_base.specs.declared.event.Entry as event;
ghost use Rattle.chord_bag.specs.declared.walk.Sought.TheVariants.{Found};
ghost use Rattle.chord_rule.specs.Kinds.{newcomer, newcomer_first, claimed};
ghost use Rattle.chord_rule.specs.Looks.{HasSeen};
ghost use Rattle.chord_rule.specs.Made.{key};
ghost use Rattle.chord_word.specs.declared.cells.Cell.TheVariants.{Claimed};
ghost use Rattle.chord_space.specs.Desks.{view, heads, space_code, program_of, IsDeskOf, IsSameDesk};
ghost use Rattle.chord_tests.specs.Pairs.{IsPairTable, first_object, second_object, made_one, sent_x, sent_both, made_two, sent_x_apart, sent_apart, HasInHand, HoldsClaim, IsUnsplit, Owes, KeepsSeen, KeepsDuties, IsAsBefore, TakesClaim, GivesClaim, LeavesDuty, KeepsFiring};
ghost use Rattle.chord_match.specs.Seen.{AreSeen};
ghost use Rattle.chord_match.specs.declared.handing.Firing.TheVariants.{Fired, Lost};
ghost use Rattle.chord_tests.specs.declared.codes.Letter as letter;

use crate::codes::{FIRST, Letter, SECOND, coded, table};
use chord_bag::{Sought, seek};
use chord_base::event::{Entry, What};
use chord_base::members::Members;
use chord_base::value::{Object, Values};
use chord_code::code::Code;
use chord_match::nexts::Nexts;
use chord_match::{Finding, Firing, find, fire};
use chord_space::{Desk, Space};
use chord_word::Cell;
use std::alloc::Global;
use std::test::Fail;

/// `Main` begins, and makes object 1.
pub(crate) fn begun(space: &Space<Letter>, desk: &mut Desk<Letter>, two: bool) -> Result<(), Fail>
    requires table { IsPairTable two space.now }
    requires desk { IsDeskOf space.now desk.old × (view desk.old ≡ newcomer_first) }
    ensures desk { IsSameDesk desk.old desk.new }
    ensures begun { OnOk result (HasInHand (view desk.new) made_one [] None [] × IsUnsplit (view desk.new)) }
{
    let Ok(0) = space.draw(desk, 0, &What::Begun) else {
        return Err(Fail::from("the first entry has another number"))
    };
    let Ok(1) = space.draw(desk, 0, &What::Made(0)) else {
        return Err(Fail::from("the object has another number"))
    };
    Ok(())
}

/// `Main` sends x, which is message 2.
pub(crate) fn send_x(
    alloc: Global,
    space: &Space<Letter>,
    desk: &mut Desk<Letter>,
) -> Result<(), Fail>
    requires table { IsPairTable false space.now }
    requires desk { IsDeskOf space.now desk.old × HasInHand (view desk.old) made_one [] None [] × IsUnsplit (view desk.old) }
    ensures desk { IsSameDesk desk.old desk.new }
    ensures sent { OnOk result (HasInHand (view desk.new) sent_x (2 ∷ []) None [] × IsUnsplit (view desk.new)) }
{
    let what = What::Sent(FIRST, 0, Values::of_items(Vec::new(alloc)));
    let Ok(2) = space.draw(desk, 0, &what) else {
        return Err(Fail::from("x has another number"))
    };
    Ok(())
}

/// x is linked in its bag, and armed.
pub(crate) fn put_x(alloc: Global, space: &Space<Letter>, desk: &mut Desk<Letter>)
    requires table { IsPairTable false space.now × (4 ≤ space.now.events) }
    requires desk { IsDeskOf space.now desk.old × HasInHand (view desk.old) sent_x (2 ∷ []) None [] }
    ensures desk { IsSameDesk desk.old desk.new }
    ensures unsplit { IsUnsplit (view desk.old) → IsUnsplit (view desk.new) }
    ensures added { HasInHand (view desk.new) sent_x [] None [] × Owes (view desk.new) 2 (key first_object 0) }
{
    let letter = Letter {
        past: Vec::new(alloc),
    };
    space.link(desk, 2, FIRST, 0, letter);
    space.arm(desk, 2);
}

/// The same, and a second desk is lent.
fn add_x(alloc: Global, space: &Space<Letter>, desk: &mut Desk<Letter>) -> Desk<Letter>
    requires table { IsPairTable false space.now × (4 ≤ space.now.events) }
    requires desk { IsDeskOf space.now desk.old × HasInHand (view desk.old) sent_x (2 ∷ []) None [] × IsUnsplit (view desk.old) }
    ensures desk { IsSameDesk desk.old desk.new }
    ensures added { HasInHand (view desk.new) sent_x [] None [] × Owes (view desk.new) 2 (key first_object 0) }
    ensures other { IsDeskOf space.now result × (view result ≡ newcomer) }
{
    put_x(alloc, space, desk);
    space.split(desk)
}

/// Looks for a chord with a message on which the desk has a duty.
fn look_for(
    space: &Space<Letter>,
    desk: &mut Desk<Letter>,
    code: &Code,
    m: u32,
    object: Object,
    method: u8,
) -> (Finding, Members, Nexts)
    requires desk { IsDeskOf space.now desk.old }
    requires code { code.now ≡ space_code space.now }
    requires bounds { (m < space.now.events) × (object.number < space.now.events) × (object.class < 1024) × (method < heads space.now) }
    requires duty { Owes (view desk.old) m (key object method) }
    ensures desk { IsSameDesk desk.old desk.new }
    ensures same { IsAsBefore (view desk.old) (view desk.new) }
    ensures duty { LeavesDuty (program_of space.now) space.now.events (view desk.new) m object method result.1 result.2 result.0 }
{
    let mut members = Members::new();
    let mut nexts = Nexts::new();
    let found = find(
        space,
        desk,
        code,
        m,
        object,
        method,
        &mut members,
        &mut nexts,
    );
    (found, members, nexts)
}

/// Nothing is found for x, whose duty is laid down.
fn leave_x(space: &Space<Letter>, desk: &mut Desk<Letter>, code: &Code) -> Result<(), Fail>
    requires table { (4 ≤ space.now.events) × (code.now ≡ space_code space.now) × (heads space.now ≡ 2) }
    requires desk { IsDeskOf space.now desk.old × HasInHand (view desk.old) sent_x [] None [] × Owes (view desk.old) 2 (key first_object 0) }
    ensures desk { IsSameDesk desk.old desk.new × HasInHand (view desk.new) sent_x [] None [] }
{
    match look_for(space, desk, code, 2, FIRST, 0) {
        (Finding::Left, _, _) => Ok(()),
        _ => Err(Fail::from("x is not left")),
    }
}

/// `Main` sends y, which is message 3.
pub(crate) fn send_y(
    alloc: Global,
    space: &Space<Letter>,
    desk: &mut Desk<Letter>,
) -> Result<(), Fail>
    requires table { IsPairTable false space.now }
    requires desk { IsDeskOf space.now desk.old × HasInHand (view desk.old) sent_x [] None [] }
    ensures desk { IsSameDesk desk.old desk.new }
    ensures sent { OnOk result (HasInHand (view desk.new) sent_both (3 ∷ []) None []) }
    ensures duties { OnOk result (KeepsDuties (view desk.old) (view desk.new)) }
{
    let what = What::Sent(FIRST, 1, Values::of_items(Vec::new(alloc)));
    let Ok(3) = space.draw(desk, 0, &what) else {
        return Err(Fail::from("y has another number"))
    };
    Ok(())
}

/// y is linked in its bag.
pub(crate) fn link_y(alloc: Global, space: &Space<Letter>, desk: &mut Desk<Letter>)
    requires table { IsPairTable false space.now × (4 ≤ space.now.events) }
    requires desk { IsDeskOf space.now desk.old × HasInHand (view desk.old) sent_both (3 ∷ []) None [] }
    ensures desk { IsSameDesk desk.old desk.new }
    ensures linked { HasInHand (view desk.new) sent_both [] (Some 3) [] × ((view desk.new).bag ≡ key first_object 1) }
    ensures duties { KeepsDuties (view desk.old) (view desk.new) }
{
    let letter = Letter {
        past: Vec::new(alloc),
    };
    space.link(desk, 3, FIRST, 1, letter);
}

/// y is armed, and read pending with no next.
pub(crate) fn arm_y(space: &Space<Letter>, desk: &mut Desk<Letter>)
    requires table { 4 ≤ space.now.events }
    requires desk { IsDeskOf space.now desk.old × HasInHand (view desk.old) sent_both [] (Some 3) [] × ((view desk.old).bag ≡ key first_object 1) }
    ensures desk { IsSameDesk desk.old desk.new }
    ensures armed { HasInHand (view desk.new) sent_both [] None [] × Owes (view desk.new) 3 (key first_object 1) }
    ensures duties { KeepsDuties (view desk.old) (view desk.new) }
{
    space.arm(desk, 3);
}

/// A message is read pending, with no other behind it in its bag.
pub(crate) fn see(space: &Space<Letter>, desk: &mut Desk<Letter>, i: u32) -> Result<(), Fail>
    requires desk { IsDeskOf space.now desk.old × (i < space.now.events) }
    ensures desk { IsSameDesk desk.old desk.new }
    ensures same { OnOk result (IsAsBefore (view desk.old) (view desk.new) × KeepsDuties (view desk.old) (view desk.new) × KeepsSeen (view desk.old) (view desk.new)) }
    ensures seen { OnOk result (HasSeen (view desk.new) i None) }
{
    let word = space.look_cell(desk, i);
    match word.cell {
        Cell::Pending => {}
        _ => return Err(Fail::from("a message is not pending")),
    }
    match word.next {
        None => Ok(()),
        Some(_) => Err(Fail::from("a message has another behind it")),
    }
}

/// A message is claimed, or its cell is given.
fn take(space: &Space<Letter>, desk: &mut Desk<Letter>, i: u32) -> Result<(), Cell>
    requires desk { IsDeskOf space.now desk.old × (i < space.now.events) × HasSeen (view desk.old) i None }
    ensures desk { IsSameDesk desk.old desk.new }
    ensures same { KeepsDuties (view desk.old) (view desk.new) × KeepsSeen (view desk.old) (view desk.new) }
    ensures claimed { OnOk result (TakesClaim (view desk.old) (view desk.new) i) }
    ensures refused { IfErr result (λ _. IsAsBefore (view desk.old) (view desk.new)) }
{
    space.claim(desk, i, None)
}

/// The one claim of a desk is given back.
fn give(space: &Space<Letter>, desk: &mut Desk<Letter>, i: u32)
    requires desk { IsDeskOf space.now desk.old × (i < space.now.events) }
    requires claim { (es : List event.Entry) × HoldsClaim (view desk.old) es i }
    ensures desk { IsSameDesk desk.old desk.new }
    ensures same { KeepsDuties (view desk.old) (view desk.new) × KeepsSeen (view desk.old) (view desk.new) }
    ensures given { GivesClaim (view desk.old) (view desk.new) i }
{
    space.give_back(desk, i);
}

/// The bag of y is walked.
fn seek_y(space: &Space<Letter>, desk: &mut Desk<Letter>) -> Sought
    requires desk { IsDeskOf space.now desk.old × (4 ≤ space.now.events) × (heads space.now ≡ 2) }
    ensures desk { IsSameDesk desk.old desk.new }
    ensures same { IsAsBefore (view desk.old) (view desk.new) × KeepsSeen (view desk.old) (view desk.new) }
    ensures found { (i : ℕ) (next : Option ℕ) → result ≡ Found i next → HasSeen (view desk.new) i next }
{
    seek(space, desk, FIRST, 1)
}

/// y is found in its bag, with no other behind it.
fn find_pending_y(space: &Space<Letter>, desk: &mut Desk<Letter>) -> Result<(), Fail>
    requires desk { IsDeskOf space.now desk.old × (4 ≤ space.now.events) × (heads space.now ≡ 2) }
    ensures desk { IsSameDesk desk.old desk.new }
    ensures same { IsAsBefore (view desk.old) (view desk.new) × KeepsSeen (view desk.old) (view desk.new) }
    ensures seen { OnOk result (HasSeen (view desk.new) 3 None) }
{
    match seek_y(space, desk) {
        Sought::Found(3, None) => Ok(()),
        _ => Err(Fail::from("y is not found")),
    }
}

/// The bag of y is walked with this answer, which finds no message.
pub(crate) fn find_no_y(
    space: &Space<Letter>,
    desk: &mut Desk<Letter>,
    answer: Sought,
) -> Result<(), Fail>
    requires desk { IsDeskOf space.now desk.old × (4 ≤ space.now.events) × (heads space.now ≡ 2) }
    ensures desk { IsSameDesk desk.old desk.new }
    ensures same { IsAsBefore (view desk.old) (view desk.new) × KeepsSeen (view desk.old) (view desk.new) }
{
    if seek_y(space, desk) == answer {
        Ok(())
    } else {
        Err(Fail::from("another answer for y"))
    }
}

/// `Main` begins and sends x, which is linked and armed; and another desk is lent.
fn open_table(
    alloc: Global,
    space: &Space<Letter>,
    desk: &mut Desk<Letter>,
) -> Result<Desk<Letter>, Fail>
    requires table { IsPairTable false space.now × (4 ≤ space.now.events) }
    requires desk { IsDeskOf space.now desk.old × (view desk.old ≡ newcomer_first) }
    ensures desk { IsSameDesk desk.old desk.new }
    ensures added { OnOk result (HasInHand (view desk.new) sent_x [] None [] × Owes (view desk.new) 2 (key first_object 0)) }
    ensures other { IfOk result (λ other. IsDeskOf space.now other × (view other ≡ newcomer)) }
{
    begun(space, desk, false)?;
    send_x(alloc, space, desk)?;
    Ok(add_x(alloc, space, desk))
}

/// Nothing is found for x while y is not there; y is busy once it is linked, and found once it is armed. Both messages are seen.
fn add_both(
    alloc: Global,
    space: &Space<Letter>,
    code: &Code,
    first: &mut Desk<Letter>,
    other: &mut Desk<Letter>,
) -> Result<(), Fail>
    requires table { IsPairTable false space.now × (4 ≤ space.now.events) × (code.now ≡ space_code space.now) }
    requires first { IsDeskOf space.now first.old × HasInHand (view first.old) sent_x [] None [] × Owes (view first.old) 2 (key first_object 0) }
    requires other { IsDeskOf space.now other.old × HasInHand (view other.old) [] [] None [] }
    ensures desks { IsSameDesk first.old first.new × IsSameDesk other.old other.new }
    ensures first { OnOk result (HasInHand (view first.new) sent_both [] None [] × Owes (view first.new) 3 (key first_object 1) × HasSeen (view first.new) 3 None) }
    ensures other { OnOk result (HasInHand (view other.new) [] [] None [] × HasSeen (view other.new) 2 None × HasSeen (view other.new) 3 None) }
{
    find_no_y(space, other, Sought::Bare)?;
    leave_x(space, first, code)?;
    send_y(alloc, space, first)?;
    link_y(alloc, space, first);
    find_no_y(space, other, Sought::Busy(3))?;
    arm_y(space, first);
    find_pending_y(space, other)?;
    see(space, first, 3)?;
    see(space, other, 2)?;
    Ok(())
}

/// A message is claimed.
fn claim_for_good(space: &Space<Letter>, desk: &mut Desk<Letter>, i: u32) -> Result<(), Fail>
    requires desk { IsDeskOf space.now desk.old × (i < space.now.events) × HasSeen (view desk.old) i None }
    ensures desk { IsSameDesk desk.old desk.new }
    ensures same { KeepsDuties (view desk.old) (view desk.new) × KeepsSeen (view desk.old) (view desk.new) }
    ensures claimed { OnOk result (TakesClaim (view desk.old) (view desk.new) i) }
{
    match take(space, desk, i) {
        Ok(()) => Ok(()),
        Err(_) => Err(Fail::from("a message is not claimed")),
    }
}

/// A message that another desk has claimed is not claimed again.
fn claim_in_vain(space: &Space<Letter>, desk: &mut Desk<Letter>, i: u32) -> Result<(), Fail>
    requires desk { IsDeskOf space.now desk.old × (i < space.now.events) × HasSeen (view desk.old) i None }
    ensures desk { IsSameDesk desk.old desk.new }
    ensures same { KeepsDuties (view desk.old) (view desk.new) × KeepsSeen (view desk.old) (view desk.new) }
    ensures refused { OnOk result (IsAsBefore (view desk.old) (view desk.new)) }
{
    match take(space, desk, i) {
        Err(Cell::Claimed) => Ok(()),
        _ => Err(Fail::from("a message is claimed twice")),
    }
}

/// y has to wait for x, which is in another hand.
fn find_busy_x(space: &Space<Letter>, desk: &mut Desk<Letter>, code: &Code) -> Result<(), Fail>
    requires table { (4 ≤ space.now.events) × (code.now ≡ space_code space.now) × (heads space.now ≡ 2) }
    requires desk { IsDeskOf space.now desk.old × Owes (view desk.old) 3 (key first_object 1) }
    ensures desk { IsSameDesk desk.old desk.new }
    ensures same { IsAsBefore (view desk.old) (view desk.new) }
    ensures duty { OnOk result (Owes (view desk.new) 3 (key first_object 1)) }
{
    match look_for(space, desk, code, 3, FIRST, 1) {
        (Finding::Busy(2), _, _) => Ok(()),
        _ => Err(Fail::from("x is in no other hand")),
    }
}

/// The chord is fired with x and y, or nothing is fired.
fn fire_seen(
    space: &Space<Letter>,
    desk: &mut Desk<Letter>,
    code: &Code,
    members: &Members,
    nexts: &Nexts,
) -> Firing<Letter>
    requires table { (4 ≤ space.now.events) × (code.now ≡ space_code space.now) }
    requires desk { IsDeskOf space.now desk.old × HasInHand (view desk.old) sent_both [] None [] × AreSeen space.now.events (program_of space.now) (view desk.old) first_object 0 members.now nexts.now }
    ensures desk { IsSameDesk desk.old desk.new }
    ensures fired { (f : ℕ) (hand : List letter.Letter) → result ≡ Fired f hand → KeepsFiring (view desk.new) members.now f }
    ensures lost { (i : ℕ) → result ≡ Lost i → IsAsBefore (view desk.old) (view desk.new) × AreSeen space.now.events (program_of space.now) (view desk.new) first_object 0 members.now nexts.now }
{
    fire(space, desk, code, FIRST, 0, members, nexts)
}

/// Firing 4 is posted, with its entry.
fn post_fired(
    alloc: Global,
    space: &Space<Letter>,
    desk: &mut Desk<Letter>,
    members: &Members,
) -> Result<(), Fail>
    requires table { IsPairTable false space.now × (5 ≤ space.now.events) }
    requires desk { IsDeskOf space.now desk.old × KeepsFiring (view desk.old) members.now 4 }
    ensures desk { IsSameDesk desk.old desk.new }
{
    let entry = Entry {
        number: 4,
        body: 4,
        what: What::Fired(
            0,
            FIRST,
            members.copied(),
            Values::of_items(Vec::new(alloc)),
        ),
    };
    let past = vec![in alloc; entry]?;
    space.post(desk, 4, Letter { past });
    Ok(())
}

/// Each desk claims one message and gives it back, and the other one sees it in that hand.
fn contend(
    space: &Space<Letter>,
    code: &Code,
    first: &mut Desk<Letter>,
    other: &mut Desk<Letter>,
) -> Result<(), Fail>
    requires table { (4 ≤ space.now.events) × (code.now ≡ space_code space.now) × (heads space.now ≡ 2) }
    requires first { IsDeskOf space.now first.old × HasInHand (view first.old) sent_both [] None [] × Owes (view first.old) 3 (key first_object 1) × HasSeen (view first.old) 3 None }
    requires other { IsDeskOf space.now other.old × HasInHand (view other.old) [] [] None [] × HasSeen (view other.old) 2 None × HasSeen (view other.old) 3 None }
    ensures desks { IsSameDesk first.old first.new × IsSameDesk other.old other.new }
    ensures first { OnOk result (HasInHand (view first.new) sent_both [] None [] × Owes (view first.new) 3 (key first_object 1)) }
    ensures other { OnOk result (HasInHand (view other.new) [] [] None [] × HasSeen (view other.new) 2 None) }
{
    claim_for_good(space, first, 3)?;
    claim_in_vain(space, other, 3)?;
    find_no_y(space, other, Sought::Busy(3))?;
    give(space, first, 3);
    claim_for_good(space, other, 2)?;
    find_busy_x(space, first, code)?;
    give(space, other, 2);
    Ok(())
}

/// A chord is found for y: its members are x and y.
fn match_y(
    space: &Space<Letter>,
    desk: &mut Desk<Letter>,
    code: &Code,
) -> Result<(Members, Nexts), Fail>
    requires table { (4 ≤ space.now.events) × (code.now ≡ space_code space.now) × (heads space.now ≡ 2) }
    requires desk { IsDeskOf space.now desk.old × HasInHand (view desk.old) sent_both [] None [] × Owes (view desk.old) 3 (key first_object 1) }
    ensures desk { IsSameDesk desk.old desk.new }
    ensures matched { IfOk result (λ r. HasInHand (view desk.new) sent_both [] None [] × AreSeen space.now.events (program_of space.now) (view desk.new) first_object 0 r.0 r.1) }
{
    match look_for(space, desk, code, 3, FIRST, 1) {
        (Finding::Match(0), members, nexts) => {
            if are(&members, 2, 3) {
                Ok((members, nexts))
            } else {
                Err(Fail::from("other members"))
            }
        }
        _ => Err(Fail::from("no match")),
    }
}

/// Whether these are the members.
fn are(members: &Members, i: u16, j: u16) -> bool {
    let items = members.items();
    items.len() == 2 && items[0] == i && items[1] == j
}

/// The chord is not fired, since x is in another hand; both members are seen still.
fn fire_in_vain(
    space: &Space<Letter>,
    desk: &mut Desk<Letter>,
    code: &Code,
    members: &Members,
    nexts: &Nexts,
) -> Result<(), Fail>
    requires table { (4 ≤ space.now.events) × (code.now ≡ space_code space.now) }
    requires desk { IsDeskOf space.now desk.old × HasInHand (view desk.old) sent_both [] None [] × AreSeen space.now.events (program_of space.now) (view desk.old) first_object 0 members.now nexts.now }
    ensures desk { IsSameDesk desk.old desk.new }
    ensures lost { OnOk result (HasInHand (view desk.new) sent_both [] None [] × AreSeen space.now.events (program_of space.now) (view desk.new) first_object 0 members.now nexts.now) }
{
    match fire_seen(space, desk, code, members, nexts) {
        Firing::Lost(2) => Ok(()),
        _ => Err(Fail::from("the chord is not lost")),
    }
}

/// The chord is lost to a desk that has claimed x: its members.
fn lose(
    space: &Space<Letter>,
    code: &Code,
    first: &mut Desk<Letter>,
    other: &mut Desk<Letter>,
) -> Result<(Members, Nexts), Fail>
    requires table { (4 ≤ space.now.events) × (code.now ≡ space_code space.now) × (heads space.now ≡ 2) }
    requires first { IsDeskOf space.now first.old × HasInHand (view first.old) sent_both [] None [] × Owes (view first.old) 3 (key first_object 1) }
    requires other { IsDeskOf space.now other.old × HasInHand (view other.old) [] [] None [] × HasSeen (view other.old) 2 None }
    ensures desks { IsSameDesk first.old first.new × IsSameDesk other.old other.new }
    ensures seen { IfOk result (λ r. HasInHand (view first.new) sent_both [] None [] × AreSeen space.now.events (program_of space.now) (view first.new) first_object 0 r.0 r.1) }
{
    let (members, nexts) = match_y(space, first, code)?;
    claim_for_good(space, other, 2)?;
    fire_in_vain(space, first, code, &members, &nexts)?;
    give(space, other, 2);
    Ok((members, nexts))
}

/// The limit on events is reached, and nothing is fired.
fn spend(
    space: &Space<Letter>,
    desk: &mut Desk<Letter>,
    code: &Code,
    members: &Members,
    nexts: &Nexts,
) -> Result<(), Fail>
    requires table { (4 ≤ space.now.events) × (code.now ≡ space_code space.now) }
    requires desk { IsDeskOf space.now desk.old × HasInHand (view desk.old) sent_both [] None [] × AreSeen space.now.events (program_of space.now) (view desk.old) first_object 0 members.now nexts.now }
    ensures desk { IsSameDesk desk.old desk.new }
{
    match fire_seen(space, desk, code, members, nexts) {
        Firing::Spent => Ok(()),
        _ => Err(Fail::from("the limit is not reached")),
    }
}

/// The chord is fired, as entry 4.
fn fire_fourth(
    space: &Space<Letter>,
    desk: &mut Desk<Letter>,
    code: &Code,
    members: &Members,
    nexts: &Nexts,
) -> Result<(), Fail>
    requires table { (4 ≤ space.now.events) × (code.now ≡ space_code space.now) }
    requires desk { IsDeskOf space.now desk.old × HasInHand (view desk.old) sent_both [] None [] × AreSeen space.now.events (program_of space.now) (view desk.old) first_object 0 members.now nexts.now }
    ensures desk { IsSameDesk desk.old desk.new }
    ensures fired { OnOk result (KeepsFiring (view desk.new) members.now 4) }
{
    match fire_seen(space, desk, code, members, nexts) {
        Firing::Fired(4, _) => Ok(()),
        _ => Err(Fail::from("the chord is not fired as entry 4")),
    }
}

/// A firing that is not posted cannot be started.
fn start_in_vain(space: &Space<Letter>, desk: &mut Desk<Letter>) -> Result<(), Fail>
    requires desk { IsDeskOf space.now desk.old × (5 ≤ space.now.events) }
    ensures desk { IsSameDesk desk.old desk.new }
    ensures same { OnOk result ((ms : List ℕ) (f : ℕ) → KeepsFiring (view desk.old) ms f → KeepsFiring (view desk.new) ms f) }
{
    match space.start(desk, 4) {
        Err(Cell::Empty) => Ok(()),
        _ => Err(Fail::from("the firing was not posted")),
    }
}

/// A firing that is posted can be started once.
fn start_once(space: &Space<Letter>, desk: &mut Desk<Letter>) -> Result<(), Fail>
    requires desk { IsDeskOf space.now desk.old × (5 ≤ space.now.events) }
    ensures desk { IsSameDesk desk.old desk.new }
{
    if space.start(desk, 4).is_err() {
        return Err(Fail::from("the firing was posted"));
    }
    match space.start(desk, 4) {
        Err(Cell::Started) => Ok(()),
        _ => Err(Fail::from("the firing was started")),
    }
}

/// The chord is fired, posted and started.
fn fire_once(
    alloc: Global,
    space: &Space<Letter>,
    desk: &mut Desk<Letter>,
    code: &Code,
    members: &Members,
    nexts: &Nexts,
) -> Result<(), Fail>
    requires table { IsPairTable false space.now × (5 ≤ space.now.events) × (code.now ≡ space_code space.now) }
    requires desk { IsDeskOf space.now desk.old × HasInHand (view desk.old) sent_both [] None [] × AreSeen space.now.events (program_of space.now) (view desk.old) first_object 0 members.now nexts.now }
    ensures desk { IsSameDesk desk.old desk.new }
{
    fire_fourth(space, desk, code, members, nexts)?;
    start_in_vain(space, desk)?;
    post_fired(alloc, space, desk, members)?;
    start_once(space, desk)
}

/// The steps of both desks up to a chord that one of them lost: the other desk, and the chord's members.
fn play_to_loss(
    alloc: Global,
    space: &Space<Letter>,
    code: &Code,
    first: &mut Desk<Letter>,
) -> Result<(Desk<Letter>, Members, Nexts), Fail>
    requires table { IsPairTable false space.now × (4 ≤ space.now.events) × (code.now ≡ space_code space.now) }
    requires first { IsDeskOf space.now first.old × (view first.old ≡ newcomer_first) }
    ensures desks { IsSameDesk first.old first.new × IfOk result (λ r. IsDeskOf space.now r.0) }
    ensures seen { IfOk result (λ r. HasInHand (view first.new) sent_both [] None [] × AreSeen space.now.events (program_of space.now) (view first.new) first_object 0 r.1 r.2) }
{
    let mut other = open_table(alloc, space, first)?;
    add_both(alloc, space, code, first, &mut other)?;
    contend(space, code, first, &mut other)?;
    let (members, nexts) = lose(space, code, first, &mut other)?;
    Ok((other, members, nexts))
}

/// `Main` makes its object, and cannot send x.
fn send_no_x(alloc: Global, space: &Space<Letter>, desk: &mut Desk<Letter>) -> Result<(), Fail>
    requires table { IsPairTable false space.now }
    requires desk { IsDeskOf space.now desk.old × (view desk.old ≡ newcomer_first) }
    ensures desk { IsSameDesk desk.old desk.new }
    ensures idle { OnOk result (IsUnsplit (view desk.new) × ((view desk.new).claims ≡ []) × ((view desk.new).flight ≡ None)) }
{
    begun(space, desk, false)?;
    let what = What::Sent(FIRST, 0, Values::of_items(Vec::new(alloc)));
    match space.draw(desk, 0, &what) {
        Ok(_) => Err(Fail::from("the limit is not reached")),
        Err(_) => Ok(()),
    }
}

/// `Main` makes object 2.
fn make_second(space: &Space<Letter>, desk: &mut Desk<Letter>) -> Result<(), Fail>
    requires table { IsPairTable true space.now }
    requires desk { IsDeskOf space.now desk.old × HasInHand (view desk.old) made_one [] None [] }
    ensures desk { IsSameDesk desk.old desk.new }
    ensures made { OnOk result (HasInHand (view desk.new) made_two [] None []) }
{
    let Ok(2) = space.draw(desk, 0, &What::Made(0)) else {
        return Err(Fail::from("the second object has another number"))
    };
    Ok(())
}

/// `Main` sends x to object 1, which is message 3.
fn send_x_apart(alloc: Global, space: &Space<Letter>, desk: &mut Desk<Letter>) -> Result<(), Fail>
    requires table { IsPairTable true space.now }
    requires desk { IsDeskOf space.now desk.old × HasInHand (view desk.old) made_two [] None [] }
    ensures desk { IsSameDesk desk.old desk.new }
    ensures sent { OnOk result (HasInHand (view desk.new) sent_x_apart (3 ∷ []) None []) }
{
    let what = What::Sent(FIRST, 0, Values::of_items(Vec::new(alloc)));
    let Ok(3) = space.draw(desk, 0, &what) else {
        return Err(Fail::from("x has another number"))
    };
    Ok(())
}

/// `Main` sends y to object 2, which is message 4.
fn send_y_apart(alloc: Global, space: &Space<Letter>, desk: &mut Desk<Letter>) -> Result<(), Fail>
    requires table { IsPairTable true space.now }
    requires desk { IsDeskOf space.now desk.old × HasInHand (view desk.old) sent_x_apart (3 ∷ []) None [] }
    ensures desk { IsSameDesk desk.old desk.new }
    ensures sent { OnOk result (HasInHand (view desk.new) sent_apart (4 ∷ 3 ∷ []) None []) }
{
    let what = What::Sent(SECOND, 1, Values::of_items(Vec::new(alloc)));
    let Ok(4) = space.draw(desk, 0, &what) else {
        return Err(Fail::from("y has another number"))
    };
    Ok(())
}

/// x is linked in the bag of its object, and armed.
fn add_x_apart(alloc: Global, space: &Space<Letter>, desk: &mut Desk<Letter>)
    requires table { IsPairTable true space.now × (5 ≤ space.now.events) }
    requires desk { IsDeskOf space.now desk.old × HasInHand (view desk.old) sent_apart (4 ∷ 3 ∷ []) None [] }
    ensures desk { IsSameDesk desk.old desk.new }
    ensures added { HasInHand (view desk.new) sent_apart (4 ∷ []) None [] }
{
    let letter = Letter {
        past: Vec::new(alloc),
    };
    space.link(desk, 3, FIRST, 0, letter);
    space.arm(desk, 3);
}

/// y is linked in the bag of the other object, and armed.
fn add_y_apart(alloc: Global, space: &Space<Letter>, desk: &mut Desk<Letter>)
    requires table { IsPairTable true space.now × (5 ≤ space.now.events) }
    requires desk { IsDeskOf space.now desk.old × HasInHand (view desk.old) sent_apart (4 ∷ []) None [] }
    ensures desk { IsSameDesk desk.old desk.new }
    ensures added { Owes (view desk.new) 4 (key second_object 1) }
{
    let letter = Letter {
        past: Vec::new(alloc),
    };
    space.link(desk, 4, SECOND, 1, letter);
    space.arm(desk, 4);
}

/// Both messages are added, and nothing is found for y.
fn leave_apart(
    alloc: Global,
    space: &Space<Letter>,
    desk: &mut Desk<Letter>,
    code: &Code,
) -> Result<(), Fail>
    requires table { IsPairTable true space.now × (5 ≤ space.now.events) × (code.now ≡ space_code space.now) }
    requires desk { IsDeskOf space.now desk.old × (view desk.old ≡ newcomer_first) }
    ensures desk { IsSameDesk desk.old desk.new }
{
    begun(space, desk, true)?;
    make_second(space, desk)?;
    send_x_apart(alloc, space, desk)?;
    send_y_apart(alloc, space, desk)?;
    add_x_apart(alloc, space, desk);
    add_y_apart(alloc, space, desk);
    match look_for(space, desk, code, 4, SECOND, 1) {
        (Finding::Left, _, _) => Ok(()),
        _ => Err(Fail::from("y is not left")),
    }
}

#[test]
fn desks_by_hand(rt: HostRuntime) -> Result<(), Fail> {
    let code = coded(rt.alloc(), false)?;
    let (space, mut first) = table(rt.alloc(), &code, false, 16)?;
    let (_, members, nexts) = play_to_loss(rt.alloc(), &space, &code, &mut first)?;
    fire_once(rt.alloc(), &space, &mut first, &code, &members, &nexts)?;
    Ok(())
}

#[test]
fn desks_by_hand_spent(rt: HostRuntime) -> Result<(), Fail> {
    let code = coded(rt.alloc(), false)?;
    let (space, mut first) = table(rt.alloc(), &code, false, 4)?;
    let (mut other, members, nexts) = play_to_loss(rt.alloc(), &space, &code, &mut first)?;
    spend(&space, &mut first, &code, &members, &nexts)?;
    find_pending_y(&space, &mut other)?;
    Ok(())
}

#[test]
fn spent(rt: HostRuntime) -> Result<(), Fail> {
    let code = coded(rt.alloc(), false)?;
    let (space, mut desk) = table(rt.alloc(), &code, false, 2)?;
    send_no_x(rt.alloc(), &space, &mut desk)?;
    assert!(rt; space.close(desk).drawn() == 2);
    Ok(())
}

#[test]
fn two_objects(rt: HostRuntime) -> Result<(), Fail> {
    let code = coded(rt.alloc(), true)?;
    let (space, mut desk) = table(rt.alloc(), &code, true, 16)?;
    leave_apart(rt.alloc(), &space, &mut desk, &code)?;
    match space.look_place(&mut desk, 4) {
        Some((object, method)) => assert!(rt;
            object.number == 2 && object.class == 0 && method == 1
        ),
        None => return Err(Fail::from("y has no place")),
    }
    assert!(rt; space.look_place(&mut desk, 1).is_none());
    Ok(())
}
