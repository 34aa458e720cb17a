//! A chord is fired: its messages are claimed, the firing is drawn, and their parcels are handed out.
ghost use Rattle.std.specs.Prelude.{◌≡◌, ℕ, ◌+◌, ◌<◌, ◌≤◌, false, List, [], ◌∷◌, ◌++◌, length, IfOk, IfErr};
ghost use Rattle.chord_base.specs.declared.value.Value as value;
ghost use Rattle.chord_space.specs.Desks.{view, space_code, space_limits, program_of, IsDeskOf, IsSameDesk};
ghost use Rattle.chord_match.specs.Consuming.{Consuming, Handed};
ghost use Rattle.chord_match.specs.Fires.{IsFired, IsMissedBy, IsFireAnswer};
ghost use Rattle.chord_match.specs.Seen.{AreSeen};

use crate::claiming::{Missed, take_members};
use crate::nexts::Nexts;
use chord_base::hand::Hand;
use chord_base::members::Members;
use chord_base::value::Object;
use chord_code::carry::Carry;
use chord_code::code::Code;
use chord_code::laws::chords_are_right;
use chord_space::{Desk, Space};
use std::mem;

/// What came of a chord that was to be fired.
#[derive(Drop)]
pub enum Firing<P> {
    /// The firing's number, and the parcels of its members in header order.
    Fired(u32, Hand<P>),
    /// This member was not pending when the desk last looked at it.
    Lost(u32),
    /// The counter had reached the limit on events.
    Spent,
}

/// Whom the parcels of a firing are handed to, one after another in header order.
pub trait Receive<P> {
    /// It holds these parcels.
    ghost holds: { Self → List P → Type 0 };

    /// One parcel more.
    fn receive(&mut self, parcel: P)
        requires room { (qs : List P) × holds self.old qs × (length qs < 8) }
        ensures received { (qs : List P) → holds self.old qs → holds self.new (qs ++ parcel ∷ []) };
}

impl<P: Drop> Receive<P> for Hand<P> {
    ghost holds = { λ hand qs. hand ≡ qs };

    fn receive(&mut self, parcel: P) {
        self.put(parcel);
    }
}

// Takes the parcels of these members.
fn hand_out<P: Carry + Drop, H: Receive<P>>(
    space: &Space<P>,
    desk: &mut Desk<P>,
    members: &[u16],
    hand: &mut H,
)
    requires desk { IsDeskOf space.now desk.old }
    requires consuming { (o : Object) × (js : List ℕ) × (f : ℕ) × (us : List value.Value) × Consuming space.now.events (view desk.old) o js members.now f us }
    requires room { (ps : List P) × H.holds hand.old ps × (length ps + length members.now ≤ 8) }
    ensures desk { IsSameDesk desk.old desk.new }
    ensures handed { (ps : List P) (o : Object) (js : List ℕ) (f : ℕ) (us : List value.Value) → H.holds hand.old ps → Consuming space.now.events (view desk.old) o js members.now f us
        → (qs : List P) × H.holds hand.new (ps ++ qs) × Handed P.entries P.arguments (λ q. P.keeps_to q (space_code space.now) (space_limits space.now)) (program_of space.now) (view desk.old) (view desk.new) o js members.now f us qs }
{
    if let Some((i, rest)) = members.split_first() {
        let parcel = space.consume(desk, *i as u32);
        hand.receive(parcel);
        hand_out(space, desk, rest, hand);
    }
}

/// Forgets a hand that is empty, so that nothing is looked for to drop.
fn lay_aside<P: Drop>(hand: Hand<P>)
    requires { hand ≡ [] }
{
    mem::forget(hand);
}

/// Fires the chord with these messages, which the desk saw pending in the bags of its methods: claims them in header order, draws
/// the firing, and takes their parcels in that order, or claims nothing and fires nothing. Each member is claimed once, and the
/// first that is not pending is the last one that is tried. Fired: the desk keeps the firing's entry, whose values are those of the
/// parcels laid together, and what the parcels keep; it has no claim, and its duties on the members are gone. `Lost(i)`: member i
/// was not pending when the desk last looked at it, which it did in this call; one that it claimed itself was pending then, since
/// it gave it back. `Spent`: the counter had reached the limit on events. Of both it has no claim afterwards, and is as it was but
/// for what it read and wrote; so members that it saw it has seen, and it may fire the chord again. On a first desk that has lent
/// none it is never Lost where the desk last read or wrote all members pending.
///
/// Claiming all messages of a chord one after another, and giving the claims back where one is gone, is from Turon and Russo,
/// "Scalable Join Patterns" (OOPSLA 2011).
pub fn fire<P: Carry + Drop>(
    space: &Space<P>,
    desk: &mut Desk<P>,
    code: &Code,
    object: Object,
    chord: u16,
    members: &Members,
    nexts: &Nexts,
) -> Firing<P>
    requires desk { IsDeskOf space.now desk.old }
    requires code { code.now ≡ space_code space.now }
    requires bounds { (object.number < space.now.events) × (object.class < 1024) }
    requires room { (view desk.old).spent ≡ false }
    requires free { (view desk.old).claims ≡ [] }
    requires seen { AreSeen space.now.events (program_of space.now) (view desk.old) object chord members.now nexts.now }
    ensures desk { IsSameDesk desk.old desk.new }
    ensures firing { IsFireAnswer P.entries P.arguments (λ q. P.keeps_to q (space_code space.now) (space_limits space.now)) (program_of space.now) space.now.events (view desk.old) (view desk.new) object chord members.now nexts.now result }
{
    let mut hand = Hand::new();
    match fire_to(space, desk, code, object, chord, members, nexts, &mut hand) {
        Ok(number) => Firing::Fired(number, hand),
        Err(Missed::Lost(i)) => {
            lay_aside(hand);
            Firing::Lost(i)
        }
        Err(Missed::Spent) => {
            lay_aside(hand);
            Firing::Spent
        }
    }
}

/// As `fire`, but the parcels go to whom the caller says, so that a hand of them is not moved from function to function.
pub fn fire_to<P: Carry + Drop, H: Receive<P>>(
    space: &Space<P>,
    desk: &mut Desk<P>,
    code: &Code,
    object: Object,
    chord: u16,
    members: &Members,
    nexts: &Nexts,
    hand: &mut H,
) -> Result<u32, Missed>
    requires desk { IsDeskOf space.now desk.old }
    requires code { code.now ≡ space_code space.now }
    requires bounds { (object.number < space.now.events) × (object.class < 1024) }
    requires room { (view desk.old).spent ≡ false }
    requires free { (view desk.old).claims ≡ [] }
    requires seen { AreSeen space.now.events (program_of space.now) (view desk.old) object chord members.now nexts.now }
    requires empty { H.holds hand.old [] }
    ensures desk { IsSameDesk desk.old desk.new }
    ensures fired { IfOk result (λ f. (qs : List P) × H.holds hand.new qs × IsFired P.entries P.arguments (λ q. P.keeps_to q (space_code space.now) (space_limits space.now)) (program_of space.now) space.now.events (view desk.old) (view desk.new) object chord members.now f qs) }
    ensures same { IfErr result (λ _. hand.new ≡ hand.old) }
    ensures missed { IfErr result (λ x. IsMissedBy space.now.events (view desk.old) (view desk.new) members.now nexts.now x) }
{
    chords_are_right(code);
    match take_members(space, desk, object, chord, members, nexts) {
        Ok(number) => {
            hand_out(space, desk, members.items(), hand);
            Ok(number)
        }
        Err(missed) => Err(missed),
    }
}
