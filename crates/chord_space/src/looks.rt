//! Looks at the counter, at heads, at cells and at places, and duties that are laid down.
ghost use Rattle.std.specs.Prelude.{◌≡◌, ℕ, ◌<◌, ◌≤◌, Option, Some, IfSome, min};
ghost use Rattle.chord_base.specs.Story.{AllBelow};
ghost use Rattle.chord_rule.specs.declared.view.Claim.{Claim};
ghost use Rattle.chord_rule.specs.declared.view.Duty.{Duty};
ghost use Rattle.chord_rule.specs.Claims.{HasThe};
ghost use Rattle.chord_rule.specs.Duties.{HasDuty, MayRest};
ghost use Rattle.chord_rule.specs.Kinds.{saw_count, rested};
ghost use Rattle.chord_rule.specs.Made.{key, IsChord};
ghost use Rattle.chord_rule.specs.Moment.{Place};
ghost use Rattle.chord_rule.specs.Tells.{IsLook};
ghost use Rattle.chord_rule.specs.Ways.{HasLooksLeft};
ghost use Rattle.chord_space.specs.Desks.{view, heads, space_code, space_limits, program_of, IsDeskOf, IsSameDesk};
ghost use Rattle.chord_space.specs.Ruled.{LooksAtHead, LooksAtPlace};

use crate::plays::{Governed, Headed, LayDown, Resting, SeeCell, SeeCount, SeeHead, SeePlace};
use crate::space::{Desk, Space};
use chord_base::value::Object;
use chord_code::carry::Carry;
use chord_word::{Word, unpack_cell, unpack_head, unpack_place};
use std::marker::Brand;

/// The lesser of the counter and the limit.
pub(crate) fn at_most(count: u64, limit: u32) -> u32
    ensures { result ≡ min count limit }
{
    if count < limit as u64 {
        count as u32
    } else {
        limit
    }
}

impl<P: Carry> Space<P> {
    /// How many numbers were given: the lesser of the limit and of the counter, which one load reads. The counter is above each number
    /// that the desk keeps, and no less than what the desk last read or wrote of it.
    pub fn look_count(&self, desk: &mut Desk<P>) -> u32
        requires desk { IsDeskOf self.now desk.old }
        ensures desk { IsSameDesk desk.old desk.new }
        ensures looked { (c : ℕ) × (result ≡ min c self.now.events) × (view desk.new ≡ saw_count (view desk.old) c) × AllBelow c (view desk.old).kept × ((b : ℕ) → (view desk.old).looked.count ≡ Some b → b ≤ c) }
    {
        let found = self.table.shared.load::<SeeCount>(&mut desk.seat, 0);
        at_most(found, self.events)
    }

    fn step_look_head<J: Headed>(
        &self,
        desk: &mut Desk<P>,
        object: Object,
        method: u8,
    ) -> Option<u32>
        requires address { (J.object ≡ object) × (J.method ≡ method) × (J.parts ≡ space_code self.now) × (J.limits ≡ space_limits self.now) }
        requires desk { IsDeskOf self.now desk.old }
        requires bounds { (object.number < self.now.events) × (object.class < 1024) × (method < heads self.now) }
        ensures desk { IsSameDesk desk.old desk.new }
        ensures looked { LooksAtHead P.entries P.arguments P.keeps_to (space_code self.now) (space_limits self.now) (view desk.old) (view desk.new) (key object method) result }
        ensures room { HasLooksLeft self.now.events (view desk.new).looked.ways }
    {
        let head = self.head_word(object, method);
        let found = self.table.shared.load::<SeeHead<J>>(&mut desk.seat, head);
        unpack_head(found)
    }

    /// The message at the head of the bag of this object and method, None exactly where the bag's head is 0. The walks of the
    /// desk's duties in this bag begin there, and so does the newest way, which knows the messages that had been linked in the bag
    /// at the moment of the look.
    ///
    /// Pairs with the swap of `link`: the place words of those messages are set by then.
    pub fn look_head(&self, desk: &mut Desk<P>, object: Object, method: u8) -> Option<u32>
        requires desk { IsDeskOf self.now desk.old }
        requires bounds { (object.number < self.now.events) × (object.class < 1024) × (method < heads self.now) }
        ensures desk { IsSameDesk desk.old desk.new }
        ensures looked { LooksAtHead P.entries P.arguments P.keeps_to (space_code self.now) (space_limits self.now) (view desk.old) (view desk.new) (key object method) result }
        ensures room { HasLooksLeft self.now.events (view desk.new).looked.ways }
    {
        self.step_look_head::<Brand>(desk, object, method)
    }

    /// The word of cell i. Walks that have come to i move on where it is consumed or woken, the desk's duty on i is then off, and
    /// the newest way goes on if it has come to i.
    ///
    /// Pairs with the stores of this cell: who reads it Pending or Ready finds the parcel in the slot.
    pub fn look_cell(&self, desk: &mut Desk<P>, i: u32) -> Word
        requires desk { IsDeskOf self.now desk.old }
        requires bounds { i < self.now.events }
        ensures desk { IsSameDesk desk.old desk.new }
        ensures looked { IsLook self.now.events (view desk.old) (view desk.new) i result }
    {
        let found = self
            .table
            .shared
            .load::<SeeCell>(&mut desk.seat, self.cell_word(i));
        unpack_cell(found)
    }

    fn step_look_place<J: Governed>(&self, desk: &mut Desk<P>, i: u32) -> Option<(Object, u8)>
        requires governed { (J.parts ≡ space_code self.now) × (J.limits ≡ space_limits self.now) }
        requires desk { IsDeskOf self.now desk.old }
        requires bounds { i < self.now.events }
        ensures desk { IsSameDesk desk.old desk.new × (view desk.new ≡ view desk.old) }
        ensures looked { LooksAtPlace P.entries P.arguments P.keeps_to (space_code self.now) (space_limits self.now) (view desk.old) i result }
        ensures within { IfSome result (λ p. (p.0.number < self.now.events) × (p.0.class < 1024) × (p.1 < 16)) }
        ensures duty { (d : Duty) → HasDuty d (view desk.old).duties → d.message ≡ i → (p : Place) × (result ≡ Some p) × (d.bag ≡ key p.0 p.1) }
        ensures claim { (c : Claim) → HasThe c (view desk.old).claims → c.number ≡ i → result ≡ Some (c.object, c.method) }
    {
        let found = self
            .table
            .shared
            .load::<SeePlace<J>>(&mut desk.seat, self.place_word(i));
        unpack_place(found)
    }

    /// The object and the method of message i, None exactly where the place word that the one load reads is 0: it stood there at
    /// that moment, and what it shows is the object and the method to which the journal has the message. A message on which the
    /// desk has a duty or a claim has a place.
    pub fn look_place(&self, desk: &mut Desk<P>, i: u32) -> Option<(Object, u8)>
        requires desk { IsDeskOf self.now desk.old }
        requires bounds { i < self.now.events }
        ensures desk { IsSameDesk desk.old desk.new × (view desk.new ≡ view desk.old) }
        ensures looked { LooksAtPlace P.entries P.arguments P.keeps_to (space_code self.now) (space_limits self.now) (view desk.old) i result }
        ensures within { IfSome result (λ p. (p.0.number < self.now.events) × (p.0.class < 1024) × (p.1 < 16)) }
        ensures duty { (d : Duty) → HasDuty d (view desk.old).duties → d.message ≡ i → (p : Place) × (result ≡ Some p) × (d.bag ≡ key p.0 p.1) }
        ensures claim { (c : Claim) → HasThe c (view desk.old).claims → c.number ≡ i → result ≡ Some (c.object, c.method) }
    {
        self.step_look_place::<Brand>(desk, i)
    }

    fn step_rest<J: Resting>(&self, desk: &mut Desk<P>, m: u32)
        requires message { J.message ≡ m }
        requires desk { IsDeskOf self.now desk.old }
        requires may { (d : Duty) × HasDuty d (view desk.old).duties × (d.message ≡ m) × ((e : Duty) → HasDuty e (view desk.old).duties → e.message ≡ m → e.bag ≡ d.bag → MayRest (IsChord (program_of self.now)) e) }
        ensures desk { IsSameDesk desk.old desk.new × (view desk.new ≡ rested (view desk.old) m) }
    {
        // a load of any word would do: number 0 is no message, and nobody writes its place word
        let quiet = self.place_word(0);
        self.table.shared.load::<LayDown<J>>(&mut desk.seat, quiet);
    }

    /// Lays down the duty on m: it is off, or for each chord with m's method the walk in the bag of another of its methods is at
    /// its end. The one step is a load.
    pub fn rest(&self, desk: &mut Desk<P>, m: u32)
        requires desk { IsDeskOf self.now desk.old }
        requires may { (d : Duty) × HasDuty d (view desk.old).duties × (d.message ≡ m) × ((e : Duty) → HasDuty e (view desk.old).duties → e.message ≡ m → e.bag ≡ d.bag → MayRest (IsChord (program_of self.now)) e) }
        ensures desk { IsSameDesk desk.old desk.new × (view desk.new ≡ rested (view desk.old) m) }
    {
        self.step_rest::<Brand>(desk, m);
    }
}
