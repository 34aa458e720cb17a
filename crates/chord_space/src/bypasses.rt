//! Consumed messages leave a bag: its head, or the next of a consumed message, is moved past them.
ghost use Rattle.std.specs.Prelude.{◌≡◌, ◌≢◌, ℕ, ◌<◌, true, false, Option, Some, IfSome};
ghost use Rattle.chord_rule.specs.Bags.{head_number};
ghost use Rattle.chord_rule.specs.Kinds.{saw, saw_head};
ghost use Rattle.chord_rule.specs.Looks.{LastHead};
ghost use Rattle.chord_rule.specs.Made.{key};
ghost use Rattle.chord_rule.specs.Tells.{a_word};
ghost use Rattle.chord_rule.specs.Ways.{LastSeen, WentPast};
ghost use Rattle.chord_word.specs.declared.cells.Cell.TheVariants.{Consumed};
ghost use Rattle.chord_word.specs.declared.cells.Word.{Word};
ghost use Rattle.chord_space.specs.Bypasses.{IsPointerBelow, LastPointed, MayBypass, pointed, PointsElsewhere};
ghost use Rattle.chord_space.specs.Desks.{view, heads, IsDeskOf, IsSameDesk};

use crate::claims::message_word;
use crate::plays::{Addressed, MoveHead, MoveNext};
use crate::space::{Desk, Space};
use chord_base::value::Object;
use chord_code::carry::Carry;
use chord_word::{Cell, pack_head};
use std::marker::Brand;

/// What points to a message of a bag.
#[derive(Clone, Copy, Drop)]
pub enum Pointer {
    /// The head of the bag of this object and method.
    Head(Object, u8),
    /// The next of this message.
    Next(u32),
}

impl<P: Carry> Space<P> {
    fn step_bypass_head<J: Addressed>(
        &self,
        desk: &mut Desk<P>,
        object: Object,
        method: u8,
        from: u32,
        to: Option<u32>,
    ) -> bool
        requires address { (J.object ≡ object) × (J.method ≡ method) }
        requires desk { IsDeskOf self.now desk.old }
        requires bounds { (object.number < self.now.events) × (method < heads self.now) × IfSome to (λ x. x < self.now.events) }
        requires past { WentPast (view desk.old) from to }
        ensures desk { IsSameDesk desk.old desk.new }
        ensures moved { result ≡ true → view desk.new ≡ saw_head (view desk.old) (head_number (key object method)) to }
        ensures refused { result ≡ false → (h : Option ℕ) × (h ≢ Some from) × (view desk.new ≡ saw_head (view desk.old) (head_number (key object method)) h) }
        ensures alone { (view desk.old).first ≡ true → (view desk.old).lent ≡ 0 → LastHead (head_number (key object method)) (Some from) (view desk.old).looked.heads → result ≡ true }
    {
        let words = &self.table.shared;
        let head = self.head_word(object, method);
        let first = pack_head(Some(from));
        let last = pack_head(to);
        let found = words.compare_exchange::<MoveHead<J>>(&mut desk.seat, head, first, last);
        found == first
    }

    fn bypass_head(
        &self,
        desk: &mut Desk<P>,
        object: Object,
        method: u8,
        from: u32,
        to: Option<u32>,
    ) -> bool
        requires desk { IsDeskOf self.now desk.old }
        requires bounds { (object.number < self.now.events) × (method < heads self.now) × IfSome to (λ x. x < self.now.events) }
        requires past { WentPast (view desk.old) from to }
        ensures desk { IsSameDesk desk.old desk.new }
        ensures moved { result ≡ true → view desk.new ≡ saw_head (view desk.old) (head_number (key object method)) to }
        ensures refused { result ≡ false → (h : Option ℕ) × (h ≢ Some from) × (view desk.new ≡ saw_head (view desk.old) (head_number (key object method)) h) }
        ensures alone { (view desk.old).first ≡ true → (view desk.old).lent ≡ 0 → LastHead (head_number (key object method)) (Some from) (view desk.old).looked.heads → result ≡ true }
    {
        self.step_bypass_head::<Brand>(desk, object, method, from, to)
    }

    fn bypass_next(&self, desk: &mut Desk<P>, i: u32, from: Option<u32>, to: Option<u32>) -> bool
        requires desk { IsDeskOf self.now desk.old }
        requires bounds { (i < self.now.events) × IfSome from (λ x. x < self.now.events) × IfSome to (λ x. x < self.now.events) }
        requires past { WentPast (view desk.old) i to }
        ensures desk { IsSameDesk desk.old desk.new }
        ensures moved { result ≡ true → view desk.new ≡ saw (view desk.old) i (a_word Consumed to) }
        ensures refused { result ≡ false → (c : Word) × (c ≢ a_word Consumed from) × (view desk.new ≡ saw (view desk.old) i c) }
        ensures alone { (view desk.old).first ≡ true → (view desk.old).lent ≡ 0 → LastSeen i (a_word Consumed from) (view desk.old).looked.seen → result ≡ true }
    {
        let words = &self.table.shared;
        let first = message_word(Cell::Consumed, from);
        let last = message_word(Cell::Consumed, to);
        let found = words.compare_exchange::<MoveNext>(
            &mut desk.seat,
            self.cell_word(i),
            first,
            last,
        );
        found == first
    }

    /// Moves a head, or the next of a consumed message, from `from` to `to`, past consumed messages: the desk went a way on which
    /// it read consumed the message of this next, or the message `from` at the head, and each that followed before `to`, where that
    /// way led. It is false exactly where the one exchange read another head or word of the cell; on a first desk that has lent none
    /// it is true where the desk last read or wrote `from` there.
    ///
    /// Pairs with `link` at a head, and with every other bypass: who looks there afterwards does not meet what was bypassed, and
    /// misses nothing (`laws::ways_miss_none`).
    pub fn bypass(
        &self,
        desk: &mut Desk<P>,
        at: Pointer,
        from: Option<u32>,
        to: Option<u32>,
    ) -> bool
        requires desk { IsDeskOf self.now desk.old }
        requires bounds { IsPointerBelow self.now.events (heads self.now) at × IfSome from (λ x. x < self.now.events) × IfSome to (λ x. x < self.now.events) }
        requires past { MayBypass (view desk.old) at from to }
        ensures desk { IsSameDesk desk.old desk.new }
        ensures moved { result ≡ true → view desk.new ≡ pointed (view desk.old) at to }
        ensures refused { result ≡ false → PointsElsewhere (view desk.old) (view desk.new) at from }
        ensures alone { (view desk.old).first ≡ true → (view desk.old).lent ≡ 0 → LastPointed (view desk.old) at from → result ≡ true }
    {
        match at {
            Pointer::Head(object, method) => match from {
                Some(first) => self.bypass_head(desk, object, method, first, to),
                None => unreachable!(),
            },
            Pointer::Next(i) => self.bypass_next(desk, i, from, to),
        }
    }
}
