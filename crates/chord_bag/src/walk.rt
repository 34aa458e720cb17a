//! A message that can be claimed is looked for in one bag.
ghost use Rattle.std.specs.Prelude.{◌≡◌, ℕ, ◌<◌, true, Option, Some, None, IfSome};
ghost use Rattle.chord_rule.specs.Bags.{head_number};
ghost use Rattle.chord_rule.specs.Kinds.{saw_head};
ghost use Rattle.chord_rule.specs.Looks.{LastHead};
ghost use Rattle.chord_rule.specs.Made.{key};
ghost use Rattle.chord_rule.specs.Ways.{IsAloneDesk, WentPast};
ghost use Rattle.chord_space.specs.Desks.{view, heads, IsDeskOf, IsSameDesk};
ghost use Rattle.chord_bag.specs.Seeking.{IsSought, BeganAtHead, IsTidy, KeepsHeads};
ghost use Rattle.chord_bag.specs.Walking.{IsTurn};

use chord_base::value::Object;
use chord_code::carry::Carry;
use chord_space::{Desk, Pointer, Space};
use chord_word::Cell;

/// What a walk through a bag came to.
#[derive(Clone, Copy, Debug, PartialEq, Eq, Drop)]
pub enum Sought {
    /// A message that was pending, with its next as it was read.
    Found(u32, Option<u32>),
    /// Each message on the whole way was consumed or woken.
    Bare,
    /// No message on the way was pending, and this one is in another desk's hand: it is not armed yet, or it is claimed.
    Busy(u32),
}

/// What comes after a look: the walk is over; or it goes on at this place, and this message was read claimed on the way; or it
/// goes on at this place, past a consumed message.
#[derive(Drop)]
enum Turn {
    Over(Sought),
    On(Option<u32>, Option<u32>),
    Past(Option<u32>),
}

// One look, at the message to which the walk has come. A claimed message may be given back, so a walk that finds no pending
// one tells of it; behind a message that is not armed nothing can be read.
fn look_on<P: Carry>(space: &Space<P>, desk: &mut Desk<P>, i: u32, busy: Option<u32>) -> Turn
    requires desk { IsDeskOf space.now desk.old }
    requires bounds { i < space.now.events }
    ensures desk { IsSameDesk desk.old desk.new }
    ensures turned { IsTurn space.now.events (view desk.old) (view desk.new) i busy result }
{
    let word = space.look_cell(desk, i);
    match word.cell {
        Cell::Pending => Turn::Over(Sought::Found(i, word.next)),
        Cell::Empty => Turn::Over(Sought::Busy(i)),
        Cell::Claimed => Turn::On(word.next, Some(i)),
        Cell::Consumed => Turn::Past(word.next),
        _ => Turn::On(word.next, busy),
    }
}

// Moves the head of the bag past message i, which the newest way read consumed, to the next that it read there; whether i was
// at the head.
fn tidy<P: Carry>(
    space: &Space<P>,
    desk: &mut Desk<P>,
    object: Object,
    method: u8,
    i: u32,
    next: Option<u32>,
) -> bool
    requires desk { IsDeskOf space.now desk.old }
    requires bounds { (object.number < space.now.events) × (object.class < 1024) × (method < heads space.now) × (i < space.now.events) × IfSome next (λ x. x < space.now.events) }
    requires past { WentPast (view desk.old) i next }
    ensures desk { IsSameDesk desk.old desk.new }
    ensures looked { (head : Option ℕ) × (view desk.new ≡ saw_head (view desk.old) (head_number (key object method)) head) }
    ensures alone { IsAloneDesk (view desk.old) → LastHead (head_number (key object method)) (Some i) (view desk.old).looked.heads → (result ≡ true) × LastHead (head_number (key object method)) next (view desk.new).looked.heads }
{
    space.bypass(desk, Pointer::Head(object, method), Some(i), next)
}

/// Goes through the bag of this object and method, from its head over the nexts, to the first message that is pending, or that
/// is not armed; a bag's messages are all different, so the walk ends. Consumed messages that it meets at the head leave the bag,
/// so that no later walk meets them. The one way that it went tells its answer. On a first desk that has lent none and has nothing
/// in hand it is never Busy, and the bag's head then leads nowhere, or to a message that the way read and that is not consumed. On
/// a desk without a claim, what was read claimed is claimed by another. The heads of other bags are left as they were last read.
/// Heads are read or written once at the walk's begin, and once more a look at the most.
///
/// The way knows the messages that had been linked in the bag when its head was read. Bare, or Busy with a claimed message, the
/// way went to the bag's end, and so each of these was looked at on it or is consumed (`chord_space::laws::ways_miss_none`).
///
/// Messages of one kind in a bag of their own, claimed by an exchange where they stand, are from Turon and Russo, "Scalable Join
/// Patterns" (OOPSLA 2011); there the bag is a queue that is walked in the same way.
#[inline(always)]
pub fn seek<P: Carry>(space: &Space<P>, desk: &mut Desk<P>, object: Object, method: u8) -> Sought
    requires desk { IsDeskOf space.now desk.old }
    requires bounds { (object.number < space.now.events) × (object.class < 1024) × (method < heads space.now) }
    ensures desk { IsSameDesk desk.old desk.new }
    ensures sought { IsSought space.now.events (key object method) (view desk.old) (view desk.new) result }
    ensures began { BeganAtHead P.entries P.arguments P.keeps_to space.now (view desk.old) (view desk.new) (key object method) }
    ensures tidy { IsAloneDesk (view desk.old) → IsTidy (key object method) (view desk.new) }
    ensures other_heads { KeepsHeads (key object method) (view desk.old) (view desk.new) }
{
    let mut place = space.look_head(desk, object, method);
    let mut busy = None;
    let mut at_head = true;
    while let Some(i) = place {
        match look_on(space, desk, i, busy) {
            Turn::Over(sought) => return sought,
            Turn::On(next, claimed) => {
                place = next;
                busy = claimed;
                at_head = false;
            }
            Turn::Past(next) => {
                place = next;
                if at_head {
                    at_head = tidy(space, desk, object, method, i, next);
                }
            }
        }
    }
    match busy {
        Some(i) => Sought::Busy(i),
        None => Sought::Bare,
    }
}
