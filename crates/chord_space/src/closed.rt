//! A table is closed by the first desk once it is alone; its parcels are taken, and its memory is given back.
ghost use Rattle.std.specs.Prelude.{◌≡◌, ◌<◌, true, [], Some, None, slice_get, slice_set};
ghost use Rattle.chord_space.specs.Sealed.{AllFilled, slots_filled, slot_count};

use crate::looks::at_most;
use crate::space::{Desk, Space};
use atomic_table::Closed as Slots;
use chord_code::carry::Carry;
use std::alloc::Global;
use std::snapshot::Snapshot;

/// A closed table: how many entries its run has, the parcels that are at home, and what the desk that closed it knew.
pub struct Closed<P> {
    pub(crate) slots: Option<Slots<Option<P>, Global>>,
    pub(crate) drawn: u32,
    pub(crate) events: u32,
    pub(crate) closing: Snapshot<Desk<P>>,
    ghost full: { AllFilled (slots_filled slots) (slot_count slots) },
    ghost long: { slot_count slots ≡ events },
}

/// Takes the parcel of slot i, None exactly where none is. The slot is full as before.
fn take_parcel<P>(slots: &mut Slots<Option<P>, Global>, i: usize) -> Option<P>
    requires full { AllFilled slots.old.slots.filled slots.old.slots.len }
    requires bounds { i < slots.old.slots.len }
    ensures parcel { slice_get slots.old.slots.items i ≡ Some result }
    ensures taken { slots.new.slots.items ≡ slice_set slots.old.slots.items i None }
    ensures full { AllFilled slots.new.slots.filled slots.new.slots.len }
    ensures long { slots.new.slots.len ≡ slots.old.slots.len }
{
    // most parcels have left by then, and a slot is large to move
    if slots.slots.get(i).is_none() {
        return None;
    }
    let parcel = slots.take(i);
    slots.slots.put(i, None);
    parcel
}

/// Drops what the slots hold, and gives their memory back.
fn free<P: Drop>(slots: Slots<Option<P>, Global>)
    requires { AllFilled slots.slots.filled slots.slots.len }
{
    let mut slots = slots;
    let mut i = 0;
    while i < slots.slot_count() {
        drop(slots.take(i));
        i += 1;
    }
    slots.free();
}

impl<P: Carry> Space<P> {
    ghost use Rattle.chord_space.specs.Desks.{view, space_code, space_limits, IsDeskOf};
    ghost use Rattle.chord_space.specs.Sealed.{IsSealed};
    ghost use Rattle.chord_space.specs.Ends.{parcels, closing_view};

    /// Closes the table with its first desk, which has lent none, has no claim and nothing in flight. What is closed is the last
    /// moment of the run under the whole rule. The journal is complete where `Begun` was drawn, the desk has no duty and no message that
    /// is not armed, no cell is woken or ready, and each body that it kept has ended or waits. The desk knows that of the cells where
    /// it looked at each of them, and none was.
    pub fn close(self, desk: Desk<P>) -> Closed<P>
        requires desk { IsDeskOf self desk }
        requires alone { ((view desk).first ≡ true) × ((view desk).lent ≡ 0) }
        requires idle { ((view desk).claims ≡ []) × ((view desk).flight ≡ None) }
        ensures sealed { IsSealed P.entries P.arguments P.keeps_to (space_code self) (space_limits self) desk.seat.id (view desk) (parcels result) result.drawn }
        ensures view { closing_view result ≡ view desk }
        ensures events { result.events ≡ self.events }
    {
        let closing = Snapshot::of(&desk);
        let Space {
            table,
            events,
            heads: _,
        } = self;
        let Desk { seat, above: _ } = desk;
        let slots = table.close_with(seat);
        let drawn = at_most(slots.word(0), events);
        Closed {
            slots: Some(slots),
            drawn,
            events,
            closing,
        }
    }
}

impl<P> Closed<P> {
    ghost use Rattle.chord_space.specs.Ends.{parcels, closing_view};

    /// How many entries the run has.
    pub fn drawn(&self) -> u32
        ensures { result ≡ self.now.drawn }
    {
        self.drawn
    }

    /// Takes the parcel of number i that is at home, None exactly where none is.
    pub fn parcel(&mut self, i: u32) -> Option<P>
        requires { i < self.old.events }
        ensures parcel { slice_get (parcels self.old) i ≡ Some result }
        ensures taken { parcels self.new ≡ slice_set (parcels self.old) i None }
        ensures rest { (self.new.drawn ≡ self.old.drawn) × (self.new.events ≡ self.old.events) × (closing_view self.new ≡ closing_view self.old) }
    {
        match &mut self.slots {
            None => unreachable!(),
            Some(slots) => take_parcel(slots, i as usize),
        }
    }
}

impl<P: Drop> Closed<P> {
    ghost use Rattle.chord_space.specs.Ends.{parcels, closing_view};

    /// Drops the parcels that are left, and gives the memory of the table back: what is made next may lie there, in place of memory
    /// that the system has to clear. How many entries the run has, and what the desk that closed the table knew, stay.
    pub fn release(&mut self)
        ensures parcels { parcels self.new ≡ [] }
        ensures rest { (self.new.drawn ≡ self.old.drawn) × (self.new.events ≡ 0) × (closing_view self.new ≡ closing_view self.old) }
    {
        let slots = self.slots.take();
        self.events = 0;
        if let Some(slots) = slots {
            free(slots);
        }
    }
}

impl<P: Drop> Drop for Closed<P> {
    fn drop(self) {
        let Closed {
            slots,
            drawn: _,
            events: _,
            closing: _,
        } = self;
        if let Some(slots) = slots {
            free(slots);
        }
    }
}
