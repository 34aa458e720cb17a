//! Messages are added to their bags: first linked, with their parcels, and then armed.
ghost use Rattle.std.specs.Prelude.{◌≡◌, ℕ, ◌<◌, Some, Option};
ghost use Rattle.chord_rule.specs.Kinds.{address_set, flown, armed, saw, saw_head};
ghost use Rattle.chord_rule.specs.Tells.{a_word};
ghost use Rattle.chord_word.specs.declared.cells.Cell.TheVariants.{Pending};
ghost use Rattle.chord_rule.specs.Bags.{head_number};
ghost use Rattle.chord_rule.specs.Made.{key};
ghost use Rattle.chord_space.specs.Desks.{view, heads, space_code, space_limits, program_of, IsDeskOf, IsSameDesk};
ghost use Rattle.chord_space.specs.Gives.{MayLink};

use crate::plays::{Addressed, Arm, Link, Set};
use crate::space::{Desk, Space};
use chord_base::value::Object;
use chord_code::carry::Carry;
use chord_word::{Cell, Word, pack, pack_head, pack_place, unpack_head};
use std::marker::Brand;

impl<P: Carry> Space<P> {
    // Two steps, with the parcel put into its slot between them. The first sets the place word: a look at the place reads 0
    // before. The second pairs with each look at the head of the bag: who reads the message there reads its place too.
    fn step_link<J: Addressed>(
        &self,
        desk: &mut Desk<P>,
        m: u32,
        object: Object,
        method: u8,
        parcel: P,
    )
        requires address { (J.object ≡ object) × (J.method ≡ method) }
        requires desk { IsDeskOf self.now desk.old }
        requires bounds { (m < self.now.events) × (object.number < self.now.events) × (object.class < 1024) × (method < heads self.now) }
        requires link { MayLink (program_of self.now) (view desk.old) m object method (P.entries parcel) (P.arguments parcel) }
        requires task { P.keeps_to parcel (space_code self.now) (space_limits self.now) }
        ensures desk { IsSameDesk desk.old desk.new }
        ensures linked { (above : Option ℕ) × (view desk.new ≡ saw_head (flown (address_set (view desk.old) m) m (key object method) above (P.entries parcel)) (head_number (key object method)) (Some m)) }
    {
        let words = &self.table.shared;
        words.store::<Set>(
            &mut desk.seat,
            self.place_word(m),
            pack_place(object, method),
        );
        match words.exchange(&mut desk.seat, m as usize, Some(parcel)) {
            None => {}
            Some(_) => unreachable!(),
        }
        let head = self.head_word(object, method);
        desk.above = words.swap::<Link<P, J>>(&mut desk.seat, head, pack_head(Some(m)));
    }

    /// Adds message m to the bag of its object and method, and gives its parcel away with the entries that it keeps. The message
    /// is in flight until it is armed.
    pub fn link(&self, desk: &mut Desk<P>, m: u32, object: Object, method: u8, parcel: P)
        requires desk { IsDeskOf self.now desk.old }
        requires bounds { (m < self.now.events) × (object.number < self.now.events) × (object.class < 1024) × (method < heads self.now) }
        requires link { MayLink (program_of self.now) (view desk.old) m object method (P.entries parcel) (P.arguments parcel) }
        requires task { P.keeps_to parcel (space_code self.now) (space_limits self.now) }
        ensures desk { IsSameDesk desk.old desk.new }
        ensures linked { (above : Option ℕ) × (view desk.new ≡ saw_head (flown (address_set (view desk.old) m) m (key object method) above (P.entries parcel)) (head_number (key object method)) (Some m)) }
    {
        self.step_link::<Brand>(desk, m, object, method, parcel);
    }
    /// The message in flight becomes pending, and the desk has a duty on it.
    ///
    /// Pairs with each look at and each claim of this cell: who reads it Pending finds the parcel that `link` put in its slot.
    pub fn arm(&self, desk: &mut Desk<P>, m: u32)
        requires desk { IsDeskOf self.now desk.old }
        requires flight { ((view desk.old).flight ≡ Some m) × (m < self.now.events) }
        ensures desk { IsSameDesk desk.old desk.new }
        ensures armed { view desk.new ≡ saw (armed (view desk.old) m) m (a_word Pending (view desk.old).above) }
    {
        let word = pack(&Word {
            cell: Cell::Pending,
            next: unpack_head(desk.above),
        });
        self.table
            .shared
            .store::<Arm>(&mut desk.seat, self.cell_word(m), word);
        desk.above = 0;
    }
}
