//! Firings are posted with their parcels, and started by whoever finds them ready.
ghost use Rattle.std.specs.Prelude.{◌≡◌, ◌≢◌, ◌⊎◌, ℕ, ◌<◌, None, Option, IfErr, IfOk};
ghost use Rattle.chord_rule.specs.Kinds.{posting, posted, firing_started, played, saw};
ghost use Rattle.chord_rule.specs.Coming.{ComesWithFiring};
ghost use Rattle.chord_word.specs.declared.cells.Cell.TheVariants.{Ready, Started};
ghost use Rattle.chord_rule.specs.Tells.{word, a_word};
ghost use Rattle.chord_space.specs.Desks.{view, space_code, space_limits, program_of, IsDeskOf, IsSameDesk};
ghost use Rattle.chord_space.specs.Gives.{MayPost};

use crate::plays::{GiveSlot, Governed, Post, Start, TakeSlot};
use crate::space::{Desk, Space};
use chord_code::carry::Carry;
use chord_word::{Cell, Word, pack, unpack_cell};
use std::marker::Brand;

/// The word of a firing's cell.
fn firing_word(cell: Cell) -> u64
    requires { (cell ≡ Ready) ⊎ (cell ≡ Started) }
    ensures { result ≡ word cell None }
{
    pack(&Word { cell, next: None })
}

impl<P: Carry> Space<P> {
    /// Firing f becomes ready, with a parcel that is given away with the entries that it keeps.
    ///
    /// Pairs with each `start` of this firing: who reads it Ready finds the parcel in its slot. The load takes the slot out.
    pub fn post(&self, desk: &mut Desk<P>, f: u32, parcel: P)
        requires desk { IsDeskOf self.now desk.old }
        requires bounds { f < self.now.events }
        requires post { MayPost (program_of self.now) (view desk.old) f (P.entries parcel) }
        requires task { P.keeps_to parcel (space_code self.now) (space_limits self.now) }
        ensures desk { IsSameDesk desk.old desk.new }
        ensures posted { view desk.new ≡ saw (posted (posting (view desk.old) f) (P.entries parcel)) f (a_word Ready None) }
    {
        let words = &self.table.shared;
        let cell = self.cell_word(f);
        words.load::<TakeSlot>(&mut desk.seat, cell);
        match words.exchange(&mut desk.seat, f as usize, Some(parcel)) {
            None => {}
            Some(_) => unreachable!(),
        }
        words.store::<Post<P>>(&mut desk.seat, cell, firing_word(Cell::Ready));
    }

    // Pairs with `post`. One exchange decides who plays the firing; the load gives its empty slot back.
    fn step_start<J: Governed>(&self, desk: &mut Desk<P>, f: u32) -> Result<P, Cell>
        requires governed { (J.parts ≡ space_code self.now) × (J.limits ≡ space_limits self.now) }
        requires desk { IsDeskOf self.now desk.old }
        requires bounds { f < self.now.events }
        ensures desk { IsSameDesk desk.old desk.new }
        ensures started { IfOk result (λ q. view desk.new ≡ played (saw (firing_started (view desk.old) f (P.entries q)) f (a_word Started None))) }
        ensures parcel { IfOk result (λ q. P.keeps_to q (space_code self.now) (space_limits self.now)) }
        ensures comes { IfOk result (λ q. ComesWithFiring (program_of self.now) (view desk.old).kept f (P.entries q)) }
        ensures refused { IfErr result (λ c. (c ≢ Ready) × ((next : Option ℕ) × (view desk.new ≡ saw (view desk.old) f (a_word c next)))) }
    {
        let words = &self.table.shared;
        let ready = firing_word(Cell::Ready);
        let cell = self.cell_word(f);
        let found = words.compare_exchange::<Start<P, J>>(
            &mut desk.seat,
            cell,
            ready,
            firing_word(Cell::Started),
        );
        if found == ready {
            let parcel = words.exchange(&mut desk.seat, f as usize, None);
            words.load::<GiveSlot>(&mut desk.seat, cell);
            return Ok(parcel.unwrap());
        }
        Err(unpack_cell(found).cell)
    }

    /// Starts firing f, whose parcel comes with its entries: the firing's own, and those of bodies that have ended or wait. Or gives
    /// the cell that the one exchange read, which is not Ready.
    pub fn start(&self, desk: &mut Desk<P>, f: u32) -> Result<P, Cell>
        requires desk { IsDeskOf self.now desk.old }
        requires bounds { f < self.now.events }
        ensures desk { IsSameDesk desk.old desk.new }
        ensures started { IfOk result (λ q. view desk.new ≡ played (saw (firing_started (view desk.old) f (P.entries q)) f (a_word Started None))) }
        ensures parcel { IfOk result (λ q. P.keeps_to q (space_code self.now) (space_limits self.now)) }
        ensures comes { IfOk result (λ q. ComesWithFiring (program_of self.now) (view desk.old).kept f (P.entries q)) }
        ensures refused { IfErr result (λ c. (c ≢ Ready) × ((next : Option ℕ) × (view desk.new ≡ saw (view desk.old) f (a_word c next)))) }
    {
        self.step_start::<Brand>(desk, f)
    }
}
