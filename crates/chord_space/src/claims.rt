//! Messages are claimed, and given back or consumed.
ghost use Rattle.std.specs.Prelude.{◌≡◌, ◌≢◌, ℕ, ◌<◌, true, Option, Some, None, OnOk, IfErr, IfSome, IsOk};
ghost use Rattle.chord_base.specs.Story.{AllBelow};
ghost use Rattle.chord_rule.specs.declared.view.Claim.{Claim};
ghost use Rattle.chord_rule.specs.Bags.{IsArmed};
ghost use Rattle.chord_rule.specs.Claims.{HasThe, HasClaimOn};
ghost use Rattle.chord_rule.specs.Coming.{ComesWithMessage};
ghost use Rattle.chord_rule.specs.Kinds.{claimed, unclaimed, consumed, emptied, saw};
ghost use Rattle.chord_rule.specs.Looks.{HasSeen};
ghost use Rattle.chord_rule.specs.Tells.{word, a_word, IsNewClaim};
ghost use Rattle.chord_rule.specs.Ways.{LastSeen};
ghost use Rattle.chord_word.specs.declared.cells.Cell.TheVariants.{Pending, Claimed, Consumed};
ghost use Rattle.chord_word.specs.Cells.{WordFits};
ghost use Rattle.chord_space.specs.Desks.{view, space_code, space_limits, program_of, IsDeskOf, IsSameDesk};

use crate::plays::{Consume, GiveBack, Governed, Hold, ReturnSlot, Take};
use crate::space::{Desk, Space};
use chord_code::carry::Carry;
use chord_word::{Cell, Word, pack, unpack_cell};
use std::marker::Brand;

/// The word of a message's cell.
pub(crate) fn message_word(cell: Cell, next: Option<u32>) -> u64
    requires { WordFits (a_word cell next) }
    ensures { result ≡ word cell next }
{
    pack(&Word { cell, next })
}

// The word of a claimed message, once its claim is given back: the states of a pending, a claimed and a consumed message are three
// numbers in a row in the lowest bits of a word, and the next stays.
fn pending_again(claimed: u64) -> u64
    requires claimed { (next : Option ℕ) × (claimed ≡ word Claimed next) × WordFits (a_word Claimed next) }
    ensures { (next : Option ℕ) → claimed ≡ word Claimed next → result ≡ word Pending next }
{
    claimed - 1
}

// The word of a claimed message, once it is consumed.
fn consumed_of(claimed: u64) -> u64
    requires claimed { (next : Option ℕ) × (claimed ≡ word Claimed next) × WordFits (a_word Claimed next) }
    ensures { (next : Option ℕ) → claimed ≡ word Claimed next → result ≡ word Consumed next }
{
    claimed + 1
}

impl<P: Carry> Space<P> {
    /// Claims message i, whose cell the desk saw armed with this next; or gives the cell that the one exchange read, which is armed
    /// and not Pending. On a first desk that has lent none it is Ok where the desk last read or wrote that cell Pending with this next.
    ///
    /// Pairs with `arm` and `give_back` of this message: who claims it finds its parcel in its slot. One exchange decides who has it.
    pub fn claim(&self, desk: &mut Desk<P>, i: u32, next: Option<u32>) -> Result<(), Cell>
        requires desk { IsDeskOf self.now desk.old }
        requires bounds { (i < self.now.events) × IfSome next (λ x. x < self.now.events) }
        requires seen { HasSeen (view desk.old) i next }
        ensures desk { IsSameDesk desk.old desk.new }
        ensures claimed { OnOk result ((c : Claim) × IsNewClaim (view desk.old) i next c × (view desk.new ≡ saw (claimed (view desk.old) c) i (a_word Claimed next))) }
        ensures refused { IfErr result (λ c. (c ≢ Pending) × ((after : Option ℕ) × (view desk.new ≡ saw (view desk.old) i (a_word c after))) × IsArmed c) }
        ensures alone { (view desk.old).first ≡ true → (view desk.old).lent ≡ 0 → LastSeen i (a_word Pending next) (view desk.old).looked.seen → IsOk result }
    {
        let words = &self.table.shared;
        let pending = message_word(Cell::Pending, next);
        let claimed = message_word(Cell::Claimed, next);
        let found = words.compare_exchange::<Take>(
            &mut desk.seat,
            self.cell_word(i),
            pending,
            claimed,
        );
        if found == pending {
            return Ok(());
        }
        Err(unpack_cell(found).cell)
    }

    // The word of a message that the desk has claimed: nobody else changes its cell.
    fn claimed_word(&self, desk: &mut Desk<P>, i: u32) -> u64
        requires desk { IsDeskOf self.now desk.old }
        requires bounds { i < self.now.events }
        requires claimed { HasClaimOn i (view desk.old).claims }
        ensures desk { IsSameDesk desk.old desk.new × (view desk.new ≡ view desk.old) }
        ensures word { (c : Claim) → HasThe c (view desk.old).claims → c.number ≡ i → (result ≡ word Claimed c.next) × WordFits (a_word Claimed c.next) }
        ensures one { (c d : Claim) → HasThe c (view desk.old).claims → HasThe d (view desk.old).claims → c.number ≡ i → d.number ≡ i → c ≡ d }
    {
        self.table
            .shared
            .load::<Hold>(&mut desk.seat, self.cell_word(i))
    }

    /// Gives back the claim on message i, with which no firing was drawn: its word is what it was before the claim.
    ///
    /// Pairs with each claim of this message.
    pub fn give_back(&self, desk: &mut Desk<P>, i: u32)
        requires desk { IsDeskOf self.now desk.old }
        requires bounds { i < self.now.events }
        requires claimed { (c : Claim) × HasThe c (view desk.old).claims × (c.number ≡ i) × (c.firing ≡ None) }
        ensures desk { IsSameDesk desk.old desk.new }
        ensures given { (c : Claim) → HasThe c (view desk.old).claims → c.number ≡ i → view desk.new ≡ saw (unclaimed (view desk.old) i) i (a_word Pending c.next) }
    {
        let claimed = self.claimed_word(desk, i);
        let word = pending_again(claimed);
        self.table
            .shared
            .store::<GiveBack>(&mut desk.seat, self.cell_word(i), word);
    }

    // The first load reads the word. The last one gives the empty slot back: of a word that was just written, since one that others write would be waited for.
    fn step_consume<J: Governed>(&self, desk: &mut Desk<P>, i: u32) -> P
        requires governed { (J.parts ≡ space_code self.now) × (J.limits ≡ space_limits self.now) }
        requires desk { IsDeskOf self.now desk.old }
        requires bounds { i < self.now.events }
        requires fired { (c : Claim) × (f : ℕ) × HasThe c (view desk.old).claims × (c.number ≡ i) × (c.firing ≡ Some f) }
        ensures desk { IsSameDesk desk.old desk.new }
        ensures taken { (c : Claim) → HasThe c (view desk.old).claims → c.number ≡ i → view desk.new ≡ emptied (saw (consumed (view desk.old) i (P.entries result)) i (a_word Consumed c.next)) }
        ensures parcel { (c : Claim) → HasThe c (view desk.old).claims → c.number ≡ i → P.arguments result ≡ c.values }
        ensures below { (c : Claim) (f : ℕ) → HasThe c (view desk.old).claims → c.number ≡ i → c.firing ≡ Some f → AllBelow f (P.entries result) }
        ensures comes { (c : Claim) → HasThe c (view desk.old).claims → c.number ≡ i → ComesWithMessage (program_of self.now) (view desk.old).kept c (P.entries result) }
        ensures task { P.keeps_to result (space_code self.now) (space_limits self.now) }
    {
        let claimed = self.claimed_word(desk, i);
        let word = consumed_of(claimed);
        let words = &self.table.shared;
        let cell = self.cell_word(i);
        words.store::<Consume<P, J>>(&mut desk.seat, cell, word);
        let parcel = words.exchange(&mut desk.seat, i as usize, None);
        words.load::<ReturnSlot>(&mut desk.seat, cell);
        parcel.unwrap()
    }

    /// Consumes message i, which the desk has claimed, and with which it has drawn a firing. Its parcel comes with the entries that
    /// it keeps, all drawn before the firing, and holds the values that the firing's entry has of it: these entries and what the desk
    /// kept are two places of the run, and each body in the parcel waits or has ended. The desk's duty on the message is gone.
    pub fn consume(&self, desk: &mut Desk<P>, i: u32) -> P
        requires desk { IsDeskOf self.now desk.old }
        requires bounds { i < self.now.events }
        requires fired { (c : Claim) × (f : ℕ) × HasThe c (view desk.old).claims × (c.number ≡ i) × (c.firing ≡ Some f) }
        ensures desk { IsSameDesk desk.old desk.new }
        ensures taken { (c : Claim) → HasThe c (view desk.old).claims → c.number ≡ i → view desk.new ≡ emptied (saw (consumed (view desk.old) i (P.entries result)) i (a_word Consumed c.next)) }
        ensures parcel { (c : Claim) → HasThe c (view desk.old).claims → c.number ≡ i → P.arguments result ≡ c.values }
        ensures below { (c : Claim) (f : ℕ) → HasThe c (view desk.old).claims → c.number ≡ i → c.firing ≡ Some f → AllBelow f (P.entries result) }
        ensures comes { (c : Claim) → HasThe c (view desk.old).claims → c.number ≡ i → ComesWithMessage (program_of self.now) (view desk.old).kept c (P.entries result) }
        ensures task { P.keeps_to result (space_code self.now) (space_limits self.now) }
    {
        self.step_consume::<Brand>(desk, i)
    }
}
