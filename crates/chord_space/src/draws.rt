//! Entries and firings are drawn: the one step that is an event of the join machine.
ghost use Rattle.std.specs.Prelude.{◌≡◌, ℕ, ◌+◌, ◌<◌, ◌≤◌, false, List, ◌∷◌, Some, slice_get, MatchResult, IfOk, IfErr, IsOk};
ghost use Rattle.chord_base.specs.declared.event.What.TheVariants.{Fired};
ghost use Rattle.chord_base.specs.declared.value.Value.{Value};
ghost use Rattle.chord_base.specs.declared.value.Object as value;
ghost use Rattle.chord_base.specs.Story.{AllBelow};
ghost use Rattle.chord_rule.specs.Kinds.{entry, drew, firing_drawn, was_told, saw_count};
ghost use Rattle.chord_rule.specs.Claims.{AreClaimed};
ghost use Rattle.chord_rule.specs.Coming.{IsPlace};
ghost use Rattle.chord_rule.specs.Made.{Names};
ghost use Rattle.chord_rule.specs.Tells.{CameNext, HasNotBegun};
ghost use Rattle.chord_space.specs.Gives.{MayFire};
ghost use Rattle.chord_space.specs.Ruled.{IsOfCode};
ghost use Rattle.chord_space.specs.Desks.{view, space_code, space_limits, program_of, IsDeskOf, IsSameDesk, MayDraw};

use crate::as_entry::AsEntry;
use crate::plays::{Draw, DrawFiring, Firing, Said};
use crate::space::{Desk, Space, Spent};
use chord_base::members::Members;
use chord_base::value::Object;
use chord_code::carry::Carry;
use std::marker::Brand;

impl<P: Carry> Space<P> {
    // Pairs with every other draw: the counter gives each number once, and numbers are the order of the journal.
    fn step_draw<J: Said, A: AsEntry>(&self, desk: &mut Desk<P>, body: u32, said: &A) -> u64
        requires entry { (J.body ≡ body) × (J.what ≡ A.what said.now) × (J.parts ≡ space_code self.now) × (J.limits ≡ space_limits self.now) }
        requires desk { IsDeskOf self.now desk.old }
        requires room { (view desk.old).spent ≡ false }
        requires next { MayDraw self.now desk.old body (A.what said.now) }
        ensures desk { IsSameDesk desk.old desk.new }
        ensures drawn { result < self.now.events → (view desk.new ≡ saw_count (drew (view desk.old) result body (A.what said.now)) (result + 1)) × AllBelow result (view desk.old).kept × ((o : value.Object) → Names (A.what said.now) o → o.number < result) × IsOfCode (space_code self.now) (A.what said.now) × CameNext (program_of self.now) (entry result body (A.what said.now)) × IsPlace (program_of self.now) (entry result body (A.what said.now) ∷ (view desk.old).kept) }
        ensures told { self.now.events ≤ result → view desk.new ≡ saw_count (was_told (view desk.old)) (result + 1) }
        ensures begins { HasNotBegun (view desk.old) → result ≡ 0 }
    {
        self.table.shared.fetch_add::<Draw<J>>(&mut desk.seat, 0, 1)
    }

    /// Draws the next number for an entry, which the desk keeps from now on: the next ask of a body by what the desk keeps, or
    /// the beginning of `Main` by the first desk. The entry came next in the run, and is of the code; what the desk keeps is a
    /// place of the run. `Spent` where the counter had reached the limit on events, which it never has for the first draw of all.
    pub fn draw<A: AsEntry>(&self, desk: &mut Desk<P>, body: u32, said: &A) -> Result<u32, Spent>
        requires desk { IsDeskOf self.now desk.old }
        requires room { (view desk.old).spent ≡ false }
        requires next { MayDraw self.now desk.old body (A.what said.now) }
        ensures desk { IsSameDesk desk.old desk.new }
        ensures drawn { MatchResult result (λ x. (x < self.now.events) × (view desk.new ≡ saw_count (drew (view desk.old) x body (A.what said.now)) (x + 1))) (λ _. (c : ℕ) × (self.now.events < c) × (view desk.new ≡ saw_count (was_told (view desk.old)) c)) }
        ensures above { IfOk result (λ x. AllBelow x (view desk.old).kept × ((o : value.Object) → Names (A.what said.now) o → o.number < x)) }
        ensures code { IsOk result → IsOfCode (space_code self.now) (A.what said.now) }
        ensures came { IfOk result (λ x. CameNext (program_of self.now) (entry x body (A.what said.now))) }
        ensures place { IfOk result (λ x. IsPlace (program_of self.now) (entry x body (A.what said.now) ∷ (view desk.old).kept)) }
        ensures begins { HasNotBegun (view desk.old) → IsOk result }
    {
        let found = self.step_draw::<Brand, A>(desk, body, said);
        if found < self.events as u64 {
            Ok(found as u32)
        } else {
            Err(Spent)
        }
    }

    // Pairs with every other draw.
    fn step_draw_firing<J: Firing>(
        &self,
        desk: &mut Desk<P>,
        chord: u16,
        object: Object,
        members: &Members,
    ) -> u64
        requires entry { (J.chord ≡ chord) × (J.object ≡ object) × (J.members ≡ members.now) × (J.parts ≡ space_code self.now) × (J.limits ≡ space_limits self.now) }
        requires desk { IsDeskOf self.now desk.old }
        requires room { (view desk.old).spent ≡ false }
        requires members { MayFire (program_of self.now) (view desk.old).claims chord object members.now }
        ensures desk { IsSameDesk desk.old desk.new }
        ensures drawn { result < self.now.events → AllBelow result (view desk.old).kept × ((js : List ℕ) (vs : List Value) → slice_get ((program_of self.now).chords object.class) chord ≡ Some js → AreClaimed (view desk.old).claims object js members.now vs
            → (view desk.new ≡ saw_count (firing_drawn (view desk.old) result chord object members.now vs) (result + 1)) × CameNext (program_of self.now) (entry result result (Fired chord object members.now vs)) × IsPlace (program_of self.now) (entry result result (Fired chord object members.now vs) ∷ (view desk.old).kept)) }
        ensures told { self.now.events ≤ result → view desk.new ≡ saw_count (was_told (view desk.old)) (result + 1) }
    {
        self.table
            .shared
            .fetch_add::<DrawFiring<J>>(&mut desk.seat, 0, 1)
    }

    /// Draws a firing with the claims of the desk, which are on exactly these members, one for each method of the chord on the
    /// object, in header order. It is one step of the join machine: its entry, with the values of the claims, came next in the run,
    /// so all members were pending before it and none is after it. Its number is above all that the desk kept.
    pub fn draw_firing(
        &self,
        desk: &mut Desk<P>,
        chord: u16,
        object: Object,
        members: &Members,
    ) -> Result<u32, Spent>
        requires desk { IsDeskOf self.now desk.old }
        requires room { (view desk.old).spent ≡ false }
        requires members { MayFire (program_of self.now) (view desk.old).claims chord object members.now }
        ensures desk { IsSameDesk desk.old desk.new }
        ensures drawn { IfOk result (λ f. (f < self.now.events) × AllBelow f (view desk.old).kept × ((js : List ℕ) (vs : List Value) → slice_get ((program_of self.now).chords object.class) chord ≡ Some js → AreClaimed (view desk.old).claims object js members.now vs
            → (view desk.new ≡ saw_count (firing_drawn (view desk.old) f chord object members.now vs) (f + 1)) × CameNext (program_of self.now) (entry f f (Fired chord object members.now vs)) × IsPlace (program_of self.now) (entry f f (Fired chord object members.now vs) ∷ (view desk.old).kept))) }
        ensures told { IfErr result (λ _. (c : ℕ) × (self.now.events < c) × (view desk.new ≡ saw_count (was_told (view desk.old)) c)) }
    {
        let number = self.step_draw_firing::<Brand>(desk, chord, object, members);
        if number < self.events as u64 {
            Ok(number as u32)
        } else {
            Err(Spent)
        }
    }
}
