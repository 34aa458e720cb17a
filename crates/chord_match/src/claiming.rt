//! The members of a firing are claimed in order; where one is gone, or the journal is full, all claims are given back.
ghost use Rattle.std.specs.Prelude.{ℕ, ◌<◌, List, Option, MatchResult};
ghost use Rattle.chord_code.specs.Laws.{ChordsAreRight};
ghost use Rattle.chord_space.specs.Desks.{view, program_of, IsDeskOf, IsSameDesk};
ghost use Rattle.chord_match.specs.Claiming.{Taking, WereClaimed, IsDrawn, TookInOrder, IsMissed};
ghost use Rattle.chord_match.specs.declared.claiming.Missed as a_miss;
ghost use Rattle.chord_rule.specs.declared.view.View.{View};

use crate::nexts::Nexts;
use chord_base::members::Members;
use chord_base::value::Object;
use chord_code::carry::Carry;
use chord_space::{Desk, Space};

/// Why nothing was fired.
#[derive(Drop)]
pub enum Missed {
    /// This member was not pending when the desk last looked at it.
    Lost(u32),
    /// The counter had reached the limit on events.
    Spent,
}

// Gives back the claims on the first so many members, the last one first.
fn give_back_first<P: Carry>(space: &Space<P>, desk: &mut Desk<P>, members: &Members, many: usize)
    requires desk { IsDeskOf space.now desk.old }
    requires missed { (o : Object) × (chord : ℕ) × (xs : List (Option ℕ)) × (v : View) × (u : View) × (x : a_miss.Missed) × (o.number < 65536) × ChordsAreRight (program_of space.now) × WereClaimed space.now.events (program_of space.now) v o chord members.now xs many u × IsMissed space.now.events u (view desk.old) members.now xs many x }
    ensures desk { IsSameDesk desk.old desk.new }
    ensures missed { (o : Object) (chord : ℕ) (xs : List (Option ℕ)) (v u : View) (x : a_miss.Missed) → o.number < 65536 → ChordsAreRight (program_of space.now) → WereClaimed space.now.events (program_of space.now) v o chord members.now xs many u → IsMissed space.now.events u (view desk.old) members.now xs many x → IsMissed space.now.events v (view desk.new) members.now xs 0 x }
{
    if many > 0 {
        space.give_back(desk, members.items()[many - 1] as u32);
        give_back_first(space, desk, members, many - 1);
    }
}

// Claims the members and draws the firing; else gives back what it claimed.
pub fn take_members<P: Carry>(
    space: &Space<P>,
    desk: &mut Desk<P>,
    object: Object,
    chord: u16,
    members: &Members,
    nexts: &Nexts,
) -> Result<u32, Missed>
    requires desk { IsDeskOf space.now desk.old }
    requires right { (object.number < 65536) × ChordsAreRight (program_of space.now) }
    requires taking { Taking space.now.events (program_of space.now) (view desk.old) object chord members.now nexts.now 0 }
    ensures desk { IsSameDesk desk.old desk.new }
    ensures taken { MatchResult result (λ f. (f < space.now.events) × IsDrawn (program_of space.now) (view desk.old) (view desk.new) object chord members.now f × TookInOrder (view desk.old) (view desk.new) members.now f) (λ x. IsMissed space.now.events (view desk.old) (view desk.new) members.now nexts.now 0 x) }
{
    let items = members.items();
    for at in 0..items.len() {
        let i = items[at] as u32;
        match space.claim(desk, i, nexts.items()[at]) {
            Ok(()) => {}
            Err(_) => {
                give_back_first(space, desk, members, at);
                return Err(Missed::Lost(i));
            }
        }
    }
    match space.draw_firing(desk, chord, object, members) {
        Ok(number) => Ok(number),
        Err(_) => {
            give_back_first(space, desk, members, items.len());
            Err(Missed::Spent)
        }
    }
}
