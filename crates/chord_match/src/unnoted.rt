//! A chord whose bags were not sought is gathered, and nothing is noted.
ghost use Rattle.std.specs.Prelude.{◌≡◌, ℕ, ◌<◌, ◌≤◌, ◌+◌, List, length, replicate, slice_index_or, true, Option, None};
ghost use Rattle.chord_base.specs.Messages.{has, AreDifferent};
ghost use Rattle.chord_bag.specs.declared.walk.Sought.{Sought};
ghost use Rattle.chord_rule.specs.declared.view.View.{View};
ghost use Rattle.chord_space.specs.Desks.{view, heads, IsDeskOf, IsSameDesk};
ghost use Rattle.chord_match.specs.Searching.{Searching, PickedFirst, Gathered, TellsBare};

use crate::nexts::Nexts;
use crate::search::{Own, Pick, Step};
use chord_bag::seek;
use chord_base::members::Members;
use chord_base::value::Object;
use chord_code::carry::Carry;
use chord_space::{Desk, Space};

// The member for a method whose bag was not sought: for its own method the message itself.
fn pick_first<P: Carry>(
    space: &Space<P>,
    desk: &mut Desk<P>,
    object: Object,
    own: &Own,
    method: u8,
) -> Pick
    requires desk { IsDeskOf space.now desk.old }
    requires bounds { (object.number < space.now.events) × (object.class < 1024) × (method < heads space.now) }
    ensures desk { IsSameDesk desk.old desk.new }
    ensures picked { (v : View) (known : List (Option Sought)) → Searching space.now.events v (view desk.old) object own.now known → slice_index_or known method None ≡ None → method < length known → PickedFirst space.now.events v (view desk.old) (view desk.new) object own.now method known result }
{
    if method == own.method {
        Pick::Take(own.message, own.next)
    } else {
        Pick::of(seek(space, desk, object, method))
    }
}

// A member for each of these methods, which are all different, or why one of them has none.
pub(crate) fn gather_one<P: Carry>(
    space: &Space<P>,
    desk: &mut Desk<P>,
    object: Object,
    own: &Own,
    methods: &[u8],
    members: &mut Members,
    nexts: &mut Nexts,
) -> Step
    requires desk { IsDeskOf space.now desk.old }
    requires bounds { (object.number < space.now.events) × (object.class < 1024) }
    requires methods { ((j : ℕ) → has j methods.now ≡ true → j < heads space.now) × AreDifferent methods.now }
    requires searching { (v : View) × Searching space.now.events v (view desk.old) object own.now (replicate 16 None) }
    requires room { (length members.old + length methods.now ≤ 8) × (length nexts.old + length methods.now ≤ 8) }
    ensures desk { IsSameDesk desk.old desk.new }
    ensures gathered { (v : View) → Searching space.now.events v (view desk.old) object own.now (replicate 16 None) → (known : List (Option Sought)) × Gathered space.now.events v (view desk.old) (view desk.new) object own.now methods.now (replicate 16 None) known members.old members.new nexts.old nexts.new result × TellsBare known result }
{
    for method in methods {
        match pick_first(space, desk, object, own, *method) {
            Pick::Take(i, next) => {
                members.push(i as u16);
                nexts.push(next);
            }
            Pick::Stuck(busy) => return Step::Stuck(busy),
        }
    }
    Step::All
}
