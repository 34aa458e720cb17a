//! For a message that a desk has a duty on, messages are looked for that one chord takes together with it.
ghost use Rattle.std.specs.Prelude.{◌≡◌, ℕ, ◌<◌, ◌≤◌, ◌+◌, List, [], length, map, replicate, slice_get, true, Option, Some, None};
ghost use Rattle.chord_base.specs.Messages.{has, AreDifferent};
ghost use Rattle.chord_bag.specs.declared.walk.Sought.{Sought};
ghost use Rattle.chord_code.specs.Headers.{LackHeader, HasHeader};
ghost use Rattle.chord_code.specs.Meaning.{methods_of};
ghost use Rattle.chord_rule.specs.declared.view.View.{View};
ghost use Rattle.chord_rule.specs.declared.view.Duty.{Duty};
ghost use Rattle.chord_rule.specs.Duties.{HasDuty};
ghost use Rattle.chord_rule.specs.Made.{key};
ghost use Rattle.chord_space.specs.Desks.{view, heads, space_code, program_of, IsDeskOf, IsSameDesk};
ghost use Rattle.chord_word.specs.declared.cells.Cell.TheVariants.{Pending};
ghost use Rattle.chord_match.specs.Findings.{IsFinding};
ghost use Rattle.chord_match.specs.Noting.{all_told};
ghost use Rattle.chord_match.specs.Searching.{Searching, Learned, Picked, Gathered, IsThrough, firstly, pick_of};

use crate::held::held_up;
use crate::nexts::Nexts;
use crate::notes::Note;
use crate::unnoted::gather_one;
use chord_bag::{Sought, seek};
use chord_base::members::Members;
use chord_base::value::Object;
use chord_code::carry::Carry;
use chord_code::code::Code;
use chord_code::laws::chords_are_right;
use chord_code::parts::{ChordLine, line_with};
use chord_space::{Desk, Space};
use chord_word::Cell;

/// What a desk found for a message that it has a duty on.
#[derive(Drop)]
pub enum Finding {
    /// The number of a chord of the object's class. In the caller's places stand a pending message for each of its methods, in header
    /// order, and their nexts.
    Match(u16),
    /// No chord with the message has all its others, or the message is a caller that is woken: the duty is laid down.
    Left,
    /// A firing took the message: the duty is laid down.
    Taken,
    /// This message is in another desk's hand, and without it nothing can be said: the duty stays.
    Busy(u32),
}

/// The message for which a chord is looked for.
#[derive(Clone, Copy, Drop)]
pub struct Own {
    pub message: u32,
    pub method: u8,
    pub next: Option<u32>,
}

/// The member for one method, or why there is none: a message in another hand, or a bare bag.
#[derive(Drop)]
pub(crate) enum Pick {
    Take(u32, Option<u32>),
    Stuck(Option<u32>),
}

impl Pick {
    /// The member that a walk found, or why it found none.
    #[inline(always)]
    pub(crate) fn of(sought: Sought) -> Pick
        ensures { result ≡ pick_of sought }
    {
        match sought {
            Sought::Found(i, next) => Pick::Take(i, next),
            Sought::Bare => Pick::Stuck(None),
            Sought::Busy(i) => Pick::Stuck(Some(i)),
        }
    }
}

/// Whether there is a member for each method, or why not.
#[derive(Drop)]
pub(crate) enum Step {
    All,
    Stuck(Option<u32>),
}

/// The chord whose members were gathered, or why there is none.
#[derive(Drop)]
enum Verdict {
    Match(u16),
    Without(Option<u32>),
}

// What is known of a bag; it is sought if nothing is. What was once bare is not sought again: only so is it still known to be
// bare when the duty is laid down.
fn ask<P: Carry>(
    space: &Space<P>,
    desk: &mut Desk<P>,
    object: Object,
    method: u8,
    known: &mut [Note; 16],
) -> Sought
    requires desk { IsDeskOf space.now desk.old }
    requires bounds { (object.number < space.now.events) × (object.class < 1024) × (method < heads space.now) }
    ensures desk { IsSameDesk desk.old desk.new }
    ensures learned { Learned space.now.events (view desk.old) (view desk.new) object method (all_told known.old) (all_told known.new) result }
{
    match known[method as usize].answer() {
        Some(sought) => sought,
        None => {
            let sought = seek(space, desk, object, method);
            known[method as usize] = Note::of(sought);
            sought
        }
    }
}

// The member for one method: for its own method the message itself.
fn pick_member<P: Carry>(
    space: &Space<P>,
    desk: &mut Desk<P>,
    object: Object,
    own: &Own,
    method: u8,
    known: &mut [Note; 16],
) -> Pick
    requires desk { IsDeskOf space.now desk.old }
    requires bounds { (object.number < space.now.events) × (object.class < 1024) × (method < heads space.now) }
    ensures desk { IsSameDesk desk.old desk.new }
    ensures picked { (v : View) → Searching space.now.events v (view desk.old) object own.now (all_told known.old) → Picked space.now.events v (view desk.old) (view desk.new) object own.now method (all_told known.old) (all_told known.new) result }
{
    if method == own.method {
        Pick::Take(own.message, own.next)
    } else {
        Pick::of(ask(space, desk, object, method, known))
    }
}

// A member for each of these methods, or why one of them has none.
fn gather<P: Carry>(
    space: &Space<P>,
    desk: &mut Desk<P>,
    object: Object,
    own: &Own,
    methods: &[u8],
    known: &mut [Note; 16],
    members: &mut Members,
    nexts: &mut Nexts,
) -> Step
    requires desk { IsDeskOf space.now desk.old }
    requires bounds { (object.number < space.now.events) × (object.class < 1024) }
    requires methods { (j : ℕ) → has j methods.now ≡ true → j < heads space.now }
    requires searching { (v : View) × Searching space.now.events v (view desk.old) object own.now (all_told known.old) }
    requires room { (length members.old + length methods.now ≤ 8) × (length nexts.old + length methods.now ≤ 8) }
    ensures desk { IsSameDesk desk.old desk.new }
    ensures gathered { (v : View) → Searching space.now.events v (view desk.old) object own.now (all_told known.old) → Gathered space.now.events v (view desk.old) (view desk.new) object own.now methods.now (all_told known.old) (all_told known.new) members.old members.new nexts.old nexts.new result }
{
    for method in methods {
        match pick_member(space, desk, object, own, *method, known) {
            Pick::Take(i, next) => {
                members.push(i as u16);
                nexts.push(next);
            }
            Pick::Stuck(busy) => return Step::Stuck(busy),
        }
    }
    Step::All
}

// Of two messages in other hands the first.
fn first(busy: Option<u32>, more: Option<u32>) -> Option<u32>
    ensures { result ≡ firstly busy more }
{
    match busy {
        Some(i) => Some(i),
        None => more,
    }
}

// Empties the place; as a rule nothing stands there, and then nothing is written.
fn clear(members: &mut Members)
    ensures { members.new ≡ [] }
{
    if !members.items().is_empty() {
        *members = Members::new();
    }
}

// The line behind this one whose chord has the method, where the second such line of all was found before.
fn line_behind(lines: &[ChordLine], at: usize, second: usize, method: u8) -> usize
    requires at { at < length lines.now }
    requires second { (second ≤ length lines.now) × LackHeader method (map methods_of lines.now) (at + 1) second × HasHeader method (map methods_of lines.now) second }
    ensures place { (at < result) × (result ≤ length lines.now) }
    ensures skipped { LackHeader method (map methods_of lines.now) (at + 1) result }
    ensures here { HasHeader method (map methods_of lines.now) result }
{
    if at < second {
        second
    } else {
        line_with(lines, at + 1, method)
    }
}

// A chord with the message, of several, that has its members, and these; or why there is none. The first two of the chords were
// found before, so that their lines need not be looked for again.
fn through_several<P: Carry>(
    space: &Space<P>,
    desk: &mut Desk<P>,
    object: Object,
    own: &Own,
    lines: &[ChordLine],
    from: usize,
    second: usize,
    members: &mut Members,
    nexts: &mut Nexts,
) -> Verdict
    requires desk { IsDeskOf space.now desk.old }
    requires bounds { (object.number < space.now.events) × (object.class < 1024) }
    requires searching { (v : View) × Searching space.now.events v (view desk.old) object own.now (replicate 16 None) }
    requires lines { (length lines.now ≤ 256) × ((k : ℕ) (js : List ℕ) → slice_get (map methods_of lines.now) k ≡ Some js → ((j : ℕ) → has j js ≡ true → j < heads space.now) × (length js ≤ 8) × AreDifferent js) }
    requires from { (from ≤ length lines.now) × LackHeader own.now.method (map methods_of lines.now) 0 from × HasHeader own.now.method (map methods_of lines.now) from }
    requires second { (second ≤ length lines.now) × LackHeader own.now.method (map methods_of lines.now) (from + 1) second × HasHeader own.now.method (map methods_of lines.now) second }
    ensures desk { IsSameDesk desk.old desk.new }
    ensures through { (v : View) → Searching space.now.events v (view desk.old) object own.now (replicate 16 None) → (known : List (Option Sought)) × IsThrough space.now.events v (view desk.new) object own.now (map methods_of lines.now) known members.new nexts.new result }
{
    let mut known = [Note::Nothing; 16];
    let mut busy = None;
    let mut at = from;
    while at < lines.len() {
        let methods = lines[at].methods.items();
        clear(members);
        nexts.clear();
        match gather(
            space, desk, object, own, methods, &mut known, members, nexts,
        ) {
            Step::All => return Verdict::Match(at as u16),
            Step::Stuck(more) => busy = first(busy, more),
        }
        at = line_behind(lines, at, second, own.method);
    }
    match busy {
        Some(_) => Verdict::Without(held_up(lines, own.method, &known)),
        None => Verdict::Without(None),
    }
}

// A chord with the message that has its members, and these, or why there is none; the caller's place is filled, since to give them
// back they would be moved from function to function. Where one chord alone has the method, as most often, nothing is noted. The
// places are empty: `find` sees to that first of all, where a caller has as a rule just made them.
fn through<P: Carry>(
    space: &Space<P>,
    desk: &mut Desk<P>,
    object: Object,
    own: &Own,
    lines: &[ChordLine],
    members: &mut Members,
    nexts: &mut Nexts,
) -> Verdict
    requires desk { IsDeskOf space.now desk.old }
    requires bounds { (object.number < space.now.events) × (object.class < 1024) }
    requires searching { (v : View) × Searching space.now.events v (view desk.old) object own.now (replicate 16 None) }
    requires lines { (length lines.now ≤ 256) × ((k : ℕ) (js : List ℕ) → slice_get (map methods_of lines.now) k ≡ Some js → ((j : ℕ) → has j js ≡ true → j < heads space.now) × (length js ≤ 8) × AreDifferent js) }
    requires empty { (members.old ≡ []) × (nexts.old ≡ []) }
    ensures desk { IsSameDesk desk.old desk.new }
    ensures through { (v : View) → Searching space.now.events v (view desk.old) object own.now (replicate 16 None) → (known : List (Option Sought)) × IsThrough space.now.events v (view desk.new) object own.now (map methods_of lines.now) known members.new nexts.new result }
{
    let at = line_with(lines, 0, own.method);
    // Not `==`: from `>=` the index below is seen to be within, when the program is built.
    if at >= lines.len() {
        return Verdict::Without(None);
    }
    let more = line_with(lines, at + 1, own.method);
    if more < lines.len() {
        return through_several(space, desk, object, own, lines, at, more, members, nexts);
    }
    let methods = lines[at].methods.items();
    match gather_one(space, desk, object, own, methods, members, nexts) {
        Step::All => Verdict::Match(at as u16),
        Step::Stuck(busy) => Verdict::Without(busy),
    }
}

/// Looks for a chord with message m, to this method of this object, on which the desk has a duty: looks at m, and then seeks
/// bags of the other methods of the chords with m's method, none of them twice, and no other bag. `Match` goes before `Busy`, and
/// `Busy` before `Left`; a chord of which one bag was found bare makes none busy. The duty is laid down with `Left` and `Taken` alone. On a first desk that has lent none and has no claim
/// and nothing in flight it is never Busy, and the head of each bag that was sought then leads nowhere, or to a message that the
/// way through the bag read, and not consumed. Who has what was read claimed is not said here: where this desk has no claim, the
/// rule says that another one has.
///
/// The members of a match and their nexts are put into the caller's places, whatever stood there; else what stands there says nothing.
///
/// That the one who adds a message has to look for a chord with it, and may stop where one bag is empty, is from Turon and Russo,
/// "Scalable Join Patterns" (OOPSLA 2011).
pub fn find<P: Carry>(
    space: &Space<P>,
    desk: &mut Desk<P>,
    code: &Code,
    m: u32,
    object: Object,
    method: u8,
    members: &mut Members,
    nexts: &mut Nexts,
) -> Finding
    requires desk { IsDeskOf space.now desk.old }
    requires code { code.now ≡ space_code space.now }
    requires bounds { (m < space.now.events) × (object.number < space.now.events) × (object.class < 1024) × (method < heads space.now) }
    requires duty { (d : Duty) × HasDuty d (view desk.old).duties × (d.message ≡ m) × (d.bag ≡ key object method) }
    ensures desk { IsSameDesk desk.old desk.new }
    ensures finding { IsFinding (program_of space.now) space.now.events (view desk.old) (view desk.new) m object method members.new nexts.new result }
{
    clear(members);
    nexts.clear();
    let word = space.look_cell(desk, m);
    match word.cell {
        Cell::Pending => {}
        Cell::Consumed => {
            space.rest(desk, m);
            return Finding::Taken;
        }
        Cell::Woken(_) => {
            space.rest(desk, m);
            return Finding::Left;
        }
        _ => return Finding::Busy(m),
    }
    chords_are_right(code);
    let own = Own {
        message: m,
        method,
        next: word.next,
    };
    let lines = code.chords(object.class);
    match through(space, desk, object, &own, lines, members, nexts) {
        Verdict::Match(chord) => return Finding::Match(chord),
        Verdict::Without(Some(i)) => return Finding::Busy(i),
        Verdict::Without(None) => {}
    }
    space.rest(desk, m);
    Finding::Left
}
