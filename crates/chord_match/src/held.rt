//! Which message in another desk's hand is told of, where no chord could be gathered.
ghost use Rattle.std.specs.Prelude.{◌≡◌, ℕ, ◌<◌, List, map, slice_get, true, Option, Some};
ghost use Rattle.chord_base.specs.Messages.{has};
ghost use Rattle.chord_code.specs.Meaning.{methods_of};
ghost use Rattle.chord_match.specs.Noting.{all_told};
ghost use Rattle.chord_match.specs.Searching.{IsHolder, IsHolding};

use crate::notes::Note;
use chord_code::parts::ChordLine;

// A message for which a chord with these methods is held up; none where a bag of it is noted as bare, since then the chord lacks a
// message, whatever comes of that one.
fn holder(methods: &[u8], known: &[Note; 16]) -> Option<u32>
    requires methods { (j : ℕ) → has j methods.now ≡ true → j < 16 }
    ensures { IsHolder methods.now (all_told known.now) result }
{
    let mut busy = None;
    for at in 0..methods.len() {
        let note = known[methods[at] as usize];
        match note {
            Note::Bare => return None,
            Note::Busy(i) => busy = Some(i),
            _ => {}
        }
    }
    busy
}

/// A message for which a chord with the method is held up, of those chords of which no bag is noted as bare. A bag may have been
/// found bare for a later chord than that which a message had stopped before, so this is asked when all were gone through.
#[inline(never)]
pub fn held_up(lines: &[ChordLine], method: u8, known: &[Note; 16]) -> Option<u32>
    requires lines { (k : ℕ) (js : List ℕ) → slice_get (map methods_of lines.now) k ≡ Some js → (j : ℕ) → has j js ≡ true → j < 16 }
    ensures { IsHolding method (map methods_of lines.now) (all_told known.now) result }
{
    for at in 0..lines.len() {
        if lines[at].methods.has(method) {
            let busy = holder(lines[at].methods.items(), known);
            if busy.is_some() {
                return busy;
            }
        }
    }
    None
}
