//! The lines that a run printed.
ghost use Rattle.std.specs.Prelude.{◌≡◌, ◌≤◌, ◌++◌, ◌∷◌, [], IfOk, OnOk, OnErr};
ghost use Rattle.std.specs.List.{list_any};
ghost use Rattle.chord_base.specs.Printed.{is_trap as is_trap_of, lines, line_of};
ghost use Rattle.chord_io.specs.Faults.{Rose};
ghost use Rattle.chord_io.specs.Pieces.{Took, TookProperPrefix};

use arrayvec::ArrayVec;
use chord_base::event::{End, Entry, What};
use chord_base::journal::Journal;
use chord_base::text::{MAX_TEXT_BYTES, Text};
use chord_io::{Failed, Sink, write_all};

/// The bytes of the longest line, with its end.
const LINE_BYTES: usize = MAX_TEXT_BYTES + 1;

/// Writes the lines of a journal. The code writes each with one `write_all`; the clauses say what is written, not in how many calls.
///
/// # Errors
///
/// `Failed` exactly where the sink failed, which its count of faults shows. A proper prefix of the lines was written.
pub fn write_lines<K: Sink>(journal: &Journal, sink: &mut K) -> Result<(), Failed>
    ensures whole { OnOk result (Took (K.taken sink.old) (lines journal.now) (K.taken sink.new)) }
    ensures prefix { OnErr result (TookProperPrefix (K.taken sink.old) (lines journal.now) (K.taken sink.new)) }
    ensures unfailed { OnOk result (K.faults sink.new ≡ K.faults sink.old) }
    ensures failed { OnErr result (Rose (K.faults sink.old) (K.faults sink.new)) }
    ensures never_falls { K.faults sink.old ≤ K.faults sink.new }
{
    write_and_look(journal, sink)?;
    Ok(())
}

/// Writes the lines of a journal as `write_lines` does, and gives whether an entry is an end by a trap: one pass sees both.
///
/// # Errors
///
/// `Failed` exactly where the sink failed, which its count of faults shows. A proper prefix of the lines was written.
pub fn write_and_look<K: Sink>(journal: &Journal, sink: &mut K) -> Result<bool, Failed>
    ensures whole { OnOk result (Took (K.taken sink.old) (lines journal.now) (K.taken sink.new)) }
    ensures seen { IfOk result (λ trapped. trapped ≡ list_any (λ e. is_trap_of e.what) journal.now) }
    ensures prefix { OnErr result (TookProperPrefix (K.taken sink.old) (lines journal.now) (K.taken sink.new)) }
    ensures unfailed { OnOk result (K.faults sink.new ≡ K.faults sink.old) }
    ensures failed { OnErr result (Rose (K.faults sink.old) (K.faults sink.new)) }
    ensures never_falls { K.faults sink.old ≤ K.faults sink.new }
{
    let mut trapped = false;
    for entry in journal.entries() {
        let traps = write_line(entry, sink)?;
        trapped = trapped | traps;
    }
    Ok(trapped)
}

/// Writes the line of an entry, if it has one, and gives whether it is an end by a trap.
fn write_line<K: Sink>(entry: &Entry, sink: &mut K) -> Result<bool, Failed>
    ensures whole { OnOk result (Took (K.taken sink.old) (line_of entry.now.what) (K.taken sink.new)) }
    ensures seen { IfOk result (λ traps. traps ≡ is_trap_of entry.now.what) }
    ensures prefix { OnErr result (TookProperPrefix (K.taken sink.old) (line_of entry.now.what) (K.taken sink.new)) }
    ensures unfailed { OnOk result (K.faults sink.new ≡ K.faults sink.old) }
    ensures failed { OnErr result (Rose (K.faults sink.old) (K.faults sink.new)) }
    ensures never_falls { K.faults sink.old ≤ K.faults sink.new }
{
    // two tests, which most entries pass: with all kinds in one place the way from an entry to the next would be a jump by a table
    if let What::Printed(text) = &entry.what {
        write_text_line(text, sink)?;
        return Ok(false);
    }
    Ok(is_trap(&entry.what))
}

/// Writes the line of a text.
#[inline(never)]
fn write_text_line<K: Sink>(text: &Text, sink: &mut K) -> Result<(), Failed>
    ensures whole { OnOk result (Took (K.taken sink.old) (text.now ++ 10 ∷ []) (K.taken sink.new)) }
    ensures prefix { OnErr result (TookProperPrefix (K.taken sink.old) (text.now ++ 10 ∷ []) (K.taken sink.new)) }
    ensures unfailed { OnOk result (K.faults sink.new ≡ K.faults sink.old) }
    ensures failed { OnErr result (Rose (K.faults sink.old) (K.faults sink.new)) }
    ensures never_falls { K.faults sink.old ≤ K.faults sink.new }
{
    let mut line = ArrayVec::<u8, LINE_BYTES>::new();
    line.try_extend_from_slice(text.items()).unwrap();
    line.push(b'\n');
    write_all(sink, line.as_slice())
}

/// Whether this is an end by a trap.
#[inline(always)]
fn is_trap(what: &What) -> bool
    ensures { result ≡ is_trap_of what.now }
{
    matches!(what, What::Ended(End::Traps(_)))
}
