//! How many entries of each kind a journal has, as one line.
#![tactic(auto)]

ghost use Rattle.std.specs.Prelude.{◌≡◌, ◌≤◌, ◌++◌, OnOk, OnErr, count_by, decimal};
ghost use Rattle.chord_io.specs.Faults.{Rose};
ghost use Rattle.chord_io.specs.Pieces.{Took, TookProperPrefix};
ghost use Rattle.chord_io.specs.Pen.{Writes};
ghost use Rattle.chord_journal.specs.Counts.{counts_text, is_begun, is_called, is_ended, is_fired, is_made, is_printed, is_sent};

use chord_base::event::{Entry, What};
use chord_base::journal::Journal;
use chord_io::{Failed, Pen, Sink};

/// Writes the line of counts of a journal: `begun A made B sent C called D fired E printed F ended G`. It takes no memory.
///
/// # Errors
///
/// `Failed` exactly where the sink failed, which its count of faults shows. A proper prefix of the line was written.
pub fn write_counts<K: Sink>(journal: &Journal, sink: &mut K) -> Result<(), Failed>
    ensures whole { OnOk result (Took (K.taken sink.old) (counts_text journal.now) (K.taken sink.new)) }
    ensures prefix { OnErr result (TookProperPrefix (K.taken sink.old) (counts_text journal.now) (K.taken sink.new)) }
    ensures unfailed { OnOk result (K.faults sink.new ≡ K.faults sink.old) }
    ensures failed { OnErr result (Rose (K.faults sink.old) (K.faults sink.new)) }
    ensures never_falls { K.faults sink.old ≤ K.faults sink.new }
{
    let mut pen = Pen::new();
    put_counts(&mut pen, sink, journal.entries());
    pen.finish(sink)
}

/// Writes the line of counts of these entries.
fn put_counts<K: Sink>(pen: &mut Pen, sink: &mut K, entries: &[Entry])
    ensures { Writes (K.taken sink.old) (K.faults sink.old) pen.old (counts_text entries.now) (K.taken sink.new) (K.faults sink.new) pen.new }
{
    put_count(pen, sink, b"begun ", begun(entries));
    put_count(pen, sink, b" made ", made(entries));
    put_count(pen, sink, b" sent ", sent(entries));
    put_count(pen, sink, b" called ", called(entries));
    put_count(pen, sink, b" fired ", fired(entries));
    put_count(pen, sink, b" printed ", printed(entries));
    put_count(pen, sink, b" ended ", ended(entries));
    pen.put(sink, b"\n");
}

/// Writes a count behind its word.
fn put_count<K: Sink>(pen: &mut Pen, sink: &mut K, word: &[u8], count: usize)
    ensures { Writes (K.taken sink.old) (K.faults sink.old) pen.old (word.now ++ decimal count) (K.taken sink.new) (K.faults sink.new) pen.new }
{
    pen.put(sink, word);
    pen.put_number(sink, count);
}

/// Whether `Main` begins.
fn begins_main(what: &What) -> bool
    ensures { result ≡ is_begun what.now }
{
    matches!(what, What::Begun)
}

/// How many entries are the beginning of `Main`.
fn begun(entries: &[Entry]) -> usize
    ensures { result ≡ count_by (λ e. is_begun e.what) entries.now }
{
    let mut count = 0;
    for entry in entries {
        if begins_main(&entry.what) {
            count += 1;
        }
    }
    count
}

/// Whether an object is made.
fn makes(what: &What) -> bool
    ensures { result ≡ is_made what.now }
{
    matches!(what, What::Made(_))
}

/// How many entries make an object.
fn made(entries: &[Entry]) -> usize
    ensures { result ≡ count_by (λ e. is_made e.what) entries.now }
{
    let mut count = 0;
    for entry in entries {
        if makes(&entry.what) {
            count += 1;
        }
    }
    count
}

/// Whether this is an asynchronous call.
fn sends(what: &What) -> bool
    ensures { result ≡ is_sent what.now }
{
    matches!(what, What::Sent(..))
}

/// How many entries are asynchronous calls.
fn sent(entries: &[Entry]) -> usize
    ensures { result ≡ count_by (λ e. is_sent e.what) entries.now }
{
    let mut count = 0;
    for entry in entries {
        if sends(&entry.what) {
            count += 1;
        }
    }
    count
}

/// Whether this is a synchronous call.
fn calls(what: &What) -> bool
    ensures { result ≡ is_called what.now }
{
    matches!(what, What::Called(..))
}

/// How many entries are synchronous calls.
fn called(entries: &[Entry]) -> usize
    ensures { result ≡ count_by (λ e. is_called e.what) entries.now }
{
    let mut count = 0;
    for entry in entries {
        if calls(&entry.what) {
            count += 1;
        }
    }
    count
}

/// Whether this is a firing.
fn fires(what: &What) -> bool
    ensures { result ≡ is_fired what.now }
{
    matches!(what, What::Fired(..))
}

/// How many entries are firings.
fn fired(entries: &[Entry]) -> usize
    ensures { result ≡ count_by (λ e. is_fired e.what) entries.now }
{
    let mut count = 0;
    for entry in entries {
        if fires(&entry.what) {
            count += 1;
        }
    }
    count
}

/// Whether a line is printed.
fn prints(what: &What) -> bool
    ensures { result ≡ is_printed what.now }
{
    matches!(what, What::Printed(_))
}

/// How many entries print a line.
fn printed(entries: &[Entry]) -> usize
    ensures { result ≡ count_by (λ e. is_printed e.what) entries.now }
{
    let mut count = 0;
    for entry in entries {
        if prints(&entry.what) {
            count += 1;
        }
    }
    count
}

/// Whether a body ends.
fn ends(what: &What) -> bool
    ensures { result ≡ is_ended what.now }
{
    matches!(what, What::Ended(_))
}

/// How many entries are ends of bodies.
fn ended(entries: &[Entry]) -> usize
    ensures { result ≡ count_by (λ e. is_ended e.what) entries.now }
{
    let mut count = 0;
    for entry in entries {
        if ends(&entry.what) {
            count += 1;
        }
    }
    count
}
