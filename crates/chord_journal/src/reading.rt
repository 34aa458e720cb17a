//! Reading the text of a journal.
ghost use Rattle.std.specs.Prelude.{◌≡◌, ◌≢◌, ℕ, ◌≤◌, List, [], Ok, Err, IfOk, IfErr};
ghost use Rattle.chord_base.specs.Bounds.{IsJournal};
ghost use Rattle.chord_base.specs.declared.event.Entry.{Entry as AnEntry};
ghost use Rattle.chord_journal.specs.Text.{journal_text};
ghost use Rattle.chord_journal.specs.Typed.{AreTyped};
ghost use Rattle.chord_journal.specs.Wrong.{IsWrongAt, HasNoHeader, HasEntries, HasNoFirst, UnlessMemory};
ghost use Rattle.chord_journal.specs.Reading.{ReadsAs, header_at};
ghost use Rattle.chord_journal.specs.declared.reading.JournalFault.TheVariants as faults;

use crate::line::read_entry;
use crate::parts::{LineFault, after, read_number};
use chord_base::journal::Journal;
use std::alloc::{AllocFailed, Global};
use thiserror::Error;

/// Why bytes were not read as a journal.
#[derive(Clone, Copy, Debug, PartialEq, Eq, Error)]
pub enum JournalFault {
    /// The call ran out of memory.
    #[error("out of memory")]
    Memory,
    /// The least line that is wrong, from 0 for the header.
    #[error("line {0} is no line of a journal")]
    At(u32),
}

impl<T: Drop> From<AllocFailed<T>> for JournalFault {
    ghost from_gives = { λ _ fault. fault ≡ faults.Memory };

    fn from(_failed: AllocFailed<T>) -> JournalFault {
        JournalFault::Memory
    }
}

/// The journal that has these bytes as its text.
///
/// # Errors
///
/// `At` exactly where the bytes are no text of a journal, with the least line that is wrong: line 0 is no header,
/// line i + 1 is missing or is not the line of an entry with number i, or a byte follows the last line.
/// `Memory` where the call ran out of memory, for which it asks only behind a header that counts an entry and the
/// number 0 of the first one. Once it has asked, a wrong entry may be told as `Memory` too.
pub fn read(alloc: Global, bytes: &[u8]) -> Result<Journal, JournalFault>
    // What is read has these bytes as its text.
    ensures found { IfOk result (λ journal. (bytes.now ≡ journal_text journal) × AreTyped journal) }
    // The text of a journal is read as that journal, unless memory runs out.
    ensures only { (journal : List AnEntry) → IsJournal journal → AreTyped journal → bytes.now ≡ journal_text journal → UnlessMemory result (Ok journal) }
    // The line that is named is the least that is wrong.
    ensures wrong { (k : ℕ) → result ≡ Err (JournalFault.At k) → IsWrongAt bytes.now k }
    // Where a line is the least that is wrong, it is named, unless memory runs out.
    ensures only_wrong { (k : ℕ) → IsWrongAt bytes.now k → UnlessMemory result (Err (JournalFault.At k)) }
    // Memory is asked for only behind a header that counts an entry.
    ensures memory { result ≡ Err JournalFault.Memory → HasEntries bytes.now }
    // The header is read without memory: where there is none, that is told.
    ensures header { HasNoHeader bytes.now → result ≡ Err (JournalFault.At 0) }
    // The number of the first entry is read without memory: where it does not follow a header that counts it, that is told.
    ensures first { HasNoFirst bytes.now → result ≡ Err (JournalFault.At 1) }
    // The text of the journal without an entry is read without memory.
    ensures empty { bytes.now ≡ journal_text [] → result ≡ Ok [] }
{
    read_lines(alloc, bytes)
}

/// The journal that has these bytes as its text, and no more than `read` promises of each answer.
fn read_lines(alloc: Global, bytes: &[u8]) -> Result<Journal, JournalFault>
    ensures found { IfOk result (λ journal. (bytes.now ≡ journal_text journal) × AreTyped journal × IsJournal journal) }
    ensures wrong { (k : ℕ) → result ≡ Err (JournalFault.At k) → IsWrongAt bytes.now k }
    ensures memory { result ≡ Err JournalFault.Memory → HasEntries bytes.now }
    ensures first { HasNoFirst bytes.now → result ≢ Err JournalFault.Memory }
{
    let (count, rest) = match read_header(bytes) {
        Ok(header) => header,
        Err(LineFault::Memory) => return Err(JournalFault::Memory),
        Err(LineFault::Wrong) => return Err(JournalFault::At(0)),
    };
    let mut entries = Vec::new(alloc);
    let mut rest = rest;
    for place in 0..count {
        match read_entry(alloc, place, rest) {
            Ok((entry, more)) => {
                entries.push(entry)?;
                rest = more;
            }
            Err(LineFault::Memory) => return Err(JournalFault::Memory),
            Err(LineFault::Wrong) => return Err(JournalFault::At(place + 1)),
        }
    }
    if !rest.is_empty() {
        return Err(JournalFault::At(count + 1));
    }
    Ok(Journal::of_entries(entries))
}

/// The header: how many entries there are.
#[tactic(auto, unfolding(crate::specs::Reading::header_at))]
fn read_header(bytes: &[u8]) -> Result<(u32, &[u8]), LineFault>
    ensures read { ReadsAs (λ x. (x.0, x.1.now)) result (header_at bytes.now) }
    ensures few { IfOk result (λ x. x.0 ≤ 65536) }
    ensures fault { IfErr result (λ fault. fault ≡ LineFault.Wrong) }
{
    let rest = after(bytes, b"journal 1 ")?;
    let (count, rest) = read_number(rest, 65_537)?;
    let rest = after(rest, b"\n")?;
    Ok((count, rest))
}
