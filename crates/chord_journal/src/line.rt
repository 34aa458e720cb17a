//! Reading the line of an entry.
ghost use Rattle.std.specs.Prelude.{◌≡◌, ◌<◌, ◌==◌, if◌then◌else◌, None, codes, option_and_then, IfErr};
ghost use Rattle.chord_base.specs.declared.event.What.TheVariants.{Sent, Called};
ghost use Rattle.chord_journal.specs.Reading.{ReadsAs, after_text, decimal_at, sending_at, calling_at, made_at, printed_at, ended_at, firing_at, end_at, what_at, entry_at};

use crate::parts::{LineFault, after, read_number, read_object, read_text};
use crate::values::{read_members, read_value, read_values};
use chord_base::event::{End, Entry, Trap, What};
use std::alloc::Global;

/// The line of the entry with this number.
#[tactic(auto, unfolding(crate::specs::Reading::entry_at))]
pub fn read_entry(alloc: Global, place: u32, bytes: &[u8]) -> Result<(Entry, &[u8]), LineFault>
    ensures read { ReadsAs (λ x. (x.0, x.1.now)) result (entry_at place bytes.now) }
    ensures numbered { option_and_then (λ number. if number.0 == place then after_text (codes " ") number.1 else None) (decimal_at 65536 bytes.now) ≡ None → IfErr result (λ fault. fault ≡ LineFault.Wrong) }
{
    let (number, rest) = read_number(bytes, 65_536)?;
    if number != place {
        return Err(LineFault::Wrong);
    }
    let rest = after(rest, b" ")?;
    let (body, rest) = read_number(rest, 65_536)?;
    let rest = after(rest, b" ")?;
    let (what, rest) = read_what(alloc, rest)?;
    let rest = after(rest, b"\n")?;
    Ok((Entry { number, body, what }, rest))
}

/// What happened, by its word.
#[tactic(auto, unfolding(crate::specs::Reading::what_at))]
fn read_what(alloc: Global, bytes: &[u8]) -> Result<(What, &[u8]), LineFault>
    ensures { ReadsAs (λ x. (x.0, x.1.now)) result (what_at bytes.now) }
{
    if let Ok(rest) = after(bytes, b"begun") {
        return Ok((What::Begun, rest));
    }
    if let Ok(rest) = after(bytes, b"made ") {
        return read_made(rest);
    }
    if let Ok(rest) = after(bytes, b"sent ") {
        return read_sending(alloc, rest);
    }
    if let Ok(rest) = after(bytes, b"called ") {
        return read_calling(alloc, rest);
    }
    if let Ok(rest) = after(bytes, b"printed x") {
        return read_printed(alloc, rest);
    }
    if let Ok(rest) = after(bytes, b"fired ") {
        return read_firing(alloc, rest);
    }
    if let Ok(rest) = after(bytes, b"ended ") {
        return read_ended(alloc, rest);
    }
    Err(LineFault::Wrong)
}

/// The class of an object that is made.
#[tactic(auto, unfolding(crate::specs::Reading::made_at))]
fn read_made(bytes: &[u8]) -> Result<(What, &[u8]), LineFault>
    ensures read { ReadsAs (λ x. (x.0, x.1.now)) result (made_at bytes.now) }
    ensures fault { IfErr result (λ fault. fault ≡ LineFault.Wrong) }
{
    let (class, rest) = read_number(bytes, 1024)?;
    Ok((What::Made(class as u16), rest))
}

/// An asynchronous call: its object, its method and its values.
#[tactic(auto, unfolding(crate::specs::Reading::sending_at))]
fn read_sending(alloc: Global, bytes: &[u8]) -> Result<(What, &[u8]), LineFault>
    ensures { ReadsAs (λ x. (x.0, x.1.now)) result (sending_at bytes.now) }
{
    let (object, rest) = read_object(bytes)?;
    let rest = after(rest, b" ")?;
    let (method, rest) = read_number(rest, 16)?;
    let (values, rest) = read_values(alloc, 8, rest)?;
    Ok((What::Sent(object, method as u8, values), rest))
}

/// A synchronous call: its object, its method and its values.
#[tactic(auto, unfolding(crate::specs::Reading::calling_at))]
fn read_calling(alloc: Global, bytes: &[u8]) -> Result<(What, &[u8]), LineFault>
    ensures { ReadsAs (λ x. (x.0, x.1.now)) result (calling_at bytes.now) }
{
    let (object, rest) = read_object(bytes)?;
    let rest = after(rest, b" ")?;
    let (method, rest) = read_number(rest, 16)?;
    let (values, rest) = read_values(alloc, 8, rest)?;
    Ok((What::Called(object, method as u8, values), rest))
}

/// The text of a printed line.
#[tactic(auto, unfolding(crate::specs::Reading::printed_at))]
fn read_printed(alloc: Global, bytes: &[u8]) -> Result<(What, &[u8]), LineFault>
    ensures { ReadsAs (λ x. (x.0, x.1.now)) result (printed_at bytes.now) }
{
    let (text, rest) = read_text(alloc, bytes)?;
    Ok((What::Printed(text), rest))
}

/// A firing: its chord, its object, how many members it has, its members and its values.
#[tactic(auto, unfolding(crate::specs::Reading::firing_at))]
fn read_firing(alloc: Global, bytes: &[u8]) -> Result<(What, &[u8]), LineFault>
    ensures { ReadsAs (λ x. (x.0, x.1.now)) result (firing_at bytes.now) }
{
    let (chord, rest) = read_number(bytes, 256)?;
    let rest = after(rest, b" ")?;
    let (object, rest) = read_object(rest)?;
    let rest = after(rest, b" ")?;
    let (count, rest) = read_number(rest, 9)?;
    if count == 0 {
        return Err(LineFault::Wrong);
    }
    let (members, rest) = read_members(count, rest)?;
    let (values, rest) = read_values(alloc, 64, rest)?;
    Ok((What::Fired(chord as u16, object, members, values), rest))
}

/// How a body ended.
#[tactic(auto, unfolding(crate::specs::Reading::ended_at))]
fn read_ended(alloc: Global, bytes: &[u8]) -> Result<(What, &[u8]), LineFault>
    ensures { ReadsAs (λ x. (x.0, x.1.now)) result (ended_at bytes.now) }
{
    let (end, rest) = read_end(alloc, bytes)?;
    Ok((What::Ended(end), rest))
}

/// An end: a trap, or a value.
#[tactic(auto, unfolding(crate::specs::Reading::end_at))]
fn read_end(alloc: Global, bytes: &[u8]) -> Result<(End, &[u8]), LineFault>
    ensures { ReadsAs (λ x. (x.0, x.1.now)) result (end_at bytes.now) }
{
    if let Ok(rest) = after(bytes, b"!divide") {
        return Ok((End::Traps(Trap::DivideByZero), rest));
    }
    if let Ok(rest) = after(bytes, b"!turns") {
        return Ok((End::Traps(Trap::OutOfTurns), rest));
    }
    if let Ok(rest) = after(bytes, b"!deep") {
        return Ok((End::Traps(Trap::TooDeep), rest));
    }
    if let Ok(rest) = after(bytes, b"!long") {
        return Ok((End::Traps(Trap::TextTooLong), rest));
    }
    let (value, rest) = read_value(alloc, bytes)?;
    Ok((End::Gives(value), rest))
}
