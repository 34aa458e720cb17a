//! Reading values and numbers that stand behind blanks.
ghost use Rattle.std.specs.Prelude.{◌≡◌, ◌<◌, ◌≤◌, IfOk, IfErr};
ghost use Rattle.chord_journal.specs.Reading.{ReadsAs, value_at, next_value_at, values_at, next_number_at, numbers_at};
ghost use Rattle.chord_journal.specs.Reading as reading;

use crate::parts::{LineFault, after, read_int, read_number, read_object, read_text};
use chord_base::members::Members;
use chord_base::value::{Value, Values};
use std::alloc::Global;

/// A value, by its first byte.
#[tactic(auto, unfolding(crate::specs::Reading::value_at))]
pub fn read_value(alloc: Global, bytes: &[u8]) -> Result<(Value, &[u8]), LineFault>
    ensures { ReadsAs (λ x. (x.0, x.1.now)) result (value_at bytes.now) }
{
    match bytes {
        [b'u', rest @ ..] => Ok((Value::Unit, rest)),
        [b'i', rest @ ..] => {
            let (number, rest) = read_int(rest)?;
            Ok((Value::Int(number), rest))
        }
        [b't', rest @ ..] => Ok((Value::Flag(true), rest)),
        [b'f', rest @ ..] => Ok((Value::Flag(false), rest)),
        [b'x', rest @ ..] => {
            let (text, rest) = read_text(alloc, rest)?;
            Ok((Value::Text(text), rest))
        }
        [_, ..] => {
            let (object, rest) = read_object(bytes)?;
            Ok((Value::Ref(object), rest))
        }
        [] => Err(LineFault::Wrong),
    }
}

/// Whether a blank stands at the front.
fn begins_blank(bytes: &[u8]) -> bool
    ensures { result ≡ reading.begins_blank bytes.now }
{
    match bytes {
        [first, ..] => *first == b' ',
        [] => false,
    }
}

/// A value behind a blank.
fn read_next_value(alloc: Global, bytes: &[u8]) -> Result<(Value, &[u8]), LineFault>
    ensures { ReadsAs (λ x. (x.0, x.1.now)) result (next_value_at bytes.now) }
{
    let rest = after(bytes, b" ")?;
    read_value(alloc, rest)
}

/// The values that stand there, each behind a blank, and no more than `most`.
pub fn read_values(alloc: Global, most: usize, bytes: &[u8]) -> Result<(Values, &[u8]), LineFault>
    requires { most ≤ 64 }
    ensures { ReadsAs (λ x. (x.0, x.1.now)) result (values_at most bytes.now) }
{
    let mut values = Vec::new(alloc);
    let mut rest = bytes;
    while begins_blank(rest) {
        if values.len() >= most {
            return Err(LineFault::Wrong);
        }
        let (value, more) = read_next_value(alloc, rest)?;
        values.push(value)?;
        rest = more;
    }
    Ok((Values::of_items(values), rest))
}

/// A number below 65,536 behind a blank.
fn read_next_number(bytes: &[u8]) -> Result<(u32, &[u8]), LineFault>
    ensures read { ReadsAs (λ x. (x.0, x.1.now)) result (next_number_at bytes.now) }
    ensures below { IfOk result (λ x. x.0 < 65536) }
    ensures fault { IfErr result (λ fault. fault ≡ LineFault.Wrong) }
{
    let rest = after(bytes, b" ")?;
    read_number(rest, 65_536)
}

/// So many numbers of members, each behind a blank.
pub fn read_members(count: u32, bytes: &[u8]) -> Result<(Members, &[u8]), LineFault>
    requires { count ≤ 8 }
    ensures read { ReadsAs (λ x. (x.0, x.1.now)) result (numbers_at count bytes.now) }
    ensures fault { IfErr result (λ fault. fault ≡ LineFault.Wrong) }
{
    let mut members = Members::new();
    let mut rest = bytes;
    for _ in 0..count {
        let (number, more) = read_next_number(rest)?;
        members.push(number as u16);
        rest = more;
    }
    Ok((members, rest))
}
