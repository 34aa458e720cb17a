//! Reading the parts of a line from its front.
ghost use Rattle.std.specs.Prelude.{◌≡◌, ℕ, ◌<◌, ◌≤◌, List, Some, None, IfOk, IfErr, OnErr, IfSome, EachIndex, length, slice_index};
ghost use Rattle.std.specs.List.{prefix_len};
ghost use Rattle.std.specs.Char.{is_ascii_digit};
ghost use Rattle.chord_journal.specs.Reading.{ReadsAs, decimal_at, negative_at, value_if_below, int_at, byte_at, text_at, object_at};
ghost use Rattle.chord_journal.specs.Reading as reading;
ghost use Rattle.chord_journal.specs.declared.parts.LineFault.TheVariants as faults;

use arrayvec::ArrayVec;
use chord_base::text::{MAX_TEXT_BYTES, Text};
use chord_base::value::Object;
use std::alloc::{AllocFailed, Global};

/// Why a part of a line was not read.
#[derive(Drop)]
pub enum LineFault {
    /// There was no memory for it.
    Memory,
    /// No such part stands there.
    Wrong,
}

impl<T: Drop> From<AllocFailed<T>> for LineFault {
    ghost from_gives = { λ _ fault. fault ≡ faults.Memory };

    fn from(_failed: AllocFailed<T>) -> LineFault {
        LineFault::Memory
    }
}

/// The bytes behind a text.
pub fn after<'a>(bytes: &'a [u8], text: &[u8]) -> Result<&'a [u8], LineFault>
    ensures read { ReadsAs (λ rest. rest.now) result (reading.after_text text.now bytes.now) }
    ensures wrong { OnErr result (reading.after_text text.now bytes.now ≡ None) }
    ensures fault { IfErr result (λ fault. fault ≡ LineFault.Wrong) }
{
    match bytes.strip_prefix(text) {
        Some(rest) => Ok(rest),
        None => Err(LineFault::Wrong),
    }
}

/// A number below the bound, with all digits that stand at the front.
#[tactic(auto, unfolding(crate::specs::Reading::decimal_at))]
pub fn read_number(bytes: &[u8], bound: u32) -> Result<(u32, &[u8]), LineFault>
    requires { 0 < bound }
    ensures read { ReadsAs (λ x. (x.0, x.1.now)) result (decimal_at bound bytes.now) }
    ensures below { IfOk result (λ x. x.0 < bound) }
    ensures fault { IfErr result (λ fault. fault ≡ LineFault.Wrong) }
{
    let (digits, rest) = bytes.split_at(count_digits(bytes));
    if !is_decimal(digits) {
        return Err(LineFault::Wrong);
    }
    let value = value_below(digits, bound)?;
    Ok((value, rest))
}

/// Whether digits are a decimal: at least one, and no zero before another.
fn is_decimal(digits: &[u8]) -> bool
    ensures { result ≡ reading.is_decimal digits.now }
{
    match digits {
        [] => false,
        [_] => true,
        [first, ..] => *first != b'0',
    }
}

/// How many digits stand at the front.
fn count_digits(bytes: &[u8]) -> usize
    ensures count { result ≡ prefix_len is_ascii_digit bytes.now }
    ensures within { result ≤ length bytes.now }
{
    bytes
        .iter()
        .take_while(|byte| byte.is_ascii_digit())
        .count()
}

/// The value of digits, if it is below the bound.
fn value_below(digits: &[u8], bound: u32) -> Result<u32, LineFault>
    requires some { 0 < bound }
    requires digits { EachIndex digits.now (λ i. (48 ≤ slice_index digits.now i) × (slice_index digits.now i ≤ 57)) }
    ensures read { ReadsAs (λ x. x) result (value_if_below bound digits.now) }
    ensures below { IfOk result (λ x. x < bound) }
    ensures fault { IfErr result (λ fault. fault ≡ LineFault.Wrong) }
{
    let bound = u64::from(bound);
    let mut value = 0u64;
    for digit in digits {
        value = value * 10 + u64::from(*digit - b'0');
        if value >= bound {
            return Err(LineFault::Wrong);
        }
    }
    Ok(value as u32)
}

/// A number of 32 bits, with a sign where it is negative.
#[tactic(auto, unfolding(crate::specs::Reading::int_at, crate::specs::Reading::decimal_at))]
pub fn read_int(bytes: &[u8]) -> Result<(i32, &[u8]), LineFault>
    ensures read { ReadsAs (λ x. (x.0, x.1.now)) result (int_at bytes.now) }
    ensures fault { IfErr result (λ fault. fault ≡ LineFault.Wrong) }
{
    match bytes {
        [b'-', rest @ ..] => read_negative(rest),
        _ => {
            let (number, rest) = read_number(bytes, 2_147_483_648)?;
            Ok((number as i32, rest))
        }
    }
}

/// The number of 32 bits that stands behind a sign.
#[tactic(auto, unfolding(crate::specs::Reading::negative_at))]
fn read_negative(bytes: &[u8]) -> Result<(i32, &[u8]), LineFault>
    ensures read { ReadsAs (λ x. (x.0, x.1.now)) result (negative_at bytes.now) }
    ensures fault { IfErr result (λ fault. fault ≡ LineFault.Wrong) }
{
    let (number, rest) = read_number(bytes, 2_147_483_649)?;
    if number == 0 {
        return Err(LineFault::Wrong);
    }
    let number = -i64::from(number);
    Ok((number as i32, rest))
}

/// An object.
#[tactic(auto, unfolding(crate::specs::Reading::object_at))]
pub fn read_object(bytes: &[u8]) -> Result<(Object, &[u8]), LineFault>
    ensures read { ReadsAs (λ x. (x.0, x.1.now)) result (object_at bytes.now) }
    ensures fault { IfErr result (λ fault. fault ≡ LineFault.Wrong) }
{
    let rest = after(bytes, b"o")?;
    let (number, rest) = read_number(rest, 65_536)?;
    let rest = after(rest, b".")?;
    let (class, rest) = read_number(rest, 1024)?;
    let class = class as u16;
    Ok((Object { number, class }, rest))
}

/// The bytes of a text, two hexadecimal digits each.
pub fn read_text(alloc: Global, bytes: &[u8]) -> Result<(Text, &[u8]), LineFault>
    ensures read { ReadsAs (λ x. (x.0, x.1.now)) result (text_at bytes.now) }
    ensures memory { IfErr result (λ fault. fault ≡ LineFault.Memory → (t : List ℕ) × (rest : List ℕ) × (text_at bytes.now ≡ Some (t, rest)) × (8 < length t)) }
{
    let mut text = ArrayVec::<u8, MAX_TEXT_BYTES>::new();
    let mut rest = bytes;
    while begins_digit(rest) {
        if text.remaining_capacity() == 0 {
            return Err(LineFault::Wrong);
        }
        let (byte, more) = read_byte(rest)?;
        text.push(byte);
        rest = more;
    }
    match Text::of_bytes(alloc, text.as_slice()) {
        Ok(text) => Ok((text, rest)),
        Err(_) => Err(LineFault::Memory),
    }
}

/// Whether a hexadecimal digit stands at the front.
fn begins_digit(bytes: &[u8]) -> bool
    ensures { result ≡ reading.begins_digit bytes.now }
{
    match bytes {
        [first, ..] => digit_of(*first).is_some(),
        [] => false,
    }
}

/// A byte: two hexadecimal digits.
#[tactic(auto, unfolding(crate::specs::Reading::byte_at))]
fn read_byte(bytes: &[u8]) -> Result<(u8, &[u8]), LineFault>
    ensures read { ReadsAs (λ x. (x.0, x.1.now)) result (byte_at bytes.now) }
    ensures fault { IfErr result (λ fault. fault ≡ LineFault.Wrong) }
{
    match bytes {
        [high, low, rest @ ..] => match (digit_of(*high), digit_of(*low)) {
            (Some(high), Some(low)) => Ok((16 * high + low, rest)),
            _ => Err(LineFault::Wrong),
        },
        _ => Err(LineFault::Wrong),
    }
}

/// The number that a hexadecimal digit in lower case stands for.
fn digit_of(byte: u8) -> Option<u8>
    ensures digit { result ≡ reading.digit_of byte }
    ensures below { IfSome result (λ d. d < 16) }
{
    match byte {
        b'0'..=b'9' => Some(byte - b'0'),
        b'a'..=b'f' => Some(byte - b'a' + 10),
        _ => None,
    }
}
