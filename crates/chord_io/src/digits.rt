//! Numbers in decimal digits and bytes in hexadecimal ones, as a pen writes them.
ghost use Rattle.std.specs.Prelude.{◌≡◌, ◌<◌, false, decimal};
ghost use Rattle.std.specs.Fmt.{digit_glyph, signed_decimal};
ghost use Rattle.std.specs.List.{flat_map};
ghost use Rattle.chord_io.specs.Digits.{byte_text, AreBytes, IsInt};
ghost use Rattle.chord_io.specs.Pen.{Writes};

use crate::{Pen, Sink};
use itoa::Buffer;

impl Pen {
    /// Writes a number in decimal.
    pub fn put_number<K: Sink>(&mut self, sink: &mut K, number: usize)
        ensures { Writes (K.taken sink.old) (K.faults sink.old) self.old (decimal number) (K.taken sink.new) (K.faults sink.new) self.new }
    {
        let mut buffer = Buffer::new();
        self.put(sink, buffer.format(number).as_bytes());
    }

    /// Writes a number of 32 bits in decimal, with its sign where it is negative.
    /// It takes a reference, since what it reads through it is known to have 32 bits.
    pub fn put_signed<K: Sink>(&mut self, sink: &mut K, number: &i32)
        ensures written { Writes (K.taken sink.old) (K.faults sink.old) self.old (signed_decimal number.now) (K.taken sink.new) (K.faults sink.new) self.new }
        ensures typed { IsInt number.now }
    {
        let mut buffer = Buffer::new();
        self.put(sink, buffer.format(*number).as_bytes());
    }

    /// Writes bytes, two hexadecimal digits in lower case each.
    pub fn put_hexadecimal<K: Sink>(&mut self, sink: &mut K, bytes: &[u8])
        ensures written { Writes (K.taken sink.old) (K.faults sink.old) self.old (flat_map byte_text bytes.now) (K.taken sink.new) (K.faults sink.new) self.new }
        ensures typed { AreBytes bytes.now }
    {
        for byte in bytes {
            let digits = [digit(*byte / 16), digit(*byte % 16)];
            self.put(sink, &digits);
        }
    }
}

/// The hexadecimal digit of a number, in lower case.
fn digit(number: u8) -> u8
    requires { number < 16 }
    ensures { result ≡ digit_glyph false number }
{
    if number < 10 {
        b'0' + number
    } else {
        b'a' + (number - 10)
    }
}
