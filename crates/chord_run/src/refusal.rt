//! Why a source is refused, and the line that says so.
#![tactic(auto)]

ghost use Rattle.std.specs.Prelude.{ℕ, List};
ghost use Rattle.chord_io.specs.Pen.{Writes};
ghost use Rattle.chord_lexer.specs.Reading.{after_byte_order_mark};
ghost use Rattle.chord_run.specs.Positions.{position_of};
ghost use Rattle.chord_run.specs.Refusals.{IsLine, IsWithin, PointsAt, rule_front, with_position};

use crate::position::{Position, position_at};
use chord_io::{Pen, Sink};
use chord_lexer::lexer::unmarked;

/// Why a source is refused.
#[derive(Clone, Copy, Debug, PartialEq, Eq)]
pub enum Refusal {
    /// It has more than 1,048,576 bytes.
    Long,
    /// No token, blank or comment begins at this byte, counted from 0 after a leading mark EF BB BF.
    Bad(u32),
    /// Its tokens before this one, counted from 0, begin some program, and with this one they begin none. Where it is the
    /// number of tokens, the end of the text refuses: the tokens are no program.
    Syntax(u32),
    /// Its tokens up to this one begin some program, and this one is deeper than 200; none before it is.
    Tall(u32),
    /// Its program breaks this rule, 1 to 24, at this token, counted from 0; none at an earlier token, and no lesser one there.
    /// Where the token is the number of tokens, the rule is broken at the end of the text.
    Rule(u8, u32),
}

/// Writes the line of a refusal that points at this byte, with its end.
pub fn put_line<K: Sink>(pen: &mut Pen, sink: &mut K, source: &[u8], refusal: Refusal, byte: u32)
    requires { PointsAt source.now refusal byte }
    ensures { (line : List ℕ) × IsLine source.now refusal line
        × Writes (K.taken sink.old) (K.faults sink.old) pen.old line (K.taken sink.new) (K.faults sink.new) pen.new }
{
    match refusal {
        Refusal::Long => pen.put(sink, b"refused long\n"),
        Refusal::Bad(_) => put_pointing_line(pen, sink, b"refused byte ", source, byte),
        Refusal::Syntax(_) => put_pointing_line(pen, sink, b"refused syntax ", source, byte),
        Refusal::Tall(_) => put_pointing_line(pen, sink, b"refused tall ", source, byte),
        Refusal::Rule(rule, _) => put_rule_line(pen, sink, rule, source, byte),
    }
}

/// Writes the line of a refusal by a rule, which has two digits.
fn put_rule_line<K: Sink>(pen: &mut Pen, sink: &mut K, rule: u8, source: &[u8], byte: u32)
    requires { IsWithin source.now byte }
    ensures { Writes (K.taken sink.old) (K.faults sink.old) pen.old (with_position (rule_front rule) (position_of (after_byte_order_mark source.now) byte)) (K.taken sink.new) (K.faults sink.new) pen.new }
{
    let digits = [b'0' + rule / 10, b'0' + rule % 10];
    pen.put(sink, b"refused C");
    pen.put(sink, &digits);
    put_pointing_line(pen, sink, b" ", source, byte);
}

/// Writes a line that ends with the place of a byte.
fn put_pointing_line<K: Sink>(pen: &mut Pen, sink: &mut K, front: &[u8], source: &[u8], byte: u32)
    requires { IsWithin source.now byte }
    ensures { Writes (K.taken sink.old) (K.faults sink.old) pen.old (with_position front.now (position_of (after_byte_order_mark source.now) byte)) (K.taken sink.new) (K.faults sink.new) pen.new }
{
    let place = position_at(unmarked(source), byte as usize);
    put_positioned_line(pen, sink, front, place);
}

/// Writes a line that ends with a place.
fn put_positioned_line<K: Sink>(pen: &mut Pen, sink: &mut K, front: &[u8], place: Position)
    ensures { Writes (K.taken sink.old) (K.faults sink.old) pen.old (with_position front.now place) (K.taken sink.new) (K.faults sink.new) pen.new }
{
    pen.put(sink, front);
    pen.put_number(sink, place.line as usize);
    pen.put(sink, b":");
    pen.put_number(sink, place.column as usize);
    pen.put(sink, b"\n");
}
