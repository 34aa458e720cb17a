//! The texts of ints and of truth values, and the equality of texts.
#![tactic(auto)]

ghost use Rattle.std.specs.Prelude.{◌≡◌, ◌≤◌, IfOk, length, nat_eq};
ghost use Rattle.std.specs.Fmt.{signed_decimal};
ghost use Rattle.std.specs.Cmp.Rules.{comparing};
ghost use Rattle.std.specs.Cmp.Lexicographic.{pointwise};
ghost use Rattle.std.proofs.Common.{rules};
ghost use Rattle.chord_base.specs.Operators.{flag_text};

use crate::text::{Text, TextFault};
use itoa::Buffer;
use std::alloc::{AllocError, Global};

impl Text {
    /// The decimal digits of a number, with `-` before them where it is negative.
    pub fn of_int(alloc: Global, number: i32) -> Result<Text, AllocError>
        ensures { IfOk result (λ text. text ≡ signed_decimal number) }
    {
        let mut buffer = Buffer::new();
        short(alloc, buffer.format(number).as_bytes())
    }

    /// `True` or `False`.
    pub fn of_flag(alloc: Global, flag: bool) -> Result<Text, AllocError>
        ensures { IfOk result (λ text. text ≡ flag_text flag) }
    {
        if flag {
            short(alloc, b"True")
        } else {
            short(alloc, b"False")
        }
    }
}

/// The text of a few bytes.
fn short(alloc: Global, bytes: &[u8]) -> Result<Text, AllocError>
    requires { length bytes.now ≤ 1024 }
    ensures { IfOk result (λ text. text ≡ bytes.now) }
{
    match Text::of_bytes(alloc, bytes) {
        Ok(text) => Ok(text),
        Err(TextFault::Memory) => Err(AllocError),
        Err(TextFault::TooLong) => unreachable!(),
    }
}

impl PartialEq for Text {
    ghost eq = { λ a b. pointwise nat_eq a b };

    ghost laws = { Prim.search (comparing, rules) };

    fn eq(&self, other: &Text) -> bool {
        self.items() == other.items()
    }
}
