//! A lone number or object, which fills a word.
#![tactic(auto)]

ghost use Rattle.std.specs.Prelude.{◌≡◌};

use chord_base::value::Object;
use std::marker::Model;

/// How many numbers an object may have.
const NUMBERS: u64 = 4_294_967_296;

/// A number that fills a word: in an enum it lies in the place of a box, and the enum is moved as two words. Contracts see the number.
#[derive(Drop)]
pub(crate) struct LoneNumber {
    word: i64,
}

impl Model for LoneNumber {
    ghost use Rattle.std.specs.Prelude.{ℤ, FitsSigned};
    ghost use Rattle.std.specs.Int.{w32};

    ghost Value = { ℤ };

    ghost view = { λ n. n.word };

    ghost invariant = { λ n. FitsSigned w32 n.word };
}

impl LoneNumber {
    /// This number.
    #[inline(always)]
    pub(crate) fn of(number: &i32) -> LoneNumber
        ensures { result ≡ number.now }
    {
        LoneNumber {
            word: i64::from(*number),
        }
    }

    /// The number.
    #[inline(always)]
    pub(crate) fn number(self) -> i32
        ensures { result ≡ self }
    {
        self.word as i32
    }
}

/// An object that fills a word: its class above its number. Contracts see the object.
#[derive(Drop)]
pub(crate) struct LoneObject {
    word: u64,
}

impl Model for LoneObject {
    ghost use Rattle.std.specs.Prelude.{◌<◌, ◌/◌, ◌%◌};
    ghost use Rattle.chord_base.specs.declared.value.Object as base;

    ghost Value = { base.Object };

    ghost view = { λ o. record { number = o.word % 4294967296; class = o.word / 4294967296 } };

    ghost invariant = { λ o. o.word < 281474976710656 };
}

impl LoneObject {
    /// This object.
    #[inline(always)]
    pub(crate) fn of(object: &Object) -> LoneObject
        ensures { result ≡ object.now }
    {
        LoneObject {
            word: u64::from(object.class) * NUMBERS + u64::from(object.number),
        }
    }

    /// The object.
    #[inline(always)]
    pub(crate) fn object(self) -> Object
        ensures { result ≡ self }
    {
        Object {
            number: (self.word % NUMBERS) as u32,
            class: (self.word / NUMBERS) as u16,
        }
    }
}
