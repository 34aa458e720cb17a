//! The words of places: of which object and method a message is.
ghost use Rattle.std.specs.Prelude.{◌≡◌, ◌↔◌, ℕ, ◌+◌, ◌<◌, Some, None, IsNone, IfSome};
ghost use Rattle.chord_base.specs.declared.value.Object.{Object};
ghost use Rattle.chord_word.specs.Places.{PlaceFits, place_word, ShowsPlace, IsNoPlace};

use crate::parts::part;
use chord_base::value::Object;

/// The bit that is set in each place: a word without it is no place.
const PLACED: u64 = 1;

/// The width of an object's number, from bit `NUMBER_FROM` on.
const NUMBER_BITS: u32 = 20;

/// The width of a class, from bit `CLASS_FROM` on.
const CLASS_BITS: u32 = 10;

/// The width of a method, from bit `METHOD_FROM` on.
const METHOD_BITS: u32 = 5;

/// The first bit of an object's number.
const NUMBER_FROM: u32 = 1;

/// The first bit of a class.
const CLASS_FROM: u32 = NUMBER_FROM + NUMBER_BITS;

/// The first bit of a method.
const METHOD_FROM: u32 = CLASS_FROM + CLASS_BITS;

/// The bits of a word that a place may use: no later one is set.
const PLACE_BITS: u32 = METHOD_FROM + METHOD_BITS;

/// The word of a method of an object. No bit of one part changes another, and no other place has this word.
#[inline]
pub fn pack_place(object: Object, method: u8) -> u64
    requires fits { PlaceFits object method }
    ensures value { result ≡ place_word object method }
    ensures parts { ShowsPlace result object method }
    ensures place { ¬ IsNoPlace result }
    ensures alone { (other : Object) (at : ℕ) → PlaceFits other at
        → place_word other at ≡ result → (other ≡ object) × (at ≡ method) }
{
    ((object.number as u64) << NUMBER_FROM)
        | PLACED
        | ((object.class as u64) << CLASS_FROM)
        | ((method as u64) << METHOD_FROM)
}

/// The object and the method of a place's word, None exactly where no place has it. What was packed comes back.
#[inline]
pub fn unpack_place(word: u64) -> Option<(Object, u8)>
    ensures none { IsNone result ↔ IsNoPlace word }
    ensures some { IfSome result (λ p. PlaceFits p.0 p.1 × (place_word p.0 p.1 ≡ word)) }
    ensures parts { IfSome result (λ p. ShowsPlace word p.0 p.1) }
    ensures back { (object : Object) (method : ℕ) → PlaceFits object method
        → place_word object method ≡ word → result ≡ Some (object, method) }
{
    if word & PLACED == 0 || word >> PLACE_BITS != 0 {
        return None;
    }
    let number = part(word, NUMBER_FROM, NUMBER_BITS) as u32;
    let class = part(word, CLASS_FROM, CLASS_BITS) as u16;
    let method = part(word, METHOD_FROM, METHOD_BITS) as u8;
    Some((Object { number, class }, method))
}
