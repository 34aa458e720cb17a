//! What holds of the definition of a reading, for every source.
#![tactic(auto)]

ghost use Rattle.std.specs.Prelude.{◌≡◌, ℕ, ◌⊎◌, List};
ghost use Rattle.chord_lexer.specs.Reading.{IsRead, IsRefused};
ghost use Rattle.chord_lexer.specs.declared.token.Token.{Token};

/// A source reads as one list of tokens at most, is refused at one byte at most, and is not both read and refused.
pub fn one_reading()
    ensures one_list { (source : List ℕ) (these those : List Token) → IsRead source these → IsRead source those → these ≡ those }
    ensures one_place { (source : List ℕ) (j k : ℕ) → IsRefused source j → IsRefused source k → j ≡ k }
    ensures not_both { (source : List ℕ) (tokens : List Token) (k : ℕ) → IsRead source tokens → IsRefused source k → ⊥ }
{}

/// A source reads as a list of tokens, or is refused at a byte.
pub fn some_reading()
    ensures { (source : List ℕ) → ((tokens : List Token) × IsRead source tokens) ⊎ ((k : ℕ) × IsRefused source k) }
{}
