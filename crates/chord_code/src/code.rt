//! A valid code.
#![tactic(auto)]

ghost use Rattle.std.specs.Prelude.{◌≡◌};
ghost use Rattle.chord_code.specs.Valid.{IsValid};
ghost use Rattle.chord_code.specs.Meaning.{chord_lines, method_is_sync};
ghost use Rattle.chord_code.specs.Slots.{IsMostSlots};

use crate::parts::{Block, ChordLine, Parts};
use std::marker::Model;

/// The code of a program. It is valid; contracts see its parts.
#[derive(Drop)]
pub struct Code {
    parts: Parts,
    // Known once and for all, since frames have to have room for any block each time a body begins.
    most_slots: u32,
}

impl Model for Code {
    ghost use Rattle.chord_code.specs.declared.parts.Parts.{Parts};
    ghost use Rattle.chord_code.specs.Valid.{IsValid};
    ghost use Rattle.chord_code.specs.Slots.{IsMostSlots};

    ghost Value = { Parts };

    ghost view = { λ c. c.parts };

    ghost invariant = { λ c. IsValid c.parts × IsMostSlots c.parts.blocks c.most_slots };
}

/// How many slots the largest of these blocks has; 0 where there is none.
fn most_slots_of(blocks: &[Block]) -> u32
    ensures { IsMostSlots blocks.now result }
{
    let mut most = 0;
    for block in blocks {
        if most < block.slots {
            most = block.slots;
        }
    }
    most
}

impl Code {
    /// The code of these parts.
    pub fn of_parts(parts: Parts) -> Code
        requires { IsValid parts }
        ensures { result ≡ parts }
    {
        let most_slots = most_slots_of(parts.blocks.items());
        Code { parts, most_slots }
    }

    /// How many slots its largest block has.
    pub fn most_slots(&self) -> u32
        ensures { IsMostSlots self.now.blocks result }
    {
        self.most_slots
    }

    /// The parts.
    pub fn parts(&self) -> &Parts
        ensures parts { result.now ≡ self.now }
        ensures valid { IsValid self.now }
    {
        &self.parts
    }

    /// The effective chords of a class; of one that is not there, none.
    #[inline]
    pub fn chords(&self, class: u16) -> &[ChordLine]
        ensures chords { result.now ≡ chord_lines self.now class }
        ensures valid { IsValid self.now }
    {
        match self.parts.classes.items().get(class as usize) {
            Some(line) => line.chords.items(),
            None => &[],
        }
    }

    /// Whether callers of a method of a class wait; of one that is not there, no.
    pub fn is_sync(&self, class: u16, method: u8) -> bool
        ensures { result ≡ method_is_sync self.now class method }
    {
        let classes = self.parts.classes.items();
        match classes.get(class as usize) {
            Some(line) => match line.methods.items().get(method as usize) {
                Some(method) => method.sync,
                None => false,
            },
            None => false,
        }
    }
}
