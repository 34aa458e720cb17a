//! The instructions of a block, by their names in a listing.
#![tactic(auto)]

use crate::lines::Lines;
use chord_base::text::Text;

/// One instruction. Operands stand on a stack, whose top is the value that was pushed last.
///
/// A number of an instruction is its place in its block, from 0.
#[derive(Drop)]
pub enum Instruction {
    /// Pushes the number.
    Int(i32),
    /// Pushes the truth value.
    Flag(bool),
    /// Pushes the text.
    Text(Text),
    /// Pushes this slot.
    Load(u32),
    /// Pops into this slot.
    Store(u32),
    /// Pops.
    Drop,
    /// Unary `-`.
    Neg,
    /// `!`.
    Not,
    /// `+` of ints.
    Add,
    /// `-`.
    Sub,
    /// `*`.
    Mul,
    /// `/`. Traps at 0.
    Div,
    /// `%`. Traps at 0.
    Rem,
    /// `+` of texts. Traps above 1,024 bytes.
    Cat,
    /// `==`.
    Eq,
    /// `!=`.
    Ne,
    /// `<`.
    Lt,
    /// `<=`.
    Le,
    /// `>`.
    Gt,
    /// `>=`.
    Ge,
    /// Goes to this later instruction.
    Jump(u32),
    /// Pops, and goes to this later instruction where it popped false.
    Skip(u32),
    /// Pops, and where it popped true counts one turn and goes to this earlier instruction. Traps where no turn is left.
    Again(u32),
    /// Makes an object of this class, pops so many arguments, pushes the object, and runs the class's builder on both,
    /// one deeper. Traps at the depth limit before it asks.
    New(u16, u32),
    /// Runs the builder of this class on slot 0, no deeper.
    Init(u16),
    /// Pops so many arguments and the receiver, and sends this method.
    Send(u8, u32),
    /// Pops so many arguments and the receiver, calls this method, and pushes what the call gives. Traps at the depth
    /// limit before it asks.
    Call(u8, u32),
    /// Pops, and prints the text of what it popped.
    Print,
    /// Ends the body with the unit value.
    End,
    /// Pops, and ends the body with what it popped.
    Endv,
    /// Goes back from a builder.
    Back,
}

/// The instructions of a block, from number 0.
pub type Instructions = Lines<Instruction>;
