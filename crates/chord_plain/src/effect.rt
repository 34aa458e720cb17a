//! What one instruction comes to.
#![tactic(auto)]

use chord_base::event::What;

/// What one instruction comes to.
#[derive(Drop)]
pub enum Effect {
    /// The body goes on.
    GoesOn,
    /// It asks this, and waits for the answer.
    Asks(What),
    /// The instruction is not defined here: an operand, slot, class or block is not there, or is of another kind.
    GoesWrong,
}
