//! What a body that has asked waits for.
#![tactic(auto)]

/// The answer that a body waits for.
#[derive(Clone, Copy, Drop)]
pub enum Awaited {
    /// None: the body goes on.
    ForNothing,
    /// The value of a call, which is pushed.
    ForValue,
    /// A new object. Its arguments, so many, are popped, it is pushed, and its builder begins: a block, with its slots.
    ForObject(Option<(u32, u32)>, u32),
}
