//! Blocks that are built, with the numbers that are told for classes and members.
#![tactic(auto)]

use chord_code::parts::Block;

/// The blocks that were built so far; of each class so far the block of its builder, if it has one; and of each member the
/// number of its block, where it has one yet, or 0, which is that of `Main`.
#[derive(Drop)]
pub struct Built {
    pub blocks: Vec<Block>,
    pub builders: Vec<Option<u32>>,
    pub members: Vec<u32>,
}
