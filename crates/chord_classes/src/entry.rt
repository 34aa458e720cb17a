//! A class of the table.
#![tactic(auto)]

use crate::method::Builder;
use crate::methods::Methods;
use chord_tree::classes::Class;

/// A class: its base, how many methods it inherits, the methods that are new in it, its constructor, and the versions by which it
/// is told what it derives from and in which class each of its methods is new.
#[derive(Drop)]
pub struct Entry<'a> {
    pub class: &'a Class,
    pub base: Option<u32>,
    pub first: usize,
    pub own: Methods<'a>,
    pub builder: Option<Builder<'a>>,
    pub line: Option<u32>,
    pub owned: Option<u32>,
}
