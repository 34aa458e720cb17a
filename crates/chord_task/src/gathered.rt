//! The arguments of a firing's messages, as their parcels come: where one message has values they stay in its own enclosure.
#![tactic(auto)]

ghost use Rattle.std.specs.Prelude.{◌≡◌, ◌+◌, ◌<◌, ◌≤◌, List, [], ◌∷◌, ◌++◌, length, None, Some};
ghost use Rattle.chord_task.specs.declared.args.Args.{Args as TheArgs};
ghost use Rattle.chord_task.specs.Gathering.{AreGathered};

use crate::args::Args;
use crate::enclosed::Enclosed;
use chord_base::hand::Hand;
use std::mem;

/// The arguments that came so far. Most firings have one message with values, which are then not moved from place to place.
#[derive(Drop)]
pub struct Gathered {
    /// The arguments of the one message that has values, or of none.
    pub one: Enclosed,
    /// The arguments of several messages.
    pub more: Option<Hand<Enclosed>>,
}

/// A hand of two.
#[inline(never)]
fn both(first: Enclosed, second: Enclosed) -> Hand<Enclosed>
    ensures { result ≡ first ∷ second ∷ [] }
{
    let mut hand = Hand::new();
    hand.put(first);
    hand.put(second);
    hand
}

/// Takes the arguments out of their memory, one message after the other.
fn take_all(from: &mut Hand<Enclosed>, to: &mut Hand<Args>)
    requires few { length from.old + length to.old ≤ 8 }
    ensures { to.new ≡ to.old ++ from.old }
{
    match from.take_first() {
        None => {}
        Some(arguments) => {
            to.put(arguments.into_args());
            take_all(from, to);
        }
    }
}

/// The arguments out of their memory.
#[inline(never)]
pub(crate) fn all_args(arguments: Hand<Enclosed>) -> Hand<Args>
    ensures { result ≡ arguments }
{
    let _full = arguments.is_full();
    let mut arguments = arguments;
    let mut all = Hand::new();
    take_all(&mut arguments, &mut all);
    all
}

impl Gathered {
    /// Nothing yet.
    pub fn nothing() -> Gathered
        ensures first { result.one.first ≡ [] }
        ensures second { result.one.second ≡ [] }
        ensures more { result.more ≡ None }
    {
        Gathered {
            one: Enclosed::nothing(),
            more: None,
        }
    }

    /// Adds the arguments of one message more.
    pub fn add(&mut self, arguments: Enclosed)
        requires room { (all : List TheArgs) × AreGathered self.old.one self.old.more all × (length all < 8) }
        ensures added { (all : List TheArgs) → AreGathered self.old.one self.old.more all → AreGathered self.new.one self.new.more (all ++ arguments ∷ []) }
    {
        match &mut self.more {
            Some(all) => all.put(arguments),
            None => {
                if self.one.has_none() {
                    self.one = arguments;
                    return;
                }
                if arguments.has_none() {
                    return;
                }
                let first = mem::replace(&mut self.one, Enclosed::nothing());
                self.more = Some(both(first, arguments));
            }
        }
    }
}
