//! The arguments of messages, held twice, so that a firing needs no copy.
#![tactic(auto)]

ghost use Rattle.std.specs.Prelude.{◌≡◌, ◌+◌, ◌≤◌, ◌⊎◌, [], ◌∷◌, ◌++◌, length, vec_capacity, None, Some};
ghost use Rattle.chord_vm.specs.Frames.{laid};
ghost use Rattle.chord_task.specs.Arguments.{for_entry, for_body, IsList, MayBeList, StandInOne, HasOneAtMost};

use chord_base::hand::Hand;
use chord_base::value::{Value, Values};
use std::mem;

/// The arguments of one message: for the entry of the firing, and for its body.
#[derive(Drop)]
pub struct Args {
    pub first: Values,
    pub second: Values,
}

/// The arguments of several messages: laid together for the entry of a firing, and one by one for its body.
#[derive(Drop)]
pub struct Parted {
    pub entry: Values,
    pub body: Hand<Values>,
}

/// Adds the values of a message to those before them. They are the entry's where no other message has some, and else they go to the list.
fn add_values(entry: &mut Values, list: &mut Vec<Value>, values: Values)
    requires room { 64 ≤ vec_capacity list.old }
    requires apart { StandInOne entry.old list.old.items }
    requires few { length (list.old.items ++ entry.old) + length values ≤ 64 }
    ensures items { list.new.items ++ entry.new ≡ (list.old.items ++ entry.old) ++ values }
    ensures apart { StandInOne entry.new list.new.items }
    ensures room { vec_capacity list.new ≡ vec_capacity list.old }
    ensures alone { list.old.items ≡ [] → (entry.old ≡ []) ⊎ (values ≡ []) → list.new.items ≡ [] }
{
    if values.items().is_empty() {
        return;
    }
    if list.is_empty() {
        if entry.items().is_empty() {
            *entry = values;
            return;
        }
        mem::replace(entry, Values::none()).move_to(list);
    }
    values.move_to(list);
}

/// Adds the first arguments of each message to those of an entry, and puts the second ones into a hand.
fn part(
    arguments: &mut Hand<Args>,
    entry: &mut Values,
    list: &mut Vec<Value>,
    hand: &mut Hand<Values>,
)
    requires few { length arguments.old + length hand.old ≤ 8 }
    requires room { 64 ≤ vec_capacity list.old }
    requires apart { StandInOne entry.old list.old.items }
    requires fits { length (list.old.items ++ entry.old) + length (laid (for_entry arguments.old)) ≤ 64 }
    ensures values { list.new.items ++ entry.new ≡ (list.old.items ++ entry.old) ++ laid (for_entry arguments.old) }
    ensures apart { StandInOne entry.new list.new.items }
    ensures hand { hand.new ≡ hand.old ++ for_body arguments.old }
    ensures room { vec_capacity list.new ≡ vec_capacity list.old }
    ensures alone { list.old.items ≡ [] → HasOneAtMost (entry.old ∷ for_entry arguments.old) → list.new.items ≡ [] }
{
    match arguments.take_first() {
        None => {}
        Some(Args { first, second }) => {
            add_values(entry, list, first);
            hand.put(second);
            part(arguments, entry, list, hand);
        }
    }
}

/// Parts the arguments of a firing. The wide list is one that was reserved, and is left where no two messages have values.
pub(crate) fn part_all(wide: &mut Option<Vec<Value>>, arguments: Hand<Args>) -> Parted
    requires list { IsList wide.old }
    requires few { length (laid (for_entry arguments)) ≤ 64 }
    ensures entry { result.entry ≡ laid (for_entry arguments) }
    ensures body { result.body ≡ for_body arguments }
    ensures list { MayBeList wide.new }
    ensures kept { HasOneAtMost (for_entry arguments) → IsList wide.new }
{
    let _full = arguments.is_full();
    match wide.take() {
        None => unreachable!(),
        Some(list) => {
            let mut list = list;
            let mut arguments = arguments;
            let mut entry = Values::none();
            let mut body = Hand::new();
            part(&mut arguments, &mut entry, &mut list, &mut body);
            if list.is_empty() {
                *wide = Some(list);
                return Parted { entry, body };
            }
            Parted {
                entry: Values::of_items(list),
                body,
            }
        }
    }
}
