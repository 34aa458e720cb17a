//! Room for one item more, so that what a list takes to grow stays in proportion to its length.
#![tactic(auto)]

ghost use Rattle.std.specs.Prelude.{◌≡◌, ◌<◌, IsOk, OnOk, vec_len, vec_capacity};
ghost use Rattle.chord_base.specs.Room.{HasGrown};

use std::alloc::AllocError;

/// Sees to room for one item more. As a rule there is some, and then nothing is called; a list that is full gets twice its room.
#[inline(always)]
pub fn reserve_one<T>(list: &mut Vec<T>) -> Result<(), AllocError>
    ensures items { list.new.items ≡ list.old.items }
    ensures room { OnOk result (vec_len list.new < vec_capacity list.new) }
    ensures stays { vec_len list.old < vec_capacity list.old → list.new ≡ list.old }
    ensures short { vec_len list.old < vec_capacity list.old → IsOk result }
    ensures grown { OnOk result (HasGrown (vec_len list.old) (vec_capacity list.old) (vec_capacity list.new)) }
{
    if list.len() < list.capacity() {
        return Ok(());
    }
    double(list)
}

/// Gives a full list twice its room. It stands apart, since a list has room as a rule.
#[inline(never)]
fn double<T>(list: &mut Vec<T>) -> Result<(), AllocError>
    requires full { vec_len list.old ≡ vec_capacity list.old }
    ensures items { list.new.items ≡ list.old.items }
    ensures room { OnOk result (vec_len list.new < vec_capacity list.new) }
    ensures grown { OnOk result (HasGrown (vec_len list.old) (vec_capacity list.old) (vec_capacity list.new)) }
{
    list.reserve_exact(list.len().max(1))?;
    Ok(())
}
