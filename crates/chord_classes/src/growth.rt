//! Lists that grow by one item.
#![tactic(auto)]

ghost use Rattle.std.specs.Prelude.{◌≡◌, [], ◌∷◌, ◌++◌, OnOk, is_ok, if◌then◌else◌, vec_len, vec_capacity};
ghost use Rattle.chord_base.specs.Room.{HasGrown};

use chord_base::room::reserve_one;
use std::alloc::AllocError;

/// Adds an item at the end. A full list gets twice its room, so that a list of all classes or methods of a program takes time in proportion to its length.
pub fn add_one<T: Drop>(list: &mut Vec<T>, item: T) -> Result<(), AllocError>
    ensures items { list.new.items ≡ (if is_ok result then list.old.items ++ item ∷ [] else list.old.items) }
    ensures grown { OnOk result (HasGrown (vec_len list.old) (vec_capacity list.old) (vec_capacity list.new)) }
{
    reserve_one(list)?;
    list.push_reserved(item);
    Ok(())
}
