//! Building all blocks, class by class, and telling their numbers.
#![tactic(auto)]

ghost use Rattle.std.specs.Prelude.{◌≡◌, ℕ, ◌≤◌, ◌<◌, ◌+◌, ◌++◌, ◌∷◌, [], List, length, map, IfOk, OnOk, OnErr, Option, Some, slice_get, cond, ◌||◌};
ghost use Rattle.chord_bodies.specs.Resolved.{LayoutOf};
ghost use Rattle.chord_bodies.specs.View.{view_class_plan};
ghost use Rattle.chord_gen.specs.Translation.{has_own, has_builder, Origin, OfBuilder, OfBody, origins};
ghost use Rattle.chord_gen.specs.TypedSource.{source_of, IsTypedSource};
ghost use Rattle.chord_gen.specs.Building.{AreNarrowBodies, IsBuilt, named_body, is_told, numbered_member, base_told, class_origins};

use crate::blocks::{block_of_body, block_of_builder, own_constructor};
use crate::built::Built;
use chord_bodies::body::Body;
use chord_bodies::plan::{ClassPlan, Layout};
use chord_code::parts::Block;
use std::alloc::{AllocError, Global};

/// Adds the block of a member, and notes its number where it has none yet.
fn add_body(
    alloc: Global,
    bodies: &[Body],
    blocks: &mut Vec<Block>,
    members: &mut Vec<u32>,
    member: u32,
) -> Result<(), AllocError>
    requires narrow { AreNarrowBodies bodies.now }
    ensures { OnOk result ((plan : LayoutOf) (builders : List (Option ℕ)) (os : List Origin) → IsBuilt (source_of plan bodies.now) blocks.old.items builders members.old.items os → IsBuilt (source_of plan bodies.now) blocks.new.items builders members.new.items (os ++ OfBody member ∷ [])) }
{
    let number = next_block(blocks)?;
    blocks.push(block_of_body(alloc, bodies, member)?)?;
    note(members, member, number);
    Ok(())
}

/// Adds the blocks of these members.
fn add_bodies(
    alloc: Global,
    bodies: &[Body],
    blocks: &mut Vec<Block>,
    members: &mut Vec<u32>,
    own: &[u32],
) -> Result<(), AllocError>
    requires narrow { AreNarrowBodies bodies.now }
    ensures { OnOk result ((plan : LayoutOf) (builders : List (Option ℕ)) (os : List Origin) → IsBuilt (source_of plan bodies.now) blocks.old.items builders members.old.items os → IsBuilt (source_of plan bodies.now) blocks.new.items builders members.new.items (os ++ map OfBody own.now)) }
{
    for member in own {
        add_body(alloc, bodies, blocks, members, *member)?;
    }
    Ok(())
}

/// Notes the number of a member's block, where it has none yet.
fn note(members: &mut Vec<u32>, member: u32, number: u32)
    ensures { members.new.items ≡ numbered_member members.old.items member number }
{
    let place = member as usize;
    if place >= members.len() {
        return;
    }
    if members[place] == 0 {
        members[place] = number;
    }
}

/// The number of the next block. That there are 2^32 blocks is taken for too much memory.
fn next_block(blocks: &Vec<Block>) -> Result<u32, AllocError>
    ensures number { IfOk result (λ number. number ≡ length blocks.now.items) }
    ensures large { OnErr result (4294967296 ≤ length blocks.now.items) }
{
    match u32::try_from(blocks.len()) {
        Ok(number) => Ok(number),
        Err(_) => Err(AllocError),
    }
}

/// The base class, if it has a builder.
fn base_builder(builders: &[Option<u32>], base: Option<u32>) -> Option<u16>
    requires low { (b : ℕ) → base ≡ Some b → b < 1024 }
    ensures { result ≡ base_told builders.now base }
{
    match base {
        None => None,
        Some(class) => match builders.get(class as usize) {
            Some(Some(_)) => Some(class as u16),
            _ => None,
        },
    }
}

/// Whether a class has a builder: where the builder of its base class is given, or it has a constructor.
fn builds(init: Option<u16>, bodies: &[Body], constructor_body: Option<u32>) -> bool
    ensures { result ≡ (is_told init || has_own (named_body bodies.now constructor_body)) }
{
    if init.is_some() {
        return true;
    }
    own_constructor(bodies, constructor_body).is_some()
}

/// Adds the block of the next class's builder, if it has one, and tells its number.
fn add_builder(
    alloc: Global,
    bodies: &[Body],
    blocks: &mut Vec<Block>,
    builders: &mut Vec<Option<u32>>,
    class: &ClassPlan,
) -> Result<(), AllocError>
    requires narrow { AreNarrowBodies bodies.now }
    requires low { (b : ℕ) → class.now.base ≡ Some b → b < 1024 }
    ensures built { OnOk result ((plan : LayoutOf) (members : List ℕ) (os : List Origin) → IsTypedSource (source_of plan bodies.now) → slice_get plan.classes (length builders.old.items) ≡ Some (view_class_plan class.now) → IsBuilt (source_of plan bodies.now) blocks.old.items builders.old.items members os → IsBuilt (source_of plan bodies.now) blocks.new.items builders.new.items members (os ++ cond (has_builder (source_of plan bodies.now) (length builders.old.items)) (OfBuilder (length builders.old.items) ∷ []) [])) }
    ensures next { OnOk result (length builders.new.items ≡ length builders.old.items + 1) }
{
    let init = base_builder(builders, class.base);
    if builds(init, bodies, class.constructor_body) {
        let number = next_block(blocks)?;
        blocks.push(block_of_builder(alloc, bodies, init, class.constructor_body)?)?;
        builders.push(Some(number))?;
        Ok(())
    } else {
        builders.push(None)?;
        Ok(())
    }
}

/// Adds the blocks of the next class: its builder, if it has one, and the bodies of its own chords.
fn add_class(
    alloc: Global,
    bodies: &[Body],
    blocks: &mut Vec<Block>,
    builders: &mut Vec<Option<u32>>,
    members: &mut Vec<u32>,
    class: &ClassPlan,
) -> Result<(), AllocError>
    requires narrow { AreNarrowBodies bodies.now }
    requires low { (b : ℕ) → class.now.base ≡ Some b → b < 1024 }
    ensures built { OnOk result ((plan : LayoutOf) (os : List Origin) → IsTypedSource (source_of plan bodies.now) → slice_get plan.classes (length builders.old.items) ≡ Some (view_class_plan class.now) → IsBuilt (source_of plan bodies.now) blocks.old.items builders.old.items members.old.items os → IsBuilt (source_of plan bodies.now) blocks.new.items builders.new.items members.new.items (os ++ class_origins (source_of plan bodies.now) (length builders.old.items) class.now.own.items)) }
    ensures next { OnOk result (length builders.new.items ≡ length builders.old.items + 1) }
{
    add_builder(alloc, bodies, blocks, builders, class)?;
    add_bodies(alloc, bodies, blocks, members, &class.own)
}

/// All blocks of a source: that of `Main`, and those of each class.
pub fn all_blocks(alloc: Global, plan: &Layout, bodies: &[Body]) -> Result<Built, AllocError>
    requires narrow { AreNarrowBodies bodies.now }
    requires typed { IsTypedSource (source_of plan.now bodies.now) }
    ensures built { IfOk result (λ built. IsBuilt (source_of plan.now bodies.now) built.blocks.items built.builders.items built.members.items (origins (source_of plan.now bodies.now))) }
    ensures classes { IfOk result (λ built. length built.builders.items ≡ length plan.now.classes) }
{
    let mut blocks = Vec::new(alloc);
    let mut builders = Vec::new(alloc);
    let mut members = vec![in alloc; 0; bodies.len()]?;
    blocks.push(block_of_body(alloc, bodies, plan.main())?)?;
    for class in plan.classes() {
        add_class(
            alloc,
            bodies,
            &mut blocks,
            &mut builders,
            &mut members,
            class,
        )?;
    }
    Ok(Built {
        blocks,
        builders,
        members,
    })
}
