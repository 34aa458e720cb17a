//! The code of a source.
#![tactic(auto)]

ghost use Rattle.std.specs.Prelude.{◌≡◌, IfOk};
ghost use Rattle.chord_base.specs.Types.{Signatures};
ghost use Rattle.chord_bodies.specs.Planned.{IsPlanned};
ghost use Rattle.chord_code.specs.Sound.{IsSoundCode};
ghost use Rattle.chord_source.specs.Laws.{AreWellTyped};
ghost use Rattle.chord_gen.specs.Translation.{code_of};
ghost use Rattle.chord_gen.specs.Laws.{KeepsMeaning};
ghost use Rattle.chord_gen.specs.TypedSource.{source_of, IsTypedSource};

use crate::building::all_blocks;
use crate::lines::class_lines;
use chord_bodies::body::Body;
use chord_bodies::plan::Layout;
use chord_code::code::Code;
use chord_code::lines::Lines;
use chord_code::parts::Parts;
use std::alloc::{AllocError, Global};

/// The code of a source, of its plan and its bodies by their members' numbers.
///
/// The bodies keep to their static types, and the plan is as sound code needs it, by some signatures.
///
/// # Errors
///
/// `AllocError` where no memory is found; a jump to a place past 2^32, or that the code would have 2^32 blocks, is taken
/// for that.
pub fn generate(alloc: Global, plan: &Layout, bodies: &[Body]) -> Result<Code, AllocError>
    requires typed { IsTypedSource (source_of plan.now bodies.now) }
    ensures code { IfOk result (λ code. code ≡ code_of (source_of plan.now bodies.now)) }
    ensures keeps { IfOk result (λ code. (sig : Signatures) → AreWellTyped sig (source_of plan.now bodies.now) → IsPlanned sig (source_of plan.now bodies.now) → KeepsMeaning code (source_of plan.now bodies.now) sig) }
    ensures sound { IfOk result (λ code. IsSoundCode code) }
{
    let built = all_blocks(alloc, plan, bodies)?;
    let classes = class_lines(alloc, plan, bodies, &built)?;
    Ok(Code::of_parts(Parts {
        classes: Lines::of_items(classes),
        blocks: Lines::of_items(built.blocks),
    }))
}
