//! The meaning of a code, as calls.
#![tactic(auto)]

ghost use Rattle.std.specs.Prelude.{◌≡◌, ◌-◌, IfOk};
ghost use Rattle.chord_base.specs.Called.{asked_by};
ghost use Rattle.chord_code.specs.Fuel.{comes_to};
ghost use Rattle.chord_code.specs.Meaning.{code_program, asked_of, asked_at, place};
ghost use Rattle.chord_vm.specs.Frames.{machine_of};
ghost use Rattle.chord_plain.specs.Effects.{point_of_reached};

use crate::running::{Reached, after_all, run};
use chord_base::event::{End, Limits, What};
use chord_base::meaning::{Meaning, Next, Start};
use chord_code::code::Code;
use chord_vm::frames::Frames;
use std::alloc::{AllocError, Global};

/// A code under limits, whose meaning is told by running each body anew.
#[derive(Drop)]
pub struct Plain<'a> {
    pub code: &'a Code,
    pub limits: Limits,
}

/// The depth of the place of an ask: that of a call alone is told.
fn depth_of(limits: &Limits, what: &What, room: usize) -> u32
    ensures { result ≡ place what.now (limits.now.depth - room) }
{
    match what {
        What::Called(_, _, _) => (limits.depth as usize).saturating_sub(room) as u32,
        What::Begun => 0,
        What::Made(_) => 0,
        What::Sent(_, _, _) => 0,
        What::Printed(_) => 0,
        What::Fired(_, _, _, _) => 0,
        What::Ended(_) => 0,
    }
}

/// The next ask of a body that goes on from these frames.
fn next_of(
    alloc: Global,
    code: &Code,
    limits: &Limits,
    frames: Frames,
) -> Result<Option<Next>, AllocError>
    ensures { IfOk result (λ ask. asked_by ask ≡ asked_at limits.now (comes_to code.now (machine_of frames))) }
{
    let mut frames = frames;
    match run(alloc, code, &mut frames)? {
        None => Ok(None),
        Some(what) => {
            let depth = depth_of(limits, &what, frames.top.room);
            Ok(Some(Next { what, depth }))
        }
    }
}

/// The next ask of a body that stands here.
fn ask_at(
    alloc: Global,
    code: &Code,
    limits: &Limits,
    reached: Reached,
) -> Result<Option<Next>, AllocError>
    ensures { IfOk result (λ ask. asked_by ask ≡ asked_of code.now limits.now (point_of_reached reached)) }
{
    match reached {
        Reached::Stands(frames) => next_of(alloc, code, limits, frames),
        Reached::Fails(trap) => Ok(Some(Next {
            what: What::Ended(End::Traps(trap)),
            depth: 0,
        })),
        Reached::Nowhere => Ok(None),
    }
}

impl<'a> Meaning for Plain<'a> {
    ghost program = { λ p. code_program p.code.now p.limits };

    fn next(
        &self,
        alloc: Global,
        start: &Start,
        depth: u64,
        answers: &[End],
    ) -> Result<Option<Next>, AllocError> {
        let reached = after_all(alloc, self.code, &self.limits, start, depth, answers)?;
        ask_at(alloc, self.code, &self.limits, reached)
    }

    fn chord(&self, alloc: Global, class: u16, chord: u16) -> Result<Option<Vec<u8>>, AllocError> {
        match self.code.chords(class).get(chord as usize) {
            None => Ok(None),
            Some(line) => Ok(Some(Vec::from_slice(alloc, line.methods.items())?)),
        }
    }

    fn is_sync(&self, class: u16, method: u8) -> bool {
        self.code.is_sync(class, method)
    }
}
