//! The run of a code, whichever engine makes it.
#![tactic(auto)]

ghost use Rattle.std.specs.Prelude.{◌<◌, ◌≤◌, IfOk, Some, length};
ghost use Rattle.chord_base.specs.Machine.{IsComplete, IsRun};
ghost use Rattle.chord_code.specs.Meaning.{code_program};
ghost use Rattle.chord_code.specs.Sound.{IsSoundCode};
ghost use Rattle.chord_run.specs.Command.{IsBounded};
ghost use Rattle.chord_run.specs.Tables.{HasTable};

use crate::command::Request;
use chord_base::journal::Journal;
use chord_code::code::Code;
use chord_lists::code_run::play as play_alone;
use chord_pool::{Gate, play as play_shared};
use chord_space::Closed;
use chord_task::parcel::Parcel;
use std::alloc::{AllocError, Global};
use std::sync::Wait;
use std::thread::Threads;

/// A run of a code.
#[derive(Drop)]
pub struct Played {
    pub journal: Journal,
    /// The closed table of the run, where workers made it.
    pub table: Option<Closed<Parcel>>,
}

/// A complete run of a code, or a run of as many entries as are allowed; one of fewer entries is complete.
///
/// As many workers as are requested make it, or, with `--one`, the engine of one thread.
pub fn play_code<R: Threads + Wait + Sync, G: Gate + Sync>(
    rt: &R,
    alloc: Global,
    code: &Code,
    request: &Request,
    gate: &G,
) -> Result<Played, AllocError>
    requires bounded { IsBounded request.now }
    requires sound { IsSoundCode code.now }
    ensures run { IfOk result (λ played. IsRun (code_program code.now request.now.limits) played.journal) }
    ensures few { IfOk result (λ played. length played.journal ≤ request.now.limits.events) }
    ensures whole { IfOk result (λ played. length played.journal < request.now.limits.events → IsComplete (code_program code.now request.now.limits) played.journal) }
    ensures table { IfOk result (λ played. HasTable G.knows request.now.one request.now.workers (Some played.journal) played.table) }
{
    match request.one {
        true => {
            let journal = play_alone(alloc, code, &request.limits)?;
            Ok(Played {
                journal,
                table: None,
            })
        }
        false => {
            let (journal, closed) = play_shared(
                rt,
                alloc,
                code,
                &request.limits,
                request.workers,
                gate,
            )?;
            Ok(Played {
                journal,
                table: Some(closed),
            })
        }
    }
}
