//! Codes, frames, tasks and parcels may go to another thread, and threads may share them.
#![tactic(auto)]

ghost use Rattle.std.specs.Prelude.{◌≡◌};
ghost use denote.Param.Send.{IsSend, IsSync};

use crate::parcel::Parcel;
use crate::task::Task;
use chord_code::code::Code;
use chord_vm::frames::Frames;

/// What is lent, where it may be sent to another thread and shared with it.
fn lent<T: Send + Sync>(it: &T) -> &T
    ensures same { result.now ≡ it.now }
    ensures sent { IsSend T.row }
    ensures shared { IsSync T.row }
{
    it
}

/// What is lent, as another thread may get it: each of these types may be sent to a thread and shared with it.
pub fn may_cross<'a>(
    code: &'a Code,
    frames: &'a Frames,
    task: &'a Task,
    parcel: &'a Parcel,
) -> (&'a Code, &'a Frames, &'a Task, &'a Parcel)
    ensures code { result.0.now ≡ code.now }
    ensures frames { result.1.now ≡ frames.now }
    ensures task { result.2.now ≡ task.now }
    ensures parcel { result.3.now ≡ parcel.now }
{
    (lent(code), lent(frames), lent(task), lent(parcel))
}
