//! What a run is made of may go to another thread, and threads may share it.
#![tactic(auto)]

ghost use Rattle.std.specs.Prelude.{◌≡◌};
ghost use denote.Param.Send.{IsSend, IsSync};

use crate::event::{Entry, Limits};
use crate::journal::Journal;
use crate::members::Members;
use crate::value::Values;

/// What is lent, where it may be sent to another thread and shared with it.
fn lent<T: Send + Sync>(it: &T) -> &T
    ensures same { result.now ≡ it.now }
    ensures sent { IsSend T.row }
    ensures shared { IsSync T.row }
{
    it
}

/// What is lent, as another thread may get it: each of these types may be sent to a thread and shared with it.
pub fn may_cross<'a>(
    entry: &'a Entry,
    values: &'a Values,
    members: &'a Members,
    journal: &'a Journal,
    limits: &'a Limits,
) -> (&'a Entry, &'a Values, &'a Members, &'a Journal, &'a Limits)
    ensures entry { result.0.now ≡ entry.now }
    ensures values { result.1.now ≡ values.now }
    ensures members { result.2.now ≡ members.now }
    ensures journal { result.3.now ≡ journal.now }
    ensures limits { result.4.now ≡ limits.now }
{
    (
        lent(entry),
        lent(values),
        lent(members),
        lent(journal),
        lent(limits),
    )
}
