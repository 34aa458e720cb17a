//! The status of a run, found when its lines are written.
#![tactic(auto)]

ghost use Rattle.std.specs.Prelude.{◌≡◌, ◌==◌, ◌&&◌};
ghost use Rattle.std.specs.List.{list_any};
ghost use Rattle.chord_base.specs.Printed.{is_end, is_trap, main_ended};
ghost use Rattle.chord_run.specs.Reports.{due_status};

use crate::report::AT_LIMIT;
use chord_base::event::{Entry, What};
use chord_base::journal::Journal;

/// The status of a run of which it is known whether it is full, and whether an entry is an end by a trap: 6 where it is full, else
/// the journal's own. Where no body ended by a trap, the end of `Main` decides.
pub fn status_of_run(journal: &Journal, full: bool, trapped: bool) -> u8
    requires { trapped ≡ list_any (λ e. is_trap e.what) journal.now }
    ensures { result ≡ due_status full journal.now }
{
    if full {
        return AT_LIMIT;
    }
    if trapped {
        return journal.status();
    }
    if has_main_end(journal.entries()) {
        0
    } else {
        4
    }
}

/// Whether `Main` has ended.
fn has_main_end(entries: &[Entry]) -> bool
    ensures { result ≡ main_ended entries.now }
{
    let count = entries.len();
    // from the back, since this end is nearly always among the last entries
    for i in 0..count {
        if ends_main(&entries[count - 1 - i]) {
            return true;
        }
    }
    false
}

/// Whether an entry is the end of `Main`.
fn ends_main(entry: &Entry) -> bool
    ensures { result ≡ (is_end entry.now.what && (entry.now.body == 0)) }
{
    match &entry.what {
        What::Ended(_) => entry.body == 0,
        _ => false,
    }
}
