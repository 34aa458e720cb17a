//! What the top call reports.
#![tactic(auto)]

ghost use Rattle.std.specs.Prelude.{◌≡◌, None, Some};

use crate::refusal::Refusal;
use chord_base::journal::Journal;
use chord_space::Closed;
use chord_task::parcel::Parcel;

/// The mode makes no run, the source is accepted, and what is due was written.
pub const DONE: u8 = 0;

/// The source is refused, and the refusal's line was written.
pub const REFUSED: u8 = 1;

/// The arguments are not accepted, and nothing was read or written.
pub const OTHER_ARGUMENTS: u8 = 2;

/// A read failed, and nothing was written.
pub const READ_FAULT: u8 = 3;

/// A write failed, and a proper prefix of what was due was written.
pub const WRITE_FAULT: u8 = 5;

/// The journal has as many entries as are allowed, and some entry may follow it.
pub const AT_LIMIT: u8 = 6;

/// The call ran out of memory, and nothing was written.
pub const NO_MEMORY: u8 = 7;

/// The answer of the top call.
#[derive(Drop)]
pub struct Report {
    /// How the call ended; it is the status of the program. A complete run ends with the journal's own status: 8 if a body
    /// that serves no caller ended by a trap, else 4 if `Main` has not ended, else 0. Every other status has a name here.
    pub status: u8,
    /// The journal of the run, where the mode makes one, the source was accepted and the status is none of 2, 3 and 7.
    pub journal: Option<Journal>,
    /// Why the source was refused, where it was and the status is none of 2, 3 and 7.
    pub refusal: Option<Refusal>,
    /// The closed table of the run, where there is a journal and workers made it.
    pub table: Option<Closed<Parcel>>,
}

impl Report {
    /// A report of a call that has neither a journal nor a refusal to tell of.
    pub fn silent(status: u8) -> Report
        ensures { result ≡ record { status = status; journal = None; refusal = None; table = None } }
    {
        Report {
            status,
            journal: None,
            refusal: None,
            table: None,
        }
    }

    /// A report of a refused source.
    pub fn refused(status: u8, refusal: Refusal) -> Report
        ensures { result ≡ record { status = status; journal = None; refusal = Some refusal; table = None } }
    {
        Report {
            status,
            journal: None,
            refusal: Some(refusal),
            table: None,
        }
    }

    /// A report of a run.
    pub fn played(status: u8, journal: Journal, table: Option<Closed<Parcel>>) -> Report
        ensures { result ≡ record { status = status; journal = Some journal; refusal = None; table = table } }
    {
        Report {
            status,
            journal: Some(journal),
            refusal: None,
            table,
        }
    }
}
