//! Writing what is due for a journal. Nothing here takes memory.
#![tactic(auto)]

ghost use Rattle.std.specs.Prelude.{◌≡◌, ◌≤◌, ◌++◌, IfOk, OnOk, OnErr};
ghost use Rattle.std.specs.List.{list_any};
ghost use Rattle.chord_base.specs.Printed.{is_trap};
ghost use Rattle.chord_io.specs.Faults.{Rose};
ghost use Rattle.chord_io.specs.Pieces.{Took, TookProperPrefix};
ghost use Rattle.chord_run.specs.Command.{made_from};
ghost use Rattle.chord_run.specs.Due.{journal_due, summary_due, text_due};

use crate::command::{Mode, Request};
use chord_base::journal::Journal;
use chord_io::{Failed, Sink};
use chord_journal::{write_and_look, write_counts, write_text};

/// Writes what is due for a journal: its lines, of `load` its line of counts, and its text where that is requested. Gives whether
/// an entry is an end by a trap.
///
/// # Errors
///
/// `Failed` exactly where the sink failed, which its count of faults shows. A proper prefix of what is due was written.
pub fn write_due<K: Sink>(
    journal: &Journal,
    request: &Request,
    sink: &mut K,
) -> Result<bool, Failed>
    ensures whole { OnOk result (Took (K.taken sink.old) (text_due request.now journal.now) (K.taken sink.new)) }
    ensures seen { IfOk result (λ trapped. trapped ≡ list_any (λ e. is_trap e.what) journal.now) }
    ensures prefix { OnErr result (TookProperPrefix (K.taken sink.old) (text_due request.now journal.now) (K.taken sink.new)) }
    ensures unfailed { OnOk result (K.faults sink.new ≡ K.faults sink.old) }
    ensures failed { OnErr result (Rose (K.faults sink.old) (K.faults sink.new)) }
    ensures never_falls { K.faults sink.old ≤ K.faults sink.new }
{
    let trapped = write_and_look(journal, sink)?;
    write_rest(journal, request, sink)?;
    Ok(trapped)
}

/// Writes what is due for a journal behind its lines.
fn write_rest<K: Sink>(journal: &Journal, request: &Request, sink: &mut K) -> Result<(), Failed>
    ensures whole { OnOk result (Took (K.taken sink.old) (summary_due (made_from request.now.mode) journal.now ++ journal_due request.now.journal journal.now) (K.taken sink.new)) }
    ensures prefix { OnErr result (TookProperPrefix (K.taken sink.old) (summary_due (made_from request.now.mode) journal.now ++ journal_due request.now.journal journal.now) (K.taken sink.new)) }
    ensures unfailed { OnOk result (K.faults sink.new ≡ K.faults sink.old) }
    ensures failed { OnErr result (Rose (K.faults sink.old) (K.faults sink.new)) }
    ensures never_falls { K.faults sink.old ≤ K.faults sink.new }
{
    write_summary(journal, request.mode, sink)?;
    write_journal(journal, request.journal, sink)
}

/// Writes the line of counts of a journal, where its source was made from a number.
fn write_summary<K: Sink>(journal: &Journal, mode: Mode, sink: &mut K) -> Result<(), Failed>
    ensures whole { OnOk result (Took (K.taken sink.old) (summary_due (made_from mode) journal.now) (K.taken sink.new)) }
    ensures prefix { OnErr result (TookProperPrefix (K.taken sink.old) (summary_due (made_from mode) journal.now) (K.taken sink.new)) }
    ensures unfailed { OnOk result (K.faults sink.new ≡ K.faults sink.old) }
    ensures failed { OnErr result (Rose (K.faults sink.old) (K.faults sink.new)) }
    ensures never_falls { K.faults sink.old ≤ K.faults sink.new }
{
    match mode {
        Mode::Load(_) => write_counts(journal, sink),
        Mode::Run => Ok(()),
        Mode::Rules => Ok(()),
        Mode::Code => Ok(()),
    }
}

/// Writes the text of a journal, where it is requested.
fn write_journal<K: Sink>(journal: &Journal, requested: bool, sink: &mut K) -> Result<(), Failed>
    ensures whole { OnOk result (Took (K.taken sink.old) (journal_due requested journal.now) (K.taken sink.new)) }
    ensures prefix { OnErr result (TookProperPrefix (K.taken sink.old) (journal_due requested journal.now) (K.taken sink.new)) }
    ensures unfailed { OnOk result (K.faults sink.new ≡ K.faults sink.old) }
    ensures failed { OnErr result (Rose (K.faults sink.old) (K.faults sink.new)) }
    ensures never_falls { K.faults sink.old ≤ K.faults sink.new }
{
    match requested {
        true => write_text(journal, sink),
        false => Ok(()),
    }
}
