//! What a list of entries holds of a number, found by going through the whole of it.
#![tactic(auto)]

ghost use Rattle.std.specs.Prelude.{◌≡◌, ◌==◌, reverse, find, option_and_then, option_copied};
ghost use Rattle.std.specs.List.{list_any};
ghost use Rattle.chord_base.specs.Messages.{has, members_of, message_of, pending};

use crate::event::{Entry, What};

/// Whether the number stands among these.
fn stands_among(number: u32, members: &[u16]) -> bool
    ensures { result ≡ list_any (λ member. number == member) members.now }
{
    members.iter().any(|member| number == u32::from(*member))
}

/// Whether the entry takes this message.
fn takes(what: &What, number: u32) -> bool
    ensures { result ≡ has number (members_of what.now) }
{
    match what {
        What::Fired(_, _, members, _) => stands_among(number, members.items()),
        _ => false,
    }
}

/// The entry of this number: of several, the newest.
pub(crate) fn entry_of(past: &[Entry], number: u32) -> Option<&Entry>
    ensures { option_copied result ≡ find (λ e. e.number == number) (reverse past.now) }
{
    let mut found = None;
    for entry in past {
        if entry.number == number {
            found = Some(entry);
        }
    }
    found
}

/// The entry that is the pending message of this number.
pub(crate) fn pending_of(past: &[Entry], number: u32) -> Option<&Entry>
    ensures { option_and_then (λ e. message_of e.what) (option_copied result) ≡ pending number (reverse past.now) }
{
    let mut found = None;
    for entry in past {
        if entry.number == number {
            found = Some(entry);
        } else if takes(&entry.what, number) {
            found = None;
        }
    }
    found
}
