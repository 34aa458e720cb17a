//! Entries of chord_base: a copy is equal, and the status of a journal is by how `Main` ended.

ghost use Rattle.std.specs.Prelude.{◌≡◌};

use chord_base::equal::same_what;
use chord_base::event::{End, Entry, Trap, What};
use chord_base::journal::Journal;
use chord_base::members::Members;
use chord_base::text::Text;
use chord_base::value::{Object, Value, Values};
use std::alloc::{AllocError, Global};
use std::test::Fail;

/// A text and an object.
fn values(alloc: Global) -> Result<Values, Fail> {
    let object = Object {
        number: 1,
        class: 2,
    };
    let text = Text::of_bytes(alloc, b"hi").ok().ok_or("no text")?;
    let mut values = Vec::new(alloc);
    values.push(Value::Text(text))?;
    values.push(Value::Ref(object))?;
    Ok(Values::of_items(values))
}

/// A firing that takes two messages, with a text and an object as their arguments.
fn fired(alloc: Global) -> Result<Entry, Fail> {
    let object = Object {
        number: 1,
        class: 2,
    };
    let mut members = Members::new();
    members.push(3);
    members.push(2);
    let values = values(alloc)?;
    Ok(Entry {
        number: 4,
        body: 4,
        what: What::Fired(5, object, members, values),
    })
}

/// A trap.
fn trap() -> Entry {
    Entry {
        number: 6,
        body: 4,
        what: What::Ended(End::Traps(Trap::TooDeep)),
    }
}

/// What an entry has: its number and its body, and whether it says the same as another.
type Shown = (u32, u32, bool);

fn shown(one: &Entry, other: &Entry) -> Shown {
    (one.number, one.body, same_what(&one.what, &other.what))
}

/// What the copy of an entry has.
fn copied(alloc: Global, entry: &Entry) -> Result<Shown, AllocError> {
    let copy = entry.copied(alloc)?;
    Ok(shown(&copy, entry))
}

/// What the copy of the firing has.
fn firing_copied(alloc: Global) -> Result<Shown, Fail> {
    let entry = fired(alloc)?;
    Ok(copied(alloc, &entry)?)
}

#[test]
fn a_copied_entry_is_equal(rt: HostRuntime) -> Result<(), Fail> {
    let firing = firing_copied(rt.alloc())?;
    let ended = copied(rt.alloc(), &trap())?;
    assert_eq!(rt; (firing, ended), ((4, 4, true), (6, 4, true)));
    Ok(())
}

fn entry(number: u32, what: What) -> Entry
    ensures number { result.number ≡ number }
    ensures body { result.body ≡ 0 }
    ensures what { result.what ≡ what }
{
    Entry {
        number,
        body: 0,
        what,
    }
}

/// The status of a journal in which `Main` begins.
fn begun(alloc: Global) -> Result<u8, Fail> {
    let mut entries = Vec::new(alloc);
    entries.push(entry(0, What::Begun))?;
    Ok(Journal::of_entries(entries).status())
}

/// The status of a journal in which `Main` begins and ends.
fn ended(alloc: Global) -> Result<u8, Fail> {
    let mut entries = Vec::new(alloc);
    entries.push(entry(0, What::Begun))?;
    entries.push(entry(1, What::Ended(End::Gives(Value::Unit))))?;
    Ok(Journal::of_entries(entries).status())
}

/// The status of a journal in which `Main` begins and traps.
fn trapped(alloc: Global) -> Result<u8, Fail> {
    let mut entries = Vec::new(alloc);
    entries.push(entry(0, What::Begun))?;
    entries.push(entry(1, What::Ended(End::Traps(Trap::DivideByZero))))?;
    Ok(Journal::of_entries(entries).status())
}

#[test]
fn status_of_main(rt: HostRuntime) -> Result<(), Fail> {
    let found = (begun(rt.alloc())?, ended(rt.alloc())?, trapped(rt.alloc())?);
    assert_eq!(rt;
        found,
        (4, 0, 8),
        "`Main` has not ended, has ended, has trapped"
    );
    Ok(())
}
