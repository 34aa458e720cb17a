//! Writing the text of a journal.
ghost use Rattle.std.specs.Prelude.{◌≡◌, ◌≤◌, OnOk, OnErr};
ghost use Rattle.std.specs.List.{flat_map};
ghost use Rattle.chord_base.specs.Bounds.{IsJournal};
ghost use Rattle.chord_io.specs.Faults.{Rose};
ghost use Rattle.chord_io.specs.Pieces.{Took, TookProperPrefix};
ghost use Rattle.chord_io.specs.Pen.{Writes};
ghost use Rattle.chord_journal.specs.Typed.{IsText, IsTypedValue, AreTypedValues, IsTypedEnd, IsTypedWhat, AreTyped};
ghost use Rattle.chord_journal.specs.Text.{bytes_text, object_text, value_text, values_text, numbers_text, message_text, firing_text, trap_text, end_text, what_text, entry_text, header_text, journal_text};

use chord_base::event::{End, Entry, Trap, What};
use chord_base::journal::Journal;
use chord_base::members::Members;
use chord_base::text::Text;
use chord_base::value::{Object, Value, Values};
use chord_io::{Failed, Pen, Sink};

/// Writes the text of a journal. It takes no memory.
///
/// # Errors
///
/// `Failed` exactly where the sink failed, which its count of faults shows. A proper prefix of the text was written.
pub fn write_text<K: Sink>(journal: &Journal, sink: &mut K) -> Result<(), Failed>
    ensures whole { OnOk result (Took (K.taken sink.old) (journal_text journal.now) (K.taken sink.new)) }
    ensures prefix { OnErr result (TookProperPrefix (K.taken sink.old) (journal_text journal.now) (K.taken sink.new)) }
    ensures unfailed { OnOk result (K.faults sink.new ≡ K.faults sink.old) }
    ensures failed { OnErr result (Rose (K.faults sink.old) (K.faults sink.new)) }
    ensures never_falls { K.faults sink.old ≤ K.faults sink.new }
    // So `read` of the text gives this journal again.
    ensures within { IsJournal journal.now }
    ensures typed { AreTyped journal.now }
{
    let mut pen = Pen::new();
    let entries = journal.entries();
    put_header(&mut pen, sink, entries.len());
    put_entries(&mut pen, sink, entries);
    pen.finish(sink)
}

/// Writes the header of a journal with this many entries.
fn put_header<K: Sink>(pen: &mut Pen, sink: &mut K, count: usize)
    ensures { Writes (K.taken sink.old) (K.faults sink.old) pen.old (header_text count) (K.taken sink.new) (K.faults sink.new) pen.new }
{
    pen.put(sink, b"journal 1 ");
    pen.put_number(sink, count);
    pen.put(sink, b"\n");
}

/// Writes the lines of the entries.
fn put_entries<K: Sink>(pen: &mut Pen, sink: &mut K, entries: &[Entry])
    ensures written { Writes (K.taken sink.old) (K.faults sink.old) pen.old (flat_map entry_text entries.now) (K.taken sink.new) (K.faults sink.new) pen.new }
    ensures typed { AreTyped entries.now }
{
    for entry in entries {
        put_entry(pen, sink, entry);
    }
}

/// Writes the line of an entry.
fn put_entry<K: Sink>(pen: &mut Pen, sink: &mut K, entry: &Entry)
    ensures written { Writes (K.taken sink.old) (K.faults sink.old) pen.old (entry_text entry.now) (K.taken sink.new) (K.faults sink.new) pen.new }
    ensures typed { IsTypedWhat entry.now.what }
{
    pen.put_number(sink, entry.number as usize);
    pen.put(sink, b" ");
    pen.put_number(sink, entry.body as usize);
    pen.put(sink, b" ");
    put_what(pen, sink, &entry.what);
    pen.put(sink, b"\n");
}

/// Writes what happened.
fn put_what<K: Sink>(pen: &mut Pen, sink: &mut K, what: &What)
    ensures written { Writes (K.taken sink.old) (K.faults sink.old) pen.old (what_text what.now) (K.taken sink.new) (K.faults sink.new) pen.new }
    ensures typed { IsTypedWhat what.now }
{
    match what {
        What::Begun => pen.put(sink, b"begun"),
        What::Made(class) => {
            pen.put(sink, b"made ");
            pen.put_number(sink, usize::from(*class));
        }
        What::Sent(object, method, values) => {
            pen.put(sink, b"sent ");
            put_message(pen, sink, *object, *method, values);
        }
        What::Called(object, method, values) => {
            pen.put(sink, b"called ");
            put_message(pen, sink, *object, *method, values);
        }
        What::Printed(text) => {
            pen.put(sink, b"printed ");
            put_text(pen, sink, text);
        }
        What::Fired(chord, object, members, values) => {
            pen.put(sink, b"fired ");
            put_firing(pen, sink, *chord, *object, members, values);
        }
        What::Ended(end) => {
            pen.put(sink, b"ended ");
            put_end(pen, sink, end);
        }
    }
}

/// Writes a message: its object, its method and its values.
fn put_message<K: Sink>(pen: &mut Pen, sink: &mut K, object: Object, method: u8, values: &Values)
    ensures written { Writes (K.taken sink.old) (K.faults sink.old) pen.old (message_text object method values.now) (K.taken sink.new) (K.faults sink.new) pen.new }
    ensures typed { AreTypedValues values.now }
{
    put_object(pen, sink, object);
    pen.put(sink, b" ");
    pen.put_number(sink, usize::from(method));
    put_values(pen, sink, values);
}

/// Writes a firing: its chord, its object, how many members it has, its members and its values.
fn put_firing<K: Sink>(
    pen: &mut Pen,
    sink: &mut K,
    chord: u16,
    object: Object,
    members: &Members,
    values: &Values,
)
    ensures written { Writes (K.taken sink.old) (K.faults sink.old) pen.old (firing_text chord object members.now values.now) (K.taken sink.new) (K.faults sink.new) pen.new }
    ensures typed { AreTypedValues values.now }
{
    pen.put_number(sink, usize::from(chord));
    pen.put(sink, b" ");
    put_object(pen, sink, object);
    pen.put(sink, b" ");
    pen.put_number(sink, members.items().len());
    put_members(pen, sink, members);
    put_values(pen, sink, values);
}

/// Writes the numbers of members, each behind a blank.
fn put_members<K: Sink>(pen: &mut Pen, sink: &mut K, members: &Members)
    ensures { Writes (K.taken sink.old) (K.faults sink.old) pen.old (numbers_text members.now) (K.taken sink.new) (K.faults sink.new) pen.new }
{
    for number in members.items() {
        pen.put(sink, b" ");
        pen.put_number(sink, *number as usize);
    }
}

/// Writes values, each behind a blank.
fn put_values<K: Sink>(pen: &mut Pen, sink: &mut K, values: &Values)
    ensures written { Writes (K.taken sink.old) (K.faults sink.old) pen.old (values_text values.now) (K.taken sink.new) (K.faults sink.new) pen.new }
    ensures typed { AreTypedValues values.now }
{
    for value in values.items() {
        pen.put(sink, b" ");
        put_value(pen, sink, value);
    }
}

/// Writes how a body ended.
fn put_end<K: Sink>(pen: &mut Pen, sink: &mut K, end: &End)
    ensures written { Writes (K.taken sink.old) (K.faults sink.old) pen.old (end_text end.now) (K.taken sink.new) (K.faults sink.new) pen.new }
    ensures typed { IsTypedEnd end.now }
{
    match end {
        End::Gives(value) => put_value(pen, sink, value),
        End::Traps(trap) => put_trap(pen, sink, *trap),
    }
}

/// Writes a trap.
fn put_trap<K: Sink>(pen: &mut Pen, sink: &mut K, trap: Trap)
    ensures { Writes (K.taken sink.old) (K.faults sink.old) pen.old (trap_text trap) (K.taken sink.new) (K.faults sink.new) pen.new }
{
    match trap {
        Trap::DivideByZero => pen.put(sink, b"!divide"),
        Trap::OutOfTurns => pen.put(sink, b"!turns"),
        Trap::TooDeep => pen.put(sink, b"!deep"),
        Trap::TextTooLong => pen.put(sink, b"!long"),
    }
}

/// Writes a value.
fn put_value<K: Sink>(pen: &mut Pen, sink: &mut K, value: &Value)
    ensures written { Writes (K.taken sink.old) (K.faults sink.old) pen.old (value_text value.now) (K.taken sink.new) (K.faults sink.new) pen.new }
    ensures typed { IsTypedValue value.now }
{
    match value {
        Value::Unit => pen.put(sink, b"u"),
        Value::Int(number) => {
            pen.put(sink, b"i");
            pen.put_signed(sink, number);
        }
        Value::Flag(true) => pen.put(sink, b"t"),
        Value::Flag(false) => pen.put(sink, b"f"),
        Value::Text(text) => put_text(pen, sink, text),
        Value::Ref(object) => put_object(pen, sink, *object),
    }
}

/// Writes an object: its number and its class.
fn put_object<K: Sink>(pen: &mut Pen, sink: &mut K, object: Object)
    ensures { Writes (K.taken sink.old) (K.faults sink.old) pen.old (object_text object) (K.taken sink.new) (K.faults sink.new) pen.new }
{
    pen.put(sink, b"o");
    pen.put_number(sink, object.number as usize);
    pen.put(sink, b".");
    pen.put_number(sink, usize::from(object.class));
}

/// Writes the bytes of a text, two hexadecimal digits each.
fn put_text<K: Sink>(pen: &mut Pen, sink: &mut K, text: &Text)
    ensures written { Writes (K.taken sink.old) (K.faults sink.old) pen.old (bytes_text text.now) (K.taken sink.new) (K.faults sink.new) pen.new }
    ensures typed { IsText text.now }
{
    pen.put(sink, b"x");
    pen.put_hexadecimal(sink, text.items());
}
