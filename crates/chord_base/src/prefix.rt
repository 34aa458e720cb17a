//! How many of a list of entries are a run: a plain and slow program whose contract is the machine's definition.
//!
//! It keeps what each body does in a table, and looks through all entries for each message. It is the measure of faster
//! programs, and the test of the definitions.
#![tactic(auto)]

ghost use Rattle.std.specs.Prelude.{◌≡◌, ℕ, ◌∷◌, map, reverse, IsTrue, IfOk, ◌↔◌, Some, None};
ghost use Rattle.chord_base.specs.declared.event.What.{What};
ghost use Rattle.chord_base.specs.Messages.{maker};
ghost use Rattle.chord_base.specs.Bodies.{served, served_among, serves, begun, own, waiting, answered, heard, asked};
ghost use Rattle.chord_base.specs.Machine.{MayFollow};
ghost use Rattle.chord_base.specs.Called.{start_of, asked_by};
ghost use Rattle.chord_base.specs.BodyTable.{doing_of, doing_at, IsTable, IsFiring};
ghost use Rattle.chord_base.specs.Prefix.{IsRunLength};

use crate::body::{Begun, Body};
use crate::equal::same_what;
use crate::event::{End, Entry, What};
use crate::firing::are_taken;
use crate::meaning::{Meaning, Next, Start};
use crate::past::entry_of;
use crate::value::{Object, Value};
use std::alloc::{AllocError, Global};

/// Of the members, the one that stands at the first synchronous method.
fn served_of<M: Meaning>(meaning: &M, class: u16, methods: &[u8], members: &[u16]) -> Option<u32>
    ensures { result ≡ served_among ((M.program meaning.now).is_sync class) methods.now members.now }
{
    for i in 0..methods.len() {
        if i >= members.len() {
            return None;
        }
        if meaning.is_sync(class, methods[i]) {
            return Some(u32::from(members[i]));
        }
    }
    None
}

/// The call that an entry serves.
fn served_by<M: Meaning>(alloc: Global, meaning: &M, what: &What) -> Result<Option<u32>, AllocError>
    ensures { IfOk result (λ call. call ≡ served (M.program meaning.now) what.now) }
{
    match what {
        What::Fired(chord, object, members, _) => {
            match meaning.chord(alloc, object.class, *chord)? {
                Some(methods) => Ok(served_of(meaning, object.class, &methods, members.items())),
                None => Ok(None),
            }
        }
        _ => Ok(None),
    }
}

/// The call that a body serves.
fn served_by_body<M: Meaning>(
    alloc: Global,
    meaning: &M,
    past: &[Entry],
    body: u32,
) -> Result<Option<u32>, AllocError>
    ensures { IfOk result (λ call. call ≡ serves (M.program meaning.now) body (reverse past.now)) }
{
    match entry_of(past, body) {
        Some(entry) => served_by(alloc, meaning, &entry.what),
        None => Ok(None),
    }
}

/// The next ask of a body.
fn next_of<M: Meaning>(
    alloc: Global,
    meaning: &M,
    bodies: &[Body],
    body: u32,
) -> Result<Option<Next>, AllocError>
    ensures { IfOk result (λ ask. asked_by ask ≡ asked (M.program meaning.now) (doing_at bodies.now body)) }
{
    match bodies.get(body as usize) {
        Some(Body::Ready(begun)) => meaning.next(alloc, &begun.start, begun.depth, &begun.answers),
        _ => Ok(None),
    }
}

/// Whether this is the next ask of a body.
fn is_next<M: Meaning>(
    alloc: Global,
    meaning: &M,
    bodies: &[Body],
    body: u32,
    what: &What,
) -> Result<bool, AllocError>
    ensures { IfOk result (λ yes. IsTrue yes ↔ ((l : ℕ) × (asked (M.program meaning.now) (doing_at bodies.now body) ≡ Some (record { what = what.now; depth = l })))) }
{
    match next_of(alloc, meaning, bodies, body)? {
        Some(next) => Ok(same_what(&next.what, what)),
        None => Ok(false),
    }
}

/// The body that a firing begins.
fn begun_by(alloc: Global, bodies: &[Body], past: &[Entry], start: Start, call: Option<u32>) -> Body
    ensures { doing_of result ≡ begun (start_of start) call (λ q. maker q (reverse past.now)) (doing_at bodies.now) }
{
    let Some(call) = call else {
        return Body::Ready(Begun {
            start,
            depth: 1,
            answers: Vec::new(alloc),
        });
    };
    match entry_of(past, call) {
        Some(entry) => match bodies.get(entry.body as usize) {
            Some(caller) => Body::placed(alloc, start, call, caller),
            None => Body::Unplaced,
        },
        None => Body::Unplaced,
    }
}

/// What a body does, copied from the table.
fn body_of(alloc: Global, bodies: &[Body], body: u32) -> Result<Body, AllocError>
    ensures { IfOk result (λ it. doing_of it ≡ doing_at bodies.now body) }
{
    match bodies.get(body as usize) {
        Some(it) => it.copied(alloc),
        None => Ok(Body::Absent),
    }
}

/// The body that waits for the call that it has made.
fn calling<M: Meaning>(
    alloc: Global,
    meaning: &M,
    body: Body,
    number: u32,
) -> Result<Body, AllocError>
    ensures { IfOk result (λ it. doing_of it ≡ waiting (M.program meaning.now) number (doing_of body)) }
{
    match body {
        Body::Ready(begun) => {
            let place = match meaning.next(alloc, &begun.start, begun.depth, &begun.answers)? {
                Some(next) => next.depth,
                None => 0,
            };
            Ok(Body::Waits(begun, number, place))
        }
        other => Ok(other),
    }
}

/// What a body does after an entry of its own.
fn own<M: Meaning>(
    alloc: Global,
    meaning: &M,
    bodies: &[Body],
    past: &[Entry],
    entry: &Entry,
) -> Result<Body, AllocError>
    ensures { IfOk result (λ it. doing_of it ≡ own (M.program meaning.now) entry.now.number entry.now.what (λ q. maker q (reverse past.now)) (doing_at bodies.now) (doing_at bodies.now entry.now.body)) }
{
    match &entry.what {
        What::Begun => Ok(begun_by(alloc, bodies, past, Start::Main, None)),
        What::Fired(chord, object, _, values) => {
            let call = served_by(alloc, meaning, &entry.what)?;
            let start = Start::Chord(*chord, *object, values.copied(alloc)?);
            Ok(begun_by(alloc, bodies, past, start, call))
        }
        What::Made(class) => {
            let object = Object {
                number: entry.number,
                class: *class,
            };
            body_of(alloc, bodies, entry.body)?.replied(alloc, End::Gives(Value::Ref(object)))
        }
        What::Sent(..) => body_of(alloc, bodies, entry.body)?.replied(
            alloc,
            End::Gives(Value::Unit),
        ),
        What::Printed(_) => body_of(alloc, bodies, entry.body)?.replied(
            alloc,
            End::Gives(Value::Unit),
        ),
        What::Called(..) => {
            let body = body_of(alloc, bodies, entry.body)?;
            calling(alloc, meaning, body, entry.number)
        }
        What::Ended(end) => Ok(Body::Over(end.copied(alloc)?)),
    }
}

/// What the bodies do after the end of the one that serves this call.
fn after_end(alloc: Global, bodies: &[Body], end: &End, call: u32) -> Result<Vec<Body>, AllocError>
    ensures { IfOk result (λ after. map doing_of after.items ≡ map (λ body. answered end.now (Some call) (doing_of body)) bodies.now) }
{
    let mut after = Vec::new(alloc);
    for body in bodies {
        after.push(body.heard(alloc, end, call)?)?;
    }
    Ok(after)
}

/// An equal table.
fn table_copied(alloc: Global, bodies: &[Body]) -> Result<Vec<Body>, AllocError>
    ensures { IfOk result (λ copy. map doing_of copy.items ≡ map doing_of bodies.now) }
{
    let mut copy = Vec::new(alloc);
    for body in bodies {
        copy.push(body.copied(alloc)?)?;
    }
    Ok(copy)
}

/// What the other bodies do after an entry.
fn others<M: Meaning>(
    alloc: Global,
    meaning: &M,
    bodies: &[Body],
    past: &[Entry],
    entry: &Entry,
) -> Result<Vec<Body>, AllocError>
    ensures { IfOk result (λ after. map doing_of after.items ≡ map (λ body. heard entry.now.what (serves (M.program meaning.now) entry.now.body (reverse past.now)) (doing_of body)) bodies.now) }
{
    match &entry.what {
        What::Ended(end) => match served_by_body(alloc, meaning, past, entry.body)? {
            Some(call) => after_end(alloc, bodies, end, call),
            None => table_copied(alloc, bodies),
        },
        _ => table_copied(alloc, bodies),
    }
}

/// The table after one more entry, which may follow.
fn after<M: Meaning>(
    alloc: Global,
    meaning: &M,
    bodies: &[Body],
    past: &[Entry],
    entry: &Entry,
) -> Result<Vec<Body>, AllocError>
    requires table { IsTable (M.program meaning.now) (reverse past.now) bodies.now }
    requires may { MayFollow (M.program meaning.now) (reverse past.now) entry.now }
    ensures { IfOk result (λ after. IsTable (M.program meaning.now) (entry.now ∷ reverse past.now) after.items) }
{
    let mine = own(alloc, meaning, bodies, past, entry)?;
    let mut after = others(alloc, meaning, bodies, past, entry)?;
    after.push(Body::Absent)?;
    after[entry.body as usize] = mine;
    Ok(after)
}

/// Whether a chord may fire so.
fn may_fire<M: Meaning>(
    alloc: Global,
    meaning: &M,
    past: &[Entry],
    what: &What,
) -> Result<bool, AllocError>
    ensures { IfOk result (λ yes. IsTrue yes ↔ IsFiring (M.program meaning.now) (reverse past.now) what.now) }
{
    match what {
        What::Fired(chord, object, members, values) => {
            match meaning.chord(alloc, object.class, *chord)? {
                Some(methods) => Ok(are_taken(
                    past,
                    *object,
                    &methods,
                    members.items(),
                    values.items(),
                )),
                None => Ok(false),
            }
        }
        _ => Ok(false),
    }
}

/// Whether the entry may follow the entries before it.
fn may_follow<M: Meaning>(
    alloc: Global,
    meaning: &M,
    bodies: &[Body],
    past: &[Entry],
    entry: &Entry,
) -> Result<bool, AllocError>
    requires { IsTable (M.program meaning.now) (reverse past.now) bodies.now }
    ensures { IfOk result (λ yes. IsTrue yes ↔ MayFollow (M.program meaning.now) (reverse past.now) entry.now) }
{
    if entry.number as usize != past.len() {
        return Ok(false);
    }
    match &entry.what {
        What::Begun => Ok(past.len() == 0 && entry.body == 0),
        What::Fired(..) => Ok(
            entry.body == entry.number && may_fire(alloc, meaning, past, &entry.what)?,
        ),
        _ => is_next(alloc, meaning, bodies, entry.body, &entry.what),
    }
}

/// How many of the entries are a run: each of these may follow those before it, and the next one, if there is one, may not.
///
/// `AllocError`: the call ran out of memory.
pub fn run_length<M: Meaning>(
    alloc: Global,
    meaning: &M,
    entries: &[Entry],
) -> Result<usize, AllocError>
    ensures { IfOk result (IsRunLength (M.program meaning.now) entries.now) }
{
    let mut bodies = Vec::new(alloc);
    for i in 0..entries.len() {
        let (past, entry) = (&entries[..i], &entries[i]);
        if !may_follow(alloc, meaning, &bodies, past, entry)? {
            return Ok(i);
        }
        bodies = after(alloc, meaning, &bodies, past, entry)?;
    }
    Ok(entries.len())
}
