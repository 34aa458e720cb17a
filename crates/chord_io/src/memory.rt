//! A source and a sink in memory, which fail at the calls that they are told to.
ghost use Rattle.std.specs.Prelude.{◌≡◌, ◌<◌, ◌≤◌, ◌-◌, ◌↔◌, ◌++◌, [], length, take, drop, min, Some, IfOk, OnErr, IsErr, IsTrue, Contains, vec_len, vec_capacity};
ghost use Rattle.chord_io.specs.Faults.{Rose, one_more};
ghost use Rattle.chord_io.specs.Memory.{Supply, Store, ReadFails, WriteFails};

use crate::count::one_more;
use crate::{Failed, Sink, Source};
use std::alloc::{AllocError, Global};
use std::marker::Model;

/// A source that gives the bytes of a list.
#[derive(Drop)]
pub struct MemSource {
    bytes: Vec<u8>,
    next: usize,
    piece: u32,
    fails: Vec<u32>,
    calls: u64,
    faults: u64,
}

impl Model for MemSource {
    ghost Value = { Supply };

    ghost view = { λ s. record {
      left = drop s.next s.bytes.items;
      piece = s.piece;
      fails = s.fails.items;
      calls = s.calls;
      faults = s.faults;
    } };

    ghost invariant = { λ s. (s.next ≤ vec_len s.bytes) × (1 ≤ s.piece) };
}

impl MemSource {
    /// A source of these bytes that gives at most `piece` at a time, and fails at the calls of `fails`, counted from 1.
    pub fn new(bytes: Vec<u8>, piece: u32, fails: Vec<u32>) -> MemSource
        requires { 1 ≤ piece }
        ensures { result ≡ record { left = bytes.items; piece = piece; fails = fails.items; calls = 0; faults = 0 } }
    {
        MemSource {
            bytes,
            next: 0,
            piece,
            fails,
            calls: 0,
            faults: 0,
        }
    }
}

impl Source for MemSource {
    ghost left = { λ s. Some s.left };

    ghost faults = { λ s. s.faults };

    fn read(&mut self, buf: &mut [u8]) -> Result<usize, Failed>
        ensures exact { IsErr result ↔ ReadFails self.old }
        ensures count { IfOk result (λ n. n ≡ min (length buf.old) (min self.old.piece (length self.old.left))) }
        ensures prefix { IfOk result (λ n. take n buf.new ≡ take n self.old.left) }
        ensures rest { IfOk result (λ n. self.new ≡ record self.old { left = drop n self.old.left; calls = one_more self.old.calls }) }
        ensures end { IfOk result (λ n. n ≡ 0 → 0 < length buf.old → self.new.left ≡ []) }
        ensures err { OnErr result (self.new ≡ record self.old { calls = one_more self.old.calls; faults = one_more self.old.faults }) }
        ensures failed { OnErr result (Rose self.old.faults self.new.faults) }
        ensures never_falls { self.old.faults ≤ self.new.faults }
    {
        self.calls = one_more(self.calls);
        if is_listed(&self.fails, self.calls) {
            self.faults = one_more(self.faults);
            return Err(Failed);
        }
        let left = &self.bytes[self.next..];
        let count = buf.len().min(self.piece as usize).min(left.len());
        buf[..count].copy_from_slice(&left[..count]);
        self.next += count;
        Ok(count)
    }
}

/// A sink that keeps the bytes that it took, in room that it has from the start.
#[derive(Drop)]
pub struct MemSink {
    bytes: Vec<u8>,
    room: u32,
    piece: u32,
    fails: Vec<u32>,
    calls: u64,
    faults: u64,
}

impl Model for MemSink {
    ghost Value = { Store };

    ghost view = { λ s. record {
      taken = s.bytes.items;
      room = s.room;
      piece = s.piece;
      fails = s.fails.items;
      calls = s.calls;
      faults = s.faults;
    } };

    ghost invariant = { λ s. (vec_len s.bytes ≤ s.room) × (s.room ≤ vec_capacity s.bytes) × (1 ≤ s.piece) };
}

impl MemSink {
    /// A sink with room for `room` bytes that takes at most `piece` at a time, and fails at the calls of `fails`,
    /// counted from 1.
    ///
    /// # Errors
    ///
    /// `AllocError` where there is no memory for the room.
    pub fn new(alloc: Global, room: u32, piece: u32, fails: Vec<u32>) -> Result<MemSink, AllocError>
        requires { 1 ≤ piece }
        ensures { IfOk result (λ sink. sink
            ≡ record { taken = []; room = room; piece = piece; fails = fails.items; calls = 0; faults = 0 }) }
    {
        let bytes = Vec::with_capacity(alloc, room as usize)?;
        Ok(MemSink {
            bytes,
            room,
            piece,
            fails,
            calls: 0,
            faults: 0,
        })
    }

    /// The bytes that were taken.
    pub fn taken(&self) -> &[u8]
        ensures { result.now ≡ self.now.taken }
    {
        self.bytes.as_slice()
    }
}

impl Sink for MemSink {
    ghost taken = { λ s. Some s.taken };

    ghost faults = { λ s. s.faults };

    fn write(&mut self, piece: &[u8]) -> Result<usize, Failed>
        ensures exact { IsErr result ↔ WriteFails self.old piece.now }
        ensures count { IfOk result (λ n. n ≡ min (min (length piece.now) self.old.piece) (self.old.room - length self.old.taken)) }
        ensures ok { IfOk result (λ n. self.new ≡ record self.old { taken = self.old.taken ++ take n piece.now; calls = one_more self.old.calls }) }
        ensures none { IfOk result (λ n. n ≡ 0 → length piece.now ≡ 0) }
        ensures err { OnErr result (self.new ≡ record self.old { calls = one_more self.old.calls; faults = one_more self.old.faults }) }
        ensures failed { OnErr result (Rose self.old.faults self.new.faults) }
        ensures never_falls { self.old.faults ≤ self.new.faults }
    {
        self.calls = one_more(self.calls);
        let free = self.room as usize - self.bytes.len();
        let no_room = free == 0 && !piece.is_empty();
        if no_room || is_listed(&self.fails, self.calls) {
            self.faults = one_more(self.faults);
            return Err(Failed);
        }
        let count = piece.len().min(self.piece as usize).min(free);
        self.bytes.extend_from_slice(&piece[..count]).unwrap();
        Ok(count)
    }
}

/// Whether the call of this number is one of the calls.
fn is_listed(calls: &[u32], call: u64) -> bool
    ensures { IsTrue result ↔ Contains calls.now call }
{
    calls.iter().any(|number| u64::from(*number) == call)
}
