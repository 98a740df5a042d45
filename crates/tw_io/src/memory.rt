ghost use Rattle.std.specs.Prelude.{◌≡◌, ◌<◌, ◌≤◌, [], length, IfOk, is_err};

use crate::{Failed, Sink, Source};
use std::alloc::Global;
use std::marker::Model;
use tw_base::Memory;

/// A source over bytes in memory, that gives them in pieces and fails at chosen calls.
#[derive(Drop)]
pub struct MemSource {
    bytes: Vec<u8>,
    next: usize,
    piece: usize,
    fails: Vec<u64>,
    calls: u64,
    faults: u64,
}

impl Model for MemSource {
    ghost use Rattle.std.specs.Prelude.{◌<◌, ◌≤◌, length, drop};
    ghost use Rattle.tw_io.specs.InMemory.{Supply};

    ghost Value = { Supply };

    ghost view = { λ s. record {
      left = drop s.next s.bytes.items;
      piece = s.piece;
      fails = s.fails.items;
      calls = s.calls;
      faults = s.faults;
    } };

    ghost invariant = { λ s. (0 < s.piece) × (s.next ≤ length s.bytes.items) };
}

impl MemSource {
    ghost use Rattle.tw_io.specs.InMemory.{Supply};

    /// At most `piece` bytes come at each call. Call c, from 1, fails exactly where c is in `fails`.
    pub fn new(bytes: Vec<u8>, piece: usize, fails: Vec<u64>) -> Self
        requires { 0 < piece }
        ensures { let fresh : Supply = record { left = bytes.items; piece = piece; fails = fails.items; calls = 0; faults = 0 }
            in result ≡ fresh }
    {
        MemSource {
            bytes,
            next: 0,
            piece,
            fails,
            calls: 0,
            faults: 0,
        }
    }
}

impl Source for MemSource {
    ghost use Rattle.std.specs.Prelude.{Some};
    ghost use Rattle.std.specs.Io.{ReadsAtMost};
    ghost use Rattle.std.specs.Io.KnownBytes.{ReadConsumes};
    ghost use Rattle.tw_io.specs.Causes.{HasCause};
    ghost use Rattle.tw_io.specs.InMemory.{read_fails, read_count, after_read};

    ghost left = { λ s. Some s.left };

    ghost faults = { λ s. s.faults };

    /// Fails at the chosen calls alone, and gives as many bytes as there are, up to a piece and the buffer's length.
    fn read(&mut self, into: &mut [u8]) -> Result<usize, Failed>
        requires { 0 < length into.old }
        ensures bound { ReadsAtMost result into.new }
        ensures bytes { ReadConsumes (Some self.old.left) (Some self.new.left) result into.new }
        ensures cause { HasCause self.old.faults self.new.faults result }
        ensures fails { is_err result ≡ read_fails self.old }
        ensures count { IfOk result (λ count. count ≡ read_count self.old (length into.old)) }
        ensures after { self.new ≡ after_read self.old result }
    {
        self.calls = self.calls.saturating_add(1);
        if self.fails.contains(&self.calls) {
            self.faults = self.faults.saturating_add(1);
            return Err(Failed);
        }
        let rest = self.bytes.len() - self.next;
        let count = rest.min(self.piece.min(into.len()));
        into[..count].copy_from_slice(&self.bytes[self.next..self.next + count]);
        self.next += count;
        Ok(count)
    }
}

/// A sink in memory with a room that is fixed at its making. It takes what it is given in pieces, and
/// fails at chosen calls.
#[derive(Drop)]
pub struct MemSink {
    bytes: Vec<u8>,
    room: usize,
    piece: usize,
    fails: Vec<u64>,
    calls: u64,
    faults: u64,
}

impl Model for MemSink {
    ghost use Rattle.std.specs.Prelude.{◌<◌, ◌≤◌, length, vec_capacity};
    ghost use Rattle.tw_io.specs.InMemory.{Intake};

    ghost Value = { Intake };

    ghost view = { λ k. record {
      written = k.bytes.items;
      room = k.room;
      piece = k.piece;
      fails = k.fails.items;
      calls = k.calls;
      faults = k.faults;
    } };

    // its memory was taken at its making
    ghost invariant = { λ k. (0 < k.piece) × (length k.bytes.items ≤ k.room) × (k.room ≤ vec_capacity k.bytes) };
}

impl MemSink {
    ghost use Rattle.tw_io.specs.InMemory.{Intake};

    /// At most `piece` bytes are taken at each call, and `room` in all. Call c, from 1, fails exactly where c is in
    /// `fails` or `room` bytes were written. No write takes memory.
    pub fn new(alloc: Global, room: usize, piece: usize, fails: Vec<u64>) -> Result<Self, Memory>
        requires { 0 < piece }
        ensures { let fresh : Intake = record {
          written = [];
          room = room;
          piece = piece;
          fails = fails.items;
          calls = 0;
          faults = 0;
        }
            in IfOk result (λ sink. sink ≡ fresh) }
    {
        Ok(MemSink {
            bytes: Vec::with_capacity(alloc, room)?,
            room,
            piece,
            fails,
            calls: 0,
            faults: 0,
        })
    }

    /// What was written.
    pub fn bytes(&self) -> &[u8]
        ensures { result.now ≡ self.now.written }
    {
        &self.bytes
    }
}

impl Sink for MemSink {
    ghost use Rattle.std.specs.Prelude.{Some};
    ghost use Rattle.std.specs.Io.KnownBytes.{WriteAppends};
    ghost use Rattle.tw_io.specs.Causes.{HasCause};
    ghost use Rattle.tw_io.specs.InMemory.{write_fails, write_count, after_write};

    ghost written = { λ k. Some k.written };

    ghost faults = { λ k. k.faults };

    /// Fails at the chosen calls and where it is full, and takes as many bytes as there are, up to a piece and its room.
    fn write(&mut self, piece: &[u8]) -> Result<usize, Failed>
        requires { 0 < length piece.now }
        ensures bound { IfOk result (λ count. (0 < count) × (count ≤ length piece.now)) }
        ensures bytes { WriteAppends (Some self.old.written) (Some self.new.written) result piece.now }
        ensures cause { HasCause self.old.faults self.new.faults result }
        ensures fails { is_err result ≡ write_fails self.old }
        ensures count { IfOk result (λ count. count ≡ write_count self.old (length piece.now)) }
        ensures after { self.new ≡ after_write self.old result piece.now }
    {
        self.calls = self.calls.saturating_add(1);
        let room = self.room - self.bytes.len();
        if room == 0 || self.fails.contains(&self.calls) {
            self.faults = self.faults.saturating_add(1);
            return Err(Failed);
        }
        let count = piece.len().min(self.piece.min(room));
        self.bytes.extend_from_slice(&piece[..count]).unwrap();
        Ok(count)
    }
}
