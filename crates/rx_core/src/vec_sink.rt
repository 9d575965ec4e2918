//! A sink in memory that takes its bytes in pieces while it has room, and fails at given calls.

ghost use Rattle.std.specs.Prelude.{◌≡◌, ◌+◌, ◌-◌, ◌<◌, ◌≤◌, ◌↔◌, [], Ok, Some, length, take, min, vec_len, vec_capacity, IsErr, IfOk, OnErr};
ghost use Rattle.std.specs.List.{Contains};
ghost use Rattle.rx_core.specs.Streams.{Rose, Grown};

use crate::calls::Calls;
use crate::list::List;
use crate::sink::Sink;
use crate::source::Failed;
use std::alloc::{AllocError, Global};

/// A sink that takes at most `piece` bytes a call while it has room, and fails the calls whose numbers it was told.
#[derive(Drop)]
pub struct VecSink {
    held: Vec<u8>,
    room: usize,
    piece: usize,
    calls: Calls,
    standstills: u64,
    ghost reserved: { vec_len held + room ≤ vec_capacity held },
    ghost some: { 1 ≤ piece },
}

impl VecSink {
    /// An empty sink with room for this many bytes, whose memory it takes here. The calls whose numbers, from 0, are in
    /// `fails` will fail.
    pub fn new(
        alloc: Global,
        room: usize,
        piece: usize,
        fails: List<u64>,
    ) -> Result<VecSink, AllocError>
        requires { 1 ≤ piece }
        ensures room { IfOk result (λ s. (s.held.items ≡ []) × (s.room ≡ room) × (s.piece ≡ piece) × (s.standstills ≡ 0)) }
        ensures calls { IfOk result (λ s. (s.calls.fails ≡ fails) × (s.calls.made ≡ 0) × (s.calls.faults ≡ 0)) }
    {
        Ok(VecSink {
            held: Vec::with_capacity(alloc, room)?,
            room,
            piece,
            calls: Calls::new(fails),
            standstills: 0,
        })
    }

    /// The bytes that it took.
    pub fn held(&self) -> &[u8]
        ensures { result.now ≡ self.now.held.items }
    {
        self.held.as_slice()
    }
}

impl Sink for VecSink {
    ghost contents = { λ s. Some s.held.items };

    ghost faults = { λ s. s.calls.faults };

    ghost standstills = { λ s. s.standstills };

    ghost puts = { λ s. s.calls.made };

    fn put(&mut self, bytes: &[u8]) -> Result<usize, Failed>
        ensures bound { IfOk result (λ n. n ≤ length bytes.now) }
        ensures takes { IfOk result (λ n. Grown (Some self.old.held.items) (Some self.new.held.items) (take n bytes.now)) }
        ensures failed { OnErr result (Rose self.old.calls.faults self.new.calls.faults × (Some self.new.held.items ≡ Some self.old.held.items)) }
        ensures faults { self.old.calls.faults ≤ self.new.calls.faults }
        ensures sound { IfOk result (λ n. self.new.calls.faults ≡ self.old.calls.faults) }
        ensures stood { result ≡ Ok 0 → 0 < length bytes.now → Rose self.old.standstills self.new.standstills }
        ensures moved { self.old.standstills < self.new.standstills → (result ≡ Ok 0) × (0 < length bytes.now) }
        ensures standstills { self.old.standstills ≤ self.new.standstills }
        ensures counted { (self.old.calls.made ≤ self.new.calls.made) × (self.new.calls.made ≤ self.old.calls.made + 1) }
        ensures fails { IsErr result ↔ Contains self.old.calls.fails self.old.calls.made }
        ensures most { IfOk result (λ n. n ≡ min (min (length bytes.now) self.old.piece) self.old.room) }
        ensures room { IfOk result (λ n. self.new.room ≡ self.old.room - n) }
        ensures same { (self.new.piece ≡ self.old.piece) × (self.new.calls.fails ≡ self.old.calls.fails) }
    {
        if self.calls.fails_next() {
            return Err(Failed);
        }
        let n = bytes.len().min(self.piece).min(self.room);
        match self.held.extend_from_slice(&bytes[..n]) {
            Ok(()) => {}
            Err(AllocError) => unreachable!(),
        }
        self.room -= n;
        if n == 0 && !bytes.is_empty() {
            self.standstills = self.standstills.saturating_add(1);
        }
        Ok(n)
    }
}
