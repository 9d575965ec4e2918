//! A source and a sink in memory that never fail.

ghost use Rattle.std.specs.Prelude.{◌≡◌, ◌++◌, ◌-◌, ◌+◌, ◌<◌, ◌≤◌, ◌↔◌, ℕ, [], Ok, Some, length, take, drop, min, vec_len, vec_capacity, IfOk, OnErr};
ghost use Rattle.rx_core.specs.Streams.{Rose, Told, Gone, Grown};

use crate::list::List;
use crate::sink::Sink;
use crate::source::{Failed, Source};
use std::alloc::{AllocError, Global};
use std::marker::Model;

/// A source that gives these bytes, as many as a call has room for. Contracts see it as the bytes that are left.
#[derive(Drop)]
pub struct NeverSource {
    bytes: List<u8>,
    given: usize,
}

impl Model for NeverSource {
    ghost use Rattle.std.specs.Prelude.{List as ListOf, ℕ, drop, length, ◌≤◌};

    ghost Value = { ListOf ℕ };

    ghost view = { λ s. drop s.given s.bytes };

    ghost invariant = { λ s. s.given ≤ length s.bytes };
}

impl NeverSource {
    /// A source of these bytes. It takes no memory.
    pub fn new(bytes: List<u8>) -> NeverSource
        ensures { result ≡ bytes }
    {
        NeverSource { bytes, given: 0 }
    }
}

impl Source for NeverSource {
    ghost remaining = { λ s. Some s };

    ghost faults = { λ _. 0 };

    ghost takes = { λ _. 0 };

    fn take(&mut self, buf: &mut [u8]) -> Result<usize, Failed>
        ensures bound { IfOk result (λ n. n ≤ length buf.old) }
        ensures gives { IfOk result (λ n. Gone (Some self.old) (Some self.new) (take n buf.new)) }
        ensures end { IfOk result (λ n. Told (Some self.old) (λ left. 0 < length buf.old → ((n ≡ 0) ↔ (left ≡ [])))) }
        ensures failed { OnErr result (Rose 0 0 × (Some self.new ≡ Some self.old)) }
        ensures faults { 0 ≤ 0 }
        ensures sound { IfOk result (λ n. ◌≡◌ {A = ℕ} 0 0) }
        ensures counted { (0 ≤ 0) × (0 ≤ 0 + 1) }
        ensures most { result ≡ Ok (min (length self.old) (length buf.old)) }
        ensures behind { IfOk result (λ n. drop n buf.new ≡ drop n buf.old) }
    {
        let rest = &self.bytes.as_slice()[self.given..];
        let n = rest.len().min(buf.len());
        buf[..n].copy_from_slice(&rest[..n]);
        self.given += n;
        Ok(n)
    }
}

/// A sink that takes bytes while it has room.
#[derive(Drop)]
pub struct NeverSink {
    held: Vec<u8>,
    room: usize,
    standstills: u64,
    puts: u64,
    ghost reserved: { vec_len held + room ≤ vec_capacity held },
}

impl NeverSink {
    /// An empty sink with room for this many bytes, whose memory it takes here.
    pub fn new(alloc: Global, room: usize) -> Result<NeverSink, AllocError>
        ensures { IfOk result (λ s. (s.held.items ≡ []) × (s.room ≡ room) × (s.standstills ≡ 0) × (s.puts ≡ 0)) }
    {
        Ok(NeverSink {
            held: Vec::with_capacity(alloc, room)?,
            room,
            standstills: 0,
            puts: 0,
        })
    }

    /// The bytes that it took.
    pub fn held(&self) -> &[u8]
        ensures { result.now ≡ self.now.held.items }
    {
        self.held.as_slice()
    }
}

impl Sink for NeverSink {
    ghost contents = { λ s. Some s.held.items };

    ghost faults = { λ _. 0 };

    ghost standstills = { λ s. s.standstills };

    ghost puts = { λ s. s.puts };

    fn put(&mut self, bytes: &[u8]) -> Result<usize, Failed>
        ensures bound { IfOk result (λ n. n ≤ length bytes.now) }
        ensures takes { IfOk result (λ n. Grown (Some self.old.held.items) (Some self.new.held.items) (take n bytes.now)) }
        ensures failed { OnErr result (Rose 0 0 × (Some self.new.held.items ≡ Some self.old.held.items)) }
        ensures faults { 0 ≤ 0 }
        ensures sound { IfOk result (λ n. ◌≡◌ {A = ℕ} 0 0) }
        ensures stood { result ≡ Ok 0 → 0 < length bytes.now → Rose self.old.standstills self.new.standstills }
        ensures moved { self.old.standstills < self.new.standstills → (result ≡ Ok 0) × (0 < length bytes.now) }
        ensures standstills { self.old.standstills ≤ self.new.standstills }
        ensures counted { (self.old.puts ≤ self.new.puts) × (self.new.puts ≤ self.old.puts + 1) }
        ensures most { result ≡ Ok (min (length bytes.now) self.old.room) }
        ensures room { IfOk result (λ n. self.new.room ≡ self.old.room - n) }
    {
        self.puts = self.puts.saturating_add(1);
        let n = bytes.len().min(self.room);
        match self.held.extend_from_slice(&bytes[..n]) {
            Ok(()) => {}
            Err(AllocError) => unreachable!(),
        }
        self.room -= n;
        if n == 0 && !bytes.is_empty() {
            self.standstills = self.standstills.saturating_add(1);
        }
        Ok(n)
    }
}
