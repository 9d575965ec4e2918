//! A source in memory that gives its bytes in pieces, and fails at given calls.

ghost use Rattle.std.specs.Prelude.{◌≡◌, ◌+◌, ◌<◌, ◌≤◌, ◌↔◌, [], Ok, Some, length, take, drop, min, IsErr, IfOk, OnErr};
ghost use Rattle.std.specs.List.{Contains};
ghost use Rattle.rx_core.specs.Streams.{Rose, Told, Gone};

use crate::calls::Calls;
use crate::list::List;
use crate::source::{Failed, Source};

/// A source of bytes that gives at most `piece` of them a call, and fails the calls whose numbers it was told.
#[derive(Drop)]
pub struct BytesSource {
    bytes: List<u8>,
    given: usize,
    piece: usize,
    calls: Calls,
    ghost within: { given ≤ length bytes },
    ghost some: { 1 ≤ piece },
}

impl BytesSource {
    /// A source of these bytes. The calls whose numbers, from 0, are in `fails` will fail. It takes no memory.
    pub fn new(bytes: List<u8>, piece: usize, fails: List<u64>) -> BytesSource
        requires { 1 ≤ piece }
        ensures bytes { (result.bytes ≡ bytes) × (result.given ≡ 0) × (result.piece ≡ piece) }
        ensures calls { (result.calls.fails ≡ fails) × (result.calls.made ≡ 0) × (result.calls.faults ≡ 0) }
    {
        BytesSource {
            bytes,
            given: 0,
            piece,
            calls: Calls::new(fails),
        }
    }
}

impl Source for BytesSource {
    ghost remaining = { λ s. Some (drop s.given s.bytes) };

    ghost faults = { λ s. s.calls.faults };

    ghost takes = { λ s. s.calls.made };

    fn take(&mut self, buf: &mut [u8]) -> Result<usize, Failed>
        ensures bound { IfOk result (λ n. n ≤ length buf.old) }
        ensures gives { IfOk result (λ n. Gone (Some (drop self.old.given self.old.bytes)) (Some (drop self.new.given self.new.bytes)) (take n buf.new)) }
        ensures end { IfOk result (λ n. Told (Some (drop self.old.given self.old.bytes)) (λ left. 0 < length buf.old → ((n ≡ 0) ↔ (left ≡ [])))) }
        ensures failed { OnErr result (Rose self.old.calls.faults self.new.calls.faults
            × (Some (drop self.new.given self.new.bytes) ≡ Some (drop self.old.given self.old.bytes))) }
        ensures faults { self.old.calls.faults ≤ self.new.calls.faults }
        ensures sound { IfOk result (λ n. self.new.calls.faults ≡ self.old.calls.faults) }
        ensures counted { (self.old.calls.made ≤ self.new.calls.made) × (self.new.calls.made ≤ self.old.calls.made + 1) }
        ensures fails { IsErr result ↔ Contains self.old.calls.fails self.old.calls.made }
        ensures most { IfOk result (λ n. n ≡ min (min (length (drop self.old.given self.old.bytes)) (length buf.old)) self.old.piece) }
        ensures behind { IfOk result (λ n. drop n buf.new ≡ drop n buf.old) }
        ensures same { (self.new.bytes ≡ self.old.bytes) × (self.new.piece ≡ self.old.piece) × (self.new.calls.fails ≡ self.old.calls.fails) }
    {
        if self.calls.fails_next() {
            return Err(Failed);
        }
        let rest = &self.bytes.as_slice()[self.given..];
        let n = rest.len().min(buf.len()).min(self.piece);
        buf[..n].copy_from_slice(&rest[..n]);
        self.given += n;
        Ok(n)
    }
}
