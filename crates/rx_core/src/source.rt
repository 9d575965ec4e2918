//! Where bytes come from.

ghost use Rattle.std.specs.Prelude.{◌≡◌, ◌+◌, ◌<◌, ◌≤◌, ◌↔◌, ℕ, List, Option, [], length, take, IfOk, OnErr};
ghost use Rattle.rx_core.specs.Streams.{Rose, Told, Gone};

/// The outside failed.
#[derive(Clone, Copy, Debug)]
pub struct Failed;

/// A source of bytes.
pub trait Source {
    /// The bytes that are left, where the source tells them.
    ghost remaining: { Self → Option (List ℕ) };

    /// How often the outside has failed.
    ghost faults: { Self → ℕ };

    /// How often `take` was called, where the source counts that.
    ghost takes: { Self → ℕ };

    /// Puts the next bytes at the start of `buf`, and gives how many came. No byte for a `buf` that has room says
    /// that the source is at its end.
    fn take(&mut self, buf: &mut [u8]) -> Result<usize, Failed>
        ensures bound { IfOk result (λ n. n ≤ length buf.old) }
        ensures gives { IfOk result (λ n. Gone (remaining self.old) (remaining self.new) (take n buf.new)) }
        ensures end { IfOk result (λ n. Told (remaining self.old) (λ left. 0 < length buf.old → ((n ≡ 0) ↔ (left ≡ [])))) }
        ensures failed { OnErr result (Rose (faults self.old) (faults self.new) × (remaining self.new ≡ remaining self.old)) }
        ensures faults { faults self.old ≤ faults self.new }
        ensures sound { IfOk result (λ n. faults self.new ≡ faults self.old) }
        ensures counted { (takes self.old ≤ takes self.new) × (takes self.new ≤ takes self.old + 1) };
}
