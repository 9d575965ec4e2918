//! Where bytes go.

ghost use Rattle.std.specs.Prelude.{◌≡◌, ◌+◌, ◌<◌, ◌≤◌, ℕ, List, Option, Ok, length, take, IfOk, OnErr};
ghost use Rattle.rx_core.specs.Streams.{Rose, Grown};

use crate::source::Failed;

/// A sink of bytes.
pub trait Sink {
    /// The bytes that the sink holds, where it tells them.
    ghost contents: { Self → Option (List ℕ) };

    /// How often the outside has failed.
    ghost faults: { Self → ℕ };

    /// How often a call took no byte of a piece that has some.
    ghost standstills: { Self → ℕ };

    /// How often `put` was called, where the sink counts that.
    ghost puts: { Self → ℕ };

    /// Takes the first of `bytes`, and gives how many it took.
    fn put(&mut self, bytes: &[u8]) -> Result<usize, Failed>
        ensures bound { IfOk result (λ n. n ≤ length bytes.now) }
        ensures takes { IfOk result (λ n. Grown (contents self.old) (contents self.new) (take n bytes.now)) }
        ensures failed { OnErr result (Rose (faults self.old) (faults self.new) × (contents self.new ≡ contents self.old)) }
        ensures faults { faults self.old ≤ faults self.new }
        ensures sound { IfOk result (λ n. faults self.new ≡ faults self.old) }
        ensures stood { result ≡ Ok 0 → 0 < length bytes.now → Rose (standstills self.old) (standstills self.new) }
        ensures moved { standstills self.old < standstills self.new → (result ≡ Ok 0) × (0 < length bytes.now) }
        ensures standstills { standstills self.old ≤ standstills self.new }
        ensures counted { (puts self.old ≤ puts self.new) × (puts self.new ≤ puts self.old + 1) };
}
