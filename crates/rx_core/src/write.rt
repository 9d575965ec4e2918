//! Writes all bytes to a sink.

ghost use Rattle.std.specs.Prelude.{◌≡◌, ◌+◌, ◌-◌, ◌≤◌, ℕ, length, take, OnOk, IsErrOf};
ghost use Rattle.rx_core.specs.Streams.{Rose, Grown};

use crate::sink::Sink;
use crate::source::Failed;
use thiserror::Error;

/// Why not all bytes were written.
#[derive(Debug, Drop, Error)]
pub enum WriteFail {
    #[error("the sink failed")]
    WriteFault,
    #[error("the sink takes nothing; {left} bytes are left")]
    Stuck { left: usize },
}

/// Writes all bytes. It stops where the sink fails, and with `Stuck` where the sink takes no byte; `left` bytes were
/// not written then. It makes at most as many calls of `put` as there are bytes, and none behind one that failed or
/// took no byte.
pub fn write_all_of<K: Sink>(sink: &mut K, bytes: &[u8]) -> Result<(), WriteFail>
    ensures ok { OnOk result (Grown (K.contents sink.old) (K.contents sink.new) bytes.now) }
    ensures fault { IsErrOf result WriteFail.WriteFault → Rose (K.faults sink.old) (K.faults sink.new) }
    ensures stuck { (left : ℕ) → IsErrOf result (WriteFail.Stuck left) → (1 ≤ left) × (left ≤ length bytes.now)
        × Rose (K.standstills sink.old) (K.standstills sink.new)
        × Grown (K.contents sink.old) (K.contents sink.new) (take (length bytes.now - left) bytes.now) }
    ensures front { (n : ℕ) × (n ≤ length bytes.now) × Grown (K.contents sink.old) (K.contents sink.new) (take n bytes.now) }
    ensures faults { K.faults sink.old ≤ K.faults sink.new }
    ensures sound { (IsErrOf result WriteFail.WriteFault → ⊥) → K.faults sink.new ≡ K.faults sink.old }
    ensures standstills { K.standstills sink.old ≤ K.standstills sink.new }
    ensures moving { OnOk result (K.standstills sink.new ≡ K.standstills sink.old) }
    ensures counted { (K.puts sink.old ≤ K.puts sink.new) × (K.puts sink.new ≤ K.puts sink.old + length bytes.now) }
    ensures failing { IsErrOf result WriteFail.WriteFault → K.standstills sink.new ≡ K.standstills sink.old }
{
    let mut done = 0;
    for _turn in 0..bytes.len() {
        if done == bytes.len() {
            return Ok(());
        }
        match sink.put(&bytes[done..]) {
            Ok(0) => {
                return Err(WriteFail::Stuck {
                    left: bytes.len() - done,
                });
            }
            Ok(n) => done += n,
            Err(Failed) => return Err(WriteFail::WriteFault),
        }
    }
    Ok(())
}
