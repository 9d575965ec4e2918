//! Reads all that a source has.

ghost use Rattle.std.specs.Prelude.{◌≡◌, ◌+◌, ◌<◌, ◌≤◌, ◌↔◌, ℕ, List as ListOf, Some, [], length, IfOk, OnErr, IsErrOf, ◌++◌};
ghost use Rattle.rx_core.specs.Streams.{Rose, Told, Gone};

use crate::list::List;
use crate::source::{Failed, Source};
use std::alloc::{AllocError, Global};
use thiserror::Error;

/// Why a source was not read whole.
#[derive(Debug, Drop, Error)]
pub enum ReadFail {
    #[error("the source failed")]
    ReadFault,
    #[error("too many bytes")]
    TooLong,
    #[error("out of memory")]
    OutOfMemory,
}

/// The bytes that one call takes at most.
const PIECE: usize = 4096;

/// Takes one piece of at most `room` bytes, and adds it to `bytes`, of which there are at most `limit` then. Gives how
/// many came.
fn read_piece<S: Source>(
    source: &mut S,
    room: usize,
    limit: usize,
    bytes: &mut Vec<u8>,
) -> Result<usize, ReadFail>
    requires some { 1 ≤ room }
    requires room { length bytes.old.items + room ≡ limit + 1 }
    requires small { limit ≤ 16777216 }
    ensures gives { IfOk result (λ n. (piece : ListOf ℕ) × (length piece ≡ n) × (length bytes.new.items ≤ limit)
        × (bytes.new.items ≡ bytes.old.items ++ piece) × Gone (S.remaining source.old) (S.remaining source.new) piece) }
    ensures end { IfOk result (λ n. Told (S.remaining source.old) (λ left. n ≡ 0 → left ≡ [])) }
    ensures lost { OnErr result ((piece : ListOf ℕ) × (length piece ≤ room) × (IsErrOf result ReadFail.TooLong ↔ (length piece ≡ room))
        × Gone (S.remaining source.old) (S.remaining source.new) piece) }
    ensures fault { IsErrOf result ReadFail.ReadFault → Rose (S.faults source.old) (S.faults source.new) }
    ensures faults { S.faults source.old ≤ S.faults source.new }
    ensures sound { (IsErrOf result ReadFail.ReadFault → ⊥) → S.faults source.new ≡ S.faults source.old }
    ensures counted { (S.takes source.old ≤ S.takes source.new) × (S.takes source.new ≤ S.takes source.old + 1) }
{
    let mut buf = [0u8; PIECE];
    let wanted = room.min(PIECE);
    let n = match source.take(&mut buf[..wanted]) {
        Ok(n) => n,
        Err(Failed) => return Err(ReadFail::ReadFault),
    };
    if n == room {
        return Err(ReadFail::TooLong);
    }
    match bytes.extend_from_slice(&buf[..n]) {
        Ok(()) => Ok(n),
        Err(AllocError) => Err(ReadFail::OutOfMemory),
    }
}

/// Reads a source to its end, which is where a piece with room gets no byte. It reads at most one byte more than
/// `limit`, and fails with `TooLong` exactly where it got that byte. It makes at most `limit + 1` calls of `take`, and
/// none behind one that failed.
pub fn read_all<S: Source>(
    alloc: Global,
    source: &mut S,
    limit: usize,
) -> Result<List<u8>, ReadFail>
    requires { limit ≤ 16777216 }
    ensures all { IfOk result (λ bytes. Told (S.remaining source.old) (λ left. (bytes ≡ left) × (S.remaining source.new ≡ Some []))) }
    ensures within { IfOk result (λ bytes. length bytes ≤ limit) }
    ensures fault { IsErrOf result ReadFail.ReadFault → Rose (S.faults source.old) (S.faults source.new) }
    ensures gone { (bytes : ListOf ℕ) × (length bytes ≤ limit + 1) × (IsErrOf result ReadFail.TooLong ↔ (limit < length bytes))
        × Gone (S.remaining source.old) (S.remaining source.new) bytes }
    ensures faults { S.faults source.old ≤ S.faults source.new }
    ensures sound { (IsErrOf result ReadFail.ReadFault → ⊥) → S.faults source.new ≡ S.faults source.old }
    ensures counted { (S.takes source.old ≤ S.takes source.new) × (S.takes source.new ≤ S.takes source.old + (limit + 1)) }
{
    let mut bytes = Vec::new(alloc);
    for _turn in 0..limit + 1 {
        let room = limit + 1 - bytes.len();
        if read_piece(source, room, limit, &mut bytes)? == 0 {
            return Ok(List::from_vec(bytes));
        }
    }
    unreachable!()
}
