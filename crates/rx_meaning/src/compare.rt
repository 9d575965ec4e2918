//! Whether one outcome is up to another.

ghost use Rattle.std.specs.Prelude.{◌≡◌, ◌↔◌, IsTrue};
ghost use Rattle.rx_meaning.specs.Programs.{IsFront, UpTo};

use crate::outcome::{End, Outcome};

/// Whether the second begins with the first.
fn is_front(front: &[u8], bytes: &[u8]) -> bool
    ensures { IsTrue result ↔ IsFront front.now bytes.now }
{
    bytes.starts_with(front)
}

/// Whether both runs ended in the same way.
fn is_same_end(a: End, b: End) -> bool
    ensures { IsTrue result ↔ (a ≡ b) }
{
    a == b
}

/// Whether both are equal.
fn is_same_outcome(a: &Outcome, b: &Outcome) -> bool
    ensures { IsTrue result ↔ (a.now ≡ b.now) }
{
    is_same_end(a.end, b.end) && a.printed.is(&b.printed)
}

/// Whether the first outcome is the second, or was cut off on the way there.
pub fn compare_runs(a: &Outcome, b: &Outcome) -> bool
    ensures { IsTrue result ↔ UpTo a.now b.now }
{
    match a.end {
        End::Running => is_front(a.printed.as_str().as_bytes(), b.printed.as_str().as_bytes()),
        _ => is_same_outcome(a, b),
    }
}
