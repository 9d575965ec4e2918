//! The integers of each kind.

ghost use Rattle.std.specs.Prelude.{◌≡◌};
ghost use Rattle.rx_cover.specs.Values as values;

use rx_core::Kind;

pub(crate) fn greatest(kind: Kind) -> u64
    ensures { result ≡ values.greatest kind }
{
    match kind {
        Kind::U8 => 255,
        Kind::U32 => 4294967295,
        Kind::U64 => 18446744073709551615,
        Kind::I32 => 2147483647,
        Kind::I64 => 9223372036854775807,
    }
}

/// How many integers below 0 a kind has.
pub(crate) fn below_zero(kind: Kind) -> u64
    ensures { result ≡ values.below_zero kind }
{
    match kind {
        Kind::U8 | Kind::U32 | Kind::U64 => 0,
        Kind::I32 => 2147483648,
        Kind::I64 => 9223372036854775808,
    }
}
