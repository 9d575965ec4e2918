//! Sets of integer types.

ghost use Rattle.std.specs.Prelude.{◌≡◌};
ghost use Rattle.rx_typeck_solver.specs.Facts as facts_of;
ghost use Rattle.rx_typeck_solver.specs.Solver as sets;

use crate::facts::Kinds;
use rx_core::Kind;

/// Those of both sets.
pub(crate) fn meet(a: Kinds, b: Kinds) -> Kinds
    ensures { result ≡ sets.meet a b }
{
    Kinds {
        u8: a.u8 && b.u8,
        u32: a.u32 && b.u32,
        u64: a.u64 && b.u64,
        i32: a.i32 && b.i32,
        i64: a.i64 && b.i64,
    }
}

/// Whether the set has an integer type.
pub(crate) fn some_kind(a: Kinds) -> bool
    ensures { result ≡ sets.some_kind a }
{
    a.u8 || a.u32 || a.u64 || a.i32 || a.i64
}

/// Whether the set has this integer type.
pub(crate) fn has(kinds: Kinds, kind: Kind) -> bool
    ensures { result ≡ facts_of.has kinds kind }
{
    match kind {
        Kind::U8 => kinds.u8,
        Kind::U32 => kinds.u32,
        Kind::U64 => kinds.u64,
        Kind::I32 => kinds.i32,
        Kind::I64 => kinds.i64,
    }
}

/// All integer types.
pub(crate) fn all_kinds() -> Kinds
    ensures { result ≡ sets.all_kinds }
{
    Kinds {
        u8: true,
        u32: true,
        u64: true,
        i32: true,
        i64: true,
    }
}

/// The set of one.
pub(crate) fn only(kind: Kind) -> Kinds
    ensures { result ≡ sets.only kind }
{
    Kinds {
        u8: kind == Kind::U8,
        u32: kind == Kind::U32,
        u64: kind == Kind::U64,
        i32: kind == Kind::I32,
        i64: kind == Kind::I64,
    }
}

/// The set of all but one.
fn others(kind: Kind) -> Kinds
    ensures { result ≡ sets.others kind }
{
    Kinds {
        u8: kind != Kind::U8,
        u32: kind != Kind::U32,
        u64: kind != Kind::U64,
        i32: kind != Kind::I32,
        i64: kind != Kind::I64,
    }
}

/// The integer type that is given to a class with this set: i32 where it can be.
pub(crate) fn pick(kinds: Kinds) -> Kind
    ensures { result ≡ sets.pick kinds }
{
    if kinds.i32 {
        Kind::I32
    } else if kinds.u8 {
        Kind::U8
    } else if kinds.u32 {
        Kind::U32
    } else if kinds.u64 {
        Kind::U64
    } else {
        Kind::I64
    }
}

/// Whether the set has one integer type at most.
pub(crate) fn single(kinds: Kinds) -> bool
    ensures { result ≡ sets.single kinds }
{
    !some_kind(meet(kinds, others(pick(kinds))))
}
