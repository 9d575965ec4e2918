//! The facts that rules ask.

ghost use Rattle.std.specs.Prelude.{◌≡◌, Bool, [], ◌∷◌, ◌++◌, Ok, Err, Option, Some, None, IfOk};
ghost use Rattle.rx_typeck_solver.specs.declared.facts.Op.TheVariants as op;
ghost use Rattle.rx_typeck_solver.specs.declared.facts.Fact.TheVariants as fact;
ghost use Rattle.rx_typeck_typed.specs.Asking as asking;
ghost use Rattle.rx_typeck_typed.specs.Demands as demands;

use rx_core::{Kind, List, keep, pushed};
use rx_typeck_solver::{Fact, Kinds, Op, Passing, Subject, Test};
use rx_typed::Node;
use std::alloc::{AllocError, Global};

pub fn type_of(node: Node) -> Subject
    ensures { result ≡ asking.type_of node }
{
    Subject::Node(node.number)
}

pub fn expected(node: Node) -> Subject
    ensures { result ≡ asking.expected node }
{
    Subject::Expected(node.number)
}

/// The first has the type that is made of these.
pub fn is(alloc: Global, subject: Subject, made: Op, parts: &[Subject]) -> Result<Fact, AllocError>
    ensures { IfOk result (λ f. f ≡ asking.is subject made parts.now) }
{
    let (parts, made) = keep(made, List::from_slice(alloc, parts))?;
    Ok(Fact::Equals(subject, made, parts, List::new(alloc)))
}

/// Both have one type.
pub fn alike(alloc: Global, first: Subject, second: Subject) -> Result<Fact, AllocError>
    ensures { IfOk result (λ f. f ≡ asking.alike first second) }
{
    is(alloc, first, Op::Same, &[second])
}

/// The first has the type of the second behind references, where these are gone through.
pub fn is_bound(
    alloc: Global,
    first: Subject,
    second: Subject,
    passing: &[Passing],
) -> Result<Fact, AllocError>
    ensures { IfOk result (λ f. f ≡ fact.Equals first op.Bound (second ∷ []) passing.now) }
{
    let parts = List::from_slice(alloc, &[second])?;
    let passing = List::from_slice(alloc, passing)?;
    Ok(Fact::Equals(first, Op::Bound, parts, passing))
}

/// These pass a test.
pub fn passes(alloc: Global, test: Test, subjects: &[Subject]) -> Result<Fact, AllocError>
    ensures { IfOk result (λ f. f ≡ asking.passes test subjects.now) }
{
    let (subjects, test) = keep(test, List::from_slice(alloc, subjects))?;
    Ok(Fact::Passes(test, subjects, List::new(alloc), List::new(alloc)))
}

/// These pass a test, with the dereferences of a pattern, and those of a place.
pub fn passes_through(
    alloc: Global,
    test: Test,
    subjects: &[Subject],
    pattern: &[Passing],
    place: &[Passing],
) -> Result<Fact, AllocError>
    ensures { IfOk result (λ f. f ≡ fact.Passes test subjects.now pattern.now place.now) }
{
    let (subjects, test) = keep(test, List::from_slice(alloc, subjects))?;
    let (pattern, test) = keep(test, List::from_slice(alloc, pattern))?;
    let (place, test) = keep(test, List::from_slice(alloc, place))?;
    Ok(Fact::Passes(test, subjects, pattern, place))
}

/// An integer operand, where it has a type.
pub fn integer_operand(facts: List<Fact>, node: Node, never: bool) -> Result<List<Fact>, AllocError>
    ensures { IfOk result (λ fs. fs ≡ facts ++ demands.integer_operand node never) }
{
    if never {
        Ok(facts)
    } else {
        pushed(facts, Fact::Integer(node.number, all()))
    }
}

/// An operand that is an integer or a truth value, where it has a type.
pub fn plain_operand(
    alloc: Global,
    facts: List<Fact>,
    node: Node,
    never: bool,
) -> Result<List<Fact>, AllocError>
    ensures { IfOk result (λ fs. fs ≡ facts ++ demands.plain_operand node never) }
{
    if never {
        Ok(facts)
    } else {
        let (fact, facts) = keep(facts, passes(alloc, Test::Plain, &[type_of(node)]))?;
        pushed(facts, fact)
    }
}

/// An operand that is a truth value, where it has a type.
pub fn truth_operand(
    alloc: Global,
    facts: List<Fact>,
    node: Node,
    never: bool,
) -> Result<List<Fact>, AllocError>
    ensures { IfOk result (λ fs. fs ≡ facts ++ demands.truth_operand node never) }
{
    if never {
        Ok(facts)
    } else {
        let (fact, facts) = keep(facts, is(alloc, type_of(node), Op::Truth, &[]))?;
        pushed(facts, fact)
    }
}

/// The list with the fact that two have one type, unless one of them has none.
pub fn alike_unless(
    alloc: Global,
    facts: List<Fact>,
    never: bool,
    first: Node,
    second: Node,
) -> Result<List<Fact>, AllocError>
    ensures { IfOk result (λ fs. fs ≡ facts ++ asking.typed never (asking.alike (asking.type_of first) (asking.type_of second))) }
{
    if never {
        Ok(facts)
    } else {
        let (fact, facts) = keep(facts, alike(alloc, type_of(first), type_of(second)))?;
        pushed(facts, fact)
    }
}

/// The integer types.
pub fn all() -> Kinds
    ensures { result ≡ asking.all }
{
    Kinds {
        u8: true,
        u32: true,
        u64: true,
        i32: true,
        i64: true,
    }
}

/// The signed integer types.
pub fn signed() -> Kinds
    ensures { result ≡ asking.signed }
{
    Kinds {
        u8: false,
        u32: false,
        u64: false,
        i32: true,
        i64: true,
    }
}

/// The integer types that hold a literal; whether it stands directly under a minus.
pub fn fitting(minus: bool, value: u64) -> Kinds
    ensures { result ≡ asking.fitting minus value }
{
    Kinds {
        u8: value <= 255,
        u32: value <= 4294967295,
        u64: value <= 18446744073709551615,
        i32: value <= 2147483647 || minus && value <= 2147483648,
        i64: value <= 9223372036854775807 || minus && value <= 9223372036854775808,
    }
}

/// The integer types of a literal with this suffix, or with none.
pub fn with_suffix(suffix: Option<Kind>) -> Kinds
    ensures { result ≡ asking.with_suffix suffix }
{
    match suffix {
        Some(kind) => just(kind),
        None => all(),
    }
}

fn just(kind: Kind) -> Kinds
    ensures { result ≡ asking.just kind }
{
    Kinds {
        u8: matches!(kind, Kind::U8),
        u32: matches!(kind, Kind::U32),
        u64: matches!(kind, Kind::U64),
        i32: matches!(kind, Kind::I32),
        i64: matches!(kind, Kind::I64),
    }
}

/// Whether a literal has no suffix.
pub fn is_open(suffix: Option<Kind>) -> bool
    ensures { result ≡ asking.is_open suffix }
{
    match suffix {
        Some(_) => false,
        None => true,
    }
}
