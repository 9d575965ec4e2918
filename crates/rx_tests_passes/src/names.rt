//! Names of programs: what each means, or the first that is wrong, with its place.

use crate::holding::all_hold;
use rx_core::{LetGo, List, Position, Span};
use rx_parse::{parse, parsed_programs_are_numbered};
use rx_resolve::resolve;
use rx_resolve_names::{ItemNames, NameFault, NodeNames, Resolved};
use rx_tests_tables::{LINES, Outcome};
use std::alloc::{AllocError, Global};

/// A fault as in `Unknown 20 21`.
fn fault_text(alloc: Global, fault: NameFault) -> Result<String, AllocError> {
    match fault {
        NameFault::Unknown { at } => place_text(alloc, "Unknown", at),
        NameFault::Label { at } => place_text(alloc, "Label", at),
        NameFault::SelfHolding { at } => place_text(alloc, "SelfHolding", at),
        NameFault::Twice { first, second } => {
            format!(in alloc;
                "Twice {} {} {} {}",
                first.start, first.end, second.start, second.end
            )
        }
        NameFault::OutOfMemory => String::from_str(alloc, "OutOfMemory"),
    }
}

fn place_text(alloc: Global, name: &str, at: Span) -> Result<String, AllocError> {
    format!(in alloc; "{name} {} {}", at.start, at.end)
}

/// The numbers of a list, each behind a mark.
fn push_numbers(
    alloc: Global,
    text: &mut String,
    mark: &str,
    numbers: &[u32],
) -> Result<(), AllocError> {
    for number in numbers {
        let part = format!(in alloc; "{mark}{number}")?;
        text.push_str(part.as_str())?;
    }
    Ok(())
}

/// Places by their first bytes, each behind a mark, as in ` x12 x20`.
fn push_places(
    alloc: Global,
    text: &mut String,
    mark: &str,
    places: &[Span],
) -> Result<(), AllocError> {
    for place in places {
        let part = format!(in alloc; " {mark}{}", place.start)?;
        text.push_str(part.as_str())?;
    }
    Ok(())
}

/// Loops by their positions, as in ` @.0.1`.
fn push_loops(alloc: Global, text: &mut String, loops: &[Position]) -> Result<(), AllocError> {
    for position in loops {
        text.push_str(" @")?;
        push_numbers(alloc, text, ".", position.path.as_slice())?;
    }
    Ok(())
}

/// Entries of nodes by their positions, as in ` .0.1=0=2`, with `!` where a variable hides the callee.
fn push_names(alloc: Global, text: &mut String, names: &[NodeNames]) -> Result<(), AllocError> {
    for entry in names {
        text.push_str(if entry.hidden { " !" } else { " " })?;
        push_numbers(alloc, text, ".", entry.node.path.as_slice())?;
        push_numbers(alloc, text, "=", entry.numbers.as_slice())?;
    }
    Ok(())
}

/// What an item declares, and what its nodes name.
fn item_text(alloc: Global, item: &ItemNames) -> Result<String, AllocError> {
    let mut text = String::new(alloc);
    push_places(alloc, &mut text, "x", item.vars.as_slice())?;
    push_places(alloc, &mut text, "'", item.lifetimes.as_slice())?;
    push_loops(alloc, &mut text, item.loops.as_slice())?;
    push_names(alloc, &mut text, item.names.as_slice())?;
    Ok(text)
}

/// Whether the last item's names are these.
fn is_last(alloc: Global, resolved: &Resolved, want: &str) -> Outcome {
    let items = resolved.items.as_slice();
    match items.last() {
        Some(item) => Ok(item_text(alloc, item)?.as_str() == want),
        None => Ok(want.is_empty()),
    }
}

/// Whether the names of a text are as is wanted: the fault, or ` ok` and those of the last item.
fn means(alloc: Global, text: &str, want: &str) -> Outcome {
    if text.len() > 1_048_576 {
        return Ok(false);
    }
    match parse(alloc, text.as_bytes()) {
        Ok(program) => {
            parsed_programs_are_numbered();
            let answer = resolve(alloc, &program);
            program.let_go();
            match answer {
                Ok(resolved) => match want.strip_prefix("ok") {
                    Some(want) => is_last(alloc, &resolved, want),
                    None => Ok(false),
                },
                Err(fault) => Ok(fault_text(alloc, fault)?.as_str() == want),
            }
        }
        Err(_) => Ok(false),
    }
}

/// What the last item declares (`x` variables and `'` lifetimes by their first bytes, `@` loops by their positions), then its
/// nodes by their positions, each with its numbers; `!` where a variable hides the callee.
const MEANT: &str = "\
fn main() {} | ok
fn main() { let x = 1; x; } | ok x16 .0.0.0=0 .0.1.0=0
fn f(a: i64, b: i64) { b; a; } | ok x5 x13 =0=1 .2.0.0=1 .2.1.0=0
fn f(a: i64) { let a = a; a; } | ok x5 x19 =0 .1.0.0=1 .1.0.1=0 .1.1.0=1
fn f() { let x = 1; { let x = x; x; } x; } | ok x13 x26 .0.0.0=0 .0.1.0.0.0.0=1 .0.1.0.0.0.1=0 .0.1.0.0.1.0=1 .0.2.0=0
fn f(x: i64) { let x = { let x = x; x }; x; } | ok x5 x19 x29 =0 .1.0.0=1 .1.0.1.0.0.0=2 .1.0.1.0.0.1=0 .1.0.1.0.1=2 .1.1.0=1
fn f(x: bool) { match x { true => {} y => { y; } } x; } | ok x5 x37 =0 .1.0.0.0=0 .1.0.0.3=1 .1.0.0.4.0.0.0=1 .1.1.0=0
fn f(x: bool) { match x { x => x, y => x }; } | ok x5 x26 x34 =0 .1.0.0.0=0 .1.0.0.1=1 .1.0.0.2=1 .1.0.0.3=2 .1.0.0.4=0
fn f(x: (i64, i64)) { let (a, mut b) = x; b = a; } | ok x5 x27 x34 =0 .1.0.0.0=1 .1.0.0.1=2 .1.0.1=0 .1.1.0.0=2 .1.1.0.1=1
fn f(x: i64) { if let x = x { x; } else { x; } } | ok x5 x22 =0 .1.0.0=1 .1.0.1=0 .1.0.2.0.0=1 .1.0.3.0.0.0=0
fn f(x: i64) { while let x = x { x; } x; } | ok x5 x25 @.1.0.0 =0 .1.0.0.0=1 .1.0.0.1=0 .1.0.0.2.0.0=1 .1.1.0=0
fn f(x: i64) { if let y = { let z = x; z } { y; } } | ok x5 x22 x32 =0 .1.0.0=1 .1.0.1.0.0.0=2 .1.0.1.0.0.1=0 .1.0.1.0.1=2 .1.0.2.0.0=1
fn f() { loop { break; } } | ok @.0.0 .0.0.0.0.0=0
fn f() { 'a: loop { loop { break 'a; continue; } } } | ok @.0.0 @.0.0.0.0 .0.0.0.0.0.0.0=0 .0.0.0.0.0.1.0=1
fn f() { 'a: loop { 'a: loop { break 'a; } break 'a; } } | ok @.0.0 @.0.0.0.0.0 .0.0.0.0.0.0.0.0=1 .0.0.0.1.0=0
fn f() { while true { continue; } loop { break; } } | ok @.0.0.0 @.0.1 .0.0.0.1.0.0=0 .0.1.0.0.0=1
fn f() { while { loop { break; } true } {} } | ok @.0.0 @.0.0.0.0.0.0 .0.0.0.0.0.0.0.0.0=1
fn f() { 'a: while let true = { 'b: loop { break 'b; } true } { continue 'a; } } | ok @.0.0 @.0.0.1.0.0.0 .0.0.1.0.0.0.0.0.0=1 .0.0.2.0.0=0
struct S {} fn f() { S {}; } | ok .0.0.0=0
struct S { a: i64 } fn f(x: S) { let S { a: y } = x; y; S { a: y }; } | ok x25 x44 =0 .0=0 .1.0.0=0 .1.0.0.0=1 .1.0.1=0 .1.1.0=1 .1.2.0=0 .1.2.0.0=1
enum E { A, B(i64) } fn f(x: E) { match x { E::B(y) => { y; } E::A => {} } E::B(1); E::A; } | ok x26 x49 =0 .0=0 .1.0.0.0=0 .1.0.0.1=0=1 .1.0.0.1.0=1 .1.0.0.2.0.0.0=1 .1.0.0.3=0=0 .1.1.0=0=1 .1.2.0=0=0
mod rt; fn f() { rt::next(); } | ok .0.0.0=0
fn f() {} struct f {} fn g(x: f) { f(); } | ok x27 =0 .0=1 .1.0.0=0
fn g() {} fn f(g: i64) { g(); } | ok x15 =0 !.1.0.0=0
fn f() { let f = 1; f(); } | ok x13 .0.0.0=0 !.0.1.0=0
fn f() { { let f = 1; } f(); } | ok x15 .0.0.0.0.0.0=0 .0.1.0=0
struct S<'a> { a: &'a i64 } fn f<'a, 'b>(x: S<'b>, y: &'a S<'_>) -> &'b i64 { x.a } | ok x41 x51 '33 '37 =0=1 .0=0=1 .1=0 .1.0=0 .2=1 .3.0.0=0
fn f<'a: 'b + 'c, 'b, 'c>(x: &'c i64) {} | ok x26 '5 '18 '22 =1=2=0 .0=2
fn f<'a>(x: &'a i64) { let y: &'a i64 = x; } | ok x9 x27 '5 =0 .0=0 .1.0.0=1 .1.0.1=0 .1.0.2=0
enum E<'a> { A(&'a i64, (i64, &'a bool)), B } struct S<'b> { e: E<'b>, t: (E<'_>,) } | ok '55 .0=0=0 .1.0=0
fn f() { g(); } fn g() { f(); } | ok .0.0.0=0
fn f(x: i64) { let x = x; let x = x; x; } | ok x5 x19 x30 =0 .1.0.0=1 .1.0.1=0 .1.1.0=2 .1.1.1=1 .1.2.0=2
fn f() { let x; x = 1; x; } | ok x13 .0.0.0=0 .0.1.0.0=0 .0.2.0=0
fn f(x: i64) { x += x; -x; !true; &x; *x; x.a.0; println!(\"{}\", x); (x, x); return x; } | ok x5 =0 .1.0.0.0=0 .1.0.0.1=0 .1.1.0.0=0 .1.3.0.0=0 .1.4.0.0=0 .1.5.0.0.0=0 .1.6.0.0=0 .1.7.0.0=0 .1.7.0.1=0 .1.8.0.0=0
fn f(x: i64) { if x == x { x; } else if x < x { x; } } | ok x5 =0 .1.0.0.0=0 .1.0.0.1=0 .1.0.1.0.0=0 .1.0.2.0.0=0 .1.0.2.0.1=0 .1.0.2.1.0.0=0";

#[test]
fn names_mean_their_declarations(rt: HostRuntime) {
    all_hold(&rt, rt.alloc(), MEANT, LINES, means);
}

/// Names without a binding of the kind that is wanted there.
const UNKNOWN: &str = "\
fn f() { x; } | Unknown 9 10
fn f() { let x = x; } | Unknown 17 18
fn f() { { let x = 1; } x; } | Unknown 24 25
fn f(x: bool) { match x { y => {} z => y } } | Unknown 39 40
fn f(x: i64) { if let y = x {} else { y; } } | Unknown 38 39
fn f(x: i64) { if let y = y {} } | Unknown 26 27
fn f(x: i64) { while let y = x {} y; } | Unknown 34 35
fn f(x: i64) { while let y = y {} } | Unknown 29 30
fn f() { g(); } | Unknown 9 10
fn f(x: S) {} | Unknown 8 9
fn f(x: rt) {} mod rt; | Unknown 8 10
fn g() {} fn f(x: g) {} | Unknown 18 19
enum E { A } fn f() { E {}; } | Unknown 22 23
enum E { A } fn f(x: E) { match x { E {} => {} } } | Unknown 36 37
struct S {} fn f() { S::A; } | Unknown 21 22
enum E { A } fn f() { E::B; } | Unknown 25 26
enum E { A } fn f(x: E) { match x { E::B => {} } } | Unknown 39 40
fn f() { E::A; } | Unknown 9 10
fn f() { rt::next(); } | Unknown 9 11
struct S {} fn f() { S(); } | Unknown 21 22
fn f(x: &'a i64) {} | Unknown 9 11
struct S<'a> { a: &'b i64 } | Unknown 19 21
struct S<'a> { a: &'a i64 } fn f(x: &'a i64) {} | Unknown 37 39
fn f<'a: 'b>() {} | Unknown 9 11
fn f() { let x: &'a i64; } | Unknown 17 19";

#[test]
fn names_without_a_binding_are_unknown(rt: HostRuntime) {
    all_hold(&rt, rt.alloc(), UNKNOWN, LINES, means);
}

/// Names that a list has twice.
const TWICE: &str = "\
struct S {} struct S {} | Twice 7 8 19 20
struct S {} enum S { A } | Twice 7 8 17 18
mod rt; mod rt; | Twice 4 6 12 14
mod rt; struct rt {} | Twice 4 6 15 17
fn f() {} fn f() {} | Twice 3 4 13 14
struct S { a: i64, b: i64, a: i64 } | Twice 11 12 27 28
enum E { A, B, A } | Twice 9 10 15 16
struct S<'a, 'b, 'a> { a: &'a &'b i64 } | Twice 9 11 17 19
fn f<'a, 'a>() {} | Twice 5 7 9 11
fn f(x: i64, y: i64, x: i64) {} | Twice 5 6 21 22
fn f(x: (i64, i64)) { let (a, a) = x; } | Twice 27 28 30 31
fn f(x: (i64, (i64, i64))) { match x { (a, (b, a)) => {} } } | Twice 40 41 47 48";

#[test]
fn no_list_has_a_name_twice(rt: HostRuntime) {
    all_hold(&rt, rt.alloc(), TWICE, LINES, means);
}

/// Jumps without their loop, and out of tests.
const LABELS: &str = "\
fn f() { break; } | Label 9 14
fn f() { continue; } | Label 9 17
fn f() { break 'a; } | Label 15 17
fn f() { 'a: loop {} break 'a; } | Label 27 29
fn f() { 'a: loop { break 'b; } } | Label 26 28
fn f() { while { break; true } {} } | Label 17 22
fn f() { 'a: while { break 'a; true } {} } | Label 21 29
fn f() { 'a: loop { while { continue 'a; true } {} } } | Label 28 39
fn f() { 'a: loop { while let true = { break; true } {} } } | Label 39 44
fn f() { while { break 'a; true } {} } | Label 23 25";

#[test]
fn jumps_have_their_loops(rt: HostRuntime) {
    all_hold(&rt, rt.alloc(), LABELS, LINES, means);
}

/// Structs and enums that hold themselves: the first counts.
const HOLDING: &str = "\
struct S { s: S } | SelfHolding 7 8
struct S<'a> { s: &'a S<'a> } | SelfHolding 7 8
enum E { A(T) } struct T { e: (bool, E) } | SelfHolding 5 6
struct A { b: B } struct B { c: C } struct C { b: B } | SelfHolding 25 26";

#[test]
fn no_type_holds_itself(rt: HostRuntime) {
    all_hold(&rt, rt.alloc(), HOLDING, LINES, means);
}

/// Texts with several faults, each with the first: double items, then items in the order of the text, then types that hold themselves.
const FIRST: &str = "\
struct A { x: X } fn f() { y; } struct B { b: B } | Unknown 14 15
fn f(x: T, x: U) {} | Unknown 8 9
fn f() { y; } fn f() {} | Twice 3 4 17 18
struct S { a: T, a: i64 } | Unknown 14 15
fn f<'a: 'z, 'a>() {} | Unknown 9 11
fn f(x: (i64, i64)) { let (a, E::B, a) = x; } | Unknown 30 31";

#[test]
fn the_first_fault_counts(rt: HostRuntime) {
    all_hold(&rt, rt.alloc(), FIRST, LINES, means);
}
