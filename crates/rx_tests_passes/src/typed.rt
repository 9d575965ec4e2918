//! The types of programs: those of the variables of each function, or what is wrong, with its place.

ghost use Rattle.rx_tree.specs.PlainOf.{plain-Program};
ghost use Rattle.rx_tree.specs.Size.{IsNumbered};
ghost use Rattle.rx_resolve_names.specs.Causes.{Meant};

use crate::declared::{push_type as push_written, rule_name};
use crate::holding::{all_hold, hold};
use rx_core::{Kind, LetGo, List, Ty};
use rx_parse::{parse, parsed_programs_are_numbered};
use rx_resolve::resolve;
use rx_resolve_names::Resolved;
use rx_tests_tables::{LINES, Outcome, push_times};
use rx_tree::Program;
use rx_typeck::typecheck;
use rx_typeck_typed::{TypeFault, Typed};
use std::alloc::{AllocError, Global};

fn kind_name(kind: Kind) -> &'static str {
    match kind {
        Kind::U8 => "u8",
        Kind::U32 => "u32",
        Kind::U64 => "u64",
        Kind::I32 => "i32",
        Kind::I64 => "i64",
    }
}

/// A type as in `&mut (i32,#2,)`.
fn push_type(alloc: Global, text: &mut String, ty: &Ty) -> Result<(), AllocError> {
    match ty {
        Ty::Int(kind) => text.push_str(kind_name(*kind)),
        Ty::Bool => text.push_str("bool"),
        Ty::Tuple(parts) => {
            text.push_str("(")?;
            for part in parts.as_slice() {
                push_type(alloc, text, part)?;
                text.push_str(",")?;
            }
            text.push_str(")")
        }
        Ty::Shared(_, inner) => {
            text.push_str("&")?;
            push_type(alloc, text, inner.get())
        }
        Ty::Mut(_, inner) => {
            text.push_str("&mut ")?;
            push_type(alloc, text, inner.get())
        }
        Ty::Adt(item, _) => {
            let mark = format!(in alloc; "#{item}")?;
            text.push_str(mark.as_str())
        }
    }
}

fn push_types(
    alloc: Global,
    text: &mut String,
    types: &List<Option<Ty>>,
) -> Result<(), AllocError> {
    for ty in types.as_slice() {
        text.push_str(" ")?;
        match ty {
            Some(ty) => push_type(alloc, text, ty)?,
            None => text.push_str("none")?,
        }
    }
    Ok(())
}

/// The types of the variables of each function.
fn types_text(alloc: Global, typed: &Typed) -> Result<String, AllocError> {
    let mut text = String::from_str(alloc, "Ok")?;
    for function in typed.functions.as_slice() {
        text.push_str(" /")?;
        push_types(alloc, &mut text, &function.variables)?;
    }
    Ok(text)
}

/// The variables of each function that `let`s with a type bind, each by its number, with its type as written.
fn annotations_text(alloc: Global, typed: &Typed) -> Result<String, AllocError> {
    let mut text = String::from_str(alloc, "Ok")?;
    for function in typed.functions.as_slice() {
        text.push_str(" /")?;
        for annotated in function.annotations.as_slice() {
            let variable = format!(in alloc; " {}:", annotated.variable)?;
            text.push_str(variable.as_str())?;
            push_written(alloc, &mut text, &annotated.ty)?;
        }
    }
    Ok(text)
}

/// What is told of a typed program.
#[derive(Clone, Copy)]
enum Told {
    Types,
    Annotations,
}

/// A fault as in `Mismatch 20 21 Parts`.
fn fault_text(alloc: Global, fault: TypeFault) -> Result<String, AllocError> {
    match fault {
        TypeFault::Mismatch { at, rule } => {
            format!(in alloc; "Mismatch {} {} {}", at.start, at.end, rule_name(rule))
        }
        TypeFault::Mutability { at, var } => {
            format!(in alloc;
                "Mutability {} {} {} {}",
                at.start, at.end, var.start, var.end
            )
        }
        TypeFault::Literal { at } => format!(in alloc; "Literal {} {}", at.start, at.end),
        TypeFault::Elision { at } => format!(in alloc; "Elision {} {}", at.start, at.end),
        TypeFault::OutOfMemory => String::from_str(alloc, "OutOfMemory"),
    }
}

fn answer_of(
    alloc: Global,
    program: &Program,
    names: &Resolved,
    what: Told,
) -> Result<String, AllocError>
    requires numbered { IsNumbered (plain-Program program.now) }
    requires named { Meant (plain-Program program.now) names.now.items }
{
    match typecheck(alloc, program, names) {
        Ok(typed) => match what {
            Told::Types => types_text(alloc, &typed),
            Told::Annotations => annotations_text(alloc, &typed),
        },
        Err(fault) => fault_text(alloc, fault),
    }
}

/// What is told of the types of a text.
fn types_told(alloc: Global, text: &str) -> Result<String, AllocError> {
    text_of(alloc, text, Told::Types)
}

fn text_of(alloc: Global, text: &str, what: Told) -> Result<String, AllocError> {
    if text.len() > 1_048_576 {
        return String::from_str(alloc, "TooLong");
    }
    match parse(alloc, text.as_bytes()) {
        Ok(program) => {
            parsed_programs_are_numbered();
            let outcome = match resolve(alloc, &program) {
                Ok(names) => answer_of(alloc, &program, &names, what),
                Err(_) => String::from_str(alloc, "names"),
            };
            program.let_go();
            outcome
        }
        Err(_) => String::from_str(alloc, "syntax"),
    }
}

fn types(alloc: Global, text: &str, want: &str) -> Outcome {
    Ok(types_told(alloc, text)?.as_str() == want)
}

/// The types of the variables of each function, in the order of the text; or the fault.
const TYPED: &str = "\
fn main() { let x: i64 = true; } | Mismatch 25 29 Equal
fn main() { let x = if true { 1 } else { false }; } | Mismatch 20 48 Equal
fn f() -> i64 { true } fn main() {} | Mismatch 16 20 Equal
fn f() -> i64 { return false; } fn main() {} | Mismatch 23 28 Equal
fn main() { let mut x = 1; x = true; } | Mismatch 31 35 Equal
fn main() { let x = if true { 1 }; } | Mismatch 28 33 Equal
fn main() { let x = match 1 { 1 => 2, _ => () }; } | Mismatch 20 47 Equal
fn main() { let mut i = 0; while i { i = 1; } } | Mismatch 33 34 KindOf
fn main() { let a = true + true; } | Mismatch 20 31 KindOf
fn main() { let a = 1i64 + 2i32; } | Mismatch 20 31 KindOf
fn main() { let a = -1u8; } | Mismatch 20 24 KindOf
fn main() { let a = !1; } | Mismatch 20 22 KindOf
fn main() { let a = 1 && true; } | Mismatch 20 29 KindOf
fn main() { let a = 1 == true; } | Mismatch 20 29 KindOf
fn main() { let a = (1, 2) == (1, 2); } | Mismatch 20 36 KindOf
fn main() { let a = true < false; } | Mismatch 20 32 KindOf
fn main() { println!(\"{}\", ()); } | Mismatch 27 29 KindOf
fn f(a: i64) {} fn main() { f(); } | Mismatch 28 31 Count
fn f() {} fn main() { f(1); } | Mismatch 22 26 Count
enum E { A(i64), B } fn main() { let e = E::A; } | Mismatch 41 45 Count
enum E { A(i64), B } fn main() { let e = E::B(1); } | Mismatch 41 48 Count
enum E { A(i64), B } fn main() { match E::B { E::A(x, y) => {} E::B => {} } } | Mismatch 46 56 Count
struct S { a: i64 } fn main() { let s = S { }; } | Mismatch 40 45 Fields
struct S { a: i64 } fn main() { let s = S { a: 1, b: 2 }; } | Mismatch 40 56 Fields
struct S { a: i64 } fn main() { let s = S { a: 1, a: 2 }; } | Mismatch 40 56 Fields
struct S { a: i64 } fn main() { let S { b: x } = S { a: 1 }; } | Mismatch 36 46 Fields
fn main() { let x = 1; let y = x.a; } | Mismatch 31 34 NotPlace
fn main() { 1 = 2; } | Mismatch 12 13 NotPlace
fn f() -> i64 { 1 } fn main() { let r = &mut f(); } | Mismatch 45 48 NotPlace
fn main() { let r = *1; } | Mismatch 21 22 NotPlace
fn main() { let f = 1; f(2); } | Mismatch 23 27 NotFunction
fn f() {} fn main() { let f = 1; f(); } | Mismatch 33 36 NotFunction
struct S {} fn f(s: &S) { let t = *s; } fn main() {} | Mismatch 30 31 MoveOut
struct S { t: T } struct T {} fn f(s: &mut S) { let t = s.t; } fn main() {} | Mismatch 52 53 MoveOut
struct S { t: T } struct T {} fn f(s: S) { let t = s.t; } fn main() {} | Ok / #0 #1 /
fn f(r: &mut &mut i64) { let t = *r; } fn main() {} | Mismatch 29 30 MoveOut
fn main() { let x; } | Mismatch 16 17 Unclear
fn main() { let a = 3000000000; } | Mismatch 20 30 Unclear
fn main() { let x; let y = x; x = 1; } | Mismatch 27 28 Unclear
fn main() { let x; x = return; } | Mismatch 23 29 Unclear
fn main() { let t = (return, 1); } | Mismatch 21 27 Unclear
fn f(a: i64) -> i64 { a } fn main() { let a = 3000000000; let b = f(a); } | Ok / i64 / i64 i64
fn main() { let a = 1; let b = 2u8; let c = a + b; } | Ok / u8 u8 u8
fn main() { let a = 300; let b: u8 = a; } | Mismatch 37 38 Equal
fn main() { let a = 300u8; } | Literal 20 25
fn main() { let a = -128i32; let b = -2147483648; let c = 2147483648i64; } | Ok / i32 i32 i64
fn main() { let a = -2147483649i32; } | Literal 21 34
fn main() { let a = 2147483648i32; } | Literal 20 33
fn main() { let x: u8 = 256; } | Literal 24 27
fn main() { let x: u8 = -1; } | Mismatch 24 26 Equal
fn main() { let x: bool = 256; } | Mismatch 26 29 Equal
fn main() { let x: u8 = 300u8; } | Literal 24 29
fn main() { let x: u64 = 300u8; } | Mismatch 25 30 Equal
fn main() { let x: i32 = { 2147483648 }; } | Literal 27 37
fn f(x: u8) {} fn main() { f(256); } | Literal 29 32
struct S { a: u8 } fn main() { let s = S { a: 256 }; } | Literal 46 49
enum E { A(u8) } fn main() { let e = E::A(256); } | Literal 42 45
fn f() -> u8 { return 256; } fn main() {} | Literal 22 25
fn f(b: bool) -> u8 { if b { 256 } else { 1 } } fn main() {} | Literal 29 32
fn main() { let mut x = 1u8; x = 256; } | Literal 33 36
fn main() { let a = -(2147483648i32); } | Ok / i32
fn main() { let x = 1; let r = &mut x; } | Mutability 31 37 16 17
fn main() { let x = (1, 2); x.0 = 3; } | Mutability 28 35 16 17
fn f(r: &(i64, i64)) { r.0 = 1; } fn main() {} | Mutability 23 30 5 6
fn f(r: &i64) { let q = &mut *r; } fn main() {} | Mutability 24 31 5 6
fn main() { let x; x = 1; let y = x + 1i64; } | Ok / i64 i64
fn main() { let x; if true { x = 1u8; } else { x = 2; } } | Ok / u8
fn f(r: &mut i64) { let x; x = r; *x = 1; *r = 2; } fn main() {} | Ok / &mut i64 &mut i64 /
fn main() { let mut s; s = { s = 1i64; s }; } | Ok / i64
fn main() { let x; x = { x = 1i64; 2i64 }; } | Ok / i64
fn main() { let x; x = { x = 1; 2u8 }; let y = x + 3; } | Ok / u8 u8
fn main() { let mut x; x = { x = { x = 1u8; x }; x }; } | Ok / u8
enum E { A(i64), B(i64) } fn g() -> E { E::A(1) } fn main() { let x; loop { x = match g() { E::A(v) => v, E::B(v) => { x = v; break; } }; break; } let y = x; } | Ok / / i64 i64 i64 i64
fn f(b: bool) { let mut x; x = if b { x = 1u8; x } else { 2 }; } fn main() {} | Ok / bool u8 /
fn f(b: bool) { let mut x; x = if b { 2 } else { x = 1u8; x }; } fn main() {} | Ok / bool u8 /
fn f(b: bool) { let x; x = { if b { x = 1u8; } 2 }; } fn main() {} | Ok / bool u8 /
fn f(p: &mut i64) { let mut x; x = { x = p; x }; *x = 1; *p = 2; } fn main() {} | Ok / &mut i64 &mut i64 /
fn main() { let x; x = { x = return; 1 }; } | Mismatch 29 35 Unclear
fn main() { let x; loop { x = { x = 1u8; break }; } } | Ok / u8
fn main() { let x; x = { let y = x; x = 1; 2 }; } | Mismatch 33 34 Unclear
fn main() { let x; x = { x = x; 2 }; } | Mismatch 29 30 Unclear
fn main() { let x; x = x + 1; } | Mismatch 23 24 Unclear
fn main() { let mut x; x = { x += 1; 2 }; } | Mismatch 29 30 Unclear
fn main() { let mut x; x = { x.0 = 1u8; (2u8, true) }; } | Mismatch 29 30 Unclear
fn main() { let mut x; x = { x = (1u8, true); x.0 = 2; x }; } | Ok / (u8,bool,)
fn main() { let a; let b; a = { b = 1i64; b }; } | Ok / i64 i64
fn main() { let mut a; let b; a = { b = { a = 1i64; a }; b }; } | Ok / i64 i64
fn main() { let a; let b; a = { b = a; b }; } | Mismatch 36 37 Unclear
fn main() { let x; x = { x = 1u8; true }; } | Mismatch 23 40 Equal
fn f(a: &i64, b: &mut i64) { let x; x = { x = a; b }; } fn main() {} | Mismatch 40 52 Equal
fn f(r: &mut i64) { let x: &i64 = r; } fn main() {} | Ok / &mut i64 &i64 /
fn g(r: &i64) {} fn f(r: &mut i64) { g(r); g(r); } fn main() {} | Ok / &i64 / &mut i64 /
fn g(r: &mut i64) {} fn f(r: &mut i64) { g(r); g(r); } fn main() {} | Ok / &mut i64 / &mut i64 /
fn f(r: &mut i64) -> &i64 { r } fn main() {} | Ok / &mut i64 /
fn f(r: &mut i64) -> &i64 { if true { r } else { return r; } } fn main() {} | Ok / &mut i64 /
struct S<'a> { r: &'a i64 } fn f(r: &mut i64) { let s = S { r: r }; } fn main() {} | Ok / &mut i64 #0 /
fn f(r: &mut i64) { let t = (r, 1); } fn main() {} | Ok / &mut i64 (&mut i64,i32,) /
struct P { x: i64 } fn f(p: &P) -> i64 { p.x } fn main() {} | Ok / &#0 /
struct P { x: i64 } fn f(p: &mut P) { p.x = 1; p.x += 1; } fn main() {} | Ok / &mut #0 /
fn f(r: &mut &mut i64) { **r = 1; } fn main() {} | Ok / &mut &mut i64 /
fn f(o: &O) -> i64 { match o { O::Some(x) => *x, O::None => 0 } } enum O { Some(i64), None } fn main() {} | Ok / &#1 &i64 /
fn f(o: &mut O) { match o { O::Some(x) => { *x = 1; } O::None => {} } } enum O { Some(i64), None } fn main() {} | Ok / &mut #1 &mut i64 /
fn f(o: &&mut O) { match o { O::Some(x) => { let y = x; } O::None => {} } } enum O { Some(i64), None } fn main() {} | Ok / &&mut #1 &i64 &i64 /
fn f(o: &O) { match o { O::Some(mut x) => {} O::None => {} } } enum O { Some(i64), None } fn main() {} | Mismatch 32 37 PatternOf
fn f(o: &(i64, &bool)) { let (a, b) = o; } fn main() {} | Ok / &(i64,&bool,) &i64 &&bool /
fn main() { let (a, b) = 1; } | Mismatch 16 22 PatternOf
fn main() { match true { 1 => {} _ => {} } } | Mismatch 25 26 PatternOf
fn main() { let (a, b) = (1, true); } | Ok / i32 bool
enum E { A } enum F { B } fn main() { match E::A { F::B => {} E::A => {} } } | Mismatch 51 55 PatternOf
struct S<'a> { r: &'a i64 } fn f(s: S<'_, '_>) {} fn main() {} | Mismatch 36 45 Lifetimes
struct S<'a, 'b> { r: &'a i64, q: &'b i64 } fn f<'a>(s: &S<'a>) {} fn main() {} | Mismatch 57 62 Lifetimes
fn main() { loop { } } | Ok /
fn main() { let x = loop { break; }; } | Ok / ()
fn f() -> i64 { loop { } } fn main() {} | Ok / /
fn f() -> i64 { return 1; } fn main() {} | Ok / /
fn f() -> i64 { { return 1; } } fn main() {} | Ok / /
fn f(b: bool) -> i64 { if b { return 1; } else { return 2; } } fn main() {} | Ok / bool /
fn f(b: bool) -> i64 { if b { return 1; } 2 } fn main() {} | Ok / bool /
fn f(b: bool) -> i64 { match b { true => return 1, false => 2 } } fn main() {} | Ok / bool /
fn f(a: i64) -> i64 { f(return 1) } fn main() {} | Ok / i64 /
fn f(a: i64) -> i64 { a + loop { } } fn main() {} | Ok / i64 /
mod rt; fn main() { let x = rt::next(); println!(\"{}\", x); } | Ok / i64
fn main() { let a = 1; let r = &a; let b = *r + 1u64; } | Ok / u64 &u64 u64
fn main() { let t = ((1, true), (2u8, ())); let x = (t.0).1; let y = (t.1).0; } | Ok / ((i32,bool,),(u8,(),),) bool u8
fn main() { match (return) { _ => {} } } | Mismatch 19 25 Unclear
fn main() { let x: (i64, bool) = (1, true); let (a, b) = x; } | Ok / (i64,bool,) i64 bool
fn main() { let x = 5; { let x = true; } let y = x; } | Ok / i32 bool i32
fn main() { let mut x = 1; x += 2u8; } | Ok / u8
fn main() { let mut x = true; x += true; } | Mismatch 30 39 KindOf
fn main() { let mut x = 1; x += true; } | Mismatch 27 36 KindOf
fn f(r: &mut i64) { *r += 1; } fn main() {} | Ok / &mut i64 /
fn f(r: &i64) { *r += 1; } fn main() {} | Mutability 16 23 5 6
fn main() { let x = 1; x += 1; } | Ok / i32
fn f() -> i64 { } fn main() {} | Mismatch 14 17 Equal
fn f() -> i64 { 1; } fn main() {} | Mismatch 14 20 Equal
fn f() { 1 } fn main() {} | Mismatch 9 10 Equal
fn f() -> (i64, bool) { (1, true) } fn main() { let t = f(); let a = t.0; let b = t.1; } | Ok / / (i64,bool,) i64 bool
fn f(b: bool) -> i64 { let x; if b { x = 1; } else { return 2; } x } fn main() {} | Ok / bool i64 /
fn f() -> bool { let x: bool = return true; } fn main() {} | Ok / bool /
fn f() -> bool { let x = return true; x = 1; true } fn main() {} | Ok / i32 /
fn f(b: bool) -> i64 { 1 + if b { return 2; } else { 3 } } fn main() {} | Ok / bool /
fn f(b: bool) -> i64 { while b { return 1; } 2 } fn main() {} | Ok / bool /
fn f() -> i64 { loop { if true { break; } } } fn main() {} | Mismatch 16 43 Equal
fn f() -> i64 { 'a: loop { loop { break 'a; } } } fn main() {} | Mismatch 16 47 Equal
fn f(x: i64) -> bool { x < 1 && x > -1 || !(x == 0) } fn main() {} | Ok / i64 /
struct S { a: i64, b: bool } fn f(s: &S) -> bool { let S { a: x, b: y } = s; *y } fn main() {} | Ok / &#0 &i64 &bool /
struct S { a: i64, b: bool } fn f(s: &mut S) { let S { a: x, b: y } = s; *x = 1; *y = false; } fn main() {} | Ok / &mut #0 &mut i64 &mut bool /
struct S { a: i64, b: bool } fn f() -> S { S { b: true, a: 1 } } fn main() {} | Ok / /
enum L<'a> { N, C(i64, &'a i64) } fn f(r: &mut i64) { let l = L::C(1, r); } fn main() {} | Ok / &mut i64 #0 /
fn f<'a>(p: &'a mut i64, b: bool) -> &'a mut i64 { if b { p } else { p } } fn main() {} | Ok / &mut i64 bool /
fn f<'a>(p: &'a mut i64, b: bool) -> &'a i64 { match b { true => p, false => { p } } } fn main() {} | Ok / &mut i64 bool /
fn f(p: &mut i64) { let q = p; let r = p; } fn main() {} | Ok / &mut i64 &mut i64 &mut i64 /
fn f(p: &mut i64) { let q: &mut i64 = p; let r = p; } fn main() {} | Ok / &mut i64 &mut i64 &mut i64 /
fn f(p: &&mut i64) { let q = **p; let r = &**p; } fn main() {} | Ok / &&mut i64 i64 &i64 /
fn f(p: &&mut i64) { let q = &mut **p; } fn main() {} | Mutability 29 37 5 6
fn f(p: &mut (i64, (bool, u8))) { (p.1).1 = 3; let x = &mut (p.1).0; } fn main() {} | Ok / &mut (i64,(bool,u8,),) &mut bool /
fn f(o: &(bool, i64)) { match o { (true, 1) => {} (false, _) => {} (b, n) => { let c = *b; let m = *n; } } } fn main() {} | Ok / &(bool,i64,) &bool &i64 bool i64 /
fn f(x: u8) { match x { 255 => {} 256 => {} _ => {} } } fn main() {} | Literal 34 37
fn f(x: i32) { match x { -2147483648 => {} 2147483648 => {} _ => {} } } fn main() {} | Literal 43 53
fn f(x: u64) { match x { -1 => {} _ => {} } } fn main() {} | Mismatch 25 27 PatternOf
fn f(x: i64) { match x { 1u8 => {} _ => {} } } fn main() {} | Mismatch 25 28 PatternOf
fn f(p: (i64, i64)) { let (mut a, b) = p; a = b; } fn main() {} | Ok / (i64,i64,) i64 i64 /
fn f(p: (i64, i64)) { let (a, b) = p; let r = &mut a; } fn main() {} | Mutability 46 52 27 28
#[derive(Clone, Copy)] struct P { x: i64 } fn f(p: &P) { let q = *p; } fn main() {} | Ok / &#0 #0 /
#[derive(Clone, Copy)] enum E { A(i64), B } fn f(p: &mut E) { let q = *p; *p = E::B; } fn main() {} | Ok / &mut #0 #0 /
struct P { x: i64 } fn f(v: &(P, i64)) { let x = (v.0).x; let y = v.0; } fn main() {} | Mismatch 62 63 MoveOut
fn f(v: &(&mut i64, i64)) { let x = v.0; } fn main() {} | Mismatch 32 33 MoveOut
fn f(b: bool) { if let true = b { } while let false = b { } } fn main() {} | Ok / bool /
enum O { S(i64), N } fn f(o: O) -> i64 { if let O::S(x) = o { x } else { 0 } } fn main() {} | Ok / #0 i64 /
enum O { S(i64), N } fn f(o: &mut O) { while let O::S(x) = o { *x += 1; } } fn main() {} | Ok / &mut #0 &mut i64 /
fn f(x: i64) { let y; y = &x; let z = *y; } fn main() {} | Ok / i64 &i64 i64 /
fn f(p: &mut i64) { let y; y = p; let z; z = &mut *y; *z = 1; } fn main() {} | Ok / &mut i64 &mut i64 &mut i64 /
fn g(a: (i64, bool)) {} fn main() { g((1, true)); g((1, 2)); } | Mismatch 52 58 Equal
fn main() { println!(\"{}\", 1 == 1); println!(\"{}\", 2u64); } | Ok /
fn main() { let a = 1 + 2 * 3 - 4 / 5 % 6; } | Ok / i32
fn main() { let a = 4000000000u32; let b = 5000000000u32; } | Literal 43 56
fn main() { let a = 18446744073709551615u64; let b = -9223372036854775808i64; } | Ok / u64 i64
fn main() { let a = 9223372036854775808i64; } | Literal 20 42
fn f(a: u64) {} fn main() { let a = 3000000000; f(a); let b = -3000000000; } | Ok / u64 / u64 i64
fn main() { let x = { 1 }; let y = { let z = true; z }; let w = {}; } | Ok / i32 bool bool ()
fn main() { let x = &mut 1; } | Mismatch 25 26 NotPlace
fn main() { main(); } | Ok /
fn f(g: i64) {} fn main() { f(f(1)); } | Mismatch 30 34 Equal
struct S<'a> { r: &'a i64 } fn f<'a>(p: &'a mut S<'a>) { let q = p.r; let x = *q; } fn main() {} | Ok / &mut #0 &i64 i64 /
fn f(p: &mut i64) { { let q: &i64 = { p }; } } fn main() {} | Ok / &mut i64 &i64 /
fn f(p: &mut i64) { let q: &i64 = if true { p } else { &1 }; } fn main() {} | Mismatch 56 57 NotPlace
fn f(a: &i64, b: &mut i64) { let mut x = a; x = b; } fn main() {} | Ok / &i64 &mut i64 &i64 /
fn f(p: &mut &i64, b: &mut i64) { *p = b; } fn main() {} | Ok / &mut &i64 &mut i64 /
fn f(p: &mut &mut i64, q: &mut &mut i64) { *p = *q; } fn main() {} | Ok / &mut &mut i64 &mut &mut i64 /
fn f(p: &mut &i64, q: &mut &mut i64) { *p = *q; } fn main() {} | Ok / &mut &i64 &mut &mut i64 /
fn f(p: &mut &mut i64, q: &mut &mut i64) { let t = (*q, *p); } fn main() {} | Mismatch 52 54 MoveOut
struct W<'a> { r: &'a mut i64 } fn f(q: &mut &mut i64) { let w = W { r: *q }; } fn main() {} | Ok / &mut &mut i64 #0 /
struct S<'a> { r: &'a i64 } fn f(q: &mut &mut i64) { let s = S { r: *q }; } fn main() {} | Ok / &mut &mut i64 #0 /
enum L<'a> { N, C(&'a mut i64) } fn f(q: &mut &mut i64) { let l = L::C(*q); } fn main() {} | Ok / &mut &mut i64 #0 /
enum L<'a> { N, C(&'a i64) } fn f(q: &mut &mut i64) { let l = L::C(*q); } fn main() {} | Ok / &mut &mut i64 #0 /
struct W<'a> { r: &'a mut i64 } fn f(q: &i64) { let w = W { r: q }; } fn main() {} | Mismatch 63 64 Equal
enum L<'a> { N, C(&'a mut i64) } fn f(q: &i64) { let l = L::C(q); } fn main() {} | Mismatch 62 63 Equal
struct S<'a> { r: &'a i64 } fn f(s: &mut S<'_>) { s.r = s.r; } fn main() {} | Ok / &mut #0 /
fn f(x: i64) -> (i64, i64) { let t = (x, f(x)); t.1 } fn main() {} | Ok / i64 (i64,(i64,i64,),) /
fn f() -> i64 { let x = loop { return 1; }; x } fn main() {} | Mismatch 44 45 Unclear
fn f(b: bool) -> i64 { let x = if b { return 1; } else { return 2; }; x = 3; 4 } fn main() {} | Ok / bool i32 /
fn f(n: i64) -> i64 { if n == 0 { 1 } else { n * f(n - 1) } } fn main() { println!(\"{}\", f(5)); } | Ok / i64 /
fn f(p: &&&i64) { let x = ***p; let y = **p; } fn main() {} | Ok / &&&i64 i64 &i64 /
fn f(t: (i64, (bool, u8))) { let (a, (b, c)) = t; let d = c; } fn main() {} | Ok / (i64,(bool,u8,),) i64 bool u8 u8 /
fn f(t: &mut (i64, (bool, u8))) { let (a, (b, c)) = t; *c = 1; } fn main() {} | Ok / &mut (i64,(bool,u8,),) &mut i64 &mut bool &mut u8 /
fn f(t: &(&mut i64, u8)) { let (a, b) = t; let c = **a; } fn main() {} | Ok / &(&mut i64,u8,) &&mut i64 &u8 i64 /
fn f(t: &mut (&i64, u8)) { let (a, b) = t; *a = &1; } fn main() {} | Mismatch 49 50 NotPlace
fn f(t: &mut (&i64, u8)) { let (a, b) = t; **a = 1; } fn main() {} | Mutability 43 50 32 33
fn f() { let x = 1; let y = &x; let z = &y; let w = **z + 1u32; } fn main() {} | Ok / u32 &u32 &&u32 u32 /
fn f() { let a = 1; let b = 2; if a == b { } let c: u64 = b; } fn main() {} | Ok / u64 u64 u64 /
fn f() { let x = (1, 2); let y: (u8, i64) = x; } fn main() {} | Ok / (u8,i64,) (u8,i64,) /
fn f() { let x; x = (1, true); let y = x.0 + 1u8; } fn main() {} | Ok / (u8,bool,) u8 /
fn f(b: bool) { let x = if b { 1 } else { 2u8 }; let y = match b { true => x, _ => 3 }; } fn main() {} | Ok / bool u8 u8 /
struct A { b: B } struct B { c: C } struct C { d: i64 } fn f(a: &mut A) { a.b.c.d = a.b.c.d + 1; let r = &mut a.b.c; r.d = 2; } fn main() {} | Ok / &mut #0 &mut #2 /
enum E { A(()) } fn f(e: E) { match e { E::A(u) => u } } fn main() {} | Ok / #0 () /
fn f(x: bool) { match x { true => 1, false => 2 }; } fn main() {} | Ok / bool /
fn f(x: bool) { match x { true => 1, false => 2 } } fn main() {} | Mismatch 34 35 Equal
fn f(x: bool) { if x { 1 } else { 2 } } fn main() {} | Mismatch 23 24 Equal
fn f(x: i64) { x; x + 1; -x; } fn main() {} | Ok / i64 /
mod rt; fn f(x: i64) {} fn main() { f(rt::next()); let y: i32 = rt::next(); } | Mismatch 64 74 Equal";

#[test]
fn programs_are_typed(rt: HostRuntime) {
    all_hold(&rt, rt.alloc(), TYPED, LINES, types);
}

fn annotations(alloc: Global, text: &str, want: &str) -> Outcome {
    Ok(text_of(alloc, text, Told::Annotations)?.as_str() == want)
}

/// The variables of each function that `let`s with a type bind, with their lifetimes by number.
const ANNOTATED: &str = "\
fn f<'a>(x: &'a i32, z: &i32) { let y: &'a i32 = x; let w: &i32 = z; } fn main() {} | Ok / 2:&0 int 3:&2 int /
fn f(x: &mut i64) { let y: &mut i64; y = x; } fn main() {} | Ok / 1:&mut 1 int /
fn f<'a>(t: &'a (i32, bool)) { let (a, b): &'a (i32, bool) = t; } fn main() {} | Ok / 1:&1 int 2:&1 bool /
fn f<'a>(t: &'a mut (i32, &'a bool)) { let (a, _): &mut (i32, &'a bool) = t; } fn main() {} | Ok / 1:&mut 1 int /
struct S<'a> { r: &'a u8, n: u8 } fn f<'b, 'c>(s: S<'c>, q: &'b u8) { let S { n: m, r: p }: S<'c> = s; } fn main() {} | Ok / 2:int 3:&1 int /
struct S<'a> { r: &'a u8 } struct T<'a, 'b> { s: S<'b>, n: &'a u8 } fn f<'c>(t: T<'c, 'c>) { let T { s: S { r: p }, n: q }: T<'_, 'c> = t; } fn main() {} | Ok / 1:&0 int 2:&1 int /
fn f() { let x = 1; { let y: u8 = 2; } let z: ((), u8) = ((), 3); } fn main() { let q: bool = true; } | Ok / 1:int 2:((),int,) / 0:bool";

#[test]
fn written_types_keep_their_lifetimes(rt: HostRuntime) {
    all_hold(&rt, rt.alloc(), ANNOTATED, LINES, annotations);
}

/// A text in which a part is repeated.
fn repeated(
    alloc: Global,
    front: &str,
    part: &str,
    count: usize,
    back: &str,
) -> Result<String, AllocError> {
    let mut text = String::from_str(alloc, front)?;
    push_times(&mut text, part, count)?;
    text.push_str(back)?;
    Ok(text)
}

/// Whether a written tuple of so many integers, and one that is inferred, keep the limit on parts.
fn wide(alloc: Global, count: usize) -> Outcome {
    let written = repeated(alloc, "fn f(t: (", "u8, ", count, ")) {} fn main() {}")?;
    let inferred = repeated(alloc, "fn main() { let t = (", "1, ", count, "); }")?;
    let written = types_told(alloc, written.as_str())?;
    let inferred = types_told(alloc, inferred.as_str())?;
    Ok(written.as_str().starts_with("Ok") && inferred.as_str().starts_with("Ok"))
}

/// A type that is written and a value, each too wide, are named whole.
fn too_wide(alloc: Global, count: usize) -> Outcome {
    let written = repeated(alloc, "fn f(t: (", "u8, ", count, ")) {} fn main() {}")?;
    let inferred = repeated(alloc, "fn main() { let t = (", "1, ", count, "); }")?;
    let written = types_told(alloc, written.as_str())?;
    let inferred = types_told(alloc, inferred.as_str())?;
    Ok(
        written.as_str() == "Mismatch 8 16398 Parts"
            && inferred.as_str() == "Mismatch 20 12313 Parts",
    )
}

#[test]
fn types_keep_their_parts(rt: HostRuntime) {
    hold(&rt, wide(rt.alloc(), 4_096), "4,096 parts");
    hold(&rt, too_wide(rt.alloc(), 4_097), "4,097 parts");
}

/// What is told where a variable is borrowed, and then the reference, and so on so many times.
fn borrowed(alloc: Global, count: usize) -> Result<String, AllocError> {
    let text = repeated(alloc, "fn main() { let a = 1; ", "let a = &a; ", count, "}")?;
    types_told(alloc, text.as_str())
}

#[test]
fn types_keep_their_levels(rt: HostRuntime) {
    let last = match borrowed(rt.alloc(), 127) {
        Ok(text) => Ok(text.as_str().starts_with("Ok / i32 &i32")),
        Err(fault) => Err(fault),
    };
    hold(&rt, last, "128 levels");
    let past = match borrowed(rt.alloc(), 128) {
        Ok(text) => Ok(text.as_str() == "Mismatch 1555 1557 Parts"),
        Err(fault) => Err(fault),
    };
    hold(&rt, past, "129 levels");
}
