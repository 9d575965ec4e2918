//! What programs declare, or the first declaration that is wrong, with its place.

use crate::holding::all_hold;
use rx_core::{LetGo, List, Ty};
use rx_parse::{parse, parsed_programs_are_numbered};
use rx_resolve::resolve;
use rx_resolve_names::Resolved;
use rx_tests_tables::{LINES, Outcome};
use rx_tree::Program;
use rx_typeck_solver::Rule;
use rx_typeck_typed::{DeclareFault, declare, declared_are_finite};
use rx_typed::{Decl, Decls, is_copy};
use rx_typed_declarations::sizes;
use std::alloc::{AllocError, Global};

pub fn rule_name(rule: Rule) -> &'static str {
    match rule {
        Rule::Equal => "Equal",
        Rule::KindOf => "KindOf",
        Rule::Count => "Count",
        Rule::Fields => "Fields",
        Rule::NotPlace => "NotPlace",
        Rule::NotFunction => "NotFunction",
        Rule::CopyOf => "CopyOf",
        Rule::Unused => "Unused",
        Rule::MoveOut => "MoveOut",
        Rule::Main => "Main",
        Rule::Unclear => "Unclear",
        Rule::Parts => "Parts",
        Rule::Lifetimes => "Lifetimes",
        Rule::PatternOf => "PatternOf",
    }
}

/// A fault as in `Mismatch 20 21 Parts`.
fn fault_text(alloc: Global, fault: DeclareFault) -> Result<String, AllocError> {
    match fault {
        DeclareFault::Mismatch { at, rule } => {
            format!(in alloc; "Mismatch {} {} {}", at.start, at.end, rule_name(rule))
        }
        DeclareFault::Elision { at } => format!(in alloc; "Elision {} {}", at.start, at.end),
        DeclareFault::OutOfMemory => String::from_str(alloc, "OutOfMemory"),
    }
}

/// A type: references as `&N` or `&mut N` before what they lead to, items as `#N<..>`.
pub fn push_type(alloc: Global, text: &mut String, ty: &Ty) -> Result<(), AllocError> {
    match ty {
        Ty::Int(_) => text.push_str("int"),
        Ty::Bool => text.push_str("bool"),
        Ty::Tuple(parts) => {
            text.push_str("(")?;
            for part in parts.as_slice() {
                push_type(alloc, text, part)?;
                text.push_str(",")?;
            }
            text.push_str(")")
        }
        Ty::Shared(lifetime, inner) => {
            let mark = format!(in alloc; "&{lifetime} ")?;
            text.push_str(mark.as_str())?;
            push_type(alloc, text, inner.get())
        }
        Ty::Mut(lifetime, inner) => {
            let mark = format!(in alloc; "&mut {lifetime} ")?;
            text.push_str(mark.as_str())?;
            push_type(alloc, text, inner.get())
        }
        Ty::Adt(item, lifetimes) => {
            let mark = format!(in alloc; "#{item}<")?;
            text.push_str(mark.as_str())?;
            for lifetime in lifetimes.as_slice() {
                let one = format!(in alloc; "{lifetime},")?;
                text.push_str(one.as_str())?;
            }
            text.push_str(">")
        }
    }
}

/// The first item, where it is a function: its lifetimes, bounds, parameters and result, and whether that is Copy; then
/// the parts of all items.
fn signature(alloc: Global, decls: &Decls, sizes: &List<u64>) -> Result<String, AllocError> {
    let mut text = String::new(alloc);
    match decls.items.get(0) {
        Some(
            Decl::Func {
                lifetimes,
                params,
                answer,
                bounds,
            },
        ) => {
            let count = format!(in alloc; "{lifetimes} {}", bounds.len())?;
            text.push_str(count.as_str())?;
            for param in params.as_slice() {
                text.push_str(" ")?;
                push_type(alloc, &mut text, param)?;
            }
            text.push_str(" -> ")?;
            push_type(alloc, &mut text, answer)?;
            text.push_str(if is_copy(answer, decls) { " copy" } else { "" })?;
        }
        _ => text.push_str("no function")?,
    }
    for size in sizes.as_slice() {
        let part = format!(in alloc; " {size}")?;
        text.push_str(part.as_str())?;
    }
    Ok(text)
}

/// What a text declares: the fault, or the first item's signature.
fn answer_of(alloc: Global, program: &Program, names: &Resolved) -> Result<String, AllocError> {
    match declare(alloc, program, names) {
        Ok(decls) => {
            declared_are_finite();
            let sizes = sizes(alloc, &decls)?;
            signature(alloc, &decls, &sizes)
        }
        Err(fault) => fault_text(alloc, fault),
    }
}

fn declares(alloc: Global, text: &str, want: &str) -> Outcome {
    if text.len() > 1_048_576 {
        return Ok(false);
    }
    match parse(alloc, text.as_bytes()) {
        Ok(program) => {
            parsed_programs_are_numbered();
            let outcome = match resolve(alloc, &program) {
                Ok(names) => Ok(answer_of(alloc, &program, &names)?.as_str() == want),
                Err(_) => Ok(false),
            };
            program.let_go();
            outcome
        }
        Err(_) => Ok(false),
    }
}

/// A function's lifetimes and bounds, its parameters, its result; or the fault.
const DECLARED: &str = "\
fn main() {} | 0 0 -> () copy 1
fn f(a: i64, b: (bool, u8)) {} fn main() {} | 0 0 int (bool,int,) -> () copy 1 1
fn f(a: &i64, b: &mut &bool) {} fn main() {} | 3 0 &0 int &mut 1 &2 bool -> () copy 1 1
fn f<'a>(a: &'a i64) -> &'a i64 { a } fn main() {} | 1 0 &0 int -> &0 int copy 1 1
fn f<'a>(a: &'a mut i64) -> &'a mut i64 { a } fn main() {} | 1 0 &mut 0 int -> &mut 0 int 1 1
fn f<'a: 'b, 'b>(a: &'a i64, b: &'b i64) -> &i64 { b } fn main() {} | Elision 44 48
fn f(a: &i64) -> (&i64, &mut bool) { g(a) } fn g(a: &i64) -> (&i64, &mut bool) { g(a) } fn main() {} | 1 0 &0 int -> (&0 int,&mut 0 bool,) 1 1 1
fn f<'a>(a: &'a i64, b: &'a i64) -> &i64 { a } fn main() {} | 1 0 &0 int &0 int -> &0 int copy 1 1
fn f<'a>(a: &'a i64, b: &i64) -> &i64 { a } fn main() {} | Elision 33 37
fn f(p: &i64, q: &i64) -> &i64 { p } fn main() {} | Elision 26 30
fn f() -> &i64 { f() } fn main() {} | Elision 10 14
fn f(s: S) {} struct S<'a> { r: &'a i64 } fn main() {} | 1 0 #1<0,> -> () copy 1 2 1
fn f<'b>(s: S<'b, '_>) -> S { s } struct S<'a, 'c> { r: &'a i64, q: &'c i64 } fn main() {} | Elision 26 27
fn f(e: E) -> E { e } enum E { A, B(i64), C((i64, bool)) } fn main() {} | 0 0 #1<> -> #1<> 1 4 1
fn f(s: S) -> T { s.t } struct S { t: T, u: T } #[derive(Clone, Copy)] struct T { a: (), b: (u8, u8) } fn main() {} | 0 0 #1<> -> #2<> copy 1 6 3 1
struct S { r: &i64 } fn main() {} | Elision 14 18
struct S { r: &'_ mut i64 } fn main() {} | Elision 14 25
struct T { s: S } struct S<'a> { r: &'a i64 } fn main() {} | Elision 14 15
struct T<'b> { s: S<'b, 'b> } struct S<'a> { r: &'a i64 } fn main() {} | Mismatch 18 27 Lifetimes
struct S<'a> { r: i64 } fn main() {} | Mismatch 9 11 Unused
enum E<'a, 'b> { A(&'a i64) } fn main() {} | Mismatch 11 13 Unused
#[derive(Copy)] struct S {} fn main() {} | Mismatch 23 24 CopyOf
#[derive(Clone, Clone)] struct S {} fn main() {} | Mismatch 31 32 CopyOf
#[derive(Clone, Copy)] struct S { t: T } struct T {} fn main() {} | Mismatch 30 31 CopyOf
#[derive(Clone, Copy)] enum E<'a> { A(&'a mut i64) } fn main() {} | Mismatch 28 29 CopyOf
#[derive(Copy, Clone)] struct S { t: T } #[derive(Clone, Copy)] struct T {} fn main() {} | no function 1 1 1
struct S {} | Mismatch 0 11 Main
fn main() -> () {} | Mismatch 3 7 Main
fn main(a: i64) {} | Mismatch 3 7 Main
fn main<'a>() {} | Mismatch 3 7 Main
mod rt; fn main() {} | no function 1 1";

#[test]
fn programs_declare_their_items(rt: HostRuntime) {
    all_hold(&rt, rt.alloc(), DECLARED, LINES, declares);
}
