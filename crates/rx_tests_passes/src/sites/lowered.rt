//! Graphs with lifetimes: how many sites and lifetimes, and the limits of both.

use crate::holding::{all_hold, hold};
use crate::sites::said::typed_text;
use rx_core::LetGo;
use rx_lower::lower;
use rx_lower_lifetimes::{Graph, LowerFault};
use rx_tests_tables::{LINES, Outcome, push_times};
use rx_typeck_typed::Typed;
use std::alloc::{AllocError, Global};

fn let_graph_go(graph: Graph) {
    graph.sites.let_go();
    graph.lifetimes.let_go();
}

/// How many sites a graph has, how many lifetimes are the function's own, and how many there are in all.
fn counts_text(alloc: Global, graph: &Graph) -> Result<String, AllocError> {
    let sites = graph.sites.len();
    let own = graph.lifetimes.own;
    let regions = graph.lifetimes.regions;
    format!(in alloc; "{sites} {own} {regions}")
}

fn fault_text(alloc: Global, fault: LowerFault) -> Result<String, AllocError> {
    match fault {
        LowerFault::TooLarge {
            function,
            sites,
            lifetimes,
        } => format!(in alloc; "TooLarge {function} {sites} {lifetimes}"),
        LowerFault::OutOfMemory => String::from_str(alloc, "OutOfMemory"),
    }
}

fn lowered_text(alloc: Global, typed: &Typed) -> Result<String, AllocError> {
    match typed.functions.get(0) {
        Some(function) => match lower(alloc, typed, function.item) {
            Ok(graph) => {
                let text = counts_text(alloc, &graph);
                let_graph_go(graph);
                text
            }
            Err(fault) => fault_text(alloc, fault),
        },
        None => String::from_str(alloc, "no function"),
    }
}

/// A text, and the number of sites, of own lifetimes and of all lifetimes of its first function.
const COUNTS: &str = r#"fn main() {} | 1 0 0
fn f<'a>(x: &'a i64) -> &'a i64 { x } fn main() {} | 5 1 2
fn f(x: &i64, y: &mut i64) { let z = &*x; } fn main() {} | 11 2 5
fn f(x: i64) { let r = &x; let s = r; } fn main() {} | 12 0 5
struct P<'a> { x: &'a i64 } fn f(n: i64) { let p = P { x: &n }; let q = g(p); } fn g<'a>(p: P<'a>) -> P<'a> { p } fn main() {} | 14 0 8
fn f() { let n = 1; g(&n); } fn g<'a, 'b>(x: &'a i64) {} fn main() {} | 7 0 4"#;

fn is_lowered(alloc: Global, text: &str, want: &str) -> Outcome {
    Ok(typed_text(alloc, text, lowered_text)?.as_str() == want)
}

#[test]
fn lifetimes_of_functions(rt: HostRuntime) {
    all_hold(&rt, rt.alloc(), COUNTS, LINES, is_lowered);
}

/// A text that repeats a part, and the counts of its first function.
#[derive(Clone, Copy)]
struct Repeated {
    front: &'static str,
    part: &'static str,
    back: &'static str,
}

impl Repeated {
    fn gives(&self, alloc: Global, times: usize, want: &str) -> Outcome {
        let mut text = String::from_str(alloc, self.front)?;
        push_times(&mut text, self.part, times)?;
        text.push_str(self.back)?;
        is_lowered(alloc, text.as_str(), want)
    }
}

/// `main` with a variable and so many assignments to it: it has five sites, and two for each.
const ASSIGNMENTS: Repeated = Repeated {
    front: "fn main() { let mut x = 0i64;",
    part: " x = 1;",
    back: " }",
};

/// Nine sites, and two for each `println!`.
const PRINTS: Repeated = Repeated {
    front: "fn main() { let a = 1i64; let b = a; f();",
    part: " println!(\"{}\", 1i64);",
    back: " println!(\"{}\", b); } fn f() {}",
};

/// Calls of a function with eight lifetimes, each a site, behind which comes one more.
const CALLS: Repeated = Repeated {
    front: "fn f() {",
    part: " g();",
    back: " } fn g<'a, 'b, 'c, 'd, 'e, 'f, 'g, 'h>() {} fn main() {}",
};

#[test]
fn a_graph_has_at_most_16384_sites(rt: HostRuntime) {
    let alloc = rt.alloc();
    hold(&rt, ASSIGNMENTS.gives(alloc, 8189, "16383 0 0"), "8189");
    hold(
        &rt,
        ASSIGNMENTS.gives(alloc, 8190, "TooLarge 0 16385 0"),
        "8190",
    );
    hold(&rt, PRINTS.gives(alloc, 8186, "16384 0 0"), "8186");
    hold(&rt, PRINTS.gives(alloc, 8187, "TooLarge 0 16386 0"), "8187");
}

#[test]
fn a_graph_has_at_most_65536_lifetimes(rt: HostRuntime) {
    let alloc = rt.alloc();
    hold(&rt, CALLS.gives(alloc, 8192, "8193 0 65536"), "8192");
    hold(
        &rt,
        CALLS.gives(alloc, 8193, "TooLarge 0 8194 65544"),
        "8193",
    );
    hold(
        &rt,
        CALLS.gives(alloc, 16384, "TooLarge 0 16385 131072"),
        "16384",
    );
}
