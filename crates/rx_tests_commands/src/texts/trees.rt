//! Trees that are read, copied, compared and walked.

use crate::holding::all_hold;
use crate::texts::prints::are_same;
use rx_core::{LetGo, List, Position};
use rx_parse::parse;
use rx_tests_tables::{LINES, Outcome};
use rx_tree::Program;
use rx_tree_operations::{CopyTree, Node, at, same};
use std::alloc::{AllocError, Global};

const TEXT: &str =
    "mod rt; struct S<'l> { n: &'l i64 } enum E { A, B(bool, ()) } fn main<'l>(p: bool) -> bool { let x: bool = S { n: x + x }; 'a: loop { match x { S { n: _ } => break 'a } } x }";

/// Texts, each with what it has otherwise than the one above.
const OTHERS: &str = "\
mod rt; struct S<'l> { n: &'l i64, }  enum E { A, B(bool, ()) } fn main<'l>(p: bool) -> bool { let x: bool = (S { n: x + x }); 'a: loop { match x { S { n: _ } => break 'a } } x } | same
mod rt; struct S<'l> { n: &'l i64 } enum E { A, B(bool, ()) } fn main<'l>(p: bool) -> bool { let x: bool = S { m: x + x }; 'a: loop { match x { S { n: _ } => break 'a } } x } | another field
mod rt; struct S<'l> { n: &'l i64 } enum E { A, B(bool, ()) } fn main<'l>(p: bool) -> bool { let x: bool = S { n: x + x }; 'a: loop { match x { S { n: _ } => break 'b } } x } | another label
mod rt; struct S<'l> { n: &'l i64 } enum E { A, B(bool, ()) } fn main<'l>(p: bool) -> bool { let mut x: bool = S { n: x + x }; 'a: loop { match x { S { n: _ } => break 'a } } x } | a `mut` of a variable
mod rt; struct S<'l> { n: &'l mut i64 } enum E { A, B(bool, ()) } fn main<'l>(p: bool) -> bool { let x: bool = S { n: x + x }; 'a: loop { match x { S { n: _ } => break 'a } } x } | a `mut` of a reference
mod rt; struct S<'l> { n: &'l i64 } enum E { A, B(bool, ()) } fn main<'l>(mut p: bool) -> bool { let x: bool = S { n: x + x }; 'a: loop { match x { S { n: _ } => break 'a } } x } | a `mut` of a parameter
mod rt; struct S<'l> { n: &'l i64 } enum E { A, B(bool, ()) } fn main<'l>(p: bool) -> bool { let x: bool = S { n: x - x }; 'a: loop { match x { S { n: _ } => break 'a } } x } | another operator
mod rt; #[derive(Clone)] struct S<'l> { n: &'l i64 } enum E { A, B(bool, ()) } fn main<'l>(p: bool) -> bool { let x: bool = S { n: x + x }; 'a: loop { match x { S { n: _ } => break 'a } } x } | a derive more
struct S<'l> { n: &'l i64 } enum E { A, B(bool, ()) } fn main<'l>(p: bool) -> bool { let x: bool = S { n: x + x }; 'a: loop { match x { S { n: _ } => break 'a } } x } | an item less";

fn differs(alloc: Global, text: &str, by: &str) -> Outcome {
    Ok(are_same(alloc, TEXT, text) == (by == "same"))
}

#[test]
fn trees_are_compared_but_for_their_spans(rt: HostRuntime) {
    all_hold(&rt, rt.alloc(), OTHERS, LINES, differs);
}

/// The kind of the node at a position, and where its span begins.
fn found(program: &Program, position: &Position) -> Option<(&'static str, u64)> {
    match at(program, position) {
        Some(Node::Item(item)) => Some(("item", item.span.start)),
        Some(Node::TypeText(typ)) => Some(("type", typ.span.start)),
        Some(Node::Block(block)) => Some(("block", block.span.start)),
        Some(Node::Stmt(stmt)) => Some(("statement", stmt.span.start)),
        Some(Node::Expr(expr)) => Some(("expression", expr.span.start)),
        Some(Node::Pattern(pattern)) => Some(("pattern", pattern.span.start)),
        None => None,
    }
}

/// Whether this stands at the position, as in `type 26`, or `none`.
fn stands(program: &Program, position: &Position, want: &str) -> bool {
    match (found(program, position), want.split_once(" ")) {
        (Some((kind, start)), Some((word, number))) => {
            kind == word && number.parse::<u64>() == Ok(start)
        }
        (None, None) => want == "none",
        _ => false,
    }
}

/// Whether it stands there in a program and in its copy, which are the same.
fn stands_twice(alloc: Global, program: &Program, position: &Position, want: &str) -> bool {
    match program.copy(alloc) {
        Ok(copy) => {
            let is_same = same(program, &copy);
            let in_both = stands(program, position, want) && stands(&copy, position, want);
            copy.let_go();
            is_same && in_both
        }
        Err(_) => false,
    }
}

fn push_numbers(path: &mut List<u32>, numbers: &str) -> Result<(), AllocError> {
    for number in numbers.split_ascii_whitespace() {
        path.push(number.parse::<u32>().unwrap_or(u32::MAX))?;
    }
    Ok(())
}

/// An item, and the way from it by numbers of children, as in `3: 2 0 1`.
fn position_of(alloc: Global, text: &str) -> Result<Position, AllocError> {
    let (item, numbers) = text.split_once(":").unwrap_or(("", ""));
    let item = item.parse::<u32>().unwrap_or(u32::MAX);
    let mut path = List::new(alloc);
    push_numbers(&mut path, numbers)?;
    Ok(Position { item, path })
}

fn names(alloc: Global, position: &str, want: &str) -> Outcome {
    let position = position_of(alloc, position)?;
    match parse(alloc, TEXT.as_bytes()) {
        Ok(program) => {
            let holds = stands_twice(alloc, &program, &position, want);
            program.let_go();
            Ok(holds)
        }
        Err(_) => Ok(false),
    }
}

const POSITIONS: &str = "\
0: | item 0
0: 0 | none
1: 0 | type 26
1: 0 0 | type 30
1: 0 0 0 | none
1: 1 | none
2: 0 | type 50
2: 1 | type 56
2: 2 | none
3: 0 | type 77
3: 1 | type 86
3: 2 | block 91
3: 3 | none
3: 2 0 | statement 93
3: 2 0 0 | pattern 97
3: 2 0 1 | type 100
3: 2 0 2 | expression 107
3: 2 0 2 0 1 | expression 118
3: 2 1 0 | expression 123
3: 2 1 0 0 0 0 | expression 140
3: 2 1 0 0 0 1 | pattern 144
3: 2 1 0 0 0 1 0 | pattern 151
3: 2 1 0 0 0 2 | expression 158
3: 2 1 0 0 0 3 | none
3: 2 2 | expression 171
4: | none";

/// A copy has the same nodes at the same places.
#[test]
fn a_position_names_a_node_or_none(rt: HostRuntime) {
    all_hold(&rt, rt.alloc(), POSITIONS, LINES, names);
}
