//! Where texts stop being a program. `‸` stands before the token in question, or at the end; it is no part of the text.

use crate::holding::all_hold;
use crate::texts::parse::{answer, is_answered};
use rx_tests_tables::{LINES, MARKED, Nesting, Outcome, joined};
use std::alloc::Global;

/// Whether no program goes on at the mark.
fn stops(alloc: Global, front: &str, back: &str) -> Outcome {
    let text = joined(alloc, front, back)?;
    Ok(is_answered(alloc, text.as_bytes(), "syntax", front.len() as u64))
}

const STOPS: &str = r#"fn ‸{ }
fn main ‸{ }
fn main(a‸) {}
fn main(a: ‸) {}
fn main(a: u8 ‸b: u8) {}
fn main() -> ‸{ }
fn main() ‸;
fn f(‸let: u8) {}
struct S { a: u8, ‸, }
struct S ‸;
struct S<‸> {}
struct S<'a ‸b> {}
enum E { A(‸) }
enum E { A, ‸, }
#[derive(Clone ‸Copy)] struct S {}
#[derive(Copy)] ‸fn f() {}
#‸(derive)
mod rt ‸{ }
mod ‸S;
‸let x = 1;
fn f<'a: 'b + ‸, 'c>() {}
fn f() {} ‸}
fn f(a: &‸) {}
fn f(a: &mut ‸mut u8) {}
fn f(a: (u8, ‸, u8)) {}
fn f(a: S<‸u8>) {}
fn f(a: S<'a ‸'b>) {}
fn f(a: ‸[u8]) {}
fn f() { let ‸= 1; }
fn f() { let mut ‸(a, b) = c; }
fn f() { let (a, ‸,) = c; }
fn f() { let E::V(‸) = c; }
fn f() { let S { a: ‸, } = c; }
fn f() { let -‸x = 1; }
fn f() { let E::‸1 = c; }
fn f() { let (a, b)‸; }
fn f() { let x: ‸= 1; }
fn f() { let x ‸1; }
fn f() { let x = 1 ‸}
fn f() { let x = ‸let; }
fn f() { 1 + ‸; }
fn f() { g(1 ‸2); }
fn f() { g(‸, 1); }
fn f() { E::V(‸) }
fn f() { rt::next(1‸; }
fn f() { S { a: ‸, } }
fn f() { S { a ‸b } }
fn f() { x.‸; }
fn f() { x.‸1u8; }
fn f() { a == b ‸== c; }
fn f() { if S { a ‸: 1 } {} }
fn f() { println!‸; }
fn f() { println!(‸x); }
fn f() { println!("{}"‸); }
fn f() { println!("{}", x‸,); }
fn f() { {} ‸+ 1; }
fn f() { if a {} else ‸x; }
fn f() { match a {‸} }
fn f() { match a { b ‸1 } }
fn f() { match a { b => ‸, } }
fn f() { match a { b => 1 ‸c => 2 } }
fn f() { match a { b => {} c ‸} }
fn f() { 'a: ‸{ } }
fn f() { 'a ‸loop {} }
fn f() { while { } ‸}
fn f() { if let x = a ‸&& b {} }
fn f() { if let x = a ‸|| b {} }
fn f() { while let x = a == b ‸&& c {} }
fn f() { if let ‸= a {} }
fn f() { if let x {} ‸}
fn f() { if let x = S { a‸: 1 } {} }
fn f() { while let x = ‸; }
fn f() { while let 1 ‸+ 2 = a {} }
fn f() { if a && ‸let x = b {} }
fn f() { if (‸let x = b) {} }
fn f() { if let x = a {} else ‸let y = b {} }
fn f() { if let x = ‸return {} }
fn f() { loop ‸; }
fn f() { a = ‸= b; }
fn f() { return ‸let; }
fn f() { break 'a ‸'b; }
fn f() { (1, ‸, 2) }
fn f() { -‸; }
fn f() { &mut ‸mut x }
fn f() { &&‸; }
fn f() { x ‸y }
fn f() { continue ‸+ 1 }
fn‸
fn f(‸
fn f() {‸
fn f(a: (‸
fn f() { g(‸
fn f() { match a {‸
fn f() { S { a‸
struct S {‸
enum E { A(‸
#[derive(‸
fn f<‸
fn f() { let (a,‸
fn f() { (1‸
fn f() { println!("{}", x‸
fn f() { 'a:‸"#;

#[test]
fn no_program_goes_on_at_the_mark(rt: HostRuntime) {
    all_hold(&rt, rt.alloc(), STOPS, MARKED, stops);
}

/// Whether a value in so many pairs of parentheses, as the tail of a function, is answered so.
fn enclosed_is(alloc: Global, value: &str, pairs: usize, kind: &str, number: usize) -> Outcome {
    let nesting = Nesting {
        front: "fn f() { ",
        before: "(",
        inner: value,
        after: ")",
        back: " }",
    };
    let text = nesting.text(alloc, pairs)?;
    Ok(is_answered(alloc, text.as_bytes(), kind, number as u64))
}

/// Whether a value of so many levels fits with others up to 127 and 128, the body's with them, and with one more is too
/// deep at the mark, which stands at this place in it.
fn fits(alloc: Global, value: &str, mark: usize, levels: usize) -> Outcome {
    let below = enclosed_is(alloc, value, 126usize.saturating_sub(levels), "items", 1)?;
    let most = enclosed_is(alloc, value, 127usize.saturating_sub(levels), "items", 1)?;
    let pairs = 128usize.saturating_sub(levels);
    let place = "fn f() { ".len().saturating_add(pairs).saturating_add(mark);
    let above = enclosed_is(alloc, value, pairs, "deep", place)?;
    Ok(below && most && above)
}

fn ends_at_the_mark(alloc: Global, marked: &str, levels: &str) -> Outcome {
    match marked.split_once("‸") {
        Some((front, back)) => {
            let value = joined(alloc, front, back)?;
            fits(
                alloc,
                value.as_str(),
                front.len(),
                levels.parse::<usize>().unwrap_or(0),
            )
        }
        None => Ok(false),
    }
}

/// Each value with the number of its levels.
const LEVELS_OF: &str = r#"‸1 | 1
‸return | 1
‸break | 1
(‸1) | 2
‸-1 | 2
‸!x | 2
‸*x | 2
‸&x | 2
‸&&x | 3
‸&mut x | 2
1 ‸+ 2 | 2
1 + 2 ‸+ 3 | 3
a ‸== b | 2
a ‸&& b | 2
x‸.a | 2
x‸.0 | 2
x.a‸.b | 3
x ‸= 1 | 2
x ‸+= 1 | 2
x = y ‸= 1 | 3
(1, ‸-2) | 3
E::V‸(1) | 2
rt::next(‸1) | 2
S { ‸a: 1 } | 2
S { ‸a } | 2
g(‸1) | 2
println‸!("{}", 1) | 2
return ‸1 | 2
‸{ } | 2
‸if a {} | 2
if a {} ‸else {} | 3
if a {} ‸else if b {} | 3
‸match a { b => 1 } | 2
match a { (‸b) => 1 } | 3
match a { (b, (‸c)) => 1 } | 4
match a { E::V‸(b) => 1 } | 3
match a { S { ‸b } => 1 } | 3
match a { b => ‸-1 } | 3
‸loop {} | 2
‸while a {} | 2
‸if let b = a {} | 2
if let (‸b) = a {} | 3
if let b = ‸-a {} | 3
if let b = a {} ‸else {} | 3
if let b = a {} ‸else if let c = d {} | 3
‸while let b = a {} | 2
‸'a: while let b = a {} | 2
while let E::V‸(b) = a {} | 3
‸'a: loop {} | 2
loop { ‸x } | 3
{ ‸let x = 1; } | 3
{ let (‸a) = x; } | 4
{ let S { ‸mut a } = x; } | 4
{ let x: ‸&u8 = 1; } | 4
{ let x: (‸u8) = 1; } | 4
{ let x: ‸&&u8 = 1; } | 5
{ let x: (u8, (‸u8,)) = 1; } | 5
{ f(); ‸-1 } | 4
{ { ‸x } } | 5"#;

#[test]
fn levels_end_at_the_mark(rt: HostRuntime) {
    all_hold(&rt, rt.alloc(), LEVELS_OF, LINES, ends_at_the_mark);
}

/// The words of the grammar, one of each kind.
const WORDS: &str =
    r#"x 0 } ) ; { ( ] > , : fn u8 => = 'a "{}" '_ rt next println derive Clone Copy struct enum mod let mut if else
match loop while return break continue true false bool u32 u64 i32 i64 -> :: == != <= >= && || += -= *= /= %=
[ < . + - * / % ! & # _ 1u8 const"#;

/// Whether words are a program, in three parts.
fn is_program(alloc: Global, front: &str, word: &str, next: &str) -> Outcome {
    let text = format!(in alloc; "{front} {word} {next}")?;
    let (kind, _) = answer(alloc, text.as_bytes());
    Ok(kind == "items")
}

/// Whether one word more makes these words a program: a plain search that tries each word.
fn one_more(alloc: Global, front: &str, word: &str) -> Outcome {
    for next in WORDS.split_ascii_whitespace() {
        if is_program(alloc, front, word, next)? {
            return Ok(true);
        }
    }
    Ok(false)
}

/// Whether two words more make these words a program.
fn two_more(alloc: Global, front: &str) -> Outcome {
    for word in WORDS.split_ascii_whitespace() {
        if one_more(alloc, front, word)? {
            return Ok(true);
        }
    }
    Ok(false)
}

/// Whether at most two words more make these words a program.
fn begins(alloc: Global, front: &str) -> Outcome {
    Ok(is_program(alloc, front, "", "")? || one_more(alloc, front, "")? || two_more(alloc, front)?)
}

/// Whether at most one word more makes these words and this one a program.
fn goes_on(alloc: Global, front: &str, word: &str) -> Outcome {
    Ok(is_program(alloc, front, word, "")? || one_more(alloc, front, word)?)
}

/// Whether a program begins with what stands before the mark, none with what is behind it too, and the parser says so.
fn stops_as_found(alloc: Global, front: &str, word: &str) -> Outcome {
    Ok(stops(alloc, front, word)? && begins(alloc, front)? && !goes_on(alloc, front, word)?)
}

const FOUND: &str = r#" ‸let
mod ‸x
mod rt ‸{
struct S { ‸,
struct S { x : u8 ‸x
enum E { ‸}
enum E { x ‸;
fn f ( ) ‸;
fn f ( x : u8 ) ‸u8
fn f ( ) { ‸)
fn f ( ) { x ‸x
fn f ( ) { let x ‸x
fn f ( ) { { } ‸+
fn f ( ) { x == x ‸==
fn f ( ) { println ! ( "{}" , x ‸,
fn f ( ) { x . ‸1u8
fn f ( ) { return ‸let
fn f ( ) { x = ‸=
fn f ( ) { match x { x => x ‸x
fn f ( ) { loop { } ‸."#;

/// The place is the one that a search finds which does not know where the parser stops.
#[test]
fn the_place_is_where_no_word_helps(rt: HostRuntime) {
    all_hold(&rt, rt.alloc(), FOUND, MARKED, stops_as_found);
}
