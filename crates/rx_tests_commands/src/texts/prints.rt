//! Canonical texts, and that they are read back as the same program.

use crate::holding::{all_hold, hold};
use rx_core::{LetGo, Text};
use rx_parse::parse;
use rx_print::print;
use rx_tests_tables::{BANK, BLOCKS, LINES, Outcome};
use rx_tree::Program;
use rx_tree_operations::same;
use std::alloc::Global;

/// The canonical text of a text's program, or `None` where the text is no program or memory ran out.
fn canonical(alloc: Global, text: &str) -> Option<Text> {
    match parse(alloc, text.as_bytes()) {
        Ok(program) => {
            let printed = print(alloc, &program);
            program.let_go();
            printed.ok()
        }
        Err(_) => None,
    }
}

/// Whether two texts are those of the same program.
pub fn are_same(alloc: Global, one: &str, other: &str) -> bool {
    match parse(alloc, one.as_bytes()) {
        Ok(left) => {
            let answer = is_text_of(alloc, other, &left);
            left.let_go();
            answer
        }
        Err(_) => false,
    }
}

fn is_text_of(alloc: Global, text: &str, program: &Program) -> bool {
    match parse(alloc, text.as_bytes()) {
        Ok(read) => {
            let answer = same(program, &read);
            read.let_go();
            answer
        }
        Err(_) => false,
    }
}

/// Whether the canonical text of a text's program is this one, and is read back as the program.
fn prints(alloc: Global, text: &str, want: &str) -> bool {
    match canonical(alloc, text) {
        Some(printed) => printed.as_str() == want && are_same(alloc, text, printed.as_str()),
        None => false,
    }
}

fn prints_value(alloc: Global, value: &str, canonical: &str) -> Outcome {
    let text = format!(in alloc; "fn f() {{ let x = {value}; }}")?;
    let want = format!(in alloc; "fn f() {{\n    let x = {canonical};\n}}\n")?;
    Ok(prints(alloc, text.as_str(), want.as_str()))
}

const VALUES: &str = r#"(*x).f | (*x).f
*(x.f) | *x.f
(- x) . y | (-x).y
-(-1) | --1
!(!b) | !!b
(a - b) - c | a - b - c
a - (b - c) | a - (b - c)
(a + b) * c | (a + b) * c
a + (b * c) | a + b * c
(a == b) == c | (a == b) == c
(a = b) == c | (a = b) == c
a = (b = c) | a = b = c
(a = b) = c | (a = b) = c
(a && b) || c | a && b || c
a && (b || c) | a && (b || c)
(return) + 1 | (return) + 1
return (a + 1) | return a + 1
(1,) | (1,)
((1)) | 1
(1, 2,) | (1, 2)
( ) | ()
& & x | &&x
&mut &x | &mut &x
& mut x . f | &mut x.f
(&x).f | (&x).f
f(a,b,) | f(a, b)
E :: V(a,) | E::V(a)
E::W | E::W
S{a,b:1,} | S { a: a, b: 1 }
S { } | S {}
rt::next( ) | rt::next()
x . 0 . 1 | x.0.1
0x10u8 | 16u8
1_000 | 1000
true | true
(break 'a) + 1 | (break 'a) + 1
println!("{}", (x)) | println!("{}", x)"#;

#[test]
fn parentheses_stand_where_the_tree_needs_them(rt: HostRuntime) {
    all_hold(&rt, rt.alloc(), VALUES, LINES, prints_value);
}

fn prints_lines(alloc: Global, text: &str, lines: &str) -> Outcome {
    let want = format!(in alloc; "{lines}\n")?;
    Ok(prints(alloc, text, want.as_str()))
}

const PROGRAMS: &str = r"fn f(){}
fn f() {}
----
struct S{}
struct S {}
----
struct S{a:u8,b:(u8,)}
struct S {
    a: u8,
    b: (u8,),
}
----
#[derive(Clone,Copy)] enum E<'a>{A(&'a u8,),B}
#[derive(Clone, Copy)]
enum E<'a> {
    A(&'a u8),
    B,
}
----
mod rt;fn main(){}
mod rt;

fn main() {}
----
fn f<'a:'b+'c,'b,'c>(mut x:&'a mut S<'b,'c>)->(u8,){}
fn f<'a: 'b + 'c, 'b, 'c>(mut x: &'a mut S<'b, 'c>) -> (u8,) {}
----
fn f(x:& &u8,y:&&mut T<'_>){}
fn f(x: &&u8, y: &&mut T<'_>) {}
----
fn f(){match x{A::B(y)=>1,_=>{}C{d}=>if a{}else{} e=>loop{} mut z=>-1}}
fn f() {
    match x {
        A::B(y) => 1,
        _ => {}
        C { d: d } => if a {} else {},
        e => loop {},
        mut z => -1,
    }
}
----
fn f(){match x{-1=>2,(a,)=>3,(true,())=>4,A::B=>({}+1)}}
fn f() {
    match x {
        -1 => 2,
        (a,) => 3,
        (true, ()) => 4,
        A::B => ({} + 1),
    }
}
----
fn f(){if a{1}else if b{2}else{3}}
fn f() {
    if a {
        1
    } else if b {
        2
    } else {
        3
    }
}
----
fn f(){(if a{}else{})+1;}
fn f() {
    (if a {} else {} + 1);
}
----
fn f(){({a})-b}
fn f() {
    ({
        a
    } - b)
}
----
fn f(){{a}-b}
fn f() {
    {
        a
    }
    -b
}
----
fn f(){if (S{a:1}).b==c{}}
fn f() {
    if (S { a: 1 }.b == c) {}
}
----
fn f(){while (a=b){}}
fn f() {
    while (a = b) {}
}
----
fn f(){match (return){x=>{}}}
fn f() {
    match (return) {
        x => {}
    }
}
----
fn f(){'a:loop{break 'a;continue;}}
fn f() {
    'a: loop {
        break 'a;
        continue;
    }
}
----
fn f(){let x;let mut y:u8;let (a,mut b):(u8,u8)=c;x+=1}
fn f() {
    let x;
    let mut y: u8;
    let (a, mut b): (u8, u8) = c;
    x += 1
}
----
fn f(){if let A::B(x)=y{}}
fn f() {
    if let A::B(x) = y {}
}
----
fn f(){if let _=(a&&b){1}else if let-1=c==d{2}else{3}}
fn f() {
    if let _ = (a && b) {
        1
    } else if let -1 = c == d {
        2
    } else {
        3
    }
}
----
fn f(){'a:while let (x,)=(S{a:1}).b{break 'a}}
fn f() {
    'a: while let (x,) = (S { a: 1 }.b) {
        break 'a
    }
}
----
fn f(){while let mut x=(a=b){};(if let x=a{}else{})+1}
fn f() {
    while let mut x = (a = b) {};
    (if let x = a {} else {} + 1)
}
----
fn f(){{}{};loop{}}
fn f() {
    {}
    {};
    loop {}
}";

#[test]
fn programs_have_a_canonical_text(rt: HostRuntime) {
    all_hold(&rt, rt.alloc(), PROGRAMS, BLOCKS, prints_lines);
    hold(&rt, Ok(prints(rt.alloc(), "", "\n")), "no items");
}

/// `examples/steps.rs`, which is canonical.
const STEPS: &str = r#"mod rt;

enum Step {
    Add(i64),
    Stop,
}

fn next_step() -> Step {
    let n = rt::next();
    if n == 0 {
        return Step::Stop;
    }
    Step::Add(n)
}

fn main() {
    let mut sum = 0i64;
    while let Step::Add(n) = next_step() {
        if let 13 = n {
            break;
        }
        sum = sum + n;
    }
    println!("{}", sum);
}
"#;

#[test]
fn a_canonical_text_is_printed_as_it_is(rt: HostRuntime) {
    hold(&rt, Ok(prints(rt.alloc(), STEPS, STEPS)), "steps");
}

/// Whether the canonical text of a text is read back as the program, and is its own canonical text.
fn is_read_back(alloc: Global, text: &str) -> bool {
    match canonical(alloc, text) {
        Some(printed) => {
            are_same(alloc, text, printed.as_str())
                && prints(alloc, printed.as_str(), printed.as_str())
        }
        None => false,
    }
}

#[test]
fn the_canonical_text_of_the_bank_is_read_back(rt: HostRuntime) {
    hold(&rt, Ok(is_read_back(rt.alloc(), BANK)), "the bank");
}
