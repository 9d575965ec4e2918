//! Whole programs that are accepted: runs of statements with loops, matches, references and structs, and a bank.

use crate::check::said::{Outcome, checked, hold};
use std::alloc::Global;
use std::process::Abort;

const WHOLE: &str = "\
fn main() { let a = 2i64; let b = 3i64; let c = a * b; println!(\"{}\", c); }
struct P { x: i64, y: i64 } fn main() { let p = P { x: 3, y: 4 }; let s = p.x * p.x + p.y * p.y; println!(\"{}\", s); println!(\"{}\", p.x); }
fn main() { let k = 7; let d = k + 1; println!(\"{}\", d); }
mod rt; fn main() { let mut sum = 0i64; let mut n = rt::next(); while n != 0 { sum = sum + n * n; n = rt::next(); } println!(\"{}\", sum); }
mod rt; fn main() { let mut sum = 0i64; loop { let n = rt::next(); if n == 0 { break; } if n < 0 { continue; } sum = sum + n; } println!(\"{}\", sum); }
mod rt; fn find(limit: i64) -> i64 { let mut i = 0i64; 'outer: loop { loop { let n = rt::next(); if n == 0 { break 'outer; } if n > limit { return n; } i = i + 1; } } i } fn main() { println!(\"{}\", find(10)); }
mod rt; struct State { n: i64 } fn advance(s: State, k: i64) -> State { State { n: s.n + k } } fn main() { let mut s = State { n: 1 }; loop { let k = rt::next(); s = advance(s, k); if s.n > 100 { break; } } println!(\"{}\", s.n); }
mod rt; struct State { n: i64 } fn advance(s: State, k: i64) -> State { State { n: s.n + k } } enum Exit_step { Next(State), Break_0(State) } fn step(mut s: State, k: i64) -> Exit_step { s = advance(s, k); if s.n > 100 { return Exit_step::Break_0(s); }; Exit_step::Next(s) } fn main() { let mut s = State { n: 1 }; loop { let k = rt::next(); s = match step(s, k) { Exit_step::Next(out_0) => out_0, Exit_step::Break_0(out_0) => { s = out_0; break; } }; } println!(\"{}\", s.n); }
fn area(w: i64, h: i64) -> i64 { let base = w * h; base + 1 } fn main() {}
fn main() { let mut x = 1i64; let r = &mut x; *r = 5; println!(\"{}\", x); }
fn main() { let a = 3i64; let b = 9i64; let p = &a; let q = &b; let mut best = p; if *q > *best { best = q; } println!(\"{}\", *best); }
struct Keep<'k> { best: &'k i64 } fn order<'a>(x: &mut Keep<'a>, y: &mut Keep<'a>) { let t = x.best; x.best = y.best; y.best = t; } fn main() {}
fn main() { let k = 4i64; let y; y = k * 2; println!(\"{}\", y); }
fn main() { let c = true; let mut y; if c { y = 1i64; println!(\"{}\", y); } y = 2; println!(\"{}\", y); }
fn main() { let a = 1i64; println!(\"{}\", a); let t; t = a + 1; println!(\"{}\", t); }
mod rt; fn main() { let a = rt::next(); println!(\"{}\", a); let q = a / rt::next(); println!(\"{}\", q); }
fn down(n: i64) -> i64 { if n == 0 { return 0; } down(n - 1) } fn main() { println!(\"{}\", down(998)); }
fn main() { let a = -9223372036854775808i64; }
struct Tag { n: i64 } fn show(t: &Tag) { println!(\"{}\", t.n); } fn eat(t: Tag) -> i64 { t.n } fn main() { let mut s = Tag { n: 4 }; show(&s); s.n = 5; let k = eat(s); println!(\"{}\", k); }
struct W<'w> { r: &'w mut i64 } fn main() { let mut x = 1i64; let w = W { r: &mut x }; *w.r = 2; println!(\"{}\", *w.r); }
fn main() { loop {} }
fn main() { return; println!(\"{}\", 1); }
fn f() -> i64 { let x = { return 1; 5i64 }; println!(\"{}\", x); 7 } fn main() {}
fn main() { let x; { x = 1i64; let x = 2i64; println!(\"{}\", x); } println!(\"{}\", x); }
enum Exit { Next(i64), Break(i64) } fn g() -> Exit { let x; x = 5i64; if x > 3i64 { return Exit::Break(x); } Exit::Next(x) } fn main() { let x; loop { x = match g() { Exit::Next(out) => out, Exit::Break(out) => { x = out; break; } }; println!(\"{}\", x); break; } println!(\"{}\", x); }
struct T { n: i64 } fn main() { let p = (T { n: 1 }, T { n: 2 }); let a = p.0; println!(\"{}\", p.1.n); println!(\"{}\", a.n); }
struct T { n: i64 } fn eat(t: T) {} fn main() { let s = T { n: 1 }; if s.n == 2 { eat(s); return; } println!(\"{}\", s.n); }
struct State { n: i64 } fn advance(s: State, k: i64) -> State { State { n: s.n + k } } fn main() { let mut s = State { n: 1 }; let v = { s = advance(s, 2); s.n }; println!(\"{}\", s.n + v); }
mod rt; struct Account { id: i64, balance: i64, } struct Bank { first: Account, second: Account, fee: i64, } enum Command { Deposit(i64, i64), Withdraw(i64, i64), Show(i64), Quit, } fn read_command() -> Command { let kind = rt::next(); if kind == 0 { return Command::Quit; } let id = rt::next(); match kind { 1 => Command::Deposit(id, rt::next()), 2 => Command::Withdraw(id, rt::next()), _ => Command::Show(id), } } fn pick(bank: &mut Bank, id: i64) -> &mut Account { if id == bank.first.id { return &mut bank.first; } &mut bank.second } fn serve(bank: &mut Bank, limit: i64) -> i64 { let mut served = 0; loop { let command = read_command(); if served == limit { return served; } match command { Command::Deposit(id, amount) => { let account = pick(bank, id); account.balance = account.balance + amount; } Command::Withdraw(id, amount) => { let fee = bank.fee; let account = pick(bank, id); if account.balance < amount + fee { println!(\"{}\", -1); continue; } account.balance = account.balance - amount - fee; } Command::Show(id) => { let account = pick(bank, id); println!(\"{}\", account.balance); } Command::Quit => break, } served = served + 1; } served } fn main() { let mut bank = Bank { first: Account { id: 1, balance: 100 }, second: Account { id: 2, balance: 50 }, fee: 1, }; let done = serve(&mut bank, 10); println!(\"{}\", done); }";

fn is_accepted(alloc: Global, text: &str) -> Outcome {
    Ok(checked(alloc, text)?.is_accepted())
}

fn all_accepted(rt: &impl Abort, alloc: Global, table: &str) {
    for text in table.split("\n") {
        hold(rt, is_accepted(alloc, text), text);
    }
}

#[test]
fn whole_programs_are_accepted(rt: HostRuntime) {
    all_accepted(&rt, rt.alloc(), WHOLE);
}
