//! Files with comments and a layout of their own: their answers keep these.

use crate::extract::said::all_made;

const LAYOUTS: &str = r#"extract act 954 1787 copy
// A small bank: commands come from the input.
mod rt;

struct Account {
    id: i64,
    balance: i64,
}

struct Bank {
    first: Account,
    second: Account,
    fee: i64,
}

enum Command {
    Deposit(i64, i64),
    Withdraw(i64, i64),
    Show(i64),
    Quit,
}

// One command: a kind, an account and an amount.
fn read_command() -> Command {
    let kind = rt::next();
    if kind == 0 {
        return Command::Quit;
    }
    let id = rt::next();
    match kind {
        1 => Command::Deposit(id, rt::next()),
        2 => Command::Withdraw(id, rt::next()),
        _ => Command::Show(id),
    }
}

fn pick(bank: &mut Bank, id: i64) -> &mut Account {
    if id == bank.first.id {
        return &mut bank.first;
    }
    &mut bank.second
}

fn serve(bank: &mut Bank, limit: i64) -> i64 {
    let mut served = 0;
    loop {
        let command = read_command();
        /* The limit is tested
           before the command is done. */
        if served == limit {
            return served;
        }
        match command {
            Command::Deposit(id, amount) => {
                let account = pick(bank, id);
                account.balance = account.balance + amount;
            }
            Command::Withdraw(id, amount) => {
                let fee = bank.fee;
                let account = pick(bank, id);
                // No account goes below zero.
                if account.balance < amount + fee {
                    println!("{}", -1);
                    continue;
                }
                account.balance = account.balance - amount - fee;
            }
            Command::Show(id) => {
                let account = pick(bank, id);
                println!("{}", account.balance);
            }
            Command::Quit => break,
        }
        served = served + 1;
    }
    served
}

fn main() {
    let mut bank = Bank {
        first: Account { id: 1, balance: 100 },
        second: Account { id: 2, balance: 50 },
        fee: 1,
    };
    let done = serve(&mut bank, 10);
    println!("{}", done);
}
====
0
// A small bank: commands come from the input.
mod rt;

struct Account {
    id: i64,
    balance: i64,
}

struct Bank {
    first: Account,
    second: Account,
    fee: i64,
}

enum Command {
    Deposit(i64, i64),
    Withdraw(i64, i64),
    Show(i64),
    Quit,
}

// One command: a kind, an account and an amount.
fn read_command() -> Command {
    let kind = rt::next();
    if kind == 0 {
        return Command::Quit;
    }
    let id = rt::next();
    match kind {
        1 => Command::Deposit(id, rt::next()),
        2 => Command::Withdraw(id, rt::next()),
        _ => Command::Show(id),
    }
}

fn pick(bank: &mut Bank, id: i64) -> &mut Account {
    if id == bank.first.id {
        return &mut bank.first;
    }
    &mut bank.second
}

fn serve(bank: &mut Bank, limit: i64) -> i64 {
    let mut served = 0;
    loop {
        let command = read_command();
        /* The limit is tested
           before the command is done. */
        match act(served, limit, &command, bank) {
            Exit_act::Next => {}
            Exit_act::Break_0 => break,
            Exit_act::Continue_0 => continue,
            Exit_act::Return(out_0) => return out_0,
        };
        served = served + 1;
    }
    served
}

enum Exit_act {
    Next,
    Break_0,
    Continue_0,
    Return(i64),
}

fn act<'r0, 'r1>(served: i64, limit: i64, command: &'r0 Command, bank: &'r1 mut Bank) -> Exit_act {
    if served == limit {
        return Exit_act::Return(served);
    }
    match *command {
        Command::Deposit(id, amount) => {
            let account = pick(bank, id);
            account.balance = account.balance + amount;
        }
        Command::Withdraw(id, amount) => {
            let fee = bank.fee;
            let account = pick(bank, id);
            // No account goes below zero.
            if account.balance < amount + fee {
                println!("{}", -1);
                return Exit_act::Continue_0;
            }
            account.balance = account.balance - amount - fee;
        }
        Command::Show(id) => {
            let account = pick(bank, id);
            println!("{}", account.balance);
        }
        Command::Quit => return Exit_act::Break_0,
    }
    Exit_act::Next
}

fn main() {
    let mut bank = Bank {
        first: Account { id: 1, balance: 100 },
        second: Account { id: 2, balance: 50 },
        fee: 1,
    };
    let done = serve(&mut bank, 10);
    println!("{}", done);
}
----
extract both 165 212 copy
struct State { n: i64 }
fn advance(s: State, k: i64) -> State { State { n: s.n + k } }
fn main() {
    let mut s = State { n: 1 };
    let v = { /* first */
        s = advance(s, 2);
        // value
        s.n /* end */ };
    println!("{}", s.n + v);
} // tail
====
0
struct State { n: i64 }
fn advance(s: State, k: i64) -> State { State { n: s.n + k } }
fn main() {
    let mut s = State { n: 1 };
    let v = { /* first */
        let (out_0, out_1) = both(s);
        s = out_1;
        out_0 /* end */ };
    println!("{}", s.n + v);
}

fn both(mut s: State) -> (i64, State) {
    s = advance(s, 2);
    // value
    let out_0: i64 = s.n;
    (out_0, s)
} // tail
----
extract h 138 311 ref
struct P { x: i64, y: i64 }
fn unit() { }
fn f(p: &P, x: &mut i64, go: bool) {
    let mut a = 1i64;
    let y = 2i64;
    loop {
        if go { return (unit()); } // r
        if *x > 3 { return; }
        a = a+/* c */a/a;
        let q = P { x: a, y };
        println!("{}", q.x + q.y + p.x);
        break
    }
    a = a + 1;
    println!("{}", a + y);
} // end
fn main() { }
====
0
struct P { x: i64, y: i64 }
fn unit() { }
fn f(p: &P, x: &mut i64, go: bool) {
    let mut a = 1i64;
    let y = 2i64;
    loop {
        match h(&go, &x, &mut a, &y, &p) {
            Exit_h::Break_0 => break,
            Exit_h::Return => return,
        };
    }
    a = a + 1;
    println!("{}", a + y);
}

enum Exit_h {
    Break_0,
    Return,
}

fn h<'r0, 'r1, 'r2, 'r3, 'r4, 'r5, 'r6>(go: &'r0 bool, x: &'r1 &'r2 mut i64, a: &'r3 mut i64, y: &'r4 i64, p: &'r5 &'r6 P) -> Exit_h {
    if *go { return { let out_0: () = (unit()); Exit_h::Return }; } // r
    if **x > 3 { return Exit_h::Return; }
    *a = *a+/* c */*a/(*a);
    let q = P { x: *a, y: *y };
    println!("{}", q.x + q.y + (*p).x);
    return Exit_h::Break_0
} // end
fn main() { }
----
extract h 138 310 copy
struct P { x: i64, y: i64 }
fn unit() { }
fn f(p: &P, x: &mut i64, go: bool) {
    let mut a = 1i64;
    let y = 2i64;
    loop {
        if go { return(unit()); } // r
        if *x > 3 { return; }
        a = a+/* c */a/a;
        let q = P { x: a, y };
        println!("{}", q.x + q.y + p.x);
        break
    }
    a = a + 1;
    println!("{}", a + y);
} // end
fn main() { }
====
0
struct P { x: i64, y: i64 }
fn unit() { }
fn f(p: &P, x: &mut i64, go: bool) {
    let mut a = 1i64;
    let y = 2i64;
    loop {
        match h(go, x, &mut a, y, p) {
            Exit_h::Break_0 => break,
            Exit_h::Return => return,
        };
    }
    a = a + 1;
    println!("{}", a + y);
}

enum Exit_h {
    Break_0,
    Return,
}

fn h<'r0, 'r1, 'r2>(go: bool, x: &'r0 i64, a: &'r1 mut i64, y: i64, p: &'r2 P) -> Exit_h {
    if go { return { let out_0: () = (unit()); Exit_h::Return }; } // r
    if *x > 3 { return Exit_h::Return; }
    *a = *a+/* c */*a/(*a);
    let q = P { x: *a, y };
    println!("{}", q.x + q.y + p.x);
    return Exit_h::Break_0
} // end
fn main() { }"#;

#[test]
fn answers_keep_comments_and_layout(rt: HostRuntime) {
    all_made(&rt, rt.alloc(), LAYOUTS);
}
