//! The worked examples, as in docs/worked_extractions.txt.

use crate::extract::said::all_made;

const WORKED: &str = r#"extract times 52 66
fn main() {
    let a = 2i64;
    let b = 3i64;
    let c = a * b;
    println!("{}", c);
}
====
0
fn main() {
    let a = 2i64;
    let b = 3i64;
    let c = times(a, b);
    println!("{}", c);
}

fn times(a: i64, b: i64) -> i64 {
    let c = a * b;
    c
}
----
extract norm 84 114
struct P {
    x: i64,
    y: i64,
}

fn main() {
    let p = P { x: 3, y: 4 };
    let s = p.x * p.x + p.y * p.y;
    println!("{}", s);
    println!("{}", p.x);
}
====
0
struct P {
    x: i64,
    y: i64,
}

fn main() {
    let p = P { x: 3, y: 4 };
    let s = norm(&p);
    println!("{}", s);
    println!("{}", p.x);
}

fn norm<'r0>(p: &'r0 P) -> i64 {
    let s = (*p).x * (*p).x + (*p).y * (*p).y;
    s
}
----
extract norm 84 114 ref
struct P {
    x: i64,
    y: i64,
}

fn main() {
    let p = P { x: 3, y: 4 };
    let s = p.x * p.x + p.y * p.y;
    println!("{}", s);
    println!("{}", p.x);
}
====
0
struct P {
    x: i64,
    y: i64,
}

fn main() {
    let p = P { x: 3, y: 4 };
    let s = norm(&p);
    println!("{}", s);
    println!("{}", p.x);
}

fn norm<'r0>(p: &'r0 P) -> i64 {
    let s = (*p).x * (*p).x + (*p).y * (*p).y;
    s
}
----
extract add 31 45 copy
fn main() {
    let k = 7;
    let d = k + 1;
    println!("{}", d);
}
====
0
fn main() {
    let k = 7;
    let d = add(k);
    println!("{}", d);
}

fn add(k: i32) -> i32 {
    let d = k + 1;
    d
}
----
extract add 31 45 ref
fn main() {
    let k = 7;
    let d = k + 1;
    println!("{}", d);
}
====
0
fn main() {
    let k = 7;
    let d = add(&k);
    println!("{}", d);
}

fn add<'r0>(k: &'r0 i32) -> i32 {
    let d = *k + 1;
    d
}
----
extract gather 100 118
mod rt;

fn main() {
    let mut sum = 0i64;
    let mut n = rt::next();
    while n != 0 {
        sum = sum + n * n;
        n = rt::next();
    }
    println!("{}", sum);
}
====
0
mod rt;

fn main() {
    let mut sum = 0i64;
    let mut n = rt::next();
    while n != 0 {
        gather(&mut sum, n);
        n = rt::next();
    }
    println!("{}", sum);
}

fn gather<'r0>(sum: &'r0 mut i64, n: i64) {
    *sum = *sum + n * n;
}
----
extract gate 92 183
mod rt;

fn main() {
    let mut sum = 0i64;
    loop {
        let n = rt::next();
        if n == 0 {
            break;
        }
        if n < 0 {
            continue;
        }
        sum = sum + n;
    }
    println!("{}", sum);
}
====
0
mod rt;

fn main() {
    let mut sum = 0i64;
    loop {
        let n = rt::next();
        match gate(n) {
            Exit_gate::Next => {}
            Exit_gate::Break_0 => break,
            Exit_gate::Continue_0 => continue,
        };
        sum = sum + n;
    }
    println!("{}", sum);
}

enum Exit_gate {
    Next,
    Break_0,
    Continue_0,
}

fn gate(n: i64) -> Exit_gate {
    if n == 0 {
        return Exit_gate::Break_0;
    }
    if n < 0 {
        return Exit_gate::Continue_0;
    }
    Exit_gate::Next
}
----
extract step 138 283
mod rt;

fn find(limit: i64) -> i64 {
    let mut i = 0i64;
    'outer: loop {
        loop {
            let n = rt::next();
            if n == 0 {
                break 'outer;
            }
            if n > limit {
                return n;
            }
            i = i + 1;
        }
    }
    i
}

fn main() {
    println!("{}", find(10));
}
====
0
mod rt;

fn find(limit: i64) -> i64 {
    let mut i = 0i64;
    'outer: loop {
        loop {
            let n = rt::next();
            match step(n, limit, &mut i) {
                Exit_step::Next => {}
                Exit_step::Break_1 => break 'outer,
                Exit_step::Return(out_0) => return out_0,
            };
        }
    }
    i
}

enum Exit_step {
    Next,
    Break_1,
    Return(i64),
}

fn step<'r0>(n: i64, limit: i64, i: &'r0 mut i64) -> Exit_step {
    if n == 0 {
        return Exit_step::Break_1;
    }
    if n > limit {
        return Exit_step::Return(n);
    }
    *i = *i + 1;
    Exit_step::Next
}

fn main() {
    println!("{}", find(10));
}
----
extract step 198 268
mod rt;

struct State {
    n: i64,
}

fn advance(s: State, k: i64) -> State {
    State { n: s.n + k }
}

fn main() {
    let mut s = State { n: 1 };
    loop {
        let k = rt::next();
        s = advance(s, k);
        if s.n > 100 {
            break;
        }
    }
    println!("{}", s.n);
}
====
0
mod rt;

struct State {
    n: i64,
}

fn advance(s: State, k: i64) -> State {
    State { n: s.n + k }
}

fn main() {
    let mut s = State { n: 1 };
    loop {
        let k = rt::next();
        s = match step(s, k) {
            Exit_step::Next(out_0) => out_0,
            Exit_step::Break_0(out_0) => {
                s = out_0;
                break;
            }
        };
    }
    println!("{}", s.n);
}

enum Exit_step {
    Next(State),
    Break_0(State),
}

fn step(mut s: State, k: i64) -> Exit_step {
    s = advance(s, k);
    if s.n > 100 {
        return Exit_step::Break_0(s);
    };
    Exit_step::Next(s)
}
----
extract whole 37 67
fn area(w: i64, h: i64) -> i64 {
    let base = w * h;
    base + 1
}

fn main() {}
====
0
fn area(w: i64, h: i64) -> i64 {
    whole(w, h)
}

fn whole(w: i64, h: i64) -> i64 {
    let base = w * h;
    base + 1
}

fn main() {}
----
extract show 58 88
fn main() {
    let mut x = 1i64;
    let r = &mut x;
    *r = 5;
    println!("{}", x);
}
====
1
error: Refused Loan 46 52 58 88
----
extract pick 106 145
fn main() {
    let a = 3i64;
    let b = 9i64;
    let p = &a;
    let q = &b;
    let mut best = p;
    if *q > *best {
        best = q;
    }
    println!("{}", *best);
}
====
0
fn main() {
    let a = 3i64;
    let b = 9i64;
    let p = &a;
    let q = &b;
    let mut best = p;
    pick(q, &mut best);
    println!("{}", *best);
}

fn pick<'r0: 'r2, 'r1, 'r2>(q: &'r0 i64, best: &'r1 mut &'r2 i64) {
    if *q > **best {
        *best = q;
    }
}
----
extract swap 95 147
struct Keep<'k> {
    best: &'k i64,
}

fn order<'a>(x: &mut Keep<'a>, y: &mut Keep<'a>) {
    let t = x.best;
    x.best = y.best;
    y.best = t;
}

fn main() {}
====
0
struct Keep<'k> {
    best: &'k i64,
}

fn order<'a>(x: &mut Keep<'a>, y: &mut Keep<'a>) {
    swap(x, y);
}

fn swap<'r0, 'r1: 'r3, 'r2, 'r3: 'r1>(x: &'r0 mut Keep<'r1>, y: &'r2 mut Keep<'r3>) {
    let t = x.best;
    x.best = y.best;
    y.best = t;
}

fn main() {}
----
extract twice 45 55
fn main() {
    let k = 4i64;
    let y;
    y = k * 2;
    println!("{}", y);
}
====
0
fn main() {
    let k = 4i64;
    let y;
    y = twice(k);
    println!("{}", y);
}

fn twice(k: i64) -> i64 {
    let y: i64;
    y = k * 2;
    y
}
----
extract late 111 117
fn main() {
    let c = true;
    let mut y;
    if c {
        y = 1i64;
        println!("{}", y);
    }
    y = 2;
    println!("{}", y);
}
====
1
error: Refused MixedInit 42 43
----
extract show 34 63
fn main() {
    let a = 1i64;
    println!("{}", a);
    let t;
    t = a + 1;
    println!("{}", t);
}
====
0
fn main() {
    let a = 1i64;
    show(a);
    let t: i64;
    t = a + 1i64;
    println!("{}", t);
}

fn show(a: i64) {
    println!("{}", a);
    let t: i64;
}
----
extract div 72 95
mod rt;

fn main() {
    let a = rt::next();
    println!("{}", a);
    let q = a / rt::next();
    println!("{}", q);
}
====
0
mod rt;

fn main() {
    let a = rt::next();
    println!("{}", a);
    let q = div(a);
    println!("{}", q);
}

fn div(a: i64) -> i64 {
    let q = a / rt::next();
    q
}
----
extract stop 29 64
fn down(n: i64) -> i64 {
    if n == 0 {
        return 0;
    }
    down(n - 1)
}

fn main() {
    println!("{}", down(998));
}
====
0
fn down(n: i64) -> i64 {
    match stop(n) {
        Exit_stop::Next => {}
        Exit_stop::Return(out_0) => return out_0,
    };
    down(n - 1)
}

enum Exit_stop {
    Next,
    Return(i64),
}

fn stop(n: i64) -> Exit_stop {
    if n == 0 {
        return Exit_stop::Return(0);
    }
    Exit_stop::Next
}

fn main() {
    println!("{}", down(998));
}
----
extract take 183 198
struct Tag {
    n: i64,
}

fn show(t: &Tag) {
    println!("{}", t.n);
}

fn eat(t: Tag) -> i64 {
    t.n
}

fn main() {
    let mut s = Tag { n: 4 };
    show(&s);
    s.n = 5;
    let k = eat(s);
    println!("{}", k);
}
====
1
error: Refused Aliased 134 135
----
extract put 105 114
struct W<'w> {
    r: &'w mut i64,
}

fn main() {
    let mut x = 1i64;
    let w = W { r: &mut x };
    *w.r = 2;
    println!("{}", *w.r);
}
====
1
error: Refused NotMut 80 81
----
extract spin 12 19
fn main() { loop {} }
====
1
error: Refused Endless
----
extract late 20 38
fn main() { return; println!("{}", 1); }
====
1
error: Refused Unreachable 20 38
----
extract gone 26 40
fn f() -> i64 { let x = { return 1; 5i64 }; println!("{}", x); 7 } fn main() {}
====
1
error: Refused Unreachable 36 40
----
extract both 37 68
fn main() {
    let x;
    {
        x = 1i64;
        let x = 2i64;
        println!("{}", x);
    }
    println!("{}", x);
}
====
1
error: Refused Shadowed 20 21
----
extract part 97 119
struct T {
    n: i64,
}

fn main() {
    let p = (T { n: 1 }, T { n: 2 });
    let a = p.0;
    println!("{}", p.1.n);
    println!("{}", a.n);
}
====
1
error: Refused PartlyMoved 46 47
----
extract sum 1306 1692
fn main() {
    let v0 = 1i64;
    let v1 = 1i64;
    let v2 = 1i64;
    let v3 = 1i64;
    let v4 = 1i64;
    let v5 = 1i64;
    let v6 = 1i64;
    let v7 = 1i64;
    let v8 = 1i64;
    let v9 = 1i64;
    let v10 = 1i64;
    let v11 = 1i64;
    let v12 = 1i64;
    let v13 = 1i64;
    let v14 = 1i64;
    let v15 = 1i64;
    let v16 = 1i64;
    let v17 = 1i64;
    let v18 = 1i64;
    let v19 = 1i64;
    let v20 = 1i64;
    let v21 = 1i64;
    let v22 = 1i64;
    let v23 = 1i64;
    let v24 = 1i64;
    let v25 = 1i64;
    let v26 = 1i64;
    let v27 = 1i64;
    let v28 = 1i64;
    let v29 = 1i64;
    let v30 = 1i64;
    let v31 = 1i64;
    let v32 = 1i64;
    let v33 = 1i64;
    let v34 = 1i64;
    let v35 = 1i64;
    let v36 = 1i64;
    let v37 = 1i64;
    let v38 = 1i64;
    let v39 = 1i64;
    let v40 = 1i64;
    let v41 = 1i64;
    let v42 = 1i64;
    let v43 = 1i64;
    let v44 = 1i64;
    let v45 = 1i64;
    let v46 = 1i64;
    let v47 = 1i64;
    let v48 = 1i64;
    let v49 = 1i64;
    let v50 = 1i64;
    let v51 = 1i64;
    let v52 = 1i64;
    let v53 = 1i64;
    let v54 = 1i64;
    let v55 = 1i64;
    let v56 = 1i64;
    let v57 = 1i64;
    let v58 = 1i64;
    let v59 = 1i64;
    let v60 = 1i64;
    let v61 = 1i64;
    let v62 = 1i64;
    let v63 = 1i64;
    let v64 = 1i64;
    let t = v0 + v1 + v2 + v3 + v4 + v5 + v6 + v7 + v8 + v9 + v10 + v11 + v12 + v13 + v14 + v15 + v16 + v17 + v18 + v19 + v20 + v21 + v22 + v23 + v24 + v25 + v26 + v27 + v28 + v29 + v30 + v31 + v32 + v33 + v34 + v35 + v36 + v37 + v38 + v39 + v40 + v41 + v42 + v43 + v44 + v45 + v46 + v47 + v48 + v49 + v50 + v51 + v52 + v53 + v54 + v55 + v56 + v57 + v58 + v59 + v60 + v61 + v62 + v63 + v64;
}
====
1
error: Refused Limit Parameters 65
----
extract early 68 99
struct T { n: i64 } fn eat(t: T) {} fn main() { let s = T { n: 1 }; if s.n == 2 { eat(s); return; } println!("{}", s.n); }
====
1
error: Refused NotMut 52 53
----
extract both 164 194
struct State {
    n: i64,
}

fn advance(s: State, k: i64) -> State {
    State { n: s.n + k }
}

fn main() {
    let mut s = State { n: 1 };
    let v = {
        s = advance(s, 2);
        s.n
    };
    println!("{}", s.n + v);
}
====
0
struct State {
    n: i64,
}

fn advance(s: State, k: i64) -> State {
    State { n: s.n + k }
}

fn main() {
    let mut s = State { n: 1 };
    let v = {
        let (out_0, out_1) = both(s);
        s = out_1;
        out_0
    };
    println!("{}", s.n + v);
}

fn both(mut s: State) -> (i64, State) {
    s = advance(s, 2);
    let out_0: i64 = s.n;
    (out_0, s)
}
----
extract times 52 52
fn main() {
    let a = 2i64;
    let b = 3i64;
    let c = a * b;
    println!("{}", c);
}
====
1
error: Refused NotARun
----
extract times 52 65
fn main() {
    let a = 2i64;
    let b = 3i64;
    let c = a * b;
    println!("{}", c);
}
====
1
error: Refused NotARun
----
extract times 66 52
fn main() {
    let a = 2i64;
    let b = 3i64;
    let c = a * b;
    println!("{}", c);
}
====
1
error: Refused NotARun
----
extract times 52 93
fn main() {
    let a = 2i64;
    let b = 3i64;
    let c = a * b;
    println!("{}", c);
}
====
1
error: Refused NotARun
----
extract a 52 66
fn main() {
    let a = 2i64;
    let b = 3i64;
    let c = a * b;
    println!("{}", c);
}
====
1
error: Refused NameTaken
----
extract fn 52 66
fn main() {
    let a = 2i64;
    let b = 3i64;
    let c = a * b;
    println!("{}", c);
}
====
1
error: Refused BadName
----
extract 9x 52 66
fn main() {
    let a = 2i64;
    let b = 3i64;
    let c = a * b;
    println!("{}", c);
}
====
1
error: Refused BadName"#;

#[test]
fn worked_examples_are_made(rt: HostRuntime) {
    all_made(&rt, rt.alloc(), WORKED);
}
