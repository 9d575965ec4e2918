//! Programs beside their extractions: of each, ranges whose statements become a function, and what the program does is done again.

use crate::run::said::{Reply, hold, replied, replied_to};
use rx_tests_tables::{BLOCKS, Outcome, first_wrong};
use std::alloc::Global;

/// A run of a program; ranges, some with `ref`; and the program.
const PROGRAMS: &str = r#"run 100000
74 95
74 95 ref
133 163
153 163 ref
183 522 ref
217 257 ref
217 470
217 497 ref
243 257 ref
243 470
243 497 ref
262 470 ref
262 497
284 300
309 412
309 445 ref
370 380
370 402
421 445 ref
421 464 ref
475 522
502 522 ref
====
mod rt;

struct P {
    x: i64,
    y: i64,
}

fn len(p: &P) -> i64 {
    p.x * p.x + p.y * p.y
}

fn bump(p: &mut P, by: i64) {
    p.x = p.x + by;
    p.y += by;
}

fn main() {
    let mut p = P { x: 1, y: 2 };
    let mut total = 0i64;
    let mut i = 0;
    while i < 5 {
        bump(&mut p, i);
        if len(&p) > 40 {
            total = total + 1;
            i = i + 2;
            continue;
        }
        total = total + len(&p);
        i = i + 1;
    }
    println!("{}", total);
    println!("{}", p.x);
}
----
run 100000 1 5 2 3 4 1 7 2 1 1 0
87 106 ref
205 256 ref
205 282
269 282 ref
335 376 ref
335 1038 ref
404 411
404 493
404 991 ref
477 493
502 1020 ref
557 571
588 654
588 654 ref
716 936 ref
774 887 ref
810 826 ref
869 918
1000 1020
1000 1020 ref
1031 1038 ref
1079 1097
====
mod rt;

enum Op {
    Add(i64),
    Mul(i64, i64),
    Stop,
}

fn read() -> Op {
    let k = rt::next();
    match k {
        0 => Op::Stop,
        1 => Op::Add(rt::next()),
        _ => {
            let a = rt::next();
            let b = rt::next();
            Op::Mul(a, b)
        }
    }
}

fn work(limit: i64) -> i64 {
    let mut acc = 1i64;
    let mut n = 0i64;
    'outer: loop {
        n += 1;
        if n > limit {
            return acc;
        }
        let op = read();
        match op {
            Op::Add(x) => {
                acc = acc + x;
                if acc > 100 {
                    break 'outer;
                }
            }
            Op::Mul(a, b) => {
                let mut k = 0;
                loop {
                    if k == 2 {
                        continue 'outer;
                    }
                    acc = acc + a * b;
                    k = k + 1;
                }
            }
            Op::Stop => break,
        }
        println!("{}", acc);
    }
    acc * 2
}

fn main() {
    let r = work(6);
    println!("{}", r);
}
----
run 100000
165 217
222 229
270 292 ref
270 303 ref
297 303
297 303 ref
323 354
359 416 ref
401 416 ref
401 475
401 518
401 547
421 518 ref
454 475 ref
454 518 ref
454 547 ref
480 547
523 697 ref
552 697 ref
581 617 ref
605 668 ref
650 668
====
struct View<'a> {
    left: &'a i64,
    right: &'a i64,
}

#[derive(Clone, Copy)]
struct Pair {
    a: u32,
    b: u32,
}

fn max<'a>(v: View<'a>) -> &'a i64 {
    if *v.left > *v.right {
        return v.left;
    }
    v.right
}

fn both(p: Pair) -> (u32, u32) {
    let Pair { a, b } = p;
    (b, a)
}

fn main() {
    let x = 3i64;
    let y = 9i64;
    let v = View { left: &x, right: &y };
    let m = max(v);
    let p = Pair { a: 1, b: 2 };
    let (q, r) = both(p);
    let z = *m + 1;
    println!("{}", z);
    println!("{}", q + p.a);
    let mut w = r;
    {
        let u = &mut w;
        *u = *u + q;
        let s = *u * 2;
        println!("{}", s);
    }
    println!("{}", w);
}
----
run 100000
79 82 ref
193 237
212 220
212 289
212 309 ref
212 318
270 283 ref
294 309
294 318
338 726 ref
363 650
386 650
386 671
408 624
408 650 ref
408 671
479 516 ref
500 506 ref
525 618 ref
568 589
568 608 ref
629 671
====
struct Node {
    v: i64,
    w: (i64, bool),
}

fn take(n: Node) -> i64 {
    n.v
}

fn make(v: i64) -> Node {
    Node { v, w: (v + 1, v > 2) }
}

fn step(n: &mut Node, k: i64) -> bool {
    let old = n.v;
    n.v = k;
    n.w.0 = old;
    if n.w.1 && k > 3 {
        return false;
    }
    n.w.1 = !n.w.1;
    true
}

fn main() {
    let mut n = make(3);
    let mut late: i64;
    let mut i = 0i64;
    loop {
        let go = step(&mut n, i);
        late = n.w.0;
        if !go {
            break;
        }
        i = i + 1;
        if i == 9 {
            println!("{}", late);
            break;
        }
    }
    println!("{}", late);
    let m = make(i);
    let t = if n.v > m.v { take(n) } else { take(m) };
    println!("{}", t);
}
----
run 100000
29 173 ref
83 116
225 460 ref
251 292
251 292 ref
251 448
274 344
274 344 ref
274 433
274 448 ref
301 344
301 433 ref
382 423
413 423 ref
442 448
459 460 ref
480 552
480 573
510 552 ref
510 592 ref
540 592 ref
578 592 ref
====
fn sign(a: i64) -> i64 {
    match a {
        0 => 0,
        -1 => {
            println!("{}", 7);
            -1
        }
        _ => if a > 0 { 1 } else { -1 },
    }
}

fn find(k: i64) -> i64 {
    let mut i = 0;
    while i * i < k {
        let j = i + 1;
        let d = j * j - k;
        if d == 0 {
            return j;
        }
        if sign(d) > 0 {
            println!("{}", d);
            return -j;
        }
        i = j;
    }
    i
}

fn main() {
    println!("{}", find(16));
    println!("{}", find(17));
    let a = 5u8;
    let b = a + 250;
    let c = b - 3;
    println!("{}", c);
}
----
run 100000
203 216 ref
275 328
305 402
305 483 ref
355 374
355 396
407 474 ref
427 447
503 772
503 817
624 674 ref
624 732
624 876 ref
660 796 ref
660 876
714 841 ref
737 796
737 796 ref
737 817 ref
801 876 ref
822 841
822 841 ref
====
struct Acc {
    id: i64,
    sum: i64,
}

struct Bank {
    one: Acc,
    two: Acc,
}

fn pick(bank: &mut Bank, id: i64) -> &mut Acc {
    if id == bank.one.id {
        return &mut bank.one;
    }
    &mut bank.two
}

fn pay(bank: &mut Bank, id: i64, n: i64) -> bool {
    let acc = pick(bank, id);
    let next = acc.sum + n;
    if next < 0 {
        println!("{}", -1);
        return false;
    }
    acc.sum = next;
    let shown = acc.sum;
    println!("{}", shown);
    true
}

fn main() {
    let mut bank = Bank { one: Acc { id: 1, sum: 10 }, two: Acc { id: 2, sum: 20 } };
    let a = pay(&mut bank, 1, -5);
    let b = pay(&mut bank, 2, -50);
    let r = &bank;
    let s = r.one.sum + r.two.sum;
    println!("{}", s);
    let k = if a && b { 1 } else { 2 };
    let mut t = (k, s);
    t.0 = t.0 + t.1;
    let (x, mut y) = t;
    y -= x;
    println!("{}", y);
}
----
run 100000
226 258
307 515
382 397
470 499
601 620 ref
601 656 ref
601 705 ref
625 638 ref
625 656
625 984 ref
625 1020
643 684
643 705
643 984 ref
643 1020
661 684
710 824 ref
710 984
710 1020 ref
829 984 ref
870 907 ref
916 978
====
enum Shape {
    Dot,
    Line(i64),
    Box(i64, i64),
}

fn area(s: &Shape) -> i64 {
    match s {
        Shape::Dot => 0,
        Shape::Line(_) => 0,
        Shape::Box(w, h) => {
            let a = *w * *h;
            let b = a + 1;
            b - 1
        }
    }
}

fn grow(s: &mut Shape) {
    match s {
        Shape::Dot => {}
        Shape::Line(n) => {
            let m = *n + 1;
            *n = m;
        }
        Shape::Box(w, h) => {
            *w += 1;
            *h += 2;
        }
    }
}

fn main() {
    let mut s = Shape::Box(2, 3);
    let mut t = Shape::Line(4);
    let d = Shape::Dot;
    grow(&mut s);
    grow(&mut t);
    let mut sum = area(&s);
    sum += area(&t);
    if let Shape::Line(n) = t {
        sum = sum + n;
        let twice = n * 2;
        println!("{}", twice);
    }
    while let Shape::Box(w, h) = s {
        let k = w + h;
        sum = sum + k;
        s = if k > 9 { Shape::Dot } else { Shape::Box(w + 1, h + 1) };
    }
    println!("{}", sum + area(&d));
}
----
run 100000
55 153
97 141 ref
234 614
309 379
309 480
309 574
493 548
658 682 ref
658 694 ref
674 694
747 954
800 1030 ref
822 893
848 931 ref
848 954
898 954 ref
936 954 ref
936 970 ref
975 1030
====
fn gcd(a: u64, b: u64) -> u64 {
    let mut x = a;
    let mut y = b;
    while y != 0 {
        let r = x % y;
        x = y;
        y = r;
    }
    x
}

fn nested(n: i64) -> i64 {
    let mut out = 0i64;
    let mut i = 0i64;
    'a: while i < n {
        let mut j = 0i64;
        'b: loop {
            j += 1;
            if j > 4 {
                break 'b;
            }
            if (i + j) % 5 == 0 {
                i += 1;
                continue 'a;
            }
            if i * j > 12 {
                break 'a;
            }
            out += i * j;
        }
        i += 1;
    }
    out
}

fn swap(a: &mut i64, b: &mut i64) {
    let t = *a;
    *a = *b;
    *b = t;
}

fn main() {
    println!("{}", gcd(48, 36));
    println!("{}", nested(8));
    let mut p = 1i64;
    let mut q = 2i64;
    swap(&mut p, &mut q);
    let r = &mut p;
    *r += 10;
    let s = *r;
    q = q + s;
    println!("{}", p);
    println!("{}", q);
    let u = ();
    let v = { let w = 4u32; w + 1 };
    println!("{}", v);
    u
}
----
run 100000
144 199
315 329
404 427
467 468
467 468 ref
519 622
519 675
547 783
565 622
565 763 ref
565 806
602 622
627 675 ref
627 694
627 783
648 713
680 713
680 806
699 783
718 763 ref
768 806 ref
844 862
====
struct Big {
    a: Inner,
    b: Inner,
}

struct Inner {
    n: i64,
}

fn eat(i: Inner) -> i64 {
    i.n
}

fn early(f: bool) -> Inner {
    let big = Big { a: Inner { n: 1 }, b: Inner { n: 2 } };
    let got = eat(big.a);
    if f {
        let c = big.b;
        return c;
    }
    let k = got + big.b.n;
    Inner { n: k }
}

fn longest<'a>(x: &'a Inner, y: &'a Inner, z: &i64) -> &'a Inner {
    let c = x.n > y.n + *z;
    let r = if c { x } else { y };
    r
}

fn main() {
    let mut one = early(true);
    let two = early(false);
    let z = 0i64;
    let l = longest(&one, &two, &z);
    println!("{}", l.n);
    let old = one.n;
    one = Inner { n: old + 5 };
    let r1 = &one;
    let r2 = &two;
    let pick = if r1.n > r2.n { r1 } else { r2 };
    let m = pick.n;
    println!("{}", m);
    let e = eat(one) + eat(two);
    println!("{}", e);
}"#;

/// Whether what a range selects becomes a function of a program that is accepted, and that does what was done.
fn is_kept(alloc: Global, line: &str, range: &str, text: &str, done: &Reply) -> Outcome {
    let words = format!(in alloc; "extract moved {range}")?;
    let made = replied(alloc, words.as_str(), text, 4000, 100)?;
    let checked = replied_to(alloc, "check", made.printed(), 100, 100)?;
    let again = replied_to(alloc, line, made.printed(), 4000, 100)?;
    Ok(checked.is(0, "accepted\n", "") && again.is_as(done))
}

/// Whether all ranges of a program are so.
fn are_kept(alloc: Global, line: &str, rest: &str) -> Outcome {
    let (ranges, text) = rest.split_once("\n====\n").unwrap_or((rest, ""));
    let done = replied(alloc, line, text, 4000, 100)?;
    for range in ranges.split("\n") {
        if !is_kept(alloc, line, range, text, &done)? {
            return Ok(false);
        }
    }
    Ok(true)
}

#[test]
fn extractions_do_what_programs_do(rt: HostRuntime) {
    match first_wrong(rt.alloc(), PROGRAMS, BLOCKS, are_kept) {
        Some(row) => hold(&rt, Ok(false), row),
        None => {}
    }
}
