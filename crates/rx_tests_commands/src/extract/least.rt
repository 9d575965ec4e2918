//! The bounds of a new function beside a slow search: of all lists of bounds, the least with which the text is accepted.

use crate::run::said::{Reply, hold, replied};
use rx_tests_tables::{LINES, Outcome, first_wrong};
use std::alloc::{AllocError, Global};

/// The power of two for each pair of four lifetimes, by the longer one and then by the shorter one.
const POWERS: [[u32; 4]; 4] = [
    [1, 2, 4, 8],
    [16, 32, 64, 128],
    [256, 512, 1024, 2048],
    [4096, 8192, 16384, 32768],
];

/// Pairs of at most four lifetimes, a power of two each.
#[derive(Clone, Copy)]
struct Pairs(u32);

fn power(long: usize, short: usize) -> u32 {
    match POWERS.get(long) {
        Some(row) => row.get(short).copied().unwrap_or(1),
        None => 1,
    }
}

impl Pairs {
    fn has(self, long: usize, short: usize) -> bool {
        self.0 & power(long, short) != 0
    }

    /// Whether what is shorter than a shorter one is shorter than this one.
    fn goes_on(self, long: usize, middle: usize) -> bool {
        for short in 0..4usize {
            if self.has(middle, short) && short != long && !self.has(long, short) {
                return false;
            }
        }
        true
    }

    fn is_closed_at(self, long: usize) -> bool {
        for middle in 0..4usize {
            if self.has(long, middle) && !self.goes_on(long, middle) {
                return false;
            }
        }
        !self.has(long, long)
    }

    fn is_closed(self) -> bool {
        self.is_closed_at(0) && self.is_closed_at(1) && self.is_closed_at(2) && self.is_closed_at(3)
    }

    /// Whether these are of so many lifetimes.
    fn are_of(self, many: usize) -> bool {
        for at in many..4usize {
            let alone = Pairs(power(at, 0) | power(at, 1) | power(at, 2) | power(at, 3));
            let behind = Pairs(power(0, at) | power(1, at) | power(2, at) | power(3, at));
            if self.0 & (alone.0 | behind.0) != 0 {
                return false;
            }
        }
        true
    }
}

impl Pairs {
    /// These, and what is shorter than a shorter one.
    fn through(self, long: usize, middle: usize) -> Pairs {
        let mut all = self.0;
        for short in 0..4usize {
            if self.has(middle, short) && short != long {
                all = all | power(long, short);
            }
        }
        Pairs(all)
    }

    fn grown_at(self, long: usize) -> Pairs {
        let mut all = self;
        for middle in 0..4usize {
            if all.has(long, middle) {
                all = all.through(long, middle);
            }
        }
        all
    }

    fn grown(self) -> Pairs {
        self.grown_at(0).grown_at(1).grown_at(2).grown_at(3)
    }

    /// These with what follows from them.
    fn closed(self) -> Pairs {
        self.grown().grown().grown()
    }
}

/// Writes the bounds of one lifetime.
fn push_bounds(
    alloc: Global,
    list: &mut String,
    pairs: Pairs,
    long: usize,
) -> Result<(), AllocError> {
    let mut mark = ": ";
    for short in 0..4usize {
        if pairs.has(long, short) {
            let bound = format!(in alloc; "{mark}'r{short}")?;
            list.push_str(bound.as_str())?;
            mark = " + ";
        }
    }
    Ok(())
}

/// So many lifetimes with these bounds.
fn list_of(alloc: Global, many: usize, pairs: Pairs) -> Result<String, AllocError> {
    let mut list = String::new(alloc);
    for long in 0..many {
        let name = format!(in alloc; "{}'r{long}", if long == 0 { "" } else { ", " })?;
        list.push_str(name.as_str())?;
        push_bounds(alloc, &mut list, pairs, long)?;
    }
    Ok(list)
}

/// What is in front of the list of lifetimes in an answer, the list, and what is behind.
#[derive(Clone, Copy)]
struct Parted<'a> {
    front: &'a str,
    list: &'a str,
    behind: &'a str,
}

fn in_parts(answer: &str) -> Parted<'_> {
    let (front, rest) = answer.split_once("fn g<").unwrap_or((answer, ""));
    let (list, behind) = rest.split_once(">(").unwrap_or((rest, ""));
    Parted {
        front,
        list,
        behind,
    }
}

/// Whether the answer is accepted with these bounds in place of its own.
fn is_accepted(alloc: Global, parts: &Parted<'_>, many: usize, pairs: Pairs) -> Outcome {
    let list = list_of(alloc, many, pairs)?;
    let text = format!(in alloc; "{}fn g<{}>({}", parts.front, list.as_str(), parts.behind)?;
    Ok(replied(alloc, "check", text.as_str(), 100, 100)?.ends(0))
}

/// What each list has with which the answer is accepted, but the known pairs. A list counts where it is closed with these.
fn least(
    alloc: Global,
    parts: &Parted<'_>,
    many: usize,
    known: Pairs,
) -> Result<Pairs, AllocError> {
    let mut common = 65535u32;
    for number in 0..65536u32 {
        let pairs = Pairs(number);
        if number & known.0 == 0 && pairs.are_of(many) && Pairs(number | known.0).is_closed() {
            if is_accepted(alloc, parts, many, pairs)? {
                common = common & number;
            }
        }
    }
    Ok(Pairs(common))
}

/// Pairs by the numbers of their lifetimes, as `10` for the second that outlives the first.
fn pairs_of(words: &str) -> Pairs {
    let mut pairs = 0u32;
    let mut long = None;
    for byte in words.as_bytes() {
        let number = (*byte as usize).wrapping_sub(48);
        if number < 4 {
            match long {
                Some(first) => {
                    pairs = pairs | power(first, number);
                    long = None;
                }
                None => long = Some(number),
            }
        }
    }
    Pairs(pairs)
}

/// What is made of a text whose run stands between two marks.
fn extracted(alloc: Global, text: &str) -> Result<Reply, AllocError> {
    let (front, rest) = text.split_once("‸").unwrap_or((text, ""));
    let (run, behind) = rest.split_once("‸").unwrap_or((rest, ""));
    let plain = format!(in alloc; "{front}{run}{behind}")?;
    let words = format!(in alloc;
        "extract g {} {}",
        front.len(),
        front.len().wrapping_add(run.len())
    )?;
    replied(alloc, words.as_str(), plain.as_str(), 4000, 100)
}

fn count_of(list: &str) -> usize {
    let mut many = 0usize;
    for _ in list.split(", ") {
        many = many.wrapping_add(1);
    }
    many
}

/// Of the known pairs, those that are its bounds, and a text: whether these are its new function's, and the search finds them, with
/// what follows from them and the known ones.
fn is_least(alloc: Global, given: &str, want: &str) -> Outcome {
    let (pairs, text) = given.split_once(": ").unwrap_or(("", given));
    let (known, bounds) = pairs.split_once("/").unwrap_or((pairs, ""));
    let (known, bounds) = (pairs_of(known), pairs_of(bounds));
    let reply = extracted(alloc, text)?;
    let answer = str::from_utf8(reply.printed()).unwrap_or("");
    let parts = in_parts(answer);
    let many = count_of(parts.list);
    let found = least(alloc, &parts, many, known)?;
    let told = list_of(alloc, many, bounds)?;
    Ok(
        parts.list == want
            && told.as_str() == want
            && found.0 | known.0 == Pairs(bounds.0 | known.0).closed().0
            && is_accepted(alloc, &parts, many, bounds)?,
    )
}

/// The known pairs, a slash and the bounds, a text whose run stands between marks, and the list of lifetimes of its new function.
const ROWS: &str =
    r#"- / -: fn main() { let s = (1i64, true); ‸let r = &s; println!("{}", r.0);‸ println!("{}", s.1); } | 'r0
- / 02 12: fn f<'a>(x: &'a i64, y: &'a i64) -> &'a i64 { ‸let z = if *x > *y { x } else { y };‸ z } fn main() { let a = 1i64; let o = f(&a, &a); println!("{}", *o); } | 'r0: 'r2, 'r1: 'r2, 'r2
- / 12: fn f<'a>(x: &'a i64, y: &'a i64) -> &'a i64 { ‸println!("{}", *y); x‸ } fn main() { let a = 1i64; let o = f(&a, &a); println!("{}", *o); } | 'r0, 'r1: 'r2, 'r2
10 / 21: fn f<'a>(x: &mut &'a i64, y: &'a i64) { ‸*x = y;‸ println!("{}", **x); } fn main() { let a = 1i64; let mut r = &a; f(&mut r, &a); } | 'r0, 'r1, 'r2: 'r1
10 32 / 13 31: fn f<'a>(x: &mut &'a i64, y: &mut &'a i64) { ‸let t = *x; *x = *y; *y = t;‸ println!("{}", **x); } fn main() { let a = 1i64; let mut r = &a; let mut q = &a; f(&mut r, &mut q); } | 'r0, 'r1: 'r3, 'r2, 'r3: 'r1
10 / 21: struct S<'a> { p: &'a i64 } fn main() { let a = 1i64; let b = 2i64; let mut s = S { p: &a }; let q = &b; ‸s = S { p: q };‸ println!("{}", *s.p); } | 'r0, 'r1, 'r2: 'r1
10 / -: struct S<'a> { p: &'a i64 } fn f(s: &mut S, q: i64) -> i64 { ‸let k = *s.p + q;‸ k } fn main() { let a = 1i64; let mut s = S { p: &a }; println!("{}", f(&mut s, 2)); } | 'r0, 'r1
10 / 12: struct S<'a> { p: &'a i64 } fn f<'a>(s: &mut S<'a>) -> &'a i64 { ‸let k = s.p;‸ k } fn main() { let a = 1i64; let mut s = S { p: &a }; let o = f(&mut s); println!("{}", *o); } | 'r0, 'r1: 'r2, 'r2
- / 01: fn f<'a>(x: &'a mut i64) -> &'a mut i64 { ‸*x = 2; x‸ } fn main() { let mut a = 1i64; let o = f(&mut a); println!("{}", *o); } | 'r0: 'r1, 'r1
10 20 / 23: struct T<'a, 'b> { p: &'a i64, q: &'b i64 } fn f<'a, 'b>(t: T<'a, 'b>) -> &'b i64 { ‸let k = t.p; let u = t.q; println!("{}", *k);‸ u } fn main() { let a = 1i64; let o = f(T { p: &a, q: &a }); println!("{}", *o); } | 'r0, 'r1, 'r2: 'r3, 'r3
- / 02 13: struct T<'a, 'b> { p: &'a i64, q: &'b i64 } fn main() { let a = 1i64; let b = 2i64; let t; let x = &a; let y = &b; ‸t = T { p: x, q: y };‸ println!("{}", *t.p + *t.q); } | 'r0: 'r2, 'r1: 'r3, 'r2, 'r3
- / 02 03 13: fn main() { let a = 1i64; let b = 2i64; let x = &a; let y = &b; let z; let w; ‸z = x; w = if *y > 1 { z } else { y };‸ println!("{}", *z + *w); } | 'r0: 'r2 + 'r3, 'r1: 'r3, 'r2, 'r3
10 / -: fn f<'a>(x: &'a mut &'a mut i64) { ‸**x = 2;‸ **x = 3; } fn main() { let mut a = 1i64; let mut r = &mut a; f(&mut r); } | 'r0, 'r1
10 / 12: fn f<'a>(x: &'a &'a i64) -> &'a i64 { ‸let y = *x;‸ y } fn main() { let a = 1i64; let r = &a; let o = f(&r); println!("{}", *o); } | 'r0, 'r1: 'r2, 'r2
10 32 / 02 12 13: fn f<'a>(x: &'a &'a i64) -> &'a &'a i64 { ‸let y = x;‸ y } fn main() { let a = 1i64; let r = &a; let o = f(&r); println!("{}", **o); } | 'r0: 'r2, 'r1: 'r2 + 'r3, 'r2, 'r3"#;

#[test]
fn bounds_are_the_least(rt: HostRuntime) {
    match first_wrong(rt.alloc(), ROWS, LINES, is_least) {
        Some(row) => hold(&rt, Ok(false), row),
        None => {}
    }
}
