//! Tokens and numbers of texts.

use crate::holding::{all_hold, hold};
use rx_core::Kind;
use rx_lex::{Class, Token, lex, numeral_of};
use rx_tests_tables::{LINES, Nesting, Outcome};
use std::alloc::{AllocError, Global};
use std::fmt::Write;

fn letter(class: Class) -> char {
    match class {
        Class::Identifier => 'I',
        Class::Keyword => 'K',
        Class::Lifetime => 'L',
        Class::Number => 'N',
        Class::Format => 'F',
        Class::Mark => 'M',
    }
}

fn push_tokens(shown: &mut String, tokens: &[Token]) -> Result<(), AllocError> {
    for token in tokens {
        let (class, start, end) = (letter(token.class), token.span.start, token.span.end);
        write!(shown, " {class}{start}-{end}")?;
    }
    Ok(())
}

/// The tokens' classes and spans, or the fault, each behind a blank.
fn push_shown(shown: &mut String, alloc: Global, bytes: &[u8]) -> Result<(), AllocError> {
    match lex(alloc, bytes) {
        Ok(tokens) => push_tokens(shown, tokens.list.as_slice()),
        Err(fault) => write!(shown, " {fault}"),
    }
}

/// Whether the tokens of a text have these classes and spans, as in `I0-1 M1-2`, or there is `nothing` or this fault.
fn is_read(alloc: Global, bytes: &[u8], want: &str) -> Outcome {
    let mut shown = String::new(alloc);
    push_shown(&mut shown, alloc, bytes)?;
    Ok(shown.as_str().strip_prefix(" ").unwrap_or("nothing") == want)
}

fn reads(alloc: Global, text: &str, want: &str) -> Outcome {
    is_read(alloc, text.as_bytes(), want)
}

const TEXTS: &str =
    r#"fn f(x: i64) -> i64 { x } | K0-2 I3-4 M4-5 I5-6 M6-7 K8-11 M11-12 M13-15 K16-19 M20-21 I22-23 M24-25
println!("{}", x); | I0-7 M7-8 M8-9 F9-13 M13-14 I15-16 M16-17 M17-18
 | nothing
r#x | I0-1 M1-2 I2-3
1_000u32 | N0-8
0x | no token begins at byte 0
0b12 | no token begins at byte 0
1i8 | no token begins at byte 0
18446744073709551615 | N0-20
18446744073709551616 | no token begins at byte 0
_ | M0-1
_a | I0-2
/*/**/*/ | nothing
/* /* */ | no token begins at byte 0
/ * | M0-1 M2-3
>= | M0-2
>> | M0-1 M1-2
&&& | M0-2 M2-3
a 'a | I0-1 L2-4
fn main() { /* cut | no token begins at byte 12"#;

#[test]
fn texts(rt: HostRuntime) {
    all_hold(&rt, rt.alloc(), TEXTS, LINES, reads);
    let lines = is_read(rt.alloc(), "// é\nx".as_bytes(), "I6-7");
    hold(&rt, lines, "a comment's end");
    let no_text = is_read(
        rt.alloc(),
        b"fn main() {\xff",
        "the bytes from 11 on are not UTF-8",
    );
    hold(&rt, no_text, "no text");
}

const NAMES: &str = r#"'_ | L0-2
'a | L0-2
'a'b | L0-2 L2-4
&'a x | M0-1 L1-3 I4-5
'static | no token begins at byte 0
'fn | no token begins at byte 0
'1 | no token begins at byte 0
' | no token begins at byte 0
αβγ | I0-6
имя = 1 | I0-6 M7-8 N9-10
変数+x1 | I0-6 M6-7 I7-9
x² | no token begins at byte 1
fn_é | I0-5
fné | I0-4
_é | I0-3
1é | no token begins at byte 0
a.0.1 | I0-1 M1-2 N2-3 M3-4 N4-5
1.0 | N0-1 M1-2 N2-3
"{}"'a"{}" | F0-4 L4-6 F6-10"#;

/// Letters with a mark of their own, digits of other scripts, a byte order mark, a form feed.
const CHARACTERS: &str = "\
x é | I0-1 I2-4
'e\u{301} | no token begins at byte 0
'é | L0-3
\u{663} | no token begins at byte 0
fn main() { let e\u{301} = 1; } | no token begins at byte 16
\u{feff}fn | no token begins at byte 0
a\u{c}b | no token begins at byte 1";

#[test]
fn names(rt: HostRuntime) {
    all_hold(&rt, rt.alloc(), NAMES, LINES, reads);
    all_hold(&rt, rt.alloc(), CHARACTERS, LINES, reads);
    hold(
        &rt,
        reads(rt.alloc(), "a\r\nb", "I0-1 I3-4"),
        "a line's end",
    );
}

fn push_classes(shown: &mut String, tokens: &[Token]) -> Result<(), AllocError> {
    for token in tokens {
        shown.push(letter(token.class))?;
    }
    Ok(())
}

/// Whether the tokens of a text have these classes.
fn are_classes(alloc: Global, text: &str, want: &str) -> Outcome {
    match lex(alloc, text.as_bytes()) {
        Ok(tokens) => {
            let mut shown = String::new(alloc);
            push_classes(&mut shown, tokens.list.as_slice())?;
            Ok(shown.as_str() == want)
        }
        Err(_) => Ok(false),
    }
}

const CLASSES: &str = "\
as async await break const continue crate dyn else enum extern false | KKKKKKKKKKKK
fn for gen if impl in let loop match mod move mut pub ref return self | KKKKKKKKKKKKKKKK
Self static struct super trait true type unsafe use where while abstract | KKKKKKKKKKKK
become box do final macro override priv try typeof unsized virtual yield | KKKKKKKKKKKK
u8 u32 u64 i32 i64 bool | KKKKKK
-> => :: == != <= >= && || += -= *= /= %= | MMMMMMMMMMMMMM
( ) { } [ ] < > , ; : . = + - * / % ! & # _ | MMMMMMMMMMMMMMMMMMMMMM
rt next println derive Clone Copy str usize union u16 self_ Fn | IIIIIIIIIIII";

#[test]
fn keywords_and_marks(rt: HostRuntime) {
    all_hold(&rt, rt.alloc(), CLASSES, LINES, are_classes);
}

fn openings_give(alloc: Global, count: usize, want: &str) -> Outcome {
    let nesting = Nesting {
        front: "",
        before: "/*",
        inner: "",
        after: "",
        back: "",
    };
    let text = nesting.text(alloc, count)?;
    reads(alloc, text.as_str(), want)
}

/// Many openings of comments and no end: one bad token, at the first.
#[test]
fn openings(rt: HostRuntime) {
    hold(
        &rt,
        openings_give(rt.alloc(), 500_000, "no token begins at byte 0"),
        "openings",
    );
}

fn suffix_name(suffix: Option<Kind>) -> &'static str {
    match suffix {
        None => "-",
        Some(Kind::U8) => "u8",
        Some(Kind::U32) => "u32",
        Some(Kind::U64) => "u64",
        Some(Kind::I32) => "i32",
        Some(Kind::I64) => "i64",
    }
}

/// Whether a text is a number of this value and suffix, as in `15 i32` or `5 -`, or there is `none`.
fn is_number(_alloc: Global, text: &str, want: &str) -> Outcome {
    match (numeral_of(text), want.split_once(" ")) {
        (Some(number), Some((value, suffix))) => {
            let is_value = value.parse::<u64>() == Ok(number.value);
            Ok(is_value && suffix_name(number.suffix) == suffix)
        }
        (None, None) => Ok(want == "none"),
        _ => Ok(false),
    }
}

const NUMBERS: &str = "\
0x_fFu8 | 255 u8
0o17_i32 | 15 i32
0b1_01 | 5 -
007u64 | 7 u64
18446744073709551615 | 18446744073709551615 -
18446744073709551616 | none
_1 | none
1i128 | none";

#[test]
fn numbers(rt: HostRuntime) {
    all_hold(&rt, rt.alloc(), NUMBERS, LINES, is_number);
}
