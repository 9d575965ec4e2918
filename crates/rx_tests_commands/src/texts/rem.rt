//! The tool on worked examples, each with its status and what it writes.

use crate::holding::{all_hold, hold};
use crate::texts::rows::{AREA, UNITS};
use rx_core::{List, NeverSink, NeverSource, Source, StdSource, Text};
use rx_modes_policy::{ByCopy, ByReference};
use rx_rem_command::rem;
use rx_tests_tables::{LINES, Nesting, Outcome};
use std::alloc::{AllocError, Global};
use std::io;
use std::io::{ErrorKind, Read};

/// Words parted by blanks.
fn words(alloc: Global, line: &str) -> Result<List<Text>, AllocError> {
    let mut words = List::new(alloc);
    for word in line.split_ascii_whitespace() {
        words.push(Text::new(alloc, word)?)?;
    }
    Ok(words)
}

/// The status with which the tool ends.
fn status<S: Source>(
    alloc: Global,
    command: &str,
    source: &mut S,
    out: &mut NeverSink,
    err: &mut NeverSink,
) -> Result<u8, AllocError> {
    let words = words(alloc, command)?;
    Ok(rem(alloc, &words, source, out, err, &ByCopy, &ByReference).code())
}

/// A status, and all that is written to standard output, where that matters, and to standard error.
#[derive(Clone, Copy)]
struct Reply<'a> {
    status: u8,
    out: Option<&'a str>,
    err: &'a str,
}

/// Whether the tool gives this reply, where the outputs have room for so many bytes.
fn gives<S: Source>(
    alloc: Global,
    command: &str,
    source: &mut S,
    (out_room, err_room): (usize, usize),
    want: Reply<'_>,
) -> Outcome {
    let mut out = NeverSink::new(alloc, out_room)?;
    let mut err = NeverSink::new(alloc, err_room)?;
    let status = status(alloc, command, source, &mut out, &mut err)?;
    let is_out = match want.out {
        Some(text) => out.held() == text.as_bytes(),
        None => true,
    };
    let is_err = err.held() == want.err.as_bytes();
    Ok(status == want.status && is_out && is_err)
}

/// The same of a text.
fn gives_of(
    alloc: Global,
    command: &str,
    text: &[u8],
    rooms: (usize, usize),
    want: Reply<'_>,
) -> Outcome {
    let mut source = NeverSource::new(List::from_slice(alloc, text)?);
    gives(alloc, command, &mut source, rooms, want)
}

/// Whether the tool ends with this status and writes these lines: with status 0 to standard output, else to standard
/// error. The other one is empty.
pub fn writes(alloc: Global, command: &str, text: &[u8], status: u8, lines: &str) -> Outcome {
    let written = format!(in alloc; "{lines}\n")?;
    let want = if status == 0 {
        Reply {
            status,
            out: Some(written.as_str()),
            err: "",
        }
    } else {
        Reply {
            status,
            out: Some(""),
            err: written.as_str(),
        }
    };
    gives_of(alloc, command, text, (4000, 100), want)
}

/// The same for a status and a line in one, as in `1 error: Refused NotARun`.
pub fn replies(alloc: Global, command: &str, text: &[u8], want: &str) -> Outcome {
    match want.split_once(" ") {
        Some((status, line)) => match status.parse::<u8>() {
            Ok(status) => writes(alloc, command, text, status, line),
            Err(_) => Ok(false),
        },
        None => Ok(false),
    }
}

/// The same for a command and a text in one, as in `check: fn main() {}`. `TIMES`, `AREA` and `UNITS` are the texts of
/// these names.
pub fn replies_to(alloc: Global, given: &str, want: &str) -> Outcome {
    let (command, text) = given.split_once(": ").unwrap_or(("", ""));
    let text = match text {
        "TIMES" => TIMES,
        "AREA" => AREA,
        "UNITS" => UNITS,
        _ => text,
    };
    replies(alloc, command, text.as_bytes(), want)
}

/// Whether the tool ends with status 0 and nothing on standard error, whatever the answer.
pub fn is_done(alloc: Global, command: &str, text: &[u8]) -> Outcome {
    let want = Reply {
        status: 0,
        out: None,
        err: "",
    };
    gives_of(alloc, command, text, (4000, 100), want)
}

/// 92 bytes, the third statement from 52 to 66.
pub const TIMES: &str = r#"fn main() {
    let a = 2i64;
    let b = 3i64;
    let c = a * b;
    println!("{}", c);
}
"#;

const TIMES_ANSWER: &str = r#"fn main() {
    let a = 2i64;
    let b = 3i64;
    let c = times(a, b);
    println!("{}", c);
}

fn times(a: i64, b: i64) -> i64 {
    let c = a * b;
    c
}"#;

#[test]
fn a_run_becomes_a_function(rt: HostRuntime) {
    let text = TIMES.as_bytes();
    let bare = writes(rt.alloc(), "extract times 52 66", text, 0, TIMES_ANSWER);
    hold(&rt, bare, "52 66");
    let with_blanks = writes(rt.alloc(), "extract times 49 67", text, 0, TIMES_ANSWER);
    hold(&rt, with_blanks, "49 67");
}

/// Other ranges and names are refused.
const TIMES_REFUSED: &str = "\
extract times 52 52: TIMES | 1 error: Refused NotARun
extract times 52 65: TIMES | 1 error: Refused NotARun
extract times 66 52: TIMES | 1 error: Refused NotARun
extract times 52 65 copy: TIMES | 1 error: Refused NotARun
extract times 52 65 ref: TIMES | 1 error: Refused NotARun
extract times 52 93: TIMES | 1 error: Refused NotARun
extract a 52 66: TIMES | 1 error: Refused NameTaken
extract fn 52 66: TIMES | 1 error: Refused BadName
extract 9x 52 66: TIMES | 1 error: Refused BadName";

#[test]
fn other_ranges_and_names_are_refused(rt: HostRuntime) {
    all_hold(&rt, rt.alloc(), TIMES_REFUSED, LINES, replies_to);
}

const FAULTY: &str = "\
extract f 0 0: fn other() {} | 3 error: NotAccepted Mismatch 0 13 Main
extract f 0 0: fn main() { /* cut | 3 error: NotAccepted BadToken 12
extract f 0 0: fn main() { let x = ; } | 3 error: NotAccepted Syntax 20
extract f 0 0: fn main() { let x = y; } | 3 error: NotAccepted Unknown 20 21
extract f 0 0: fn main() { let a = 9223372036854775808i64; } | 3 error: NotAccepted Literal 20 42";

#[test]
fn faulty_texts_are_not_accepted(rt: HostRuntime) {
    all_hold(&rt, rt.alloc(), FAULTY, LINES, replies_to);
    let want = "3 error: NotAccepted NotText 11";
    hold(
        &rt,
        replies(rt.alloc(), "extract f 0 0", b"fn main() {\xff", want),
        want,
    );
}

/// A number in so many pairs of parentheses, with which the body of `main` has two levels more.
fn parentheses_give(alloc: Global, pairs: usize, want: &str) -> Outcome {
    let nesting = Nesting {
        front: "fn main() { let a = ",
        before: "(",
        inner: "1i64",
        after: ")",
        back: "; }",
    };
    let text = nesting.text(alloc, pairs)?;
    replies(alloc, "extract f 0 0", text.as_bytes(), want)
}

#[test]
fn a_text_has_128_levels(rt: HostRuntime) {
    let most = parentheses_give(rt.alloc(), 126, "1 error: Refused NotARun");
    hold(&rt, most, "126");
    let above = parentheses_give(rt.alloc(), 127, "3 error: NotAccepted TooDeep 147");
    hold(&rt, above, "127");
}

/// Other words are usage.
const USAGE: &str = "\
extract f 1: fn main() {} | 2 error: Usage
: fn main() {} | 2 error: Usage
extract f 1 2 mut: fn main() {} | 2 error: Usage
extract f 1 2 copy ref: fn main() {} | 2 error: Usage
extract f 1 2 Ref: fn main() {} | 2 error: Usage
extract f -1 2: fn main() {} | 2 error: Usage
extract f 1 12345678901234567890: fn main() {} | 2 error: Usage
checks: fn main() {} | 2 error: Usage
check now: fn main() {} | 2 error: Usage
run: fn main() {} | 2 error: Usage
run -5: fn main() {} | 2 error: Usage
gen 0: fn main() {} | 2 error: Usage
gen 1001: fn main() {} | 2 error: Usage";

#[test]
fn other_words_are_usage(rt: HostRuntime) {
    all_hold(&rt, rt.alloc(), USAGE, LINES, replies_to);
}

/// Whether the tool replies so to a text of so many blanks.
pub fn blanks_give(alloc: Global, command: &str, count: usize, want: &str) -> Outcome {
    let text = vec![in alloc; b' '; count]?;
    replies(alloc, command, text.as_slice(), want)
}

#[test]
fn a_text_of_a_byte_too_many_is_too_long(rt: HostRuntime) {
    let want = "7 error: TooLong";
    hold(
        &rt,
        blanks_give(rt.alloc(), "extract f 0 0", 1_048_577, want),
        want,
    );
    hold(
        &rt,
        blanks_give(rt.alloc(), "check", 1_048_577, want),
        "check",
    );
}

#[test]
fn a_text_of_as_many_bytes_as_are_read_is_checked(rt: HostRuntime) {
    let want = "3 error: NotAccepted Mismatch 0 0 Main";
    hold(&rt, blanks_give(rt.alloc(), "check", 1_048_576, want), want);
}

/// Whether the tool ends with a write fault, where the outputs have so much room, and writes this.
fn is_cut(
    alloc: Global,
    command: &str,
    rooms: (usize, usize),
    (out, err): (&str, &str),
) -> Outcome {
    let want = Reply {
        status: 5,
        out: Some(out),
        err,
    };
    gives_of(alloc, command, TIMES.as_bytes(), rooms, want)
}

#[test]
fn an_answer_without_room_is_a_write_fault(rt: HostRuntime) {
    let fault = "error: WriteFault\n";
    let times = is_cut(
        rt.alloc(),
        "extract times 52 66",
        (5, 100),
        ("fn ma", fault),
    );
    hold(&rt, times, "an answer");
    hold(
        &rt,
        is_cut(rt.alloc(), "check", (8, 100), ("accepted", fault)),
        "accepted",
    );
    hold(
        &rt,
        is_cut(rt.alloc(), "", (0, 8), ("", "error: U")),
        "a line",
    );
}

#[derive(Drop)]
struct Broken;

impl Read for Broken {
    fn read(&mut self, _buf: &mut [u8]) -> io::Result<usize> {
        Err(io::Error::from(ErrorKind::Other))
    }
}

#[test]
fn a_source_that_fails_is_a_read_fault(rt: HostRuntime) {
    let want = Reply {
        status: 4,
        out: Some(""),
        err: "error: ReadFault\n",
    };
    let mut source = StdSource::new(Broken);
    hold(
        &rt,
        gives(rt.alloc(), "extract f 0 0", &mut source, (100, 100), want),
        "broken",
    );
}
