//! Reads and writes that fail, each call in turn, and texts at the borders of what is read: a table of cases.

use crate::run::said::hold;
use rx_core::{BytesSource, List, Text, VecSink};
use rx_modes_policy::{ByCopy, ByReference};
use rx_rem_command::rem;
use rx_tests_tables::{Outcome, push_times};
use std::alloc::{AllocError, Global};
use std::process::Abort;

/// 92 bytes, the third statement from 52 to 66.
const TIMES: &str =
    "fn main() {\n    let a = 2i64;\n    let b = 3i64;\n    let c = a * b;\n    println!(\"{}\", c);\n}\n";

/// 160 bytes.
const ANSWER: &str =
    "fn main() {\n    let a = 2i64;\n    let b = 3i64;\n    let c = times(a, b);\n    println!(\"{}\", c);\n}\n\nfn times(a: i64, b: i64) -> i64 {\n    let c = a * b;\n    c\n}\n";

const EXTRACT: &str = "extract times 52 66";

/// A call of the tool: which calls of each stream fail, by their numbers from 0, and how many bytes one gives or takes; and what is
/// expected of it.
#[derive(Clone, Copy)]
pub struct Case<'a> {
    pub line: &'a str,
    pub text: &'a [u8],
    pub source_piece: usize,
    pub read: Option<u64>,
    pub out_piece: usize,
    pub out_room: usize,
    pub write: Option<u64>,
    pub line_write: Option<u64>,
    pub status: u8,
    pub out: &'a [u8],
    pub err: &'a str,
}

/// No call fails, and all is written.
pub fn sound<'a>(line: &'a str, text: &'a [u8], out: &'a [u8]) -> Case<'a> {
    Case {
        line,
        text,
        source_piece: 4096,
        read: None,
        out_piece: 4096,
        out_room: 4000,
        write: None,
        line_write: None,
        status: 0,
        out,
        err: "",
    }
}

/// A call that ends with this status and line.
pub fn refused<'a>(line: &'a str, text: &'a [u8], status: u8, err: &'a str) -> Case<'a> {
    let mut case = sound(line, text, b"");
    case.status = status;
    case.err = err;
    case
}

fn words(alloc: Global, line: &str) -> Result<List<Text>, AllocError> {
    let mut words = List::new(alloc);
    for word in line.split_ascii_whitespace() {
        words.push(Text::new(alloc, word)?)?;
    }
    Ok(words)
}

fn numbers(alloc: Global, call: Option<u64>) -> Result<List<u64>, AllocError> {
    match call {
        Some(number) => List::from_slice(alloc, &[number]),
        None => Ok(List::new(alloc)),
    }
}

/// Whether a case comes out as is expected.
fn comes_out(alloc: Global, case: &Case<'_>) -> Outcome {
    if case.source_piece == 0 || case.out_piece == 0 {
        return Ok(false);
    }
    let words = words(alloc, case.line)?;
    let text = List::from_slice(alloc, case.text)?;
    let mut source = BytesSource::new(text, case.source_piece, numbers(alloc, case.read)?);
    let mut out = VecSink::new(
        alloc,
        case.out_room,
        case.out_piece,
        numbers(alloc, case.write)?,
    )?;
    let mut err = VecSink::new(alloc, 200, 200, numbers(alloc, case.line_write)?)?;
    let status = rem(
        alloc,
        &words,
        &mut source,
        &mut out,
        &mut err,
        &ByCopy,
        &ByReference,
    );
    Ok(status.code() == case.status && out.held() == case.out && err.held() == case.err.as_bytes())
}

/// Ends the test unless a case comes out as is expected.
pub fn expect(rt: &impl Abort, alloc: Global, case: &Case<'_>) {
    hold(rt, comes_out(alloc, case), case.line);
}

#[test]
fn each_read_that_fails_is_told(rt: HostRuntime) {
    for call in 0..93u64 {
        let mut case = refused(EXTRACT, TIMES.as_bytes(), 4, "error: ReadFault\n");
        case.source_piece = 1;
        case.read = Some(call);
        expect(&rt, rt.alloc(), &case);
    }
}

#[test]
fn a_read_behind_the_end_is_never_made(rt: HostRuntime) {
    let mut case = sound(EXTRACT, TIMES.as_bytes(), ANSWER.as_bytes());
    case.source_piece = 1;
    case.read = Some(93);
    expect(&rt, rt.alloc(), &case);
}

#[test]
fn each_write_that_fails_cuts_the_answer(rt: HostRuntime) {
    for call in 0..16usize {
        let mut case = refused(EXTRACT, TIMES.as_bytes(), 5, "error: WriteFault\n");
        case.out_piece = 10;
        case.write = Some(call as u64);
        case.out = ANSWER.as_bytes().get(..10 * call).unwrap_or(b"");
        expect(&rt, rt.alloc(), &case);
    }
}

#[test]
fn a_write_behind_the_answer_is_never_made(rt: HostRuntime) {
    hold(&rt, Ok(ANSWER.len() == 160), "160");
    let mut case = sound(EXTRACT, TIMES.as_bytes(), ANSWER.as_bytes());
    case.out_piece = 10;
    case.write = Some(16);
    expect(&rt, rt.alloc(), &case);
}

#[test]
fn an_answer_without_room_is_cut(rt: HostRuntime) {
    let mut case = refused(EXTRACT, TIMES.as_bytes(), 5, "error: WriteFault\n");
    case.out_room = 5;
    case.out = b"fn ma";
    expect(&rt, rt.alloc(), &case);
}

#[test]
fn a_line_that_is_not_written_is_a_write_fault(rt: HostRuntime) {
    let mut case = refused("extract times 52 52", TIMES.as_bytes(), 5, "");
    case.line_write = Some(0);
    expect(&rt, rt.alloc(), &case);
}

/// Whether `check` of a text ends with this status and line, and writes `accepted` where the status is 0, else nothing.
fn checks(alloc: Global, text: &[u8], status: u8, line: Option<&str>) -> Outcome {
    let words = words(alloc, "check")?;
    let text = List::from_slice(alloc, text)?;
    let mut source = BytesSource::new(text, 4096, List::new(alloc));
    let mut out = VecSink::new(alloc, 100, 100, List::new(alloc))?;
    let mut err = VecSink::new(alloc, 100, 100, List::new(alloc))?;
    let given = rem(
        alloc,
        &words,
        &mut source,
        &mut out,
        &mut err,
        &ByCopy,
        &ByReference,
    );
    let is_out = if status == 0 {
        out.held() == b"accepted\n".as_slice()
    } else {
        out.held().is_empty()
    };
    let is_line = match line {
        Some(line) => err.held() == line.as_bytes(),
        None => true,
    };
    Ok(given.code() == status && is_out && is_line)
}

/// Whether `check` of so many first bytes of a text ends with this status.
fn front_ends(alloc: Global, count: usize, status: u8) -> Outcome {
    checks(
        alloc,
        TIMES.as_bytes().get(..count).unwrap_or(b""),
        status,
        None,
    )
}

#[test]
fn a_front_of_a_text_is_accepted_where_only_blanks_are_missing(rt: HostRuntime) {
    for count in 0..91usize {
        hold(&rt, front_ends(rt.alloc(), count, 3), "a front");
    }
    hold(&rt, front_ends(rt.alloc(), 91, 0), "91");
    hold(&rt, front_ends(rt.alloc(), 92, 0), "92");
}

/// A front and a part so many times behind it.
fn repeated(alloc: Global, front: &str, part: &str, count: usize) -> Result<String, AllocError> {
    let mut text = String::from_str(alloc, front)?;
    push_times(&mut text, part, count)?;
    Ok(text)
}

/// Whether `check` comes out so of a front and a part so many times.
fn long_comes_out(
    alloc: Global,
    front: &str,
    part: &str,
    count: usize,
    status: u8,
    line: &str,
) -> Outcome {
    let text = repeated(alloc, front, part, count)?;
    checks(alloc, text.as_bytes(), status, Some(line))
}

#[test]
fn long_texts_are_read_up_to_the_limit(rt: HostRuntime) {
    let alloc = rt.alloc();
    let most = long_comes_out(alloc, TIMES, " ", 1_048_484, 0, "");
    hold(&rt, most, "1,048,576 bytes");
    let above = long_comes_out(alloc, TIMES, " ", 1_048_485, 7, "error: TooLong\n");
    hold(&rt, above, "1,048,577 bytes");
}

#[test]
fn long_texts_that_are_none_are_told_where(rt: HostRuntime) {
    let alloc = rt.alloc();
    let deep = "error: NotAccepted TooDeep 147\n";
    let nested = long_comes_out(alloc, "fn main() { let a = ", "(", 1_000_000, 3, deep);
    hold(&rt, nested, "1,000,000 parentheses");
    let open = "error: NotAccepted BadToken 0\n";
    hold(
        &rt,
        long_comes_out(alloc, "", "/*", 500_000, 3, open),
        "500,000 comments",
    );
}
