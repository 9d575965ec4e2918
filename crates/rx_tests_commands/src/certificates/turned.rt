//! Certificates with one bit turned, and bytes that are no certificate.

use crate::run::said::{hold, replied, replied_to};
use rx_core::List;
use rx_tests_tables::Outcome;
use std::alloc::{AllocError, Global};

/// A certificate's lines, and its text.
const LINES: &str = "function 0 11 3\nr 6-6\nr 4-6\nr 4-6\nl 3 4-6\ntext\n";

const TEXT: &str = "fn main() { let x = 1; let r = &x; println!(\"{}\", *r); }";

/// The bytes with one bit of one of them turned.
fn turned(alloc: Global, bytes: &[u8], place: usize, bit: u8) -> Result<List<u8>, AllocError> {
    let mut all = List::new(alloc);
    for at in 0..bytes.len() {
        all.push(if at == place {
            bytes[at] ^ bit
        } else {
            bytes[at]
        })?;
    }
    Ok(all)
}

/// Whether the certificate of these lines and this text is verified. Where it is, the text has to be accepted: else there is no answer.
fn is_verified(alloc: Global, lines: &[u8], text: &[u8]) -> Result<Option<bool>, AllocError> {
    let mut bytes = List::from_slice(alloc, lines)?;
    for byte in text {
        bytes.push(*byte)?;
    }
    let verified = replied_to(alloc, "verify", bytes.as_slice(), 100, 200)?;
    if verified.ends(3) {
        return Ok(Some(false));
    }
    let checked = replied_to(alloc, "check", text, 100, 200)?;
    if verified.is(0, "accepted\n", "") && checked.is(0, "accepted\n", "") {
        Ok(Some(true))
    } else {
        Ok(None)
    }
}

/// How many certificates with one bit of the lines turned are verified, and of the text.
fn verified_with_lines(
    alloc: Global,
    lines: &[u8],
    text: &[u8],
) -> Result<Option<u32>, AllocError> {
    let mut count = 0u32;
    for place in 0..lines.len() {
        for bit in [1u8, 2, 4, 8, 16, 32, 64, 128] {
            let lines = turned(alloc, lines, place, bit)?;
            match is_verified(alloc, lines.as_slice(), text)? {
                Some(true) => count = count.wrapping_add(1),
                Some(false) => {}
                None => return Ok(None),
            }
        }
    }
    Ok(Some(count))
}

fn verified_with_texts(
    alloc: Global,
    lines: &[u8],
    text: &[u8],
) -> Result<Option<u32>, AllocError> {
    let mut count = 0u32;
    for place in 0..text.len() {
        for bit in [1u8, 2, 4, 8, 16, 32, 64, 128] {
            let text = turned(alloc, text, place, bit)?;
            match is_verified(alloc, lines, text.as_slice())? {
                Some(true) => count = count.wrapping_add(1),
                Some(false) => {}
                None => return Ok(None),
            }
        }
    }
    Ok(Some(count))
}

/// Of 376 with a bit of the lines turned three are, with a larger set each; of 448 with one of the text five are, each with another number
/// in it.
#[test]
fn what_is_verified_is_accepted(rt: HostRuntime) {
    let lines = verified_with_lines(rt.alloc(), LINES.as_bytes(), TEXT.as_bytes());
    assert!(rt; lines == Ok(Some(3)), "a bit of the lines");
    let texts = verified_with_texts(rt.alloc(), LINES.as_bytes(), TEXT.as_bytes());
    assert!(rt; texts == Ok(Some(5)), "a bit of the text");
}

/// Whether bytes are verified, where `accepted` is wanted, or else have the fault.
fn is_answered(alloc: Global, bytes: &str, want: &str) -> Outcome {
    let reply = replied(alloc, "verify", bytes, 100, 200)?;
    if want == "accepted" {
        return Ok(reply.is(0, "accepted\n", ""));
    }
    let line = format!(in alloc; "error: NotAccepted {want}\n")?;
    Ok(reply.is(3, "", line.as_str()))
}

#[test]
fn bytes_that_are_no_certificate_have_a_line(rt: HostRuntime) {
    for (bytes, want) in [
        ("", "Form 1"),
        ("\n", "Form 1"),
        ("text", "Form 1"),
        ("text\n", "Mismatch 0 0 Main"),
        ("function 0 1 0", "Form 1"),
        ("function 0 1 0\n", "Form 2"),
        ("function 0 1 0\ntext", "Form 2"),
        ("function 0 1 0\ntext\nfn main() {}", "accepted"),
        ("function 0 1 0\n\ntext\nfn main() {}", "Form 2"),
        ("function 0 1 0\r\ntext\nfn main() {}", "Form 1"),
        ("function 0 1 0\ntext\r\nfn main() {}", "Form 2"),
        ("function\t0 1 0\ntext\nfn main() {}", "Form 1"),
        ("\u{feff}function 0 1 0\ntext\nfn main() {}", "Form 1"),
        ("function 0 1 0\ntext\ntext\nfn main() {}", "Syntax 0"),
        ("function 0 1 0\ntext\nfn main() {}\ntext\n", "Syntax 13"),
    ] {
        hold(&rt, is_answered(rt.alloc(), bytes, want), bytes);
    }
}

/// A line of no form comes before a fault of the text, and one that isn't the text's behind it.
#[test]
fn faults_of_the_text_stand_between_those_of_lines(rt: HostRuntime) {
    for (bytes, want) in [
        (
            "function 7 7 07\ntext\nfn main() { let x: bool = 1; }",
            "Form 1",
        ),
        (
            "function 7 7 7\ntext\nfn main() { let x: bool = 1; }",
            "Mismatch 26 27 Equal",
        ),
        (
            "function 7 7 7\ntext\nfn main() { let x: i64; println!(\"{}\", x); }",
            "Unset 39 40",
        ),
        (
            "function 0 11 3\nr\nr\nr\nl 3\ntext\nfn main() { let x = 1; let r = &x; println!(\"{}\", *r); }",
            "Rule 0 1",
        ),
    ] {
        hold(&rt, is_answered(rt.alloc(), bytes, want), bytes);
    }
}

/// The answer of `verify` to bytes with the highest bit of one turned, which are no text.
fn is_said_of(alloc: Global, bytes: &str, place: usize, line: &str) -> Outcome {
    let bytes = turned(alloc, bytes.as_bytes(), place, 128)?;
    let reply = replied_to(alloc, "verify", bytes.as_slice(), 100, 200)?;
    Ok(reply.is(3, "", line))
}

#[test]
fn bytes_that_are_no_text_have_a_place(rt: HostRuntime) {
    let certificate = "function 0 1 0\ntext\nfn main() {} ";
    let line = is_said_of(rt.alloc(), certificate, 8, "error: NotAccepted Form 1\n");
    hold(&rt, line, "of a line");
    let text = is_said_of(
        rt.alloc(),
        certificate,
        32,
        "error: NotAccepted NotText 12\n",
    );
    hold(&rt, text, "of the text");
}
