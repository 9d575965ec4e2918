//! Files of hostile layout beside the same files as one would write them: a comment behind each token, lines that end, begin or break
//! otherwise. Each answer is the same but for what the file has otherwise, and is accepted.

use crate::run::said::{Reply, hold, push_words, replied, replied_to};
use rx_tests_tables::{BLOCKS, Outcome, first_wrong};
use std::alloc::{AllocError, Global};
use std::process::Abort;

/// A name and a way to pass variables, how many places of comments give way to the call, and a text whose run stands between two marks.
const TEXTS: &str = r#"step ref 1
struct P { x : i64 , y : i64 }
struct Q { p : P , z : i64 }
fn f ( q : & mut Q , x : & i64 , top : i64 ) -> i64 {
    let mut n = 1i64 ;
    let y = 2i64 ;
    'all : loop {
        let mut go = true ;
        while go {
            $if n > top { return q . z ; }
            if n == 7 { break 'all; }
            if n % 2 == 0 {
                n = n + 1 ;
                continue;
            }
            q . p = P { x : * x , y } ;
            go = q . p . x < n ;
            n = n * 2 ;
            if ! go { break; }$
            println ! ( "{}" , n ) ;
        }
        n = n + 3 ;
    }
    n
}
fn main ( ) {
    let mut q = Q { p : P { x : 1 , y : 1 } , z : 0 } ;
    let x = 5 ;
    println ! ( "{}" , f ( & mut q , & x , 20 ) ) ;
}
----
both copy 0
struct State { n : i64 }
fn advance ( s : State , k : i64 ) -> State { State { n : s . n + k } }
fn main ( ) {
    let mut s = State { n : 1 } ;
    let v = {
        $s = advance ( s , 2 ) ;
        let t = ( s . n , true ) ;
        if t . 1 { t . 0 } else { 0 }$
    } ;
    println ! ( "{}" , s . n + v ) ;
}
----
part copy 0
fn nothing ( ) { }
fn f ( n : u8 , go : bool ) -> u8 {
    let mut k = 0 ;
    loop {
        $k = k + 3 ;
        if go {
            return k ;
        }
        let m = k + n ;
        match m {
            0 => { nothing ( ) }
            1 => break,
            _ => { }
        }
        if n > 100 { nothing ( ) }$
    }
    k
}
fn main ( ) {
    println ! ( "{}" , f ( 4 , true ) ) ;
}
----
worth copy 0
enum Shape { Round ( i64 ) , Flat ( i64 , i64 ) , Point }
fn area ( s : & Shape , far : bool ) -> i64 {
    let mut n = 0 ;
    while n < 9 {
        let b = {
            $if far { return - 1 ; }
            let c = match * s {
                Shape :: Round ( r ) => r * r * 3 ,
                Shape :: Flat ( w , h ) => w * h ,
                Shape :: Point => return 0 ,
            } ;
            c + 1$
        } ;
        if b > 0 { return b ; }
        n = n + b ;
    }
    n
}
fn main ( ) {
    let s = Shape :: Round ( 2 ) ;
    println ! ( "{}" , area ( & s , false ) ) ;
}
----
unit ref 0
fn quiet ( ) { }
fn f ( a : i64 , b : & mut i64 ) {
    if a > 0 {
        $if a > 3 { return quiet ( ) ; }
        * b = * b + a ;
        if * b > 9 { return; }$
        * b = 0 ;
    }
}
fn main ( ) {
    let mut n = 1 ;
    f ( 2 , & mut n ) ;
    println ! ( "{}" , n ) ;
}
----
round copy 0
fn f ( a : & mut i64 , b : i64 ) -> i64 {
    let c = ( ( b ) ) ;
    $( * ( a ) ) = ( ( * ( ( a ) ) ) + ( c ) ) ;
    if ( ( * a ) > ( 3 ) ) { return ( ( * a ) ) ; }
    ( ( ( * a ) - ( c ) ) )$
}
fn main ( ) {
    let mut n = 1 ;
    println ! ( "{}" , f ( & mut n , 2 ) ) ;
}
----
pinned ref 0
fn f ( go : bool ) -> u8 {
    let mut k = 1 ;
    let w ;
    $let t = ( 2 , ( 3 ) ) ;
    w = t . 0 + 3 ;
    k = k + t . 1 ;$
    if go { k } else { w }
}
fn main ( ) {
    println ! ( "{}" , f ( true ) ) ;
}"#;

/// What stands in front of a mark, and behind it; where there is none, the whole and this.
fn parted<'t>(text: &'t str, mark: &'static str, without: &'static str) -> (&'t str, &'t str) {
    match text.split_once(mark) {
        Some(parts) => parts,
        None => (text, without),
    }
}

/// What is made of a text between whose marks the run stands.
fn made(alloc: Global, words: &str, text: &str) -> Result<Reply, AllocError> {
    let (name, mode) = parted(words, " ", "copy");
    let (front, rest) = parted(text, "$", "");
    let (run, behind) = parted(rest, "$", "");
    let plain = format!(in alloc; "{front}{run}{behind}\n")?;
    let line = format!(in alloc;
        "extract {name} {} {} {mode}",
        front.len(),
        front.len().wrapping_add(run.len())
    )?;
    replied(alloc, line.as_str(), plain.as_str(), 8000, 100)
}

/// Whether this is an answer that is accepted.
fn is_answer(alloc: Global, reply: &Reply) -> Outcome {
    let checked = replied_to(alloc, "check", reply.printed(), 100, 100)?;
    Ok(reply.ends(0) && checked.is(0, "accepted\n", ""))
}

/// A text with another one in place of each that is found in it.
fn changed(alloc: Global, text: &str, from: &str, to: &str) -> Result<String, AllocError> {
    let mut out = String::new(alloc);
    let mut first = true;
    for part in text.split(from) {
        if !first {
            out.push_str(to)?;
        }
        first = false;
        out.push_str(part)?;
    }
    Ok(out)
}

/// A text without what its lines begin with.
fn flat(alloc: Global, text: &str) -> Result<String, AllocError> {
    let mut out = String::new(alloc);
    let mut first = true;
    for line in text.split("\n") {
        if !first {
            out.push('\n')?;
        }
        first = false;
        out.push_str(line.trim_start())?;
    }
    Ok(out)
}

/// A text by its words.
fn words_of(alloc: Global, text: &str) -> Result<String, AllocError> {
    let mut out = String::new(alloc);
    push_words(&mut out, text.as_bytes())?;
    Ok(out)
}

fn ends_token(byte: u8, lines: bool) -> bool {
    byte == b'\n' || (!lines && byte == b' ')
}

/// A text with a piece behind the token of this number, or of the last of a line.
fn with_piece(
    alloc: Global,
    text: &str,
    piece: &str,
    at: usize,
    lines: bool,
) -> Result<String, AllocError> {
    let mut out = String::new(alloc);
    let mut passed = 0usize;
    let mut inside = false;
    for byte in text.as_bytes() {
        if inside && ends_token(*byte, lines) {
            if passed == at {
                out.push_str(piece)?;
            }
            passed = passed.wrapping_add(1);
        }
        inside = !ends_token(*byte, false);
        out.push(char::from(*byte))?;
    }
    Ok(out)
}

/// How many such places there are.
fn places_of(text: &str, lines: bool) -> usize {
    let mut passed = 0usize;
    let mut inside = false;
    for byte in text.as_bytes() {
        if inside && ends_token(*byte, lines) {
            passed = passed.wrapping_add(1);
        }
        inside = !ends_token(*byte, false);
    }
    passed
}

/// The text of an answer.
fn text_of(reply: &Reply) -> &str {
    str::from_utf8(reply.printed()).unwrap_or("")
}

/// Of a piece behind each token of a part of a text, or behind the last of each line: whether each answer is that of the text without
/// it, with the piece in it or, so many times, not.
fn is_kept_in(
    alloc: Global,
    words: &str,
    parts: (&str, &str, &str),
    piece: &str,
    lines: bool,
    lost: usize,
) -> Outcome {
    let (front, part, behind) = parts;
    let whole = format!(in alloc; "{front}{part}{behind}")?;
    let plain = made(alloc, words, whole.as_str())?;
    let mut without = 0usize;
    for at in 0..places_of(part, lines) {
        let other = with_piece(alloc, part, piece, at, lines)?;
        let text = format!(in alloc; "{front}{}{behind}", other.as_str())?;
        let reply = made(alloc, words, text.as_str())?;
        let answer = text_of(&reply);
        let back = changed(alloc, answer, piece, "")?;
        if !reply.ends(0) || back.as_str() != text_of(&plain) {
            return Ok(false);
        }
        if answer == text_of(&plain) {
            without = without.wrapping_add(1);
        }
    }
    Ok(without == lost)
}

/// Whether comments behind each token of the run, and behind each line of the text, are kept, and lines that are empty or too short.
fn are_comments_kept(alloc: Global, given: &str, text: &str) -> Outcome {
    let (words, lost) = given.rsplit_once(" ").unwrap_or((given, ""));
    let lost = if lost == "1" { 1 } else { 0 };
    let (front, rest) = parted(text, "$", "");
    let (run, behind) = parted(rest, "$", "");
    let front = format!(in alloc; "{front}$")?;
    let behind = format!(in alloc; "${behind}")?;
    let parts = (front.as_str(), run, behind.as_str());
    let nested = " /* a /* b\n c */ // d */";
    Ok(
        is_kept_in(alloc, words, parts, " /* c */", false, lost)?
            && is_kept_in(alloc, words, ("", text, ""), nested, true, 0)?
            && is_kept_in(alloc, words, ("", text, ""), " // c\n \t", true, 0)?,
    )
}

/// Whether an answer has these words.
fn has_words(alloc: Global, reply: &Reply, words: &str) -> Outcome {
    Ok(is_answer(alloc, reply)? && words_of(alloc, text_of(reply))?.as_str() == words)
}

/// Whether lines that end, begin or break otherwise stay so.
fn are_lines_kept(alloc: Global, given: &str, text: &str) -> Outcome {
    let (words, _) = given.rsplit_once(" ").unwrap_or((given, ""));
    let plain = made(alloc, words, text)?;
    let all = words_of(alloc, text_of(&plain))?;
    let ended = made(alloc, words, changed(alloc, text, "\n", "\r\n")?.as_str())?;
    let unended = changed(alloc, text_of(&ended), "\r", "")?;
    let tabbed = made(alloc, words, changed(alloc, text, "    ", "\t")?.as_str())?;
    let untabbed = changed(alloc, text_of(&tabbed), "\t", "    ")?;
    let unindented = made(alloc, words, flat(alloc, text)?.as_str())?;
    let on_one = made(alloc, words, changed(alloc, text, "\n", " ")?.as_str())?;
    Ok(
        is_answer(alloc, &plain)?
            && is_answer(alloc, &ended)?
            && unended.as_str() == text_of(&plain)
            && is_answer(alloc, &tabbed)?
            && untabbed.as_str() == text_of(&plain)
            && has_words(alloc, &unindented, all.as_str())?
            && has_words(alloc, &on_one, all.as_str())?,
    )
}

/// Ends the test at the first text of which it does not hold.
fn all_held<F: Fn(Global, &str, &str) -> Outcome>(rt: &impl Abort, alloc: Global, holds: F)
    requires { F.IsAlwaysCallable holds }
{
    match first_wrong(alloc, TEXTS, BLOCKS, holds) {
        Some(row) => hold(rt, Ok(false), row),
        None => {}
    }
}

#[test]
fn comments_behind_each_token_are_kept(rt: HostRuntime) {
    all_held(&rt, rt.alloc(), are_comments_kept);
}

#[test]
fn lines_are_kept_as_they_stand(rt: HostRuntime) {
    all_held(&rt, rt.alloc(), are_lines_kept);
}
