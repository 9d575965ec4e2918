//! Numbers in the words of the command line.

ghost use Rattle.std.specs.Prelude.{◌≡◌, ◌<◌, length, IfOk};
ghost use Rattle.std.specs.Option.{is_some};
ghost use Rattle.rx_rem_command.specs.Numbers.{digits_from, number_of, count_among, count_of, positive_of, negative_of, integer_of, integers_of, integers_among};

use rx_core::Text;
use std::alloc::{AllocError, Global};

/// The value of at most 19 decimal digits, or `None` where another byte is among them.
fn digits(word: &[u8]) -> Option<u64>
    requires { length word.now < 20 }
    ensures { result ≡ digits_from 0 word.now }
{
    let mut value = 0u64;
    for byte in word {
        if !byte.is_ascii_digit() {
            return None;
        }
        value = value * 10 + u64::from(*byte - b'0');
    }
    Some(value)
}

/// The value of 1 to 19 decimal digits.
pub fn number(word: &[u8]) -> Option<u64>
    ensures { result ≡ number_of word.now }
{
    if word.is_empty() || word.len() >= 20 {
        return None;
    }
    digits(word)
}

/// A number, where it is from 1 to 1,000.
fn count_in(value: Option<u64>) -> Option<u64>
    ensures { result ≡ count_among value }
{
    match value {
        Some(value) if value >= 1 && value <= 1000 => Some(value),
        _ => None,
    }
}

/// The value of 1 to 4 decimal digits, where it is from 1 to 1,000.
pub fn count(word: &[u8]) -> Option<u64>
    ensures { result ≡ count_of word.now }
{
    if word.len() < 5 {
        count_in(number(word))
    } else {
        None
    }
}

/// A number as an `i64`, where it is one.
fn positive(value: Option<u64>) -> Option<i64>
    ensures { result ≡ positive_of value }
{
    match value {
        Some(value) if value <= 9_223_372_036_854_775_807 => Some(value as i64),
        _ => None,
    }
}

/// A number behind a minus as an `i64`, where it is one.
fn negative(value: Option<u64>) -> Option<i64>
    ensures { result ≡ negative_of value }
{
    match value {
        Some(value) if value <= 9_223_372_036_854_775_808 => Some((-i128::from(value)) as i64),
        _ => None,
    }
}

/// The value of 1 to 19 decimal digits, with a minus before them or not, where it is an `i64`.
fn integer(word: &str) -> Option<i64>
    ensures { result ≡ integer_of word.now }
{
    match word.as_bytes() {
        [b'-', rest @ ..] => negative(number(rest)),
        bytes => positive(number(bytes)),
    }
}

/// Whether each word is an integer.
pub fn are_integers(words: &[Text]) -> bool
    ensures { result ≡ is_some (integers_of words.now) }
{
    for word in words {
        if integer(word.as_str()).is_none() {
            return false;
        }
    }
    true
}

/// The integers among words.
pub fn integers(alloc: Global, words: &[Text]) -> Result<Vec<i64>, AllocError>
    ensures { IfOk result (λ all. all.items ≡ integers_among words.now) }
{
    let mut all = Vec::new(alloc);
    for word in words {
        if let Some(number) = integer(word.as_str()) {
            all.push(number)?;
        }
    }
    Ok(all)
}
