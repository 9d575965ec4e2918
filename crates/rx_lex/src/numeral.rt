//! Numbers: what value a word stands for, and which type its suffix names.

ghost use Rattle.std.specs.Prelude.{◌≡◌, ℕ, ◌≤◌, ◌<◌, ◌&&◌, Option, List, length, take, drop, IfSome, IfNone, MatchOption};
ghost use Rattle.std.specs.List.{list_all, list_any};
ghost use Rattle.rx_core.specs.Bytes.{same_bytes};
ghost use Rattle.rx_core.specs.declared.types.Kind.{Kind as KindOf};
ghost use Rattle.rx_lex.specs.Numerals.{IsNumeral, greatest, is_digit, is_digit_of, is_among, digit_value, value_from, suffix_text};
ghost use Rattle.rx_lex.specs.Numerals.{radix as radix_of};
ghost use Rattle.rx_lex.specs.Digits.{IsBody, body_length as body_length_of, base_of as base_in, is_decimal as is_decimal_body};

use rx_core::{Kind, is_same};

/// A base that a prefix names.
#[derive(Clone, Copy)]
pub enum Base {
    Hexadecimal,
    Octal,
    Binary,
}

/// A number: its value, and the type that its suffix names.
#[derive(Clone, Copy)]
pub struct Numeral {
    pub value: u64,
    pub suffix: Option<Kind>,
}

/// The number that the text is. `None` if it is no number, or one of more than 64 bits.
pub fn numeral_of(text: &str) -> Option<Numeral>
    ensures some { IfSome result (λ n. IsNumeral text.now n.value n.suffix) }
    ensures fits { IfSome result (λ n. n.value ≤ greatest) }
    ensures none { IfNone result ((v : ℕ) (k : Option KindOf) → IsNumeral text.now v k → v ≤ greatest → ⊥) }
{
    numeral_in(text.as_bytes())
}

pub(crate) fn numeral_in(word: &[u8]) -> Option<Numeral>
    ensures some { IfSome result (λ n. IsNumeral word.now n.value n.suffix) }
    ensures fits { IfSome result (λ n. n.value ≤ greatest) }
    ensures none { IfNone result ((v : ℕ) (k : Option KindOf) → IsNumeral word.now v k → v ≤ greatest → ⊥) }
{
    let at = body_length(word);
    let suffix = suffix_named(&word[at..])?;
    let value = body_value(&word[..at])?;
    Some(Numeral { value, suffix })
}

/// How many bytes come before the suffix.
fn body_length(word: &[u8]) -> usize
    ensures value { result ≡ body_length_of word.now }
    ensures within { result ≤ length word.now }
{
    let mut at = 0;
    while at < word.len() && word[at] != b'u' && word[at] != b'i' {
        at += 1;
    }
    at
}

/// The suffix of this name, which may be none.
fn suffix_named(name: &[u8]) -> Option<Option<Kind>>
    ensures { MatchOption result ((k : Option KindOf) → name.now ≡ suffix_text k → ⊥) (λ k. name.now ≡ suffix_text k) }
{
    if name.is_empty() {
        Some(None)
    } else if is_same(name, b"u8") {
        Some(Some(Kind::U8))
    } else if is_same(name, b"u32") {
        Some(Some(Kind::U32))
    } else if is_same(name, b"u64") {
        Some(Some(Kind::U64))
    } else if is_same(name, b"i32") {
        Some(Some(Kind::I32))
    } else if is_same(name, b"i64") {
        Some(Some(Kind::I64))
    } else {
        None
    }
}

/// The value of a number without its suffix.
fn body_value(body: &[u8]) -> Option<u64>
    ensures { MatchOption result ((v : ℕ) → IsBody body.now v → v ≤ greatest → ⊥) (λ v. IsBody body.now v) }
{
    match base_of(body) {
        Some(base) => {
            let digits = &body[2..];
            if are_digits_of(base, digits) {
                value(radix(base), digits)
            } else {
                None
            }
        }
        None => {
            if is_decimal(body) {
                value(10, body)
            } else {
                None
            }
        }
    }
}

/// The base that a prefix at the front names.
fn base_of(body: &[u8]) -> Option<Base>
    ensures value { result ≡ base_in body.now }
    ensures prefixed { IfSome result (λ b. 2 ≤ length body.now) }
{
    if body.len() < 2 || body[0] != b'0' {
        return None;
    }
    match body[1] {
        b'x' => Some(Base::Hexadecimal),
        b'o' => Some(Base::Octal),
        b'b' => Some(Base::Binary),
        _ => None,
    }
}

fn radix(base: Base) -> u64
    ensures value { result ≡ radix_of base }
    ensures positive { 1 ≤ result }
{
    match base {
        Base::Hexadecimal => 16,
        Base::Octal => 8,
        Base::Binary => 2,
    }
}

pub(crate) fn is_digit_byte(byte: u8) -> bool
    ensures { result ≡ is_digit byte }
{
    b'0' <= byte && byte <= b'9'
}

fn is_base_digit(base: Base, byte: u8) -> bool
    ensures { result ≡ is_digit_of base byte }
{
    match base {
        Base::Hexadecimal => is_digit_byte(byte)
            || (b'a' <= byte && byte <= b'f')
            || (b'A' <= byte && byte <= b'F'),
        Base::Octal => b'0' <= byte && byte <= b'7',
        Base::Binary => b'0' <= byte && byte <= b'1',
    }
}

/// Whether these are digits of the base, perhaps with `_` among them, and at least one digit.
fn are_digits_of(base: Base, digits: &[u8]) -> bool
    ensures { result ≡ (list_all (is_among base) digits.now && list_any (is_digit_of base) digits.now) }
{
    let mut any = false;
    for byte in digits {
        if is_base_digit(base, *byte) {
            any = true;
        } else if *byte != b'_' {
            return false;
        }
    }
    any
}

/// Whether these are decimal digits with `_` among them, a digit first.
fn is_decimal(body: &[u8]) -> bool
    ensures { result ≡ is_decimal_body body.now }
{
    if body.is_empty() || !is_digit_byte(body[0]) {
        return false;
    }
    for byte in body {
        if !is_digit_byte(*byte) && *byte != b'_' {
            return false;
        }
    }
    true
}

/// What a digit stands for.
fn digit(byte: u8) -> u64
    ensures { result ≡ digit_value byte }
{
    let value = if byte <= b'9' {
        byte.saturating_sub(b'0')
    } else if byte <= b'F' {
        byte - 55
    } else {
        byte.saturating_sub(87)
    };
    u64::from(value)
}

/// The value of digits, `None` if it takes more than 64 bits.
fn value(radix: u64, digits: &[u8]) -> Option<u64>
    requires { 1 ≤ radix }
    ensures { MatchOption result (greatest < value_from radix 0 digits.now) (λ v. v ≡ value_from radix 0 digits.now) }
{
    let mut value: u64 = 0;
    for byte in digits {
        if *byte != b'_' {
            value = value.checked_mul(radix)?.checked_add(digit(*byte))?;
        }
    }
    Some(value)
}
