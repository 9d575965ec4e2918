//! Words: bytes up to a mark, and numbers.

ghost use Rattle.std.specs.Prelude.{◌≡◌, ◌≤◌, ◌∷◌, length, MatchOption};
ghost use Rattle.std.specs.Fmt.{decimal};
ghost use Rattle.std.specs.Str.{all_ascii_digits};
ghost use Rattle.rx_cert_lines.specs.Items.{Small};
ghost use Rattle.rx_cert_lines.specs.Certificates.{Free};
ghost use Rattle.rx_cert_lines.specs.Reading.{before as before_of, IsCut, BeginsNot, IsSplit, is_plain as is_plain_word, value_on, NoNumber};

/// How many bytes stand before the first mark.
fn before(mark: u8, bytes: &[u8]) -> usize
    ensures value { result ≡ before_of mark bytes.now }
    ensures within { result ≤ length bytes.now }
{
    let mut at = 0;
    while at < bytes.len() && bytes[at] != mark {
        at += 1;
    }
    at
}

/// The bytes before the first mark, and those from it on.
pub fn cut(mark: u8, bytes: &[u8]) -> (&[u8], &[u8])
    ensures { IsCut mark bytes.now result.0.now result.1.now }
{
    let at = before(mark, bytes);
    (&bytes[..at], &bytes[at..])
}

/// The bytes behind a mark that stands first.
pub fn behind(mark: u8, bytes: &[u8]) -> Option<&[u8]>
    ensures { MatchOption result (BeginsNot mark bytes.now) (λ rest. bytes.now ≡ mark ∷ rest.now) }
{
    match bytes {
        [] => None,
        [first, rest @ ..] => { if *first == mark { Some(rest) } else { None } }
    }
}

/// The bytes before the first mark, and those behind it; none where there is no mark.
pub fn split(mark: u8, bytes: &[u8]) -> Option<(&[u8], &[u8])>
    ensures { MatchOption result (Free mark bytes.now) (λ it. IsSplit mark bytes.now it.0.now it.1.now) }
{
    let (front, rest) = cut(mark, bytes);
    match behind(mark, rest) {
        Some(more) => Some((front, more)),
        None => None,
    }
}

fn are_digits(bytes: &[u8]) -> bool
    ensures { result ≡ all_ascii_digits bytes.now }
{
    for byte in bytes {
        if !byte.is_ascii_digit() {
            return false;
        }
    }
    true
}

/// Whether it is one digit, or digits without a leading zero.
fn is_plain(word: &[u8]) -> bool
    ensures { result ≡ is_plain_word word.now }
{
    match word {
        [] => false,
        [first, rest @ ..] => (rest.is_empty() || *first != b'0') && are_digits(word),
    }
}

/// The number that digits write, where it is below 2^32.
fn value(digits: &[u8]) -> Option<u32>
    ensures { MatchOption result (4294967296 ≤ value_on 0 digits.now) (λ n. Small n × (n ≡ value_on 0 digits.now)) }
{
    let mut value = 0u64;
    for digit in digits {
        value = value * 10 + (*digit as u64).saturating_sub(48);
        if value > 4_294_967_295 {
            return None;
        }
    }
    Some(value as u32)
}

/// The number below 2^32 that is written so.
pub fn number(word: &[u8]) -> Option<u32>
    ensures { MatchOption result (NoNumber word.now) (λ n. Small n × (decimal n ≡ word.now)) }
{
    if is_plain(word) { value(word) } else { None }
}
