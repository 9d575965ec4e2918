//! Where the blank or the comment at the front of a text ends.

ghost use Rattle.std.specs.Prelude.{◌≡◌, ℕ, ◌+◌, ◌≤◌, ◌<◌, ◌&&◌, ◌==◌, true, false, None, Some, List, length, take, drop, slice_index, MatchOption};
ghost use Rattle.rx_lex.specs.Tokens.{is_blank as is_blank_of};
ghost use Rattle.rx_lex.specs.Scan.{line_rest, block_rest, comment_rest, gap_rest};

fn is_blank(byte: u8) -> bool
    ensures { result ≡ is_blank_of byte }
{
    byte == b' ' || byte == b'\t' || byte == b'\n' || byte == b'\r'
}

/// How many bytes come before the end of the line.
fn line_length(rest: &[u8]) -> usize
    ensures within { result ≤ length rest.now }
    ensures value { line_rest rest.now ≡ drop result rest.now }
{
    let mut at = 0;
    while at < rest.len() && rest[at] != b'\n' {
        at += 1;
    }
    at
}

/// Whether these two bytes stand at the place.
fn has_pair(rest: &[u8], at: usize, first: u8, second: u8) -> bool
    requires { at + 1 < length rest.now }
    ensures { result ≡ ((slice_index rest.now at == first) && (slice_index rest.now (at + 1) == second)) }
{
    rest[at] == first && rest[at + 1] == second
}

/// How many bytes there are up to the end of a comment, behind its first `/*`.
fn block_length(rest: &[u8]) -> Option<usize>
    ensures { MatchOption result (block_rest 0 rest.now ≡ None) (λ n. (n ≤ length rest.now) × (block_rest 0 rest.now ≡ Some (drop n rest.now))) }
{
    let mut at = 0;
    let mut depth: usize = 0;
    while at + 1 < rest.len() {
        if has_pair(rest, at, b'/', b'*') {
            depth += 1;
            at += 2;
        } else if has_pair(rest, at, b'*', b'/') {
            at += 2;
            if depth == 0 {
                return Some(at);
            }
            depth -= 1;
        } else {
            at += 1;
        }
    }
    None
}

/// The length of the blank or the comment that comes first.
pub(crate) fn gap_length(rest: &[u8]) -> Option<usize>
    ensures { MatchOption result (gap_rest rest.now ≡ None) (λ n. (n ≤ length rest.now) × (gap_rest rest.now ≡ Some (drop n rest.now))) }
{
    if rest.is_empty() {
        return None;
    }
    if is_blank(rest[0]) {
        return Some(1);
    }
    if rest.len() < 2 || rest[0] != b'/' {
        return None;
    }
    match rest[1] {
        b'/' => Some(2 + line_length(&rest[2..])),
        b'*' => match block_length(&rest[2..]) {
            Some(length) => Some(2 + length),
            None => None,
        },
        _ => None,
    }
}
