//! Keywords and marks.

ghost use Rattle.std.specs.Prelude.{◌≡◌, [], ◌∷◌};
ghost use Rattle.rx_core.specs.Bytes.{is_one_of};
ghost use Rattle.rx_lex.specs.Words.{keywords, marks};

use rx_core::is_among;

/// Whether a keyword has this first letter and this rest.
fn is_keyword_of(first: u8, rest: &[u8]) -> bool
    ensures { result ≡ is_one_of (first ∷ rest.now) keywords }
{
    match first {
        b'a' => is_among(rest, &[b"s", b"sync", b"wait", b"bstract"]),
        b'b' => is_among(rest, &[b"reak", b"ecome", b"ox", b"ool"]),
        b'c' => is_among(rest, &[b"onst", b"ontinue", b"rate"]),
        b'd' => is_among(rest, &[b"yn", b"o"]),
        b'e' => is_among(rest, &[b"lse", b"num", b"xtern"]),
        b'f' => is_among(rest, &[b"alse", b"n", b"or", b"inal"]),
        b'g' => is_among(rest, &[b"en"]),
        b'i' => is_among(rest, &[b"f", b"mpl", b"n", b"32", b"64"]),
        b'l' => is_among(rest, &[b"et", b"oop"]),
        b'm' => is_among(rest, &[b"atch", b"od", b"ove", b"ut", b"acro"]),
        b'o' => is_among(rest, &[b"verride"]),
        b'p' => is_among(rest, &[b"ub", b"riv"]),
        b'r' => is_among(rest, &[b"ef", b"eturn"]),
        b's' => is_among(rest, &[b"elf", b"tatic", b"truct", b"uper"]),
        b'S' => is_among(rest, &[b"elf"]),
        b't' => is_among(rest, &[b"rait", b"rue", b"ype", b"ry", b"ypeof"]),
        b'u' => is_among(rest, &[b"nsafe", b"se", b"nsized", b"8", b"32", b"64"]),
        b'v' => is_among(rest, &[b"irtual"]),
        b'w' => is_among(rest, &[b"here", b"hile"]),
        b'y' => is_among(rest, &[b"ield"]),
        _ => false,
    }
}

pub(crate) fn is_keyword(word: &[u8]) -> bool
    ensures { result ≡ is_one_of word.now keywords }
{
    match word {
        [first, rest @ ..] => is_keyword_of(*first, rest),
        [] => false,
    }
}

/// Whether the two bytes are a mark.
pub(crate) fn is_mark_of_two(first: u8, second: u8) -> bool
    ensures { result ≡ is_one_of (first ∷ second ∷ []) marks }
{
    match first {
        b'-' => second == b'>' || second == b'=',
        b'=' => second == b'>' || second == b'=',
        b':' => second == b':',
        b'!' | b'<' | b'>' | b'+' | b'*' | b'/' | b'%' => second == b'=',
        b'&' => second == b'&',
        b'|' => second == b'|',
        _ => false,
    }
}

/// Whether the byte is a mark.
pub(crate) fn is_mark_of_one(byte: u8) -> bool
    ensures { result ≡ is_one_of (byte ∷ []) marks }
{
    matches!(
        byte,
        b'(' | b')'
            | b'{'
            | b'}'
            | b'['
            | b']'
            | b'<'
            | b'>'
            | b','
            | b';'
            | b':'
            | b'.'
            | b'='
            | b'+'
            | b'-'
            | b'*'
            | b'/'
            | b'%'
            | b'!'
            | b'&'
            | b'#'
            | b'_'
    )
}
