//! Whether words are the same, and whether one stands in a list.

ghost use Rattle.std.specs.Prelude.{◌≡◌, map};
ghost use Rattle.rx_core.specs.Bytes.{same_bytes, is_one_of};

use crate::text::Name;

/// Whether both are the same bytes. On short words, which mostly differ in their first byte, `==` takes several times as long.
pub fn is_same(a: &[u8], b: &[u8]) -> bool
    ensures { result ≡ same_bytes a.now b.now }
{
    let mut left = a;
    let mut right = b;
    while let [first, left_rest @ ..] = left {
        let [second, right_rest @ ..] = right else {
            return false;
        };
        if *first != *second {
            return false;
        }
        left = left_rest;
        right = right_rest;
    }
    matches!(right, [])
}

/// Whether both are the same text.
pub fn is_same_text(a: &str, b: &str) -> bool
    ensures { result ≡ same_bytes a.now b.now }
{
    is_same(a.as_bytes(), b.as_bytes())
}

/// Whether both are the same name.
pub fn is_same_name(a: &Name, b: &Name) -> bool
    ensures { result ≡ same_bytes a.now b.now }
{
    is_same_text(a.as_str(), b.as_str())
}

/// Whether the word is one of these.
pub fn is_among(word: &[u8], words: &[&[u8]]) -> bool
    ensures { result ≡ is_one_of word.now (map (λ w. w.now) words.now) }
{
    for other in words {
        if is_same(word, *other) {
            return true;
        }
    }
    false
}

/// Whether the text is one of these.
pub fn is_among_texts(text: &str, texts: &[&str]) -> bool
    ensures { result ≡ is_one_of text.now (map (λ w. w.now) texts.now) }
{
    for other in texts {
        if is_same_text(text, *other) {
            return true;
        }
    }
    false
}

/// Whether the name is one of these.
pub fn is_among_names(name: &Name, names: &[Name]) -> bool
    ensures { result ≡ is_one_of name.now names.now }
{
    for other in names {
        if is_same_name(name, other) {
            return true;
        }
    }
    false
}
