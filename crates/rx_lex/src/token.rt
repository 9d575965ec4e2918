//! Tokens, which borrow their text from the source.

use rx_core::{LetGo, Span};

/// What kind of word a token is.
#[derive(Clone, Copy, PartialEq, Eq)]
pub enum Class {
    Identifier,
    Keyword,
    Lifetime,
    Number,
    Format,
    Mark,
}

/// A token: its class, where it stands, and its bytes there.
#[derive(Clone, Copy)]
pub struct Token<'t> {
    pub class: Class,
    pub span: Span,
    pub text: &'t str,
}

impl<'t> LetGo for Token<'t> {
    fn let_go(self) {}
}
