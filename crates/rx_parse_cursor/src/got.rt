//! What the rules give.

ghost use Rattle.std.specs.Prelude.{◌≡◌, ◌∷◌, ◌++◌, [], max, IfOk};
ghost use Rattle.rx_lex.specs.Tok.{tok};
ghost use Rattle.rx_parse_grammar.specs.grammar.Words as words;

use rx_core::{LetGo, List, Name, Span, pushed};
use rx_lex::Token;
use rx_tree::Ident;
use std::alloc::{AllocError, Global};

/// A tree, its levels with those of parentheses, and its place with its parentheses.
#[derive(Drop)]
pub struct Got<T> {
    pub tree: T,
    pub height: usize,
    pub span: Span,
}

/// The elements that were found, and the most levels that one has.
#[derive(Drop)]
pub struct Found<T> {
    pub list: List<T>,
    pub height: usize,
}

/// The elements of a list in brackets, the most levels that one has, and where the closing bracket stands.
#[derive(Drop)]
pub struct Items<T> {
    pub list: List<T>,
    pub height: usize,
    pub close: Span,
}

/// The larger of two numbers of levels.
pub fn larger(a: usize, b: usize) -> usize
    ensures { result ≡ max a b }
{
    if a < b { b } else { a }
}

/// From the first to the second.
pub fn join(a: Span, b: Span) -> Span
    ensures { result ≡ words.join a b }
{
    Span {
        start: a.start,
        end: b.end,
    }
}

/// The name that a token is.
pub fn ident(alloc: Global, token: Token<'_>) -> Result<Ident, AllocError>
    ensures { IfOk result (λ x. x ≡ words.ident (tok token.entry)) }
{
    Ok(Ident {
        span: token.span,
        name: Name::new(alloc, token.text)?,
    })
}

impl<T: LetGo> LetGo for Got<T> {
    fn let_go(self) {
        let Got {
            tree,
            height: _,
            span: _,
        } = self;
        tree.let_go();
    }
}

impl<T: LetGo> LetGo for Found<T> {
    fn let_go(self) {
        let Found { list, height: _ } = self;
        list.let_go();
    }
}

impl<T: LetGo> LetGo for Items<T> {
    fn let_go(self) {
        let Items {
            list,
            height: _,
            close: _,
        } = self;
        list.let_go();
    }
}

impl<T> Found<T> {
    /// No element.
    pub fn new(alloc: Global) -> Found<T>
        ensures list { result.list ≡ [] }
        ensures height { result.height ≡ 0 }
    {
        Found {
            list: List::new(alloc),
            height: 0,
        }
    }

    /// The elements, with the place of the closing bracket.
    pub fn closed(self, close: Span) -> Items<T>
        ensures list { result.list ≡ self.list }
        ensures height { result.height ≡ self.height }
        ensures close { result.close ≡ close }
    {
        let Found { list, height } = self;
        Items {
            list,
            height,
            close,
        }
    }
}

impl<T: LetGo> Found<T> {
    /// With one more element at the end. Where memory runs out all are let go.
    pub fn with(self, next: Got<T>) -> Result<Found<T>, AllocError>
        ensures list { IfOk result (λ all. all.list ≡ self.list ++ next.tree ∷ []) }
        ensures height { IfOk result (λ all. all.height ≡ max self.height next.height) }
    {
        let Found { list, height } = self;
        let Got {
            tree,
            height: further,
            span: _,
        } = next;
        let list = pushed(list, tree)?;
        Ok(Found {
            list,
            height: larger(height, further),
        })
    }
}
