//! Types. They nest no deeper than the levels that are left.

ghost use Rattle.std.specs.Prelude.{◌≡◌, ◌≤◌, ◌<◌, ◌+◌, Option, Some, None, map, IfOk};
ghost use Rattle.rx_tree.specs.declared.tree.Ident as ident_tree;
ghost use Rattle.rx_tree.specs.Plain as plain;
ghost use Rattle.rx_tree.specs.PlainOf.{plain-TypeText, types_of};
ghost use Rattle.rx_lex.specs.Tok.{tok};
ghost use Rattle.rx_parse_grammar.specs.grammar.Words as words;
ghost use Rattle.rx_parse_grammar.specs.declared.symbol.Symbol.TheVariants as symbol;
ghost use Rattle.rx_parse_grammar.specs.parser.Symbols.{peek};
ghost use Rattle.rx_parse_grammar.specs.parser.Steps.{ReadsAs, leaf, node};
ghost use Rattle.rx_parse_grammar.specs.parser.Lists as lists;
ghost use Rattle.rx_parse_grammar.specs.parser.Types as spec;
ghost use Rattle.rx_parse_cursor.specs.GotOf.{got_of, items_of};
ghost use Rattle.rx_parse_types.specs.Nests.{Nests};

use rx_core::{Boxed, Kind, Span, keep};
use rx_lex::Token;
use rx_parse_cursor::{Cursor, Got, Grouped, Items, Reader, group, ident, join, some_elements};
use rx_parse_grammar::{Stop, Symbol};
use rx_tree::{Ident, TypeNode, TypeText};
use std::alloc::{AllocError, Global};

pub fn begins_type(symbol: Symbol) -> bool
    ensures { result ≡ spec.begins_type symbol }
{
    match symbol {
        Symbol::Name
        | Symbol::Bool
        | Symbol::U8
        | Symbol::U32
        | Symbol::U64
        | Symbol::I32
        | Symbol::I64
        | Symbol::Ampersand
        | Symbol::AndAnd
        | Symbol::OpenParen => true,
        _ => false,
    }
}

/// `mut`, or nothing.
#[tactic(auto, unfolding(rx_parse_grammar::specs::parser::Types::mutability))]
pub fn mutability(cursor: &mut Cursor<'_>) -> Result<bool, Stop>
    ensures { ReadsAs (λ m. m) (spec.mutability cursor.old) result cursor.new }
{
    if cursor.sees(Symbol::Mut) {
        cursor.expect(Symbol::Mut)?;
        return Ok(true);
    }
    Ok(false)
}

/// A lifetime, or nothing; `'_` is none.
#[tactic(auto, unfolding(rx_parse_grammar::specs::parser::Types::reference_lifetime))]
fn reference_lifetime(alloc: Global, cursor: &mut Cursor<'_>) -> Result<Option<Ident>, Stop>
    ensures { ReadsAs (λ l. l) (spec.reference_lifetime cursor.old) result cursor.new }
{
    if cursor.sees(Symbol::Lifetime) {
        let token = cursor.expect(Symbol::Lifetime)?;
        return Ok(Some(ident(alloc, token)?));
    }
    if cursor.sees(Symbol::Anonymous) {
        cursor.expect(Symbol::Anonymous)?;
    }
    Ok(None)
}

/// A lifetime, which counts no level.
#[tactic(auto, unfolding(rx_parse_grammar::specs::parser::Types::lifetime_argument))]
fn lifetime_argument(alloc: Global, cursor: &mut Cursor<'_>) -> Result<Got<Option<Ident>>, Stop>
    ensures reads { ReadsAs (got_of (λ l. l)) (spec.lifetime_argument cursor.old) result cursor.new }
    ensures low { IfOk result (λ x. x.height ≤ 0) }
{
    match cursor.peek() {
        Symbol::Lifetime => {
            let token = cursor.expect(Symbol::Lifetime)?;
            Ok(Got {
                tree: Some(ident(alloc, token)?),
                height: 0,
                span: token.span,
            })
        }
        Symbol::Anonymous => {
            let token = cursor.expect(Symbol::Anonymous)?;
            Ok(Got {
                tree: None,
                height: 0,
                span: token.span,
            })
        }
        _ => Err(cursor.refuse()),
    }
}

/// Reads the lifetimes behind the name of a type.
#[derive(Clone, Copy)]
struct LifetimeArguments;

impl Reader for LifetimeArguments {
    type Item = Option<Ident>;

    ghost Tree = { Option ident_tree.Ident };

    ghost plain = { λ l. l };

    ghost ready = { λ s. 0 ≤ 0 };

    ghost most = { λ s. 0 };

    ghost parser = { λ s. spec.lifetime_argument };

    fn read(&self, alloc: Global, cursor: &mut Cursor<'_>) -> Result<Got<Option<Ident>>, Stop> {
        lifetime_argument(alloc, cursor)
    }
}

/// The lifetimes in `<` and `>`, of which there is one at least, from behind the `<`.
fn lifetimes(alloc: Global, cursor: &mut Cursor<'_>) -> Result<Items<Option<Ident>>, Stop>
    ensures { ReadsAs (items_of (λ l. l)) (lists.some_elements symbol.Greater spec.lifetime_argument cursor.old) result cursor.new }
{
    some_elements(alloc, cursor, &LifetimeArguments, Symbol::Greater)
}

/// A type that is one word.
#[tactic(auto, using(rx_tree::proofs::Rules::type_rules))]
fn kind_type(cursor: &mut Cursor<'_>, symbol: Symbol, kind: Kind) -> Result<Got<TypeText>, Stop>
    ensures reads { ReadsAs (got_of plain-TypeText) (spec.kind_by symbol kind cursor.old) result cursor.new }
    ensures low { IfOk result (λ x. x.height ≤ 1) }
{
    let token = cursor.expect(symbol)?;
    let span = token.span;
    Ok(Got {
        tree: TypeText {
            span,
            node: TypeNode::Kind(kind),
        },
        height: 1,
        span,
    })
}

/// A type by its name and its lifetimes.
#[tactic(auto, using(rx_tree::proofs::Rules::type_rules))]
fn with_lifetimes(name: Ident, span: Span, items: Items<Option<Ident>>) -> Got<TypeText>
    ensures tree { got_of plain-TypeText result ≡ leaf (λ s. plain.named_type s name (Some items.list)) span }
    ensures low { result.height ≤ 1 }
{
    Got {
        tree: TypeText {
            span,
            node: TypeNode::Named(name, Some(items.list)),
        },
        height: 1,
        span,
    }
}

/// A type by its name alone.
#[tactic(auto, using(rx_tree::proofs::Rules::type_rules))]
fn name_alone(name: Ident, span: Span) -> Got<TypeText>
    ensures tree { got_of plain-TypeText result ≡ leaf (λ s. plain.named_type s name None) span }
    ensures low { result.height ≤ 1 }
{
    Got {
        tree: TypeText {
            span,
            node: TypeNode::Named(name, None),
        },
        height: 1,
        span,
    }
}

/// A type by its name, and the lifetimes behind it where they are written.
#[tactic(auto, using(crate::proofs::Rules::list_rules), unfolding(rx_parse_grammar::specs::parser::Types::named_type))]
fn named_type(alloc: Global, cursor: &mut Cursor<'_>) -> Result<Got<TypeText>, Stop>
    ensures reads { ReadsAs (got_of plain-TypeText) (spec.named_type cursor.old) result cursor.new }
    ensures low { IfOk result (λ x. x.height ≤ 1) }
{
    let token = cursor.expect(Symbol::Name)?;
    if cursor.sees(Symbol::Less) {
        cursor.expect(Symbol::Less)?;
        let items = lifetimes(alloc, cursor)?;
        let span = join(token.span, items.close);
        let (name, items) = keep(items, ident(alloc, token))?;
        return Ok(with_lifetimes(name, span, items));
    }
    Ok(name_alone(ident(alloc, token)?, token.span))
}

/// A reference, by what it points to.
#[tactic(auto, using(rx_tree::proofs::Rules::type_rules))]
fn reference_to(
    alloc: Global,
    start: Span,
    lifetime: Option<Ident>,
    mutable: bool,
    target: Got<TypeText>,
) -> Result<Got<TypeText>, AllocError>
    requires { target.height ≤ 1024 }
    ensures tree { IfOk result (λ x. got_of plain-TypeText x ≡ node (λ s. plain.ref_type s lifetime mutable (plain-TypeText target.tree)) (words.join start target.span) target.height) }
    ensures low { IfOk result (λ x. x.height ≤ target.height + 1) }
{
    let span = join(start, target.span);
    let height = target.height + 1;
    let (boxed, lifetime) = keep(lifetime, Boxed::new(alloc, target.tree))?;
    let node = TypeNode::Ref(lifetime, mutable, boxed);
    Ok(Got {
        tree: TypeText { span, node },
        height,
        span,
    })
}

/// A tuple, by its parts.
#[tactic(auto, using(rx_tree::proofs::Rules::type_rules))]
fn tuple_of(items: Items<TypeText>, span: Span) -> Got<TypeText>
    requires { items.height ≤ 1024 }
    ensures tree { got_of plain-TypeText result ≡ node (λ s. plain.tuple_type s (types_of (map plain-TypeText items.list))) span items.height }
    ensures low { result.height ≤ items.height + 1 }
{
    Got {
        tree: TypeText {
            span,
            node: TypeNode::Tuple(items.list),
        },
        height: items.height + 1,
        span,
    }
}

/// The type `bool`.
#[tactic(auto, using(rx_tree::proofs::Rules::type_rules))]
fn bool_type(token: Token<'_>) -> Got<TypeText>
    ensures tree { got_of plain-TypeText result ≡ leaf plain.bool_type (tok token.entry).span }
    ensures low { result.height ≤ 1 }
{
    let span = token.span;
    Got {
        tree: TypeText {
            span,
            node: TypeNode::Bool,
        },
        height: 1,
        span,
    }
}

/// A level, below which so many levels of types may stand.
#[derive(Clone, Copy)]
pub struct TypeLevel<F> {
    below: usize,
    /// The parser of types one level deeper.
    typ: F,
}

impl<F: Fn(Global, &mut Cursor<'_>, usize) -> Result<Got<TypeText>, Stop>> Reader for TypeLevel<F> {
    type Item = TypeText;

    ghost Tree = { plain.TypeTree };

    ghost plain = { plain-TypeText };

    ghost ready = { λ s. Nests plain-TypeText spec.typ s.below (F.pre s.typ) (F.post s.typ) };

    ghost most = { λ s. s.below };

    ghost parser = { λ s. spec.typ s.below };

    fn read(&self, alloc: Global, cursor: &mut Cursor<'_>) -> Result<Got<TypeText>, Stop> {
        (self.typ)(alloc, cursor, self.below)
    }
}

impl<F: Fn(Global, &mut Cursor<'_>, usize) -> Result<Got<TypeText>, Stop>> TypeLevel<F> {
    #[tactic(auto, unfolding(rx_parse_grammar::specs::parser::Types::reference))]
    fn reference(&self, alloc: Global, cursor: &mut Cursor<'_>) -> Result<Got<TypeText>, Stop>
        requires { Nests plain-TypeText spec.typ self.now.below (F.pre self.now.typ) (F.post self.now.typ) }
        ensures reads { ReadsAs (got_of plain-TypeText) (spec.reference (spec.typ self.now.below) self.now.below cursor.old) result cursor.new }
        ensures low { IfOk result (λ x. x.height ≤ self.now.below + 1) }
    {
        if self.below < 1 {
            return Err(cursor.too_deep());
        }
        let start = cursor.expect(Symbol::Ampersand)?;
        let lifetime = reference_lifetime(alloc, cursor)?;
        let (mutable, lifetime) = keep(lifetime, mutability(cursor))?;
        let (target, lifetime) = keep(lifetime, self.read(alloc, cursor))?;
        Ok(reference_to(alloc, start.span, lifetime, mutable, target)?)
    }

    /// `&&` as two `&`.
    #[tactic(auto, unfolding(rx_parse_grammar::specs::parser::Types::two_references, rx_parse_grammar::specs::parser::Steps::expect))]
    fn two_references(&self, alloc: Global, cursor: &mut Cursor<'_>) -> Result<Got<TypeText>, Stop>
        requires nests { Nests plain-TypeText spec.typ self.now.below (F.pre self.now.typ) (F.post self.now.typ) }
        requires two { peek cursor.old ≡ symbol.AndAnd }
        ensures reads { ReadsAs (got_of plain-TypeText) (spec.two_references (spec.typ self.now.below) self.now.below cursor.old) result cursor.new }
        ensures low { IfOk result (λ x. x.height ≤ self.now.below + 1) }
    {
        if self.below < 1 {
            return Err(cursor.too_deep());
        }
        let start = cursor.halve();
        let target = self.read(alloc, cursor)?;
        Ok(reference_to(alloc, start.span, None, false, target)?)
    }

    /// What stands in parentheses.
    fn in_parentheses(&self, alloc: Global, cursor: &mut Cursor<'_>) -> Result<Got<TypeText>, Stop>
        requires { Nests plain-TypeText spec.typ self.now.below (F.pre self.now.typ) (F.post self.now.typ) }
        ensures reads { ReadsAs (got_of plain-TypeText) (lists.group (spec.typ self.now.below) (λ s l. plain.tuple_type s (types_of l)) cursor.old) result cursor.new }
        ensures low { IfOk result (λ x. x.height ≤ self.now.below + 1) }
    {
        match group(alloc, cursor, self)? {
            Grouped::Alone(first) => Ok(first),
            Grouped::Parts(items, span) => Ok(tuple_of(items, span)),
        }
    }

    /// A type of this level.
    fn level(&self, alloc: Global, cursor: &mut Cursor<'_>) -> Result<Got<TypeText>, Stop>
        requires { Nests plain-TypeText spec.typ self.now.below (F.pre self.now.typ) (F.post self.now.typ) }
        ensures reads { ReadsAs (got_of plain-TypeText) (spec.type_by (spec.typ self.now.below) self.now.below (peek cursor.old) cursor.old) result cursor.new }
        ensures low { IfOk result (λ x. x.height ≤ self.now.below + 1) }
    {
        match cursor.peek() {
            Symbol::Name => named_type(alloc, cursor),
            Symbol::Bool => {
                let token = cursor.expect(Symbol::Bool)?;
                Ok(bool_type(token))
            }
            Symbol::U8 => kind_type(cursor, Symbol::U8, Kind::U8),
            Symbol::U32 => kind_type(cursor, Symbol::U32, Kind::U32),
            Symbol::U64 => kind_type(cursor, Symbol::U64, Kind::U64),
            Symbol::I32 => kind_type(cursor, Symbol::I32, Kind::I32),
            Symbol::I64 => kind_type(cursor, Symbol::I64, Kind::I64),
            Symbol::Ampersand => self.reference(alloc, cursor),
            Symbol::AndAnd => self.two_references(alloc, cursor),
            Symbol::OpenParen => self.in_parentheses(alloc, cursor),
            _ => Err(cursor.refuse()),
        }
    }
}

/// A type of at most so many levels.
#[tactic(auto, unfolding(rx_parse_grammar::specs::parser::Types::typ))]
pub fn typ(alloc: Global, cursor: &mut Cursor<'_>, depth: usize) -> Result<Got<TypeText>, Stop>
    requires { depth ≤ 1024 }
    ensures reads { ReadsAs (got_of plain-TypeText) (spec.typ depth cursor.old) result cursor.new }
    ensures low { IfOk result (λ x. x.height ≤ depth) }
{
    if depth == 0 {
        if begins_type(cursor.peek()) {
            return Err(cursor.too_deep());
        }
        return Err(cursor.refuse());
    }
    let level = TypeLevel {
        below: depth - 1,
        typ,
    };
    level.level(alloc, cursor)
}
