//! Patterns. They nest no deeper than the levels that are left.

ghost use Rattle.std.specs.Prelude.{◌≡◌, ◌≤◌, ◌<◌, ◌+◌, true, false, map, IfOk};
ghost use Rattle.rx_tree.specs.declared.tree.Ident as ident_tree;
ghost use Rattle.rx_tree.specs.Plain as plain;
ghost use Rattle.rx_tree.specs.PlainOf.{plain-Pattern, plain-FieldPattern, patterns_of, field_patterns_of};
ghost use Rattle.rx_lex.specs.Tok.{tok};
ghost use Rattle.rx_parse_grammar.specs.grammar.Words as words;
ghost use Rattle.rx_parse_grammar.specs.declared.symbol.Symbol.TheVariants as symbol;
ghost use Rattle.rx_parse_grammar.specs.parser.Symbols.{peek};
ghost use Rattle.rx_parse_grammar.specs.parser.Steps.{ReadsAs, leaf, node};
ghost use Rattle.rx_parse_grammar.specs.parser.Lists as lists;
ghost use Rattle.rx_parse_grammar.specs.parser.Patterns as spec;
ghost use Rattle.rx_parse_cursor.specs.GotOf.{got_of, items_of, numbered_of};
ghost use Rattle.rx_parse_types.specs.Nests.{Nests};

use rx_core::{List, Span, keep};
use rx_lex::Token;
use rx_parse_cursor::{
    Cursor, Found, Got, Grouped, Items, Numbered, Reader, elements, group, ident, join, number,
    some_elements,
};
use rx_parse_grammar::{Stop, Symbol};
use rx_tree::{FieldPattern, Ident, Pattern, PatternNode};
use std::alloc::{AllocError, Global};

pub fn begins_pattern(symbol: Symbol) -> bool
    ensures { result ≡ spec.begins_pattern symbol }
{
    match symbol {
        Symbol::Name
        | Symbol::Number
        | Symbol::Mut
        | Symbol::True
        | Symbol::False
        | Symbol::Underscore
        | Symbol::Minus
        | Symbol::OpenParen => true,
        _ => false,
    }
}

/// A name as a pattern.
#[tactic(auto, using(rx_tree::proofs::Rules::pattern_rules))]
fn binding(
    alloc: Global,
    span: Span,
    token: Token<'_>,
    mutable: bool,
) -> Result<Got<Pattern>, AllocError>
    ensures tree { IfOk result (λ x. got_of plain-Pattern x ≡ leaf (λ s. plain.bind s (words.ident (tok token.entry)) mutable) span) }
    ensures low { IfOk result (λ x. x.height ≤ 1) }
{
    let node = PatternNode::Bind(ident(alloc, token)?, mutable);
    Ok(Got {
        tree: Pattern { span, node },
        height: 1,
        span,
    })
}

/// A number as a pattern.
#[tactic(auto, using(rx_tree::proofs::Rules::pattern_rules))]
fn int_pattern(span: Span, negative: bool, number: Numbered) -> Got<Pattern>
    ensures tree { got_of plain-Pattern result ≡ leaf (λ s. plain.int_pattern s negative number.value number.suffix) span }
    ensures low { result.height ≤ 1 }
{
    let node = PatternNode::Int(negative, number.value, number.suffix);
    Got {
        tree: Pattern { span, node },
        height: 1,
        span,
    }
}

#[tactic(auto, using(rx_tree::proofs::Rules::pattern_rules))]
fn bool_pattern(span: Span, value: bool) -> Got<Pattern>
    ensures tree { got_of plain-Pattern result ≡ leaf (λ s. plain.bool_pattern s value) span }
    ensures low { result.height ≤ 1 }
{
    let node = PatternNode::Bool(value);
    Got {
        tree: Pattern { span, node },
        height: 1,
        span,
    }
}

#[tactic(auto, using(rx_tree::proofs::Rules::pattern_rules))]
fn wild_pattern(span: Span) -> Got<Pattern>
    ensures tree { got_of plain-Pattern result ≡ leaf plain.wild span }
    ensures low { result.height ≤ 1 }
{
    Got {
        tree: Pattern {
            span,
            node: PatternNode::Wild,
        },
        height: 1,
        span,
    }
}

/// A tuple, by its parts.
#[tactic(auto, using(rx_tree::proofs::Rules::pattern_rules))]
fn tuple_of(items: Items<Pattern>, span: Span) -> Got<Pattern>
    requires { items.height ≤ 1024 }
    ensures tree { got_of plain-Pattern result ≡ node (λ s. plain.tuple_pattern s (patterns_of (map plain-Pattern items.list))) span items.height }
    ensures low { result.height ≤ items.height + 1 }
{
    Got {
        tree: Pattern {
            span,
            node: PatternNode::Tuple(items.list),
        },
        height: items.height + 1,
        span,
    }
}

/// The name of an enum, and that of its variant.
fn path(alloc: Global, name: Token<'_>, variant: Token<'_>) -> Result<(Ident, Ident), AllocError>
    ensures { IfOk result (λ x. (x.0 ≡ words.ident (tok name.entry)) × (x.1 ≡ words.ident (tok variant.entry))) }
{
    let first = ident(alloc, name)?;
    let (second, first) = keep(first, ident(alloc, variant))?;
    Ok((first, second))
}

/// A variant with parts, by the names of the enum and the variant.
#[tactic(auto, using(rx_tree::proofs::Rules::pattern_rules))]
fn variant_of(
    alloc: Global,
    name: Token<'_>,
    variant: Token<'_>,
    items: Items<Pattern>,
) -> Result<Got<Pattern>, AllocError>
    requires { items.height ≤ 1024 }
    ensures tree { IfOk result (λ x. got_of plain-Pattern x ≡ node (λ s. plain.variant_pattern s (words.ident (tok name.entry)) (words.ident (tok variant.entry)) (patterns_of (map plain-Pattern items.list))) (words.join name.entry.span items.close) items.height) }
    ensures low { IfOk result (λ x. x.height ≤ items.height + 1) }
{
    let span = join(name.span, items.close);
    let (names, items) = keep(items, path(alloc, name, variant))?;
    let node = PatternNode::Variant(names.0, names.1, items.list);
    Ok(Got {
        tree: Pattern { span, node },
        height: items.height + 1,
        span,
    })
}

/// A variant without parts.
#[tactic(auto, using(rx_tree::proofs::Rules::pattern_rules))]
fn bare_variant(
    alloc: Global,
    name: Token<'_>,
    variant: Token<'_>,
) -> Result<Got<Pattern>, AllocError>
    ensures tree { IfOk result (λ x. got_of plain-Pattern x ≡ leaf (λ s. plain.variant_pattern s (words.ident (tok name.entry)) (words.ident (tok variant.entry)) plain.no_pattern) (words.join name.entry.span variant.entry.span)) }
    ensures low { IfOk result (λ x. x.height ≤ 1) }
{
    let span = join(name.span, variant.span);
    let names = path(alloc, name, variant)?;
    let node = PatternNode::Variant(names.0, names.1, List::new(alloc));
    Ok(Got {
        tree: Pattern { span, node },
        height: 1,
        span,
    })
}

/// A struct, by its name and its fields.
#[tactic(auto, using(rx_tree::proofs::Rules::pattern_rules))]
fn struct_of(
    alloc: Global,
    name: Token<'_>,
    items: Items<FieldPattern>,
) -> Result<Got<Pattern>, AllocError>
    requires { items.height ≤ 1024 }
    ensures tree { IfOk result (λ x. got_of plain-Pattern x ≡ node (λ s. plain.make_pattern s (words.ident (tok name.entry)) (field_patterns_of (map plain-FieldPattern items.list))) (words.join name.entry.span items.close) items.height) }
    ensures low { IfOk result (λ x. x.height ≤ items.height + 1) }
{
    let span = join(name.span, items.close);
    let (name, items) = keep(items, ident(alloc, name))?;
    let node = PatternNode::Make(name, items.list);
    Ok(Got {
        tree: Pattern { span, node },
        height: items.height + 1,
        span,
    })
}

/// A field with its pattern behind a colon.
#[tactic(auto, using(rx_tree::proofs::Rules::pattern_rules))]
fn field_of(
    alloc: Global,
    name: Token<'_>,
    pattern: Got<Pattern>,
) -> Result<Got<FieldPattern>, AllocError>
    ensures tree { IfOk result (λ x. got_of plain-FieldPattern x ≡ record { tree = (words.ident (tok name.entry), plain-Pattern pattern.tree); height = pattern.height; span = words.join name.entry.span pattern.span }) }
    ensures low { IfOk result (λ x. x.height ≤ pattern.height) }
{
    let span = join(name.span, pattern.span);
    let (field, pattern) = keep(pattern, ident(alloc, name))?;
    Ok(Got {
        tree: FieldPattern {
            field,
            pattern: pattern.tree,
        },
        height: pattern.height,
        span,
    })
}

/// A field that is bound to a variable of its name.
#[tactic(auto, using(rx_tree::proofs::Rules::pattern_rules))]
fn bound_field(
    alloc: Global,
    span: Span,
    name: Token<'_>,
    mutable: bool,
) -> Result<Got<FieldPattern>, AllocError>
    ensures tree { IfOk result (λ x. got_of plain-FieldPattern x ≡ leaf (λ s. (words.ident (tok name.entry), plain.bind s (words.ident (tok name.entry)) mutable)) span) }
    ensures low { IfOk result (λ x. x.height ≤ 1) }
{
    let field = ident(alloc, name)?;
    let (bound, field) = keep(field, binding(alloc, span, name, mutable))?;
    Ok(Got {
        tree: FieldPattern {
            field,
            pattern: bound.tree,
        },
        height: 1,
        span,
    })
}

#[tactic(auto, unfolding(rx_parse_grammar::specs::parser::Patterns::mutable_binding))]
fn mutable_binding(alloc: Global, cursor: &mut Cursor<'_>) -> Result<Got<Pattern>, Stop>
    ensures reads { ReadsAs (got_of plain-Pattern) (spec.mutable_binding cursor.old) result cursor.new }
    ensures low { IfOk result (λ x. x.height ≤ 1) }
{
    let start = cursor.expect(Symbol::Mut)?;
    let name = cursor.expect(Symbol::Name)?;
    Ok(binding(alloc, join(start.span, name.span), name, true)?)
}

#[tactic(auto, unfolding(rx_parse_grammar::specs::parser::Patterns::number_pattern))]
fn number_pattern(cursor: &mut Cursor<'_>) -> Result<Got<Pattern>, Stop>
    ensures reads { ReadsAs (got_of plain-Pattern) (spec.number_pattern cursor.old) result cursor.new }
    ensures low { IfOk result (λ x. x.height ≤ 1) }
{
    let value = number(cursor)?;
    Ok(int_pattern(value.span, false, value))
}

#[tactic(auto, unfolding(rx_parse_grammar::specs::parser::Patterns::negative_pattern))]
fn negative_pattern(cursor: &mut Cursor<'_>) -> Result<Got<Pattern>, Stop>
    ensures reads { ReadsAs (got_of plain-Pattern) (spec.negative_pattern cursor.old) result cursor.new }
    ensures low { IfOk result (λ x. x.height ≤ 1) }
{
    let start = cursor.expect(Symbol::Minus)?;
    let value = number(cursor)?;
    Ok(int_pattern(join(start.span, value.span), true, value))
}

/// A field that is bound to a mutable variable.
#[tactic(auto, unfolding(rx_parse_grammar::specs::parser::Patterns::short_field))]
fn short_field(
    alloc: Global,
    cursor: &mut Cursor<'_>,
    below: usize,
) -> Result<Got<FieldPattern>, Stop>
    ensures reads { ReadsAs (got_of plain-FieldPattern) (spec.short_field (spec.pattern below) below cursor.old) result cursor.new }
    ensures low { IfOk result (λ x. x.height ≤ 1) }
{
    let start = cursor.expect(Symbol::Mut)?;
    let name = cursor.expect(Symbol::Name)?;
    Ok(bound_field(alloc, join(start.span, name.span), name, true)?)
}

/// A level, below which so many levels of patterns may stand.
#[derive(Clone, Copy)]
pub struct PatternLevel<F> {
    below: usize,
    /// The parser of patterns one level deeper.
    pattern: F,
}

impl<F: Fn(Global, &mut Cursor<'_>, usize) -> Result<Got<Pattern>, Stop>> Reader
    for PatternLevel<F> {
    type Item = Pattern;

    ghost Tree = { plain.PatternTree };

    ghost plain = { plain-Pattern };

    ghost ready = { λ s. Nests plain-Pattern spec.pattern s.below (F.pre s.pattern) (F.post s.pattern) };

    ghost most = { λ s. s.below };

    ghost parser = { λ s. spec.pattern s.below };

    fn read(&self, alloc: Global, cursor: &mut Cursor<'_>) -> Result<Got<Pattern>, Stop> {
        (self.pattern)(alloc, cursor, self.below)
    }
}

/// Reads the fields of a struct at a level.
#[derive(Clone, Copy)]
pub struct FieldPatterns<F> {
    level: PatternLevel<F>,
}

impl<F: Fn(Global, &mut Cursor<'_>, usize) -> Result<Got<Pattern>, Stop>> Reader
    for FieldPatterns<F> {
    type Item = FieldPattern;

    ghost Tree = { ident_tree.Ident × plain.PatternTree };

    ghost plain = { plain-FieldPattern };

    ghost ready = { λ s. Nests plain-Pattern spec.pattern s.level.below (F.pre s.level.pattern) (F.post s.level.pattern) };

    ghost most = { λ s. s.level.below };

    ghost parser = { λ s. spec.field_pattern (spec.pattern s.level.below) s.level.below };

    fn read(&self, alloc: Global, cursor: &mut Cursor<'_>) -> Result<Got<FieldPattern>, Stop> {
        self.level.field_pattern(alloc, cursor)
    }
}

impl<F: Fn(Global, &mut Cursor<'_>, usize) -> Result<Got<Pattern>, Stop>> PatternLevel<F> {
    /// A field, from its name on.
    #[tactic(auto, unfolding(rx_parse_grammar::specs::parser::Patterns::long_field))]
    fn long_field(&self, alloc: Global, cursor: &mut Cursor<'_>) -> Result<Got<FieldPattern>, Stop>
        requires some { 0 < self.now.below }
        requires nests { Nests plain-Pattern spec.pattern self.now.below (F.pre self.now.pattern) (F.post self.now.pattern) }
        ensures reads { ReadsAs (got_of plain-FieldPattern) (spec.long_field (spec.pattern self.now.below) self.now.below cursor.old) result cursor.new }
        ensures low { IfOk result (λ x. x.height ≤ self.now.below) }
    {
        let name = cursor.expect(Symbol::Name)?;
        if cursor.sees(Symbol::Colon) {
            cursor.expect(Symbol::Colon)?;
            let inner = self.read(alloc, cursor)?;
            return Ok(field_of(alloc, name, inner)?);
        }
        Ok(bound_field(alloc, name.span, name, false)?)
    }

    /// A field with its pattern.
    #[tactic(auto, unfolding(rx_parse_grammar::specs::parser::Patterns::field_pattern))]
    fn field_pattern(
        &self,
        alloc: Global,
        cursor: &mut Cursor<'_>,
    ) -> Result<Got<FieldPattern>, Stop>
        requires { Nests plain-Pattern spec.pattern self.now.below (F.pre self.now.pattern) (F.post self.now.pattern) }
        ensures reads { ReadsAs (got_of plain-FieldPattern) (spec.field_pattern (spec.pattern self.now.below) self.now.below cursor.old) result cursor.new }
        ensures low { IfOk result (λ x. x.height ≤ self.now.below) }
    {
        match cursor.peek() {
            Symbol::Name => {
                if self.below < 1 {
                    return Err(cursor.too_deep());
                }
                self.long_field(alloc, cursor)
            }
            Symbol::Mut => {
                if self.below < 1 {
                    return Err(cursor.too_deep());
                }
                short_field(alloc, cursor, self.below)
            }
            _ => Err(cursor.refuse()),
        }
    }

    /// A variant, from behind the name of its enum.
    #[tactic(auto, unfolding(rx_parse_grammar::specs::parser::Patterns::variant_pattern))]
    fn variant_pattern(
        &self,
        alloc: Global,
        cursor: &mut Cursor<'_>,
        name: Token<'_>,
    ) -> Result<Got<Pattern>, Stop>
        requires { Nests plain-Pattern spec.pattern self.now.below (F.pre self.now.pattern) (F.post self.now.pattern) }
        ensures reads { ReadsAs (got_of plain-Pattern) (spec.variant_pattern (spec.pattern self.now.below) self.now.below (tok name.entry) cursor.old) result cursor.new }
        ensures low { IfOk result (λ x. x.height ≤ self.now.below + 1) }
    {
        cursor.expect(Symbol::ColonColon)?;
        let variant = cursor.expect(Symbol::Name)?;
        if cursor.sees(Symbol::OpenParen) {
            if self.below < 1 {
                return Err(cursor.too_deep());
            }
            cursor.expect(Symbol::OpenParen)?;
            let items = some_elements(alloc, cursor, self, Symbol::CloseParen)?;
            return Ok(variant_of(alloc, name, variant, items)?);
        }
        Ok(bare_variant(alloc, name, variant)?)
    }

    /// What stands in parentheses.
    fn in_parentheses(&self, alloc: Global, cursor: &mut Cursor<'_>) -> Result<Got<Pattern>, Stop>
        requires { Nests plain-Pattern spec.pattern self.now.below (F.pre self.now.pattern) (F.post self.now.pattern) }
        ensures reads { ReadsAs (got_of plain-Pattern) (lists.group (spec.pattern self.now.below) (λ s l. plain.tuple_pattern s (patterns_of l)) cursor.old) result cursor.new }
        ensures low { IfOk result (λ x. x.height ≤ self.now.below + 1) }
    {
        match group(alloc, cursor, self)? {
            Grouped::Alone(first) => Ok(first),
            Grouped::Parts(items, span) => Ok(tuple_of(items, span)),
        }
    }
}

impl<F: Fn(Global, &mut Cursor<'_>, usize) -> Result<Got<Pattern>, Stop> + Copy> PatternLevel<F> {
    /// A struct, from behind its name.
    #[tactic(auto, unfolding(rx_parse_grammar::specs::parser::Patterns::struct_pattern))]
    fn struct_pattern(
        &self,
        alloc: Global,
        cursor: &mut Cursor<'_>,
        name: Token<'_>,
    ) -> Result<Got<Pattern>, Stop>
        requires { Nests plain-Pattern spec.pattern self.now.below (F.pre self.now.pattern) (F.post self.now.pattern) }
        ensures reads { ReadsAs (got_of plain-Pattern) (spec.struct_pattern (spec.pattern self.now.below) self.now.below (tok name.entry) cursor.old) result cursor.new }
        ensures low { IfOk result (λ x. x.height ≤ self.now.below + 1) }
    {
        cursor.expect(Symbol::OpenBrace)?;
        let fields = FieldPatterns { level: *self };
        let items = elements(
            alloc,
            cursor,
            &fields,
            Symbol::CloseBrace,
            Found::new(alloc),
        )?;
        Ok(struct_of(alloc, name, items)?)
    }

    /// A pattern that begins with a name.
    #[tactic(auto, unfolding(rx_parse_grammar::specs::parser::Patterns::named_pattern))]
    fn named_pattern(&self, alloc: Global, cursor: &mut Cursor<'_>) -> Result<Got<Pattern>, Stop>
        requires { Nests plain-Pattern spec.pattern self.now.below (F.pre self.now.pattern) (F.post self.now.pattern) }
        ensures reads { ReadsAs (got_of plain-Pattern) (spec.named_pattern (spec.pattern self.now.below) self.now.below cursor.old) result cursor.new }
        ensures low { IfOk result (λ x. x.height ≤ self.now.below + 1) }
    {
        let token = cursor.expect(Symbol::Name)?;
        match cursor.peek() {
            Symbol::ColonColon => self.variant_pattern(alloc, cursor, token),
            Symbol::OpenBrace => self.struct_pattern(alloc, cursor, token),
            _ => Ok(binding(alloc, token.span, token, false)?),
        }
    }

    /// A pattern of this level.
    fn level(&self, alloc: Global, cursor: &mut Cursor<'_>) -> Result<Got<Pattern>, Stop>
        requires { Nests plain-Pattern spec.pattern self.now.below (F.pre self.now.pattern) (F.post self.now.pattern) }
        ensures reads { ReadsAs (got_of plain-Pattern) (spec.pattern_by (spec.pattern self.now.below) self.now.below (peek cursor.old) cursor.old) result cursor.new }
        ensures low { IfOk result (λ x. x.height ≤ self.now.below + 1) }
    {
        match cursor.peek() {
            Symbol::Name => self.named_pattern(alloc, cursor),
            Symbol::Number => number_pattern(cursor),
            Symbol::Mut => mutable_binding(alloc, cursor),
            Symbol::True => {
                let token = cursor.expect(Symbol::True)?;
                Ok(bool_pattern(token.span, true))
            }
            Symbol::False => {
                let token = cursor.expect(Symbol::False)?;
                Ok(bool_pattern(token.span, false))
            }
            Symbol::Underscore => {
                let token = cursor.expect(Symbol::Underscore)?;
                Ok(wild_pattern(token.span))
            }
            Symbol::Minus => negative_pattern(cursor),
            Symbol::OpenParen => self.in_parentheses(alloc, cursor),
            _ => Err(cursor.refuse()),
        }
    }
}

/// A pattern of at most so many levels.
#[tactic(auto, unfolding(rx_parse_grammar::specs::parser::Patterns::pattern))]
pub fn pattern(alloc: Global, cursor: &mut Cursor<'_>, depth: usize) -> Result<Got<Pattern>, Stop>
    requires { depth ≤ 1024 }
    ensures reads { ReadsAs (got_of plain-Pattern) (spec.pattern depth cursor.old) result cursor.new }
    ensures low { IfOk result (λ x. x.height ≤ depth) }
{
    if depth == 0 {
        if begins_pattern(cursor.peek()) {
            return Err(cursor.too_deep());
        }
        return Err(cursor.refuse());
    }
    let level = PatternLevel {
        below: depth - 1,
        pattern,
    };
    level.level(alloc, cursor)
}
