//! Items and files.

ghost use Rattle.std.specs.Prelude.{◌≡◌, ℕ, ◌≤◌, map, option_map};
ghost use Rattle.rx_tree.specs.PlainOf.{plain-Item};
ghost use Rattle.rx_lex.specs.Tok.{tok};
ghost use Rattle.rx_parse_grammar.specs.parser.Steps.{ReadsAs};
ghost use Rattle.rx_parse_grammar.specs.parser.Items as spec;
ghost use Rattle.rx_parse_cursor.specs.GotOf.{got_of};
ghost use Rattle.rx_parse_cursor.specs.Elements.{another};
ghost use Rattle.rx_parse_items.specs.ItemsOf.{file_of};

use crate::derives::derives;
use crate::fields::{Fields, Parameters, Variants, result_type};
use crate::lifetimes::{bound_lifetimes, lifetimes};
use rx_core::{LetGo, List, Span, keep};
use rx_lex::Token;
use rx_parse_cursor::{Cursor, Found, Got, elements, ident, join, larger, some_elements};
use rx_parse_expressions::block;
use rx_parse_grammar::{Stop, Symbol};
use rx_tree::{Derive, Enum, Func, Item, ItemNode, Struct};
use std::alloc::Global;

/// Where an item begins: at its derives, if it has any.
fn start_of(mark: Option<Token<'_>>, token: Token<'_>) -> Span
    ensures { (d : ℕ) → result ≡ spec.start_of d (option_map tok mark.entry) (tok token.entry) }
{
    match mark {
        Some(first) => first.span,
        None => token.span,
    }
}

/// A struct, behind its derives.
#[tactic(auto, unfolding(rx_parse_grammar::specs::parser::Items::structure))]
fn structure(
    alloc: Global,
    cursor: &mut Cursor<'_>,
    depth: usize,
    mark: Option<Token<'_>>,
    derives: List<Derive>,
) -> Result<Got<Item>, Stop>
    requires { depth ≤ 1024 }
    ensures { ReadsAs (got_of plain-Item) (spec.structure depth (option_map tok mark.entry) derives cursor.old) result cursor.new }
{
    let (token, derives) = keep(derives, cursor.expect(Symbol::Struct))?;
    let (name_token, derives) = keep(derives, cursor.expect(Symbol::Name))?;
    let (lifetimes, derives) = keep(derives, lifetimes(alloc, cursor))?;
    let (_, held) = keep((derives, lifetimes), cursor.expect(Symbol::OpenBrace))?;
    let (fields, held) = keep(
        held,
        elements(
            alloc,
            cursor,
            &Fields { depth },
            Symbol::CloseBrace,
            Found::new(alloc),
        ),
    )?;
    let (name, (fields, held)) = keep((fields, held), ident(alloc, name_token))?;
    let (derives, lifetimes) = held;
    let span = join(start_of(mark, token), fields.close);
    let node = ItemNode::Struct(Struct {
        name,
        derives,
        lifetimes,
        fields: fields.list,
    });
    Ok(Got {
        tree: Item { span, node },
        height: fields.height,
        span,
    })
}

/// An enum, behind its derives.
#[tactic(auto, unfolding(rx_parse_grammar::specs::parser::Items::enumeration))]
fn enumeration(
    alloc: Global,
    cursor: &mut Cursor<'_>,
    depth: usize,
    mark: Option<Token<'_>>,
    derives: List<Derive>,
) -> Result<Got<Item>, Stop>
    requires { depth ≤ 1024 }
    ensures { ReadsAs (got_of plain-Item) (spec.enumeration depth (option_map tok mark.entry) derives cursor.old) result cursor.new }
{
    let (token, derives) = keep(derives, cursor.expect(Symbol::Enum))?;
    let (name_token, derives) = keep(derives, cursor.expect(Symbol::Name))?;
    let (lifetimes, derives) = keep(derives, lifetimes(alloc, cursor))?;
    let (_, held) = keep((derives, lifetimes), cursor.expect(Symbol::OpenBrace))?;
    let (variants, held) = keep(
        held,
        some_elements(alloc, cursor, &Variants { depth }, Symbol::CloseBrace),
    )?;
    let (name, (variants, held)) = keep((variants, held), ident(alloc, name_token))?;
    let (derives, lifetimes) = held;
    let span = join(start_of(mark, token), variants.close);
    let node = ItemNode::Enum(Enum {
        name,
        derives,
        lifetimes,
        variants: variants.list,
    });
    Ok(Got {
        tree: Item { span, node },
        height: variants.height,
        span,
    })
}

/// A struct or an enum, from its derives on.
#[tactic(auto, unfolding(rx_parse_grammar::specs::parser::Items::derived))]
fn derived(alloc: Global, cursor: &mut Cursor<'_>, depth: usize) -> Result<Got<Item>, Stop>
    requires { depth ≤ 1024 }
    ensures { ReadsAs (got_of plain-Item) (spec.derived depth cursor.old) result cursor.new }
{
    let mark = cursor.expect(Symbol::Hash)?;
    let derives = derives(alloc, cursor)?;
    match cursor.peek() {
        Symbol::Struct => structure(alloc, cursor, depth, Some(mark), derives),
        Symbol::Enum => enumeration(alloc, cursor, depth, Some(mark), derives),
        _ => Err(cursor.refuse()),
    }
}

/// A function.
#[tactic(auto, unfolding(rx_parse_grammar::specs::parser::Items::function))]
fn function(alloc: Global, cursor: &mut Cursor<'_>, depth: usize) -> Result<Got<Item>, Stop>
    requires { depth ≤ 1024 }
    ensures { ReadsAs (got_of plain-Item) (spec.function depth cursor.old) result cursor.new }
{
    let token = cursor.expect(Symbol::Fn)?;
    let name_token = cursor.expect(Symbol::Name)?;
    let lifetimes = bound_lifetimes(alloc, cursor)?;
    let (_, lifetimes) = keep(lifetimes, cursor.expect(Symbol::OpenParen))?;
    let (params, lifetimes) = keep(
        lifetimes,
        elements(
            alloc,
            cursor,
            &Parameters { depth },
            Symbol::CloseParen,
            Found::new(alloc),
        ),
    )?;
    let ((result, levels), held) = keep((lifetimes, params), result_type(alloc, cursor, depth))?;
    let (body, (result, held)) = keep((result, held), block(alloc, cursor, depth))?;
    let (name, (body, (result, held))) = keep((body, (result, held)), ident(alloc, name_token))?;
    let (lifetimes, params) = held;
    let span = join(token.span, body.span);
    let node = ItemNode::Func(Func {
        name,
        lifetimes,
        params: params.list,
        result,
        body: body.tree,
    });
    Ok(Got {
        tree: Item { span, node },
        height: larger(params.height, larger(levels, body.height)),
        span,
    })
}

/// `mod rt;`
#[tactic(auto, unfolding(rx_parse_grammar::specs::parser::Items::rt))]
fn rt_module(cursor: &mut Cursor<'_>) -> Result<Got<Item>, Stop>
    ensures { (d : ℕ) → ReadsAs (got_of plain-Item) (spec.rt d cursor.old) result cursor.new }
{
    let token = cursor.expect(Symbol::Mod)?;
    let word = cursor.expect_word("rt")?;
    let close = cursor.expect(Symbol::Semicolon)?;
    let span = join(token.span, close.span);
    Ok(Got {
        tree: Item {
            span,
            node: ItemNode::Rt(word.span),
        },
        height: 0,
        span,
    })
}

/// An item.
#[tactic(auto, unfolding(rx_parse_grammar::specs::parser::Items::item))]
fn item(alloc: Global, cursor: &mut Cursor<'_>, depth: usize) -> Result<Got<Item>, Stop>
    requires { depth ≤ 1024 }
    ensures { ReadsAs (got_of plain-Item) (spec.item depth cursor.old) result cursor.new }
{
    match cursor.peek() {
        Symbol::Mod => rt_module(cursor),
        Symbol::Hash => derived(alloc, cursor, depth),
        Symbol::Struct => structure(alloc, cursor, depth, None, List::new(alloc)),
        Symbol::Enum => enumeration(alloc, cursor, depth, None, List::new(alloc)),
        Symbol::Fn => function(alloc, cursor, depth),
        _ => Err(cursor.refuse()),
    }
}

/// One more item, behind those that were found.
fn with_item(
    alloc: Global,
    cursor: &mut Cursor<'_>,
    depth: usize,
    found: Found<Item>,
) -> Result<Found<Item>, Stop>
    requires { depth ≤ 1024 }
    ensures { ReadsAs file_of (another (spec.item depth) (map plain-Item found.list) found.height cursor.old) result cursor.new }
{
    let (next, found) = keep(found, item(alloc, cursor, depth))?;
    Ok(found.with(next)?)
}

/// The items of a whole list of tokens, of at most so many levels.
pub fn file(alloc: Global, cursor: &mut Cursor<'_>, depth: usize) -> Result<Found<Item>, Stop>
    requires { depth ≤ 1024 }
    ensures { ReadsAs file_of (spec.file depth cursor.old) result cursor.new }
{
    let mut found = Found::new(alloc);
    for _turn in 0..cursor.left() {
        if cursor.sees(Symbol::End) {
            return Ok(found);
        }
        found = with_item(alloc, cursor, depth, found)?;
    }
    if cursor.sees(Symbol::End) {
        return Ok(found);
    }
    found.let_go();
    Err(cursor.refuse())
}
