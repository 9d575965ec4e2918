//! Fields, variants, parameters and results.

ghost use Rattle.std.specs.Prelude.{◌≤◌, Some, None, IfOk};
ghost use Rattle.rx_tree.specs.Plain as plain;
ghost use Rattle.rx_tree.specs.PlainOf.{plain-TypeText, plain-Field, plain-EnumVariant, plain-Param};
ghost use Rattle.rx_parse_grammar.specs.parser.Steps.{ReadsAs};
ghost use Rattle.rx_parse_grammar.specs.parser.Types as types;
ghost use Rattle.rx_parse_grammar.specs.parser.Items as spec;
ghost use Rattle.rx_parse_cursor.specs.GotOf.{got_of};
ghost use Rattle.rx_parse_items.specs.ItemsOf.{result_of};

use rx_core::{List, keep};
use rx_parse_cursor::{Cursor, Got, Reader, ident, join, some_elements};
use rx_parse_grammar::{Stop, Symbol};
use rx_parse_types::typ;
use rx_tree::{EnumVariant, Field, Param, TypeText};
use std::alloc::Global;

/// Reads types of at most so many levels.
#[derive(Clone, Copy)]
pub struct Types {
    pub depth: usize,
}

impl Reader for Types {
    type Item = TypeText;

    ghost Tree = { plain.TypeTree };

    ghost plain = { plain-TypeText };

    ghost ready = { λ s. s.depth ≤ 1024 };

    ghost most = { λ s. s.depth };

    ghost parser = { λ s. types.typ s.depth };

    fn read(&self, alloc: Global, cursor: &mut Cursor<'_>) -> Result<Got<TypeText>, Stop> {
        typ(alloc, cursor, self.depth)
    }
}

/// A name with its type.
#[tactic(auto, unfolding(rx_parse_grammar::specs::parser::Items::struct_field))]
fn struct_field(alloc: Global, cursor: &mut Cursor<'_>, depth: usize) -> Result<Got<Field>, Stop>
    requires { depth ≤ 1024 }
    ensures reads { ReadsAs (got_of plain-Field) (spec.struct_field depth cursor.old) result cursor.new }
    ensures low { IfOk result (λ x. x.height ≤ depth) }
{
    let token = cursor.expect(Symbol::Name)?;
    cursor.expect(Symbol::Colon)?;
    let read = typ(alloc, cursor, depth)?;
    let (name, read) = keep(read, ident(alloc, token))?;
    Ok(Got {
        tree: Field {
            name,
            typ: read.tree,
        },
        height: read.height,
        span: join(token.span, read.span),
    })
}

/// Reads the fields of a struct, whose types have at most so many levels.
#[derive(Clone, Copy)]
pub struct Fields {
    pub depth: usize,
}

impl Reader for Fields {
    type Item = Field;

    ghost Tree = { plain.FieldOf };

    ghost plain = { plain-Field };

    ghost ready = { λ s. s.depth ≤ 1024 };

    ghost most = { λ s. s.depth };

    ghost parser = { λ s. spec.struct_field s.depth };

    fn read(&self, alloc: Global, cursor: &mut Cursor<'_>) -> Result<Got<Field>, Stop> {
        struct_field(alloc, cursor, self.depth)
    }
}

/// A variant of an enum, with the types of its parts where parentheses are written.
#[tactic(auto, unfolding(rx_parse_grammar::specs::parser::Items::variant))]
fn variant(alloc: Global, cursor: &mut Cursor<'_>, depth: usize) -> Result<Got<EnumVariant>, Stop>
    requires { depth ≤ 1024 }
    ensures reads { ReadsAs (got_of plain-EnumVariant) (spec.variant depth cursor.old) result cursor.new }
    ensures low { IfOk result (λ x. x.height ≤ depth) }
{
    let token = cursor.expect(Symbol::Name)?;
    if cursor.sees(Symbol::OpenParen) {
        cursor.expect(Symbol::OpenParen)?;
        let items = some_elements(alloc, cursor, &Types { depth }, Symbol::CloseParen)?;
        let (name, items) = keep(items, ident(alloc, token))?;
        return Ok(Got {
            tree: EnumVariant {
                name,
                types: items.list,
            },
            height: items.height,
            span: join(token.span, items.close),
        });
    }
    Ok(Got {
        tree: EnumVariant {
            name: ident(alloc, token)?,
            types: List::new(alloc),
        },
        height: 0,
        span: token.span,
    })
}

/// Reads the variants of an enum, whose types have at most so many levels.
#[derive(Clone, Copy)]
pub struct Variants {
    pub depth: usize,
}

impl Reader for Variants {
    type Item = EnumVariant;

    ghost Tree = { plain.VariantOf };

    ghost plain = { plain-EnumVariant };

    ghost ready = { λ s. s.depth ≤ 1024 };

    ghost most = { λ s. s.depth };

    ghost parser = { λ s. spec.variant s.depth };

    fn read(&self, alloc: Global, cursor: &mut Cursor<'_>) -> Result<Got<EnumVariant>, Stop> {
        variant(alloc, cursor, self.depth)
    }
}

/// A parameter of a function.
#[tactic(auto, unfolding(rx_parse_grammar::specs::parser::Items::parameter))]
fn parameter(alloc: Global, cursor: &mut Cursor<'_>, depth: usize) -> Result<Got<Param>, Stop>
    requires { depth ≤ 1024 }
    ensures reads { ReadsAs (got_of plain-Param) (spec.parameter depth cursor.old) result cursor.new }
    ensures low { IfOk result (λ x. x.height ≤ depth) }
{
    match cursor.peek() {
        Symbol::Mut => {
            let start = cursor.expect(Symbol::Mut)?;
            let field = struct_field(alloc, cursor, depth)?;
            Ok(Got {
                tree: Param {
                    name: field.tree.name,
                    mutable: true,
                    typ: field.tree.typ,
                },
                height: field.height,
                span: join(start.span, field.span),
            })
        }
        _ => {
            let field = struct_field(alloc, cursor, depth)?;
            Ok(Got {
                tree: Param {
                    name: field.tree.name,
                    mutable: false,
                    typ: field.tree.typ,
                },
                height: field.height,
                span: field.span,
            })
        }
    }
}

/// Reads the parameters of a function, whose types have at most so many levels.
#[derive(Clone, Copy)]
pub struct Parameters {
    pub depth: usize,
}

impl Reader for Parameters {
    type Item = Param;

    ghost Tree = { plain.Parameter };

    ghost plain = { plain-Param };

    ghost ready = { λ s. s.depth ≤ 1024 };

    ghost most = { λ s. s.depth };

    ghost parser = { λ s. spec.parameter s.depth };

    fn read(&self, alloc: Global, cursor: &mut Cursor<'_>) -> Result<Got<Param>, Stop> {
        parameter(alloc, cursor, self.depth)
    }
}

/// The type of a function's result with its levels, where one is written.
#[tactic(auto, unfolding(rx_parse_grammar::specs::parser::Items::result))]
pub fn result_type(
    alloc: Global,
    cursor: &mut Cursor<'_>,
    depth: usize,
) -> Result<(Option<TypeText>, usize), Stop>
    requires { depth ≤ 1024 }
    ensures { ReadsAs result_of (spec.result depth cursor.old) result cursor.new }
{
    if cursor.sees(Symbol::Arrow) {
        cursor.expect(Symbol::Arrow)?;
        let read = typ(alloc, cursor, depth)?;
        return Ok((Some(read.tree), read.height));
    }
    Ok((None, 0))
}
