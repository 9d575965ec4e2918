//! Parameters that are lifetimes.

ghost use Rattle.std.specs.Prelude.{◌≤◌, IfOk};
ghost use Rattle.rx_tree.specs.declared.tree.Ident as ident_tree;
ghost use Rattle.rx_tree.specs.declared.tree.BoundLifetime as bound_tree;
ghost use Rattle.rx_parse_grammar.specs.parser.Steps.{ReadsAs};
ghost use Rattle.rx_parse_grammar.specs.parser.Items as spec;
ghost use Rattle.rx_parse_cursor.specs.GotOf.{got_of};
ghost use Rattle.rx_parse_items.specs.ItemsOf.{another_bound};

use rx_core::{LetGo, List, Span, keep, pushed};
use rx_parse_cursor::{Cursor, Got, Reader, ident, join, some_elements};
use rx_parse_grammar::{Stop, Symbol};
use rx_tree::{BoundLifetime, Ident};
use std::alloc::Global;

/// A lifetime alone, as structs and enums have it.
#[tactic(auto, unfolding(rx_parse_grammar::specs::parser::Items::lifetime_parameter))]
fn lifetime_parameter(alloc: Global, cursor: &mut Cursor<'_>) -> Result<Got<Ident>, Stop>
    ensures reads { ReadsAs (got_of (λ x. x)) (spec.lifetime_parameter cursor.old) result cursor.new }
    ensures low { IfOk result (λ x. x.height ≤ 0) }
{
    let token = cursor.expect(Symbol::Lifetime)?;
    Ok(Got {
        tree: ident(alloc, token)?,
        height: 0,
        span: token.span,
    })
}

/// Reads the lifetimes of a struct or an enum.
#[derive(Clone, Copy)]
struct LifetimeParameters;

impl Reader for LifetimeParameters {
    type Item = Ident;

    ghost Tree = { ident_tree.Ident };

    ghost plain = { λ x. x };

    ghost ready = { λ s. 0 ≤ 0 };

    ghost most = { λ s. 0 };

    ghost parser = { λ s. spec.lifetime_parameter };

    fn read(&self, alloc: Global, cursor: &mut Cursor<'_>) -> Result<Got<Ident>, Stop> {
        lifetime_parameter(alloc, cursor)
    }
}

/// The lifetimes of a struct or an enum, in `<` and `>`, or nothing.
#[tactic(auto, using(rx_parse_types::proofs::Rules::list_rules), unfolding(rx_parse_grammar::specs::parser::Items::lifetimes))]
pub fn lifetimes(alloc: Global, cursor: &mut Cursor<'_>) -> Result<List<Ident>, Stop>
    ensures { ReadsAs (λ l. l) (spec.lifetimes cursor.old) result cursor.new }
{
    if cursor.sees(Symbol::Less) {
        cursor.expect(Symbol::Less)?;
        let items = some_elements(alloc, cursor, &LifetimeParameters, Symbol::Greater)?;
        return Ok(items.list);
    }
    Ok(List::new(alloc))
}

/// One more lifetime behind those that were found, and where it stands.
fn with_bound(
    alloc: Global,
    cursor: &mut Cursor<'_>,
    found: List<Ident>,
) -> Result<(List<Ident>, Span), Stop>
    ensures { ReadsAs (λ l. l) (another_bound found cursor.old) result cursor.new }
{
    let (token, found) = keep(found, cursor.expect(Symbol::Lifetime))?;
    let (name, found) = keep(found, ident(alloc, token))?;
    Ok((pushed(found, name)?, token.span))
}

/// The lifetimes that one is declared to outlive, and where the last stands.
fn bounds(alloc: Global, cursor: &mut Cursor<'_>) -> Result<(List<Ident>, Span), Stop>
    ensures { ReadsAs (λ l. l) (spec.bounds cursor.old) result cursor.new }
{
    let mut found = List::new(alloc);
    for _turn in 0..cursor.left() {
        let (all, last) = with_bound(alloc, cursor, found)?;
        if !cursor.sees(Symbol::Plus) {
            return Ok((all, last));
        }
        cursor.take();
        found = all;
    }
    found.let_go();
    Err(cursor.refuse())
}

/// A lifetime, with its bounds where they are written.
#[tactic(auto, unfolding(rx_parse_grammar::specs::parser::Items::bound_lifetime))]
fn bound_lifetime(alloc: Global, cursor: &mut Cursor<'_>) -> Result<Got<BoundLifetime>, Stop>
    ensures reads { ReadsAs (got_of (λ x. x)) (spec.bound_lifetime cursor.old) result cursor.new }
    ensures low { IfOk result (λ x. x.height ≤ 0) }
{
    let token = cursor.expect(Symbol::Lifetime)?;
    if cursor.sees(Symbol::Colon) {
        cursor.expect(Symbol::Colon)?;
        let (bounds, last) = bounds(alloc, cursor)?;
        let (name, bounds) = keep(bounds, ident(alloc, token))?;
        return Ok(Got {
            tree: BoundLifetime { name, bounds },
            height: 0,
            span: join(token.span, last),
        });
    }
    Ok(Got {
        tree: BoundLifetime {
            name: ident(alloc, token)?,
            bounds: List::new(alloc),
        },
        height: 0,
        span: token.span,
    })
}

/// Reads the lifetimes of a function.
#[derive(Clone, Copy)]
struct FunctionLifetimes;

impl Reader for FunctionLifetimes {
    type Item = BoundLifetime;

    ghost Tree = { bound_tree.BoundLifetime };

    ghost plain = { λ x. x };

    ghost ready = { λ s. 0 ≤ 0 };

    ghost most = { λ s. 0 };

    ghost parser = { λ s. spec.bound_lifetime };

    fn read(&self, alloc: Global, cursor: &mut Cursor<'_>) -> Result<Got<BoundLifetime>, Stop> {
        bound_lifetime(alloc, cursor)
    }
}

/// The lifetimes of a function with their bounds, in `<` and `>`, or nothing.
#[tactic(auto, using(rx_parse_types::proofs::Rules::list_rules), unfolding(rx_parse_grammar::specs::parser::Items::bound_lifetimes))]
pub fn bound_lifetimes(alloc: Global, cursor: &mut Cursor<'_>) -> Result<List<BoundLifetime>, Stop>
    ensures { ReadsAs (λ l. l) (spec.bound_lifetimes cursor.old) result cursor.new }
{
    if cursor.sees(Symbol::Less) {
        cursor.expect(Symbol::Less)?;
        let items = some_elements(alloc, cursor, &FunctionLifetimes, Symbol::Greater)?;
        return Ok(items.list);
    }
    Ok(List::new(alloc))
}
