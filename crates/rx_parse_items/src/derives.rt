//! What stands before a struct or an enum.

ghost use Rattle.std.specs.Prelude.{◌≤◌, IfOk};
ghost use Rattle.rx_tree.specs.declared.tree.Derive as tree;
ghost use Rattle.rx_parse_grammar.specs.parser.Steps.{ReadsAs};
ghost use Rattle.rx_parse_grammar.specs.parser.Items as spec;
ghost use Rattle.rx_parse_cursor.specs.GotOf.{got_of};

use rx_core::{List, keep};
use rx_parse_cursor::{Cursor, Got, Reader, some_elements};
use rx_parse_grammar::{Stop, Symbol};
use rx_tree::Derive;
use std::alloc::Global;

/// `Clone` or `Copy`.
#[tactic(auto, unfolding(rx_parse_grammar::specs::parser::Items::derived_name))]
fn derived_name(cursor: &mut Cursor<'_>) -> Result<Got<Derive>, Stop>
    ensures reads { ReadsAs (got_of (λ x. x)) (spec.derived_name cursor.old) result cursor.new }
    ensures low { IfOk result (λ x. x.height ≤ 0) }
{
    if cursor.sees_word("Clone") {
        let token = cursor.expect_word("Clone")?;
        return Ok(Got {
            tree: Derive::Clone,
            height: 0,
            span: token.span,
        });
    }
    let token = cursor.expect_word("Copy")?;
    Ok(Got {
        tree: Derive::Copy,
        height: 0,
        span: token.span,
    })
}

/// Reads the traits that are derived.
#[derive(Clone, Copy)]
struct DerivedNames;

impl Reader for DerivedNames {
    type Item = Derive;

    ghost Tree = { tree.Derive };

    ghost plain = { λ x. x };

    ghost ready = { λ s. 0 ≤ 0 };

    ghost most = { λ s. 0 };

    ghost parser = { λ s. spec.derived_name };

    fn read(&self, _alloc: Global, cursor: &mut Cursor<'_>) -> Result<Got<Derive>, Stop> {
        derived_name(cursor)
    }
}

/// The traits that are derived, from behind the `#`.
#[tactic(auto, using(rx_parse_types::proofs::Rules::list_rules), unfolding(rx_parse_grammar::specs::parser::Items::derives))]
pub fn derives(alloc: Global, cursor: &mut Cursor<'_>) -> Result<List<Derive>, Stop>
    ensures { ReadsAs (λ l. l) (spec.derives cursor.old) result cursor.new }
{
    cursor.expect(Symbol::OpenBracket)?;
    cursor.expect_word("derive")?;
    cursor.expect(Symbol::OpenParen)?;
    let items = some_elements(alloc, cursor, &DerivedNames, Symbol::CloseParen)?;
    let (_, items) = keep(items, cursor.expect(Symbol::CloseBracket))?;
    Ok(items.list)
}
