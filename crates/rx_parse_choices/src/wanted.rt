//! What the parser of expressions is asked for.

ghost use Rattle.std.specs.Prelude.{◌≡◌, false};
ghost use Rattle.rx_parse_grammar.specs.grammar.Strengths as at;
ghost use Rattle.rx_parse_choices.specs.declared.wanted.Wanted.TheVariants as wanted;
ghost use Rattle.rx_parse_choices.specs.Wants.{begins_wanted};

use crate::operators::{begins_expression, begins_like, begins_operand};
use rx_parse_grammar::{COMPARISON, DISJUNCTION, Symbol, UNARY};

/// What is to be read.
#[derive(Clone, Copy)]
pub enum Wanted {
    /// An operand of this strength, and whether a struct literal may stand in it.
    Operand(bool, usize),
    /// A whole expression.
    Whole,
    /// An expression that ends in a block.
    Like,
}

/// What stands before the block of an `if`, a `while` or a `match`: no struct literal, whose brace would be the block's.
pub fn condition() -> Wanted
    ensures { result ≡ wanted.Operand false at.disjunction }
{
    Wanted::Operand(false, DISJUNCTION)
}

/// What a pattern is to fit, before a block: no struct literal, and no `&&` or `||` outside parentheses.
pub fn fitted() -> Wanted
    ensures { result ≡ wanted.Operand false at.comparison }
{
    Wanted::Operand(false, COMPARISON)
}

/// What an operator before its operand takes: an operand of no operator with two operands.
pub fn unary_operand(literals: bool) -> Wanted
    ensures { result ≡ wanted.Operand literals at.unary }
{
    Wanted::Operand(literals, UNARY)
}

/// Whether what is wanted begins with this symbol.
pub fn begins(wanted: Wanted, symbol: Symbol) -> bool
    ensures { result ≡ begins_wanted wanted symbol }
{
    match wanted {
        Wanted::Operand(_, _) => begins_operand(symbol),
        Wanted::Whole => begins_expression(symbol),
        Wanted::Like => begins_like(symbol),
    }
}
