//! The operators by their symbols, and what expressions begin with.

ghost use Rattle.std.specs.Prelude.{◌≡◌, option_map};
ghost use Rattle.rx_parse_grammar.specs.parser.Operators as spec;
ghost use Rattle.rx_parse_choices.specs.SettingOf.{setting_of};
ghost use Rattle.rx_parse_choices.specs.Rows as rows;

use rx_parse_grammar::{COMPARISON, CONJUNCTION, DISJUNCTION, PRODUCT, SUM, Symbol};
use rx_tree::{BinaryOp, UpdateOp};

/// `=` alone, or with an operator.
#[derive(Clone, Copy)]
pub enum Setting {
    Assigns,
    Updates(UpdateOp),
}

fn strength(symbol: Symbol) -> usize
    ensures { result ≡ spec.strength symbol }
{
    match symbol {
        Symbol::Star | Symbol::Slash | Symbol::Percent => PRODUCT,
        Symbol::Plus | Symbol::Minus => SUM,
        Symbol::EqualEqual
        | Symbol::NotEqual
        | Symbol::Less
        | Symbol::LessEqual
        | Symbol::Greater
        | Symbol::GreaterEqual => COMPARISON,
        Symbol::AndAnd => CONJUNCTION,
        Symbol::OrOr => DISJUNCTION,
        _ => 0,
    }
}

fn operator(symbol: Symbol) -> Option<BinaryOp>
    ensures { result ≡ spec.operator symbol }
{
    match symbol {
        Symbol::Star => Some(BinaryOp::Mul),
        Symbol::Slash => Some(BinaryOp::Div),
        Symbol::Percent => Some(BinaryOp::Rem),
        Symbol::Plus => Some(BinaryOp::Add),
        Symbol::Minus => Some(BinaryOp::Sub),
        Symbol::EqualEqual => Some(BinaryOp::Eq),
        Symbol::NotEqual => Some(BinaryOp::Ne),
        Symbol::Less => Some(BinaryOp::Lt),
        Symbol::LessEqual => Some(BinaryOp::Le),
        Symbol::Greater => Some(BinaryOp::Gt),
        Symbol::GreaterEqual => Some(BinaryOp::Ge),
        Symbol::AndAnd => Some(BinaryOp::And),
        Symbol::OrOr => Some(BinaryOp::Or),
        _ => None,
    }
}

/// The operator of this strength that a symbol is.
#[tactic(auto, unfolding(rx_parse_grammar::specs::parser::Operators::operator_at))]
pub fn operator_at(j: usize, symbol: Symbol) -> Option<BinaryOp>
    ensures { result ≡ spec.operator_at j symbol }
{
    if strength(symbol) == j {
        operator(symbol)
    } else {
        None
    }
}

/// How many operators may stand in a row behind an operand of this strength, where so many tokens are left:
/// comparisons don't group.
pub fn turns(strength: usize, left: usize) -> usize
    ensures { result ≡ rows.turns strength left }
{
    if strength == SUM { 1 } else { left }
}

/// What an assignment's symbol does.
pub fn setting_at(symbol: Symbol) -> Option<Setting>
    ensures { option_map setting_of result ≡ spec.setting symbol }
{
    match symbol {
        Symbol::Equal => Some(Setting::Assigns),
        Symbol::PlusEqual => Some(Setting::Updates(UpdateOp::Add)),
        Symbol::MinusEqual => Some(Setting::Updates(UpdateOp::Sub)),
        Symbol::StarEqual => Some(Setting::Updates(UpdateOp::Mul)),
        Symbol::SlashEqual => Some(Setting::Updates(UpdateOp::Div)),
        Symbol::PercentEqual => Some(Setting::Updates(UpdateOp::Rem)),
        _ => None,
    }
}

/// Whether a symbol begins an expression that ends in a block.
pub fn begins_like(symbol: Symbol) -> bool
    ensures { result ≡ spec.begins_like symbol }
{
    match symbol {
        Symbol::OpenBrace
        | Symbol::If
        | Symbol::Match
        | Symbol::Loop
        | Symbol::While
        | Symbol::Lifetime => true,
        _ => false,
    }
}

/// Whether a symbol begins an operand.
pub fn begins_operand(symbol: Symbol) -> bool
    ensures { result ≡ spec.begins_operand symbol }
{
    match symbol {
        Symbol::Number
        | Symbol::True
        | Symbol::False
        | Symbol::Name
        | Symbol::OpenParen
        | Symbol::Minus
        | Symbol::Bang
        | Symbol::Star
        | Symbol::Ampersand
        | Symbol::AndAnd
        | Symbol::OpenBrace
        | Symbol::If
        | Symbol::Match
        | Symbol::Loop
        | Symbol::While
        | Symbol::Lifetime => true,
        _ => false,
    }
}

/// Whether a symbol begins an expression.
pub fn begins_expression(symbol: Symbol) -> bool
    ensures { result ≡ spec.begins_expression symbol }
{
    match symbol {
        Symbol::Return
        | Symbol::Break
        | Symbol::Continue
        | Symbol::Number
        | Symbol::True
        | Symbol::False
        | Symbol::Name
        | Symbol::OpenParen
        | Symbol::Minus
        | Symbol::Bang
        | Symbol::Star
        | Symbol::Ampersand
        | Symbol::AndAnd
        | Symbol::OpenBrace
        | Symbol::If
        | Symbol::Match
        | Symbol::Loop
        | Symbol::While
        | Symbol::Lifetime => true,
        _ => false,
    }
}
