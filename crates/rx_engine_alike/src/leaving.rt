//! Whether a jump out of the run, or a return of it, is the return of its variant in the new function.

ghost use Rattle.std.specs.Prelude.{◌≡◌, nat_eq, None, Some, map, IfOk, MatchOption, option_map};
ghost use Rattle.rx_typed.specs.PlainTree.{plain-Expr, plain-Making, plain-Operand, plain-Pattern, plain-Matched, plain-Stmt, operands_of, nested_of};
ghost use Rattle.rx_engine_alike.specs.Giving.{if_these, gives_variant as gives_variant_of};
ghost use Rattle.rx_engine_alike.specs.Leaving as leaving;
ghost use Rattle.rx_engine_alike.specs.PlainSights.{plain-Renaming};
ghost use Rattle.rx_engine_alike.specs.PlainJumping.{plain-Pack};
ghost use Rattle.rx_engine_alike.specs.PlainParts.{plain-Bound};

use crate::giving::{gives_variant, numbers_of};
use crate::jumping::Pack;
use crate::parts::Bound;
use crate::reading::{block_of, build_of};
use crate::sights::Seen;
use rx_core::List;
use rx_typed::{Expr, Making, Matched, Mode, Operand, Pattern, Stmt};
use std::alloc::{AllocError, Global};

/// Whether it gives the variant with these, where they are there.
fn gives_these(variant: usize, numbers: Option<List<u32>>, expr: &Expr) -> bool
    ensures { result ≡ if_these numbers (λ zs. gives_variant_of variant zs (plain-Expr expr.now)) }
{
    match numbers {
        Some(numbers) => gives_variant(variant, numbers.as_slice(), expr),
        None => false,
    }
}

/// Whether it gives the jump of this variant, with what that hands out.
pub fn gives_pack(
    alloc: Global,
    renaming: &[Seen],
    pack: Option<Pack<'_>>,
    expr: &Expr,
) -> Result<bool, AllocError>
    ensures { IfOk result (λ it. it ≡ leaving.gives_pack (plain-Renaming renaming.now) (option_map plain-Pack pack.entry) (plain-Expr expr.now)) }
{
    match pack {
        Some(pack) => {
            let numbers = numbers_of(alloc, renaming, pack.outs)?;
            Ok(gives_these(pack.variant, numbers, expr))
        }
        None => Ok(false),
    }
}

#[tactic(auto, using(rx_typed::proofs::Rules::typed_tree_rules))]
fn operand_value(operand: &Operand) -> &Expr
    ensures { plain-Expr result.now ≡ (plain-Operand operand.now).1 }
{
    &operand.value
}

#[tactic(auto, using(rx_typed::proofs::Rules::typed_tree_rules))]
fn is_first(operand: &Operand) -> bool
    ensures { result ≡ nat_eq (plain-Operand operand.now).0 0 }
{
    operand.field == 0
}

/// The only operand, for the first field.
#[tactic(auto, using(crate::proofs::LeavingLemmas::leaving_rules))]
fn only_operand(operands: &[Operand]) -> Option<&Expr>
    ensures { MatchOption result (leaving.only_operand (operands_of (map plain-Operand operands.now)) ≡ None)
        (λ it. leaving.only_operand (operands_of (map plain-Operand operands.now)) ≡ Some (plain-Expr it.now)) }
{
    match operands {
        [] => None,
        [operand] => if is_first(operand) {
            Some(operand_value(operand))
        } else {
            None
        },
        [_, _, ..] => None,
    }
}

/// What the variant of this number is made of as its only part.
fn part_of_made(variant: usize, making: Making, operands: &[Operand]) -> Option<&Expr>
    ensures { MatchOption result (leaving.part_of_made variant (plain-Making making) (operands_of (map plain-Operand operands.now)) ≡ None)
        (λ it. leaving.part_of_made variant (plain-Making making) (operands_of (map plain-Operand operands.now)) ≡ Some (plain-Expr it.now)) }
{
    match making {
        Making::Variant(_, made) => {
            if variant == made as usize {
                only_operand(operands)
            } else {
                None
            }
        }
        Making::Constant(_) | Making::Negation | Making::Inversion => None,
        Making::Operation(_) | Making::Tuple | Making::Struct(_) => None,
    }
}

/// What the variant of this number has as its only part.
#[tactic(auto, using(crate::proofs::ReadLemmas::read_rules))]
pub fn part_of_variant(variant: usize, expr: &Expr) -> Option<&Expr>
    ensures { MatchOption result (leaving.part_of_variant variant (plain-Expr expr.now) ≡ None)
        (λ it. leaving.part_of_variant variant (plain-Expr expr.now) ≡ Some (plain-Expr it.now)) }
{
    match build_of(expr) {
        Some((making, operands)) => part_of_made(variant, making, operands),
        None => None,
    }
}

/// The variable that a pattern binds to the value.
#[tactic(auto, using(rx_typed::proofs::Rules::typed_pattern_rules))]
fn bound_by(pattern: &Pattern) -> Option<u32>
    ensures { result ≡ leaving.bound_by (plain-Pattern pattern.now) }
{
    match pattern {
        Pattern::Bind(_, variable, mode) => match *mode {
            Mode::Value(_) => Some(*variable),
            Mode::Reference(_) => None,
        },
        Pattern::Any | Pattern::Exactly(_, _) | Pattern::Parts(_) => None,
        Pattern::Variant(_, _, _, _, _) | Pattern::Behind(_, _) => None,
    }
}

/// What is bound, where that is a value and nothing else is in front of what is given.
#[tactic(auto, using(rx_typed::proofs::Rules::typed_tree_rules, crate::proofs::BlockLemmas::block_rules))]
fn bound_then<'t>(
    variable: Option<u32>,
    matched: &'t Matched,
    stmts: &'t [Stmt],
    tail: &'t Expr,
) -> Option<Bound<'t>>
    ensures { option_map plain-Bound result
        ≡ leaving.bound_then variable (plain-Matched matched.now) (nested_of (map plain-Stmt stmts.now) (plain-Expr tail.now)) }
{
    match stmts {
        [] => match variable {
            Some(variable) => match matched {
                Matched::Place(_, _) => None,
                Matched::Value(value) => Some(Bound {
                    variable,
                    value: value.get(),
                    given: tail,
                }),
            },
            None => None,
        },
        [_, ..] => None,
    }
}

/// What a block binds in front of what it gives.
#[tactic(auto, using(rx_typed::proofs::Rules::typed_tree_rules))]
fn bound_in<'t>(stmts: &'t [Stmt], tail: &'t Expr) -> Option<Bound<'t>>
    ensures { option_map plain-Bound result ≡ leaving.bound_in (nested_of (map plain-Stmt stmts.now) (plain-Expr tail.now)) }
{
    match stmts {
        [] => None,
        [first, behind @ ..] => match first {
            Stmt::Runs(_) | Stmt::Declares(_, _) => None,
            Stmt::Lets(_, pattern, matched) => bound_then(bound_by(pattern), matched, behind, tail),
        },
    }
}

#[tactic(auto, using(crate::proofs::ReadLemmas::read_rules))]
pub fn bound_in_block(expr: &Expr) -> Option<Bound<'_>>
    ensures { option_map plain-Bound result ≡ leaving.bound_in_block (plain-Expr expr.now) }
{
    match block_of(expr) {
        Some(block) => bound_in(block.stmts, block.tail),
        None => None,
    }
}
