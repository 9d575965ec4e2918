//! The canonical text of items and programs.

ghost use Rattle.std.specs.Prelude.{◌≡◌, ◌≤◌, ◌++◌, OnOk, IfOk, map};
ghost use Rattle.rx_tree.specs.Plain.{ProgramTree};
ghost use Rattle.rx_tree.specs.Erase.{SameProgram};
ghost use Rattle.rx_tree.specs.PlainOf.{plain-Func, plain-Item, plain-Program};
ghost use Rattle.rx_parse_grammar.specs.grammar.Items.{Parses, levels};
ghost use Rattle.rx_print_spelling.specs.Levels.{levels_of};
ghost use Rattle.rx_print_spelling.specs.Formed.{FormedProgram};
ghost use Rattle.rx_print_spelling.specs.Pieces.{flat};
ghost use Rattle.rx_print_spelling.specs.Items.{function_pieces, item_pieces, program_pieces, print_program};
ghost use Rattle.rx_print.specs.ItemParts.{next_item};

use crate::blocks::push_block;
use rx_core::Text;
use rx_print_parts::{Margin, push_called, push_enum, push_signature, push_struct};
use rx_tree::{Func, Item, ItemNode, Program};
use std::alloc::{AllocError, Global};

/// Adds a function.
#[tactic(auto, using(rx_print_parts::proofs::Rules::text_rules))]
fn push_function(alloc: Global, out: &mut Text, function: &Func) -> Result<(), AllocError>
    ensures { OnOk result (out.new ≡ out.old ++ flat (function_pieces (plain-Func function.now))) }
{
    let margin = Margin::none(alloc);
    push_called(out, &function.name, function.lifetimes.as_slice())?;
    push_signature(out, function.params.as_slice(), &function.result)?;
    out.push(" ")?;
    push_block(alloc, out, &margin, &function.body)
}

/// Adds an item.
fn push_item(alloc: Global, out: &mut Text, item: &Item) -> Result<(), AllocError>
    ensures { OnOk result (out.new ≡ out.old ++ flat (item_pieces (plain-Item item.now))) }
{
    match &item.node {
        ItemNode::Rt(_) => out.push("mod rt;"),
        ItemNode::Struct(x) => push_struct(out, x),
        ItemNode::Enum(x) => push_enum(out, x),
        ItemNode::Func(function) => push_function(alloc, out, function),
    }
}

/// Adds an item, behind an empty line where it follows another.
#[tactic(auto, using(rx_print_parts::proofs::Rules::text_rules))]
fn push_next(alloc: Global, out: &mut Text, follows: bool, item: &Item) -> Result<(), AllocError>
    ensures { OnOk result (out.new ≡ out.old ++ flat (next_item follows (plain-Item item.now))) }
{
    if follows {
        out.push("\n\n")?;
    }
    push_item(alloc, out, item)
}

/// Adds items, with an empty line between each two, and the end of the last line.
fn push_items(alloc: Global, out: &mut Text, list: &[Item]) -> Result<(), AllocError>
    ensures { OnOk result (out.new ≡ out.old ++ flat (program_pieces (map plain-Item list.now))) }
{
    let mut follows = false;
    for item in list {
        push_next(alloc, out, follows, item)?;
        follows = true;
    }
    out.push("\n")
}

/// The canonical text of a program. An `Err` says that memory ran out.
pub fn print(alloc: Global, program: &Program) -> Result<Text, AllocError>
    ensures text { IfOk result (λ t. t ≡ print_program (plain-Program program.now)) }
    // The text parses to the program, apart from spans, where its names and numbers are words, as those of each text's
    // program are, and the text has levels enough.
    ensures parses { IfOk result (λ t. FormedProgram (plain-Program program.now) → levels_of (plain-Program program.now) ≤ levels → (q : ProgramTree) × Parses t q × SameProgram q (plain-Program program.now)) }
{
    let mut out = Text::empty(alloc);
    push_items(alloc, &mut out, program.items.as_slice())?;
    Ok(out)
}
