//! The words of operators, numbers and small parts.

ghost use Rattle.std.specs.Prelude.{◌≡◌, ◌++◌, [], ◌∷◌, OnOk};
ghost use Rattle.std.specs.Fmt.{decimal};
ghost use Rattle.rx_lex.specs.Numerals.{kind_name, suffix_text};
ghost use Rattle.rx_print_spelling.specs.Pieces.{flat, bytes_of, truth, mutable_pieces};
ghost use Rattle.rx_print_spelling.specs.Places.{operator_text, update_text};
ghost use Rattle.rx_print_parts.specs.Parts.{comma_pieces, closed_tuple};

use rx_core::{Kind, Text};
use rx_tree::{BinaryOp, UpdateOp};
use std::alloc::{AllocError, Global};

/// The name of an integer type.
pub fn kind_text(kind: Kind) -> &'static str
    ensures { result.now ≡ kind_name kind }
{
    match kind {
        Kind::U8 => "u8",
        Kind::U32 => "u32",
        Kind::U64 => "u64",
        Kind::I32 => "i32",
        Kind::I64 => "i64",
    }
}

/// The word of a truth value.
pub fn truth_text(value: bool) -> &'static str
    ensures { result.now ≡ bytes_of (truth value) }
{
    if value {
        return "true";
    }
    "false"
}

fn push_suffix(out: &mut Text, suffix: &Option<Kind>) -> Result<(), AllocError>
    ensures { OnOk result (out.new ≡ out.old ++ suffix_text suffix.now) }
{
    match suffix {
        Some(kind) => out.push(kind_text(*kind)),
        None => Ok(()),
    }
}

/// Adds a number in decimal.
pub fn push_decimal(alloc: Global, out: &mut Text, value: u64) -> Result<(), AllocError>
    ensures { OnOk result (out.new ≡ out.old ++ decimal value) }
{
    let digits = format!(in alloc; "{value}")?;
    out.push(digits.as_str())
}

/// Adds a number in decimal, and its suffix.
pub fn push_number(
    alloc: Global,
    out: &mut Text,
    value: u64,
    suffix: &Option<Kind>,
) -> Result<(), AllocError>
    ensures { OnOk result (out.new ≡ out.old ++ (decimal value ++ suffix_text suffix.now)) }
{
    push_decimal(alloc, out, value)?;
    push_suffix(out, suffix)
}

/// Adds `mut`, or nothing.
#[tactic(auto, using(crate::proofs::Rules::text_rules))]
pub fn push_mutable(out: &mut Text, mutable: bool) -> Result<(), AllocError>
    ensures { OnOk result (out.new ≡ out.old ++ flat (mutable_pieces mutable)) }
{
    if mutable {
        return out.push("mut ");
    }
    Ok(())
}

/// What stands before an element of a list that follows another.
pub fn comma(follows: bool) -> &'static str
    ensures { result.now ≡ flat (comma_pieces follows) }
{
    if follows {
        return ", ";
    }
    ""
}

/// What closes a tuple, which may have only one part.
pub fn tuple_end(lone: bool) -> &'static str
    ensures { result.now ≡ flat (closed_tuple lone) }
{
    if lone {
        return ",)";
    }
    ")"
}

/// How an operator of two operands is written.
pub fn operator_text(op: BinaryOp) -> &'static str
    ensures { result.now ≡ operator_text op }
{
    match op {
        BinaryOp::Or => "||",
        BinaryOp::And => "&&",
        BinaryOp::Eq => "==",
        BinaryOp::Ne => "!=",
        BinaryOp::Lt => "<",
        BinaryOp::Le => "<=",
        BinaryOp::Gt => ">",
        BinaryOp::Ge => ">=",
        BinaryOp::Add => "+",
        BinaryOp::Sub => "-",
        BinaryOp::Mul => "*",
        BinaryOp::Div => "/",
        BinaryOp::Rem => "%",
    }
}

/// How the mark of a compound assignment is written.
pub fn update_text(op: UpdateOp) -> &'static str
    ensures { result.now ≡ update_text op }
{
    match op {
        UpdateOp::Add => "+=",
        UpdateOp::Sub => "-=",
        UpdateOp::Mul => "*=",
        UpdateOp::Div => "/=",
        UpdateOp::Rem => "%=",
    }
}
