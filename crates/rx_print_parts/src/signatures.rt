//! The canonical text of a function as far as its body.

ghost use Rattle.std.specs.Prelude.{◌≡◌, ◌++◌, OnOk, map, option_map};
ghost use Rattle.rx_tree.specs.PlainOf.{plain-TypeText, plain-Param};
ghost use Rattle.rx_print_spelling.specs.Pieces.{flat, separated};
ghost use Rattle.rx_print_spelling.specs.Items.{in_angles, bounds_pieces, behind_lifetime, bound_pieces, parameter_pieces, result_pieces};
ghost use Rattle.rx_print_parts.specs.Parts.{next_of};
ghost use Rattle.rx_print_parts.specs.ItemParts.{plus_pieces, next_bound, signature_pieces, called_pieces};

use crate::types::{push_type, push_written};
use crate::words::{comma, push_mutable};
use rx_core::Text;
use rx_tree::{BoundLifetime, Ident, Param, TypeText};
use std::alloc::AllocError;

/// What stands before a bound of a lifetime that follows another.
fn plus(follows: bool) -> &'static str
    ensures { result.now ≡ flat (plus_pieces follows) }
{
    if follows {
        return " + ";
    }
    ""
}

/// Adds a bound of a lifetime.
#[tactic(auto, using(crate::proofs::Rules::text_rules))]
fn push_next_bound(out: &mut Text, follows: bool, bound: &Ident) -> Result<(), AllocError>
    ensures { OnOk result (out.new ≡ out.old ++ flat (next_bound follows bound.now)) }
{
    out.push(plus(follows))?;
    out.push(bound.name.as_str())
}

/// Adds the bounds of a lifetime, with a `+` between each two.
fn push_bounds(out: &mut Text, list: &[Ident]) -> Result<(), AllocError>
    ensures { OnOk result (out.new ≡ out.old ++ flat (bounds_pieces list.now)) }
{
    let mut follows = false;
    for bound in list {
        push_next_bound(out, follows, bound)?;
        follows = true;
    }
    Ok(())
}

/// Adds the bounds behind a lifetime, where it has some.
fn push_behind(out: &mut Text, list: &[Ident]) -> Result<(), AllocError>
    ensures { OnOk result (out.new ≡ out.old ++ flat (behind_lifetime list.now)) }
{
    if list.is_empty() {
        return Ok(());
    }
    out.push(": ")?;
    push_bounds(out, list)
}

/// Adds a lifetime and its bounds, behind a comma where it follows another.
#[tactic(auto, using(crate::proofs::Rules::text_rules))]
fn push_lifetime(out: &mut Text, follows: bool, lifetime: &BoundLifetime) -> Result<(), AllocError>
    ensures { OnOk result (out.new ≡ out.old ++ flat (next_of follows (bound_pieces lifetime.now))) }
{
    out.push(comma(follows))?;
    out.push(lifetime.name.name.as_str())?;
    push_behind(out, lifetime.bounds.as_slice())
}

/// Adds lifetimes, with a comma between each two.
fn push_lifetimes(out: &mut Text, list: &[BoundLifetime]) -> Result<(), AllocError>
    ensures { OnOk result (out.new ≡ out.old ++ flat (separated (map bound_pieces list.now))) }
{
    let mut follows = false;
    for lifetime in list {
        push_lifetime(out, follows, lifetime)?;
        follows = true;
    }
    Ok(())
}

/// Adds the lifetimes of a function in angle brackets, where it has some.
pub fn push_angles(out: &mut Text, list: &[BoundLifetime]) -> Result<(), AllocError>
    ensures { OnOk result (out.new ≡ out.old ++ flat (in_angles (map bound_pieces list.now))) }
{
    if list.is_empty() {
        return Ok(());
    }
    out.push("<")?;
    push_lifetimes(out, list)?;
    out.push(">")
}

/// Adds a parameter, behind a comma where it follows another.
#[tactic(auto, using(crate::proofs::Rules::text_rules))]
fn push_parameter(out: &mut Text, follows: bool, parameter: &Param) -> Result<(), AllocError>
    ensures { OnOk result (out.new ≡ out.old ++ flat (next_of follows (parameter_pieces (plain-Param parameter.now)))) }
{
    out.push(comma(follows))?;
    push_mutable(out, parameter.mutable)?;
    out.push(parameter.name.name.as_str())?;
    push_written(out, &parameter.typ)
}

/// Adds parameters, with a comma between each two.
fn push_parameters(out: &mut Text, list: &[Param]) -> Result<(), AllocError>
    ensures { OnOk result (out.new ≡ out.old ++ flat (separated (map parameter_pieces (map plain-Param list.now)))) }
{
    let mut follows = false;
    for parameter in list {
        push_parameter(out, follows, parameter)?;
        follows = true;
    }
    Ok(())
}

/// Adds the type of a function's result, where one is written.
#[tactic(auto, using(crate::proofs::Rules::text_rules))]
fn push_result(out: &mut Text, typ: &Option<TypeText>) -> Result<(), AllocError>
    ensures { OnOk result (out.new ≡ out.old ++ flat (result_pieces (option_map plain-TypeText typ.now))) }
{
    match typ {
        Some(typ) => {
            out.push(" -> ")?;
            push_type(out, false, typ)
        }
        None => Ok(()),
    }
}

/// Adds the name of a function, and its lifetimes.
#[tactic(auto, using(crate::proofs::Rules::text_rules))]
pub fn push_called(out: &mut Text, name: &Ident, list: &[BoundLifetime]) -> Result<(), AllocError>
    ensures { OnOk result (out.new ≡ out.old ++ flat (called_pieces name.now list.now)) }
{
    out.push("fn ")?;
    out.push(name.name.as_str())?;
    push_angles(out, list)
}

/// Adds the parameters of a function, and its result.
#[tactic(auto, using(crate::proofs::Rules::text_rules))]
pub fn push_signature(
    out: &mut Text,
    list: &[Param],
    typ: &Option<TypeText>,
) -> Result<(), AllocError>
    ensures { OnOk result (out.new ≡ out.old ++ flat (signature_pieces (map plain-Param list.now) (option_map plain-TypeText typ.now))) }
{
    out.push("(")?;
    push_parameters(out, list)?;
    out.push(")")?;
    push_result(out, typ)
}
