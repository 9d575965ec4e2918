//! The canonical text of types.

ghost use Rattle.std.specs.Prelude.{◌≡◌, ◌++◌, ◌&&◌, true, false, OnOk, map, option_map};
ghost use Rattle.rx_tree.specs.PlainOf.{plain-TypeText, types_of};
ghost use Rattle.rx_print_spelling.specs.Pieces.{flat, separated, tuple_of};
ghost use Rattle.rx_print_spelling.specs.Types.{lifetime_pieces, argument_pieces, arguments_pieces, is_reference, is_bare, type_pieces, each_type, written_type, annotation_pieces};
ghost use Rattle.rx_print_parts.specs.Parts.{next_of, pointee_pieces, pointer_pieces, named_pieces};

use crate::words::{comma, kind_text, push_mutable, tuple_end};
use rx_core::{List, Text};
use rx_tree::{Ident, TypeNode, TypeText};
use std::alloc::AllocError;

#[tactic(auto, using(crate::proofs::Rules::text_rules))]
fn push_lifetime(out: &mut Text, lifetime: &Option<Ident>) -> Result<(), AllocError>
    ensures { OnOk result (out.new ≡ out.old ++ flat (lifetime_pieces lifetime.now)) }
{
    match lifetime {
        Some(l) => {
            out.push(l.name.as_str())?;
            out.push(" ")
        }
        None => Ok(()),
    }
}

/// Adds a lifetime behind the name of a type.
#[tactic(auto, using(crate::proofs::Rules::text_rules))]
fn push_argument(out: &mut Text, lifetime: &Option<Ident>) -> Result<(), AllocError>
    ensures { OnOk result (out.new ≡ out.old ++ flat (argument_pieces lifetime.now)) }
{
    match lifetime {
        Some(l) => out.push(l.name.as_str()),
        None => out.push("'_"),
    }
}

/// Adds a lifetime, behind a comma where it follows another.
#[tactic(auto, using(crate::proofs::Rules::text_rules))]
fn push_next_argument(
    out: &mut Text,
    follows: bool,
    lifetime: &Option<Ident>,
) -> Result<(), AllocError>
    ensures { OnOk result (out.new ≡ out.old ++ flat (next_of follows (argument_pieces lifetime.now))) }
{
    out.push(comma(follows))?;
    push_argument(out, lifetime)
}

fn push_lifetimes(out: &mut Text, list: &[Option<Ident>]) -> Result<(), AllocError>
    ensures { OnOk result (out.new ≡ out.old ++ flat (separated (map argument_pieces list.now))) }
{
    let mut follows = false;
    for lifetime in list {
        push_next_argument(out, follows, lifetime)?;
        follows = true;
    }
    Ok(())
}

/// Adds the lifetimes behind the name of a type, where some are written.
#[tactic(auto, using(crate::proofs::Rules::text_rules))]
fn push_arguments(out: &mut Text, list: &Option<List<Option<Ident>>>) -> Result<(), AllocError>
    ensures { OnOk result (out.new ≡ out.old ++ flat (arguments_pieces list.now)) }
{
    match list {
        Some(list) => {
            out.push("<")?;
            push_lifetimes(out, list.as_slice())?;
            out.push(">")
        }
        None => Ok(()),
    }
}

/// Adds the name of a type, and the lifetimes behind it.
#[tactic(auto, using(crate::proofs::Rules::text_rules))]
fn push_named(
    out: &mut Text,
    name: &Ident,
    list: &Option<List<Option<Ident>>>,
) -> Result<(), AllocError>
    ensures { OnOk result (out.new ≡ out.old ++ flat (named_pieces name.now list.now)) }
{
    out.push(name.name.as_str())?;
    push_arguments(out, list)
}

#[tactic(auto, using(rx_tree::proofs::Rules::type_rules, crate::proofs::Rules::end_rules))]
fn is_reference(typ: &TypeText) -> bool
    ensures { result ≡ is_reference (plain-TypeText typ.now) }
{
    match &typ.node {
        TypeNode::Ref(..) => true,
        TypeNode::Kind(_) | TypeNode::Bool | TypeNode::Tuple(_) | TypeNode::Named(..) => false,
    }
}

/// Whether nothing stands between the `&` and what it points to.
fn is_bare(lifetime: &Option<Ident>, mutable: bool) -> bool
    ensures { result ≡ is_bare lifetime.now mutable }
{
    match lifetime {
        Some(_) => false,
        None => !mutable,
    }
}

/// Whether the `&` of a reference and that of what it points to are one mark.
fn joins(lifetime: &Option<Ident>, mutable: bool, typ: &TypeText) -> bool
    ensures { result ≡ (is_bare lifetime.now mutable && is_reference (plain-TypeText typ.now)) }
{
    is_bare(lifetime, mutable) && is_reference(typ)
}

/// Adds what stands behind the `&` of a reference.
#[cycle(types)]
#[tactic(auto, using(crate::proofs::Rules::text_rules))]
fn push_pointee(
    out: &mut Text,
    lifetime: &Option<Ident>,
    mutable: bool,
    typ: &TypeText,
) -> Result<(), AllocError>
    ensures { OnOk result (out.new ≡ out.old ++ flat (pointee_pieces lifetime.now mutable (plain-TypeText typ.now))) }
{
    push_lifetime(out, lifetime)?;
    push_mutable(out, mutable)?;
    push_type(out, false, typ)
}

/// Adds a reference, or two whose `&` are one mark.
#[cycle(types)]
#[tactic(auto, using(crate::proofs::Rules::text_rules))]
fn push_pointer(
    out: &mut Text,
    joined: bool,
    lifetime: &Option<Ident>,
    mutable: bool,
    typ: &TypeText,
) -> Result<(), AllocError>
    ensures { OnOk result (out.new ≡ out.old ++ flat (pointer_pieces joined lifetime.now mutable (plain-TypeText typ.now))) }
{
    if joined {
        out.push("&&")?;
        return push_type(out, true, typ);
    }
    out.push("&")?;
    push_pointee(out, lifetime, mutable, typ)
}

/// Adds a type, behind a comma where it follows another.
#[cycle(types)]
#[tactic(auto, using(crate::proofs::Rules::text_rules))]
fn push_next(out: &mut Text, follows: bool, typ: &TypeText) -> Result<(), AllocError>
    ensures { OnOk result (out.new ≡ out.old ++ flat (next_of follows (type_pieces false (plain-TypeText typ.now)))) }
{
    out.push(comma(follows))?;
    push_type(out, false, typ)
}

/// Adds types, with a comma between each two.
#[cycle(types)]
pub fn push_types(out: &mut Text, list: &[TypeText]) -> Result<(), AllocError>
    ensures { OnOk result (out.new ≡ out.old ++ flat (separated (each_type (types_of (map plain-TypeText list.now))))) }
{
    let mut follows = false;
    for typ in list {
        push_next(out, follows, typ)?;
        follows = true;
    }
    Ok(())
}

/// Adds a tuple.
#[cycle(types)]
fn push_tuple(out: &mut Text, list: &[TypeText]) -> Result<(), AllocError>
    ensures { OnOk result (out.new ≡ out.old ++ flat (tuple_of (each_type (types_of (map plain-TypeText list.now))))) }
{
    out.push("(")?;
    push_types(out, list)?;
    out.push(tuple_end(list.len() == 1))
}

/// Adds a type. The `&` of a reference may be written already, as the second half of a mark `&&`.
#[cycle(types)]
#[tactic(auto, using(rx_tree::proofs::Rules::type_rules, crate::proofs::Rules::end_rules))]
pub fn push_type(out: &mut Text, second: bool, typ: &TypeText) -> Result<(), AllocError>
    ensures { OnOk result (out.new ≡ out.old ++ flat (type_pieces second (plain-TypeText typ.now))) }
{
    match &typ.node {
        TypeNode::Kind(kind) => out.push(kind_text(*kind)),
        TypeNode::Bool => out.push("bool"),
        TypeNode::Tuple(parts) => push_tuple(out, parts.as_slice()),
        TypeNode::Ref(lifetime, mutable, inner) => {
            if second {
                return push_pointee(out, lifetime, *mutable, inner.get());
            }
            let joined = joins(lifetime, *mutable, inner.get());
            push_pointer(out, joined, lifetime, *mutable, inner.get())
        }
        TypeNode::Named(name, lifetimes) => push_named(out, name, lifetimes),
    }
}

/// Adds the type of a parameter or a field, behind its colon.
#[tactic(auto, using(crate::proofs::Rules::text_rules))]
pub fn push_written(out: &mut Text, typ: &TypeText) -> Result<(), AllocError>
    ensures { OnOk result (out.new ≡ out.old ++ flat (written_type (plain-TypeText typ.now))) }
{
    out.push(": ")?;
    push_type(out, false, typ)
}

/// Adds the type of a `let`, where one is written.
#[tactic(auto, using(crate::proofs::Rules::text_rules))]
pub fn push_annotation(out: &mut Text, typ: &Option<TypeText>) -> Result<(), AllocError>
    ensures { OnOk result (out.new ≡ out.old ++ flat (annotation_pieces (option_map plain-TypeText typ.now))) }
{
    match typ {
        Some(typ) => push_written(out, typ),
        None => Ok(()),
    }
}
