//! The edits of types in which lifetimes are written otherwise.

ghost use Rattle.std.specs.Prelude.{◌≡◌, ◌++◌, map, option_map, OnOk};
ghost use Rattle.std.specs.Option.{option_copied};
ghost use Rattle.std.specs.Str.{bytes_eq};
ghost use Rattle.rx_tree.specs.PlainOf.{plain-Param, plain-TypeText, types_of};
ghost use Rattle.rx_splice_laws.specs.Edits.{written};
ghost use Rattle.rx_compact_text.specs.CompactedText as spec;
ghost use Rattle.rx_compact_edits.specs.Writing as writing;

use crate::blanks::with_blanks;
use rx_compact_lifetimes::{Rewriting, becomes};
use rx_core::{List, Name, Text, is_same_name};
use rx_splice_walk::EditList;
use rx_tree::{Ident, Param, TypeNode, TypeText};
use std::alloc::{AllocError, Global};

/// What becomes of the lifetimes of a text, by their names: first by the one, then by the other.
#[derive(Clone, Copy)]
pub(crate) struct Changes<'c> {
    pub text: &'c str,
    pub first: &'c [Rewriting],
    pub then: &'c [Rewriting],
}

/// What becomes of a name, first by the one and then by the other.
fn becomes_both<'r>(
    first: &'r [Rewriting],
    then: &'r [Rewriting],
    name: &'r Name,
) -> Option<&'r Name>
    ensures { option_copied result ≡ spec.becomes_both first.now then.now name.now }
{
    match becomes(first, name) {
        Some(next) => becomes(then, next),
        None => None,
    }
}

/// Whether both are the same name.
#[tactic(auto, using(rx_compact_lifetimes::proofs::Rules::same_is_equal))]
fn is_same(a: &Name, b: &Name) -> bool
    ensures { result ≡ bytes_eq a.now b.now }
{
    is_same_name(a, b)
}

// ---- one lifetime

/// Replaces a lifetime by a name, where that is another.
#[tactic(auto, using(crate::proofs::Writing::writing))]
fn push_renamed(
    alloc: Global,
    out: &mut EditList,
    lifetime: &Ident,
    name: &Name,
) -> Result<(), AllocError>
    ensures { OnOk result (out.new ≡ out.old ++ map written (spec.renamed_edits lifetime.now name.now)) }
{
    if is_same(name, &lifetime.name) {
        return Ok(());
    }
    out.replace(lifetime.span, name.copy(alloc)?)
}

/// The edit of a lifetime of a reference that becomes this name, or is left out with the blanks behind it.
#[tactic(auto, using(crate::proofs::Writing::writing))]
fn push_reference(
    alloc: Global,
    out: &mut EditList,
    text: &str,
    lifetime: &Ident,
    name: Option<&Name>,
) -> Result<(), AllocError>
    ensures { OnOk result (out.new ≡ out.old ++ map written (spec.reference_edits text.now lifetime.now (option_copied name.entry))) }
{
    match name {
        Some(name) => push_renamed(alloc, out, lifetime, name),
        None => out.replace(with_blanks(text, lifetime.span), Text::empty(alloc)),
    }
}

/// The edit of a lifetime in the list of a struct or enum.
#[tactic(auto, using(crate::proofs::Writing::writing))]
fn push_argument(
    alloc: Global,
    out: &mut EditList,
    lifetime: &Ident,
    name: Option<&Name>,
) -> Result<(), AllocError>
    ensures { OnOk result (out.new ≡ out.old ++ map written (spec.argument_edits lifetime.now (option_copied name.entry))) }
{
    match name {
        Some(name) => push_renamed(alloc, out, lifetime, name),
        None => out.replace(lifetime.span, Text::new(alloc, "'_")?),
    }
}

impl<'c> Changes<'c> {
    /// The edit of the lifetime of a reference, where one is written.
    #[tactic(auto, using(crate::proofs::Writing::writing))]
    fn push_pointer(
        &self,
        alloc: Global,
        out: &mut EditList,
        lifetime: &Option<Ident>,
    ) -> Result<(), AllocError>
        ensures { OnOk result (out.new ≡ out.old ++ map written (writing.pointer_edits self.now.text.now (writing.becoming self.now) lifetime.now)) }
    {
        match lifetime {
            Some(lifetime) => {
                let name = becomes_both(self.first, self.then, &lifetime.name);
                push_reference(alloc, out, self.text, lifetime, name)
            }
            None => Ok(()),
        }
    }

    /// The edit of one of a list's lifetimes, where it is written.
    #[tactic(auto, using(crate::proofs::Writing::writing))]
    fn push_listed(
        &self,
        alloc: Global,
        out: &mut EditList,
        lifetime: &Option<Ident>,
    ) -> Result<(), AllocError>
        ensures { OnOk result (out.new ≡ out.old ++ map written (writing.listed_one (writing.becoming self.now) lifetime.now)) }
    {
        match lifetime {
            Some(lifetime) => {
                let name = becomes_both(self.first, self.then, &lifetime.name);
                push_argument(alloc, out, lifetime, name)
            }
            None => Ok(()),
        }
    }

    /// The edits of a list of lifetimes.
    #[tactic(auto, using(crate::proofs::Writing::writing))]
    fn push_list(
        &self,
        alloc: Global,
        out: &mut EditList,
        lifetimes: &[Option<Ident>],
    ) -> Result<(), AllocError>
        ensures { OnOk result (out.new ≡ out.old ++ map written (spec.listed_edits (writing.becoming self.now) lifetimes.now)) }
    {
        for lifetime in lifetimes {
            self.push_listed(alloc, out, lifetime)?;
        }
        Ok(())
    }

    /// The edits of a list of lifetimes, where one is written.
    #[tactic(auto, using(crate::proofs::Writing::writing))]
    fn push_written(
        &self,
        alloc: Global,
        out: &mut EditList,
        lifetimes: &Option<List<Option<Ident>>>,
    ) -> Result<(), AllocError>
        ensures { OnOk result (out.new ≡ out.old ++ map written (writing.list_if_any (writing.becoming self.now) lifetimes.now)) }
    {
        match lifetimes {
            Some(lifetimes) => self.push_list(alloc, out, lifetimes.as_slice()),
            None => Ok(()),
        }
    }

    // ---- types

    /// The edits of a type.
    #[cycle(types)]
    #[tactic(auto, using(rx_tree::proofs::Rules::type_rules, crate::proofs::Writing::writing))]
    fn push_type(&self, alloc: Global, out: &mut EditList, typ: &TypeText) -> Result<(), AllocError>
        ensures { OnOk result (out.new ≡ out.old ++ map written (spec.type_edits self.now.text.now (writing.becoming self.now) (plain-TypeText typ.now))) }
    {
        match &typ.node {
            TypeNode::Kind(_) | TypeNode::Bool => Ok(()),
            TypeNode::Tuple(parts) => self.push_types(alloc, out, parts.as_slice()),
            TypeNode::Ref(lifetime, _, inner) => {
                self.push_pointer(alloc, out, lifetime)?;
                self.push_type(alloc, out, inner.get())
            }
            TypeNode::Named(_, lifetimes) => self.push_written(alloc, out, lifetimes),
        }
    }

    #[cycle(types)]
    fn push_types(
        &self,
        alloc: Global,
        out: &mut EditList,
        types: &[TypeText],
    ) -> Result<(), AllocError>
        ensures { OnOk result (out.new ≡ out.old ++ map written (spec.types_edits self.now.text.now (writing.becoming self.now) (types_of (map plain-TypeText types.now)))) }
    {
        for typ in types {
            self.push_type(alloc, out, typ)?;
        }
        Ok(())
    }

    /// The edits of a type, where one is written.
    #[tactic(auto, using(crate::proofs::Writing::writing))]
    pub(crate) fn push_optional(
        &self,
        alloc: Global,
        out: &mut EditList,
        typ: &Option<TypeText>,
    ) -> Result<(), AllocError>
        ensures { OnOk result (out.new ≡ out.old ++ map written (spec.optional_edits self.now.text.now (writing.becoming self.now) (option_map plain-TypeText typ.now))) }
    {
        match typ {
            Some(typ) => self.push_type(alloc, out, typ),
            None => Ok(()),
        }
    }

    /// The edits of the types of parameters.
    #[tactic(auto, using(crate::proofs::Writing::writing))]
    pub(crate) fn push_parameters(
        &self,
        alloc: Global,
        out: &mut EditList,
        params: &[Param],
    ) -> Result<(), AllocError>
        ensures { OnOk result (out.new ≡ out.old ++ map written (spec.parameters_edits self.now.text.now (writing.becoming self.now) (map plain-Param params.now))) }
    {
        for param in params {
            self.push_type(alloc, out, &param.typ)?;
        }
        Ok(())
    }
}
