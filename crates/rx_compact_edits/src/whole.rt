//! The text of a short signature.

ghost use Rattle.std.specs.Prelude.{◌≡◌, ◌++◌, map, IfOk, OnOk, SomeIff};
ghost use Rattle.rx_tree.specs.PlainOf.{plain-Block, plain-Func};
ghost use Rattle.rx_lex.specs.Tok.{toks};
ghost use Rattle.rx_splice.specs.Edits.{AreEdits, spliced};
ghost use Rattle.rx_splice_laws.specs.Edits.{written};
ghost use Rattle.rx_hoist_extraction.specs.OwnLifetimes.{idents};
ghost use Rattle.rx_compact_lifetimes.specs.Elided.{in_body};
ghost use Rattle.rx_compact_lifetimes.specs.Merged.{merged_by};
ghost use Rattle.rx_compact_known.specs.Knowing.{knows};
ghost use Rattle.rx_compact_text.specs.CompactedText as spec;
ghost use Rattle.rx_compact_edits.specs.Writing as writing;

use crate::body::push_body;
use crate::cutting::can_be_cut;
use crate::list::push_list;
use crate::types::Changes;
use rx_compact_functions::{body_lifetimes, merged_function, mergings};
use rx_compact_known::KnownLifetimes;
use rx_compact_lifetimes::{Rewriting, elisions, kept};
use rx_core::{LetGo, Text};
use rx_lex::Token;
use rx_splice::splice;
use rx_splice_walk::EditList;
use rx_tree::{BoundLifetime, Func, Ident};
use std::alloc::{AllocError, Global};

/// A text with its tokens, and the function in it whose signature is to be short.
#[derive(Clone, Copy)]
pub(crate) struct Source<'s> {
    pub text: &'s str,
    pub tokens: &'s [Token<'s>],
    pub function: &'s Func,
}

/// Adds the edits of a function with these lifetimes in its list, by the names that stand for others, and those that are left out then.
#[tactic(auto, using(crate::proofs::Writing::writing))]
fn push_edits(
    alloc: Global,
    out: &mut EditList,
    source: Source<'_>,
    first: &[Rewriting],
    then: &[Rewriting],
    lifetimes: &[BoundLifetime],
) -> Result<(), AllocError>
    ensures { OnOk result (out.new ≡ out.old ++ map written (writing.edits_by (writing.part_of source.entry) first.now then.now lifetimes.now)) }
{
    let changes = Changes {
        text: source.text,
        first,
        then,
    };
    let function = source.function;
    push_list(alloc, out, source.tokens, function, lifetimes)?;
    changes.push_parameters(alloc, out, function.params.as_slice())?;
    changes.push_optional(alloc, out, &function.result)?;
    push_body(alloc, out, source.text, first, &function.body)?;
    Ok(())
}

/// The same edits, of the function as it has become by those names: its body names these lifetimes.
fn by_names(
    alloc: Global,
    source: Source<'_>,
    single: bool,
    first: &[Rewriting],
    named: &[Ident],
    merged: &Func,
) -> Result<EditList, AllocError>
    ensures { IfOk result (λ it. it ≡ map written (writing.edits_named (writing.part_of source.entry) single first.now (idents named.now) (plain-Func merged.now))) }
{
    let lifetimes = merged.lifetimes.as_slice();
    let then = elisions(alloc, single, named, merged, lifetimes)?;
    let left = kept(alloc, single, named, merged, lifetimes)?;
    let mut out = EditList::new(alloc);
    push_edits(
        alloc,
        &mut out,
        source,
        first,
        then.as_slice(),
        left.as_slice(),
    )?;
    Ok(out)
}

/// The same edits, by the function as it has become.
fn by_merged(
    alloc: Global,
    source: Source<'_>,
    single: bool,
    first: &[Rewriting],
    merged: &Func,
) -> Result<EditList, AllocError>
    ensures { IfOk result (λ it. it ≡ map written (writing.edits_named (writing.part_of source.entry) single first.now (in_body (plain-Block merged.now.body)) (plain-Func merged.now))) }
{
    let named = body_lifetimes(alloc, &merged.body)?;
    by_names(alloc, source, single, first, named.as_slice(), merged)
}

/// The edits of a function by the names that stand for others.
fn by_mergings(
    alloc: Global,
    source: Source<'_>,
    single: bool,
    first: &[Rewriting],
) -> Result<EditList, AllocError>
    ensures { IfOk result (λ it. it ≡ map written (writing.edits_merged (writing.part_of source.entry) single first.now)) }
{
    let merged = merged_function(alloc, first, source.function)?;
    let edits = by_merged(alloc, source, single, first, &merged);
    merged.let_go();
    edits
}

/// The edits that make a function's signature short, by what is known of its lifetimes.
fn compacted_edits(
    alloc: Global,
    known: &KnownLifetimes,
    single: bool,
    source: Source<'_>,
) -> Result<EditList, AllocError>
    ensures { IfOk result (λ it. it ≡ map written (spec.compacted_edits (knows known.now) single source.entry.text.now (toks source.entry.tokens.now) (plain-Func source.entry.function.now))) }
{
    let first = mergings(alloc, known, source.function.lifetimes.as_slice())?;
    by_mergings(alloc, source, single, first.as_slice())
}

/// A text with edits, where they are in order and it may be cut where they stand.
fn text_with(alloc: Global, text: &str, edits: EditList) -> Result<Option<Text>, AllocError>
    ensures { IfOk result (λ it. SomeIff it (AreEdits text.now edits) (spliced 0 text.now edits)) }
{
    if !can_be_cut(text, edits.as_slice()) {
        return Ok(None);
    }
    Ok(Some(splice(alloc, text, &edits.into_edits())?))
}

/// The text of a file with a short signature of one of its functions, by its tokens, by what is known of the function's lifetimes, and
/// by whether the types of its parameters have one: all but the list of lifetimes and those that change keeps its bytes. There is one
/// where the edits stand in order and where characters begin.
///
/// # Errors
///
/// Memory runs out.
pub fn compacted_text(
    alloc: Global,
    known: &KnownLifetimes,
    single: bool,
    text: &str,
    tokens: &[Token<'_>],
    function: &Func,
) -> Result<Option<Text>, AllocError>
    ensures { IfOk result (λ it. SomeIff it (AreEdits text.now (map written (spec.compacted_edits (knows known.now) single text.now (toks tokens.now) (plain-Func function.now))))
        (spec.compacted_text (knows known.now) single text.now (toks tokens.now) (plain-Func function.now))) }
{
    let source = Source {
        text,
        tokens,
        function,
    };
    let edits = compacted_edits(alloc, known, single, source)?;
    text_with(alloc, text, edits)
}
