//! The bindings of patterns.

ghost use Rattle.std.specs.Prelude.{◌≡◌, ◌++◌, ◌∷◌, [], IfOk, OnOk, map};
ghost use Rattle.rx_core.specs.declared.types.Step.TheVariants as step;
ghost use Rattle.rx_typed.specs.PlainTree.{plain-Pattern, plain-Subpattern, subpatterns_of};
ghost use Rattle.rx_typed.specs.Tree.{by_value, temporary_at};
ghost use Rattle.rx_lower_walks.specs.Matching as matching;
ghost use Rattle.rx_lower_walks.specs.Actions as actions;
ghost use Rattle.rx_lower_walks.specs.Flows as flows;
ghost use Rattle.rx_lower_walks.specs.PlainFlow.{plain-Flow, plain-Item, plain-Temporary};
ghost use Rattle.rx_lower_order.specs.Items.{binding_items, perhaps};
ghost use Rattle.rx_lower_order.specs.PlainParts.{plain-Binding, plain-Subject};

use crate::pushing::{acts, push_act, push_end, push_flow};
use crate::subject::{Subject, extended, own, part};
use rx_core::{List, Step, keep};
use rx_lower_walks::{Act, Flow, Item, Temporary};
use rx_typed::{Mode, Pattern, Subpattern};
use std::alloc::{AllocError, Global};

/// A binding of a pattern: its node, its variable, the way to what it takes, and how it takes it.
#[derive(Clone, Copy)]
pub struct Binding<'a> {
    pub node: usize,
    pub variable: u32,
    pub steps: &'a [Step],
    pub mode: Mode,
}

/// A part of a place is read; that of a temporary is not.
#[tactic(auto, using(rx_lower_walks::proofs::Rules::flow_rules))]
fn taken_by_value(
    alloc: Global,
    subject: Subject<'_>,
    node: usize,
    moves: bool,
    steps: &[Step],
) -> Result<Flow, AllocError>
    ensures { IfOk result (λ it. plain-Flow it
        ≡ perhaps node (actions.taking (by_value moves) (plain-Subject subject.entry) steps.now (temporary_at node 0))) }
{
    match subject {
        Subject::InPlace(_) => {
            let place = part(alloc, subject, steps)?;
            let into = Temporary { node, which: 0 };
            Ok(acts(node, Act::Read(moves, place, into)))
        }
        Subject::InTemporary(_) => Ok(Flow::Nothing),
    }
}

/// What a binding takes.
#[tactic(auto, using(rx_lower_walks::proofs::Rules::flow_rules))]
fn taken(alloc: Global, subject: Subject<'_>, binding: Binding<'_>) -> Result<Flow, AllocError>
    ensures { IfOk result (λ it. plain-Flow it
        ≡ perhaps binding.entry.node (actions.taken (plain-Subject subject.entry) (plain-Binding binding.entry))) }
{
    match binding.mode {
        Mode::Value(moves) => taken_by_value(alloc, subject, binding.node, moves, binding.steps),
        Mode::Reference(mutable) => {
            let place = part(alloc, subject, binding.steps)?;
            let into = Temporary {
                node: binding.node,
                which: 0,
            };
            Ok(acts(binding.node, Act::Borrow(mutable, place, into)))
        }
    }
}

/// What the value of a binding is written from: what was taken, or the part of the temporary.
fn source(
    alloc: Global,
    subject: Subject<'_>,
    binding: Binding<'_>,
) -> Result<(Temporary, List<Step>), AllocError>
    ensures { IfOk result (λ it. (plain-Temporary it.0, it.1)
        ≡ actions.source_of (plain-Subject subject.entry) (plain-Binding binding.entry)) }
{
    let own = Temporary {
        node: binding.node,
        which: 0,
    };
    match binding.mode {
        Mode::Value(moves) => source_of_value(alloc, subject, moves, binding.steps, own),
        Mode::Reference(_) => Ok((own, List::new(alloc))),
    }
}

fn source_of_value(
    alloc: Global,
    subject: Subject<'_>,
    _moves: bool,
    steps: &[Step],
    own: Temporary,
) -> Result<(Temporary, List<Step>), AllocError>
    ensures { IfOk result (λ it. (plain-Temporary it.0, it.1)
        ≡ actions.source (by_value _moves) (plain-Subject subject.entry) steps.now (plain-Temporary own)) }
{
    match subject {
        Subject::InPlace(_) => Ok((own, List::new(alloc))),
        Subject::InTemporary(temporary) => Ok((temporary, List::from_slice(alloc, steps)?)),
    }
}

/// Adds that the variable of a binding is written.
#[tactic(auto, using(crate::proofs::Listed::part_rules))]
fn push_written(
    alloc: Global,
    items: &mut List<Item>,
    subject: Subject<'_>,
    binding: Binding<'_>,
) -> Result<(), AllocError>
    ensures { OnOk result (map plain-Item items.new
        ≡ map plain-Item items.old ++ flows.doing (flows.act (actions.written (plain-Subject subject.entry) (plain-Binding binding.entry))) ∷ []) }
{
    let (from, steps) = source(alloc, subject, binding)?;
    let variable = own(alloc, binding.variable);
    push_act(items, binding.node, Act::Write(variable, from, steps))
}

/// Adds what a binding does. Its variable ends at a node.
#[tactic(auto, using(crate::proofs::Listed::part_rules))]
fn push_binding(
    alloc: Global,
    items: &mut List<Item>,
    subject: Subject<'_>,
    end: usize,
    binding: Binding<'_>,
) -> Result<(), AllocError>
    ensures { OnOk result (map plain-Item items.new
        ≡ map plain-Item items.old ++ binding_items (plain-Subject subject.entry) (plain-Binding binding.entry ∷ []) end) }
{
    let flow = taken(alloc, subject, binding)?;
    push_flow(items, flow)?;
    push_act(items, binding.node, Act::Declare(binding.variable))?;
    push_written(alloc, items, subject, binding)?;
    push_end(items, end, binding.variable)
}

/// Adds the bindings of a pattern, from left to right.
#[cycle(bindings)]
#[tactic(auto, using(rx_typed::proofs::Rules::typed_pattern_rules, crate::proofs::Listed::part_rules))]
fn push_bindings(
    alloc: Global,
    pattern: &Pattern,
    items: &mut List<Item>,
    subject: Subject<'_>,
    end: usize,
    at: &[Step],
) -> Result<(), AllocError>
    ensures { OnOk result (map plain-Item items.new
        ≡ map plain-Item items.old ++ binding_items (plain-Subject subject.entry) (matching.bindings at.now (plain-Pattern pattern.now)) end) }
{
    match pattern {
        Pattern::Any => Ok(()),
        Pattern::Bind(node, variable, mode) => {
            let binding = Binding {
                node: *node,
                variable: *variable,
                steps: at,
                mode: *mode,
            };
            push_binding(alloc, items, subject, end, binding)
        }
        Pattern::Exactly(_, _) => Ok(()),
        Pattern::Parts(parts) => push_bindings_in(alloc, parts.as_slice(), items, subject, end, at),
        Pattern::Variant(_, _, _, variant, parts) => {
            push_bindings_of_variant(alloc, parts, items, subject, end, at, *variant)
        }
        Pattern::Behind(mutable, pattern) => {
            push_bindings_behind(alloc, pattern.get(), items, subject, end, at, *mutable)
        }
    }
}

#[cycle(bindings)]
fn push_bindings_of_variant(
    alloc: Global,
    parts: &List<Subpattern>,
    items: &mut List<Item>,
    subject: Subject<'_>,
    end: usize,
    at: &[Step],
    variant: u32,
) -> Result<(), AllocError>
    ensures { OnOk result (map plain-Item items.new
        ≡ map plain-Item items.old ++ binding_items (plain-Subject subject.entry) (matching.bindings_in (at.now ++ step.Variant variant ∷ []) (subpatterns_of (map plain-Subpattern parts.now))) end) }
{
    let at = extended(alloc, at, Step::Variant(variant))?;
    push_bindings_in(alloc, parts.as_slice(), items, subject, end, at.as_slice())
}

#[cycle(bindings)]
fn push_bindings_behind(
    alloc: Global,
    pattern: &Pattern,
    items: &mut List<Item>,
    subject: Subject<'_>,
    end: usize,
    at: &[Step],
    mutable: bool,
) -> Result<(), AllocError>
    ensures { OnOk result (map plain-Item items.new
        ≡ map plain-Item items.old ++ binding_items (plain-Subject subject.entry) (matching.bindings (at.now ++ step.Deref mutable ∷ []) (plain-Pattern pattern.now)) end) }
{
    let at = extended(alloc, at, Step::Deref(mutable))?;
    push_bindings(alloc, pattern, items, subject, end, at.as_slice())
}

/// Adds the bindings of the parts of a pattern.
#[cycle(bindings)]
#[tactic(auto, using(rx_typed::proofs::Rules::typed_pattern_rules, crate::proofs::Listed::part_rules))]
fn push_bindings_in(
    alloc: Global,
    parts: &[Subpattern],
    items: &mut List<Item>,
    subject: Subject<'_>,
    end: usize,
    at: &[Step],
) -> Result<(), AllocError>
    ensures { OnOk result (map plain-Item items.new
        ≡ map plain-Item items.old ++ binding_items (plain-Subject subject.entry) (matching.bindings_in at.now (subpatterns_of (map plain-Subpattern parts.now))) end) }
{
    for part in parts {
        push_bindings_of_part(alloc, part, items, subject, end, at)?;
    }
    Ok(())
}

/// Adds the bindings of a part. Where numbers of 32 bits run out it is as if memory did.
#[cycle(bindings)]
#[tactic(auto, using(rx_typed::proofs::Rules::typed_pattern_rules))]
fn push_bindings_of_part(
    alloc: Global,
    part: &Subpattern,
    items: &mut List<Item>,
    subject: Subject<'_>,
    end: usize,
    at: &[Step],
) -> Result<(), AllocError>
    ensures { OnOk result (map plain-Item items.new
        ≡ map plain-Item items.old ++ binding_items (plain-Subject subject.entry) (matching.bindings (at.now ++ step.Field (plain-Subpattern part.now).0 ∷ []) (plain-Subpattern part.now).1) end) }
{
    match u32::try_from(part.field) {
        Ok(field) => {
            let at = extended(alloc, at, Step::Field(field))?;
            push_bindings(alloc, &part.pattern, items, subject, end, at.as_slice())
        }
        Err(_too_many) => Err(AllocError),
    }
}

/// The items, and the bindings of a pattern.
pub fn bound(
    alloc: Global,
    items: List<Item>,
    subject: Subject<'_>,
    end: usize,
    pattern: &Pattern,
) -> Result<List<Item>, AllocError>
    ensures { IfOk result (λ it. map plain-Item it
        ≡ map plain-Item items ++ binding_items (plain-Subject subject.entry) (matching.bindings [] (plain-Pattern pattern.now)) end) }
{
    let mut items = items;
    let outcome = push_bindings(alloc, pattern, &mut items, subject, end, &[]);
    let ((), items) = keep(items, outcome)?;
    Ok(items)
}
