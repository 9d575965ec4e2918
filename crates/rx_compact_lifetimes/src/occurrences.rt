//! Where a lifetime stands in a signature.

ghost use Rattle.std.specs.Prelude.{◌≡◌, ◌==◌, ◌+◌, ◌∷◌, [], map, option_map};
ghost use Rattle.rx_tree.specs.PlainOf.{plain-Param, plain-TypeText, types_of};
ghost use Rattle.rx_resolve_names.specs.Names.{written};
ghost use Rattle.rx_typed.specs.Numbers.{capped};
ghost use Rattle.rx_hoist_extraction.specs.Names.{is_among};
ghost use Rattle.rx_hoist_extraction.specs.OwnLifetimes as own;
ghost use Rattle.rx_compact_lifetimes.specs.Elided as spec;

use crate::lists::has_name;
use crate::types::is_same;
use rx_core::{List, Name};
use rx_tree::{BoundLifetime, Ident, Param, TypeNode, TypeText};

// ---- how often it is written: the greatest number of 64 bits where that is more

fn add(a: u64, b: u64) -> u64
    ensures { result ≡ capped (a + b) }
{
    a.saturating_add(b)
}

/// A number, and one more where the lifetime is written and has this name.
fn times_here(before: u64, name: &Name, lifetime: &Option<Ident>) -> u64
    ensures { result ≡ capped (before + spec.times name.now (lifetime.now ∷ [])) }
{
    match lifetime {
        Some(lifetime) => {
            if is_same(name, &lifetime.name) {
                return add(before, 1);
            }
            before
        }
        None => before,
    }
}

fn times_in_list(before: u64, name: &Name, lifetimes: &[Option<Ident>]) -> u64
    ensures { result ≡ capped (before + spec.times name.now lifetimes.now) }
{
    let mut total = before;
    for lifetime in lifetimes {
        total = times_here(total, name, lifetime);
    }
    total
}

/// The same of the list of a struct or enum, where it is written.
fn times_in_written(before: u64, name: &Name, lifetimes: &Option<List<Option<Ident>>>) -> u64
    ensures { result ≡ capped (before + spec.times name.now (written lifetimes.now)) }
{
    match lifetimes {
        Some(lifetimes) => times_in_list(before, name, lifetimes.as_slice()),
        None => before,
    }
}

/// A number, and how often a type writes the lifetime of this name.
#[cycle(times)]
#[tactic(auto, using(rx_tree::proofs::Rules::type_rules, crate::proofs::Occurring::times_rules))]
fn times_in(before: u64, name: &Name, typ: &TypeText) -> u64
    ensures { result ≡ capped (before + spec.times name.now (own.lifetimes_in (plain-TypeText typ.now))) }
{
    match &typ.node {
        TypeNode::Kind(_) | TypeNode::Bool => before,
        TypeNode::Tuple(parts) => times_in_all(before, name, parts.as_slice()),
        TypeNode::Ref(lifetime, _, inner) => {
            times_in(times_here(before, name, lifetime), name, inner.get())
        }
        TypeNode::Named(_, lifetimes) => times_in_written(before, name, lifetimes),
    }
}

#[cycle(times)]
fn times_in_all(before: u64, name: &Name, types: &[TypeText]) -> u64
    ensures { result ≡ capped (before + spec.times name.now (own.lifetimes_in_all (types_of (map plain-TypeText types.now)))) }
{
    let mut total = before;
    for typ in types {
        total = times_in(total, name, typ);
    }
    total
}

/// How often the types of parameters write the lifetime of this name.
fn times_in_parameters(name: &Name, params: &[Param]) -> u64
    ensures { result ≡ capped (spec.times name.now (own.in_parameters (map plain-Param params.now))) }
{
    let mut total = 0;
    for param in params {
        total = times_in(total, name, &param.typ);
    }
    total
}

/// Whether the types of parameters write the lifetime of this name once.
#[tactic(auto, using(crate::proofs::Occurring::small_sums))]
pub fn is_once(name: &Name, params: &[Param]) -> bool
    ensures { result ≡ (spec.times name.now (own.in_parameters (map plain-Param params.now)) == 1) }
{
    times_in_parameters(name, params) == 1
}

/// Whether a type doesn't write the lifetime of this name.
#[tactic(auto, using(crate::proofs::Occurring::small_sums))]
fn is_not_in(name: &Name, typ: &TypeText) -> bool
    ensures { result ≡ (spec.times name.now (own.lifetimes_in (plain-TypeText typ.now)) == 0) }
{
    times_in(0, name, typ) == 0
}

// ---- whether each that is written has this name

fn is_here(name: &Name, lifetime: &Option<Ident>) -> bool
    ensures { result ≡ spec.are_all name.now (lifetime.now ∷ []) }
{
    match lifetime {
        Some(lifetime) => is_same(name, &lifetime.name),
        None => true,
    }
}

fn are_in_list(name: &Name, lifetimes: &[Option<Ident>]) -> bool
    ensures { result ≡ spec.are_all name.now lifetimes.now }
{
    for lifetime in lifetimes {
        if !is_here(name, lifetime) {
            return false;
        }
    }
    true
}

fn are_in_written(name: &Name, lifetimes: &Option<List<Option<Ident>>>) -> bool
    ensures { result ≡ spec.are_all name.now (written lifetimes.now) }
{
    match lifetimes {
        Some(lifetimes) => are_in_list(name, lifetimes.as_slice()),
        None => true,
    }
}

/// Whether a type writes no lifetime of another name.
#[cycle(are)]
#[tactic(auto, using(rx_tree::proofs::Rules::type_rules, crate::proofs::Occurring::all_rules))]
fn are_in(name: &Name, typ: &TypeText) -> bool
    ensures { result ≡ spec.are_all name.now (own.lifetimes_in (plain-TypeText typ.now)) }
{
    match &typ.node {
        TypeNode::Kind(_) | TypeNode::Bool => true,
        TypeNode::Tuple(parts) => are_in_all(name, parts.as_slice()),
        TypeNode::Ref(lifetime, _, inner) => is_here(name, lifetime) && are_in(name, inner.get()),
        TypeNode::Named(_, lifetimes) => are_in_written(name, lifetimes),
    }
}

#[cycle(are)]
fn are_in_all(name: &Name, types: &[TypeText]) -> bool
    ensures { result ≡ spec.are_all name.now (own.lifetimes_in_all (types_of (map plain-TypeText types.now))) }
{
    for typ in types {
        if !are_in(name, typ) {
            return false;
        }
    }
    true
}

// ---- in bounds, and in a result

fn bounds_name(name: &Name, lifetime: &BoundLifetime) -> bool
    ensures { result ≡ is_among name.now (spec.bounding lifetime.now lifetime.now.bounds) }
{
    if lifetime.bounds.is_empty() {
        return false;
    }
    is_same(name, &lifetime.name.name) || has_name(name, lifetime.bounds.as_slice())
}

/// Whether the lifetime of this name stands in a bound.
pub fn is_in_bounds(name: &Name, lifetimes: &[BoundLifetime]) -> bool
    ensures { result ≡ is_among name.now (spec.in_bounds lifetimes.now) }
{
    for lifetime in lifetimes {
        if bounds_name(name, lifetime) {
            return true;
        }
    }
    false
}

/// Whether a result lets the lifetime of this name be left out.
pub fn result_allows(single: bool, typ: &Option<TypeText>, name: &Name) -> bool
    ensures { result ≡ spec.result_allows single (own.lifetimes_if_any (option_map plain-TypeText typ.now)) name.now }
{
    match typ {
        Some(typ) => is_not_in(name, typ) || (single && are_in(name, typ)),
        None => true,
    }
}
