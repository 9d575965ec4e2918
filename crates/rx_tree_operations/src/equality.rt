//! Equality of names, types and patterns apart from spans.

ghost use Rattle.std.specs.Prelude.{◌≡◌, ◌↔◌, IsTrue, map, option_map};
ghost use Rattle.rx_tree.specs.PlainOf.{plain-TypeText, types_of, plain-Pattern, patterns_of, plain-FieldPattern, field_patterns_of};
ghost use Rattle.rx_tree.specs.Erase.{erase_ident, erase_label, erase_type, erase_types, erase_pattern, erase_patterns, erase_field_patterns};
ghost use Rattle.rx_tree.specs.Plain.{field_pattern_and, no_field_pattern};

use rx_core::List;
use rx_tree::{FieldPattern, Ident, Pattern, PatternNode, TypeNode, TypeText};

/// Whether both are one name.
pub fn same_name(a: &Ident, b: &Ident) -> bool
    ensures { IsTrue result ↔ (erase_ident a.now ≡ erase_ident b.now) }
{
    a.name.is(&b.name)
}

/// Whether both are one name, or neither is written.
pub fn same_label(a: &Option<Ident>, b: &Option<Ident>) -> bool
    ensures { IsTrue result ↔ (erase_label a.now ≡ erase_label b.now) }
{
    match a {
        None => b.is_none(),
        Some(x) => match b {
            Some(y) => same_name(x, y),
            None => false,
        },
    }
}

fn same_labels(a: &[Option<Ident>], b: &[Option<Ident>]) -> bool
    ensures { IsTrue result ↔ (map erase_label a.now ≡ map erase_label b.now) }
{
    if a.len() != b.len() {
        return false;
    }
    for i in 0..a.len() {
        if !same_label(&a[i], &b[i]) {
            return false;
        }
    }
    true
}

/// Whether both are one list of names.
pub fn same_names(a: &[Ident], b: &[Ident]) -> bool
    ensures { IsTrue result ↔ (map erase_ident a.now ≡ map erase_ident b.now) }
{
    if a.len() != b.len() {
        return false;
    }
    for i in 0..a.len() {
        if !same_name(&a[i], &b[i]) {
            return false;
        }
    }
    true
}

/// Whether both types are equal apart from spans.
#[cycle(same_types)]
#[tactic(auto, using(rx_tree::proofs::Rules::type_rules))]
pub fn same_type(a: &TypeText, b: &TypeText) -> bool
    ensures { IsTrue result ↔ (erase_type (plain-TypeText a.now) ≡ erase_type (plain-TypeText b.now)) }
{
    match &a.node {
        TypeNode::Kind(k) => match &b.node {
            TypeNode::Kind(l) => *k == *l,
            _ => false,
        },
        TypeNode::Bool => matches!(&b.node, TypeNode::Bool),
        TypeNode::Tuple(ts) => match &b.node {
            TypeNode::Tuple(us) => same_types(ts.as_slice(), us.as_slice()),
            _ => false,
        },
        TypeNode::Ref(l, m, t) => match &b.node {
            TypeNode::Ref(k, n, u) => {
                *m == *n && same_label(l, k) && same_type(t.get(), u.get())
            }
            _ => false,
        },
        TypeNode::Named(x, ls) => match &b.node {
            TypeNode::Named(y, ks) => same_name(x, y) && same_written(ls, ks),
            _ => false,
        },
    }
}

fn same_written(a: &Option<List<Option<Ident>>>, b: &Option<List<Option<Ident>>>) -> bool
    ensures { IsTrue result ↔ (option_map (map erase_label) a.now ≡ option_map (map erase_label) b.now) }
{
    match a {
        None => b.is_none(),
        Some(x) => match b {
            Some(y) => same_labels(x.as_slice(), y.as_slice()),
            None => false,
        },
    }
}

/// Whether both lists of types are equal apart from spans.
#[cycle(same_types)]
pub fn same_types(a: &[TypeText], b: &[TypeText]) -> bool
    ensures { IsTrue result ↔ (erase_types (types_of (map plain-TypeText a.now)) ≡ erase_types (types_of (map plain-TypeText b.now))) }
{
    if a.len() != b.len() {
        return false;
    }
    for i in 0..a.len() {
        if !same_type(&a[i], &b[i]) {
            return false;
        }
    }
    true
}

/// Whether both types are equal apart from spans, or neither is written.
pub fn same_optional_type(a: &Option<TypeText>, b: &Option<TypeText>) -> bool
    ensures { IsTrue result
        ↔ (option_map erase_type (option_map plain-TypeText a.now) ≡ option_map erase_type (option_map plain-TypeText b.now)) }
{
    match a {
        None => b.is_none(),
        Some(x) => match b {
            Some(y) => same_type(x, y),
            None => false,
        },
    }
}

/// Whether both patterns are equal apart from spans.
#[cycle(same_patterns)]
#[tactic(auto, using(rx_tree::proofs::Rules::pattern_rules))]
pub fn same_pattern(a: &Pattern, b: &Pattern) -> bool
    ensures { IsTrue result ↔ (erase_pattern (plain-Pattern a.now) ≡ erase_pattern (plain-Pattern b.now)) }
{
    match &a.node {
        PatternNode::Wild => matches!(&b.node, PatternNode::Wild),
        PatternNode::Bind(x, m) => match &b.node {
            PatternNode::Bind(y, n) => *m == *n && same_name(x, y),
            _ => false,
        },
        PatternNode::Int(g, v, k) => match &b.node {
            PatternNode::Int(h, w, l) => *g == *h && *v == *w && *k == *l,
            _ => false,
        },
        PatternNode::Bool(v) => match &b.node {
            PatternNode::Bool(w) => *v == *w,
            _ => false,
        },
        PatternNode::Tuple(ps) => match &b.node {
            PatternNode::Tuple(qs) => same_patterns(ps.as_slice(), qs.as_slice()),
            _ => false,
        },
        PatternNode::Variant(x, v, ps) => match &b.node {
            PatternNode::Variant(y, w, qs) => {
                same_name(x, y) && same_name(v, w) && same_patterns(ps.as_slice(), qs.as_slice())
            }
            _ => false,
        },
        PatternNode::Make(x, fs) => match &b.node {
            PatternNode::Make(y, gs) => {
                same_name(x, y) && same_field_patterns(fs.as_slice(), gs.as_slice())
            }
            _ => false,
        },
    }
}

#[cycle(same_patterns)]
fn same_patterns(a: &[Pattern], b: &[Pattern]) -> bool
    ensures { IsTrue result
        ↔ (erase_patterns (patterns_of (map plain-Pattern a.now)) ≡ erase_patterns (patterns_of (map plain-Pattern b.now))) }
{
    if a.len() != b.len() {
        return false;
    }
    for i in 0..a.len() {
        if !same_pattern(&a[i], &b[i]) {
            return false;
        }
    }
    true
}

#[cycle(same_patterns)]
#[tactic(auto, using(rx_tree::proofs::Rules::field_pattern_by_parts))]
fn same_field_pattern(a: &FieldPattern, b: &FieldPattern) -> bool
    ensures { IsTrue result
        ↔ (erase_field_patterns (field_pattern_and (plain-FieldPattern a.now).0 (plain-FieldPattern a.now).1 no_field_pattern)
        ≡ erase_field_patterns (field_pattern_and (plain-FieldPattern b.now).0 (plain-FieldPattern b.now).1 no_field_pattern)) }
{
    same_name(&a.field, &b.field) && same_pattern(&a.pattern, &b.pattern)
}

#[cycle(same_patterns)]
fn same_field_patterns(a: &[FieldPattern], b: &[FieldPattern]) -> bool
    ensures { IsTrue result
        ↔ (erase_field_patterns (field_patterns_of (map plain-FieldPattern a.now))
        ≡ erase_field_patterns (field_patterns_of (map plain-FieldPattern b.now))) }
{
    if a.len() != b.len() {
        return false;
    }
    for i in 0..a.len() {
        if !same_field_pattern(&a[i], &b[i]) {
            return false;
        }
    }
    true
}
