//! What a pattern of the answer is, by its form.

ghost use Rattle.std.specs.Prelude.{◌≡◌, Some, None, MatchOption, map};
ghost use Rattle.rx_typed.specs.PlainTree.{plain-Pattern, plain-Constant, plain-Mode, plain-Subpattern, subpatterns_of};
ghost use Rattle.rx_engine_alike.specs.Read as read;

use rx_typed::{Constant, Mode, Pattern, Subpattern};

/// Whether all match it.
#[tactic(auto, using(rx_typed::proofs::Rules::typed_pattern_rules))]
pub(crate) fn is_any(pattern: &Pattern) -> bool
    ensures { result ≡ read.is_any (plain-Pattern pattern.now) }
{
    match pattern {
        Pattern::Any => true,
        Pattern::Bind(_, _, _) | Pattern::Exactly(_, _) | Pattern::Parts(_) => false,
        Pattern::Variant(_, _, _, _, _) | Pattern::Behind(_, _) => false,
    }
}

/// The node, the variable, and how it is bound.
#[tactic(auto, using(rx_typed::proofs::Rules::typed_pattern_rules))]
pub(crate) fn bind_of(pattern: &Pattern) -> Option<(usize, u32, Mode)>
    ensures { MatchOption result (read.as_bind (plain-Pattern pattern.now) ≡ None)
        (λ it. read.as_bind (plain-Pattern pattern.now) ≡ Some (it.0, it.1, plain-Mode it.2)) }
{
    match pattern {
        Pattern::Bind(node, variable, mode) => Some((*node, *variable, *mode)),
        Pattern::Any | Pattern::Exactly(_, _) | Pattern::Parts(_) => None,
        Pattern::Variant(_, _, _, _, _) | Pattern::Behind(_, _) => None,
    }
}

/// The node, and the constant that is tested for.
#[tactic(auto, using(rx_typed::proofs::Rules::typed_pattern_rules))]
pub(crate) fn exactly_of(pattern: &Pattern) -> Option<(usize, Constant)>
    ensures { MatchOption result (read.as_exactly (plain-Pattern pattern.now) ≡ None)
        (λ it. read.as_exactly (plain-Pattern pattern.now) ≡ Some (it.0, plain-Constant it.1)) }
{
    match pattern {
        Pattern::Exactly(node, constant) => Some((*node, *constant)),
        Pattern::Any | Pattern::Bind(_, _, _) | Pattern::Parts(_) => None,
        Pattern::Variant(_, _, _, _, _) | Pattern::Behind(_, _) => None,
    }
}

/// The parts of a tuple or struct.
#[tactic(auto, using(rx_typed::proofs::Rules::typed_pattern_rules))]
pub(crate) fn parts_of(pattern: &Pattern) -> Option<&[Subpattern]>
    ensures { MatchOption result (read.as_parts (plain-Pattern pattern.now) ≡ None)
        (λ it. read.as_parts (plain-Pattern pattern.now) ≡ Some (subpatterns_of (map plain-Subpattern it.now))) }
{
    match pattern {
        Pattern::Parts(parts) => Some(parts.as_slice()),
        Pattern::Any | Pattern::Bind(_, _, _) | Pattern::Exactly(_, _) => None,
        Pattern::Variant(_, _, _, _, _) | Pattern::Behind(_, _) => None,
    }
}

/// The node, the enum's item, whether it has more than one variant, the variant, and its parts.
#[tactic(auto, using(rx_typed::proofs::Rules::typed_pattern_rules))]
pub(crate) fn variant_of(pattern: &Pattern) -> Option<(usize, u32, bool, u32, &[Subpattern])>
    ensures { MatchOption result (read.as_variant (plain-Pattern pattern.now) ≡ None)
        (λ it. read.as_variant (plain-Pattern pattern.now) ≡ Some (it.0, it.1, it.2, it.3, subpatterns_of (map plain-Subpattern it.4.now))) }
{
    match pattern {
        Pattern::Variant(node, item, several, variant, parts) => {
            Some((*node, *item, *several, *variant, parts.as_slice()))
        }
        Pattern::Any | Pattern::Bind(_, _, _) | Pattern::Exactly(_, _) => None,
        Pattern::Parts(_) | Pattern::Behind(_, _) => None,
    }
}

/// Whether the reference is mutable, and what is matched behind it.
#[tactic(auto, using(rx_typed::proofs::Rules::typed_pattern_rules))]
pub(crate) fn behind_of(pattern: &Pattern) -> Option<(bool, &Pattern)>
    ensures { MatchOption result (read.as_behind (plain-Pattern pattern.now) ≡ None)
        (λ it. read.as_behind (plain-Pattern pattern.now) ≡ Some (it.0, plain-Pattern it.1.now)) }
{
    match pattern {
        Pattern::Behind(mutable, inner) => Some((*mutable, inner.get())),
        Pattern::Any | Pattern::Bind(_, _, _) | Pattern::Exactly(_, _) => None,
        Pattern::Parts(_) | Pattern::Variant(_, _, _, _, _) => None,
    }
}
