//! The variables that patterns bind.

ghost use Rattle.std.specs.Prelude.{◌≡◌, ◌++◌, OnOk, map};
ghost use Rattle.rx_typed.specs.PlainTree.{plain-Pattern, plain-Subpattern, subpatterns_of};
ghost use Rattle.rx_exits_plan.specs.Blocks.{bound};
ghost use Rattle.rx_exits_plan.specs.Bound.{bound_pattern, bound_parts};

use rx_core::List;
use rx_typed::{Pattern, Subpattern};
use std::alloc::AllocError;

/// Adds the variables that a pattern binds, from left to right.
pub fn push_bound(variables: &mut List<u32>, pattern: &Pattern) -> Result<(), AllocError>
    ensures { OnOk result (variables.new ≡ variables.old ++ bound (plain-Pattern pattern.now)) }
{
    push_pattern(variables, pattern)
}

#[cycle(bound)]
#[tactic(auto, using(rx_typed::proofs::Rules::typed_pattern_rules, crate::proofs::BoundLemmas::bound_rules))]
fn push_pattern(variables: &mut List<u32>, pattern: &Pattern) -> Result<(), AllocError>
    ensures { OnOk result (variables.new ≡ variables.old ++ bound_pattern (plain-Pattern pattern.now)) }
{
    match pattern {
        Pattern::Any | Pattern::Exactly(_, _) => Ok(()),
        Pattern::Bind(_, variable, _) => variables.push(*variable),
        Pattern::Parts(parts) => push_parts(variables, parts.as_slice()),
        Pattern::Variant(_, _, _, _, parts) => push_parts(variables, parts.as_slice()),
        Pattern::Behind(_, inner) => push_pattern(variables, inner.get()),
    }
}

#[cycle(bound)]
fn push_parts(variables: &mut List<u32>, parts: &[Subpattern]) -> Result<(), AllocError>
    ensures { OnOk result (variables.new ≡ variables.old ++ bound_parts (subpatterns_of (map plain-Subpattern parts.now))) }
{
    for part in parts {
        push_pattern(variables, &part.pattern)?;
    }
    Ok(())
}
