//! The modes that a policy chooses on uses.

ghost use Rattle.std.specs.Prelude.{◌≡◌, map, length, IfOk};
ghost use Rattle.rx_modes.specs.Told as spec;

use rx_core::List;
use rx_modes_policy::{Mode, Policy, Uses, allowed};
use std::alloc::{AllocError, Global};

/// Whether a variable with these uses can be passed.
fn can_pass(uses: &Uses) -> bool
    ensures { result ≡ spec.passes uses.now }
{
    let choice = allowed(uses);
    choice.first.is_some() || choice.last.is_some()
}

/// The first param that can't be passed.
pub(crate) fn first_without(params: &[u32], uses: &[Uses]) -> Option<u32>
    requires { length uses.now ≡ length params.now }
    ensures { result ≡ spec.first_without params.now uses.now }
{
    for i in 0..uses.len() {
        if !can_pass(&uses[i]) {
            return Some(params[i]);
        }
    }
    None
}

/// The mode that is chosen for each.
pub(crate) fn chosen<P: Policy>(
    alloc: Global,
    uses: &[Uses],
    policy: &P,
) -> Result<List<Mode>, AllocError>
    requires { spec.AllPass uses.now }
    ensures { IfOk result (λ it. it ≡ map (P.choice policy.now) uses.now) }
{
    let mut all = Vec::new(alloc);
    for i in 0..uses.len() {
        all.push(policy.choose(uses[i]))?;
    }
    Ok(List::from_vec(all))
}

/// Whether each is moved.
pub(crate) fn moved(alloc: Global, uses: &[Uses]) -> Result<List<bool>, AllocError>
    ensures { IfOk result (λ it. it ≡ map (λ u. u.moved) uses.now) }
{
    let mut all = Vec::new(alloc);
    for one in uses {
        all.push(one.moved)?;
    }
    Ok(List::from_vec(all))
}

/// Whether each is given away.
pub(crate) fn given_away(alloc: Global, uses: &[Uses]) -> Result<List<bool>, AllocError>
    ensures { IfOk result (λ it. it ≡ map spec.gives_away uses.now) }
{
    let mut all = Vec::new(alloc);
    for one in uses {
        all.push(one.moved || one.through && !(one.mut_ref || one.declared_mut))?;
    }
    Ok(List::from_vec(all))
}
