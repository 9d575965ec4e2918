//! What a borrow asks of the references that its place goes through.

ghost use Rattle.std.specs.Prelude.{◌≡◌, ◌++◌, OnOk};
ghost use Rattle.rx_typed.specs.Regions.{region-Ty, region_reference};
ghost use Rattle.rx_typed.specs.Tree.{temporary as temporary_root};
ghost use Rattle.rx_lower_walks.specs.PlainFlow.{plain-Place, plain-Root, plain-Temporary};
ghost use Rattle.rx_lower_lifetimes.specs.PlainOwn.{plain-Own};
ghost use Rattle.rx_lower_walks.specs.Actions.{Borrow as borrow_act};
ghost use Rattle.rx_region.specs.Constraints as spec;
ghost use Rattle.rx_region.specs.PlainContext.{plain-Given};
ghost use Rattle.rx_region.specs.Steps as steps_of;

use crate::given::{Given, root_type};
use rx_core::{Bound, LetGo, List, Step, Ty};
use rx_lower_lifetimes::Own;
use rx_lower_walks::{Place, Temporary};
use rx_typed::{Decls, place_type, reference};
use std::alloc::{AllocError, Global};

/// Whether a step goes through a shared reference.
fn is_shared(step: Step) -> bool
    ensures { result ≡ steps_of.is_shared step }
{
    match step {
        Step::Deref(mutable) => !mutable,
        Step::Field(_) | Step::Variant(_) => false,
    }
}

/// Whether some of these steps goes through a shared reference.
fn goes_shared(steps: &[Step]) -> bool
    ensures { result ≡ spec.goes_shared steps.now }
{
    for i in 0..steps.len() {
        if is_shared(steps[i]) {
            return true;
        }
    }
    false
}

/// Adds that the reference of a type outlives the borrow, where no later step goes through a shared one.
#[tactic(auto, using(rx_typed::proofs::TypedRules::region_rules, crate::proofs::ConstraintsRules::appending))]
fn add_through(
    pairs: &mut List<Bound>,
    ty: &Ty,
    region: u32,
    behind: &[Step],
) -> Result<(), AllocError>
    ensures { OnOk result (pairs.new ≡ pairs.old ++ spec.through (region-Ty ty.now) region behind.now) }
{
    match ty {
        Ty::Shared(lifetime, _) | Ty::Mut(lifetime, _) => {
            if goes_shared(behind) {
                Ok(())
            } else {
                pairs.push(Bound {
                    long: *lifetime,
                    short: region,
                })
            }
        }
        Ty::Int(_) | Ty::Bool | Ty::Tuple(_) | Ty::Adt(_, _) => Ok(()),
    }
}

/// Adds what a step asks that stands in front of others.
#[tactic(auto, using(crate::proofs::ConstraintsRules::appending))]
fn add_step(
    pairs: &mut List<Bound>,
    ty: &Ty,
    region: u32,
    step: Step,
    behind: &[Step],
) -> Result<(), AllocError>
    ensures { OnOk result (pairs.new ≡ pairs.old ++ steps_of.through_step (region-Ty ty.now) region step behind.now) }
{
    match step {
        Step::Deref(_) => add_through(pairs, ty, region, behind),
        Step::Field(_) | Step::Variant(_) => Ok(()),
    }
}

/// Adds what the steps from a type ask, for a borrow of this lifetime.
#[tactic(auto, using(crate::proofs::ConstraintsRules::appending, crate::proofs::ConstraintsRules::reborrow_rules))]
fn add_steps(
    alloc: Global,
    pairs: &mut List<Bound>,
    decls: &Decls,
    ty: &Ty,
    region: u32,
    steps: &[Step],
) -> Result<(), AllocError>
    ensures { OnOk result (pairs.new ≡ pairs.old ++ spec.reborrows decls.now.items (region-Ty ty.now) region steps.now) }
{
    match steps.split_first() {
        Some((step, behind)) => {
            add_step(pairs, ty, region, *step, behind)?;
            let target = place_type(alloc, decls, ty, &[*step])?;
            let outcome = add_steps(alloc, pairs, decls, &target, region, behind);
            target.let_go();
            outcome
        }
        None => Ok(()),
    }
}

impl<'t> Given<'t> {
    #[tactic(auto, using(crate::proofs::ConstraintsRules::reborrow_rules))]
    fn add_reborrows(
        &self,
        alloc: Global,
        pairs: &mut List<Bound>,
        place: &Place,
        region: u32,
    ) -> Result<(), AllocError>
        ensures { OnOk result (pairs.new ≡ pairs.old ++ spec.reborrows self.now.decls.now.items (spec.root_type (plain-Given self.now).lifetimes (plain-Root place.now.root)) region place.now.steps) }
    {
        match root_type(self.lifetimes, place.root) {
            Some(ty) => add_steps(alloc, pairs, self.decls, ty, region, place.steps.as_slice()),
            None => Ok(()),
        }
    }

    /// Adds what the reference asks where it is written.
    fn add_reference(
        &self,
        alloc: Global,
        pairs: &mut List<Bound>,
        mutable: bool,
        region: u32,
        place: &Place,
        into: Temporary,
    ) -> Result<(), AllocError>
        ensures { OnOk result (pairs.new ≡ pairs.old ++ spec.flows (plain-Given self.now) (region_reference mutable region (spec.type_in (plain-Given self.now) (plain-Place place.now))) (spec.held (plain-Given self.now) (plain-Temporary into))) }
    {
        let target = self.type_at(alloc, place.root, place.steps.as_slice())?;
        let ty = reference(alloc, mutable, region, target)?;
        let outcome = self.add_flow(pairs, Some(&ty), self.held(into));
        ty.let_go();
        outcome
    }

    /// Adds what a borrow asks, with its lifetime.
    #[tactic(auto, using(crate::proofs::ConstraintsRules::appending))]
    pub fn add_borrow(
        &self,
        alloc: Global,
        pairs: &mut List<Bound>,
        mutable: bool,
        place: &Place,
        into: Temporary,
        own: &Own,
    ) -> Result<(), AllocError>
        ensures { OnOk result (pairs.new ≡ pairs.old ++ spec.asks (plain-Given self.now) (borrow_act mutable (plain-Place place.now) (plain-Temporary into)) (plain-Own own.now)) }
    {
        match own {
            Own::Region(region) => {
                self.add_reborrows(alloc, pairs, place, *region)?;
                self.add_reference(alloc, pairs, mutable, *region, place, into)
            }
            Own::Nothing | Own::Signature(_) => Ok(()),
        }
    }
}
