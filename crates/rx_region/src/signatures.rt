//! What signatures, calls and types that are formed ask.

ghost use Rattle.std.specs.Prelude.{◌≡◌, ◌++◌, map, OnOk};
ghost use Rattle.rx_typed.specs.Regions.{region-Ty, regions_of};
ghost use Rattle.rx_lower_walks.specs.PlainFlow.{plain-Temporary};
ghost use Rattle.rx_region_outlives.specs.Implied.{implied_among, implied_in};
ghost use Rattle.rx_typed.specs.PlainSignature.{plain-Signature};
ghost use Rattle.rx_lower_lifetimes.specs.PlainOwn.{plain-Own};
ghost use Rattle.rx_lower_walks.specs.Actions.{Call as call_act};
ghost use Rattle.rx_region.specs.Constraints as spec;
ghost use Rattle.rx_region.specs.PlainContext.{plain-Given};
ghost use Rattle.rx_region.specs.Steps as steps_of;

use crate::given::{Given, others};
use rx_core::{Bound, List, Ty};
use rx_lower_lifetimes::Own;
use rx_lower_walks::Temporary;
use rx_region_outlives::add_implied_by;
use rx_typed::Signature;
use std::alloc::{AllocError, Global};

/// Adds these pairs.
pub fn add_bounds(pairs: &mut List<Bound>, bounds: &[Bound]) -> Result<(), AllocError>
    ensures { OnOk result (pairs.new ≡ pairs.old ++ bounds.now) }
{
    for bound in bounds {
        pairs.push(*bound)?;
    }
    Ok(())
}

impl<'t> Given<'t> {
    /// Adds what a type asks because it is formed.
    pub fn add_implied(
        &self,
        alloc: Global,
        pairs: &mut List<Bound>,
        ty: &Ty,
    ) -> Result<(), AllocError>
        ensures { OnOk result (pairs.new ≡ pairs.old ++ implied_in (plain-Given self.now).implied (region-Ty ty.now)) }
    {
        add_implied_by(alloc, pairs, self.implied, ty)
    }

    /// Adds what these types ask.
    fn add_implied_among(
        &self,
        alloc: Global,
        pairs: &mut List<Bound>,
        types: &[Ty],
    ) -> Result<(), AllocError>
        ensures { OnOk result (pairs.new ≡ pairs.old ++ implied_among (plain-Given self.now).implied (regions_of (map region-Ty types.now))) }
    {
        for ty in types {
            self.add_implied(alloc, pairs, ty)?;
        }
        Ok(())
    }

    /// Adds what a signature asks.
    #[tactic(auto, using(crate::proofs::ConstraintsRules::appending))]
    fn add_signature(
        &self,
        alloc: Global,
        pairs: &mut List<Bound>,
        signature: &Signature,
    ) -> Result<(), AllocError>
        ensures { OnOk result (pairs.new ≡ pairs.old ++ spec.signature_asks (plain-Given self.now) (plain-Signature signature.now)) }
    {
        add_bounds(pairs, signature.bounds.as_slice())?;
        self.add_implied_among(alloc, pairs, signature.params.as_slice())?;
        self.add_implied(alloc, pairs, &signature.answer)
    }

    /// Adds what the first of these asks where a parameter is wanted.
    fn add_first(
        &self,
        pairs: &mut List<Bound>,
        ty: &Ty,
        operands: &[Temporary],
    ) -> Result<(), AllocError>
        ensures { OnOk result (pairs.new ≡ pairs.old ++ steps_of.first_flow (plain-Given self.now) (region-Ty ty.now) (map plain-Temporary operands.now)) }
    {
        match operands.split_first() {
            Some((first, _)) => self.add_flow(pairs, self.held(*first), Some(ty)),
            None => Ok(()),
        }
    }

    /// Adds what arguments ask where parameters are wanted.
    fn add_parameters(
        &self,
        pairs: &mut List<Bound>,
        params: &[Ty],
        operands: &[Temporary],
    ) -> Result<(), AllocError>
        ensures { OnOk result (pairs.new ≡ pairs.old ++ spec.parameters_flow (plain-Given self.now) (regions_of (map region-Ty params.now)) (map plain-Temporary operands.now)) }
    {
        let mut left = operands;
        for ty in params {
            self.add_first(pairs, ty, left)?;
            left = others(left);
        }
        Ok(())
    }

    /// Adds what a call asks, with its signature.
    #[tactic(auto, using(crate::proofs::ConstraintsRules::appending))]
    fn add_signed(
        &self,
        alloc: Global,
        pairs: &mut List<Bound>,
        operands: &[Temporary],
        into: Temporary,
        signature: &Signature,
    ) -> Result<(), AllocError>
        ensures { OnOk result (pairs.new ≡ pairs.old ++ (spec.signature_asks (plain-Given self.now) (plain-Signature signature.now)
            ++ (spec.parameters_flow (plain-Given self.now) (plain-Signature signature.now).params (map plain-Temporary operands.now)
            ++ spec.flows (plain-Given self.now) (plain-Signature signature.now).answer (spec.held (plain-Given self.now) (plain-Temporary into))))) }
    {
        self.add_signature(alloc, pairs, signature)?;
        self.add_parameters(pairs, signature.params.as_slice(), operands)?;
        self.add_flow(pairs, Some(&signature.answer), self.held(into))
    }

    /// Adds what a call asks.
    pub fn add_call(
        &self,
        alloc: Global,
        pairs: &mut List<Bound>,
        function: u32,
        operands: &[Temporary],
        into: Temporary,
        own: &Own,
    ) -> Result<(), AllocError>
        ensures { OnOk result (pairs.new ≡ pairs.old ++ spec.asks (plain-Given self.now) (call_act function (map plain-Temporary operands.now) (plain-Temporary into)) (plain-Own own.now)) }
    {
        match own {
            Own::Signature(signature) => self.add_signed(alloc, pairs, operands, into, signature),
            Own::Nothing | Own::Region(_) => Ok(()),
        }
    }
}
