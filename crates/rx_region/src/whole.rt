//! What a function asks of its lifetimes, and what it is told of them.

ghost use Rattle.std.specs.Prelude.{◌≡◌, ◌++◌, map, IfOk, OnOk};
ghost use Rattle.rx_typed.specs.Regions.{region-Ty};
ghost use Rattle.rx_lower_walks.specs.Text.{actions_of};
ghost use Rattle.rx_lower_walks.specs.PlainFlow.{plain-Action};
ghost use Rattle.rx_lower_walks.specs.PlainSite.{plain-Site};
ghost use Rattle.rx_lower_lifetimes.specs.PlainOwn.{plain-Own};
ghost use Rattle.rx_region_outlives.specs.Implied.{implied_in};
ghost use Rattle.rx_region.specs.Constraints as spec;
ghost use Rattle.rx_region.specs.Known.{parameters_ask, told as told_of};
ghost use Rattle.rx_region.specs.PlainContext.{plain-Given};
ghost use Rattle.rx_region.specs.Steps as steps_of;

use crate::given::{Given, others};
use crate::signatures::add_bounds;
use rx_core::{Bound, List, Ty};
use rx_lower_lifetimes::Own;
use rx_lower_walks::Site;
use std::alloc::{AllocError, Global};

/// Whether a variable is one of these.
fn is_among(variable: usize, variables: &[u32]) -> bool
    ensures { result ≡ spec.is_among variable variables.now }
{
    for i in 0..variables.len() {
        if variable == variables[i] as usize {
            return true;
        }
    }
    false
}

impl<'t> Given<'t> {
    /// Adds what a site asks, where the first of these is its own.
    fn add_site(
        &self,
        alloc: Global,
        pairs: &mut List<Bound>,
        site: &Site,
        owned: &[Own],
    ) -> Result<(), AllocError>
        ensures { OnOk result (pairs.new ≡ pairs.old ++ steps_of.first_ask (plain-Given self.now) (plain-Action site.now.action) (map plain-Own owned.now)) }
    {
        match owned.split_first() {
            Some((own, _)) => self.add_act(alloc, pairs, &site.action.act, own),
            None => Ok(()),
        }
    }

    /// Adds what sites ask, with what each has of its own.
    fn add_sites(
        &self,
        alloc: Global,
        pairs: &mut List<Bound>,
        sites: &[Site],
        owned: &[Own],
    ) -> Result<(), AllocError>
        ensures { OnOk result (pairs.new ≡ pairs.old ++ spec.all_ask (plain-Given self.now) (actions_of (map plain-Site sites.now)) (map plain-Own owned.now)) }
    {
        let mut left = owned;
        for site in sites {
            self.add_site(alloc, pairs, site, left)?;
            left = others(left);
        }
        Ok(())
    }

    /// Adds what a type asks because it is formed, where it is no parameter's.
    fn add_formed_one(
        &self,
        alloc: Global,
        pairs: &mut List<Bound>,
        number: usize,
        ty: &Ty,
    ) -> Result<(), AllocError>
        ensures { OnOk result (pairs.new ≡ pairs.old ++ steps_of.formed_one (plain-Given self.now) number (region-Ty ty.now)) }
    {
        if is_among(number, self.lifetimes.params.as_slice()) {
            Ok(())
        } else {
            self.add_implied(alloc, pairs, ty)
        }
    }

    /// Adds what types ask because they are formed, but those of the parameters.
    fn add_formed(
        &self,
        alloc: Global,
        pairs: &mut List<Bound>,
        types: &[Ty],
    ) -> Result<(), AllocError>
        ensures { OnOk result (pairs.new ≡ pairs.old ++ spec.formed (plain-Given self.now) 0 (map region-Ty types.now)) }
    {
        for number in 0..types.len() {
            self.add_formed_one(alloc, pairs, number, &types[number])?;
        }
        Ok(())
    }

    /// All that is imposed on the lifetimes of a function, by its sites: pairs, the one that outlives first (RFC 2094,
    /// "Subtyping" and "Reborrow constraints").
    ///
    /// # Errors
    ///
    /// Memory runs out.
    pub fn imposed(&self, alloc: Global, sites: &[Site]) -> Result<List<Bound>, AllocError>
        ensures { IfOk result (λ it. it ≡ spec.imposed (plain-Given self.now) (actions_of (map plain-Site sites.now))) }
    {
        let mut pairs = List::new(alloc);
        self.add_sites(alloc, &mut pairs, sites, self.lifetimes.owned.as_slice())?;
        self.add_formed(alloc, &mut pairs, self.lifetimes.types.as_slice())?;
        Ok(pairs)
    }

    /// Adds what the type of a parameter asks, by its variable.
    #[tactic(auto, using(crate::proofs::ConstraintsRules::appending, crate::proofs::Finding::type_there))]
    fn add_parameter(
        &self,
        alloc: Global,
        pairs: &mut List<Bound>,
        variable: u32,
    ) -> Result<(), AllocError>
        ensures { OnOk result (pairs.new ≡ pairs.old ++ steps_of.parameter_asks (plain-Given self.now) variable) }
    {
        match self.lifetimes.types.get(variable as usize) {
            Some(ty) => self.add_implied(alloc, pairs, ty),
            None => Ok(()),
        }
    }

    /// Adds what the types of parameters ask.
    fn add_all_parameters(
        &self,
        alloc: Global,
        pairs: &mut List<Bound>,
        variables: &[u32],
    ) -> Result<(), AllocError>
        ensures { OnOk result (pairs.new ≡ pairs.old ++ parameters_ask (plain-Given self.now) variables.now) }
    {
        for variable in variables {
            self.add_parameter(alloc, pairs, *variable)?;
        }
        Ok(())
    }

    /// The pairs of a function's own lifetimes that are declared, or that the types of its parameters and its result ask
    /// because they are formed (Rust Reference, "Lifetime bounds"; RFC 2094, "Named lifetimes").
    ///
    /// # Errors
    ///
    /// Memory runs out.
    #[tactic(auto, using(crate::proofs::ConstraintsRules::appending))]
    pub fn told(&self, alloc: Global) -> Result<List<Bound>, AllocError>
        ensures { IfOk result (λ it. it ≡ told_of (plain-Given self.now)) }
    {
        let mut pairs = List::new(alloc);
        add_bounds(&mut pairs, self.lifetimes.bounds.as_slice())?;
        self.add_all_parameters(alloc, &mut pairs, self.lifetimes.params.as_slice())?;
        self.add_implied(alloc, &mut pairs, &self.lifetimes.answer)?;
        Ok(pairs)
    }
}
