//! What functions declare.

ghost use Rattle.std.specs.Prelude.{◌≡◌, ◌++◌, map, option_map, Ok};
ghost use Rattle.rx_tree.specs.PlainOf.{plain-TypeText, plain-Param, plain-Func};
ghost use Rattle.rx_typeck_typed.specs.Steps as steps;
ghost use Rattle.rx_typeck_typed.specs.Items as items_spec;
ghost use Rattle.rx_typeck_typed.specs.Readers.{reading, program};

use crate::declare_types::Types;
use crate::fault::DeclareFault;
use crate::reader::{Reader, Role, begins, first, number, others, push};
use rx_core::{Bound, List, Ty};
use rx_resolve_names::NodeNames;
use rx_tree::{BoundLifetime, Func, Ident, Param, TypeText};
use rx_typed::Decl;
use std::alloc::Global;

/// Adds a lifetime's number once for each of its bounds.
fn push_each(longs: &mut List<u32>, lifetime: u32, bounds: &[Ident]) -> Result<(), DeclareFault>
    ensures { steps.Becomes (Ok (longs.old ++ items_spec.one_each lifetime bounds.now)) result longs.new }
{
    for _bound in bounds {
        push(longs, lifetime)?;
    }
    Ok(())
}

/// The number of each lifetime, once for each of its bounds.
fn bounded(alloc: Global, lifetimes: &[BoundLifetime]) -> Result<List<u32>, DeclareFault>
    ensures { steps.Gives (Ok (items_spec.bounded 0 lifetimes.now)) result }
{
    let mut longs = List::new(alloc);
    for i in 0..lifetimes.len() {
        push_each(&mut longs, number(i), lifetimes[i].bounds.as_slice())?;
    }
    Ok(longs)
}

/// Lifetimes, each with one that it outlives.
fn bounds_of(alloc: Global, longs: &[u32], shorts: &[u32]) -> Result<List<Bound>, DeclareFault>
    ensures { steps.Gives (Ok (items_spec.bounds_of longs.now shorts.now)) result }
{
    let mut bounds = List::new(alloc);
    let mut shorts = shorts;
    for long in longs {
        push(
            &mut bounds,
            Bound {
                long: *long,
                short: first(shorts),
            },
        )?;
        shorts = others(shorts);
    }
    Ok(bounds)
}

/// Whether all these are one.
fn all_are(number: u32, numbers: &[u32]) -> bool
    ensures { result ≡ items_spec.all_are number numbers.now }
{
    for other in numbers {
        if *other != number {
            return false;
        }
    }
    true
}

/// The lifetime that all of these are.
fn the_only(numbers: &[u32]) -> Option<u32>
    ensures { result ≡ items_spec.the_only numbers.now }
{
    match numbers.split_first() {
        Some((first, others)) => {
            if all_are(*first, others) {
                Some(*first)
            } else {
                None
            }
        }
        None => None,
    }
}

impl<'t> Types<'t> {
    /// The types of parameters.
    #[tactic(auto, using(crate::proofs::ReadingLemmas::before_next, crate::proofs::ReadingLemmas::before_none))]
    fn parameters(
        &self,
        reader: &mut Reader<'_>,
        params: &[Param],
    ) -> Result<List<Ty>, DeclareFault>
        ensures { steps.Reads (items_spec.parameters_of (program self.now) (map plain-Param params.now)
            (reading reader.old)) result (reading reader.new) }
    {
        let mut all = List::new(self.alloc);
        for param in params {
            push(&mut all, self.typ(Role::Parameter, reader, &param.typ)?)?;
        }
        Ok(all)
    }

    /// The type of a result.
    fn answer(
        &self,
        reader: &mut Reader<'_>,
        written: &Option<TypeText>,
    ) -> Result<Ty, DeclareFault>
        ensures { steps.Reads (items_spec.answer_of (program self.now) (option_map plain-TypeText written.now)
            (reading reader.old)) result (reading reader.new) }
    {
        match written {
            None => Ok(Ty::Tuple(List::new(self.alloc))),
            Some(typ) => {
                let only = the_only(reader.lifetimes.as_slice());
                self.typ(Role::Answer(only), reader, typ)
            }
        }
    }

    /// What a function declares.
    pub(crate) fn declared_function(
        &self,
        names: &[NodeNames],
        function: &Func,
    ) -> Result<Decl, DeclareFault>
        ensures { steps.Gives (items_spec.declared_function (program self.now) names.now (plain-Func function.now))
            result }
    {
        let mut reader = begins(self.alloc, names, number(function.lifetimes.len()));
        let longs = bounded(self.alloc, function.lifetimes.as_slice())?;
        let entry = reader.entry_of(longs.as_slice(), function.params.as_slice());
        let params = self.parameters(&mut reader, function.params.as_slice())?;
        let lifetimes = reader.next;
        let answer = self.answer(&mut reader, &function.result)?;
        let bounds = bounds_of(self.alloc, longs.as_slice(), entry)?;
        Ok(Decl::Func {
            lifetimes,
            params,
            answer,
            bounds,
        })
    }
}
