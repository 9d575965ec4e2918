//! What actions ask.

ghost use Rattle.std.specs.Prelude.{◌≡◌, ◌++◌, map, OnOk};
ghost use Rattle.std.specs.Option.{option_copied};
ghost use Rattle.rx_typed.specs.Regions.{region-Ty};
ghost use Rattle.rx_typed.specs.Tree.{temporary as temporary_root};
ghost use Rattle.rx_lower_walks.specs.PlainFlow.{plain-Act, plain-Made, plain-Place, plain-Temporary};
ghost use Rattle.rx_typed.specs.Renaming.{renamed as renamed_by, all_renamed, argument};
ghost use Rattle.rx_lower_lifetimes.specs.PlainOwn.{plain-Own};
ghost use Rattle.rx_lower_lifetimes.specs.Values.{type_found};
ghost use Rattle.rx_typed.specs.Places.{part_at};
ghost use Rattle.rx_region.specs.Constraints as spec;
ghost use Rattle.rx_region.specs.PlainContext.{plain-Given};
ghost use Rattle.rx_region.specs.Steps as steps_of;

use crate::given::{Given, others};
use crate::made::{Parts, arguments, part, parts_of};
use rx_core::{Bound, LetGo, List, Step, Ty};
use rx_lower_lifetimes::Own;
use rx_lower_walks::{Act, Made, Place, Root, Temporary};
use rx_typed::{Arguments, renamed};
use std::alloc::{AllocError, Global};

impl<'t> Given<'t> {
    /// Adds what a read asks.
    fn add_read(
        &self,
        alloc: Global,
        pairs: &mut List<Bound>,
        place: &Place,
        into: Temporary,
    ) -> Result<(), AllocError>
        ensures { OnOk result (pairs.new ≡ pairs.old ++ spec.flows (plain-Given self.now) (spec.type_in (plain-Given self.now) (plain-Place place.now)) (spec.held (plain-Given self.now) (plain-Temporary into))) }
    {
        let ty = self.type_at(alloc, place.root, place.steps.as_slice())?;
        let outcome = self.add_flow(pairs, Some(&ty), self.held(into));
        ty.let_go();
        outcome
    }

    /// Adds what a part of a temporary asks where a type is wanted.
    fn add_written(
        &self,
        alloc: Global,
        pairs: &mut List<Bound>,
        from: Temporary,
        way: &[Step],
        wanted: &Ty,
    ) -> Result<(), AllocError>
        ensures { OnOk result (pairs.new ≡ pairs.old ++ spec.flows (plain-Given self.now) (spec.type_at (plain-Given self.now) (temporary_root (plain-Temporary from)) way.now) (region-Ty wanted.now)) }
    {
        let ty = self.type_at(alloc, Root::Temporary(from), way)?;
        let outcome = self.add_flow(pairs, Some(&ty), Some(wanted));
        ty.let_go();
        outcome
    }

    /// Adds what a write asks.
    fn add_write(
        &self,
        alloc: Global,
        pairs: &mut List<Bound>,
        place: &Place,
        from: Temporary,
        way: &[Step],
    ) -> Result<(), AllocError>
        ensures { OnOk result (pairs.new ≡ pairs.old ++ spec.flows (plain-Given self.now) (spec.type_at (plain-Given self.now) (temporary_root (plain-Temporary from)) way.now) (spec.type_in (plain-Given self.now) (plain-Place place.now))) }
    {
        let wanted = self.type_at(alloc, place.root, place.steps.as_slice())?;
        let outcome = self.add_written(alloc, pairs, from, way, &wanted);
        wanted.let_go();
        outcome
    }

    /// Adds what an operand asks where a part is wanted.
    #[tactic(auto, using(crate::proofs::ConstraintsRules::flow_rules))]
    fn add_part(
        &self,
        alloc: Global,
        pairs: &mut List<Bound>,
        part: Option<&Ty>,
        arguments: &Arguments,
        operand: Temporary,
    ) -> Result<(), AllocError>
        ensures { OnOk result (pairs.new ≡ pairs.old ++ spec.flows (plain-Given self.now) (spec.held (plain-Given self.now) (plain-Temporary operand)) (renamed_by (argument arguments.now) (type_found (option_copied part.entry)))) }
    {
        match part {
            Some(ty) => {
                let wanted = renamed(alloc, ty, arguments)?;
                let outcome = self.add_flow(pairs, self.held(operand), Some(&wanted));
                wanted.let_go();
                outcome
            }
            None => Ok(()),
        }
    }

    /// Adds what the first of these asks where the part of a number is wanted.
    #[tactic(auto, using(crate::proofs::ConstraintsRules::part_rules))]
    fn add_first_part(
        &self,
        alloc: Global,
        pairs: &mut List<Bound>,
        parts: Parts<'_>,
        arguments: &Arguments,
        number: usize,
        operands: &[Temporary],
    ) -> Result<(), AllocError>
        ensures { OnOk result (pairs.new ≡ pairs.old ++ steps_of.first_flow (plain-Given self.now) (part_at (all_renamed (argument arguments.now) (steps_of.regions_in parts.entry)) number) (map plain-Temporary operands.now)) }
    {
        match operands.split_first() {
            Some((first, _)) => {
                self.add_part(alloc, pairs, part(parts, number), arguments, *first)
            }
            None => Ok(()),
        }
    }

    /// Adds what operands ask where parts are wanted.
    fn add_parts(
        &self,
        alloc: Global,
        pairs: &mut List<Bound>,
        parts: Parts<'_>,
        arguments: &Arguments,
        numbers: &[usize],
        operands: &[Temporary],
    ) -> Result<(), AllocError>
        ensures { OnOk result (pairs.new ≡ pairs.old ++ spec.parts_flow (plain-Given self.now) (all_renamed (argument arguments.now) (steps_of.regions_in parts.entry)) numbers.now (map plain-Temporary operands.now)) }
    {
        let mut left = operands;
        for number in numbers {
            self.add_first_part(alloc, pairs, parts, arguments, *number, left)?;
            left = others(left);
        }
        Ok(())
    }

    /// Adds what operands ask of what they are made into.
    fn add_build(
        &self,
        alloc: Global,
        pairs: &mut List<Bound>,
        made: Made,
        numbers: &[usize],
        operands: &[Temporary],
        into: Temporary,
    ) -> Result<(), AllocError>
        ensures { OnOk result (pairs.new ≡ pairs.old ++ spec.parts_flow (plain-Given self.now) (spec.made_parts self.now.decls.now.items (plain-Made made) (spec.held (plain-Given self.now) (plain-Temporary into))) numbers.now (map plain-Temporary operands.now)) }
    {
        let ty = self.held(into);
        let arguments = arguments(alloc, made, ty)?;
        let parts = parts_of(self.decls, made, ty);
        self.add_parts(alloc, pairs, parts, &arguments, numbers, operands)
    }

    /// Adds what an action asks, with what its site has of its own.
    pub fn add_act(
        &self,
        alloc: Global,
        pairs: &mut List<Bound>,
        act: &Act,
        own: &Own,
    ) -> Result<(), AllocError>
        ensures { OnOk result (pairs.new ≡ pairs.old ++ spec.asks (plain-Given self.now) (plain-Act act.now) (plain-Own own.now)) }
    {
        match act {
            Act::Read(_, place, into) => self.add_read(alloc, pairs, place, *into),
            Act::Write(place, from, way) => {
                self.add_write(alloc, pairs, place, *from, way.as_slice())
            }
            Act::Borrow(mutable, place, into) => {
                self.add_borrow(alloc, pairs, *mutable, place, *into, own)
            }
            Act::Call(function, operands, into) => {
                self.add_call(alloc, pairs, *function, operands.as_slice(), *into, own)
            }
            Act::Build(made, numbers, operands, into) => self.add_build(
                alloc,
                pairs,
                *made,
                numbers.as_slice(),
                operands.as_slice(),
                *into,
            ),
            Act::Give(from) => {
                self.add_flow(pairs, self.held(*from), Some(&self.lifetimes.answer))
            }
            Act::Declare(_) | Act::Dead(_) | Act::Test(_, _) | Act::Input(_) | Act::Print(_) => Ok(
                (),
            ),
        }
    }
}
