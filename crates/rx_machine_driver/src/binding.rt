//! Variables with their values: bindings of patterns, new variables, parameters.

ghost use Rattle.std.specs.Prelude.{◌≡◌, ℕ, Bool, [], ◌∷◌, ◌++◌, List as ListOf, Option as OptionOf, Some, length, map, option_map, reverse, IfOk, OnOk};
ghost use Rattle.rx_core.specs.declared.types.Step.TheVariants.{Field, Variant, Deref};
ghost use Rattle.rx_typed.specs.PlainTree.{plain-Mode, plain-Param, plain-Pattern, plain-Subpattern, subpatterns_of, plain-Expr};
ghost use Rattle.rx_typed.specs.Tree.{by_value, by_reference};
ghost use Rattle.rx_lower_walks.specs.Matching.{bindings, bindings_in};
ghost use Rattle.rx_meaning.specs.Values as plain;
ghost use Rattle.rx_meaning.specs.Values.{State, with_variable};
ghost use Rattle.rx_machine_values.specs.PlainValues.{plain-Value, plain-Part};
ghost use Rattle.rx_machine_values.specs.PlainMemory.{plain-Memory};
ghost use Rattle.rx_machine_frames.specs.Choosing.{with_value, bind_all, declare_all, fill_all};
ghost use Rattle.rx_machine_frames.specs.Frames as frames;
ghost use Rattle.rx_machine_driver.specs.PlainSteps.{plain-Subject, held_of, plain-Next, arms_in};
ghost use Rattle.rx_machine_driver.specs.declared.next.Next.TheVariants as next;
ghost use Rattle.rx_machine_driver.specs.Binding.{taken_of, seen_at, arm_of, TakesArm, NoneLeft};
ghost use Rattle.rx_machine_driver.specs.Running.{Through, Changes, Leads};

use crate::data::{Machine, Step};
use crate::{Next, Subject};
use rx_core::{LetGo, List, Step as PlaceStep, keep};
use rx_machine_actions::{Spot, at_place, borrow, holds};
use rx_machine_values::{Lack, Memory, Part, Value, at_path, copied_part};
use rx_meaning::End;
use rx_typed::{Arm, Expr, Mode, Param, Pattern, Stmt, Subpattern};
use std::alloc::{AllocError, Global};

/// A path with one step more.
fn deeper(alloc: Global, path: &[PlaceStep], step: PlaceStep) -> Result<List<PlaceStep>, AllocError>
    ensures { IfOk result (λ it. it ≡ path.now ++ step ∷ []) }
{
    let mut longer = List::from_slice(alloc, path)?;
    longer.push(step)?;
    Ok(longer)
}

/// The step to a field. One whose number passes 32 bits is answered as want of memory.
fn field_step(field: usize) -> Result<PlaceStep, AllocError>
    ensures { IfOk result (λ it. it ≡ Field field) }
{
    match u32::try_from(field) {
        Ok(field) => Ok(PlaceStep::Field(field)),
        Err(_) => Err(AllocError),
    }
}

/// Steps behind others.
fn joined(
    alloc: Global,
    first: &[PlaceStep],
    second: &[PlaceStep],
) -> Result<List<PlaceStep>, AllocError>
    ensures { IfOk result (λ it. it ≡ first.now ++ second.now) }
{
    let mut all = List::from_slice(alloc, first)?;
    for step in second {
        all.push(*step)?;
    }
    Ok(all)
}

/// Whether no value is left.
fn none_left(values: List<Value>) -> bool
    ensures { NoneLeft values result }
{
    let mut left = values;
    match left.pop() {
        Some(value) => {
            value.let_go();
            left.let_go();
            false
        }
        None => true,
    }
}

/// Adds a slot with a value; its number.
fn add_slot(memory: &mut Memory, value: Value) -> Result<usize, AllocError>
    ensures number { IfOk result (λ i. i ≡ length (plain-Memory memory.old)) }
    ensures ok { OnOk result (plain-Memory memory.new ≡ plain-Memory memory.old ++ plain-Value value ∷ []) }
{
    let number = memory.slots.len();
    match memory.slots.push(value) {
        Ok(()) => Ok(number),
        Err(failed) => {
            failed.value.let_go();
            Err(AllocError)
        }
    }
}

/// The first arm whose tests hold, by what stands where it is matched.
fn first_arm<'a>(memory: &Memory, part: Option<Part>, arms: &'a [Arm]) -> Option<&'a Arm>
    ensures { option_map (λ a. (plain-Pattern a.now.pattern, plain-Expr a.now.body)) result
        ≡ arm_of (plain-Memory memory.now) (option_map plain-Part part.entry) (arms_in arms.entry.now) }
{
    for arm in arms {
        match holds(memory, part, &arm.pattern) {
            Some(true) => return Some(arm),
            Some(false) => (),
            None => return None,
        }
    }
    None
}

impl<'a> Machine<'a> {
    /// A new slot for a variable, with a value.
    fn bind(&mut self, variable: u32, value: Value) -> Result<(), AllocError>
        ensures { OnOk result ((rest : State → OptionOf State) → Through (λ s. rest (with_value variable (plain-Value value) s)) self.old self.new rest) }
    {
        let slot = add_slot(&mut self.memory, value)?;
        self.slots.set(variable as usize, slot)?;
        Ok(())
    }

    /// A new slot for a variable, in which nothing was written.
    fn declare(&mut self, variable: u32) -> Result<(), AllocError>
        ensures { OnOk result ((rest : State → OptionOf State) → Through (λ s. rest (with_variable variable s)) self.old self.new rest) }
    {
        self.bind(variable, Value::Lacking(Lack::Unset))?;
        Ok(())
    }

    /// New variables, one after another.
    pub fn declare_all(&mut self, variables: &[u32]) -> Result<(), AllocError>
        ensures { OnOk result (Through (λ s. Some (declare_all variables.now s)) self.old self.new (λ s. Some s)) }
    {
        for i in 0..variables.len() {
            self.declare(variables[i])?;
        }
        Ok(())
    }

    /// What stands where a pattern is matched.
    fn part_of<'m>(&'m self, subject: &'m Subject<'a>) -> Option<Part<'m>>
        ensures { option_map plain-Part result ≡ seen_at self.now subject.now }
    {
        match subject {
            Subject::Place(place) => match self.slots.get(place.var as usize) {
                Some(slot) => at_place(&self.memory, slot, place.steps.as_slice()),
                None => None,
            },
            Subject::Held(_, value) => Some(value.as_part()),
        }
    }

    /// A reference to a part of what is matched; none where that is Wrong.
    fn reference_in(
        &self,
        alloc: Global,
        subject: &Subject<'a>,
        path: &[PlaceStep],
        mutable: bool,
    ) -> Result<Option<Value>, AllocError>
        ensures { IfOk result (λ it. option_map plain-Value it ≡ taken_of self.now (by_reference mutable) subject.now path.now) }
    {
        match subject {
            Subject::Place(place) => {
                let steps = joined(alloc, place.steps.as_slice(), path)?;
                let it = self.reference_at(alloc, place.var, steps.as_slice(), mutable)?;
                Ok(it)
            }
            Subject::Held(_, value) => {
                let from = Spot::Held(value.as_part());
                let it = borrow(alloc, &self.memory, from, path, mutable)?;
                Ok(it)
            }
        }
    }

    /// The value of a part of what is matched; none where that is Wrong.
    fn value_in(
        &self,
        alloc: Global,
        subject: &Subject<'a>,
        path: &[PlaceStep],
    ) -> Result<Option<Value>, AllocError>
        ensures { IfOk result (λ it. (moves : Bool) → option_map plain-Value it ≡ taken_of self.now (by_value moves) subject.now path.now) }
    {
        match subject {
            Subject::Place(place) => {
                let steps = joined(alloc, place.steps.as_slice(), path)?;
                let it = self.value_at(alloc, place.var, steps.as_slice())?;
                Ok(it)
            }
            Subject::Held(_, value) => {
                let it = held_part(alloc, value, path)?;
                Ok(it)
            }
        }
    }

    /// What a binding takes; none where that is Wrong.
    fn taken(
        &self,
        alloc: Global,
        subject: &Subject<'a>,
        path: &[PlaceStep],
        mode: Mode,
    ) -> Result<Option<Value>, AllocError>
        ensures { IfOk result (λ it. option_map plain-Value it ≡ taken_of self.now (plain-Mode mode) subject.now path.now) }
    {
        match mode {
            Mode::Reference(mutable) => {
                let it = self.reference_in(alloc, subject, path, mutable)?;
                Ok(it)
            }
            Mode::Value(_) => {
                let it = self.value_in(alloc, subject, path)?;
                Ok(it)
            }
        }
    }

    /// One binding; whether it isn't Wrong.
    fn bind_one(
        &mut self,
        alloc: Global,
        subject: &Subject<'a>,
        path: &[PlaceStep],
        variable: u32,
        mode: Mode,
    ) -> Result<bool, AllocError>
        ensures { IfOk result (λ done. (node : ℕ) → Changes (λ s. bind_all (plain-Subject subject.now) (held_of subject.now)
            (record { node = node; variable = variable; steps = path.now; mode = plain-Mode mode } ∷ []) s) self.old self.new done) }
    {
        let taken = self.taken(alloc, subject, path, mode)?;
        match taken {
            Some(value) => {
                self.bind(variable, value)?;
                Ok(true)
            }
            None => Ok(false),
        }
    }

    /// The bindings of a pattern at a path, from left to right; whether none is Wrong.
    #[cycle(binds)]
    #[tactic(auto, using(rx_typed::proofs::Rules::typed_pattern_rules))]
    fn bind_pattern(
        &mut self,
        alloc: Global,
        subject: &Subject<'a>,
        path: &[PlaceStep],
        pattern: &Pattern,
    ) -> Result<bool, AllocError>
        ensures { IfOk result (λ done. Changes (λ s. bind_all (plain-Subject subject.now) (held_of subject.now)
            (bindings path.now (plain-Pattern pattern.now)) s) self.old self.new done) }
    {
        match pattern {
            Pattern::Any => Ok(true),
            Pattern::Bind(_, variable, mode) => {
                let done = self.bind_one(alloc, subject, path, *variable, *mode)?;
                Ok(done)
            }
            Pattern::Exactly(_, _) => Ok(true),
            Pattern::Parts(parts) => {
                let done = self.bind_parts(alloc, subject, path, parts.as_slice())?;
                Ok(done)
            }
            Pattern::Variant(_, _, _, variant, parts) => {
                let inner = deeper(alloc, path, PlaceStep::Variant(*variant))?;
                let done = self.bind_parts(alloc, subject, inner.as_slice(), parts.as_slice())?;
                Ok(done)
            }
            Pattern::Behind(mutable, pattern) => {
                let inner = deeper(alloc, path, PlaceStep::Deref(*mutable))?;
                let done = self.bind_pattern(alloc, subject, inner.as_slice(), pattern.get())?;
                Ok(done)
            }
        }
    }

    #[cycle(binds)]
    fn bind_parts(
        &mut self,
        alloc: Global,
        subject: &Subject<'a>,
        path: &[PlaceStep],
        parts: &[Subpattern],
    ) -> Result<bool, AllocError>
        ensures { IfOk result (λ done. Changes (λ s. bind_all (plain-Subject subject.now) (held_of subject.now)
            (bindings_in path.now (subpatterns_of (map plain-Subpattern parts.now))) s) self.old self.new done) }
    {
        for part in parts {
            let done = self.bind_part(alloc, subject, path, part)?;
            if !done {
                return Ok(false);
            }
        }
        Ok(true)
    }

    #[cycle(binds)]
    fn bind_part(
        &mut self,
        alloc: Global,
        subject: &Subject<'a>,
        path: &[PlaceStep],
        part: &Subpattern,
    ) -> Result<bool, AllocError>
        ensures { IfOk result (λ done. Changes (λ s. bind_all (plain-Subject subject.now) (held_of subject.now)
            (bindings (path.now ++ Field part.now.field ∷ []) (plain-Pattern part.now.pattern)) s) self.old self.new done) }
    {
        let inner = deeper(alloc, path, field_step(part.field)?)?;
        let done = self.bind_pattern(alloc, subject, inner.as_slice(), &part.pattern)?;
        Ok(done)
    }

    /// The bindings of a pattern to what is matched, which goes; whether none is Wrong.
    fn bind_subject(
        &mut self,
        alloc: Global,
        subject: Subject<'a>,
        pattern: &Pattern,
    ) -> Result<bool, AllocError>
        ensures { IfOk result (λ done. Changes (λ s. bind_all (plain-Subject subject.entry) (held_of subject.entry)
            (bindings [] (plain-Pattern pattern.now)) s) self.old self.new done) }
    {
        let path = List::new(alloc);
        let done = self.bind_pattern(alloc, &subject, path.as_slice(), pattern);
        subject.let_go();
        done
    }

    /// A pattern is bound, and the rest of the block comes.
    pub fn binds(
        &mut self,
        alloc: Global,
        subject: Subject<'a>,
        pattern: &'a Pattern,
        rest: &'a [Stmt],
        last: &'a Expr,
    ) -> Result<Step<'a>, AllocError>
        ensures { IfOk result (λ to. Leads self.old (plain-Next (next.Binds subject.entry pattern.entry rest.entry last.entry)) self.new to) }
    {
        let done = self.bind_subject(alloc, subject, pattern)?;
        if done {
            Ok(Step::Next(Next::RunsBody(rest, last)))
        } else {
            Ok(Step::End(End::Wrong))
        }
    }

    /// The first arm whose tests hold is bound, and its body comes.
    pub fn tries(
        &mut self,
        alloc: Global,
        subject: Subject<'a>,
        arms: &'a [Arm],
    ) -> Result<Step<'a>, AllocError>
        ensures { IfOk result (λ to. Leads self.old (plain-Next (next.Tries subject.entry arms.entry)) self.new to) }
    {
        match first_arm(&self.memory, self.part_of(&subject), arms) {
            Some(arm) => {
                let step = self.takes_arm(alloc, subject, arm)?;
                Ok(step)
            }
            None => {
                subject.let_go();
                Ok(Step::End(End::Wrong))
            }
        }
    }

    fn takes_arm(
        &mut self,
        alloc: Global,
        subject: Subject<'a>,
        arm: &'a Arm,
    ) -> Result<Step<'a>, AllocError>
        ensures { IfOk result (λ to. TakesArm self.old subject.entry arm.entry.now self.new to) }
    {
        let done = self.bind_subject(alloc, subject, &arm.pattern)?;
        if done {
            Ok(Step::Next(Next::GoesInto(&arm.body)))
        } else {
            Ok(Step::End(End::Wrong))
        }
    }

    /// New variables, and the rest of the block comes.
    pub fn begins(
        &mut self,
        variables: &'a [u32],
        rest: &'a [Stmt],
        last: &'a Expr,
    ) -> Result<Step<'a>, AllocError>
        ensures { IfOk result (λ to. Leads self.old (plain-Next (next.Begins variables.entry rest.entry last.entry)) self.new to) }
    {
        self.declare_all(variables)?;
        Ok(Step::Next(Next::RunsBody(rest, last)))
    }

    /// Parameters get their arguments, the first of which is the last here; whether there are as many.
    pub fn fill(&mut self, params: &[Param], arguments: List<Value>) -> Result<bool, AllocError>
        ensures { IfOk result (λ done. Changes (λ s. fill_all (map plain-Param params.now) (reverse (map plain-Value arguments)) s) self.old self.new done) }
    {
        let mut left = arguments;
        for i in 0..params.len() {
            let param = &params[i];
            match left.pop() {
                Some(value) => self.bind(param.variable, value)?,
                None => return Ok(false),
            }
        }
        Ok(none_left(left))
    }
}

/// A copy of a part of a value that is held; none where the path leads nowhere.
fn held_part(alloc: Global, value: &Value, path: &[PlaceStep]) -> Result<Option<Value>, AllocError>
    ensures { IfOk result (λ it. option_map plain-Value it ≡ plain.get path.now (plain-Value value.now)) }
{
    match at_path(value.as_part(), path) {
        Some(part) => {
            let copy = copied_part(alloc, part)?;
            Ok(Some(copy))
        }
        None => Ok(None),
    }
}
