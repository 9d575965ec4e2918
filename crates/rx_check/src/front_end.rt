//! Programs that the passes accept, with what they found.

ghost use Rattle.std.specs.Prelude.{◌≡◌, ◌<◌, ◌≤◌, ◌↔◌, ℕ, true, List as ListOf, length, slice_get, Some as SomeOf};
ghost use Rattle.std.specs.Option.{IsSome, is_some};
ghost use Rattle.rx_core.specs.declared.types.Bound.{Bound};
ghost use Rattle.rx_graph_cycles.specs.Reaches.{NoCycle};
ghost use Rattle.rx_typed.specs.PlainTypes.{declarations};
ghost use Rattle.rx_typeck_typed.specs.declared.typed.TypedFn.{TypedFn as FnOf};
ghost use Rattle.rx_typed_declarations.specs.Held.{held_by_each};
ghost use Rattle.rx_typed_declarations.specs.Sizes.{Sized, told};
ghost use Rattle.rx_typed_declarations.specs.WellFormed.{WellFormed};
ghost use Rattle.rx_cover.specs.Finding.{Numbered};
ghost use Rattle.rx_lower_walks.specs.PlainFlow.{plain-Root, plain-Place};
ghost use Rattle.rx_facts_tables.specs.Layouts.{plain-Frame, IsSized};
ghost use Rattle.rx_lower_lifetimes.specs.Answer.{IsLowered};
ghost use Rattle.rx_facts_tables.specs.Live.{IsLive};
ghost use Rattle.rx_facts_tables.specs.LiveTables.{Lives, IsIndex};
ghost use Rattle.rx_facts_tables.specs.Answer.{IsInitTable};
ghost use Rattle.rx_facts_tables.specs.Initialised.{MayBeSet, MayBeUnset};
ghost use Rattle.rx_lower.specs.Functions as lowered;
ghost use Rattle.rx_facts.specs.Functions.{IsTypedProgram, sites_of, frame_of};
ghost use Rattle.rx_facts.specs.Answers.{AreGraphs, AreFacts};
ghost use Rattle.rx_region.specs.Solutions.{Sets, AreLeast};
ghost use Rattle.rx_region.specs.Tables.{sets_of};
ghost use Rattle.rx_loan.specs.Tables as loans;
ghost use Rattle.rx_loan.specs.Accepted.{at_sites};
ghost use Rattle.rx_check.specs.Contexts.{AreAsked, context_of};

use crate::{FunctionLoans, FunctionRegions};
use rx_core::{LetGo, List};
use rx_facts::{Lowered, ProgramFacts};
use rx_facts_tables::{Frame, InitTable, LiveTable};
use rx_loan::LoanTable;
use rx_lower::trimmed;
use rx_lower_lifetimes::Graph;
use rx_lower_walks::{Place, Root};
use rx_region::Regions;
use rx_typeck_typed::{Typed, TypedFn, typed_declarations_are_finite};
use std::marker::Model;

/// What the passes up to initialisation know of a program that they accept.
#[derive(Drop)]
pub struct FrontEnd {
    pub(crate) typed: Typed,
    pub(crate) main: usize,
    pub(crate) graphs: List<Lowered>,
    pub(crate) facts: ProgramFacts,
}

impl Model for FrontEnd {
    ghost use Rattle.std.specs.Coded.{codes};
    ghost use Rattle.rx_typeck_typed.specs.contracts.typed.Typed.{the_row as typed_row};
    ghost use Rattle.rx_facts.specs.contracts.lowering.Lowered.{the_row as lowered_row};
    ghost use Rattle.rx_facts.specs.contracts.finding.ProgramFacts.{the_row as facts_row};
    ghost use Rattle.rx_check.specs.Front.{Front, IsFronted};

    ghost Value = { Front };

    ghost coded = { Prim.hlevel (codes, typed_row.coded, lowered_row.coded, facts_row.coded) };

    ghost view = { λ f. record { typed = f.typed; main = f.main; graphs = f.graphs; facts = f.facts } };

    ghost invariant = { λ f. IsFronted (record { typed = f.typed; main = f.main; graphs = f.graphs; facts = f.facts }) };
}

/// The place of the function of an item among all; how many there are, where it is none of them.
fn place_of(functions: &[TypedFn], item: u32) -> usize
    ensures { (f : FnOf) → lowered.function_at functions.now item ≡ SomeOf f → slice_get functions.now result ≡ SomeOf f }
{
    for i in 0..functions.len() {
        if functions[i].item == item {
            return i;
        }
    }
    functions.len()
}

/// Whether one of these is the function of an item.
fn is_among(functions: &[TypedFn], item: u32) -> bool
    ensures { result ≡ is_some (lowered.function_at functions.now item) }
{
    for i in 0..functions.len() {
        if functions[i].item == item {
            return true;
        }
    }
    false
}

impl FrontEnd {
    /// The program with its types: what is asked of a typed program by the calls that take one.
    pub fn typed(&self) -> &Typed
        ensures same { result.now ≡ self.now.typed }
        ensures typed { IsTypedProgram result.now }
        // Of its declarations no struct or enum reaches itself, each enum has fewer than 2^32 variants, and they are well-formed.
        ensures finite { NoCycle (held_by_each (declarations result.now.decls.items)) }
        ensures numbered { Numbered (declarations result.now.decls.items) }
        ensures well_formed { WellFormed result.now.decls.items }
    {
        typed_declarations_are_finite();
        &self.typed
    }

    /// The number of the item `main`.
    pub fn main(&self) -> usize
        ensures { result ≡ self.now.main }
    {
        self.main
    }

    /// The graphs of all functions, in order.
    pub fn graphs(&self) -> &[Lowered]
        ensures same { result.now ≡ self.now.graphs }
        ensures graphs { AreGraphs self.now.typed result.now }
    {
        self.graphs.as_slice()
    }

    /// What is found of all functions.
    pub fn facts(&self) -> &ProgramFacts
        ensures same { result.now ≡ self.now.facts }
        ensures facts { AreFacts self.now.typed result.now }
    {
        &self.facts
    }

    /// How many parts each struct and enum has, by its item's number.
    pub fn sizes(&self) -> &[u64]
        ensures sizes { result.now ≡ self.now.facts.sizes }
        ensures sized { Sized (declarations self.now.typed.decls.items) (told result.now) }
    {
        self.facts.sizes.as_slice()
    }

    /// Whether an item is a function, of which the readers below tell.
    pub fn is_function(&self, item: u32) -> bool
        ensures { result ≡ is_some (lowered.function_at self.now.typed.functions item) }
    {
        is_among(self.typed.functions.as_slice(), item)
    }

    /// The function of an item, with its types.
    pub fn function(&self, function: u32) -> &TypedFn
        requires { IsSome (lowered.function_at self.now.typed.functions function) }
        ensures { lowered.function_at self.now.typed.functions function ≡ SomeOf result.now }
    {
        let place = place_of(self.typed.functions.as_slice(), function);
        &self.typed.functions.as_slice()[place]
    }

    /// What the parts of places are told by in the function of an item.
    pub fn frame(&self, function: u32) -> Frame<'_>
        requires { IsSome (lowered.function_at self.now.typed.functions function) }
        ensures sized { IsSized result }
        ensures frame { (f : FnOf) → lowered.function_at self.now.typed.functions function ≡ SomeOf f
            → plain-Frame result ≡ frame_of (declarations self.now.typed.decls.items) (told self.now.facts.sizes) f }
    {
        Frame {
            decls: &self.typed.decls,
            sizes: self.sizes(),
            types: trimmed(self.function(function).variables.as_slice()),
        }
    }

    /// The graph of the function of an item.
    pub fn graph(&self, function: u32) -> &Graph
        requires { IsSome (lowered.function_at self.now.typed.functions function) }
        ensures graph { (f : FnOf) → lowered.function_at self.now.typed.functions function ≡ SomeOf f
            → IsLowered (lowered.function self.now.typed.decls.items f) f.mutable result.now }
        ensures few { length result.now.sites ≤ 16384 }
    {
        let place = place_of(self.typed.functions.as_slice(), function);
        &self.graphs.as_slice()[place].graph
    }

    /// What is live in the function of an item.
    pub fn live(&self, function: u32) -> &LiveTable
        requires { IsSome (lowered.function_at self.now.typed.functions function) }
        ensures live { (f : FnOf) → lowered.function_at self.now.typed.functions function ≡ SomeOf f → Lives (sites_of f) result.now }
        ensures index { IsIndex result.now.index }
    {
        let place = place_of(self.typed.functions.as_slice(), function);
        &self.facts.functions.as_slice()[place].live
    }

    /// Whether a variable or temporary of the function of an item is live at a site: on some walk from there on it is used, and is
    /// not written as a whole before.
    pub fn is_live(&self, function: u32, root: Root, site: usize) -> bool
        requires { IsSome (lowered.function_at self.now.typed.functions function) }
        ensures { (f : FnOf) → lowered.function_at self.now.typed.functions function ≡ SomeOf f → site < length (sites_of f)
            → (result ≡ true) ↔ IsLive (sites_of f) (plain-Root root) site }
    {
        self.live(function).is_live(root, site)
    }

    /// What may be set and unset in the function of an item.
    pub fn init(&self, function: u32) -> &InitTable
        requires { IsSome (lowered.function_at self.now.typed.functions function) }
        ensures { (f : FnOf) → lowered.function_at self.now.typed.functions function ≡ SomeOf f
            → IsInitTable (frame_of (declarations self.now.typed.decls.items) (told self.now.facts.sizes) f) (sites_of f) result.now }
    {
        let place = place_of(self.typed.functions.as_slice(), function);
        &self.facts.functions.as_slice()[place].init
    }

    /// Whether some part of a place is set on some walk of the function of an item that comes to a site.
    pub fn may_be_set(&self, function: u32, place: &Place, site: usize) -> bool
        requires { IsSome (lowered.function_at self.now.typed.functions function) }
        ensures { (f : FnOf) → lowered.function_at self.now.typed.functions function ≡ SomeOf f → site < length (sites_of f)
            → (result ≡ true) ↔ MayBeSet (frame_of (declarations self.now.typed.decls.items) (told self.now.facts.sizes) f) (sites_of f) (plain-Place place.now) site }
    {
        let frame = self.frame(function);
        self.init(function).may_be_set(&frame, place, site)
    }

    /// Whether some part of a place is unset on some walk of the function of an item that comes to a site.
    pub fn may_be_unset(&self, function: u32, place: &Place, site: usize) -> bool
        requires { IsSome (lowered.function_at self.now.typed.functions function) }
        ensures { (f : FnOf) → lowered.function_at self.now.typed.functions function ≡ SomeOf f → site < length (sites_of f)
            → (result ≡ true) ↔ MayBeUnset (frame_of (declarations self.now.typed.decls.items) (told self.now.facts.sizes) f) (sites_of f) (plain-Place place.now) site }
    {
        let frame = self.frame(function);
        self.init(function).may_be_unset(&frame, place, site)
    }
}

/// A program that is accepted, with the least sets of points of its lifetimes, and where its loans are in scope.
#[derive(Drop)]
pub struct Checked {
    pub(crate) front: FrontEnd,
    pub(crate) regions: List<FunctionRegions>,
    pub(crate) loans: List<FunctionLoans>,
}

impl Model for Checked {
    ghost use Rattle.std.specs.Coded.{codes};
    ghost use Rattle.rx_typeck_typed.specs.contracts.typed.Typed.{the_row as typed_row};
    ghost use Rattle.rx_facts.specs.contracts.lowering.Lowered.{the_row as lowered_row};
    ghost use Rattle.rx_facts.specs.contracts.finding.ProgramFacts.{the_row as facts_row};
    ghost use Rattle.rx_check.specs.contracts.regions.FunctionRegions.{the_row as regions_row};
    ghost use Rattle.rx_check.specs.contracts.loans.FunctionLoans.{the_row as loans_row};
    ghost use Rattle.rx_check.specs.Front.{Judged, IsChecked};

    ghost Value = { Judged };

    ghost coded = { Prim.hlevel (codes, typed_row.coded, lowered_row.coded, facts_row.coded, regions_row.coded, loans_row.coded) };

    ghost view = { λ c. record { front = c.front; regions = c.regions; loans = c.loans } };

    ghost invariant = { λ c. IsChecked (record { front = c.front; regions = c.regions; loans = c.loans }) };
}

impl Checked {
    /// What the passes up to initialisation know of it.
    pub fn front(&self) -> &FrontEnd
        ensures { result.now ≡ self.now.front }
    {
        &self.front
    }

    /// The least sets of points of the function of an item.
    pub fn regions(&self, function: u32) -> &Regions
        requires { IsSome (lowered.function_at self.now.front.typed.functions function) }
        ensures { (f : FnOf) → lowered.function_at self.now.front.typed.functions function ≡ SomeOf f
            → (P : ℕ → ListOf Bound) → AreAsked self.now.front.typed.decls.items P
            → AreLeast (context_of self.now.front.typed.decls.items P f) (sites_of f) (sets_of result.now) }
    {
        let place = place_of(self.front.typed().functions.as_slice(), function);
        &self.regions.as_slice()[place].regions
    }

    /// The loans of the function of an item, and where each is in scope under its least sets.
    pub fn loans(&self, function: u32) -> &LoanTable
        requires { IsSome (lowered.function_at self.now.front.typed.functions function) }
        ensures { (f : FnOf) → lowered.function_at self.now.front.typed.functions function ≡ SomeOf f
            → (P : ℕ → ListOf Bound) → AreAsked self.now.front.typed.decls.items P
            → (R : Sets) → AreLeast (context_of self.now.front.typed.decls.items P f) (sites_of f) R
            → loans.IsLoanTable (sites_of f) (context_of self.now.front.typed.decls.items P f).lifetimes.owned (at_sites R) result.now }
    {
        let place = place_of(self.front.typed().functions.as_slice(), function);
        &self.loans.as_slice()[place].loans
    }
}

impl LetGo for FrontEnd {
    fn let_go(self) {
        let _gone = self;
    }
}

impl LetGo for Checked {
    fn let_go(self) {
        let _gone = self;
    }
}
