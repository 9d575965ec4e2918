//! The passes, one after another.

ghost use Rattle.std.specs.Prelude.{◌≡◌, ◌≢◌, IfOk, IfErr, map};
ghost use Rattle.rx_tree.specs.Plain.{ProgramTree};
ghost use Rattle.rx_tree.specs.PlainOf.{plain-Program};
ghost use Rattle.rx_tree.specs.Size.{IsNumbered};
ghost use Rattle.rx_resolve_names.specs.Causes.{Meant};
ghost use Rattle.rx_typed.specs.PlainTypes.{declarations};
ghost use Rattle.rx_cover.specs.Inhabited.{Inhabited};
ghost use Rattle.rx_facts.specs.Functions.{IsTypedProgram};
ghost use Rattle.rx_facts.specs.Answers.{AreGraphs, AreFacts};
ghost use Rattle.rx_check.specs.Answers.{AreRegions};
ghost use Rattle.rx_check.specs.Causes.{Causes, PassCauses, FunctionsAnswer, TypedCauses, FoundIn, BorrowCauses, BorrowedIn};
ghost use Rattle.rx_check.specs.Passes.{FunctionsCovered, Fronted, Accepted};
ghost use Rattle.rx_check.specs.Front.{IsFrontOf, IsCheckedOf};

use crate::fault::{
    CheckFault, of_cover, of_init, of_loans, of_lower, of_names, of_regions, of_types,
};
use crate::front_end::{Checked, FrontEnd};
use crate::laws::passed_or_faulty;
use crate::main_item::main_of;
use crate::{FunctionLoans, FunctionRegions, all_loans, all_regions};
use rx_core::{LetGo, List, keep};
use rx_cover::{CoverFault, covers as covers_function, inhabited};
use rx_facts::{Lowered, ProgramFacts, facts, lower_all};
use rx_resolve::resolve;
use rx_resolve_names::Resolved;
use rx_tree::Program;
use rx_typeck::typecheck;
use rx_typeck_typed::{Typed, typed_declarations_are_finite};
use std::alloc::{AllocError, Global};

/// Whether the functions of a typed program are covered, in order, by which structs and enums have values.
fn covers_each(alloc: Global, typed: &Typed, inhabited: &[bool]) -> Result<(), CoverFault>
    requires typed { IsTypedProgram typed.now }
    requires inhabited { Inhabited (declarations typed.now.decls.items) inhabited.now }
    ensures { FunctionsAnswer (declarations typed.now.decls.items) typed.now.functions result }
{
    typed_declarations_are_finite();
    for function in typed.functions.as_slice() {
        covers_function(
            alloc,
            &typed.decls,
            inhabited,
            function.spans.as_slice(),
            &function.tree,
        )?;
    }
    Ok(())
}

/// Whether every `match` and `let` of a typed program is covered, and no product of one passes 65,536, functions in order.
///
/// # Errors
///
/// What is wrong with the first `match` or `let`, in the order of the text, that is not so; or memory runs out.
pub fn covers(alloc: Global, typed: &Typed) -> Result<(), CoverFault>
    requires { IsTypedProgram typed.now }
    ensures { FunctionsAnswer (declarations typed.now.decls.items) typed.now.functions result }
{
    typed_declarations_are_finite();
    match inhabited(alloc, &typed.decls) {
        Ok(inhabited) => covers_each(alloc, typed, inhabited.as_slice()),
        Err(AllocError) => Err(CoverFault::OutOfMemory),
    }
}

/// What the passes behind types find.
#[derive(Drop)]
struct Found {
    graphs: List<Lowered>,
    facts: ProgramFacts,
}

/// The pass over initialisation.
fn with_graphs(alloc: Global, typed: &Typed, graphs: List<Lowered>) -> Result<Found, CheckFault>
    requires typed { IsTypedProgram typed.now }
    requires covered { FunctionsCovered (declarations typed.now.decls.items) typed.now.functions }
    requires graphs { AreGraphs typed.now graphs }
    ensures found { IfOk result (λ x. FoundIn typed.now x) }
    ensures fault { IfErr result (λ e. TypedCauses e typed.now) }
{
    match facts(alloc, typed, graphs.as_slice()) {
        Ok(facts) => Ok(Found { graphs, facts }),
        Err(fault) => {
            graphs.let_go();
            Err(of_init(fault))
        }
    }
}

/// The passes over graphs and initialisation.
fn with_matches(alloc: Global, typed: &Typed) -> Result<Found, CheckFault>
    requires typed { IsTypedProgram typed.now }
    requires covered { FunctionsCovered (declarations typed.now.decls.items) typed.now.functions }
    ensures found { IfOk result (λ x. FoundIn typed.now x) }
    ensures fault { IfErr result (λ e. TypedCauses e typed.now) }
{
    match lower_all(alloc, typed) {
        Ok(graphs) => with_graphs(alloc, typed, graphs),
        Err(fault) => Err(of_lower(fault)),
    }
}

/// The passes behind types.
fn behind_types(alloc: Global, typed: &Typed) -> Result<Found, CheckFault>
    requires { IsTypedProgram typed.now }
    ensures found { IfOk result (λ x. FoundIn typed.now x) }
    ensures fault { IfErr result (λ e. TypedCauses e typed.now) }
{
    match covers(alloc, typed) {
        Ok(()) => with_matches(alloc, typed),
        Err(fault) => Err(of_cover(fault)),
    }
}

/// The passes behind names.
fn fronted(alloc: Global, program: &Program, names: &Resolved) -> Result<FrontEnd, CheckFault>
    requires numbered { IsNumbered (plain-Program program.now) }
    requires named { Meant (plain-Program program.now) names.now.items }
    ensures front { IfOk result (λ f. IsFrontOf (plain-Program program.now) f) }
    ensures fault { IfErr result (λ e. PassCauses e (plain-Program program.now)) }
{
    let main = main_of(program);
    match typecheck(alloc, program, names) {
        Ok(typed) => match behind_types(alloc, &typed) {
            Ok(found) => Ok(FrontEnd {
                typed,
                main,
                graphs: found.graphs,
                facts: found.facts,
            }),
            Err(fault) => Err(fault),
        },
        Err(fault) => Err(of_types(fault)),
    }
}

/// Names, types, coverage, graphs and initialisation of a program, each over all of it before the next.
///
/// # Errors
///
/// What the first of these passes that refuses the program says of it; `Region` and `Loan` are never answered.
pub fn front(alloc: Global, program: &Program) -> Result<FrontEnd, CheckFault>
    requires { IsNumbered (plain-Program program.now) }
    ensures front { IfOk result (λ f. IsFrontOf (plain-Program program.now) f) }
    ensures fault { IfErr result (λ e. PassCauses e (plain-Program program.now)) }
    // A program that these passes accept passes, unless memory runs out.
    ensures complete { Fronted (plain-Program program.now) → IfErr result (λ e. e ≡ CheckFault.OutOfMemory) }
{
    passed_or_faulty();
    match resolve(alloc, program) {
        Ok(names) => fronted(alloc, program, &names),
        Err(fault) => Err(of_names(fault)),
    }
}

/// What the passes behind initialisation find.
#[derive(Drop)]
struct Borrowed {
    regions: List<FunctionRegions>,
    loans: List<FunctionLoans>,
}

/// The pass over loans.
fn with_regions(
    alloc: Global,
    typed: &Typed,
    graphs: &[Lowered],
    regions: List<FunctionRegions>,
) -> Result<Borrowed, CheckFault>
    requires graphs { AreGraphs typed.now graphs.now }
    requires regions { AreRegions typed.now regions }
    ensures found { IfOk result (λ x. BorrowedIn typed.now x) }
    ensures fault { IfErr result (λ e. BorrowCauses e typed.now) }
{
    match all_loans(alloc, typed, graphs, regions.as_slice()) {
        Ok(loans) => Ok(Borrowed { regions, loans }),
        Err(fault) => {
            regions.let_go();
            Err(of_loans(fault))
        }
    }
}

/// The passes over lifetimes and loans.
fn behind_front(
    alloc: Global,
    typed: &Typed,
    graphs: &[Lowered],
    facts: &ProgramFacts,
) -> Result<Borrowed, CheckFault>
    requires typed { IsTypedProgram typed.now }
    requires graphs { AreGraphs typed.now graphs.now }
    requires facts { AreFacts typed.now facts.now }
    ensures found { IfOk result (λ x. BorrowedIn typed.now x) }
    ensures fault { IfErr result (λ e. BorrowCauses e typed.now) }
{
    match all_regions(alloc, typed, graphs, facts) {
        Ok(regions) => with_regions(alloc, typed, graphs, regions),
        Err(fault) => Err(of_regions(fault)),
    }
}

/// The passes behind initialisation, of a program that those up to it accept.
fn with_front(alloc: Global, front: FrontEnd) -> Result<Checked, CheckFault>
    requires { (p : ProgramTree) × IsFrontOf p front }
    ensures checked { IfOk result (λ c. (p : ProgramTree) → IsFrontOf p front → IsCheckedOf p c) }
    ensures fault { IfErr result (λ e. (p : ProgramTree) → IsFrontOf p front → Causes e p) }
{
    let outcome = behind_front(alloc, front.typed(), front.graphs(), front.facts());
    match keep(front, outcome) {
        Ok((found, front)) => Ok(Checked {
            front,
            regions: found.regions,
            loans: found.loans,
        }),
        Err(fault) => Err(fault),
    }
}

/// Whether a program is accepted: names, types, coverage, graphs, initialisation, lifetimes and loans, each over all of it before the
/// next.
///
/// # Errors
///
/// What the first pass that refuses the program says of it.
pub fn check(alloc: Global, program: &Program) -> Result<Checked, CheckFault>
    requires { IsNumbered (plain-Program program.now) }
    ensures checked { IfOk result (λ c. IsCheckedOf (plain-Program program.now) c) }
    ensures fault { IfErr result (λ e. Causes e (plain-Program program.now)) }
    // An accepted program passes, unless memory runs out.
    ensures complete { Accepted (plain-Program program.now) → IfErr result (λ e. e ≡ CheckFault.OutOfMemory) }
{
    passed_or_faulty();
    match front(alloc, program) {
        Ok(front) => with_front(alloc, front),
        Err(fault) => Err(fault),
    }
}
