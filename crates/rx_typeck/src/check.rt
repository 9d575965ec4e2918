//! The types of a program: what it declares, then each function's.

ghost use Rattle.std.specs.Prelude.{List, ◌≡◌, ◌≢◌, ◌<◌, length, map, get_or, slice_get, IfOk, IfErr};
ghost use Rattle.rx_core.specs.declared.types.Span.{Span};
ghost use Rattle.rx_tree.specs.PlainOf.{plain-Program, plain-Func, plain-Item};
ghost use Rattle.rx_tree.specs.Size.{IsNumbered};
ghost use Rattle.rx_resolve_names.specs.Causes.{Meant};
ghost use Rattle.rx_typed.specs.Naming.{function_named};
ghost use Rattle.rx_typed.specs.PlainTypes.{declarations};
ghost use Rattle.rx_typeck_solver.specs.declared.solver.Solved as solver;
ghost use Rattle.rx_typeck_solver.specs.Solving.{IsSolved};
ghost use Rattle.rx_typeck_solver.specs.Views.{IsFound};
ghost use Rattle.rx_typeck_typed.specs.Demands.{task};
ghost use Rattle.rx_typeck_typed.specs.Programs.{Declares};
ghost use Rattle.rx_typeck.specs.Checking as checking;
ghost use Rattle.rx_typeck_typed.specs.Typing as typing;
ghost use Rattle.rx_typeck_typed.specs.declared.typed.TypeFault.TheVariants as fault;

use rx_core::{List, Span, keep, pushed};
use rx_resolve_names::{NodeNames, Resolved};
use rx_tree::{Func, Item, ItemNode, Program};
use rx_typeck_demands::asked;
use rx_typeck_elaborate::elaborate;
use rx_typeck_elaborate_parts::NodeTypes;
use rx_typeck_solver::{Broken, Demand, Found, Unsolved, solve};
use rx_typeck_typed::{
    AnnotatedVariable, DeclareFault, TypeFault, Typed, TypedFn, annotated, declare,
    declared_are_finite, declared_are_well_formed, demands_are_orderly,
};
use rx_typed::{Declaration, Decls};
use rx_typed_declarations::{recorded, sizes};
use std::alloc::{AllocError, Global};

/// What is known before functions are looked into: the items of the program, what is declared, how many parts each struct and enum has, and the
/// numbers of names.
#[derive(Drop)]
struct Check<'t> {
    alloc: Global,
    items: &'t [Item],
    decls: &'t Decls,
    sizes: &'t List<u64>,
    names: &'t Resolved,
}

/// What is known of a function's variables and nodes before their types: where the variables' names are declared,
/// whether each is declared `mut`, and where the nodes stand.
#[derive(Drop)]
struct Described {
    names: List<Span>,
    mutable: List<bool>,
    spans: List<Span>,
}

/// Whether each variable is declared `mut`.
fn mutability(alloc: Global, variables: &[Declaration]) -> Result<List<bool>, AllocError>
    ensures { IfOk result (λ it. it ≡ map typing.is_mutable variables.now) }
{
    let mut all = Vec::new(alloc);
    for variable in variables {
        all.push(variable.mutable)?;
    }
    Ok(List::from_vec(all))
}

/// A function's variables, by where their names are declared and what they are, and where its nodes stand.
fn described_by(
    alloc: Global,
    names: &[Span],
    variables: &[Declaration],
    spans: List<Span>,
) -> Result<Described, AllocError>
    ensures { IfOk result (λ it. it ≡ checking.described_by names.now variables.now spans) }
{
    let names = List::from_slice(alloc, names)?;
    let mutable = mutability(alloc, variables)?;
    Ok(Described {
        names,
        mutable,
        spans,
    })
}

/// What the rules ask of a function, what its variables and nodes are, and the types that its `let`s write.
#[derive(Drop)]
struct Question {
    demands: List<Demand>,
    literals: List<usize>,
    described: Described,
    annotations: List<AnnotatedVariable>,
}

/// The span of a variable's name, or another.
fn variable_span(variables: &[Span], variable: u32, or: Span) -> Span
    ensures { result ≡ get_or variables.now variable or }
{
    match variables.get(variable as usize) {
        Some(span) => *span,
        None => or,
    }
}

/// The fault of a node that breaks a rule, by its span and where the function's variables are declared.
fn fault_of(at: Span, broken: Broken, variables: &[Span]) -> TypeFault
    ensures { result ≡ typing.fault_of at broken variables.now }
{
    match broken {
        Broken::Mismatch(rule) => TypeFault::Mismatch { at, rule },
        Broken::Mutability(variable) => TypeFault::Mutability {
            at,
            var: variable_span(variables, variable, at),
        },
        Broken::Literal => TypeFault::Literal { at },
    }
}

/// The fault of a function that isn't solved, by where its variables are declared.
fn of_unsolved(unsolved: Unsolved, variables: &[Span]) -> TypeFault
    ensures { result ≡ typing.of_unsolved unsolved variables.now }
{
    match unsolved {
        Unsolved::Broken { span, broken, .. } => fault_of(span, broken, variables),
        Unsolved::OutOfMemory => TypeFault::OutOfMemory,
    }
}

/// The fault of a declaration as one of types.
fn of_declaration(fault: DeclareFault) -> TypeFault
    ensures { result ≡ typing.of_declaration fault }
{
    match fault {
        DeclareFault::Mismatch { at, rule } => TypeFault::Mismatch { at, rule },
        DeclareFault::Elision { at } => TypeFault::Elision { at },
        DeclareFault::OutOfMemory => TypeFault::OutOfMemory,
    }
}

impl<'t> Check<'t> {
    /// What the rules ask of a function, what its variables and nodes are, and the types that its `let`s write: of its
    /// item's number and span, the entries of names of the item, and where its variables are declared.
    fn question(
        &self,
        item: u32,
        span: Span,
        function: &Func,
        names: &List<NodeNames>,
        variables: &[Span],
    ) -> Result<Question, AllocError>
        ensures { IfOk result (λ it. checking.IsQuestion (checking.given_of self.now) item span (plain-Func function.now) names.now variables.now it) }
    {
        let task = asked(self.alloc, item, span, function, names)?;
        let written = task.annotations.as_slice();
        let annotations = annotated(self.alloc, self.items, self.decls, item, written)?;
        let spans = task.spans;
        let described = described_by(self.alloc, variables, task.variables.as_slice(), spans);
        let (described, annotations) = keep(annotations, described)?;
        Ok(Question {
            demands: task.demands,
            literals: task.literals,
            described,
            annotations,
        })
    }

    /// The typed tree of a function whose types are known.
    fn elaborated(
        &self,
        item: u32,
        span: Span,
        function: &Func,
        names: &List<NodeNames>,
        described: Described,
        annotations: List<AnnotatedVariable>,
        found: Found,
    ) -> Result<TypedFn, AllocError>
        ensures { (solved : solver.Solved) (variables : List Span) → IsFound solved (declarations self.now.decls.now.items) found → IsSolved (checking.known_of self.now) (task (function_named item span (plain-Func function.now) names.now)) solved
            → described ≡ checking.described span (plain-Func function.now) names.now variables
            → typing.IsAnnotated (checking.given_of self.now) item span (plain-Func function.now) names.now annotations
            → IfOk result (λ t. typing.FunctionTyped (checking.given_of self.now) item span (plain-Func function.now) names.now variables t) }
    {
        let types = NodeTypes {
            nodes: found.nodes,
            expected: found.expected,
        };
        match elaborate(self.alloc, self.decls, &types, span, function, names) {
            Ok(tree) => Ok(TypedFn {
                item,
                names: described.names,
                mutable: described.mutable,
                variables: found.variables,
                annotations,
                spans: described.spans,
                types,
                tree,
            }),
            Err(AllocError) => Err(AllocError),
        }
    }

    /// A function with its types, by what the rules ask of it and what its variables and nodes are.
    fn answered(
        &self,
        item: u32,
        span: Span,
        function: &Func,
        names: &List<NodeNames>,
        variables: &[Span],
        question: Question,
    ) -> Result<TypedFn, TypeFault>
        requires { checking.IsQuestion (checking.given_of self.now) item span (plain-Func function.now) names.now variables.now question }
        ensures typed { IfOk result (λ t. typing.FunctionTyped (checking.given_of self.now) item span (plain-Func function.now) names.now variables.now t) }
        ensures untyped { IfErr result (λ e. e ≢ fault.OutOfMemory → typing.FunctionUntyped (checking.known_of self.now) (function_named item span (plain-Func function.now) names.now) variables.now e) }
    {
        demands_are_orderly();
        match solve(
            self.alloc,
            self.decls,
            self.sizes,
            &question.demands,
            &question.literals,
        ) {
            Ok(solved) => match solved.found(self.alloc, &self.decls.items) {
                Ok(found) => {
                    let described = question.described;
                    let written = question.annotations;
                    match self.elaborated(item, span, function, names, described, written, found) {
                        Ok(typed) => Ok(typed),
                        Err(AllocError) => Err(TypeFault::OutOfMemory),
                    }
                }
                Err(AllocError) => Err(TypeFault::OutOfMemory),
            },
            Err(unsolved) => Err(of_unsolved(unsolved, variables)),
        }
    }

    /// A function with its types.
    fn function(
        &self,
        item: u32,
        span: Span,
        function: &Func,
        names: &List<NodeNames>,
        variables: &[Span],
    ) -> Result<TypedFn, TypeFault>
        ensures typed { IfOk result (λ t. typing.FunctionTyped (checking.given_of self.now) item span (plain-Func function.now) names.now variables.now t) }
        ensures untyped { IfErr result (λ e. e ≢ fault.OutOfMemory → typing.FunctionUntyped (checking.known_of self.now) (function_named item span (plain-Func function.now) names.now) variables.now e) }
    {
        match self.question(item, span, function, names, variables) {
            Ok(question) => self.answered(item, span, function, names, variables, question),
            Err(AllocError) => Err(TypeFault::OutOfMemory),
        }
    }

    /// A function with its types, by its item's number.
    fn function_at(&self, item: usize, span: Span, function: &Func) -> Result<TypedFn, TypeFault>
        requires { item < 4294967296 }
        ensures typed { IfOk result (λ t. typing.FunctionTyped (checking.given_of self.now) item span (plain-Func function.now) (typing.entries (slice_get self.now.names.now.items item)) (typing.variables_at (slice_get self.now.names.now.items item)) t) }
        ensures untyped { IfErr result (λ e. e ≢ fault.OutOfMemory → typing.FunctionUntyped (checking.known_of self.now) (function_named item span (plain-Func function.now) (typing.entries (slice_get self.now.names.now.items item))) (typing.variables_at (slice_get self.now.names.now.items item)) e) }
    {
        match self.names.items.get(item) {
            Some(table) => {
                let variables = table.vars.as_slice();
                self.function(item as u32, span, function, &table.names, variables)
            }
            None => {
                let names = List::new(self.alloc);
                self.function(item as u32, span, function, &names, &[])
            }
        }
    }

    /// The functions with their types, one item further.
    fn item(
        &self,
        number: usize,
        item: &Item,
        all: List<TypedFn>,
    ) -> Result<List<TypedFn>, TypeFault>
        requires { number < 4294967296 }
        ensures typed { IfOk result (λ new. checking.ItemTyped (checking.given_of self.now) self.now.names.now.items number (plain-Item item.now) all new) }
        ensures untyped { IfErr result (λ e. e ≢ fault.OutOfMemory → checking.ItemUntyped (checking.known_of self.now) self.now.names.now.items number (plain-Item item.now) e) }
    {
        match &item.node {
            ItemNode::Func(function) => {
                let (typed, all) = keep(all, self.function_at(number, item.span, function))?;
                match pushed(all, typed) {
                    Ok(all) => Ok(all),
                    Err(AllocError) => Err(TypeFault::OutOfMemory),
                }
            }
            ItemNode::Rt(_) => Ok(all),
            ItemNode::Struct(_) => Ok(all),
            ItemNode::Enum(_) => Ok(all),
        }
    }

    /// The functions with their types, in the order of the text.
    fn functions(&self, items: &[Item]) -> Result<List<TypedFn>, TypeFault>
        requires { length items.now < 4294967296 }
        ensures typed { IfOk result (λ ts. typing.FunctionsTyped (checking.given_of self.now) self.now.names.now.items 0 (map plain-Item items.now) ts) }
        ensures untyped { IfErr result (λ e. e ≢ fault.OutOfMemory → typing.FirstUntyped (checking.known_of self.now) self.now.names.now.items 0 (map plain-Item items.now) e) }
    {
        let mut all = List::new(self.alloc);
        for number in 0..items.len() {
            all = match self.item(number, &items[number], all) {
                Ok(more) => more,
                Err(fault) => return Err(fault),
            };
        }
        Ok(all)
    }
}

/// The functions of a program with their types, by what is declared.
fn typed_functions(
    alloc: Global,
    program: &Program,
    names: &Resolved,
    decls: &Decls,
) -> Result<List<TypedFn>, TypeFault>
    requires numbered { IsNumbered (plain-Program program.now) }
    requires declares { Declares (plain-Program program.now) names.now.items decls.now.items }
    ensures typed { IfOk result (λ ts. checking.TypedBy (plain-Program program.now) names.now.items decls.now.items ts) }
    ensures untyped { IfErr result (λ e. e ≢ fault.OutOfMemory → checking.UntypedBy (plain-Program program.now) names.now.items decls.now.items e) }
{
    declared_are_finite();
    match sizes(alloc, decls) {
        Ok(sizes) => {
            let check = Check {
                alloc,
                items: program.items.as_slice(),
                decls,
                sizes: &sizes,
                names,
            };
            check.functions(program.items.as_slice())
        }
        Err(AllocError) => Err(TypeFault::OutOfMemory),
    }
}

/// A program with its types, by what it declares.
fn typed_program(
    alloc: Global,
    program: &Program,
    names: &Resolved,
    decls: Decls,
) -> Result<Typed, TypeFault>
    requires numbered { IsNumbered (plain-Program program.now) }
    requires named { Meant (plain-Program program.now) names.now.items }
    requires declares { Declares (plain-Program program.now) names.now.items decls.items }
    ensures typed { IfOk result (λ t. typing.IsTyped (plain-Program program.now) names.now.items t) }
    ensures untyped { IfErr result (λ e. e ≢ fault.OutOfMemory → typing.Causes (plain-Program program.now) names.now.items e) }
{
    declared_are_well_formed();
    match typed_functions(alloc, program, names, &decls) {
        Ok(functions) => match recorded(alloc, decls.items) {
            Ok(decls) => Ok(Typed { functions, decls }),
            Err(AllocError) => Err(TypeFault::OutOfMemory),
        },
        Err(fault) => Err(fault),
    }
}

/// The types of a program: of its declarations, and of the variables and nodes of its functions, with the typed tree of
/// each (Rust Reference, "Type system", "Items"). `names` are the names of the program as `resolve` tells them.
///
/// # Errors
///
/// The first declaration that doesn't fit; else a place in the first function without a valid assignment of types, where
/// a node breaks a rule that cannot be met beside others that can, or where it isn't clear which type is meant.
pub fn typecheck(alloc: Global, program: &Program, names: &Resolved) -> Result<Typed, TypeFault>
    requires numbered { IsNumbered (plain-Program program.now) }
    requires named { Meant (plain-Program program.now) names.now.items }
    ensures typed { IfOk result (λ t. typing.IsTyped (plain-Program program.now) names.now.items t) }
    ensures fault { IfErr result (λ e. e ≢ fault.OutOfMemory → typing.Causes (plain-Program program.now) names.now.items e) }
{
    match declare(alloc, program, names) {
        Ok(decls) => typed_program(alloc, program, names, decls),
        Err(fault) => Err(of_declaration(fault)),
    }
}
