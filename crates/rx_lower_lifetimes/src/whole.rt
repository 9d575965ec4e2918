//! The graph of a function with its lifetimes.

ghost use Rattle.std.specs.Prelude.{◌≡◌, ◌+◌, ◌++◌, [], map, slice_get, IfOk, Err};
ghost use Rattle.rx_typed.specs.Numbers.{capped};
ghost use Rattle.rx_typed.specs.Regions.{region-Ty};
ghost use Rattle.rx_typed.specs.PlainTree.{plain-TypedTree, plain-Param};
ghost use Rattle.rx_lower_walks.specs.Orders.{order_function};
ghost use Rattle.rx_lower_walks.specs.Text.{actions_of};
ghost use Rattle.rx_lower_walks.specs.Flows.{order_of};
ghost use Rattle.rx_lower_walks.specs.PlainFlow.{plain-Flow, plain-Temporary};
ghost use Rattle.rx_lower_walks.specs.PlainSite.{plain-Site};
ghost use Rattle.rx_lower_lifetimes.specs.Held as acts;
ghost use Rattle.rx_lower_lifetimes.specs.Positions as positions;
ghost use Rattle.rx_lower_lifetimes.specs.Numbered as numbers;
ghost use Rattle.rx_lower_lifetimes.specs.declared.whole.LowerFault.TheVariants as FaultOf;
ghost use Rattle.rx_lower_lifetimes.specs.Lowered as lowered;
ghost use Rattle.rx_lower_lifetimes.specs.Lowered.{function_of};
ghost use Rattle.rx_lower_lifetimes.specs.Answer.{plain-Lifetimes, Answers, AnswersWithin, Walked};
ghost use Rattle.rx_lower_lifetimes.specs.PlainOf.{plain-Open, plain-Held, plain-Notes, plain-Told, known};

use crate::gather::gather;
use crate::held::{Held, Open};
use crate::noted::Noted;
use crate::notes::Notes;
use crate::numbering::{Own, all_owned, push_temporaries, push_variables};
use crate::positions::{count_held, count_variables};
use crate::values::{lifetimes_of, result_type};
use crate::variables::{Told, open_types};
use rx_core::{Bound, LetGo, List, Ty, keep};
use rx_lower_order::flow_of;
use rx_lower_walks::{Flow, GraphFault, Site, Temporary, graph_within};
use rx_typed::{Decl, Decls, Param, TypedTree};
use std::alloc::{AllocError, Global};

/// The lifetimes of a function, by their numbers: its own first, then those of its variables' types that are open, then those
/// of its temporaries', then by site those of a call's signature and a borrow's region.
#[derive(Drop)]
pub struct Lifetimes {
    /// The types of the variables by number, then of the temporaries.
    pub types: List<Ty>,
    /// Those that sites fill, in the order of the first site that fills each. One that is used and never filled is the unit, or
    /// what a parameter begins with.
    pub temporaries: Noted<Temporary>,
    /// What each site has of its own.
    pub owned: List<Own>,
    /// The variables of the parameters.
    pub params: List<u32>,
    pub answer: Ty,
    pub bounds: List<Bound>,
    /// How many lifetimes the function has of its own.
    pub own: u32,
    /// How many lifetimes there are.
    pub regions: u32,
}

/// The sites of a function, whether each variable is declared `mut`, and the lifetimes.
#[derive(Drop)]
pub struct Graph {
    pub sites: List<Site>,
    pub mutable: List<bool>,
    pub lifetimes: Lifetimes,
}

/// Why a function is not lowered.
#[derive(Drop)]
pub enum LowerFault {
    /// The function's item, its sites and its lifetime positions, or 2^64 - 1 where there are more: over its limit of sites, or
    /// over 65,536 positions.
    TooLarge {
        function: u32,
        sites: u64,
        lifetimes: u64,
    },
    OutOfMemory,
}

impl LetGo for Lifetimes {
    fn let_go(self) {
        let _gone = self;
    }
}

impl LetGo for Notes {
    fn let_go(self) {
        self.held.let_go();
    }
}

/// The types of a function's parameters, as it declares them.
fn parameters(decls: &Decls, item: u32) -> &[Ty]
    ensures { result.now ≡ lowered.parameters (slice_get decls.now.items item) }
{
    match decls.items.get(item as usize) {
        Some(decl) => match decl {
            Decl::Func { params, .. } => params.as_slice(),
            Decl::Rt | Decl::Struct { .. } | Decl::Enum { .. } => &[],
        },
        None => &[],
    }
}

fn bounds_of(alloc: Global, decls: &Decls, item: u32) -> Result<List<Bound>, AllocError>
    ensures { IfOk result (λ it. it ≡ lowered.bounds_of (slice_get decls.now.items item)) }
{
    match decls.items.get(item as usize) {
        Some(decl) => match decl {
            Decl::Func { bounds, .. } => List::from_slice(alloc, bounds.as_slice()),
            Decl::Rt | Decl::Struct { .. } | Decl::Enum { .. } => Ok(List::new(alloc)),
        },
        None => Ok(List::new(alloc)),
    }
}

fn param_variables(alloc: Global, params: &[Param]) -> Result<List<u32>, AllocError>
    ensures { IfOk result (λ it. it ≡ map (λ p. p.variable) (map plain-Param params.now)) }
{
    let mut all = List::new(alloc);
    for param in params {
        all.push(param.variable)?;
    }
    Ok(all)
}

fn temporaries_of(alloc: Global, held: &[Held]) -> Result<Noted<Temporary>, AllocError>
    ensures { IfOk result (λ it. map plain-Temporary it ≡ map (λ h. h.temporary) (map plain-Held held.now)) }
{
    let mut all = Noted::new(alloc);
    for one in held {
        all.push(one.temporary)?;
    }
    Ok(all)
}

/// What is noted of a flow.
fn noted(alloc: Global, decls: &Decls, variables: &[Open], flow: &Flow) -> Result<Notes, AllocError>
    ensures { IfOk result (λ it. plain-Notes it ≡ acts.all_noted (known decls.now.items variables.now) (record { held = []; own = 0 }) (acts.held_acts (plain-Flow flow.now))) }
{
    let mut notes = Notes {
        held: Noted::new(alloc),
        own: 0,
    };
    let mut broken = List::new(alloc);
    match gather(alloc, decls, variables, flow, &mut notes, &mut broken) {
        Ok(_) => Ok(notes),
        Err(AllocError) => {
            notes.let_go();
            Err(AllocError)
        }
    }
}

/// How many lifetime positions there are.
#[tactic(auto, using(crate::proofs::Answering::sum_of_three))]
fn positions_of(variables: &[Open], notes: &Notes) -> u64
    ensures { result ≡ capped (positions.in_variables (map plain-Open variables.now) + (positions.in_held (map plain-Held notes.now.held) + notes.now.own)) }
{
    let with_variables = count_variables(notes.own, variables);
    count_held(with_variables, notes.held.as_slice())
}

/// The types of variables and temporaries with their lifetimes numbered, and the next number.
#[tactic(auto, using(crate::proofs::Answering::number_rules))]
fn types_of(
    alloc: Global,
    own: u32,
    variables: &[Open],
    held: &[Held],
) -> Result<(List<Ty>, u32), AllocError>
    ensures types { IfOk result (λ it. map region-Ty it.0 ≡ numbers.all_numbered own (map plain-Open variables.now ++ numbers.opened (map plain-Held held.now))) }
    ensures next { IfOk result (λ it. it.1 ≡ own + numbers.all_open (map plain-Open variables.now ++ numbers.opened (map plain-Held held.now))) }
{
    let mut next = own;
    let types = push_variables(alloc, variables, &mut next, List::new(alloc))?;
    let types = push_temporaries(alloc, held, &mut next, types)?;
    Ok((types, next))
}

/// The lifetimes, by the types of variables, the temporaries and the sites.
fn lifetimes_by(
    alloc: Global,
    decls: &Decls,
    item: u32,
    params: &[Param],
    variables: &[Open],
    held: &[Held],
    sites: &[Site],
) -> Result<Lifetimes, AllocError>
    ensures { IfOk result (λ it. plain-Lifetimes it ≡ lowered.lifetimes_by decls.now.items item (map plain-Param params.now) (map plain-Open variables.now) (map plain-Held held.now) (actions_of (map plain-Site sites.now))) }
{
    let own = lifetimes_of(decls, item);
    let temporaries = temporaries_of(alloc, held)?;
    let params = param_variables(alloc, params)?;
    let bounds = bounds_of(alloc, decls, item)?;
    let (types, behind) = types_of(alloc, own, variables, held)?;
    let mut regions = behind;
    let (owned, types) = keep(types, all_owned(alloc, decls, sites, &mut regions))?;
    let (answer, kept) = keep((types, owned), result_type(alloc, decls, item))?;
    let (types, owned) = kept;
    Ok(Lifetimes {
        types,
        temporaries,
        owned,
        params,
        answer,
        bounds,
        own,
        regions,
    })
}

/// The graph, where its sites and its notes are known and within the limits.
fn within(
    alloc: Global,
    decls: &Decls,
    item: u32,
    tree: &TypedTree,
    mutable: &[bool],
    variables: &[Open],
    notes: &Notes,
    sites: List<Site>,
) -> Result<Graph, AllocError>
    ensures { IfOk result (λ it. (it.sites ≡ sites) × (it.mutable ≡ mutable.now)
        × (plain-Lifetimes it.lifetimes ≡ lowered.lifetimes_by decls.now.items item (plain-TypedTree tree.now).params (map plain-Open variables.now) (map plain-Held notes.now.held) (actions_of (map plain-Site sites)))) }
{
    let mutable = List::from_slice(alloc, mutable);
    let outcome = lifetimes_by(
        alloc,
        decls,
        item,
        tree.params.as_slice(),
        variables,
        notes.held.as_slice(),
        sites.as_slice(),
    );
    let (lifetimes, sites) = keep(sites, outcome)?;
    let (mutable, (lifetimes, sites)) = keep((lifetimes, sites), mutable)?;
    Ok(Graph {
        sites,
        mutable,
        lifetimes,
    })
}

fn too_large(function: u32, sites: u64, lifetimes: u64) -> Result<Graph, LowerFault>
    ensures { result ≡ Err (FaultOf.TooLarge function sites lifetimes) }
{
    Err(LowerFault::TooLarge {
        function,
        sites,
        lifetimes,
    })
}

/// The graph, where its notes are known.
fn with_notes(
    alloc: Global,
    decls: &Decls,
    item: u32,
    tree: &TypedTree,
    mutable: &[bool],
    variables: &[Open],
    notes: &Notes,
    flow: &Flow,
    limit: u32,
) -> Result<Graph, LowerFault>
    requires flow { order_of (plain-Flow flow.now) ≡ order_function (plain-TypedTree tree.now) }
    requires notes { plain-Notes notes.now ≡ acts.all_noted (known decls.now.items variables.now) (record { held = []; own = 0 }) (acts.held_acts (plain-Flow flow.now)) }
    ensures { AnswersWithin limit (record { items = decls.now.items; item = item; body = plain-TypedTree tree.now; variables = map plain-Open variables.now }) mutable.now result }
{
    let positions = positions_of(variables, notes);
    match graph_within(alloc, flow, limit) {
        Ok(sites) => {
            if positions > 65536 {
                let size = sites.len() as u64;
                sites.let_go();
                return too_large(item, size, positions);
            }
            match within(alloc, decls, item, tree, mutable, variables, notes, sites) {
                Ok(graph) => Ok(graph),
                Err(_) => Err(LowerFault::OutOfMemory),
            }
        }
        Err(fault) => match fault {
            GraphFault::TooLarge(size) => too_large(item, size, positions),
            GraphFault::OutOfMemory => Err(LowerFault::OutOfMemory),
        },
    }
}

/// The graph, where the types of the variables and the flow are known.
fn with_flow(
    alloc: Global,
    decls: &Decls,
    item: u32,
    tree: &TypedTree,
    mutable: &[bool],
    variables: &[Open],
    flow: &Flow,
    limit: u32,
) -> Result<Graph, LowerFault>
    requires { order_of (plain-Flow flow.now) ≡ order_function (plain-TypedTree tree.now) }
    ensures { AnswersWithin limit (record { items = decls.now.items; item = item; body = plain-TypedTree tree.now; variables = map plain-Open variables.now }) mutable.now result }
{
    match noted(alloc, decls, variables, flow) {
        Ok(notes) => {
            let answer = with_notes(
                alloc, decls, item, tree, mutable, variables, &notes, flow, limit,
            );
            notes.let_go();
            answer
        }
        Err(_) => Err(LowerFault::OutOfMemory),
    }
}

/// The graph, where the types of the variables are known.
fn with_variables(
    alloc: Global,
    decls: &Decls,
    item: u32,
    tree: &TypedTree,
    mutable: &[bool],
    variables: &[Open],
    limit: u32,
) -> Result<Graph, LowerFault>
    ensures { AnswersWithin limit (record { items = decls.now.items; item = item; body = plain-TypedTree tree.now; variables = map plain-Open variables.now }) mutable.now result }
{
    match flow_of(alloc, tree) {
        Ok(flow) => {
            let answer = with_flow(alloc, decls, item, tree, mutable, variables, &flow, limit);
            flow.let_go();
            answer
        }
        Err(_) => Err(LowerFault::OutOfMemory),
    }
}

/// The graph of a function with its lifetimes: by what is declared, the function's item and typed tree, whether each variable
/// is declared `mut`, the types of the variables without lifetimes, and those that `let`s write. `limit` is how many sites it
/// may have.
pub fn lower_function_within(
    alloc: Global,
    decls: &Decls,
    item: u32,
    tree: &TypedTree,
    mutable: &[bool],
    raws: &[Option<Ty>],
    written: &[Told],
    limit: u32,
) -> Result<Graph, LowerFault>
    ensures answers { AnswersWithin limit (function_of decls.now.items item (plain-TypedTree tree.now) raws.now (map plain-Told written.now)) mutable.now result }
    ensures walked { IfOk result (λ g. Walked (function_of decls.now.items item (plain-TypedTree tree.now) raws.now (map plain-Told written.now)) g) }
{
    let own = lifetimes_of(decls, item);
    let types = parameters(decls, item);
    match open_types(
        alloc,
        decls,
        own,
        tree.params.as_slice(),
        types,
        written,
        raws,
    ) {
        Ok(variables) => {
            let answer = with_variables(
                alloc,
                decls,
                item,
                tree,
                mutable,
                variables.as_slice(),
                limit,
            );
            variables.let_go();
            answer
        }
        Err(_) => Err(LowerFault::OutOfMemory),
    }
}

/// The same, of a function that may have 16,384 sites.
pub fn lower_function(
    alloc: Global,
    decls: &Decls,
    item: u32,
    tree: &TypedTree,
    mutable: &[bool],
    raws: &[Option<Ty>],
    written: &[Told],
) -> Result<Graph, LowerFault>
    ensures answers { Answers (function_of decls.now.items item (plain-TypedTree tree.now) raws.now (map plain-Told written.now)) mutable.now result }
    ensures walked { IfOk result (λ g. Walked (function_of decls.now.items item (plain-TypedTree tree.now) raws.now (map plain-Told written.now)) g) }
{
    lower_function_within(alloc, decls, item, tree, mutable, raws, written, 16384)
}
