//! Where a walk over a function stands: the numbers of its nodes, loops and variables, and the names that are left.

ghost use Rattle.std.specs.Prelude.{◌≡◌, ◌-◌, Bool, false, [], ◌∷◌, ◌++◌, length, get_or, map, slice_set, Some, Ok, Err, OnOk, IfOk};
ghost use Rattle.rx_tree.specs.PlainOf.{plain-Expr, plain-Pattern, plain-TypeText};
ghost use Rattle.rx_typed.specs.Naming as naming;
ghost use Rattle.rx_typeck_elaborate_parts.specs.Entries.{entry_of, marked, left_at, plain_annotation, in_front};

use rx_core::{List, Span};
use rx_resolve_names::NodeNames;
use rx_tree::{Expr, ExprNode, Pattern, TypeText};
use rx_typed::{Declaration, Node, Site, Stage, Use};
use std::alloc::{AllocError, Global};
use std::marker::Model;

/// What an entry of names says: its first two numbers, or 0, and whether it is of a callee that names a variable.
#[derive(Clone, Copy)]
pub struct Entry {
    pub first: u32,
    pub second: u32,
    pub hidden: bool,
}

/// A place in the text: the numbers of the next node and variable, and the entries of names that are left.
#[derive(Clone, Copy)]
pub struct Mark<'t> {
    number: usize,
    declared: u32,
    names: &'t [NodeNames],
}

/// A `let` with a type: its pattern, the type, the number of the pattern's first variable, and the entries of names
/// from the pattern's on.
#[derive(Clone, Copy)]
pub struct Annotation<'t> {
    pub pattern: &'t Pattern,
    pub typ: &'t TypeText,
    pub variable: u32,
    pub names: &'t [NodeNames],
}

impl<'t> Annotation<'t> {
    /// A cursor in front of the pattern, which knows nothing before it.
    pub fn cursor(&self, alloc: Global) -> Cursor<'t>
        ensures { result ≡ in_front (plain_annotation self.now) }
    {
        let mark = Mark {
            number: 0,
            declared: self.variable,
            names: self.names,
        };
        Cursor::at(alloc, mark)
    }
}

/// Where a walk over a function stands.
#[derive(Drop)]
pub struct Cursor<'t> {
    /// The next node's number.
    number: usize,
    /// The spans of the nodes so far.
    spans: List<Span>,
    /// By number of a loop that has begun, whether some `break` led to it so far.
    loops: Vec<bool>,
    /// The next variable's number.
    declared: u32,
    /// By number, the variables that were declared so far.
    variables: Vec<Declaration>,
    /// The entries of names that are left.
    names: &'t [NodeNames],
    /// Those `let`s that had a type so far.
    annotations: Vec<Annotation<'t>>,
}

impl<'t> Model for Cursor<'t> {
    ghost use Rattle.std.specs.Prelude.{map as each_of};
    ghost use Rattle.rx_typed.specs.Naming as reached;
    ghost use Rattle.rx_typeck_elaborate_parts.specs.Entries.{plain_annotation as annotation};
    ghost use Rattle.std.specs.Coded.{codes};
    ghost use Rattle.rx_typeck_elaborate_parts.specs.Coding.{coded_annotation};

    ghost Value = { reached.Cursor };

    ghost coded = { Prim.hlevel (codes, coded_annotation) };

    ghost view = { λ c. record { number = c.number; spans = c.spans; loops = c.loops.items; declared = c.declared; variables = c.variables.items; names = c.names.now; annotations = each_of annotation c.annotations.items } };
}

impl<'t> Cursor<'t> {
    /// Where a function begins, with the entries of names of its item.
    pub fn new(alloc: Global, names: &'t [NodeNames]) -> Cursor<'t>
        ensures { result ≡ naming.begins names.now }
    {
        let mark = Mark {
            number: 0,
            declared: 0,
            names,
        };
        Cursor::at(alloc, mark)
    }

    /// A cursor that numbers the nodes and variables behind a mark, and knows none before it.
    pub fn at(alloc: Global, mark: Mark<'t>) -> Cursor<'t>
        ensures { result ≡ marked mark.entry }
    {
        Cursor {
            number: mark.number,
            spans: List::new(alloc),
            loops: Vec::new(alloc),
            declared: mark.declared,
            variables: Vec::new(alloc),
            names: mark.names,
            annotations: Vec::new(alloc),
        }
    }

    /// Where the cursor stands.
    #[tactic(auto, unfolding(crate::specs::Entries::left_at))]
    pub fn mark(&self) -> Mark<'t>
        ensures { marked result ≡ left_at self.now }
    {
        Mark {
            number: self.number,
            declared: self.declared,
            names: self.names,
        }
    }

    /// The spans of the nodes so far, and the variables, each by their numbers, and the `let`s that had a type.
    pub fn finished(self) -> (List<Span>, List<Declaration>, List<Annotation<'t>>)
        ensures numbered { (result.0 ≡ self.entry.spans) × (result.1 ≡ self.entry.variables) }
        ensures annotated { map plain_annotation result.2 ≡ self.entry.annotations }
    {
        (
            self.spans,
            List::from_vec(self.variables),
            List::from_vec(self.annotations),
        )
    }

    /// The pattern and the type of a `let`, in front of the pattern.
    pub fn annotate(&mut self, pattern: &'t Pattern, typ: &'t TypeText) -> Result<(), AllocError>
        ensures { OnOk result (self.new ≡ (naming.annotates (plain-Pattern pattern.now) (Some (plain-TypeText typ.now)) self.old).1) }
    {
        self.annotations.push(Annotation {
            pattern,
            typ,
            variable: self.declared,
            names: self.names,
        })?;
        Ok(())
    }

    /// The entries of names that are left.
    pub fn names(&self) -> &'t [NodeNames]
        ensures { result.now ≡ self.now.names }
    {
        self.names
    }

    /// The number of the next node.
    pub fn number(&self) -> usize
        ensures { result ≡ self.now.number }
    {
        self.number
    }

    /// The next node. Where numbers of 64 bits run out it is as if memory did.
    pub fn node(&mut self, span: Span, site: Site) -> Result<Node, AllocError>
        ensures { IfOk result (λ node. (node ≡ (naming.a_node span site self.old).0) × (self.new ≡ (naming.a_node span site self.old).1)) }
    {
        let number = self.number;
        match number.checked_add(1) {
            Some(next) => {
                self.spans.push(span)?;
                self.number = next;
                Ok(Node { number, span, site })
            }
            None => Err(AllocError),
        }
    }

    /// The next entry of names; where none is left, one without numbers.
    pub fn entry(&mut self) -> Entry
        ensures entry { result ≡ entry_of (naming.an_entry self.old).0 }
        ensures cursor { self.new ≡ (naming.an_entry self.old).1 }
    {
        match self.names {
            [entry, rest @ ..] => {
                self.names = rest;
                entry_from(entry)
            }
            [] => Entry {
                first: 0,
                second: 0,
                hidden: false,
            },
        }
    }

    /// A new variable, and its number. Where numbers of 32 bits run out it is as if memory did.
    pub fn declare(&mut self, variable: Declaration) -> Result<u32, AllocError>
        ensures { IfOk result (λ x. (x ≡ (naming.declare variable self.old).0) × (self.new ≡ (naming.declare variable self.old).1)) }
    {
        let number = self.declared;
        match number.checked_add(1) {
            Some(next) => {
                self.variables.push(variable)?;
                self.declared = next;
                Ok(number)
            }
            None => Err(AllocError),
        }
    }

    /// The variable of this number; one that was not declared is none whose type is known.
    pub fn declaration(&self, variable: u32) -> Declaration
        ensures { result ≡ naming.declaration self.now variable }
    {
        match self.variables.get(variable as usize) {
            Some(declaration) => *declaration,
            None => Declaration {
                mutable: false,
                stage: Stage::Given,
            },
        }
    }

    /// The variables so far, by number.
    pub fn variables(&self) -> &[Declaration]
        ensures { result.now ≡ self.now.variables }
    {
        self.variables.as_slice()
    }

    /// The variable of this number where it waits for its type, and the node of the pattern that declares it.
    pub fn waits(&self, variable: u32) -> Option<(u32, usize)>
        ensures { result ≡ naming.waiting variable (naming.declaration self.now variable).stage }
    {
        waiting(variable, self.declaration(variable).stage)
    }

    /// A variable where it is named.
    pub fn use_of(&self, variable: u32) -> Use
        ensures { result ≡ naming.use_of variable (naming.declaration self.now variable) }
    {
        let declaration = self.declaration(variable);
        Use {
            number: variable,
            mutable: declaration.mutable,
            known: is_known(declaration.stage),
        }
    }

    /// The variable that is the whole left side of an assignment and waits for its type, and the pattern that declares
    /// it; of the left side, and its variable.
    #[tactic(auto, using(rx_tree::proofs::Rules::expression_rules, crate::proofs::Next::nothing_waits))]
    pub fn waits_in(&self, place: &Expr, variable: u32) -> Option<(u32, usize)>
        ensures { result ≡ naming.waits_in (plain-Expr place.now) variable self.now }
    {
        match &place.node {
            ExprNode::Var(_) => self.waits(variable),
            _ => None,
        }
    }

    /// Says how a variable's type is known from here on.
    pub fn set_stage(&mut self, variable: u32, stage: Stage)
        ensures { self.new ≡ naming.with_stage variable stage self.old }
    {
        let declaration = self.declaration(variable);
        put(
            self.variables.as_mut_slice(),
            variable as usize,
            Declaration {
                mutable: declaration.mutable,
                stage,
            },
        );
    }

    /// The number of the next variable.
    pub fn declared(&self) -> u32
        ensures { result ≡ self.now.declared }
    {
        self.declared
    }

    /// The variables from a number to another, which is left out, have types from here on.
    pub fn know(&mut self, from: u32, to: u32)
        ensures { self.new ≡ (naming.known_between from to self.old).1 }
    {
        know(self.variables.as_mut_slice(), from as usize, to as usize);
    }

    /// A new loop, and its number.
    pub fn new_loop(&mut self) -> Result<usize, AllocError>
        ensures { IfOk result (λ l. (l ≡ (naming.a_loop self.old).0) × (self.new ≡ (naming.a_loop self.old).1)) }
    {
        let number = self.loops.len();
        self.loops.push(false)?;
        Ok(number)
    }

    /// Some `break` leads to the loop.
    pub fn lead(&mut self, number: u32)
        ensures { self.new ≡ naming.led_to number self.old }
    {
        put(self.loops.as_mut_slice(), number as usize, true);
    }

    /// Behind the right side of an assignment before which the variable of this number waits for its type: where it
    /// waits still, the assignment gives the type, which is known from here on; the node of the pattern that declares it.
    pub fn gives_here(&mut self, variable: u32) -> Option<usize>
        ensures pattern { result ≡ (naming.gives_here variable self.old).0 }
        ensures cursor { self.new ≡ (naming.gives_here variable self.old).1 }
    {
        match self.waits(variable) {
            Some((_, pattern)) => {
                self.set_stage(variable, Stage::Known);
                Some(pattern)
            }
            None => None,
        }
    }

    /// Whether some `break` led to the loop so far.
    pub fn is_left(&self, number: usize) -> bool
        ensures { result ≡ get_or self.now.loops number false }
    {
        match self.loops.get(number) {
            Some(left) => *left,
            None => false,
        }
    }
}

fn waiting(variable: u32, stage: Stage) -> Option<(u32, usize)>
    ensures { result ≡ naming.waiting variable stage }
{
    match stage {
        Stage::Waits(pattern, _) => Some((variable, pattern)),
        _ => None,
    }
}

fn is_known(stage: Stage) -> bool
    ensures { result ≡ naming.is_known stage }
{
    match stage {
        Stage::Known => true,
        _ => false,
    }
}

/// Puts an item in the place of another; where there is none, nothing changes.
fn put<T: Copy>(items: &mut [T], place: usize, item: T)
    ensures { items.new ≡ slice_set items.old place item }
{
    if place < items.len() {
        items[place] = item;
    }
}

/// The variables from a number to another, which is left out, have types.
fn know(variables: &mut [Declaration], from: usize, to: usize)
    ensures { variables.new ≡ naming.known_among from (to - from) variables.old }
{
    let end = if to < variables.len() {
        to
    } else {
        variables.len()
    };
    for variable in from..end {
        variables[variable].stage = Stage::Known;
    }
}

fn entry_from(names: &NodeNames) -> Entry
    ensures { result ≡ entry_of (names.now.numbers, names.now.hidden) }
{
    let numbers = names.numbers.as_slice();
    Entry {
        first: number_at(numbers, 0),
        second: number_at(numbers, 1),
        hidden: names.hidden,
    }
}

/// The number at a place, or 0.
fn number_at(numbers: &[u32], place: usize) -> u32
    ensures { result ≡ get_or numbers.now place 0 }
{
    match numbers.get(place) {
        Some(number) => *number,
        None => 0,
    }
}
