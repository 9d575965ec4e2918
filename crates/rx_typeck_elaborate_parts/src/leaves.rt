//! Typed expressions without parts, and what else is no part of the cycle of walks.

ghost use Rattle.std.specs.Prelude.{◌≡◌, false, option_map};
ghost use Rattle.rx_tree.specs.PlainOf.{plain-Pattern as plain-PatternTree, plain-TypeText};
ghost use Rattle.rx_tree.specs.Plain as plain;
ghost use Rattle.rx_typed.specs.Named as named;
ghost use Rattle.rx_typed.specs.Naming as naming;
ghost use Rattle.rx_typed.specs.Elaborated as elaborated;
ghost use Rattle.rx_typed.specs.PlainTree.{plain-Expr, plain-Place, plain-Stmt};
ghost use Rattle.rx_typeck_elaborate_parts.specs.Seeing.{seen_of};
ghost use Rattle.rx_typeck_elaborate_parts.specs.Telling as telling;
ghost use Rattle.rx_typeck_elaborate_parts.specs.Walks as walks;

use crate::dereferenced::kind_in;
use crate::made::jump;
use crate::patterns::Declares;
use crate::read::own;
use crate::told::{has_no_type, numbers};
use crate::walk::Walk;
use crate::{Seen, value_seen, variable_seen};
use rx_core::{Kind, LetGo, Name, Place, Span};
use rx_tree::{Ident, Pattern as PatternTree, TypeText};
use rx_typed::{Constant, Expr, Site, Stage, Stmt};
use std::alloc::AllocError;

impl<'t> Walk<'t> {
    pub fn integer(
        &mut self,
        span: Span,
        site: Site,
        minus: bool,
        number: u64,
        _suffix: Option<Kind>,
    ) -> Result<(Expr, Seen), AllocError>
        ensures { walks.Tells plain-Expr (naming.of_expression minus site (plain.int span number _suffix)) elaborated.value seen_of self.old result self.new }
    {
        let node = self.node(span, site)?;
        let kind = kind_in(self.given.typ(node));
        let tree = self
            .given
            .constant(node, Constant::Integer(kind, false, number))?;
        Ok((tree, value_seen(node, false, false)))
    }

    pub fn truth(&mut self, span: Span, site: Site, truth: bool) -> Result<(Expr, Seen), AllocError>
        ensures { walks.Tells plain-Expr (naming.of_expression false site (plain.bool span truth)) elaborated.value seen_of self.old result self.new }
    {
        let node = self.node(span, site)?;
        let tree = self.given.constant(node, Constant::Truth(truth))?;
        Ok((tree, value_seen(node, false, false)))
    }

    pub fn next_input(&mut self, span: Span, site: Site) -> Result<(Expr, Seen), AllocError>
        ensures { walks.Tells plain-Expr (naming.of_expression false site (plain.next_input span)) elaborated.value seen_of self.old result self.new }
    {
        let node = self.node(span, site)?;
        self.entry();
        let tree = self.given.input(node)?;
        Ok((tree, value_seen(node, false, false)))
    }

    pub fn break_at(
        &mut self,
        span: Span,
        site: Site,
        _label: &Option<Ident>,
    ) -> Result<(Expr, Seen), AllocError>
        ensures { walks.Tells plain-Expr (naming.of_expression false site (plain.break span _label.now)) elaborated.value seen_of self.old result self.new }
    {
        let node = self.node(span, site)?;
        let number = self.entry().first;
        self.cursor.lead(number);
        Ok((jump(node, number, false), value_seen(node, true, true)))
    }

    pub fn continue_at(
        &mut self,
        span: Span,
        site: Site,
        _label: &Option<Ident>,
    ) -> Result<(Expr, Seen), AllocError>
        ensures { walks.Tells plain-Expr (naming.of_expression false site (plain.continue span _label.now)) elaborated.value seen_of self.old result self.new }
    {
        let node = self.node(span, site)?;
        let number = self.entry().first;
        Ok((jump(node, number, true), value_seen(node, true, true)))
    }

    /// A variable.
    pub fn variable(
        &mut self,
        span: Span,
        site: Site,
        _name: &Name,
    ) -> Result<(Place, Seen), AllocError>
        ensures { walks.Tells plain-Place (naming.of_expression false site (plain.var span _name.now)) elaborated.place seen_of self.old result self.new }
    {
        let node = self.node(span, site)?;
        let number = self.entry().first;
        let root = self.cursor.use_of(number);
        Ok((own(self.given.alloc, number), variable_seen(node, root)))
    }

    pub fn variable_value(
        &mut self,
        span: Span,
        site: Site,
        name: &Name,
    ) -> Result<(Expr, Seen), AllocError>
        ensures { walks.Tells plain-Expr (naming.of_expression false site (plain.var span name.now)) elaborated.value seen_of self.old result self.new }
    {
        let (place, seen) = self.variable(span, site, name)?;
        let tree = self.given.place_value(seen.node, place)?;
        Ok((tree, seen))
    }

    /// A new loop, and its number.
    pub fn new_loop(&mut self) -> Result<u32, AllocError>
        ensures { walks.Builds (λ l. l) naming.a_loop (λ _ l. l) self.old result self.new }
    {
        let number = self.cursor.new_loop()?;
        match u32::try_from(number) {
            Ok(number) => Ok(number),
            Err(_too_many) => Err(AllocError),
        }
    }

    #[tactic(auto, using(rx_tree::proofs::Rules::expression_rules, rx_tree::proofs::Rules::block_rules, rx_tree::proofs::Rules::let_rules, rx_typed::proofs::Rules::typed_tree_rules, crate::proofs::Listed::listed_rules, crate::proofs::Stating::statement_rules))]
    pub fn declares(
        &mut self,
        span: Span,
        pattern: &'t PatternTree,
        typ: &'t Option<TypeText>,
    ) -> Result<(Stmt, bool), AllocError>
        ensures { walks.Tells plain-Stmt (naming.of_statement (plain.let_statement span (plain-PatternTree pattern.now) (option_map plain-TypeText typ.now) plain.absent)) elaborated.statement named.statement_diverges self.old result self.new }
    {
        let node = self.node(span, Site::Value)?;
        self.annotate(pattern, typ)?;
        let from = self.cursor.declared();
        let (pattern, declares) = self.pattern(None, pattern)?;
        pattern.let_go();
        let to = self.cursor.declared();
        self.optional_type(typ)?;
        self.cursor.know(from, to);
        self.wait_if(has_no_type(typ), declares);
        let variables = numbers(self.given.alloc, from, to)?;
        Ok((Stmt::Declares(node.number, variables), false))
    }

    /// A variable that is declared without a type may wait for one.
    pub fn wait_if(&mut self, waits: bool, declares: Declares)
        ensures { self.new ≡ walks.moved (telling.waiting_if waits declares self.old.cursor) self.old }
    {
        if waits {
            match declares.variable {
                Some(variable) => {
                    let stage = Stage::Waits(declares.node.number, declares.node.span);
                    self.cursor.set_stage(variable, stage);
                }
                None => (),
            }
        }
    }
}
