//! The names in expressions, blocks and statements.

ghost use Rattle.std.specs.Prelude.{◌≡◌, ◌≢◌, ℕ, suc, [], ◌∷◌, ◌++◌, length, map, Ok, Err, Some, None, Option, option_map};
ghost use Rattle.rx_tree.specs.PlainOf.{plain-Expr, plain-Block, plain-Stmt, plain-Arm, plain-FieldExpr, plain-Item, plain-TypeText, plain-Pattern, expressions_of, optional_of, optional_list_of, field_expressions_of, arms_of, statements_of};
ghost use Rattle.rx_resolve_names.specs.Scopes.{entered};
ghost use Rattle.rx_resolve_names.specs.Meant as meant;
ghost use Rattle.rx_resolve_names.specs.Steps as steps;
ghost use Rattle.rx_resolve_names.specs.Names as names;
ghost use Rattle.rx_resolve.specs.Walks as walks;

use crate::items::number;
use crate::walk::{Around, Walk};
use rx_core::{Boxed, List};
use rx_resolve_names::{Misnamed, Table};
use rx_tree::{Arm, Block, Expr, ExprNode, FieldExpr, Stmt, StmtNode};

impl<'w, 't> Walk<'w, 't> {
    #[cycle(expression)]
    #[tactic(auto, using(rx_tree::proofs::Rules::expression_rules, rx_tree::proofs::Rules::block_rules, rx_tree::proofs::Rules::statement_rules, crate::proofs::WalkRules::walk_rules))]
    pub(crate) fn expression(&mut self, expr: &'t Expr) -> Result<(), Misnamed>
        ensures { walks.Walks (names.in_expression (walks.inside self.old) self.old.scope (walks.around_from [] self.old.around) self.old.path (plain-Expr expr.now) self.old.tables) self.old result self.new }
    {
        match &expr.node {
            ExprNode::Int(_, _) | ExprNode::Bool(_) => Ok(()),
            ExprNode::Tuple(parts) => self.expressions(parts.as_slice()),
            ExprNode::Var(name) => self.variable_entry(name, expr.span),
            ExprNode::Field(inner, _) => self.child_expression(0, inner.get()),
            ExprNode::Part(inner, _) => self.child_expression(0, inner.get()),
            ExprNode::Deref(inner) => self.child_expression(0, inner.get()),
            ExprNode::Neg(inner) => self.child_expression(0, inner.get()),
            ExprNode::Not(inner) => self.child_expression(0, inner.get()),
            ExprNode::Borrow(_, inner) => self.child_expression(0, inner.get()),
            ExprNode::Binary(_, left, right) => {
                self.child_expression(0, left.get())?;
                self.child_expression(1, right.get())
            }
            ExprNode::Assign(left, right) => {
                self.child_expression(0, left.get())?;
                self.child_expression(1, right.get())
            }
            ExprNode::Update(_, left, right) => {
                self.child_expression(0, left.get())?;
                self.child_expression(1, right.get())
            }
            ExprNode::Call(callee, arguments) => {
                self.callee_entry(callee)?;
                self.expressions(arguments.as_slice())
            }
            ExprNode::NextInput => self.rt_entry(expr.span),
            ExprNode::Variant(name, variant, arguments) => {
                self.variant_entry(name, variant)?;
                self.arguments(arguments)
            }
            ExprNode::Make(name, fields) => {
                self.struct_entry(name)?;
                self.fields(fields.as_slice())
            }
            ExprNode::Print(inner) => self.child_expression(0, inner.get()),
            ExprNode::Block(block) => self.child_block(0, block.get()),
            ExprNode::If(condition, body, other) => {
                self.child_expression(0, condition.get())?;
                self.child_block(1, body.get())?;
                self.optional(2, other)
            }
            ExprNode::IfLet(pattern, scrutinee, body, other) => {
                let bindings = self.child_names(0, pattern)?;
                self.child_expression(1, scrutinee.get())?;
                self.bound_block(bindings, 2, body.get())?;
                self.optional(3, other)
            }
            ExprNode::Match(scrutinee, arms) => {
                self.child_expression(0, scrutinee.get())?;
                self.arms(arms.as_slice())
            }
            ExprNode::Loop(label, body) => {
                self.open_loop(label)?;
                self.child_block(0, body.get())?;
                self.close();
                Ok(())
            }
            ExprNode::While(label, condition, body) => {
                self.open_loop(label)?;
                self.test(0, condition.get())?;
                self.child_block(1, body.get())?;
                self.close();
                Ok(())
            }
            ExprNode::WhileLet(label, pattern, scrutinee, body) => {
                self.open_loop(label)?;
                let bindings = self.child_names(0, pattern)?;
                self.test(1, scrutinee.get())?;
                self.bound_block(bindings, 2, body.get())?;
                self.close();
                Ok(())
            }
            ExprNode::Break(label) => self.jump_entry(label, expr.span),
            ExprNode::Continue(label) => self.jump_entry(label, expr.span),
            ExprNode::Return(value) => self.optional(0, value),
        }
    }

    /// An expression that is a child of the node.
    #[cycle(expression)]
    #[tactic(auto, using(rx_tree::proofs::Rules::expression_rules, rx_tree::proofs::Rules::block_rules, rx_tree::proofs::Rules::statement_rules, crate::proofs::WalkRules::walk_rules))]
    fn child_expression(&mut self, child: u32, expr: &'t Expr) -> Result<(), Misnamed>
        ensures { walks.Walks (names.in_expression (walks.inside self.old) self.old.scope (walks.around_from [] self.old.around) (steps.child self.old.path child) (plain-Expr expr.now) self.old.tables) self.old result self.new }
    {
        self.down(child)?;
        self.expression(expr)?;
        self.up();
        Ok(())
    }

    /// An expression that may be there as a child of the node.
    #[cycle(expression)]
    #[tactic(auto, using(rx_tree::proofs::Rules::expression_rules, rx_tree::proofs::Rules::block_rules, rx_tree::proofs::Rules::statement_rules, crate::proofs::WalkRules::walk_rules))]
    fn optional(&mut self, child: u32, expr: &'t Option<Boxed<Expr>>) -> Result<(), Misnamed>
        ensures { walks.Walks (names.in_optional (walks.inside self.old) self.old.scope (walks.around_from [] self.old.around) (steps.child self.old.path child) (optional_of (option_map plain-Expr expr.now)) self.old.tables) self.old result self.new }
    {
        match expr {
            Some(expr) => self.child_expression(child, expr.get()),
            None => Ok(()),
        }
    }

    /// The test of a loop, a child of the node.
    #[cycle(expression)]
    #[tactic(auto, using(rx_tree::proofs::Rules::expression_rules, rx_tree::proofs::Rules::block_rules, rx_tree::proofs::Rules::statement_rules, crate::proofs::WalkRules::walk_rules))]
    fn test(&mut self, child: u32, expr: &'t Expr) -> Result<(), Misnamed>
        ensures { walks.Walks (names.in_expression (walks.inside self.old) self.old.scope (meant.a_test ∷ walks.around_from [] self.old.around) (steps.child self.old.path child) (plain-Expr expr.now) self.old.tables) self.old result self.new }
    {
        self.open(Around::Test)?;
        self.child_expression(child, expr)?;
        self.close();
        Ok(())
    }

    #[cycle(expression)]
    #[tactic(auto, using(rx_tree::proofs::Rules::expression_rules, rx_tree::proofs::Rules::block_rules, rx_tree::proofs::Rules::statement_rules, crate::proofs::WalkRules::walk_rules))]
    fn expressions(&mut self, exprs: &'t [Expr]) -> Result<(), Misnamed>
        ensures { walks.Walks (names.in_expressions (walks.inside self.old) self.old.scope (walks.around_from [] self.old.around) self.old.path 0 (expressions_of (map plain-Expr exprs.now)) self.old.tables) self.old result self.new }
    {
        let mut child = 0u32;
        for expr in exprs {
            self.child_expression(child, expr)?;
            child = child.saturating_add(1);
        }
        Ok(())
    }

    /// The arguments of a variant, where parentheses are written.
    #[cycle(expression)]
    #[tactic(auto, using(rx_tree::proofs::Rules::expression_rules, rx_tree::proofs::Rules::block_rules, rx_tree::proofs::Rules::statement_rules, crate::proofs::WalkRules::walk_rules))]
    fn arguments(&mut self, exprs: &'t Option<List<Expr>>) -> Result<(), Misnamed>
        ensures { walks.Walks (names.in_arguments (walks.inside self.old) self.old.scope (walks.around_from [] self.old.around) self.old.path (optional_list_of (option_map (map plain-Expr) exprs.now)) self.old.tables) self.old result self.new }
    {
        if let Some(exprs) = exprs {
            let mut child = 0u32;
            for expr in exprs.as_slice() {
                self.child_expression(child, expr)?;
                child = child.saturating_add(1);
            }
        }
        Ok(())
    }

    #[cycle(expression)]
    #[tactic(auto, using(rx_tree::proofs::Rules::expression_rules, rx_tree::proofs::Rules::block_rules, rx_tree::proofs::Rules::statement_rules, crate::proofs::WalkRules::walk_rules))]
    fn fields(&mut self, fields: &'t [FieldExpr]) -> Result<(), Misnamed>
        ensures { walks.Walks (names.in_fields (walks.inside self.old) self.old.scope (walks.around_from [] self.old.around) self.old.path 0 (field_expressions_of (map plain-FieldExpr fields.now)) self.old.tables) self.old result self.new }
    {
        let mut child = 0u32;
        for field in fields {
            self.field(child, field)?;
            child = child.saturating_add(1);
        }
        Ok(())
    }

    /// The arms of a `match`, whose scrutinee is child 0.
    #[cycle(expression)]
    #[tactic(auto, using(rx_tree::proofs::Rules::expression_rules, rx_tree::proofs::Rules::block_rules, rx_tree::proofs::Rules::statement_rules, crate::proofs::WalkRules::walk_rules))]
    fn arms(&mut self, arms: &'t [Arm]) -> Result<(), Misnamed>
        ensures { walks.Walks (names.in_arms (walks.inside self.old) self.old.scope (walks.around_from [] self.old.around) self.old.path 1 (arms_of (map plain-Arm arms.now)) self.old.tables) self.old result self.new }
    {
        let mut child = 1u32;
        for arm in arms {
            self.arm(child, arm)?;
            child = child.saturating_add(1).saturating_add(1);
        }
        Ok(())
    }

    /// An arm whose pattern is this child of the node.
    #[cycle(expression)]
    #[tactic(auto, using(rx_tree::proofs::Rules::expression_rules, rx_tree::proofs::Rules::block_rules, rx_tree::proofs::Rules::statement_rules, crate::proofs::WalkRules::walk_rules))]
    fn arm(&mut self, child: u32, arm: &'t Arm) -> Result<(), Misnamed>
        ensures { walks.Walks (names.pattern_then (walks.inside self.old) (steps.child self.old.path child) (plain-Arm arm.now).0 (λ ds. names.in_expression (walks.inside self.old) (entered self.old.scope ds) (walks.around_from [] self.old.around) (steps.child self.old.path (steps.next child)) (plain-Arm arm.now).1) self.old.tables) self.old result self.new }
    {
        let bindings = self.child_names(child, &arm.pattern)?;
        self.bound_expression(bindings, child.saturating_add(1), &arm.body)
    }

    /// An expression with these variables in scope, a child of the node.
    #[cycle(expression)]
    #[tactic(auto, using(rx_tree::proofs::Rules::expression_rules, rx_tree::proofs::Rules::block_rules, rx_tree::proofs::Rules::statement_rules, crate::proofs::WalkRules::walk_rules))]
    fn bound_expression(
        &mut self,
        bindings: Table<'t>,
        child: u32,
        expr: &'t Expr,
    ) -> Result<(), Misnamed>
        ensures { walks.Walks (names.in_expression (walks.inside self.old) (entered self.old.scope bindings.entry) (walks.around_from [] self.old.around) (steps.child self.old.path child) (plain-Expr expr.now) self.old.tables) self.old result self.new }
    {
        let outer = self.scope.len();
        self.enter_all(&bindings)?;
        self.child_expression(child, expr)?;
        self.scope.leave(outer);
        Ok(())
    }

    /// A block with these variables in scope, a child of the node.
    #[cycle(expression)]
    #[tactic(auto, using(rx_tree::proofs::Rules::expression_rules, rx_tree::proofs::Rules::block_rules, rx_tree::proofs::Rules::statement_rules, crate::proofs::WalkRules::walk_rules))]
    pub(crate) fn bound_block(
        &mut self,
        bindings: Table<'t>,
        child: u32,
        block: &'t Block,
    ) -> Result<(), Misnamed>
        ensures { walks.Walks (names.in_block (walks.inside self.old) (entered self.old.scope bindings.entry) (walks.around_from [] self.old.around) (steps.child self.old.path child) (plain-Block block.now) self.old.tables) self.old result self.new }
    {
        let outer = self.scope.len();
        self.enter_all(&bindings)?;
        self.child_block(child, block)?;
        self.scope.leave(outer);
        Ok(())
    }

    /// A block that is a child of the node.
    #[cycle(expression)]
    #[tactic(auto, using(rx_tree::proofs::Rules::expression_rules, rx_tree::proofs::Rules::block_rules, rx_tree::proofs::Rules::statement_rules, crate::proofs::WalkRules::walk_rules))]
    pub(crate) fn child_block(&mut self, child: u32, block: &'t Block) -> Result<(), Misnamed>
        ensures { walks.Walks (names.in_block (walks.inside self.old) self.old.scope (walks.around_from [] self.old.around) (steps.child self.old.path child) (plain-Block block.now) self.old.tables) self.old result self.new }
    {
        self.down(child)?;
        self.block(block)?;
        self.up();
        Ok(())
    }

    #[cycle(expression)]
    #[tactic(auto, using(rx_tree::proofs::Rules::expression_rules, rx_tree::proofs::Rules::block_rules, rx_tree::proofs::Rules::statement_rules, crate::proofs::WalkRules::walk_rules))]
    fn block(&mut self, block: &'t Block) -> Result<(), Misnamed>
        ensures { walks.Walks (names.in_block (walks.inside self.old) self.old.scope (walks.around_from [] self.old.around) self.old.path (plain-Block block.now) self.old.tables) self.old result self.new }
    {
        let outer = self.scope.len();
        self.statements(block.stmts.as_slice())?;
        match self.optional(number(block.stmts.len()), &block.tail) {
            Ok(()) => {
                self.scope.leave(outer);
                Ok(())
            }
            Err(fault) => Err(fault),
        }
    }

    #[cycle(expression)]
    #[tactic(auto, using(rx_tree::proofs::Rules::expression_rules, rx_tree::proofs::Rules::block_rules, rx_tree::proofs::Rules::statement_rules, crate::proofs::WalkRules::walk_rules))]
    fn statements(&mut self, stmts: &'t [Stmt]) -> Result<(), Misnamed>
        ensures { walks.Scopes (names.in_statements (walks.inside self.old) self.old.scope (walks.around_from [] self.old.around) self.old.path 0 (statements_of (map plain-Stmt stmts.now)) self.old.tables) self.old result self.new }
    {
        let mut child = 0u32;
        for stmt in stmts {
            self.child_statement(child, stmt)?;
            child = child.saturating_add(1);
        }
        Ok(())
    }

    /// A statement that is a child of the node.
    #[cycle(expression)]
    #[tactic(auto, using(rx_tree::proofs::Rules::expression_rules, rx_tree::proofs::Rules::block_rules, rx_tree::proofs::Rules::statement_rules, crate::proofs::WalkRules::walk_rules))]
    fn child_statement(&mut self, child: u32, stmt: &'t Stmt) -> Result<(), Misnamed>
        ensures { walks.Scopes (names.in_statement (walks.inside self.old) self.old.scope (walks.around_from [] self.old.around) (steps.child self.old.path child) (plain-Stmt stmt.now) self.old.tables) self.old result self.new }
    {
        self.down(child)?;
        self.statement(stmt)?;
        self.up();
        Ok(())
    }

    #[cycle(expression)]
    #[tactic(auto, using(rx_tree::proofs::Rules::expression_rules, rx_tree::proofs::Rules::block_rules, rx_tree::proofs::Rules::statement_rules, crate::proofs::WalkRules::walk_rules))]
    fn statement(&mut self, stmt: &'t Stmt) -> Result<(), Misnamed>
        ensures { walks.Scopes (names.in_statement (walks.inside self.old) self.old.scope (walks.around_from [] self.old.around) self.old.path (plain-Stmt stmt.now) self.old.tables) self.old result self.new }
    {
        match &stmt.node {
            StmtNode::Let(pattern, typ, value) => {
                let bindings = self.child_names(0, pattern)?;
                let place = self.written_type(typ)?;
                self.initialiser(place, value)?;
                self.enter_all(&bindings)
            }
            StmtNode::Eval(expr, _) => self.child_expression(0, expr),
        }
    }

    /// An initialiser that may be there as a child of the node.
    #[cycle(expression)]
    #[tactic(auto, using(rx_tree::proofs::Rules::expression_rules, rx_tree::proofs::Rules::block_rules, rx_tree::proofs::Rules::statement_rules, crate::proofs::WalkRules::walk_rules))]
    fn initialiser(&mut self, child: u32, expr: &'t Option<Expr>) -> Result<(), Misnamed>
        ensures { walks.Walks (names.in_optional (walks.inside self.old) self.old.scope (walks.around_from [] self.old.around) (steps.child self.old.path child) (optional_of (option_map plain-Expr expr.now)) self.old.tables) self.old result self.new }
    {
        match expr {
            Some(expr) => self.child_expression(child, expr),
            None => Ok(()),
        }
    }

    /// The value of a field, a child of the node.
    #[cycle(expression)]
    #[tactic(auto, using(rx_tree::proofs::Rules::expression_rules, crate::proofs::WalkRules::walk_rules))]
    fn field(&mut self, child: u32, field: &'t FieldExpr) -> Result<(), Misnamed>
        ensures { walks.Walks (names.in_expression (walks.inside self.old) self.old.scope (walks.around_from [] self.old.around) (steps.child self.old.path child) (plain-FieldExpr field.now).1 self.old.tables) self.old result self.new }
    {
        self.child_expression(child, &field.value)
    }
}
