//! Typed expressions from their parts.

ghost use Rattle.std.specs.Prelude.{◌≡◌, [], ◌∷◌, map, Some, IfOk};
ghost use Rattle.rx_typed.specs.Types as types;
ghost use Rattle.rx_typed.specs.Elaborated as elaborated;
ghost use Rattle.rx_typed.specs.Tree as tree;
ghost use Rattle.rx_typed.specs.PlainTree.{plain-Mark, plain-Place, plain-Expr, plain-Matched, plain-Making, plain-Operand, plain-Constant, plain-Pattern, plain-Arm, plain-Stmt, operands_of, arms_of, nested_of};
ghost use Rattle.rx_typeck_elaborate_parts.specs.Coercing.{types_of};

use crate::marks::{Given, no_mark, unit_mark};
use rx_core::{Boxed, LetGo, List, Place, keep, pushed};
use rx_tree::{BinaryOp, UpdateOp};
use rx_typed::{Arm, Constant, Expr, Form, Making, Mark, Matched, Node, Operand, Pattern, Stmt};
use std::alloc::{AllocError, Global};

/// The unit that a missing tail or a missing value of a `return` is.
#[tactic(auto, using(rx_typed::proofs::Rules::typed_tree_rules))]
pub fn end_unit(alloc: Global, node: Node) -> Expr
    ensures { plain-Expr result ≡ tree.unit (elaborated.marked node.number (Some types.unit_shape)) }
{
    Expr {
        mark: unit_mark(alloc, node),
        form: Form::Unit,
    }
}

/// `break` or `continue` at a node: the loop's number, whether its next pass begins.
#[tactic(auto, using(rx_typed::proofs::Rules::typed_tree_rules))]
pub fn jump(node: Node, number: u32, again: bool) -> Expr
    ensures { plain-Expr result ≡ tree.jump (elaborated.no_mark node) number again }
{
    Expr {
        mark: no_mark(node),
        form: Form::Jump(number, again),
    }
}

/// `return`, and the end of a function's body.
#[tactic(auto, using(rx_typed::proofs::Rules::typed_tree_rules))]
pub fn give(alloc: Global, node: Node, value: Expr) -> Result<Expr, AllocError>
    ensures { IfOk result (λ it. plain-Expr it ≡ tree.give (elaborated.no_mark node) (plain-Expr value)) }
{
    let value = Boxed::new(alloc, value)?;
    Ok(Expr {
        mark: no_mark(node),
        form: Form::Give(value),
    })
}

/// What stands for a call of a variable, which the rules of types refuse.
#[tactic(auto, using(rx_typed::proofs::Rules::typed_tree_rules))]
pub fn nothing(node: Node) -> Expr
    ensures { plain-Expr result ≡ tree.unit (elaborated.no_mark node) }
{
    Expr {
        mark: no_mark(node),
        form: Form::Unit,
    }
}

/// The operator of `p op= e`.
fn operator(op: UpdateOp) -> BinaryOp
    ensures { result ≡ elaborated.operator op }
{
    match op {
        UpdateOp::Add => BinaryOp::Add,
        UpdateOp::Sub => BinaryOp::Sub,
        UpdateOp::Mul => BinaryOp::Mul,
        UpdateOp::Div => BinaryOp::Div,
        UpdateOp::Rem => BinaryOp::Rem,
    }
}

/// Two arms: the pattern's, and that of everything else.
#[tactic(auto, using(rx_typed::proofs::Rules::typed_tree_rules, rx_typed::proofs::Rules::typed_pattern_rules))]
fn two_arms(
    alloc: Global,
    pattern: Pattern,
    holds: Expr,
    fails: Expr,
) -> Result<List<Arm>, AllocError>
    ensures { IfOk result (λ it. map plain-Arm it ≡ (plain-Pattern pattern, plain-Expr holds) ∷ (tree.any, plain-Expr fails) ∷ []) }
{
    let first = Arm {
        pattern,
        body: holds,
    };
    let last = Arm {
        pattern: Pattern::Any,
        body: fails,
    };
    let (arms, last) = keep(last, pushed(List::new(alloc), first))?;
    pushed(arms, last)
}

/// What is matched is looked into: the pattern's way, or the other.
#[tactic(auto, using(rx_typed::proofs::Rules::typed_tree_rules))]
pub fn looks(
    alloc: Global,
    mark: Mark,
    matched: Matched,
    pattern: Pattern,
    ways: (Expr, Expr),
) -> Result<Expr, AllocError>
    ensures { IfOk result (λ it. plain-Expr it ≡ elaborated.looks (plain-Mark mark) (plain-Matched matched) (plain-Pattern pattern) (plain-Expr ways.0) (plain-Expr ways.1)) }
{
    let (holds, fails) = ways;
    let (arms, (mark, matched)) = keep((mark, matched), two_arms(alloc, pattern, holds, fails))?;
    Ok(Expr {
        mark,
        form: Form::Choose(matched, arms),
    })
}

/// A test that holds or fails: the way where it holds, and the other.
#[tactic(auto, using(rx_typed::proofs::Rules::typed_tree_rules, rx_typed::proofs::Rules::typed_pattern_rules))]
pub fn tests(
    alloc: Global,
    node: Node,
    condition: Expr,
    mark: Mark,
    ways: (Expr, Expr),
) -> Result<Expr, AllocError>
    ensures { IfOk result (λ it. plain-Expr it ≡ elaborated.tests node (plain-Expr condition) (plain-Mark mark) (plain-Expr ways.0) (plain-Expr ways.1)) }
{
    let (condition, (mark, ways)) = keep((mark, ways), Boxed::new(alloc, condition))?;
    let pattern = Pattern::Exactly(node.number, Constant::Truth(true));
    looks(alloc, mark, Matched::Value(condition), pattern, ways)
}

impl<'t> Given<'t> {
    /// The unit.
    #[tactic(auto, using(rx_typed::proofs::Rules::typed_tree_rules))]
    pub fn unit(&self, node: Node) -> Result<Expr, AllocError>
        ensures { IfOk result (λ it. plain-Expr it ≡ tree.unit (elaborated.mark (types_of self.now) node)) }
    {
        let mark = self.mark(node)?;
        Ok(Expr {
            mark,
            form: Form::Unit,
        })
    }

    /// The next input.
    #[tactic(auto, using(rx_typed::proofs::Rules::typed_tree_rules))]
    pub fn input(&self, node: Node) -> Result<Expr, AllocError>
        ensures { IfOk result (λ it. plain-Expr it ≡ tree.input (elaborated.mark (types_of self.now) node)) }
    {
        let mark = self.mark(node)?;
        Ok(Expr {
            mark,
            form: Form::Input,
        })
    }

    /// What is made of operands.
    #[tactic(auto, using(rx_typed::proofs::Rules::typed_tree_rules))]
    pub fn build(
        &self,
        node: Node,
        making: Making,
        operands: List<Operand>,
    ) -> Result<Expr, AllocError>
        ensures { IfOk result (λ it. plain-Expr it ≡ tree.build (elaborated.mark (types_of self.now) node) (plain-Making making) (operands_of (map plain-Operand operands))) }
    {
        let (mark, operands) = keep(operands, self.mark(node))?;
        Ok(Expr {
            mark,
            form: Form::Build(making, operands),
        })
    }

    /// A literal.
    pub fn constant(&self, node: Node, constant: Constant) -> Result<Expr, AllocError>
        ensures { IfOk result (λ it. plain-Expr it ≡ tree.build (elaborated.mark (types_of self.now) node) (tree.constant (plain-Constant constant)) tree.no_operand) }
    {
        self.build(node, Making::Constant(constant), List::new(self.alloc))
    }

    /// What is made of one operand.
    #[tactic(auto, using(rx_typed::proofs::Rules::typed_tree_rules))]
    pub fn build_one(&self, node: Node, making: Making, value: Expr) -> Result<Expr, AllocError>
        ensures { IfOk result (λ it. plain-Expr it ≡ tree.build (elaborated.mark (types_of self.now) node) (plain-Making making) (elaborated.one_operand (plain-Expr value))) }
    {
        let field = 0;
        let operands = pushed(List::new(self.alloc), Operand { field, value })?;
        self.build(node, making, operands)
    }

    /// What an operator makes of two operands that are both evaluated.
    #[tactic(auto, using(rx_typed::proofs::Rules::typed_tree_rules))]
    fn build_two(
        &self,
        node: Node,
        op: BinaryOp,
        left: Expr,
        right: Expr,
    ) -> Result<Expr, AllocError>
        ensures { IfOk result (λ it. plain-Expr it ≡ tree.build (elaborated.mark (types_of self.now) node) (tree.operation op) (tree.operand_and 0 (plain-Expr left) (tree.operand_and 1 (plain-Expr right) tree.no_operand))) }
    {
        let first = Operand {
            field: 0,
            value: left,
        };
        let last = Operand {
            field: 1,
            value: right,
        };
        let (operands, last) = keep(last, pushed(List::new(self.alloc), first))?;
        let operands = pushed(operands, last)?;
        self.build(node, Making::Operation(op), operands)
    }

    /// `&&` with true, `||` with false.
    #[tactic(auto, using(rx_typed::proofs::Rules::typed_tree_rules))]
    fn lazily(&self, node: Node, both: bool, left: Expr, right: Expr) -> Result<Expr, AllocError>
        ensures { IfOk result (λ it. plain-Expr it ≡ tree.lazily (elaborated.mark (types_of self.now) node) both (plain-Expr left) (plain-Expr right)) }
    {
        let (left, right) = keep(right, Boxed::new(self.alloc, left))?;
        let (right, left) = keep(left, Boxed::new(self.alloc, right))?;
        let (mark, (left, right)) = keep((left, right), self.mark(node))?;
        Ok(Expr {
            mark,
            form: Form::Lazily(both, left, right),
        })
    }

    /// What an operator makes of two operands.
    pub fn operated(
        &self,
        node: Node,
        op: BinaryOp,
        left: Expr,
        right: Expr,
    ) -> Result<Expr, AllocError>
        ensures { IfOk result (λ it. plain-Expr it ≡ elaborated.operated (types_of self.now) node op (plain-Expr left) (plain-Expr right)) }
    {
        match op {
            BinaryOp::And => self.lazily(node, true, left, right),
            BinaryOp::Or => self.lazily(node, false, left, right),
            BinaryOp::Eq
            | BinaryOp::Ne
            | BinaryOp::Lt
            | BinaryOp::Le
            | BinaryOp::Gt
            | BinaryOp::Ge
            | BinaryOp::Add
            | BinaryOp::Sub
            | BinaryOp::Mul
            | BinaryOp::Div
            | BinaryOp::Rem => self.build_two(node, op, left, right),
        }
    }

    /// A tuple, or the unit.
    #[tactic(auto, using(crate::proofs::Tuples::tuple_made))]
    pub fn tuple_of(&self, node: Node, operands: List<Operand>) -> Result<Expr, AllocError>
        ensures { IfOk result (λ it. plain-Expr it ≡ elaborated.tuple_of (types_of self.now) node (operands_of (map plain-Operand operands))) }
    {
        if operands.is_empty() {
            operands.let_go();
            self.unit(node)
        } else {
            self.build(node, Making::Tuple, operands)
        }
    }

    /// A place, borrowed.
    #[tactic(auto, using(rx_typed::proofs::Rules::typed_tree_rules))]
    pub fn borrow(&self, node: Node, mutable: bool, place: Place) -> Result<Expr, AllocError>
        ensures { IfOk result (λ it. plain-Expr it ≡ tree.borrow (elaborated.mark (types_of self.now) node) mutable (plain-Place place)) }
    {
        let (mark, place) = keep(place, self.mark(node))?;
        Ok(Expr {
            mark,
            form: Form::Borrow(mutable, place),
        })
    }

    /// A place that is assigned a value.
    #[tactic(auto, using(rx_typed::proofs::Rules::typed_tree_rules))]
    pub fn assign(&self, node: Node, place: Place, value: Expr) -> Result<Expr, AllocError>
        ensures { IfOk result (λ it. plain-Expr it ≡ tree.assign (elaborated.mark (types_of self.now) node) (plain-Place place) (plain-Expr value)) }
    {
        let (value, place) = keep(place, Boxed::new(self.alloc, value))?;
        let (mark, (place, value)) = keep((place, value), self.mark(node))?;
        Ok(Expr {
            mark,
            form: Form::Assign(place, value),
        })
    }

    /// `p op= e`
    #[tactic(auto, using(rx_typed::proofs::Rules::typed_tree_rules))]
    pub fn update(
        &self,
        node: Node,
        op: UpdateOp,
        place: Place,
        value: Expr,
    ) -> Result<Expr, AllocError>
        ensures { IfOk result (λ it. plain-Expr it ≡ tree.update (elaborated.mark (types_of self.now) node) (elaborated.operator op) (plain-Place place) (plain-Expr value)) }
    {
        let (value, place) = keep(place, Boxed::new(self.alloc, value))?;
        let (mark, (place, value)) = keep((place, value), self.mark(node))?;
        Ok(Expr {
            mark,
            form: Form::Update(operator(op), place, value),
        })
    }

    /// A call of a function's item, with what its coercion site does to its result.
    #[tactic(auto, using(rx_typed::proofs::Rules::typed_tree_rules))]
    pub fn call(&self, node: Node, item: u32, operands: List<Operand>) -> Result<Expr, AllocError>
        ensures { IfOk result (λ it. plain-Expr it ≡ elaborated.value_of (types_of self.now) node (tree.call (elaborated.mark (types_of self.now) node) item (operands_of (map plain-Operand operands)))) }
    {
        let (mark, operands) = keep(operands, self.mark(node))?;
        self.value_of(
            node,
            Expr {
                mark,
                form: Form::Call(item, operands),
            },
        )
    }

    #[tactic(auto, using(rx_typed::proofs::Rules::typed_tree_rules))]
    pub fn print(&self, node: Node, value: Expr) -> Result<Expr, AllocError>
        ensures { IfOk result (λ it. plain-Expr it ≡ tree.print (elaborated.mark (types_of self.now) node) (plain-Expr value)) }
    {
        let value = Boxed::new(self.alloc, value)?;
        let (mark, value) = keep(value, self.mark(node))?;
        Ok(Expr {
            mark,
            form: Form::Print(value),
        })
    }

    /// A loop that may never be left: its number, and its body.
    #[tactic(auto, using(rx_typed::proofs::Rules::typed_tree_rules))]
    pub fn repeated(
        &self,
        node: Node,
        never: bool,
        number: u32,
        body: Expr,
    ) -> Result<Expr, AllocError>
        ensures { IfOk result (λ it. plain-Expr it ≡ tree.loop (elaborated.mark_if (types_of self.now) node never) number (plain-Expr body)) }
    {
        let body = Boxed::new(self.alloc, body)?;
        let (mark, body) = keep(body, self.mark_if(node, never))?;
        Ok(Expr {
            mark,
            form: Form::Loop(number, body),
        })
    }

    /// What is matched, and its arms.
    #[tactic(auto, using(rx_typed::proofs::Rules::typed_tree_rules))]
    pub fn choose(
        &self,
        node: Node,
        never: bool,
        matched: Matched,
        arms: List<Arm>,
    ) -> Result<Expr, AllocError>
        ensures { IfOk result (λ it. plain-Expr it ≡ tree.choose (elaborated.mark_if (types_of self.now) node never) (plain-Matched matched) (arms_of (map plain-Arm arms))) }
    {
        let (mark, (matched, arms)) = keep((matched, arms), self.mark_if(node, never))?;
        Ok(Expr {
            mark,
            form: Form::Choose(matched, arms),
        })
    }

    /// A block.
    #[tactic(auto, using(rx_typed::proofs::Rules::typed_tree_rules))]
    pub fn block(
        &self,
        node: Node,
        never: bool,
        statements: List<Stmt>,
        last: Expr,
    ) -> Result<Expr, AllocError>
        ensures { IfOk result (λ it. plain-Expr it ≡ tree.block (elaborated.mark_if (types_of self.now) node never) (nested_of (map plain-Stmt statements) (plain-Expr last))) }
    {
        let (last, statements) = keep(statements, Boxed::new(self.alloc, last))?;
        let (mark, (statements, last)) = keep((statements, last), self.mark_if(node, never))?;
        Ok(Expr {
            mark,
            form: Form::Block(statements, last),
        })
    }
}
