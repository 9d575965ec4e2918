//! Some statements, and maybe a tail.

ghost use Rattle.std.specs.Prelude.{◌≡◌, ◌++◌, IfOk};
ghost use Rattle.rx_tree.specs.PlainOf.{plain-Block};
ghost use Rattle.rx_hoist_extraction.specs.Run.{block_of as block_of_parts};
ghost use Rattle.rx_hoist_made.specs.Lasts.{last_one};
ghost use Rattle.rx_hoist_made.specs.PlainParts.{plain-Parts};

use rx_core::{Boxed, LetGo, List, Span};
use rx_tree::{Block, Expr, Stmt};
use std::alloc::AllocError;

/// Statements, and the tail behind them where there is one.
pub struct Parts {
    pub stmts: List<Stmt>,
    pub tail: Option<Boxed<Expr>>,
}

/// Statements of a program, and the tail behind them where it is one of them.
#[derive(Clone, Copy)]
pub struct RunParts<'a> {
    pub stmts: &'a [Stmt],
    pub tail: Option<&'a Expr>,
}

impl LetGo for Parts {
    fn let_go(self) {
        let Parts { stmts, tail } = self;
        stmts.let_go();
        tail.let_go();
    }
}

/// A list, and another behind it. Where memory runs out both are let go.
pub fn together<T: LetGo>(front: List<T>, rest: List<T>) -> Result<List<T>, AllocError>
    ensures { IfOk result (λ all. all ≡ front ++ rest) }
{
    let mut all = front.into_vec();
    let mut more = rest.into_vec();
    match all.append(&mut more) {
        Ok(()) => {
            more.destroy_empty();
            Ok(List::from_vec(all))
        }
        Err(AllocError) => {
            List::from_vec(all).let_go();
            List::from_vec(more).let_go();
            Err(AllocError)
        }
    }
}

/// The last of a list. The others are let go.
pub fn last_of<T: LetGo>(list: List<T>) -> Option<T>
    ensures { result ≡ last_one list }
{
    let mut others = list;
    match others.pop() {
        Some(last) => {
            others.let_go();
            Some(last)
        }
        None => {
            others.let_go();
            None
        }
    }
}

/// A block of these parts.
pub fn block_of(span: Span, parts: Parts) -> Block
    ensures { plain-Block result ≡ block_of_parts span (plain-Parts parts) }
{
    let Parts { stmts, tail } = parts;
    Block { span, stmts, tail }
}
