//! The names that are bound between the beginning of a walk and the part where it stands.

ghost use Rattle.std.specs.Prelude.{◌≡◌, [], ◌++◌, map, IfOk, OnOk};
ghost use Rattle.rx_tree.specs.PlainOf.{plain-Pattern, plain-Stmt};
ghost use Rattle.rx_hoist_extraction.specs.Names.{is_among, bound, bound_by};
ghost use Rattle.rx_hoist_changes.specs.Standing.{bound_behind};

use rx_core::Name;
use rx_hoist_made::binds;
use rx_tree::{Pattern, Stmt, StmtNode};
use std::alloc::{AllocError, Global};
use std::marker::Model;

/// The names that patterns bind. Contracts see them as a list, those of the last pattern first.
#[derive(Drop)]
pub struct Names<'t> {
    /// The patterns in the order of the text.
    patterns: Vec<&'t Pattern>,
}

impl<'t> Model for Names<'t> {
    ghost use Rattle.std.specs.Prelude.{[], map};
    ghost use Rattle.rx_hoist_extraction.specs.Names.{Names as NamesOf};
    ghost use Rattle.rx_hoist_changes.specs.Standing.{bound_behind};

    ghost Value = { NamesOf };

    ghost view = { λ n. bound_behind [] (map (λ p. p.now) n.patterns.items) };
}

impl<'t> Names<'t> {
    /// No names. It takes no memory.
    pub fn new(alloc: Global) -> Names<'t>
        ensures { result ≡ [] }
    {
        Names {
            patterns: Vec::new(alloc),
        }
    }

    pub fn copy(&self, alloc: Global) -> Result<Names<'t>, AllocError>
        ensures { IfOk result (λ it. it ≡ self.now) }
    {
        Ok(Names {
            patterns: Vec::from_slice(alloc, self.patterns.as_slice())?,
        })
    }

    /// Adds the names of a pattern.
    #[tactic(auto, using(crate::proofs::ScopeLemmas::bound_push_of))]
    pub fn enter(&mut self, pattern: &'t Pattern) -> Result<(), AllocError>
        ensures { OnOk result (self.new ≡ bound (plain-Pattern pattern.now) ++ self.old) }
    {
        self.patterns.push(pattern)?;
        Ok(())
    }

    /// Adds the names that a statement binds.
    #[tactic(auto, using(rx_tree::proofs::Rules::statement_rules))]
    pub fn enter_statement(&mut self, stmt: &'t Stmt) -> Result<(), AllocError>
        ensures { OnOk result (self.new ≡ bound_by (plain-Stmt stmt.now) ++ self.old) }
    {
        match &stmt.node {
            StmtNode::Let(pattern, _, _) => self.enter(pattern),
            StmtNode::Eval(_, _) => Ok(()),
        }
    }

    /// These names and those of a pattern.
    pub fn with(&self, alloc: Global, pattern: &'t Pattern) -> Result<Names<'t>, AllocError>
        ensures { IfOk result (λ it. it ≡ bound (plain-Pattern pattern.now) ++ self.now) }
    {
        let mut names = self.copy(alloc)?;
        names.enter(pattern)?;
        Ok(names)
    }

    /// Whether a name is one of these.
    pub fn has(&self, name: &Name) -> bool
        ensures { result ≡ is_among name.now self.now }
    {
        one_binds(self.patterns.as_slice(), name)
    }
}

/// Whether one of the patterns binds a name.
fn one_binds(patterns: &[&Pattern], name: &Name) -> bool
    ensures { result ≡ is_among name.now (bound_behind [] (map (λ p. p.now) patterns.now)) }
{
    for pattern in patterns {
        if binds(*pattern, name) {
            return true;
        }
    }
    false
}
