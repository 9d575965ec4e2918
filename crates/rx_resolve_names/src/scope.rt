//! The variables in scope, each found by its name.

ghost use Rattle.std.specs.Prelude.{◌≡◌, ◌≤◌, [], ◌∷◌, length, drop, IfOk, OnOk};
ghost use Rattle.rx_resolve_names.specs.Scopes.{variable_named, oldest, entered};

use crate::table::Table;
use indexmap::IndexMap;
use std::alloc::{AllocError, Global};
use std::marker::Model;

/// A variable that entered the scope, with the number of the variable of this name that it hides.
#[derive(Clone, Copy)]
struct Entered<'t> {
    name: &'t str,
    number: u32,
    hidden: Option<u32>,
}

/// The variables in scope. Contracts see them as a list, the newest first.
#[derive(Drop)]
pub struct Scope<'t> {
    /// The newest variable of each name that was seen, where one is in scope.
    newest: IndexMap<&'t str, Option<u32>>,
    /// The variables in scope, the oldest first.
    entered: Vec<Entered<'t>>,
}

impl<'t> Model for Scope<'t> {
    ghost use Rattle.std.specs.Prelude.{[]};
    ghost use Rattle.rx_resolve_names.specs.Scopes.{Variables};
    ghost use Rattle.rx_resolve_names.specs.Tables.{variables_of, Stands};

    ghost Value = { Variables };

    ghost view = { λ s. variables_of [] s.entered.items };

    ghost invariant = { λ s. Stands (λ n. n.now) s.newest.entries s.entered.items };
}

impl<'t> Scope<'t> {
    /// No variables. It takes no memory.
    pub fn new(alloc: Global) -> Scope<'t>
        ensures { result ≡ [] }
    {
        Scope {
            newest: IndexMap::new(alloc),
            entered: Vec::new(alloc),
        }
    }

    /// The number of the newest variable of this name.
    pub fn get(&self, name: &str) -> Option<u32>
        ensures { result ≡ variable_named self.now name.now }
    {
        match self.newest.get(name) {
            Some(newest) => *newest,
            None => None,
        }
    }

    /// How many variables are in scope.
    pub fn len(&self) -> usize
        ensures { result ≡ length self.now }
    {
        self.entered.len()
    }

    /// Brings a variable into scope, which hides the others of its name.
    pub fn enter(&mut self, name: &'t str, number: u32) -> Result<(), AllocError>
        ensures ok { OnOk result (self.new ≡ record { name = name.now; number = number } ∷ self.old) }
    {
        let hidden = self.get(name);
        self.entered.push(Entered {
            name,
            number,
            hidden,
        })?;
        match self.newest.insert(name, Some(number)) {
            Ok(_) => Ok(()),
            Err(_) => {
                self.entered.pop();
                Err(AllocError)
            }
        }
    }

    /// Takes the newest variable out of scope.
    fn leave_newest(&mut self)
        ensures { self.new ≡ drop 1 self.old }
    {
        if let Some(newest) = self.entered.pop() {
            // The name is in the table, so nothing is allocated.
            match self.newest.insert(newest.name, newest.hidden) {
                Ok(_) => (),
                Err(_) => (),
            }
        }
    }

    /// Leaves this many variables in scope, the oldest.
    pub fn leave(&mut self, len: usize)
        ensures { self.new ≡ oldest len self.old }
    {
        for _turn in len..self.len() {
            self.leave_newest();
        }
    }

    /// Brings the names of a list into scope, in its order.
    pub fn enter_all(&mut self, names: &Table<'t>) -> Result<(), AllocError>
        ensures ok { OnOk result (self.new ≡ entered self.old names.now) }
    {
        for at in 0..names.len() {
            match names.entry(at) {
                Some((name, known)) => self.enter(name, known.number)?,
                None => (),
            }
        }
        Ok(())
    }
}
