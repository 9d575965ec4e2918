//! The slots of an activation's variables.

ghost use Rattle.std.specs.Prelude.{◌≡◌, ◌<◌, ℕ, [], Some, length, nat_eq, if◌then◌else◌, OnOk};
ghost use Rattle.rx_machine_direct.specs.Direct.{recorded};

use rx_core::LetGo;
use std::alloc::{AllocError, Global};

/// The newest slot of each variable, by the variable's number.
#[derive(Drop)]
pub struct Slots {
    pub table: Vec<Option<usize>>,
}

impl LetGo for Slots {
    fn let_go(self) {
        let _gone = self;
    }
}

impl Slots {
    /// No variable has a slot. It takes no memory.
    pub fn new(alloc: Global) -> Slots
        ensures { result.table.items ≡ [] }
    {
        Slots {
            table: Vec::new(alloc),
        }
    }

    /// The slot of a variable.
    #[tactic(auto, using(rx_machine_direct::proofs::TableLemmas::recorded_at, rx_machine_direct::proofs::TableLemmas::recorded_past))]
    pub fn get(&self, variable: usize) -> Option<usize>
        ensures { result ≡ recorded self.now.table.items variable }
    {
        if variable < self.table.len() {
            self.table[variable]
        } else {
            None
        }
    }

    /// Makes room for a variable.
    #[tactic(auto, using(crate::proofs::SlotLemmas::recorded_more))]
    fn reach(&mut self, variable: usize) -> Result<(), AllocError>
        ensures same { OnOk result ((x : ℕ) → recorded self.new.table.items x ≡ recorded self.old.table.items x) }
        ensures room { OnOk result (variable < length self.new.table.items) }
    {
        while self.table.len() <= variable {
            match self.table.push(None) {
                Ok(()) => (),
                Err(_) => return Err(AllocError),
            }
        }
        Ok(())
    }

    /// Gives a variable a slot.
    pub fn set(&mut self, variable: usize, slot: usize) -> Result<(), AllocError>
        ensures { OnOk result ((x : ℕ) → recorded self.new.table.items x
            ≡ (if nat_eq x variable then Some slot else recorded self.old.table.items x)) }
    {
        self.reach(variable)?;
        self.table[variable] = Some(slot);
        Ok(())
    }
}
