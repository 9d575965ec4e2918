//! Laws of names, each the contract of a function that does nothing.

ghost use Rattle.std.specs.Prelude.{◌≢◌, ◌⊎◌, List};
ghost use Rattle.rx_tree.specs.Plain.{ProgramTree};
ghost use Rattle.rx_resolve_names.specs.declared.resolved.ItemNames.{ItemNames};
ghost use Rattle.rx_resolve_names.specs.declared.resolved.NameFault.{NameFault};
ghost use Rattle.rx_resolve_names.specs.declared.resolved.NameFault.TheVariants as fault;
ghost use Rattle.rx_resolve_names.specs.Causes.{Meant, Causes};

/// The names of each program have a meaning, or a fault that is no want of memory.
pub fn named_or_misnamed()
    ensures { (p : ProgramTree) → ((names : List ItemNames) × Meant p names) ⊎ ((e : NameFault) × ((e ≢ fault.OutOfMemory) × Causes e p)) }
{}
