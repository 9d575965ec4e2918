//! Laws of runs of typed programs, each the contract of a function that does nothing.

ghost use Rattle.std.specs.Prelude.{List as ListOf};
ghost use Rattle.rx_tree.specs.Plain.{ProgramTree};
ghost use Rattle.rx_resolve_names.specs.declared.resolved.ItemNames.{ItemNames as ItemNamesOf};
ghost use Rattle.rx_typeck_typed.specs.declared.typed.Typed.{Typed as TypedOf};
ghost use Rattle.rx_typeck_typed.specs.Typing.{IsTyped};
ghost use Rattle.rx_meaning.specs.Programs.{main_in};
ghost use Rattle.rx_check.specs.Front.{Judged, IsCheckedOf};
ghost use Rattle.rx_machine.specs.Functions.{program_of};
ghost use Rattle.rx_machine.specs.TypedRuns.{RunsAs, RunsText};

/// A typed program, with the item of `main`, is the program of its text, with the types of a valid assignment.
pub fn typed_programs_run()
    ensures { (P : ProgramTree) (ns : ListOf ItemNamesOf) (t : TypedOf) → IsTyped P ns t → RunsAs P ns (program_of t (main_in P 0)) }
{}

/// What is run of a program that is accepted is the program of its text.
pub fn checked_programs_run()
    ensures { (P : ProgramTree) (x : Judged) → IsCheckedOf P x → RunsText P (program_of x.front.typed x.front.main) }
{}
