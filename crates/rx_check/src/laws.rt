//! Laws of the check, each as the contract of a function that does nothing.

ghost use Rattle.std.specs.Prelude.{◌≡◌, ◌≢◌};
ghost use Rattle.rx_tree.specs.Plain.{ProgramTree};
ghost use Rattle.rx_check.specs.declared.fault.CheckFault.{CheckFault as Fault};
ghost use Rattle.rx_check.specs.declared.fault.CheckFault.TheVariants as fault;
ghost use Rattle.rx_check.specs.Causes.{Causes, PassCauses, AreOne};
ghost use Rattle.rx_check.specs.Passes.{Fronted, Accepted};

use rx_facts::one_typing;
use rx_typeck_typed::{one_typed_program, typed_declarations_are_finite, typed_or_wrong};
use rx_typed_declarations::one_size_each;

/// A program that the passes up to initialisation accept has no fault of these, and one that is accepted has none at all.
pub fn passed_or_faulty()
    ensures fronted { (p : ProgramTree) (e : Fault) → Fronted p → PassCauses e p → e ≡ fault.OutOfMemory }
    ensures accepted { (p : ProgramTree) (e : Fault) → Accepted p → Causes e p → e ≡ fault.OutOfMemory }
{
    one_size_each();
    one_typed_program();
    one_typing();
    typed_declarations_are_finite();
    typed_or_wrong();
}

/// Two faults of a program are of one pass.
pub fn causes_are_one()
    ensures { (p : ProgramTree) (e f : Fault) → e ≢ fault.OutOfMemory → f ≢ fault.OutOfMemory → Causes e p → Causes f p → AreOne e f }
{
    one_size_each();
    one_typed_program();
    one_typing();
    typed_declarations_are_finite();
    typed_or_wrong();
}
