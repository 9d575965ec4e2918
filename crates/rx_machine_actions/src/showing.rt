//! The text of a value.

ghost use Rattle.std.specs.Prelude.{◌≡◌, ◌++◌, ◌∷◌, [], true, OnOk, IfOk};
ghost use Rattle.std.specs.Fmt.{signed_decimal};
ghost use Rattle.rx_meaning.specs.Operators.{shown};
ghost use Rattle.rx_meaning.specs.Values.{truth as truth_value};
ghost use Rattle.rx_machine_values.specs.PlainNumber.{whole_of};
ghost use Rattle.rx_machine_values.specs.PlainValues.{plain-Value};
ghost use Rattle.rx_machine_actions.specs.PlainActs.{Printed};

use rx_core::Text;
use rx_machine_values::{Number, Value};
use std::alloc::{AllocError, Global};

/// Adds an integer in decimal, and a line feed.
fn print_number(alloc: Global, out: &mut Text, number: Number) -> Result<(), AllocError>
    ensures { OnOk result (out.new ≡ out.old ++ (signed_decimal (whole_of number) ++ 10 ∷ [])) }
{
    let value = number.value();
    let line = format!(in alloc; "{value}\n")?;
    out.push(line.as_str())
}

fn print_truth(out: &mut Text, truth: bool) -> Result<(), AllocError>
    ensures { OnOk result (Printed (shown (truth_value truth)) out.old out.new true) }
{
    if truth {
        out.push("true\n")
    } else {
        out.push("false\n")
    }
}

/// Prints a value in a line of its own; whether it is one that can be printed. Else nothing is added.
#[tactic(auto, using(rx_machine_values::proofs::ValueRules::value_rules))]
pub fn print(alloc: Global, out: &mut Text, value: &Value) -> Result<bool, AllocError>
    ensures { IfOk result (λ done. Printed (shown (plain-Value value.now)) out.old out.new done) }
{
    match value {
        Value::Number(number) => {
            print_number(alloc, out, *number)?;
            Ok(true)
        }
        Value::Truth(truth) => {
            print_truth(out, *truth)?;
            Ok(true)
        }
        Value::Unit => Ok(false),
        Value::Whole(_) => Ok(false),
        Value::Tagged(_, _) => Ok(false),
        Value::Pointer(_) => Ok(false),
        Value::Lacking(_) => Ok(false),
    }
}
