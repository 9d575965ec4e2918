//! The text, and the run of its last function.

ghost use Rattle.std.specs.Prelude.{◌≡◌, ◌≤◌, ◌++◌, IfOk, OnOk, length};
ghost use Rattle.std.specs.Fmt.{decimal};
ghost use Rattle.rx_rem_generated.specs.Generated as spec;

use rx_core::Text;
use std::alloc::{AllocError, Global};

/// A text, and the range of bytes that selects its run.
#[derive(Drop)]
pub struct Generated {
    pub text: Text,
    pub start: u64,
    pub end: u64,
}

/// Adds words with a number between them.
fn push_numbered(
    alloc: Global,
    text: &mut Text,
    front: &str,
    number: u64,
    back: &str,
) -> Result<(), AllocError>
    ensures { OnOk result (text.new ≡ text.old ++ (front.now ++ (decimal number ++ back.now))) }
{
    text.push(front)?;
    text.push(number.to_string(alloc)?.as_str())?;
    text.push(back)?;
    Ok(())
}

/// Adds a function up to its run.
fn push_before_run(alloc: Global, text: &mut Text, number: u64) -> Result<(), AllocError>
    ensures { OnOk result (text.new ≡ text.old ++ spec.before_run number) }
{
    push_numbered(
        alloc,
        text,
        "fn f",
        number,
        "(x: i64) -> i64 {\n    let mut s = x;\n    let mut i = 0i64;\n    while i < 10 {\n        ",
    )?;
    Ok(())
}

/// Adds a function's run.
fn push_run(text: &mut Text) -> Result<(), AllocError>
    ensures { OnOk result (text.new ≡ text.old ++ spec.the_run) }
{
    text.push(
        "if s > 1000000 {\n            break;\n        }\n        s = s + i * 7;\n        i = i + 1;",
    )?;
    Ok(())
}

/// Adds what stands behind a function's run.
fn push_behind_run(text: &mut Text) -> Result<(), AllocError>
    ensures { OnOk result (text.new ≡ text.old ++ spec.behind_run) }
{
    text.push("\n    }\n    s\n}\n\n")?;
    Ok(())
}

fn push_function(alloc: Global, text: &mut Text, number: u64) -> Result<(), AllocError>
    ensures { OnOk result (text.new ≡ text.old ++ spec.function number) }
{
    push_before_run(alloc, text, number)?;
    push_run(text)?;
    push_behind_run(text)?;
    Ok(())
}

/// A text that begins with so many functions.
fn begun(alloc: Global, count: u64) -> Result<Text, AllocError>
    ensures { IfOk result (λ t. t ≡ spec.begun count) }
{
    let mut text = Text::new(alloc, "mod rt;\n\n")?;
    for number in 0..count {
        push_function(alloc, &mut text, number)?;
    }
    Ok(text)
}

/// Adds a call of each function.
fn push_calls(alloc: Global, text: &mut Text, count: u64) -> Result<(), AllocError>
    ensures { OnOk result (text.new ≡ text.old ++ spec.calls count) }
{
    for number in 0..count {
        push_numbered(alloc, text, "    t = t + f", number, "(rt::next());\n")?;
    }
    Ok(())
}

fn push_main(alloc: Global, text: &mut Text, count: u64) -> Result<(), AllocError>
    ensures { OnOk result (text.new ≡ text.old ++ spec.main count) }
{
    text.push("fn main() {\n    let mut t = 0i64;\n")?;
    push_calls(alloc, text, count)?;
    text.push("    println!(\"{}\", t);\n}\n")?;
    Ok(())
}

/// The text of so many functions.
///
/// # Errors
///
/// Memory runs out.
pub fn generated_text(alloc: Global, count: u64) -> Result<Generated, AllocError>
    requires some { 1 ≤ count }
    requires few { count ≤ 1000 }
    ensures text { IfOk result (λ g. g.text ≡ spec.generated count) }
    ensures short { IfOk result (λ g. length g.text ≤ 1048576) }
    ensures range { IfOk result (λ g. (g.start ≡ spec.run_start count) × (g.end ≡ spec.run_end count)) }
{
    let last = count - 1;
    let mut text = begun(alloc, last)?;
    push_before_run(alloc, &mut text, last)?;
    let start = text.as_str().len() as u64;
    push_run(&mut text)?;
    let end = text.as_str().len() as u64;
    push_behind_run(&mut text)?;
    push_main(alloc, &mut text, count)?;
    Ok(Generated { text, start, end })
}
