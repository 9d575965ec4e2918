//! What is told of a text and of an answer.

ghost use Rattle.std.specs.Prelude.{◌≡◌, ◌++◌, IfOk, OnOk, length};
ghost use Rattle.rx_rem_generated.specs.Summary as spec;

use rx_core::Text;
use std::alloc::{AllocError, Global};

/// Adds a word and how many bytes a text has.
fn push_count(alloc: Global, told: &mut Text, word: &str, text: &str) -> Result<(), AllocError>
    ensures { OnOk result (told.new ≡ told.old ++ spec.counted word.now (length text.now)) }
{
    told.push(word)?;
    told.push(" ")?;
    told.push((text.len() as u64).to_string(alloc)?.as_str())?;
    told.push("\n")?;
    Ok(())
}

/// How many bytes a text and an answer have, and what both print.
///
/// # Errors
///
/// Memory runs out.
#[tactic(auto, unfolding(crate::specs::Summary::summary))]
pub fn summary(
    alloc: Global,
    text: &str,
    answer: &str,
    printed: &str,
    again: &str,
) -> Result<Text, AllocError>
    ensures { IfOk result (λ t. t ≡ spec.summary text.now answer.now printed.now again.now) }
{
    let mut told = Text::empty(alloc);
    push_count(alloc, &mut told, "text", text)?;
    push_count(alloc, &mut told, "answer", answer)?;
    told.push(printed)?;
    told.push(again)?;
    Ok(told)
}
