//! A line as bytes.

ghost use Rattle.std.specs.Prelude.{◌≡◌, ◌++◌, ◌∷◌, [], OnOk};
ghost use Rattle.std.specs.Fmt.{decimal};
ghost use Rattle.rx_cert_lines.specs.Items.{item_text, items_text};
ghost use Rattle.rx_cert_lines.specs.Lines.{head_text, line_text};

use crate::item::Item;
use crate::line::{Head, Line};
use rx_core::Text;
use std::alloc::{AllocError, Global};

fn push_number(alloc: Global, text: &mut Text, number: u32) -> Result<(), AllocError>
    ensures { OnOk result (text.new ≡ text.old ++ decimal number) }
{
    text.push(number.to_string(alloc)?.as_str())
}

fn push_item(alloc: Global, text: &mut Text, item: Item) -> Result<(), AllocError>
    ensures { OnOk result (text.new ≡ text.old ++ item_text item) }
{
    match item {
        Item::Number(number) => push_number(alloc, text, number),
        Item::Range(first, last) => {
            push_number(alloc, text, first)?;
            text.push("-")?;
            push_number(alloc, text, last)
        }
        Item::End(end) => {
            text.push("e")?;
            push_number(alloc, text, end)
        }
    }
}

fn push_items(alloc: Global, text: &mut Text, items: &[Item]) -> Result<(), AllocError>
    ensures { OnOk result (text.new ≡ text.old ++ items_text items.now) }
{
    for item in items {
        text.push(" ")?;
        push_item(alloc, text, *item)?;
    }
    Ok(())
}

fn push_head(text: &mut Text, head: Head) -> Result<(), AllocError>
    ensures { OnOk result (text.new ≡ text.old ++ head_text head) }
{
    text.push(match head {
        Head::Function => "function",
        Head::Region => "r",
        Head::Loan => "l",
        Head::Text => "text",
    })
}

/// Adds a line and its line feed.
///
/// # Errors
///
/// Memory runs out.
pub fn push_line(alloc: Global, text: &mut Text, line: &Line) -> Result<(), AllocError>
    ensures { OnOk result (text.new ≡ text.old ++ (line_text line.now ++ 10 ∷ [])) }
{
    push_head(text, line.head)?;
    push_items(alloc, text, line.items.as_slice())?;
    text.push("\n")
}
