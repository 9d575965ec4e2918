//! Tables as texts, and texts that repeat a part, for tests. A row has what is given beside what is expected.
#![tactic(auto)]

mod programs;

pub use programs::BANK;
use std::alloc::{AllocError, Global};

/// Whether a row holds. Where no memory was found it does not.
pub type Outcome = Result<bool, AllocError>;

/// How a table is laid out: what stands between two rows, and between what is given and what is expected.
#[derive(Clone, Copy)]
pub struct Layout {
    between: &'static str,
    mark: &'static str,
}

/// A row a line, with ` | ` between what is given and what is expected; every other blank counts.
pub const LINES: Layout = Layout {
    between: "\n",
    mark: " | ",
};

/// A row a line, a text with a mark.
pub const MARKED: Layout = Layout {
    between: "\n",
    mark: "‸",
};

/// Rows with a line `----` between them. The first line is what is given, the others what is expected.
pub const BLOCKS: Layout = Layout {
    between: "\n----\n",
    mark: "\n",
};

/// The first row that doesn't hold.
pub fn first_wrong<'t, F: Fn(Global, &str, &str) -> Outcome>(
    alloc: Global,
    table: &'t str,
    layout: Layout,
    holds: F,
) -> Option<&'t str>
    requires { F.IsAlwaysCallable holds }
{
    for row in table.split(layout.between) {
        let outcome = match row.split_once(layout.mark) {
            Some((given, want)) => holds(alloc, given, want),
            None => Ok(false),
        };
        if outcome != Ok(true) {
            return Some(row);
        }
    }
    None
}

/// Two texts in one.
pub fn joined(alloc: Global, front: &str, back: &str) -> Result<String, AllocError> {
    let mut text = String::from_str(alloc, front)?;
    text.push_str(back)?;
    Ok(text)
}

pub fn push_times(text: &mut String, part: &str, count: usize) -> Result<(), AllocError> {
    for _ in 0..count {
        text.push_str(part)?;
    }
    Ok(())
}

/// What stands in a text before, within and behind a part that is repeated on both sides.
#[derive(Clone, Copy)]
pub struct Nesting<'a> {
    pub front: &'a str,
    pub before: &'a str,
    pub inner: &'a str,
    pub after: &'a str,
    pub back: &'a str,
}

impl Nesting<'_> {
    fn push_to(&self, text: &mut String, count: usize) -> Result<(), AllocError> {
        text.push_str(self.front)?;
        push_times(text, self.before, count)?;
        text.push_str(self.inner)?;
        push_times(text, self.after, count)?;
        text.push_str(self.back)
    }

    /// `front before.. inner after.. back`, with `before` and `after` so many times.
    pub fn text(&self, alloc: Global, count: usize) -> Result<String, AllocError> {
        let mut text = String::new(alloc);
        self.push_to(&mut text, count)?;
        Ok(text)
    }
}
