//! Values that no arm of a match takes.

ghost use Rattle.std.specs.Prelude.{◌≡◌, [], ◌∷◌, ◌++◌, IfOk, OnOk, List, map, option_map};
ghost use Rattle.rx_typed.specs.PlainTypes.{plain-Ty, declarations};
ghost use Rattle.rx_typed.specs.PlainTree.{plain-Pattern, plain-Arm, arms_of};
ghost use Rattle.rx_cover.specs.Choices.{patterns_of};
ghost use Rattle.rx_cover.specs.Finite.{Finite};
ghost use Rattle.rx_cover.specs.Inhabited.{Inhabited};
ghost use Rattle.rx_cover.specs.Finding as spec;
ghost use Rattle.rx_cover.specs.Matrices.{single_rows};
ghost use Rattle.rx_cover.specs.PlainCells.{plain-Row};
ghost use Rattle.rx_cover.specs.PlainChoices.{plain-Arms};
ghost use Rattle.rx_cover.specs.PlainValue.{plain-Value};

use crate::choices::Arms;
use crate::heads::Cell;
use crate::missing::missing;
use crate::rows::one_column;
use crate::value::Value;
use rx_core::{LetGo, List, Ty};
use rx_typed::{Arm, Decls, Pattern};
use std::alloc::{AllocError, Global};

fn one_cell<'a>(alloc: Global, pattern: &'a Pattern) -> Result<List<Cell<'a>>, AllocError>
    ensures { IfOk result (λ it. plain-Row it ≡ plain-Pattern pattern.now ∷ []) }
{
    let mut row = List::new(alloc);
    row.push(Cell::Asks(pattern))?;
    Ok(row)
}

fn one_row<'a>(alloc: Global, pattern: &'a Pattern) -> Result<List<List<Cell<'a>>>, AllocError>
    ensures { IfOk result (λ it. map plain-Row it ≡ single_rows (plain-Pattern pattern.now ∷ [])) }
{
    let mut rows = List::new(alloc);
    let row = one_cell(alloc, pattern)?;
    rows.push(row)?;
    Ok(rows)
}

fn each_row<'a>(alloc: Global, arms: &'a [Arm]) -> Result<List<List<Cell<'a>>>, AllocError>
    ensures { IfOk result (λ it. map plain-Row it ≡ single_rows (patterns_of (arms_of (map plain-Arm arms.now)))) }
{
    let mut rows = List::new(alloc);
    for arm in arms {
        let row = one_cell(alloc, &arm.pattern)?;
        rows.push(row)?;
    }
    Ok(rows)
}

fn rows_of<'a>(alloc: Global, arms: Arms<'a>) -> Result<List<List<Cell<'a>>>, AllocError>
    ensures { IfOk result (λ it. map plain-Row it ≡ single_rows (plain-Arms arms.entry)) }
{
    match arms {
        Arms::Each(list) => each_row(alloc, list),
        Arms::One(pattern) => one_row(alloc, pattern),
    }
}

/// The last value of a list.
fn last_of(stack: List<Value>) -> Option<Value>
    ensures { spec.IsLast stack result }
{
    let mut stack = stack;
    match stack.pop() {
        Some(value) => {
            stack.let_go();
            Some(value)
        }
        None => {
            stack.let_go();
            None
        }
    }
}

/// A value of the type that no arm matches, where there is one.
pub(crate) fn missed<'a>(
    alloc: Global,
    decls: &'a Decls,
    inhabited: &[bool],
    ty: &'a Ty,
    arms: Arms<'a>,
) -> Result<Option<Value>, AllocError>
    requires finite { Finite (declarations decls.now.items) }
    requires numbered { spec.Numbered (declarations decls.now.items) }
    requires inhabited { Inhabited (declarations decls.now.items) inhabited.now }
    ensures { IfOk result (λ o. spec.Missed (declarations decls.now.items) (plain-Ty ty.now) (plain-Arms arms.entry)
        (option_map plain-Value o)) }
{
    let rows = rows_of(alloc, arms)?;
    let columns = one_column(alloc, ty)?;
    match missing(alloc, decls, inhabited, columns.as_slice(), rows.as_slice())? {
        Some(stack) => Ok(last_of(stack)),
        None => Ok(None),
    }
}
