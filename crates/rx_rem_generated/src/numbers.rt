//! The input of the text's program.

ghost use Rattle.std.specs.Prelude.{◌≡◌, ◌≤◌, IfOk};
ghost use Rattle.rx_rem_generated.specs.Generated as spec;

use std::alloc::{AllocError, Global};

/// The numbers from one up to this.
///
/// # Errors
///
/// Memory runs out.
pub fn input(alloc: Global, count: u64) -> Result<Vec<i64>, AllocError>
    requires { count ≤ 1000 }
    ensures { IfOk result (λ all. all.items ≡ spec.input count) }
{
    let mut all = Vec::new(alloc);
    for number in 0..count {
        all.push((number + 1) as i64)?;
    }
    Ok(all)
}
