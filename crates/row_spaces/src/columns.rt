//! The columns that are no pivots.
ghost use Rattle.std.specs.Prelude.{◌+◌, IfOk, OnOk};
ghost use Rattle.row_spaces.specs.FreeColumns.{AreFree};

use std::alloc::{AllocError, Global};

/// The columns below `cols` that are not among the pivots, in ascending order.
pub fn free_columns(alloc: Global, cols: u32, pivots: &[u32]) -> Result<Vec<u32>, AllocError>
    ensures free { IfOk result (λ v. AreFree cols pivots.now v.items) }
{
    let mut free = Vec::new(alloc);
    for column in 0..cols {
        add_if_free(column, pivots, &mut free)?;
    }
    Ok(free)
}

// Goes on from the columns before this one.
fn add_if_free(column: u32, pivots: &[u32], free: &mut Vec<u32>) -> Result<(), AllocError>
    requires { AreFree column pivots.now free.old.items }
    ensures { OnOk result (AreFree (column + 1) pivots.now free.new.items) }
{
    if pivots.contains(&column) {
        return Ok(());
    }
    free.push(column)?;
    Ok(())
}
