//! The sides as a table has them.
ghost use Rattle.std.specs.Prelude.{◌≡◌};
ghost use Rattle.term_rows.specs.SumDims.{side_in_table};

use alg_table::Side as TableSide;
use module_types::Side;

/// The side as a table has it.
pub(crate) fn side_in_table(side: Side) -> TableSide
    ensures { result ≡ side_in_table side }
{
    match side {
        Side::Right => TableSide::Right,
        Side::Left => TableSide::Left,
    }
}
