//! Coordinates, which no script prints.

use crate::coordinates;
use fp_linear::{Field, Matrix};
use row_spaces::reduced_rows;
use std::process::Abort;
use std::test::Fail;

#[test]
fn coordinates_of_a_row(rt: HostRuntime) -> Result<(), Fail> {
    let field = Field::of(5).expect(&rt, "a field of the table");
    let matrix = Matrix::from_entries(rt.alloc(), field, 2, 4, &[2, 4, 1, 0, 1, 2, 1, 2])?;
    let copy = matrix.clone()?;
    let basis = reduced_rows(rt.alloc(), copy)?;
    let coefficients = coordinates(rt.alloc(), &basis, matrix.row(0))?;
    assert_eq!(rt; coefficients.as_slice(), [2, 1].as_slice());
    Ok(())
}
