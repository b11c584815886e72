use super::*;
use std::process::Abort;
use std::test::Fail;

fn product(rt: &impl Abort, size: u32, a: u8, b: u8) -> u8 {
    let field = Field::of(size).expect(rt, "a field of the table");
    assert!(rt; (a as u32) < field.size() && (b as u32) < field.size());
    field.mul(a, b)
}

#[test]
fn products_of_extension_fields(rt: HostRuntime) {
    assert_eq!(rt; product(&rt, 4, 2, 2), 3);
    assert_eq!(rt; product(&rt, 4, 2, 3), 1);
    assert_eq!(rt; product(&rt, 8, 2, 4), 3);
    assert_eq!(rt; product(&rt, 9, 3, 3), 2);
    assert_eq!(rt; product(&rt, 16, 4, 4), 3);
    assert_eq!(rt; product(&rt, 25, 5, 5), 3);
    assert_eq!(rt; product(&rt, 27, 3, 9), 5);
}

#[test]
fn reduced_row_form(rt: HostRuntime) {
    let field = Field::of(3).expect(&rt, "a field of the table");
    let mut entries = [0, 2, 1, 1, 1, 1, 1, 0, 2];
    let mut pivots = [9u32; 3];
    let rank = echelon_rows(field, 3, 3, &mut entries, &mut pivots);
    assert_eq!(rt; rank, 2);
    assert_eq!(rt; entries, [1, 0, 2, 0, 1, 2, 0, 0, 0]);
    assert_eq!(rt; pivots, [0, 1, 9]);
}

#[test]
fn kernel_of_a_matrix(rt: HostRuntime) -> Result<(), Fail> {
    let field = Field::of(3).expect(&rt, "a field of the table");
    let matrix = Matrix::from_entries(rt.alloc(), field, 3, 2, &[1, 2, 2, 1, 0, 1])?;
    let kernel = matrix.kernel(rt.alloc())?;
    assert_eq!(rt; kernel.rows(), 1);
    assert_eq!(rt; kernel.row(0), [1, 1, 0].as_slice());
    Ok(())
}

#[test]
fn solutions_and_inverses(rt: HostRuntime) -> Result<(), Fail> {
    let field = Field::of(5).expect(&rt, "a field of the table");
    let matrix = Matrix::from_entries(rt.alloc(), field, 2, 2, &[1, 2, 3, 4])?;
    let inverse = matrix.invert(rt.alloc())?.expect(&rt, "an inverse");
    assert!(rt; inverse.rows() == 2 && inverse.cols() == 2);
    assert_eq!(rt; inverse.row(0), [3, 1].as_slice());
    assert_eq!(rt; inverse.row(1), [4, 2].as_slice());
    let singular = Matrix::from_entries(rt.alloc(), field, 2, 2, &[1, 2, 2, 4])?;
    assert!(rt; singular.invert(rt.alloc())?.is_none());
    let right = Matrix::from_entries(rt.alloc(), field, 1, 2, &[3, 1])?;
    let solution = singular
        .solve(rt.alloc(), &right)?
        .expect(&rt, "a solution");
    assert!(rt; solution.rows() == 1);
    assert_eq!(rt; solution.row(0), [3, 0].as_slice());
    Ok(())
}

#[test]
fn products_stacks_and_transposes(rt: HostRuntime) -> Result<(), Fail> {
    let field = Field::of(4).expect(&rt, "a field of the table");
    let left = Matrix::from_entries(rt.alloc(), field, 1, 2, &[2, 3])?;
    let right = Matrix::from_entries(rt.alloc(), field, 2, 1, &[2, 1])?;
    let product = left.mul(rt.alloc(), &right)?;
    assert!(rt; product.rows() == 1);
    assert_eq!(rt; product.row(0), [0].as_slice());
    let turned = left.transpose(rt.alloc())?;
    let stacked = turned.stack(rt.alloc(), &right)?;
    assert!(rt; stacked.rows() == 4);
    assert_eq!(rt; stacked.row(1), [3].as_slice());
    assert_eq!(rt; stacked.row(2), [2].as_slice());
    Ok(())
}

#[test]
fn separated_rows(rt: HostRuntime) -> Result<(), Fail> {
    let field = Field::of(2).expect(&rt, "a field of the table");
    let rows = Matrix::from_entries(rt.alloc(), field, 1, 2, &[0, 1])?;
    let functional = separating(rt.alloc(), &rows, &[1, 0])?.expect(&rt, "a functional");
    assert_eq!(rt; functional.as_slice(), [1, 0].as_slice());
    assert!(rt; separating(rt.alloc(), &rows, &[0, 1])?.is_none());
    Ok(())
}

#[test]
fn scratch_of_zeros(rt: HostRuntime) -> Result<(), Fail> {
    let scratch = Scratch::reserve(rt.alloc(), 2, 3)?;
    assert_eq!(rt; scratch.numbers.as_slice(), [0, 0].as_slice());
    assert_eq!(rt; scratch.bytes.len(), 3);
    Ok(())
}

fn crosses_threads<T: Send + Sync>(_value: &T) {}

#[test]
fn values_cross_threads(rt: HostRuntime) -> Result<(), Fail> {
    let field = Field::of(9).expect(&rt, "a field of the table");
    crosses_threads(&field);
    crosses_threads(&Matrix::zero(rt.alloc(), field, 2, 3)?);
    crosses_threads(&Scratch::reserve(rt.alloc(), 1, 1)?);
    Ok(())
}
