//! Coordinates of homomorphisms.
ghost use Rattle.std.specs.Prelude.{IfOk};
ghost use Rattle.linear_algebra.specs.Rank.{IsInSpan};
ghost use Rattle.linear_algebra.specs.Rows.{IsRow};
ghost use Rattle.linear_algebra.specs.Typed.{as_row};
ghost use Rattle.row_spaces.specs.RowSpaces.{typed, IsReducedMatrix, AreCoordinates};

use fp_linear::Matrix;
use std::alloc::{AllocError, Global};

/// The one list of coefficients by which a row is a combination of the rows of `basis`, which is in reduced row form. `flat` is a homomorphism in its span,
/// its matrices vertex by vertex, each row by row.
pub fn coordinates(alloc: Global, basis: &Matrix, flat: &[u8]) -> Result<Vec<u8>, AllocError>
    requires row { IsRow basis.now.field basis.now.col_count flat.now }
    requires reduced { IsReducedMatrix (typed basis.now) }
    requires inside { IsInSpan (typed basis.now) (as_row basis.now.field basis.now.col_count flat.now) }
    ensures row { IfOk result (λ c. IsRow basis.now.field basis.now.row_count c.items) }
    ensures coordinates { IfOk result (λ c. AreCoordinates (typed basis.now) (as_row basis.now.field basis.now.col_count flat.now) (as_row basis.now.field basis.now.row_count c.items)) }
{
    let coefficients = row_spaces::coordinates(alloc, basis, flat)?;
    Ok(coefficients)
}
