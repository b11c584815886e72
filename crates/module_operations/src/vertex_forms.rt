//! Bases and projections at the vertices, matrix by matrix.
ghost use Rattle.std.specs.Prelude.{◌≡◌, ◌≤◌, IfOk, All, ℕ};
ghost use Rattle.linear_algebra.specs.Field.{Gf};
ghost use Rattle.fp_linear.specs.Matrix.{PlainMatrix};
ghost use Rattle.representations.specs.Quiver.{Quiver};
ghost use Rattle.representations.specs.Rep.{Rep};
ghost use Rattle.module_types.specs.Readings.{family_of};
ghost use Rattle.module_types.specs.Shapes.{AreMatrices};
ghost use Rattle.module_operations.specs.VertexSpaces.{HaveForms, HaveProjections, AreLow, AreNarrow, kernel_family, kernel_size};

use fp_linear::Matrix;
use row_spaces::{left_kernel, quotient_projection, reduced_rows};
use seq::Seq;
use std::alloc::{AllocError, Global};

/// At each vertex the basis in reduced row form of the rows that the matrix takes to zero.
pub(crate) fn kernel_bases(alloc: Global, f: &Seq<Matrix>) -> Result<Seq<Matrix>, AllocError>
    requires { AreLow f.now }
    ensures { (q : Gf) (Q : Quiver) (X Y : Rep q Q) → AreMatrices q Q.vertices X.dim Y.dim f.now
        → IfOk result (HaveForms X (kernel_size X Y f.now) (kernel_family X Y f.now) Q.vertices) }
{
    let mut bases = Vec::new(alloc);
    for v in 0..f.len() {
        let basis = left_kernel(alloc, &f[v])?;
        bases.push(basis)?;
    }
    Ok(Seq::from_vec(bases))
}

/// At each vertex the basis in reduced row form of the span of the rows of the matrix.
pub(crate) fn image_bases(alloc: Global, f: &Seq<Matrix>) -> Result<Seq<Matrix>, AllocError>
    ensures { (q : Gf) (Q : Quiver) (X Y : Rep q Q) → AreMatrices q Q.vertices X.dim Y.dim f.now
        → IfOk result (HaveForms Y X.dim (family_of X Y f.now) Q.vertices) }
{
    let mut bases = Vec::new(alloc);
    for v in 0..f.len() {
        let basis = reduced_rows(alloc, f[v].clone()?)?;
        bases.push(basis)?;
    }
    Ok(Seq::from_vec(bases))
}

/// At each vertex the co-reduced projection onto the quotient by the span of the rows of the matrix.
pub(crate) fn cokernel_projections(
    alloc: Global,
    f: &Seq<Matrix>,
) -> Result<Seq<Matrix>, AllocError>
    requires { AreNarrow f.now }
    ensures { (q : Gf) (Q : Quiver) (X Y : Rep q Q) → AreMatrices q Q.vertices X.dim Y.dim f.now
        → IfOk result (HaveProjections Y X.dim (family_of X Y f.now) Q.vertices) }
{
    let mut projections = Vec::new(alloc);
    for v in 0..f.len() {
        let projection = quotient_projection(alloc, f[v].clone()?)?;
        projections.push(projection)?;
    }
    Ok(Seq::from_vec(projections))
}
