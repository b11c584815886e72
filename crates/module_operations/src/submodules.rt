//! The module on spaces of rows at the vertices.
ghost use Rattle.std.specs.Prelude.{◌≡◌, ◌<◌, IfOk};
ghost use Rattle.path_algebra.specs.Allowed.{IsAllowed};
ghost use Rattle.quiver_paths.specs.Quiver.{arrow_count};
ghost use Rattle.module_types.specs.Algebras.{algebra_at};
ghost use Rattle.module_types.specs.Readings.{read};
ghost use Rattle.module_types.specs.Shapes.{IsModule};
ghost use Rattle.module_operations.specs.VertexSpaces.{row_counts, AreSubspaces, IsSubmoduleOn, IsRestriction, HaveRestrictions};

use fp_linear::Matrix;
use module_types::{Module, source_at, target_at};
use path_algebra::Header;
use row_spaces::coordinates_of_rows;
use seq::Seq;
use std::alloc::{AllocError, Global};

/// The module on these spaces of rows of a module, in the coordinates of their bases.
pub(crate) fn submodule(
    alloc: Global,
    header: &Header,
    a: &Module,
    bases: &Seq<Matrix>,
) -> Result<Module, AllocError>
    requires allowed { IsAllowed header.now }
    requires shape { IsModule header.now.field (algebra_at a.now.side header.now).quiver a.now }
    requires spaces { AreSubspaces (read header.now a.now) bases.now }
    ensures { IfOk result (λ n. IsSubmoduleOn header.now a.now n bases.now) }
{
    let dims = row_counts(alloc, bases)?;
    let mut matrices = Vec::new(alloc);
    for arrow in 0..header.quiver.arrows.len() {
        let matrix = restricted(alloc, header, a, bases, arrow as u8)?;
        matrices.push(matrix)?;
    }
    Ok(Module {
        side: a.side,
        dims,
        matrices: Seq::from_vec(matrices),
    })
}

/// How many rows the matrices have.
fn row_counts(alloc: Global, matrices: &Seq<Matrix>) -> Result<Seq<u32>, AllocError>
    ensures { IfOk result (λ counts. counts ≡ row_counts matrices.now) }
{
    let mut counts = Vec::new(alloc);
    for i in 0..matrices.len() {
        counts.push(matrices[i].rows())?;
    }
    Ok(Seq::from_vec(counts))
}

/// The matrix of an arrow on the spaces.
fn restricted(
    alloc: Global,
    header: &Header,
    a: &Module,
    bases: &Seq<Matrix>,
    arrow: u8,
) -> Result<Matrix, AllocError>
    requires allowed { IsAllowed header.now }
    requires shape { IsModule header.now.field (algebra_at a.now.side header.now).quiver a.now }
    requires spaces { AreSubspaces (read header.now a.now) bases.now }
    requires arrow { arrow < arrow_count header.now.quiver }
    ensures { IfOk result (IsRestriction (read header.now a.now) bases.now arrow) }
{
    let source = &bases[source_at(header, a.side, arrow) as usize];
    let target = &bases[target_at(header, a.side, arrow) as usize];
    let along = source.mul(alloc, &a.matrices[arrow as usize])?;
    let matrix = coordinates_of_rows(alloc, target, &along)?;
    Ok(matrix)
}
