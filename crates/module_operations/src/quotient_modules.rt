//! The module on quotients of the spaces of rows at the vertices.
ghost use Rattle.std.specs.Prelude.{◌≡◌, ◌<◌, IfOk};
ghost use Rattle.path_algebra.specs.Allowed.{IsAllowed};
ghost use Rattle.quiver_paths.specs.Quiver.{arrow_count};
ghost use Rattle.module_types.specs.Algebras.{algebra_at};
ghost use Rattle.module_types.specs.Readings.{read};
ghost use Rattle.module_types.specs.Shapes.{IsModule};
ghost use Rattle.module_operations.specs.VertexSpaces.{col_counts, AreQuotients, IsQuotientOn, IsInduced};

use fp_linear::Matrix;
use module_types::{Module, source_at, target_at};
use path_algebra::Header;
use row_spaces::factor_through;
use seq::Seq;
use std::alloc::{AllocError, Global};

/// The module on these quotients of a module.
pub(crate) fn quotient_module(
    alloc: Global,
    header: &Header,
    a: &Module,
    projections: &Seq<Matrix>,
) -> Result<Module, AllocError>
    requires allowed { IsAllowed header.now }
    requires shape { IsModule header.now.field (algebra_at a.now.side header.now).quiver a.now }
    requires quotients { AreQuotients (read header.now a.now) projections.now }
    ensures { IfOk result (λ n. IsQuotientOn header.now a.now n projections.now) }
{
    let dims = col_counts(alloc, projections)?;
    let mut matrices = Vec::new(alloc);
    for arrow in 0..header.quiver.arrows.len() {
        let matrix = induced(alloc, header, a, projections, arrow as u8)?;
        matrices.push(matrix)?;
    }
    Ok(Module {
        side: a.side,
        dims,
        matrices: Seq::from_vec(matrices),
    })
}

/// How many columns the matrices have.
fn col_counts(alloc: Global, matrices: &Seq<Matrix>) -> Result<Seq<u32>, AllocError>
    ensures { IfOk result (λ counts. counts ≡ col_counts matrices.now) }
{
    let mut counts = Vec::new(alloc);
    for i in 0..matrices.len() {
        counts.push(matrices[i].cols())?;
    }
    Ok(Seq::from_vec(counts))
}

/// The matrix of an arrow on the quotients.
fn induced(
    alloc: Global,
    header: &Header,
    a: &Module,
    projections: &Seq<Matrix>,
    arrow: u8,
) -> Result<Matrix, AllocError>
    requires allowed { IsAllowed header.now }
    requires shape { IsModule header.now.field (algebra_at a.now.side header.now).quiver a.now }
    requires quotients { AreQuotients (read header.now a.now) projections.now }
    requires arrow { arrow < arrow_count header.now.quiver }
    ensures { IfOk result (IsInduced (read header.now a.now) projections.now arrow) }
{
    let source = &projections[source_at(header, a.side, arrow) as usize];
    let target = &projections[target_at(header, a.side, arrow) as usize];
    let along = a.matrices[arrow as usize].mul(alloc, target)?;
    let matrix = factor_through(alloc, source, &along)?;
    Ok(matrix)
}
