//! Radicals and tops.
ghost use Rattle.std.specs.Prelude.{◌≡◌, ◌<◌, ◌+◌, IfOk};
ghost use Rattle.quiver_paths.specs.Quiver.{arrow_count, vertex_count};
ghost use Rattle.path_algebra.specs.Allowed.{IsAllowed};
ghost use Rattle.module_types.specs.Algebras.{algebra_at};
ghost use Rattle.module_types.specs.Readings.{read};
ghost use Rattle.module_types.specs.Shapes.{IsModule};
ghost use Rattle.fp_linear.specs.Matrix.{PlainMatrix};
ghost use Rattle.module_faults.specs.ModuleFaults.{IsSmallModule};
ghost use Rattle.module_operations.specs.Computed.{IsRadicalBy, IsTopBy};
ghost use Rattle.module_operations.specs.ArrowSpans.{arrow_size, arrow_family, SpansArrows};
ghost use Rattle.module_operations.specs.VertexSpaces.{HaveForms};

use crate::MappedModule;
use crate::quotient_modules::quotient_module;
use crate::submodules::submodule;
use crate::vertex_forms::cokernel_projections;
use fp_linear::Matrix;
use module_types::{Module, target_at};
use path_algebra::Header;
use row_spaces::reduced_rows;
use seq::Seq;
use std::alloc::{AllocError, Global};

/// The radical of a module, the sum of the images of the arrows, and its inclusion, in reduced row form at each vertex.
pub fn radical(alloc: Global, header: &Header, a: &Module) -> Result<MappedModule, AllocError>
    requires allowed { IsAllowed header.now }
    requires small { IsSmallModule header.now a.now }
    ensures { IfOk result (λ n. IsRadicalBy header.now a.now n.module n.matrices) }
{
    let matrices = radical_bases(alloc, header, a)?;
    let module = submodule(alloc, header, a, &matrices)?;
    Ok(MappedModule { module, matrices })
}

/// The top of a module, the quotient by its radical, and its projection, co-reduced at each vertex.
pub fn top(alloc: Global, header: &Header, a: &Module) -> Result<MappedModule, AllocError>
    requires allowed { IsAllowed header.now }
    requires small { IsSmallModule header.now a.now }
    ensures { IfOk result (λ n. IsTopBy header.now a.now n.module n.matrices) }
{
    let bases = radical_bases(alloc, header, a)?;
    let matrices = cokernel_projections(alloc, &bases)?;
    let module = quotient_module(alloc, header, a, &matrices)?;
    Ok(MappedModule { module, matrices })
}

/// At each vertex the basis in reduced row form of what comes along arrows.
pub fn radical_bases(alloc: Global, header: &Header, a: &Module) -> Result<Seq<Matrix>, AllocError>
    requires allowed { IsAllowed header.now }
    requires shape { IsModule header.now.field (algebra_at a.now.side header.now).quiver a.now }
    ensures { IfOk result (HaveForms (read header.now a.now) (arrow_size (read header.now a.now)) (arrow_family (read header.now a.now)) (vertex_count header.now.quiver)) }
{
    let mut bases = Vec::new(alloc);
    for v in 0..header.quiver.vertices.len() {
        let basis = arrow_basis(alloc, header, a, v as u8)?;
        bases.push(basis)?;
    }
    Ok(Seq::from_vec(bases))
}

/// The basis in reduced row form of what comes along arrows to a vertex.
fn arrow_basis(alloc: Global, header: &Header, a: &Module, vertex: u8) -> Result<Matrix, AllocError>
    requires allowed { IsAllowed header.now }
    requires shape { IsModule header.now.field (algebra_at a.now.side header.now).quiver a.now }
    requires vertex { vertex < vertex_count header.now.quiver }
    ensures { IfOk result (SpansArrows (read header.now a.now) vertex (arrow_count header.now.quiver)) }
{
    let mut basis = Matrix::zero(alloc, header.field, 0, a.dims[vertex as usize])?;
    for arrow in 0..header.quiver.arrows.len() {
        basis = with_arrow(alloc, header, a, vertex, arrow as u8, basis)?;
    }
    Ok(basis)
}

/// With what comes along one arrow more, if it goes to the vertex.
fn with_arrow(
    alloc: Global,
    header: &Header,
    a: &Module,
    vertex: u8,
    arrow: u8,
    basis: Matrix,
) -> Result<Matrix, AllocError>
    requires allowed { IsAllowed header.now }
    requires shape { IsModule header.now.field (algebra_at a.now.side header.now).quiver a.now }
    requires arrow { arrow < arrow_count header.now.quiver }
    requires basis { SpansArrows (read header.now a.now) vertex arrow basis }
    ensures { IfOk result (SpansArrows (read header.now a.now) vertex (arrow + 1)) }
{
    if target_at(header, a.side, arrow) != vertex {
        return Ok(basis);
    }
    let both = basis.stack(alloc, &a.matrices[arrow as usize])?;
    let reduced = reduced_rows(alloc, both)?;
    Ok(reduced)
}
