//! The simple modules.
ghost use Rattle.std.specs.Prelude.{ℕ, ◌≡◌, ◌<◌, IfOk};
ghost use Rattle.linear_algebra.specs.Rows.{list_of};
ghost use Rattle.quiver_paths.specs.Quiver.{vertex_count, arrow_count, HasEnds};
ghost use Rattle.module_types.specs.Algebras.{algebra_at};
ghost use Rattle.module_types.specs.Readings.{IsModuleOver};
ghost use Rattle.module_types.specs.Shapes.{IsModule};
ghost use Rattle.module_types.specs.SimpleModules.{simple, dim_of_simple};
ghost use Rattle.module_types.specs.Written.{simple_at};
ghost use Rattle.standard_modules.specs.StandardModules.{matrix_of_arrow};

use alg_table::Table;
use fp_linear::Matrix;
use module_types::{Module, Side, source_at, target_at};
use path_algebra::Header;
use seq::Seq;
use std::alloc::{AllocError, Global};

/// The simple module of a side at a vertex: dimension 1 there, none elsewhere, and zero matrices.
pub fn simple_module(alloc: Global, table: &Table, side: Side, v: u8) -> Result<Module, AllocError>
    requires { v < vertex_count table.now.header.quiver }
    ensures module { IfOk result (λ m. m ≡ simple_at table.now.header.field (algebra_at side table.now.header).quiver side v) }
    ensures shape { IfOk result (λ m. IsModule table.now.header.field (algebra_at m.side table.now.header).quiver m) }
    ensures over { IfOk result (IsModuleOver table.now.header) }
{
    let header = table.header();
    let dims = simple_dims(alloc, header, side, v)?;
    let mut matrices = Vec::new(alloc);
    for arrow in 0..header.quiver.arrows.len() {
        let matrix = zero_matrix(alloc, header, side, v, arrow as u8)?;
        matrices.push(matrix)?;
    }
    Ok(Module {
        side,
        dims,
        matrices: Seq::from_vec(matrices),
    })
}

/// The dimension at the vertex `w` of the simple module at `v`.
fn simple_dim(header: &Header, side: Side, v: u8, w: u8) -> u32
    requires { w < vertex_count header.now.quiver }
    ensures dim { result ≡ dim_of_simple (algebra_at side header.now).quiver v w }
    ensures small { result < 2 }
{
    if v == w {
        return 1;
    }
    0
}

/// The dimensions of the simple module.
fn simple_dims(alloc: Global, header: &Header, side: Side, v: u8) -> Result<Seq<u32>, AllocError>
    requires { vertex_count header.now.quiver < 256 }
    ensures { IfOk result (λ dims. dims ≡ list_of (vertex_count header.now.quiver) (dim_of_simple (algebra_at side header.now).quiver v)) }
{
    let mut dims = Vec::new(alloc);
    for w in 0..header.quiver.vertices.len() {
        dims.push(simple_dim(header, side, v, w as u8))?;
    }
    Ok(Seq::from_vec(dims))
}

/// The matrix of an arrow on the simple module.
fn zero_matrix(
    alloc: Global,
    header: &Header,
    side: Side,
    v: u8,
    arrow: u8,
) -> Result<Matrix, AllocError>
    requires ends { HasEnds header.now.quiver }
    requires arrow { arrow < arrow_count header.now.quiver }
    ensures { IfOk result (λ m. m ≡ matrix_of_arrow (simple header.now.field (algebra_at side header.now).quiver v) arrow) }
{
    let rows = simple_dim(header, side, v, source_at(header, side, arrow));
    let cols = simple_dim(header, side, v, target_at(header, side, arrow));
    let matrix = Matrix::zero(alloc, header.field, rows, cols)?;
    Ok(matrix)
}
