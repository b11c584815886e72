//! Whether lists have the lengths, and matrices the shapes, of modules and of maps.
ghost use Rattle.std.specs.Prelude.{ℕ, ◌≡◌, ◌<◌, ◌≤◌, length, MatchBool};
ghost use Rattle.path_algebra.specs.Allowed.{IsAllowed};
ghost use Rattle.module_types.specs.Shapes.{HasShape as HasSize};
ghost use Rattle.module_faults.specs.ModuleFaults.{IsSmallModule, HasShape};
ghost use Rattle.module_faults.specs.MapFaults.{HasMapShape};

use fp_linear::{Field, Matrix};
use module_types::{Module, source_at, target_at};
use path_algebra::Header;
use seq::Seq;

/// Whether it is a matrix over the field with so many rows and columns.
fn has_size(matrix: &Matrix, field: Field, rows: u32, cols: u32) -> bool
    ensures { MatchBool result (HasSize field rows cols matrix.now) (¬ HasSize field rows cols matrix.now) }
{
    if matrix.field() != field {
        return false;
    }
    if matrix.rows() != rows {
        return false;
    }
    if matrix.cols() != cols {
        return false;
    }
    true
}

/// Whether there is a dimension for each vertex and a matrix for each arrow, over the header's field, from the rows of the arrow's source to those of its
/// target, as the module's side takes it.
pub(crate) fn has_module_shape(header: &Header, m: &Module) -> bool
    requires { IsAllowed header.now }
    ensures { MatchBool result (HasShape header.now m.now) (¬ HasShape header.now m.now) }
{
    if m.dims.len() != header.quiver.vertices.len() {
        return false;
    }
    if m.matrices.len() != header.quiver.arrows.len() {
        return false;
    }
    for k in 0..header.quiver.arrows.len() {
        let rows = m.dims[source_at(header, m.side, k as u8) as usize];
        let cols = m.dims[target_at(header, m.side, k as u8) as usize];
        if !has_size(&m.matrices[k], header.field, rows, cols) {
            return false;
        }
    }
    true
}

/// Whether there is a matrix for each vertex, over the header's field, from the rows of `a` to those of `b`.
pub(crate) fn has_map_shape(header: &Header, a: &Module, b: &Module, matrices: &Seq<Matrix>) -> bool
    requires allowed { IsAllowed header.now }
    requires a { IsSmallModule header.now a.now }
    requires b { IsSmallModule header.now b.now }
    ensures { MatchBool result (HasMapShape header.now a.now b.now matrices.now) (¬ HasMapShape header.now a.now b.now matrices.now) }
{
    if matrices.len() != header.quiver.vertices.len() {
        return false;
    }
    for v in 0..header.quiver.vertices.len() {
        if !has_size(&matrices[v], header.field, a.dims[v], b.dims[v]) {
            return false;
        }
    }
    true
}
