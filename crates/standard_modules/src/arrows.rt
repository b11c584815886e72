//! The matrices of arrows on projective modules, row by row from the products of a table.
ghost use Rattle.std.specs.Prelude.{ℕ, ◌≡◌, ◌<◌, ◌≤◌, ◌++◌, length, map, slice_index, IfOk, OnOk};
ghost use Rattle.quiver_paths.specs.Quiver.{vertex_count, arrow_count};
ghost use Rattle.alg_table.specs.TableView.{IsTable};
ghost use Rattle.module_types.specs.Shapes.{most_dimension};
ghost use Rattle.standard_modules.specs.StandardModules.{projective_dim, projective_rep, matrix_of_arrow};

use crate::sides::side_in_table;
use alg_table::Table;
use fp_linear::Matrix;
use module_types::{Side, source_at, target_at};
use std::alloc::{AllocError, Global};

/// The matrix of an arrow on the projective module of a side at a vertex: for each word from the vertex to the source of the arrow the coordinates of the
/// word and the arrow, as the side multiplies them. `product`, which has a place for each word, is written over.
pub(crate) fn arrow_matrix(
    alloc: Global,
    table: &Table,
    side: Side,
    v: u8,
    arrow: u8,
    product: &mut [u8],
) -> Result<Matrix, AllocError>
    requires vertex { v < vertex_count table.now.header.quiver }
    requires arrow { arrow < arrow_count table.now.header.quiver }
    requires small { projective_dim table.now.header table.now.words side v ≤ most_dimension }
    requires product { length product.old ≡ length table.now.words }
    ensures { (t : IsTable table.now.header table.now.words) → IfOk result (λ m. m ≡ matrix_of_arrow (projective_rep table.now.header table.now.words t side v) arrow) }
{
    let hand = side_in_table(side);
    let header = table.header();
    let sources = table.words_at(hand, v, source_at(header, side, arrow));
    let targets = table.words_at(hand, v, target_at(header, side, arrow));
    let mut entries = Vec::with_capacity(alloc, sources.len() * targets.len())?;
    for i in 0..sources.len() {
        table.act(hand, sources[i], arrow, product);
        push_at(product, targets, &mut entries)?;
    }
    let rows = sources.len() as u32;
    let cols = targets.len() as u32;
    let matrix = Matrix::from_entries(alloc, header.field, rows, cols, &entries)?;
    Ok(matrix)
}

/// Adds the entries of a row at these places.
fn push_at(row: &[u8], places: &[u32], entries: &mut Vec<u8>) -> Result<(), AllocError>
    requires { (k : ℕ) → k < length places.now → slice_index places.now k < length row.now }
    ensures { OnOk result (entries.new.items ≡ entries.old.items ++ map (slice_index row.now) places.now) }
{
    for place in places {
        entries.push(row[*place as usize])?;
    }
    Ok(())
}
