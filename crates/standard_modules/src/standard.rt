//! The projective and the injective modules.
ghost use Rattle.std.specs.Prelude.{ℕ, ◌≡◌, ◌<◌, ◌≤◌, IfOk, MatchResult};
ghost use Rattle.quiver_paths.specs.Quiver.{vertex_count};
ghost use Rattle.alg_table.specs.TableView.{IsTable};
ghost use Rattle.module_types.specs.Algebras.{algebra_at, other_side};
ghost use Rattle.module_types.specs.Readings.{IsModuleOver};
ghost use Rattle.module_types.specs.Shapes.{IsModule, most_dimension};
ghost use Rattle.standard_modules.specs.StandardModules.{projective_dim, injective_dim, projective_at, injective_at, IsStandardError};

use crate::StandardError;
use crate::arrows::arrow_matrix;
use crate::dimensions::{dims_by_words, injective_dim, projective_dim};
use crate::transposing::transposed;
use alg_table::Table;
use module_types::{Module, Side};
use seq::Seq;
use std::alloc::{AllocError, Global};

const MOST_DIMENSION: u64 = 256;

/// The projective module of a side at a vertex. At each vertex it has the words from the one to the other as its basis, ascending, and an arrow takes a
/// word to the coordinates of the word and the arrow. `DimLimit` comes exactly where its dimension exceeds 256.
pub fn projective_module(
    alloc: Global,
    table: &Table,
    side: Side,
    v: u8,
) -> Result<Module, StandardError>
    requires { v < vertex_count table.now.header.quiver }
    ensures module { (t : IsTable table.now.header table.now.words) → IfOk result (λ m. m ≡ projective_at table.now.header table.now.words t side v) }
    ensures limit { MatchResult result (λ _. projective_dim table.now.header table.now.words side v ≤ most_dimension) (IsStandardError (projective_dim table.now.header table.now.words side v)) }
    ensures shape { IfOk result (λ m. IsModule table.now.header.field (algebra_at m.side table.now.header).quiver m) }
    ensures over { IfOk result (IsModuleOver table.now.header) }
{
    let dim = projective_dim(table, side, v);
    if dim > MOST_DIMENSION {
        return Err(StandardError::DimLimit { dim });
    }
    let m = words_module(alloc, table, side, v)?;
    Ok(m)
}

/// The injective module of a side at a vertex: the dual of the projective module of the other side. `DimLimit` comes exactly where its dimension exceeds
/// 256.
pub fn injective_module(
    alloc: Global,
    table: &Table,
    side: Side,
    v: u8,
) -> Result<Module, StandardError>
    requires { v < vertex_count table.now.header.quiver }
    ensures module { (t : IsTable table.now.header table.now.words) → IfOk result (λ m. m ≡ injective_at table.now.header table.now.words t side v) }
    ensures limit { MatchResult result (λ _. injective_dim table.now.header table.now.words side v ≤ most_dimension) (IsStandardError (injective_dim table.now.header table.now.words side v)) }
    ensures shape { IfOk result (λ m. IsModule table.now.header.field (algebra_at m.side table.now.header).quiver m) }
    ensures over { IfOk result (IsModuleOver table.now.header) }
{
    let dim = injective_dim(table, side, v);
    if dim > MOST_DIMENSION {
        return Err(StandardError::DimLimit { dim });
    }
    let projective = words_module(alloc, table, side.other(), v)?;
    let m = transposed(alloc, &projective)?;
    Ok(m)
}

/// The projective module, whose dimension is small enough.
fn words_module(alloc: Global, table: &Table, side: Side, v: u8) -> Result<Module, AllocError>
    requires vertex { v < vertex_count table.now.header.quiver }
    requires small { projective_dim table.now.header table.now.words side v ≤ most_dimension }
    ensures table { IsTable table.now.header table.now.words }
    ensures module { (t : IsTable table.now.header table.now.words) → IfOk result (λ m. m ≡ projective_at table.now.header table.now.words t side v) }
{
    let header = table.header();
    let dims = dims_by_words(alloc, table, side, v)?;
    let mut product = vec![in alloc; 0u8; table.word_count() as usize]?;
    let mut matrices = Vec::new(alloc);
    for arrow in 0..header.quiver.arrows.len() {
        let matrix = arrow_matrix(alloc, table, side, v, arrow as u8, &mut product)?;
        matrices.push(matrix)?;
    }
    Ok(Module {
        side,
        dims,
        matrices: Seq::from_vec(matrices),
    })
}
