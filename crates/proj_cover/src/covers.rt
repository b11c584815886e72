//! The minimal projective cover of a module.
ghost use Rattle.std.specs.Prelude.{ℕ, ◌≡◌, ◌<◌, ◌≤◌, [], ◌∷◌, IfOk, MatchResult};
ghost use Rattle.alg_table.specs.TableView.{IsTable};
ghost use Rattle.bound_algebra.specs.TypedPaths.{quiver_of};
ghost use Rattle.bound_tables.specs.TableSides.{table_sides};
ghost use Rattle.module_types.specs.Algebras.{algebra_at, sided_words};
ghost use Rattle.module_types.specs.Readings.{read, dim_at};
ghost use Rattle.module_types.specs.Shapes.{IsModule, IsTerm};
ghost use Rattle.claim_conditions.specs.ResolutionConditions.{IsChosen};
ghost use Rattle.proj_cover.specs.CanonicalTerms.{canonical_term};
ghost use Rattle.proj_cover.specs.CoverLimits.{cover_dim, most_term, IsCoverError};

use crate::CoverError;
use crate::generators::canonical_term;
use alg_table::Table;
use module_operations::radical_bases;
use module_types::{Module, TermRows};
use standard_modules::projectives_dim;
use std::alloc::Global;

const MOST_TERM: u64 = 512;

/// The minimal projective cover of a module with the canonical generators: vertex by vertex, at the columns where the reduced row form of the radical has
/// no pivot, each with the unit row there. It is what the condition `choice` of a resolution asks of term 0. `TermLimit` comes where memory is there and
/// the dimension of the cover, counted by words, exceeds 512.
pub fn cover_of(alloc: Global, table: &Table, m: &Module) -> Result<TermRows, CoverError>
    requires { IsModule table.now.header.field (algebra_at m.now.side table.now.header).quiver m.now }
    ensures term { IfOk result (λ term. term ≡ canonical_term (read table.now.header m.now)) }
    ensures limit { MatchResult result (λ _. cover_dim table.now.header table.now.words m.now ≤ most_term) (IsCoverError (cover_dim table.now.header table.now.words m.now)) }
    ensures shape { IfOk result (IsTerm table.now.header.field (quiver_of table.now.header.quiver) (dim_at (quiver_of table.now.header.quiver) m.now.dims)) }
    ensures choice { (t : IsTable table.now.header table.now.words)
        → IfOk result (λ term. IsChosen (sided_words m.now.side (table_sides table.now.header table.now.words t)).words (read table.now.header m.now) (term ∷ []) 0) }
{
    let header = table.header();
    let bases = radical_bases(alloc, header, m)?;
    let term = canonical_term(alloc, header, m, &bases)?;
    let dim = projectives_dim(table, m.side, term.vertices.as_slice());
    if dim > MOST_TERM {
        return Err(CoverError::TermLimit { dim });
    }
    Ok(term)
}
