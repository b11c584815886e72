//! The first condition on a basis of homomorphisms that fails.
ghost use Rattle.std.specs.Prelude.{ℕ, ◌≡◌, ◌<◌, ◌≤◌, ◌+◌, ◌*◌, length, MatchBool};
ghost use Rattle.fp_linear.specs.Slices.{AreElements};
ghost use Rattle.linear_algebra.specs.Field.{Gf};
ghost use Rattle.path_algebra.specs.Allowed.{IsAllowed};
ghost use Rattle.representations.specs.HomSpace.{unknowns};
ghost use Rattle.module_types.specs.Algebras.{algebra_at};
ghost use Rattle.module_types.specs.Shapes.{IsModule};
ghost use Rattle.fp_linear.specs.Meeting.{IsClearFrom};
ghost use Rattle.module_checks.specs.Room.{IsRoom};
ghost use Rattle.claim_conditions.specs.Conditions.{IsAnswer};
ghost use Rattle.module_types.specs.Readings.{read, read_beside};
ghost use Rattle.claim_conditions.specs.HomConditions.{hom_conditions};

use crate::clearing::clear;
use crate::homs::equations_rank;
use crate::maps::same_side;
use crate::meeting::all_meet;
use crate::reduced::is_reduced;
use claim_conditions::Clause;
use fp_linear::Matrix;
use module_types::Module;
use path_algebra::Header;

/// The first condition on a claim on homomorphisms that fails, in lent memory of `rows` rows of as many numbers as there are unknowns.
pub fn first_failing_hom(
    header: &Header,
    a: &Module,
    b: &Module,
    basis: &Matrix,
    rows: u32,
    entries: &mut [u8],
    pivots: &mut [u32],
) -> Option<Clause>
    requires allowed { IsAllowed header.now }
    requires a { IsModule header.now.field (algebra_at a.now.side header.now).quiver a.now }
    requires b { IsModule header.now.field (algebra_at b.now.side header.now).quiver b.now }
    requires field { basis.now.field ≡ header.now.field }
    requires unknowns { basis.now.col_count ≡ unknowns (read header.now a.now) (read_beside header.now a.now b.now) }
    requires room { IsRoom basis.now.col_count rows entries.old pivots.old }
    ensures { IsAnswer (hom_conditions header.now a.now b.now basis.now) result }
{
    let unknowns = basis.cols();
    if !same_side(a.side, b.side) {
        return Some(Clause::Objects);
    }
    if !is_reduced(basis) {
        return Some(Clause::Reduced);
    }
    clear(entries);
    let rank = equations_rank(header, a.side, a, b, unknowns, rows, entries, pivots);
    if !all_meet(header.field, basis, rows as usize, entries) {
        return Some(Clause::Homs);
    }
    if basis.rows() as u64 + rank as u64 != unknowns as u64 {
        return Some(Clause::All);
    }
    None
}
