//! The first arrow behind which something is left of rows that go along it and then along paths of a length.
ghost use Rattle.std.specs.Prelude.{ℕ, ◌≡◌, ◌<◌, ◌≤◌, ◌+◌, ◌*◌, length, IfSome, MatchOption, MatchBool};
ghost use Rattle.fp_linear.specs.Slices.{AreElements};
ghost use Rattle.fp_linear.specs.Meeting.{IsClearFrom};
ghost use Rattle.quiver_paths.specs.Quiver.{arrow_count};
ghost use Rattle.path_algebra.specs.Allowed.{IsAllowed};
ghost use Rattle.module_types.specs.Algebras.{algebra_at};
ghost use Rattle.module_types.specs.Readings.{read};
ghost use Rattle.module_types.specs.Shapes.{IsModule, dimension};
ghost use Rattle.module_checks.specs.Room.{IsRoom};
ghost use Rattle.module_faults.specs.Levels.{AskImage, IsStoppedAt};

use fp_linear::Matrix;
use module_checks::{all_meet, clear, first_place, fold_images};
use module_types::{Module, source_at, target_at};
use path_algebra::Header;

/// Writes into `entries` what the first `count` rows of `images` become along an arrow, and answers in how many rows.
fn images_along(
    header: &Header,
    m: &Module,
    arrow: u8,
    unknowns: u32,
    rows: u32,
    count: u32,
    images: &[u8],
    entries: &mut [u8],
    pivots: &mut [u32],
) -> u32
    requires allowed { IsAllowed header.now }
    requires m { IsModule header.now.field (algebra_at m.now.side header.now).quiver m.now }
    requires arrow { arrow < arrow_count header.now.quiver }
    requires unknowns { unknowns ≡ dimension m.now.dims }
    requires count { count ≤ rows }
    requires image_elements { AreElements header.now.field images.now }
    requires images { length images.now ≡ rows * unknowns }
    requires room { IsRoom unknowns rows entries.old pivots.old }
    ensures count { result ≤ rows }
    ensures elements { AreElements header.now.field entries.new }
    ensures clear { IsClearFrom (result * unknowns) entries.new }
    ensures asked { AskImage (read header.now m.now) unknowns rows count arrow images.now entries.new }
{
    clear(entries);
    let source = first_place(&m.dims, source_at(header, m.side, arrow));
    let target = first_place(&m.dims, target_at(header, m.side, arrow));
    fold_images(
        header.field,
        unknowns,
        rows,
        0,
        &m.matrices[arrow as usize],
        source,
        target,
        count,
        images,
        entries,
        pivots,
    )
}

/// The first arrow along which the first `count` rows of `images` become rows that the given ones do not take to zero, and how many rows these are, which
/// `entries` holds; none where there is no such arrow.
pub(crate) fn next_arrow(
    header: &Header,
    m: &Module,
    level: &Matrix,
    unknowns: u32,
    rows: u32,
    count: u32,
    images: &[u8],
    entries: &mut [u8],
    pivots: &mut [u32],
) -> Option<(u8, u32)>
    requires allowed { IsAllowed header.now }
    requires m { IsModule header.now.field (algebra_at m.now.side header.now).quiver m.now }
    requires level_field { level.now.field ≡ header.now.field }
    requires level_columns { level.now.col_count ≡ unknowns }
    requires unknowns { unknowns ≡ dimension m.now.dims }
    requires count { count ≤ rows }
    requires image_elements { AreElements header.now.field images.now }
    requires images { length images.now ≡ rows * unknowns }
    requires room { IsRoom unknowns rows entries.old pivots.old }
    ensures arrow { IfSome result (λ x. x.0 < arrow_count header.now.quiver) }
    ensures first { MatchOption result
        ((a : ℕ) → a < arrow_count header.now.quiver → IsStoppedAt (read header.now m.now) unknowns count images.now level.now a)
        (λ x. (a : ℕ) → a < x.0 → IsStoppedAt (read header.now m.now) unknowns count images.now level.now a) }
    ensures lives { IfSome result (λ x. ¬ IsStoppedAt (read header.now m.now) unknowns count images.now level.now x.0) }
    ensures count { IfSome result (λ x. x.1 ≤ rows) }
    ensures clear { IfSome result (λ x. IsClearFrom (x.1 * unknowns) entries.new) }
    ensures asked { IfSome result (λ x. AskImage (read header.now m.now) unknowns rows count x.0 images.now entries.new) }
    ensures elements { IfSome result (λ _. AreElements header.now.field entries.new) }
{
    for k in 0..header.quiver.arrows.len() {
        let arrow = k as u8;
        let used = images_along(
            header, m, arrow, unknowns, rows, count, images, entries, pivots,
        );
        if !all_meet(header.field, level, used as usize, entries) {
            return Some((arrow, used));
        }
    }
    None
}
