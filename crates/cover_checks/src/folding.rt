//! The radical of what a term covers, in coordinates: what arrows make of a basis, folded into rows in lent memory.
ghost use Rattle.std.specs.Prelude.{ℕ, ⊤, ◌≡◌, ◌<◌, ◌≤◌, ◌+◌, ◌*◌, suc, length, slice_index, MatchOption};
ghost use Rattle.fp_linear.specs.Slices.{AreElements};
ghost use Rattle.fp_linear.specs.Meeting.{IsClearFrom};
ghost use Rattle.quiver_paths.specs.Quiver.{vertex_count, arrow_count};
ghost use Rattle.alg_table.specs.TableView.{IsTable};
ghost use Rattle.module_types.specs.Algebras.{algebra_at};
ghost use Rattle.module_types.specs.Readings.{read};
ghost use Rattle.module_types.specs.Shapes.{IsModule};
ghost use Rattle.module_checks.specs.Room.{IsRoom};
ghost use Rattle.module_checks.specs.Commuting.{AsksMore};
ghost use Rattle.term_rows.specs.SumDims.{AreTerms, covered_dim, IsRoomFor};
ghost use Rattle.resolution_checks.specs.Steps.{words_of_side};
ghost use Rattle.cover_checks.specs.Folds.{AreBases, HaveBases, IsBasisAt, StaysWhere, RowStays, ImageKilled, ImagesKilled};
ghost use Rattle.cover_checks.specs.Covers.{covered_rep, StaysAlong, StaysAt};
ghost use Rattle.resolution_checks.specs.Room.{AreSmall};
ghost use Rattle.map_checks.specs.ArrowRows.{ArrowMet, AskArrows};

use crate::bases::write_covered;
use crate::copying::copy_part;
use crate::taking::fold_coordinates;
use alg_table::Table;
use fp_linear::Field;
use module_checks::clear;
use module_types::{Module, TermRows, source_at, target_at};
use seq::Seq;
use term_rows::{step_in_target, target_dimension};

/// Folds the coordinates of what the arrow makes of row `i` of a basis at its source, of rows of `from` numbers, into the rows, of which the first `used`
/// are taken, and answers how many are taken then; none where the arrow leads out of what term `k` covers, which has the basis of `size` rows of
/// `width` numbers at its target.
pub fn fold_row(
    table: &Table,
    field: Field,
    a: &Module,
    terms: &Seq<TermRows>,
    k: u32,
    arrow: u8,
    i: u32,
    from: usize,
    other: &[u8],
    size: u32,
    width: usize,
    basis: &[u8],
    places: &[u32],
    rows: u32,
    used: u32,
    entries: &mut [u8],
    pivots: &mut [u32],
    row: &mut [u8],
    next: &mut [u8],
    coordinates: &mut [u8],
    spare: &mut [u8],
) -> Option<u32>
    requires field { field ≡ table.now.header.field }
    requires a { IsModule table.now.header.field (algebra_at a.now.side table.now.header).quiver a.now }
    requires terms { AreTerms table.now.words table.now.header a.now terms.now k }
    requires covered { IsRoomFor table.now.header (covered_dim table.now.words table.now.header a.now terms.now k) 512 }
    requires arrow { arrow < arrow_count table.now.header.quiver }
    requires from { from ≤ 512 }
    requires short { i < 512 }
    requires other_inside { i * from + from ≤ length other.now }
    requires other_elements { AreElements field other.now }
    requires few { size ≤ 512 }
    requires width { width ≤ 512 }
    requires basis { size * width ≤ length basis.now }
    requires basis_elements { AreElements field basis.now }
    requires places { 512 ≤ length places.now }
    requires inside { (j : ℕ) → j < size → slice_index places.now j < width }
    requires room { IsRoom size rows entries.old pivots.old }
    requires elements { AreElements field entries.old }
    requires clear { IsClearFrom (used * size) entries.old }
    requires used { used ≤ rows }
    requires row { length row.old ≡ 512 }
    requires next { length next.old ≡ 512 }
    requires coordinates { length coordinates.old ≡ 512 }
    requires spare { length spare.old ≡ length table.now.words }
    ensures elements { AreElements field entries.new }
    ensures used { MatchOption result ⊤ (λ u. (u ≤ rows) × IsClearFrom (u * size) entries.new) }
    ensures folded { (t : IsTable table.now.header table.now.words)
        → AreBases (words_of_side table.now.header table.now.words t a.now terms.now) (read table.now.header a.now) terms.now k arrow i from other.now size width basis.now places.now
        → MatchOption result
        (¬ RowStays (words_of_side table.now.header table.now.words t a.now terms.now) (read table.now.header a.now) terms.now k arrow i)
        (λ u. RowStays (words_of_side table.now.header table.now.words t a.now terms.now) (read table.now.header a.now) terms.now k arrow i
        × AsksMore field size rows entries.old entries.new (ImageKilled (words_of_side table.now.header table.now.words t a.now terms.now) (read table.now.header a.now) terms.now k arrow i)) }
{
    clear(row);
    copy_part(other, i as usize * from, row, 0, from);
    step_in_target(table, a, terms, k as usize, arrow, row, next, spare);
    fold_coordinates(
        field,
        size,
        width,
        basis,
        places,
        next,
        rows,
        used,
        entries,
        pivots,
        coordinates,
    )
}

/// Folds what the arrow makes of the `count` rows of a basis at its source into the rows, and answers how many are taken then; none where the arrow
/// leads out of what term `k` covers.
pub fn fold_rows(
    table: &Table,
    field: Field,
    a: &Module,
    terms: &Seq<TermRows>,
    k: u32,
    arrow: u8,
    count: u32,
    from: usize,
    other: &[u8],
    size: u32,
    width: usize,
    basis: &[u8],
    places: &[u32],
    rows: u32,
    used: u32,
    entries: &mut [u8],
    pivots: &mut [u32],
    row: &mut [u8],
    next: &mut [u8],
    coordinates: &mut [u8],
    spare: &mut [u8],
) -> Option<u32>
    requires field { field ≡ table.now.header.field }
    requires a { IsModule table.now.header.field (algebra_at a.now.side table.now.header).quiver a.now }
    requires terms { AreTerms table.now.words table.now.header a.now terms.now k }
    requires covered { IsRoomFor table.now.header (covered_dim table.now.words table.now.header a.now terms.now k) 512 }
    requires arrow { arrow < arrow_count table.now.header.quiver }
    requires from { from ≤ 512 }
    requires short { count ≤ 512 }
    requires other_inside { count * from ≤ length other.now }
    requires other_elements { AreElements field other.now }
    requires few { size ≤ 512 }
    requires width { width ≤ 512 }
    requires basis { size * width ≤ length basis.now }
    requires basis_elements { AreElements field basis.now }
    requires places { 512 ≤ length places.now }
    requires inside { (j : ℕ) → j < size → slice_index places.now j < width }
    requires room { IsRoom size rows entries.old pivots.old }
    requires elements { AreElements field entries.old }
    requires clear { IsClearFrom (used * size) entries.old }
    requires used { used ≤ rows }
    requires row { length row.old ≡ 512 }
    requires next { length next.old ≡ 512 }
    requires coordinates { length coordinates.old ≡ 512 }
    requires spare { length spare.old ≡ length table.now.words }
    ensures elements { AreElements field entries.new }
    ensures used { MatchOption result ⊤ (λ u. (u ≤ rows) × IsClearFrom (u * size) entries.new) }
    ensures folded { (t : IsTable table.now.header table.now.words)
        → HaveBases (words_of_side table.now.header table.now.words t a.now terms.now) (read table.now.header a.now) terms.now k arrow count from other.now size width basis.now places.now
        → MatchOption result
        (¬ StaysAlong (words_of_side table.now.header table.now.words t a.now terms.now) (read table.now.header a.now) terms.now k arrow)
        (λ u. StaysAlong (words_of_side table.now.header table.now.words t a.now terms.now) (read table.now.header a.now) terms.now k arrow
        × AsksMore field size rows entries.old entries.new (ImagesKilled (words_of_side table.now.header table.now.words t a.now terms.now) (read table.now.header a.now) terms.now k arrow count)) }
{
    let mut used = used;
    for i in 0..count {
        used = fold_row(
            table,
            field,
            a,
            terms,
            k,
            arrow,
            i,
            from,
            other,
            size,
            width,
            basis,
            places,
            rows,
            used,
            entries,
            pivots,
            row,
            next,
            coordinates,
            spare,
        )?;
    }
    Some(used)
}

/// Folds what the arrow, where it goes to the vertex `w`, makes of what term `k` covers at its source into the rows, and answers how many are taken then;
/// none where it leads out of what term `k` covers. The basis at `w` has `size` rows of `width` numbers.
pub fn fold_arrow(
    table: &Table,
    field: Field,
    a: &Module,
    terms: &Seq<TermRows>,
    k: u32,
    w: u8,
    arrow: u8,
    size: u32,
    width: usize,
    basis: &[u8],
    places: &[u32],
    rows: u32,
    used: u32,
    matrix: &mut [u8],
    wide: &mut [u8],
    other: &mut [u8],
    marks: &mut [u32],
    entries: &mut [u8],
    pivots: &mut [u32],
    row: &mut [u8],
    next: &mut [u8],
    coordinates: &mut [u8],
    spare: &mut [u8],
) -> Option<u32>
    requires table { IsTable table.now.header table.now.words }
    requires field { field ≡ table.now.header.field }
    requires a { IsModule table.now.header.field (algebra_at a.now.side table.now.header).quiver a.now }
    requires terms { AreTerms table.now.words table.now.header a.now terms.now k }
    requires small { AreSmall table.now.words table.now.header a.now terms.now k }
    requires arrow { arrow < arrow_count table.now.header.quiver }
    requires few { size ≤ 512 }
    requires width { width ≤ 512 }
    requires basis { size * width ≤ length basis.now }
    requires basis_elements { AreElements field basis.now }
    requires places { 512 ≤ length places.now }
    requires inside { (j : ℕ) → j < size → slice_index places.now j < width }
    requires room { IsRoom size rows entries.old pivots.old }
    requires pivots { 512 ≤ length pivots.old }
    requires elements { AreElements field entries.old }
    requires clear { IsClearFrom (used * size) entries.old }
    requires used { used ≤ rows }
    requires matrix { length matrix.old ≡ 262144 }
    requires wide { length wide.old ≡ 524288 }
    requires other { 262144 ≤ length other.old }
    requires marks { 512 ≤ length marks.old }
    requires row { length row.old ≡ 512 }
    requires next { length next.old ≡ 512 }
    requires coordinates { length coordinates.old ≡ 512 }
    requires spare { length spare.old ≡ length table.now.words }
    ensures elements { AreElements field entries.new }
    ensures used { MatchOption result ⊤ (λ u. (u ≤ rows) × IsClearFrom (u * size) entries.new) }
    ensures folded { (t : IsTable table.now.header table.now.words)
        → IsBasisAt (words_of_side table.now.header table.now.words t a.now terms.now) (read table.now.header a.now) terms.now k w size width basis.now places.now
        → MatchOption result
        (¬ StaysWhere (words_of_side table.now.header table.now.words t a.now terms.now) (read table.now.header a.now) terms.now k w arrow)
        (λ u. StaysWhere (words_of_side table.now.header table.now.words t a.now terms.now) (read table.now.header a.now) terms.now k w arrow
        × AsksMore field size rows entries.old entries.new (ArrowMet (covered_rep (words_of_side table.now.header table.now.words t a.now terms.now) (read table.now.header a.now) terms.now k) w arrow)) }
{
    if target_at(table.header(), a.side, arrow) != w {
        return Some(used);
    }
    let source = source_at(table.header(), a.side, arrow);
    let from = target_dimension(table, a, terms, k as usize, source);
    let count = write_covered(
        table, a, terms, k, source, matrix, wide, other, marks, pivots, row, next, spare,
    );
    fold_rows(
        table,
        field,
        a,
        terms,
        k,
        arrow,
        count,
        from,
        other,
        size,
        width,
        basis,
        places,
        rows,
        used,
        entries,
        pivots,
        row,
        next,
        coordinates,
        spare,
    )
}

/// Folds what all arrows to the vertex `w` make of what term `k` covers into the rows, which are cleared before, and answers how many are taken then; none
/// where one of them leads out of what term `k` covers. The basis at `w` has `size` rows of `width` numbers.
pub fn fold_radical(
    table: &Table,
    field: Field,
    a: &Module,
    terms: &Seq<TermRows>,
    k: u32,
    w: u8,
    size: u32,
    width: usize,
    basis: &[u8],
    places: &[u32],
    rows: u32,
    matrix: &mut [u8],
    wide: &mut [u8],
    other: &mut [u8],
    marks: &mut [u32],
    entries: &mut [u8],
    pivots: &mut [u32],
    row: &mut [u8],
    next: &mut [u8],
    coordinates: &mut [u8],
    spare: &mut [u8],
) -> Option<u32>
    requires table { IsTable table.now.header table.now.words }
    requires field { field ≡ table.now.header.field }
    requires a { IsModule table.now.header.field (algebra_at a.now.side table.now.header).quiver a.now }
    requires terms { AreTerms table.now.words table.now.header a.now terms.now k }
    requires small { AreSmall table.now.words table.now.header a.now terms.now k }
    requires few { size ≤ 512 }
    requires width { width ≤ 512 }
    requires basis { size * width ≤ length basis.now }
    requires basis_elements { AreElements field basis.now }
    requires places { 512 ≤ length places.now }
    requires inside { (j : ℕ) → j < size → slice_index places.now j < width }
    requires room { IsRoom size rows entries.old pivots.old }
    requires pivots { 512 ≤ length pivots.old }
    requires matrix { length matrix.old ≡ 262144 }
    requires wide { length wide.old ≡ 524288 }
    requires other { 262144 ≤ length other.old }
    requires marks { 512 ≤ length marks.old }
    requires row { length row.old ≡ 512 }
    requires next { length next.old ≡ 512 }
    requires coordinates { length coordinates.old ≡ 512 }
    requires spare { length spare.old ≡ length table.now.words }
    ensures elements { AreElements field entries.new }
    ensures used { MatchOption result ⊤ (λ u. (u ≤ rows) × IsClearFrom (u * size) entries.new) }
    ensures folded { (t : IsTable table.now.header table.now.words)
        → IsBasisAt (words_of_side table.now.header table.now.words t a.now terms.now) (read table.now.header a.now) terms.now k w size width basis.now places.now
        → MatchOption result
        (¬ StaysAt (words_of_side table.now.header table.now.words t a.now terms.now) (read table.now.header a.now) terms.now k w)
        (λ u. StaysAt (words_of_side table.now.header table.now.words t a.now terms.now) (read table.now.header a.now) terms.now k w
        × AskArrows (covered_rep (words_of_side table.now.header table.now.words t a.now terms.now) (read table.now.header a.now) terms.now k) w size rows (arrow_count table.now.header.quiver) entries.new) }
{
    clear(entries);
    let mut used = 0;
    for arrow in 0..table.header().quiver.arrows.len() {
        used = fold_arrow(
            table,
            field,
            a,
            terms,
            k,
            w,
            arrow as u8,
            size,
            width,
            basis,
            places,
            rows,
            used,
            matrix,
            wide,
            other,
            marks,
            entries,
            pivots,
            row,
            next,
            coordinates,
            spare,
        )?;
    }
    Some(used)
}
