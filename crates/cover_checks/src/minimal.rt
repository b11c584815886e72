//! Whether the generators of the terms of a resolution are minimal, in lent memory.
ghost use Rattle.std.specs.Prelude.{ℕ, ⊤, ◌≡◌, ◌<◌, ◌≤◌, ◌+◌, ◌*◌, suc, length, slice_index, MatchBool, MatchOption};
ghost use Rattle.fp_linear.specs.Slices.{AreElements};
ghost use Rattle.fp_linear.specs.Meeting.{IsClearFrom};
ghost use Rattle.quiver_paths.specs.Quiver.{vertex_count};
ghost use Rattle.alg_table.specs.TableView.{IsTable};
ghost use Rattle.module_types.specs.Algebras.{algebra_at};
ghost use Rattle.module_types.specs.Readings.{read};
ghost use Rattle.module_types.specs.Shapes.{IsModule};
ghost use Rattle.claim_conditions.specs.ResolutionConditions.{OfCovered, AreIndependentIn, IsMinimal};
ghost use Rattle.module_checks.specs.Room.{IsRoom};
ghost use Rattle.term_rows.specs.SumDims.{AreTerms};
ghost use Rattle.resolution_checks.specs.Room.{AreSmall};
ghost use Rattle.resolution_checks.specs.Steps.{words_of_side};
ghost use Rattle.cover_checks.specs.Covers.{StaysAt, IsMinimalAt};
ghost use Rattle.cover_checks.specs.Folds.{IsBasisAt, HoldsRadical};

use crate::bases::write_covered;
use crate::folding::fold_radical;
use crate::generators::are_independent_at;
use alg_table::Table;
use fp_linear::{Field, echelon_rows};
use module_types::{Module, TermRows};
use seq::Seq;
use term_rows::target_dimension;

/// Folds the radical of what term `k` covers at the vertex `w`, where that has the basis of `size` rows of `width` numbers, into the rows, in reduced row
/// form, and answers its dimension there; none where an arrow to `w` leads out of what term `k` covers.
fn fold_reduced_radical(
    table: &Table,
    field: Field,
    a: &Module,
    terms: &Seq<TermRows>,
    k: u32,
    w: u8,
    size: u32,
    width: usize,
    basis: &[u8],
    places: &[u32],
    rows: u32,
    matrix: &mut [u8],
    wide: &mut [u8],
    other: &mut [u8],
    marks: &mut [u32],
    entries: &mut [u8],
    pivots: &mut [u32],
    row: &mut [u8],
    next: &mut [u8],
    coordinates: &mut [u8],
    spare: &mut [u8],
) -> Option<u32>
    requires table { IsTable table.now.header table.now.words }
    requires field { field ≡ table.now.header.field }
    requires a { IsModule table.now.header.field (algebra_at a.now.side table.now.header).quiver a.now }
    requires terms { AreTerms table.now.words table.now.header a.now terms.now k }
    requires small { AreSmall table.now.words table.now.header a.now terms.now k }
    requires few { size ≤ 512 }
    requires width { width ≤ 512 }
    requires basis { size * width ≤ length basis.now }
    requires basis_elements { AreElements field basis.now }
    requires places { 512 ≤ length places.now }
    requires inside { (j : ℕ) → j < size → slice_index places.now j < width }
    requires room { IsRoom size rows entries.old pivots.old }
    requires pivots { 512 ≤ length pivots.old }
    requires matrix { length matrix.old ≡ 262144 }
    requires wide { length wide.old ≡ 524288 }
    requires other { 262144 ≤ length other.old }
    requires marks { 512 ≤ length marks.old }
    requires row { length row.old ≡ 512 }
    requires next { length next.old ≡ 512 }
    requires coordinates { length coordinates.old ≡ 512 }
    requires spare { length spare.old ≡ length table.now.words }
    ensures elements { AreElements field entries.new }
    ensures used { MatchOption result ⊤ (λ u. (u ≤ rows) × IsClearFrom (u * size) entries.new) }
    ensures folded { (t : IsTable table.now.header table.now.words)
        → IsBasisAt (words_of_side table.now.header table.now.words t a.now terms.now) (read table.now.header a.now) terms.now k w size width basis.now places.now
        → MatchOption result
        (¬ StaysAt (words_of_side table.now.header table.now.words t a.now terms.now) (read table.now.header a.now) terms.now k w)
        (λ u. StaysAt (words_of_side table.now.header table.now.words t a.now terms.now) (read table.now.header a.now) terms.now k w × HoldsRadical (words_of_side table.now.header table.now.words t a.now terms.now) (read table.now.header a.now) terms.now k w size rows u entries.new) }
{
    let Some(_) = fold_radical(
        table,
        field,
        a,
        terms,
        k,
        w,
        size,
        width,
        basis,
        places,
        rows,
        matrix,
        wide,
        other,
        marks,
        entries,
        pivots,
        row,
        next,
        coordinates,
        spare,
    ) else {
        return None;
    };
    let rank = echelon_rows(field, rows, size, entries, pivots);
    Some(rank)
}

/// Whether no arrow to the vertex `w` leads out of what term `k` covers, and the generators of the term at `w` lie in it and are independent modulo its
/// radical.
fn is_minimal_at(
    table: &Table,
    a: &Module,
    terms: &Seq<TermRows>,
    k: u32,
    w: u8,
    matrix: &mut [u8],
    wide: &mut [u8],
    other: &mut [u8],
    marks: &mut [u32],
    basis: &mut [u8],
    places: &mut [u32],
    entries: &mut [u8],
    pivots: &mut [u32],
    row: &mut [u8],
    next: &mut [u8],
    coordinates: &mut [u8],
    spare: &mut [u8],
) -> bool
    requires table { IsTable table.now.header table.now.words }
    requires a { IsModule table.now.header.field (algebra_at a.now.side table.now.header).quiver a.now }
    requires terms { AreTerms table.now.words table.now.header a.now terms.now (suc k) }
    requires small { AreSmall table.now.words table.now.header a.now terms.now (suc k) }
    requires matrix { length matrix.old ≡ 262144 }
    requires wide { length wide.old ≡ 524288 }
    requires other { 262144 ≤ length other.old }
    requires marks { 512 ≤ length marks.old }
    requires basis { 262144 ≤ length basis.old }
    requires places { 512 ≤ length places.old }
    requires entries { 262656 ≤ length entries.old }
    requires pivots { 513 ≤ length pivots.old }
    requires row { length row.old ≡ 512 }
    requires next { length next.old ≡ 512 }
    requires coordinates { length coordinates.old ≡ 512 }
    requires spare { length spare.old ≡ length table.now.words }
    requires vertex { w < vertex_count table.now.header.quiver }
    ensures { (t : IsTable table.now.header table.now.words) → MatchBool result (IsMinimalAt (words_of_side table.now.header table.now.words t a.now terms.now) (read table.now.header a.now) terms.now k w) (¬ IsMinimalAt (words_of_side table.now.header table.now.words t a.now terms.now) (read table.now.header a.now) terms.now k w) }
{
    let field = table.header().field;
    let width = target_dimension(table, a, terms, k as usize, w);
    let size = write_covered(
        table, a, terms, k, w, matrix, wide, basis, places, pivots, row, next, spare,
    );
    let rows = size + 1;
    let folded = &mut entries[..rows as usize * size as usize];
    let Some(used) = fold_reduced_radical(
        table,
        field,
        a,
        terms,
        k,
        w,
        size,
        width,
        basis,
        places,
        rows,
        matrix,
        wide,
        other,
        marks,
        folded,
        pivots,
        row,
        next,
        coordinates,
        spare,
    ) else {
        return false;
    };
    if !are_independent_at(
        table,
        field,
        a,
        terms,
        k,
        w,
        size,
        width,
        basis,
        places,
        rows,
        used,
        folded,
        pivots,
        row,
        coordinates,
    ) {
        return false;
    }
    true
}

/// Whether the generators of term `k` lie in what the term covers and are independent modulo its radical.
fn is_minimal_term(
    table: &Table,
    a: &Module,
    terms: &Seq<TermRows>,
    k: u32,
    matrix: &mut [u8],
    wide: &mut [u8],
    other: &mut [u8],
    marks: &mut [u32],
    basis: &mut [u8],
    places: &mut [u32],
    entries: &mut [u8],
    pivots: &mut [u32],
    row: &mut [u8],
    next: &mut [u8],
    coordinates: &mut [u8],
    spare: &mut [u8],
) -> bool
    requires table { IsTable table.now.header table.now.words }
    requires a { IsModule table.now.header.field (algebra_at a.now.side table.now.header).quiver a.now }
    requires terms { AreTerms table.now.words table.now.header a.now terms.now (suc k) }
    requires small { AreSmall table.now.words table.now.header a.now terms.now (suc k) }
    requires matrix { length matrix.old ≡ 262144 }
    requires wide { length wide.old ≡ 524288 }
    requires other { 262144 ≤ length other.old }
    requires marks { 512 ≤ length marks.old }
    requires basis { 262144 ≤ length basis.old }
    requires places { 512 ≤ length places.old }
    requires entries { 262656 ≤ length entries.old }
    requires pivots { 513 ≤ length pivots.old }
    requires row { length row.old ≡ 512 }
    requires next { length next.old ≡ 512 }
    requires coordinates { length coordinates.old ≡ 512 }
    requires spare { length spare.old ≡ length table.now.words }
    ensures { (t : IsTable table.now.header table.now.words) → MatchBool result
        (OfCovered (words_of_side table.now.header table.now.words t a.now terms.now) (read table.now.header a.now) terms.now k (AreIndependentIn (words_of_side table.now.header table.now.words t a.now terms.now) (read table.now.header a.now) terms.now k))
        (¬ OfCovered (words_of_side table.now.header table.now.words t a.now terms.now) (read table.now.header a.now) terms.now k (AreIndependentIn (words_of_side table.now.header table.now.words t a.now terms.now) (read table.now.header a.now) terms.now k)) }
{
    for w in 0..table.header().quiver.vertices.len() {
        if !is_minimal_at(
            table,
            a,
            terms,
            k,
            w as u8,
            matrix,
            wide,
            other,
            marks,
            basis,
            places,
            entries,
            pivots,
            row,
            next,
            coordinates,
            spare,
        ) {
            return false;
        }
    }
    true
}

/// Whether the generators of each term up to term `n` lie in what the term covers and are independent modulo its radical.
pub fn is_minimal(
    table: &Table,
    a: &Module,
    terms: &Seq<TermRows>,
    n: u32,
    matrix: &mut [u8],
    wide: &mut [u8],
    other: &mut [u8],
    marks: &mut [u32],
    basis: &mut [u8],
    places: &mut [u32],
    entries: &mut [u8],
    pivots: &mut [u32],
    row: &mut [u8],
    next: &mut [u8],
    coordinates: &mut [u8],
    spare: &mut [u8],
) -> bool
    requires table { IsTable table.now.header table.now.words }
    requires a { IsModule table.now.header.field (algebra_at a.now.side table.now.header).quiver a.now }
    requires terms { AreTerms table.now.words table.now.header a.now terms.now (suc n) }
    requires small { AreSmall table.now.words table.now.header a.now terms.now (suc n) }
    requires short { n < 65536 }
    requires matrix { length matrix.old ≡ 262144 }
    requires wide { length wide.old ≡ 524288 }
    requires other { 262144 ≤ length other.old }
    requires marks { 512 ≤ length marks.old }
    requires basis { 262144 ≤ length basis.old }
    requires places { 512 ≤ length places.old }
    requires entries { 262656 ≤ length entries.old }
    requires pivots { 513 ≤ length pivots.old }
    requires row { length row.old ≡ 512 }
    requires next { length next.old ≡ 512 }
    requires coordinates { length coordinates.old ≡ 512 }
    requires spare { length spare.old ≡ length table.now.words }
    ensures { (t : IsTable table.now.header table.now.words) → MatchBool result
        (IsMinimal (words_of_side table.now.header table.now.words t a.now terms.now) (read table.now.header a.now) terms.now n)
        (¬ IsMinimal (words_of_side table.now.header table.now.words t a.now terms.now) (read table.now.header a.now) terms.now n) }
{
    for k in 0..n + 1 {
        if !is_minimal_term(
            table,
            a,
            terms,
            k,
            matrix,
            wide,
            other,
            marks,
            basis,
            places,
            entries,
            pivots,
            row,
            next,
            coordinates,
            spare,
        ) {
            return false;
        }
    }
    true
}
