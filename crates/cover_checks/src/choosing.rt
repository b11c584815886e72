//! Whether the generators of terms are the canonical ones, in lent memory.
ghost use Rattle.std.specs.Prelude.{ℕ, ⊤, ◌≡◌, ◌<◌, ◌≤◌, ◌+◌, ◌*◌, suc, zero, List, length, slice_index, MatchBool, MatchOption};
ghost use Rattle.linear_algebra.specs.Field.{Gf};
ghost use Rattle.fp_linear.specs.Slices.{AreElements};
ghost use Rattle.quiver_paths.specs.Quiver.{vertex_count};
ghost use Rattle.alg_table.specs.TableView.{IsTable};
ghost use Rattle.representations.specs.Quiver.{Quiver};
ghost use Rattle.representations.specs.Rep.{Rep};
ghost use Rattle.projectives.specs.Words.{Words};
ghost use Rattle.projectives.specs.Canonical.{is_among};
ghost use Rattle.module_types.specs.declared.TermRows.{TermRows as Term};
ghost use Rattle.module_types.specs.Algebras.{algebra_at};
ghost use Rattle.module_types.specs.Readings.{read};
ghost use Rattle.module_types.specs.Shapes.{IsModule};
ghost use Rattle.claim_conditions.specs.ResolutionConditions.{OfCovered, AreCanonicalIn, IsChosen};
ghost use Rattle.term_rows.specs.SumDims.{AreTerms};
ghost use Rattle.resolution_checks.specs.Room.{AreSmall};
ghost use Rattle.resolution_checks.specs.Steps.{words_of_side};
ghost use Rattle.cover_checks.specs.Covers.{StaysAt, IsChosenIn};
ghost use Rattle.cover_checks.specs.Folds.{IsBasisAt};
ghost use Rattle.cover_checks.specs.Choosing.{IsBasisRow, IsPrintedRow, HasWidthAt, AreMetBefore, ArePivotsAt, IsReadAt, StaysChosen, ArePassed};

use crate::bases::write_covered;
use crate::folding::fold_radical;
use alg_table::Table;
use fp_linear::{Field, echelon_rows};
use module_types::{Module, TermRows};
use seq::Seq;
use term_rows::target_dimension;

/// Whether `c` is one of the first `rank` pivots.
fn has_pivot(pivots: &[u32], rank: u32, c: u32) -> bool
    requires inside { rank ≤ length pivots.now }
    ensures { result ≡ is_among rank (slice_index pivots.now) c }
{
    for i in 0..rank {
        if pivots[i as usize] == c {
            return true;
        }
    }
    false
}

/// Whether the `width` numbers of the row are those of row `c` of the basis.
fn is_basis_row(width: usize, basis: &[u8], c: u32, image: &Seq<u8>) -> bool
    requires inside { c * width + width ≤ length basis.now }
    requires image { length image.now ≡ width }
    ensures { MatchBool result (IsBasisRow width c basis.now image.now width) (¬ IsBasisRow width c basis.now image.now width) }
{
    for i in 0..width {
        if image[i] != basis[c as usize * width + i] {
            return false;
        }
    }
    true
}

/// Whether generator `j` of the term stands at the vertex `w` and goes to row `c` of the basis, of `width` numbers.
fn is_printed_row(term: &TermRows, j: usize, w: u8, width: usize, basis: &[u8], c: u32) -> bool
    requires generator { j < length term.now.vertices }
    requires inside { c * width + width ≤ length basis.now }
    requires widths { HasWidthAt term.now w width }
    ensures { MatchBool result (IsPrintedRow term.now j w width c basis.now) (¬ IsPrintedRow term.now j w width c basis.now) }
{
    if term.vertices[j] != w {
        return false;
    }
    if !is_basis_row(width, basis, c, &term.images[j]) {
        return false;
    }
    true
}

/// Passes column `c` at the vertex `w`: where it has no pivot, generator `met` of the term is to go to row `c` of the basis there. It answers how many
/// generators are met then, and none where this one goes elsewhere.
fn meet_column(
    term: &TermRows,
    w: u8,
    c: u32,
    width: usize,
    basis: &[u8],
    rank: u32,
    pivots: &[u32],
    met: usize,
) -> Option<usize>
    requires basis { c * width + width ≤ length basis.now }
    requires widths { HasWidthAt term.now w width }
    requires pivots { rank ≤ length pivots.now }
    ensures { (q : Gf) (Q : Quiver) (W : Words q Q) (X : Rep q Q) (terms : List Term) (k size : ℕ) (places : List ℕ)
        → IsReadAt W X terms k w size width rank term.now basis.now places pivots.now → c < size → AreMetBefore W X terms k w c met
        → MatchOption result (¬ IsChosenIn W X terms k) (λ j. AreMetBefore W X terms k w (c + 1) j) }
{
    if has_pivot(pivots, rank, c) {
        return Some(met);
    }
    if met >= term.vertices.len() {
        return None;
    }
    if !is_printed_row(term, met, w, width, basis, c) {
        return None;
    }
    Some(met + 1)
}

/// Passes the columns below `size` at the vertex `w`, and answers how many generators of the term are met then, if `met` are before; none where one of
/// them does not go to the row of the basis that it is to go to.
fn meet_columns(
    term: &TermRows,
    w: u8,
    size: u32,
    width: usize,
    basis: &[u8],
    rank: u32,
    pivots: &[u32],
    met: usize,
) -> Option<usize>
    requires small { size ≤ 512 }
    requires small_width { width ≤ 512 }
    requires basis { size * width ≤ length basis.now }
    requires widths { HasWidthAt term.now w width }
    requires pivots { rank ≤ length pivots.now }
    ensures { (q : Gf) (Q : Quiver) (W : Words q Q) (X : Rep q Q) (terms : List Term) (k : ℕ) (places : List ℕ)
        → IsReadAt W X terms k w size width rank term.now basis.now places pivots.now → AreMetBefore W X terms k w zero met
        → MatchOption result (¬ IsChosenIn W X terms k) (λ j. AreMetBefore W X terms k w size j) }
{
    let mut met = met;
    for c in 0..size {
        met = meet_column(term, w, c, width, basis, rank, pivots, met)?;
    }
    Some(met)
}

/// Writes the pivots of the radical of what term `k` covers at the vertex `w`, in coordinates over the basis of `size` rows of `width` numbers, and answers
/// how many there are; none where an arrow to `w` leads out of what the term covers.
fn find_pivots(
    table: &Table,
    field: Field,
    a: &Module,
    terms: &Seq<TermRows>,
    k: u32,
    w: u8,
    size: u32,
    width: usize,
    basis: &[u8],
    places: &[u32],
    matrix: &mut [u8],
    wide: &mut [u8],
    other: &mut [u8],
    marks: &mut [u32],
    entries: &mut [u8],
    pivots: &mut [u32],
    row: &mut [u8],
    next: &mut [u8],
    coordinates: &mut [u8],
    spare: &mut [u8],
) -> Option<u32>
    requires table { IsTable table.now.header table.now.words }
    requires field { field ≡ table.now.header.field }
    requires a { IsModule table.now.header.field (algebra_at a.now.side table.now.header).quiver a.now }
    requires terms { AreTerms table.now.words table.now.header a.now terms.now k }
    requires small { AreSmall table.now.words table.now.header a.now terms.now k }
    requires few { size ≤ 512 }
    requires width { width ≤ 512 }
    requires basis { size * width ≤ length basis.now }
    requires basis_elements { AreElements field basis.now }
    requires places { 512 ≤ length places.now }
    requires inside { (j : ℕ) → j < size → slice_index places.now j < width }
    requires matrix { length matrix.old ≡ 262144 }
    requires wide { length wide.old ≡ 524288 }
    requires other { 262144 ≤ length other.old }
    requires marks { 512 ≤ length marks.old }
    requires entries { 262656 ≤ length entries.old }
    requires pivots { 513 ≤ length pivots.old }
    requires row { length row.old ≡ 512 }
    requires next { length next.old ≡ 512 }
    requires coordinates { length coordinates.old ≡ 512 }
    requires spare { length spare.old ≡ length table.now.words }
    ensures rank { MatchOption result ⊤ (λ r. r ≤ 513) }
    ensures pivots { (t : IsTable table.now.header table.now.words)
        → IsBasisAt (words_of_side table.now.header table.now.words t a.now terms.now) (read table.now.header a.now) terms.now k w size width basis.now places.now
        → MatchOption result
        (¬ StaysAt (words_of_side table.now.header table.now.words t a.now terms.now) (read table.now.header a.now) terms.now k w)
        (λ r. StaysAt (words_of_side table.now.header table.now.words t a.now terms.now) (read table.now.header a.now) terms.now k w
        × ArePivotsAt (words_of_side table.now.header table.now.words t a.now terms.now) (read table.now.header a.now) terms.now k w r pivots.new) }
{
    let rows = size + 1;
    let part = &mut entries[..rows as usize * size as usize];
    fold_radical(
        table,
        field,
        a,
        terms,
        k,
        w,
        size,
        width,
        basis,
        places,
        rows,
        matrix,
        wide,
        other,
        marks,
        part,
        pivots,
        row,
        next,
        coordinates,
        spare,
    )?;
    let rank = echelon_rows(field, rows, size, part, pivots);
    Some(rank)
}

/// Passes the vertex `w` with the generators of term `k`, of which `met` are met before, and answers how many are met then; none where they are not the
/// canonical ones of what the term covers, or an arrow to `w` leads out of that.
fn meet_vertex(
    table: &Table,
    a: &Module,
    terms: &Seq<TermRows>,
    k: u32,
    w: u8,
    met: usize,
    matrix: &mut [u8],
    wide: &mut [u8],
    basis: &mut [u8],
    places: &mut [u32],
    other: &mut [u8],
    marks: &mut [u32],
    entries: &mut [u8],
    pivots: &mut [u32],
    row: &mut [u8],
    next: &mut [u8],
    coordinates: &mut [u8],
    spare: &mut [u8],
) -> Option<usize>
    requires table { IsTable table.now.header table.now.words }
    requires a { IsModule table.now.header.field (algebra_at a.now.side table.now.header).quiver a.now }
    requires terms { AreTerms table.now.words table.now.header a.now terms.now (suc k) }
    requires small { AreSmall table.now.words table.now.header a.now terms.now (suc k) }
    requires vertex { w < vertex_count table.now.header.quiver }
    requires matrix { length matrix.old ≡ 262144 }
    requires wide { length wide.old ≡ 524288 }
    requires basis { 262144 ≤ length basis.old }
    requires places { 512 ≤ length places.old }
    requires other { 262144 ≤ length other.old }
    requires marks { 512 ≤ length marks.old }
    requires entries { 262656 ≤ length entries.old }
    requires pivots { 513 ≤ length pivots.old }
    requires row { length row.old ≡ 512 }
    requires next { length next.old ≡ 512 }
    requires coordinates { length coordinates.old ≡ 512 }
    requires spare { length spare.old ≡ length table.now.words }
    ensures { (t : IsTable table.now.header table.now.words)
        → AreMetBefore (words_of_side table.now.header table.now.words t a.now terms.now) (read table.now.header a.now) terms.now k w zero met
        → MatchOption result
        (¬ StaysChosen (words_of_side table.now.header table.now.words t a.now terms.now) (read table.now.header a.now) terms.now k)
        (λ j. StaysAt (words_of_side table.now.header table.now.words t a.now terms.now) (read table.now.header a.now) terms.now k w
        × AreMetBefore (words_of_side table.now.header table.now.words t a.now terms.now) (read table.now.header a.now) terms.now k (w + 1) zero j) }
{
    let field = table.header().field;
    let width = target_dimension(table, a, terms, k as usize, w);
    let size = write_covered(
        table, a, terms, k, w, matrix, wide, basis, places, pivots, row, next, spare,
    );
    let rank = find_pivots(
        table,
        field,
        a,
        terms,
        k,
        w,
        size,
        width,
        basis,
        places,
        matrix,
        wide,
        other,
        marks,
        entries,
        pivots,
        row,
        next,
        coordinates,
        spare,
    )?;
    let term = &terms[k as usize];
    let met = meet_columns(term, w, size, width, basis, rank, pivots, met)?;
    Some(met)
}

/// Passes all vertices with the generators of term `k`, and answers how many are met; none where they are not the canonical ones of what the term covers,
/// or an arrow leads out of that.
fn meet_vertices(
    table: &Table,
    a: &Module,
    terms: &Seq<TermRows>,
    k: u32,
    matrix: &mut [u8],
    wide: &mut [u8],
    basis: &mut [u8],
    places: &mut [u32],
    other: &mut [u8],
    marks: &mut [u32],
    entries: &mut [u8],
    pivots: &mut [u32],
    row: &mut [u8],
    next: &mut [u8],
    coordinates: &mut [u8],
    spare: &mut [u8],
) -> Option<usize>
    requires table { IsTable table.now.header table.now.words }
    requires a { IsModule table.now.header.field (algebra_at a.now.side table.now.header).quiver a.now }
    requires terms { AreTerms table.now.words table.now.header a.now terms.now (suc k) }
    requires small { AreSmall table.now.words table.now.header a.now terms.now (suc k) }
    requires matrix { length matrix.old ≡ 262144 }
    requires wide { length wide.old ≡ 524288 }
    requires basis { 262144 ≤ length basis.old }
    requires places { 512 ≤ length places.old }
    requires other { 262144 ≤ length other.old }
    requires marks { 512 ≤ length marks.old }
    requires entries { 262656 ≤ length entries.old }
    requires pivots { 513 ≤ length pivots.old }
    requires row { length row.old ≡ 512 }
    requires next { length next.old ≡ 512 }
    requires coordinates { length coordinates.old ≡ 512 }
    requires spare { length spare.old ≡ length table.now.words }
    ensures { (t : IsTable table.now.header table.now.words)
        → MatchOption result
        (¬ StaysChosen (words_of_side table.now.header table.now.words t a.now terms.now) (read table.now.header a.now) terms.now k)
        (λ j. ArePassed (words_of_side table.now.header table.now.words t a.now terms.now) (read table.now.header a.now) terms.now k (vertex_count table.now.header.quiver) j) }
{
    let mut met = 0;
    for w in 0..table.header().quiver.vertices.len() {
        met = meet_vertex(
            table,
            a,
            terms,
            k,
            w as u8,
            met,
            matrix,
            wide,
            basis,
            places,
            other,
            marks,
            entries,
            pivots,
            row,
            next,
            coordinates,
            spare,
        )?;
    }
    Some(met)
}

/// Whether the generators of term `k` are the canonical ones of what it covers, out of which no arrow is to lead.
fn is_term_chosen(
    table: &Table,
    a: &Module,
    terms: &Seq<TermRows>,
    k: u32,
    matrix: &mut [u8],
    wide: &mut [u8],
    basis: &mut [u8],
    places: &mut [u32],
    other: &mut [u8],
    marks: &mut [u32],
    entries: &mut [u8],
    pivots: &mut [u32],
    row: &mut [u8],
    next: &mut [u8],
    coordinates: &mut [u8],
    spare: &mut [u8],
) -> bool
    requires table { IsTable table.now.header table.now.words }
    requires a { IsModule table.now.header.field (algebra_at a.now.side table.now.header).quiver a.now }
    requires terms { AreTerms table.now.words table.now.header a.now terms.now (suc k) }
    requires small { AreSmall table.now.words table.now.header a.now terms.now (suc k) }
    requires matrix { length matrix.old ≡ 262144 }
    requires wide { length wide.old ≡ 524288 }
    requires basis { 262144 ≤ length basis.old }
    requires places { 512 ≤ length places.old }
    requires other { 262144 ≤ length other.old }
    requires marks { 512 ≤ length marks.old }
    requires entries { 262656 ≤ length entries.old }
    requires pivots { 513 ≤ length pivots.old }
    requires row { length row.old ≡ 512 }
    requires next { length next.old ≡ 512 }
    requires coordinates { length coordinates.old ≡ 512 }
    requires spare { length spare.old ≡ length table.now.words }
    ensures { (t : IsTable table.now.header table.now.words)
        → MatchBool result
        (OfCovered (words_of_side table.now.header table.now.words t a.now terms.now) (read table.now.header a.now) terms.now k (AreCanonicalIn (words_of_side table.now.header table.now.words t a.now terms.now) (read table.now.header a.now) terms.now k))
        (¬ OfCovered (words_of_side table.now.header table.now.words t a.now terms.now) (read table.now.header a.now) terms.now k (AreCanonicalIn (words_of_side table.now.header table.now.words t a.now terms.now) (read table.now.header a.now) terms.now k)) }
{
    let passed = meet_vertices(
        table,
        a,
        terms,
        k,
        matrix,
        wide,
        basis,
        places,
        other,
        marks,
        entries,
        pivots,
        row,
        next,
        coordinates,
        spare,
    );
    match passed {
        Some(met) => met == terms[k as usize].vertices.len(),
        None => false,
    }
}

/// Whether the generators of each of the terms 0 to `n` are the canonical ones of what the term covers: the module, and then the kernels of the maps
/// before, out of which no arrow is to lead.
pub fn is_chosen(
    table: &Table,
    a: &Module,
    terms: &Seq<TermRows>,
    n: u32,
    matrix: &mut [u8],
    wide: &mut [u8],
    basis: &mut [u8],
    places: &mut [u32],
    other: &mut [u8],
    marks: &mut [u32],
    entries: &mut [u8],
    pivots: &mut [u32],
    row: &mut [u8],
    next: &mut [u8],
    coordinates: &mut [u8],
    spare: &mut [u8],
) -> bool
    requires table { IsTable table.now.header table.now.words }
    requires a { IsModule table.now.header.field (algebra_at a.now.side table.now.header).quiver a.now }
    requires terms { AreTerms table.now.words table.now.header a.now terms.now (suc n) }
    requires small { AreSmall table.now.words table.now.header a.now terms.now (suc n) }
    requires short { n < 65536 }
    requires matrix { length matrix.old ≡ 262144 }
    requires wide { length wide.old ≡ 524288 }
    requires basis { 262144 ≤ length basis.old }
    requires places { 512 ≤ length places.old }
    requires other { 262144 ≤ length other.old }
    requires marks { 512 ≤ length marks.old }
    requires entries { 262656 ≤ length entries.old }
    requires pivots { 513 ≤ length pivots.old }
    requires row { length row.old ≡ 512 }
    requires next { length next.old ≡ 512 }
    requires coordinates { length coordinates.old ≡ 512 }
    requires spare { length spare.old ≡ length table.now.words }
    ensures { (t : IsTable table.now.header table.now.words)
        → MatchBool result
        (IsChosen (words_of_side table.now.header table.now.words t a.now terms.now) (read table.now.header a.now) terms.now n)
        (¬ IsChosen (words_of_side table.now.header table.now.words t a.now terms.now) (read table.now.header a.now) terms.now n) }
{
    for k in 0..n + 1 {
        if !is_term_chosen(
            table,
            a,
            terms,
            k,
            matrix,
            wide,
            basis,
            places,
            other,
            marks,
            entries,
            pivots,
            row,
            next,
            coordinates,
            spare,
        ) {
            return false;
        }
    }
    true
}
