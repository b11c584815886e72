//! The generators of a term at a vertex, in coordinates over what the term covers, folded into rows in lent memory.
ghost use Rattle.std.specs.Prelude.{ℕ, ⊤, ◌≡◌, ◌<◌, ◌≤◌, ◌+◌, ◌*◌, suc, length, slice_index, MatchBool, MatchOption};
ghost use Rattle.fp_linear.specs.Slices.{AreElements};
ghost use Rattle.fp_linear.specs.Meeting.{IsClearFrom};
ghost use Rattle.quiver_paths.specs.Quiver.{vertex_count};
ghost use Rattle.alg_table.specs.TableView.{IsTable};
ghost use Rattle.projectives.specs.Generators.{count_at};
ghost use Rattle.projectives.specs.CanonicalCover.{vertex_in};
ghost use Rattle.module_types.specs.Readings.{read};
ghost use Rattle.module_types.specs.TermMatrices.{count};
ghost use Rattle.claim_conditions.specs.Terms.{term_at};
ghost use Rattle.module_checks.specs.Room.{IsRoom};
ghost use Rattle.module_checks.specs.Commuting.{AsksMore};
ghost use Rattle.term_rows.specs.SumDims.{AreTerms};
ghost use Rattle.resolution_checks.specs.Room.{AreSmall};
ghost use Rattle.resolution_checks.specs.Steps.{words_of_side};
ghost use Rattle.cover_checks.specs.Folds.{IsBasisAt, LiesWhere, LieBelow, GeneratorKilled, GeneratorsKilled, HoldsRadical, AreIndependentWhere};

use crate::copying::copy_part;
use crate::taking::fold_coordinates;
use alg_table::Table;
use fp_linear::{Field, echelon_rows};
use module_checks::{clear, unit_entry};
use module_types::{Module, TermRows};
use seq::Seq;

/// How many of the vertices are `w`.
fn count_vertices(vertices: &Seq<u8>, w: u8) -> usize
    ensures count { result ≡ count_at (length vertices.now) (vertex_in vertices.now) w }
    ensures fits { result ≤ length vertices.now }
{
    let mut count = 0;
    for j in 0..vertices.len() {
        count += unit_entry(vertices[j] as u32, w as u32) as usize;
    }
    count
}

/// Folds the coordinates of generator `j` of term `k`, where it is at the vertex `w`, into the rows, of which the first `used` are taken, and answers how
/// many are taken then; none where it does not lie in what the term covers, which has the basis of `size` rows of `width` numbers at `w`.
fn fold_generator(
    table: &Table,
    field: Field,
    a: &Module,
    terms: &Seq<TermRows>,
    k: u32,
    w: u8,
    j: usize,
    size: u32,
    width: usize,
    basis: &[u8],
    places: &[u32],
    rows: u32,
    used: u32,
    entries: &mut [u8],
    pivots: &mut [u32],
    row: &mut [u8],
    coordinates: &mut [u8],
) -> Option<u32>
    requires field { field ≡ table.now.header.field }
    requires terms { AreTerms table.now.words table.now.header a.now terms.now (suc k) }
    requires small { AreSmall table.now.words table.now.header a.now terms.now (suc k) }
    requires vertex { w < vertex_count table.now.header.quiver }
    requires generator { j < count (term_at terms.now k) }
    requires few { size ≤ 512 }
    requires width { width ≤ 512 }
    requires basis { size * width ≤ length basis.now }
    requires basis_elements { AreElements field basis.now }
    requires places { 512 ≤ length places.now }
    requires inside { (i : ℕ) → i < size → slice_index places.now i < width }
    requires room { IsRoom size rows entries.old pivots.old }
    requires elements { AreElements field entries.old }
    requires clear { IsClearFrom (used * size) entries.old }
    requires used { used ≤ rows }
    requires row { length row.old ≡ 512 }
    requires coordinates { length coordinates.old ≡ 512 }
    ensures elements { AreElements field entries.new }
    ensures used { MatchOption result ⊤ (λ u. (u ≤ rows) × IsClearFrom (u * size) entries.new) }
    ensures folded { (t : IsTable table.now.header table.now.words)
        → IsBasisAt (words_of_side table.now.header table.now.words t a.now terms.now) (read table.now.header a.now) terms.now k w size width basis.now places.now
        → MatchOption result
        (¬ LiesWhere (words_of_side table.now.header table.now.words t a.now terms.now) (read table.now.header a.now) terms.now k w j)
        (λ u. LiesWhere (words_of_side table.now.header table.now.words t a.now terms.now) (read table.now.header a.now) terms.now k w j
        × AsksMore field size rows entries.old entries.new (GeneratorKilled (words_of_side table.now.header table.now.words t a.now terms.now) (read table.now.header a.now) terms.now k w j)) }
{
    let term = &terms[k as usize];
    let vertex = term.vertices[j];
    if vertex != w {
        return Some(used);
    }
    let image = &term.images[j];
    clear(row);
    copy_part(image.as_slice(), 0, row, 0, image.len());
    fold_coordinates(
        field,
        size,
        width,
        basis,
        places,
        row,
        rows,
        used,
        entries,
        pivots,
        coordinates,
    )
}

/// Folds the coordinates of all generators of term `k` at the vertex `w` into the rows, and answers how many are taken then; none where one of them does
/// not lie in what the term covers.
fn fold_generators(
    table: &Table,
    field: Field,
    a: &Module,
    terms: &Seq<TermRows>,
    k: u32,
    w: u8,
    size: u32,
    width: usize,
    basis: &[u8],
    places: &[u32],
    rows: u32,
    used: u32,
    entries: &mut [u8],
    pivots: &mut [u32],
    row: &mut [u8],
    coordinates: &mut [u8],
) -> Option<u32>
    requires field { field ≡ table.now.header.field }
    requires terms { AreTerms table.now.words table.now.header a.now terms.now (suc k) }
    requires small { AreSmall table.now.words table.now.header a.now terms.now (suc k) }
    requires vertex { w < vertex_count table.now.header.quiver }
    requires few { size ≤ 512 }
    requires width { width ≤ 512 }
    requires basis { size * width ≤ length basis.now }
    requires basis_elements { AreElements field basis.now }
    requires places { 512 ≤ length places.now }
    requires inside { (i : ℕ) → i < size → slice_index places.now i < width }
    requires room { IsRoom size rows entries.old pivots.old }
    requires elements { AreElements field entries.old }
    requires clear { IsClearFrom (used * size) entries.old }
    requires used { used ≤ rows }
    requires row { length row.old ≡ 512 }
    requires coordinates { length coordinates.old ≡ 512 }
    ensures elements { AreElements field entries.new }
    ensures used { MatchOption result ⊤ (λ u. (u ≤ rows) × IsClearFrom (u * size) entries.new) }
    ensures folded { (t : IsTable table.now.header table.now.words)
        → IsBasisAt (words_of_side table.now.header table.now.words t a.now terms.now) (read table.now.header a.now) terms.now k w size width basis.now places.now
        → MatchOption result
        (¬ LieBelow (words_of_side table.now.header table.now.words t a.now terms.now) (read table.now.header a.now) terms.now k w (count (term_at terms.now k)))
        (λ u. LieBelow (words_of_side table.now.header table.now.words t a.now terms.now) (read table.now.header a.now) terms.now k w (count (term_at terms.now k))
        × AsksMore field size rows entries.old entries.new (GeneratorsKilled (words_of_side table.now.header table.now.words t a.now terms.now) (read table.now.header a.now) terms.now k w (count (term_at terms.now k)))) }
{
    let mut used = used;
    let term = &terms[k as usize];
    for j in 0..term.vertices.len() {
        used = fold_generator(
            table,
            field,
            a,
            terms,
            k,
            w,
            j,
            size,
            width,
            basis,
            places,
            rows,
            used,
            entries,
            pivots,
            row,
            coordinates,
        )?;
    }
    Some(used)
}

/// Whether the generators of term `k` at the vertex `w` lie in what the term covers and are independent modulo its radical, whose reduced rows, `used` of
/// them, stand first among the rows.
pub fn are_independent_at(
    table: &Table,
    field: Field,
    a: &Module,
    terms: &Seq<TermRows>,
    k: u32,
    w: u8,
    size: u32,
    width: usize,
    basis: &[u8],
    places: &[u32],
    rows: u32,
    used: u32,
    entries: &mut [u8],
    pivots: &mut [u32],
    row: &mut [u8],
    coordinates: &mut [u8],
) -> bool
    requires field { field ≡ table.now.header.field }
    requires terms { AreTerms table.now.words table.now.header a.now terms.now (suc k) }
    requires small { AreSmall table.now.words table.now.header a.now terms.now (suc k) }
    requires vertex { w < vertex_count table.now.header.quiver }
    requires few { size ≤ 512 }
    requires width { width ≤ 512 }
    requires basis { size * width ≤ length basis.now }
    requires basis_elements { AreElements field basis.now }
    requires places { 512 ≤ length places.now }
    requires inside { (i : ℕ) → i < size → slice_index places.now i < width }
    requires room { IsRoom size rows entries.old pivots.old }
    requires elements { AreElements field entries.old }
    requires clear { IsClearFrom (used * size) entries.old }
    requires used { used ≤ rows }
    requires row { length row.old ≡ 512 }
    requires coordinates { length coordinates.old ≡ 512 }
    ensures { (t : IsTable table.now.header table.now.words)
        → IsBasisAt (words_of_side table.now.header table.now.words t a.now terms.now) (read table.now.header a.now) terms.now k w size width basis.now places.now
        → HoldsRadical (words_of_side table.now.header table.now.words t a.now terms.now) (read table.now.header a.now) terms.now k w size rows used entries.old
        → MatchBool result
        (AreIndependentWhere (words_of_side table.now.header table.now.words t a.now terms.now) (read table.now.header a.now) terms.now k w)
        (¬ AreIndependentWhere (words_of_side table.now.header table.now.words t a.now terms.now) (read table.now.header a.now) terms.now k w) }
{
    let Some(_) = fold_generators(
        table,
        field,
        a,
        terms,
        k,
        w,
        size,
        width,
        basis,
        places,
        rows,
        used,
        entries,
        pivots,
        row,
        coordinates,
    ) else {
        return false;
    };
    let rank = echelon_rows(field, rows, size, entries, pivots) as usize;
    let term = &terms[k as usize];
    let count = count_vertices(&term.vertices, w);
    if rank < count {
        return false;
    }
    if rank - count != used as usize {
        return false;
    }
    true
}
