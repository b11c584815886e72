//! Whether the relations and the paths of the bound's length act as zero on the words.
ghost use Rattle.std.specs.Prelude.{ℕ, ◌≡◌, ◌<◌, ◌≤◌, ◌+◌, ◌*◌, length, Contains, All, IfOk, OnOk, MatchOption, IsTrue, ◌↔◌, slice_index, slice_index_or, [], ◌∷◌, ◌++◌};
ghost use Rattle.linear_algebra.specs.Rows.{unit};
ghost use Rattle.quiver_paths.specs.declared.Path.{Path};
ghost use Rattle.quiver_paths.specs.Quiver.{arrow_count};
ghost use Rattle.quiver_paths.specs.Path.{path_length};
ghost use Rattle.path_algebra.specs.Rows.{path_at};
ghost use Rattle.path_algebra.specs.Reduction.{IsReduction};
ghost use Rattle.path_algebra.specs.BasisClauses.{ActionHolds};
ghost use Rattle.word_products.specs.WordProducts.{CanAct, AreEntriesOf};
ghost use Rattle.word_products.specs.Vanishing.{AreAllProducts, VanishesOn, RelationVanishes, RelationsVanish, LongVanish, SpansImages, SpansTrivial, HasImages, IsRowAt, AreZero};

use crate::closure::Closure;
use crate::multiplying::product_rows;
use crate::sparse::{Entry, SparseRows, entries_of};
use crate::word_sums::Sum;
use path_algebra::{Header, Relation, Rule};
use quiver_paths::Path;
use std::alloc::{AllocError, Global};

/// Whether the relations and the paths of the bound's length act as zero on the words, arrows acting by reduction.
fn action_holds(
    alloc: Global,
    header: &Header,
    words: &[Path],
    rules: &[Rule],
    rows: &SparseRows,
) -> Result<bool, AllocError>
    requires can { CanAct header.now words.now rules.now }
    requires rows { AreAllProducts header.now words.now rules.now rows.now }
    ensures { IfOk result (λ b. IsTrue b ↔ ActionHolds header.now words.now rules.now) }
{
    let mut sum = Sum::new(alloc, header.field, words.len())?;
    let relations = relations_vanish(header, words, rules, rows, &mut sum)?;
    if !relations {
        return Ok(false);
    }
    let long = long_paths_vanish(alloc, header, words, rules, rows, &mut sum)?;
    Ok(long)
}

/// Whether all relations act as zero on all words.
fn relations_vanish(
    header: &Header,
    words: &[Path],
    rules: &[Rule],
    rows: &SparseRows,
    sum: &mut Sum,
) -> Result<bool, AllocError>
    requires can { CanAct header.now words.now rules.now }
    requires rows { AreAllProducts header.now words.now rules.now rows.now }
    requires sum { sum.old ≡ record { field = header.now.field; width = length words.now; sum = sum.old.sum } }
    ensures sum { OnOk result (sum.new ≡ record sum.old { sum = sum.new.sum }) }
    ensures vanish { IfOk result (λ b. (becomes : Path → Path → ℕ) → IsReduction header.now rules.now becomes → IsTrue b ↔ RelationsVanish header.now words.now becomes) }
{
    for relation in header.relations.as_slice() {
        let vanishes = relation_vanishes(header, words, rules, rows, relation, sum)?;
        if !vanishes {
            return Ok(false);
        }
    }
    Ok(true)
}

/// Whether a relation acts as zero on all words.
fn relation_vanishes(
    header: &Header,
    words: &[Path],
    rules: &[Rule],
    rows: &SparseRows,
    relation: &Relation,
    sum: &mut Sum,
) -> Result<bool, AllocError>
    requires can { CanAct header.now words.now rules.now }
    requires rows { AreAllProducts header.now words.now rules.now rows.now }
    requires relation { Contains header.now.relations relation.now }
    requires sum { sum.old ≡ record { field = header.now.field; width = length words.now; sum = sum.old.sum } }
    ensures sum { OnOk result (sum.new ≡ record sum.old { sum = sum.new.sum }) }
    ensures vanishes { IfOk result (λ b. (becomes : Path → Path → ℕ) → IsReduction header.now rules.now becomes → IsTrue b ↔ RelationVanishes header.now words.now becomes relation.now) }
{
    for i in 0..words.len() {
        let vanishes = vanishes_on(header, words, rules, rows, relation, i, sum)?;
        if !vanishes {
            return Ok(false);
        }
    }
    Ok(true)
}

/// Whether a relation acts as zero on the word at a place.
fn vanishes_on(
    header: &Header,
    words: &[Path],
    rules: &[Rule],
    rows: &SparseRows,
    relation: &Relation,
    i: usize,
    sum: &mut Sum,
) -> Result<bool, AllocError>
    requires can { CanAct header.now words.now rules.now }
    requires rows { AreAllProducts header.now words.now rules.now rows.now }
    requires relation { Contains header.now.relations relation.now }
    requires place { i < length words.now }
    requires sum { sum.old ≡ record { field = header.now.field; width = length words.now; sum = sum.old.sum } }
    ensures sum { OnOk result (sum.new ≡ record sum.old { sum = sum.new.sum }) }
    ensures vanishes { IfOk result (λ b. (becomes : Path → Path → ℕ) → IsReduction header.now rules.now becomes → IsTrue b ↔ VanishesOn header.now words.now becomes relation.now (path_at words.now i)) }
{
    let first = &relation.terms[0];
    sum.of_terms(
        rows,
        header.quiver.arrows.len(),
        header.bound as usize,
        &first.path,
        relation.terms.as_slice(),
        i,
    )?;
    Ok(sum.is_zero())
}

/// Whether all entries of a row are zero.
fn is_zero(row: &[u8]) -> bool
    ensures { IsTrue result ↔ ((j : ℕ) → slice_index row.now j ≡ 0) }
{
    for entry in row {
        if *entry != 0 {
            return false;
        }
    }
    true
}

/// Whether the paths of the bound's length act as zero on all words.
fn long_paths_vanish(
    alloc: Global,
    header: &Header,
    words: &[Path],
    rules: &[Rule],
    rows: &SparseRows,
    sum: &mut Sum,
) -> Result<bool, AllocError>
    requires can { CanAct header.now words.now rules.now }
    requires rows { AreAllProducts header.now words.now rules.now rows.now }
    requires sum { sum.old ≡ record { field = header.now.field; width = length words.now; sum = sum.old.sum } }
    ensures { IfOk result (λ b. (becomes : Path → Path → ℕ) → IsReduction header.now rules.now becomes → IsTrue b ↔ LongVanish header.now words.now becomes) }
{
    let mut span = trivial_words(alloc, header, words, rules)?;
    for k in 0..header.bound {
        span = images(alloc, header, words, rules, rows, k, &span, sum)?;
    }
    Ok(all_zero(&span))
}

/// Whether all rows are zero.
fn all_zero(span: &Closure) -> bool
    ensures { IsTrue result ↔ AreZero span.now.field span.now.columns span.now.rows }
{
    for i in 0..span.len() {
        if !is_zero(span.row(i)) {
            return false;
        }
    }
    true
}

/// The rows of the trivial words.
fn trivial_words(
    alloc: Global,
    header: &Header,
    words: &[Path],
    rules: &[Rule],
) -> Result<Closure, AllocError>
    requires can { CanAct header.now words.now rules.now }
    ensures { IfOk result (SpansImages header.now words.now rules.now 0) }
{
    let mut span = Closure::new(alloc, header.field, words.len() as u32)?;
    for (i, word) in words.iter().enumerate() {
        if word.arrows.is_empty() {
            push_word(alloc, header, words, rules, i, &mut span)?;
        }
    }
    Ok(span)
}

/// Adds the row of the word at a place, which is trivial.
fn push_word(
    alloc: Global,
    header: &Header,
    words: &[Path],
    rules: &[Rule],
    i: usize,
    span: &mut Closure,
) -> Result<(), AllocError>
    requires can { CanAct header.now words.now rules.now }
    requires place { i < length words.now }
    requires trivial { path_length (path_at words.now i) ≡ 0 }
    requires span { SpansTrivial header.now words.now rules.now i span.old }
    ensures { OnOk result (SpansTrivial header.now words.now rules.now (i + 1) span.new) }
{
    let row = unit_row(alloc, words.len(), i)?;
    span.push(&row)?;
    Ok(())
}

/// The row of the word at a place.
fn unit_row(alloc: Global, width: usize, i: usize) -> Result<Vec<u8>, AllocError>
    requires { i < width }
    ensures { IfOk result (λ row. row.items ≡ unit width i) }
{
    let mut row = vec![in alloc; 0u8; width]?;
    row[i] = 1;
    Ok(row)
}

/// The images of the rows under the arrows: the images of the trivial words under paths of one arrow more.
fn images(
    alloc: Global,
    header: &Header,
    words: &[Path],
    rules: &[Rule],
    rows: &SparseRows,
    k: u32,
    span: &Closure,
    sum: &mut Sum,
) -> Result<Closure, AllocError>
    requires can { CanAct header.now words.now rules.now }
    requires rows { AreAllProducts header.now words.now rules.now rows.now }
    requires below { k < header.now.bound }
    requires span { SpansImages header.now words.now rules.now k span.now }
    requires sum { sum.old ≡ record { field = header.now.field; width = length words.now; sum = sum.old.sum } }
    ensures sum { OnOk result (sum.new ≡ record sum.old { sum = sum.new.sum }) }
    ensures images { IfOk result (SpansImages header.now words.now rules.now (k + 1)) }
{
    let mut next = Closure::new(alloc, header.field, words.len() as u32)?;
    for i in 0..span.len() {
        add_images(
            alloc, header, words, rules, rows, k, span, i, &mut next, sum,
        )?;
    }
    next.reduce();
    Ok(next)
}

/// Adds the images of a row under the arrows.
fn add_images(
    alloc: Global,
    header: &Header,
    words: &[Path],
    rules: &[Rule],
    rows: &SparseRows,
    k: u32,
    span: &Closure,
    i: u32,
    next: &mut Closure,
    sum: &mut Sum,
) -> Result<(), AllocError>
    requires can { CanAct header.now words.now rules.now }
    requires rows { AreAllProducts header.now words.now rules.now rows.now }
    requires below { k < header.now.bound }
    requires span { SpansImages header.now words.now rules.now k span.now }
    requires place { i < length span.now.rows }
    requires next { HasImages header.now words.now rules.now rows.now k span.now.rows (i * arrow_count header.now.quiver) next.old }
    requires sum { sum.old ≡ record { field = header.now.field; width = length words.now; sum = sum.old.sum } }
    ensures sum { OnOk result (sum.new ≡ record sum.old { sum = sum.new.sum }) }
    ensures next { OnOk result (HasImages header.now words.now rules.now rows.now k span.now.rows ((i + 1) * arrow_count header.now.quiver) next.new) }
{
    let row = span.row(i);
    let entries = entries_of(alloc, row)?;
    for a in 0..header.quiver.arrows.len() {
        add_image(
            header, words, rules, rows, k, span, i, row, &entries, a, next, sum,
        )?;
    }
    Ok(())
}

/// Adds the image of the row at a place under an arrow.
fn add_image(
    header: &Header,
    words: &[Path],
    rules: &[Rule],
    rows: &SparseRows,
    k: u32,
    span: &Closure,
    i: u32,
    row: &[u8],
    entries: &[Entry],
    a: usize,
    next: &mut Closure,
    sum: &mut Sum,
) -> Result<(), AllocError>
    requires can { CanAct header.now words.now rules.now }
    requires rows { AreAllProducts header.now words.now rules.now rows.now }
    requires below { k < header.now.bound }
    requires span { SpansImages header.now words.now rules.now k span.now }
    requires place { i < length span.now.rows }
    requires row { IsRowAt span.now i row.now }
    requires entries { AreEntriesOf span.now.field row.now (length row.now) entries.now }
    requires arrow { a < arrow_count header.now.quiver }
    requires next { HasImages header.now words.now rules.now rows.now k span.now.rows (i * arrow_count header.now.quiver + a) next.old }
    requires sum { sum.old ≡ record { field = header.now.field; width = length words.now; sum = sum.old.sum } }
    ensures sum { OnOk result (sum.new ≡ record sum.old { sum = sum.new.sum }) }
    ensures next { OnOk result (HasImages header.now words.now rules.now rows.now k span.now.rows (i * arrow_count header.now.quiver + a + 1) next.new) }
{
    sum.of_entries(rows, header.quiver.arrows.len(), a, entries)?;
    if !sum.is_zero() {
        next.push(sum.row())?;
    }
    Ok(())
}

/// The rows of the products of the words with the arrows, where the relations and the paths of the bound's length act as zero on the words.
pub fn products_if_action_holds(
    alloc: Global,
    header: &Header,
    words: &[Path],
    rules: &[Rule],
) -> Result<Option<SparseRows>, AllocError>
    requires { CanAct header.now words.now rules.now }
    ensures { IfOk result (λ o. MatchOption o (ActionHolds header.now words.now rules.now → ⊥)
        (λ rows. ActionHolds header.now words.now rules.now × AreAllProducts header.now words.now rules.now rows)) }
{
    let rows = product_rows(alloc, header, words, rules)?;
    if action_holds(alloc, header, words, rules, &rows)? {
        Ok(Some(rows))
    } else {
        Ok(None)
    }
}
