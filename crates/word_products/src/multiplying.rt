//! The products of words with arrows, by reduction.
ghost use Rattle.std.specs.Prelude.{ℕ, ◌≡◌, ◌<◌, ◌≤◌, ◌+◌, ◌*◌, ◌-◌, length, Contains, All, IfOk, OnOk, MatchOption, slice_index, slice_index_or, drop, ◌↔◌, IsTrue};
ghost use Rattle.quiver_paths.specs.declared.Path.{Path};
ghost use Rattle.quiver_paths.specs.PathOrder.{IsAscending};
ghost use Rattle.quiver_paths.specs.Quiver.{arrow_count};
ghost use Rattle.quiver_paths.specs.Path.{IsPath, path_length, concat, arrow_path};
ghost use Rattle.path_algebra.specs.declared.rules.Rule.{Rule};
ghost use Rattle.word_products.specs.declared.sparse.Entry.{Entry};
ghost use Rattle.word_products.specs.WordProducts.{KnowsProducts, CanAct, EndsWithArrows, IsNewProduct, front_before, IsPushed};

use crate::sparse::{Entry, SparseRows};
use crate::word_sums::Sum;
use path_algebra::{Header, Rule, path_place, then_arrow};
use quiver_paths::Path;
use seq::Seq;
use std::alloc::{AllocError, Global};

/// The rows of the products of the words with the arrows: for each word, in order, one for each arrow.
pub(crate) fn product_rows(
    alloc: Global,
    header: &Header,
    words: &[Path],
    rules: &[Rule],
) -> Result<SparseRows, AllocError>
    requires can { CanAct header.now words.now rules.now }
    ensures shape { IfOk result (λ s. s ≡ record { field = header.now.field; width = length words.now; rows = s.rows }) }
    ensures count { IfOk result (λ s. length s.rows ≡ length words.now * arrow_count header.now.quiver) }
    ensures products { IfOk result (λ s. KnowsProducts header.now words.now rules.now s.rows) }
{
    let mut rows = SparseRows::new(alloc, header.field, words.len());
    let mut sum = Sum::new(alloc, header.field, words.len())?;
    for i in 0..words.len() {
        add_products(alloc, header, words, rules, i, &mut rows, &mut sum)?;
    }
    Ok(rows)
}

/// Adds the products of the word at a place with the arrows.
fn add_products(
    alloc: Global,
    header: &Header,
    words: &[Path],
    rules: &[Rule],
    i: usize,
    rows: &mut SparseRows,
    sum: &mut Sum,
) -> Result<(), AllocError>
    requires can { CanAct header.now words.now rules.now }
    requires place { i < length words.now }
    requires shape { rows.old ≡ record { field = header.now.field; width = length words.now; rows = rows.old.rows } }
    requires count { length rows.old.rows ≡ i * arrow_count header.now.quiver }
    requires products { KnowsProducts header.now words.now rules.now rows.old.rows }
    requires sum { sum.old ≡ record { field = header.now.field; width = length words.now; sum = sum.old.sum } }
    ensures shape { OnOk result (rows.new ≡ record rows.old { rows = rows.new.rows }) }
    ensures count { OnOk result (length rows.new.rows ≡ (i + 1) * arrow_count header.now.quiver) }
    ensures products { OnOk result (KnowsProducts header.now words.now rules.now rows.new.rows) }
    ensures sum { OnOk result (sum.new ≡ record sum.old { sum = sum.new.sum }) }
{
    for a in 0..header.quiver.arrows.len() {
        add_product(alloc, header, words, rules, i, a, rows, sum)?;
    }
    Ok(())
}

/// Adds the product of the word at a place with an arrow.
fn add_product(
    alloc: Global,
    header: &Header,
    words: &[Path],
    rules: &[Rule],
    i: usize,
    a: usize,
    rows: &mut SparseRows,
    sum: &mut Sum,
) -> Result<(), AllocError>
    requires can { CanAct header.now words.now rules.now }
    requires place { i < length words.now }
    requires arrow { a < arrow_count header.now.quiver }
    requires shape { rows.old ≡ record { field = header.now.field; width = length words.now; rows = rows.old.rows } }
    requires count { length rows.old.rows ≡ i * arrow_count header.now.quiver + a }
    requires products { KnowsProducts header.now words.now rules.now rows.old.rows }
    requires sum { sum.old ≡ record { field = header.now.field; width = length words.now; sum = sum.old.sum } }
    ensures shape { OnOk result (rows.new ≡ record rows.old { rows = rows.new.rows }) }
    ensures count { OnOk result (length rows.new.rows ≡ length rows.old.rows + 1) }
    ensures products { OnOk result (KnowsProducts header.now words.now rules.now rows.new.rows) }
    ensures sum { OnOk result (sum.new ≡ record sum.old { sum = sum.new.sum }) }
{
    let word = &words[i];
    let arrow = &header.quiver.arrows[a];
    if word.end != arrow.from {
        return rows.push_row(&[]);
    }
    if word.arrows.len() + 1 >= header.bound as usize {
        return rows.push_row(&[]);
    }
    let path = then_arrow(alloc, &header.quiver, word, a as u8)?;
    match path_place(words, &path) {
        Some(place) => rows.push_row(&[Entry {
            coef: 1,
            word: place as u16,
        }]),
        None => add_rewritten(alloc, header, words, rules, i, a, &path, rows, sum),
    }
}

/// Adds the product of the word at a place with an arrow, which is a short path and no word: it ends with a tip, in whose place the tail is put.
fn add_rewritten(
    alloc: Global,
    header: &Header,
    words: &[Path],
    rules: &[Rule],
    i: usize,
    a: usize,
    path: &Path,
    rows: &mut SparseRows,
    sum: &mut Sum,
) -> Result<(), AllocError>
    requires can { CanAct header.now words.now rules.now }
    requires product { IsNewProduct header.now words.now i a path.now }
    requires shape { rows.old ≡ record { field = header.now.field; width = length words.now; rows = rows.old.rows } }
    requires count { length rows.old.rows ≡ i * arrow_count header.now.quiver + a }
    requires products { KnowsProducts header.now words.now rules.now rows.old.rows }
    requires sum { sum.old ≡ record { field = header.now.field; width = length words.now; sum = sum.old.sum } }
    ensures shape { OnOk result (rows.new ≡ record rows.old { rows = rows.new.rows }) }
    ensures count { OnOk result (length rows.new.rows ≡ length rows.old.rows + 1) }
    ensures products { OnOk result (KnowsProducts header.now words.now rules.now rows.new.rows) }
    ensures sum { OnOk result (sum.new ≡ record sum.old { sum = sum.new.sum }) }
{
    match rule_ending(rules, path) {
        None => rows.push_row(&[]),
        Some(k) => add_by_rule(alloc, header, words, rules, i, a, path, k, rows, sum),
    }
}

/// Adds the product of the word at a place with an arrow, which ends with the tip of a rule.
fn add_by_rule(
    alloc: Global,
    header: &Header,
    words: &[Path],
    rules: &[Rule],
    i: usize,
    a: usize,
    path: &Path,
    k: usize,
    rows: &mut SparseRows,
    sum: &mut Sum,
) -> Result<(), AllocError>
    requires can { CanAct header.now words.now rules.now }
    requires product { IsNewProduct header.now words.now i a path.now }
    requires rule { k < length rules.now }
    requires ends { (d : Rule) → EndsWithArrows (slice_index_or rules.now k d).tip path.now }
    requires shape { rows.old ≡ record { field = header.now.field; width = length words.now; rows = rows.old.rows } }
    requires count { length rows.old.rows ≡ i * arrow_count header.now.quiver + a }
    requires products { KnowsProducts header.now words.now rules.now rows.old.rows }
    requires sum { sum.old ≡ record { field = header.now.field; width = length words.now; sum = sum.old.sum } }
    ensures shape { OnOk result (rows.new ≡ record rows.old { rows = rows.new.rows }) }
    ensures count { OnOk result (length rows.new.rows ≡ length rows.old.rows + 1) }
    ensures products { OnOk result (KnowsProducts header.now words.now rules.now rows.new.rows) }
    ensures sum { OnOk result (sum.new ≡ record sum.old { sum = sum.new.sum }) }
{
    let rule = &rules[k];
    let front = front_of(alloc, path, &rule.tip)?;
    let place = match path_place(words, &front) {
        Some(place) => place,
        None => unreachable!(),
    };
    sum.of_terms(
        rows,
        header.quiver.arrows.len(),
        header.bound as usize,
        &rule.tip,
        rule.tail.terms.as_slice(),
        place,
    )?;
    push_sum(alloc, rows, sum)
}

/// The path before the tip that it ends with.
fn front_of(alloc: Global, path: &Path, tip: &Path) -> Result<Path, AllocError>
    requires { EndsWithArrows tip.now path.now }
    ensures { IfOk result (λ p. p ≡ front_before path.now tip.now) }
{
    let count = path.arrows.len() - tip.arrows.len();
    let mut arrows = Vec::with_capacity(alloc, count)?;
    arrows.extend_from_slice(&path.arrows.as_slice()[..count])?;
    Ok(Path {
        start: path.start,
        end: tip.start,
        arrows: Seq::from_vec(arrows),
    })
}

/// The place of a rule with whose tip the path ends.
fn rule_ending(rules: &[Rule], path: &Path) -> Option<usize>
    ensures { MatchOption result ((k : ℕ) (d : Rule) → k < length rules.now → EndsWithArrows (slice_index_or rules.now k d).tip path.now → ⊥)
        (λ k. (k < length rules.now) × ((d : Rule) → EndsWithArrows (slice_index_or rules.now k d).tip path.now)) }
{
    for (k, rule) in rules.iter().enumerate() {
        if ends_with(path, &rule.tip) {
            return Some(k);
        }
    }
    None
}

/// Whether the arrows of the path end with those of the tip.
fn ends_with(path: &Path, tip: &Path) -> bool
    ensures { IsTrue result ↔ EndsWithArrows tip.now path.now }
{
    if path.arrows.len() < tip.arrows.len() {
        return false;
    }
    let count = path.arrows.len() - tip.arrows.len();
    let last = &path.arrows.as_slice()[count..];
    last == tip.arrows.as_slice()
}

/// Adds the row of a sum, without its zeros. They are taken out of there.
fn push_sum(alloc: Global, rows: &mut SparseRows, sum: &mut Sum) -> Result<(), AllocError>
    requires field { rows.old.field ≡ sum.old.field }
    requires width { rows.old.width ≡ sum.old.width }
    ensures shape { OnOk result (rows.new ≡ record rows.old { rows = rows.new.rows }) }
    ensures sum { OnOk result (sum.new ≡ record sum.old { sum = sum.new.sum }) }
    ensures pushed { OnOk result (IsPushed rows.old.field rows.old.rows rows.new.rows sum.old.sum) }
{
    let entries = sum.take_entries(alloc)?;
    rows.push_row(&entries)
}
