//! The reduced rules of an ideal, and the table of the quotient.
ghost use Rattle.std.specs.Prelude.{ℕ, ◌≡◌, ◌<◌, ◌≤◌, ◌+◌, ◌^◌, List, length, slice_index_or, IfOk, IfErr, IfSome, IfNone, OnOk};
ghost use Rattle.std.specs.BinaryHeap.{heap_items};
ghost use Rattle.quiver_paths.specs.declared.PathError.TheVariants.{PathLimit, NoMemory};
ghost use Rattle.quiver_paths.specs.declared.Path.{Path};
ghost use Rattle.quiver_paths.specs.PathList.{path_count, saturated, ListsPathsBelow};
ghost use Rattle.path_algebra.specs.Allowed.{IsAllowed};
ghost use Rattle.path_algebra.specs.Rules.{AreReducedRules};
ghost use Rattle.path_algebra.specs.Occurring.{TipsAscend};
ghost use Rattle.path_algebra.specs.BasisClauses.{IsBasisClaim, MeetsClauses};
ghost use Rattle.path_reduction.specs.Gaps.{AreTidy};
ghost use Rattle.path_reduction.specs.Derived.{IsDerivation, AreDerived};
ghost use Rattle.path_basis.specs.Completing.{IsCompletion, IsSame, IsClosed};
ghost use Rattle.path_basis.specs.Sifting.{AreSifted};
ghost use Rattle.path_basis.specs.Used.{HasNoUnusedStep};
ghost use Rattle.path_basis.specs.Results.{IsResult};

use crate::completion::{Completion, complete, from_relations, resolve_first_gap};
use crate::pruning::drop_unused_steps;
use crate::tails::reduce_tails;
use alg_table::{CheckBasisError, Table, check_basis};
use path_algebra::{Header, Rule, Step, has_tip};
use path_reduction::ShortPaths;
use quiver_paths::{Path, PathError, paths_below};
use seq::Seq;
use std::alloc::{AllocError, Global};

/// The table of an algebra, with the reduced rules of its ideal, by ascending tips, and the steps that derive them from the relations; each step
/// is that of a rule, or a later one names it.
#[derive(Drop)]
pub struct Reduced {
    pub table: Table,
    pub steps: Seq<Step>,
    pub rules: Seq<Rule>,
}

/// The reduced rules, each with its derivation, and the table over the normal words. (Green's reduced Gröbner bases for path algebras.)
///
/// `PathLimit` comes exactly where more than 4,096 paths are shorter than the bound.
pub fn reduce_basis(alloc: Global, header: &Header) -> Result<Reduced, PathError>
    requires { IsAllowed header.now }
    ensures header { IfOk result (λ r. r.table.header ≡ header.now) }
    ensures rules { IfOk result (λ r. AreReducedRules header.now r.rules) }
    ensures claim { IfOk result (λ r. IsBasisClaim header.now r.table.words r.steps r.rules) }
    ensures holds { IfOk result (λ r. MeetsClauses header.now r.table.words r.steps r.rules) }
    ensures used { IfOk result (λ r. HasNoUnusedStep r.steps r.rules) }
    ensures few_steps { IfOk result (λ r. length r.steps < 2 ^ 32) }
    ensures few_rules { IfOk result (λ r. length r.rules ≤ 4096) }
    ensures within { OnOk result (path_count header.now.quiver header.now.bound ≤ 4096) }
    ensures refused { 4096 < path_count header.now.quiver header.now.bound → result ≡ Err (PathLimit (saturated (path_count header.now.quiver header.now.bound))) }
    ensures memory { path_count header.now.quiver header.now.bound ≤ 4096 → IfErr result (λ e. e ≡ NoMemory) }
{
    let paths = paths_below(alloc, &header.quiver, header.bound, 4096)?;
    let reduced = complete_basis(alloc, header, &paths)?;
    Ok(reduced)
}

/// Completes the relations until what comes of them meets the conditions on a basis.
fn complete_basis(alloc: Global, header: &Header, paths: &[Path]) -> Result<Reduced, AllocError>
    requires allowed { IsAllowed header.now }
    requires few { path_count header.now.quiver header.now.bound ≤ 4096 }
    requires paths { ListsPathsBelow header.now.quiver header.now.bound paths.now }
    requires few_paths { length paths.now ≤ 4096 }
    ensures { IfOk result (IsResult header.now) }
{
    let space = ShortPaths::new(alloc, header)?;
    let mut state = from_relations(alloc, header, &space)?;
    'gaps: loop {
        complete(alloc, header, &space, &mut state)?;
        if let Some(reduced) = basis_if_holds(alloc, header, &space, &mut state, paths)? {
            return Ok(reduced);
        }
        resolve_first_gap(alloc, header, &space, &mut state)?;
    }
}

/// What the rules give once their tails are reduced, where that meets the conditions on a basis; it does where the rules have no gap.
fn basis_if_holds(
    alloc: Global,
    header: &Header,
    space: &ShortPaths,
    state: &mut Completion,
    paths: &[Path],
) -> Result<Option<Reduced>, AllocError>
    requires allowed { IsAllowed header.now }
    requires few { path_count header.now.quiver header.now.bound ≤ 4096 }
    requires space { ListsPathsBelow header.now.quiver header.now.bound space.now }
    requires completion { IsCompletion header.now state.old.rules.items state.old.removed.items state.old.steps.items }
    requires paths { ListsPathsBelow header.now.quiver header.now.bound paths.now }
    requires few_paths { length paths.now ≤ 4096 }
    ensures same { OnOk result (IsSame state.old.rules.items state.old.removed.items (heap_items state.old.obstructions) state.new.rules.items state.new.removed.items (heap_items state.new.obstructions)) }
    ensures steps { OnOk result (state.new.steps.items ≡ state.old.steps.items) }
    ensures holds { IfOk result (λ found. IfSome found (IsResult header.now)) }
    ensures gaps { IfOk result (λ found. IfNone found (IsClosed header.now state.old.rules.items → ⊥)) }
{
    let (rules, steps) = reduced_rules(alloc, header, space, state)?;
    let words = words_among(alloc, &rules, paths)?;
    match check_basis(alloc, header, &words, &steps, &rules) {
        Ok(table) => Ok(Some(Reduced {
            table,
            steps: Seq::from_vec(steps),
            rules: Seq::from_vec(rules),
        })),
        Err(CheckBasisError::Fault(_)) => Ok(None),
        Err(CheckBasisError::NoMemory) => Err(AllocError),
    }
}

/// The rules with reduced tails, which are the reduced rules where the rules have no gap, and the steps that derive them, of which none is
/// unused.
fn reduced_rules(
    alloc: Global,
    header: &Header,
    space: &ShortPaths,
    state: &mut Completion,
) -> Result<(Vec<Rule>, Vec<Step>), AllocError>
    requires allowed { IsAllowed header.now }
    requires few { path_count header.now.quiver header.now.bound ≤ 4096 }
    requires space { ListsPathsBelow header.now.quiver header.now.bound space.now }
    requires completion { IsCompletion header.now state.old.rules.items state.old.removed.items state.old.steps.items }
    ensures same { OnOk result (IsSame state.old.rules.items state.old.removed.items (heap_items state.old.obstructions) state.new.rules.items state.new.removed.items (heap_items state.new.obstructions)) }
    ensures steps { OnOk result (state.new.steps.items ≡ state.old.steps.items) }
    ensures tidy { IfOk result (λ r. AreTidy header.now r.0.items) }
    ensures closed { IfOk result (λ r. IsClosed header.now state.old.rules.items → AreReducedRules header.now r.0.items) }
    ensures lawful { IfOk result (λ r. IsDerivation header.now r.1.items) }
    ensures derived { IfOk result (λ r. AreDerived header.now r.1.items r.0.items) }
    ensures used { IfOk result (λ r. HasNoUnusedStep r.1.items r.0.items) }
    ensures few_rules { IfOk result (λ r. length r.0.items ≤ 4096) }
    ensures few_steps { IfOk result (λ r. length r.1.items < 2 ^ 32) }
{
    let mark = state.steps.len();
    let reduced = reduce_tails(alloc, header, space, &state.rules, &mut state.steps)?;
    let (rules, steps) = drop_unused_steps(alloc, reduced, &state.steps)?;
    state.steps.truncate(mark);
    Ok((rules, steps))
}

/// The paths without a tip.
fn words_among(alloc: Global, rules: &[Rule], paths: &[Path]) -> Result<Vec<Path>, AllocError>
    requires { TipsAscend rules.now }
    ensures { IfOk result (λ words. AreSifted rules.now paths.now (length paths.now) words.items) }
{
    let mut words = Vec::new(alloc);
    for path in paths {
        push_word(rules, path, &mut words)?;
    }
    Ok(words)
}

/// Adds the path, if it has no tip.
fn push_word(rules: &[Rule], path: &Path, words: &mut Vec<Path>) -> Result<(), AllocError>
    requires { TipsAscend rules.now }
    ensures { (paths : List Path) (k : ℕ) → k < length paths → path.now ≡ slice_index_or paths k path.now → AreSifted rules.now paths k words.old.items → OnOk result (AreSifted rules.now paths (k + 1) words.new.items) }
{
    if has_tip(rules, path.arrows.as_slice()) {
        return Ok(());
    }
    words.push(path.clone()?)?;
    Ok(())
}
