//! Elements by their coefficients at the short paths, in the order of the paths.
ghost use Rattle.std.specs.Prelude.{ℕ, ◌≡◌, ◌<◌, ◌≤◌, ◌++◌, ◌∷◌, [], List, length, All, IfOk, OnOk, IfSome, MatchOption, slice_index, slice_set};
ghost use Rattle.linear_algebra.specs.Field.{order, add};
ghost use Rattle.linear_algebra.specs.Rows.{IsRow};
ghost use Rattle.quiver_paths.specs.declared.Path.{Path};
ghost use Rattle.quiver_paths.specs.PathList.{ListsPathsBelow};
ghost use Rattle.path_algebra.specs.declared.Term.{Term};
ghost use Rattle.path_algebra.specs.declared.Header.{Header};
ghost use Rattle.path_algebra.specs.Elements.{sum_of_terms};
ghost use Rattle.path_algebra.specs.Rules.{AreElementTerms};
ghost use Rattle.path_algebra.specs.ElementTerms.{AreTermsOf};
ghost use Rattle.path_reduction.specs.Reducing.{row_element, HoldsElement, AreZeros, IsLastPlace, IsAdded, AreMet, multiple_between};

use crate::short_paths::ShortPaths;
use fp_linear::Field;
use path_algebra::{Header, Term};
use quiver_paths::Path;
use std::alloc::{AllocError, Global};

/// The coefficients of an element that is given by terms.
pub(crate) fn coefs_of(
    alloc: Global,
    header: &Header,
    space: &ShortPaths,
    terms: &[Term],
) -> Result<Vec<u8>, AllocError>
    requires space { ListsPathsBelow header.now.quiver header.now.bound space.now }
    requires terms { AreElementTerms header.now terms.now }
    ensures { IfOk result (λ coefs. HoldsElement header.now space.now (sum_of_terms header.now.field header.now.bound terms.now) coefs.items) }
{
    let mut coefs = vec![in alloc; 0u8; space.len()]?;
    add_terms(header, space, terms, &mut coefs);
    Ok(coefs)
}

/// Adds terms to no coefficients.
fn add_terms(header: &Header, space: &ShortPaths, terms: &[Term], coefs: &mut [u8])
    requires space { ListsPathsBelow header.now.quiver header.now.bound space.now }
    requires terms { AreElementTerms header.now terms.now }
    requires row { IsRow header.now.field (length space.now) coefs.old }
    requires none { (p : Path) → row_element header.now space.now coefs.old p ≡ 0 }
    ensures { HoldsElement header.now space.now (sum_of_terms header.now.field header.now.bound terms.now) coefs.new }
{
    for term in terms {
        let place = space.place(&term.path);
        add_at(header.field, Some(place), term.coef, coefs);
    }
}

/// Adds to the coefficient at a place, or nothing where there is none.
fn add_at(field: Field, place: Option<usize>, coef: u8, coefs: &mut [u8])
    requires place { IfSome place (λ k. k < length coefs.old) }
    requires coef { coef < order field }
    requires row { IsRow field (length coefs.old) coefs.old }
    ensures { MatchOption place (coefs.new ≡ coefs.old) (λ k. coefs.new ≡ slice_set coefs.old k (add field (slice_index coefs.old k) coef)) }
{
    if let Some(k) = place {
        coefs[k] = field.add(coefs[k], coef);
    }
}

/// Adds a multiple of the products u·x·v: u stands at a place of the short paths, x are the terms, and v has these arrows. Products of the bound's
/// length or more are left out.
pub(crate) fn add_products(
    header: &Header,
    space: &ShortPaths,
    factor: u8,
    first: usize,
    terms: &[Term],
    behind: &[u8],
    coefs: &mut [u8],
)
    requires factor { factor < order header.now.field }
    requires first { first < length space.now }
    requires terms { All (λ (a : Term). a.coef < order header.now.field) terms.now }
    requires row { IsRow header.now.field (length space.now) coefs.old }
    ensures { (u v p : Path) → AreMet header.now space.now first terms.now behind.now u v p
        → IsAdded header.now space.now (multiple_between header.now factor u terms.now v) p coefs.old coefs.new }
{
    for term in terms {
        let place = space.walk_on(first, term.path.arrows.as_slice(), behind);
        add_at(
            header.field,
            place,
            header.field.mul(factor, term.coef),
            coefs,
        );
    }
}

/// The descending terms of the element with these coefficients.
pub(crate) fn terms_of(
    alloc: Global,
    space: &ShortPaths,
    coefs: &[u8],
) -> Result<Vec<Term>, AllocError>
    requires { length coefs.now ≡ length space.now }
    ensures { (h : Header) → ListsPathsBelow h.quiver h.bound space.now → IsRow h.field (length space.now) coefs.now
        → IfOk result (λ terms. AreTermsOf h (row_element h space.now coefs.now) terms.items) }
{
    let mut terms = Vec::new(alloc);
    let mut end = coefs.len();
    while let Some(place) = last_place(coefs, end) {
        push_term(&mut terms, coefs[place], space.path(place))?;
        end = place;
    }
    Ok(terms)
}

/// The last place before `end` with a coefficient.
pub(crate) fn last_place(coefs: &[u8], end: usize) -> Option<usize>
    requires { end ≤ length coefs.now }
    ensures { MatchOption result (AreZeros coefs.now 0 end) (λ place. IsLastPlace coefs.now end place) }
{
    for passed in 0..end {
        let place = end - 1 - passed;
        if coefs[place] != 0 {
            return Some(place);
        }
    }
    None
}

/// Adds a term.
fn push_term(terms: &mut Vec<Term>, coef: u8, path: &Path) -> Result<(), AllocError>
    ensures { OnOk result (terms.new.items ≡ terms.old.items ++ record { coef = coef; path = path.now } ∷ []) }
{
    let path = path.clone()?;
    terms.push(Term { coef, path })?;
    Ok(())
}
