//! The elements that a derivation begins with, and their products with arrows, as descending terms.
ghost use Rattle.std.specs.Prelude.{◌≡◌, ◌<◌, ◌≤◌, ◌++◌, ◌∷◌, [], IfOk, OnOk, Contains};
ghost use Rattle.linear_algebra.specs.Field.{add, mul};
ghost use Rattle.quiver_paths.specs.declared.Path.{Path};
ghost use Rattle.quiver_paths.specs.Path.{IsPath, path_length, arrow_path};
ghost use Rattle.quiver_paths.specs.Quiver.{arrow_count};
ghost use Rattle.path_algebra.specs.declared.Term.{Term};
ghost use Rattle.path_algebra.specs.Elements.{sum_of_terms, path_element};
ghost use Rattle.path_algebra.specs.Ideals.{relation_element};
ghost use Rattle.path_algebra.specs.Allowed.{IsAllowed, IsTerm};
ghost use Rattle.path_algebra.specs.Rules.{AreElementTerms};
ghost use Rattle.path_algebra.specs.ElementTerms.{terms_behind, terms_before, AreTermsOf};

use crate::sums::plus_multiple;
use crate::{Header, Relation, Term};
use quiver_paths::{Path, concat};
use seq::Seq;
use std::alloc::{AllocError, Global};

/// The terms of a relation that are shorter than the bound, in descending order.
pub fn terms_of_relation(
    alloc: Global,
    header: &Header,
    relation: &Relation,
) -> Result<Vec<Term>, AllocError>
    requires allowed { IsAllowed header.now }
    requires relation { Contains header.now.relations relation.now }
    ensures { IfOk result (λ terms. AreTermsOf header.now (relation_element header.now relation.now) terms.items) }
{
    let mut sum = Vec::new(alloc);
    for term in relation.terms.as_slice() {
        sum = with_term(alloc, header, sum, term)?;
    }
    Ok(sum)
}

/// The terms of an element plus a term, which is left out where it has the bound's length or more.
fn with_term(
    alloc: Global,
    header: &Header,
    sum: Vec<Term>,
    term: &Term,
) -> Result<Vec<Term>, AllocError>
    requires sum { AreElementTerms header.now sum.items }
    requires term { IsTerm header.now term.now }
    ensures { IfOk result (λ longer. AreTermsOf header.now
        (λ p. add header.now.field (sum_of_terms header.now.field header.now.bound sum.items p) (mul header.now.field term.now.coef (path_element header.now.bound term.now.path p))) longer.items) }
{
    if term.path.arrows.len() >= header.bound as usize {
        return Ok(sum);
    }
    let mut one = Vec::new(alloc);
    one.push(term.clone()?)?;
    let longer = plus_multiple(alloc, header, &sum, 1, &one)?;
    Ok(longer)
}

/// The path that is one arrow.
pub fn arrow_path(alloc: Global, header: &Header, arrow: u8) -> Result<Path, AllocError>
    requires { arrow < arrow_count header.now.quiver }
    ensures { IfOk result (λ path. path ≡ arrow_path header.now.quiver arrow) }
{
    let ends = &header.quiver.arrows[arrow as usize];
    let mut arrows = Seq::new(alloc);
    arrows.push(arrow)?;
    Ok(Path {
        start: ends.from,
        end: ends.to,
        arrows,
    })
}

/// The terms of a path times an element.
pub fn terms_behind(
    alloc: Global,
    header: &Header,
    before: &Path,
    terms: &[Term],
) -> Result<Vec<Term>, AllocError>
    requires bound { header.now.bound ≤ 32 }
    requires before { path_length before.now ≤ 32 }
    requires terms { AreElementTerms header.now terms.now }
    ensures { IfOk result (λ products. products.items ≡ terms_behind header.now.bound before.now terms.now) }
{
    let mut products = Vec::new(alloc);
    for term in terms {
        push_behind(alloc, header, before, term, &mut products)?;
    }
    Ok(products)
}

/// Adds the product of the path and the term, if they meet and it is shorter than the bound.
fn push_behind(
    alloc: Global,
    header: &Header,
    before: &Path,
    term: &Term,
    products: &mut Vec<Term>,
) -> Result<(), AllocError>
    requires bound { header.now.bound ≤ 32 }
    requires before { path_length before.now ≤ 32 }
    requires term { path_length term.now.path < header.now.bound }
    ensures { OnOk result (products.new.items ≡ products.old.items ++ terms_behind header.now.bound before.now (term.now ∷ [])) }
{
    if before.arrows.len() + term.path.arrows.len() >= header.bound as usize {
        return Ok(());
    }
    if let Some(path) = concat(alloc, &header.quiver, before, &term.path)? {
        products.push(Term {
            coef: term.coef,
            path,
        })?;
    }
    Ok(())
}

/// The terms of an element times a path.
pub fn terms_before(
    alloc: Global,
    header: &Header,
    terms: &[Term],
    behind: &Path,
) -> Result<Vec<Term>, AllocError>
    requires bound { header.now.bound ≤ 32 }
    requires behind { path_length behind.now ≤ 32 }
    requires terms { AreElementTerms header.now terms.now }
    ensures { IfOk result (λ products. products.items ≡ terms_before header.now.bound behind.now terms.now) }
{
    let mut products = Vec::new(alloc);
    for term in terms {
        push_before(alloc, header, term, behind, &mut products)?;
    }
    Ok(products)
}

/// Adds the product of the term and the path, if they meet and it is shorter than the bound.
fn push_before(
    alloc: Global,
    header: &Header,
    term: &Term,
    behind: &Path,
    products: &mut Vec<Term>,
) -> Result<(), AllocError>
    requires bound { header.now.bound ≤ 32 }
    requires behind { path_length behind.now ≤ 32 }
    requires term { path_length term.now.path < header.now.bound }
    ensures { OnOk result (products.new.items ≡ products.old.items ++ terms_before header.now.bound behind.now (term.now ∷ [])) }
{
    if term.path.arrows.len() + behind.arrows.len() >= header.bound as usize {
        return Ok(());
    }
    if let Some(path) = concat(alloc, &header.quiver, &term.path, behind)? {
        products.push(Term {
            coef: term.coef,
            path,
        })?;
    }
    Ok(())
}
