//! The relations of a header without their terms of the bound's length or more, which are zero in its algebra.
ghost use Rattle.std.specs.Prelude.{◌≡◌, ◌++◌, ◌∷◌, [], IfOk, OnOk, MatchBool};
ghost use Rattle.module_faults.specs.ShortRelations.{short_terms, kept_relation, short_header};

use path_algebra::{Header, Relation, Term};
use seq::Seq;
use std::alloc::{AllocError, Global};

/// Whether a relation has a term that is shorter than the bound.
pub(crate) fn has_short_term(relation: &Relation, bound: u32) -> bool
    ensures { MatchBool result (¬ (short_terms bound relation.now.terms ≡ [])) (short_terms bound relation.now.terms ≡ []) }
{
    for k in 0..relation.terms.len() {
        if relation.terms[k].path.arrows.len() < bound as usize {
            return true;
        }
    }
    false
}

/// Puts the term behind the others if it is shorter than the bound.
fn put_short(term: Term, bound: u32, short: &mut Vec<Term>) -> Result<(), AllocError>
    ensures { OnOk result (short.new.items ≡ short.old.items ++ short_terms bound (term ∷ [])) }
{
    if term.path.arrows.len() < bound as usize {
        short.push(term)?;
        return Ok(());
    }
    Ok(())
}

/// The terms of a relation that are shorter than the bound.
fn short_terms(alloc: Global, relation: &Relation, bound: u32) -> Result<Vec<Term>, AllocError>
    ensures { IfOk result (λ short. short.items ≡ short_terms bound relation.now.terms) }
{
    let copy = relation.clone()?;
    let mut short = Vec::new(alloc);
    for term in copy.terms.into_vec() {
        put_short(term, bound, &mut short)?;
    }
    Ok(short)
}

/// The relation of the terms that are shorter than the bound; the relation itself where it has none.
fn kept_relation(alloc: Global, relation: &Relation, bound: u32) -> Result<Relation, AllocError>
    ensures { IfOk result (λ kept. kept ≡ kept_relation bound relation.now) }
{
    let terms = short_terms(alloc, relation, bound)?;
    if terms.is_empty() {
        let same = relation.clone()?;
        return Ok(same);
    }
    Ok(Relation {
        terms: Seq::from_vec(terms),
    })
}

/// The header with such relations.
pub(crate) fn short_header(alloc: Global, header: &Header) -> Result<Header, AllocError>
    ensures { IfOk result (λ short. short ≡ short_header header.now) }
{
    let mut short = header.clone()?;
    let mut relations = Vec::with_capacity(alloc, header.relations.len())?;
    for r in 0..header.relations.len() {
        let kept = kept_relation(alloc, &header.relations[r], header.bound)?;
        relations.push(kept)?;
    }
    short.relations = Seq::from_vec(relations);
    Ok(short)
}
