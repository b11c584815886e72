//! Whether terms make a relation.
ghost use Rattle.std.specs.Prelude.{◌↔◌, All, IsTrue};
ghost use Rattle.quiver_paths.specs.Path.{IsPath, Leads};
ghost use Rattle.path_algebra.specs.Allowed.{IsTerm, IsRelation};

use header_text::{are_related, has_term_length};
use path_algebra::{Header, Relation, Term};
use quiver_paths::{Path, Quiver};

/// Whether the arrows lead from `start` to `end`, one behind the other.
fn leads(quiver: &Quiver, start: u8, arrows: &[u8], end: u8) -> bool
    ensures { IsTrue result ↔ Leads quiver.now start arrows.now end }
{
    let mut at = start;
    for place in arrows {
        let place = *place as usize;
        if place >= quiver.arrows.len() {
            return false;
        }
        let arrow = &quiver.arrows[place];
        if arrow.from != at {
            return false;
        }
        at = arrow.to;
    }
    at == end
}

fn is_path(quiver: &Quiver, path: &Path) -> bool
    ensures { IsTrue result ↔ IsPath quiver.now path.now }
{
    (path.start as usize) < quiver.vertices.len()
        && leads(quiver, path.start, path.arrows.as_slice(), path.end)
}

fn is_term(header: &Header, term: &Term) -> bool
    ensures { IsTrue result ↔ IsTerm header.now term.now }
{
    term.coef > 0
        && (term.coef as u32) < header.field.size()
        && has_term_length(&term.path)
        && is_path(&header.quiver, &term.path)
}

fn are_terms(header: &Header, terms: &[Term]) -> bool
    ensures { IsTrue result ↔ All (IsTerm header.now) terms.now }
{
    for term in terms {
        if !is_term(header, term) {
            return false;
        }
    }
    true
}

/// Whether the terms make a relation of the algebra.
pub fn is_relation(header: &Header, relation: &Relation) -> bool
    ensures { IsTrue result ↔ IsRelation header.now relation.now }
{
    let terms = relation.terms.as_slice();
    if terms.is_empty() {
        return false;
    }
    are_terms(header, terms) && are_related(terms)
}
