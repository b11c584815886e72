//! The path algebra of a quiver below a bound: elements, the ideal of relations, normal words and the rules of an ideal.
#![tactic(auto)]

ghost use Rattle.std.specs.Prelude.{◌≡◌};

use fp_linear::Field;
use quiver_paths::{Path, Quiver};
use seq::Seq;
use std::alloc::AllocError;

mod derivations;
pub mod laws;
mod path_places;
mod rules;
mod sums;
mod tips;

pub use derivations::{arrow_path, terms_before, terms_behind, terms_of_relation};
pub use path_places::{path_place, then_arrow};
pub use rules::{BasisFault, Element, Rule, Step};
pub use sums::plus_multiple;
pub use tips::{compare_arrows, ends_in_tip, has_tip, tip_place};

/// A coefficient, from 1 to the field's size less 1, and a path.
#[derive(Debug, Drop, PartialEq, Eq)]
pub struct Term {
    pub coef: u8,
    pub path: Path,
}

/// A sum of terms that is zero in the algebra.
#[derive(Debug, Drop, PartialEq, Eq)]
pub struct Relation {
    pub terms: Seq<Term>,
}

/// An algebra: its field, its quiver, the bound, and the relations. The relations are zero in it, and so is each path of the bound's length.
#[derive(Drop)]
pub struct Header {
    pub field: Field,
    pub quiver: Quiver,
    pub bound: u32,
    pub relations: Seq<Relation>,
}

impl Clone for Term {
    ghost is_clone = { λ term copy. copy ≡ term };

    fn clone(&self) -> Result<Self, AllocError> {
        let path = self.path.clone()?;
        Ok(Term {
            coef: self.coef,
            path,
        })
    }
}

impl Clone for Relation {
    ghost is_clone = { λ relation copy. copy ≡ relation };

    fn clone(&self) -> Result<Self, AllocError> {
        let terms = self.terms.clone()?;
        Ok(Relation { terms })
    }
}

impl Clone for Header {
    ghost is_clone = { λ header copy. copy ≡ header };

    fn clone(&self) -> Result<Self, AllocError> {
        let quiver = self.quiver.clone()?;
        let relations = self.relations.clone()?;
        Ok(Header {
            field: self.field,
            quiver,
            bound: self.bound,
            relations,
        })
    }
}
