//! Rules of an ideal and how they are derived.

use crate::Term;
use quiver_paths::Path;
use seq::Seq;

/// A combination of different paths shorter than the bound, the greatest first, with coefficients from 1 to the field's size less 1.
#[derive(Debug, Drop, PartialEq, Eq)]
pub struct Element {
    pub terms: Seq<Term>,
}

/// A step of a derivation, which makes an element of the ideal. Relations and steps are counted from 1, arrows from 0.
#[derive(Clone, Copy, Debug, Drop, PartialEq, Eq)]
pub enum Step {
    /// The relation with this number, without its terms of the bound's length or more.
    Relation(u32),
    /// An arrow times an earlier step.
    Left(u8, u32),
    /// An earlier step times an arrow.
    Right(u32, u8),
    /// An earlier step plus a multiple of an earlier step.
    Add(u32, u8, u32),
}

/// The tip is congruent to the tail; their difference is the element of the step with this number.
#[derive(Debug, Drop, PartialEq, Eq)]
pub struct Rule {
    pub tip: Path,
    pub tail: Element,
    pub step: u32,
}

/// The first condition on words, steps and rules that does not hold.
#[derive(Clone, Copy, Debug, Drop, PartialEq, Eq)]
pub enum BasisFault {
    Step,
    Rule,
    Reduced,
    Words,
    Action,
}
