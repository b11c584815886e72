//! What the claims of a report say of modules, maps, resolutions and sequences, and the conditions by which they are judged: definitions alone, over the
//! modules, maps, matrices and terms that are printed, with no report around them. There is no code here but the names of the conditions and the forms of the residue ring, and the law
//! that says in which order the conditions stand.
#![tactic(auto)]

pub mod laws;

/// The conditions on claims, by name.
#[derive(Clone, Copy, Debug, Drop, PartialEq, Eq)]
pub enum Clause {
    Relations,
    Commutes,
    Step,
    Rule,
    Reduced,
    Words,
    Action,
    Objects,
    Homs,
    All,
    Zero,
    Complex,
    Exact,
    Minimal,
    Choice,
    Cocycles,
    Nonzero,
    Ideal,
    Power,
    Residue,
    Order,
    Sum,
    Inverse,
    Inside,
    Nonprojective,
    Functional,
    Left,
    Middle,
    Maps,
}

/// The forms in which the residue ring of a local endomorphism ring is shown to be a division ring.
#[derive(Clone, Copy, Debug, Drop, PartialEq, Eq)]
pub enum Residue {
    /// It is commutative, taking q-th powers is injective on it, and the fixed elements of that map have dimension one.
    Frobenius,
    /// It is not commutative, and each of its elements but zero has an inverse.
    Listed,
}
