//! There is one such basis, and each homomorphism has coordinates in it.

ghost use Rattle.std.specs.Prelude.{◌≡◌};
ghost use Rattle.linear_algebra.specs.Rank.{IsInSpan};
ghost use Rattle.fp_linear.specs.Matrix.{PlainMatrix};
ghost use Rattle.path_algebra.specs.declared.Header.{Header};
ghost use Rattle.representations.specs.Hom.{Hom};
ghost use Rattle.representations.specs.HomSpace.{flat};
ghost use Rattle.module_types.specs.declared.Module.{Module};
ghost use Rattle.module_types.specs.Readings.{read, read_beside};
ghost use Rattle.claim_conditions.specs.Conditions.{AllHold};
ghost use Rattle.claim_conditions.specs.Homs.{hom_rows};
ghost use Rattle.claim_conditions.specs.HomConditions.{hom_conditions};
ghost use Rattle.hom_space.specs.HomForms.{IsReducedHomBasis, IsRowsOfHoms};

/// Two matrices that meet the conditions on a basis of homomorphisms between the same modules are equal.
pub fn one_basis()
    ensures answers { (h : Header) (a b : Module) (r s : PlainMatrix) → IsReducedHomBasis h a b r → IsReducedHomBasis h a b s → r ≡ s }
    ensures claims { (h : Header) (a b : Module) (r s : PlainMatrix) → IsRowsOfHoms h a b r → IsRowsOfHoms h a b s
        → AllHold (hom_conditions h a b r) → AllHold (hom_conditions h a b s) → r ≡ s }
{}

/// Each homomorphism, as one row, is in the span of the basis.
pub fn all_have_coordinates()
    ensures { (h : Header) (a b : Module) (rows : PlainMatrix) → IsReducedHomBasis h a b rows → (f : Hom (read h a) (read_beside h a b))
        → IsInSpan (hom_rows h a b rows) (flat f) }
{}
