//! The answer to the conditions on a claim. The lemmas behind these laws are on any list of conditions.

ghost use Rattle.std.specs.Prelude.{⊤, ℕ, Option, ◌≡◌};
ghost use Rattle.fp_linear.specs.Matrix.{PlainMatrix};
ghost use Rattle.path_algebra.specs.declared.Header.{Header};
ghost use Rattle.module_types.specs.declared.Module.{Module};
ghost use Rattle.claim_conditions.specs.declared.Clause.{Clause};
ghost use Rattle.claim_conditions.specs.declared.Residue.{Residue};
ghost use Rattle.claim_conditions.specs.Conditions.{AllHold, IsFirstFailing, IsAnswer};
ghost use Rattle.claim_conditions.specs.LocalConditions.{local_conditions};

/// The conditions have one answer at most: the first that fails is one, and where all hold no condition is the first that fails. Stated for a local module.
pub fn one_answer()
    ensures once { (h : Header) (m : Module) (basis ideal : PlainMatrix) (power : ℕ) (residue : Residue) (r s : Option Clause)
        → IsAnswer (local_conditions ⊤ h m basis ideal power residue) r → IsAnswer (local_conditions ⊤ h m basis ideal power residue) s → r ≡ s }
    ensures none { (h : Header) (m : Module) (basis ideal : PlainMatrix) (power : ℕ) (residue : Residue) (which : Clause)
        → IsFirstFailing (local_conditions ⊤ h m basis ideal power residue) which → AllHold (local_conditions ⊤ h m basis ideal power residue) → ⊥ }
{}
