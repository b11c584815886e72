//! In which order the conditions on a claim are tried. The function does nothing: its contract is the law.

ghost use Rattle.std.specs.Prelude.{⊤, ℕ, List, [], ◌∷◌, ◌≡◌};
ghost use Rattle.fp_linear.specs.Matrix.{PlainMatrix};
ghost use Rattle.path_algebra.specs.declared.Header.{Header};
ghost use Rattle.module_types.specs.declared.Module.{Module as Printed};
ghost use Rattle.module_types.specs.declared.TermRows.{TermRows};
ghost use Rattle.claim_conditions.specs.declared.Clause.TheVariants as clause;
ghost use Rattle.claim_conditions.specs.declared.Residue.{Residue as Form};
ghost use Rattle.claim_conditions.specs.Conditions.{names};
ghost use Rattle.claim_conditions.specs.Modules.{Sides, PrintedMap, object_conditions, module_conditions, map_conditions};
ghost use Rattle.claim_conditions.specs.HomConditions.{hom_conditions};
ghost use Rattle.claim_conditions.specs.KernelConditions.{kernel_conditions, cokernel_conditions};
ghost use Rattle.claim_conditions.specs.RadicalConditions.{radical_conditions};
ghost use Rattle.claim_conditions.specs.ResolutionConditions.{resolution_conditions};
ghost use Rattle.claim_conditions.specs.ExtensionConditions.{extension_conditions};
ghost use Rattle.claim_conditions.specs.LocalConditions.{local_conditions};
ghost use Rattle.claim_conditions.specs.DecompositionConditions.{decomposition_conditions};
ghost use Rattle.claim_conditions.specs.TranslateConditions.{tau_conditions, transpose_conditions, taui_conditions};
ghost use Rattle.claim_conditions.specs.SequenceConditions.{SequenceRows, sequence_conditions};

/// By their names in the order in which they are tried: the conditions on the objects of a record, and for each kind those on its claim, which are tried behind
/// them. A claim on a module or a map has none.
pub fn names_in_order()
    ensures objects { (h : Header) (modules : List Printed) (maps : List PrintedMap) → names (object_conditions h modules maps) ≡ clause.Relations ∷ clause.Commutes ∷ [] }
    ensures module { names module_conditions ≡ [] }
    ensures map { names map_conditions ≡ [] }
    ensures hom { (h : Header) (a b : Printed) (rows : PlainMatrix) → names (hom_conditions h a b rows) ≡ clause.Objects ∷ clause.Reduced ∷ clause.Homs ∷ clause.All ∷ [] }
    ensures kernel { (h : Header) (n a b : Printed) (f i : List PlainMatrix)
        → names (kernel_conditions ⊤ h n a b f i) ≡ clause.Objects ∷ clause.Reduced ∷ clause.Zero ∷ clause.All ∷ [] }
    ensures cokernel { (h : Header) (n a b : Printed) (f p : List PlainMatrix)
        → names (cokernel_conditions ⊤ h n a b f p) ≡ clause.Objects ∷ clause.Reduced ∷ clause.Zero ∷ clause.All ∷ [] }
    ensures radical { (h : Header) (n a : Printed) (i : List PlainMatrix)
        → names (radical_conditions ⊤ h n a i) ≡ clause.Objects ∷ clause.Reduced ∷ clause.All ∷ [] }
    ensures resolution { (h : Header) (T : Sides h) (a : Printed) (terms : List TermRows) (n : ℕ)
        → names (resolution_conditions h T a terms n) ≡ clause.Complex ∷ clause.Exact ∷ clause.Minimal ∷ clause.Choice ∷ [] }
    ensures ext { (h : Header) (T : Sides h) (a b : Printed) (terms : List TermRows) (n : ℕ) (rows : PlainMatrix)
        → names (extension_conditions ⊤ h T a b terms n rows) ≡ clause.Objects ∷ clause.Cocycles ∷ clause.Reduced ∷ clause.All ∷ [] }
    ensures local { (h : Header) (m : Printed) (basis ideal : PlainMatrix) (power : ℕ) (residue : Form)
        → names (local_conditions ⊤ h m basis ideal power residue) ≡ clause.Objects ∷ clause.Nonzero ∷ clause.Ideal ∷ clause.Power ∷ clause.Residue ∷ [] }
    ensures decomposition { (h : Header) (a s : Printed) (parts : List Printed) (to back : List PlainMatrix)
        → names (decomposition_conditions ⊤ h a s parts to back) ≡ clause.Objects ∷ clause.Order ∷ clause.Sum ∷ clause.Inverse ∷ [] }
    ensures tau { (h : Header) (T : Sides h) (n a : Printed) (terms : List TermRows) (embedding : List PlainMatrix)
        → names (tau_conditions ⊤ h T n a terms embedding) ≡ clause.Objects ∷ clause.Reduced ∷ clause.Inside ∷ clause.All ∷ [] }
    ensures transpose { (h : Header) (T : Sides h) (n a : Printed) (terms : List TermRows) (projection : List PlainMatrix)
        → names (transpose_conditions ⊤ h T n a terms projection) ≡ clause.Objects ∷ clause.Reduced ∷ clause.Inside ∷ clause.All ∷ [] }
    ensures taui { (h : Header) (T : Sides h) (n a b : Printed) (terms : List TermRows) (projection : List PlainMatrix)
        → names (taui_conditions ⊤ h T n a b terms projection) ≡ clause.Objects ∷ clause.Reduced ∷ clause.Inside ∷ clause.All ∷ [] }
    ensures almostsplit { (h : Header) (T : Sides h) (n e a : Printed) (f g : List PlainMatrix) (terms : List TermRows) (basis ideal : PlainMatrix) (s : SequenceRows)
        → names (sequence_conditions ⊤ h T n e a f g terms basis ideal s)
        ≡ clause.Objects ∷ clause.Nonprojective ∷ clause.Functional ∷ clause.Left ∷ clause.Middle ∷ clause.Maps ∷ [] }
{}
