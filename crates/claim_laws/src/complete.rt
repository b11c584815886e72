//! What is computed in canonical form meets the conditions.

ghost use Rattle.std.specs.Prelude.{⊤, ℕ, ◌≡◌, List};
ghost use Rattle.fp_linear.specs.Matrix.{PlainMatrix};
ghost use Rattle.path_algebra.specs.declared.Header.{Header};
ghost use Rattle.module_types.specs.declared.Module.{Module};
ghost use Rattle.module_types.specs.declared.TermRows.{TermRows};
ghost use Rattle.module_types.specs.Algebras.{sided_words};
ghost use Rattle.module_types.specs.Presentations.{injective_term, nakayama_of};
ghost use Rattle.representations.specs.Hom.{Hom, ◌≫◌};
ghost use Rattle.representations.specs.KernelOf.{IsKernel};
ghost use Rattle.representations.specs.Sum.{into_first, onto_second};
ghost use Rattle.module_types.specs.Readings.{read, read_beside};
ghost use Rattle.claim_conditions.specs.Conditions.{AllHold};
ghost use Rattle.claim_conditions.specs.Families.{AreReduced, AreCoReduced, HasMatrices};
ghost use Rattle.claim_conditions.specs.Modules.{Sides, ModuleHolds};
ghost use Rattle.claim_conditions.specs.Homs.{HomHolds};
ghost use Rattle.claim_conditions.specs.HomConditions.{hom_conditions, AreRowsReduced};
ghost use Rattle.claim_conditions.specs.Kernels.{KernelHolds, CokernelHolds};
ghost use Rattle.claim_conditions.specs.KernelConditions.{kernel_conditions, cokernel_conditions};
ghost use Rattle.claim_conditions.specs.Radicals.{RadicalHolds};
ghost use Rattle.claim_conditions.specs.RadicalConditions.{radical_conditions};
ghost use Rattle.claim_conditions.specs.ResolutionConditions.{IsChosen, resolution_conditions};
ghost use Rattle.claim_conditions.specs.Extensions.{extension_rows, ExtensionHolds};
ghost use Rattle.claim_conditions.specs.ExtensionConditions.{AreReducedModulo, extension_conditions};
ghost use Rattle.claim_conditions.specs.Decompositions.{DecompositionHolds};
ghost use Rattle.claim_conditions.specs.DecompositionConditions.{AreInOrder, decomposition_conditions};
ghost use Rattle.claim_conditions.specs.Translates.{presentation_of, transposed_term, read_across, TauHolds, TransposeHolds, TauiHolds};
ghost use Rattle.claim_conditions.specs.TranslateConditions.{tau_conditions, transpose_conditions, taui_conditions};
ghost use Rattle.claim_conditions.specs.LocalConditions.{ring_rows, ideal_rows, local_conditions};
ghost use Rattle.claim_conditions.specs.Locals.{LocalHolds};
ghost use Rattle.claim_conditions.specs.declared.Residue.{Residue};
ghost use Rattle.claim_conditions.specs.SequenceConditions.{SequenceRows, HaveSequenceSides, IsNotProjective, IsEndFunctional, around, sequence_conditions};
ghost use Rattle.claim_conditions.specs.Resolutions.{ResolutionHolds};
ghost use Rattle.claim_laws.specs.Pullbacks.{pullback_hom};

/// A basis of homomorphisms in reduced row form meets the conditions.
pub fn reduced_bases()
    ensures { (h : Header) (a b : Module) (rows : PlainMatrix) → HomHolds h a b rows → AreRowsReduced h a b rows → AllHold (hom_conditions h a b rows) }
{}

/// A kernel and a radical whose inclusion is in reduced row form, and a cokernel whose projection is co-reduced, meet the conditions.
pub fn reduced_kernels()
    ensures kernels { (h : Header) (n a b : Module) (f i : List PlainMatrix) (k : KernelHolds h n a b f i) → AreReduced (read_beside h a n) (read h a) k.inclusion.at
        → AllHold (kernel_conditions ⊤ h n a b f i) }
    ensures cokernels { (h : Header) (n a b : Module) (f p : List PlainMatrix) (k : CokernelHolds h n a b f p)
        → AreCoReduced (read_beside h a b) (read_beside h a n) k.projection.at → AllHold (cokernel_conditions ⊤ h n a b f p) }
    ensures radicals { (h : Header) (n a : Module) (i : List PlainMatrix) (k : RadicalHolds h n a i) → AreReduced (read_beside h a n) (read h a) k.inclusion.at
        → AllHold (radical_conditions ⊤ h n a i) }
{}

/// A decomposition with its parts in order meets the conditions.
pub fn ordered_decompositions()
    ensures { (h : Header) (a s : Module) (parts : List Module) (to back : List PlainMatrix) → AreInOrder parts
        → DecompositionHolds h a s parts to back → AllHold (decomposition_conditions ⊤ h a s parts to back) }
{}

/// Terms with canonical generators meet all conditions on a resolution, and a basis of extensions that is reduced modulo the coboundaries meets those on it:
/// in reduced row form, and zero at the pivots of their reduced row form.
pub fn chosen_resolutions()
    ensures chosen { (h : Header) (T : Sides h) (a : Module) (terms : List TermRows) (n : ℕ) → ModuleHolds h a → IsChosen (sided_words a.side T).words (read h a) terms n
        → AllHold (resolution_conditions h T a terms n) }
    ensures extensions { (h : Header) (T : Sides h) (a b : Module) (terms : List TermRows) (n : ℕ) (rows : PlainMatrix) → ExtensionHolds h T a b terms n rows
        → AreReducedModulo (sided_words a.side T).words (read_beside h a b) terms n (extension_rows h a b terms n rows)
        → AllHold (extension_conditions ⊤ h T a b terms n rows) }
{}

/// A translate whose embedding is in reduced row form, and a transpose and an inverse translate whose projection is co-reduced, meet the conditions.
pub fn reduced_translates()
    ensures tau { (h : Header) (T : Sides h) (n a : Module) (terms : List TermRows) (embedding : List PlainMatrix) (k : TauHolds h T n a terms embedding)
        → AreReduced (read_beside h a n) (injective_term (sided_words a.side T) (presentation_of terms).syzygy) k.is.inclusion.at
        → AllHold (tau_conditions ⊤ h T n a terms embedding) }
    ensures transpose { (h : Header) (T : Sides h) (n a : Module) (terms : List TermRows) (projection : List PlainMatrix) (k : TransposeHolds h T n a terms projection)
        → AreCoReduced (transposed_term (sided_words a.side T) (presentation_of terms).syzygy) (read_across h a n) k.is.onto.at
        → AllHold (transpose_conditions ⊤ h T n a terms projection) }
    ensures taui { (h : Header) (T : Sides h) (n a b : Module) (terms : List TermRows) (projection : List PlainMatrix) (k : TauiHolds h T n a b terms projection)
        → AreCoReduced (transposed_term (sided_words b.side T) (presentation_of terms).syzygy) (read_across h b n) k.transpose.is.onto.at
        → AllHold (taui_conditions ⊤ h T n a b terms projection) }
{}

/// A sequence meets the conditions where its modules have one side, term 1 has a generator, the functional is as asked, its left end is embedded as the kernel
/// of νd and its middle term as the pullback, both in reduced row form, and its maps are those between them. Here νd is the differential under the Nakayama
/// functor; f and g are the printed matrices, `first` and `second` the homomorphisms.
pub fn computed_sequences()
    ensures { (h : Header) (T : Sides h) (n e a : Module) (f g : List PlainMatrix) (terms : List TermRows) (basis ideal : PlainMatrix) (s : SequenceRows)
        → HaveSequenceSides n e a → (m : ModuleHolds h a) → IsNotProjective (sided_words a.side T) (presentation_of terms)
        → IsEndFunctional (sided_words a.side T) (presentation_of terms) (read h a) s.functional (ring_rows h a basis) (ideal_rows h basis ideal)
        → (i : Hom (read_beside h a n) (injective_term (sided_words a.side T) (presentation_of terms).syzygy)) → HasMatrices i s.left
        → IsKernel i (nakayama_of (sided_words a.side T) (presentation_of terms))
        → AreReduced (read_beside h a n) (injective_term (sided_words a.side T) (presentation_of terms).syzygy) i.at
        → (j : Hom (read_beside h a e) (around (sided_words a.side T) (presentation_of terms) (read h a))) → HasMatrices j s.middle
        → IsKernel j (pullback_hom (sided_words a.side T) (presentation_of terms) (read h a) m s.functional)
        → AreReduced (read_beside h a e) (around (sided_words a.side T) (presentation_of terms) (read h a)) j.at
        → (first : Hom (read_beside h a n) (read_beside h a e)) (second : Hom (read_beside h a e) (read h a)) → HasMatrices first f → HasMatrices second g
        → first ≫ j ≡ i ≫ into_first (injective_term (sided_words a.side T) (presentation_of terms).syzygy) (read h a)
        → second ≡ j ≫ onto_second (injective_term (sided_words a.side T) (presentation_of terms).syzygy) (read h a)
        → AllHold (sequence_conditions ⊤ h T n e a f g terms basis ideal s) }
{}

/// Over a basis of its endomorphisms a local module has an ideal, a power of it and a form of the residue ring that meet the conditions.
pub fn certified_locals()
    ensures { (h : Header) (m : Module) (basis : PlainMatrix) → AllHold (hom_conditions h m m basis) → LocalHolds h m
        → (ideal : PlainMatrix) × (power : ℕ) × (residue : Residue) × AllHold (local_conditions ⊤ h m basis ideal power residue) }
{}

/// Over a certified local module that is not projective there is a functional as it is asked.
pub fn functionals_exist()
    ensures { (h : Header) (T : Sides h) (a : Module) (terms : List TermRows) (basis ideal : PlainMatrix) (power : ℕ) (residue : Residue) → ModuleHolds h a
        → ResolutionHolds h T a terms 1 → AllHold (hom_conditions h a a basis) → AllHold (local_conditions ⊤ h a basis ideal power residue)
        → IsNotProjective (sided_words a.side T) (presentation_of terms)
        → (functional : List ℕ) × IsEndFunctional (sided_words a.side T) (presentation_of terms) (read h a) functional (ring_rows h a basis) (ideal_rows h basis ideal) }
{}
