//! The conditions of a claim suffice.

ghost use Rattle.std.specs.Prelude.{⊤, ℕ, suc, List, All};
ghost use Rattle.fp_linear.specs.Matrix.{PlainMatrix};
ghost use Rattle.path_algebra.specs.declared.Header.{Header};
ghost use Rattle.module_types.specs.declared.Module.{Module};
ghost use Rattle.module_types.specs.declared.TermRows.{TermRows};
ghost use Rattle.claim_conditions.specs.declared.Residue.{Residue};
ghost use Rattle.claim_conditions.specs.Conditions.{AllHold};
ghost use Rattle.claim_conditions.specs.Modules.{Sides, ModuleHolds, MapHolds};
ghost use Rattle.claim_conditions.specs.Homs.{HomHolds};
ghost use Rattle.claim_conditions.specs.HomConditions.{hom_conditions};
ghost use Rattle.claim_conditions.specs.Kernels.{KernelHolds, CokernelHolds};
ghost use Rattle.claim_conditions.specs.KernelConditions.{kernel_conditions, cokernel_conditions};
ghost use Rattle.claim_conditions.specs.Radicals.{RadicalHolds};
ghost use Rattle.claim_conditions.specs.RadicalConditions.{radical_conditions};
ghost use Rattle.claim_conditions.specs.Resolutions.{ResolutionHolds};
ghost use Rattle.claim_conditions.specs.ResolutionConditions.{resolution_conditions};
ghost use Rattle.claim_conditions.specs.Extensions.{ExtensionHolds};
ghost use Rattle.claim_conditions.specs.ExtensionConditions.{extension_conditions};
ghost use Rattle.claim_conditions.specs.Locals.{LocalHolds};
ghost use Rattle.claim_conditions.specs.LocalConditions.{local_conditions};
ghost use Rattle.claim_conditions.specs.Decompositions.{DecompositionHolds};
ghost use Rattle.claim_conditions.specs.DecompositionConditions.{decomposition_conditions};
ghost use Rattle.claim_conditions.specs.Translates.{TauHolds, TransposeHolds, TauiHolds};
ghost use Rattle.claim_conditions.specs.TranslateConditions.{tau_conditions, transpose_conditions, taui_conditions};
ghost use Rattle.claim_conditions.specs.Sequences.{SequenceHolds};
ghost use Rattle.claim_conditions.specs.SequenceConditions.{SequenceRows, sequence_conditions};

/// Where the conditions on rows of homomorphisms hold, they are a basis of the homomorphisms.
pub fn homs()
    ensures { (h : Header) (a b : Module) (rows : PlainMatrix) → AllHold (hom_conditions h a b rows) → HomHolds h a b rows }
{}

/// Where the conditions on a kernel hold, and both maps are homomorphisms, it is the kernel.
pub fn kernels()
    ensures { (h : Header) (n a b : Module) (f i : List PlainMatrix) → MapHolds h n a i → MapHolds h a b f → AllHold (kernel_conditions ⊤ h n a b f i) → KernelHolds h n a b f i }
{}

/// Where the conditions on a cokernel hold, and both maps are homomorphisms, it is the cokernel.
pub fn cokernels()
    ensures { (h : Header) (n a b : Module) (f p : List PlainMatrix) → MapHolds h a b f → MapHolds h b n p → AllHold (cokernel_conditions ⊤ h n a b f p) → CokernelHolds h n a b f p }
{}

/// Where the conditions on a radical hold, and the map is a homomorphism, it is the radical.
pub fn radicals()
    ensures { (h : Header) (n a : Module) (i : List PlainMatrix) → MapHolds h n a i → AllHold (radical_conditions ⊤ h n a i) → RadicalHolds h n a i }
{}

/// Where the conditions on a decomposition hold, both maps are homomorphisms and each part is local, the module is the direct sum of these parts.
pub fn decompositions()
    ensures { (h : Header) (a s : Module) (parts : List Module) (to back : List PlainMatrix) → MapHolds h s a to → MapHolds h a s back → All (LocalHolds h) parts
        → AllHold (decomposition_conditions ⊤ h a s parts to back) → DecompositionHolds h a s parts to back }
{}

/// Where the conditions on terms hold, and they are those of a module over the algebra, they are a minimal projective resolution of it.
pub fn resolutions()
    ensures { (h : Header) (T : Sides h) (a : Module) (terms : List TermRows) (n : ℕ) → ModuleHolds h a → AllHold (resolution_conditions h T a terms n)
        → ResolutionHolds h T a terms n }
{}

/// Where the conditions on rows of extensions hold, over a resolution of one module, and the other is a module, they are a basis of the extensions.
pub fn extensions()
    ensures { (h : Header) (T : Sides h) (a b : Module) (terms : List TermRows) (n : ℕ) (rows : PlainMatrix) → ModuleHolds h b → ResolutionHolds h T a terms (suc n)
        → AllHold (extension_conditions ⊤ h T a b terms n rows) → ExtensionHolds h T a b terms n rows }
{}

/// Where the conditions on a basis of endomorphisms and on a certificate over it hold, the module is local.
pub fn locals()
    ensures { (h : Header) (m : Module) (basis ideal : PlainMatrix) (power : ℕ) (residue : Residue) → AllHold (hom_conditions h m m basis)
        → AllHold (local_conditions ⊤ h m basis ideal power residue) → LocalHolds h m }
{}

/// Where the conditions on a translate, a transpose or an inverse translate hold, over a resolution of length 1, it is one.
pub fn translates()
    ensures tau { (h : Header) (T : Sides h) (n a : Module) (terms : List TermRows) (embedding : List PlainMatrix) → ResolutionHolds h T a terms 1
        → AllHold (tau_conditions ⊤ h T n a terms embedding) → TauHolds h T n a terms embedding }
    ensures transpose { (h : Header) (T : Sides h) (n a : Module) (terms : List TermRows) (projection : List PlainMatrix) → ResolutionHolds h T a terms 1
        → AllHold (transpose_conditions ⊤ h T n a terms projection) → TransposeHolds h T n a terms projection }
    ensures taui { (h : Header) (T : Sides h) (n a b : Module) (terms : List TermRows) (projection : List PlainMatrix) → ResolutionHolds h T b terms 1
        → AllHold (taui_conditions ⊤ h T n a b terms projection) → TauiHolds h T n a b terms projection }
{}

/// Where the conditions on a sequence hold, over a resolution of length 1 and a certificate of the module that it ends in, and its maps are homomorphisms,
/// it is almost split.
pub fn sequences()
    ensures { (h : Header) (T : Sides h) (n e a : Module) (f g : List PlainMatrix) (terms : List TermRows) (basis ideal : PlainMatrix) (power : ℕ) (residue : Residue)
        (s : SequenceRows) → ModuleHolds h a → ResolutionHolds h T a terms 1 → AllHold (hom_conditions h a a basis)
        → AllHold (local_conditions ⊤ h a basis ideal power residue) → MapHolds h n e f → MapHolds h e a g
        → AllHold (sequence_conditions ⊤ h T n e a f g terms basis ideal s) → SequenceHolds h n e a f g }
{}
