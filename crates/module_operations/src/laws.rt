//! What is answered is determined by what is asked. The functions do nothing: their contracts are laws.
ghost use Rattle.std.specs.Prelude.{List};
ghost use Rattle.fp_linear.specs.Matrix.{PlainMatrix};
ghost use Rattle.path_algebra.specs.declared.Header.{Header};
ghost use Rattle.module_types.specs.declared.Module.{Module};
ghost use Rattle.module_operations.specs.Computed.{IsKernelBy, IsCokernelBy, IsImageBy, IsRadicalBy, IsTopBy};
ghost use Rattle.module_operations.specs.Determined.{AreEqual};

/// Two kernels of one map are equal with their inclusions, and so are two images, two cokernels with their projections, and two radicals and tops of one
/// module.
pub fn answers_are_determined()
    ensures kernels { (h : Header) (a b n m : Module) (f i j : List PlainMatrix) → IsKernelBy h a b n f i → IsKernelBy h a b m f j → AreEqual n m i j }
    ensures images { (h : Header) (a b n m : Module) (f i j : List PlainMatrix) → IsImageBy h a b n f i → IsImageBy h a b m f j → AreEqual n m i j }
    ensures cokernels { (h : Header) (a b n m : Module) (f p r : List PlainMatrix) → IsCokernelBy h a b n f p → IsCokernelBy h a b m f r → AreEqual n m p r }
    ensures radicals { (h : Header) (a n m : Module) (i j : List PlainMatrix) → IsRadicalBy h a n i → IsRadicalBy h a m j → AreEqual n m i j }
    ensures tops { (h : Header) (a n m : Module) (p r : List PlainMatrix) → IsTopBy h a n p → IsTopBy h a m r → AreEqual n m p r }
{}
