//! Kernels, cokernels and images of homomorphisms.
ghost use Rattle.std.specs.Prelude.{◌≡◌, IfOk};
ghost use Rattle.path_algebra.specs.Allowed.{IsAllowed};
ghost use Rattle.module_types.specs.declared.Module.{Module as Printed};
ghost use Rattle.module_faults.specs.ModuleFaults.{IsSmallModule};
ghost use Rattle.module_faults.specs.MapFaults.{IsSmallMap};
ghost use Rattle.module_operations.specs.Computed.{IsKernelBy, IsCokernelBy, IsImageBy};

use crate::MappedModule;
use crate::quotient_modules::quotient_module;
use crate::submodules::submodule;
use crate::vertex_forms::{cokernel_projections, image_bases, kernel_bases};
use fp_linear::Matrix;
use module_types::Module;
use path_algebra::Header;
use seq::Seq;
use std::alloc::{AllocError, Global};

/// The kernel of the homomorphism with these matrices from `a`, and its inclusion, in reduced row form at each vertex.
pub fn kernel(
    alloc: Global,
    header: &Header,
    a: &Module,
    f: &Seq<Matrix>,
) -> Result<MappedModule, AllocError>
    requires allowed { IsAllowed header.now }
    requires source { IsSmallModule header.now a.now }
    requires map { (b : Printed) × IsSmallModule header.now b × IsSmallMap header.now a.now b f.now }
    ensures { (b : Printed) → IsSmallModule header.now b → IsSmallMap header.now a.now b f.now
        → IfOk result (λ n. IsKernelBy header.now a.now b n.module f.now n.matrices) }
{
    let matrices = kernel_bases(alloc, f)?;
    let module = submodule(alloc, header, a, &matrices)?;
    Ok(MappedModule { module, matrices })
}

/// The image of the homomorphism with these matrices to `b`, and its inclusion, in reduced row form at each vertex.
pub fn image(
    alloc: Global,
    header: &Header,
    b: &Module,
    f: &Seq<Matrix>,
) -> Result<MappedModule, AllocError>
    requires allowed { IsAllowed header.now }
    requires target { IsSmallModule header.now b.now }
    requires map { (a : Printed) × IsSmallModule header.now a × IsSmallMap header.now a b.now f.now }
    ensures { (a : Printed) → IsSmallModule header.now a → IsSmallMap header.now a b.now f.now
        → IfOk result (λ n. IsImageBy header.now a b.now n.module f.now n.matrices) }
{
    let matrices = image_bases(alloc, f)?;
    let module = submodule(alloc, header, b, &matrices)?;
    Ok(MappedModule { module, matrices })
}

/// The cokernel of the homomorphism with these matrices to `b`, and its projection, co-reduced at each vertex.
pub fn cokernel(
    alloc: Global,
    header: &Header,
    b: &Module,
    f: &Seq<Matrix>,
) -> Result<MappedModule, AllocError>
    requires allowed { IsAllowed header.now }
    requires target { IsSmallModule header.now b.now }
    requires map { (a : Printed) × IsSmallModule header.now a × IsSmallMap header.now a b.now f.now }
    ensures { (a : Printed) → IsSmallModule header.now a → IsSmallMap header.now a b.now f.now
        → IfOk result (λ n. IsCokernelBy header.now a b.now n.module f.now n.matrices) }
{
    let matrices = cokernel_projections(alloc, f)?;
    let module = quotient_module(alloc, header, b, &matrices)?;
    Ok(MappedModule { module, matrices })
}
