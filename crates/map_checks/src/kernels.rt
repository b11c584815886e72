//! The first condition on a kernel or a cokernel that fails.
ghost use Rattle.std.specs.Prelude.{ℕ, ⊤, ◌≤◌, length};
ghost use Rattle.bound_algebra.specs.TypedPaths.{quiver_of};
ghost use Rattle.module_types.specs.Algebras.{algebra_at};
ghost use Rattle.module_types.specs.Shapes.{IsModule, IsMap};
ghost use Rattle.claim_conditions.specs.Conditions.{IsAnswer};
ghost use Rattle.claim_conditions.specs.KernelConditions.{kernel_conditions, cokernel_conditions};

use claim_conditions::Clause;
use fp_linear::Matrix;
use module_checks::{are_column_reduced, are_reduced, are_zero_products, have_ranks};
use module_types::Module;
use path_algebra::Header;
use seq::Seq;

/// The first condition on a kernel that fails, where the numbers say that `i` goes from `n` to `a`, and `f` from `a` to `b`. All modules are read on the
/// side of `a`, whatever side they say they have. The slices are worked in: 65,536 bytes and 256 numbers.
pub fn first_failing_kernel(
    header: &Header,
    n: &Module,
    a: &Module,
    b: &Module,
    f: &Seq<Matrix>,
    i: &Seq<Matrix>,
    entries: &mut [u8],
    pivots: &mut [u32],
) -> Option<Clause>
    requires n { IsModule header.now.field (algebra_at n.now.side header.now).quiver n.now }
    requires a { IsModule header.now.field (algebra_at a.now.side header.now).quiver a.now }
    requires b { IsModule header.now.field (algebra_at b.now.side header.now).quiver b.now }
    requires f { IsMap header.now.field (quiver_of header.now.quiver) a.now b.now f.now }
    requires i { IsMap header.now.field (quiver_of header.now.quiver) n.now a.now i.now }
    requires entries { 65536 ≤ length entries.old }
    requires pivots { 256 ≤ length pivots.old }
    ensures { IsAnswer (kernel_conditions ⊤ header.now n.now a.now b.now f.now i.now) result }
{
    if !are_reduced(i) {
        return Some(Clause::Reduced);
    }
    if !are_zero_products(header.field, i, f) {
        return Some(Clause::Zero);
    }
    if !have_ranks(&n.dims, &a.dims, f, entries, pivots) {
        return Some(Clause::All);
    }
    None
}

/// The first condition on a cokernel that fails, where the numbers say that `f` goes from `a` to `b`, and `p` from `b` to `n`. All modules are read on the
/// side of `a`, whatever side they say they have. The slices are worked in: 65,536 bytes and 256 numbers.
pub fn first_failing_cokernel(
    header: &Header,
    n: &Module,
    a: &Module,
    b: &Module,
    f: &Seq<Matrix>,
    p: &Seq<Matrix>,
    entries: &mut [u8],
    pivots: &mut [u32],
) -> Option<Clause>
    requires n { IsModule header.now.field (algebra_at n.now.side header.now).quiver n.now }
    requires a { IsModule header.now.field (algebra_at a.now.side header.now).quiver a.now }
    requires b { IsModule header.now.field (algebra_at b.now.side header.now).quiver b.now }
    requires f { IsMap header.now.field (quiver_of header.now.quiver) a.now b.now f.now }
    requires p { IsMap header.now.field (quiver_of header.now.quiver) b.now n.now p.now }
    requires entries { 65536 ≤ length entries.old }
    requires pivots { 256 ≤ length pivots.old }
    ensures { IsAnswer (cokernel_conditions ⊤ header.now n.now a.now b.now f.now p.now) result }
{
    if !are_column_reduced(p) {
        return Some(Clause::Reduced);
    }
    if !are_zero_products(header.field, f, p) {
        return Some(Clause::Zero);
    }
    if !have_ranks(&n.dims, &b.dims, f, entries, pivots) {
        return Some(Clause::All);
    }
    None
}
