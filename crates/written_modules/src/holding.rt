//! Relations, long paths and squares of what is written.
ghost use Rattle.std.specs.Prelude.{◌≡◌, IfOk};
ghost use Rattle.path_algebra.specs.Allowed.{IsAllowed};
ghost use Rattle.bound_algebra.specs.TypedPaths.{quiver_of};
ghost use Rattle.module_types.specs.declared.Side.TheVariants.{Right};
ghost use Rattle.module_types.specs.Readings.{read, read_beside, family_of};
ghost use Rattle.module_types.specs.Shapes.{IsModule};
ghost use Rattle.module_faults.specs.ModuleFaults.{IsSmallModule};
ghost use Rattle.module_faults.specs.MapFaults.{HasMapShape, IsSmallMap};
ghost use Rattle.script_answers.specs.Refusals.{rep_holds};
ghost use Rattle.script_answers.specs.ZeroTests.{commutes};
ghost use Rattle.written_modules.specs.Tests.{Tested};

use crate::stops::Stop;
use fp_linear::Matrix;
use module_faults::{first_failing_arrow, first_failing_relation, first_long_path};
use module_types::Module;
use path_algebra::Header;
use report_types::Why;
use seq::Seq;
use std::alloc::Global;

/// Refuses a right module on which a relation or a path of the bound's length does not act as zero: for the first such relation, else for the first such path.
pub fn rep_holds(alloc: Global, header: &Header, m: &Module) -> Result<(), Stop>
    requires allowed { IsAllowed header.now }
    requires side { m.now.side ≡ Right }
    requires m { IsModule header.now.field (quiver_of header.now.quiver) m.now }
    ensures tested { Tested (rep_holds header.now m.now) result }
    ensures small { IfOk result (λ _. IsSmallModule header.now m.now) }
{
    if let Some(relation) = first_failing_relation(alloc, header, m)? {
        return Err(Stop::Refused(Why::RelationFails { relation }));
    }
    if let Some(path) = first_long_path(alloc, header, m)? {
        return Err(Stop::Refused(Why::BoundFails { path }));
    }
    Ok(())
}

/// Refuses matrices at the vertices that do not commute with those of an arrow, for the first such arrow.
pub fn map_holds(
    header: &Header,
    a: &Module,
    b: &Module,
    matrices: &Seq<Matrix>,
) -> Result<(), Stop>
    requires allowed { IsAllowed header.now }
    requires a { IsSmallModule header.now a.now }
    requires b { IsSmallModule header.now b.now }
    requires side { a.now.side ≡ b.now.side }
    requires matrices { HasMapShape header.now a.now b.now matrices.now }
    ensures tested { Tested (commutes (read header.now a.now) (read_beside header.now a.now b.now) (family_of (read header.now a.now) (read_beside header.now a.now b.now) matrices.now)) result }
    ensures small { IfOk result (λ _. IsSmallMap header.now a.now b.now matrices.now) }
{
    if let Some(arrow) = first_failing_arrow(header, a, b, matrices) {
        return Err(Stop::Refused(Why::NotHom { arrow }));
    }
    Ok(())
}
