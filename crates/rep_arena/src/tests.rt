//! What no clause says: in which of the two arenas entries stand, that calls succeed, and that views cross threads.
ghost use Rattle.std.specs.Prelude.{◌≡◌, ◌<◌, [], ◌∷◌, IfOk};
ghost use Rattle.rep_arena.specs.Entries.{with_module};
ghost use Rattle.rep_arena.specs.OneLoop.{one_loop, loops};

use super::*;
use alg_table::{Table, check_basis};
use bumpalo::Bump;
use fp_linear::{Field, Matrix};
use path_algebra::Header;
use quiver_paths::{Arrow, Name, Path, Quiver};
use seq::Seq;
use std::alloc::{AllocError, Global};
use std::test::Fail;

fn one_arrow(alloc: Global) -> Result<Quiver, Fail>
    ensures { IfOk result (λ q. q ≡ record { vertices = (118 ∷ []) ∷ []; arrows = (record { name = 120 ∷ []; from = 0; to = 0 }) ∷ [] }) }
{
    let mut vertices = Seq::new(alloc);
    vertices.push(Name::of(b"v").ok_or("no name")?)?;
    let mut arrows = Seq::new(alloc);
    arrows.push(Arrow {
        name: Name::of(b"x").ok_or("no name")?,
        from: 0,
        to: 0,
    })?;
    Ok(Quiver { vertices, arrows })
}

fn loop_header(alloc: Global, field: Field) -> Result<Header, Fail>
    ensures { IfOk result (λ h. h ≡ one_loop field) }
{
    Ok(Header {
        field,
        quiver: one_arrow(alloc)?,
        bound: 3,
        relations: Seq::new(alloc),
    })
}

/// The path of so many loops.
fn along(alloc: Global, arrows: &[u8]) -> Result<Path, AllocError>
    ensures { IfOk result (λ p. p ≡ record { start = 0; end = 0; arrows = arrows.now }) }
{
    Ok(Path {
        start: 0,
        end: 0,
        arrows: Seq::from_vec(Vec::from_slice(alloc, arrows)?),
    })
}

fn words(alloc: Global) -> Result<Vec<Path>, AllocError>
    ensures { IfOk result (λ words. words.items ≡ loops) }
{
    let mut words = Vec::new(alloc);
    words.push(along(alloc, &[])?)?;
    words.push(along(alloc, &[0])?)?;
    words.push(along(alloc, &[0, 0])?)?;
    Ok(words)
}

/// A loop x, paths of three loops being zero.
fn loop_table(alloc: Global, field: Field) -> Result<Table, Fail> {
    let header = loop_header(alloc, field)?;
    let words = words(alloc)?;
    let table = check_basis(alloc, &header, &words, &[], &[]);
    match table {
        Ok(table) => Ok(table),
        Err(_) => Err("no table".into()),
    }
}

/// A square matrix with a 1 in row 1, column 2, and zeros elsewhere.
fn one_entry(alloc: Global, field: Field, size: u32) -> Result<Matrix, AllocError>
    requires from { 2 < size }
    requires to { size < 257 }
{
    let one = Matrix::from_entries(alloc, field, 1, 1, &[1])?;
    let none = Matrix::zero(alloc, field, 1, 1)?;
    let column = one.stack(alloc, &Matrix::zero(alloc, field, size - 1, 1)?)?;
    let second = none.stack(alloc, &one)?;
    let row = second.stack(alloc, &Matrix::zero(alloc, field, size - 2, 1)?)?;
    let row = row.transpose(alloc)?;
    column.mul(alloc, &row)
}

fn large_module(alloc: Global, field: Field) -> Result<Module, AllocError> {
    let mut dims = Seq::new(alloc);
    dims.push(256)?;
    let mut matrices = Seq::new(alloc);
    matrices.push(one_entry(alloc, field, 256)?)?;
    Ok(Module {
        side: Side::Right,
        dims,
        matrices,
    })
}

fn zero_module(alloc: Global, field: Field, dim: u32) -> Result<Module, AllocError>
    requires { dim < 257 }
{
    let mut dims = Seq::new(alloc);
    dims.push(dim)?;
    let mut matrices = Seq::new(alloc);
    matrices.push(Matrix::zero(alloc, field, dim, dim)?)?;
    Ok(Module {
        side: Side::Right,
        dims,
        matrices,
    })
}

fn added(arena: &mut Arena<'_, '_>, table: &Table, m: Module) -> Result<(), Fail>
    requires { table.now.header ≡ arena.old.header }
    ensures { IfOk result (λ _. arena.new ≡ with_module arena.old m) }
{
    if arena.module_count() > 9 {
        return Err("too many modules".into());
    }
    match arena.add_module(table, m) {
        Ok(_) => Ok(()),
        Err(_) => Err("not a module".into()),
    }
}

/// Of three modules the last is kept behind the first, and a fourth is let go: the first number of what is kept, how many modules there are in the session, and
/// the dimensions of the second.
fn last_kept(
    alloc: Global,
    table: &Table,
    session: &Bump,
    command: &Bump,
) -> Result<(u32, u32, Option<u32>), Fail> {
    let field = table.header().field;
    let mut arena = Session::new(alloc, table, session)?.begin(command);
    added(&mut arena, table, zero_module(alloc, field, 1)?)?;
    let mark = arena.mark();
    added(&mut arena, table, zero_module(alloc, field, 2)?)?;
    added(&mut arena, table, zero_module(alloc, field, 3)?)?;
    let kept = arena.keep(mark, &[RepId { number: 3 }], &[])?;
    let mark = arena.mark();
    added(&mut arena, table, zero_module(alloc, field, 4)?)?;
    arena.release(mark);
    let session = match arena.close() {
        Ok(session) => session,
        Err(_) => return Err("no memory to close".into()),
    };
    if session.module_count() < 2 {
        return Err("too few modules".into());
    }
    let dim = session.module(RepId { number: 2 }).dims().first().copied();
    Ok((kept.first_module, session.module_count(), dim))
}

#[test]
fn what_is_kept_stands_behind_the_mark(rt: HostRuntime) -> Result<(), Fail> {
    let alloc = rt.alloc();
    let table = loop_table(alloc, Field::of(2).ok_or("no field")?)?;
    let session = Bump::new(alloc);
    let command = Bump::new(alloc);
    let seen = last_kept(alloc, &table, &session, &command)?;
    assert!(rt; seen == (2, 2, Some(3)));
    Ok(())
}

fn crosses_threads<T: Send + Sync>(_value: &T) {}

/// Views cross threads.
fn views_cross_threads(m: &ModuleRef<'_>, f: &MapRef<'_>) {
    crosses_threads(m);
    crosses_threads(f);
}

/// The number that the module gets, and how many there are then in the arena and, once that is closed, in the session; 0 for what is refused.
fn added_and_closed(
    alloc: Global,
    table: &Table,
    session: &Bump,
    command: &Bump,
) -> Result<(u32, u32, u32), Fail> {
    let m = large_module(alloc, table.header().field)?;
    let mut arena = Session::new(alloc, table, session)?.begin(command);
    let number = match arena.add_module(table, m) {
        Ok(id) => id.number,
        Err(ModuleFault::NoMemory) => 0,
        Err(_) => return Err("not a module".into()),
    };
    match arena.close() {
        Ok(session) => Ok((number, session.module_count(), session.module_count())),
        Err(refused) => Ok((number, refused.arena.module_count(), 0)),
    }
}

#[test]
fn each_arena_has_its_entries(rt: HostRuntime) -> Result<(), Fail> {
    let alloc = rt.alloc();
    let table = loop_table(alloc, Field::of(2).ok_or("no field")?)?;
    for (session_limit, command_limit, wanted) in [
        (None, Some(4096usize), (0u32, 0u32, 0u32)),
        (Some(4096), None, (1, 1, 0)),
        (None, None, (1, 1, 1)),
    ] {
        let session = Bump::new(alloc);
        session.set_allocation_limit(session_limit);
        let command = Bump::new(alloc);
        command.set_allocation_limit(command_limit);
        let seen = added_and_closed(alloc, &table, &session, &command)?;
        assert!(rt;
            seen == wanted,
            "limits {session_limit:?} {command_limit:?}"
        );
    }
    Ok(())
}
