//! Calls on a table that no script reaches yet: products of words with arrows, places of words, normal forms of paths.
ghost use Rattle.std.specs.Prelude.{IfSome, IfOk};
ghost use Rattle.report_types.specs.Lawful.{IsReport};
ghost use Rattle.quiver_paths.specs.Path.{IsPath};

use alg_table::{Side, Table, check_basis};
use claim_text::read;
use quiver_paths::{Path, Quiver, concat};
use report_types::{Claim, Report};
use std::alloc::Global;
use std::test::Fail;

/// One loop x with x·x = 0, by x·x + x·x·x = 0 and x·x·x·x = 0 over the field of 3 elements: the words are the vertex and x.
const LOOP: &str = "report 1
field 3
vertex v
arrow x v v
bound 4
relation x.x + x.x.x
claim 1 line 6 basis
words 2
word @v
word x
steps 3
step 1 relation 1
step 2 right 1 x
step 3 add 1 2 2
rules 1
rule x.x -> 0 by 3
end 1
";

/// The table of a report's basis.
fn table_of(alloc: Global, report: &Report) -> Result<Table, Fail>
    requires { IsReport report.now }
{
    let Some(first) = report.records.record_at(1) else {
        return Err("no claim".into());
    };
    let Claim::Basis {
        words,
        steps,
        rules,
    } = &first.claim
    else {
        return Err("no basis".into());
    };
    match check_basis(
        alloc,
        &report.header,
        words.as_slice(),
        steps.as_slice(),
        rules.as_slice(),
    ) {
        Ok(table) => Ok(table),
        Err(_) => Err("no basis".into()),
    }
}

/// The table of the loop.
fn loop_table(alloc: Global) -> Result<Table, Fail> {
    match read(alloc, LOOP.as_bytes()) {
        Ok(report) => table_of(alloc, &report),
        Err(_) => Err("no report".into()),
    }
}

/// The coordinates of the product of a word with an arrow.
fn product(
    alloc: Global,
    table: &Table,
    side: Side,
    word: u32,
    arrow: u8,
) -> Result<Vec<u8>, Fail> {
    if word >= table.word_count() || usize::from(arrow) >= table.header().quiver.arrows.len() {
        return Err("no such product".into());
    }
    let mut row = vec![in alloc; 7u8; table.word_count() as usize]?;
    table.act(side, word, arrow, row.as_mut_slice());
    Ok(row)
}

#[test]
fn products_with_the_loop(rt: HostRuntime) -> Result<(), Fail> {
    let table = loop_table(rt.alloc())?;
    for side in [Side::Right, Side::Left] {
        let row = product(rt.alloc(), &table, side, 0, 0)?;
        assert_eq!(rt; row.as_slice(), [0, 1].as_slice());
        let row = product(rt.alloc(), &table, side, 1, 0)?;
        assert_eq!(rt; row.as_slice(), [0, 0].as_slice());
    }
    Ok(())
}

/// The places of the words from the vertex to itself.
fn places(table: &Table, side: Side) -> Option<&[u32]> {
    if table.header().quiver.vertices.is_empty() {
        return None;
    }
    Some(table.words_at(side, 0, 0))
}

#[test]
fn places_of_words(rt: HostRuntime) -> Result<(), Fail> {
    let table = loop_table(rt.alloc())?;
    assert_eq!(rt; table.word_count(), 2);
    for side in [Side::Right, Side::Left] {
        let places = places(&table, side).ok_or("no vertex")?;
        assert_eq!(rt; places, [0, 1].as_slice());
    }
    Ok(())
}

/// The word at a place, which is a path.
fn word_path(table: &Table, i: u32) -> Option<&Path>
    ensures { IfSome result (λ p. IsPath table.now.header.quiver p.now) }
{
    let _header = table.header();
    if i >= table.word_count() {
        return None;
    }
    Some(table.word(i))
}

/// The first path and then the second.
fn joined(alloc: Global, quiver: &Quiver, a: &Path, b: &Path) -> Result<Path, Fail>
    requires first { IsPath quiver.now a.now }
    requires second { IsPath quiver.now b.now }
    ensures { IfOk result (IsPath quiver.now) }
{
    if a.arrows.len() > 32 || b.arrows.len() > 32 {
        return Err("too long".into());
    }
    match concat(alloc, quiver, a, b)? {
        Some(path) => Ok(path),
        None => Err("they do not meet".into()),
    }
}

/// The path of so many loops, 5 where there are more than 2.
fn power(alloc: Global, table: &Table, count: u8) -> Result<Path, Fail>
    ensures { IfOk result (IsPath table.now.header.quiver) }
{
    let quiver = &table.header().quiver;
    let start = word_path(table, 0).ok_or("no vertex")?;
    let x = word_path(table, 1).ok_or("no loop")?;
    if count == 0 {
        return joined(alloc, quiver, start, start);
    }
    if count == 1 {
        return joined(alloc, quiver, x, start);
    }
    let two = joined(alloc, quiver, x, x)?;
    if count == 2 {
        return Ok(two);
    }
    let three = joined(alloc, quiver, &two, x)?;
    joined(alloc, quiver, &two, &three)
}

/// The coordinates of the path of so many loops.
fn form_of(alloc: Global, table: &Table, count: u8) -> Result<Vec<u8>, Fail> {
    let path = power(alloc, table, count)?;
    let mut row = vec![in alloc; 7u8; table.word_count() as usize]?;
    table.normal_form(&path, row.as_mut_slice());
    Ok(row)
}

#[test]
fn normal_forms_of_powers(rt: HostRuntime) -> Result<(), Fail> {
    let table = loop_table(rt.alloc())?;
    for (count, want) in [(0, [1, 0]), (1, [0, 1]), (2, [0, 0]), (5, [0, 0])] {
        let row = form_of(rt.alloc(), &table, count)?;
        assert_eq!(rt; row.as_slice(), want.as_slice(), "{count}");
    }
    Ok(())
}
