//! The first gap of rules, which no script shows.
ghost use Rattle.std.specs.Prelude.{◌≡◌, ◌≤◌, [], ◌∷◌, IfOk};
ghost use Rattle.linear_algebra.specs.Field.{order};
ghost use Rattle.path_algebra.specs.Allowed.{IsAllowed};
ghost use Rattle.path_reduction.specs.Gaps.{AreTidy};
ghost use Rattle.acceptance.specs.Loops.{along, term, loop_arrow, two_loops, rules_of, AreLoops};

use fp_linear::Field;
use path_algebra::{Element, Header, Rule, Term};
use path_reduction::first_gap;
use quiver_paths::{Arrow, Name, Path, Quiver, paths_below};
use seq::Seq;
use std::alloc::{AllocError, Global};
use std::test::Fail;

fn loop_arrow(name: &[u8]) -> Result<Arrow, Fail>
    ensures { IfOk result (λ a. a ≡ loop_arrow name.now) }
{
    let name = Name::of(name).ok_or("no name")?;
    Ok(Arrow {
        name,
        from: 0,
        to: 0,
    })
}

fn quiver(alloc: Global) -> Result<Quiver, Fail>
    ensures { IfOk result (λ q. q ≡ record { vertices = (118 ∷ []) ∷ []; arrows = loop_arrow (120 ∷ []) ∷ loop_arrow (121 ∷ []) ∷ [] }) }
{
    let mut vertices = Seq::new(alloc);
    vertices.push(Name::of(b"v").ok_or("no name")?)?;
    let mut arrows = Seq::new(alloc);
    arrows.push(loop_arrow(b"x")?)?;
    arrows.push(loop_arrow(b"y")?)?;
    Ok(Quiver { vertices, arrows })
}

fn three() -> Result<Field, Fail>
    ensures { IfOk result (λ f. order f ≡ 3) }
{
    Ok(Field::of(3).ok_or("no field")?)
}

fn loops_header(alloc: Global) -> Result<Header, Fail>
    ensures header { IfOk result (λ h. h ≡ two_loops h.field 4) }
    ensures field { IfOk result (λ h. order h.field ≡ 3) }
{
    Ok(Header {
        field: three()?,
        quiver: quiver(alloc)?,
        bound: 4,
        relations: Seq::new(alloc),
    })
}

/// Two loops x and y at a vertex v over the field of 3 elements; paths of four loops are zero.
fn two_loops(alloc: Global) -> Result<Header, Fail>
    ensures { IfOk result AreLoops }
{
    let header = loops_header(alloc)?;
    Ok(header)
}

fn along(alloc: Global, arrows: &[u8]) -> Result<Path, AllocError>
    ensures { IfOk result (λ p. p ≡ along arrows.now) }
{
    Ok(Path {
        start: 0,
        end: 0,
        arrows: Seq::from_vec(Vec::from_slice(alloc, arrows)?),
    })
}

/// The rule that takes the tip to these terms.
fn rules_of(alloc: Global, tip: &[u8], terms: Seq<Term>) -> Result<Vec<Rule>, AllocError>
    ensures { IfOk result (λ rules. rules.items ≡ rules_of tip.now terms) }
{
    let mut rules = Vec::new(alloc);
    rules.push(Rule {
        tip: along(alloc, tip)?,
        tail: Element { terms },
        step: 1,
    })?;
    Ok(rules)
}

/// The terms of a multiple of a path.
fn multiple(alloc: Global, coef: u8, arrows: &[u8]) -> Result<Seq<Term>, AllocError>
    ensures { IfOk result (λ terms. terms ≡ term coef arrows.now ∷ []) }
{
    let path = along(alloc, arrows)?;
    let mut terms = Seq::new(alloc);
    terms.push(Term { coef, path })?;
    Ok(terms)
}

/// How many loops the path of the first gap has, its rule, and how many loops stand before the tip.
fn gap_of(alloc: Global, header: &Header, rules: &[Rule]) -> Result<Option<(usize, u32, u32)>, Fail>
    requires allowed { IsAllowed header.now }
    requires tidy { AreTidy header.now rules.now }
{
    let _paths = paths_below(alloc, &header.quiver, header.bound, 4096)?;
    if rules.len() > 4096 {
        return Err("too many rules".into());
    }
    match first_gap(alloc, header, rules)? {
        Some(gap) => Ok(Some((gap.path.arrows.len(), gap.rule, gap.at))),
        None => Ok(None),
    }
}

// x·x·x = 2·x·x takes x·x·x·x to a multiple of x·x·x, and not to zero.
#[test]
fn gap_of_a_cube(rt: HostRuntime) -> Result<(), Fail> {
    let header = two_loops(rt.alloc())?;
    let rules = rules_of(rt.alloc(), &[0, 0, 0], multiple(rt.alloc(), 2, &[0, 0])?)?;
    let gap = gap_of(rt.alloc(), &header, rules.as_slice())?;
    assert_eq!(rt; gap, Some((4, 1, 0)));
    Ok(())
}

#[test]
fn no_gap_of_a_square(rt: HostRuntime) -> Result<(), Fail> {
    let header = two_loops(rt.alloc())?;
    let rules = rules_of(rt.alloc(), &[0, 0], Seq::new(rt.alloc()))?;
    let gap = gap_of(rt.alloc(), &header, rules.as_slice())?;
    assert_eq!(rt; gap, None);
    Ok(())
}

// y·y = x·x takes y·y·y to x·x·y and to y·x·x.
#[test]
fn gap_of_equal_squares(rt: HostRuntime) -> Result<(), Fail> {
    let header = two_loops(rt.alloc())?;
    let rules = rules_of(rt.alloc(), &[1, 1], multiple(rt.alloc(), 1, &[0, 0])?)?;
    let gap = gap_of(rt.alloc(), &header, rules.as_slice())?;
    assert_eq!(rt; gap, Some((3, 1, 1)));
    Ok(())
}
