//! Sums of elements, which are kept as descending terms.
ghost use Rattle.std.specs.Prelude.{ℕ, ◌≡◌, ◌<◌, ◌≤◌, ◌+◌, length, drop, IfOk, OnOk};
ghost use Rattle.linear_algebra.specs.Field.{order, mul, add};
ghost use Rattle.quiver_paths.specs.declared.Path.{Path};
ghost use Rattle.path_algebra.specs.declared.Term.{Term};
ghost use Rattle.path_algebra.specs.Elements.{sum_of_terms};
ghost use Rattle.path_algebra.specs.Rules.{AreElementTerms};
ghost use Rattle.path_algebra.specs.ElementTerms.{IsMerging, AreTermsOf, IsJoined, plus_multiple};

use crate::{Header, Term};
use fp_linear::Field;
use quiver_paths::compare;
use std::alloc::{AllocError, Global};
use std::cmp::Ordering;

/// The terms of an element plus a multiple of another, the factor being from 1 to the field's size less 1.
pub fn plus_multiple(
    alloc: Global,
    header: &Header,
    first: &[Term],
    factor: u8,
    second: &[Term],
) -> Result<Vec<Term>, AllocError>
    requires first { AreElementTerms header.now first.now }
    requires second { AreElementTerms header.now second.now }
    requires nonzero { 0 < factor }
    requires small { factor < order header.now.field }
    ensures { IfOk result (λ sum. AreTermsOf header.now
        (plus_multiple header.now.field (sum_of_terms header.now.field header.now.bound first.now) factor (sum_of_terms header.now.field header.now.bound second.now)) sum.items) }
{
    let mut sum = Vec::new(alloc);
    let mut left = first;
    let mut right = second;
    while !left.is_empty() || !right.is_empty() {
        let taken = push_greatest(header, left, factor, right, &mut sum)?;
        left = &left[taken.0..];
        right = &right[taken.1..];
    }
    Ok(sum)
}

/// Writes the term of the greatest path that is left, if it is not zero; answers how many terms of each side went into it.
fn push_greatest(
    header: &Header,
    left: &[Term],
    factor: u8,
    right: &[Term],
    sum: &mut Vec<Term>,
) -> Result<(usize, usize), AllocError>
    requires left { AreElementTerms header.now left.now }
    requires right { AreElementTerms header.now right.now }
    requires nonzero { 0 < factor }
    requires small { factor < order header.now.field }
    requires some { 0 < length left.now + length right.now }
    ensures some { IfOk result (λ taken. 0 < taken.0 + taken.1) }
    ensures left { IfOk result (λ taken. taken.0 ≤ length left.now) }
    ensures right { IfOk result (λ taken. taken.1 ≤ length right.now) }
    ensures one { IfOk result (λ taken. (taken.0 ≤ 1) × (taken.1 ≤ 1)) }
    ensures merging { (total : Path → ℕ) → IsMerging header.now factor total sum.old.items left.now right.now
        → IfOk result (λ taken. IsMerging header.now factor total sum.new.items (drop taken.0 left.now) (drop taken.1 right.now)) }
{
    if right.is_empty() {
        sum.push(left[0].clone()?)?;
        return Ok((1, 0));
    }
    if left.is_empty() {
        sum.push(times(header.field, factor, &right[0])?)?;
        return Ok((0, 1));
    }
    let taken = push_greater(header, left, factor, right, sum)?;
    Ok(taken)
}

/// The same where there are terms on both sides.
fn push_greater(
    header: &Header,
    left: &[Term],
    factor: u8,
    right: &[Term],
    sum: &mut Vec<Term>,
) -> Result<(usize, usize), AllocError>
    requires left { AreElementTerms header.now left.now }
    requires right { AreElementTerms header.now right.now }
    requires nonzero { 0 < factor }
    requires small { factor < order header.now.field }
    requires left_some { 0 < length left.now }
    requires right_some { 0 < length right.now }
    ensures some { IfOk result (λ taken. 0 < taken.0 + taken.1) }
    ensures one { IfOk result (λ taken. (taken.0 ≤ 1) × (taken.1 ≤ 1)) }
    ensures merging { (total : Path → ℕ) → IsMerging header.now factor total sum.old.items left.now right.now
        → IfOk result (λ taken. IsMerging header.now factor total sum.new.items (drop taken.0 left.now) (drop taken.1 right.now)) }
{
    let first = &left[0];
    let second = &right[0];
    match compare(&first.path, &second.path) {
        Ordering::Greater => {
            sum.push(first.clone()?)?;
            Ok((1, 0))
        }
        Ordering::Less => {
            sum.push(times(header.field, factor, second)?)?;
            Ok((0, 1))
        }
        Ordering::Equal => {
            push_joined(header.field, first, factor, second, sum)?;
            Ok((1, 1))
        }
    }
}

/// A multiple of a term.
fn times(field: Field, factor: u8, term: &Term) -> Result<Term, AllocError>
    requires factor { factor < order field }
    requires term { term.now.coef < order field }
    ensures { IfOk result (λ multiple. multiple ≡ record { coef = mul field factor term.now.coef; path = term.now.path }) }
{
    let path = term.path.clone()?;
    Ok(Term {
        coef: field.mul(factor, term.coef),
        path,
    })
}

/// Writes the sum of a term and a multiple of one with the same path, if it is not zero.
fn push_joined(
    field: Field,
    left: &Term,
    factor: u8,
    right: &Term,
    sum: &mut Vec<Term>,
) -> Result<(), AllocError>
    requires factor { factor < order field }
    requires left { left.now.coef < order field }
    requires right { right.now.coef < order field }
    ensures { OnOk result (IsJoined field factor left.now right.now sum.old.items sum.new.items) }
{
    let coef = field.add(left.coef, field.mul(factor, right.coef));
    if coef == 0 {
        return Ok(());
    }
    let path = left.path.clone()?;
    sum.push(Term { coef, path })?;
    Ok(())
}
