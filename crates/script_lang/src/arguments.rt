//! The arguments of a line, which are the tokens behind its first.
ghost use Rattle.std.specs.Prelude.{◌≡◌, IfOk, MatchOption, Some, None};
ghost use Rattle.script_lang.specs.Arguments.{one_of, two_of, three_of, four_of, numbers_in, is_slash, matrix_in};

use super::tokens::{is_word, read_number};
use seq::Seq;
use std::alloc::{AllocError, Global};
use text_lines::Words;

/// The only argument.
pub fn one_word<'a>(words: &mut Words<'a>) -> Option<&'a [u8]>
    ensures { MatchOption result (one_of words.old ≡ None) (λ a. one_of words.old ≡ Some a.now) }
{
    let first = words.next_word()?;
    match words.next_word() {
        Some(_) => None,
        None => Some(first),
    }
}

/// The arguments, where there are two.
pub fn two_words<'a>(words: &mut Words<'a>) -> Option<(&'a [u8], &'a [u8])>
    ensures { MatchOption result (two_of words.old ≡ None) (λ x. two_of words.old ≡ Some (x.0.now, x.1.now)) }
{
    let first = words.next_word()?;
    let second = one_word(words)?;
    Some((first, second))
}

/// The arguments, where there are three.
pub fn three_words<'a>(words: &mut Words<'a>) -> Option<(&'a [u8], &'a [u8], &'a [u8])>
    ensures { MatchOption result (three_of words.old ≡ None) (λ x. three_of words.old ≡ Some (x.0.now, x.1.now, x.2.now)) }
{
    let first = words.next_word()?;
    let (second, third) = two_words(words)?;
    Some((first, second, third))
}

/// The arguments, where there are four.
pub fn four_words<'a>(words: &mut Words<'a>) -> Option<(&'a [u8], &'a [u8], &'a [u8], &'a [u8])>
    ensures { MatchOption result (four_of words.old ≡ None) (λ x. four_of words.old ≡ Some (x.0.now, x.1.now, x.2.now, x.3.now)) }
{
    let first = words.next_word()?;
    let (second, third, fourth) = three_words(words)?;
    Some((first, second, third, fourth))
}

/// Numbers up to `most`, as many as there are. None where a token is no such number.
pub fn read_numbers(
    alloc: Global,
    words: &mut Words<'_>,
    most: u32,
) -> Result<Option<Seq<u32>>, AllocError>
    ensures { IfOk result (λ r. r ≡ numbers_in most words.old) }
{
    let mut numbers = Seq::new(alloc);
    while let Some(word) = words.next_word() {
        let Some(n) = read_number(word, most) else {
            return Ok(None);
        };
        numbers.push(n)?;
    }
    Ok(Some(numbers))
}

fn is_slash(token: &[u8]) -> bool
    ensures { result ≡ is_slash token.now }
{
    is_word(token, b"/")
}

/// Rows of numbers up to `most`, with a `/` between each two. None where the tokens are something else.
pub fn read_matrix(
    alloc: Global,
    words: &mut Words<'_>,
    most: u8,
) -> Result<Option<Seq<Seq<u8>>>, AllocError>
    ensures { IfOk result (λ r. r ≡ matrix_in most words.old) }
{
    let mut rows = Seq::new(alloc);
    let mut row = Seq::new(alloc);
    while let Some(word) = words.next_word() {
        if is_slash(word) {
            if row.is_empty() {
                return Ok(None);
            }
            rows.push(row)?;
            row = Seq::new(alloc);
        } else {
            let Some(n) = read_number(word, most as u32) else {
                return Ok(None);
            };
            row.push(n as u8)?;
        }
    }
    if row.is_empty() {
        if rows.is_empty() {
            return Ok(Some(rows));
        }
        return Ok(None);
    }
    rows.push(row)?;
    Ok(Some(rows))
}
