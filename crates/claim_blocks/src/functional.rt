//! Reading the functional of a sequence, whose entries stand generator by generator.
ghost use Rattle.std.specs.Prelude.{decimal, IfOk, MatchBool};
ghost use Rattle.linear_algebra.specs.Rows.{IsRow};
ghost use Rattle.header_text.specs.Reading.{Reads};
ghost use Rattle.object_lines.specs.Spelling.{numbers_form, phi_line};
ghost use Rattle.object_lines.specs.Reading.{Takes, BeginsOtherwise, IsElement};
ghost use Rattle.claim_blocks.specs.SequenceBlocks.{functional_width};

use fp_linear::Field;
use object_lines::take_entries;
use seq::Seq;
use std::alloc::{AllocError, Global};
use text_lines::Parts;

/// Takes the entries of all these counts, one behind the other, behind those that are there, and says whether they were.
fn take_parts(
    entries: &mut Vec<u8>,
    field: Field,
    counts: &[u32],
    tokens: &mut Parts<'_>,
) -> Result<bool, AllocError>
    ensures { IfOk result (λ b. MatchBool b (Takes decimal (IsElement field) (functional_width counts.now) entries.old.items entries.new.items tokens.old tokens.new) (BeginsOtherwise decimal (IsElement field) (functional_width counts.now) tokens.old)) }
{
    for j in 0..counts.len() {
        let taken = take_entries(entries, field, counts[j], tokens)?;
        if !taken {
            return Ok(false);
        }
    }
    Ok(true)
}

/// The entries of a functional that are all that is left.
fn read_parts(
    alloc: Global,
    field: Field,
    counts: &[u32],
    tokens: Parts<'_>,
) -> Result<Option<Seq<u8>>, AllocError>
    ensures { IfOk result (λ r. Reads (IsRow field (functional_width counts.now)) numbers_form tokens.entry r) }
{
    let mut tokens = tokens;
    let mut entries = Vec::new(alloc);
    let taken = take_parts(&mut entries, field, counts, &mut tokens)?;
    if !taken {
        return Ok(None);
    }
    if !tokens.is_done() {
        return Ok(None);
    }
    Ok(Some(Seq::from_vec(entries)))
}

/// Reads the tokens of the line of a functional that has so many entries for each generator. `Ok(None)`: they are not those of such a line. `Err`: memory is
/// wanting.
pub(crate) fn read_functional(
    alloc: Global,
    field: Field,
    counts: &[u32],
    tokens: Parts<'_>,
) -> Result<Option<Seq<u8>>, AllocError>
    ensures { IfOk result (λ r. Reads (IsRow field (functional_width counts.now)) phi_line tokens.entry r) }
{
    let mut tokens = tokens;
    if !tokens.take_word(b"phi") {
        return Ok(None);
    }
    let row = read_parts(alloc, field, counts, tokens)?;
    Ok(row)
}
