//! Whether words, steps and rules are what a basis claim says, and the table that they make.
ghost use Rattle.std.specs.Prelude.{◌≡◌, IfOk};
ghost use Rattle.path_algebra.specs.declared.rules.BasisFault.{BasisFault};
ghost use Rattle.path_algebra.specs.Allowed.{IsAllowed};
ghost use Rattle.path_algebra.specs.BasisClauses.{IsBasisClaim, MeetsClauses, IsFirstFault};
ghost use Rattle.alg_table.specs.TableView.{IsTable, AreTableRows};
ghost use Rattle.alg_table.specs.declared.checking.CheckBasisError.TheVariants.{Fault, NoMemory};

use crate::places::place_lists;
use crate::{Table, first_fault};
use path_algebra::{BasisFault, Header, Rule, Step};
use quiver_paths::Path;
use seq::Seq;
use std::alloc::{AllocError, Global};
use thiserror::Error;
use word_products::{SparseRows, products_if_action_holds};

/// Why words, steps and rules make no table.
#[derive(Debug, Drop, Error)]
pub enum CheckBasisError {
    /// This is the first condition that fails.
    #[error("the words, steps and rules fail a condition: {0:?}")]
    Fault(BasisFault),
    /// There was no memory.
    #[error("no memory")]
    NoMemory,
}

impl From<AllocError> for CheckBasisError {
    ghost from_gives = { λ _ e. e ≡ NoMemory };

    fn from(_none: AllocError) -> CheckBasisError {
        CheckBasisError::NoMemory
    }
}

/// The table of the algebra over these words, where they, the steps and the rules meet the five conditions on a basis.
///
/// `Fault` comes exactly where a condition fails, and names the first. (Green.)
pub fn check_basis(
    alloc: Global,
    header: &Header,
    words: &[Path],
    steps: &[Step],
    rules: &[Rule],
) -> Result<Table, CheckBasisError>
    requires allowed { IsAllowed header.now }
    requires claim { IsBasisClaim header.now words.now steps.now rules.now }
    ensures header { IfOk result (λ table. table.header ≡ header.now) }
    ensures words { IfOk result (λ table. table.words ≡ words.now) }
    ensures holds { IfOk result (λ table. MeetsClauses header.now words.now steps.now rules.now) }
    ensures fault { (fault : BasisFault) → result ≡ Err (Fault fault) → IsFirstFault header.now words.now steps.now rules.now fault }
{
    if let Some(fault) = first_fault(alloc, header, words, steps, rules)? {
        return Err(CheckBasisError::Fault(fault));
    }
    match products_if_action_holds(alloc, header, words, rules)? {
        None => Err(CheckBasisError::Fault(BasisFault::Action)),
        Some(rows) => {
            let table = table_of(alloc, header, words, rows)?;
            Ok(table)
        }
    }
}

/// The table of a header, its words and the rows of their products.
fn table_of(
    alloc: Global,
    header: &Header,
    words: &[Path],
    rows: SparseRows,
) -> Result<Table, AllocError>
    requires table { IsTable header.now words.now }
    requires rows { AreTableRows header.now words.now rows }
    ensures { IfOk result (λ table. table ≡ record { header = header.now; words = words.now }) }
{
    let places = place_lists(alloc, words, header.quiver.vertices.len() as u8)?;
    let header = header.clone()?;
    let words = copied(alloc, words)?;
    Ok(Table::new(header, words, rows, places))
}

/// A copy of paths.
fn copied(alloc: Global, paths: &[Path]) -> Result<Seq<Path>, AllocError>
    ensures { IfOk result (λ copy. copy ≡ paths.now) }
{
    let mut copy = Vec::new(alloc);
    copy.extend_with_clones(paths)?;
    Ok(Seq::from_vec(copy))
}
