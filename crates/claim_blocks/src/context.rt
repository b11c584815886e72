//! What the lines of a claim are read over: modules and claims by number.
ghost use Rattle.std.specs.Prelude.{ℕ, ◌≡◌, ◌<◌, ◌≤◌, MatchOption, IsTrue, ◌↔◌, length};
ghost use Rattle.claim_conditions.specs.Terms.{vertices_at};
ghost use Rattle.report_types.specs.declared.claims.Claim.TheVariants.{Module as module_claim};
ghost use Rattle.report_types.specs.NamedClaims.{HasLength, IsHomClaim, IsLocalClaim, terms_in, resolved_in, rows_in};
ghost use Rattle.report_types.specs.Numbers.{module_of, no_module, claim_of, NamesModule};
ghost use Rattle.report_types.specs.Limits.{unknown_limit};
ghost use Rattle.report_types.specs.WordDimensions.{dim_of, printed_words, unknown_count, count_at};
ghost use Rattle.claim_blocks.specs.Sums.{IsSum};

use crate::sums::{count_at, dim_at, unknown_count};
use module_types::{Map, Module, Side, TermRows};
use path_algebra::Header;
use quiver_paths::Path;
use report_types::{Claim, Records};
use std::marker::Model;

/// What the lines behind the first line of a claim are read over: the header, the records before that of the claim, and the objects of its own record.
/// Contracts see the header and the list of all these records; the claim of the last one is not known, and stands there as that of module 0.
#[derive(Drop)]
pub struct Context<'a> {
    pub header: &'a Header,
    pub before: &'a Records,
    pub modules: &'a [Module],
    pub maps: &'a [Map],
}

impl<'a> Model for Context<'a> {
    ghost use Rattle.claim_blocks.specs.Setting.{Setting, with_unclaimed};

    ghost Value = { Setting };

    ghost view = { λ c. record { header = c.header.now; records = with_unclaimed c.before.now c.modules.now c.maps.now } };
}

impl<'a> Context<'a> {
    /// The module with this number; none where there is no such module.
    pub fn module(&self, n: u32) -> Option<&Module>
        ensures { MatchOption result (module_of self.now.records n ≡ no_module) (λ m. m.now ≡ module_of self.now.records n) }
    {
        if let Some(found) = self.before.module(n) {
            return Some(found);
        }
        let before = self.before.module_count();
        if n <= before || (n - before) as usize > self.modules.len() {
            return None;
        }
        Some(&self.modules[(n - before) as usize - 1])
    }

    /// The dimensions of the module with this number, one for each vertex; none where there is no such module.
    pub fn dims(&self, n: u32) -> &[u32]
        ensures { result.now ≡ (module_of self.now.records n).dims }
    {
        let Some(module) = self.module(n) else {
            return &[];
        };
        module.dims.as_slice()
    }

    /// The dimension of the module with this number at a vertex; none where there is no such module or no such vertex.
    pub fn dim(&self, n: u32, vertex: usize) -> u32
        ensures { result ≡ dim_of self.now.header (module_of self.now.records n) vertex }
    {
        dim_at(self.header, self.dims(n), vertex)
    }

    /// The number of coordinates of maps from module `a` to module `b`; none where there are more than 1,024.
    pub fn unknown_count(&self, a: u32, b: u32) -> Option<u32>
        ensures { MatchOption result (unknown_limit < unknown_count self.now.header (module_of self.now.records a) (module_of self.now.records b))
            (IsSum unknown_limit (unknown_count self.now.header (module_of self.now.records a) (module_of self.now.records b))) }
    {
        unknown_count(self.header, self.dims(a), self.dims(b))
    }

    /// The number of coordinates of module `n` at some vertices; none where there are more than 1,024.
    pub fn count_at(&self, n: u32, vertices: &[u8]) -> Option<u32>
        ensures { MatchOption result (unknown_limit < count_at self.now.header (module_of self.now.records n) vertices.now)
            (IsSum unknown_limit (count_at self.now.header (module_of self.now.records n) vertices.now)) }
    {
        count_at(self.header, self.dims(n), vertices)
    }

    /// The side of the module with this number; the right where there is no such module.
    pub fn side(&self, n: u32) -> Side
        ensures { result ≡ (module_of self.now.records n).side }
    {
        let Some(module) = self.module(n) else {
            return Side::Right;
        };
        module.side
    }

    /// The earlier claim with this number; none where there is no such claim.
    pub fn claim(&self, n: u32) -> Option<&Claim>
        ensures { MatchOption result (claim_of self.now.records n ≡ module_claim 0) (λ c. c.now ≡ claim_of self.now.records n) }
    {
        let Some(found) = self.before.claim(n) else {
            return None;
        };
        Some(found)
    }

    /// The words that claim 1 prints; none where it is no claim of a basis.
    pub fn words(&self) -> &[Path]
        ensures { result.now ≡ printed_words self.now.records }
    {
        match self.claim(1) {
            Some(
                Claim::Basis {
                    words,
                    steps: _steps,
                    rules: _rules,
                },
            ) => words.as_slice(),
            _ => &[],
        }
    }

    /// The terms of the resolution that is the claim with this number; none where it is no resolution.
    pub fn terms(&self, n: u32) -> &[TermRows]
        ensures { result.now ≡ terms_in (claim_of self.now.records n) }
    {
        match self.claim(n) {
            Some(
                Claim::Resolution {
                    a: _a,
                    n: _n,
                    terms,
                },
            ) => terms.as_slice(),
            _ => &[],
        }
    }

    /// The number of the module that the claim with this number resolves; 0 where it is no resolution.
    pub fn resolved(&self, n: u32) -> u32
        ensures { result ≡ resolved_in (claim_of self.now.records n) }
    {
        match self.claim(n) {
            Some(
                Claim::Resolution {
                    a,
                    n: _n,
                    terms: _terms,
                },
            ) => *a,
            _ => 0,
        }
    }

    /// The vertices of a term of that resolution; none past its last term.
    pub fn vertices(&self, n: u32, term: u32) -> &[u8]
        ensures { result.now ≡ vertices_at (terms_in (claim_of self.now.records n)) term }
    {
        let terms = self.terms(n);
        let term = term as usize;
        if term >= terms.len() {
            return &[];
        }
        terms[term].vertices.as_slice()
    }

    /// Whether the claim with this number is a resolution of this length.
    pub fn has_length(&self, n: u32, length: u64) -> bool
        ensures { IsTrue result ↔ HasLength (claim_of self.now.records n) length }
    {
        match self.claim(n) {
            Some(
                Claim::Resolution {
                    a: _a,
                    n: found,
                    terms: _terms,
                },
            ) => *found as u64 == length,
            _ => false,
        }
    }

    /// Whether the claim with this number is one that a module is local.
    pub fn is_local(&self, n: u32) -> bool
        ensures { IsTrue result ↔ IsLocalClaim (claim_of self.now.records n) }
    {
        match self.claim(n) {
            Some(
                Claim::Local {
                    module: _module,
                    hom: _hom,
                    ideal: _ideal,
                    power: _power,
                    residue: _residue,
                },
            ) => true,
            _ => false,
        }
    }

    /// How many rows the claim on homomorphisms with this number has; none where it is of another kind.
    pub fn hom_rows(&self, n: u32) -> Option<u32>
        ensures { MatchOption result (¬ IsHomClaim (claim_of self.now.records n)) (λ k. IsHomClaim (claim_of self.now.records n) × (k ≡ (rows_in self.now.header.field (claim_of self.now.records n)).row_count)) }
    {
        match self.claim(n) {
            Some(Claim::Hom { a: _a, b: _b, rows }) => Some(rows.rows()),
            _ => None,
        }
    }
}
