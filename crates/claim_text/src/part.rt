//! What has been read of a report.

use claim_blocks::Block;
use claim_lines::{Head, Words};
use fp_linear::Matrix;
use header_text::HeaderReader;
use module_types::{Map, Module, Side};
use path_algebra::{Rule, Step};
use report_types::{End, Records};
use seq::Seq;

/// What the matrices of lines belong to: a module of this side, or a map from a module to another.
#[derive(Clone, Copy, Drop)]
pub enum Owner {
    Module { side: Side },
    Map { source: u32, target: u32 },
}

/// Where a report stands: before its title, among the lines of its header, before the number of words, among so many words,
/// and so on to the end of the basis; between whole objects and claims; among matrices; among the lines behind the first of a claim; behind its last line.
#[derive(Clone, Copy, Drop)]
pub enum Place {
    Title,
    Header,
    WordCount,
    Words(u64),
    StepCount,
    Steps(u64),
    RuleCount,
    Rules(u64),
    Between,
    Matrices(Owner),
    Block,
    Ended,
}

/// What has been read of a report: whole records, the objects of the record that is being read, and what was read of an object, of a basis or of another
/// claim.
#[derive(Drop)]
pub struct Part {
    pub front: HeaderReader,
    pub place: Place,
    pub line: u32,
    pub words: Words,
    pub steps: Seq<Step>,
    pub rules: Seq<Rule>,
    pub records: Records,
    pub modules: Seq<Module>,
    pub maps: Seq<Map>,
    pub dims: Seq<u32>,
    pub matrices: Seq<Matrix>,
    pub block: Option<Block>,
    pub end: End,
}

/// What may follow whole objects and claims: the first line of a module, a map or a claim, or the last line.
#[derive(Drop)]
pub enum Item {
    Module { side: Side, dims: Seq<u32> },
    Map { source: u32, target: u32 },
    Claim { line: u32, head: Head },
    End { end: End },
}
