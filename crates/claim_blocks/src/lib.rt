//! The lines behind the first line of a claim, read one by one.
#![tactic(auto)]

mod block;
mod context;
mod counts;
mod functional;
mod local_block;
mod part_matrices;
mod part_rows;
mod row_block;
mod sequence_block;
mod sums;
mod term_block;
mod vertex_block;

pub use block::Block;
pub use context::Context;
pub use local_block::{LocalBlock, LocalPlace};
pub use part_matrices::PartMatrices;
pub use part_rows::PartRows;
pub use row_block::{RowBlock, Space};
pub use sequence_block::{Sequence, SequenceBlock, SequencePlace};
pub use term_block::{TermBlock, TermPlace};
pub use vertex_block::VertexBlock;
