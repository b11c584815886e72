//! The lines of modules, maps, matrices, rows and terms in a report: their spelling, writing them, and reading each by its tokens.
#![tactic(auto)]

mod matrices;
mod numbers;
mod objects;
mod rows;
mod singles;
mod terms;
mod writing;

pub use matrices::{read_at_arrow, read_at_vertex, read_matrix};
pub use numbers::{read_numbers, take_entries};
pub use objects::{ModuleHead, read_map, read_module};
pub use rows::{add_row_line, read_gen};
pub use singles::{is_left, is_middle, read_ideal, read_power, read_residue};
pub use terms::read_term;
pub use writing::{
    push_at_arrows, push_at_vertices, push_gen_line, push_ideal_line, push_left_line,
    push_map_line, push_middle_line, push_module_line, push_phi_line, push_power_line,
    push_residue_line, push_row_line, push_row_lines, push_term_line,
};
