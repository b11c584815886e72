//! The lines of a header: their spelling, writing them, and reading them in the strict form.
#![tactic(auto)]

mod arguments;
mod forms;
mod reader;
mod terms;
mod tokens;
mod writing;

pub use arguments::{is_new_arrow, is_new_vertex, only_number};
pub use forms::Form;
pub use reader::HeaderReader;
pub use terms::{are_related, has_term_length};
pub use tokens::{arrow_place, cut_coefficient, read_path, vertex_place};
pub use writing::{arrow_text, push_header, push_path, push_terms, vertex_text};
