//! Deciding the conditions on modules, maps and bases of homomorphisms in lent memory: nothing is allocated, and each call answers on all numbers that
//! have the shapes.
#![tactic(auto)]

mod clearing;
mod column_reduced;
mod folding;
mod hom;
mod homs;
mod images;
mod long_paths;
mod maps;
mod meeting;
mod modules;
mod products;
mod ranks;
mod reduced;
mod relations;
mod spreading;
mod vertex_matrices;
mod walking;
mod zero_products;

pub use clearing::clear;
pub use column_reduced::{is_column_reduced, unit_entry};
pub use folding::{fold_arrow, make_room};
pub use hom::first_failing_hom;
pub use homs::equations_rank;
pub use images::fold_images;
pub use long_paths::{first_place, long_paths_act_as_zero, next_images, write_unit_rows};
pub use maps::{is_homomorphism, same_side};
pub use meeting::all_meet;
pub use modules::is_module;
pub use products::products_agree;
pub use ranks::{have_ranks, rank_of};
pub use reduced::is_reduced;
pub use relations::{acts_as_zero, relations_act_as_zero};
pub use spreading::add_row;
pub use vertex_matrices::{are_column_reduced, are_reduced};
pub use zero_products::{are_unit_products, are_zero_products, is_unit_product, is_zero_product};
