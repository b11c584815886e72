//! What holds of printed modules, maps and terms, and of what they are read as. The functions do nothing: their contracts are laws. Chapters are
//! those of Assem, Simson, Skowroński, volume 1.

pub mod modules;
pub mod terms;
pub mod translates;
