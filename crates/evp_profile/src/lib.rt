//! Formats laid out as C compilers lay out structures, for the machines of four profiles.
#![tactic(auto)]

mod alignment;
mod declaration;
mod laid_types;
mod laws;
mod laying_out;
mod placing;
mod profile;
mod stated;

pub use declaration::{Decl, TypeDecl};
pub use laws::layouts_are_exact;
pub use laying_out::lay_out;
pub use profile::Profile;
