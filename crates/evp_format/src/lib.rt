//! Formats of records, their values, and what every operation on records means.
#![tactic(auto)]

mod broken;
mod broken_text;
mod clash;
mod description;
mod draft;
mod field;
mod format;
mod format_id;
mod laws;
mod layout_fault;
mod lead;
mod leads;
mod path;
mod place;
mod record_type;
mod type_text;
mod types_so_far;
mod value;
mod value_equality;
mod whole_type;

pub use broken::Broken;
pub use broken_text::BrokenText;
pub use clash::clash_of;
pub use description::{
    descriptions_are_distinct, faults_are_exact, read_description, write_description,
};
pub use draft::{DraftField, DraftShape};
pub use field::{Base, Field, Shape};
pub use format::Format;
pub use format_id::{FormatId, id_of};
pub use laws::{
    converted_is_receivers, converted_to_itself, earlier_trees_stay, zero_is_of_format,
};
pub use layout_fault::{LayoutFault, Which};
pub use lead::{Count, Inside, Lead, Run};
pub use path::path_of;
pub use place::{Place, PlaceStep};
pub use record_type::{Fields, RecordType};
pub use types_so_far::TypesSoFar;
pub use value::{Items, Members, TextBytes, Value};
