//! What a job document states.
use crate::SourceText;
use evp_base::Name;
use evp_file::KnownFormat;
use evp_graph::Routes;
use evp_stone::{Round, Stone};

/// What a job document states: a job without the records of its files.
#[derive(Drop)]
pub struct JobText {
    /// The longest record in bytes, 64 to 262,144; 4,096 where none is stated.
    pub limit: u32,
    /// The entries that a stone's queue holds, 1 to 4,096; 64 where none is stated.
    pub queue: u32,
    /// The formats' names.
    pub names: Vec<Name>,
    /// The formats, at most 256, with their identifiers, by the same numbers as their names.
    pub formats: Vec<KnownFormat>,
    /// The sources, 1 to 64.
    pub sources: Vec<SourceText>,
    /// The stones, 1 to 256.
    pub stones: Vec<Stone>,
    /// The rounds, 1 to 64.
    pub rounds: Vec<Round>,
    /// The routes of the graph of these sources and stones, at most 1,024.
    pub routes: Routes,
}
