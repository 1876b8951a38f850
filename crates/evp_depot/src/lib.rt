//! Where bytes come from and where they go: sources with names, and an output, as traits whose
//! contracts say what each answer means.
#![tactic(auto)]

mod depot;
mod file_depot;
mod memory_depot;
mod memory_sink;
mod reading;
mod sink;
mod std_sink;
mod writing;

pub use depot::{Depot, DepotFault};
pub use file_depot::FileDepot;
pub use memory_depot::MemoryDepot;
pub use memory_sink::MemorySink;
pub use reading::{Fetch, read_all};
pub use sink::{Sink, SinkFault};
pub use std_sink::StdSink;
pub use writing::{PutFault, write_all};
