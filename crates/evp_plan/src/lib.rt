//! Conversion plans: what has to be done to a record of one format to make it one of another.
#![tactic(auto)]

mod block;
mod build_fault;
mod building;
mod builds;
mod cell;
mod compiling;
mod cutting;
mod fill;
mod fitting;
mod forms;
mod fours;
mod gather;
mod gathering;
mod laid;
mod lane_tests;
mod matching;
mod moves;
mod pairing;
mod plan;
mod quick;
mod quick_tests;
mod quiet;
mod running;
mod running_pairs;
mod series;
mod step;
mod table;
mod told;
mod windows;
mod words;

pub use block::{Array, Block, Form, Text};
pub use build_fault::BuildFault;
pub use building::build;
pub use builds::Builds;
pub use cell::Cell;
pub use laid::Laid;
pub use moves::Moves;
pub use plan::Plan;
pub use quick::Quick;
pub use quick_tests::QuickTests;
pub use series::Series;
pub use step::{Elements, Op, Origin, Part, Run, Source, Step, Steps, Task};
pub use words::Words;
