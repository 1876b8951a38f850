//! Workers in threads that carry a job, one actor's turn at a time.
#![tactic(auto)]

mod alone;
mod apart;
mod carried;
mod carrying;
mod course;
mod crew;
mod gate;
mod gathering;
mod opening;
mod parting;
mod passes;
mod port;
mod rota;
mod rule;
mod seat;
mod seating;
mod three;
mod visiting;
mod watch;
mod ways;
mod worker;

pub use carried::Carried;
pub use carrying::{carry, carry_watched};
pub use crew::Crew;
pub use gate::{Gate, OpenGate};
pub use rota::{Rota, RotaPass};
pub use seat::Seat;
pub use watch::{NoWatch, Watch};
