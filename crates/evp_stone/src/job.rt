//! Jobs.
ghost use Rattle.std.specs.Prelude.{◌≡◌};
ghost use Rattle.evp_stone.specs.Job.{IsJob};
ghost use Rattle.evp_stone.specs.Parts.{job_of};

use crate::round::Round;
use crate::source::Source;
use crate::stone::Stone;
use evp_format::Format;
use evp_graph::Routes;
use std::marker::Model;

/// The parts of a job.
#[derive(Drop)]
pub struct JobParts {
    /// The declared formats, then those of the files.
    pub formats: Vec<Format>,
    /// How many formats are declared.
    pub declared: u16,
    /// The longest record in bytes, as it comes and as it is converted.
    pub limit: u32,
    /// How many entries a queue between stones holds.
    pub queue: u32,
    pub sources: Vec<Source>,
    pub stones: Vec<Stone>,
    pub rounds: Vec<Round>,
    /// The routes of the graph of these sources and stones.
    pub routes: Routes,
}

/// A job: sources, stones and rounds that agree with each other and keep the limits.
#[derive(Drop)]
pub struct Job {
    parts: JobParts,
}

impl Model for Job {
    ghost use Rattle.evp_stone.specs.JobShape.{JobShape};

    ghost Value = { JobShape };

    ghost use Rattle.std.specs.Coded.{codes};
    ghost use Rattle.evp_base.specs.contracts.order.Order as order;
    ghost use Rattle.evp_format.specs.contracts.record_type.RecordType as record_type;
    ghost use Rattle.evp_graph.specs.contracts.route.Route as route;
    ghost use Rattle.evp_stone.specs.contracts.round.Round as round;
    ghost use Rattle.evp_stone.specs.contracts.source.Source as source;
    ghost use Rattle.evp_stone.specs.contracts.stone.Stone as stone;

    ghost coded = { Prim.hlevel (
      codes,
      order.the_row.coded,
      record_type.the_row.coded,
      route.the_row.coded,
      round.the_row.coded,
      source.the_row.coded,
      stone.the_row.coded,
    ) };

    ghost use Rattle.evp_stone.specs.Job.{IsJob};
    ghost use Rattle.evp_stone.specs.Parts.{job_of};

    ghost view = { λ j. job_of j.parts };

    ghost invariant = { λ j. IsJob (job_of j.parts) };
}

impl Job {
    /// The job of these parts. Takes no memory.
    pub fn new(parts: JobParts) -> Job
        requires { IsJob (job_of parts) }
        ensures { result ≡ job_of parts }
    {
        Job { parts }
    }

    /// The parts of the job.
    pub fn parts(&self) -> &JobParts
        ensures value { job_of result.now ≡ self.now }
        ensures kept { IsJob self.now }
    {
        &self.parts
    }
}
