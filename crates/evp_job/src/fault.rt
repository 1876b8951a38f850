//! Why a document states no job.

ghost use Rattle.std.specs.Prelude.{◌≡◌, ◌⊎◌, ◌∷◌, Some, IfOk};
ghost use Rattle.evp_job.specs.declared.fault.JobFault.TheVariants as fault;
ghost use Rattle.evp_job.specs.FaultText.{job_fault_text};
ghost use Rattle.evp_job.specs.Steps.{behind};

use evp_base::{FieldPath, Memory, Step};
use evp_eval::BindFault;
use evp_expr::ExprFault;
use evp_format::LayoutFault;
use evp_graph::GraphFault;
use std::alloc::{AllocError, AllocFailed};
use std::error::Error;
use std::fmt;

/// The first fault of a job document, in the order in which it is read (`docs/FORMATS.md`, "Job
/// documents"). Formats, sources, stones and settings go by their numbers, counted from 0. Paths
/// lead from the document to the place.
#[derive(Debug, Drop)]
pub enum JobFault {
    /// What stands there isn't of its form, or nothing does, or it has a member that it may not
    /// have.
    Member(FieldPath),
    /// The types of this format have this fault.
    Layout(u16, LayoutFault),
    /// No format has the name that stands there.
    UnknownFormat(FieldPath),
    /// An expression's text has this fault: the stone, and its setting or 0.
    Expr(u16, u16, ExprFault),
    /// An expression has no meaning in the stone's format: the stone, and its setting or 0.
    Bind(u16, u16, BindFault),
    /// A stone's setting names no field that may be set.
    SetTarget(u16, u16),
    /// Sources and stones are no graph.
    Graph(GraphFault),
    /// There are more than 1,024 routes.
    Routes,
    /// A source submits this many records of that many.
    Submit(u16, u64, u64),
    /// So many records at this limit are too much.
    Carriage(u64, u32),
    /// The number that stands there, or the length of the list, is out of its range.
    Limit(FieldPath, u64),
    /// This format's record is longer than the limit.
    RecordLength(u16),
    /// An earlier format or source has the name that stands there.
    Twice(FieldPath),
    /// There was no memory for the job.
    Memory,
}

impl JobFault {
    /// The same fault, where its path begins with a further step in front; `Memory` where the
    /// longer path found none.
    pub(crate) fn under(self, step: Step) -> JobFault
        ensures { (result ≡ behind step self) ⊎ (result ≡ fault.Memory) }
    {
        match self.lowered(step) {
            Ok(fault) => fault,
            Err(_) => JobFault::Memory,
        }
    }

    fn lowered(self, step: Step) -> Result<JobFault, Memory>
        ensures { IfOk result (λ fault. fault ≡ behind step self) }
    {
        match self {
            JobFault::Member(path) => Ok(JobFault::Member(longer(path, step)?)),
            JobFault::UnknownFormat(path) => Ok(JobFault::UnknownFormat(longer(path, step)?)),
            JobFault::Limit(path, number) => Ok(JobFault::Limit(longer(path, step)?, number)),
            JobFault::Twice(path) => Ok(JobFault::Twice(longer(path, step)?)),
            JobFault::Layout(format, fault) => Ok(JobFault::Layout(format, fault)),
            JobFault::Expr(stone, setting, fault) => Ok(JobFault::Expr(stone, setting, fault)),
            JobFault::Bind(stone, setting, fault) => Ok(JobFault::Bind(stone, setting, fault)),
            JobFault::SetTarget(stone, setting) => Ok(JobFault::SetTarget(stone, setting)),
            JobFault::Graph(fault) => Ok(JobFault::Graph(fault)),
            JobFault::Routes => Ok(JobFault::Routes),
            JobFault::Submit(source, asked, held) => Ok(JobFault::Submit(source, asked, held)),
            JobFault::Carriage(carried, limit) => Ok(JobFault::Carriage(carried, limit)),
            JobFault::RecordLength(format) => Ok(JobFault::RecordLength(format)),
            JobFault::Memory => Ok(JobFault::Memory),
        }
    }
}

// The path with a step in front.
fn longer(path: FieldPath, step: Step) -> Result<FieldPath, Memory>
    ensures { IfOk result (λ longer. longer ≡ step ∷ path) }
{
    let mut steps = path.into_steps();
    steps.insert(0, step)?;
    Ok(FieldPath::from_steps(steps))
}

impl fmt::Display for JobFault {
    ghost output = { λ fault. Some (job_fault_text fault) };

    fn fmt<W: fmt::Write>(&self, f: &mut fmt::Formatter<W>) -> fmt::Result {
        match self {
            JobFault::Member(path) => write!(f, "member {path}"),
            JobFault::Layout(format, fault) => write!(f, "layout of format {format}: {fault}"),
            JobFault::UnknownFormat(path) => write!(f, "unknown format at {path}"),
            JobFault::Expr(stone, k, fault) => {
                write!(f, "expression {k} of stone {stone}: {fault}")
            }
            JobFault::Bind(stone, k, fault) => write!(f, "binding {k} of stone {stone}: {fault}"),
            JobFault::SetTarget(stone, k) => write!(f, "set {k} of stone {stone}"),
            JobFault::Graph(fault) => write!(f, "{fault}"),
            JobFault::Routes => f.write_str("too many routes"),
            JobFault::Submit(source, asked, held) => {
                write!(f, "source {source} submits {asked} of {held}")
            }
            JobFault::Carriage(carried, limit) => {
                write!(f, "carried {carried} at limit {limit}")
            }
            JobFault::Limit(path, number) => write!(f, "limit at {path}: {number}"),
            JobFault::RecordLength(format) => {
                write!(f, "format {format} is longer than the limit")
            }
            JobFault::Twice(path) => write!(f, "name used twice at {path}"),
            JobFault::Memory => f.write_str("memory"),
        }
    }
}

impl Error for JobFault {}

impl From<AllocError> for JobFault {
    ghost from_gives = { λ _ made. made ≡ fault.Memory };

    fn from(_error: AllocError) -> JobFault {
        JobFault::Memory
    }
}

impl<T: Drop> From<AllocFailed<T>> for JobFault {
    ghost from_gives = { λ _ made. made ≡ fault.Memory };

    fn from(_error: AllocFailed<T>) -> JobFault {
        JobFault::Memory
    }
}

impl From<Memory> for JobFault {
    ghost from_gives = { λ _ made. made ≡ fault.Memory };

    fn from(_error: Memory) -> JobFault {
        JobFault::Memory
    }
}
