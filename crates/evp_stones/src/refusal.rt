//! Why a line isn't done, and the line that the program writes of it.
ghost use Rattle.std.specs.Prelude.{◌≡◌, ◌++◌, OnOk, codes};
ghost use Rattle.evp_base.specs.Quoted.{quoted};
ghost use Rattle.evp_report.specs.Passing.{Passes};
ghost use Rattle.evp_depot.specs.Put.{Puts};
ghost use Rattle.evp_stones.specs.Answer.{Refuses};
ghost use Rattle.evp_stones.specs.declared.refusal.Refusal.TheVariants as refusal;
ghost use Rattle.evp_stones.specs.Refusals.{cause_text, data_text, refusal_line, refusal_status};
ghost use Rattle.evp_stones.specs.Refusals.{refusal_text};

use crate::file_name::FileName;
use arrayvec::ArrayString;
use evp_base::Memory;
use evp_depot::{PutFault, Sink};
use evp_file::FileFault;
use evp_job::JobFault;
use evp_report::{Pieces, put_counted, put_quoted};
use std::alloc::AllocError;
use std::fmt;
use std::fmt::Write;

/// The most bytes of a fault's text.
const ROOM: usize = 4096;

/// Why a line isn't done.
#[derive(Debug, Drop)]
pub enum Refusal {
    /// The words are no line.
    Words,
    /// Nothing is held under this name.
    Absent(FileName),
    /// A read under this name failed.
    Read(FileName),
    /// More bytes are held under this name than a file of its kind may have.
    TooLong(FileName),
    /// The job's document isn't JSON in UTF-8.
    NotJson,
    /// The job's document has this fault, which isn't want of memory.
    Job(JobFault),
    /// The file of this name has this fault, which isn't want of memory.
    Data(FileName, FileFault),
    /// In the file of this name, which lists turns, the line at this place isn't an actor's number.
    Order(FileName, u32),
    /// There was no memory.
    Memory,
}

impl From<AllocError> for Refusal {
    ghost use Rattle.std.specs.Prelude.{◌≡◌};
    ghost use Rattle.evp_stones.specs.declared.refusal.Refusal.TheVariants.{Memory};

    ghost from_gives = { λ _ refusal. refusal ≡ Memory };

    fn from(_error: AllocError) -> Refusal {
        Refusal::Memory
    }
}

impl From<Memory> for Refusal {
    ghost use Rattle.std.specs.Prelude.{◌≡◌};
    ghost use Rattle.evp_stones.specs.declared.refusal.Refusal.TheVariants.{Memory as memory};

    ghost from_gives = { λ _ refusal. refusal ≡ memory };

    fn from(_error: Memory) -> Refusal {
        Refusal::Memory
    }
}

impl Refusal {
    /// The program's status.
    pub fn status(&self) -> u8
        ensures { result ≡ refusal_status self.now }
    {
        match self {
            Refusal::Words => 1,
            Refusal::Absent(_) => 2,
            Refusal::Read(_) => 3,
            Refusal::TooLong(_) => 4,
            Refusal::NotJson => 5,
            Refusal::Job(_) => 6,
            Refusal::Data(_, _) | Refusal::Order(_, _) => 7,
            Refusal::Memory => 9,
        }
    }

    /// Writes the line of the refusal, and answers its status; those of `Memory` where the text of
    /// a fault is longer than 4,096 bytes. It takes no memory.
    pub fn tell<K: Sink>(&self, sink: &mut K) -> u8
        ensures { Refuses K.faults K.put sink.old sink.new self.now result }
    {
        let mut cause = ArrayString::<ROOM>::new();
        if self.write_cause(&mut cause).is_err() {
            return tell_memory(sink);
        }
        let _ = self.put_line(sink, cause.as_str());
        self.status()
    }

    // The text of the fault, where there is one.
    fn write_cause(&self, cause: &mut ArrayString<ROOM>) -> fmt::Result
        ensures { OnOk result (cause.new.bytes ≡ cause.old.bytes ++ cause_text self.now) }
    {
        match self {
            Refusal::Job(fault) => write!(cause, "{fault}"),
            Refusal::Data(_, fault) => write!(cause, "{fault}"),
            _ => Ok(()),
        }
    }

    /// Writes the line, by the text of the fault. It takes no memory.
    pub fn put_line<K: Sink>(&self, sink: &mut K, cause: &str) -> Result<(), PutFault>
        requires { cause.now ≡ cause_text self.now }
        ensures { Puts K.faults K.put sink.old sink.new (refusal_line self.now) result }
    {
        let mut pieces = Pieces::new();
        self.put_ended(&mut pieces, sink, cause)?;
        pieces.flush(sink)
    }

    // The line.
    fn put_ended<K: Sink>(
        &self,
        pieces: &mut Pieces,
        sink: &mut K,
        cause: &str,
    ) -> Result<(), PutFault>
        requires { cause.now ≡ cause_text self.now }
        ensures { Passes K.faults K.put sink.old sink.new pieces.old pieces.new
            (refusal_line self.now) result }
    {
        pieces.put(sink, b"stones: ")?;
        self.put_text(pieces, sink, cause)?;
        pieces.put(sink, b"\n")
    }

    // The text of the refusal.
    fn put_text<K: Sink>(
        &self,
        pieces: &mut Pieces,
        sink: &mut K,
        cause: &str,
    ) -> Result<(), PutFault>
        requires { cause.now ≡ cause_text self.now }
        ensures { Passes K.faults K.put sink.old sink.new pieces.old pieces.new
            (refusal_text self.now) result }
    {
        match self {
            Refusal::Words => pieces.put(sink, b"words"),
            Refusal::Absent(name) => put_named(pieces, sink, b"absent ", name),
            Refusal::Read(name) => put_named(pieces, sink, b"read ", name),
            Refusal::TooLong(name) => put_named(pieces, sink, b"too long ", name),
            Refusal::NotJson => pieces.put(sink, b"not json"),
            Refusal::Job(_) => put_job(pieces, sink, cause),
            Refusal::Data(name, fault) => put_data(pieces, sink, name, fault.at(), cause),
            Refusal::Order(name, at) => put_data(pieces, sink, name, *at, "order"),
            Refusal::Memory => pieces.put(sink, b"memory"),
        }
    }
}

// Writes the line of `Memory`, and answers its status.
fn tell_memory<K: Sink>(sink: &mut K) -> u8
    ensures { Refuses K.faults K.put sink.old sink.new refusal.Memory result }
{
    let _ = Refusal::Memory.put_line(sink, "");
    Refusal::Memory.status()
}

// What happened, and the name in quotes.
fn put_named<K: Sink>(
    pieces: &mut Pieces,
    sink: &mut K,
    what: &[u8],
    name: &FileName,
) -> Result<(), PutFault>
    ensures { Passes K.faults K.put sink.old sink.new pieces.old pieces.new
        (what.now ++ quoted name.now) result }
{
    pieces.put(sink, what)?;
    put_quoted(pieces, sink, name.as_bytes())
}

// The job has a fault of this text.
fn put_job<K: Sink>(pieces: &mut Pieces, sink: &mut K, cause: &str) -> Result<(), PutFault>
    ensures { Passes K.faults K.put sink.old sink.new pieces.old pieces.new
        (codes "job " ++ cause.now) result }
{
    pieces.put(sink, b"job ")?;
    pieces.put(sink, cause.as_bytes())
}

// The file of this name has a fault of this text at this offset.
fn put_data<K: Sink>(
    pieces: &mut Pieces,
    sink: &mut K,
    name: &FileName,
    at: u32,
    cause: &str,
) -> Result<(), PutFault>
    ensures { Passes K.faults K.put sink.old sink.new pieces.old pieces.new
        (data_text name.now at cause.now) result }
{
    put_named(pieces, sink, b"data ", name)?;
    put_counted(pieces, sink, b" at ", at)?;
    pieces.put(sink, b" ")?;
    pieces.put(sink, cause.as_bytes())
}
