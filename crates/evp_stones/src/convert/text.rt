//! What became of records, as `convert` writes it.
ghost use Rattle.std.specs.Prelude.{map};
ghost use Rattle.evp_format.specs.Viewing.{view};
ghost use Rattle.evp_report.specs.Passing.{Passes};
ghost use Rattle.evp_report.specs.Report.{numbered_line};
ghost use Rattle.evp_stones.specs.Converted.{converted_text};
ghost use Rattle.evp_stones.specs.Numbered.{numbered};
ghost use Rattle.evp_stones.specs.Outcomes.{outcome_text};
ghost use Rattle.evp_stones.specs.Show.{viewed_text};

use super::converted::Converted;
use super::outcome::Outcome;
use evp_depot::{PutFault, Sink};
use evp_format::Format;
use evp_record::{Owned, check};
use evp_report::{Pieces, put_counted, put_reason, put_value};

impl Converted {
    /// Hands on what became of each record. It takes no memory.
    pub fn put<K: Sink>(&self, pieces: &mut Pieces, sink: &mut K) -> Result<(), PutFault>
        ensures { Passes K.faults K.put sink.old sink.new pieces.old pieces.new
            (converted_text self.now) result }
    {
        put_outcomes(pieces, sink, &self.to, &self.outcomes)
    }
}

// A line for each record.
fn put_outcomes<K: Sink>(
    pieces: &mut Pieces,
    sink: &mut K,
    to: &Format,
    outcomes: &[Outcome],
) -> Result<(), PutFault>
    ensures { Passes K.faults K.put sink.old sink.new pieces.old pieces.new
        (numbered numbered_line 0 (map (outcome_text to.now) outcomes.now)) result }
{
    for (number, outcome) in outcomes.iter().enumerate() {
        put_line(pieces, sink, to, number, outcome)?;
    }
    Ok(())
}

// A record's line.
fn put_line<K: Sink>(
    pieces: &mut Pieces,
    sink: &mut K,
    to: &Format,
    number: usize,
    outcome: &Outcome,
) -> Result<(), PutFault>
    ensures { Passes K.faults K.put sink.old sink.new pieces.old pieces.new
        (numbered_line number (outcome_text to.now outcome.now)) result }
{
    put_counted(pieces, sink, b"#", number)?;
    pieces.put(sink, b" ")?;
    put_outcome(pieces, sink, to, outcome)?;
    pieces.put(sink, b"\n")
}

// What became of a record.
fn put_outcome<K: Sink>(
    pieces: &mut Pieces,
    sink: &mut K,
    to: &Format,
    outcome: &Outcome,
) -> Result<(), PutFault>
    ensures { Passes K.faults K.put sink.old sink.new pieces.old pieces.new
        (outcome_text to.now outcome.now) result }
{
    match outcome {
        Outcome::Absent => Ok(()),
        Outcome::Value(owned) => put_owned(pieces, sink, to, owned),
        Outcome::Refused(reason) => put_reason(pieces, sink, reason),
    }
}

// The value of a record of the receiver's format.
fn put_owned<K: Sink>(
    pieces: &mut Pieces,
    sink: &mut K,
    to: &Format,
    owned: &Owned,
) -> Result<(), PutFault>
    ensures { Passes K.faults K.put sink.old sink.new pieces.old pieces.new
        (viewed_text (view to.now owned.now.bytes)) result }
{
    match check(to, owned.bytes()) {
        Ok(item) => put_value(pieces, sink, &item),
        Err(_) => Ok(()),
    }
}
