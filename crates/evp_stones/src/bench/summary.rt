//! What is told of a large job that was carried.
ghost use Rattle.std.specs.Prelude.{◌++◌, codes};
ghost use Rattle.evp_depot.specs.Put.{Puts};
ghost use Rattle.evp_report.specs.Passing.{Passes};
ghost use Rattle.evp_report.specs.Report.{counts_text};
ghost use Rattle.evp_stones.specs.Bench.{digest_line, totals_line};

use super::totals::Totals;
use crate::hexadecimal::put_hexadecimal;
use evp_depot::{PutFault, Sink};
use evp_report::{Pieces, put_counted};

/// What carrying a large job came to.
#[derive(Drop)]
pub struct Summary {
    /// How many records each source submitted.
    pub records: u32,
    /// How many routes there are.
    pub routes: usize,
    pub totals: Totals,
    /// The SHA-256 of the report.
    pub digest: [u8; 32],
}

impl Summary {
    ghost use Rattle.evp_depot.specs.Put.{Puts};
    ghost use Rattle.evp_report.specs.Passing.{Passes};
    ghost use Rattle.evp_stones.specs.Summary.{summary_text};

    /// Writes the line of totals and that of the digest. It takes no memory.
    pub fn write<K: Sink>(&self, sink: &mut K) -> Result<(), PutFault>
        ensures { Puts K.faults K.put sink.old sink.new (summary_text self.now) result }
    {
        let mut pieces = Pieces::new();
        self.put(&mut pieces, sink)?;
        pieces.flush(sink)
    }

    // Hands on both lines.
    fn put<K: Sink>(&self, pieces: &mut Pieces, sink: &mut K) -> Result<(), PutFault>
        ensures { Passes K.faults K.put sink.old sink.new pieces.old pieces.new
            (summary_text self.now) result }
    {
        put_totals_line(pieces, sink, self.records, self.routes, &self.totals)?;
        put_digest_line(pieces, sink, &self.digest)
    }
}

// The number, the routes and the totals.
fn put_totals_line<K: Sink>(
    pieces: &mut Pieces,
    sink: &mut K,
    records: u32,
    routes: usize,
    totals: &Totals,
) -> Result<(), PutFault>
    ensures { Passes K.faults K.put sink.old sink.new pieces.old pieces.new
        (totals_line records routes totals.now) result }
{
    put_counted(pieces, sink, b"bench ", records)?;
    put_counted(pieces, sink, b" routes ", routes)?;
    put_totals(pieces, sink, totals)
}

// The totals.
fn put_totals<K: Sink>(pieces: &mut Pieces, sink: &mut K, totals: &Totals) -> Result<(), PutFault>
    ensures { Passes K.faults K.put sink.old sink.new pieces.old pieces.new
        (counts_text totals.now.passed totals.now.dropped totals.now.refused totals.now.held)
        result }
{
    put_counted(pieces, sink, b" passed ", totals.passed)?;
    put_counted(pieces, sink, b" dropped ", totals.dropped)?;
    put_counted(pieces, sink, b" refused ", totals.refused)?;
    put_counted(pieces, sink, b" held ", totals.held)?;
    pieces.put(sink, b"\n")
}

// The digest.
fn put_digest_line<K: Sink>(
    pieces: &mut Pieces,
    sink: &mut K,
    digest: &[u8; 32],
) -> Result<(), PutFault>
    ensures { Passes K.faults K.put sink.old sink.new pieces.old pieces.new
        (digest_line digest.now) result }
{
    pieces.put(sink, b"digest ")?;
    put_hexadecimal(pieces, sink, digest)?;
    pieces.put(sink, b"\n")
}
