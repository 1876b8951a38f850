//! Text of a report that is kept in memory.
ghost use Rattle.std.specs.Prelude.{◌≡◌, ◌<◌, IfOk, length};
ghost use Rattle.evp_report.specs.Report.{lines_of};
ghost use Rattle.evp_stone.specs.Ended.{AreEnded};

use evp_base::Memory;
use evp_depot::{Sink, SinkFault};
use evp_report::write_ended;
use evp_stone::{Job, RoundAccount};
use std::alloc::Global;
use std::marker::Model;

// About how many bytes a line takes beside the bytes of its record, and a line without one.
const LINE: usize = 32;

// About how many bytes the line takes that says what a route did in a round.
const FIRST_LINE: usize = 96;

/// A sink that keeps what it takes. It fails where there is no memory.
#[derive(Drop)]
struct KeptText {
    text: Vec<u8>,
    faults: u64,
}

impl Model for KeptText {
    ghost use Rattle.std.specs.Prelude.{ℕ, List};

    ghost Value = { List ℕ × ℕ };

    ghost view = { λ kept. (kept.text.items, kept.faults) };
}

impl KeptText {
    ghost use Rattle.std.specs.Prelude.{◌≡◌, [], IfOk};

    // Nothing is kept; there is room for so many bytes.
    fn with_room(alloc: Global, room: usize) -> Result<KeptText, Memory>
        ensures { IfOk result (λ kept. kept ≡ ([], 0)) }
    {
        Ok(KeptText {
            text: Vec::with_capacity(alloc, room)?,
            faults: 0,
        })
    }

    // What was kept.
    fn into_text(self) -> Vec<u8>
        ensures { result.items ≡ self.0 }
    {
        self.text
    }
}

impl Sink for KeptText {
    ghost use Rattle.std.specs.Prelude.{Some};

    ghost put = { λ kept. Some kept.0 };

    ghost faults = { λ kept. kept.1 };

    /// Takes the whole piece.
    fn write(&mut self, bytes: &[u8]) -> Result<usize, SinkFault> {
        if self.text.extend_from_slice(bytes).is_err() {
            self.faults = self.faults.saturating_add(1);
            return Err(SinkFault::Failed);
        }
        Ok(bytes.len())
    }
}

/// The lines that a route has in a round, by the accounts of the rounds that its last stone has
/// ended.
pub(super) fn ended_text(
    alloc: Global,
    job: &Job,
    route: usize,
    ended: &[RoundAccount],
    round: usize,
) -> Result<Vec<u8>, Memory>
    requires ended { AreEnded job.now route ended.now }
    requires round { round < length ended.now }
    ensures { IfOk result (λ text. text.items ≡ lines_of job.now route round) }
{
    let mut sink = KeptText::with_room(alloc, room_for(&ended[round]))?;
    match write_ended(job, route, ended, round, &mut sink) {
        Ok(()) => Ok(sink.into_text()),
        Err(_) => Err(Memory),
    }
}

// About as many bytes as the lines of this account take, where all records are about as long as the
// first.
fn room_for(account: &RoundAccount) -> usize {
    let refused = account.refused.len().saturating_mul(LINE);
    let arrived = account.arrived.as_slice();
    let each = match arrived.first() {
        Some((_, owned)) => owned.bytes().len().saturating_add(LINE),
        None => 0,
    };
    let lines = arrived.len().saturating_mul(each);
    FIRST_LINE.saturating_add(refused).saturating_add(lines)
}
