//! What stands behind a route's name: the counts of a round, and a line for each record that was
//! refused or received.
ghost use Rattle.std.specs.Prelude.{[], All, length};
ghost use Rattle.std.specs.List.{flat_map};
ghost use Rattle.std.specs.Option.{unwrap_or};
ghost use Rattle.evp_format.specs.Datum.{null};
ghost use Rattle.evp_format.specs.ValueText.{value_text};
ghost use Rattle.evp_record.specs.Owned.{HasValueIn, value_in};
ghost use Rattle.evp_report.specs.Passing.{Passes};
ghost use Rattle.evp_report.specs.Report.{account_text, arrived_line, counts_text, refused_line};
ghost use Rattle.evp_report.specs.Shown.{IsReadable, received, shown};
ghost use Rattle.evp_stone.specs.Accounts.{carried_of};

use crate::words::{put_counted, put_reason};
use crate::{Pieces, put_value};
use evp_action::Reason;
use evp_depot::{PutFault, Sink};
use evp_format::Format;
use evp_record::Owned;
use evp_stone::RoundAccount;
use std::alloc::Global;
use std::sync::Arc;

// How many records are read before the first of their lines is written.
const AHEAD: usize = 16;

/// The counts of a round, then each record that was refused and why, then each that was received.
pub(crate) fn put_account<K: Sink>(
    pieces: &mut Pieces,
    sink: &mut K,
    formats: &[Format],
    account: &RoundAccount,
) -> Result<(), PutFault>
    requires { All (IsReadable formats.now) account.now.arrived.items }
    ensures { Passes K.faults K.put sink.old sink.new pieces.old pieces.new
        (account_text (shown formats.now account.now)) result }
{
    put_counts(pieces, sink, account)?;
    put_refused(pieces, sink, account.refused.as_slice())?;
    put_arrived(pieces, sink, formats, account.arrived.as_slice())
}

// How many records passed, were dropped, were refused and are kept.
fn put_counts<K: Sink>(
    pieces: &mut Pieces,
    sink: &mut K,
    account: &RoundAccount,
) -> Result<(), PutFault>
    ensures { Passes K.faults K.put sink.old sink.new pieces.old pieces.new
        (counts_text account.now.passed account.now.dropped (length account.now.refused.items)
        account.now.held) result }
{
    put_counted(pieces, sink, b" passed ", account.passed)?;
    put_counted(pieces, sink, b" dropped ", account.dropped)?;
    put_counted(pieces, sink, b" refused ", account.refused.as_slice().len())?;
    put_counted(pieces, sink, b" held ", account.held)?;
    pieces.put(sink, b"\n")
}

// A line for each record that was refused.
fn put_refused<K: Sink>(
    pieces: &mut Pieces,
    sink: &mut K,
    refused: &[(u32, Reason)],
) -> Result<(), PutFault>
    ensures { Passes K.faults K.put sink.old sink.new pieces.old pieces.new
        (flat_map refused_line refused.now) result }
{
    for (index, reason) in refused {
        put_refusal(pieces, sink, *index, reason)?;
    }
    Ok(())
}

// A record's index, and why it was refused.
fn put_refusal<K: Sink>(
    pieces: &mut Pieces,
    sink: &mut K,
    index: u32,
    reason: &Reason,
) -> Result<(), PutFault>
    ensures { Passes K.faults K.put sink.old sink.new pieces.old pieces.new
        (refused_line (index, reason.now)) result }
{
    put_counted(pieces, sink, b"#", index)?;
    pieces.put(sink, b" ")?;
    put_reason(pieces, sink, reason)?;
    pieces.put(sink, b"\n")
}

// A line for each record that was received.
fn put_arrived<K: Sink>(
    pieces: &mut Pieces,
    sink: &mut K,
    formats: &[Format],
    arrived: &[(u32, Arc<Owned, Global>)],
) -> Result<(), PutFault>
    requires { All (IsReadable formats.now) arrived.now }
    ensures { Passes K.faults K.put sink.old sink.new pieces.old pieces.new
        (flat_map (λ item. arrived_line (received formats.now item)) arrived.now) result }
{
    let mut place: usize = 0;
    for (index, owned) in arrived {
        look_ahead(pieces, sink, arrived, place)?;
        place = place.saturating_add(1);
        put_arrival(pieces, sink, formats, *index, owned)?;
    }
    Ok(())
}

// Makes room for the lines of the next records, where this place is the first of so many.
#[inline(always)]
fn look_ahead<K: Sink>(
    pieces: &mut Pieces,
    sink: &mut K,
    arrived: &[(u32, Arc<Owned, Global>)],
    place: usize,
) -> Result<(), PutFault>
    ensures { Passes K.faults K.put sink.old sink.new pieces.old pieces.new [] result }
{
    if place % AHEAD != 0 {
        return Ok(());
    }
    pieces.make_room(sink, room_for(arrived, place))
}

// About how many bytes the lines of the next records take, from this place on. Reads that only add
// up lengths don't wait for one another, as those that write lines do, and these find their records
// at hand then.
fn room_for(arrived: &[(u32, Arc<Owned, Global>)], from: usize) -> usize {
    let (_, next) = arrived.split_at(from.min(arrived.len()));
    let mut room: usize = 0;
    for (_, owned) in next.iter().take(AHEAD) {
        room = room.saturating_add(owned.bytes().len());
    }
    room
}

// A record's index, and its value.
fn put_arrival<K: Sink>(
    pieces: &mut Pieces,
    sink: &mut K,
    formats: &[Format],
    index: u32,
    owned: &Owned,
) -> Result<(), PutFault>
    requires { HasValueIn formats.now owned.now }
    ensures { Passes K.faults K.put sink.old sink.new pieces.old pieces.new
        (arrived_line (carried_of formats.now index owned.now)) result }
{
    put_counted(pieces, sink, b"#", index)?;
    pieces.put(sink, b" ")?;
    put_owned(pieces, sink, formats, owned)?;
    pieces.put(sink, b"\n")
}

// The value that a record's bytes have in its format.
fn put_owned<K: Sink>(
    pieces: &mut Pieces,
    sink: &mut K,
    formats: &[Format],
    owned: &Owned,
) -> Result<(), PutFault>
    requires { HasValueIn formats.now owned.now }
    ensures { Passes K.faults K.put sink.old sink.new pieces.old pieces.new
        (value_text (unwrap_or (value_in formats.now owned.now) null)) result }
{
    let item = owned.checked(formats);
    put_value(pieces, sink, &item)
}
