//! The writing of what was worked out.
ghost use Rattle.std.specs.Prelude.{◌≡◌};
ghost use Rattle.evp_depot.specs.Put.{Puts};
ghost use Rattle.evp_report.specs.Passing.{Passes};
ghost use Rattle.evp_stones.specs.Answer.{Tells};
ghost use Rattle.evp_stones.specs.ListingText.{listing_text};
ghost use Rattle.evp_stones.specs.OutputText.{output_text};
ghost use Rattle.evp_stones.specs.Steps.{seen_by};

use crate::check::put_checked;
use crate::listing::Listing;
use crate::output::Output;
use crate::refusal::Refusal;
use evp_depot::{PutFault, Sink};
use evp_report::Pieces;
use std::mem;

/// Writes what was worked out, or the line of the refusal, and answers the program's status. It
/// takes no memory, and gives none back: the program ends behind it, which gives all back at once,
/// where letting go of each record of a large job takes as long as making them.
pub fn put_reply<K: Sink>(worked: Result<Output, Refusal>, sink: &mut K) -> u8
    ensures { Tells K.faults K.put sink.old sink.new (seen_by output_text worked) result }
{
    let status = tell(&worked, sink);
    mem::forget(worked);
    status
}

// Writes it, and answers the status.
fn tell<K: Sink>(worked: &Result<Output, Refusal>, sink: &mut K) -> u8
    ensures { Tells K.faults K.put sink.old sink.new (seen_by output_text worked.now) result }
{
    match worked {
        Ok(output) => match write(output, sink) {
            Ok(()) => 0,
            Err(_) => 8,
        },
        Err(refusal) => refusal.tell(sink),
    }
}

// Writes it.
fn write<K: Sink>(output: &Output, sink: &mut K) -> Result<(), PutFault>
    ensures { Puts K.faults K.put sink.old sink.new (output_text output.now) result }
{
    match output {
        Output::Listed(listing) => write_listing(listing, sink),
        Output::Reported(carried) => carried.write(sink),
        Output::Summed(summary) => summary.write(sink),
    }
}

fn write_listing<K: Sink>(listing: &Listing, sink: &mut K) -> Result<(), PutFault>
    ensures { Puts K.faults K.put sink.old sink.new (listing_text listing.now) result }
{
    let mut pieces = Pieces::new();
    put(listing, &mut pieces, sink)?;
    pieces.flush(sink)
}

fn put<K: Sink>(listing: &Listing, pieces: &mut Pieces, sink: &mut K) -> Result<(), PutFault>
    ensures { Passes K.faults K.put sink.old sink.new pieces.old pieces.new
        (listing_text listing.now) result }
{
    match listing {
        Listing::Shown(file) => file.put(pieces, sink),
        Listing::Checked(text) => put_checked(pieces, sink, text),
        Listing::Converted(made) => made.put(pieces, sink),
    }
}
