//! The line `check JOB`: the job's formats with their identifiers, and its routes.
ghost use Rattle.std.specs.Prelude.{◌≡◌, slice_get};
ghost use Rattle.std.specs.List.{flat_map};
ghost use Rattle.std.specs.Option.{option_copied};
ghost use Rattle.evp_job.specs.SourceView.{source_of, sources_of};
ghost use Rattle.evp_job.specs.TextView.{text_of};
ghost use Rattle.evp_report.specs.Passing.{Passes};
ghost use Rattle.evp_stones.specs.Check.{check_text, declared_in, declared_line, IsCheck};
ghost use Rattle.evp_stones.specs.Check.{known_line, route_line, source_text};
ghost use Rattle.evp_stones.specs.Fetching.{IsHeld};
ghost use Rattle.evp_stones.specs.Numbered.{numbered};
ghost use Rattle.evp_stones.specs.Steps.{Works, seen_by};

use crate::hexadecimal::put_hexadecimal;
use crate::job::job_of;
use crate::refusal::Refusal;
use evp_base::Name;
use evp_depot::{Depot, PutFault, Sink};
use evp_file::KnownFormat;
use evp_graph::Route;
use evp_job::{JobText, SourceText};
use evp_report::{Pieces, put_stones};
use std::alloc::Global;

/// The job of the document of this name, whose formats and routes are to be told.
pub fn check<D: Depot>(alloc: Global, depot: &mut D, name: &str) -> Result<JobText, Refusal>
    ensures { Works D.held D.misses D.faults depot.old depot.new (IsCheck name.now)
        (IsHeld name.now) (seen_by (λ text. check_text (text_of text)) result) }
{
    job_of(alloc, depot, name)
}

/// Hands on the formats and routes of a job. It takes no memory.
pub fn put_checked<K: Sink>(
    pieces: &mut Pieces,
    sink: &mut K,
    text: &JobText,
) -> Result<(), PutFault>
    ensures { Passes K.faults K.put sink.old sink.new pieces.old pieces.new
        (check_text (text_of text.now)) result }
{
    put_declared(pieces, sink, &text.names, &text.formats)?;
    put_routes(pieces, sink, &text.sources, text.routes.as_slice())
}

// A line for each format.
fn put_declared<K: Sink>(
    pieces: &mut Pieces,
    sink: &mut K,
    names: &[Name],
    formats: &[KnownFormat],
) -> Result<(), PutFault>
    ensures { Passes K.faults K.put sink.old sink.new pieces.old pieces.new
        (numbered (declared_in formats.now) 0 names.now) result }
{
    for (number, name) in names.iter().enumerate() {
        put_named_format(pieces, sink, name, formats.get(number))?;
    }
    Ok(())
}

// A format's name and its identifier, where it is there.
fn put_named_format<K: Sink>(
    pieces: &mut Pieces,
    sink: &mut K,
    name: &Name,
    known: Option<&KnownFormat>,
) -> Result<(), PutFault>
    ensures { Passes K.faults K.put sink.old sink.new pieces.old pieces.new
        (declared_line name.now (option_copied known.entry)) result }
{
    match known {
        None => Ok(()),
        Some(known) => put_declared_line(pieces, sink, name, known),
    }
}

// The name of a format that is there, and its identifier.
fn put_declared_line<K: Sink>(
    pieces: &mut Pieces,
    sink: &mut K,
    name: &Name,
    known: &KnownFormat,
) -> Result<(), PutFault>
    ensures { Passes K.faults K.put sink.old sink.new pieces.old pieces.new
        (known_line name.now known.now) result }
{
    pieces.put(sink, b"format ")?;
    pieces.put(sink, name.as_bytes())?;
    pieces.put(sink, b" ")?;
    put_hexadecimal(pieces, sink, &known.id.0)?;
    pieces.put(sink, b"\n")
}

// A line for each route.
fn put_routes<K: Sink>(
    pieces: &mut Pieces,
    sink: &mut K,
    sources: &[SourceText],
    routes: &[Route],
) -> Result<(), PutFault>
    ensures { Passes K.faults K.put sink.old sink.new pieces.old pieces.new
        (flat_map (route_line (sources_of sources.now)) routes.now) result }
{
    for route in routes {
        put_route(pieces, sink, sources, route)?;
    }
    Ok(())
}

// A route's name.
fn put_route<K: Sink>(
    pieces: &mut Pieces,
    sink: &mut K,
    sources: &[SourceText],
    route: &Route,
) -> Result<(), PutFault>
    ensures { Passes K.faults K.put sink.old sink.new pieces.old pieces.new
        (route_line (sources_of sources.now) route.now) result }
{
    pieces.put(sink, b"route ")?;
    pieces.put(sink, source_name(sources, route.source))?;
    put_stones(pieces, sink, route.stones.as_slice())?;
    pieces.put(sink, b"\n")
}

// The name of the source of this number.
fn source_name(sources: &[SourceText], number: u16) -> &[u8]
    ensures { result.now ≡ source_text (slice_get (sources_of sources.now) number) }
{
    match sources.get(usize::from(number)) {
        Some(source) => source.name.as_bytes(),
        None => &[],
    }
}
