//! The parts of a line that are no record's value: numbers, paths and reasons.
ghost use Rattle.std.specs.Prelude.{◌++◌, codes};
ghost use Rattle.std.specs.List.{flat_map};
ghost use Rattle.evp_base.specs.Path.{joined_text, path_text, step_text};
ghost use Rattle.evp_report.specs.Passing.{Passes};
ghost use Rattle.evp_report.specs.Report.{counted, place_text, reason_text, setting_text};

use crate::Pieces;
use evp_action::Reason;
use evp_base::{FieldPath, Step};
use evp_depot::{PutFault, Sink};
use itoa::{Buffer, Integer};

/// Hands on words and a number behind them. It takes no memory.
pub fn put_counted<K: Sink, I: Integer>(
    pieces: &mut Pieces,
    sink: &mut K,
    words: &[u8],
    number: I,
) -> Result<(), PutFault>
    ensures { Passes K.faults K.put sink.old sink.new pieces.old pieces.new
        (words.now ++ I.text number) result }
{
    pieces.put(sink, words)?;
    let mut buffer = Buffer::new();
    pieces.put(sink, buffer.format(number).as_bytes())
}

/// Hands on why a record was refused. It takes no memory.
pub fn put_reason<K: Sink>(
    pieces: &mut Pieces,
    sink: &mut K,
    reason: &Reason,
) -> Result<(), PutFault>
    ensures { Passes K.faults K.put sink.old sink.new pieces.old pieces.new
        (reason_text reason.now) result }
{
    match reason {
        Reason::Clash(path) => put_path(pieces, sink, b"clash ", path),
        Reason::Unfit(path) => put_path(pieces, sink, b"unfit ", path),
        Reason::Large(path) => put_path(pieces, sink, b"large ", path),
        Reason::Overflow(setting, at) => put_place(pieces, sink, b"overflow at ", *at, *setting),
        Reason::ZeroDivide(setting, at) => put_place(
            pieces,
            sink,
            b"zero divide at ",
            *at,
            *setting,
        ),
        Reason::Index(setting, at) => put_place(pieces, sink, b"index at ", *at, *setting),
    }
}

// Words, a place in an expression, and the setting that the expression is of.
fn put_place<K: Sink>(
    pieces: &mut Pieces,
    sink: &mut K,
    words: &[u8],
    at: u32,
    setting: Option<u16>,
) -> Result<(), PutFault>
    ensures { Passes K.faults K.put sink.old sink.new pieces.old pieces.new
        (place_text words.now at setting) result }
{
    put_counted(pieces, sink, words, at)?;
    put_setting(pieces, sink, setting)
}

// The setting of a transform, where there is one.
fn put_setting<K: Sink>(
    pieces: &mut Pieces,
    sink: &mut K,
    setting: Option<u16>,
) -> Result<(), PutFault>
    ensures { Passes K.faults K.put sink.old sink.new pieces.old pieces.new
        (setting_text setting) result }
{
    match setting {
        None => Ok(()),
        Some(number) => put_counted(pieces, sink, b" of set ", number),
    }
}

// Words and a path behind them.
fn put_path<K: Sink>(
    pieces: &mut Pieces,
    sink: &mut K,
    words: &[u8],
    path: &FieldPath,
) -> Result<(), PutFault>
    ensures { Passes K.faults K.put sink.old sink.new pieces.old pieces.new
        (words.now ++ path_text path.now) result }
{
    pieces.put(sink, words)?;
    put_steps(pieces, sink, path.steps())
}

// The steps of a path; `.` where there is none.
fn put_steps<K: Sink>(pieces: &mut Pieces, sink: &mut K, steps: &[Step]) -> Result<(), PutFault>
    ensures { Passes K.faults K.put sink.old sink.new pieces.old pieces.new
        (path_text steps.now) result }
{
    let Some((first, others)) = steps.split_first() else {
        return pieces.put(sink, b".");
    };
    put_step(pieces, sink, first)?;
    put_others(pieces, sink, others)
}

// The steps behind the first.
fn put_others<K: Sink>(pieces: &mut Pieces, sink: &mut K, others: &[Step]) -> Result<(), PutFault>
    ensures { Passes K.faults K.put sink.old sink.new pieces.old pieces.new
        (flat_map joined_text others.now) result }
{
    for step in others {
        put_joined(pieces, sink, step)?;
    }
    Ok(())
}

// A step by itself: a name, or an index in brackets.
fn put_step<K: Sink>(pieces: &mut Pieces, sink: &mut K, step: &Step) -> Result<(), PutFault>
    ensures { Passes K.faults K.put sink.old sink.new pieces.old pieces.new
        (step_text step.now) result }
{
    match step {
        Step::Field(name) => pieces.put(sink, name.as_bytes()),
        Step::Index(index) => put_index(pieces, sink, *index),
    }
}

// A step behind others: a name has a `.` in front.
fn put_joined<K: Sink>(pieces: &mut Pieces, sink: &mut K, step: &Step) -> Result<(), PutFault>
    ensures { Passes K.faults K.put sink.old sink.new pieces.old pieces.new
        (joined_text step.now) result }
{
    match step {
        Step::Field(name) => put_dotted(pieces, sink, name.as_bytes()),
        Step::Index(index) => put_index(pieces, sink, *index),
    }
}

// A name behind a `.`.
fn put_dotted<K: Sink>(pieces: &mut Pieces, sink: &mut K, name: &[u8]) -> Result<(), PutFault>
    ensures { Passes K.faults K.put sink.old sink.new pieces.old pieces.new
        (codes "." ++ name.now) result }
{
    pieces.put(sink, b".")?;
    pieces.put(sink, name)
}

// An index in brackets.
fn put_index<K: Sink>(pieces: &mut Pieces, sink: &mut K, index: u32) -> Result<(), PutFault>
    ensures { Passes K.faults K.put sink.old sink.new pieces.old pieces.new
        (counted (codes "[") index ++ codes "]") result }
{
    put_counted(pieces, sink, b"[", index)?;
    pieces.put(sink, b"]")
}
