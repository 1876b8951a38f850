//! One frame of a record file.

ghost use Rattle.std.specs.Prelude.{◌≡◌, ◌+◌, ◌^◌, ◌<◌, ◌≤◌, length, option_map, IfOk, IfSome};
ghost use Rattle.evp_format.specs.Bytes.{bytes_equal};
ghost use Rattle.evp_format.specs.Reading.{layout_of};
ghost use Rattle.evp_format.specs.Viewing.{view};
ghost use Rattle.evp_file.specs.File.{layout_in};
ghost use Rattle.evp_file.specs.Reading.{described, own_frame, known_number, known_frame};
ghost use Rattle.evp_file.specs.Reading.{unbroken, record_frame, frame_at};
ghost use Rattle.evp_file.specs.Steps.{Gives, Says};

use crate::parts::{number_part, part};
use crate::{FileFault, FileFormat, FileItem, KnownFormat, RecordFile};
use evp_format::{Format, LayoutFault, read_description};
use evp_record::{KeptBytes, check};
use std::alloc::Global;

/// The most formats of a file.
const MOST_FORMATS: usize = 1024;

/// The most records of a file.
const MOST_ITEMS: usize = 131_072;

/// A frame before the end.
#[derive(Drop)]
pub enum Frame {
    /// A format, by its description or its identifier.
    Format(FileFormat),
    /// A record.
    Record(FileItem),
}

/// What frames are read by.
#[derive(Drop)]
pub(crate) struct Reader<'a> {
    /// The formats that identifiers may name.
    pub known: &'a [KnownFormat],
    /// The most bytes of a record.
    pub limit: u32,
}

impl<'a> Reader<'a> {
    /// The frame that begins the bytes, behind those of the file so far, with its size, or none at
    /// the end. Its offset is `at`.
    #[tactic(auto, unfolding(crate::specs::Reading::frame_at))]
    pub(crate) fn frame_at(
        &self,
        alloc: Global,
        file: &RecordFile,
        at: u32,
        bytes: &[u8],
    ) -> Result<Option<(Frame, u32)>, FileFault>
        requires near { at + length bytes.now < 2 ^ 31 }
        requires few { length self.now.known.now ≤ 65536 }
        ensures value { Gives (λ frame. frame) result
            (frame_at self.now.known.now self.now.limit file.now at bytes.now) }
        ensures within { IfOk result (λ frame. IfSome frame (λ read. read.1 ≤ length bytes.now)) }
    {
        let Some(letter) = bytes.first() else {
            return Err(FileFault::Short(at));
        };
        match *letter {
            b'F' => Ok(Some(own_frame(alloc, file, at, bytes)?)),
            b'I' => Ok(Some(known_frame(self.known, file, at, bytes)?)),
            b'R' => Ok(Some(self.record_frame(alloc, file, at, bytes)?)),
            b'E' if bytes.len() == 1 => Ok(None),
            b'E' => Err(FileFault::Trailing(at + 1)),
            _ => Err(FileFault::FrameKind(at)),
        }
    }

    // A record.
    #[tactic(auto, unfolding(crate::specs::Reading::record_frame))]
    fn record_frame(
        &self,
        alloc: Global,
        file: &RecordFile,
        at: u32,
        bytes: &[u8],
    ) -> Result<(Frame, u32), FileFault>
        requires near { at + length bytes.now < 2 ^ 31 }
        ensures value { Gives (λ frame. frame) result
            (record_frame self.now.known.now self.now.limit file.now at bytes.now) }
        ensures within { IfOk result (λ read. read.1 ≤ length bytes.now) }
    {
        let number = number_part(at, bytes, 1, 2)?;
        let size = number_part(at, bytes, 3, 4)?;
        if file.items.as_slice().len() >= MOST_ITEMS {
            return Err(FileFault::Records(at));
        }
        let Some(format) = layout_in(self.known, file.formats.as_slice(), number) else {
            return Err(FileFault::FormatNumber(at));
        };
        if size > self.limit {
            return Err(FileFault::TooLarge(at));
        }
        let record = part(at, bytes, 7, size)?;
        check_record(alloc, at, format, record)?;
        let item = FileItem {
            format: number as u16,
            bytes: KeptBytes::copied(alloc, record)?,
        };
        Ok((Frame::Record(item), 7 + size))
    }
}

// A format by its description.
#[tactic(auto, unfolding(crate::specs::Reading::own_frame))]
fn own_frame(
    alloc: Global,
    file: &RecordFile,
    at: u32,
    bytes: &[u8],
) -> Result<(Frame, u32), FileFault>
    requires near { at + length bytes.now < 2 ^ 31 }
    ensures value { Gives (λ frame. frame) result (own_frame file.now at bytes.now) }
    ensures within { IfOk result (λ read. read.1 ≤ length bytes.now) }
{
    let size = number_part(at, bytes, 1, 4)?;
    if file.formats.as_slice().len() >= MOST_FORMATS {
        return Err(FileFault::Formats(at));
    }
    let description = part(at, bytes, 5, size)?;
    let format = described(alloc, at, description)?;
    Ok((Frame::Format(FileFormat::Own(format)), 5 + size))
}

// The format that the bytes describe.
fn described(alloc: Global, at: u32, bytes: &[u8]) -> Result<Format, FileFault>
    ensures { Gives (λ format. format) result (described at (layout_of bytes.now)) }
{
    match read_description(alloc, bytes) {
        Ok(format) => Ok(format),
        Err(LayoutFault::Memory) => Err(FileFault::Memory),
        Err(fault) => Err(FileFault::Layout(at, fault)),
    }
}

// A format by its identifier.
#[tactic(auto, unfolding(crate::specs::Reading::known_frame))]
fn known_frame(
    known: &[KnownFormat],
    file: &RecordFile,
    at: u32,
    bytes: &[u8],
) -> Result<(Frame, u32), FileFault>
    requires few { length known.now ≤ 65536 }
    ensures value { result ≡ known_frame known.now file.now at bytes.now }
    ensures within { IfOk result (λ read. read.1 ≤ length bytes.now) }
{
    let id = part(at, bytes, 1, 32)?;
    if file.formats.as_slice().len() >= MOST_FORMATS {
        return Err(FileFault::Formats(at));
    }
    match known_number(known, id) {
        Some(number) => Ok((Frame::Format(FileFormat::Known(number as u16)), 33)),
        None => Err(FileFault::UnknownId(at)),
    }
}

// The number of the first known format with this identifier.
fn known_number(known: &[KnownFormat], id: &[u8]) -> Option<usize>
    ensures value { result ≡ known_number known.now id.now }
    ensures below { IfSome result (λ k. k < length known.now) }
{
    for (number, one) in known.iter().enumerate() {
        if same_bytes(&one.id.0, id) {
            return Some(number);
        }
    }
    None
}

// Whether the bytes are the same.
fn same_bytes(bytes: &[u8], other: &[u8]) -> bool
    ensures { result ≡ bytes_equal bytes.now other.now }
{
    bytes == other
}

// The format of this number among these.
fn layout_in<'a>(
    known: &'a [KnownFormat],
    formats: &'a [FileFormat],
    number: u32,
) -> Option<&'a Format>
    ensures { option_map (λ format. format.now) result ≡ layout_in known.now formats.now number }
{
    match formats.get(number as usize)? {
        FileFormat::Own(format) => Some(format),
        FileFormat::Known(k) => Some(&known.get(usize::from(*k))?.format),
    }
}

// Whether the bytes have a value, else the fault with its path.
#[inline(always)]
fn check_record(alloc: Global, at: u32, format: &Format, bytes: &[u8]) -> Result<(), FileFault>
    requires { length bytes.now < 2 ^ 31 }
    ensures { Gives (λ whole. whole) result (unbroken at format.now (view format.now bytes.now)) }
{
    match check(format, bytes) {
        Ok(_) => Ok(()),
        Err(fault) => {
            let path = fault.path(alloc, format)?;
            Err(FileFault::Broken(at, fault, path))
        }
    }
}
