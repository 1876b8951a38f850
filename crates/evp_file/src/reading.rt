//! Reading a record file from left to right.

ghost use Rattle.std.specs.Prelude.{◌≡◌, ◌+◌, ◌^◌, ◌<◌, ◌≤◌, length, drop, All, IfOk, OnOk};
ghost use Rattle.evp_file.specs.File.{no_frames, with_frame};
ghost use Rattle.evp_file.specs.Reading.{frames_from, file_of, has_magic};
ghost use Rattle.evp_file.specs.Steps.{Gives};
ghost use Rattle.evp_file.specs.Whole.{IsWhole, IsWithin};

use crate::frame::{Frame, Reader};
use crate::{FileFault, FileFormats, FileItems, KnownFormat, RecordFile};
use evp_base::Memory;
use std::alloc::Global;

/// The file that the bytes are, or their first fault from left to right (`docs/FORMATS.md`, "Record
/// files"). Identifiers name the known formats; of two with one identifier the first is meant. A
/// record has at most `limit` bytes. Each record is checked, and its bytes are copied once.
pub fn read_file(
    alloc: Global,
    bytes: &[u8],
    known: &[KnownFormat],
    limit: u32,
) -> Result<RecordFile, FileFault>
    requires short { length bytes.now < 2 ^ 31 }
    requires few { length known.now ≤ 65536 }
    ensures exact { Gives (λ file. file) result (file_of known.now limit bytes.now) }
    // Formats and records are within the limits, and each record has a value.
    ensures whole { IfOk result (λ file. IsWhole known.now file) }
    ensures limited { IfOk result (λ file. All (IsWithin limit) file.items) }
{
    read_all(alloc, bytes, &Reader { known, limit })
}

// The file that the bytes are.
#[tactic(auto, unfolding(crate::specs::Reading::file_of))]
fn read_all(alloc: Global, bytes: &[u8], reader: &Reader) -> Result<RecordFile, FileFault>
    requires short { length bytes.now < 2 ^ 31 }
    requires few { length reader.now.known.now ≤ 65536 }
    ensures { Gives (λ file. file) result
        (file_of reader.now.known.now reader.now.limit bytes.now) }
{
    if !has_magic(bytes) {
        return Err(FileFault::Magic);
    }
    frames_from(alloc, reader, &bytes[4..])
}

// Whether the bytes begin with the magic.
fn has_magic(bytes: &[u8]) -> bool
    ensures { result ≡ has_magic bytes.now }
{
    bytes.starts_with(b"NDR1")
}

// Adds a frame at the end.
fn push_frame(file: &mut RecordFile, frame: Frame) -> Result<(), Memory>
    ensures { OnOk result (file.new ≡ with_frame file.old frame) }
{
    match frame {
        Frame::Format(format) => file.formats.push(format),
        Frame::Record(item) => file.items.push(item),
    }
}

// The file of the frames that stand behind the magic.
fn frames_from(alloc: Global, reader: &Reader, bytes: &[u8]) -> Result<RecordFile, FileFault>
    requires short { 4 + length bytes.now < 2 ^ 31 }
    requires few { length reader.now.known.now ≤ 65536 }
    ensures { Gives (λ file. file) result
        (frames_from (length bytes.now) reader.now.known.now reader.now.limit no_frames 4
        bytes.now) }
{
    let mut file = RecordFile {
        formats: FileFormats::from_vec(Vec::new(alloc)),
        items: FileItems::from_vec(Vec::new(alloc)),
    };
    let mut at = 4;
    let mut rest = bytes;
    // Each frame has a byte.
    for _ in 0..bytes.len() {
        match reader.frame_at(alloc, &file, at, rest)? {
            None => return Ok(file),
            Some((frame, size)) => {
                push_frame(&mut file, frame)?;
                at += size;
                rest = behind(rest, size);
            }
        }
    }
    Err(FileFault::Short(at))
}

// The bytes behind the first `size`.
fn behind(bytes: &[u8], size: u32) -> &[u8]
    requires { size ≤ length bytes.now }
    ensures { result.now ≡ drop size bytes.now }
{
    &bytes[size as usize..]
}
