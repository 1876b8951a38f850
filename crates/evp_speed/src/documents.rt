//! Reading of job documents.

use crate::workload::Workload;
use anyhow::Result;
use evp_gen::make;
use evp_job::read_job;
use std::alloc::{AllocError, Global};

/// What stands before the stones of a document of a megabyte.
const HEAD: &str = "{\"formats\":[{\"name\":\"q\",\"profile\":\"be64\",\"types\":[{\"name\":\"q\",\
    \"fields\":[[\"x\",\"integer\",8]]}]}],\"sources\":[{\"name\":\"a\",\
    \"file\":\"a\",\"stone\":0}],\"stones\":[";

/// What a transform begins with.
const TRANSFORM: &str = "{\"kind\":\"transform\",\"format\":\"q\",\"into\":\"q\",\"set\":[";

/// A setting.
const SETTING: &str = "[\"x\",\"x + 1 - 1 + 1 - 1 + 1 - 1 + 1 - 1 + 1 - 1 + 1 - 1 \
    + 1 - 1 + 1 - 1 + 100\"]";

/// What stands behind the transforms.
const TAIL: &str = "{\"kind\":\"terminal\",\"format\":\"q\"}],\
    \"rounds\":[{\"submit\":[0],\"frozen\":[]}]}";

/// The transforms of the document of a megabyte, each with 64 settings.
const TRANSFORMS: u32 = 200;

/// Reads a job document.
#[derive(Drop)]
pub struct Document {
    pub alloc: Global,
    pub name: &'static str,
    pub bytes: Vec<u8>,
}

/// The document that evp_gen makes for its largest number.
pub fn generated(alloc: Global) -> Result<Document> {
    let (bytes, _files) = make(alloc, 20_000)?.into_parts();
    Ok(Document {
        alloc,
        name: "read_job",
        bytes,
    })
}

/// A document of a megabyte: transforms in a row, and a terminal.
pub fn megabyte(alloc: Global) -> Result<Document> {
    let mut text = String::from_str(alloc, HEAD)?;
    for stone in 0..TRANSFORMS {
        push_transform(alloc, &mut text, stone + 1)?;
    }
    text.push_str(TAIL)?;
    Ok(Document {
        alloc,
        name: "read_job_megabyte",
        bytes: text.into_bytes(),
    })
}

// Adds a transform to that target.
fn push_transform(alloc: Global, text: &mut String, target: u32) -> Result<()> {
    text.push_str(TRANSFORM)?;
    text.push_str(SETTING)?;
    for _ in 1..64 {
        text.push_str(",")?;
        text.push_str(SETTING)?;
    }
    text.push_str("],\"target\":")?;
    let number = format!(in alloc; "{target}")?;
    text.push_str(number.as_str())?;
    text.push_str("},")?;
    Ok(())
}

impl Workload for Document {
    ghost use Rattle.std.specs.Prelude.{⊤};

    ghost ready = { λ _. ⊤ };

    fn name(&self) -> &'static str {
        self.name
    }

    fn records(&self) -> usize {
        1
    }

    fn pass(&self, _out: &mut [u8]) -> u64 {
        stones_in(self.alloc, self.bytes.as_slice())
    }

    fn compared(&self, alloc: Global, _out: &mut [u8]) -> Result<String, AllocError> {
        let bytes = self.bytes.as_slice();
        let whole = stones_in(alloc, bytes);
        let cut = stones_in(alloc, &bytes[..bytes.len().saturating_sub(1)]);
        format!(in alloc; "{whole} stones are read, and {cut} without the last byte")
    }
}

// How many stones the document states; none where it states no job.
fn stones_in(alloc: Global, bytes: &[u8]) -> u64 {
    match read_job(alloc, bytes) {
        Ok(text) => text.stones.len() as u64,
        Err(_) => 0,
    }
}
