//! What a record file holds.

ghost use Rattle.std.specs.Prelude.{◌≡◌, [], ◌∷◌, ◌++◌, OnOk, OnErr};

use evp_base::Memory;
use evp_format::{Format, FormatId};
use evp_record::KeptBytes;
use std::marker::Model;

/// A format that is known beforehand, with its identifier.
#[derive(Debug, Drop)]
pub struct KnownFormat {
    pub format: Format,
    pub id: FormatId,
}

/// A format of a file.
#[derive(Debug, Drop)]
pub enum FileFormat {
    /// The file has its description.
    Own(Format),
    /// The file has the identifier of the known format of this number, counted from 0.
    Known(u16),
}

/// The formats of a file, numbered from 0 in their order.
#[derive(Debug, Drop)]
pub struct FileFormats {
    list: Vec<FileFormat>,
}

impl Model for FileFormats {
    ghost use Rattle.std.specs.Prelude.{List};
    ghost use Rattle.evp_file.specs.declared.file.FileFormat.{FileFormat};

    ghost Value = { List FileFormat };

    ghost view = { λ f. f.list.items };
}

impl FileFormats {
    /// The formats in this list. Takes no memory.
    pub fn from_vec(list: Vec<FileFormat>) -> Self
        ensures { result ≡ list.items }
    {
        FileFormats { list }
    }

    /// The list of the formats. Takes no memory.
    pub fn into_vec(self) -> Vec<FileFormat>
        ensures { result.items ≡ self }
    {
        self.list
    }

    /// The formats, in their order.
    pub fn as_slice(&self) -> &[FileFormat]
        ensures { result.now ≡ self.now }
    {
        self.list.as_slice()
    }

    /// Adds a format at the end. Without memory the others stay.
    pub fn push(&mut self, format: FileFormat) -> Result<(), Memory>
        ensures ok { OnOk result (self.new ≡ self.old ++ format ∷ []) }
        ensures err { OnErr result (self.new ≡ self.old) }
    {
        self.list.push(format)?;
        Ok(())
    }
}

/// A record of a file.
#[derive(Debug, Drop)]
pub struct FileItem {
    /// The number of its format among the file's.
    pub format: u16,
    pub bytes: KeptBytes,
}

/// The records of a file, numbered from 0 in their order.
#[derive(Debug, Drop)]
pub struct FileItems {
    list: Vec<FileItem>,
}

impl Model for FileItems {
    ghost use Rattle.std.specs.Prelude.{List};
    ghost use Rattle.evp_file.specs.declared.file.FileItem.{FileItem};

    ghost Value = { List FileItem };

    ghost view = { λ f. f.list.items };
}

impl FileItems {
    /// The records in this list. Takes no memory.
    pub fn from_vec(list: Vec<FileItem>) -> Self
        ensures { result ≡ list.items }
    {
        FileItems { list }
    }

    /// The list of the records. Takes no memory.
    pub fn into_vec(self) -> Vec<FileItem>
        ensures { result.items ≡ self }
    {
        self.list
    }

    /// The records, in their order.
    pub fn as_slice(&self) -> &[FileItem]
        ensures { result.now ≡ self.now }
    {
        self.list.as_slice()
    }

    /// Adds a record at the end. Without memory the others stay.
    pub fn push(&mut self, item: FileItem) -> Result<(), Memory>
        ensures ok { OnOk result (self.new ≡ self.old ++ item ∷ []) }
        ensures err { OnErr result (self.new ≡ self.old) }
    {
        self.list.push(item)?;
        Ok(())
    }
}

/// A record file: formats, at most 1,024, and records of them, at most 131,072.
#[derive(Debug, Drop)]
pub struct RecordFile {
    pub formats: FileFormats,
    pub items: FileItems,
}
