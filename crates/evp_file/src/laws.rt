//! Laws of record files, which hold for all of them. The functions do nothing.

ghost use Rattle.evp_file.specs.Laws.{FilesAreExact, FilesReadBack};

/// Bytes that are read without a fault are the file that is read, a file's bytes are read as it, a
/// fault is the first, and bytes with one are no file.
pub fn files_are_exact()
    ensures { FilesAreExact }
{}

/// What is written of a file is read as that file, where its records are within the limit and known
/// identifiers differ.
pub fn files_read_back()
    ensures { FilesReadBack }
{}
