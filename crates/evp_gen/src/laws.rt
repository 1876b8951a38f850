//! The laws of the files that are made. The functions do nothing.

ghost use Rattle.evp_gen.specs.Laws.{SentIsRead, SentIsShort};

/// Each sender's file of up to 20,000 records is read as its one format and its records, whatever
/// formats are known, at each limit from 64 on.
pub fn sent_is_read()
    ensures { SentIsRead }
{}

/// Each sender's file of up to 20,000 records has at most 16 MiB, as a record file may have.
pub fn sent_is_short()
    ensures { SentIsShort }
{}
