//! A number stored in a packed record.

ghost use Rattle.std.specs.Prelude.{◌≡◌, length};
ghost use Rattle.evp_action.specs.Acting.{with_number};
ghost use Rattle.evp_action.specs.Agreement.{IsSettable};
ghost use Rattle.evp_action.specs.Storing.{IsPacked, IsPackedRecord, FitsField};
ghost use Rattle.evp_format.specs.Datum.{Entries};

use evp_base::put_number;
use evp_format::Format;

// Stores a number in a single number field of a packed record, which counts no array: the record is
// then the packed one of the same fields with that number. Takes no memory.
pub(crate) fn store(format: &Format, field: u16, number: i128, bytes: &mut [u8])
    requires settable { IsSettable format.now field }
    requires fits { FitsField format.now field number }
    requires packed { IsPackedRecord format.now bytes.old }
    ensures stored { (entries : Entries) → IsPacked format.now entries bytes.old
        → IsPacked format.now (with_number field number entries) bytes.new }
    ensures same_length { length bytes.new ≡ length bytes.old }
{
    let last = format.types().len() - 1;
    let target = format.field(last as u16, field);
    let at = target.offset as usize;
    let count = target.size as usize;
    let order = format.order();
    put_number(&mut bytes[at..at + count], order, target.size, number);
}
