//! Laws of views and packing, which hold for all values. The functions do nothing.

ghost use Rattle.evp_record.specs.Laws.{PackedIsViewed, ViewedIsOfFormat, ReachedIsOfType};
ghost use Rattle.evp_record.specs.Laws.{NumberIsItsBytes};

/// The packed record of a value has that value in its view, for each value of a format whose packed
/// size is below 2^32.
pub fn packed_is_viewed()
    ensures { PackedIsViewed }
{}

/// The value that bytes have in a format is of that format: numbers in their ranges, lists as long
/// as their counts say, texts without a zero byte.
pub fn viewed_is_of_format()
    ensures { ViewedIsOfFormat }
{}

/// The value of each record inside the bytes is of its type: what the readers read has the form and
/// the ranges that the format says.
pub fn reached_is_of_type()
    ensures { ReachedIsOfType }
{}

/// A single number field of a record inside the bytes is the number of the bytes at the record's
/// place plus the field's offset.
pub fn number_is_its_bytes()
    ensures { NumberIsItsBytes }
{}
