//! Record files: the magic and the frame of a format, written by hand. A number in front of a name
//! is its length; the layouts are those of C on the named machine.

// le32{x integer 4}, 43 bytes with the magic and the frame's head.
pub const X: &[u8] =
    b"NDR1F\0\0\0\x22NDF1\0\x04\0\x01\x01p\0\0\0\x04\0\x01\x01x\x07integer\0\0\0\x04\0\0\0\0";

// The record {x=7}, and the end.
pub const SEVEN: &[u8] = b"R\0\0\0\0\0\x04\x07\0\0\0";

pub const END: &[u8] = b"E";

// A file of that record alone.
pub const ONE_SEVEN: &[&[u8]] = &[X, SEVEN, END];

// be64{x unsigned integer 8}
pub const X_UNSIGNED: &[u8] = b"NDR1F\0\0\0\x2bNDF1\x01\x08\0\x01\x01p\0\0\0\x08\0\x01\
    \x01x\x10unsigned integer\0\0\0\x08\0\0\0\0";

// le64{x integer 4, z integer 4}
pub const X_Z: &[u8] = b"NDR1F\0\0\0\x34NDF1\0\x08\0\x01\x01p\0\0\0\x08\0\x02\
    \x01x\x07integer\0\0\0\x04\0\0\0\0\x01z\x07integer\0\0\0\x04\0\0\0\x04";

// le32{x integer 4, y integer 4}
pub const X_Y: &[u8] = b"NDR1F\0\0\0\x34NDF1\0\x04\0\x01\x01p\0\0\0\x08\0\x02\
    \x01x\x07integer\0\0\0\x04\0\0\0\0\x01y\x07integer\0\0\0\x04\0\0\0\x04";

// le32{a integer[n] 4, n integer 4}
pub const LIST: &[u8] = b"NDR1F\0\0\0\x37NDF1\0\x04\0\x01\x01p\0\0\0\x08\0\x02\
    \x01a\x0ainteger[n]\0\0\0\x04\0\0\0\0\x01n\x07integer\0\0\0\x04\0\0\0\x04";

// le64{n integer 8}
pub const COUNT: &[u8] = b"NDR1F\0\0\0\x22NDF1\0\x08\0\x01\x01p\0\0\0\x08\0\x01\
    \x01n\x07integer\0\0\0\x08\0\0\0\0";

// le64{s string}
pub const TEXT: &[u8] = b"NDR1F\0\0\0\x21NDF1\0\x08\0\x01\x01p\0\0\0\x08\0\x01\
    \x01s\x06string\0\0\0\x08\0\0\0\0";

// le64, e{k integer 8, s string} and r{p e[2]}
pub const NESTED: &[u8] = b"NDR1F\0\0\0\x4aNDF1\0\x08\0\x02\x01e\0\0\0\x10\0\x02\
    \x01k\x07integer\0\0\0\x08\0\0\0\0\x01s\x06string\0\0\0\x08\0\0\0\x08\
    \x01r\0\0\0\x20\0\x01\x01p\x04e[2]\0\0\0\x10\0\0\0\0";

// le32{s string, t string}
pub const TEXTS: &[u8] = b"NDR1F\0\0\0\x32NDF1\0\x04\0\x01\x01p\0\0\0\x08\0\x02\
    \x01s\x06string\0\0\0\x04\0\0\0\0\x01t\x06string\0\0\0\x04\0\0\0\x04";

// le32{s string}
pub const SHORT_TEXT: &[u8] = b"NDR1F\0\0\0\x21NDF1\0\x04\0\x01\x01p\0\0\0\x04\0\x01\
    \x01s\x06string\0\0\0\x04\0\0\0\0";

// le32{a string}
pub const NAME: &[u8] = b"NDR1F\0\0\0\x21NDF1\0\x04\0\x01\x01p\0\0\0\x04\0\x01\
    \x01a\x06string\0\0\0\x04\0\0\0\0";

// The job's format q by its identifier (by sha256sum of its description), and a record of it.
pub const KNOWN: &[u8] = b"NDR1I\
    \xa6\x42\x89\x21\x80\x71\x94\xa3\x86\x65\x83\xab\x9a\x1f\xa9\xc1\
    \x95\x99\x8f\x16\x79\xbd\x46\x35\x06\xc4\xea\x79\x38\x17\x00\x30\
    R\0\0\0\0\0\x08\0\0\0\0\0\0\0\x07";

// The same by another identifier, whose last byte is another.
pub const UNKNOWN: &[u8] = b"NDR1I\
    \xa6\x42\x89\x21\x80\x71\x94\xa3\x86\x65\x83\xab\x9a\x1f\xa9\xc1\
    \x95\x99\x8f\x16\x79\xbd\x46\x35\x06\xc4\xea\x79\x38\x17\x00\x31\
    R\0\0\0\0\0\x08\0\0\0\0\0\0\0\x07";
