//! Descriptions of the formats that conversions are tested on.

pub(crate) const EVERY_KIND: &[u8] =
    b"NDF1\0\x04\0\x01\x01p\0\0\0\x18\0\x04\x01b\x07boolean\0\0\0\x04\0\0\0\0\x01c\x04char\0\0\0\x01\0\
    \0\0\x04\x01i\x07integer\0\0\0\x08\0\0\0\x08\x01u\x10unsigned integer\0\0\0\x08\0\0\0\x10";

pub(crate) const B_AS_SIGNED_BYTE: &[u8] =
    b"NDF1\x01\x04\0\x01\x01p\0\0\0\x08\0\x01\x01b\x07integer\0\0\0\x01\0\0\0\0";

pub(crate) const C_AS_SIGNED_BYTE: &[u8] =
    b"NDF1\x01\x04\0\x01\x01p\0\0\0\x08\0\x01\x01c\x07integer\0\0\0\x01\0\0\0\0";

pub(crate) const C_AS_ENUMERATION: &[u8] =
    b"NDF1\x01\x04\0\x01\x01p\0\0\0\x08\0\x01\x01c\x0benumeration\0\0\0\x02\0\0\0\0";

pub(crate) const C_AS_BOOLEAN: &[u8] =
    b"NDF1\x01\x04\0\x01\x01p\0\0\0\x08\0\x01\x01c\x07boolean\0\0\0\x01\0\0\0\0";

pub(crate) const C_AS_WIDE_BOOLEAN: &[u8] =
    b"NDF1\x01\x04\0\x01\x01p\0\0\0\x08\0\x01\x01c\x07boolean\0\0\0\x08\0\0\0\0";

pub(crate) const I_AS_BOOLEAN: &[u8] =
    b"NDF1\x01\x04\0\x01\x01p\0\0\0\x08\0\x01\x01i\x07boolean\0\0\0\x08\0\0\0\0";

pub(crate) const I_AS_CHAR: &[u8] =
    b"NDF1\x01\x04\0\x01\x01p\0\0\0\x08\0\x01\x01i\x04char\0\0\0\x01\0\0\0\0";

pub(crate) const U_AS_SIGNED: &[u8] =
    b"NDF1\x01\x04\0\x01\x01p\0\0\0\x08\0\x01\x01u\x07integer\0\0\0\x08\0\0\0\0";

pub(crate) const U_AS_UNSIGNED: &[u8] =
    b"NDF1\x01\x04\0\x01\x01p\0\0\0\x08\0\x01\x01u\x10unsigned integer\0\0\0\x08\0\0\0\0";

pub(crate) const I_AS_WIDE_ENUMERATION: &[u8] =
    b"NDF1\x01\x04\0\x01\x01p\0\0\0\x08\0\x01\x01i\x0benumeration\0\0\0\x08\0\0\0\0";

pub(crate) const I_AS_SIGNED_HALF: &[u8] =
    b"NDF1\x01\x04\0\x01\x01p\0\0\0\x08\0\x01\x01i\x07integer\0\0\0\x02\0\0\0\0";

pub(crate) const I_AS_ENUMERATION: &[u8] =
    b"NDF1\x01\x04\0\x01\x01p\0\0\0\x08\0\x01\x01i\x0benumeration\0\0\0\x04\0\0\0\0";

pub(crate) const I_AS_UNSIGNED: &[u8] =
    b"NDF1\x01\x04\0\x01\x01p\0\0\0\x08\0\x01\x01i\x10unsigned integer\0\0\0\x08\0\0\0\0";

pub(crate) const COUNT_ALONE: &[u8] =
    b"NDF1\0\x08\0\x01\x01p\0\0\0\x08\0\x01\x01n\x07integer\0\0\0\x08\0\0\0\0";

pub(crate) const LIST_WITH_A_NEW_FIELD: &[u8] =
    b"NDF2\0\x04\0\x02\x01e\0\0\0\x0c\0\x03\x01z\x07integer\0\0\0\x04\0\0\0\0\0\0\0\0\0\0\0\0\0\0\0\0\
    \0\0\0\x07\x01s\x06string\0\0\0\x04\0\0\0\x04\0\0\0\0\0\0\0\0\0\0\0\0\0\0\0\0\x01k\x07integer\0\
    \0\0\x01\0\0\0\x08\0\0\0\0\0\0\0\0\0\0\0\0\0\0\0\0\x01r\0\0\0\x08\0\x02\x01p\x04e[n]\0\0\0\x0c\0\
    \0\0\0\0\0\0\0\0\0\0\0\0\0\0\0\0\0\0\0\x01n\x07integer\0\0\0\x04\0\0\0\x04\0\0\0\0\0\0\0\0\0\0\0\
    \0\0\0\0\0";

pub(crate) const DEFAULTS_AT_EVERY_DEPTH: &[u8] =
    b"NDF2\x01\x04\0\x03\x01a\0\0\0\x0c\0\x03\x01k\x07integer\0\0\0\x04\0\0\0\0\xff\xff\xff\xff\xff\
    \xff\xff\xff\xff\xff\xff\xff\xff\xff\xff\xf7\x01l\x0ainteger[n]\0\0\0\x04\0\0\0\x04\0\0\0\0\0\0\
    \0\0\0\0\0\0\0\0\0\0\x01n\x07integer\0\0\0\x04\0\0\0\x08\0\0\0\0\0\0\0\0\0\0\0\0\0\0\0\0\x01b\0\
    \0\0\x1c\0\x03\x01q\x01a\0\0\0\x0c\0\0\0\0\0\0\0\0\0\0\0\0\0\0\0\0\0\0\0\0\x01r\x04a[1]\0\0\0\
    \x0c\0\0\0\x0c\0\0\0\0\0\0\0\0\0\0\0\0\0\0\0\0\x01t\x06string\0\0\0\x04\0\0\0\x18\0\0\0\0\0\0\0\
    \0\0\0\0\0\0\0\0\0\x01c\0\0\08\0\x01\x01p\x04b[2]\0\0\0\x1c\0\0\0\0\0\0\0\0\0\0\0\0\0\0\0\0\0\0\
    \0\0";

pub(crate) const INNER_COUNT: &[u8] =
    b"NDF2\x01\x04\0\x02\x01a\0\0\0\x0c\0\x03\x01k\x07integer\0\0\0\x04\0\0\0\0\xff\xff\xff\xff\xff\
    \xff\xff\xff\xff\xff\xff\xff\xff\xff\xff\xf7\x01l\x0ainteger[n]\0\0\0\x04\0\0\0\x04\0\0\0\0\0\0\
    \0\0\0\0\0\0\0\0\0\0\x01n\x07integer\0\0\0\x04\0\0\0\x08\0\0\0\0\0\0\0\0\0\0\0\0\0\0\0\0\x01c\0\
    \0\0\x0c\0\x01\x01p\x01a\0\0\0\x0c\0\0\0\0\0\0\0\0\0\0\0\0\0\0\0\0\0\0\0\0";

pub(crate) const STRINGS_AND_A_DEFAULT: &[u8] =
    b"NDF2\0\x04\0\x01\x01p\0\0\0\x0c\0\x02\x01s\x09string[2]\0\0\0\x04\0\0\0\0\0\0\0\0\0\0\0\0\0\0\0\
    \0\0\0\0\0\x01d\x10unsigned integer\0\0\0\x04\0\0\0\x08\0\0\0\0\0\0\0\0\0\0\0\0\xff\xff\xff\xff";

pub(crate) const TEXT_BEFORE_COUNT: &[u8] =
    b"NDF1\0\x04\0\x01\x01p\0\0\0\x0c\0\x02\x01s\x06string\0\0\0\x04\0\0\0\0\x01n\x07integer\0\0\0\x08\
    \0\0\0\x04";

pub(crate) const RECORD_OF_DEFAULTS: &[u8] =
    b"NDF2\0\x04\0\x02\x01e\0\0\0\x0c\0\x03\x01s\x06string\0\0\0\x04\0\0\0\0\0\0\0\0\0\0\0\0\0\0\0\0\0\
    \0\0\0\x01d\x0benumeration\0\0\0\x02\0\0\0\x04\xff\xff\xff\xff\xff\xff\xff\xff\xff\xff\xff\xff\
    \xff\xff\x80\0\x01u\x09string[1]\0\0\0\x04\0\0\0\x08\0\0\0\0\0\0\0\0\0\0\0\0\0\0\0\0\x01r\0\0\0\
    \x10\0\x02\x01p\x01e\0\0\0\x0c\0\0\0\0\0\0\0\0\0\0\0\0\0\0\0\0\0\0\0\0\x01n\x07integer\0\0\0\x01\
    \0\0\0\x0c\0\0\0\0\0\0\0\0\0\0\0\0\0\0\0\0";

pub(crate) const SMALL: &[u8] =
    b"NDF1\0\x04\0\x01\x01p\0\0\0\x04\0\x01\x01x\x07integer\0\0\0\x04\0\0\0\0";

pub(crate) const WIDE_UNSIGNED: &[u8] =
    b"NDF1\x01\x08\0\x01\x01p\0\0\0\x08\0\x01\x01x\x10unsigned integer\0\0\0\x08\0\0\0\0";

pub(crate) const WIDE: &[u8] =
    b"NDF1\0\x08\0\x01\x01p\0\0\0\x08\0\x01\x01x\x07integer\0\0\0\x08\0\0\0\0";

pub(crate) const X_AND_Z: &[u8] =
    b"NDF1\0\x08\0\x01\x01p\0\0\0\x08\0\x02\x01x\x07integer\0\0\0\x04\0\0\0\0\x01z\x07integer\0\0\0\
    \x04\0\0\0\x04";

pub(crate) const Y_AND_X: &[u8] =
    b"NDF1\0\x04\0\x01\x01p\0\0\0\x08\0\x02\x01y\x07integer\0\0\0\x04\0\0\0\0\x01x\x07integer\0\0\0\
    \x02\0\0\0\x04";

pub(crate) const COUNTED_B: &[u8] =
    b"NDF1\0\x04\0\x01\x01p\0\0\0\x0c\0\x02\x01n\x07integer\0\0\0\x08\0\0\0\0\x01b\x0ainteger[n]\0\0\0\
    \x04\0\0\0\x08";

pub(crate) const ARRAY_AND_COUNT: &[u8] =
    b"NDF1\0\x04\0\x01\x01p\0\0\0\x08\0\x02\x01a\x0ainteger[n]\0\0\0\x04\0\0\0\0\x01n\x07integer\0\0\0\
    \x04\0\0\0\x04";

pub(crate) const COUNT_AND_ARRAY: &[u8] =
    b"NDF1\x01\x04\0\x01\x01p\0\0\0\x08\0\x02\x01n\x07integer\0\0\0\x04\0\0\0\0\x01a\x0ainteger[n]\0\0\
    \0\x08\0\0\0\x04";

pub(crate) const THREE_INSIDE: &[u8] =
    b"NDF1\0\x04\0\x01\x01p\0\0\0\x0c\0\x01\x01a\x0ainteger[3]\0\0\0\x04\0\0\0\0";

pub(crate) const TWO_RECORDS: &[u8] =
    b"NDF1\0\x08\0\x02\x01e\0\0\0\x10\0\x02\x01k\x07integer\0\0\0\x08\0\0\0\0\x01s\x06string\0\0\0\x08\
    \0\0\0\x08\x01r\0\0\0 \0\x01\x01p\x04e[2]\0\0\0\x10\0\0\0\0";

pub(crate) const TWO_NARROW_RECORDS: &[u8] =
    b"NDF1\0\x04\0\x02\x01e\0\0\0\x08\0\x02\x01k\x07integer\0\0\0\x01\0\0\0\0\x01s\x06string\0\0\0\x04\
    \0\0\0\x04\x01r\0\0\0\x10\0\x01\x01p\x04e[2]\0\0\0\x08\0\0\0\0";

pub(crate) const STRING_A: &[u8] =
    b"NDF1\0\x04\0\x01\x01p\0\0\0\x04\0\x01\x01a\x06string\0\0\0\x04\0\0\0\0";

pub(crate) const NUMBER_A: &[u8] =
    b"NDF1\0\x04\0\x01\x01p\0\0\0\x04\0\x01\x01a\x07integer\0\0\0\x04\0\0\0\0";

pub(crate) const DEFAULTS: &[u8] =
    b"NDF2\x01\x08\0\x01\x01p\0\0\0\x10\0\x02\x01y\x07integer\0\0\0\x04\0\0\0\0\xff\xff\xff\xff\xff\
    \xff\xff\xff\xff\xff\xff\xff\xff\xff\xff\xff\x01x\x07integer\0\0\0\x08\0\0\0\x08\0\0\0\0\0\0\0\0\
    \0\0\0\0\0\0\0\0";

pub(crate) const RECORDS_OF_DEFAULTS: &[u8] =
    b"NDF2\0\x04\0\x02\x01e\0\0\0\x04\0\x01\x01k\x07integer\0\0\0\x04\0\0\0\0\0\0\0\0\0\0\0\0\0\0\0\0\
    \0\0\0\x05\x01r\0\0\0\x08\0\x01\x01p\x04e[2]\0\0\0\x04\0\0\0\0\0\0\0\0\0\0\0\0\0\0\0\0\0\0\0\0";
