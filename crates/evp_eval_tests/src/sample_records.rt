//! Formats of which the tests bind expressions, each by its description, and a record of each.

/// A list `a` of numbers in front of its count `n`: `{a=[5,6],n=2}`.
pub const LIST: &[u8] = b"NDF1\0\x04\0\x01\x01p\0\0\0\x08\0\x02\
    \x01a\x0ainteger[n]\0\0\0\x04\0\0\0\0\
    \x01n\x07integer\0\0\0\x04\0\0\0\x04";

pub const LIST_RECORD: &[u8] = b"\x08\0\0\0\x02\0\0\0\x05\0\0\0\x06\0\0\0";

/// One string, `s`.
pub const TEXT: &[u8] = b"NDF1\0\x04\0\x01\x01p\0\0\0\x04\0\x01\
    \x01s\x06string\0\0\0\x04\0\0\0\0";

/// A list `v` of strings behind its count: `{n=2,v=["a","b"]}`.
pub const WORDS: &[u8] = b"NDF1\0\x04\0\x01\x01p\0\0\0\x08\0\x02\
    \x01n\x10unsigned integer\0\0\0\x04\0\0\0\0\
    \x01v\x09string[n]\0\0\0\x04\0\0\0\x04";

pub const WORDS_RECORD: &[u8] = b"\x02\0\0\0\x08\0\0\0\x10\0\0\0\x12\0\0\0a\0b\0";

/// A record `e` and a list of `e`: `{o={k=7,s=null},l=[{k=1,s="x"},{k=2,s=null}],n=2}`.
pub const NESTED: &[u8] = b"NDF1\0\x04\0\x02\
    \x01e\0\0\0\x08\0\x02\
    \x01k\x07integer\0\0\0\x04\0\0\0\0\
    \x01s\x06string\0\0\0\x04\0\0\0\x04\
    \x01r\0\0\0\x10\0\x03\
    \x01o\x01e\0\0\0\x08\0\0\0\0\
    \x01l\x04e[n]\0\0\0\x08\0\0\0\x08\
    \x01n\x07integer\0\0\0\x04\0\0\0\x0c";

pub const NESTED_RECORD: &[u8] =
    b"\x07\0\0\0\0\0\0\0\x10\0\0\0\x02\0\0\0\x01\0\0\0\x20\0\0\0\x02\0\0\0\0\0\0\0x\0";

/// Two nested records and two lists:
/// `{p={l=[{v=[{i={k=5}}],m=1},{v=[{i={k=6}},{i={k=7}}],m=2}],n=2}}`.
pub const DEEP: &[u8] = b"NDF1\0\x04\0\x05\
    \x01d\0\0\0\x04\0\x01\
    \x01k\x07integer\0\0\0\x04\0\0\0\0\
    \x01c\0\0\0\x04\0\x01\
    \x01i\x01d\0\0\0\x04\0\0\0\0\
    \x01b\0\0\0\x08\0\x02\
    \x01v\x04c[m]\0\0\0\x04\0\0\0\0\
    \x01m\x07integer\0\0\0\x04\0\0\0\x04\
    \x01a\0\0\0\x08\0\x02\
    \x01l\x04b[n]\0\0\0\x08\0\0\0\0\
    \x01n\x07integer\0\0\0\x04\0\0\0\x04\
    \x01r\0\0\0\x08\0\x01\
    \x01p\x01a\0\0\0\x08\0\0\0\0";

pub const DEEP_RECORD: &[u8] = b"\x08\0\0\0\x02\0\0\0\x18\0\0\0\x01\0\0\0\x1c\0\0\0\x02\0\0\0\
    \x05\0\0\0\x06\0\0\0\x07\0\0\0";

/// A number of each kind and size, named by both, and an array `v`; the lower bytes first.
pub const LITTLE: &[u8] = b"NDF1\0\x08\0\x01\x01p\0\0\0\x42\0\x12\
    \x02i8\x07integer\0\0\0\x08\0\0\0\0\
    \x02u8\x10unsigned integer\0\0\0\x08\0\0\0\x08\
    \x02b8\x07boolean\0\0\0\x08\0\0\0\x10\
    \x02e8\x0benumeration\0\0\0\x08\0\0\0\x18\
    \x02i4\x07integer\0\0\0\x04\0\0\0\x20\
    \x02u4\x10unsigned integer\0\0\0\x04\0\0\0\x24\
    \x02b4\x07boolean\0\0\0\x04\0\0\0\x28\
    \x02e4\x0benumeration\0\0\0\x04\0\0\0\x2c\
    \x02i2\x07integer\0\0\0\x02\0\0\0\x30\
    \x02u2\x10unsigned integer\0\0\0\x02\0\0\0\x32\
    \x02b2\x07boolean\0\0\0\x02\0\0\0\x34\
    \x02e2\x0benumeration\0\0\0\x02\0\0\0\x36\
    \x02i1\x07integer\0\0\0\x01\0\0\0\x38\
    \x02u1\x10unsigned integer\0\0\0\x01\0\0\0\x39\
    \x02c1\x04char\0\0\0\x01\0\0\0\x3a\
    \x02b1\x07boolean\0\0\0\x01\0\0\0\x3b\
    \x02e1\x0benumeration\0\0\0\x01\0\0\0\x3c\
    \x01v\x0ainteger[2]\0\0\0\x02\0\0\0\x3e";

pub const LITTLE_RECORD: &[u8] = b"\
    \xfe\xff\xff\xff\xff\xff\xff\xff\x08\x07\x06\x05\x04\x03\x02\x01\
    \0\0\0\0\0\0\0\x80\0\0\0\0\0\0\0\xff\
    \0\0\0\x80\0\x28\x6b\xee\0\0\0\0\x04\x03\x02\x01\
    \x01\x80\x01\xff\0\x01\xfe\xff\x80\xc8\xff\x07\xff\
    \0\x02\x01\xfe\xff";

/// The same with the higher bytes first.
pub const BIG: &[u8] = b"NDF1\x01\x08\0\x01\x01p\0\0\0\x42\0\x12\
    \x02i8\x07integer\0\0\0\x08\0\0\0\0\
    \x02u8\x10unsigned integer\0\0\0\x08\0\0\0\x08\
    \x02b8\x07boolean\0\0\0\x08\0\0\0\x10\
    \x02e8\x0benumeration\0\0\0\x08\0\0\0\x18\
    \x02i4\x07integer\0\0\0\x04\0\0\0\x20\
    \x02u4\x10unsigned integer\0\0\0\x04\0\0\0\x24\
    \x02b4\x07boolean\0\0\0\x04\0\0\0\x28\
    \x02e4\x0benumeration\0\0\0\x04\0\0\0\x2c\
    \x02i2\x07integer\0\0\0\x02\0\0\0\x30\
    \x02u2\x10unsigned integer\0\0\0\x02\0\0\0\x32\
    \x02b2\x07boolean\0\0\0\x02\0\0\0\x34\
    \x02e2\x0benumeration\0\0\0\x02\0\0\0\x36\
    \x02i1\x07integer\0\0\0\x01\0\0\0\x38\
    \x02u1\x10unsigned integer\0\0\0\x01\0\0\0\x39\
    \x02c1\x04char\0\0\0\x01\0\0\0\x3a\
    \x02b1\x07boolean\0\0\0\x01\0\0\0\x3b\
    \x02e1\x0benumeration\0\0\0\x01\0\0\0\x3c\
    \x01v\x0ainteger[2]\0\0\0\x02\0\0\0\x3e";

pub const BIG_RECORD: &[u8] = b"\
    \xff\xff\xff\xff\xff\xff\xff\xfe\x01\x02\x03\x04\x05\x06\x07\x08\
    \x80\0\0\0\0\0\0\0\xff\0\0\0\0\0\0\0\
    \x80\0\0\0\xee\x6b\x28\0\0\0\0\0\x01\x02\x03\x04\
    \x80\x01\xff\x01\x01\0\xff\xfe\x80\xc8\xff\x07\xff\
    \0\x01\x02\xff\xfe";
