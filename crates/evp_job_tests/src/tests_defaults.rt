//! Defaults that a document states, as the format's description has them.

use crate::documents::joined;
use evp_format::write_description;
use evp_job::{JobText, read_job};
use std::alloc::Global;
use std::test::Fail;

// What stands behind a document's formats.
const REST: &str = "],\"sources\":[{\"name\":\"a\",\"file\":\"f\",\"stone\":0}],\
    \"stones\":[{\"kind\":\"terminal\",\"format\":\"q\"}],\
    \"rounds\":[{\"submit\":[1],\"frozen\":[]}]}";

// A default below 0 in front of a number without one.
const NEGATIVE: &str = "{\"formats\":[{\"name\":\"q\",\"profile\":\"be64\",\"types\":[\
    {\"name\":\"q\",\"fields\":[[\"y\",\"integer\",4,-1],[\"x\",\"integer\",8]]}]}";

const NEGATIVE_DESCRIBED: &[u8] = b"NDF2\x01\x08\0\x01\
    \x01q\0\0\0\x10\0\x02\
    \x01y\x07integer\0\0\0\x04\0\0\0\0\
    \xff\xff\xff\xff\xff\xff\xff\xff\xff\xff\xff\xff\xff\xff\xff\xff\
    \x01x\x07integer\0\0\0\x08\0\0\0\x08\
    \0\0\0\0\0\0\0\0\0\0\0\0\0\0\0\0";

// A default in a type inside the record.
const INSIDE: &str = "{\"formats\":[{\"name\":\"q\",\"profile\":\"le32\",\"types\":[\
    {\"name\":\"e\",\"fields\":[[\"k\",\"integer\",4,5]]},\
    {\"name\":\"r\",\"fields\":[[\"p\",\"e[2]\"]]}]}";

const INSIDE_DESCRIBED: &[u8] = b"NDF2\0\x04\0\x02\
    \x01e\0\0\0\x04\0\x01\
    \x01k\x07integer\0\0\0\x04\0\0\0\0\
    \0\0\0\0\0\0\0\0\0\0\0\0\0\0\0\x05\
    \x01r\0\0\0\x08\0\x01\
    \x01p\x04e[2]\0\0\0\x04\0\0\0\0\
    \0\0\0\0\0\0\0\0\0\0\0\0\0\0\0\0";

// The description of the first format of the document with these formats.
fn described(alloc: Global, formats: &str) -> Result<Vec<u8>, Fail> {
    let bytes = joined(alloc, &[formats, REST])?;
    let text = read_job(alloc, bytes.as_slice()).ok().ok_or("a job")?;
    first_described(alloc, &text)
}

fn first_described(alloc: Global, text: &JobText) -> Result<Vec<u8>, Fail> {
    let known = text.formats.first().ok_or("a format")?;
    Ok(write_description(alloc, &known.format)?)
}

#[test]
fn stated_defaults_are_the_formats(rt: HostRuntime) -> Result<(), Fail> {
    for (formats, expected) in [(NEGATIVE, NEGATIVE_DESCRIBED), (INSIDE, INSIDE_DESCRIBED)] {
        let bytes = described(rt.alloc(), formats)?;
        assert_eq!(rt; bytes.as_slice(), expected);
    }
    Ok(())
}
