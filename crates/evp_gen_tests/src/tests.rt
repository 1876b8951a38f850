//! What is made, compared with documents and files that were worked out by hand.

use evp_file::read_file;
use evp_gen::make;
use serde_json::Value;
use std::test::Fail;

// The document for one record of each sender.
const DOCUMENT: &str =
    "{ \"limit\": 256, \"queue\": 16, \"formats\": [ {\"name\": \"wide\", \"profile\": \"be64\",
\"types\": [{\"name\": \"wide\", \"fields\": [[\"x\", \"integer\", 8], [\"id\", \"unsigned integer\", 8],
[\"tag\", \"string\"], [\"n\", \"integer\", 8], [\"v\", \"integer[n]\", 8]]}]}, {\"name\": \"calc\",
\"profile\": \"le64\", \"types\": [{\"name\": \"calc\", \"fields\": [[\"y\", \"integer\", 8], [\"id\",
\"unsigned integer\", 8], [\"x\", \"integer\", 8]]}]}, {\"name\": \"short\", \"profile\": \"le32\",
\"types\": [{\"name\": \"short\", \"fields\": [[\"x\", \"integer\", 2], [\"tag\", \"string\"], [\"extra\",
\"unsigned integer\", 4]]}]}, {\"name\": \"full\", \"profile\": \"be32\", \"types\": [{\"name\": \"full\",
\"fields\": [[\"y\", \"integer\", 4], [\"id\", \"unsigned integer\", 4]]}]}, {\"name\": \"tight\",
\"profile\": \"le64\", \"types\": [{\"name\": \"tight\", \"fields\": [[\"y\", \"integer\", 2], [\"id\",
\"unsigned integer\", 2]]}]} ], \"sources\": [ {\"name\": \"a\", \"file\": \"a.ndr\", \"stone\": 0},
{\"name\": \"b\", \"file\": \"b.ndr\", \"stone\": 1}, {\"name\": \"c\", \"file\": \"c.ndr\", \"stone\": 2},
{\"name\": \"d\", \"file\": \"d.ndr\", \"stone\": 3} ], \"stones\": [ {\"kind\": \"split\",
\"targets\": [4, 8]}, {\"kind\": \"split\", \"targets\": [5, 9]}, {\"kind\": \"split\", \"targets\": [6,
10]}, {\"kind\": \"split\", \"targets\": [7, 11]}, {\"kind\": \"filter\", \"format\": \"wide\",
\"expr\": \"x % 3 != 0\", \"target\": 12}, {\"kind\": \"filter\", \"format\": \"wide\",
\"expr\": \"x % 3 != 0\", \"target\": 13}, {\"kind\": \"filter\", \"format\": \"wide\",
\"expr\": \"x % 3 != 0\", \"target\": 14}, {\"kind\": \"filter\", \"format\": \"wide\",
\"expr\": \"x % 3 != 0\", \"target\": 15}, {\"kind\": \"transform\", \"format\": \"wide\",
\"into\": \"calc\", \"set\": [[\"y\", \"x*x - 0\"]], \"target\": 16}, {\"kind\": \"transform\",
\"format\": \"wide\", \"into\": \"calc\", \"set\": [[\"y\", \"x*x - 1\"]], \"target\": 17},
{\"kind\": \"transform\", \"format\": \"wide\", \"into\": \"calc\", \"set\": [[\"y\", \"x*x - 2\"]],
\"target\": 18}, {\"kind\": \"transform\", \"format\": \"wide\", \"into\": \"calc\", \"set\": [[\"y\",
\"x*x - 3\"]], \"target\": 19}, {\"kind\": \"router\", \"format\": \"wide\", \"expr\": \"(x + 500) % 5\",
\"targets\": [20, 21, 22, 23]}, {\"kind\": \"router\", \"format\": \"wide\", \"expr\": \"(x + 500) % 5\",
\"targets\": [20, 21, 22, 23]}, {\"kind\": \"router\", \"format\": \"wide\", \"expr\": \"(x + 500) % 5\",
\"targets\": [20, 21, 22, 23]}, {\"kind\": \"router\", \"format\": \"wide\", \"expr\": \"(x + 500) % 5\",
\"targets\": [20, 21, 22, 23]}, {\"kind\": \"filter\", \"format\": \"calc\", \"expr\": \"y % 2 == 0\",
\"target\": 24}, {\"kind\": \"filter\", \"format\": \"calc\", \"expr\": \"y % 2 == 0\", \"target\": 25},
{\"kind\": \"filter\", \"format\": \"calc\", \"expr\": \"y % 2 == 0\", \"target\": 26},
{\"kind\": \"filter\", \"format\": \"calc\", \"expr\": \"y % 2 == 0\", \"target\": 27},
{\"kind\": \"terminal\", \"format\": \"short\"}, {\"kind\": \"terminal\", \"format\": \"short\"},
{\"kind\": \"terminal\", \"format\": \"short\"}, {\"kind\": \"terminal\", \"format\": \"short\"},
{\"kind\": \"split\", \"targets\": [28, 29, 30, 31]}, {\"kind\": \"split\", \"targets\": [28, 29, 30, 31]},
{\"kind\": \"split\", \"targets\": [28, 29, 30, 31]}, {\"kind\": \"split\", \"targets\": [28, 29, 30, 31]},
{\"kind\": \"terminal\", \"format\": \"full\"}, {\"kind\": \"terminal\", \"format\": \"full\"},
{\"kind\": \"terminal\", \"format\": \"tight\"}, {\"kind\": \"terminal\", \"format\": \"tight\"} ],
\"rounds\": [ {\"submit\": [0, 0, 0, 0], \"frozen\": []}, {\"submit\": [0, 0, 0, 0], \"frozen\": [12]},
{\"submit\": [0, 0, 0, 0], \"frozen\": [16]}, {\"submit\": [1, 1, 1, 1], \"frozen\": [16]} ] }";

// The files for one record of each sender: the description, the record, the end.
const FILES: [&[u8]; 4] = [
    b"NDR1F\0\0\0\x78NDF1\0\x08\0\x01\x01s\0\0\0\x20\0\x05\
\x02id\x10unsigned integer\0\0\0\x04\0\0\0\0\x01x\x07integer\0\0\0\x04\0\0\0\x04\
\x03tag\x06string\0\0\0\x08\0\0\0\x08\x01n\x07integer\0\0\0\x04\0\0\0\x10\
\x01v\x0ainteger[n]\0\0\0\x02\0\0\0\x18R\0\0\0\0\0\x22\
\0\0\0\0\x0c\xfe\xff\xff\x20\0\0\0\0\0\0\0\0\0\0\0\0\0\0\0\0\0\0\0\0\0\0\x000\0E",
    b"NDR1F\0\0\0\x78NDF1\0\x04\0\x01\x01s\0\0\0\x14\0\x05\
\x02id\x10unsigned integer\0\0\0\x04\0\0\0\0\x01x\x07integer\0\0\0\x04\0\0\0\x04\
\x03tag\x06string\0\0\0\x04\0\0\0\x08\x01n\x07integer\0\0\0\x04\0\0\0\x0c\
\x01v\x0ainteger[n]\0\0\0\x02\0\0\0\x10R\0\0\0\0\0\x1a\
\0\0\0\0\x17\xfe\xff\xff\x18\0\0\0\0\0\0\0\0\0\0\0\0\0\0\x000\0E",
    b"NDR1F\0\0\0\x78NDF1\x01\x08\0\x01\x01s\0\0\0\x20\0\x05\
\x02id\x10unsigned integer\0\0\0\x04\0\0\0\0\x01x\x07integer\0\0\0\x04\0\0\0\x04\
\x03tag\x06string\0\0\0\x08\0\0\0\x08\x01n\x07integer\0\0\0\x04\0\0\0\x10\
\x01v\x0ainteger[n]\0\0\0\x02\0\0\0\x18R\0\0\0\0\0\x22\
\0\0\0\0\xff\xff\xfe\x22\0\0\0\0\0\0\0\x20\0\0\0\0\0\0\0\0\0\0\0\0\0\0\0\x000\0E",
    b"NDR1F\0\0\0\x78NDF1\x01\x04\0\x01\x01s\0\0\0\x14\0\x05\
\x02id\x10unsigned integer\0\0\0\x04\0\0\0\0\x01x\x07integer\0\0\0\x04\0\0\0\x04\
\x03tag\x06string\0\0\0\x04\0\0\0\x08\x01n\x07integer\0\0\0\x04\0\0\0\x0c\
\x01v\x0ainteger[n]\0\0\0\x02\0\0\0\x10R\0\0\0\0\0\x1a\
\0\0\0\0\xff\xff\xfe\x2d\0\0\0\x18\0\0\0\0\0\0\0\0\0\0\0\x000\0E",
];

// The records 3 and 4 of the first sender, and the end: a list of three, then a null string.
const LAST_OF_FIVE: &[u8] = b"R\0\0\0\0\0\x2e\x03\0\0\0\x7b\xfe\xff\xff\x20\0\0\0\0\0\0\0\
\x03\0\0\0\0\0\0\0\x28\0\0\0\0\0\0\x003\0\0\0\0\0\0\0\xd1\xff\xd2\xff\xd3\xff\
R\0\0\0\0\0\x20\x04\0\0\0\xa0\xfe\xff\xff\0\0\0\0\0\0\0\0\0\0\0\0\0\0\0\0\0\0\0\0\0\0\0\0E";

#[test]
fn one_record_of_each_sender(rt: HostRuntime) -> Result<(), Fail> {
    let alloc = rt.alloc();
    let made = make(alloc, 1)?;
    let document = Value::from_slice(alloc, made.job())
        .ok()
        .ok_or("a document")?;
    let by_hand = Value::from_str(alloc, DOCUMENT).ok().ok_or("one by hand")?;
    assert!(rt; document == by_hand);
    assert_eq!(rt; made.files().len(), 4);
    for (file, by_hand) in made.files().iter().zip(FILES.iter()) {
        assert_eq!(rt; file.as_slice(), *by_hand);
    }
    Ok(())
}

#[test]
fn lists_and_null_strings(rt: HostRuntime) -> Result<(), Fail> {
    let made = make(rt.alloc(), 5)?;
    let first = made.files().first().ok_or("a file")?;
    assert!(rt; first.ends_with(LAST_OF_FIVE));
    Ok(())
}

#[test]
fn as_many_records_as_there_may_be(rt: HostRuntime) -> Result<(), Fail> {
    let alloc = rt.alloc();
    let made = make(alloc, 20_000)?;
    for file in made.files() {
        assert!(rt; file.len() < 2_000_000);
        let read = read_file(alloc, file, &[], 64).ok().ok_or("a record file")?;
        assert_eq!(rt; read.items.as_slice().len(), 20_000);
    }
    Ok(())
}
