//! Each reader, called on records whose parts were worked out by hand.
ghost use Rattle.std.specs.Prelude.{◌≡◌, ◌<◌, length};
ghost use Rattle.evp_record.specs.Samples.{list_description, pairs_description, words_description};

use super::LIST;
use evp_format::read_description;
use evp_record::check;
use std::alloc::Global;
use std::test::Fail;

// Two records `e` of a number and a string, with pointers of 8 bytes.
const PAIRS: &[u8] = b"NDF1\0\x08\0\x02\x01e\0\0\0\x10\0\x02\x01k\x07integer\0\0\0\x08\0\0\0\0\
      \x01s\x06string\0\0\0\x08\0\0\0\x08\x01r\0\0\0 \0\x01\x01p\x04e[2]\0\0\0\x10\0\0\0\0";

// A record `e` of a string, and two strings.
const WORDS: &[u8] =
    b"NDF1\0\x04\0\x02\x01e\0\0\0\x04\0\x01\x01s\x06string\0\0\0\x04\0\0\0\0\x01r\0\0\0\x0c\0\x02\
      \x01o\x01e\0\0\0\x04\0\0\0\0\x01v\x09string[2]\0\0\0\x04\0\0\0\x04";

// The record itself, its count, and its list by elements and as bytes.
fn list_read(alloc: Global, description: &[u8], bytes: &[u8]) -> Option<String>
    requires description { description.now ≡ list_description }
    requires short { length bytes.now < 1000 }
{
    let Ok(format) = read_description(alloc, description) else {
        return None;
    };
    let Ok(item) = check(&format, bytes) else {
        return None;
    };
    let root = item.root();
    let mut numbers = Vec::new(alloc);
    for k in 0..item.list_len(root, 0) {
        numbers.push(item.number_in(root, 0, k)).ok()?;
    }
    let count = item.number_at(root, 1);
    let elements = item.elements(root, 0);
    format!(in alloc; "{root:?} {count} {numbers:?} {elements:?}").ok()
}

// The number and the string of each record of the list.
fn pairs_read(alloc: Global, description: &[u8], bytes: &[u8]) -> Option<String>
    requires description { description.now ≡ pairs_description }
    requires short { length bytes.now < 1000 }
{
    let Ok(format) = read_description(alloc, description) else {
        return None;
    };
    let Ok(item) = check(&format, bytes) else {
        return None;
    };
    let root = item.root();
    let mut shown = String::new(alloc);
    for k in 0..item.list_len(root, 0) {
        let inner = item.record_in(root, 0, k);
        let number = item.number_at(inner, 0);
        let text = item.text_at(inner, 1);
        write!(shown, "{inner:?} {number} {text:?};").ok()?;
    }
    Some(shown)
}

// The record inside with its string, and each string of the list.
fn words_read(alloc: Global, description: &[u8], bytes: &[u8]) -> Option<String>
    requires description { description.now ≡ words_description }
    requires short { length bytes.now < 1000 }
{
    let Ok(format) = read_description(alloc, description) else {
        return None;
    };
    let Ok(item) = check(&format, bytes) else {
        return None;
    };
    let root = item.root();
    let inner = item.record_at(root, 0);
    let text = item.text_at(inner, 0);
    let mut shown = format!(in alloc; "{inner:?} {text:?}").ok()?;
    for k in 0..item.list_len(root, 1) {
        let word = item.text_in(root, 1, k);
        write!(shown, " {word:?}").ok()?;
    }
    Some(shown)
}

#[test]
fn parts_by_each_reader(rt: HostRuntime) -> Result<(), Fail> {
    let list = b"\x08\0\0\0\x02\0\0\0\x05\0\0\0\x06\0\0\0";
    let shown = list_read(rt.alloc(), LIST, list).ok_or("list")?;
    assert_eq!(rt;
        shown.as_str(),
        "Spot { type_number: 0, at: 0 } 2 [5, 6] [5, 0, 0, 0, 6, 0, 0, 0]"
    );
    let pairs = b"\x05\0\0\0\0\0\0\0\0\0\0\0\0\0\0\0\x2c\x01\0\0\0\0\0\0 \0\0\0\0\0\0\0a\0";
    let shown = pairs_read(rt.alloc(), PAIRS, pairs).ok_or("pairs")?;
    assert_eq!(rt;
        shown.as_str(),
        "Spot { type_number: 0, at: 0 } 5 None;Spot { type_number: 0, at: 16 } 300 Some([97]);"
    );
    let words = b"\0\0\0\0\x0c\0\0\0\x0e\0\0\0b\0c\0";
    let shown = words_read(rt.alloc(), WORDS, words).ok_or("words")?;
    assert_eq!(rt;
        shown.as_str(),
        "Spot { type_number: 0, at: 0 } None Some([98]) Some([99])"
    );
    Ok(())
}
