//! Type texts: a word, and behind it nothing, `[N]` or `[name]`. There is one spelling of each
//! type.

ghost use Rattle.std.specs.Prelude.{◌≡◌, ◌≢◌, ◌↔◌, slice_index, ◌<◌, ◌≤◌, ◌^◌, length, IsTrue};
ghost use Rattle.std.specs.Prelude.{SomeIff};
ghost use Rattle.std.specs.Str.Parse.{IsNumeral, digits_value};
ghost use Rattle.evp_format.specs.Bytes.{bytes_equal};
ghost use Rattle.evp_format.specs.WellLaid.{is_reserved, is_type_name};
ghost use Rattle.evp_format.specs.TypeText.{word_part, bracket_part, type_word_of, word_of};
ghost use Rattle.evp_format.specs.TypeText.{fixed_of, inside_of, shape_of, type_named, base_of};
ghost use Rattle.evp_format.specs.TypeText.{type_text_of};

use crate::{Base, DraftShape, LayoutFault, RecordType};
use evp_base::{Kind, Name};

/// The word of a type text.
#[derive(Clone, Copy, Debug)]
pub(crate) enum Word {
    /// A number's or a string's.
    Plain(Base),
    /// `float`, which isn't supported.
    FloatWord,
    /// A record type's name.
    Named(Name),
}

/// The base and the shape that a type text says, behind these types.
#[tactic(auto, unfolding(crate::specs::TypeText::type_text_of))]
pub(crate) fn type_text_of(
    text: &[u8],
    earlier: &[RecordType],
    type_number: u16,
    field: u16,
) -> Result<(Base, DraftShape), LayoutFault>
    requires { length earlier.now < 2 ^ 16 }
    ensures { result ≡ type_text_of earlier.now type_number field text.now }
{
    let (word, brackets) = parts_of(text);
    let Some(word) = word_of(word) else {
        return Err(LayoutFault::TypeText(type_number, field));
    };
    let Some(shape) = shape_of(brackets) else {
        return Err(LayoutFault::TypeText(type_number, field));
    };
    let base = base_of(word, earlier, type_number, field)?;
    Ok((base, shape))
}

// What stands before the first `[`, and what stands from there on.
fn parts_of(text: &[u8]) -> (&[u8], &[u8])
    ensures word { result.0.now ≡ word_part text.now }
    ensures brackets { result.1.now ≡ bracket_part text.now }
{
    text.split_at(word_length(text))
}

// Bytes before the first `[`.
fn word_length(text: &[u8]) -> usize
    ensures bound { result ≤ length text.now }
    ensures value { result ≡ length (word_part text.now) }
{
    for (front, byte) in text.iter().enumerate() {
        if *byte == b'[' {
            return front;
        }
    }
    text.len()
}

/// Whether the bytes are these.
pub(crate) fn is_text(bytes: &[u8], text: &[u8]) -> bool
    ensures { result ≡ bytes_equal bytes.now text.now }
{
    bytes == text
}

// The word that the bytes are, if they are one.
#[tactic(auto, unfolding(crate::specs::TypeText::word_of))]
fn word_of(text: &[u8]) -> Option<Word>
    ensures { result ≡ word_of text.now }
{
    if is_text(text, b"integer") {
        Some(Word::Plain(Base::Number(Kind::Int)))
    } else if is_text(text, b"unsigned integer") {
        Some(Word::Plain(Base::Number(Kind::Unsigned)))
    } else if is_text(text, b"char") {
        Some(Word::Plain(Base::Number(Kind::Char)))
    } else if is_text(text, b"boolean") {
        Some(Word::Plain(Base::Number(Kind::Boolean)))
    } else if is_text(text, b"enumeration") {
        Some(Word::Plain(Base::Number(Kind::Enumeration)))
    } else if is_text(text, b"string") {
        Some(Word::Plain(Base::Text))
    } else if is_text(text, b"float") {
        Some(Word::FloatWord)
    } else {
        type_word_of(text)
    }
}

// A record type's name, as a word.
fn type_word_of(text: &[u8]) -> Option<Word>
    ensures { result ≡ type_word_of text.now }
{
    let name = type_name_of(text)?;
    Some(Word::Named(name))
}

// The shape that stands behind a word, if it is one.
#[tactic(auto, unfolding(crate::specs::TypeText::shape_of))]
fn shape_of(text: &[u8]) -> Option<DraftShape>
    ensures { result ≡ shape_of text.now }
{
    match text {
        [] => Some(DraftShape::One),
        [_, inside @ .., b']'] => inside_of(inside),
        [_, ..] => None,
    }
}

// The shape that stands in brackets, if it is one.
#[tactic(auto, unfolding(crate::specs::TypeText::inside_of))]
fn inside_of(text: &[u8]) -> Option<DraftShape>
    ensures { result ≡ inside_of text.now }
{
    match Name::read(text) {
        Some(name) => Some(DraftShape::Counted(name)),
        None => fixed_of(text),
    }
}

// A number of elements as it is written, without a sign or a leading zero, if the text is one.
fn fixed_of(text: &[u8]) -> Option<DraftShape>
    ensures { result ≡ fixed_of text.now }
{
    if !begins_number(text) {
        return None;
    }
    let count = number_of(text)?;
    if is_fixed_count(count) {
        Some(DraftShape::Fixed(count))
    } else {
        None
    }
}

// Whether an array inside a record may have so many elements.
fn is_fixed_count(count: u32) -> bool
    ensures { IsTrue result ↔ ((1 ≤ count) × (count ≤ 65536)) }
{
    1 <= count && count <= 65536
}

// Whether the text begins with a digit other than 0.
fn begins_number(text: &[u8]) -> bool
    ensures { IsTrue result ↔ ((49 ≤ slice_index text.now 0) × (slice_index text.now 0 ≤ 57)) }
{
    !text.is_empty() && b'1' <= text[0] && text[0] <= b'9'
}

// The number that a text writes.
fn number_of(text: &[u8]) -> Option<u32>
    requires { slice_index text.now 0 ≢ 43 }
    ensures { SomeIff result (IsNumeral 10 text.now × (digits_value 10 text.now < 2 ^ 32))
        (digits_value 10 text.now) }
{
    match std::str::from_utf8(text) {
        Ok(digits) => digits.parse().ok(),
        Err(_) => None,
    }
}

// The base that a word means.
#[tactic(auto, unfolding(crate::specs::TypeText::base_of))]
fn base_of(
    word: Word,
    earlier: &[RecordType],
    type_number: u16,
    field: u16,
) -> Result<Base, LayoutFault>
    requires { length earlier.now < 2 ^ 16 }
    ensures { result ≡ base_of earlier.now type_number field word }
{
    match word {
        Word::Plain(base) => Ok(base),
        Word::FloatWord => Err(LayoutFault::Float(type_number, field)),
        Word::Named(name) => match type_named(earlier, name) {
            Some(number) => Ok(Base::Nested(number)),
            None => Err(LayoutFault::UnknownType(type_number, field)),
        },
    }
}

// The number of the type of this name.
fn type_named(types: &[RecordType], name: Name) -> Option<u16>
    requires { length types.now < 2 ^ 16 }
    ensures { result ≡ type_named types.now name }
{
    for (number, record_type) in types.iter().enumerate() {
        if record_type.name == name {
            return Some(number as u16);
        }
    }
    None
}

/// A record type's name, if the text is one: no reserved word.
pub(crate) fn type_name_of(text: &[u8]) -> Option<Name>
    ensures { SomeIff result (IsTrue (is_type_name text.now)) text.now }
{
    if is_reserved(text) {
        return None;
    }
    Name::read(text)
}

// Whether the text is a reserved word.
fn is_reserved(text: &[u8]) -> bool
    ensures { result ≡ is_reserved text.now }
{
    is_text(text, b"integer")
        || is_text(text, b"unsigned")
        || is_text(text, b"char")
        || is_text(text, b"boolean")
        || is_text(text, b"enumeration")
        || is_text(text, b"string")
        || is_text(text, b"float")
}
