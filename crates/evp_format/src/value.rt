//! The values that a record has.
use evp_base::Name;
use std::marker::Model;

/// The bytes of a text, none of them zero.
#[derive(Debug, Drop)]
pub struct TextBytes {
    bytes: Vec<u8>,
}

impl Model for TextBytes {
    ghost use Rattle.std.specs.Prelude.{List, ℕ};
    ghost use Rattle.evp_format.specs.Text.{HasNoZero};

    ghost Value = { List ℕ };

    ghost view = { λ t. t.bytes.items };

    ghost invariant = { λ t. HasNoZero t.bytes.items };
}

impl TextBytes {
    ghost use Rattle.std.specs.Prelude.{◌≡◌, ◌↔◌, IsSome, IfSome};
    ghost use Rattle.evp_format.specs.Text.{HasNoZero};

    /// A text of these bytes, none of which is zero. It takes no memory.
    pub fn new(bytes: Vec<u8>) -> TextBytes
        requires { HasNoZero bytes.items }
        ensures { result ≡ bytes.items }
    {
        TextBytes { bytes }
    }

    /// A text of these bytes, or `None` where one of them is zero. It takes no memory.
    pub fn read(bytes: Vec<u8>) -> Option<TextBytes>
        ensures read { IsSome result ↔ HasNoZero bytes.items }
        ensures same { IfSome result (λ text. text ≡ bytes.items) }
    {
        if bytes.contains(&0) {
            None
        } else {
            Some(TextBytes { bytes })
        }
    }

    /// The bytes, without the zero byte that ends them in a record.
    pub fn as_slice(&self) -> &[u8]
        ensures value { result.now ≡ self.now }
        ensures no_zero { HasNoZero self.now }
    {
        self.bytes.as_slice()
    }

    /// The bytes as they were handed in. It takes no memory.
    pub fn into_vec(self) -> Vec<u8>
        ensures value { result.items ≡ self }
        ensures no_zero { HasNoZero self }
    {
        self.bytes
    }
}

/// The elements of a list, in order.
#[cycle(value)]
#[derive(Debug, Drop)]
pub struct Items {
    /// The elements.
    pub values: Vec<Value>,
}

/// The fields of a record, in the format's order.
#[cycle(value)]
#[derive(Debug, Drop)]
pub struct Members {
    /// Names and values.
    pub pairs: Vec<(Name, Value)>,
}

/// A value of a record or of a part of one.
#[cycle(value)]
#[derive(Debug, Drop)]
pub enum Value {
    /// A number.
    Num(i128),
    /// A string that isn't there.
    Null,
    /// A string.
    Text(TextBytes),
    /// An array.
    List(Items),
    /// A record.
    Rec(Members),
}

impl Value {
    ghost use Rattle.std.specs.Prelude.{◌≡◌, Some, option_map};
    ghost use Rattle.evp_format.specs.Datum.{as_number, elements_of, entries_of};
    ghost use Rattle.evp_format.specs.ValueView.{datum_of, elements_of_values, entries_of_pairs};

    /// The number, or 0 where the value is none. Takes no memory.
    pub fn number(&self) -> i128
        ensures { result ≡ as_number (datum_of self.now) }
    {
        match self {
            Value::Num(number) => *number,
            _ => 0,
        }
    }

    /// The elements of a list, or `None` where the value is none. Takes no memory.
    pub fn elements(&self) -> Option<&[Value]>
        ensures { option_map (λ values. elements_of_values values.now) result
            ≡ elements_of (Some (datum_of self.now)) }
    {
        match self {
            Value::List(items) => Some(items.values.as_slice()),
            _ => None,
        }
    }

    /// The fields of a record, or none where the value is none. Takes no memory.
    pub fn entries(&self) -> &[(Name, Value)]
        ensures { entries_of_pairs result.now ≡ entries_of (Some (datum_of self.now)) }
    {
        match self {
            Value::Rec(members) => members.pairs.as_slice(),
            _ => &[],
        }
    }
}
