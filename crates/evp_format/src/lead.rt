//! What can fail in a record's bytes beside its length: a pointer that leads astray, or a count.
use evp_base::Kind;

/// What stands inside each element of a field, as far as pointers go.
#[derive(Clone, Copy, Debug, PartialEq, Eq)]
pub enum Inside {
    /// No pointer: the element is a number, or a record without any.
    Plain,
    /// A string.
    Text,
    /// A record of the type of this number, which has a pointer.
    Record(u16),
}

/// The single number field that counts an array's elements.
#[derive(Clone, Copy, Debug, PartialEq, Eq)]
pub struct Count {
    /// Bytes from the record's first byte to the field's.
    pub offset: u32,
    /// Bytes of the number.
    pub size: u32,
    /// What the number is.
    pub kind: Kind,
}

/// How many elements there are, and where they stand.
#[derive(Clone, Copy, Debug, PartialEq, Eq)]
pub enum Run {
    /// One, inside the record.
    One,
    /// This many, inside the record.
    Fixed(u32),
    /// As many as this field says, where the record's pointer leads.
    Counted(Count),
}

/// A field that has a pointer or leads to one.
#[derive(Clone, Copy, Debug, PartialEq, Eq)]
pub struct Lead {
    /// The field's number in its type.
    pub number: u16,
    /// Bytes from the record's first byte to the field's.
    pub offset: u32,
    /// Bytes of one element.
    pub size: u32,
    /// How many elements it has, and where.
    pub run: Run,
    /// What stands inside each of them.
    pub inside: Inside,
}
