//! What a path reaches while its expression is bound.

ghost use Rattle.std.specs.Prelude.{◌≡◌};
ghost use Rattle.evp_eval.specs.Binding.{inner, element_reach};

use crate::instruction::Member;
use evp_format::Base;

/// Where the record stands whose field a path reaches.
#[derive(Clone, Copy, Debug)]
pub enum Stand {
    /// At this offset in every record of the format.
    Known(u32),
    /// On top of the stack of records, when the instructions so far have run.
    Stacked,
}

/// What the part of an expression that was read last reaches.
#[derive(Clone, Copy, Debug)]
pub enum Reach {
    /// A number, which the instructions so far put.
    Ready,
    /// A field of the record that stands there. An instruction for its name is still to be made.
    Field(Stand, Member),
    /// An element that is a text, of the list in that field. Its index and the record are on top.
    Text(Member),
    /// An element that is a record of the type of that number. It is on top.
    Record(u16),
}

/// A path whose index is read: the list that it reaches, and the place of its first name.
#[derive(Clone, Copy, Debug)]
pub struct Waiting {
    /// The list's field.
    pub member: Member,
    /// The place of the path's first name.
    pub first: u32,
}

/// Where the record in a field stands. A record's bytes are fewer than 2^32.
pub fn inner(stand: Stand, offset: u32) -> Stand
    ensures { result ≡ inner stand offset }
{
    match stand {
        Stand::Known(at) => Stand::Known(at.saturating_add(offset)),
        Stand::Stacked => Stand::Stacked,
    }
}

/// What an element of the list in a field is.
pub fn element_reach(member: Member, base: Base) -> Reach
    ensures { result ≡ element_reach member base }
{
    match base {
        Base::Number(_) => Reach::Ready,
        Base::Text => Reach::Text(member),
        Base::Nested(type_number) => Reach::Record(type_number),
    }
}
