//! The steps of a plan: for each field of a receiver's record what it is made from. They hold
//! offsets, sizes and numbers, and no names.

use evp_base::Kind;
use std::marker::Model;

/// A number of the sender's record.
#[derive(Clone, Copy, Debug)]
pub struct Source {
    /// Bytes from the record's first byte to the number's.
    pub offset: u32,
    /// Its bytes.
    pub size: u32,
    /// Its kind.
    pub kind: Kind,
}

/// What a number of the receiver is made from.
#[derive(Clone, Copy, Debug)]
pub enum Origin {
    /// The number that stands there.
    Standing(Source),
    /// This number, a stated default.
    Stated(i128),
}

/// What an element of an array is made from.
#[derive(Clone, Copy, Debug)]
pub enum Part {
    /// A number of the first kind, from one of the second kind and of this size.
    Number(Kind, Kind, u32),
    /// A text.
    Text,
    /// A record, by the inner steps.
    Record,
}

/// The sender's array.
#[derive(Clone, Copy, Debug)]
pub struct Run {
    /// How many elements it has.
    pub count: Origin,
    /// Whether a pointer to the first element stands at the offset, or the element itself.
    pub pointed: bool,
    /// Bytes from the record's first byte.
    pub offset: u32,
    /// Bytes of an element.
    pub stride: u32,
}

/// What an array of the receiver is made from: the sender's array, or zeros where it has none.
#[derive(Clone, Copy, Debug)]
pub struct Elements {
    /// What each element is made from.
    pub part: Part,
    /// The sender's array.
    pub run: Option<Run>,
}

/// What a field of the receiver is made from.
#[derive(Clone, Copy, Debug)]
pub enum Op {
    /// A number of this kind.
    Number(Kind, Origin),
    /// A text, whose pointer stands at this offset of the sender's record; null without one.
    Text(Option<u32>),
    /// A record, by the inner steps, from that at this offset of the sender's record.
    Nest(u32),
    /// A static array of this many elements.
    Each(u32, Elements),
    /// An array of as many elements as this number says.
    Many(Origin, Elements),
}

/// How a field of the receiver's record is made.
#[derive(Clone, Copy, Debug)]
pub struct Task {
    /// The field's number in its type.
    pub field: u16,
    /// Bytes from the record's first byte to the field's.
    pub offset: u32,
    /// Bytes of the field, or of an element of an array.
    pub size: u32,
    /// What it is made from.
    pub op: Op,
}

/// A task, and the number of the steps that make the records inside the field.
#[derive(Clone, Copy, Debug)]
pub struct Step {
    /// The task.
    pub task: Task,
    /// The number of the inner steps in the plan; none where the field has no records inside.
    pub inner: Option<u32>,
}

/// The steps that make a record of one type from a record of another, in the order of the fields.
#[derive(Debug, Drop)]
pub struct Steps {
    list: Vec<Step>,
}

impl Model for Steps {
    ghost use Rattle.std.specs.Prelude.{List};
    ghost use Rattle.evp_plan.specs.declared.step.Step.{Step};

    ghost Value = { List Step };

    ghost view = { λ s. s.list.items };
}

impl Steps {
    ghost use Rattle.std.specs.Prelude.{◌≡◌};

    /// The steps in this list. Takes no memory.
    pub fn from_vec(list: Vec<Step>) -> Self
        ensures { result ≡ list.items }
    {
        Steps { list }
    }

    /// The steps, in their order.
    pub fn as_slice(&self) -> &[Step]
        ensures { result.now ≡ self.now }
    {
        self.list.as_slice()
    }
}
