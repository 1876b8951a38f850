//! A packed record, before it is shared.

// Where its bytes lie: so many in a room, or apart from it.
#[derive(Drop)]
pub(crate) enum Packed {
    InRoom(u8),
    Own(Vec<u8>),
}
