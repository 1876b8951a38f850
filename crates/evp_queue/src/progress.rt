//! What a pass knows. It exists in clauses alone.
use std::collections::LinkedList;

/// How far a pass has come: for the flows of what, whether it takes, and its routes with the
/// number of entries that it has given or taken on each. No value of it is made.
pub struct Progress<W> {
    pub whole: Option<W>,
    pub takes: bool,
    pub counts: LinkedList<(u16, u32)>,
}
