//! A step that can refuse something or take a block, with a quick test.

use crate::{Step, Words};

/// A step that can refuse something or take a block.
#[derive(Clone, Copy, Debug)]
pub struct Quick {
    /// The step.
    pub step: Step,
    /// Where it makes a single number, the words of the sender's that fit.
    pub words: Option<Words>,
}
