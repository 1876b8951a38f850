//! The texts of an expression.
ghost use Rattle.std.specs.Prelude.{◌≡◌, List, ℕ, IfOk};

use std::alloc::{AllocError, Global};
use std::marker::Model;

/// The bytes of a text, without its quotes.
#[derive(Debug, Drop)]
pub struct QuotedText {
    bytes: Vec<u8>,
}

impl Model for QuotedText {
    ghost Value = { List ℕ };

    ghost view = { λ text. text.bytes.items };
}

impl QuotedText {
    /// The text of these bytes.
    pub fn read(alloc: Global, bytes: &[u8]) -> Result<QuotedText, AllocError>
        ensures { IfOk result (λ text. text ≡ bytes.now) }
    {
        let mut copied = Vec::new(alloc);
        copied.extend_from_slice(bytes)?;
        Ok(QuotedText { bytes: copied })
    }

    /// An equal text.
    pub fn copy(&self, alloc: Global) -> Result<QuotedText, AllocError>
        ensures { IfOk result (λ copied. copied ≡ self.now) }
    {
        QuotedText::read(alloc, self.as_bytes())
    }

    /// The bytes, in order.
    pub fn as_bytes(&self) -> &[u8]
        ensures { result.now ≡ self.now }
    {
        self.bytes.as_slice()
    }
}
