//! The tokens of an expression's text.

use crate::operator::Operator;
use crate::quoted_text::QuotedText;
use evp_base::Name;

/// A token.
#[derive(Debug, Drop)]
pub enum Token {
    /// A name of up to 64 bytes.
    Name(Name),
    /// Decimal digits: a number from 0 to 2^127 - 1.
    Number(i128),
    /// A text, without its quotes.
    Text(QuotedText),
    /// An operator between two operands; `-` also stands before one.
    Operator(Operator),
    /// `!`
    Not,
    /// `(`
    OpenParen,
    /// `)`
    CloseParen,
    /// `[`
    OpenBracket,
    /// `]`
    CloseBracket,
    /// `.`
    Dot,
    /// `,`
    Comma,
}

/// A token and its place, the offset of its first byte in the text.
#[derive(Debug, Drop)]
pub struct Placed {
    /// The offset in bytes, from 0.
    pub at: u32,
    /// The token.
    pub token: Token,
}
