//! The tokens of a text.
ghost use Rattle.std.specs.Prelude.{◌≡◌, ◌+◌, ◌-◌, ◌*◌, ◌^◌, ◌<◌, ◌≤◌, List, length, pos, SomeIff};
ghost use Rattle.std.specs.Prelude.{IfOk};
ghost use Rattle.std.specs.List.{prefix_len};
ghost use Rattle.evp_base.specs.Name.{begins_name, continues_name, is_digit};
ghost use Rattle.evp_expr.specs.Lexing.{is_blank, is_plain, symbol_of, double_of, decimal_from};
ghost use Rattle.evp_expr.specs.Lexing.{word, numeral, quoted, symbol, short_symbol, lexeme};
ghost use Rattle.evp_expr.specs.Lexing.{tokens_of};
ghost use Rattle.evp_expr.specs.Scanning.{BeginsName, LexAnswers, ScanAnswers};

use crate::fault::ExprFault;
use crate::operator::Operator;
use crate::quoted_text::QuotedText;
use crate::token::{Placed, Token};
use evp_base::{Name, begins_name, continues_name};
use std::alloc::Global;
use std::collections::VecDeque;

/// The largest number of a text.
const MAX_NUMBER: u128 = 170_141_183_460_469_231_731_687_303_715_884_105_727;

/// Whether a byte is a decimal digit.
fn is_digit(byte: u8) -> bool
    ensures { result ≡ is_digit byte }
{
    b'0' <= byte && byte <= b'9'
}

/// Whether a byte is a space or a tab.
fn is_blank(byte: u8) -> bool
    ensures { result ≡ is_blank byte }
{
    byte == b' ' || byte == b'\t'
}

/// Whether a byte may stand in a text in quotes.
fn is_plain(byte: u8) -> bool
    ensures { result ≡ is_plain byte }
{
    byte >= b' ' && byte != b'"' && byte != b'\\'
}

/// The length of the name's bytes at the front.
fn name_length(bytes: &[u8]) -> usize
    ensures { result ≡ prefix_len continues_name bytes.now }
{
    bytes
        .iter()
        .take_while(|byte| continues_name(**byte))
        .count()
}

/// The number of digits at the front.
fn digits_length(bytes: &[u8]) -> usize
    ensures { result ≡ prefix_len is_digit bytes.now }
{
    bytes.iter().take_while(|byte| is_digit(**byte)).count()
}

/// The length of the text at the front, up to a byte that can't stand in one.
fn plain_length(bytes: &[u8]) -> usize
    ensures { result ≡ prefix_len is_plain bytes.now }
{
    bytes.iter().take_while(|byte| is_plain(**byte)).count()
}

/// A symbol of two bytes.
fn double_symbol(first: u8, second: u8) -> Option<Token>
    ensures { result ≡ double_of first second }
{
    let operator = match (first, second) {
        (b'|', b'|') => Operator::Or,
        (b'&', b'&') => Operator::And,
        (b'=', b'=') => Operator::Equal,
        (b'!', b'=') => Operator::NotEqual,
        (b'<', b'=') => Operator::LessEqual,
        (b'>', b'=') => Operator::GreaterEqual,
        _ => return None,
    };
    Some(Token::Operator(operator))
}

/// A symbol of one byte.
fn single_symbol(byte: u8) -> Option<Token>
    ensures { result ≡ symbol_of byte }
{
    match byte {
        b'<' => Some(Token::Operator(Operator::Less)),
        b'>' => Some(Token::Operator(Operator::Greater)),
        b'+' => Some(Token::Operator(Operator::Add)),
        b'-' => Some(Token::Operator(Operator::Subtract)),
        b'*' => Some(Token::Operator(Operator::Multiply)),
        b'/' => Some(Token::Operator(Operator::Divide)),
        b'%' => Some(Token::Operator(Operator::Remainder)),
        b'!' => Some(Token::Not),
        b'(' => Some(Token::OpenParen),
        b')' => Some(Token::CloseParen),
        b'[' => Some(Token::OpenBracket),
        b']' => Some(Token::CloseBracket),
        b'.' => Some(Token::Dot),
        b',' => Some(Token::Comma),
        _ => None,
    }
}

/// A number with one more digit, where it is at most the largest.
fn append_digit(value: u128, digit: u8) -> Option<u128>
    requires { value < 2 ^ 127 }
    ensures { SomeIff result (10 * value + (digit - 48) < 2 ^ 127) (10 * value + (digit - 48)) }
{
    let digit = u128::from(digit.saturating_sub(b'0'));
    if value > (MAX_NUMBER - digit) / 10 {
        return None;
    }
    Some(10 * value + digit)
}

/// The number of these digits, where it is at most the largest.
fn decimal(digits: &[u8]) -> Option<i128>
    ensures { SomeIff result (decimal_from 0 digits.now < 2 ^ 127)
        (pos (decimal_from 0 digits.now)) }
{
    let mut value = 0u128;
    for digit in digits {
        value = append_digit(value, *digit)?;
    }
    Some(value as i128)
}

/// The name at the front.
fn name(bytes: &[u8], at: u32) -> Result<(Token, usize), ExprFault>
    requires { BeginsName bytes.now }
    ensures { LexAnswers at (word (prefix_len continues_name bytes.now) bytes.now) result }
{
    let length = name_length(bytes);
    match Name::read(&bytes[..length]) {
        Some(name) => Ok((Token::Name(name), length)),
        None => Err(ExprFault::Token(at)),
    }
}

/// The number at the front.
fn number(bytes: &[u8], at: u32) -> Result<(Token, usize), ExprFault>
    ensures { LexAnswers at (numeral (prefix_len is_digit bytes.now) bytes.now) result }
{
    let length = digits_length(bytes);
    match decimal(&bytes[..length]) {
        Some(number) => Ok((Token::Number(number), length)),
        None => Err(ExprFault::Literal(at)),
    }
}

/// The text behind an opening quote.
fn text(alloc: Global, bytes: &[u8], at: u32) -> Result<(Token, usize), ExprFault>
    ensures { LexAnswers at (quoted (prefix_len is_plain bytes.now) bytes.now) result }
{
    let length = plain_length(bytes);
    if length >= bytes.len() || bytes[length] != b'"' {
        return Err(ExprFault::Token(at));
    }
    let text = QuotedText::read(alloc, &bytes[..length])?;
    Ok((Token::Text(text), length + 2))
}

/// The symbol at the front.
fn symbol(first: u8, others: &[u8], at: u32) -> Result<(Token, usize), ExprFault>
    ensures { LexAnswers at (symbol first others.now) result }
{
    if let Some(second) = others.first() {
        if let Some(token) = double_symbol(first, *second) {
            return Ok((token, 2));
        }
    }
    match single_symbol(first) {
        Some(token) => Ok((token, 1)),
        None => Err(ExprFault::Token(at)),
    }
}

/// The token at the front, where no blank stands, and its length in bytes.
fn lexeme(alloc: Global, bytes: &[u8], at: u32) -> Result<(Token, usize), ExprFault>
    ensures { LexAnswers at (lexeme bytes.now) result }
{
    let Some((first, others)) = bytes.split_first() else {
        return Err(ExprFault::Token(at));
    };
    if begins_name(*first) {
        return name(bytes, at);
    }
    if is_digit(*first) {
        return number(bytes, at);
    }
    if *first == b'"' {
        return text(alloc, others, at);
    }
    symbol(*first, others, at)
}

/// The tokens of a text with their places, or the fault at the first place where none stands.
pub fn tokens(alloc: Global, text: &[u8]) -> Result<VecDeque<Placed>, ExprFault>
    requires { length text.now < 2 ^ 32 }
    ensures { ScanAnswers (tokens_of text.now) result }
{
    let mut found = VecDeque::new(alloc);
    let mut at = 0;
    while at < text.len() {
        if is_blank(text[at]) {
            at += 1;
        } else {
            let (token, length) = lexeme(alloc, &text[at..], at as u32)?;
            found.push_back(Placed {
                at: at as u32,
                token,
            })?;
            at += length;
        }
    }
    Ok(found)
}
