//! Numbers in the bytes of a record.

ghost use Rattle.std.specs.Prelude.{◌≡◌, ◌<◌, ◌≤◌, ◌+◌, ◌-◌, ◌*◌, ◌^◌, ◌↔◌, ℕ, pos, length, IsTrue};
ghost use Rattle.evp_base.specs.Numbers.{number, magnitude, digits, residue, twos_complement};
ghost use Rattle.evp_base.specs.Numbers.{is_width, is_size_of, is_word_length, InRange, FitsBytes};
ghost use Rattle.evp_base.specs.Numbers.{least, greatest};

use crate::{Kind, Order};
use byteorder::{BigEndian, ByteOrder, LittleEndian};

/// The number that these bytes are: their sum by their weights, less 2^(8 size) where the kind is
/// signed and the top bit is set (two's complement, C99, section 6.2.6.2). A boolean is 0 where all
/// its bytes are 0, else 1. The size is one that the kind may have, and the slice's length. Takes
/// no memory.
pub fn get_number(bytes: &[u8], order: Order, kind: Kind, size: u32) -> i128
    requires allowed { IsTrue (is_size_of kind size) }
    requires whole { length bytes.now ≡ size }
    ensures value { result ≡ number order kind bytes.now }
    ensures in_range { InRange kind size result }
{
    let magnitude = magnitude_of(bytes, order);
    match kind {
        Kind::Int | Kind::Enumeration => twos_complement(magnitude, size),
        Kind::Unsigned | Kind::Char => i128::from(magnitude),
        Kind::Boolean => i128::from(magnitude != 0),
    }
}

/// Writes the bytes of `n` modulo 2^(8 size), so a negative one in two's complement (C99, section
/// 6.2.6.2). The size is 1, 2, 4 or 8 and the slice's length, and `n` is from the least signed
/// number of that size to the greatest unsigned one. Takes no memory.
pub fn put_number(out: &mut [u8], order: Order, size: u32, n: i128)
    requires allowed { IsTrue (is_width size) }
    requires whole { length out.old ≡ size }
    requires fits { FitsBytes size n }
    ensures { out.new ≡ digits order size n }
{
    let word = residue(n, size);
    if size == 1 {
        out[0] = word as u8;
        return;
    }
    match order {
        Order::Little => write_word::<LittleEndian>(out, word),
        Order::Big => write_word::<BigEndian>(out, word),
    }
}

/// Whether `n` is a number of that kind and size: two's complement for an int and an enumeration,
/// from 0 for an unsigned number, 0 to 255 for a char and 0 or 1 for a boolean. The size is one
/// that the kind may have. Takes no memory.
pub fn fits(kind: Kind, size: u32, n: i128) -> bool
    requires { IsTrue (is_size_of kind size) }
    ensures { IsTrue result ↔ InRange kind size n }
{
    least(kind, size) <= n && n <= greatest(kind, size)
}

// The least number of that kind and size.
fn least(kind: Kind, size: u32) -> i128
    requires { IsTrue (is_size_of kind size) }
    ensures { result ≡ least kind size }
{
    match kind {
        Kind::Int | Kind::Enumeration => -half_of(size),
        Kind::Unsigned | Kind::Char | Kind::Boolean => 0,
    }
}

// The greatest number of that kind and size.
fn greatest(kind: Kind, size: u32) -> i128
    requires { IsTrue (is_size_of kind size) }
    ensures { result ≡ greatest kind size }
{
    match kind {
        Kind::Int | Kind::Enumeration => half_of(size) - 1,
        Kind::Unsigned => modulus_of(size) - 1,
        Kind::Char => 255,
        Kind::Boolean => 1,
    }
}

// 2^(8 size - 1).
fn half_of(size: u32) -> i128
    requires { IsTrue (is_width size) }
    ensures { result ≡ pos (2 ^ (8 * size - 1)) }
{
    match size {
        1 => 1 << 7,
        2 => 1 << 15,
        4 => 1 << 31,
        _ => 1 << 63,
    }
}

// 2^(8 size).
fn modulus_of(size: u32) -> i128
    requires { IsTrue (is_width size) }
    ensures { result ≡ pos (2 ^ (8 * size)) }
{
    2 * half_of(size)
}

// The unsigned number of the bytes.
fn magnitude_of(bytes: &[u8], order: Order) -> u64
    requires { IsTrue (is_width (length bytes.now)) }
    ensures value { result ≡ magnitude order bytes.now }
    ensures below { result < 2 ^ (8 * length bytes.now) }
{
    if let [byte] = bytes {
        return u64::from(*byte);
    }
    match order {
        Order::Little => read_word::<LittleEndian>(bytes),
        Order::Big => read_word::<BigEndian>(bytes),
    }
}

// The unsigned number of 2, 4 or 8 bytes.
fn read_word<B: ByteOrder>(bytes: &[u8]) -> u64
    requires { IsTrue (is_word_length (length bytes.now)) }
    ensures { result ≡ B.number_of (length bytes.now) bytes.now }
{
    match bytes.len() {
        2 => u64::from(B::read_u16(bytes)),
        4 => u64::from(B::read_u32(bytes)),
        _ => B::read_u64(bytes),
    }
}

// The number whose `size` bytes are those of the magnitude, the top bit being a sign.
fn twos_complement(magnitude: u64, size: u32) -> i128
    requires allowed { IsTrue (is_width size) }
    requires below { magnitude < 2 ^ (8 * size) }
    ensures value { result ≡ twos_complement size magnitude }
    ensures in_range { InRange Kind.Int size result }
{
    let modulus = modulus_of(size);
    let number = i128::from(magnitude);
    if 2 * number < modulus {
        number
    } else {
        number - modulus
    }
}

// `n` modulo 2^(8 size).
fn residue(n: i128, size: u32) -> u64
    requires allowed { IsTrue (is_width size) }
    requires fits { FitsBytes size n }
    ensures value { result ≡ residue n (2 ^ (8 * size)) }
    ensures below { result < 2 ^ (8 * size) }
{
    if n < 0 {
        (n + modulus_of(size)) as u64
    } else {
        n as u64
    }
}

// Writes the bytes of a number of 2, 4 or 8 bytes.
fn write_word<B: ByteOrder>(out: &mut [u8], word: u64)
    requires allowed { IsTrue (is_word_length (length out.old)) }
    requires below { word < 2 ^ (8 * length out.old) }
    ensures { out.new ≡ B.bytes_of (length out.old) word }
{
    match out.len() {
        2 => B::write_u16(out, word as u16),
        4 => B::write_u32(out, word as u32),
        _ => B::write_u64(out, word),
    }
}
