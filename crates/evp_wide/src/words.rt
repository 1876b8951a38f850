//! Numbers of 1, 2, 4 and 8 bytes as words.
ghost use Rattle.std.specs.Prelude.{◌≡◌, ◌<◌, ◌+◌, ◌-◌, ◌*◌, ◌%◌, ◌^◌, IsTrue, length, pos};
ghost use Rattle.std.specs.Prelude.{◌≤◌, ◌++◌, take, drop};
ghost use Rattle.evp_base.specs.declared.kind.Kind.TheVariants.{Int};
ghost use Rattle.evp_base.specs.Numbers.{number, magnitude, digits, residue, twos_complement};
ghost use Rattle.evp_base.specs.Numbers.{is_width, is_word_length};

use byteorder::{BigEndian, ByteOrder, LittleEndian};
use evp_base::{Kind, Order};

/// The unsigned number of the bytes, of which there are 1, 2, 4 or 8. Takes no memory.
#[inline(always)]
pub fn get_word(bytes: &[u8], order: Order) -> u64
    requires { IsTrue (is_width (length bytes.now)) }
    ensures value { result ≡ magnitude order bytes.now }
    ensures below { result < 2 ^ (8 * length bytes.now) }
{
    if let [byte] = bytes {
        return u64::from(*byte);
    }
    match order {
        Order::Little => read_word::<LittleEndian>(bytes),
        Order::Big => read_word::<BigEndian>(bytes),
    }
}

// The unsigned number of 2, 4 or 8 bytes.
#[inline(always)]
fn read_word<B: ByteOrder>(bytes: &[u8]) -> u64
    requires { IsTrue (is_word_length (length bytes.now)) }
    ensures { result ≡ B.number_of (length bytes.now) bytes.now }
{
    match bytes.len() {
        2 => u64::from(B::read_u16(bytes)),
        4 => u64::from(B::read_u32(bytes)),
        _ => B::read_u64(bytes),
    }
}

/// Writes the lowest 1, 2, 4 or 8 bytes of a word, as many as there is room for. Takes no memory.
#[inline(always)]
pub fn put_word(out: &mut [u8], order: Order, word: u64)
    requires { IsTrue (is_width (length out.old)) }
    ensures { out.new ≡ digits order (length out.old) (pos word) }
{
    if out.len() == 1 {
        out[0] = (word % 256) as u8;
        return;
    }
    match order {
        Order::Little => write_word::<LittleEndian>(out, word),
        Order::Big => write_word::<BigEndian>(out, word),
    }
}

// Writes the lowest 2, 4 or 8 bytes of a word.
#[inline(always)]
fn write_word<B: ByteOrder>(out: &mut [u8], word: u64)
    requires { IsTrue (is_word_length (length out.old)) }
    ensures { out.new ≡ B.bytes_of (length out.old) (word % 2 ^ (8 * length out.old)) }
{
    match out.len() {
        2 => B::write_u16(out, (word % 65_536) as u16),
        4 => B::write_u32(out, (word % 4_294_967_296) as u32),
        _ => B::write_u64(out, word),
    }
}

/// Half of 2^(8 size): the least word of `size` bytes whose top bit is set. The size is 1, 2, 4 or
/// 8. Takes no memory.
#[inline(always)]
pub fn half_of(size: usize) -> u64
    requires { IsTrue (is_width size) }
    ensures value { result ≡ 2 ^ (8 * size - 1) }
    ensures half { 2 * result ≡ 2 ^ (8 * size) }
{
    match size {
        1 => 0x80,
        2 => 0x8000,
        4 => 0x8000_0000,
        _ => 0x8000_0000_0000_0000,
    }
}

// A number of so many bytes in two's complement, modulo 2^64.
#[inline(always)]
fn with_sign(word: u64, size: usize) -> u64
    requires width { IsTrue (is_width size) }
    requires below { word < 2 ^ (8 * size) }
    ensures { result ≡ residue (twos_complement size word) (2 ^ 64) }
{
    let half = half_of(size);
    (word ^ half).wrapping_sub(half)
}

// The number that some bytes are for a kind, modulo 2^64.
#[inline(always)]
fn get_number_word(bytes: &[u8], order: Order, kind: Kind) -> u64
    requires { IsTrue (is_width (length bytes.now)) }
    ensures { result ≡ residue (number order kind bytes.now) (2 ^ 64) }
{
    let word = get_word(bytes, order);
    match kind {
        Kind::Int | Kind::Enumeration => with_sign(word, bytes.len()),
        Kind::Unsigned | Kind::Char => word,
        Kind::Boolean => u64::from(word != 0),
    }
}

/// The signed number of so many bytes at a place, modulo 2^64. The size is 1, 2, 4 or 8. Takes no
/// memory.
#[inline(always)]
pub fn get_signed(from: &[u8], at: usize, size: usize, order: Order) -> u64
    requires size { IsTrue (is_width size) }
    requires inside { at + size ≤ length from.now }
    ensures { result ≡ residue (number order Int (take size (drop at from.now))) (2 ^ 64) }
{
    with_sign(get_word(&from[at..at + size], order), size)
}

/// Writes the lowest so many bytes of a word to a place: 1, 2, 4 or 8. Takes no memory.
#[inline(always)]
pub fn put_low(out: &mut [u8], to: usize, size: usize, order: Order, word: u64)
    requires size { IsTrue (is_width size) }
    requires room { to + size ≤ length out.old }
    ensures { out.new
        ≡ take to out.old ++ (digits order size (pos word) ++ drop (to + size) out.old) }
{
    put_word(&mut out[to..to + size], order, word);
}

/// Writes the number that some bytes are for a kind, in as many bytes as there is room for. There
/// are 1, 2, 4 or 8 bytes on each side. Takes no memory.
#[inline(always)]
pub fn rewrite_number(out: &mut [u8], out_order: Order, from: &[u8], from_order: Order, kind: Kind)
    requires out { IsTrue (is_width (length out.old)) }
    requires from { IsTrue (is_width (length from.now)) }
    ensures { out.new ≡ digits out_order (length out.old) (number from_order kind from.now) }
{
    let word = get_number_word(from, from_order, kind);
    put_word(out, out_order, word);
}
