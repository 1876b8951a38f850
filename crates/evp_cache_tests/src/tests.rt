//! What passes of one cache are told, of each pair of four formats and two receivers.
ghost use Rattle.std.specs.Prelude.{◌≡◌, ◌<◌};
ghost use Rattle.evp_cache.specs.Known.{IsCacheOf, IsPassOf};

mod crowd;
mod passes;

use evp_base::{FieldPath, Memory, Step};
use evp_cache::{CachePass, Found, PlanCache};
use evp_format::{Format, LayoutFault, read_description};
use evp_plan::Builds;
use std::alloc::Global;

// Little endian, pointers of 4 bytes, `p` of 4 bytes with `x integer` of 4 bytes at 0.
const SMALL: &[u8] = b"NDF1\0\x04\0\x01\x01p\0\0\0\x04\0\x01\x01x\x07integer\0\0\0\x04\0\0\0\0";

// Big endian, pointers of 8 bytes, `q` of 8 bytes with `x integer` of 8 bytes at 0.
const WIDE: &[u8] = b"NDF1\x01\x08\0\x01\x01q\0\0\0\x08\0\x01\x01x\x07integer\0\0\0\x08\0\0\0\0";

// Little endian, pointers of 4 bytes, `t` of 4 bytes with `x string` at 0.
const TEXT: &[u8] = b"NDF1\0\x04\0\x01\x01t\0\0\0\x04\0\x01\x01x\x06string\0\0\0\x04\0\0\0\0";

// These two, the second once more, and one whose `x` is a text.
fn formats(alloc: Global, first: &[u8], second: &[u8]) -> Result<[Format; 4], LayoutFault> {
    Ok([
        read_description(alloc, first)?,
        read_description(alloc, second)?,
        read_description(alloc, second)?,
        read_description(alloc, TEXT)?,
    ])
}

// What is told of each pair of a format of 8 bytes, twice one of 4 bytes and one with a text, into
// the first and the second of them.
const WIDE_FIRST: [Told; 8] = [
    Told::Plan(8, true),
    Told::Plan(4, false),
    Told::Plan(8, false),
    Told::Plan(4, true),
    Told::Plan(8, false),
    Told::Plan(4, true),
    Told::Clash(b'x'),
    Told::Clash(b'x'),
];

// The same where the one of 4 bytes stands first, and that of 8 bytes twice.
const SMALL_FIRST: [Told; 8] = [
    Told::Plan(4, true),
    Told::Plan(8, false),
    Told::Plan(4, false),
    Told::Plan(8, true),
    Told::Plan(4, false),
    Told::Plan(8, true),
    Told::Clash(b'x'),
    Told::Clash(b'x'),
];

/// What a pass is told of a pair: the bytes of the receiver's fixed part and whether the formats
/// are equal, or the letter of the field at which they clash.
#[derive(Clone, Copy, Debug, PartialEq, Eq)]
enum Told {
    Plan(u32, bool),
    Clash(u8),
    Nothing,
}

/// What a new pass is told in two rounds, and the builds so far behind each.
#[derive(Drop)]
struct Rounds {
    first: [Told; 8],
    once: u64,
    second: [Told; 8],
    twice: u64,
}

// What one pass is told of a pair.
fn answer(
    alloc: Global,
    pass: &mut CachePass,
    cache: &PlanCache,
    formats: &[Format; 4],
    pair: usize,
    builds: &mut Builds,
) -> Told
    requires whole { IsCacheOf cache.now formats.now }
    requires two { cache.now.declared ≡ 2 }
    requires pass { IsPassOf cache.now formats.now pass.old }
    requires pair { pair < 8 }
    ensures { IsPassOf cache.now formats.now pass.new }
{
    match pass.get(
        alloc,
        cache,
        formats,
        pair as u16 / 2,
        pair as u16 % 2,
        builds,
    ) {
        Ok(Found::Plan(plan)) => Told::Plan(plan.fixed(), plan.alike()),
        Ok(Found::Clash(path)) => Told::Clash(letter(path)),
        Err(Memory) => Told::Nothing,
    }
}

// The letter of a path that is one field with a name of one letter.
fn letter(path: &FieldPath) -> u8 {
    match path.steps() {
        [Step::Field(name)] => match name.as_bytes() {
            [letter] => *letter,
            _ => 0,
        },
        _ => 0,
    }
}

// A round: each pair in its turn.
fn round(
    alloc: Global,
    pass: &mut CachePass,
    cache: &PlanCache,
    formats: &[Format; 4],
    builds: &mut Builds,
) -> [Told; 8]
    requires whole { IsCacheOf cache.now formats.now }
    requires two { cache.now.declared ≡ 2 }
    requires pass { IsPassOf cache.now formats.now pass.old }
    ensures { IsPassOf cache.now formats.now pass.new }
{
    let mut answers = [Told::Nothing; 8];
    for pair in 0..8 {
        answers[pair] = answer(alloc, pass, cache, formats, pair, builds);
    }
    answers
}

// Two rounds of a new pass.
fn asked(alloc: Global, cache: &PlanCache, formats: &[Format; 4]) -> Result<Rounds, Memory>
    requires whole { IsCacheOf cache.now formats.now }
    requires two { cache.now.declared ≡ 2 }
{
    let mut builds = Builds::new();
    let mut pass = CachePass::new(alloc, cache)?;
    let first = round(alloc, &mut pass, cache, formats, &mut builds);
    let once = builds.count();
    let second = round(alloc, &mut pass, cache, formats, &mut builds);
    Ok(Rounds {
        first,
        once,
        second,
        twice: builds.count(),
    })
}
