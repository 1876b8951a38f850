//! Which words of a sender's numbers fit, and the quick tests of steps.

ghost use Rattle.std.specs.Prelude.{◌≡◌, ◌≤◌, ◌-◌, ◌-ℤ◌, ◌*◌, ◌^◌, ◌++◌, [], pos, IsTrue, IfOk, IfSome};
ghost use Rattle.std.specs.List.{All};
ghost use Rattle.evp_base.specs.Numbers.{is_size_of, least, greatest};
ghost use Rattle.evp_plan.specs.Quicks.{steps_in, with_words, words_in, IsFit};
ghost use Rattle.evp_plan.specs.Words.{AreWordsOf, AreWordsFor};

use crate::quiet::is_size_of;
use crate::{Op, Origin, Quick, Source, Step, Words};
use evp_base::{Kind, Memory};
use evp_wide::half_of;
use std::alloc::Global;

// The greatest number of that kind and size.
fn greatest(kind: Kind, size: u32) -> u64
    requires { IsTrue (is_size_of kind size) }
    ensures { pos result ≡ greatest kind size }
{
    match kind {
        Kind::Int | Kind::Enumeration => half_of(size as usize) - 1,
        Kind::Unsigned => half_of(size as usize) - 1 + half_of(size as usize),
        Kind::Char => 255,
        Kind::Boolean => 1,
    }
}

// How many numbers of that kind and size are below 0.
fn below(kind: Kind, size: u32) -> u64
    requires { IsTrue (is_size_of kind size) }
    ensures value { pos 0 -ℤ pos result ≡ least kind size }
    ensures half { result ≤ 2 ^ (8 * size - 1) }
{
    match kind {
        Kind::Int | Kind::Enumeration => half_of(size as usize),
        Kind::Unsigned | Kind::Char | Kind::Boolean => 0,
    }
}

// The lesser of both.
fn lesser(a: u64, b: u64) -> u64
    ensures first { result ≤ a }
    ensures second { result ≤ b }
{
    if a < b { a } else { b }
}

// The words of a sender's number that fit a field of that kind and size.
fn words_of(kind: Kind, size: u32, source: &Source) -> Words
    requires wanted { IsTrue (is_size_of kind size) }
    requires allowed { IsTrue (is_size_of source.now.kind source.now.size) }
    ensures { AreWordsOf kind size source.now result }
{
    let top = lesser(greatest(kind, size), greatest(source.kind, source.size));
    let below = lesser(below(kind, size), below(source.kind, source.size));
    let half = half_of(source.size as usize);
    Words {
        offset: source.offset,
        size: source.size,
        top,
        under: half - 1 + (half - below),
    }
}

// The words that fit what an operation makes of that size, where it is a number that stands in the
// sender's record.
fn words_for(size: u32, op: &Op) -> Option<Words>
    ensures { IfSome result (AreWordsFor size op.now) }
{
    let Op::Number(kind, Origin::Standing(source)) = op else {
        return None;
    };
    if is_size_of(*kind, size) && is_size_of(source.kind, source.size) {
        Some(words_of(*kind, size, source))
    } else {
        None
    }
}

// The step, with a quick test.
fn quick_of(step: &Step) -> Quick
    ensures step { result.step ≡ step.now }
    ensures fit { IsFit result }
{
    Quick {
        step: *step,
        words: words_for(step.task.size, &step.task.op),
    }
}

// These steps, with quick tests.
pub(crate) fn all_quick(alloc: Global, steps: &[Step]) -> Result<Vec<Quick>, Memory>
    ensures steps { IfOk result (λ tests. steps_in tests.items ≡ steps.now) }
    ensures fit { IfOk result (λ tests. All IsFit tests.items) }
{
    let mut tests = Vec::with_capacity(alloc, steps.len())?;
    for step in steps {
        tests.push(quick_of(step))?;
    }
    Ok(tests)
}

// Those words too, where they have so many bytes.
fn push_words(words: &mut Vec<Words>, size: u32, test: &Quick) -> Result<(), Memory>
    ensures { IfOk result (λ _. words.new.items
        ≡ words.old.items ++ with_words size test.now.words []) }
{
    let Some(entry) = test.words else {
        return Ok(());
    };
    if entry.size == size {
        words.push(entry)?;
    }
    Ok(())
}

// The words of these that have so many bytes.
pub(crate) fn words_in(alloc: Global, size: u32, tests: &[Quick]) -> Result<Vec<Words>, Memory>
    ensures { IfOk result (λ words. words.items ≡ words_in size tests.now) }
{
    let mut words = Vec::new(alloc);
    for test in tests {
        push_words(&mut words, size, test)?;
    }
    Ok(words)
}
