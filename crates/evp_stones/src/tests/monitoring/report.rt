//! The report of the readings, written from their rule, with counts that were worked out by hand.

use super::machines::READINGS;
use std::alloc::{AllocError, Global};

// The sources' names with their first stones, which their routes begin with.
const SOURCES: [&str; 3] = ["a>0", "b>1", "c>2"];

// The readings of which a route's lines tell: none; those that are `ok` and have so many numbers; the
// sums of all; or those of which the sum doesn't fit, and then the others' sums.
enum Lines {
    None,
    Readings(u64),
    Sums,
    LowSums,
}

// What the report says of a source's routes: the stones behind the first, what passed and was
// dropped and refused, and the lines of records.
const ROUTES: [(&str, &str, Lines); 10] = [
    ("", "passed 500 dropped 0 refused 0", Lines::None),
    (">3", "passed 250 dropped 250 refused 0", Lines::None),
    (">3>5", "passed 250 dropped 0 refused 0", Lines::None),
    (
        ">3>5>7",
        "passed 84 dropped 0 refused 0",
        Lines::Readings(0),
    ),
    (
        ">3>5>8",
        "passed 83 dropped 0 refused 0",
        Lines::Readings(1),
    ),
    (
        ">3>5>9",
        "passed 83 dropped 0 refused 0",
        Lines::Readings(2),
    ),
    (">4", "passed 500 dropped 0 refused 0", Lines::None),
    (">4>6", "passed 500 dropped 0 refused 0", Lines::None),
    (">4>6>10", "passed 500 dropped 0 refused 0", Lines::Sums),
    (
        ">4>6>11",
        "passed 156 dropped 0 refused 344",
        Lines::LowSums,
    ),
];

// The sum of a reading: a hundred for each of its numbers, and its own number.
fn sum_of(id: u64) -> u64 {
    (id % 3 * 100).saturating_add(id)
}

// The lines of the readings that are `ok` and have so many numbers.
fn push_readings(alloc: Global, text: &mut String, count: u64) -> Result<(), AllocError> {
    let numbers = ["", "1", "1,2"][count.min(2) as usize];
    for id in 0..READINGS {
        if id % 2 == 0 && id % 3 == count {
            let line = format!(in alloc;
                "#{id} {{id={id},name=\"ok\",n={count},v=[{numbers}]}}\n"
            )?;
            text.push_str(line.as_str())?;
        }
    }
    Ok(())
}

// The lines of the sums that are at most so much.
fn push_sums(alloc: Global, text: &mut String, most: u64) -> Result<(), AllocError> {
    for id in 0..READINGS {
        let sum = sum_of(id);
        if sum <= most {
            let line = format!(in alloc; "#{id} {{id={id},total={sum}}}\n")?;
            text.push_str(line.as_str())?;
        }
    }
    Ok(())
}

// The lines of the sums that don't fit one byte.
fn push_unfit(alloc: Global, text: &mut String) -> Result<(), AllocError> {
    for id in 0..READINGS {
        if sum_of(id) > 255 {
            text.push_str(format!(in alloc; "#{id} unfit total\n")?.as_str())?;
        }
    }
    Ok(())
}

fn push_lines(alloc: Global, text: &mut String, lines: &Lines) -> Result<(), AllocError> {
    match lines {
        Lines::None => Ok(()),
        Lines::Readings(count) => push_readings(alloc, text, *count),
        Lines::Sums => push_sums(alloc, text, u64::MAX),
        Lines::LowSums => {
            push_unfit(alloc, text)?;
            push_sums(alloc, text, 255)
        }
    }
}

// What the report says of a source's routes.
fn push_routes(alloc: Global, text: &mut String, source: &str) -> Result<(), AllocError> {
    for (stones, counts, lines) in &ROUTES {
        text.push_str(format!(in alloc; "{source}{stones} {counts} held 0\n")?.as_str())?;
        push_lines(alloc, text, lines)?;
    }
    Ok(())
}

/// The report of the job.
pub fn expected(alloc: Global) -> Result<String, AllocError> {
    let mut text = String::from_str(alloc, "round 0\n")?;
    for source in SOURCES {
        push_routes(alloc, &mut text, source)?;
    }
    Ok(text)
}
