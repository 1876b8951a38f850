//! The words of a command line.
ghost use Rattle.std.specs.Prelude.{◌≡◌, ◌≤◌, IfSome, map, string_bytes, option_map};
ghost use Rattle.evp_stones.specs.Words.{bench_by, line_of, line_of_four, line_of_three};
ghost use Rattle.evp_stones.specs.Words.{line_of_two, run_by, seen, IsWithin};

use crate::decimal_number::number_in;

/// A line: what is to be done, and by which names.
#[derive(Clone, Copy, Debug)]
pub enum Line<'a> {
    /// `show FILE`
    Show(&'a str),
    /// `check JOB`
    Check(&'a str),
    /// `convert JOB FORMAT FILE`
    Convert(&'a str, &'a str, &'a str),
    /// `run JOB N`
    Run(&'a str, u32),
    /// `walk JOB ORDER`
    Walk(&'a str, &'a str),
    /// `bench N W`
    Bench(u32, u32),
}

/// The line that the words are, or None where they are none.
pub fn line_of(words: &[String]) -> Option<Line<'_>>
    ensures line { option_map seen result ≡ line_of (map string_bytes words.now) }
    ensures within { IfSome result (λ line. IsWithin (seen line)) }
{
    match words {
        [word, name] => line_of_two(word.as_str(), name.as_str()),
        [word, second, last] => line_of_three(word.as_str(), second.as_str(), last.as_str()),
        [word, job, format, file] => {
            line_of_four(word.as_str(), job.as_str(), format.as_str(), file.as_str())
        }
        _ => None,
    }
}

fn line_of_two<'a>(word: &str, name: &'a str) -> Option<Line<'a>>
    ensures { option_map seen result ≡ line_of_two word.now name.now }
{
    if word == "show" {
        return Some(Line::Show(name));
    }
    if word == "check" {
        return Some(Line::Check(name));
    }
    None
}

fn line_of_four<'a>(word: &str, job: &'a str, format: &'a str, file: &'a str) -> Option<Line<'a>>
    ensures { option_map seen result ≡ line_of_four word.now job.now format.now file.now }
{
    if word == "convert" {
        return Some(Line::Convert(job, format, file));
    }
    None
}

fn line_of_three<'a>(word: &str, second: &'a str, last: &'a str) -> Option<Line<'a>>
    ensures line { option_map seen result ≡ line_of_three word.now second.now last.now }
    ensures within { IfSome result (λ line. IsWithin (seen line)) }
{
    if word == "run" {
        return run_by(second, number_in(65, last.as_bytes()));
    }
    if word == "walk" {
        return Some(Line::Walk(second, last));
    }
    if word == "bench" {
        return bench_by(
            number_in(20_001, second.as_bytes()),
            number_in(65, last.as_bytes()),
        );
    }
    None
}

// By 1 to 64 workers.
fn run_by<'a>(job: &'a str, workers: Option<u32>) -> Option<Line<'a>>
    requires { IfSome workers (λ n. n ≤ 64) }
    ensures line { option_map seen result ≡ run_by job.now workers }
    ensures within { IfSome result (λ line. IsWithin (seen line)) }
{
    match workers {
        Some(workers) if workers > 0 => Some(Line::Run(job, workers)),
        _ => None,
    }
}

// With 1 to 20,000 records, by 1 to 64 workers.
fn bench_by<'a>(records: Option<u32>, workers: Option<u32>) -> Option<Line<'a>>
    requires records { IfSome records (λ n. n ≤ 20000) }
    requires workers { IfSome workers (λ n. n ≤ 64) }
    ensures line { option_map seen result ≡ bench_by records workers }
    ensures within { IfSome result (λ line. IsWithin (seen line)) }
{
    match (records, workers) {
        (Some(records), Some(workers)) if records > 0 && workers > 0 => {
            Some(Line::Bench(records, workers))
        }
        _ => None,
    }
}
