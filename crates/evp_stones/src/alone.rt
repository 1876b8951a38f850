//! The lines that are done without workers.
ghost use Rattle.std.specs.Prelude.{◌≡◌, Err, IfSome, map, string_bytes};
ghost use Rattle.evp_stones.specs.declared.refusal.Refusal.TheVariants as refusal;
ghost use Rattle.evp_stones.specs.Answer.{Answers, IsBenched, IsReadBy, IsReply, Told};
ghost use Rattle.evp_stones.specs.Completeness.{Completes};
ghost use Rattle.evp_stones.specs.OutputText.{output_text};
ghost use Rattle.evp_stones.specs.Steps.{Works, seen_by};
ghost use Rattle.evp_stones.specs.Words.{line_of, seen, IsAlone};

use crate::check::check;
use crate::convert::convert;
use crate::listing::Listing;
use crate::output::Output;
use crate::refusal::Refusal;
use crate::replying::put_reply;
use crate::run::walk;
use crate::show::show;
use crate::words::{Line, line_of};
use evp_depot::{Depot, Sink};
use std::alloc::Global;

/// Does what a line asks for that needs no workers, any but `run` and `bench`, and answers the
/// program's status. Words that are no line are refused. It waits for nobody.
///
/// Nothing is written before all is worked out. Then the whole answer goes out, in pieces of some
/// kilobytes, or the line of a refusal; a front of it where the sink fails. Writing takes no
/// memory.
pub fn alone<D: Depot, K: Sink>(alloc: Global, words: &[String], depot: &mut D, sink: &mut K) -> u8
    requires { IfSome (line_of (map string_bytes words.now)) IsAlone }
    ensures answers { Answers D.held D.misses D.faults K.faults K.put
        (line_of (map string_bytes words.now)) depot.old depot.new sink.old sink.new result }
    ensures complete { Completes D.held D.faults K.faults K.put
        (line_of (map string_bytes words.now)) depot.old depot.new sink.old sink.new result }
{
    answer(alloc, words, depot, sink)
}

// Works the line out and writes what comes of it.
fn answer<D: Depot, K: Sink>(alloc: Global, words: &[String], depot: &mut D, sink: &mut K) -> u8
    requires { IfSome (line_of (map string_bytes words.now)) IsAlone }
    ensures { Answers D.held D.misses D.faults K.faults K.put (line_of (map string_bytes words.now))
        depot.old depot.new sink.old sink.new result }
{
    let Some(line) = line_of(words) else {
        return refuse_words(sink);
    };
    let worked = work(alloc, line, depot);
    put_reply(worked, sink)
}

// Writes that the words are no line, and answers the status.
fn refuse_words<K: Sink>(sink: &mut K) -> u8
    ensures { Told (K.faults sink.old) (K.faults sink.new) (K.put sink.old) (K.put sink.new)
        (Err refusal.Words) result }
{
    let _ = Refusal::Words.put_line(sink, "");
    Refusal::Words.status()
}

// What the line writes.
fn work<D: Depot>(alloc: Global, line: Line<'_>, depot: &mut D) -> Result<Output, Refusal>
    requires { IsAlone (seen line) }
    ensures works { Works D.held D.misses D.faults depot.old depot.new (IsReply (seen line.entry))
        (IsReadBy (seen line.entry)) (seen_by output_text result) }
    ensures bench { IsBenched (seen line.entry) (seen_by output_text result) }
{
    match line {
        Line::Show(name) => Ok(Output::Listed(Listing::Shown(show(alloc, depot, name)?))),
        Line::Check(name) => Ok(Output::Listed(Listing::Checked(check(alloc, depot, name)?))),
        Line::Convert(job, format, file) => Ok(Output::Listed(Listing::Converted(convert(
            alloc, depot, job, format, file,
        )?))),
        Line::Walk(name, order) => Ok(Output::Reported(walk(alloc, depot, name, order)?)),
        Line::Run(_, _) | Line::Bench(_, _) => unreachable!(),
    }
}
