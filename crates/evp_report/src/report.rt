//! The report of a job: each round, and what the last stone of each route did in it.
ghost use Rattle.std.specs.Prelude.{◌≡◌, ◌+◌, ◌<◌, ◌^◌, Some, All, length, map, slice_get};
ghost use Rattle.evp_depot.specs.Put.{Puts};
ghost use Rattle.evp_report.specs.Passing.{Passes};
ghost use Rattle.evp_report.specs.Report.{report, round_line, round_lines, route_lines};
ghost use Rattle.evp_report.specs.Report.{route_name, routes_lines, source_name, stones_text};
ghost use Rattle.evp_report.specs.Report.{told_in, told_of, lines_of, StandFrom};
ghost use Rattle.evp_report.specs.Shown.{IsReadable, shown};
ghost use Rattle.evp_stone.specs.Ended.{AreEnded};
ghost use Rattle.evp_stone.specs.WholeAccounts.{AreAccounts};

use crate::Pieces;
use crate::account_text::put_account;
use crate::accounts::round_account;
use crate::words::put_counted;
use evp_depot::{PutFault, Sink};
use evp_graph::Route;
use evp_stone::{Account, Job, RoundAccount};

/// Writes the report of a job, by the accounts of its stones in their order. `Failed` comes where a
/// write failed; a front of the report may have been put then. It takes no memory.
pub fn write_report<K: Sink>(job: &Job, accounts: &[Account], sink: &mut K) -> Result<(), PutFault>
    requires { AreAccounts job.now accounts.now }
    ensures { Puts K.faults K.put sink.old sink.new (report job.now) result }
{
    let mut pieces = Pieces::new();
    put_rounds(&mut pieces, sink, job, accounts)?;
    pieces.flush(sink)
}

// Each round.
fn put_rounds<K: Sink>(
    pieces: &mut Pieces,
    sink: &mut K,
    job: &Job,
    accounts: &[Account],
) -> Result<(), PutFault>
    requires { AreAccounts job.now accounts.now }
    ensures { Passes K.faults K.put sink.old sink.new pieces.old pieces.new
        (report job.now) result }
{
    let rounds = job.parts().rounds.as_slice().len();
    for round in 0..rounds {
        put_round(pieces, sink, job, accounts, round)?;
    }
    Ok(())
}

// A round's line, and each route in it.
fn put_round<K: Sink>(
    pieces: &mut Pieces,
    sink: &mut K,
    job: &Job,
    accounts: &[Account],
    round: usize,
) -> Result<(), PutFault>
    requires { AreAccounts job.now accounts.now }
    ensures { Passes K.faults K.put sink.old sink.new pieces.old pieces.new
        (round_lines round (map (told_of job.now) job.now.routes)) result }
{
    put_round_line(pieces, sink, round)?;
    put_routes(
        pieces,
        sink,
        job,
        accounts,
        round,
        0,
        job.parts().routes.as_slice(),
    )
}

/// Writes the line that a round's lines begin with. `Failed` comes where a write failed; a front of
/// the line may have been put then. It takes no memory.
pub fn write_round_line<K: Sink>(round: usize, sink: &mut K) -> Result<(), PutFault>
    ensures { Puts K.faults K.put sink.old sink.new (round_line round) result }
{
    let mut pieces = Pieces::new();
    put_round_line(&mut pieces, sink, round)?;
    pieces.flush(sink)
}

// A round's line.
fn put_round_line<K: Sink>(pieces: &mut Pieces, sink: &mut K, round: usize) -> Result<(), PutFault>
    ensures { Passes K.faults K.put sink.old sink.new pieces.old pieces.new
        (round_line round) result }
{
    put_counted(pieces, sink, b"round ", round)?;
    pieces.put(sink, b"\n")
}

/// Writes the lines that some routes have in a round, by the accounts of the job's stones in their
/// order; the routes are those of the job from number `from` on. A round's lines are its line and
/// then those of all routes. `Failed` comes where a write failed; a front of the lines may have
/// been put then. It takes no memory.
pub fn write_routes<K: Sink>(
    job: &Job,
    accounts: &[Account],
    round: usize,
    from: usize,
    routes: &[Route],
    sink: &mut K,
) -> Result<(), PutFault>
    requires accounts { AreAccounts job.now accounts.now }
    requires stand { StandFrom job.now.routes from routes.now }
    requires few { from + length routes.now < 2 ^ 64 }
    ensures { Puts K.faults K.put sink.old sink.new (routes_lines job.now round routes.now) result }
{
    let mut pieces = Pieces::new();
    put_routes(&mut pieces, sink, job, accounts, round, from, routes)?;
    pieces.flush(sink)
}

// Each of these routes, which are those of the job from number `from` on, in a round.
fn put_routes<K: Sink>(
    pieces: &mut Pieces,
    sink: &mut K,
    job: &Job,
    accounts: &[Account],
    round: usize,
    from: usize,
    routes: &[Route],
) -> Result<(), PutFault>
    requires accounts { AreAccounts job.now accounts.now }
    requires stand { StandFrom job.now.routes from routes.now }
    requires few { from + length routes.now < 2 ^ 64 }
    ensures { Passes K.faults K.put sink.old sink.new pieces.old pieces.new
        (routes_lines job.now round routes.now) result }
{
    for (number, route) in routes.iter().enumerate() {
        put_route(pieces, sink, job, accounts, from + number, route, round)?;
    }
    Ok(())
}

/// Writes the lines that the route of this number has in a round, by the accounts of the rounds that
/// its last stone has ended. `Failed` comes where a write failed; a front of the lines may have been
/// put then. It takes no memory.
pub fn write_ended<K: Sink>(
    job: &Job,
    number: usize,
    ended: &[RoundAccount],
    round: usize,
    sink: &mut K,
) -> Result<(), PutFault>
    requires ended { AreEnded job.now number ended.now }
    requires round { round < length ended.now }
    ensures { Puts K.faults K.put sink.old sink.new (lines_of job.now number round) result }
{
    let mut pieces = Pieces::new();
    let route = &job.parts().routes.as_slice()[number];
    put_told(&mut pieces, sink, job, route, &ended[round])?;
    pieces.flush(sink)
}

// A route's name, and its account of a round.
fn put_route<K: Sink>(
    pieces: &mut Pieces,
    sink: &mut K,
    job: &Job,
    accounts: &[Account],
    number: usize,
    route: &Route,
    round: usize,
) -> Result<(), PutFault>
    requires accounts { AreAccounts job.now accounts.now }
    requires there { slice_get job.now.routes number ≡ Some route.now }
    ensures { Passes K.faults K.put sink.old sink.new pieces.old pieces.new
        (told_in round (told_of job.now route.now)) result }
{
    let Some(account) = round_account(job, accounts, number, round) else {
        return Ok(());
    };
    put_told(pieces, sink, job, route, account)
}

// A route's name, and this account.
fn put_told<K: Sink>(
    pieces: &mut Pieces,
    sink: &mut K,
    job: &Job,
    route: &Route,
    account: &RoundAccount,
) -> Result<(), PutFault>
    requires { All (IsReadable job.now.formats) account.now.arrived.items }
    ensures { Passes K.faults K.put sink.old sink.new pieces.old pieces.new
        (route_lines (route_name job.now route.now) (shown job.now.formats account.now)) result }
{
    put_name(pieces, sink, job, route)?;
    put_account(pieces, sink, job.parts().formats.as_slice(), account)
}

// A route's name: its source's, and its stones.
fn put_name<K: Sink>(
    pieces: &mut Pieces,
    sink: &mut K,
    job: &Job,
    route: &Route,
) -> Result<(), PutFault>
    ensures { Passes K.faults K.put sink.old sink.new pieces.old pieces.new
        (route_name job.now route.now) result }
{
    put_source(pieces, sink, job, usize::from(route.source))?;
    put_stones(pieces, sink, route.stones.as_slice())
}

// A source's name.
fn put_source<K: Sink>(
    pieces: &mut Pieces,
    sink: &mut K,
    job: &Job,
    source: usize,
) -> Result<(), PutFault>
    ensures { Passes K.faults K.put sink.old sink.new pieces.old pieces.new
        (source_name (slice_get job.now.sources source)) result }
{
    match job.parts().sources.as_slice().get(source) {
        None => Ok(()),
        Some(source) => pieces.put(sink, source.name.as_bytes()),
    }
}

/// Hands on the numbers of stones, each behind a `>`. It takes no memory.
pub fn put_stones<K: Sink>(
    pieces: &mut Pieces,
    sink: &mut K,
    stones: &[u16],
) -> Result<(), PutFault>
    ensures { Passes K.faults K.put sink.old sink.new pieces.old pieces.new
        (stones_text stones.now) result }
{
    for stone in stones {
        put_counted(pieces, sink, b">", *stone)?;
    }
    Ok(())
}
