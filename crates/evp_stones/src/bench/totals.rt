//! What the accounts of a job's stones come to.
ghost use Rattle.std.specs.Prelude.{◌≡◌, ℕ, ◌+◌, ◌<◌, ◌≤◌, ◌^◌, All, length};
ghost use Rattle.evp_stone.specs.WholeAccounts.{AreAccounts};
ghost use Rattle.evp_stones.specs.AccountTotals.{after_round, both, no_totals, rounds_totals};
ghost use Rattle.evp_stones.specs.AccountTotals.{route_of, stone_of, IsShortRoute, IsShortStone};
ghost use Rattle.evp_stones.specs.AccountTotals.{IsWithin};
ghost use Rattle.evp_stones.specs.Totals.{sums, totals_of};

use evp_stone::{Account, Job, RoundAccount, RouteAccount};

/// How many records went on or were received, were dropped and were refused in all rounds, and are
/// kept at the end of the last one.
#[derive(Clone, Copy, Debug)]
pub struct Totals {
    pub passed: u128,
    pub dropped: u128,
    pub refused: u128,
    pub held: u128,
}

/// The totals of a job, by the accounts of its stones.
pub(crate) fn job_totals(job: &Job, accounts: &[Account]) -> Totals
    requires { AreAccounts job.now accounts.now }
    ensures { result ≡ totals_of job.now }
{
    // The accounts are no more than a job can have.
    let _ = job.parts();
    of_stones(accounts)
}

// The totals of these accounts.
fn of_stones(accounts: &[Account]) -> Totals
    requires few { length accounts.now ≤ 256 }
    requires short { All IsShortStone accounts.now }
    ensures { result ≡ sums stone_of accounts.now }
{
    let mut totals = none();
    for account in accounts {
        totals = both(totals, of_routes(account.routes.as_slice()));
    }
    totals
}

// The totals of a stone's routes.
fn of_routes(routes: &[RouteAccount]) -> Totals
    requires few { length routes.now ≤ 1024 }
    requires short { All IsShortRoute routes.now }
    ensures totals { result ≡ sums route_of routes.now }
    ensures within { IsWithin (2 ^ 80) result }
{
    let mut totals = none();
    for route in routes {
        totals = both(totals, of_rounds(route.rounds.as_slice()));
    }
    totals
}

// The totals of a route's rounds.
fn of_rounds(rounds: &[RoundAccount]) -> Totals
    requires { length rounds.now ≤ 64 }
    ensures totals { result ≡ rounds_totals rounds.now }
    ensures within { IsWithin (2 ^ 70) result }
{
    let mut totals = none();
    for round in rounds {
        totals = after_round(totals, round);
    }
    totals
}

fn none() -> Totals
    ensures { result ≡ no_totals }
{
    Totals {
        passed: 0,
        dropped: 0,
        refused: 0,
        held: 0,
    }
}

// With those of one more round, at whose end so many records are kept.
fn after_round(totals: Totals, round: &RoundAccount) -> Totals
    requires { IsWithin (2 ^ 70) totals }
    ensures totals { result ≡ after_round totals round.now }
    ensures grows { (most : ℕ) → IsWithin most totals → IsWithin (most + 2 ^ 64) result }
{
    Totals {
        passed: totals.passed + wide(round.passed),
        dropped: totals.dropped + wide(round.dropped),
        refused: totals.refused + round.refused.len() as u128,
        held: wide(round.held),
    }
}

fn wide(count: u32) -> u128
    ensures value { result ≡ count }
    ensures few { result < 2 ^ 32 }
{
    u128::from(count)
}

// The sums.
fn both(a: Totals, b: Totals) -> Totals
    requires a { IsWithin (2 ^ 100) a }
    requires b { IsWithin (2 ^ 100) b }
    ensures { result ≡ both a b }
{
    Totals {
        passed: a.passed + b.passed,
        dropped: a.dropped + b.dropped,
        refused: a.refused + b.refused,
        held: a.held + b.held,
    }
}
