//! Where the account of a route stands among those of the stones.
ghost use Rattle.std.specs.Prelude.{◌≡◌, ◌<◌, length, IfSome, IfNone};
ghost use Rattle.std.specs.List.Sorted.{IsBinarySearchResult, IsSearchInRange};
ghost use Rattle.std.specs.Ordering.{nat_cmp};
ghost use Rattle.evp_report.specs.Shown.{HasNoRound, IsRoundAccount};
ghost use Rattle.evp_stone.specs.Route.{last_stone};
ghost use Rattle.evp_stone.specs.Tallied.{IsRouteAccount};
ghost use Rattle.evp_stone.specs.WholeAccounts.{AreAccounts};

use evp_graph::Route;
use evp_stone::{Account, Job, RoundAccount, RouteAccount};

/// The account of a round of the route of this number; none where there is no such round.
pub(crate) fn round_account<'a>(
    job: &Job,
    accounts: &'a [Account],
    number: usize,
    round: usize,
) -> Option<&'a RoundAccount>
    requires accounts { AreAccounts job.now accounts.now }
    requires there { number < length job.now.routes }
    ensures some { IfSome result (λ account. IsRoundAccount job.now number round account.now) }
    ensures none { IfNone result (HasNoRound job.now number round) }
{
    let account = route_account(job, accounts, number);
    account.rounds.as_slice().get(round)
}

// The account of the route of this number. Those of a stone stand in the order of routes, so the
// search halves them.
fn route_account<'a>(job: &Job, accounts: &'a [Account], number: usize) -> &'a RouteAccount
    requires accounts { AreAccounts job.now accounts.now }
    requires there { number < length job.now.routes }
    ensures { IsRouteAccount job.now number result.now }
{
    let stone = last_stone(&job.parts().routes.as_slice()[number]);
    let routes = accounts[usize::from(stone)].routes.as_slice();
    match search(routes, number as u16) {
        Ok(at) => &routes[at],
        Err(_) => unreachable!(),
    }
}

// Where the account of the route of this number is among these, or where it would be.
fn search(routes: &[RouteAccount], number: u16) -> Result<usize, usize>
    ensures bound { IsSearchInRange result (length routes.now) }
    ensures position { IsBinarySearchResult (λ account. nat_cmp account.route number)
        routes.now result }
{
    routes.binary_search_by_key(&number, |account| account.route)
}

// The last stone of a route.
fn last_stone(route: &Route) -> u16
    ensures { result ≡ last_stone route.now }
{
    match route.stones.as_slice().last() {
        Some(stone) => *stone,
        None => 0,
    }
}
