//! Where the work on a route stands among that of a stone.
ghost use Rattle.std.specs.Prelude.{◌≡◌, ◌<◌, length, map, slice_get};
ghost use Rattle.std.specs.List.Sorted.{IsBinarySearchResult, IsSearchInRange};
ghost use Rattle.std.specs.Ordering.{nat_cmp};
ghost use Rattle.evp_stone.specs.Places.{Rises, IsIn, StandsAt, numbers_in};

use crate::route_work::RouteWork;

/// The place of the work on this route. The routes' numbers rise, so the search halves them.
pub(crate) fn place_of(works: &[RouteWork], route: u16) -> usize
    requires rise { Rises (numbers_in works.now) }
    requires there { IsIn (numbers_in works.now) route }
    ensures { StandsAt works.now route result }
{
    match search(works, route) {
        Ok(place) => place,
        Err(_) => unreachable!(),
    }
}

// The place of the work on this route, or where it would be.
fn search(works: &[RouteWork], route: u16) -> Result<usize, usize>
    ensures bound { IsSearchInRange result (length works.now) }
    ensures position { IsBinarySearchResult (λ work. nat_cmp work.route route) works.now result }
{
    works.binary_search_by_key(&route, |work| work.route)
}
