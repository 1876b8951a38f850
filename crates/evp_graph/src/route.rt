//! Routes, and lists of them.

ghost use Rattle.std.specs.Prelude.{◌≡◌};

use crate::numbers::Numbers;
use std::marker::Model;

/// A source followed by stones, each reached by one target position of the one before.
#[derive(Debug, Drop)]
pub struct Route {
    /// The number of the source.
    pub source: u16,
    /// The positions taken: one fewer than there are stones.
    pub positions: Numbers,
    /// The stones, the source's stone first.
    pub stones: Numbers,
}

/// The routes of a graph, by source, and depth first by position, a route before its extensions.
#[derive(Debug, Drop)]
pub struct Routes {
    list: Vec<Route>,
}

impl Model for Routes {
    ghost use Rattle.std.specs.Prelude.{List};
    ghost use Rattle.evp_graph.specs.declared.route.Route.{Route};

    ghost Value = { List Route };

    ghost view = { λ r. r.list.items };
}

impl Routes {
    /// The routes of a vector, without taking memory.
    pub fn new(list: Vec<Route>) -> Routes
        ensures { result ≡ list.items }
    {
        Routes { list }
    }

    /// The routes in their order.
    pub fn as_slice(&self) -> &[Route]
        ensures { result.now ≡ self.now }
    {
        self.list.as_slice()
    }

    /// The vector, without taking memory.
    pub fn into_vec(self) -> Vec<Route>
        ensures { result.items ≡ self }
    {
        let Routes { list } = self;
        list
    }
}
