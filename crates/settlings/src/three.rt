// The three searches over one network, each asked for the same route.
use network::Network;
use routes::{Begun, Route, Search};
use searches::{BegunBreadthFirst, BegunDd1, BegunDd2, BreadthFirst, Dd1, Dd2};

// The three searches, begun over one network. They are asked together, and so stay in step with it together.
pub struct Three {
    breadth_first: BegunBreadthFirst,
    dd1: BegunDd1,
    dd2: BegunDd2,
}

impl Three {
    // Begins all three.
    pub fn begin<N: Network>(net: &N) -> Three {
        Three {
            breadth_first: BreadthFirst.begin(net),
            dd1: Dd1.begin(net),
            dd2: Dd2.begin(net),
        }
    }

    // Asks all three for a route, and answers that of the breadth-first search, if there is one. Takes note where the others
    // answer another.
    pub fn ask<N: Network>(&mut self, net: &N, same: &mut bool) -> Option<Route> {
        let route = self.breadth_first.route(net);
        let by_dd1 = self.dd1.route(net);
        let by_dd2 = self.dd2.route(net);
        *same &= are_same(&route, &by_dd1) && are_same(&route, &by_dd2);
        route
    }

    // Ends all three.
    pub fn end(self) {
        let Three {
            breadth_first,
            dd1,
            dd2,
        } = self;
        let _ = breadth_first.end();
        let _ = dd1.end();
        let _ = dd2.end();
    }
}

// Whether two answers are the same: both none, or routes with the same steps.
pub fn are_same(one: &Option<Route>, other: &Option<Route>) -> bool {
    match (one, other) {
        (Some(one), Some(other)) => one.steps() == other.steps(),
        (None, None) => true,
        _ => false,
    }
}
