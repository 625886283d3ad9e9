// Settling route by route: the three searches are asked together, and the route that they answer is pushed here.
use crate::checksum::Checksum;
use crate::pushing::push;
use crate::three::{Three, are_same};
use calls::Settled;
use network::Network;
use routes::Route;

// How often the searches are asked before a route is pushed.
#[derive(Clone, Copy)]
pub enum Asking {
    Once,
    Twice,
}

// How a settling route by route went.
#[derive(Clone, Copy)]
pub struct Stepped {
    // what `settle` is to answer
    pub settled: Settled,
    // whether all answers to a question were the same, and every route could be pushed
    pub same: bool,
}

impl Stepped {
    // Before the first question.
    fn new() -> Stepped {
        Stepped {
            settled: Settled {
                routes: 0,
                litres: 0,
                finished: false,
            },
            same: true,
        }
    }

    // Asks for a route, and where it is to be asked twice, again without pushing the route: it has to be the same.
    fn ask<N: Network>(&mut self, three: &mut Three, net: &N, asking: Asking) -> Option<Route> {
        let route = three.ask(net, &mut self.same);
        if matches!(asking, Asking::Twice) {
            let again = three.ask(net, &mut self.same);
            self.same &= are_same(&route, &again);
        }
        route
    }

    // Pushes a route, and counts it. A route has room for at least one litre.
    fn push<N: Network>(&mut self, net: &mut N, route: &Route, checksum: &mut Checksum) {
        checksum.add(route.steps().len() as u64);
        for step in route.steps() {
            checksum.add(u64::from(*step));
        }
        let litres = push(net, route.steps());
        self.same &= litres > 0;
        self.settled.routes = self.settled.routes.saturating_add(1);
        self.settled.litres = self.settled.litres.saturating_add(u64::from(litres));
    }
}

// Begins the searches, and pushes the routes that they answer until there is none, or as many as the budget allows.
// Whether a route is left is asked also where the budget is spent. Stops where the answers differ. The steps that are
// pushed go into the checksum.
pub fn settle_by_routes<N: Network>(
    net: &mut N,
    budget: u32,
    asking: Asking,
    checksum: &mut Checksum,
) -> Stepped {
    let mut three = Three::begin(net);
    let mut stepped = Stepped::new();
    for round in 0..=budget {
        let Some(route) = stepped.ask(&mut three, net, asking) else {
            stepped.settled.finished = true;
            break;
        };
        if round == budget || !stepped.same {
            break;
        }
        stepped.push(net, &route, checksum);
    }
    three.end();
    stepped
}
