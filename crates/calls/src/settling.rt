ghost use Rattle.std.specs.Prelude.{◌≡◌, ℕ};
ghost use Rattle.calls.specs.Settling.{SettledAs, outcome_of, after_settling};

use crate::pushing::push;
use network::Network;
use routes::{Begun, Search};

// What settling answers: how many routes it pushed, the litres that they added, and whether no route is left.
#[derive(Clone, Copy, PartialEq, Eq, Debug)]
pub struct Settled {
    pub routes: u32,
    pub litres: u64,
    pub finished: bool,
}

// Begins the search, and pushes the routes that it answers until there is none or as many as the budget allows. Whether a
// route is left is found out also where the budget is spent, or 0. The search comes back resting. Never refused.
pub fn settle<N: Network, S: Search>(net: &mut N, search: S, budget: u32) -> (S, Settled)
    ensures settled { SettledAs (N.meaning net.old) budget result.1 (N.meaning net.new) }
    ensures one { (outcome_of result.1, N.meaning net.new) ≡ after_settling budget (N.meaning net.old) }
    ensures giver { (j : ℕ) → N.giver net.new j ≡ N.giver net.old j }
{
    let mut begun = search.begin(net);
    let mut settled = Settled {
        routes: 0,
        litres: 0,
        finished: false,
    };
    'pushing: while let Some(route) = begun.route(net) {
        // Asked first: with no budget left it is known by now that a route is.
        if settled.routes == budget {
            return (begun.end(), settled);
        }
        settled.litres += u64::from(push(net, &route));
        settled.routes += 1;
    }
    settled.finished = true;
    (begun.end(), settled)
}
