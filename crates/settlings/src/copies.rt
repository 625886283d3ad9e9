// Four copies of one network, to which the same is done: one is settled route by route, the others by the call `settle`,
// each under a search of its own.
use crate::changing::ReachChange;
use crate::comparing::are_same_networks;
use crate::cutting::{Asked, ask, is_same_with_just_enough, refuses_too_few};
use crate::figures::Figures;
use crate::form::Form;
use crate::making::make;
use crate::stepping::{Asking, settle_by_routes};
use calls::{Settled, drain, settle};
use network::{Network, Row};
use routes::Search;
use searches::{BreadthFirst, Dd1, Dd2};
use table::Table;

// As many rows as a table uses.
const MOST_ROWS: usize = 1024;

// The rows in which the copies are laid.
#[derive(Drop)]
pub struct CopyRows {
    by_routes: [Row; MOST_ROWS],
    breadth_first: [Row; MOST_ROWS],
    dd1: [Row; MOST_ROWS],
    dd2: [Row; MOST_ROWS],
}

impl CopyRows {
    pub fn new() -> CopyRows {
        CopyRows {
            by_routes: [Row::default(); MOST_ROWS],
            breadth_first: [Row::default(); MOST_ROWS],
            dd1: [Row::default(); MOST_ROWS],
            dd2: [Row::default(); MOST_ROWS],
        }
    }
}

// The copies: the one that is settled route by route, and one for each search.
#[derive(Drop)]
pub struct Copies<N> {
    pub by_routes: N,
    breadth_first: N,
    dd1: N,
    dd2: N,
}

// Makes the four, each from the same seed.
pub fn make_copies(form: Form, seed: u64, rows: &mut CopyRows) -> Copies<Table<'_>> {
    let CopyRows {
        by_routes,
        breadth_first,
        dd1,
        dd2,
    } = rows;
    Copies {
        by_routes: make(form, seed, by_routes),
        breadth_first: make(form, seed, breadth_first),
        dd1: make(form, seed, dd1),
        dd2: make(form, seed, dd2),
    }
}

// Settles a copy under a search, and says whether the answer is as wanted, and the copy then the same as the one that was
// settled route by route. The search comes back resting.
fn settle_alike<N: Network, S: Search>(
    copy: &mut N,
    search: S,
    budget: u32,
    wanted: Settled,
    by_routes: &N,
) -> (S, bool) {
    let (search, settled) = settle(copy, search, budget);
    (
        search,
        settled == wanted && are_same_networks(copy, by_routes),
    )
}

impl<N: Network> Copies<N> {
    // Settles all four with the same budget, asks for the bottleneck before and after, and adds to the figures what was found.
    pub fn settle(&mut self, budget: u32, asking: Asking, figures: &mut Figures) {
        let before = self.ask(figures);
        let wanted = self.settle_all(budget, asking, figures);
        let after = self.ask(figures);
        // No route exists at first exactly where none was pushed and none is left; and in the end exactly where none is left.
        let no_route = wanted.routes == 0 && wanted.finished;
        figures.same &= before.answer.is_ok() == no_route;
        figures.same &= after.answer.is_ok() == wanted.finished;
    }

    // Settles all four, and answers what each of them is to answer.
    fn settle_all(&mut self, budget: u32, asking: Asking, figures: &mut Figures) -> Settled {
        let stepped = settle_by_routes(&mut self.by_routes, budget, asking, &mut figures.checksum);
        let wanted = stepped.settled;
        let net = &self.by_routes;
        let (_, first) = settle_alike(&mut self.breadth_first, BreadthFirst, budget, wanted, net);
        let (_, second) = settle_alike(&mut self.dd1, Dd1, budget, wanted, net);
        let (_, third) = settle_alike(&mut self.dd2, Dd2, budget, wanted, net);
        figures.add_settled(wanted, net);
        figures.same &= stepped.same && first && second && third;
        wanted
    }

    // Asks for the bottleneck of all four, adds to the figures what was found, and answers it.
    fn ask(&mut self, figures: &mut Figures) -> Asked {
        let net = &self.by_routes;
        let n = net.size().junctions;
        let asked = ask(net);
        figures.add_cut(&asked, n);
        figures.same &= asked.leaves_later_marks(n);
        figures.same &= refuses_too_few(net) && is_same_with_just_enough(net, &asked);
        let (_, first) = asked.is_same_by(&mut self.breadth_first, BreadthFirst);
        let (_, second) = asked.is_same_by(&mut self.dd1, Dd1);
        let (_, third) = asked.is_same_by(&mut self.dd2, Dd2);
        figures.same &= first && second && third;
        asked
    }

    // Makes the same change to all four, and says whether they answered the same.
    pub fn change(&mut self, ReachChange { k, change }: ReachChange) -> bool {
        let answer = self.by_routes.change(k, change);
        let first = self.breadth_first.change(k, change) == answer;
        let second = self.dd1.change(k, change) == answer;
        let third = self.dd2.change(k, change) == answer;
        first && second && third
    }

    // Drains all four.
    pub fn drain(&mut self) {
        drain(&mut self.by_routes);
        drain(&mut self.breadth_first);
        drain(&mut self.dd1);
        drain(&mut self.dd2);
    }
}
