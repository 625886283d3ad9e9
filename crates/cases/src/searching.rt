// Routes, searches and settling.
use crate::{BLANK, delivers};
use calls::{Settled, drain, settle};
use network::Network;
use routes::{Begun, Route, Search};
use searches::{BreadthFirst, Dd1, Dd2};
use std::process::Abort;
use table::{Draft, Table};

// Two mains and a link between them.
pub(crate) const MAINS: [(u16, u16, u32); 5] = [
    (0, 1, 3),
    (0, 2, 2),
    (1, 2, 1),
    (1, 3, 2),
    (2, 3, 3),
];

// The second route goes back along the reach that the first took.
pub(crate) const CROSSED: [(u16, u16, u32); 7] = [
    (0, 1, 1),
    (1, 2, 1),
    (2, 5, 1),
    (1, 3, 1),
    (3, 5, 1),
    (0, 4, 1),
    (4, 2, 1),
];

// A network of these reaches, from junction 0 to the last.
pub(crate) fn laid<'a>(
    rt: &impl Abort,
    rows: &'a mut [network::Row],
    junctions: u16,
    reaches: &[(u16, u16, u32)],
) -> Table<'a> {
    let mut draft = Draft::new(rows);
    let mut refused = draft
        .shape(junctions, 0, junctions.saturating_sub(1))
        .is_err();
    for (tail, head, limit) in reaches {
        refused |= draft.lay(*tail, *head, *limit).is_err();
    }
    assert!(rt; !refused);
    draft.commission()
}

// Whether a route has these steps.
fn has_steps(route: &Route, steps: &[u16]) -> bool {
    route.steps() == steps
}

// Whether the begun search answers a route, and it has these steps.
fn answers<B: Begun>(begun: &mut B, net: &Table<'_>, steps: &[u16]) -> bool {
    match begun.route(net) {
        Some(route) => has_steps(&route, steps),
        None => false,
    }
}

// Whether the begun search answers a route, whatever its steps are.
fn answers_any<B: Begun>(begun: &mut B, net: &Table<'_>) -> bool {
    begun.route(net).is_some()
}

// Settles one route: whether the begun search answers these steps, asked twice, and settling then pushes a route.
fn settles_one<S: Search>(net: &mut Table<'_>, search: S, steps: &[u16]) -> (S, bool) {
    let mut begun = search.begin(net);
    let once = answers(&mut begun, net, steps);
    let again = answers(&mut begun, net, steps);
    let (rested, settled) = settle(net, begun.end(), 1);
    (rested, once && again && settled.routes == 1)
}

// Settles a network one route at a time by these routes, and no more; then it delivers so much. Drains it.
fn settles_by<S: Search + Drop>(
    rt: &impl Abort,
    net: &mut Table<'_>,
    search: S,
    routes: &[&[u16]],
    litres: i64,
) {
    let mut search = search;
    for steps in routes {
        let (rested, settled) = settles_one(net, search, steps);
        assert!(rt; settled);
        search = rested;
    }
    let mut begun = search.begin(net);
    let more = answers_any(&mut begun, net);
    let _rested = begun.end();
    assert!(rt; !more);
    delivers(rt, net, litres);
    drain(net);
}

#[test]
fn two_mains_take_three_routes(rt: HostRuntime) {
    let mut rows = [BLANK; 5];
    let mut net = laid(&rt, &mut rows, 4, &MAINS);
    let routes: [&[u16]; 3] = [&[0, 6], &[2, 8], &[0, 4, 8]];
    settles_by(&rt, &mut net, BreadthFirst, &routes, 5);
    settles_by(&rt, &mut net, Dd1, &routes, 5);
    settles_by(&rt, &mut net, Dd2, &routes, 5);
}

#[test]
fn a_route_goes_back_along_a_reach(rt: HostRuntime) {
    let mut rows = [BLANK; 7];
    let mut net = laid(&rt, &mut rows, 6, &CROSSED);
    let routes: [&[u16]; 2] = [&[0, 2, 4], &[10, 12, 3, 6, 8]];
    settles_by(&rt, &mut net, BreadthFirst, &routes, 2);
    settles_by(&rt, &mut net, Dd1, &routes, 2);
    settles_by(&rt, &mut net, Dd2, &routes, 2);
}

#[test]
fn a_budget_of_none_still_says_what_is_left(rt: HostRuntime) {
    let mut rows = [BLANK; 5];
    let mut net = laid(&rt, &mut rows, 4, &MAINS);
    for (budget, litres, finished) in [(0, 0, false), (3, 5, true), (0, 0, true)] {
        let (_, settled) = settle(&mut net, Dd2, budget);
        let expected = Settled {
            routes: budget,
            litres,
            finished,
        };
        assert!(rt; settled == expected);
    }
}

// Asks a search that was begun over another network; what it answers is free, but it ends.
fn asked_out_of_step<S: Search + Drop>(one: &Table<'_>, other: &Table<'_>, search: S) {
    let mut begun = search.begin(one);
    for _ in 0..3 {
        let _free = answers_any(&mut begun, other);
        let _free = answers_any(&mut begun, one);
    }
    let _rested = begun.end();
}

#[test]
fn a_search_out_of_step_ends(rt: HostRuntime) {
    let mut rows = [BLANK; 5];
    let mut more = [BLANK; 7];
    let mains = laid(&rt, &mut rows, 4, &MAINS);
    let crossed = laid(&rt, &mut more, 6, &CROSSED);
    asked_out_of_step(&mains, &crossed, BreadthFirst);
    asked_out_of_step(&mains, &crossed, Dd1);
    asked_out_of_step(&mains, &crossed, Dd2);
    asked_out_of_step(&crossed, &mains, Dd1);
    asked_out_of_step(&crossed, &mains, Dd2);
}
