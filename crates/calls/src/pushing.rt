// Pushing a route. Only settling does; there is no call that pushes steps that a caller lists.
ghost use Rattle.std.specs.Prelude.{◌≡◌, ℕ, ◌≤◌};
ghost use Rattle.flow.specs.Bounds.{highest_limit};
ghost use Rattle.flow.specs.Steps.{headroom, IsOpen};
ghost use Rattle.flow.specs.Changes.{with_reaches};
ghost use Rattle.flow.specs.Routes.{IsFirst};
ghost use Rattle.flow.specs.Pushes.{least_headroom, shifted, pushed};
ghost use Rattle.routes.specs.Routing.{steps_of};

use network::{Network, Way};
use routes::{Route, way_of};

// Pushes the first shortest route: the least headroom on it more along each of its steps. Answers how much that is.
pub(crate) fn push<N: Network>(net: &mut N, route: &Route) -> u32
    requires { IsFirst (N.meaning net.old) (steps_of route.now) }
    ensures done { N.meaning net.new ≡ pushed (steps_of route.now) (N.meaning net.old) }
    ensures litres { result ≡ least_headroom (N.meaning net.old).reaches (steps_of route.now) }
    ensures few { result ≤ highest_limit }
    ensures giver { (j : ℕ) → N.giver net.new j ≡ N.giver net.old j }
{
    let litres = least_on(net, route);
    for step in route.steps() {
        shift(net, *step, litres);
    }
    litres
}

// The least headroom on a route; 0 where it has no step.
fn least_on<N: Network>(net: &N, route: &Route) -> u32
    ensures value { result ≡ least_headroom (N.meaning net.now).reaches (steps_of route.now) }
    ensures few { result ≤ highest_limit }
{
    let mut least: Option<u32> = None;
    for step in route.steps() {
        let room = headroom_of(net, *step);
        least = Some(least.map_or(room, |l| l.min(room)));
    }
    least.unwrap_or(0)
}

// The headroom of a step; 0 where the network has no such step.
fn headroom_of<N: Network>(net: &N, step: u16) -> u32
    ensures value { result ≡ headroom (N.meaning net.now).reaches step }
    ensures few { result ≤ highest_limit }
{
    match net.reach(usize::from(step / 2)) {
        Ok(reach) => reach.headroom(way_of(step)),
        Err(_) => 0,
    }
}

// Lets so many litres more go along a step that can take them.
fn shift<N: Network>(net: &mut N, step: u16, litres: u32)
    requires open { IsOpen (N.meaning net.old).reaches step }
    requires room { litres ≤ headroom (N.meaning net.old).reaches step }
    ensures done { N.meaning net.new ≡ with_reaches (N.meaning net.old) (shifted litres (N.meaning net.old).reaches step) }
    ensures giver { (j : ℕ) → N.giver net.new j ≡ N.giver net.old j }
{
    let k = usize::from(step / 2);
    let reach = net.reach(k).unwrap();
    let amount = match way_of(step) {
        Way::Forth => reach.carried + litres,
        Way::Back => reach.carried - litres,
    };
    net.carry(k, amount).unwrap();
}
