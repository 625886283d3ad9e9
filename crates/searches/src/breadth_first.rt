// The breadth-first search: exact labels are found anew for each answer.
ghost use Rattle.std.specs.Prelude.{⊤};

use labelling::Labelling;
use network::Network;
use routes::{Begun, Route, Search};

// The search, resting.
#[derive(PartialEq, Eq, Debug, Default, Drop)]
pub struct BreadthFirst;

// The search, begun. It keeps nothing.
pub struct BegunBreadthFirst;

impl Search for BreadthFirst {
    type Begun = BegunBreadthFirst;

    fn begin<N: Network>(self, _net: &N) -> BegunBreadthFirst {
        BegunBreadthFirst
    }
}

impl Begun for BegunBreadthFirst {
    type Resting = BreadthFirst;

    // It is in step with every network.
    ghost in_step = { λ _ _. ⊤ };

    fn route<N: Network>(&mut self, net: &N) -> Option<Route> {
        Labelling::exact(net).follow(net)
    }

    fn end(self) -> BreadthFirst {
        let BegunBreadthFirst = self;
        BreadthFirst
    }
}
