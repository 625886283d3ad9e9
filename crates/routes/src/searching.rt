ghost use Rattle.flow.specs.Net.{Net};
ghost use Rattle.routes.specs.Answering.{Answers};

use crate::route::Route;
use network::Network;

// A search that rests. Only such a one can be begun.
pub trait Search: Sized {
    type Begun: Begun<Resting = Self>;

    // Begins: the search is in step with this network.
    fn begin<N: Network>(self, net: &N) -> Self::Begun
        ensures { Self.Begun.in_step result (N.meaning net.now) };
}

// A search that was begun. Only such a one can be asked for a route. It cannot be dropped: whoever begins a search ends it.
pub trait Begun: Sized {
    type Resting;

    // The networks, as they stand, with which the search is in step. It speaks of what networks mean, and so of no one
    // implementation.
    ghost in_step: { Self → Net → Type 0 };

    // Where the search is in step with this network: the first shortest route, or `None` exactly where no route exists. It
    // then stays in step with the network, and is in step also with the network after that route is pushed. Out of step it
    // answers some steps, or `None`, and nothing is said of them.
    fn route<N: Network>(&mut self, net: &N) -> Option<Route>
        ensures { in_step self.old (N.meaning net.now) → Answers (N.meaning net.now) (in_step self.new) result };

    // Ends: the search rests again.
    fn end(self) -> Self::Resting;
}
