// The search DD1: labels and current steps, kept between questions and when an answered route is pushed.
ghost use Rattle.labelling.specs.Keeping.{label_of, current_of};
ghost use Rattle.labelling.specs.Standing.{Fits};

use labelling::Labelling;
use network::Network;
use routes::{Begun, Route, Search, begin_of};

// The search, resting.
#[derive(PartialEq, Eq, Debug, Default, Drop)]
pub struct Dd1;

// The search, begun.
pub struct BegunDd1 {
    kept: Labelling,
}

impl Search for Dd1 {
    type Begun = BegunDd1;

    fn begin<N: Network>(self, net: &N) -> BegunDd1 {
        BegunDd1 {
            kept: Labelling::exact(net),
        }
    }
}

impl Begun for BegunDd1 {
    type Resting = Dd1;

    // Labels and current steps fit the network.
    ghost in_step = { λ x g. Fits g (label_of x.kept) (current_of x.kept) };

    fn route<N: Network>(&mut self, net: &N) -> Option<Route> {
        let size = net.size();
        let mut route = Route::new();
        let mut at = size.intake;
        // A label of n or more at the intake says that no route exists.
        'search: while self.kept.label(size.intake) < size.junctions {
            // Advances along first admissible steps, as far as the outfall.
            'advance: while at != size.outfall {
                let Some(step) = self.kept.advance(net, at) else {
                    // Where there is none, lifts the junction, and retreats to where the last step begins; at the intake there
                    // is no last step. A gap that this closes lies below the intake's label, so the search ends.
                    self.kept.lift(net, at)?;
                    if let Some(last) = route.pop() {
                        at = begin_of(net, last)?;
                    }
                    continue 'search;
                };
                route.push(step.number)?;
                at = step.finish;
            }
            return Some(route);
        }
        None
    }

    fn end(self) -> Dd1 {
        let BegunDd1 { kept: _ } = self;
        Dd1
    }
}
