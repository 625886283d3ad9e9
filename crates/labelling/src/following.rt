// Following first admissible steps.
ghost use Rattle.flow.specs.Labels.{ExactLabels};
ghost use Rattle.labelling.specs.Keeping.{label_of, current_of};
ghost use Rattle.labelling.specs.Standing.{Fits};
ghost use Rattle.labelling.specs.Following.{OnlyAdvanced, Found};

use crate::labelling::Labelling;
use network::Network;
use routes::Route;

impl Labelling {
    // Follows the first admissible step of each junction, from its current step on, from the intake to the outfall; `None`
    // where the intake's label says that there is no route, or where a junction on the way has no such step. Where labels
    // are exact, and both fit the network, that is the first shortest route, or none exists.
    pub fn follow<N: Network>(&mut self, net: &N) -> Option<Route>
        ensures only { OnlyAdvanced (N.meaning net.now).reaches self.old self.new }
        ensures fits { Fits (N.meaning net.now) (label_of self.old) (current_of self.old) →
            Fits (N.meaning net.now) (label_of self.new) (current_of self.new) }
        ensures found { Fits (N.meaning net.now) (label_of self.old) (current_of self.old) →
            ExactLabels (N.meaning net.now) (label_of self.old) → Found (N.meaning net.now) (label_of self.old) result }
    {
        let size = net.size();
        if self.label(size.intake) >= size.junctions {
            return None;
        }
        let mut route = Route::new();
        let mut at = size.intake;
        'following: while at != size.outfall {
            let step = self.advance(net, at)?;
            route.push(step.number)?;
            at = step.finish;
        }
        Some(route)
    }
}
