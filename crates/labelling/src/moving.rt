// What changes labels and current steps, at one junction at a time.
ghost use Rattle.std.specs.Prelude.{◌≡◌, ◌<◌};
ghost use Rattle.labelling.specs.Keeping.{rise_left};
ghost use Rattle.labelling.specs.Moving.{Advanced, Relabelled, OnSomeUnit};

use crate::labelling::Labelling;
use network::Network;
use network::bounds::MOST_JUNCTIONS;
use routes::{FIRST_STEP, OpenStep};

impl Labelling {
    // Takes the first admissible step of the junction, from its current step on, as its current step.
    pub fn advance<N: Network>(&mut self, net: &N, junction: u16) -> Option<OpenStep>
        ensures told { Advanced (N.meaning net.now).reaches self.old junction result self.new }
        ensures level { rise_left self.new ≡ rise_left self.old }
    {
        let step = self.first_admissible(net, junction)?;
        self.current[usize::from(junction)] = step.number;
        Some(step)
    }

    // Raises the label of the junction to 1 + the least over its open steps, n where it has none, and lets its steps begin
    // from the first again. `None`, and nothing is changed, where this would not raise it, or where its label is above every
    // distance as it is.
    pub fn relabel<N: Network>(&mut self, net: &N, junction: u16) -> Option<()>
        ensures told { Relabelled (N.meaning net.now) self.old junction result self.new }
        ensures rises { OnSomeUnit result (rise_left self.new < rise_left self.old) }
    {
        let label = self.label_above(net, junction);
        let at = usize::from(junction);
        if at >= MOST_JUNCTIONS
            || usize::from(self.labels[at]) >= MOST_JUNCTIONS
            || self.labels[at] >= label
        {
            return None;
        }
        self.labels[at] = label;
        self.current[at] = FIRST_STEP;
        Some(())
    }
}
