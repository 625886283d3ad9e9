// What is found among the open steps that begin at a junction. Nothing is changed.
ghost use Rattle.routes.specs.Going.{FirstFrom};
ghost use Rattle.labelling.specs.Keeping.{label_of, current_of};
ghost use Rattle.labelling.specs.Scanning.{AdmissibleAt, IsRelabel};

use crate::labelling::Labelling;
use network::Network;
use routes::{FIRST_STEP, OpenStep, OpenSteps};

impl Labelling {
    // The first admissible step of the junction, from its current step on.
    pub fn first_admissible<N: Network>(&self, net: &N, junction: u16) -> Option<OpenStep>
        ensures { FirstFrom (AdmissibleAt (label_of self.now) (N.meaning net.now).reaches junction)
            (N.meaning net.now).reaches (current_of self.now junction) result }
    {
        for step in OpenSteps::leaving(net, junction, self.current(junction)) {
            if self.label(junction) == self.label(step.finish) + 1 {
                return Some(step);
            }
        }
        None
    }

    // 1 + the least label at the far ends of the junction's open steps; the number of junctions where it has none.
    pub fn label_above<N: Network>(&self, net: &N, junction: u16) -> u16
        ensures { IsRelabel (N.meaning net.now) (label_of self.now) junction result }
    {
        let mut least: Option<u16> = None;
        for step in OpenSteps::leaving(net, junction, FIRST_STEP) {
            let label = self.label(step.finish);
            least = Some(least.map_or(label, |l| l.min(label)));
        }
        match least {
            Some(label) => label + 1,
            None => net.size().junctions,
        }
    }
}
