// Closing gaps among labels.
ghost use Rattle.std.specs.Prelude.{◌<◌, ◌≤◌};
ghost use Rattle.labelling.specs.Keeping.{label_of, current_of, rise_left};
ghost use Rattle.labelling.specs.Moving.{OnSomeUnit};
ghost use Rattle.labelling.specs.Standing.{Fits};
ghost use Rattle.labelling.specs.Gaps.{GapClosed, Lifted};

use crate::labelling::Labelling;
use network::Network;
use network::bounds::MOST_JUNCTIONS;

impl Labelling {
    // Relabels the junction, and closes the gap that it may leave at the label that it had. `None`, and nothing is changed,
    // where it is not relabelled.
    pub fn lift<N: Network>(&mut self, net: &N, junction: u16) -> Option<()>
        ensures told { Lifted (N.meaning net.now) self.old junction result self.new }
        ensures rises { OnSomeUnit result (rise_left self.new < rise_left self.old) }
    {
        let gap = self.label(junction);
        self.relabel(net, junction)?;
        self.close_gap(net, gap);
        Some(())
    }

    // Where no junction has this label, raises each label above it to n at least: from there no open steps lead to the outfall.
    // Labels and current steps that fit the network fit it still.
    pub fn close_gap<N: Network>(&mut self, net: &N, gap: u16)
        ensures told { GapClosed (N.meaning net.now).junctions gap self.old self.new }
        ensures fits { Fits (N.meaning net.now) (label_of self.old) (current_of self.old) →
            Fits (N.meaning net.now) (label_of self.new) (current_of self.new) }
        ensures rises { rise_left self.new ≤ rise_left self.old }
    {
        if self.labels.contains(&gap) {
            return;
        }
        let n = net.size().junctions;
        for v in 0..MOST_JUNCTIONS {
            if gap < self.labels[v] && self.labels[v] < n {
                self.labels[v] = n;
            }
        }
    }
}
