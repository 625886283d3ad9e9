// A gathering as a network.
ghost use Rattle.gathering.specs.Standing.{gathering_net, gathering_giver, gathering_sound};

use crate::gathering::Gathering;
use network::{Change, Network, Reach, Size};
use refusal::{Part, Refusal};

impl<N: Network> Network for Gathering<N> {
    ghost meaning = { gathering_net };

    ghost sound = { gathering_sound };

    ghost giver = { gathering_giver };

    fn size(&self) -> Size {
        let base = self.extended.base;
        let count = self.extended.own.count();
        if count == 0 {
            return base;
        }
        Size {
            junctions: base.junctions + 2,
            reaches: base.reaches + count,
            intake: base.junctions,
            outfall: base.junctions + 1,
        }
    }

    fn reach(&self, k: usize) -> Result<Reach, Refusal> {
        self.extended.reach(k)
    }

    fn touch(&self, junction: u16, k: usize) -> Option<usize> {
        self.extended.touch(junction, k)
    }

    fn change(&mut self, k: usize, change: Change) -> Result<(), Refusal> {
        self.extended.change(k, change, Part::Gathering)
    }
}
