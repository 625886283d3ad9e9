// A layer of chambers as a network.
ghost use Rattle.std.specs.Prelude.{map};
ghost use Rattle.network.specs.Touching.{Touched};
ghost use Rattle.layer.specs.Keeping.{own_arcs};
ghost use Rattle.layer.specs.Layering.{leaving_from};
ghost use Rattle.layer.specs.Chambered.{left_from};
ghost use Rattle.chambers.specs.Standing.{chambers_net, chambers_giver, chambers_sound};

use crate::chambers::Chambers;
use crate::chambers::twins::{has_twin, left_from};
use layer::{End, next_at};
use network::{Change, Network, Reach, Size};
use refusal::{Part, Refusal};

impl<N: Network> Chambers<N> {
    // The lowest number from k on of a reach of the network below that touches the junction now.
    fn touch_below(&self, junction: u16, k: usize) -> Option<usize>
        ensures { Touched junction (map (leaving_from (left_from (own_arcs self.now.extended.own)))
            (N.meaning self.now.extended.below).reaches) k result }
    {
        let below = &self.extended.below;
        let junctions = self.extended.base.junctions;
        if junction >= junctions {
            // A twin is touched by what left its junction.
            let row = self.extended.own.row(usize::from(junction - junctions))?;
            return next_at(below, End::Tail, row.tail, k);
        }
        // What left a chambered junction leaves its twin, so only what enters it is left.
        if has_twin(&self.twins, junction) {
            next_at(below, End::Head, junction, k)
        } else {
            below.touch(junction, k)
        }
    }
}

impl<N: Network> Network for Chambers<N> {
    ghost meaning = { chambers_net };

    ghost sound = { chambers_sound };

    ghost giver = { chambers_giver };

    fn size(&self) -> Size {
        let base = self.extended.base;
        let count = self.extended.own.count();
        Size {
            junctions: base.junctions + u16::try_from(count).unwrap(),
            reaches: base.reaches + count,
            intake: base.intake,
            outfall: left_from(&self.twins, base.outfall),
        }
    }

    fn reach(&self, k: usize) -> Result<Reach, Refusal> {
        let reach = self.extended.reach(k)?;
        if k >= self.extended.base.reaches {
            return Ok(reach);
        }
        // All fields: `..` is not for a type with ghost fields.
        Ok(Reach {
            tail: left_from(&self.twins, reach.tail),
            head: reach.head,
            limit: reach.limit,
            carried: reach.carried,
        })
    }

    fn touch(&self, junction: u16, k: usize) -> Option<usize> {
        self.touch_below(junction, k)
            .or_else(|| self.extended.touch_own(junction, k))
    }

    fn change(&mut self, k: usize, change: Change) -> Result<(), Refusal> {
        self.extended.change(k, change, Part::Chambers)
    }
}
