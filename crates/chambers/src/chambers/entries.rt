// Making a layer of chambers, and adding entries to it.
ghost use Rattle.std.specs.Prelude.{◌≡◌, [], ◌∷◌, ◌++◌};
ghost use Rattle.refusal.specs.Checks.{Judged, afterwards};
ghost use Rattle.layer.specs.Keeping.{own_arcs};
ghost use Rattle.chambers.specs.Entering.{chamber_checks, chamber_reach, with_chamber};
ghost use Rattle.chambers.specs.Standing.{chambers_net};

use crate::chambers::Chambers;
use crate::chambers::twins::has_twin;
use layer::{Extended, carries_any, is_crowded};
use network::bounds::{HIGHEST_SETTING, MOST_JUNCTIONS};
use network::{Network, Reach};
use refusal::{Fault, Part, Refusal};

// The most chambers that one layer may have.
const MOST_CHAMBERS: usize = 32;

impl<N: Network> Chambers<N> {
    // A layer without an entry: the network below.
    pub fn new(below: N) -> Chambers<N>
        ensures below { result.extended.below ≡ below }
        ensures own { own_arcs result.extended.own ≡ [] }
        ensures net { chambers_net result ≡ N.meaning below }
    {
        Chambers {
            extended: Extended::new(below),
            twins: [None; MOST_JUNCTIONS],
        }
    }

    // Whether the junction may have a chamber with this limit now. (Each layer has its list of checks whole, in the order in
    // which they are stated; the calls that two lists share are in crate `layer`.)
    fn judge(&self, junction: u16, limit: u32) -> Result<(), Refusal>
        ensures { Judged (chamber_checks (N.meaning self.now.extended.below) (own_arcs self.now.extended.own)
            junction limit) result }
    {
        let base = self.extended.base;
        if junction >= base.junctions {
            return Err(Refusal::new(Fault::NoJunction, Part::Chambers));
        }
        if has_twin(&self.twins, junction) {
            return Err(Refusal::new(Fault::Same, Part::Chambers));
        }
        if limit > HIGHEST_SETTING {
            return Err(Refusal::new(Fault::LimitTooHigh, Part::Chambers));
        }
        let count = self.extended.own.count();
        if count >= MOST_CHAMBERS {
            return Err(Refusal::new(Fault::NoPlace, Part::Chambers));
        }
        if is_crowded(
            usize::from(base.junctions) + count + 1,
            base.reaches + count + 1,
        ) {
            return Err(Refusal::new(Fault::StackTooLarge, Part::Chambers));
        }
        if carries_any(self) {
            return Err(Refusal::new(Fault::TooLate, Part::Chambers));
        }
        Ok(())
    }

    // Gives a junction of the network below a chamber with this limit. Refuses 2, 3, 5, 8, 9 and 14.
    pub fn enter(&mut self, junction: u16, limit: u32) -> Result<(), Refusal>
        ensures judged { Judged (chamber_checks (N.meaning self.old.extended.below) (own_arcs self.old.extended.own)
            junction limit) result }
        ensures refused { self.new ≡ afterwards result self.new self.old }
        ensures below { self.new.extended.below ≡ self.old.extended.below }
        ensures own { own_arcs self.new.extended.own ≡ afterwards result
            (own_arcs self.old.extended.own ++ (chamber_reach (N.meaning self.old.extended.below)
            (own_arcs self.old.extended.own) junction limit ∷ []))
            (own_arcs self.old.extended.own) }
        ensures net { chambers_net self.new ≡ afterwards result
            (with_chamber junction limit (chambers_net self.old)) (chambers_net self.old) }
    {
        self.judge(junction, limit)?;
        let count = self.extended.own.count();
        let twin = self.extended.base.junctions + u16::try_from(count).unwrap();
        let reach = Reach {
            tail: junction,
            head: twin,
            limit,
            carried: 0,
        };
        self.extended.insert(count, reach).unwrap();
        self.twins[usize::from(junction)] = Some(twin);
        Ok(())
    }
}
