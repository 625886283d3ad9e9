// Making a gathering, and adding entries to it.
ghost use Rattle.std.specs.Prelude.{◌≡◌, false, length};
ghost use Rattle.refusal.specs.Checks.{Judged, afterwards};
ghost use Rattle.network.specs.Answers.{arc_in};
ghost use Rattle.layer.specs.Keeping.{own_arcs};
ghost use Rattle.layer.specs.Gathered.{gathered};
ghost use Rattle.gathering.specs.Entering.{no_feeders, of_role, with_feeder, feeder, listed, too_high, Placed, gather_checks};
ghost use Rattle.gathering.specs.Standing.{feeders_of, gathering_net};

use crate::gathering::Gathering;
use crate::limits::{is_too_high, limit_of};
use crate::role::Role;
use layer::{Extended, carries_any, is_crowded};
use network::{Network, Reach};
use refusal::{Fault, Part, Refusal};

// The most sources, and the most sinks, that one gathering may have.
const MOST_OF_EACH: usize = 16;

impl<N: Network> Gathering<N> {
    // A layer without an entry: the network below.
    pub fn new(below: N) -> Gathering<N>
        ensures below { result.extended.below ≡ below }
        ensures feeders { feeders_of result ≡ no_feeders }
        ensures net { gathering_net result ≡ N.meaning below }
    {
        Gathering {
            extended: Extended::new(below),
            sources: 0,
        }
    }

    // How many junctions have this role.
    fn count_of(&self, role: Role) -> usize
        ensures { result ≡ length (of_role role (feeders_of self.now)) }
    {
        match role {
            Role::Source => self.sources,
            Role::Sink => self.extended.own.count() - self.sources,
        }
    }

    // Whether the junction may be entered in this role now, with the limit that is stated for its feeder, if one is.
    fn judge(&self, role: Role, junction: u16, stated: Option<u32>) -> Result<(), Refusal>
        ensures { Judged
            (gather_checks role (N.meaning self.now.extended.below) (feeders_of self.now) junction stated) result }
    {
        let base = self.extended.base;
        if junction >= base.junctions {
            return Err(Refusal::new(Fault::NoJunction, Part::Gathering));
        }
        if is_too_high(stated) {
            return Err(Refusal::new(Fault::LimitTooHigh, Part::Gathering));
        }
        if self.count_of(role) >= MOST_OF_EACH {
            return Err(Refusal::new(Fault::NoPlace, Part::Gathering));
        }
        if is_crowded(
            usize::from(base.junctions) + 2,
            base.reaches + self.extended.own.count() + 1,
        ) {
            return Err(Refusal::new(Fault::StackTooLarge, Part::Gathering));
        }
        if carries_any(self) {
            return Err(Refusal::new(Fault::TooLate, Part::Gathering));
        }
        Ok(())
    }

    // The feeder of a junction: of a source, from the new intake; of a sink, to the new outfall; and dry.
    fn feeder(&self, role: Role, junction: u16, stated: Option<u32>) -> Reach
        requires { too_high stated ≡ false }
        ensures { arc_in result ≡ feeder role (N.meaning self.now.extended.below) junction stated }
    {
        let n = self.extended.base.junctions;
        let (tail, head) = match role {
            Role::Source => (n, junction),
            Role::Sink => (junction, n + 1),
        };
        Reach {
            tail,
            head,
            limit: limit_of(stated),
            carried: 0,
        }
    }

    // The place of one more of this role among the feeders, and how many sources there are then.
    fn place_of(&self, role: Role) -> (usize, usize)
        ensures { Placed role self.now.sources (own_arcs self.now.extended.own) result.0 result.1 }
    {
        match role {
            Role::Source => (self.sources, self.sources + 1),
            Role::Sink => (self.extended.own.count(), self.sources),
        }
    }

    // Names a junction of the network below as a source or as a sink. Refuses 2, 5, 8, 9 and 14. (Role, junction and limit
    // are no struct: each caller has the three apart, and would put them together for this call and for nothing else.)
    pub fn enter(&mut self, role: Role, junction: u16, stated: Option<u32>) -> Result<(), Refusal>
        ensures judged { Judged
            (gather_checks role (N.meaning self.old.extended.below) (feeders_of self.old) junction stated) result }
        ensures refused { self.new ≡ afterwards result self.new self.old }
        ensures below { self.new.extended.below ≡ self.old.extended.below }
        ensures feeders { feeders_of self.new ≡ afterwards result
            (with_feeder role (feeder role (N.meaning self.old.extended.below) junction stated) (feeders_of self.old))
            (feeders_of self.old) }
        ensures net { gathering_net self.new
            ≡ gathered (N.meaning self.old.extended.below) (listed (feeders_of self.new)) }
    {
        self.judge(role, junction, stated)?;
        let feeder = self.feeder(role, junction, stated);
        let (at, sources) = self.place_of(role);
        self.extended.insert(at, feeder).unwrap();
        self.sources = sources;
        Ok(())
    }
}
