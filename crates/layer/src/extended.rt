// A network with reaches of a layer's own behind its reaches: what all layers have in common.
ghost use Rattle.std.specs.Prelude.{◌≡◌};
ghost use Rattle.std.proofs.Props.{props};
ghost use Rattle.network.specs.Answers.{size_of};
ghost use Rattle.layer.specs.Keeping.{own_arcs, Bounded};

use crate::own::{NotInserted, OwnRows};
use network::{Change, Network, Reach, Row, Size};
use refusal::{Fault, Part, Refusal};

// The network below, and the reaches that a layer adds. They are numbered in one list: first those of the network
// below, then the layer's own.
#[derive(Drop)]
pub struct Extended<N: Network> {
    pub below: N,
    // the size of the network below, which stays
    pub base: Size,
    pub own: OwnRows,
    ghost known: { base ≡ size_of (N.meaning below) } by { Prim.hlevel props },
    ghost bounded: { Bounded (own_arcs own) },
}

impl<N: Network> Extended<N> {
    ghost use Rattle.std.specs.Prelude.{ℕ, [], length};
    ghost use Rattle.std.specs.List.{insert};
    ghost use Rattle.refusal.specs.Checks.{afterwards};
    ghost use Rattle.network.specs.Answers.{Told, arc_in};
    ghost use Rattle.network.specs.Touching.{Touched};
    ghost use Rattle.layer.specs.Keeping.{SameEnds, Insertion};
    ghost use Rattle.layer.specs.Extending.{all_reaches, extended_giver, ExtendedChange, TouchedBehind};

    // The network below, and no reach more.
    pub fn new(below: N) -> Extended<N>
        ensures below { result.below ≡ below }
        ensures own { own_arcs result.own ≡ [] }
    {
        let base = below.size();
        Extended {
            below,
            base,
            own: OwnRows::new(),
        }
    }

    // The record of reach k. Refuses 4.
    pub fn reach(&self, k: usize) -> Result<Reach, Refusal>
        ensures { Told (all_reaches self.now) k result }
    {
        if k < self.base.reaches {
            return self.below.reach(k);
        }
        let refusal = Refusal::new(Fault::NoReach, Part::Network);
        let row = self.own.row(k - self.base.reaches).ok_or(refusal)?;
        // No row that was put in breaks a bound.
        Ok(Reach::try_from(row).unwrap())
    }

    // The lowest number from k on of one of the layer's own reaches that has the junction at an end, if there is one.
    pub fn touch_own(&self, junction: u16, k: usize) -> Option<usize>
        ensures { TouchedBehind junction self.now.base.reaches (own_arcs self.now.own) k result }
    {
        let e = self
            .own
            .touch(junction, k.saturating_sub(self.base.reaches))?;
        Some(self.base.reaches + e)
    }

    // The lowest reach number from k on whose reach has the junction at an end, if there is one.
    pub fn touch(&self, junction: u16, k: usize) -> Option<usize>
        ensures { Touched junction (all_reaches self.now) k result }
    {
        self.below
            .touch(junction, k)
            .or_else(|| self.touch_own(junction, k))
    }

    // Sets one number of reach k. The part answers for the layer's own reaches.
    pub fn change(&mut self, k: usize, change: Change, part: Part) -> Result<(), Refusal>
        ensures done { ExtendedChange change part self.old k result self.new }
        ensures base { self.new.base ≡ self.old.base }
        ensures ends { SameEnds (own_arcs self.old.own) (own_arcs self.new.own) }
        ensures giver { (j : ℕ) → extended_giver part self.new j ≡ extended_giver part self.old j }
    {
        let count = self.base.reaches;
        if k < count {
            return self.below.change(k, change);
        }
        self.own.change(k - count, change, part)
    }

    // Puts one more reach before the layer's reach `at`, or behind all where `at` is their number. Nothing is changed
    // where there is no room or `at` is a higher number.
    pub fn insert(&mut self, at: usize, reach: Reach) -> Result<(), NotInserted>
        ensures told { Insertion (length (own_arcs self.old.own)) at result }
        ensures own { own_arcs self.new.own ≡ afterwards result (insert (own_arcs self.old.own) at (arc_in reach))
            (own_arcs self.old.own) }
        ensures below { self.new.below ≡ self.old.below }
        ensures base { self.new.base ≡ self.old.base }
        ensures refused { self.new.own ≡ afterwards result self.new.own self.old.own }
    {
        self.own.insert(at, Row::from(reach))
    }
}
