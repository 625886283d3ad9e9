ghost use Rattle.std.specs.Prelude.{◌≡◌, ℕ, ◌==◌, count_by, length};
ghost use Rattle.searches.specs.Listing.{IsOneWhere, at_place};

use arrayvec::ArrayVec;
use network::bounds::MOST_JUNCTIONS;

// Junctions that are to be looked at, each at most once: a list of them, and for each junction whether it is in the list.
#[derive(Drop)]
pub struct Pending {
    listed: [bool; MOST_JUNCTIONS],
    list: ArrayVec<u16, MOST_JUNCTIONS>,
    ghost once: { (v : ℕ) → IsOneWhere (at_place listed v) (count_by (λ u. u == v) list.items) },
    ghost counted: { length list.items ≡ count_by (λ b. b) listed },
}

impl Pending {
    ghost use Rattle.std.specs.Prelude.{◌≤◌};
    ghost use Rattle.flow.specs.Bounds.{most_junctions};
    ghost use Rattle.searches.specs.Waiting.{IsPending, pending_count, Added, Taken};

    // None.
    pub fn none() -> Pending
        ensures none { (v : ℕ) → IsPending result v → ⊥ }
        ensures count { pending_count result ≡ 0 }
    {
        Pending {
            listed: [false; MOST_JUNCTIONS],
            list: ArrayVec::new(),
        }
    }

    // One more, if it is a junction.
    pub fn add(&mut self, junction: u16)
        ensures told { Added self.old junction self.new }
        ensures few { pending_count self.new ≤ most_junctions }
    {
        let place = usize::from(junction);
        if place < MOST_JUNCTIONS && !self.listed[place] {
            self.listed[place] = true;
            self.list.push(junction);
        }
    }

    // Takes one of them out.
    pub fn take(&mut self) -> Option<u16>
        ensures { Taken self.old result self.new }
    {
        let junction = self.list.pop()?;
        self.listed[usize::from(junction)] = false;
        Some(junction)
    }
}
